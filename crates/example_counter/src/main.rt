//! A counter that threads share: each of four threads draws 250 numbers from one cache, and no number is drawn twice or skipped.
//!
//! The numbers are the cache's ids. `SharedPageCache` also has calls for pages, named roots and batches.
#![tactic(auto)]

ghost use Rattle.std.specs.Prelude.{◌≡◌};

use sled_pagecache::{Config, Device, Error, MemLog, PageCache};
use sled_shared::{Blank, Called, Entry, Gate, SharedPageCache, Tally, run_crew};
use std::alloc::Global;
use std::marker::Brand;
use std::sync::{Arc, Wait};
use std::thread::Threads;

const CONFIG: Config = Config {
    cache_capacity: 1 << 20,
    idgen_persist_interval: 100,
    segment_size: 4096,
};

/// A worker passes a gate before and after each call. This one lets every call through; another could count them.
#[derive(Drop)]
struct Open;

impl Gate for Open {
    fn before(&self, _worker: usize, _call: u64) {}

    fn after(&self, _worker: usize, _call: u64) {}
}

/// Shares a new cache among four threads. Each thread has a part of a ledger, by which its calls are counted, and the cache has one more part.
///
/// The first two conditions name the ledger, and are met where `main` calls `draw`. The third requires nothing of a caller: `K.known` would say that
/// the cache's pages are known, and then the book would be known to replay from them.
fn share_new<K: Tally>(alloc: Global, blank: Blank) -> Result<SharedPageCache<MemLog, K>, Error>
    requires name { (blank.name ≡ K.name) × (blank.history ≡ K.history) }
    requires parts { (blank.parts ≡ 5) × (K.parts ≡ 5) }
    requires unknown { K.known → ⊥ }
{
    let log = MemLog::new(alloc, 512, 0);
    let cache = PageCache::start(alloc, CONFIG, log).map_err(|(error, _)| error)?;
    SharedPageCache::over(alloc, cache, usize::MAX, 5, blank).map_err(|(error, _)| error)
}

/// Returns whether the calls in the book drew 0, 1, 2 and so on.
fn are_in_order(entries: &[Entry]) -> bool {
    entries.iter().enumerate().all(|(place, entry)| match entry.called() {
        Called::GenerateId(Ok(number)) => *number == place as u64,
        _ => false,
    })
}

/// Draws `times` numbers in each of four threads. Returns how many calls the book has then, and whether they are in order.
fn draw<K: Tally + Send + Sync + 'static, R: Threads + Wait + Copy + Send + 'static>(
    rt: R,
    alloc: Global,
    blank: Blank,
    times: u64,
) -> Result<(usize, bool), Error>
    requires name { (blank.name ≡ K.name) × (blank.history ≡ K.history) }
    requires parts { (blank.parts ≡ 5) × (K.parts ≡ 5) }
    requires unknown { K.known → ⊥ }
{
    let shared = share_new::<K>(alloc, blank)?;
    let mut shares = Vec::new(alloc);
    for _ in 0..4 {
        if let Some(share) = shared.share(&rt) {
            shares.push(share)?;
        }
    }
    let shared = Arc::new(alloc, shared)?;
    let crew = Arc::try_clone(&shared)?;
    let gate = Arc::new(alloc, Open)?;
    run_crew(rt, alloc, crew, shares, times, gate).map_err(|(error, _)| error)?;
    let book = shared.take_book(&rt)?;
    Ok((book.entries().len(), are_in_order(book.entries())))
}

fn main(rt: HostRuntime) -> Result<(), Error> {
    let (calls, in_order) = draw::<Brand, _>(rt, rt.alloc(), Blank::new(5), 250)?;
    let printed = println!(rt; "{calls} numbers were drawn, in order: {in_order}");
    printed.map_err(|_| Error::Io(Device::Write))
}
