ghost use Rattle.std.specs.Prelude.{◌≡◌, false};
ghost use Rattle.sled_pagecache.specs.Trees.{IsKnown};

use sled_pagecache::{Error, Log, PageCache};
use sled_shared::{Blank, Gate, SharedPageCache, Tally, run_crew};
use std::alloc::Global;
use std::sync::{Arc, Wait};
use std::thread::Threads;

// A gate that no call waits at.
#[derive(Drop)]
struct Open;

impl Gate for Open {
    fn before(&self, _worker: usize, _call: u64) {}

    fn after(&self, _worker: usize, _call: u64) {}
}

// Draws so many ids in each of two threads, and answers how many calls the book has.
fn draw_by_two<
    L: Log + Send + 'static,
    K: Tally + Send + Sync + 'static,
    R: Threads + Wait + Copy + Send + 'static,
>(rt: R, alloc: Global, cache: PageCache<L>, blank: Blank, calls: u64) -> Result<usize, Error>
    requires name { (blank.name ≡ K.name) × (blank.history ≡ K.history) }
    requires parts { (blank.parts ≡ 3) × (K.parts ≡ 3) }
    requires closed { cache.batch ≡ false }
    requires known { K.known → L.tells → IsKnown L.Log cache }
{
    let shared = SharedPageCache::<L, K>::over(alloc, cache, usize::MAX, 3, blank).map_err(|(
        error,
        _,
    )| error)?;
    let mut shares = Vec::new(alloc);
    for _ in 0..2 {
        if let Some(share) = shared.share(&rt) {
            shares.push(share)?;
        }
    }
    let shared = Arc::new(alloc, shared)?;
    let crew = Arc::try_clone(&shared)?;
    let gate = Arc::new(alloc, Open)?;
    run_crew(rt, alloc, crew, shares, calls, gate).map_err(|(error, _)| error)?;
    Ok(shared.take_book(&rt)?.entries().len())
}

use crate::crews::new_cache;
use sled_pagecache::MemLog;
use std::marker::Brand;
use std::test::Fail;

#[test]
fn two_threads_draw_ids(rt: HostRuntime) -> Result<(), Fail> {
    let cache = new_cache(rt.alloc())?;
    let calls = draw_by_two::<MemLog, Brand, _>(rt, rt.alloc(), cache, Blank::new(3), 50)?;
    assert_eq!(rt; calls, 100);
    Ok(())
}
