//! Threads that generate ids from one cache.

ghost use Rattle.std.specs.Prelude.{◌≡◌, ◌<◌, ◌≤◌, ◌+◌, ◌*◌, ◌^◌, IfOk, sum_by};
ghost use Rattle.sled_shared.specs.Held.{count_of};

use super::open_memory;
use sled_pagecache::{Error, MemLog};
use sled_shared::{Blank, Gate, Held, Share, SharedPageCache, Tally, run_crew};
use std::alloc::Global;
use std::sync::{Arc, Wait};
use std::thread::Threads;

/// A gate that lets every call through.
#[derive(Drop)]
struct Open;

impl Gate for Open {
    fn before(&self, _worker: usize, _call: u64) {}

    fn after(&self, _worker: usize, _call: u64) {}
}

/// Generates `calls` ids in each of `workers` threads, over a new log in memory, and returns how many calls were recorded.
pub fn draw_ids<K: Tally + Send + Sync + 'static, T: Threads + Wait + Copy + Send + 'static>(
    rt: T,
    alloc: Global,
    workers: u64,
    calls: u64,
    blank: Blank,
) -> Result<u64, Error>
    requires workers { workers ≤ 64 }
    requires calls { calls ≤ 10000 }
    requires name { (blank.name ≡ K.name) × (blank.history ≡ K.history) }
    requires parts { (blank.parts ≡ workers + 1) × (K.parts ≡ workers + 1) }
    ensures { IfOk result (λ made. made ≡ workers * calls) }
{
    let cache = open_memory(alloc)?;
    let limit = workers * calls;
    let mut held = Held::<MemLog, K>::over(
        alloc,
        cache,
        limit as usize,
        workers + 1,
        blank,
    ).map_err(|refused| refused.0)?;
    let mut shares = Vec::new(alloc);
    while let Some(share) = held.share() {
        shares.push(share)?;
    }
    let shared = Arc::new(alloc, SharedPageCache::of(held))?;
    let gate = Arc::new(alloc, Open)?;
    match run_crew(rt, alloc, shared, shares, calls, gate) {
        Ok(shares) => Ok(sum_of(shares.as_slice())),
        Err((error, _)) => Err(error),
    }
}

// The sum of the counts.
fn sum_of<K: Tally>(shares: &[Share<K>]) -> u64
    requires { sum_by count_of shares.now < 2 ^ 64 }
    ensures { result ≡ sum_by count_of shares.now }
{
    let mut sum = 0;
    for share in shares {
        sum += share.count();
    }
    sum
}
