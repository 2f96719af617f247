// Generated ids, over caches that are opened one after another.

mod runs;

use self::runs::RUNS;
use super::*;
use sled_pagecache_testing::calls::{adds, draws};
use sled_pagecache_testing::failing::Trouble::Write;
use sled_pagecache_testing::openings::Ending::Crash;
use sled_pagecache_testing::openings::{Faulty, ended, first_wrong_run, opened_with};
use sled_pagecache_testing::steps::Outcome;

#[test]
fn ids_are_above_those_of_earlier_openings(rt: HostRuntime) {
    assert_eq!(rt; first_wrong_run(rt.alloc(), RUNS), None);
}

// ---- crashes at each event

// Adds a page and draws an id, so many times. The bound above all ids that came, if each of them was not below that of those before.
fn rises(alloc: Global, cache: &mut Faulty, count: u32, bound: u128) -> Option<u128> {
    let mut bound = bound;
    for _ in 0..count {
        let _ = adds(cache, Node::default(alloc));
        if let Outcome::Id(id) = draws(cache) {
            if u128::from(id) < bound {
                return None;
            }
            bound = u128::from(id) + 1;
        }
    }
    Some(bound)
}

// Where an opening ends: at the write with this number, or behind all, by a crash that keeps so many of the pending events.
type End = (u64, usize);

// What is left of an opening that draws so many ids, if it may end so, and the bound above all ids.
fn drawn(
    alloc: Global,
    log: MemLog,
    interval: u64,
    count: u32,
    end: End,
    bound: &mut Option<u128>,
) -> Option<MemLog> {
    let mut cache = opened_with(alloc, log, interval, &Write(end.0)).ok()?;
    *bound = rises(alloc, &mut cache, count, (*bound)?);
    ended(log_of(cache)?, &Crash(end.1))
}

// Whether the ids of openings that draw so many each rise, as far as they may end so.
fn are_rising(alloc: Global, interval: u64, count: u32, ends: &[End]) -> bool {
    let mut log = MemLog::new(alloc, 512, 16);
    let mut bound = Some(0);
    for end in ends {
        let Some(left) = drawn(alloc, log, interval, count, *end, &mut bound) else {
            return bound.is_some();
        };
        log = left;
    }
    bound.is_some()
}

// Whether the ids rise over three openings, wherever the first two end: at one of so many writes, with up to two pending events.
fn rise(alloc: Global, interval: u64, count: u32, writes: u64) -> bool {
    let each = writes.saturating_mul(3);
    for first in 0..each {
        for second in 0..each {
            let ends = [end_of(first), end_of(second), (0, 0)];
            if !are_rising(alloc, interval, count, &ends) {
                return false;
            }
        }
    }
    true
}

fn end_of(n: u64) -> End {
    (n / 3, (n % 3) as usize)
}

#[test]
fn no_id_comes_twice_wherever_a_crash_comes(rt: HostRuntime) {
    for (interval, count, writes) in [(1, 2, 8), (2, 3, 9)] {
        assert!(rt; rise(rt.alloc(), interval, count, writes), "{interval}");
    }
}
