// How much of a log is live: 35 bytes of the system pages, 25 of an empty leaf, 22 of a link of a short pair, and 29 of a leaf that has it.

use super::*;
use sled_pagecache_testing::memory::{new_cache, opens};
use sled_pagecache_testing::steps::Outcome::At;
use sled_pagecache_testing::steps::Step::{
    Adds, AddsFrom, Flushes, Frees, Links, LinksFrom, Replaces,
};
use sled_pagecache_testing::steps::{PAIR, Step, shown};

const ROWS: &[(&str, &[Step], u64)] = &[
    ("no page", &[], 35),
    ("one page", &[AddsFrom(2, 3)], 60),
    ("seventeen pages", &[AddsFrom(2, 19)], 460),
    ("a thousand pages", &[AddsFrom(2, 1_002)], 25_035),
    ("what is flushed", &[Adds(2, 1), Flushes], 60),
    ("a link", &[Adds(2, 1), Links(2, 1, PAIR, At(2))], 82),
    ("nine links", &[Adds(2, 1), LinksFrom(2, 1, 9)], 258),
    (
        "the tenth link writes the node, and the others are needless",
        &[Adds(2, 1), LinksFrom(2, 1, 9), Links(2, 10, PAIR, At(11))],
        64,
    ),
    ("a replaced page", &[Adds(2, 1), Replaces(2, 1, At(2))], 60),
    (
        "a free page",
        &[Adds(2, 1), Adds(3, 1), Frees(3, 1, At(2))],
        60,
    ),
    (
        "a page that is used again",
        &[Adds(2, 1), Frees(2, 1, At(2)), Adds(2, 3)],
        60,
    ),
];

// How many bytes are live behind the steps, and once the log was opened again.
fn live_after(alloc: Global, steps: &[Step]) -> Option<(u64, u64)> {
    let mut cache = new_cache(alloc)?;
    if shown(alloc, &mut cache, steps) < steps.len() {
        return None;
    }
    let live = cache.live_bytes();
    let again = opens(alloc, log_of(cache)?)?;
    Some((live, again.live_bytes()))
}

#[test]
fn what_makes_the_pages_is_live(rt: HostRuntime) {
    for (title, steps, live) in ROWS {
        assert_eq!(rt;
            live_after(rt.alloc(), steps),
            Some((*live, *live)),
            "{title}"
        );
    }
}
