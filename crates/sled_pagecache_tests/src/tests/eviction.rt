// Pages that leave memory, the one that was used longest ago first.

use super::*;
use sled_pagecache_testing::scripts::walks_at;
use sled_pagecache_testing::steps::Change::Set;
use sled_pagecache_testing::steps::Outcome::{At, Stale};
use sled_pagecache_testing::steps::Sight::{Empty, Holds};
use sled_pagecache_testing::steps::Step::{AddsFrom, Gets, Links, Reads};
use sled_pagecache_testing::steps::{PAIR, Step};

// The empty leaves 2 to 258. Each of them takes 25 bytes of the log, rounded 32, and 2 and 258 share a shard.
const CROWD: Step = AddsFrom(2, 259);

const FIRST: Step = Gets(2, Empty(1));

const LAST: Step = Gets(258, Empty(1));

// A link after which page 258 takes 146 bytes of the log, rounded 256.
const LENGTHENS: Step = Links(258, 1, Set(b"b", &[7; 100]), At(2));

const LONG: Step = Gets(258, Holds(2, 1));

// Caches of which each shard has room for so many bytes, and how often the log was read at the end.
const SCRIPTS: &[(&str, u32, &[Step])] = &[
    ("the last page stays", 1, &[CROWD, LAST, Reads(0)]),
    ("the first has left", 1, &[CROWD, FIRST, Reads(1)]),
    ("it stays then", 1, &[CROWD, FIRST, FIRST, Reads(1)]),
    (
        "the last has left then",
        1,
        &[CROWD, FIRST, FIRST, LAST, Reads(2)],
    ),
    (
        "each puts out the other",
        1,
        &[CROWD, FIRST, LAST, FIRST, Reads(3)],
    ),
    (
        "pages that are alone in their shards stay",
        1,
        &[
            CROWD,
            Gets(3, Empty(1)),
            Gets(4, Empty(1)),
            Gets(257, Empty(1)),
            Reads(0),
        ],
    ),
    (
        "a byte too few for two pages",
        63,
        &[CROWD, LAST, FIRST, LAST, Reads(2)],
    ),
    (
        "room for two pages",
        64,
        &[CROWD, LAST, FIRST, LAST, Reads(0)],
    ),
    (
        "a stale link reads nothing",
        1,
        &[CROWD, Links(2, 7, PAIR, Stale(1)), Reads(0)],
    ),
    (
        "a link reads the page",
        1,
        &[CROWD, Links(2, 1, PAIR, At(2)), Reads(1)],
    ),
    (
        "a page larger than its shard stays alone",
        64,
        &[CROWD, LENGTHENS, LONG, LONG, FIRST, Reads(1)],
    ),
    (
        "a byte too few for both",
        287,
        &[CROWD, LENGTHENS, LONG, LONG, FIRST, Reads(1)],
    ),
    (
        "room for both",
        288,
        &[CROWD, LENGTHENS, LONG, LONG, FIRST, Reads(0)],
    ),
];

// The first script that doesn't show all that it should, and how many of its steps do so before.
fn first_wrong_of_shards(alloc: Global) -> Option<(&'static str, usize)> {
    for (name, shard, steps) in SCRIPTS {
        let config = Config {
            cache_capacity: 256 * u64::from(*shard),
            ..CONFIG
        };
        let done = walks_at(alloc, config, 512, steps);
        if done != steps.len() {
            return Some((*name, done));
        }
    }
    None
}

#[test]
fn the_pages_of_the_last_use_stay(rt: HostRuntime) {
    assert_eq!(rt; first_wrong_of_shards(rt.alloc()), None);
}
