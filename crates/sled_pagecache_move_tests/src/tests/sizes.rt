// How much a cache takes of its log, and how much its pages would take. The system pages take 35 bytes of a log in memory, and an empty
// leaf 25; a counter and a segment take 4104, an empty leaf 128, and a pair of two bytes 2 more.

use super::told::{Answer, Message, PAGES, Told, got, opened};
use super::*;
use sled_pagecache_testing::disks::Part::{Again, Plain};
use sled_pagecache_testing::disks::{Part, written};
use sled_pagecache_testing::failing::Trouble::{Never, Read};
use sled_pagecache_testing::memory::{made, new_cache, opens};
use sled_pagecache_testing::openings::Ending::HandedOn;
use sled_pagecache_testing::openings::{Opening, lasts};
use sled_pagecache_testing::scripts::{Script, first_wrong, walks_at};
use sled_pagecache_testing::steps::Outcome::{At, Done, Id, Unread};
use sled_pagecache_testing::steps::Sight::Empty;
use sled_pagecache_testing::steps::Step::{
    Adds, AddsBetween, AddsFrom, Flushes, Frees, Gets, Links, LinksFrom, Measures, Opens, Reads,
    Reopens, Swaps, Takes, Unmeasured, Unopened,
};
use sled_pagecache_testing::steps::{LONG, PAIR, Step};

// ---- what is measured

const SCRIPTS: &[Script] = &[
    ("no page", &[Measures(35, 4104)]),
    ("one page", &[AddsFrom(2, 3), Measures(60, 4232)]),
    ("two pages", &[AddsFrom(2, 4), Measures(85, 4360)]),
    ("three pages", &[AddsFrom(2, 5), Measures(110, 4488)]),
    ("sixteen pages", &[AddsFrom(2, 18), Measures(435, 6152)]),
    ("seventeen pages", &[AddsFrom(2, 19), Measures(460, 6280)]),
    (
        "a thousand pages",
        &[AddsFrom(2, 1_002), Measures(25_035, 132_104)],
    ),
    (
        "what is flushed counts as what is pending",
        &[Adds(2, 1), Flushes, Measures(60, 4232), Takes(60)],
    ),
    (
        "a free page takes nothing",
        &[
            Adds(2, 1),
            Adds(3, 1),
            Frees(2, 1, At(2)),
            Measures(102, 4232),
            Frees(3, 1, At(2)),
            Measures(119, 4104),
            Adds(3, 3),
            Measures(144, 4232),
        ],
    ),
    (
        "links grow a node, and a longer chain doesn't",
        &[
            Adds(2, 1),
            Links(2, 1, PAIR, At(2)),
            Measures(82, 4234),
            LinksFrom(2, 2, 8),
            Measures(258, 4234),
            Links(2, 10, PAIR, At(11)),
            Measures(287, 4234),
        ],
    ),
    (
        "a stored key lacks the prefix",
        &[
            AddsBetween(2, b"ba", b"bz"),
            Measures(64, 4236),
            Links(2, 1, PAIR, At(2)),
            Measures(86, 4238),
        ],
    ),
    (
        "a name takes its length and eight",
        &[
            Swaps(b"a", None, Some(2), Done),
            Measures(55, 4113),
            Swaps(LONG, None, Some(u64::MAX), Done),
            Measures(108, 4144),
            Swaps(b"a", Some(2), None, Done),
            Measures(158, 4135),
        ],
    ),
    (
        "a tree is a leaf, an index and a name",
        &[Opens(b"t", Id(3)), Measures(107, 4377)],
    ),
];

#[test]
fn a_cache_is_measured(rt: HostRuntime) {
    assert_eq!(rt; first_wrong(rt.alloc(), SCRIPTS), None);
}

// The greatest segment, and the least.
const SEGMENTS: &[(usize, u128)] = &[(usize::MAX, 18_446_744_073_709_551_615 + 136), (1, 137)];

#[test]
fn a_segment_of_each_size_is_added(rt: HostRuntime) {
    for (segment_size, pages) in SEGMENTS {
        let config = Config {
            segment_size: *segment_size,
            ..CONFIG
        };
        let steps = [Adds(2, 1), Measures(60, *pages)];
        assert_eq!(rt;
            walks_at(rt.alloc(), config, 512, &steps),
            2,
            "{segment_size}"
        );
    }
}

// ---- what is read, and not kept

// The empty leaves 2 to 258, of which 2 and 258 share a shard. It has room for one, so page 2 has left memory.
const CROWD: Step = AddsFrom(2, 259);

const ALL: Step = Measures(6_460, 37_000);

const FIRST: Step = Gets(2, Empty(1));

const LAST: Step = Gets(258, Empty(1));

const LINKED: Step = Links(2, 1, PAIR, At(2));

const THEN_ALL: Step = Measures(6_482, 37_002);

// How often the log was read at the end.
const SHARDS: &[Script] = &[
    ("one is read", &[CROWD, ALL, Reads(1)]),
    ("again each time", &[CROWD, ALL, ALL, ALL, Reads(3)]),
    ("the last stays", &[CROWD, ALL, LAST, Reads(1)]),
    ("the first is read again", &[CROWD, ALL, FIRST, Reads(2)]),
    (
        "once for each of its messages",
        &[CROWD, LINKED, LAST, THEN_ALL, Reads(4)],
    ),
    (
        "behind an opening all are read",
        &[
            Adds(2, 1),
            Adds(3, 1),
            LinksFrom(2, 1, 3),
            Reopens,
            Measures(151, 4362),
            Reads(2 + 5),
            Measures(151, 4362),
            Gets(3, Empty(0)),
            Reads(7 + 2 + 5 + 1),
        ],
    ),
    (
        "those that lie in memory then aren't",
        &[
            Adds(2, 1),
            Adds(3, 1),
            Frees(3, 1, At(2)),
            Reopens,
            Gets(2, Empty(0)),
            Measures(102, 4232),
            Reads(3),
        ],
    ),
];

// The first script that doesn't show all that it should, where each shard has room for one page.
fn first_wrong_of_shards(alloc: Global) -> Option<(&'static str, usize)> {
    let config = Config {
        cache_capacity: 256,
        ..CONFIG
    };
    for (name, steps) in SHARDS {
        let done = walks_at(alloc, config, 512, steps);
        if done != steps.len() {
            return Some((*name, done));
        }
    }
    None
}

#[test]
fn what_is_read_to_be_measured_is_not_kept(rt: HostRuntime) {
    assert_eq!(rt; first_wrong_of_shards(rt.alloc()), None);
}

// ---- reads that fail

// Page 2, of a leaf and three links, and page 3, of an empty leaf, both flushed.
const TWO_PAGES: Opening<'static> = (
    10,
    Never,
    &[Adds(2, 1), Adds(3, 1), LinksFrom(2, 1, 3), Flushes],
    HandedOn,
);

const BOTH: Step = Measures(151, 4362);

const UNOPENED: &[Step] = &[Unopened(Unread)];

const NOT_AT_FIRST: &[Step] = &[Unmeasured(Unread), BOTH, BOTH];

// Both pages measured, where the read with a number fails.
const FAILING: &[(u64, &[Step])] = &[
    (2, UNOPENED),
    (3, NOT_AT_FIRST),
    (4, NOT_AT_FIRST),
    (5, NOT_AT_FIRST),
    (6, NOT_AT_FIRST),
    (7, NOT_AT_FIRST),
    (8, &[BOTH, Unmeasured(Unread), BOTH]),
];

#[test]
fn a_read_that_fails_leaves_the_next_measure(rt: HostRuntime) {
    for (number, steps) in FAILING {
        let openings = [TWO_PAGES, (10, Read(*number), *steps, HandedOn)];
        assert_eq!(rt; lasts(rt.alloc(), &openings), 2, "read {number}");
    }
}

// ---- damaged pages

// Whether the cache is measured so, twice, and asking for page 2 answers as it does without.
fn is_told(alloc: Global, messages: &'static [Message], wanted: Answer) -> bool {
    match opened(alloc, messages) {
        Some(mut cache) => {
            is_measured(&mut cache, wanted)
                && is_measured(&mut cache, wanted)
                && got(&mut cache) == Some(wanted)
        }
        None => false,
    }
}

// Whether pages 2 and 3 are measured, or page 2 is reported by its first wrong message.
fn is_measured(cache: &mut Told, wanted: Answer) -> bool {
    match cache.space_amplification() {
        Ok(sizes) => wanted == Answer::Pair && sizes == (0, 4362),
        Err(Error::Corruption(Some(place))) => wanted == Answer::Wrong(place.lid()),
        Err(Error::ReportableBug(Bug::FreeInPull)) => wanted == Answer::Free,
        Err(_) => false,
    }
}

#[test]
fn a_damaged_page_is_not_passed_over(rt: HostRuntime) {
    for (messages, wanted) in PAGES {
        assert!(rt; is_told(rt.alloc(), messages, *wanted), "{messages:?}");
    }
}

// ---- refused allocations

const FILLED: &[Step] = &[
    Adds(2, 1),
    Adds(3, 1),
    LINKED,
    Measures(107, 4362),
    Frees(3, 1, At(2)),
];

// Page 2 is read each time.
const FOUND: &[Step] = &[Measures(124, 4234), Measures(124, 4234)];

// How many of these steps show what they should, in a new cache and in one that is opened again over its log.
fn steps_made(alloc: Global) -> Option<(usize, usize)> {
    let mut cache = new_cache(alloc)?;
    let filled = made(alloc, &mut cache, FILLED);
    let mut cache = opens(alloc, log_of(cache)?)?;
    Some((filled, made(alloc, &mut cache, FOUND)))
}

#[test]
fn a_refused_allocation_leaves_the_next_measure(rt: HostRuntime) {
    assert_eq!(rt; steps_made(rt.alloc()), Some((FILLED.len(), FOUND.len())));
}

// ---- a log on a disk

// What is pending takes nothing of a file.
const PARTS: &[&[Part]] = &[
    &[Plain(&[Measures(53, 4104)])],
    &[
        Plain(&[Adds(2, 1), Measures(53, 4232), Flushes]),
        Plain(&[Measures(87, 4232)]),
        Again,
        Plain(&[Measures(87, 4232), Measures(87, 4232)]),
    ],
    &[
        Plain(&[Adds(2, 1), LINKED, Flushes, Measures(109, 4234)]),
        Again,
        Plain(&[Measures(109, 4234), Frees(2, 0, At(1))]),
        Plain(&[Measures(109, 4104)]),
    ],
];

#[test]
fn a_cache_on_a_disk_is_measured(rt: HostRuntime) {
    for (number, parts) in PARTS.iter().enumerate() {
        assert!(rt;
            written(rt.alloc(), 4096, 4096, parts).is_some(),
            "{number}"
        );
    }
}
