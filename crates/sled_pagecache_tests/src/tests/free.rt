// Pages that are freed and used again.

use super::*;
use sled_pagecache_testing::calls::frees;
use sled_pagecache_testing::failing::Trouble::{Room, Write};
use sled_pagecache_testing::openings::Ending::HandedOn;
use sled_pagecache_testing::openings::{Run, first_wrong_run};
use sled_pagecache_testing::scripts::{Script, first_wrong};
use sled_pagecache_testing::steps::Outcome::{At, Faulty, Gone, Refused, Stale};
use sled_pagecache_testing::steps::Sight::{Absent, Empty, Unwritten};
use sled_pagecache_testing::steps::Step::{
    Adds, AddsFrom, Crashes, Flushes, Frees, Gets, Links, Prints,
};
use sled_pagecache_testing::steps::{Outcome, PAIR, shows};

const SCRIPTS: &[Script] = &[
    (
        "the greatest free id is used first, at the next stamp",
        &[
            Adds(2, 1),
            Adds(3, 1),
            Frees(2, 1, At(2)),
            Frees(3, 1, At(2)),
            Adds(3, 3),
            Links(2, 2, PAIR, Gone),
            Gets(2, Absent),
            Gets(3, Empty(3)),
            Adds(2, 3),
            Adds(4, 1),
        ],
    ),
    (
        "a free wants a page",
        &[
            Frees(2, 1, Gone),
            Frees(u64::MAX, 1, Gone),
            Frees(0, 1, Refused(Why::ReservedId)),
            Frees(1, 1, Refused(Why::ReservedId)),
            Frees(MANIFEST, 1, Refused(Why::ReservedId)),
            Prints("PageCache { max: 2 free: [] }\n"),
            Adds(2, 1),
            Prints("PageCache { max: 3 free: [] }\n"),
        ],
    ),
    (
        "a free wants the present token",
        &[
            Adds(2, 1),
            Frees(2, 0, Stale(1)),
            Frees(2, 2, Stale(1)),
            Frees(2, u64::MAX, Stale(1)),
            Gets(2, Empty(1)),
            Frees(2, 1, At(2)),
            Frees(2, 2, Gone),
            Frees(2, 1, Gone),
        ],
    ),
    (
        "ids that were freed out of order",
        &[
            Adds(2, 1),
            Adds(3, 1),
            Adds(4, 1),
            Frees(3, 1, At(2)),
            Frees(4, 1, At(2)),
            Frees(2, 1, At(2)),
            Adds(4, 3),
            Frees(4, 3, At(4)),
            Adds(4, 5),
            Adds(3, 3),
            Adds(2, 3),
            Adds(5, 1),
        ],
    ),
    (
        "free pages are found again after a flush",
        &[
            Adds(2, 1),
            Adds(3, 1),
            Frees(2, 1, At(2)),
            Frees(3, 1, At(2)),
            Flushes,
            Crashes(0),
            Prints("PageCache { max: 4 free: [3, 2] }\n"),
            Gets(2, Absent),
            Gets(3, Absent),
            Adds(3, 1),
            Prints("PageCache { max: 4 free: [2] }\n"),
            Frees(3, 0, Stale(1)),
            Frees(3, 1, At(2)),
            Adds(3, 3),
            Adds(2, 1),
            Adds(4, 1),
        ],
    ),
    (
        "a crash that keeps no free",
        &[
            Adds(2, 1),
            Adds(3, 1),
            Frees(2, 1, At(2)),
            Frees(3, 1, At(2)),
            Crashes(2),
            Gets(2, Empty(0)),
            Gets(3, Empty(0)),
            Adds(4, 1),
        ],
    ),
    (
        "a crash that keeps one of two",
        &[
            Adds(2, 1),
            Adds(3, 1),
            Frees(3, 1, At(2)),
            Frees(2, 1, At(2)),
            Crashes(3),
            Gets(3, Absent),
            Gets(2, Empty(0)),
            Frees(2, 0, At(1)),
            Adds(3, 1),
            Adds(2, 2),
        ],
    ),
    (
        "a page that is freed and used in one flush",
        &[
            Adds(2, 1),
            Frees(2, 1, At(2)),
            Adds(2, 3),
            Flushes,
            Crashes(0),
            Gets(2, Empty(0)),
            Adds(3, 1),
        ],
    ),
];

#[test]
fn freed_pages_are_absent_and_used_again(rt: HostRuntime) {
    assert_eq!(rt; first_wrong(rt.alloc(), SCRIPTS), None);
}

// Whether so many pages are freed, each so many places behind the one before, and used again from the greatest to the least.
fn frees_many(alloc: Global, cache: &mut Cache, count: u32, stride: u32) -> bool {
    for n in 0..count {
        let place = n.wrapping_mul(stride) % count;
        if frees(cache, 2 + u64::from(place), 1) != At(2) {
            return false;
        }
    }
    for n in 0..count {
        if !shows(alloc, cache, &Adds(1 + u64::from(count - n), 3)) {
            return false;
        }
    }
    true
}

fn uses_many(alloc: Global, count: u32, stride: u32) -> bool {
    match started(alloc, 512) {
        Some(mut cache) => {
            shows(alloc, &mut cache, &AddsFrom(2, 2 + u64::from(count)))
                && frees_many(alloc, &mut cache, count, stride)
        }
        None => false,
    }
}

// In a scattered order, and the least first.
#[test]
fn many_pages_are_used_from_the_greatest_on(rt: HostRuntime) {
    for (count, stride) in [(1_000, 501), (1_025, 1)] {
        assert!(rt; uses_many(rt.alloc(), count, stride), "{count} pages");
    }
}

const FULL: Outcome = Refused(Why::LogFull);

// The system pages take 35 bytes of the log, an empty leaf 25, and a free page 17. Three writes open the cache, and the fourth is that
// of the leaf.
const RUNS: &[Run] = &[
    (
        "a log with room for no free",
        &[(
            10,
            Room(60),
            &[Adds(2, 1), Frees(2, 1, FULL), Gets(2, Empty(1))],
            HandedOn,
        )],
    ),
    (
        "a log with a byte too few",
        &[(
            10,
            Room(76),
            &[Adds(2, 1), Frees(2, 1, FULL), Gets(2, Empty(1))],
            HandedOn,
        )],
    ),
    (
        "a log with room for the free",
        &[(
            10,
            Room(77),
            &[Adds(2, 1), Frees(2, 1, At(2)), Gets(2, Absent)],
            HandedOn,
        )],
    ),
    (
        "a free that isn't written",
        &[(
            10,
            Write(5),
            &[Adds(2, 1), Frees(2, 1, Faulty), Gets(2, Unwritten)],
            HandedOn,
        )],
    ),
    (
        "a free behind which a write fails",
        &[(
            10,
            Write(6),
            &[Adds(2, 1), Frees(2, 1, At(2)), Gets(2, Absent)],
            HandedOn,
        )],
    ),
];

#[test]
fn a_refused_free_leaves_the_page(rt: HostRuntime) {
    assert_eq!(rt; first_wrong_run(rt.alloc(), RUNS), None);
}
