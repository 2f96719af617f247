// A crash of the disk before each of its writes and syncs, and what is opened of the rest.

use super::*;
use sled_pagecache_testing::disks::Part::{Cancelled, Plain, Sealed};
use sled_pagecache_testing::disks::{Disked, Part, disk_of, opened_on, written};
use sled_pagecache_testing::steps::Change::{Del, Set};
use sled_pagecache_testing::steps::Outcome::At;
use sled_pagecache_testing::steps::Sight::{Absent, Empty, Pair};
use sled_pagecache_testing::steps::Step::{
    Adds, Flushes, Frees, Gets, Links, Recovered, ReplacesByPair,
};
use sled_pagecache_testing::steps::{PAIR, Step, shown};

// A script with segments of so many bytes, and what is there behind each of its frames, the first of which is none.
pub(super) type Crashing = (
    &'static str,
    u64,
    &'static [Part],
    &'static [&'static [Step]],
);

const FLUSH: Part = Plain(&[Flushes]);

const NO_PAGES: &[Step] = &[Recovered(true), Gets(2, Absent), Gets(3, Absent)];

const LEAF: &[Step] = &[Recovered(true), Gets(2, Empty(0)), Gets(3, Absent)];

const NOTHING: &[Step] = &[Recovered(false), Gets(2, Absent), Gets(3, Absent)];

const SCRIPTS: &[Crashing] = &[
    (
        "a sealed batch stands whole",
        4096,
        &[
            Plain(&[Adds(2, 1), Flushes]),
            Sealed(&[
                ReplacesByPair(2, 1, At(2)),
                Adds(3, 1),
                Links(3, 1, PAIR, At(2)),
            ]),
            FLUSH,
        ],
        &[
            NOTHING,
            NO_PAGES,
            &[Recovered(true), Gets(2, Empty(0)), Gets(3, Absent)],
            &[
                Recovered(true),
                Gets(2, Pair(0, b"k", b"v")),
                Gets(3, Pair(0, b"b", b"v")),
            ],
        ],
    ),
    (
        "a batch that is flushed once it was cancelled stands",
        4096,
        &[
            Plain(&[Adds(2, 1)]),
            Cancelled(&[Links(2, 1, PAIR, At(2)), Adds(3, 1)]),
            FLUSH,
        ],
        &[
            NOTHING,
            NO_PAGES,
            &[
                Recovered(true),
                Gets(2, Pair(0, b"b", b"v")),
                Gets(3, Empty(0)),
            ],
        ],
    ),
    (
        "what is written of a batch that is open counts for nothing",
        0,
        &[
            Plain(&[Adds(2, 1)]),
            Cancelled(&[Links(2, 1, PAIR, At(2)), Adds(3, 1)]),
        ],
        &[NOTHING, NOTHING, NO_PAGES, LEAF, LEAF, LEAF],
    ),
    (
        "a batch counts once the record is written that ends it",
        64,
        &[
            Sealed(&[Adds(2, 1), Links(2, 1, PAIR, At(2)), Adds(3, 1)]),
            Plain(&[Frees(3, 1, At(2))]),
        ],
        &[
            NOTHING,
            NO_PAGES,
            NO_PAGES,
            &[
                Recovered(true),
                Gets(2, Pair(0, b"b", b"v")),
                Gets(3, Absent),
            ],
        ],
    ),
    (
        "frames follow one another",
        4096,
        &[
            Plain(&[Adds(2, 1), Flushes]),
            Plain(&[Links(2, 1, PAIR, At(2)), Flushes]),
            Plain(&[
                Links(2, 2, Del(b"b"), At(3)),
                Links(2, 3, Set(b"c", b"w"), At(4)),
                Flushes,
            ]),
            Plain(&[Frees(2, 4, At(5)), Flushes]),
        ],
        &[
            NOTHING,
            NO_PAGES,
            &[Recovered(true), Gets(2, Empty(0))],
            &[Recovered(true), Gets(2, Pair(0, b"b", b"v"))],
            &[Recovered(true), Gets(2, Pair(0, b"c", b"w"))],
            NO_PAGES,
        ],
    ),
];

// How many frames a crash leaves before the n-th write or sync. Two make the file, and one opens it. Then each frame is a write of its
// bytes, a sync, a write of the gate before it, and a sync. Before the last one the gate is open if it isn't 0.
pub(super) fn frames_left(n: usize, fill: Option<u8>) -> usize {
    let made = n.saturating_sub(4);
    if made % 4 == 3 && fill != Some(0) {
        made / 4 + 1
    } else {
        made / 4
    }
}

// The cache that is opened over what a crash before the n-th write or sync leaves.
fn crashed(alloc: Global, crashing: &Crashing, n: usize, fill: Option<u8>) -> Option<Disked> {
    let (_, segment_size, parts, _) = *crashing;
    let disk = written(alloc, 4096, segment_size, parts)?.stop(n, fill);
    opened_on(alloc, disk, segment_size).ok()
}

// The same where it was opened before, and a second crash came before that had written anything.
fn crashed_again(
    alloc: Global,
    crashing: &Crashing,
    n: usize,
    again: usize,
    fill: Option<u8>,
) -> Option<Disked> {
    let disk = disk_of(crashed(alloc, crashing, n, fill)?)?.stop(again, fill);
    opened_on(alloc, disk, crashing.1).ok()
}

// Whether the cache has what a crash before the n-th write or sync should leave.
fn has_left(
    alloc: Global,
    cache: Option<Disked>,
    crashing: &Crashing,
    n: usize,
    fill: Option<u8>,
) -> bool {
    let frames = frames_left(n, fill).min(crashing.3.len().saturating_sub(1));
    match (cache, crashing.3.get(frames)) {
        (Some(mut cache), Some(steps)) => shown(alloc, &mut cache, steps) == steps.len(),
        _ => false,
    }
}

// Whether such a crash leaves what it should, also where a second one comes while that is opened.
fn leaves_so(alloc: Global, crashing: &Crashing, n: usize, fill: Option<u8>) -> bool {
    for again in 1..3 {
        let cache = crashed_again(alloc, crashing, n, again, fill);
        if !has_left(alloc, cache, crashing, n, fill) {
            return false;
        }
    }
    has_left(alloc, crashed(alloc, crashing, n, fill), crashing, n, fill)
}

// Whether the script makes as many writes and syncs as its frames do.
fn calls_as_planned(alloc: Global, crashing: &Crashing) -> bool {
    let (_, segment_size, parts, seen) = *crashing;
    match written(alloc, 4096, segment_size, parts) {
        Some(disk) => disk.calls() + 1 == 4 * seen.len(),
        None => false,
    }
}

#[test]
fn each_crash_leaves_whole_frames(rt: HostRuntime) {
    for crashing in SCRIPTS {
        assert!(rt; calls_as_planned(rt.alloc(), crashing), "{}", crashing.0);
        for n in 3..4 * crashing.3.len() + 1 {
            for fill in [None, Some(0), Some(255)] {
                assert!(rt;
                    leaves_so(rt.alloc(), crashing, n, fill),
                    "{} {n} {fill:?}",
                    crashing.0
                );
            }
        }
    }
}
