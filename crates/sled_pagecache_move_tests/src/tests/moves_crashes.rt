// Crashes behind moves, which leave the pages whether the moves are left or not; and moves in batches, over both logs.

use super::disk_crashes::{Crashing, frames_left};
use super::*;
use sled_base::DiskPtr::Inline;
use sled_pagecache_testing::disks::Part::{Again, Cancelled, Marks, Plain, Sealed};
use sled_pagecache_testing::disks::{
    Disked, Part, behind_every, disk_of, new_disk, opened_every, shows_part,
};
use sled_pagecache_testing::saying::Said::Of;
use sled_pagecache_testing::scripts::{opened_over, walks_in};
use sled_pagecache_testing::steps::Change::Set;
use sled_pagecache_testing::steps::Outcome::{At, Done, Gone, Id};
use sled_pagecache_testing::steps::Sight::{Absent, Empty, Holds, Pair};
use sled_pagecache_testing::steps::Step::{
    Adds, Counts, Crashes, Finds, Flushes, Frees, Gets, Gives, Has, Idles, Links, Moves, Opens,
    Recovered, ReplacesByPair, Says, Swaps, Takes, Writes,
};
use sled_pagecache_testing::steps::{Change, PAIR, Sight, Step, shown};

const OTHER: Change = Set(b"c", b"w");

const LEAF: Step = Adds(2, 1);

const LINK: Step = Links(2, 1, PAIR, At(2));

const RELINK: Step = Links(2, 2, OTHER, At(3));

// ---- a log in memory

// Ten changes behind the flushed system pages: two leaves, a link on the first, the second is freed, the moves of all four pages, another
// link, and another move of the first.
const CALLS: &[Step] = &[
    LEAF,
    Adds(3, 1),
    LINK,
    Frees(3, 1, At(2)),
    Moves(4),
    RELINK,
    Moves(1),
];

// How many changes a crash keeps, and the two pages behind it.
const CRASHES: &[(usize, Sight, Sight)] = &[
    (0, Absent, Absent),
    (1, Empty(0), Absent),
    (2, Empty(0), Empty(0)),
    (3, Pair(0, b"b", b"v"), Empty(0)),
    (4, Pair(0, b"b", b"v"), Absent),
    (5, Pair(0, b"b", b"v"), Absent),
    (6, Pair(0, b"b", b"v"), Absent),
    (7, Pair(0, b"b", b"v"), Absent),
    (8, Pair(0, b"b", b"v"), Absent),
    (9, Holds(0, 2), Absent),
    (10, Holds(0, 2), Absent),
];

// How many of the calls, of the crash and of the two gets behind it show what they should.
fn shown_behind(alloc: Global, kept: usize, first: Sight, second: Sight) -> usize {
    let [leaf, other, link, free, moves, relink, again] = CALLS else {
        return 0;
    };
    let (crash, first, second) = (Crashes(kept), Gets(2, first), Gets(3, second));
    let steps = [
        *leaf, *other, *link, *free, *moves, *relink, *again, crash, first, second,
    ];
    walks_in(alloc, CONFIG, MemLog::new(alloc, 512, 1), &steps)
}

#[test]
fn a_crash_leaves_the_pages_with_or_without_their_moves(rt: HostRuntime) {
    for (kept, first, second) in CRASHES {
        assert_eq!(rt;
            shown_behind(rt.alloc(), *kept, *first, *second),
            10,
            "{kept} changes"
        );
    }
    // a crash can't leave eleven
    assert_eq!(rt; shown_behind(rt.alloc(), 11, Absent, Absent), 7);
}

// ---- both logs

// For how many messages one is due, and what is done, outside batches and inside. All lies in one segment.
type Shared = (&'static str, u64, &'static [Part]);

const SHARED: &[Shared] = &[
    ("none is due", 0, &[Plain(&[LEAF, LINK, Idles, Idles])]),
    (
        "each is due",
        1,
        &[
            Plain(&[LEAF, LINK, Moves(3), Gets(2, Pair(2, b"b", b"v"))]),
            Sealed(&[RELINK, Moves(1), Moves(1), Adds(3, 1), Moves(1)]),
            Plain(&[Gets(2, Holds(3, 2)), Gets(3, Empty(1)), Flushes, Moves(9)]),
            Cancelled(&[ReplacesByPair(3, 1, At(2)), Moves(1), Moves(1)]),
            Plain(&[Gets(3, Pair(2, b"k", b"v")), Flushes, Moves(1)]),
            Plain(&[Gets(2, Holds(3, 2)), Has(0, 1), Counts(0, 1)]),
        ],
    ),
    (
        "the marks of batches make none due",
        3,
        &[
            Plain(&[Idles, LEAF, Moves(1), Idles, LINK, Idles]),
            Marks(4),
            Plain(&[Idles, RELINK, Moves(1), Idles]),
            Cancelled(&[Adds(3, 1), Idles, Adds(4, 1), Moves(1), Idles]),
            Sealed(&[Adds(5, 1), Idles, Adds(6, 1), Moves(1), Idles]),
            Plain(&[Idles, Gets(2, Holds(3, 2)), Gets(6, Empty(1))]),
        ],
    ),
    (
        "a replacement moves what is due",
        3,
        &[
            Plain(&[LEAF, ReplacesByPair(2, 1, At(2)), Idles]),
            Sealed(&[Adds(3, 1), Idles, ReplacesByPair(3, 1, At(2)), Idles]),
            Cancelled(&[Links(2, 2, PAIR, At(3)), ReplacesByPair(3, 2, At(3)), Idles]),
            Plain(&[Gets(2, Holds(3, 2)), Gets(3, Pair(3, b"k", b"v")), Idles]),
        ],
    ),
    (
        "a free page is moved and used again",
        1,
        &[
            Plain(&[LEAF, Frees(2, 1, At(2)), Moves(4), Gets(2, Absent)]),
            Plain(&[Links(2, 2, PAIR, Gone), Adds(2, 3), Moves(4)]),
            Plain(&[Gets(2, Empty(3)), Adds(3, 1)]),
        ],
    ),
    (
        "roots and ids",
        1,
        &[
            Plain(&[Opens(b"t", Id(3)), Gives(0, 11), Moves(6)]),
            Plain(&[Finds(b"t", 3), Has(1, 2), Counts(10, 2)]),
            Plain(&[Gives(11, 9), Gives(20, 1), Counts(20, 3), Moves(3)]),
            Plain(&[Swaps(b"t", Some(3), None, Done), Has(0, 3), Moves(9)]),
        ],
    ),
];

// Whether each part shows what it should, in a cache over a log in memory.
fn shows_all(alloc: Global, clean_every: u64, parts: &[Part]) -> bool {
    let log = MemLog::new(alloc, 512, clean_every);
    let Some(mut cache) = opened_over(alloc, CONFIG, log) else {
        return false;
    };
    for part in parts {
        if !shows_part(alloc, &mut cache, part) {
            return false;
        }
    }
    true
}

// The disk behind the parts, if each shows what it should.
fn written(alloc: Global, segment_size: u64, clean_every: u64, parts: &[Part]) -> Option<MemDisk> {
    let disk = new_disk(alloc, 8192)?;
    disk_of(behind_every(alloc, disk, segment_size, clean_every, parts)?)
}

#[test]
fn both_logs_name_the_same_messages(rt: HostRuntime) {
    for (name, clean_every, parts) in SHARED {
        assert!(rt; shows_all(rt.alloc(), *clean_every, parts), "{name}");
        for segment_size in [0, 64, 4096] {
            assert!(rt;
                written(rt.alloc(), segment_size, *clean_every, parts).is_some(),
                "{name} {segment_size}"
            );
        }
    }
}

// ---- a log on a disk

const LINKED: Step = Gets(2, Pair(0, b"b", b"v"));

// The page's message stands at 143, behind those of the cache's own. Once the file is opened again its first message is named, which was
// written again since, in the same segment.
const FILE: &[Part] = &[
    Plain(&[LEAF, LINK, Moves(3), Takes(53), Writes(121), Takes(173)]),
    Plain(&[Says(
        172,
        &[
            Of(&[(Inline(108), 17)]),
            Of(&[(Inline(125), 18)]),
            Of(&[(Inline(143), 29)]),
        ],
    )]),
    Again,
    Plain(&[LINKED, Idles, Adds(3, 1), Moves(1), Writes(52), Takes(224)]),
    Plain(&[Says(
        223,
        &[
            Of(&[(Inline(206), 17)]),
            Of(&[(Inline(125), 18)]),
            Of(&[(Inline(143), 29)]),
            Of(&[(Inline(181), 25)]),
        ],
    )]),
];

#[test]
fn a_move_is_a_record_of_a_file(rt: HostRuntime) {
    assert!(rt; written(rt.alloc(), 4096, 1, FILE).is_some());
}

const FLUSH: Part = Plain(&[Flushes]);

const NOTHING: &[Step] = &[Recovered(false), Gets(2, Absent)];

const NO_PAGES: &[Step] = &[Recovered(true), Idles, Gets(2, Absent), LEAF, Moves(1)];

const EMPTY: &[Step] = &[Recovered(true), Idles, Gets(2, Empty(0)), Adds(3, 1)];

const PAIRED: &[Step] = &[Recovered(true), Idles, LINKED, Adds(3, 1), Moves(1), LINKED];

const RELINKED: &[Step] = &[Recovered(true), Idles, Gets(2, Holds(0, 2)), Adds(3, 1)];

const REPLACED: &[Step] = &[Recovered(true), Idles, Gets(2, Pair(0, b"k", b"v"))];

const FREED: &[Step] = &[Recovered(true), Idles, Gets(2, Absent), LEAF, Adds(3, 1)];

// Each message makes one due.
const DISKS: &[Crashing] = &[
    (
        "moves stand or not",
        4096,
        &[
            Plain(&[LEAF, LINK, Flushes]),
            Plain(&[Moves(4), Flushes]),
            Sealed(&[Moves(1), Moves(1), RELINK, Moves(1)]),
            FLUSH,
            Cancelled(&[Moves(1), ReplacesByPair(2, 3, At(4)), Moves(1)]),
            FLUSH,
        ],
        &[NOTHING, NO_PAGES, PAIRED, PAIRED, RELINKED, REPLACED],
    ),
    (
        "a replacement is written, and then its move",
        0,
        &[Plain(&[LEAF, ReplacesByPair(2, 1, At(2))])],
        &[NOTHING, NOTHING, NO_PAGES, EMPTY, REPLACED, REPLACED],
    ),
    (
        "each is written at once",
        0,
        &[Plain(&[LEAF, LINK, Moves(5), Frees(2, 2, At(3)), Moves(2)])],
        &[
            NOTHING, NOTHING, NO_PAGES, EMPTY, PAIRED, PAIRED, PAIRED, PAIRED, PAIRED, PAIRED,
            FREED, FREED, FREED,
        ],
    ),
];

// The cache that is opened over what a crash before the n-th write or sync leaves.
fn crashed(alloc: Global, crashing: &Crashing, n: usize, fill: Option<u8>) -> Option<Disked> {
    let (_, segment_size, parts, _) = *crashing;
    let disk = written(alloc, segment_size, 1, parts)?.stop(n, fill);
    opened_every(alloc, disk, segment_size, 1).ok()
}

// Whether it has what such a crash should leave.
fn leaves_so(alloc: Global, crashing: &Crashing, n: usize, fill: Option<u8>) -> bool {
    let frames = frames_left(n, fill).min(crashing.3.len().saturating_sub(1));
    match (crashed(alloc, crashing, n, fill), crashing.3.get(frames)) {
        (Some(mut cache), Some(steps)) => shown(alloc, &mut cache, steps) == steps.len(),
        _ => false,
    }
}

// Whether the script makes as many writes and syncs as its frames do.
fn calls_as_planned(alloc: Global, crashing: &Crashing) -> bool {
    let (_, segment_size, parts, seen) = *crashing;
    match written(alloc, segment_size, 1, parts) {
        Some(disk) => disk.calls() + 1 == 4 * seen.len(),
        None => false,
    }
}

#[test]
fn a_crash_of_a_disk_leaves_the_pages_with_or_without_their_moves(rt: HostRuntime) {
    for crashing in DISKS {
        assert!(rt; calls_as_planned(rt.alloc(), crashing), "{}", crashing.0);
        for n in 3..4 * crashing.3.len() + 1 {
            for fill in [None, Some(0), Some(255)] {
                assert!(rt;
                    leaves_so(rt.alloc(), crashing, n, fill),
                    "{} {n} {fill:?}",
                    crashing.0
                );
            }
        }
    }
}
