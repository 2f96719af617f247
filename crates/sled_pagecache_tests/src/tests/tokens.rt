// Tokens that no call gave, of stamps that a page never had or had in an earlier opening, and ids of every size.

use super::*;
use sled_pagecache_testing::disks::Part::{Again, Plain};
use sled_pagecache_testing::disks::{Disked, behind, new_disk};
use sled_pagecache_testing::scripts::opened_over;
use sled_pagecache_testing::steps::Change::Set;
use sled_pagecache_testing::steps::Outcome::{At, Done, Gone, Id, Is, Refused, Stale, Unaccepted};
use sled_pagecache_testing::steps::Sight::{Absent, Pair, Reserved};
use sled_pagecache_testing::steps::Step::{
    Adds, Finds, Flushes, Frees, Gets, Links, Opens, ReplacesByPair, Swaps, Takes,
};
use sled_pagecache_testing::steps::{Outcome, PAIR, Sight, Step, shown};

// A leaf that gets to stamp 4, a page that is free, and a tree, whose leaf is page 4 and whose index is page 5.
const WRITTEN: &[Step] = &[
    Adds(2, 1),
    Adds(3, 1),
    Opens(b"t", Id(5)),
    Links(2, 1, PAIR, At(2)),
    Links(2, 2, PAIR, At(3)),
    Links(2, 3, PAIR, At(4)),
    Frees(3, 1, At(2)),
    Flushes,
];

// What is there once the log is opened again, where every stamp is 0.
const OPENED: &[Step] = &[
    Links(2, u64::MAX, PAIR, Stale(0)),
    Links(2, 4, PAIR, Stale(0)),
    Links(2, 0, PAIR, At(1)),
    Links(2, u64::MAX, PAIR, Stale(1)),
    Gets(2, Pair(1, b"b", b"v")),
];

// Stamps, of which page 2 has only the 1.
const STAMPS: &[u64] = &[
    0,
    1,
    2,
    3,
    4,
    5,
    1 << 32,
    (1 << 32) + 1,
    1 << 63,
    (1 << 63) + 1,
    u64::MAX - 1,
    u64::MAX,
];

const RESERVED: &[PageId] = &[0, 1, MANIFEST];

// The free page, the next one, and any others; some have the id 2 in their lower half.
const ABSENT: &[PageId] = &[
    3,
    6,
    7,
    240,
    241,
    2_287,
    2_288,
    65_536,
    (1 << 18) + 2,
    1 << 32,
    (1 << 32) + 2,
    (1 << 37) - 1,
    1 << 37,
    (1 << 37) + 2,
    1 << 63,
    (1 << 63) + 2,
    MANIFEST - 1,
    MANIFEST + 1,
    u64::MAX - 1,
    u64::MAX,
];

// Whether each call that takes a token answers so.
fn answers<L: Log>(
    alloc: Global,
    cache: &mut PageCache<L>,
    pid: PageId,
    stamp: u64,
    outcome: Outcome,
) -> bool {
    let steps = [
        Links(pid, stamp, PAIR, outcome),
        ReplacesByPair(pid, stamp, outcome),
        Frees(pid, stamp, outcome),
    ];
    shown(alloc, cache, &steps) == steps.len()
}

// Whether each does, for each stamp but the present one.
fn answers_all<L: Log>(
    alloc: Global,
    cache: &mut PageCache<L>,
    pid: PageId,
    present: Option<u64>,
    outcome: Outcome,
) -> bool {
    for stamp in STAMPS {
        if present != Some(*stamp) && !answers(alloc, cache, pid, *stamp, outcome) {
            return false;
        }
    }
    true
}

// Whether each of these pages is answered so, whatever the stamp.
fn answer_all<L: Log>(
    alloc: Global,
    cache: &mut PageCache<L>,
    pages: &[PageId],
    outcome: Outcome,
    sight: Sight,
) -> bool {
    for pid in pages {
        if !answers_all(alloc, cache, *pid, None, outcome)
            || shown(alloc, cache, &[Gets(*pid, sight)]) != 1
        {
            return false;
        }
    }
    true
}

// Whether a link is refused by the index, at its stamp alone.
fn index_refuses<L: Log>(alloc: Global, cache: &mut PageCache<L>) -> bool {
    let steps = [
        Links(5, 0, Set(b"c", b"w"), Unaccepted),
        Links(5, 0, PAIR, Unaccepted),
    ];
    shown(alloc, cache, &steps) == steps.len() && answers_all(alloc, cache, 5, Some(0), Stale(0))
}

// Whether no such token changes anything in a cache whose log has so many bytes.
fn tokens_are_refused<L: Log>(alloc: Global, cache: &mut PageCache<L>, bytes: u64) -> bool {
    answers_all(alloc, cache, 2, Some(1), Stale(1))
        && index_refuses(alloc, cache)
        && answer_all(alloc, cache, RESERVED, Refused(Why::ReservedId), Reserved)
        && answer_all(alloc, cache, ABSENT, Gone, Absent)
        && shown(
            alloc,
            cache,
            &[
                Takes(bytes),
                Gets(2, Pair(1, b"b", b"v")),
                Links(2, 1, PAIR, At(2)),
            ],
        ) == 3
}

// Whether a name is given each page, and gives it back.
fn names_hold<L: Log>(alloc: Global, cache: &mut PageCache<L>) -> bool {
    for pid in ABSENT {
        let steps = [
            Swaps(b"t", Some(*pid), None, Is(Some(5))),
            Swaps(b"u", Some(*pid), None, Is(None)),
            Swaps(b"u", None, Some(*pid), Done),
            Finds(b"u", *pid),
            Opens(b"u", Id(*pid)),
            Swaps(b"u", Some(*pid), None, Done),
        ];
        if shown(alloc, cache, &steps) != steps.len() {
            return false;
        }
    }
    true
}

// Whether a cache that was opened again holds against all of these.
fn holds<L: Log>(alloc: Global, cache: &mut PageCache<L>) -> bool {
    if shown(alloc, cache, OPENED) != OPENED.len() {
        return false;
    }
    match cache.size_on_disk() {
        Ok(bytes) => tokens_are_refused(alloc, cache, bytes) && names_hold(alloc, cache),
        Err(_) => false,
    }
}

fn in_memory(alloc: Global) -> Option<Cache> {
    let mut cache = started(alloc, 512)?;
    let is_so = shown(alloc, &mut cache, WRITTEN) == WRITTEN.len();
    opened_over(alloc, CONFIG, log_if(cache, is_so)?)
}

fn on_disk(alloc: Global) -> Option<Disked> {
    let disk = new_disk(alloc, 65_536)?;
    behind(alloc, disk, 4096, &[Plain(WRITTEN), Again])
}

fn holds_in_memory(alloc: Global) -> Option<bool> {
    let mut cache = in_memory(alloc)?;
    Some(holds(alloc, &mut cache))
}

fn holds_on_disk(alloc: Global) -> Option<bool> {
    let mut cache = on_disk(alloc)?;
    Some(holds(alloc, &mut cache))
}

#[test]
fn no_strange_token_changes_a_page(rt: HostRuntime) {
    assert_eq!(rt; holds_in_memory(rt.alloc()), Some(true));
    assert_eq!(rt; holds_on_disk(rt.alloc()), Some(true));
}
