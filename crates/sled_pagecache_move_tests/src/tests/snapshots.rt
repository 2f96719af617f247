// What a snapshot of a cache says of its log.

use super::*;
use sled_base::DiskPtr::{Blob, Inline};
use sled_pagecache_testing::disks::Part::{Again, Plain, Sealed};
use sled_pagecache_testing::disks::{Part, written};
use sled_pagecache_testing::memory::{made, new_cache, opens};
use sled_pagecache_testing::saying::Said;
use sled_pagecache_testing::scripts::{Script, first_wrong, first_wrong_at};
use sled_pagecache_testing::steps::Outcome::At;
use sled_pagecache_testing::steps::Step::{
    Adds, AddsFrom, Flushes, Frees, Links, LinksFrom, Reopens, Replaces, Says, SaysLeaves,
};
use sled_pagecache_testing::steps::{PAIR, Step};

// ---- a log in memory

const ROOTS: Said = Said::Of(&[(Inline(0), 17)]);

const COUNTER: Said = Said::Of(&[(Inline(17), 18)]);

const SCRIPTS: &[Script] = &[
    ("no page", &[Says(35, &[ROOTS, COUNTER]), SaysLeaves(35, 0)]),
    (
        "one page, and what is pending too",
        &[
            Adds(2, 1),
            Says(35, &[ROOTS, COUNTER, Said::Of(&[(Inline(35), 25)])]),
            Flushes,
            Says(60, &[ROOTS, COUNTER, Said::Of(&[(Inline(35), 25)])]),
        ],
    ),
    ("two pages", &[AddsFrom(2, 4), SaysLeaves(35, 2)]),
    ("three pages", &[AddsFrom(2, 5), SaysLeaves(35, 3)]),
    ("sixteen pages", &[AddsFrom(2, 18), SaysLeaves(35, 16)]),
    ("seventeen pages", &[AddsFrom(2, 19), SaysLeaves(35, 17)]),
    (
        "a thousand pages",
        &[
            AddsFrom(2, 1_002),
            SaysLeaves(35, 1_000),
            Reopens,
            SaysLeaves(35, 1_000),
        ],
    ),
    (
        "131,072 pages",
        &[
            AddsFrom(2, 131_074),
            SaysLeaves(35, 131_072),
            Reopens,
            SaysLeaves(35, 131_072),
        ],
    ),
    (
        "links, and the node that takes their place",
        &[
            Adds(2, 1),
            LinksFrom(2, 1, 2),
            Says(
                35,
                &[
                    ROOTS,
                    COUNTER,
                    Said::Of(&[(Inline(35), 25), (Inline(60), 22), (Inline(82), 22)]),
                ],
            ),
            LinksFrom(2, 3, 8),
            Says(35, &[ROOTS, COUNTER, Said::Of(&[(Inline(258), 29)])]),
        ],
    ),
    (
        "a replacement",
        &[
            Adds(2, 1),
            Links(2, 1, PAIR, At(2)),
            Replaces(2, 2, At(3)),
            Says(35, &[ROOTS, COUNTER, Said::Of(&[(Inline(82), 25)])]),
        ],
    ),
    (
        "a free page, and its id used again",
        &[
            Adds(2, 1),
            Adds(3, 1),
            Links(2, 1, PAIR, At(2)),
            Frees(2, 2, At(3)),
            Says(
                35,
                &[
                    ROOTS,
                    COUNTER,
                    Said::Freed(107),
                    Said::Of(&[(Inline(60), 25)]),
                ],
            ),
            Reopens,
            Adds(2, 1),
            Says(
                35,
                &[
                    ROOTS,
                    COUNTER,
                    Said::Of(&[(Inline(124), 25)]),
                    Said::Of(&[(Inline(60), 25)]),
                ],
            ),
        ],
    ),
];

#[test]
fn a_snapshot_says_the_pages_of_a_log_in_memory(rt: HostRuntime) {
    assert_eq!(rt; first_wrong(rt.alloc(), SCRIPTS), None);
}

// Payloads above four bytes are blobs.
const BLOBS: &[Script] = &[(
    "a leaf and a link",
    &[
        Adds(2, 1),
        Links(2, 1, PAIR, At(2)),
        Says(
            35,
            &[
                ROOTS,
                COUNTER,
                Said::Of(&[(Blob(35, 35), 25), (Blob(60, 60), 22)]),
            ],
        ),
    ],
)];

#[test]
fn a_snapshot_says_blobs(rt: HostRuntime) {
    assert_eq!(rt; first_wrong_at(rt.alloc(), 4, BLOBS), None);
}

// ---- refused allocations

const FOUND: Step = Says(
    35,
    &[
        ROOTS,
        COUNTER,
        Said::Of(&[(Inline(35), 25), (Inline(60), 22)]),
        Said::Freed(107),
    ],
);

const FILLED: &[Step] = &[
    Adds(2, 1),
    Links(2, 1, PAIR, At(2)),
    Adds(3, 1),
    Frees(3, 1, At(2)),
    FOUND,
    FOUND,
];

// How many of these steps show what they should, in a new cache and in one that is opened again over its log.
fn steps_made(alloc: Global) -> Option<(usize, usize)> {
    let mut cache = new_cache(alloc)?;
    let filled = made(alloc, &mut cache, FILLED);
    let mut cache = opens(alloc, log_of(cache)?)?;
    Some((filled, made(alloc, &mut cache, &[FOUND, FOUND])))
}

#[test]
fn a_refused_allocation_leaves_the_next_snapshot(rt: HostRuntime) {
    assert_eq!(rt; steps_made(rt.alloc()), Some((FILLED.len(), 2)));
}

// ---- a log on a disk

const FILE_ROOTS: Said = Said::Of(&[(Inline(17), 17)]);

const FILE_COUNTER: Said = Said::Of(&[(Inline(34), 18)]);

const LEAF: &[Step] = &[Adds(2, 1), Links(2, 1, PAIR, At(2))];

const LINKED: &[Said] = &[
    FILE_ROOTS,
    FILE_COUNTER,
    Said::Of(&[(Inline(61), 25), (Inline(86), 22)]),
];

const TWICE: &[Said] = &[
    FILE_ROOTS,
    FILE_COUNTER,
    Said::Of(&[(Inline(61), 25), (Inline(86), 22), (Inline(134), 22)]),
];

const FREED: &[Said] = &[FILE_ROOTS, FILE_COUNTER, Said::Freed(117)];

const PARTS: &[&[Part]] = &[
    &[Plain(&[Says(52, &[FILE_ROOTS, FILE_COUNTER])])],
    &[
        Plain(LEAF),
        Plain(&[Says(52, LINKED), Flushes, Says(108, LINKED)]),
        Again,
        Plain(&[Says(108, LINKED), Frees(2, 0, At(1)), Says(108, FREED)]),
        Plain(&[Flushes, Says(134, FREED)]),
    ],
    &[
        Plain(LEAF),
        Plain(&[Flushes]),
        Sealed(&[Links(2, 2, PAIR, At(3))]),
        Plain(&[Says(108, TWICE), Flushes, Says(181, TWICE)]),
    ],
];

#[test]
fn a_snapshot_says_the_pages_of_a_file(rt: HostRuntime) {
    for (number, parts) in PARTS.iter().enumerate() {
        assert!(rt;
            written(rt.alloc(), 4096, 4096, parts).is_some(),
            "{number}"
        );
    }
}
