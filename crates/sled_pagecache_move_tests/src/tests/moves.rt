// Pages that are written to the log again: which are due, and where they lie then. The system pages take 35 bytes of a log in memory,
// an empty leaf 25, a leaf of one pair 29, and a link 22.

use super::*;
use sled_base::DiskPtr::Inline;
use sled_pagecache_testing::saying::Said;
use sled_pagecache_testing::saying::Said::Of;
use sled_pagecache_testing::scripts::walks_in;
use sled_pagecache_testing::steps::Outcome::{At, Gone};
use sled_pagecache_testing::steps::Sight::{Absent, Empty, Pair};
use sled_pagecache_testing::steps::Step::{
    Adds, AddsFrom, Crashes, Flushes, Gets, Gives, Idles, Links, LinksFrom, Moves, Reopens,
    Replaces, Says, Takes,
};
use sled_pagecache_testing::steps::{PAIR, Step};

// For how many messages of a log one is due, of how many bytes its segments are, and above how many bytes payloads are blobs.
pub(super) type Setting = (u64, usize, usize);

// Steps over such a log, with a name.
pub(super) type Moving = (&'static str, Setting, &'static [Step]);

// Each is due, and all lie in one segment.
pub(super) const EACH: Setting = (1, 4096, 512);

// Each is due, and lies in a segment of its own.
pub(super) const APART: Setting = (1, 1, 512);

// How many of the steps show what they should, before the first that doesn't, in a cache of that capacity.
pub(super) fn moved_within(
    alloc: Global,
    cache_capacity: u64,
    setting: &Setting,
    steps: &[Step],
) -> usize {
    let (clean_every, segment_size, blob_limit) = *setting;
    let config = Config {
        cache_capacity,
        segment_size,
        ..CONFIG
    };
    let log = MemLog::new(alloc, blob_limit, clean_every);
    walks_in(alloc, config, log, steps)
}

pub(super) fn moved(alloc: Global, setting: &Setting, steps: &[Step]) -> usize {
    moved_within(alloc, CONFIG.cache_capacity, setting, steps)
}

// The first that don't show all that they should, and how many of the steps do so before.
pub(super) fn first_wrong_of(alloc: Global, movings: &[Moving]) -> Option<(&'static str, usize)> {
    for (name, setting, steps) in movings {
        let done = moved(alloc, setting, steps);
        if done != steps.len() {
            return Some((*name, done));
        }
    }
    None
}

const LEAF: Step = Adds(2, 1);

const COUNTER: Said = Of(&[(Inline(17), 18)]);

// ---- which message is due

const DUE: &[Moving] = &[
    (
        "none, ever",
        (0, 4096, 512),
        &[
            AddsFrom(2, 102),
            Idles,
            Idles,
            Takes(2_535),
            LinksFrom(2, 1, 20),
            Idles,
            Takes(2_989),
            Reopens,
            Idles,
            Takes(2_989),
        ],
    ),
    (
        "none yet",
        (u64::MAX, 4096, 512),
        &[AddsFrom(2, 102), Idles, Takes(2_535)],
    ),
    (
        "one for each, the moved ones too",
        EACH,
        &[
            Moves(1),
            Takes(52),
            Moves(1),
            Takes(70),
            Says(35, &[Of(&[(Inline(35), 17)]), Of(&[(Inline(52), 18)])]),
            Moves(1),
            Takes(87),
            Moves(1),
            Takes(105),
            Says(35, &[Of(&[(Inline(70), 17)]), Of(&[(Inline(87), 18)])]),
        ],
    ),
    (
        "one for two",
        (2, 4096, 512),
        &[
            Moves(1),
            Takes(52),
            Idles,
            Takes(52),
            LEAF,
            Moves(1),
            Takes(95),
            Idles,
            Takes(95),
            Says(
                35,
                &[
                    Of(&[(Inline(35), 17)]),
                    Of(&[(Inline(77), 18)]),
                    Of(&[(Inline(52), 25)]),
                ],
            ),
        ],
    ),
    (
        "one for three",
        (3, 4096, 512),
        &[
            Idles,
            Takes(35),
            LEAF,
            Moves(1),
            Takes(77),
            Idles,
            Adds(3, 1),
            Idles,
            Takes(102),
            Adds(4, 1),
            Moves(1),
            Takes(145),
            Idles,
            Takes(145),
        ],
    ),
    (
        "what appends nothing makes none due",
        (3, 4096, 512),
        &[
            Gets(2, Absent),
            Links(2, 1, PAIR, Gone),
            Flushes,
            Gives(0, 10),
            Idles,
            Takes(35),
        ],
    ),
    (
        "the first of sixteen",
        (16, 4096, 512),
        &[
            AddsFrom(2, 16),
            Takes(385),
            Moves(1),
            Takes(402),
            Idles,
            Takes(402),
        ],
    ),
    (
        "one for sixteen",
        (16, 4096, 512),
        &[
            AddsFrom(2, 15),
            Idles,
            Takes(360),
            Adds(15, 1),
            Moves(1),
            Takes(402),
            AddsFrom(16, 30),
            Idles,
            Takes(752),
            Adds(30, 1),
            Moves(1),
            Takes(795),
            Idles,
        ],
    ),
    (
        "one for seventeen",
        (17, 4096, 512),
        &[
            AddsFrom(2, 16),
            Idles,
            Takes(385),
            Adds(16, 1),
            Moves(1),
            Takes(427),
            AddsFrom(17, 32),
            Idles,
            Takes(802),
            Adds(32, 1),
            Moves(1),
            Takes(845),
            Idles,
        ],
    ),
    (
        "the next in a log that is handed on",
        EACH,
        &[
            Moves(1),
            Reopens,
            Moves(1),
            Takes(70),
            Says(35, &[Of(&[(Inline(35), 17)]), Of(&[(Inline(52), 18)])]),
        ],
    ),
    (
        "the first again behind a crash",
        (2, 4096, 512),
        &[
            Moves(1),
            LEAF,
            Flushes,
            Crashes(0),
            Idles,
            Adds(3, 1),
            Idles,
            Adds(4, 1),
            Takes(127),
            Moves(1),
            Takes(144),
            Says(
                77,
                &[
                    Of(&[(Inline(127), 17)]),
                    COUNTER,
                    Of(&[(Inline(52), 25)]),
                    Of(&[(Inline(77), 25)]),
                    Of(&[(Inline(102), 25)]),
                ],
            ),
        ],
    ),
];

#[test]
fn a_message_is_due_for_so_many(rt: HostRuntime) {
    assert_eq!(rt; first_wrong_of(rt.alloc(), DUE), None);
}

// ---- segments

const SEGMENTS: &[Moving] = &[
    (
        "each message in a segment of its own",
        APART,
        &[
            LEAF,
            Replaces(2, 1, At(2)),
            Takes(102),
            Moves(1),
            Takes(120),
            Moves(1),
            Takes(120),
            Gets(2, Empty(2)),
            Idles,
            Takes(120),
            Adds(3, 1),
            Moves(1),
            Takes(170),
            Gets(2, Empty(2)),
            Says(
                35,
                &[
                    Of(&[(Inline(85), 17)]),
                    Of(&[(Inline(102), 18)]),
                    Of(&[(Inline(145), 25)]),
                    Of(&[(Inline(120), 25)]),
                ],
            ),
        ],
    ),
    (
        "a message that was replaced in the same segment",
        (1, 61, 512),
        &[LEAF, Replaces(2, 1, At(2)), Moves(2), Takes(145)],
    ),
    (
        "one that was replaced in the next",
        (1, 60, 512),
        &[LEAF, Replaces(2, 1, At(2)), Moves(2), Takes(120)],
    ),
    (
        "the greatest segment",
        (1, usize::MAX, 512),
        &[LEAF, Replaces(2, 1, At(2)), Moves(3), Takes(170)],
    ),
    (
        "pages that lie in several segments",
        (1, 64, 512),
        &[
            LEAF,
            Adds(3, 1),
            Replaces(2, 1, At(2)),
            Moves(1),
            Takes(145),
            Moves(1),
            Takes(145),
            Idles,
            Links(2, 2, PAIR, At(3)),
            Moves(1),
            Takes(192),
            Moves(1),
            Takes(221),
            Moves(2),
            Takes(256),
            Moves(1),
            Takes(256),
            Idles,
            Gets(2, Pair(3, b"b", b"v")),
            Gets(3, Empty(1)),
            Says(
                35,
                &[
                    Of(&[(Inline(221), 17)]),
                    Of(&[(Inline(238), 18)]),
                    Of(&[(Inline(192), 29)]),
                    Of(&[(Inline(167), 25)]),
                ],
            ),
        ],
    ),
];

#[test]
fn a_page_that_lies_elsewhere_is_not_moved(rt: HostRuntime) {
    assert_eq!(rt; first_wrong_of(rt.alloc(), SEGMENTS), None);
}
