// The move that is added to a replacement, and to a link that writes its node whole. The system pages take 35 bytes of a log in memory, an
// empty leaf 25, a leaf of one pair 29, a link 22, and a free page 17.

mod refused;

use super::moved_blobs::SMALL;
use super::moves::{APART, EACH, Moving, first_wrong_of, moved_within};
use super::moves_refused::CROWD;
use super::*;
use sled_base::DiskPtr::{Blob, Inline};
use sled_pagecache_testing::saying::Said::Of;
use sled_pagecache_testing::steps::Change::Confirm;
use sled_pagecache_testing::steps::Outcome::{At, Done, Gone, Id, Refused, Stale, Unaccepted};
use sled_pagecache_testing::steps::Sight::{Absent, Empty, Pair};
use sled_pagecache_testing::steps::Step::{
    Adds, AddsFrom, Crashes, Flushes, Frees, Gets, Gives, Idles, Links, LinksFrom, Moves, Opens,
    Reads, Replaces, ReplacesByPair, Says, Swaps, Takes,
};
use sled_pagecache_testing::steps::{PAIR, Step};

const LEAF: Step = Adds(2, 1);

const REPLACE: Step = Replaces(2, 1, At(2));

// ---- where one is added

const ADDED: &[Moving] = &[
    (
        "to a replacement",
        (16, 4096, 512),
        &[AddsFrom(2, 16), REPLACE, Takes(427), Idles, Takes(427)],
    ),
    (
        "where its own message makes one due",
        (16, 4096, 512),
        &[AddsFrom(2, 15), Idles, REPLACE, Takes(402), Idles],
    ),
    (
        "not where none is due yet",
        (18, 4096, 512),
        &[AddsFrom(2, 16), REPLACE, Takes(410), Idles, Adds(16, 1)],
    ),
    (
        "not where none ever is",
        (0, 4096, 512),
        &[AddsFrom(2, 16), REPLACE, Takes(410), Idles],
    ),
    (
        "not to a stale replacement",
        (16, 4096, 512),
        &[
            AddsFrom(2, 16),
            Replaces(2, 0, Stale(1)),
            Replaces(2, 2, Stale(1)),
            Takes(385),
            Moves(1),
            Takes(402),
        ],
    ),
    (
        "not to a replacement of no page",
        (16, 4096, 512),
        &[
            AddsFrom(2, 16),
            Replaces(16, 1, Gone),
            Replaces(u64::MAX, 1, Gone),
            Takes(385),
            Moves(1),
            Takes(402),
        ],
    ),
    (
        "not to a refused replacement",
        (16, 4096, 512),
        &[
            AddsFrom(2, 16),
            Replaces(0, 1, Refused(Why::ReservedId)),
            Replaces(1, 1, Refused(Why::ReservedId)),
            Takes(385),
            Moves(1),
            Takes(402),
        ],
    ),
    (
        "not to a link that joins a page's messages",
        EACH,
        &[LEAF, LinksFrom(2, 1, 9), Takes(258), Moves(1), Takes(275)],
    ),
    (
        "to a link that writes its node whole",
        EACH,
        &[
            LEAF,
            LinksFrom(2, 1, 10),
            Takes(304),
            LinksFrom(2, 11, 9),
            Takes(502),
            Links(2, 20, PAIR, At(21)),
            Takes(549),
            Gets(2, Pair(21, b"b", b"v")),
        ],
    ),
    (
        "not to one that is stale or refused",
        EACH,
        &[
            LEAF,
            LinksFrom(2, 1, 9),
            Links(2, 9, PAIR, Stale(10)),
            Links(2, 10, Confirm, Unaccepted),
            Links(3, 1, PAIR, Gone),
            Takes(258),
            Moves(1),
            Takes(275),
        ],
    ),
    (
        "not to the other calls that write",
        EACH,
        &[
            LEAF,
            Frees(2, 1, At(2)),
            Adds(2, 3),
            Opens(b"t", Id(4)),
            Gives(0, 11),
            Swaps(b"t", Some(4), None, Done),
            Flushes,
            Takes(209),
        ],
    ),
];

#[test]
fn a_move_is_added_to_what_writes_a_whole_node(rt: HostRuntime) {
    assert_eq!(rt; first_wrong_of(rt.alloc(), ADDED), None);
}

// ---- which page is moved

const MOVED: &[Moving] = &[
    (
        "its own",
        EACH,
        &[
            LEAF,
            Moves(2),
            REPLACE,
            Takes(145),
            Gets(2, Empty(2)),
            Says(
                35,
                &[
                    Of(&[(Inline(60), 17)]),
                    Of(&[(Inline(77), 18)]),
                    Of(&[(Inline(120), 25)]),
                ],
            ),
        ],
    ),
    (
        "none, where the message that is due was replaced in another segment",
        APART,
        &[LEAF, Moves(2), REPLACE, Takes(120), Idles, Takes(120)],
    ),
    (
        "another, of several messages",
        EACH,
        &[
            LEAF,
            Links(2, 1, PAIR, At(2)),
            Adds(3, 1),
            Moves(2),
            Takes(142),
            Replaces(3, 1, At(2)),
            Takes(196),
            Gets(2, Pair(2, b"b", b"v")),
            Says(
                35,
                &[
                    Of(&[(Inline(107), 17)]),
                    Of(&[(Inline(124), 18)]),
                    Of(&[(Inline(167), 29)]),
                    Of(&[(Inline(142), 25)]),
                ],
            ),
        ],
    ),
    (
        "a free page",
        EACH,
        &[
            LEAF,
            Adds(3, 1),
            Frees(2, 1, At(2)),
            Moves(2),
            Replaces(3, 1, At(2)),
            Takes(179),
            Gets(2, Absent),
            Adds(2, 3),
        ],
    ),
    (
        "a blob, with no read",
        SMALL,
        &[
            LEAF,
            Adds(3, 1),
            Moves(2),
            Replaces(3, 1, At(2)),
            Takes(170),
            Says(
                35,
                &[
                    Of(&[(Inline(85), 17)]),
                    Of(&[(Inline(102), 18)]),
                    Of(&[(Blob(145, 35), 25)]),
                    Of(&[(Blob(120, 120), 25)]),
                ],
            ),
            Reads(0),
        ],
    ),
    (
        "a crash keeps neither",
        EACH,
        &[
            LEAF,
            Flushes,
            ReplacesByPair(2, 1, At(2)),
            Crashes(0),
            Takes(60),
            Gets(2, Empty(0)),
        ],
    ),
    (
        "a crash keeps the replacement alone",
        EACH,
        &[
            LEAF,
            Flushes,
            ReplacesByPair(2, 1, At(2)),
            Crashes(1),
            Takes(89),
            Gets(2, Pair(0, b"k", b"v")),
        ],
    ),
    (
        "a crash keeps both",
        EACH,
        &[
            LEAF,
            Flushes,
            ReplacesByPair(2, 1, At(2)),
            Crashes(2),
            Takes(106),
            Gets(2, Pair(0, b"k", b"v")),
        ],
    ),
];

#[test]
fn the_page_that_is_due_behind_a_replacement_is_moved(rt: HostRuntime) {
    assert_eq!(rt; first_wrong_of(rt.alloc(), MOVED), None);
}

// How often the log was read at the end. Page 2 has left memory since 258 came.
const AWAY: &[&[Step]] = &[
    &[CROWD, Moves(2), Replaces(3, 1, At(2)), Reads(1)],
    &[
        CROWD,
        Moves(2),
        Replaces(3, 1, At(2)),
        Gets(2, Empty(1)),
        Gets(3, Empty(2)),
        Reads(1),
    ],
    &[
        CROWD,
        Moves(2),
        Replaces(3, 1, At(2)),
        Gets(258, Empty(1)),
        Reads(2),
    ],
    &[CROWD, Moves(2), REPLACE, Gets(258, Empty(1)), Reads(1)],
];

#[test]
fn a_page_that_left_memory_is_read_for_the_added_move(rt: HostRuntime) {
    for (number, steps) in AWAY.iter().enumerate() {
        assert_eq!(rt;
            moved_within(rt.alloc(), 256, &EACH, steps),
            steps.len(),
            "{number}"
        );
    }
}
