// What pages are behind their moves: of several messages, free, and the cache's own. The system pages take 35 bytes of a log in memory, an
// empty leaf 25, a leaf of one pair 29, a link 22, and a free page 17.

use super::moves::{APART, EACH, Moving, first_wrong_of, moved};
use super::*;
use sled_base::DiskPtr::Inline;
use sled_pagecache_testing::saying::Said::{Freed, Of};
use sled_pagecache_testing::steps::Change::Set;
use sled_pagecache_testing::steps::Outcome::{At, Done, Gone, Id};
use sled_pagecache_testing::steps::Sight::{Absent, Empty, Holds, Pair};
use sled_pagecache_testing::steps::Step::{
    Adds, Counts, Crashes, Finds, Frees, Gets, Gives, Has, Idles, Links, LinksFrom, Moves, Opens,
    Prints, Reads, Reopens, Says, Swaps, Takes,
};
use sled_pagecache_testing::steps::{Change, PAIR, Step};

const OTHER: Change = Set(b"c", b"w");

const LEAF: Step = Adds(2, 1);

const LINK: Step = Links(2, 1, PAIR, At(2));

// ---- pages of several messages

const CHAINS: &[Moving] = &[
    (
        "a leaf and a link",
        EACH,
        &[
            LEAF,
            LINK,
            Takes(82),
            Moves(3),
            Takes(146),
            Gets(2, Pair(2, b"b", b"v")),
            Says(
                35,
                &[
                    Of(&[(Inline(82), 17)]),
                    Of(&[(Inline(99), 18)]),
                    Of(&[(Inline(117), 29)]),
                ],
            ),
            Links(2, 2, OTHER, At(3)),
            Says(
                35,
                &[
                    Of(&[(Inline(82), 17)]),
                    Of(&[(Inline(99), 18)]),
                    Of(&[(Inline(117), 29), (Inline(146), 22)]),
                ],
            ),
            Moves(1),
            Takes(201),
            Gets(2, Holds(3, 2)),
            Says(
                35,
                &[
                    Of(&[(Inline(82), 17)]),
                    Of(&[(Inline(99), 18)]),
                    Of(&[(Inline(168), 33)]),
                ],
            ),
            Reopens,
            Gets(2, Holds(0, 2)),
            Reads(3),
        ],
    ),
    (
        "a leaf and two links, and then nine more and the tenth",
        EACH,
        &[
            LEAF,
            LinksFrom(2, 1, 2),
            Takes(104),
            Moves(3),
            Takes(168),
            Gets(2, Pair(3, b"b", b"v")),
            LinksFrom(2, 3, 9),
            Takes(366),
            Links(2, 12, PAIR, At(13)),
            Takes(424),
            Gets(2, Pair(13, b"b", b"v")),
            Says(
                35,
                &[
                    Of(&[(Inline(104), 17)]),
                    Of(&[(Inline(121), 18)]),
                    Of(&[(Inline(395), 29)]),
                ],
            ),
        ],
    ),
    (
        "a leaf and nine links, and then nine more and the tenth",
        EACH,
        &[
            LEAF,
            LinksFrom(2, 1, 9),
            Takes(258),
            Moves(3),
            Takes(322),
            Says(
                35,
                &[
                    Of(&[(Inline(258), 17)]),
                    Of(&[(Inline(275), 18)]),
                    Of(&[(Inline(293), 29)]),
                ],
            ),
            LinksFrom(2, 10, 9),
            Takes(520),
            Links(2, 19, PAIR, At(20)),
            Takes(578),
            Gets(2, Pair(20, b"b", b"v")),
            Reopens,
            Gets(2, Pair(0, b"b", b"v")),
            Reads(3),
        ],
    ),
    (
        "the node that took the place of ten links",
        EACH,
        &[
            LEAF,
            LinksFrom(2, 1, 10),
            Takes(304),
            Moves(2),
            Takes(351),
            Gets(2, Pair(11, b"b", b"v")),
            Links(2, 11, PAIR, At(12)),
            Says(
                35,
                &[
                    Of(&[(Inline(287), 17)]),
                    Of(&[(Inline(304), 18)]),
                    Of(&[(Inline(322), 29), (Inline(351), 22)]),
                ],
            ),
        ],
    ),
];

#[test]
fn a_page_is_one_message_behind_its_move(rt: HostRuntime) {
    assert_eq!(rt; first_wrong_of(rt.alloc(), CHAINS), None);
}

// ---- free pages, and the cache's own

const FREE: &[Moving] = &[
    (
        "a free page",
        EACH,
        &[
            LEAF,
            Frees(2, 1, At(2)),
            Takes(77),
            Moves(3),
            Takes(129),
            Gets(2, Absent),
            Prints("PageCache { max: 3 free: [2] }\n"),
            Says(
                35,
                &[Of(&[(Inline(77), 17)]), Of(&[(Inline(94), 18)]), Freed(112)],
            ),
            Links(2, 2, PAIR, Gone),
            Adds(2, 3),
            Takes(154),
            Moves(2),
            Takes(196),
            Gets(2, Empty(3)),
            Adds(3, 1),
        ],
    ),
    (
        "one that was moved by its own message, and not by the leaf's",
        APART,
        &[
            LEAF,
            Adds(3, 1),
            Frees(2, 1, At(2)),
            Moves(2),
            Takes(137),
            Moves(1),
            Takes(137),
            Idles,
            Links(3, 1, PAIR, At(2)),
            Moves(2),
            Takes(205),
            Says(
                35,
                &[
                    Of(&[(Inline(102), 17)]),
                    Of(&[(Inline(119), 18)]),
                    Freed(188),
                    Of(&[(Inline(159), 29)]),
                ],
            ),
            Adds(2, 3),
            Gets(2, Empty(3)),
        ],
    ),
    (
        "one that was moved before a crash",
        EACH,
        &[
            LEAF,
            Frees(2, 1, At(2)),
            Moves(3),
            Crashes(5),
            Takes(129),
            Gets(2, Absent),
            Prints("PageCache { max: 3 free: [2] }\n"),
            Adds(2, 1),
            Adds(3, 1),
        ],
    ),
];

#[test]
fn a_free_page_is_moved_and_stays_free(rt: HostRuntime) {
    assert_eq!(rt; first_wrong_of(rt.alloc(), FREE), None);
}

const OWN: &[Moving] = &[(
    "a root and a counter",
    EACH,
    &[
        Opens(b"t", Id(3)),
        Gives(0, 11),
        Takes(125),
        Moves(2),
        Takes(163),
        Has(1, 2),
        Finds(b"t", 3),
        Counts(10, 2),
        Says(
            125,
            &[
                Of(&[(Inline(125), 20)]),
                Of(&[(Inline(145), 18)]),
                Of(&[(Inline(35), 25)]),
                Of(&[(Inline(60), 27)]),
            ],
        ),
        Gives(11, 9),
        Takes(163),
        Gives(20, 1),
        Takes(181),
        Counts(20, 3),
        Opens(b"t", Id(3)),
        Swaps(b"t", Some(3), None, Done),
        Has(0, 3),
    ],
)];

#[test]
fn the_pages_of_the_cache_are_moved(rt: HostRuntime) {
    assert_eq!(rt; first_wrong_of(rt.alloc(), OWN), None);
}

// How many of these steps show what they should: ids are drawn, the two pages are moved, and a crash keeps so many of the moves.
fn shown_behind(alloc: Global, kept: usize) -> usize {
    let steps = [
        Opens(b"t", Id(3)),
        Gives(0, 11),
        Moves(2),
        Crashes(kept),
        Finds(b"t", 3),
        Has(1, 0),
        Counts(10, 0),
        Gives(30, 1),
        Counts(30, 1),
        Gives(31, 9),
    ];
    moved(alloc, &EACH, &steps)
}

#[test]
fn no_id_comes_twice_behind_a_move(rt: HostRuntime) {
    for kept in 0..3usize {
        assert_eq!(rt; shown_behind(rt.alloc(), kept), 10, "{kept} moves");
    }
}
