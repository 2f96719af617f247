// Pages that are one blob, and are moved by another message that names it. The system pages take 35 bytes of a log in memory, an empty
// leaf 25, a leaf of one pair 29, and a link 22.

use super::moves::{Moving, Setting, first_wrong_of};
use super::*;
use sled_base::DiskPtr::{Blob, Inline};
use sled_pagecache_testing::saying::Said;
use sled_pagecache_testing::saying::Said::Of;
use sled_pagecache_testing::steps::Outcome::At;
use sled_pagecache_testing::steps::Sight::{Empty, Pair};
use sled_pagecache_testing::steps::Step::{
    Adds, Counts, Crashes, Flushes, Gets, Gives, Links, Moves, Reads, Reopens, Says, Takes,
};
use sled_pagecache_testing::steps::{PAIR, Step};

// Payloads above four bytes are blobs.
pub(super) const SMALL: Setting = (1, 4096, 4);

const LEAF: Step = Adds(2, 1);

const LINK: Step = Links(2, 1, PAIR, At(2));

const ROOTS: Said = Of(&[(Inline(0), 17)]);

const COUNTER: Said = Of(&[(Inline(17), 18)]);

const MOVED_BLOB: &[Said] = &[
    Of(&[(Inline(60), 17)]),
    Of(&[(Inline(77), 18)]),
    Of(&[(Blob(95, 35), 25)]),
];

const BLOBS: &[Moving] = &[
    (
        "a leaf",
        SMALL,
        &[
            LEAF,
            Moves(1),
            Says(
                35,
                &[Of(&[(Inline(60), 17)]), COUNTER, Of(&[(Blob(35, 35), 25)])],
            ),
            Moves(1),
            Takes(95),
            Moves(1),
            Takes(120),
            Says(35, MOVED_BLOB),
            Gets(2, Empty(1)),
            Reads(0),
        ],
    ),
    (
        "a leaf twice",
        SMALL,
        &[
            LEAF,
            Moves(6),
            Takes(180),
            Says(
                35,
                &[
                    Of(&[(Inline(120), 17)]),
                    Of(&[(Inline(137), 18)]),
                    Of(&[(Blob(155, 35), 25)]),
                ],
            ),
            Reopens,
            Gets(2, Empty(0)),
            Reads(3),
        ],
    ),
    (
        "a leaf and a link, of which a new blob is made, that is moved then",
        SMALL,
        &[
            LEAF,
            LINK,
            Moves(3),
            Takes(146),
            Says(
                35,
                &[
                    Of(&[(Inline(82), 17)]),
                    Of(&[(Inline(99), 18)]),
                    Of(&[(Blob(117, 117), 29)]),
                ],
            ),
            Moves(6),
            Takes(285),
            Gets(2, Pair(2, b"b", b"v")),
            Says(
                35,
                &[
                    Of(&[(Inline(268), 17)]),
                    Of(&[(Inline(192), 18)]),
                    Of(&[(Blob(239, 117), 29)]),
                ],
            ),
            Reopens,
            Gets(2, Pair(0, b"b", b"v")),
        ],
    ),
    (
        "a link behind the move",
        SMALL,
        &[
            LEAF,
            Moves(3),
            LINK,
            Says(
                35,
                &[
                    Of(&[(Inline(60), 17)]),
                    Of(&[(Inline(77), 18)]),
                    Of(&[(Blob(95, 35), 25), (Blob(120, 120), 22)]),
                ],
            ),
            Moves(3),
            Takes(206),
            Gets(2, Pair(2, b"b", b"v")),
            Says(
                35,
                &[
                    Of(&[(Inline(142), 17)]),
                    Of(&[(Inline(159), 18)]),
                    Of(&[(Blob(177, 177), 29)]),
                ],
            ),
        ],
    ),
    (
        "the counter",
        (1, 4096, 0),
        &[
            Moves(2),
            Takes(70),
            Counts(0, 1),
            Says(35, &[Of(&[(Inline(35), 17)]), Of(&[(Blob(52, 17), 18)])]),
            Gives(0, 11),
            Takes(88),
            Says(88, &[Of(&[(Inline(35), 17)]), Of(&[(Blob(70, 70), 18)])]),
            Crashes(0),
            Counts(10, 0),
            Gives(30, 1),
        ],
    ),
    (
        "a crash that keeps the move",
        SMALL,
        &[
            LEAF,
            Flushes,
            Moves(3),
            Crashes(3),
            Says(120, MOVED_BLOB),
            Gets(2, Empty(0)),
        ],
    ),
    (
        "a crash that doesn't",
        SMALL,
        &[
            LEAF,
            Flushes,
            Moves(3),
            Crashes(0),
            Says(60, &[ROOTS, COUNTER, Of(&[(Blob(35, 35), 25)])]),
            Gets(2, Empty(0)),
        ],
    ),
];

#[test]
fn a_blob_is_named_again(rt: HostRuntime) {
    assert_eq!(rt; first_wrong_of(rt.alloc(), BLOBS), None);
}
