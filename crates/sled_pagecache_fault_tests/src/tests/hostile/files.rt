// Files to be damaged, and what comes of them, by a model of docs/FORMAT.md that stands apart from both readers.

use sled_pagecache_testing::disks::Part;
use sled_pagecache_testing::disks::Part::{Again, Cancelled, Plain, Sealed};
use sled_pagecache_testing::steps::Change::{Cap, Confirm, Del, Intend, Set};
use sled_pagecache_testing::steps::Outcome::{At, Done, Id};
use sled_pagecache_testing::steps::PAIR;
use sled_pagecache_testing::steps::Step::{Adds, AddsBetween, Flushes, Frees, Links, Opens, Swaps};

const LEAF: &[Part] = &[Plain(&[Adds(2, 1), Links(2, 1, PAIR, At(2)), Flushes])];

// Leaves with bounds and without, an index, links of each kind, a page that is free, roots, and batches that are sealed and cancelled.
const MANY: &[Part] = &[
    Plain(&[
        Adds(2, 1),
        Adds(3, 1),
        AddsBetween(4, b"ba", b"bz"),
        Links(4, 1, PAIR, At(2)),
        Flushes,
    ]),
    Sealed(&[Links(2, 1, PAIR, At(2)), Links(2, 2, Del(b"b"), At(3))]),
    Plain(&[
        Frees(3, 1, At(2)),
        Opens(b"t", Id(5)),
        Links(5, 1, Intend(3), At(2)),
        Flushes,
        Links(5, 2, Confirm, At(3)),
        Links(3, 3, Set(b"c", b"w"), At(4)),
    ]),
    Cancelled(&[Links(3, 4, Cap, At(5))]),
    Sealed(&[]),
    Plain(&[
        Swaps(b"u", None, Some(2), Done),
        Adds(6, 1),
        Frees(6, 1, At(2)),
        Flushes,
        Links(2, 3, PAIR, At(4)),
        Flushes,
        Links(2, 4, Set(b"c", b"w"), At(5)),
        Flushes,
    ]),
];

// Over segments of 64 bytes: batches that go over several frames, of which one is sealed and one cancelled, and one is left open before the
// file is opened again, which abandons it.
const SPILLED: &[Part] = &[
    Plain(&[Adds(2, 1), Adds(3, 1)]),
    Sealed(&[
        Links(2, 1, PAIR, At(2)),
        Links(2, 2, Set(b"c", b"w"), At(3)),
        Adds(4, 1),
        Links(4, 1, PAIR, At(2)),
    ]),
    Cancelled(&[
        Links(3, 1, PAIR, At(2)),
        Links(3, 2, Del(b"b"), At(3)),
        Links(3, 3, Set(b"d", b"x"), At(4)),
        Links(2, 3, Del(b"b"), At(4)),
    ]),
    Plain(&[Flushes]),
    Cancelled(&[
        Adds(5, 1),
        Links(5, 1, PAIR, At(2)),
        Links(5, 2, Del(b"b"), At(3)),
    ]),
    Again,
    Plain(&[Adds(5, 1), Links(4, 0, Cap, At(1)), Flushes]),
];

// Of the bytes of a file, its prefixes, its lengths, its marks and its exchanges: how many files no log is opened over, and no cache, and
// how many caches show a damaged page, and none.
pub(super) type Counts = [[u32; 4]; 5];

// Files by their scripts, with segments of so many bytes.
pub(super) const FILES: &[(u64, &[Part], Counts)] = &[
    (
        4096,
        LEAF,
        [
            [290, 6, 35, 105],
            [109, 0, 0, 0],
            [12, 0, 0, 0],
            [0, 0, 0, 0],
            [1, 0, 0, 0],
        ],
    ),
    (
        4096,
        MANY,
        [
            [1646, 23, 211, 688],
            [642, 0, 0, 0],
            [36, 0, 0, 0],
            [165, 0, 0, 6],
            [14, 0, 0, 1],
        ],
    ),
    (
        64,
        SPILLED,
        [
            [1394, 16, 171, 647],
            [557, 0, 0, 0],
            [48, 0, 0, 0],
            [150, 0, 0, 6],
            [27, 0, 0, 1],
        ],
    ),
];

// Those of a file from before a batch could go over several frames.
pub(super) const OLD_COUNTS: Counts = [
    [445, 8, 47, 160],
    [165, 0, 0, 0],
    [18, 0, 0, 0],
    [22, 0, 0, 2],
    [3, 0, 0, 0],
];
