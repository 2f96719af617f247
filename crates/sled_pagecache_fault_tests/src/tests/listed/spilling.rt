// A list of calls with batches that go over several frames.

use super::Call::{Adds, Cancels, Draws, Flushes, Frees, Gets, Links, Pins, Replaces, Seals};
use super::Left::{Counter, First, Second};
use super::{List, Row};
use sled_pagecache_testing::steps::Outcome::{At, Done, Gone, Id, Made};
use sled_pagecache_testing::steps::Sight::{Absent, Empty, Letters};

/// Openings with batches of several segments, where one has 64 bytes: one is sealed, one cancelled, and each opening ends inside one.
pub(crate) const SPILLING: List = &[FIRST_OPENING, SECOND_OPENING];

const FIRST_OPENING: &[Row] = &[
    (Adds, Made(2, 1), &[First(Empty(1), 1)]),
    (Adds, Made(3, 1), &[Second(Empty(1))]),
    (Flushes, Done, &[]),
    // a link takes 22 bytes: the third one behind the 17 of the pin fills a segment, and the sixth another
    (Pins, Done, &[]),
    (Links(1, b"a"), At(2), &[First(Letters(2, b"a"), 2)]),
    (Links(2, b"b"), At(3), &[First(Letters(3, b"ab"), 3)]),
    (Links(3, b"c"), At(4), &[First(Letters(4, b"abc"), 4)]),
    (Links(4, b"d"), At(5), &[First(Letters(5, b"abcd"), 5)]),
    (Links(5, b"e"), At(6), &[First(Letters(6, b"abcde"), 6)]),
    (Links(6, b"f"), At(7), &[First(Letters(7, b"abcdef"), 7)]),
    (Links(7, b"g"), At(8), &[First(Letters(8, b"abcdefg"), 8)]),
    (Frees(1), At(2), &[Second(Absent)]),
    (Seals, Done, &[]),
    (Flushes, Done, &[]),
    (Pins, Done, &[]),
    (Links(8, b"h"), At(9), &[First(Letters(9, b"abcdefgh"), 9)]),
    (
        Links(9, b"i"),
        At(10),
        &[First(Letters(10, b"abcdefghi"), 10)],
    ),
    // the node is written whole, by more than a segment
    (
        Links(10, b"j"),
        At(11),
        &[First(Letters(11, b"abcdefghij"), 1)],
    ),
    (
        Links(11, b"k"),
        At(12),
        &[First(Letters(12, b"abcdefghijk"), 2)],
    ),
    (Replaces(12), At(13), &[First(Letters(13, b"k"), 1)]),
    (Links(13, b"l"), At(14), &[First(Letters(14, b"kl"), 2)]),
    (Cancels, Done, &[]),
    (Draws, Id(0), &[]),
    (Links(14, b"m"), At(15), &[First(Letters(15, b"klm"), 3)]),
    (Flushes, Done, &[]),
    (Pins, Done, &[]),
    (Adds, Made(3, 3), &[Second(Empty(3))]),
    (Links(15, b"n"), At(16), &[First(Letters(16, b"klmn"), 4)]),
    (Links(16, b"o"), At(17), &[First(Letters(17, b"klmno"), 5)]),
    (Links(17, b"p"), At(18), &[First(Letters(18, b"klmnop"), 6)]),
    (
        Links(18, b"q"),
        At(19),
        &[First(Letters(19, b"klmnopq"), 7)],
    ),
    (Frees(3), At(4), &[Second(Absent)]),
];

const SECOND_OPENING: &[Row] = &[
    (Gets(3), Gone, &[]),
    (Links(0, b"z"), At(1), &[First(Letters(1, b"klmz"), 4)]),
    (Adds, Made(3, 1), &[Second(Empty(1))]),
    (Flushes, Done, &[]),
    (Pins, Done, &[]),
    (Links(1, b"a"), At(2), &[First(Letters(2, b"aklmz"), 5)]),
    (Links(2, b"b"), At(3), &[First(Letters(3, b"abklmz"), 6)]),
    (Links(3, b"c"), At(4), &[First(Letters(4, b"abcklmz"), 7)]),
    (Seals, Done, &[]),
    (Draws, Id(20), &[Counter(20, 1)]),
    (Pins, Done, &[]),
    (Frees(1), At(2), &[Second(Absent)]),
    (Links(4, b"d"), At(5), &[First(Letters(5, b"abcdklmz"), 8)]),
    (Links(5, b"e"), At(6), &[First(Letters(6, b"abcdeklmz"), 9)]),
    (
        Links(6, b"f"),
        At(7),
        &[First(Letters(7, b"abcdefklmz"), 10)],
    ),
];
