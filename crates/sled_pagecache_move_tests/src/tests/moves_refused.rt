// Pages that are read to be moved, and moves that are refused. The system pages take 35 bytes of a log in memory, an empty leaf 25, a leaf
// of one pair 29, and a link 22.

use super::moved_blobs::SMALL;
use super::moves::{APART, EACH, Moving, moved_within};
use super::*;
use sled_pagecache_testing::failing::Trouble;
use sled_pagecache_testing::failing::Trouble::{Full, Never, Read, Room, Write};
use sled_pagecache_testing::openings::Ending::HandedOn;
use sled_pagecache_testing::openings::{Ending, Opening, lasts_over};
use sled_pagecache_testing::steps::Outcome::{At, Faulty, Refused, Unread};
use sled_pagecache_testing::steps::Sight::{Empty, Holds, Pair, Unwritten};
use sled_pagecache_testing::steps::Step::{
    Adds, AddsFrom, Faults, Flushes, Gets, Idles, Links, LinksFrom, Moves, Reads, Reopens,
    Replaces, Takes, Unmoved, Unopened,
};
use sled_pagecache_testing::steps::{Outcome, PAIR, Sight, Step};

// ---- pages that left memory

// The empty leaves 2 to 258. Each shard has room for one page: 2 has left memory since 258 came, and 0 shares one with 256.
pub(super) const CROWD: Step = AddsFrom(2, 259);

const FIRST: Step = Gets(2, Empty(1));

const LAST: Step = Gets(258, Empty(1));

const LINK: Step = Links(2, 1, PAIR, At(2));

// How often the log was read at the end.
const AWAY: &[Moving] = &[
    ("one is read", EACH, &[CROWD, Moves(3), Reads(1)]),
    ("it stays then", EACH, &[CROWD, Moves(3), FIRST, Reads(1)]),
    ("another leaves", EACH, &[CROWD, Moves(3), LAST, Reads(2)]),
    (
        "one in memory isn't read",
        EACH,
        &[CROWD, FIRST, Moves(3), FIRST, Reads(1)],
    ),
    (
        "once for each message",
        EACH,
        &[
            CROWD,
            LINK,
            LAST,
            Moves(3),
            Gets(2, Pair(2, b"b", b"v")),
            Reads(4),
        ],
    ),
    (
        "a page of the cache's own puts out another",
        EACH,
        &[CROWD, Moves(1), Gets(256, Empty(1)), Reads(1)],
    ),
    (
        "one that lies elsewhere is neither read nor accessed",
        APART,
        &[CROWD, Replaces(2, 1, At(2)), LAST, Moves(2), LAST, Reads(1)],
    ),
    ("a blob isn't read", SMALL, &[CROWD, Moves(3), Reads(0)]),
    (
        "a blob stays out",
        SMALL,
        &[CROWD, Moves(3), FIRST, Reads(1)],
    ),
    (
        "a blob that lies in memory stays there",
        SMALL,
        &[CROWD, FIRST, Moves(3), FIRST, Reads(1)],
    ),
    (
        "a blob puts out another",
        SMALL,
        &[CROWD, Moves(3), LAST, Reads(1)],
    ),
    (
        "a page of ten messages behind an opening",
        EACH,
        &[
            Adds(2, 1),
            LinksFrom(2, 1, 9),
            Reopens,
            Moves(3),
            Gets(2, Pair(0, b"b", b"v")),
            Reads(12),
        ],
    ),
];

#[test]
fn a_page_that_left_memory_is_read_to_be_moved(rt: HostRuntime) {
    for (name, setting, steps) in AWAY {
        assert_eq!(rt;
            moved_within(rt.alloc(), 256, setting, steps),
            steps.len(),
            "{name}"
        );
    }
}

// ---- moves that are refused

// Page 2, of a leaf and three links, flushed, which takes 126 bytes with the system pages.
const LINKED: Opening<'static> = (
    10,
    Never,
    &[Adds(2, 1), LinksFrom(2, 1, 3), Flushes],
    HandedOn,
);

pub(super) const FOUND: Step = Gets(2, Holds(0, 1));

pub(super) const HIDDEN: Step = Gets(2, Unwritten);

const FULL: Outcome = Refused(Why::LogFull);

const UNOPENED: &[Step] = &[Unopened(Unread)];

// The name of the leaf is used up. Behind the next message the first link is named.
const UNREAD: &[Step] = &[
    Moves(2),
    Takes(161),
    Unmoved(Unread),
    Takes(161),
    Idles,
    FOUND,
    Links(2, 0, PAIR, At(1)),
    Moves(1),
    Takes(212),
    Gets(2, Holds(1, 1)),
];

const UNFILLED: &[Step] = &[Moves(2), Unmoved(FULL), Takes(161), Idles, FOUND];

const REFUSED: &[(Trouble, &[Step], Ending)] = &[
    (Read(1), UNOPENED, HandedOn),
    (Read(2), UNOPENED, HandedOn),
    (Read(3), UNREAD, HandedOn),
    (Read(4), UNREAD, HandedOn),
    (Read(5), UNREAD, HandedOn),
    (Read(6), UNREAD, HandedOn),
    (
        Read(7),
        &[Moves(3), Takes(190), FOUND, Moves(1), FOUND],
        Ending::Read(6),
    ),
    (
        Write(1),
        &[Unmoved(Faulty), Faults, Unmoved(Faulty), HIDDEN],
        HandedOn,
    ),
    (
        Write(2),
        &[Moves(1), Unmoved(Faulty), Faults, Unmoved(Faulty), HIDDEN],
        HandedOn,
    ),
    (
        Write(3),
        &[Moves(2), Unmoved(Faulty), Faults, Unmoved(Faulty), HIDDEN],
        HandedOn,
    ),
    (
        Write(4),
        &[Moves(3), FOUND, Unmoved(Faulty), Faults, HIDDEN],
        HandedOn,
    ),
    (
        Full(1),
        &[Unmoved(FULL), Takes(126), Idles, FOUND],
        Ending::Read(6),
    ),
    (Full(3), UNFILLED, Ending::Read(10)),
    (
        Room(160),
        &[Moves(1), Unmoved(FULL), Takes(143), Idles, FOUND],
        Ending::Read(6),
    ),
    (Room(161), UNFILLED, Ending::Read(10)),
    (Room(189), UNFILLED, Ending::Read(10)),
    (
        Room(190),
        &[Moves(3), Takes(190), Unmoved(FULL), Takes(190), FOUND],
        HandedOn,
    ),
];

#[test]
fn a_refused_move_leaves_the_page(rt: HostRuntime) {
    for (number, (trouble, steps, ending)) in REFUSED.iter().enumerate() {
        let openings = [
            LINKED,
            (10, *trouble, *steps, *ending),
            (10, Never, &[Gets(2, Holds(0, 1))], HandedOn),
        ];
        let log = MemLog::new(rt.alloc(), 512, 1);
        assert_eq!(rt; lasts_over(rt.alloc(), log, &openings), 3, "{number}");
    }
}

// ---- the same of a blob

// Page 2, of an empty leaf, flushed, which takes 60 bytes with the system pages.
const LEAF: Opening<'static> = (10, Never, &[Adds(2, 1), Flushes], HandedOn);

const BLANK: Step = Gets(2, Empty(0));

const REFUSED_BLOBS: &[(Trouble, &[Step], Ending)] = &[
    (
        Read(3),
        &[Moves(3), Takes(120), Gets(2, Sight::Unread), BLANK],
        Ending::Read(4),
    ),
    (
        Write(3),
        &[Moves(2), Unmoved(Faulty), Faults, Unmoved(Faulty), HIDDEN],
        HandedOn,
    ),
    (
        Full(3),
        &[Moves(2), Unmoved(FULL), Takes(95), Idles, BLANK],
        Ending::Read(3),
    ),
];

#[test]
fn a_refused_move_of_a_blob_leaves_the_page(rt: HostRuntime) {
    for (number, (trouble, steps, ending)) in REFUSED_BLOBS.iter().enumerate() {
        let openings = [
            LEAF,
            (10, *trouble, *steps, *ending),
            (10, Never, &[BLANK], HandedOn),
        ];
        let log = MemLog::new(rt.alloc(), 4, 1);
        assert_eq!(rt; lasts_over(rt.alloc(), log, &openings), 3, "{number}");
    }
}
