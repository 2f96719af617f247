// What the move meets that is added to a replacement or to a link, and is passed over.

use super::super::moves_refused::{FOUND, HIDDEN};
use super::*;
use sled_pagecache_testing::failing::Trouble;
use sled_pagecache_testing::failing::Trouble::{Full, Never, Read, Room, Write};
use sled_pagecache_testing::openings::Ending::HandedOn;
use sled_pagecache_testing::openings::{Opening, lasts_over};
use sled_pagecache_testing::steps::Outcome::Faulty;
use sled_pagecache_testing::steps::Sight::Holds;
use sled_pagecache_testing::steps::Step::{AddsNone, Faults, Hides, Refuses, Unmoved};

// Page 2, of a leaf and three links, and page 3, of an empty leaf, flushed, which take 151 bytes with the system pages. Both of these were
// moved, so that page 2 is due behind a replacement of page 3.
const LINKED: Opening<'static> = (
    10,
    Never,
    &[
        Adds(2, 1),
        LinksFrom(2, 1, 3),
        Adds(3, 1),
        Flushes,
        Moves(2),
    ],
    HandedOn,
);

const OTHER: Step = Replaces(3, 0, At(1));

const FULL: Step = Replaces(3, 0, Refused(Why::LogFull));

// The move writes nothing, and the message that was due isn't named again.
const PASSED_OVER: &[Step] = &[OTHER, Takes(211), Idles, FOUND, Gets(3, Empty(1))];

const MOVED_TOO: &[Step] = &[OTHER, Takes(240), FOUND, Gets(3, Empty(1)), Moves(1)];

// The pages stand behind each as the replacement left them.
const BOTH_STAND: &[Step] = &[FOUND, Gets(3, Empty(0))];

const TROUBLES: &[(Trouble, &'static [Step])] = &[
    (Never, MOVED_TOO),
    (Read(3), PASSED_OVER),
    (Read(4), PASSED_OVER),
    (Read(5), PASSED_OVER),
    (Read(6), PASSED_OVER),
    (Read(7), MOVED_TOO),
    (Full(1), &[FULL, Takes(186), Moves(1), Takes(215), OTHER]),
    (Full(2), PASSED_OVER),
    (
        Room(210),
        &[FULL, Takes(186), Gets(3, Empty(0)), FOUND, Takes(186)],
    ),
    (Room(211), PASSED_OVER),
    (Room(239), PASSED_OVER),
    (Room(240), &[OTHER, Takes(240), FOUND]),
    (Write(1), &[Replaces(3, 0, Faulty), Faults, HIDDEN]),
    (Write(2), &[OTHER, HIDDEN, Faults]),
    (
        Write(2),
        &[
            OTHER,
            AddsNone(Faulty),
            Links(2, 0, PAIR, Faulty),
            Replaces(3, 1, Faulty),
            Frees(3, 1, Faulty),
            HIDDEN,
            Swaps(b"t", None, Some(2), Faulty),
            Opens(b"t", Faulty),
            Refuses(Faulty),
            Hides,
            Unmoved(Faulty),
            Faults,
        ],
    ),
    (Write(3), &[OTHER, FOUND, Unmoved(Faulty), Faults, HIDDEN]),
];

// The first of the troubles whose opening, between these two, doesn't show what it should.
fn first_wrong_trouble(
    alloc: Global,
    first: &Opening<'static>,
    troubles: &[(Trouble, &'static [Step])],
    found: &'static [Step],
) -> Option<usize> {
    for (number, (trouble, steps)) in troubles.iter().enumerate() {
        let second = (10, *trouble, *steps, HandedOn);
        let openings = [*first, second, (10, Never, found, HandedOn)];
        if lasts_over(alloc, MemLog::new(alloc, 512, 1), &openings) != 3 {
            return Some(number);
        }
    }
    None
}

#[test]
fn what_the_added_move_meets_is_passed_over(rt: HostRuntime) {
    assert_eq!(rt;
        first_wrong_trouble(rt.alloc(), &LINKED, TROUBLES, BOTH_STAND),
        None
    );
}

// ---- the same behind a link

// Page 2, of ten messages, flushed, which takes 258 bytes with the system pages. The first of these is due behind the next link.
const TEN: Opening<'static> = (
    10,
    Never,
    &[Adds(2, 1), LinksFrom(2, 1, 9), Flushes],
    HandedOn,
);

const LINK: Step = Links(2, 0, PAIR, At(1));

const RELINKED: Step = Gets(2, Holds(1, 1));

const STANDS: &[Step] = &[FOUND];

const LINK_TROUBLES: &[(Trouble, &'static [Step])] = &[
    (Never, &[LINK, Takes(304), RELINKED]),
    (Full(2), &[LINK, Takes(287), Idles, RELINKED]),
    (Room(287), &[LINK, Takes(287), Idles, RELINKED]),
    (Room(303), &[LINK, Takes(287), Idles, RELINKED]),
    (Room(304), &[LINK, Takes(304), RELINKED]),
    (Write(2), &[LINK, HIDDEN, Faults]),
    (Write(2), &[LINK, Links(2, 1, PAIR, Faulty), Faults]),
];

#[test]
fn what_the_move_behind_a_link_meets_is_passed_over(rt: HostRuntime) {
    assert_eq!(rt;
        first_wrong_trouble(rt.alloc(), &TEN, LINK_TROUBLES, STANDS),
        None
    );
}
