// Runs of openings: each with its interval, what goes wrong, what it shows, and how it ends.

use super::*;
use sled_pagecache_testing::failing::Trouble::{Full, Never, Write};
use sled_pagecache_testing::openings::Ending::{Crash, HandedOn};
use sled_pagecache_testing::openings::Run;
use sled_pagecache_testing::steps::Outcome::{Faulty, Refused};
use sled_pagecache_testing::steps::Sight::{Absent, Empty};
use sled_pagecache_testing::steps::Step;
use sled_pagecache_testing::steps::Step::{
    Adds, AddsNone, Counts, Gets, Gives, Hides, Refuses, Takes, Writes,
};

const USED_UP: Step = Refuses(Refused(Why::IdsUsedUp));

const NO_ROOM: Step = Refuses(Refused(Why::LogFull));

// Twice this and 3 is the greatest id.
const HALF: u64 = (1 << 63) - 2;

// The greatest id is three times this.
const THIRD: u64 = u64::MAX / 3;

// The system pages take 17 and 18 bytes of the log, an empty leaf 25, and a counter 17 and those of its number.
pub(super) const RUNS: &[Run] = &[
    (
        "the eleventh id of ten puts a counter, and the next opening begins two intervals above it",
        &[
            (10, Never, &[Gives(0, 11), Counts(10, 2)], Crash(0)),
            (
                10,
                Never,
                &[Counts(10, 0), Gives(30, 1), Counts(30, 1)],
                Crash(0),
            ),
            (10, Never, &[Gives(50, 1)], Crash(0)),
        ],
    ),
    (
        "ten ids of ten put none",
        &[
            (
                10,
                Never,
                &[Gives(0, 10), Counts(0, 1), Takes(35)],
                Crash(0),
            ),
            (10, Never, &[Counts(0, 0), Gives(20, 1)], Crash(0)),
        ],
    ),
    (
        "a longer interval",
        &[
            (10, Never, &[Gives(0, 11)], Crash(0)),
            (25, Never, &[Gives(60, 1), Counts(50, 1)], Crash(0)),
            (25, Never, &[Gives(100, 1)], Crash(0)),
        ],
    ),
    (
        "each interval is longer than the one before",
        &[
            (1, Never, &[Gives(0, 2), Counts(1, 2)], Crash(0)),
            (2, Never, &[Gives(5, 1), Counts(4, 1)], Crash(0)),
            (3, Never, &[Gives(10, 1), Counts(9, 1)], Crash(0)),
            (1000, Never, &[Gives(2009, 1), Counts(2000, 1)], Crash(0)),
            (1000, Never, &[Gives(4000, 1)], Crash(0)),
        ],
    ),
    (
        "one",
        &[
            (
                1,
                Never,
                &[Gives(0, 1), Takes(35), Gives(1, 1), Takes(53)],
                Crash(0),
            ),
            (
                1,
                Never,
                &[Gives(3, 1), Takes(71), Gives(4, 1), Takes(89)],
                Crash(0),
            ),
            (1, Never, &[Gives(6, 1), Counts(6, 1)], Crash(0)),
        ],
    ),
    (
        "one, and one id in each later opening",
        &[
            (1, Never, &[Gives(0, 2)], Crash(0)),
            (1, Never, &[Gives(3, 1)], Crash(0)),
            (1, Never, &[Gives(5, 1)], Crash(0)),
        ],
    ),
    (
        "two",
        &[
            (
                2,
                Never,
                &[Gives(0, 2), Takes(35), Gives(2, 1), Takes(53)],
                Crash(0),
            ),
            (
                2,
                Never,
                &[Gives(6, 2), Takes(71), Gives(8, 1), Takes(89)],
                Crash(0),
            ),
            (2, Never, &[Gives(12, 1), Counts(12, 1)], Crash(0)),
        ],
    ),
    (
        "three",
        &[
            (
                3,
                Never,
                &[Gives(0, 3), Takes(35), Gives(3, 3), Takes(53)],
                Crash(0),
            ),
            (
                3,
                Never,
                &[Gives(9, 3), Takes(71), Gives(12, 1), Takes(89)],
                Crash(0),
            ),
            (3, Never, &[Gives(18, 1), Counts(18, 1)], Crash(0)),
        ],
    ),
    (
        "a thousand",
        &[
            (
                1000,
                Never,
                &[Gives(0, 1000), Takes(35), Gives(1000, 1000), Takes(54)],
                Crash(0),
            ),
            (
                1000,
                Never,
                &[Gives(3000, 1000), Takes(74), Gives(4000, 1), Takes(94)],
                Crash(0),
            ),
            (1000, Never, &[Gives(6000, 1), Counts(6000, 1)], Crash(0)),
        ],
    ),
    (
        "an opening that gives no id uses none",
        &[
            (10, Never, &[], Crash(0)),
            (10, Never, &[], Crash(0)),
            (10, Never, &[Gives(20, 1)], Crash(0)),
        ],
    ),
    (
        "a counter makes durable what is pending",
        &[
            (10, Never, &[Adds(2, 1), Gives(0, 11), Writes(0)], Crash(0)),
            (10, Never, &[Gets(2, Empty(0)), Gives(30, 1)], Crash(0)),
        ],
    ),
    (
        "an id without a counter doesn't",
        &[
            (10, Never, &[Adds(2, 1), Gives(0, 10)], Crash(0)),
            (10, Never, &[Gets(2, Absent), Gives(20, 1)], Crash(0)),
        ],
    ),
    (
        "the first id puts a counter over what was handed on",
        &[
            (10, Never, &[Gives(0, 11), Adds(2, 1), Adds(3, 1)], HandedOn),
            (
                10,
                Never,
                &[Counts(10, 0), Gives(30, 1), Writes(0)],
                Crash(0),
            ),
            (10, Never, &[Gets(3, Empty(0)), Gives(50, 1)], HandedOn),
            (10, Never, &[Gives(70, 1)], Crash(0)),
        ],
    ),
    (
        "none is left where two intervals pass the greatest",
        &[
            (u64::MAX, Never, &[Gives(0, 2)], Crash(0)),
            (
                u64::MAX,
                Never,
                &[USED_UP, USED_UP, Counts(0, 0), Adds(2, 1), USED_UP],
                Crash(1),
            ),
            (u64::MAX, Never, &[Gets(2, Empty(0)), USED_UP], Crash(0)),
        ],
    ),
    (
        "the last three",
        &[
            (1, Never, &[Gives(0, 2)], Crash(0)),
            (
                HALF,
                Never,
                &[
                    Gives(u64::MAX - 2, 3),
                    USED_UP,
                    USED_UP,
                    Counts(u64::MAX - 3, 1),
                ],
                Crash(0),
            ),
            (
                HALF,
                Never,
                &[USED_UP, Counts(u64::MAX - 3, 0), Adds(2, 1), Writes(25)],
                Crash(0),
            ),
        ],
    ),
    (
        "the last",
        &[
            (1, Never, &[Gives(0, 4)], Crash(0)),
            (
                HALF,
                Never,
                &[Gives(u64::MAX, 1), USED_UP, Takes(35 + 3 * 18 + 26)],
                Crash(0),
            ),
            (u64::MAX, Never, &[USED_UP], Crash(0)),
        ],
    ),
    (
        "a third of all",
        &[
            (THIRD, Never, &[Gives(0, 1)], Crash(0)),
            (
                THIRD,
                Never,
                &[Gives(2 * THIRD, 2), Counts(2 * THIRD, 1)],
                Crash(0),
            ),
            (THIRD, Never, &[USED_UP], Crash(0)),
        ],
    ),
    (
        "an id that finds the log full is not used",
        &[
            (
                10,
                Full(3),
                &[
                    Gives(0, 10),
                    NO_ROOM,
                    Counts(0, 1),
                    Takes(35),
                    Gives(10, 1),
                    Counts(10, 2),
                ],
                Crash(0),
            ),
            (
                10,
                Full(1),
                &[NO_ROOM, Counts(10, 0), Gives(30, 1), Counts(30, 1)],
                Crash(0),
            ),
        ],
    ),
    (
        "where it was refused nothing is made durable",
        &[
            (10, Full(4), &[Gives(0, 10), Adds(2, 1), NO_ROOM], Crash(0)),
            (10, Never, &[Gets(2, Absent), Gives(20, 1)], Crash(0)),
        ],
    ),
    (
        "an id without a counter writes nothing",
        &[
            (
                10,
                Write(4),
                &[Gives(0, 10), AddsNone(Faulty), Refuses(Faulty), Hides],
                Crash(0),
            ),
            (10, Never, &[Gives(20, 1)], Crash(0)),
        ],
    ),
    (
        "a counter that wasn't written",
        &[
            (
                10,
                Write(4),
                &[
                    Gives(0, 10),
                    Refuses(Faulty),
                    Refuses(Faulty),
                    Hides,
                    AddsNone(Faulty),
                ],
                Crash(0),
            ),
            (10, Never, &[Gives(20, 1)], Crash(0)),
        ],
    ),
    (
        "a counter that wasn't made durable, and is lost",
        &[
            (
                10,
                Write(5),
                &[Gives(0, 10), Refuses(Faulty), Refuses(Faulty), Hides],
                Crash(0),
            ),
            (10, Never, &[Counts(0, 0), Gives(20, 1)], Crash(0)),
        ],
    ),
    (
        "a counter that wasn't made durable, and stays",
        &[
            (
                10,
                Write(5),
                &[Gives(0, 10), Refuses(Faulty), Refuses(Faulty), Hides],
                Crash(1),
            ),
            (10, Never, &[Counts(10, 0), Gives(30, 1)], Crash(0)),
        ],
    ),
    (
        "a write error is answered first, and used up ids before the log is asked",
        &[
            (10, Never, &[], Crash(0)),
            (u64::MAX, Full(1), &[USED_UP], Crash(0)),
            (
                u64::MAX,
                Write(1),
                &[USED_UP, AddsNone(Faulty), Refuses(Faulty)],
                Crash(0),
            ),
        ],
    ),
];
