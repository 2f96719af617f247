// Each write to a log failing in turn.

use super::*;
use sled_pagecache_testing::failing::Trouble::{Never, Write};
use sled_pagecache_testing::openings::Ending::{Crash, HandedOn};
use sled_pagecache_testing::openings::{Opening, lasts};
use sled_pagecache_testing::steps::Outcome::{At, Faulty};
use sled_pagecache_testing::steps::Sight::{Absent, Empty, Pair, Unwritten};
use sled_pagecache_testing::steps::Step::{
    Adds, AddsNone, Faults, Gets, Links, Recovered, Replaces, Takes, Unopened, Writes,
};
use sled_pagecache_testing::steps::{PAIR, Step};

// What is left where the crash keeps nothing of what was pending.
const LOST_ALL: Opening<'static> = (10, Never, &[Recovered(false), Gets(2, Absent)], HandedOn);

const LOST_PAGE: Opening<'static> = (10, Never, &[Recovered(true), Gets(2, Absent)], HandedOn);

const LOST_NONE: Opening<'static> = (10, Never, &[Recovered(true), Gets(2, Empty(0))], HandedOn);

const UNOPENED: &[Step] = &[Unopened(Faulty)];

const ADDS: Step = Adds(2, 1);

const LINKS: Step = Links(2, 1, PAIR, At(2));

const UNLINKED: Step = Links(2, 1, PAIR, Faulty);

const SEES: Step = Gets(2, Pair(2, b"b", b"v"));

const UNSEEN: Step = Gets(2, Unwritten);

const REPLACES: Step = Replaces(2, 2, At(3));

const UNREPLACED: Step = Replaces(2, 2, Faulty);

// Three writes open the cache. Then a page is added, linked, asked for and replaced, the log is flushed, and its size is asked for. Of
// the number of the write that fails, and of one that doesn't come: what is shown, and what is left behind a crash.
const WRITES: &[(u64, &[Step], Opening<'static>)] = &[
    (1, UNOPENED, LOST_ALL),
    (2, UNOPENED, LOST_ALL),
    (3, UNOPENED, LOST_ALL),
    (
        4,
        &[AddsNone(Faulty), UNLINKED, UNSEEN, UNREPLACED, Faults],
        LOST_PAGE,
    ),
    (5, &[ADDS, UNLINKED, UNSEEN, UNREPLACED, Faults], LOST_PAGE),
    (6, &[ADDS, LINKS, SEES, UNREPLACED, Faults], LOST_PAGE),
    (7, &[ADDS, LINKS, SEES, REPLACES, Faults], LOST_PAGE),
    (
        8,
        &[ADDS, LINKS, SEES, REPLACES, Writes(72), Takes(107)],
        LOST_NONE,
    ),
];

#[test]
fn a_write_fault_is_answered_from_then_on(rt: HostRuntime) {
    for (number, steps, left) in WRITES {
        let openings = [(10, Write(*number), *steps, Crash(0)), *left];
        assert_eq!(rt; lasts(rt.alloc(), &openings), 2, "write {number}");
    }
}
