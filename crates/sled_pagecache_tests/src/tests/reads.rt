// Each read of a log failing in turn.

use super::*;
use sled_pagecache_testing::failing::Trouble::{Never, Read};
use sled_pagecache_testing::openings::Ending::HandedOn;
use sled_pagecache_testing::openings::{Opening, lasts};
use sled_pagecache_testing::steps::Outcome::Unread as Refused;
use sled_pagecache_testing::steps::Sight::{Holds, Unread};
use sled_pagecache_testing::steps::Step;
use sled_pagecache_testing::steps::Step::{Adds, Flushes, Gets, LinksFrom, Unopened};

// Page 2, of a leaf and three links, and page 3, of an empty leaf, both flushed.
const TWO_PAGES: Opening<'static> = (
    10,
    Never,
    &[Adds(2, 1), Adds(3, 1), LinksFrom(2, 1, 3), Flushes],
    HandedOn,
);

const FIRST: Step = Gets(2, Holds(0, 1));

const SECOND: Step = Gets(3, Holds(0, 0));

const NO_FIRST: Step = Gets(2, Unread);

const NO_SECOND: Step = Gets(3, Unread);

const UNOPENED: &[Step] = &[Unopened(Refused)];

const NOT_AT_FIRST: &[Step] = &[NO_FIRST, FIRST, SECOND, SECOND];

const ALL: &[Step] = &[FIRST, FIRST, SECOND, SECOND];

// Both pages asked for twice, where the read with a number fails.
const READS: &[(u64, &[Step])] = &[
    (1, UNOPENED),
    (2, UNOPENED),
    (3, NOT_AT_FIRST),
    (4, NOT_AT_FIRST),
    (5, NOT_AT_FIRST),
    (6, NOT_AT_FIRST),
    (7, &[FIRST, FIRST, NO_SECOND, SECOND]),
    (8, ALL),
    (9, ALL),
];

// The next opening over the same log shows all.
#[test]
fn a_read_that_fails_leaves_every_page(rt: HostRuntime) {
    for (number, steps) in READS {
        let openings = [
            TWO_PAGES,
            (10, Read(*number), *steps, HandedOn),
            (10, Never, ALL, HandedOn),
        ];
        assert_eq!(rt; lasts(rt.alloc(), &openings), 3, "read {number}");
    }
}
