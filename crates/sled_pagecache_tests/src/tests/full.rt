// A log that has no room for a message, and what the refusal leaves in memory.

use super::*;
use sled_pagecache_testing::failing::Trouble::Room;
use sled_pagecache_testing::openings::Ending::{HandedOn, Read};
use sled_pagecache_testing::openings::{Ending, lasts};
use sled_pagecache_testing::steps::Outcome::{At, Refused};
use sled_pagecache_testing::steps::Sight::{Absent, Holds};
use sled_pagecache_testing::steps::Step::{Adds, AddsNone, Gets, Links, Replaces, Unopened};
use sled_pagecache_testing::steps::{Outcome, PAIR, Step};

const FULL: Outcome = Refused(Why::LogFull);

const ADDS: Step = Adds(2, 1);

const LINKS: Step = Links(2, 1, PAIR, At(2));

const RELINKS: Step = Links(2, 2, PAIR, At(3));

const UNADDED: &[Step] = &[AddsNone(FULL), Gets(2, Absent)];

const UNLINKED: &[Step] = &[ADDS, Links(2, 1, PAIR, FULL), Gets(2, Holds(1, 0))];

const LINKED: &[Step] = &[ADDS, LINKS, Links(2, 2, PAIR, FULL), Gets(2, Holds(2, 1))];

const RELINKED: &[Step] = &[
    ADDS,
    LINKS,
    RELINKS,
    Replaces(2, 3, FULL),
    Gets(2, Holds(3, 1)),
];

const REPLACED: &[Step] = &[
    ADDS,
    LINKS,
    RELINKS,
    Replaces(2, 3, At(4)),
    Gets(2, Holds(4, 0)),
];

// The system pages take 35 bytes, an empty leaf 25, and a link 22. An empty leaf is put on page 2, linked twice and replaced, up to the
// first call that is refused, and then the page is found, by so many reads.
const ROOMS: &[(u64, &[Step], Ending)] = &[
    (34, &[Unopened(FULL)], HandedOn),
    (35, UNADDED, Read(0)),
    (59, UNADDED, Read(0)),
    (60, UNLINKED, Read(1)),
    (81, UNLINKED, Read(1)),
    (82, LINKED, Read(2)),
    (103, LINKED, Read(2)),
    (104, RELINKED, Read(3)),
    (128, RELINKED, Read(3)),
    (129, REPLACED, Read(0)),
];

#[test]
fn a_page_whose_append_was_refused_is_read_again(rt: HostRuntime) {
    for (room, steps, ending) in ROOMS {
        let openings = [(10, Room(*room), *steps, *ending)];
        assert_eq!(rt; lasts(rt.alloc(), &openings), 1, "{room} bytes");
    }
}
