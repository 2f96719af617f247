// Every fair stop of a list of calls, opened again.

use super::*;
use sled_pagecache_testing::scripts::walks;
use sled_pagecache_testing::steps::Change::Set;
use sled_pagecache_testing::steps::Outcome::At;
use sled_pagecache_testing::steps::Sight::{Absent, Empty, Pair};
use sled_pagecache_testing::steps::Step::{Adds, Crashes, Gets, Links, ReplacesByPair};
use sled_pagecache_testing::steps::{Sight, Step};

// Five changes behind the flushed system pages: two leaves, two links on the first, and a replacement of the second.
const LEAF: Step = Adds(2, 1);

const OTHER: Step = Adds(3, 1);

const LINK: Step = Links(2, 1, Set(b"a", b"1"), At(2));

const RELINK: Step = Links(2, 2, Set(b"a", b"2"), At(3));

const REPLACE: Step = ReplacesByPair(3, 1, At(2));

// How many changes a crash keeps, and the two pages behind it.
const CRASHES: &[(usize, Sight, Sight)] = &[
    (0, Absent, Absent),
    (1, Empty(0), Absent),
    (2, Empty(0), Empty(0)),
    (3, Pair(0, b"a", b"1"), Empty(0)),
    (4, Pair(0, b"a", b"2"), Empty(0)),
    (5, Pair(0, b"a", b"2"), Pair(0, b"k", b"v")),
];

// How many of the changes, of the crash and of the two gets behind it show what they should.
fn shown_behind(alloc: Global, kept: usize, first: Sight, second: Sight) -> usize {
    let (crash, first, second) = (Crashes(kept), Gets(2, first), Gets(3, second));
    let steps = [LEAF, OTHER, LINK, RELINK, REPLACE, crash, first, second];
    walks(alloc, &steps)
}

#[test]
fn each_crash_leaves_a_prefix(rt: HostRuntime) {
    for (kept, first, second) in CRASHES {
        assert_eq!(rt;
            shown_behind(rt.alloc(), *kept, *first, *second),
            8,
            "{kept} changes"
        );
    }
    // a crash can't leave six
    assert_eq!(rt; shown_behind(rt.alloc(), 6, Absent, Absent), 5);
}
