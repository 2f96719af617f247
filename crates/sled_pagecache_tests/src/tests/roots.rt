// Named roots.

use super::*;
use sled_pagecache_testing::calls::{names_and_stamp, root_of, swaps};
use sled_pagecache_testing::failing::Trouble::Room;
use sled_pagecache_testing::openings::Ending::HandedOn;
use sled_pagecache_testing::openings::{Run, first_wrong_run};
use sled_pagecache_testing::scripts::{Script, first_wrong};
use sled_pagecache_testing::steps::Outcome::{Done, Is, Refused};
use sled_pagecache_testing::steps::Step::{Crashes, Finds, Flushes, Has, Lacks, Swaps, Takes};
use sled_pagecache_testing::steps::{LONG, Outcome, Step};

pub(super) const SHORT: &[u8] = &[b's'; 22];

pub(super) const LONGER: &[u8] = &[b'm'; 1000];

// The system pages take 17 and 18 bytes of the log, and a root map 17 and, for each name, its length, the bytes of that length, and
// those of its root.
const SCRIPTS: &[Script] = &[
    (
        "a name is set, changed and taken out",
        &[
            Has(0, 1),
            Lacks(b"a"),
            Swaps(b"a", None, Some(2), Done),
            Finds(b"a", 2),
            Has(1, 2),
            Takes(35 + 17 + 3),
            Swaps(b"a", Some(2), Some(300), Done),
            Finds(b"a", 300),
            Has(1, 3),
            Takes(55 + 17 + 4),
            Swaps(b"a", Some(300), None, Done),
            Lacks(b"a"),
            Has(0, 4),
            Takes(76 + 17),
        ],
    ),
    (
        "another root comes back, and nothing changes",
        &[
            Swaps(b"a", Some(2), Some(3), Is(None)),
            Swaps(b"a", Some(0), None, Is(None)),
            Swaps(b"a", None, Some(2), Done),
            Swaps(b"a", None, Some(3), Is(Some(2))),
            Swaps(b"a", None, None, Is(Some(2))),
            Swaps(b"a", Some(3), None, Is(Some(2))),
            Has(1, 2),
            Takes(55),
        ],
    ),
    (
        "a swap that changes nothing raises the stamp",
        &[
            Swaps(b"a", None, None, Done),
            Has(0, 2),
            Takes(35 + 17),
            Swaps(b"a", None, Some(0), Done),
            Swaps(b"a", Some(0), Some(0), Done),
            Finds(b"a", 0),
            Has(1, 4),
        ],
    ),
    (
        "names of each length keep theirs beside each other",
        &[
            Swaps(LONG, None, Some(u64::MAX), Done),
            Swaps(b"", None, Some(240), Done),
            Swaps(SHORT, None, Some(241), Done),
            Swaps(LONGER, None, Some(67_824), Done),
            Has(4, 5),
            Swaps(LONG, Some(u64::MAX), None, Done),
            Lacks(LONG),
            Finds(b"", 240),
            Finds(SHORT, 241),
            Finds(LONGER, 67_824),
            Flushes,
            Crashes(0),
            Has(3, 0),
            Lacks(LONG),
            Finds(b"", 240),
            Finds(SHORT, 241),
            Finds(LONGER, 67_824),
            Swaps(b"", Some(240), Some(2), Done),
            Has(3, 1),
        ],
    ),
    (
        "a crash keeps the first of two swaps",
        &[
            Swaps(b"a", None, Some(2), Done),
            Swaps(b"b", None, Some(3), Done),
            Crashes(1),
            Finds(b"a", 2),
            Lacks(b"b"),
            Has(1, 0),
        ],
    ),
    (
        "a crash keeps neither",
        &[
            Swaps(b"a", None, Some(2), Done),
            Swaps(b"b", None, Some(3), Done),
            Crashes(0),
            Lacks(b"a"),
            Lacks(b"b"),
            Swaps(b"a", None, Some(5), Done),
            Has(1, 1),
        ],
    ),
];

#[test]
fn names_have_roots(rt: HostRuntime) {
    assert_eq!(rt; first_wrong(rt.alloc(), SCRIPTS), None);
}

// One of 1,000 names, in a scattered order.
fn name_of(n: u64) -> [u8; 8] {
    (n % 1000 * 501 % 1000).to_be_bytes()
}

// Whether 1,000 names are set and found, and each hundredth is taken out.
fn sets_many(cache: &mut Cache) -> bool {
    for n in 0..1000 {
        if swaps(cache, &name_of(n), None, Some(n)) != Done {
            return false;
        }
    }
    for n in 0..1000 {
        if root_of(cache, &name_of(n)) != Some(Some(n)) {
            return false;
        }
    }
    for n in 0..10 {
        if swaps(cache, &name_of(100 * n), Some(100 * n), None) != Done {
            return false;
        }
    }
    names_and_stamp(cache) == Some((990, 1011))
}

#[test]
fn a_thousand_names_are_set_and_taken_out(rt: HostRuntime) -> Result<(), Fail> {
    let mut cache = started(rt.alloc(), 512).ok_or("a cache")?;
    assert!(rt; sets_many(&mut cache));
    Ok(())
}

const FULL: Outcome = Refused(Why::LogFull);

// The system pages take 35 bytes, a map of `a` 20, and an empty one 17.
const RUNS: &[Run] = &[
    (
        "no room for a name",
        &[(
            10,
            Room(54),
            &[Swaps(b"a", None, Some(2), FULL), Lacks(b"a")],
            HandedOn,
        )],
    ),
    (
        "room for one name",
        &[(
            10,
            Room(55),
            &[SET, Swaps(b"a", Some(2), Some(3), FULL), Finds(b"a", 2)],
            HandedOn,
        )],
    ),
    (
        "a byte too few for its other root",
        &[(
            10,
            Room(74),
            &[SET, Swaps(b"a", Some(2), Some(3), FULL), Finds(b"a", 2)],
            HandedOn,
        )],
    ),
    (
        "room for its other root",
        &[(
            10,
            Room(75),
            &[SET, Swaps(b"a", Some(2), Some(3), Done), Finds(b"a", 3)],
            HandedOn,
        )],
    ),
    (
        "a byte too few to take it out",
        &[(
            10,
            Room(71),
            &[SET, Swaps(b"a", Some(2), None, FULL), Finds(b"a", 2)],
            HandedOn,
        )],
    ),
    (
        "room to take it out",
        &[(
            10,
            Room(72),
            &[SET, Swaps(b"a", Some(2), None, Done), Lacks(b"a")],
            HandedOn,
        )],
    ),
];

const SET: Step = Swaps(b"a", None, Some(2), Done);

#[test]
fn a_refused_swap_leaves_the_names(rt: HostRuntime) {
    assert_eq!(rt; first_wrong_run(rt.alloc(), RUNS), None);
}
