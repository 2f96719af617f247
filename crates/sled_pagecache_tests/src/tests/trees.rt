// Trees that are opened by their names.

use super::roots::{LONGER, SHORT};
use super::*;
use sled_pagecache_testing::failing::Trouble::{Never, Room, Write};
use sled_pagecache_testing::openings::Ending::HandedOn;
use sled_pagecache_testing::openings::{Run, first_wrong_run};
use sled_pagecache_testing::scripts::{Script, first_wrong};
use sled_pagecache_testing::steps::Outcome::{At, Done, Faulty, Id, Refused};
use sled_pagecache_testing::steps::Sight::{Absent, Empty, Leads};
use sled_pagecache_testing::steps::Step::{
    Adds, AddsFrom, Crashes, Finds, Flushes, Frees, Gets, Has, Lacks, Opens, Swaps, Takes,
};
use sled_pagecache_testing::steps::{LONG, Step};

// The system pages, an empty leaf, an index over it, and a name of one byte.
const TREE: u64 = 35 + 25 + 27 + 20;

const SCRIPTS: &[Script] = &[
    (
        "a tree is an index over an empty leaf, and is made once",
        &[
            Opens(b"t", Id(3)),
            Gets(3, Leads(1, 2)),
            Gets(2, Empty(1)),
            Has(1, 2),
            Takes(TREE),
            Opens(b"t", Id(3)),
            Finds(b"t", 3),
            Has(1, 2),
            Takes(TREE),
            Gets(4, Absent),
        ],
    ),
    (
        "a tree for each name",
        &[
            Opens(b"", Id(3)),
            Opens(LONG, Id(5)),
            Opens(LONGER, Id(7)),
            Opens(SHORT, Id(9)),
            Gets(9, Leads(1, 8)),
            Opens(LONG, Id(5)),
            Opens(LONGER, Id(7)),
            Opens(b"", Id(3)),
            Has(4, 5),
        ],
    ),
    (
        "a root that was set is that of the tree, whatever it is",
        &[
            Swaps(b"a", None, Some(9), Done),
            Opens(b"a", Id(9)),
            Swaps(b"a", Some(9), None, Done),
            Opens(b"a", Id(3)),
            Swaps(b"a", Some(3), None, Done),
            Opens(b"a", Id(5)),
            Gets(3, Leads(1, 2)),
        ],
    ),
    (
        "free pages are used from the greatest on",
        &[
            Adds(2, 1),
            Adds(3, 1),
            Adds(4, 1),
            Frees(2, 1, At(2)),
            Frees(3, 1, At(2)),
            Opens(b"t", Id(2)),
            Gets(2, Leads(3, 3)),
            Gets(3, Empty(3)),
            Opens(b"u", Id(6)),
            Gets(6, Leads(1, 5)),
        ],
    ),
    (
        "leaves whose ids take one byte and three",
        &[
            AddsFrom(2, 16),
            Opens(b"t", Id(17)),
            Gets(17, Leads(1, 16)),
            AddsFrom(18, 2_288),
            Opens(b"u", Id(2_289)),
            Gets(2_289, Leads(1, 2_288)),
            Flushes,
            Crashes(0),
            Opens(b"t", Id(17)),
            Gets(17, Leads(0, 16)),
            Opens(b"u", Id(2_289)),
            Gets(2_289, Leads(0, 2_288)),
            Has(2, 0),
        ],
    ),
    (
        "a crash keeps the leaf alone, and then that and the index",
        &[
            Opens(b"t", Id(3)),
            Crashes(1),
            Gets(2, Empty(0)),
            Gets(3, Absent),
            Lacks(b"t"),
            Opens(b"t", Id(4)),
            Crashes(2),
            Gets(3, Empty(0)),
            Gets(4, Leads(0, 3)),
            Gets(5, Absent),
            Lacks(b"t"),
            Opens(b"t", Id(6)),
        ],
    ),
    (
        "a tree that was flushed is there",
        &[
            Opens(b"t", Id(3)),
            Flushes,
            Crashes(0),
            Opens(b"t", Id(3)),
            Gets(3, Leads(0, 2)),
            Has(1, 0),
            Takes(TREE),
        ],
    ),
];

#[test]
fn a_name_has_one_tree(rt: HostRuntime) {
    assert_eq!(rt; first_wrong(rt.alloc(), SCRIPTS), None);
}

const FULL: Step = Opens(b"t", Refused(Why::LogFull));

const FAULTY: Step = Opens(b"t", Faulty);

const NO_LEAF: Step = Gets(2, Absent);

const NO_INDEX: Step = Gets(3, Absent);

const NO_NAME: Step = Lacks(b"t");

// Logs with room for so many bytes, and logs of which a write fails: three open the cache.
const RUNS: &[Run] = &[
    (
        "a byte too few for the leaf",
        &[(10, Room(59), &[FULL, NO_LEAF, NO_INDEX, NO_NAME], HandedOn)],
    ),
    (
        "room for the leaf",
        &[(
            10,
            Room(60),
            &[FULL, Gets(2, Empty(1)), NO_INDEX, NO_NAME],
            HandedOn,
        )],
    ),
    (
        "a byte too few for the index",
        &[(
            10,
            Room(86),
            &[FULL, Gets(2, Empty(1)), NO_INDEX, NO_NAME],
            HandedOn,
        )],
    ),
    (
        "room for the index",
        &[(
            10,
            Room(87),
            &[FULL, Gets(2, Empty(1)), Gets(3, Leads(1, 2)), NO_NAME],
            HandedOn,
        )],
    ),
    (
        "a byte too few for the name",
        &[(
            10,
            Room(TREE - 1),
            &[FULL, Gets(2, Empty(1)), Gets(3, Leads(1, 2)), NO_NAME],
            HandedOn,
        )],
    ),
    (
        "room for the tree",
        &[(
            10,
            Room(TREE),
            &[
                Opens(b"t", Id(3)),
                Gets(2, Empty(1)),
                Gets(3, Leads(1, 2)),
                Finds(b"t", 3),
            ],
            HandedOn,
        )],
    ),
    (
        "the leaf isn't written",
        &[
            (10, Write(4), &[FAULTY, FAULTY], HandedOn),
            (10, Never, &[NO_LEAF, NO_INDEX, NO_NAME], HandedOn),
        ],
    ),
    (
        "the index isn't written",
        &[
            (10, Write(5), &[FAULTY, FAULTY], HandedOn),
            (10, Never, &[Gets(2, Empty(0)), NO_INDEX, NO_NAME], HandedOn),
        ],
    ),
    (
        "the name isn't written",
        &[
            (10, Write(6), &[FAULTY, FAULTY], HandedOn),
            (
                10,
                Never,
                &[Gets(2, Empty(0)), Gets(3, Leads(0, 2)), NO_NAME],
                HandedOn,
            ),
        ],
    ),
];

#[test]
fn what_was_made_before_a_refusal_stands(rt: HostRuntime) {
    assert_eq!(rt; first_wrong_run(rt.alloc(), RUNS), None);
}
