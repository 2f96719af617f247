mod batches;
mod corners;
mod crashes;
mod disk_law;
mod eviction;
mod free;
mod full;
mod generic;
mod id_law;
mod ids;
mod many_names;
mod opening_law;
mod pages;
mod prefixes;
mod reads;
mod recovery;
mod roots;
mod served_law;
mod tokens;
mod trees;
mod writes;

use sled_base::{
    Device, DiskPtr, Error, IVec, Lsn, MessageKind, PageId, PageState, Refusal, Serialize, Why,
};
use sled_log::{Log, MemLog};
use sled_node::{Data, Index, Leaf, Link, Node};
use sled_pagecache::{Config, Disk, DiskLog, MemDisk, PageCache, PageView, open_tree};
use sled_pagecache_testing::caches::{CONFIG, Cache, MANIFEST, log_if, log_of, opening, started};
use sled_pagecache_testing::nodes::set;
use sled_pagecache_testing::scripts::{Script, first_wrong, opened_over};
use sled_pagecache_testing::steps::Change::{Cap, Confirm, Del, Intend, Set};
use sled_pagecache_testing::steps::Outcome::{At, Gone, Refused, Stale, Unaccepted};
use sled_pagecache_testing::steps::Sight::{Absent, Between, Empty, Pair, Reserved};
use sled_pagecache_testing::steps::Step::{Adds, AddsBetween, Gets, Links, Recovered, Replaces};
use sled_pagecache_testing::steps::{Change, PAIR, Step};
use std::alloc::{AllocError, Global};
use std::test::Fail;

// Whether a config has this fault, or none. A log that was refused, or that was in use, serves again.
fn has_fault(alloc: Global, config: Config, fault: Option<Why>) -> bool {
    match opening(alloc, config, MemLog::new(alloc, 512, 16)) {
        Ok(cache) => fault.is_none() && serves_again(alloc, cache),
        Err((error, log)) => is_fault(error, fault) && serves(alloc, log),
    }
}

fn is_fault(error: Error, fault: Option<Why>) -> bool {
    match error {
        Error::Unsupported(why) => fault == Some(why),
        _ => false,
    }
}

fn serves(alloc: Global, log: MemLog) -> bool {
    opened_over(alloc, CONFIG, log).is_some()
}

fn serves_again(alloc: Global, cache: Cache) -> bool {
    log_of(cache).is_some_and(|log| serves(alloc, log))
}

#[test]
fn the_first_fault_of_a_config_is_answered(rt: HostRuntime) {
    for (cache_capacity, idgen_persist_interval, segment_size, fault) in [
        (255, 0, 0, Some(Why::CapacityTooSmall)),
        (256, 0, 0, Some(Why::IntervalZero)),
        (256, 1, 0, Some(Why::SegmentZero)),
        (256, 1, 1, None),
    ] {
        let config = Config {
            cache_capacity,
            idgen_persist_interval,
            segment_size,
        };
        assert!(rt; has_fault(rt.alloc(), config, fault), "{config:?}");
    }
}

const HELD: Step = Gets(2, Pair(2, b"b", b"v"));

const OTHER: Change = Set(b"c", b"w");

const SCRIPTS: &[Script] = &[
    (
        "new pages come behind the two of the cache",
        &[
            Recovered(false),
            Adds(2, 1),
            Adds(3, 1),
            Gets(2, Empty(1)),
            Gets(3, Empty(1)),
            Gets(0, Reserved),
            Gets(1, Reserved),
            Gets(MANIFEST, Reserved),
            Gets(4, Absent),
            Gets(9, Absent),
            Gets(u64::MAX, Absent),
        ],
    ),
    (
        "a link wants the present token",
        &[
            Adds(2, 1),
            Links(2, 1, PAIR, At(2)),
            HELD,
            Links(2, 0, OTHER, Stale(2)),
            HELD,
            Links(2, 1, OTHER, Stale(2)),
            HELD,
            Links(2, 3, OTHER, Stale(2)),
            HELD,
            Links(2, u64::MAX, OTHER, Stale(2)),
            HELD,
        ],
    ),
    (
        "a link wants a page",
        &[
            Adds(2, 1),
            Links(9, 1, PAIR, Gone),
            Links(u64::MAX, 1, PAIR, Gone),
            Links(0, 1, PAIR, Refused(Why::ReservedId)),
            Links(0, 7, PAIR, Refused(Why::ReservedId)),
            Links(1, 1, PAIR, Refused(Why::ReservedId)),
            Links(MANIFEST, 1, PAIR, Refused(Why::ReservedId)),
        ],
    ),
    (
        "a link wants a node that accepts it",
        &[
            Adds(2, 1),
            Links(2, 1, Confirm, Unaccepted),
            Gets(2, Empty(1)),
            Links(2, 1, Cap, At(2)),
            Links(2, 2, PAIR, Unaccepted),
            Gets(2, Empty(2)),
            Links(2, 2, Del(b"b"), Unaccepted),
            Gets(2, Empty(2)),
            Links(2, 2, Intend(5), Unaccepted),
            Gets(2, Empty(2)),
            Links(2, 2, Confirm, Unaccepted),
            Gets(2, Empty(2)),
            Links(2, 2, Cap, Unaccepted),
            Gets(2, Empty(2)),
        ],
    ),
    (
        "a page keeps stored keys without the prefix",
        &[
            AddsBetween(2, b"ba", b"bz"),
            Links(2, 1, PAIR, At(2)),
            HELD,
            Gets(2, Between(b"ba", b"bz")),
        ],
    ),
    (
        "a replacement wants the present token",
        &[
            Adds(2, 1),
            Links(2, 1, PAIR, At(2)),
            Replaces(2, 1, Stale(2)),
            HELD,
            Replaces(2, 3, Stale(2)),
            HELD,
            Replaces(2, 2, At(3)),
            Gets(2, Empty(3)),
        ],
    ),
    (
        "a replacement wants a page",
        &[
            Replaces(2, 1, Gone),
            Replaces(u64::MAX, 1, Gone),
            Replaces(0, 1, Refused(Why::ReservedId)),
            Replaces(1, 1, Refused(Why::ReservedId)),
            Replaces(MANIFEST, 1, Refused(Why::ReservedId)),
        ],
    ),
];

#[test]
fn pages_are_added_linked_and_replaced(rt: HostRuntime) {
    assert_eq!(rt; first_wrong(rt.alloc(), SCRIPTS), None);
}
