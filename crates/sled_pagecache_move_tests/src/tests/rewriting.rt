// Caches that are rewritten into another log. Of that the system pages take 35 bytes, an empty leaf 25, a leaf of one pair 29, and a free
// page 42, since an empty leaf comes before it is freed.

ghost use Rattle.std.specs.Prelude.{◌≡◌, [], true, IfSome};
ghost use Rattle.sled_disk.specs.declared.disk.memory.MemDisk.{MemDisk};
ghost use Rattle.sled_log.specs.LogState.{now};
ghost use Rattle.sled_log.specs.Messages.{effect_of_entry};

mod refusals;

use super::*;
use sled_pagecache_testing::calls::{outcome_of, size_of};
use sled_pagecache_testing::disks::{Disked, new_disk, opened_on};
use sled_pagecache_testing::memory::{made, new_cache, opens};
use sled_pagecache_testing::scripts::{walks_in, walks_over};
use sled_pagecache_testing::steps::Outcome::{At, Done, Id, Refused, Unread};
use sled_pagecache_testing::steps::Sight::{Leads, Pair};
use sled_pagecache_testing::steps::Step::{
    AddsFrom, Counts, Finds, Frees, Gives, Has, LinksFrom, Opens, Reads, Swaps,
};
use sled_pagecache_testing::steps::{LONG, Outcome, shown};

// The log that a cache is rewritten into, or what it answers.
fn rewritten<L: Log>(alloc: Global, cache: &mut PageCache<L>) -> Result<MemLog, Outcome> {
    match cache.rewrite_into(MemLog::new(alloc, 512, 16)) {
        Ok(log) => Ok(log),
        Err((error, _log)) => Err(outcome_of(&error)),
    }
}

// How many bytes that log takes.
fn bytes_of<L: Log>(alloc: Global, cache: &mut PageCache<L>) -> Result<u64, Outcome> {
    Ok(rewritten(alloc, cache)?.size())
}

// ---- what is rewritten

// What is done to a cache of this capacity, over a log in which payloads above so many bytes are blobs; how many bytes the log takes that it
// is rewritten into, and how often its own is read for that; what it shows then, and what one shows that is opened over the other log.
#[derive(Clone, Copy)]
struct Row {
    name: &'static str,
    capacity: u64,
    blob_limit: usize,
    made: &'static [Step],
    bytes: u64,
    reads: u64,
    kept: &'static [Step],
    found: &'static [Step],
}

const PLAIN: Row = Row {
    name: "no page",
    capacity: 1_048_576,
    blob_limit: 512,
    made: &[],
    bytes: 35,
    reads: 0,
    kept: &[Recovered(false), Adds(2, 1)],
    found: &[Recovered(true), Gives(20, 1), Adds(2, 1)],
};

// Each shard has room for one page.
const CROWDED: Row = Row {
    capacity: 256,
    ..PLAIN
};

const LINK: Step = Links(2, 1, PAIR, At(2));

const ROWS: &[Row] = &[
    PLAIN,
    Row {
        name: "a page",
        made: &[Adds(2, 1)],
        bytes: 60,
        kept: &[Gets(2, Empty(1)), Links(2, 1, PAIR, At(2))],
        found: &[Gets(2, Empty(0)), Links(2, 0, PAIR, At(1)), Adds(3, 1)],
        ..PLAIN
    },
    Row {
        name: "the counter in use",
        made: &[Gives(0, 25)],
        kept: &[Gives(25, 5)],
        found: &[Counts(20, 0), Gives(40, 1)],
        ..PLAIN
    },
    Row {
        name: "named roots",
        made: &[Opens(b"t", Id(3)), Swaps(b"u", None, Some(7), Done)],
        bytes: 93,
        kept: &[Has(2, 3), Finds(b"u", 7)],
        found: &[
            Has(2, 0),
            Finds(b"t", 3),
            Finds(b"u", 7),
            Gets(2, Empty(0)),
            Gets(3, Leads(0, 2)),
        ],
        ..PLAIN
    },
    Row {
        name: "a free page",
        made: &[Adds(2, 1), Adds(3, 1), Frees(2, 1, At(2))],
        bytes: 102,
        kept: &[Gets(2, Absent), Gets(3, Empty(1)), Adds(2, 3)],
        found: &[Gets(2, Absent), Gets(3, Empty(0)), Adds(2, 1), Adds(4, 1)],
        ..PLAIN
    },
    Row {
        name: "a free page behind all others",
        made: &[Adds(2, 1), Frees(2, 1, At(2))],
        bytes: 77,
        kept: &[Gets(2, Absent), Adds(2, 3), Adds(3, 1)],
        found: &[Gets(2, Absent), Adds(2, 1), Adds(3, 1)],
        ..PLAIN
    },
    Row {
        name: "ten messages",
        made: &[Adds(2, 1), LINK, LinksFrom(2, 2, 8)],
        bytes: 64,
        kept: &[Gets(2, Pair(10, b"b", b"v"))],
        found: &[Gets(2, Pair(0, b"b", b"v")), Reads(3)],
        ..PLAIN
    },
    Row {
        name: "blobs",
        blob_limit: 4,
        made: &[Adds(2, 1), LINK, Swaps(LONG, None, Some(2), Done)],
        bytes: 89,
        kept: &[Gets(2, Pair(2, b"b", b"v")), Finds(LONG, 2)],
        found: &[Gets(2, Pair(0, b"b", b"v")), Finds(LONG, 2)],
        ..PLAIN
    },
    Row {
        name: "a page that left memory",
        made: &[AddsFrom(2, 259)],
        bytes: 6_460,
        reads: 1,
        kept: &[Gets(258, Empty(1)), Reads(2)],
        found: &[Gets(2, Empty(0)), Gets(258, Empty(0))],
        ..CROWDED
    },
    Row {
        name: "a blob that left memory",
        blob_limit: 4,
        made: &[AddsFrom(2, 259)],
        bytes: 6_460,
        reads: 1,
        kept: &[Gets(258, Empty(1)), Reads(2)],
        found: &[Gets(2, Empty(0)), Gets(258, Empty(0))],
        ..CROWDED
    },
    Row {
        name: "five messages of a page that left memory",
        made: &[
            AddsFrom(2, 258),
            LINK,
            LinksFrom(2, 2, 3),
            AddsFrom(258, 259),
        ],
        bytes: 6_464,
        reads: 5,
        kept: &[Gets(258, Empty(1)), Gets(2, Pair(5, b"b", b"v"))],
        found: &[Gets(2, Pair(0, b"b", b"v")), Gets(258, Empty(0))],
        ..CROWDED
    },
    Row {
        name: "pages 2 to 300, of which three are free",
        made: &[
            AddsFrom(2, 301),
            Frees(2, 1, At(2)),
            Frees(150, 1, At(2)),
            Frees(300, 1, At(2)),
        ],
        bytes: 7_561,
        reads: 43,
        kept: &[Gets(299, Empty(1)), Gets(3, Empty(1)), Adds(300, 3)],
        found: &[
            Gets(2, Absent),
            Gets(3, Empty(0)),
            Gets(299, Empty(0)),
            Gets(300, Absent),
            Adds(300, 1),
            Adds(150, 1),
            Adds(2, 1),
            Adds(301, 1),
        ],
        ..CROWDED
    },
];

// Whether a cache is rewritten so, twice, and goes on as it was.
fn is_rewritten(alloc: Global, row: &Row) -> Option<bool> {
    let config = Config {
        cache_capacity: row.capacity,
        ..CONFIG
    };
    let mut cache = opening(alloc, config, MemLog::new(alloc, row.blob_limit, 16)).ok()?;
    let is_made = shown(alloc, &mut cache, row.made) == row.made.len();
    let (size, reads) = (size_of(&cache), cache.log().reads());
    let log = rewritten(alloc, &mut cache).ok()?;
    let again = bytes_of(alloc, &mut cache);
    let is_read = cache.log().reads().saturating_sub(reads) == row.reads.saturating_mul(2);
    let is_so = is_made && is_read && log.size() == row.bytes && again == Ok(row.bytes);
    Some(
        is_so
            && size_of(&cache) == size
            && walks_over(alloc, cache, row.kept) == row.kept.len()
            && walks_in(alloc, config, log, row.found) == row.found.len(),
    )
}

#[test]
fn a_cache_is_rewritten(rt: HostRuntime) {
    for row in ROWS {
        assert_eq!(rt; is_rewritten(rt.alloc(), row), Some(true), "{}", row.name);
    }
}

// ---- refused allocations

// Pages 2 and 3, of which one is free: six writes, of five messages and to make them stable.
const WRITTEN: &[Step] = &[Adds(2, 1), Adds(3, 1), Frees(3, 1, At(2))];

// How many bytes the other log takes. A rewriting is made a second time where an allocation failed.
fn bytes_at_last(alloc: Global, cache: &mut Cache) -> Result<u64, Outcome> {
    match bytes_of(alloc, cache) {
        Err(Outcome::Unmade) => bytes_of(alloc, cache),
        answer => answer,
    }
}

// What a cache is rewritten to whose pages lie in memory, and then one whose pages don't.
fn both_bytes(alloc: Global) -> Option<[Result<u64, Outcome>; 2]> {
    let mut cache = new_cache(alloc)?;
    let is_made = made(alloc, &mut cache, WRITTEN) == WRITTEN.len();
    let first = bytes_at_last(alloc, &mut cache);
    let mut cache = opens(alloc, log_if(cache, is_made)?)?;
    Some([first, bytes_at_last(alloc, &mut cache)])
}

#[test]
fn a_refused_allocation_leaves_the_next_rewriting(rt: HostRuntime) {
    assert!(rt; both_bytes(rt.alloc()) == Some([Ok(102), Ok(102)]));
}

// ---- logs on disks

// A new log on a new disk in memory: it may be called, nothing is pending, and it holds no page.
pub(super) fn new_log(alloc: Global, limit: usize) -> Option<DiskLog<MemDisk>>
    ensures { IfSome result (λ log. ((⟦<DiskLog<MemDisk> as Log>⟧.state log).usable ≡ true)
        × ((⟦<DiskLog<MemDisk> as Log>⟧.state log).pending ≡ [])
        × (now effect_of_entry (⟦<DiskLog<MemDisk> as Log>⟧.state log) ≡ [])) }
{
    let mut disk = MemDisk::new(alloc, limit).ok()?;
    let Ok(()) = DiskLog::create(&mut disk) else {
        return None;
    };
    match DiskLog::open(alloc, disk, 4096, 16) {
        Ok(log) => Some(log),
        Err(_) => None,
    }
}

// The disk of the log that a cache is rewritten into.
fn disk_of(alloc: Global, cache: &mut Disked) -> Option<MemDisk> {
    let log = new_log(alloc, 65_536)?;
    match cache.rewrite_into(log) {
        Ok(log) => Some(log.into_disk()),
        Err(_) => None,
    }
}

// What is done to a cache, and how many bytes the file has that it is rewritten into: 18, and those of its messages.
const FILES: &[(&[Step], usize)] = &[
    (&[], 53),
    (&[Adds(2, 1), LINK, Links(2, 2, PAIR, At(3))], 82),
    (&[Adds(2, 1), Frees(2, 1, At(2))], 95),
    (
        &[
            Adds(2, 1),
            LINK,
            Adds(3, 1),
            Frees(3, 1, At(2)),
            Swaps(b"a", None, Some(2), Done),
            Gives(0, 12),
        ],
        127,
    ),
];

// Whether a cache, rewritten twice, gives a file of so many bytes, and so does one that is opened over that.
fn is_one_file(alloc: Global, steps: &[Step], bytes: usize) -> Option<bool> {
    let mut cache = opened_on(alloc, new_disk(alloc, 65_536)?, 4096).ok()?;
    let is_made = shown(alloc, &mut cache, steps) == steps.len();
    let first = disk_of(alloc, &mut cache)?;
    let second = disk_of(alloc, &mut cache)?;
    let is_same = first.bytes() == second.bytes();
    let mut cache = opened_on(alloc, first, 4096).ok()?;
    let third = disk_of(alloc, &mut cache)?;
    Some(is_made && is_same && second.bytes() == third.bytes() && third.bytes().len() == bytes)
}

#[test]
fn a_rewritten_file_is_the_same_each_time(rt: HostRuntime) {
    for (steps, bytes) in FILES {
        assert_eq!(rt;
            is_one_file(rt.alloc(), steps, *bytes),
            Some(true),
            "{bytes}"
        );
    }
}

// ---- what a caller tests before

// What a cache answers that is rewritten into any log that may be called. One that is in a batch, or that holds a page, is refused.
fn answered_where_empty<L: Log, M: Log>(
    cache: &mut PageCache<L>,
    mut into: M,
) -> Result<u64, Outcome>
    requires { (M.state into).usable ≡ true }
{
    if into.batch_open() {
        return Err(Refused(Why::BatchOpen));
    }
    let Ok(pages) = into.recover() else {
        return Err(Unread);
    };
    if !pages.is_empty() {
        return Err(Outcome::Other);
    }
    match cache.rewrite_into(into) {
        Ok(log) => Ok(log.size()),
        Err((error, _log)) => Err(outcome_of(&error)),
    }
}

// What it answers over a new log, and then over its own.
fn over_both(alloc: Global) -> Option<[Result<u64, Outcome>; 2]> {
    let mut cache = started(alloc, 512)?;
    let first = answered_where_empty(&mut cache, MemLog::new(alloc, 512, 16));
    let log = rewritten(alloc, &mut cache).ok()?;
    Some([first, answered_where_empty(&mut cache, log)])
}

#[test]
fn a_log_that_holds_pages_is_told_from_a_new_one(rt: HostRuntime) {
    assert!(rt; over_both(rt.alloc()) == Some([Ok(35), Err(Outcome::Other)]));
}
