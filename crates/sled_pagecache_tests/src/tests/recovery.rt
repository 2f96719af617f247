// Caches that are opened over a log that another wrote.

use super::*;
use sled_pagecache_testing::scripts::{Script, first_wrong, first_wrong_at, walks};
use sled_pagecache_testing::steps::Change::{Del, Set};
use sled_pagecache_testing::steps::Outcome::{At, Stale};
use sled_pagecache_testing::steps::Sight::{Absent, Empty, Holds, Pair};
use sled_pagecache_testing::steps::Step::{
    Adds, AddsFrom, Crashes, Flushes, Frees, Gets, Links, LinksFrom, Prints, Reads, Recovered,
    Reopens, Takes, Writes,
};
use sled_pagecache_testing::steps::{Change, PAIR, Step, shown};

// A page and a link on it.
const ADDS: Step = Adds(2, 1);

const LINKS: Step = Links(2, 1, PAIR, At(2));

const HELD: Step = Gets(2, Pair(0, b"b", b"v"));

const OTHER: Change = Set(b"c", b"w");

// The value of a link whose payload has 2^17 + 1 bytes. The ninth link behind it writes the node, whose payload has 11 more.
const LONG: &[u8] = &[7; 131_066];

const SCRIPTS: &[Script] = &[
    (
        "a crash keeps no change",
        &[
            ADDS,
            LINKS,
            Crashes(0),
            Recovered(true),
            Gets(2, Absent),
            ADDS,
        ],
    ),
    (
        "a crash keeps the page",
        &[ADDS, LINKS, Crashes(1), Recovered(true), Gets(2, Empty(0))],
    ),
    (
        "a crash keeps the link too",
        &[ADDS, LINKS, Crashes(2), Recovered(true), HELD],
    ),
    (
        "stamps begin again at 0",
        &[ADDS, LINKS, Crashes(2), Links(2, 1, OTHER, Stale(0))],
    ),
    (
        "a page of nine links is read whole",
        &[ADDS, LinksFrom(2, 1, 9), Flushes, Reopens, HELD],
    ),
    (
        "a page of ten links is read whole",
        &[ADDS, LinksFrom(2, 1, 10), Flushes, Reopens, HELD],
    ),
    (
        "a page of eleven links is read whole",
        &[ADDS, LinksFrom(2, 1, 11), Flushes, Reopens, HELD],
    ),
    (
        "a flush reports what was pending",
        &[ADDS, LINKS, Takes(82), Writes(47), Writes(0), Takes(82)],
    ),
    (
        "a stale link writes nothing",
        &[
            ADDS,
            LINKS,
            Takes(82),
            Links(2, 1, OTHER, Stale(2)),
            Takes(82),
        ],
    ),
    (
        "4,097 pages are found again",
        &[
            AddsFrom(2, 4_097),
            Flushes,
            Reopens,
            Prints("PageCache { max: 4097 free: [] }\n"),
            Gets(4_096, Empty(0)),
            Gets(4_097, Absent),
            Adds(4_097, 1),
        ],
    ),
    (
        "three free pages are found again",
        &[
            AddsFrom(2, 6),
            Frees(3, 1, At(2)),
            Frees(5, 1, At(2)),
            Frees(2, 1, At(2)),
            Flushes,
            Reopens,
            Prints("PageCache { max: 6 free: [5, 3, 2] }\n"),
            Gets(4, Empty(0)),
            Adds(5, 1),
            Adds(3, 1),
            Adds(2, 1),
            Adds(6, 1),
        ],
    ),
    (
        "a link and a node of more than 2^17 bytes are read whole",
        &[
            ADDS,
            Links(2, 1, Set(b"c", LONG), At(2)),
            Takes(60 + 17 + 131_073),
            Gets(2, Pair(2, b"c", LONG)),
            LinksFrom(2, 2, 9),
            Takes(131_150 + 8 * 22 + 17 + 131_084),
            Flushes,
            Reopens,
            Gets(2, Holds(0, 2)),
            Links(2, 0, Del(b"b"), At(1)),
            Gets(2, Pair(1, b"c", LONG)),
        ],
    ),
];

// A crash can't leave three changes.
const THREE: &[Step] = &[ADDS, LINKS, Crashes(3)];

#[test]
fn a_log_is_opened_again(rt: HostRuntime) {
    assert_eq!(rt; first_wrong(rt.alloc(), SCRIPTS), None);
    assert_eq!(rt; walks(rt.alloc(), THREE), 2, "three changes");
}

// How often the log of a page with three links is read once it is opened again, and once the page is asked for. Two of the reads are
// of the system pages.
const READS: &[Script] = &[
    (
        "no get",
        &[ADDS, LinksFrom(2, 1, 3), Flushes, Reopens, Reads(2)],
    ),
    (
        "one get",
        &[ADDS, LinksFrom(2, 1, 3), Flushes, Reopens, HELD, Reads(6)],
    ),
    (
        "two gets",
        &[
            ADDS,
            LinksFrom(2, 1, 3),
            Flushes,
            Reopens,
            HELD,
            HELD,
            Reads(6),
        ],
    ),
];

#[test]
fn a_page_is_read_once(rt: HostRuntime) {
    for blob_limit in [512, 4] {
        assert_eq!(rt;
            first_wrong_at(rt.alloc(), blob_limit, READS),
            None,
            "over {blob_limit} bytes"
        );
    }
}

// The pages that a log keeps, once a cache over it showed these steps.
fn pages_kept(alloc: Global, log: MemLog, steps: &[Step]) -> Option<Vec<PageState>> {
    let mut cache = opened_over(alloc, CONFIG, log)?;
    let is_shown = shown(alloc, &mut cache, steps) == steps.len();
    let mut log = log_if(cache, is_shown)?;
    log.recover().ok()
}

fn links_of(page: &PageState) -> Option<usize> {
    match page {
        PageState::Present { frags, .. } => Some(frags.len()),
        PageState::Free(..) => None,
    }
}

// How many links the log keeps of so many of page 2.
fn links_kept(alloc: Global, links: u32) -> Option<usize> {
    let log = MemLog::new(alloc, 512, 16);
    links_of(pages_kept(alloc, log, &[ADDS, LinksFrom(2, 1, links), Flushes])?.get(2)?)
}

#[test]
fn the_tenth_link_is_a_replacement(rt: HostRuntime) {
    for (links, kept) in [(0, 0), (9, 9), (10, 0), (11, 1), (19, 9), (20, 0)] {
        assert_eq!(rt; links_kept(rt.alloc(), links), Some(kept), "{links} links");
    }
}

// Where the log keeps the first message of a page: its lsn, the pointer to it, and its log size.
fn base_of(page: &PageState) -> Option<(i64, DiskPtr, u64)> {
    match page {
        PageState::Present { base, .. } => Some(*base),
        PageState::Free(..) => None,
    }
}

// The same of a page where payloads above four bytes are blobs.
fn base_at(alloc: Global, pid: usize) -> Option<(i64, DiskPtr, u64)> {
    base_of(pages_kept(alloc, MemLog::new(alloc, 4, 0), &[ADDS])?.get(pid)?)
}

#[test]
fn long_payloads_are_blobs(rt: HostRuntime) {
    for (pid, base) in [
        (1, (17, DiskPtr::Inline(17), 18)),
        (2, (35, DiskPtr::Blob(35, 35), 25)),
    ] {
        assert_eq!(rt; base_at(rt.alloc(), pid), Some(base), "page {pid}");
    }
}
