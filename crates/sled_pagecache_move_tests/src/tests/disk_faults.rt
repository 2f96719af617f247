// A disk of which one read, write or sync fails.

use super::*;
use sled_pagecache_testing::disks::Part::Plain;
use sled_pagecache_testing::disks::{
    Disked, Part, behind, disk_of, new_disk, opened_every, opened_on, written,
};
use sled_pagecache_testing::sights::gets;
use sled_pagecache_testing::steps::Outcome::At;
use sled_pagecache_testing::steps::Sight::{Absent, Empty, Pair, Unwritten};
use sled_pagecache_testing::steps::Step::{Adds, Faults, Flushes, Gets, Links};
use sled_pagecache_testing::steps::{PAIR, Sight, shows};

// ---- reads

const PAGES: Part = Plain(&[Adds(2, 1), Links(2, 1, PAIR, At(2)), Adds(3, 1), Flushes]);

// A cache over a disk, which is opened a second time where a read failed, and whether it was.
pub(super) fn opens(
    alloc: Global,
    disk: MemDisk,
    segment_size: u64,
    clean_every: u64,
) -> Option<(Disked, bool)> {
    match opened_every(alloc, disk, segment_size, clean_every) {
        Ok(cache) => Some((cache, false)),
        Err((Error::Io(Device::Read), disk)) => {
            let cache = opened_every(alloc, disk, segment_size, clean_every).ok()?;
            Some((cache, true))
        }
        Err(_) => None,
    }
}

// Whether a page is got at the second try, since a read failed, or none where it isn't then.
fn finds(cache: &mut Disked, pid: PageId, sight: &Sight) -> Option<bool> {
    if gets(cache, pid, sight)? {
        return Some(false);
    }
    gets(cache, pid, sight)?.then_some(true)
}

// Where the n-th read fails, counted from before the opening.
#[derive(Clone, Copy, Debug, PartialEq, Eq)]
enum Failed {
    Opening,
    First,
    Second,
    Nowhere,
}

// A disk with both pages, of which the n-th read from now fails.
pub(super) fn unread(alloc: Global, n: u64) -> Option<MemDisk> {
    let mut disk = written(alloc, 4096, 4096, &[PAGES])?;
    disk.fail_read(n);
    Some(disk)
}

// Where a read fails of a cache whose opening it failed before, or not. Both pages are there at the second try.
fn fails_in(cache: &mut Disked, opening: bool) -> Option<Failed> {
    let first = finds(cache, 2, &Pair(0, b"b", b"v"))?;
    let second = finds(cache, 3, &Empty(0))?;
    match (opening, first, second) {
        (true, false, false) => Some(Failed::Opening),
        (false, true, false) => Some(Failed::First),
        (false, false, true) => Some(Failed::Second),
        (false, false, false) => Some(Failed::Nowhere),
        _ => None,
    }
}

fn fails_at(alloc: Global, n: u64) -> Option<Failed> {
    let (mut cache, opening) = opens(alloc, unread(alloc, n)?, 4096, 0)?;
    fails_in(&mut cache, opening)
}

// Which part of the work comes behind this one.
fn may_follow(earlier: Failed, later: Failed) -> bool {
    match earlier {
        Failed::Opening => matches!(later, Failed::Opening | Failed::First),
        Failed::First => matches!(later, Failed::First | Failed::Second),
        Failed::Second => matches!(later, Failed::Second | Failed::Nowhere),
        Failed::Nowhere => later == Failed::Nowhere,
    }
}

// Each read is of the opening, or of a page, in order; and few are made.
#[test]
fn each_read_fails_once(rt: HostRuntime) {
    let mut earlier = Failed::Opening;
    for n in 1..40 {
        let later = fails_at(rt.alloc(), n);
        assert!(rt;
            later.is_some_and(|later| may_follow(earlier, later)),
            "{n} {later:?}"
        );
        earlier = later.unwrap_or(Failed::Nowhere);
    }
    assert_eq!(rt; earlier, Failed::Nowhere);
}

// ---- writes and syncs

const FAULTY: Part = Plain(&[Adds(2, 1), Faults, Gets(2, Unwritten)]);

// What a crash leaves of a disk whose n-th write or sync failed, where a page was added, which the flush should have written: no cache
// was opened, or one with the page or without.
#[derive(Clone, Copy, Debug, PartialEq, Eq)]
enum Left {
    Unopened,
    Without,
    With,
}

// The disk behind the fault, or none where no cache was opened.
fn faulty(alloc: Global, n: u64) -> Option<MemDisk> {
    let mut disk = new_disk(alloc, 4096)?;
    disk.fail_write(n);
    disk_of(behind(alloc, disk, 4096, &[FAULTY])?)
}

fn what_is_left(alloc: Global, n: u64, fill: Option<u8>) -> Option<Left> {
    let Some(disk) = faulty(alloc, n) else {
        return Some(Left::Unopened);
    };
    let left = disk.stop(usize::MAX, fill);
    let mut cache = opened_on(alloc, left, 4096).ok()?;
    if shows(alloc, &mut cache, &Gets(2, Absent)) {
        return Some(Left::Without);
    }
    shows(alloc, &mut cache, &Gets(2, Empty(0))).then_some(Left::With)
}

// One sync opens the log, and two writes and two syncs make the system pages. The next four are those of the flush: of the last, which
// is a sync, the gate was written.
#[test]
fn a_fault_of_a_flush_leaves_the_page_or_not(rt: HostRuntime) {
    for n in 1..10 {
        for fill in [None, Some(0), Some(255)] {
            let wanted = match (n, fill) {
                (1..=5, _) => Left::Unopened,
                (9, None | Some(255)) => Left::With,
                _ => Left::Without,
            };
            assert_eq!(rt;
                what_is_left(rt.alloc(), n, fill),
                Some(wanted),
                "{n} {fill:?}"
            );
        }
    }
}
