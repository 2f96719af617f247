// Moves over a disk that fails, or has no room.

use super::disk_faults::{opens, unread};
use super::*;
use sled_pagecache_testing::calls::{adds, flushes, replaces_by_empty, replaces_by_pair, size_of};
use sled_pagecache_testing::disks::{Disked, disk_of, new_disk, opened_every, opened_on};
use sled_pagecache_testing::sights::gets;
use sled_pagecache_testing::steps::Outcome::{At, Faulty, Made};
use sled_pagecache_testing::steps::Sight;
use sled_pagecache_testing::steps::Sight::{Empty, Pair};

// Which part of the work met a fault. Every message is written at once, and makes one due.
#[derive(Clone, Copy, Debug, PartialEq, Eq)]
enum Fault {
    Before,
    Replacement,
    Move,
    Nowhere,
}

// A leaf is added and replaced, which moves page 0. A fault of the move is kept.
fn met(alloc: Global, cache: &mut Disked) -> Option<Fault> {
    if adds(cache, Node::default(alloc)) != Made(2, 1) {
        return Some(Fault::Before);
    }
    match (replaces_by_pair(alloc, cache, 2, 1), flushes(cache)) {
        (Faulty, Err(Faulty)) => Some(Fault::Replacement),
        (At(2), Err(Faulty)) => Some(Fault::Move),
        (At(2), Ok(0)) => Some(Fault::Nowhere),
        _ => None,
    }
}

// What met the fault of a disk, and the disk behind it, if a cache was opened.
fn met_on(alloc: Global, disk: MemDisk) -> Option<(Fault, Option<MemDisk>)> {
    let Ok(mut cache) = opened_every(alloc, disk, 0, 1) else {
        return Some((Fault::Before, None));
    };
    let met = met(alloc, &mut cache)?;
    Some((met, disk_of(cache)))
}

// Whether a crash of the disk leaves page 2 so.
fn leaves(alloc: Global, disk: MemDisk, fill: Option<u8>, sight: &Sight) -> bool {
    match opened_on(alloc, disk.stop(usize::MAX, fill), 4096) {
        Ok(mut cache) => gets(&mut cache, 2, sight) == Some(true),
        Err(_) => false,
    }
}

// ---- the n-th write or sync fails

// What met it, and whether a crash leaves the replacement, where one was answered.
fn fails_at(alloc: Global, n: u64, fill: Option<u8>) -> Option<(Fault, bool)> {
    let mut disk = new_disk(alloc, 4096)?;
    disk.fail_write(n);
    let (met, left) = met_on(alloc, disk)?;
    let stands = match (met, left) {
        (Fault::Before, _) => true,
        (Fault::Replacement, Some(disk)) => {
            let is_there = n == 17 && fill != Some(0);
            let sight = if is_there {
                Pair(0, b"k", b"v")
            } else {
                Empty(0)
            };
            leaves(alloc, disk, fill, &sight)
        }
        (_, Some(disk)) => leaves(alloc, disk, fill, &Pair(0, b"k", b"v")),
        _ => false,
    };
    Some((met, stands))
}

// One sync opens the log, and each of the system pages, the leaf, the replacement and the move takes two writes and two syncs. Of the
// last of these, which is a sync, the gate was written.
#[test]
fn a_fault_of_an_added_move_is_kept(rt: HostRuntime) {
    for n in 1..26 {
        let met = match n {
            1..=13 => Fault::Before,
            14..=17 => Fault::Replacement,
            18..=21 => Fault::Move,
            _ => Fault::Nowhere,
        };
        for fill in [None, Some(0), Some(255)] {
            assert_eq!(rt;
                fails_at(rt.alloc(), n, fill),
                Some((met, true)),
                "{n} {fill:?}"
            );
        }
    }
}

// ---- there is no room

fn met_within(alloc: Global, limit: usize) -> Option<Fault> {
    Some(met_on(alloc, new_disk(alloc, limit)?)?.0)
}

// A new log takes nine bytes, and a frame ten beside its record: the system pages' 17 and 18, the leaf's 25, the replacement's 29 and the
// move's 17.
#[test]
fn a_disk_with_no_room_for_the_move_keeps_the_replacement(rt: HostRuntime) {
    for limit in 9..180usize {
        let fault = match limit {
            ..=98 => Fault::Before,
            99..=137 => Fault::Replacement,
            138..=164 => Fault::Move,
            _ => Fault::Nowhere,
        };
        assert_eq!(rt; met_within(rt.alloc(), limit), Some(fault), "{limit}");
    }
}

// ---- the n-th read fails

// The file of 134 bytes, three frames of a leaf, one for each of the system pages, and without or with one of a leaf of one pair.
const UNMOVED: u64 = 289;

const MOVED: u64 = 327;

// Whether page 3 is replaced and both pages are found then, and whether page 2 was moved, which is the third that is due.
fn is_moved(alloc: Global, cache: &mut Disked) -> Option<bool> {
    for stamp in 0..3 {
        if replaces_by_empty(alloc, cache, 3, stamp) != At(stamp + 1) {
            return None;
        }
    }
    let size = size_of(cache).ok()?;
    let is_found = gets(cache, 2, &Pair(0, b"b", b"v"))? && gets(cache, 3, &Empty(3))?;
    match (is_found, size) {
        (true, UNMOVED) => Some(false),
        (true, MOVED) => Some(true),
        _ => None,
    }
}

// What met the fault of the n-th read. A cache that it kept from being opened is opened again.
fn met_unread(alloc: Global, n: u64) -> Option<Fault> {
    let (mut cache, again) = opens(alloc, unread(alloc, n)?, 0, 1)?;
    match (again, is_moved(alloc, &mut cache)?) {
        (true, true) => Some(Fault::Before),
        (false, false) => Some(Fault::Move),
        (false, true) => Some(Fault::Nowhere),
        (true, false) => None,
    }
}

// Five reads open the cache. Two find the first message that is due: where one of them fails, each move comes a replacement later, and page
// 2 isn't reached. Five more find the next two, each by the append of a move; where one of those fails, the replacement behind it reads
// again. The two messages of page 2 are read for its move.
#[test]
fn a_read_that_fails_in_an_added_move_is_passed_over(rt: HostRuntime) {
    for n in 1..40 {
        let met = match n {
            1..=5 => Fault::Before,
            6 | 7 | 13 | 14 => Fault::Move,
            _ => Fault::Nowhere,
        };
        assert_eq!(rt; met_unread(rt.alloc(), n), Some(met), "{n}");
    }
}
