// Every fault, one at a time, over a list of calls on maps on a disk: each read, each write and sync, and a crash before each of these.

use super::calls::{answer, answer_of, goes_on, is_plain, name_of, outcome_of};
use super::listed::{Call, LIST, NEW, Opening, Outcome, Plain, behind, make, wanted};
use super::*;
use sled_pagecache::crashes::writes_and_syncs;

type Disked = Trees<DiskLog<MemDisk>>;

/// How the list is made over a disk.
#[derive(Clone, Copy)]
struct Way {
    segment_size: u64,
    // for how many messages one is due to be moved, or 0
    clean_every: u64,
    // the read that fails, and the write or sync, each counted from the first opening on; or 0
    unread: u64,
    unwritten: u64,
    // whether an allocation may be refused
    is_refused: bool,
    // it ends behind the call in which the disk has made so many writes and syncs
    calls: usize,
}

// The size of a segment, and for how many messages one is due.
const KINDS: &[(u64, u64)] = &[(0, 0), (512, 3), (4096, 0)];

// What the n-th crash leaves in each byte that isn't synced, or that such bytes are as they were written.
fn fill_of(n: usize) -> Option<u8> {
    match n % 3 {
        0 => None,
        1 => Some(0),
        _ => Some(255),
    }
}

fn over(kind: &(u64, u64)) -> Way {
    let (segment_size, clean_every) = *kind;
    Way {
        segment_size,
        clean_every,
        unread: 0,
        unwritten: 0,
        is_refused: false,
        calls: usize::MAX,
    }
}

/// How far the list came.
#[derive(Clone, Copy)]
struct Reach {
    // what is there
    plain: Plain,
    // how many calls were made, and how many of them a crash has to leave
    made: usize,
    durable: usize,
}

const START: Reach = Reach {
    plain: NEW,
    made: 0,
    durable: 0,
};

// ---- one call

// Whether a fault may be answered, behind which a call is made again.
fn may_pass(outcome: Outcome, way: &Way) -> bool {
    outcome == Outcome::Unread && way.unread > 0 || outcome == Outcome::Unmade && way.is_refused
}

// Whether the maps are those. A read that fails, or a refused allocation, may fall in the first try.
fn is_still(trees: &mut Disked, plain: &Plain) -> bool {
    is_plain(trees, plain) || is_plain(trees, plain)
}

fn is_unwritten(trees: &Disked) -> bool {
    trees.cache().log().disk().write_faults() > 0
}

// What a call answers. Where that is such a fault, the maps are as they were, and what it answers next counts.
fn asks(alloc: Global, trees: &mut Disked, call: &Call, plain: &Plain, way: &Way) -> Outcome {
    let outcome = answer(alloc, trees, call);
    if may_pass(outcome, way) && is_still(trees, plain) {
        return answer(alloc, trees, call);
    }
    outcome
}

// Whether a write fault may be passed over: that of a move that the call added, or of what is merged behind a removal.
fn may_be_made(call: &Call, way: &Way) -> bool {
    way.clean_every > 0 || matches!(call, Call::Removes(_, _))
}

// Whether a call answers as it should.
fn makes(alloc: Global, trees: &mut Disked, call: &Call, reach: &mut Reach, way: &Way) -> bool {
    if is_unwritten(trees) {
        return answer(alloc, trees, call) == Outcome::Faulty;
    }
    let outcome = asks(alloc, trees, call, &reach.plain, way);
    let is_wanted = outcome == wanted(&reach.plain, call);
    make(&mut reach.plain, call);
    reach.made = reach.made.saturating_add(1);
    if is_unwritten(trees) && !(is_wanted && may_be_made(call, way)) {
        return outcome == Outcome::Faulty;
    }
    is_wanted
}

// ---- the list

fn is_ended(trees: &Disked, way: &Way) -> bool {
    writes_and_syncs(trees.cache()) >= way.calls
}

// Whether the calls of a part answer as they should, up to its end or that of the list.
fn all_made(
    alloc: Global,
    trees: &mut Disked,
    part: &[Call],
    reach: &mut Reach,
    way: &Way,
) -> bool {
    for call in part {
        if is_ended(trees, way) {
            return true;
        }
        if !makes(alloc, trees, call, reach, way) {
            return false;
        }
    }
    true
}

// Whether a flush answers as it should.
fn flushes(trees: &mut Disked, reach: &mut Reach, way: &Way) -> bool {
    let outcome = answer_of(&trees.flush());
    if is_unwritten(trees) {
        return outcome == Outcome::Faulty;
    }
    if !is_ended(trees, way) {
        reach.durable = reach.made;
    }
    outcome == Outcome::Done
}

// Whether the calls of a part answer as they should, and the flush behind them, up to the end of the list.
fn part_made(
    alloc: Global,
    trees: &mut Disked,
    part: &[Call],
    reach: &mut Reach,
    way: &Way,
) -> bool {
    all_made(alloc, trees, part, reach, way) && (is_ended(trees, way) || flushes(trees, reach, way))
}

// The maps on a disk, with the least limits. Where a read or an allocation is to fail, nearly each call reads.
fn opened_once(alloc: Global, disk: MemDisk, way: &Way) -> Result<Disked, (Outcome, MemDisk)> {
    let reads = way.is_refused || way.unread > 0;
    let config = if reads { SMALL } else { CONFIG };
    match DiskLog::open(alloc, disk, way.segment_size, way.clean_every) {
        Ok(log) => match PageCache::start(alloc, config, log) {
            Ok(cache) => Ok(Trees::with_limits(alloc, cache, Limits::new(4, 4))),
            Err((error, log)) => Err((outcome_of(&error), log.into_disk())),
        },
        Err((error, disk)) => Err((outcome_of(&Error::from(error)), disk)),
    }
}

fn opened_on(alloc: Global, disk: MemDisk, way: &Way) -> Result<Disked, (Outcome, MemDisk)> {
    match opened_once(alloc, disk, way) {
        Err((outcome, disk)) if may_pass(outcome, way) => opened_once(alloc, disk, way),
        opened => opened,
    }
}

// The disk behind the parts of one opening, if all is as it should be.
fn opening_made(
    alloc: Global,
    disk: MemDisk,
    opening: Opening,
    reach: &mut Reach,
    way: &Way,
) -> Option<MemDisk> {
    let mut trees = match opened_on(alloc, disk, way) {
        Ok(trees) => trees,
        Err((outcome, disk)) => {
            let is_so = outcome == Outcome::Faulty && disk.write_faults() > 0;
            return is_so.then_some(disk);
        }
    };
    for part in opening {
        if !part_made(alloc, &mut trees, part, reach, way) {
            return None;
        }
    }
    log_of(trees).map(DiskLog::into_disk)
}

fn new_disk(alloc: Global) -> Option<MemDisk> {
    let mut disk = MemDisk::new(alloc, 1 << 16).ok()?;
    DiskLog::create(&mut disk).ok()?;
    Some(disk)
}

// The disk behind the list, and how far that came, if all is as it should be.
fn made(alloc: Global, way: &Way) -> Option<(MemDisk, Reach)> {
    let mut disk = match new_disk(alloc) {
        Some(disk) => disk,
        None => new_disk(alloc)?,
    };
    disk.fail_read(way.unread);
    disk.fail_write(way.unwritten);
    let mut reach = START;
    for opening in LIST {
        disk = opening_made(alloc, disk, opening, &mut reach, way)?;
        if disk.calls() >= way.calls || disk.write_faults() > 0 {
            return Some((disk, reach));
        }
    }
    Some((disk, reach))
}

// How many writes and syncs the disk makes.
fn calls_made(alloc: Global, way: &Way) -> usize {
    match made(alloc, way) {
        Some((disk, _)) => disk.calls(),
        None => 0,
    }
}

// ---- what is opened then

// Whether the maps are those behind some of the calls, with all that a crash has to leave, and can be gone on with, if that is tried.
fn shows_prefix(alloc: Global, trees: &mut Disked, reach: &Reach, tries: bool) -> bool {
    for calls in reach.durable..reach.made.saturating_add(1) {
        let plain = behind(calls);
        if is_still(trees, &plain) {
            return !tries || goes_on(alloc, trees, &plain);
        }
    }
    false
}

fn opens_to_prefix(alloc: Global, disk: MemDisk, reach: &Reach, way: &Way, tries: bool) -> bool {
    match opened_on(alloc, disk, way) {
        Ok(mut trees) => shows_prefix(alloc, &mut trees, reach, tries),
        Err(_) => false,
    }
}

// Whether all maps stand behind the list, and whether a read failed; or none where all isn't as it should be.
fn stands(alloc: Global, way: &Way) -> Option<bool> {
    let (disk, reach) = made(alloc, way)?;
    let is_met = disk.failed_reads() > 0;
    let is_all = reach.made == reach.durable;
    (is_all && opens_to_prefix(alloc, disk, &reach, way, true)).then_some(is_met)
}

// The pages of a map behind the list.
fn left_of(alloc: Global, map: usize) -> Option<Reached> {
    let way = over(&(4096, 0));
    let (disk, _) = made(alloc, &way)?;
    let mut trees = opened_on(alloc, disk, &way).ok()?;
    pages_of(alloc, &mut trees, name_of(map))
}

// A second level of indices shows that the root of the second map has grown, over two indices, and one index that these were merged. It had 15
// keys, in three leaves or more.
fn grows_and_shrinks(alloc: Global) -> Option<bool> {
    let (first, second) = (left_of(alloc, 0)?, left_of(alloc, 1)?);
    Some(first.leaves > 1 && second.levels == 3 && second.indices == 2 && second.leaves == 2)
}

#[test]
fn the_list_grows_a_root_and_merges(rt: HostRuntime) {
    assert_eq!(rt; grows_and_shrinks(rt.alloc()), Some(true));
}

// Without a refused allocation this shows that every call succeeds.
#[test]
fn refuse_each_allocation(rt: HostRuntime) {
    let way = Way {
        is_refused: true,
        ..over(&(64, 2))
    };
    assert_eq!(rt; stands(rt.alloc(), &way), Some(false));
}

// Whether some read failed, and the list went on behind each that did; or the number of the read behind which it didn't.
fn failed_reads(alloc: Global, kind: &(u64, u64)) -> Result<bool, u64> {
    for unread in 1..2000 {
        let way = Way {
            unread,
            ..over(kind)
        };
        match stands(alloc, &way) {
            Some(true) => {}
            Some(false) => return Ok(unread > 20),
            None => return Err(unread),
        }
    }
    Err(0)
}

#[test]
fn fail_each_read(rt: HostRuntime) {
    for kind in KINDS {
        assert_eq!(rt; failed_reads(rt.alloc(), kind), Ok(true), "{kind:?}");
    }
}

// Whether the maps are those of a prefix once a write or sync failed, or a crash came before the n-th. A frame takes four of these, so
// what is left is gone on with at each fourth.
fn leaves_prefix(alloc: Global, way: &Way, n: usize, place: usize) -> bool {
    match made(alloc, way) {
        Some((disk, reach)) if way.unwritten == 0 || disk.write_faults() > 0 => {
            let left = disk.stop(n, fill_of(place));
            opens_to_prefix(alloc, left, &reach, way, place % 4 == 0)
        }
        _ => false,
    }
}

// Two calls made the file.
#[test]
fn fail_each_write_or_sync(rt: HostRuntime) {
    for kind in KINDS {
        let all = over(kind);
        let calls = calls_made(rt.alloc(), &all);
        assert!(rt; calls > 12, "{kind:?}");
        for n in 1..calls.saturating_sub(1) {
            let way = Way {
                unwritten: n as u64,
                ..all
            };
            assert!(rt;
                leaves_prefix(rt.alloc(), &way, usize::MAX, n),
                "{n} {kind:?}"
            );
        }
    }
}

#[test]
fn stop_at_each_device_call(rt: HostRuntime) {
    for kind in KINDS {
        let all = over(kind);
        let made = calls_made(rt.alloc(), &all);
        assert!(rt; made > 12, "{kind:?}");
        // the file is made once there were two
        for calls in 3..made.saturating_add(2) {
            let way = Way { calls, ..all };
            assert!(rt;
                leaves_prefix(rt.alloc(), &way, calls, calls),
                "{calls} {kind:?}"
            );
        }
    }
}
