// Every fault, one at a time, over lists of calls: each read, each write and sync, a crash before each of these, and a second crash
// as the cache is opened again. All pages, stamps, ids and names, and the number of messages, are then as the list has them.

mod stops;

use super::listed::{
    Call, FIRST_OPENING, List, NAME, NEW, OPENINGS, Plain, Row, SPILLING, after_all, answer,
    behind, is_plain,
};
use super::*;
use sled_pagecache::crashes::writes_and_syncs;
use sled_pagecache_testing::calls::{draws, names_and_stamp, opens, outcome_of, root_of};
use sled_pagecache_testing::disks::{Disked, disk_of, new_disk, opened_every};
use sled_pagecache_testing::scripts::{left_by, opened_over};
use sled_pagecache_testing::steps::Outcome::{Faulty, Id, Unmade, Unread};
use sled_pagecache_testing::steps::Sight::{Absent, Unwritten};
use sled_pagecache_testing::steps::Step::{Faults, Gets, Hides, Lacks};
use sled_pagecache_testing::steps::{Outcome, shown};

/// How a list is made over a disk.
#[derive(Clone, Copy, Debug)]
struct Way {
    // whether it is the list with batches of several segments
    is_spilling: bool,
    segment_size: u64,
    // for how many messages one is due to be moved, or 0
    clean_every: u64,
    // the read that fails, and the write or sync, each counted from the first opening on; or 0
    unread: u64,
    unwritten: u64,
    // whether an allocation may be refused
    is_refused: bool,
    // it ends behind the call in which the disk has made so many writes and syncs, or the list so many changes
    calls: usize,
    changes: usize,
}

/// Whether the list is that with batches of several segments, the size of a segment, and for how many messages one is due.
type Kind = (bool, u64, u64);

const KINDS: &[Kind] = &[
    (false, 0, 0),
    (false, 64, 0),
    (false, 4096, 0),
    (false, 0, 1),
    (false, 64, 2),
    (false, 4096, 3),
    (true, 64, 0),
    (true, 64, 2),
];

// What a crash leaves in each byte that isn't synced, or that such bytes are as they were written.
const FILLS: &[Option<u8>] = &[None, Some(0), Some(255)];

fn over(kind: &Kind) -> Way {
    let (is_spilling, segment_size, clean_every) = *kind;
    Way {
        is_spilling,
        segment_size,
        clean_every,
        unread: 0,
        unwritten: 0,
        is_refused: false,
        calls: usize::MAX,
        changes: usize::MAX,
    }
}

/// How far the list came.
#[derive(Clone, Copy)]
struct Reach {
    // what is there
    plain: Plain,
    // how many changes were made, how many of them may be left by a crash, and how many have to be
    made: usize,
    begun: usize,
    durable: usize,
    // the ids that were answered are below
    ids: u64,
    // whether the list can't go on, since pages of a tree were made that it doesn't have
    is_over: bool,
}

// The list, and how many changes it makes.
fn list_of(way: &Way) -> (List, usize) {
    if way.is_spilling {
        (SPILLING, 33)
    } else {
        (OPENINGS, CHANGES)
    }
}

const CHANGES: usize = 23;

const START: Reach = Reach {
    plain: NEW,
    made: 0,
    begun: 0,
    durable: 0,
    ids: 0,
    is_over: false,
};

// How far it came by a call more, behind which a batch is open or not.
fn with_call(reach: &Reach, row: &Row, is_batch: bool) -> Reach {
    let (call, outcome, changes) = *row;
    let made = reach.made.saturating_add(changes.len());
    let begun = if is_batch { reach.begun } else { made };
    let (durable, ids) = match (call, outcome) {
        (Call::Flushes, _) => (begun, reach.ids),
        (Call::Draws, Id(id)) if changes.is_empty() => (reach.durable, id.saturating_add(1)),
        (Call::Draws, Id(id)) => (begun, id.saturating_add(1)),
        _ => (reach.durable, reach.ids),
    };
    Reach {
        plain: after_all(reach.plain, changes),
        made,
        begun,
        durable,
        ids,
        is_over: false,
    }
}

// ---- one call

// Whether the cache shows all that is there. A read that fails, or a refused allocation, may fall in the first try.
fn is_still<L: Log>(alloc: Global, cache: &mut PageCache<L>, plain: &Plain, way: &Way) -> bool {
    let is_moved = way.clean_every > 0;
    is_plain(alloc, cache, plain, is_moved) || is_plain(alloc, cache, plain, is_moved)
}

// Whether a fault may be answered, behind which a call is made again.
fn may_pass(outcome: Outcome, way: &Way) -> bool {
    outcome == Unread && way.unread > 0 || outcome == Unmade && way.is_refused
}

// What a call answers. Where that is such a fault, nothing has changed, and what it answers next counts.
fn asks<L: Log>(
    alloc: Global,
    cache: &mut PageCache<L>,
    call: &Call,
    plain: &Plain,
    way: &Way,
) -> Outcome {
    let failed = cache.log().failed_reads();
    let outcome = answer(alloc, cache, call);
    if !may_pass(outcome, way) || outcome == Unread && cache.log().failed_reads() == failed {
        return outcome;
    }
    if is_still(alloc, cache, plain, way) {
        answer(alloc, cache, call)
    } else {
        outcome
    }
}

// Whether the first of a refused tree's pages stand, and the next opening makes a tree behind them.
fn tree_is_left<L: Log>(
    alloc: Global,
    cache: &mut PageCache<L>,
    plain: &Plain,
    row: &Row,
    way: &Way,
) -> bool {
    for (made, _) in row.2.iter().enumerate() {
        let left = after_all(*plain, &row.2[..made]);
        if is_still(alloc, cache, &left, way) {
            return opens(alloc, cache, NAME) == Id((made as u64).wrapping_add(4));
        }
    }
    false
}

// Whether a call answers as it should. One that adds a move passes the move's own write fault over.
fn is_answered(outcome: Outcome, row: &Row, is_unwritten: bool, way: &Way) -> bool {
    let adds_move = way.clean_every > 0 && matches!(row.0, Call::Replaces(_) | Call::Links(10, _));
    if is_unwritten && !(adds_move && outcome == row.1) {
        return outcome == Faulty;
    }
    outcome == row.1
}

// How far the list came behind a call, if that answers as it should, and leaves what it should.
fn makes(alloc: Global, cache: &mut Disked, row: &Row, reach: &Reach, way: &Way) -> Option<Reach> {
    if cache.log().write_faults() > 0 {
        return (answer(alloc, cache, &row.0) == Faulty).then_some(*reach);
    }
    let outcome = asks(alloc, cache, &row.0, &reach.plain, way);
    if matches!(row.0, Call::Opens) && may_pass(outcome, way) {
        let is_over = tree_is_left(alloc, cache, &reach.plain, row, way);
        return is_over.then_some(Reach { is_over, ..*reach });
    }
    let is_unwritten = cache.log().write_faults() > 0;
    if !is_answered(outcome, row, is_unwritten, way) {
        return None;
    }
    let next = with_call(reach, row, cache.batch_open());
    if is_unwritten || writes_and_syncs(cache) >= way.calls {
        let (durable, ids) = (reach.durable, reach.ids);
        return Some(Reach {
            durable,
            ids,
            ..next
        });
    }
    let is_so = way.unread > 0 || is_still(alloc, cache, &next.plain, way);
    is_so.then_some(next)
}

// ---- the list

fn opened(alloc: Global, disk: MemDisk, way: &Way) -> Result<Disked, (Error, MemDisk)> {
    match opened_every(alloc, disk, way.segment_size, way.clean_every) {
        Ok(cache) => Ok(cache),
        Err((error, disk)) => if may_pass(outcome_of(&error), way) {
            opened_every(alloc, disk, way.segment_size, way.clean_every)
        } else {
            Err((error, disk))
        },
    }
}

// Whether a write error is answered by what else there is.
fn is_silent(alloc: Global, cache: &mut Disked) -> bool {
    shown(alloc, cache, &[Faults, Gets(2, Unwritten), Hides]) == 3
        && root_of(cache, NAME) == None
        && names_and_stamp(cache) == None
}

// The disk of a cache, whose batch ends if one is open.
fn ended(mut cache: Disked) -> Option<MemDisk> {
    if cache.batch_open() {
        // where a write error is kept it closes the batch, too
        let _ = cache.cancel();
    }
    disk_of(cache)
}

fn is_ended(calls: usize, reach: &Reach, way: &Way) -> bool {
    reach.is_over || calls >= way.calls || reach.made >= way.changes
}

// The disk behind the calls of one opening, if all is as it should be.
fn opening(
    alloc: Global,
    disk: MemDisk,
    rows: &[Row],
    reach: &mut Reach,
    way: &Way,
) -> Option<MemDisk> {
    let mut cache = match opened(alloc, disk, way) {
        Ok(cache) => cache,
        Err((error, disk)) => {
            let is_unwritten = outcome_of(&error) == Faulty && disk.write_faults() > 0;
            return is_unwritten.then_some(disk);
        }
    };
    for row in rows {
        if is_ended(writes_and_syncs(&cache), reach, way) {
            return ended(cache);
        }
        *reach = makes(alloc, &mut cache, row, reach, way)?;
    }
    if cache.log().write_faults() > 0 && !is_silent(alloc, &mut cache) {
        return None;
    }
    ended(cache)
}

// The disk behind the list, and how far that came, if all is as it should be.
fn made(alloc: Global, way: &Way) -> Option<(MemDisk, Reach)> {
    let mut disk = match new_disk(alloc, 16_384) {
        Some(disk) => disk,
        None => new_disk(alloc, 16_384)?,
    };
    disk.fail_read(way.unread);
    disk.fail_write(way.unwritten);
    let mut reach = START;
    let (list, _) = list_of(way);
    for rows in list {
        disk = opening(alloc, disk, rows, &mut reach, way)?;
        if is_ended(disk.calls(), &reach, way) || disk.write_faults() > 0 {
            return Some((disk, reach));
        }
        // what is in a batch that was left open counts for nothing from here on
        reach.plain = behind(list, reach.begun).0;
        reach.begun = reach.made;
    }
    Some((disk, reach))
}

// How many writes and syncs the disk makes.
fn calls_made(alloc: Global, way: &Way) -> usize {
    match made(alloc, way) {
        Some((disk, _)) => disk.calls(),
        None => 0,
    }
}

// ---- what is opened then

// Whether a cache that is opened again has the pages after a prefix of the changes, with all that is durable, and gives a new id.
fn shows_prefix<L: Log>(alloc: Global, cache: &mut PageCache<L>, reach: &Reach, way: &Way) -> bool {
    if !cache.was_recovered() {
        let steps = [Gets(2, Absent), Gets(3, Absent), Lacks(NAME)];
        return reach.begun == 0 && shown(alloc, cache, &steps) == 3 && draws(cache) == Id(0);
    }
    for changes in reach.durable..reach.begun.saturating_add(1) {
        let (plain, is_part) = behind(list_of(way).0, changes);
        if !is_part && is_still(alloc, cache, &plain, way) {
            let is_refused = may_pass(Unmade, way);
            return gives_above(cache, reach.ids) || is_refused && gives_above(cache, reach.ids);
        }
    }
    false
}

fn gives_above<L: Log>(cache: &mut PageCache<L>, ids: u64) -> bool {
    matches!(draws(cache), Id(id) if ids <= id)
}

fn opens_to_prefix(alloc: Global, disk: MemDisk, reach: &Reach, way: &Way) -> bool {
    match opened(alloc, disk, way) {
        Ok(mut cache) => shows_prefix(alloc, &mut cache, reach, way),
        Err(_) => false,
    }
}

// ---- what passes

// Whether the list goes on behind a fault, or none where all isn't as it should be.
fn goes_on(alloc: Global, way: &Way) -> Option<bool> {
    let (disk, reach) = made(alloc, way)?;
    let is_met = disk.failed_reads() > 0;
    (reach.is_over || opens_to_prefix(alloc, disk, &reach, way)).then_some(is_met)
}

// Without a refused allocation this shows that every call succeeds.
#[test]
fn refuse_each_allocation(rt: HostRuntime) {
    for kind in [(false, 64, 0), (false, 4096, 3), (true, 64, 0)] {
        let way = Way {
            is_refused: true,
            ..over(&kind)
        };
        assert_eq!(rt; goes_on(rt.alloc(), &way), Some(false), "{way:?}");
    }
}

#[test]
fn fail_each_read(rt: HostRuntime) {
    for kind in KINDS {
        let mut is_met = true;
        for unread in 1..100 {
            let way = Way {
                unread,
                ..over(kind)
            };
            let met = goes_on(rt.alloc(), &way);
            assert!(rt; met.is_some_and(|met| is_met || !met), "{way:?}");
            is_met = met == Some(true);
        }
        assert!(rt; !is_met, "{kind:?}");
    }
}

// ---- what doesn't

// Whether a write or sync that failed is kept, and a crash leaves what it may.
fn is_kept(alloc: Global, way: &Way, fill: Option<u8>) -> bool {
    match made(alloc, way) {
        Some((disk, reach)) if disk.write_faults() > 0 => {
            opens_to_prefix(alloc, disk.stop(usize::MAX, fill), &reach, way)
        }
        _ => false,
    }
}

// Two calls made the file.
#[test]
fn fail_each_write_or_sync(rt: HostRuntime) {
    for kind in KINDS {
        let all = over(kind);
        let calls = calls_made(rt.alloc(), &all);
        assert!(rt; calls > 12, "{all:?}");
        for n in 1..calls.saturating_sub(1) {
            let way = Way {
                unwritten: n as u64,
                ..all
            };
            for fill in FILLS {
                assert!(rt; is_kept(rt.alloc(), &way, *fill), "{way:?} {fill:?}");
            }
        }
    }
}
