// Steps on two maps on a disk, over openings that end by crashes, and whether each leaves what it may.

use super::calls::{answer, answer_of, drops, is_plain};
use super::listed::{Call, NEW, Outcome, Plain};
use super::steps::{Step, behind_steps, make_step, mark, may_be_left, wanted_of};
use super::*;
use sled_pagecache::crashes::{reopen_after_a_crash, writes_and_syncs};

pub(super) type Disked = Trees<DiskLog<MemDisk>>;

/// How steps are made over a disk.
#[derive(Clone, Copy)]
pub(super) struct Way {
    pub config: Config,
    // for how many messages one is due to be moved, or 0
    pub clean_every: u64,
    // the write or sync that fails, or 0
    pub unwritten: u64,
    // whether an allocation may be refused
    pub is_refused: bool,
    // it ends behind the step in which the disk has made so many writes and syncs
    pub calls: usize,
}

/// The size of a segment, for how many messages one is due, and how many ids come with one counter. In small segments a batch is written in
/// many frames.
pub(super) type Kind = (usize, u64, u64);

pub(super) fn over(kind: &Kind) -> Way {
    let (segment_size, clean_every, interval) = *kind;
    Way {
        config: Config {
            segment_size,
            idgen_persist_interval: interval,
            ..CONFIG
        },
        clean_every,
        unwritten: 0,
        is_refused: false,
        calls: usize::MAX,
    }
}

/// How far the steps came.
#[derive(Clone, Copy)]
pub(super) struct Reach {
    // what was there at first, and is now
    first: Plain,
    pub plain: Plain,
    is_open: bool,
    // how many steps were begun, and how many of them a crash has to leave
    begun: usize,
    durable: usize,
    // the least id that may come, and whether it comes
    pub next_id: u64,
    is_next: bool,
}

pub(super) fn from_here(plain: Plain, next_id: u64) -> Reach {
    Reach {
        first: plain,
        plain,
        is_open: false,
        begun: 0,
        durable: 0,
        next_id,
        is_next: false,
    }
}

fn is_unwritten(trees: &Disked) -> bool {
    trees.cache().log().disk().write_faults() > 0
}

fn is_ended(trees: &Disked, way: &Way) -> bool {
    writes_and_syncs(trees.cache()) >= way.calls
}

// ---- one step

// Whether an id is one that may come. It counts as given if no crash comes before.
fn draws(trees: &mut Disked, reach: &mut Reach, way: &Way) -> Outcome {
    let answer = trees.generate_id();
    let Ok(id) = answer else {
        return answer_of(&answer);
    };
    let is_right = id == reach.next_id || id > reach.next_id && !reach.is_next;
    if !is_ended(trees, way) {
        reach.next_id = id.saturating_add(1);
        reach.is_next = true;
    }
    if is_right {
        Outcome::Done
    } else {
        Outcome::Other
    }
}

pub(super) fn asks_once(
    alloc: Global,
    trees: &mut Disked,
    step: &Step,
    reach: &mut Reach,
    way: &Way,
) -> Outcome {
    match step {
        Step::Calls(call) => answer(alloc, trees, call),
        Step::Drops(map) => drops(trees, *map),
        Step::Draws => draws(trees, reach, way),
        Step::Flushes => answer_of(&trees.flush()),
        Step::Pins => answer_of(&trees.pin()),
        Step::Seals => answer_of(&trees.seal()),
        Step::Cancels => answer_of(&trees.cancel()),
    }
}

// What a step answers. It is made again where an allocation was refused.
fn asks(alloc: Global, trees: &mut Disked, step: &Step, reach: &mut Reach, way: &Way) -> Outcome {
    let outcome = asks_once(alloc, trees, step, reach, way);
    if outcome == Outcome::Unmade && way.is_refused {
        return asks_once(alloc, trees, step, reach, way);
    }
    outcome
}

// Whether a step answers as it should where a write has failed.
fn is_kept(outcome: Outcome, step: &Step, is_open: bool) -> bool {
    match step {
        Step::Seals | Step::Cancels if !is_open => outcome == Outcome::NoBatch,
        _ => outcome == Outcome::Faulty,
    }
}

// The same where none has, or of the one in which it fails, if that isn't of a move.
fn is_right(outcome: Outcome, step: &Step, reach: &Reach) -> bool {
    outcome == wanted_of(&reach.plain, reach.is_open, step)
        || reach.is_open && outcome == Outcome::BatchOpen && matches!(step, Step::Draws)
}

// Opens or closes a batch, if the step does. A write that fails opens none.
fn marks(reach: &mut Reach, step: &Step, outcome: Outcome) {
    if outcome != Outcome::Faulty || !matches!(step, Step::Pins) {
        mark(&mut reach.is_open, step);
    }
}

// A step that no write failed before.
fn goes_on(reach: &mut Reach, step: &Step, is_flushed: bool) {
    make_step(&mut reach.plain, step);
    reach.begun = reach.begun.saturating_add(1);
    if is_flushed {
        reach.durable = reach.begun;
    }
}

// Whether a step may be done though a write has failed in it: that of a move that it added, of what is merged behind a removal, or of a page
// that is freed behind its map's name.
fn may_be_done(step: &Step, way: &Way) -> bool {
    way.clean_every > 0 || matches!(step, Step::Drops(_) | Step::Calls(Call::Removes(_, _)))
}

// Whether a step answers as it should.
fn makes(alloc: Global, trees: &mut Disked, step: &Step, reach: &mut Reach, way: &Way) -> bool {
    let was_unwritten = is_unwritten(trees);
    let outcome = asks(alloc, trees, step, reach, way);
    let is_fault = is_kept(outcome, step, reach.is_open);
    let is_done = is_right(outcome, step, reach);
    marks(reach, step, outcome);
    if was_unwritten {
        return is_fault;
    }
    let is_flush = matches!(step, Step::Flushes) && outcome == Outcome::Done;
    goes_on(reach, step, is_flush && !is_ended(trees, way));
    if is_unwritten(trees) {
        return is_fault || is_done && may_be_done(step, way);
    }
    is_done
}

/// Whether the steps answer as they should, up to the end of the way.
pub(super) fn all_made(
    alloc: Global,
    trees: &mut Disked,
    steps: &[Step],
    reach: &mut Reach,
    way: &Way,
) -> bool {
    for step in steps {
        if is_ended(trees, way) {
            return true;
        }
        if !makes(alloc, trees, step, reach, way) {
            return false;
        }
    }
    true
}

// ---- a crash, and what is opened then

pub(super) fn new_maps(alloc: Global, way: &Way) -> Option<Disked> {
    let mut disk = MemDisk::new(alloc, 1 << 16).ok()?;
    DiskLog::create(&mut disk).ok()?;
    disk.fail_write(way.unwritten);
    let segment_size = way.config.segment_size as u64;
    let log = DiskLog::open(alloc, disk, segment_size, way.clean_every).ok()?;
    Some(maps_of(alloc, PageCache::start(alloc, way.config, log).ok()?))
}

fn maps_of(alloc: Global, cache: PageCache<DiskLog<MemDisk>>) -> Disked {
    Trees::with_limits(alloc, cache, Limits::new(4, 4))
}

// What the n-th crash leaves in each byte that isn't synced, or that such bytes are as they were written.
fn fill_of(n: usize) -> Option<u8> {
    match n % 3 {
        0 => None,
        1 => Some(0),
        _ => Some(255),
    }
}

fn crashed(alloc: Global, trees: Disked, way: &Way) -> Option<Disked> {
    let (cache, fill) = (trees.into_cache(), fill_of(way.calls));
    match reopen_after_a_crash(alloc, cache, way.calls, fill, way.config, way.clean_every) {
        Ok(cache) => Some(maps_of(alloc, cache)),
        Err(_) => None,
    }
}

// The maps that a crash left, if they are those behind steps that it may leave.
fn left_of(trees: &mut Disked, steps: &[Step], reach: &Reach) -> Option<Plain> {
    for count in reach.durable..reach.begun.saturating_add(1) {
        if may_be_left(steps, reach.begun, count) {
            let plain = behind_steps(&reach.first, steps, count);
            if is_plain(trees, &plain) {
                return Some(plain);
            }
        }
    }
    None
}

// The maps and how far they came behind the steps and a crash, if all is as it should be.
fn opening_made(
    alloc: Global,
    mut trees: Disked,
    steps: &[Step],
    mut reach: Reach,
    way: &Way,
) -> Option<(Disked, Reach)> {
    if !all_made(alloc, &mut trees, steps, &mut reach, way) {
        return None;
    }
    let mut trees = crashed(alloc, trees, way)?;
    let plain = left_of(&mut trees, steps, &reach)?;
    Some((trees, from_here(plain, reach.next_id)))
}

/// Whether all is as it should be over openings that end by such crashes.
pub(super) fn stands(alloc: Global, steps: &[Step], way: &Way, ends: &[usize]) -> bool {
    let Some(mut trees) = new_maps(alloc, way) else {
        return false;
    };
    let mut reach = from_here(NEW, 0);
    for calls in ends {
        let ending = Way {
            calls: *calls,
            ..*way
        };
        match opening_made(alloc, trees, steps, reach, &ending) {
            Some((left, behind)) => {
                trees = left;
                reach = behind;
            }
            None => return false,
        }
    }
    true
}

/// How many writes and syncs the disk makes, of which two made the file.
pub(super) fn calls_made(alloc: Global, steps: &[Step], way: &Way) -> usize {
    let Some(mut trees) = new_maps(alloc, way) else {
        return 0;
    };
    let mut reach = from_here(NEW, 0);
    if all_made(alloc, &mut trees, steps, &mut reach, way) {
        writes_and_syncs(trees.cache())
    } else {
        0
    }
}
