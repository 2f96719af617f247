//! Caches over a log on a disk in memory, and scripts of steps over them, in batches and outside.

ghost use Rattle.std.specs.Prelude.{◌≡◌};

use crate::caches::{CONFIG, log_of};
use crate::calls::{adds, idles, links_so, moves_one, replaces_by_pair};
use crate::steps::{Outcome, Step, shown};
use sled_base::Error;
use sled_log::Log;
use sled_node::Node;
use sled_pagecache::{DiskLog, MemDisk, PageCache};
use std::alloc::Global;

/// A cache over a log on a disk in memory.
pub type Disked = PageCache<DiskLog<MemDisk>>;

/// A part of a script.
#[derive(Clone, Copy)]
pub enum Part {
    Plain(&'static [Step]),
    /// Changes in a batch, which is sealed then.
    Sealed(&'static [Step]),
    /// Changes in a batch, which is cancelled then.
    Cancelled(&'static [Step]),
    /// This many sealed batches of no changes.
    Marks(u32),
    /// The cache is reopened over its disk.
    Again,
}

/// Makes a disk with room for `limit` written bytes, and for `limit` writes and syncs, and creates a log on it.
pub fn new_disk(alloc: Global, limit: usize) -> Option<MemDisk> {
    let mut disk = MemDisk::new(alloc, limit).ok()?;
    DiskLog::create(&mut disk).ok()?;
    Some(disk)
}

/// Opens a cache over the log of a disk. An error returns the disk.
pub fn opened_on(
    alloc: Global,
    disk: MemDisk,
    segment_size: u64,
) -> Result<Disked, (Error, MemDisk)> {
    opened_every(alloc, disk, segment_size, 0)
}

/// Opens a cache over the log of a disk, where the log names a message for every `clean_every` messages. An error returns the disk.
pub fn opened_every(
    alloc: Global,
    disk: MemDisk,
    segment_size: u64,
    clean_every: u64,
) -> Result<Disked, (Error, MemDisk)> {
    match DiskLog::open(alloc, disk, segment_size, clean_every) {
        Ok(log) => match PageCache::start(alloc, CONFIG, log) {
            Ok(cache) => Ok(cache),
            Err((error, log)) => Err((error, log.into_disk())),
        },
        Err((error, disk)) => Err((Error::from(error), disk)),
    }
}

/// Returns the disk of a cache, as it is.
pub fn disk_of(cache: Disked) -> Option<MemDisk> {
    log_of(cache).map(DiskLog::into_disk)
}

// ---- batches

// Whether a change of a batch shows what it should. Its moves come one by one.
fn changes<L: Log>(alloc: Global, cache: &mut PageCache<L>, step: &Step) -> bool
    ensures { cache.new.batch ≡ cache.old.batch }
{
    match *step {
        Step::Adds(pid, stamp) => adds(cache, Node::default(alloc)) == Outcome::Made(pid, stamp),
        Step::Links(pid, stamp, change, outcome) => {
            links_so(alloc, cache, pid, stamp, &change) == outcome
        }
        Step::ReplacesByPair(pid, stamp, outcome) => {
            replaces_by_pair(alloc, cache, pid, stamp) == outcome
        }
        Step::Moves(1) => moves_one(cache),
        Step::Idles => idles(cache),
        _ => false,
    }
}

// Whether all changes of a batch do.
fn all_change<L: Log>(alloc: Global, cache: &mut PageCache<L>, steps: &[Step]) -> bool
    ensures { cache.new.batch ≡ cache.old.batch }
{
    for step in steps {
        if !changes(alloc, cache, step) {
            return false;
        }
    }
    true
}

// Whether a batch of these changes is made, and sealed or cancelled.
fn batch<L: Log>(alloc: Global, cache: &mut PageCache<L>, steps: &[Step], sealed: bool) -> bool {
    let Ok(mut guard) = cache.pin_log() else {
        return false;
    };
    let done = all_change(alloc, guard.cache(), steps);
    if sealed {
        guard.seal_batch().is_ok() && done
    } else {
        guard.cancel().is_ok() && done
    }
}

fn marks<L: Log>(alloc: Global, cache: &mut PageCache<L>, count: u32) -> bool {
    for _ in 0..count {
        if !batch(alloc, cache, &[], true) {
            return false;
        }
    }
    true
}

// ---- scripts

/// Runs a part of a script, and returns whether it shows what it should.
pub fn shows_part<L: Log>(alloc: Global, cache: &mut PageCache<L>, part: &Part) -> bool {
    match *part {
        Part::Plain(steps) => shown(alloc, cache, steps) == steps.len(),
        Part::Sealed(steps) => batch(alloc, cache, steps, true),
        Part::Cancelled(steps) => batch(alloc, cache, steps, false),
        Part::Marks(count) => marks(alloc, cache, count),
        Part::Again => false,
    }
}

// The cache behind a part, if that shows what it should.
fn next(
    alloc: Global,
    mut cache: Disked,
    segment_size: u64,
    clean_every: u64,
    part: &Part,
) -> Option<Disked> {
    if matches!(part, Part::Again) {
        return opened_every(alloc, disk_of(cache)?, segment_size, clean_every).ok();
    }
    if shows_part(alloc, &mut cache, part) {
        Some(cache)
    } else {
        None
    }
}

/// Returns the cache after a script, if each part shows what it should.
pub fn behind(alloc: Global, disk: MemDisk, segment_size: u64, parts: &[Part]) -> Option<Disked> {
    behind_every(alloc, disk, segment_size, 0, parts)
}

/// Returns the cache after a script, over a log that names a message for every `clean_every` messages.
pub fn behind_every(
    alloc: Global,
    disk: MemDisk,
    segment_size: u64,
    clean_every: u64,
    parts: &[Part],
) -> Option<Disked> {
    let mut cache = opened_every(alloc, disk, segment_size, clean_every).ok()?;
    for part in parts {
        cache = next(alloc, cache, segment_size, clean_every, part)?;
    }
    Some(cache)
}

/// Runs a script over a new disk, and returns the disk if each part shows what it should.
pub fn written(alloc: Global, limit: usize, segment_size: u64, parts: &[Part]) -> Option<MemDisk> {
    disk_of(behind(alloc, new_disk(alloc, limit)?, segment_size, parts)?)
}
