// A list of calls over a disk of which a read, a write or a sync fails, or that stops: a shared cache answers each as a cache does that
// isn't shared, and leaves the same bytes.

ghost use Rattle.std.specs.Prelude.{◌≡◌, ◌<◌, false, IfOk, IfSome};

pub mod asked;

use self::asked::{UNREAD, UNWRITTEN, answer_of, shared_answer_of};
use sled_pagecache::{Config, Disk, DiskLog, Error, MemDisk, PageCache, PageId};
use sled_shared::{Blank, SharedPageCache, Tally};
use std::alloc::Global;
use std::marker::Brand;
use std::sync::Wait;

/// The log of a disk in memory.
pub type Disked = DiskLog<MemDisk>;

/// A call that has a share.
#[derive(Clone, Copy)]
pub(crate) enum Call {
    // an empty leaf on the next page
    Adds,
    // a page gets a pair by a token of this stamp
    Links(PageId, u64),
    Replaces(PageId, u64),
    Frees(PageId, u64),
    Gets(PageId),
    // a batch: page 2 gets an empty leaf by a token of this stamp, and page 3 is freed by one of the other
    Together(u64, u64),
    Opens(&'static [u8]),
    // the root of the tree `t` becomes page 2 in place of this one
    Swaps(PageId),
    Draws,
    Finds,
    Flushes,
}

use self::Call::{
    Adds, Draws, Finds, Flushes, Frees, Gets, Links, Opens, Replaces, Swaps, Together,
};

/// The calls, and whether one makes writes or syncs of its own with some size of a segment, and whether it reads. They are of a cache that
/// is opened again over what [`FIRST`] leaves, so no page is in memory.
const CALLS: &[(Call, bool, bool)] = &[
    (Gets(2), false, true),
    (Links(3, 0), true, true),
    (Replaces(4, 0), true, false),
    (Frees(5, 0), true, false),
    (Together(0, 1), true, false),
    (Gets(2), false, false),
    (Finds, false, false),
    (Opens(b"u"), true, false),
    (Swaps(8), true, false),
    (Adds, true, false),
    (Draws, true, false),
    (Links(6, 0), true, true),
    (Links(6, 9), false, false),
    (Flushes, true, false),
    (Gets(3), false, false),
    (Draws, true, false),
    // the id has made all durable
    (Flushes, false, false),
];

/// Pages 2 to 6 with a pair each, and a tree whose root is page 8.
const FIRST: &[Call] = &[
    Adds,
    Links(2, 1),
    Adds,
    Links(3, 1),
    Adds,
    Links(4, 1),
    Adds,
    Links(5, 1),
    Adds,
    Links(6, 1),
    Opens(b"t"),
    Flushes,
];

/// Each id is one more that is kept, and a page leaves memory as soon as there is another.
const CONFIG: Config = Config {
    cache_capacity: 256,
    idgen_persist_interval: 1,
    segment_size: 4096,
};

/// The sizes of segments. Without one each change is written by its own call, and with a long one a flush writes all.
const SEGMENTS: [u64; 3] = [0, 64, 4096];

/// The size of a segment, and which read and which write or sync fail, counted from the opening on, or 0.
#[derive(Clone, Copy, Debug)]
pub struct Way {
    segment_size: u64,
    unread: u64,
    unwritten: u64,
}

// The disk behind the first calls.
fn first_disk(alloc: Global, segment_size: u64) -> Option<MemDisk> {
    let mut disk = MemDisk::new(alloc, 65_536).ok()?;
    DiskLog::create(&mut disk).ok()?;
    let mut cache = opened(alloc, disk, segment_size).ok()?;
    for call in FIRST {
        if answer_of(alloc, &mut cache, call) >= UNWRITTEN {
            return None;
        }
    }
    disk_of(cache)
}

pub fn opened(alloc: Global, disk: MemDisk, segment_size: u64) -> Result<PageCache<Disked>, Error>
    ensures { IfOk result (λ cache. cache.batch ≡ false) }
{
    let log = match DiskLog::open(alloc, disk, segment_size, 0) {
        Ok(log) => log,
        Err((error, _)) => return Err(Error::from(error)),
    };
    match PageCache::start(alloc, CONFIG, log) {
        Ok(cache) => Ok(cache),
        Err((error, _)) => Err(error),
    }
}

// A cache over what the first calls left, on a disk that fails so.
fn failing(alloc: Global, way: &Way) -> Option<PageCache<Disked>>
    ensures { IfSome result (λ cache. cache.batch ≡ false) }
{
    let mut disk = first_disk(alloc, way.segment_size)?;
    disk.fail_read(way.unread);
    disk.fail_write(way.unwritten);
    opened(alloc, disk, way.segment_size).ok()
}

/// What each call answers, and the disk behind them.
type Told = (Vec<u64>, MemDisk);

fn disk_of(cache: PageCache<Disked>) -> Option<MemDisk> {
    if cache.batch_open() {
        return None;
    }
    Some(cache.into_log().into_disk())
}

// Of a cache that isn't shared.
fn alone(alloc: Global, way: &Way) -> Option<Told> {
    let mut cache = failing(alloc, way)?;
    let mut told = Vec::new(alloc);
    for (call, _, _) in CALLS {
        told.push(answer_of(alloc, &mut cache, call)).ok()?;
    }
    Some((told, disk_of(cache)?))
}

// Of one that is. Its book has each call.
fn shared<K: Tally, R: Wait>(
    rt: &R,
    alloc: Global,
    way: &Way,
    blank: Blank,
    parts: u64,
) -> Option<Told>
    requires name { (blank.name ≡ K.name) × (blank.history ≡ K.history) }
    requires parts { (blank.parts ≡ parts) × (K.parts ≡ parts) × (0 < parts) }
    requires known { ¬ K.known }
{
    let cache = failing(alloc, way)?;
    let shared = SharedPageCache::<Disked, K>::over(alloc, cache, usize::MAX, parts, blank).ok()?;
    let mut share = shared.share(rt)?;
    let mut told = Vec::new(alloc);
    for (call, _, _) in CALLS {
        told.push(shared_answer_of(rt, alloc, &shared, &mut share, call))
            .ok()?;
    }
    let mut shares = Vec::new(alloc);
    shares.push(share).ok()?;
    let (cache, book, total) = shared.close(shares).ok()?;
    if book.entries().len() != CALLS.len() || total != CALLS.len() as u64 {
        return None;
    }
    Some((told, disk_of(cache)?))
}

// The call that meets the fault, if one does.
fn place_of(told: &[u64]) -> Option<usize> {
    told.iter()
        .position(|answer| *answer == UNREAD || *answer == UNWRITTEN)
}

// Where the fault is met, if both caches answer the same and leave the same bytes, or none where they don't. A disk that fails as a cache is
// opened has no calls.
fn met<R: Wait>(rt: &R, alloc: Global, way: &Way) -> Option<Option<usize>> {
    match (
        alone(alloc, way),
        shared::<Brand, R>(rt, alloc, way, Blank::new(2), 2),
    ) {
        (Some((told, disk)), Some((also, other))) => {
            let is_same = told == also && disk.bytes() == other.bytes();
            is_same.then_some(place_of(&told))
        }
        (None, None) => Some(None),
        _ => None,
    }
}

fn fails(segment_size: u64, n: u64, is_read: bool) -> Way {
    Way {
        segment_size,
        unread: if is_read { n } else { 0 },
        unwritten: if is_read { 0 } else { n },
    }
}

// Whether both agree whichever of so many reads, or writes and syncs, fails. The calls that meet one are put behind others.
fn add_places<R: Wait>(
    rt: &R,
    alloc: Global,
    segment_size: u64,
    is_read: bool,
    places: &mut Vec<usize>,
) -> bool {
    for n in 1..120 {
        match met(rt, alloc, &fails(segment_size, n, is_read)) {
            Some(Some(place)) => if places.push(place).is_err() {
                return false;
            },
            Some(None) => {}
            None => return false,
        }
    }
    true
}

/// Which of the calls meet a read, or a write or sync, that fails, if both agree each time.
pub fn met_by<R: Wait>(rt: &R, alloc: Global, is_read: bool) -> Option<Vec<usize>> {
    let mut places = Vec::new(alloc);
    for segment_size in SEGMENTS {
        if !add_places(rt, alloc, segment_size, is_read, &mut places) {
            return None;
        }
    }
    Some(places)
}

/// Whether each call that may meet a read, or a write or sync, of its own does.
pub fn is_met_by_each(places: &[usize], is_read: bool) -> bool {
    for (place, (_, writes, reads)) in CALLS.iter().enumerate() {
        let may_meet = if is_read { *reads } else { *writes };
        if may_meet && !places.contains(&place) {
            return false;
        }
    }
    true
}

// The bytes that a stop before the n-th write or sync leaves, if both leave the same.
fn is_left_so<R: Wait>(rt: &R, alloc: Global, way: &Way, n: usize, fill: Option<u8>) -> bool {
    match (
        alone(alloc, way),
        shared::<Brand, R>(rt, alloc, way, Blank::new(2), 2),
    ) {
        (Some((_, disk)), Some((_, other))) => {
            disk.stop(n, fill).bytes() == other.stop(n, fill).bytes()
        }
        _ => false,
    }
}

/// Whether both leave the same where the disk stops, whichever write or sync is next.
pub fn are_left_so<R: Wait>(rt: &R, alloc: Global) -> bool {
    for segment_size in SEGMENTS {
        let way = fails(segment_size, 0, false);
        for n in 1..120 {
            for fill in [None, Some(0), Some(255)] {
                if !is_left_so(rt, alloc, &way, n, fill) {
                    return false;
                }
            }
        }
    }
    true
}
