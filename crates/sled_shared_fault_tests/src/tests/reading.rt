// Reads of several pages as one call: a shared cache answers them as a cache does that isn't shared and is asked for one page after the other,
// and enters what it answers. So it does where a read of the disk fails, and where a write did.

ghost use Rattle.std.specs.Prelude.{◌≡◌, ◌<◌, false, IfSome};

use super::devices::asked::{DAMAGED, GONE, RESERVED, UNREAD, UNWRITTEN, reason_of};
use super::devices::{Disked, opened};
use sled_pagecache::{
    Disk, Error, IVec, Link, Log, LogError, MemDisk, Node, PageCache, PageId, PageView,
};
use sled_shared::{Blank, Called, Entry, Share, SharedPageCache, Tally};
use std::alloc::{AllocError, Global};
use std::marker::Brand;
use std::sync::Wait;

/// The pages of a call, how many times over, and what each of them answers, up to the first that fails.
type Row = (&'static [PageId], usize, &'static [u64]);

/// The pages 2 to 6 but for page 3, which is free. The ten thousands are the page, the hundreds its stamp, and the rest how many keys it has.
const TWO: u64 = 20101;

const FOUR: u64 = 40303;

const FIVE: u64 = 50404;

const SIX: u64 = 60505;

/// Calls of 16, 17 and 1,000 pages.
const LONG: &[Row] = &[
    (&[4, 4, 2, 4], 4, &[FOUR, FOUR, TWO, FOUR]),
    (&[6], 17, &[SIX]),
    (&[2, 6, 4, 5], 250, &[TWO, SIX, FOUR, FIVE]),
];

const ROWS: &[Row] = &[
    (&[], 1, &[]),
    (&[2], 1, &[TWO]),
    (&[4, 2], 1, &[FOUR, TWO]),
    (&[5, 4, 6], 1, &[FIVE, FOUR, SIX]),
    (&[3], 1, &[GONE]),
    (
        &[8, 2, 3, 1 << 63, u64::MAX],
        1,
        &[GONE, TWO, GONE, GONE, GONE],
    ),
    (&[0], 1, &[RESERVED]),
    (&[5, 1, 2], 1, &[FIVE, RESERVED]),
    (&[2, 3, u64::MAX - 666], 1, &[TWO, GONE, RESERVED]),
    (&[7, 2], 1, &[DAMAGED]),
    (&[4, 3, 7, 0], 1, &[FOUR, GONE, DAMAGED]),
];

/// Behind what a call answers.
const END: u64 = 0;

/// Which read and which write or sync fail, counted from the opening on, or 0.
type Way = (u64, u64);

const SEGMENT: u64 = 4096;

// ---- the caches

/// The file of the first pages, the bytes of each record on a line: no names, the counter 0, five empty leaves, a page of what is no node, and that
/// page 3 is free.
#[rattlefmt::skip]
const FILE: [u8; 213] = [
    // the opening bytes
    0x53, 0x4c, 0x50, 0x43, 0x4c, 0x4f, 0x47, 0x31,
    // an open gate, and a frame of 195 bytes
    1,
    195, 0, 0, 0, 0, 0, 0, 0,
    6, 0, 0, 0, 0, 0, 0, 0, 0, 0, 0, 0, 0, 0, 0, 0, 0,
    5, 1, 0, 0, 0, 0, 0, 0, 0, 1, 0, 0, 0, 0, 0, 0, 0, 0,
    8, 2, 0, 0, 0, 0, 0, 0, 0, 8, 0, 0, 0, 0, 0, 0, 0, 0, 0, 0, 0, 0, 0, 0, 0,
    8, 3, 0, 0, 0, 0, 0, 0, 0, 8, 0, 0, 0, 0, 0, 0, 0, 0, 0, 0, 0, 0, 0, 0, 0,
    8, 4, 0, 0, 0, 0, 0, 0, 0, 8, 0, 0, 0, 0, 0, 0, 0, 0, 0, 0, 0, 0, 0, 0, 0,
    8, 5, 0, 0, 0, 0, 0, 0, 0, 8, 0, 0, 0, 0, 0, 0, 0, 0, 0, 0, 0, 0, 0, 0, 0,
    8, 6, 0, 0, 0, 0, 0, 0, 0, 8, 0, 0, 0, 0, 0, 0, 0, 0, 0, 0, 0, 0, 0, 0, 0,
    8, 7, 0, 0, 0, 0, 0, 0, 0, 1, 0, 0, 0, 0, 0, 0, 0, 5,
    4, 3, 0, 0, 0, 0, 0, 0, 0, 0, 0, 0, 0, 0, 0, 0, 0,
    // the closed gate
    0,
];

fn first_disk(alloc: Global) -> Result<MemDisk, LogError> {
    let mut disk = MemDisk::new(alloc, 65_536)?;
    disk.write_at(0, &FILE)?;
    disk.sync()?;
    Ok(disk)
}

// A cache over this file, where each page gets one key less than its number, and no page stays in memory beside another.
fn ready(alloc: Global, way: Way) -> Option<PageCache<Disked>>
    ensures { IfSome result (λ cache. cache.batch ≡ false) }
{
    let mut disk = first_disk(alloc).ok()?;
    disk.fail_read(way.0);
    disk.fail_write(way.1);
    let mut cache = opened(alloc, disk, SEGMENT).ok()?;
    for (pid, links) in [(2, 1), (4, 3), (5, 4), (6, 5)] {
        for stamp in 0..links {
            if !is_linked(alloc, &mut cache, PageView::new(pid, stamp)) {
                return None;
            }
        }
    }
    if cache.batch_open() {
        return None;
    }
    Some(cache)
}

fn is_linked(alloc: Global, cache: &mut PageCache<Disked>, old: PageView) -> bool
    ensures { cache.new.batch ≡ cache.old.batch }
{
    let (Ok(key), Ok(value)) = (
        IVec::from_slice(alloc, &old.ts().to_le_bytes()),
        IVec::from_slice(alloc, &[7; 30]),
    ) else {
        return false;
    };
    matches!(cache.link(old.pid(), old, Link::Set(key, value)), Ok(Ok(_)))
}

// ---- what is answered, as numbers

fn number_of(pid: PageId, stamp: u64, node: &Node) -> u64 {
    let place = pid.saturating_mul(100).saturating_add(stamp);
    place.saturating_mul(100).saturating_add(node.len() as u64)
}

// Of a cache that isn't shared.
fn got(cache: &mut PageCache<Disked>, pid: PageId) -> u64 {
    match cache.get(pid) {
        Ok(Some(view)) => number_of(view.token().pid(), view.token().ts(), view.node()),
        Ok(None) => GONE,
        Err(refusal) => reason_of(&Error::from(refusal)),
    }
}

// Asks for the pages of a row, up to the first that fails.
fn add_alone(cache: &mut PageCache<Disked>, row: &Row, told: &mut Vec<u64>) -> bool {
    for _ in 0..row.1 {
        for pid in row.0 {
            let number = got(cache, *pid);
            if told.push(number).is_err() {
                return false;
            }
            if number > GONE {
                return told.push(END).is_ok();
            }
        }
    }
    told.push(END).is_ok()
}

fn add_found(found: &[Option<(PageView, Node)>], told: &mut Vec<u64>) -> bool {
    for one in found {
        let number = match one {
            Some((token, node)) => number_of(token.pid(), token.ts(), node),
            None => GONE,
        };
        if told.push(number).is_err() {
            return false;
        }
    }
    true
}

fn pages_of(alloc: Global, row: &Row) -> Result<Vec<PageId>, AllocError> {
    let mut pages = Vec::new(alloc);
    for _ in 0..row.1 {
        for pid in row.0 {
            pages.push(*pid)?;
        }
    }
    Ok(pages)
}

// Asks for the pages of a row as one call.
fn add_shared<K: Tally, R: Wait>(
    rt: &R,
    alloc: Global,
    shared: &SharedPageCache<Disked, K>,
    share: &mut Share<K>,
    row: &Row,
    told: &mut Vec<u64>,
) -> bool {
    let Ok(pages) = pages_of(alloc, row) else {
        return false;
    };
    let all = match shared.get_all(rt, pages, share) {
        Ok(found) => add_found(&found, told),
        Err((error, found)) => add_found(&found, told) && told.push(reason_of(&error)).is_ok(),
    };
    all && told.push(END).is_ok()
}

// What an entry has.
fn add_entry(entry: &Entry, told: &mut Vec<u64>) -> bool {
    let Called::GetAll(asked, kept) = entry.called() else {
        return true;
    };
    for (place, one) in asked.found.iter().enumerate() {
        let number = match (one, asked.pages.get(place)) {
            (Some((stamp, node)), Some(pid)) => number_of(*pid, *stamp, node),
            (None, Some(_)) => GONE,
            (_, None) => return false,
        };
        if told.push(number).is_err() {
            return false;
        }
    }
    if let Err(refusal) = kept {
        if told.push(reason_of(&Error::from(**refusal))).is_err() {
            return false;
        }
    }
    told.push(END).is_ok()
}

// ---- the rows

// What a cache answers that isn't shared: to the rows, and to the same again behind a flush.
fn alone(alloc: Global, rows: &[Row], way: Way) -> Option<Vec<u64>> {
    let mut cache = ready(alloc, way)?;
    let mut told = Vec::new(alloc);
    for turn in 0..2 {
        for row in rows {
            if !add_alone(&mut cache, row, &mut told) {
                return None;
            }
        }
        if turn == 0 {
            let _ = cache.flush();
        }
    }
    Some(told)
}

// What one answers that is, if its book has the same.
fn shared<K: Tally, R: Wait>(
    rt: &R,
    alloc: Global,
    rows: &[Row],
    way: Way,
    blank: Blank,
    parts: u64,
) -> Option<Vec<u64>>
    requires name { (blank.name ≡ K.name) × (blank.history ≡ K.history) }
    requires parts { (blank.parts ≡ parts) × (K.parts ≡ parts) × (0 < parts) }
    requires known { ¬ K.known }
{
    let cache = ready(alloc, way)?;
    let shared = SharedPageCache::<Disked, K>::over(alloc, cache, usize::MAX, parts, blank).ok()?;
    let mut share = shared.share(rt)?;
    let mut told = Vec::new(alloc);
    for turn in 0..2 {
        for row in rows {
            if !add_shared(rt, alloc, &shared, &mut share, row, &mut told) {
                return None;
            }
        }
        if turn == 0 {
            let _ = shared.flush(rt, &mut share);
        }
    }
    let book = shared.take_book(rt).ok()?;
    let mut entered = Vec::new(alloc);
    for entry in book.entries() {
        if !add_entry(entry, &mut entered) {
            return None;
        }
    }
    let calls = rows.len() * 2 + 1;
    let is_so = entered == told && book.entries().len() == calls && share.count() == calls as u64;
    is_so.then_some(told)
}

// What both answer, if it is the same, or nothing of a disk that fails as a cache is made ready.
fn both<R: Wait>(rt: &R, alloc: Global, rows: &[Row], way: Way) -> Option<Option<Vec<u64>>> {
    let told = alone(alloc, rows, way);
    let also = shared::<Brand, R>(rt, alloc, rows, way, Blank::new(2), 2);
    if told == also { Some(told) } else { None }
}

// What the rows say, or behind a kept error what each call answers that asks for a page.
fn add_wanted(told: &mut Vec<u64>, rows: &[Row], is_kept: bool) -> Result<(), AllocError> {
    for row in rows {
        for turn in 0..row.1 {
            for number in row.2 {
                if !is_kept {
                    told.push(*number)?;
                }
            }
            if is_kept && turn == 0 && !row.0.is_empty() {
                told.push(UNWRITTEN)?;
            }
        }
        told.push(END)?;
    }
    Ok(())
}

fn are_wanted(alloc: Global, told: &[u64], rows: &[Row], is_kept: bool) -> bool {
    let mut wanted = Vec::new(alloc);
    add_wanted(&mut wanted, rows, false).is_ok()
        && add_wanted(&mut wanted, rows, is_kept).is_ok()
        && wanted.as_slice() == told
}

/// Whether both answer what the rows say where nothing fails.
pub fn are_answered<R: Wait>(rt: &R, alloc: Global) -> bool {
    for rows in [ROWS, LONG] {
        match both(rt, alloc, rows, (0, 0)) {
            Some(Some(told)) if are_wanted(alloc, &told, rows, false) => {}
            _ => return false,
        }
    }
    true
}

/// Whether both answer the same whichever of so many reads fails: and that it is the first of some call, and one in the middle of some.
pub fn are_failing<R: Wait>(rt: &R, alloc: Global) -> bool {
    let (mut first, mut middle) = (false, false);
    for n in 1..120 {
        let told = match both(rt, alloc, ROWS, (n, 0)) {
            Some(Some(told)) => told,
            Some(None) => continue,
            None => return false,
        };
        if let Some(place) = told.iter().position(|answer| *answer == UNREAD) {
            match told.get(place.wrapping_sub(1)) {
                Some(answer) if *answer != END => middle = true,
                _ => first = true,
            }
        }
    }
    first && middle
}

/// Whether both answer the same whichever of some writes or syncs fails, and a kept error in place of each page where it is that of the flush.
pub fn are_kept<R: Wait>(rt: &R, alloc: Global) -> bool {
    let mut is_met = false;
    for n in 1..12 {
        match both(rt, alloc, ROWS, (0, n)) {
            Some(Some(told)) => is_met |= are_wanted(alloc, &told, ROWS, true),
            Some(None) => {}
            None => return false,
        }
    }
    is_met
}
