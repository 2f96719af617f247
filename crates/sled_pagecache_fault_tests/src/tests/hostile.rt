// Files that are damaged by rule: each is opened, or refused, and shows its pages, as a plain reader of docs/FORMAT.md says.

mod files;
mod pages;
mod payloads;
mod records;

use self::files::{Counts, FILES, OLD_COUNTS};
use self::pages::{Page, is_shown, page_of};
use self::payloads::{are_roots, is_number};
use self::records::{Record, behind, counted, messages_of, number_at, pages_in, records_in};
use super::disk_files::OLD_FILE;
use super::*;
use sled_pagecache_testing::disks::{Disked, opened_on, written};

// How many files no log is opened over, and no cache; how many caches show a damaged page, and how many none.
#[derive(Clone, Copy, Debug, Default, PartialEq, Eq)]
struct Tally {
    no_log: u32,
    no_cache: u32,
    damaged: u32,
    whole: u32,
}

// ---- what the plain reader says

// Whether a cache leaves a page of these records.
fn is_fit(file: &[u8], page: u64, messages: &[Record]) -> bool {
    if page > 1 {
        return messages.len() <= 10;
    }
    let [only] = messages else {
        return false;
    };
    let Some(payload) = file.get(..only.to) else {
        return false;
    };
    match page {
        0 => matches!(only.kind, 6 | 7) && are_roots(payload, only.from),
        _ => only.kind == 5 && is_number(payload, only.from),
    }
}

// Where the first page begins that no cache leaves so, if there is one.
fn misfit(alloc: Global, file: &[u8], records: &[Record]) -> Option<u64> {
    for page in 0..pages_in(records) {
        let messages = messages_of(alloc, records, page)?;
        if !is_fit(file, page, &messages) {
            return Some(messages.first()?.place as u64);
        }
    }
    None
}

// ---- what comes of a file

/// What a file is opened as.
#[derive(Clone, Copy, PartialEq, Eq)]
enum Ending {
    NoLog,
    // the first message of a page that no cache leaves so stands there
    NoCache(u64),
    Damaged,
    Whole,
}

// What a cache shows whose pages are those of the records: whether one is damaged.
fn shown_by(alloc: Global, cache: &mut Disked, file: &[u8], records: &[Record]) -> Option<Ending> {
    let mut ending = Ending::Whole;
    for pid in 2..pages_in(records).saturating_add(2) {
        let page = page_of(alloc, file, &messages_of(alloc, records, pid)?);
        if matches!(page, Page::Wrong(_)) {
            ending = Ending::Damaged;
        }
        if !is_shown(cache, pid, file, &page) {
            return None;
        }
    }
    (cache.was_recovered() == (pages_in(records) > 1)).then_some(ending)
}

fn refused_as(error: &Error) -> Option<Ending> {
    match error {
        Error::Corruption(None) => Some(Ending::NoLog),
        Error::Corruption(Some(DiskPtr::Inline(place))) => Some(Ending::NoCache(*place)),
        _ => None,
    }
}

// A disk with these bytes.
pub(super) fn disk_with(alloc: Global, file: &[u8]) -> Option<MemDisk> {
    let mut disk = MemDisk::new(alloc, file.len().saturating_add(100)).ok()?;
    disk.write_at(0, file).ok()?;
    disk.sync().ok()?;
    Some(disk)
}

// What a file is opened as; where it is a cache, its pages are those of the records.
fn opened_as(alloc: Global, file: &[u8], records: &[Record]) -> Option<Ending> {
    match opened_on(alloc, disk_with(alloc, file)?, 4096) {
        Ok(mut cache) => shown_by(alloc, &mut cache, file, records),
        Err((error, _disk)) => refused_as(&error),
    }
}

// The same of a log, if the plain reader says so.
fn log_opened_as(alloc: Global, file: &[u8], records: &[Record]) -> Option<Ending> {
    let ending = opened_as(alloc, file, records)?;
    let is_so = match misfit(alloc, file, records) {
        Some(place) => ending == Ending::NoCache(place),
        None => matches!(ending, Ending::Damaged | Ending::Whole),
    };
    is_so.then_some(ending)
}

// The same of a file.
fn file_opened_as(alloc: Global, file: &[u8]) -> Option<Ending> {
    let found = records_in(alloc, file).and_then(|records| counted(alloc, &records, file));
    match found {
        Some(records) => log_opened_as(alloc, file, &records),
        None => opened_as(alloc, file, &[]).filter(|ending| *ending == Ending::NoLog),
    }
}

// Counts a file, if it is opened as the plain reader says.
fn count_file(alloc: Global, tally: &mut Tally, file: &[u8]) -> Option<()> {
    let files = match file_opened_as(alloc, file)? {
        Ending::NoLog => &mut tally.no_log,
        Ending::NoCache(_) => &mut tally.no_cache,
        Ending::Damaged => &mut tally.damaged,
        Ending::Whole => &mut tally.whole,
    };
    *files = files.saturating_add(1);
    Some(())
}

// ---- the rule

// Counts the file with other bytes at a place.
fn count_with(
    alloc: Global,
    tally: &mut Tally,
    file: &[u8],
    at: usize,
    bytes: &[u8],
) -> Option<()> {
    let mut changed = file.to_vec(alloc).ok()?;
    for (i, byte) in bytes.iter().enumerate() {
        *changed.get_mut(at.saturating_add(i))? = *byte;
    }
    count_file(alloc, tally, &changed)
}

// Each byte becomes 0, 255, one more and one less.
fn count_bytes(alloc: Global, file: &[u8]) -> Option<Tally> {
    let mut tally = Tally::default();
    for (at, byte) in file.iter().enumerate() {
        for other in [0, 255, byte.wrapping_add(1), byte.wrapping_sub(1)] {
            count_with(alloc, &mut tally, file, at, &[other])?;
        }
    }
    Some(tally)
}

// Each proper prefix.
fn count_prefixes(alloc: Global, file: &[u8]) -> Option<Tally> {
    let mut tally = Tally::default();
    for len in 0..file.len() {
        count_file(alloc, &mut tally, file.get(..len)?)?;
    }
    Some(tally)
}

// Counts the file with another number at a place: one off the one that stands there, none, and large ones.
fn count_numbers(alloc: Global, tally: &mut Tally, file: &[u8], at: usize) -> Option<()> {
    let here = number_at(file, at)?;
    for other in [
        here.wrapping_sub(1),
        here.wrapping_add(1),
        0,
        1 << 32,
        1 << 63,
        u64::MAX,
    ] {
        count_with(alloc, tally, file, at, &other.to_le_bytes())?;
    }
    Some(())
}

// The records that begin a frame.
fn firsts_in(alloc: Global, file: &[u8]) -> Option<Vec<Record>> {
    let mut firsts = Vec::new(alloc);
    let mut frame = 0;
    for record in &records_in(alloc, file)? {
        if record.frame != frame {
            frame = record.frame;
            firsts.push(*record).ok()?;
        }
    }
    Some(firsts)
}

// The length of each frame.
fn count_lengths(alloc: Global, file: &[u8]) -> Option<Tally> {
    let mut tally = Tally::default();
    for record in &firsts_in(alloc, file)? {
        count_numbers(alloc, &mut tally, file, record.place.checked_sub(8)?)?;
    }
    Some(tally)
}

// The page and the length of a record that marks a batch, and, where it names a place, that place and those of all records there.
fn count_mark(
    alloc: Global,
    tally: &mut Tally,
    file: &[u8],
    records: &[Record],
    mark: &Record,
) -> Option<()> {
    for at in [behind(mark.place, 1), behind(mark.place, 9)] {
        count_numbers(alloc, tally, file, at)?;
    }
    if mark.from == mark.to {
        return Some(());
    }
    count_numbers(alloc, tally, file, mark.from)?;
    for record in records {
        let place = record.place as u64;
        count_with(alloc, tally, file, mark.from, &place.to_le_bytes())?;
    }
    Some(())
}

// Each mark of a batch.
fn count_marks(alloc: Global, file: &[u8]) -> Option<Tally> {
    let mut tally = Tally::default();
    let records = records_in(alloc, file)?;
    for record in &records {
        if matches!(record.kind, 1 | 3 | 12..=14) {
            count_mark(alloc, &mut tally, file, &records, record)?;
        }
    }
    Some(tally)
}

// The file with the frame that begins with one record, and a later one, in each other's place.
fn exchanged(alloc: Global, file: &[u8], one: &Record, other: &Record) -> Option<Vec<u8>> {
    let first = one.place.checked_sub(9)?;
    let second = other.place.checked_sub(9)?;
    let mut changed = Vec::new(alloc);
    for (from, to) in [
        (0, first),
        (second, other.frame),
        (one.frame, second),
        (first, one.frame),
        (other.frame, file.len()),
    ] {
        changed.extend_from_slice(file.get(from..to)?).ok()?;
    }
    Some(changed)
}

// Each two frames are exchanged.
fn count_exchanges(alloc: Global, file: &[u8]) -> Option<Tally> {
    let mut tally = Tally::default();
    let firsts = firsts_in(alloc, file)?;
    for one in &firsts {
        for other in &firsts {
            if one.place < other.place {
                let changed = exchanged(alloc, file, one, other)?;
                count_file(alloc, &mut tally, &changed)?;
            }
        }
    }
    Some(tally)
}

// ---- files

fn counts_of(alloc: Global, file: &[u8]) -> Option<Counts> {
    Some([
        numbers(count_bytes(alloc, file)?),
        numbers(count_prefixes(alloc, file)?),
        numbers(count_lengths(alloc, file)?),
        numbers(count_marks(alloc, file)?),
        numbers(count_exchanges(alloc, file)?),
    ])
}

fn numbers(tally: Tally) -> [u32; 4] {
    [tally.no_log, tally.no_cache, tally.damaged, tally.whole]
}

#[test]
fn damage_is_told_as_the_format_says(rt: HostRuntime) {
    let alloc = rt.alloc();
    for (segment_size, parts, counts) in FILES {
        let disk = written(alloc, 4096, *segment_size, parts);
        assert_eq!(rt;
            disk.and_then(|disk| counts_of(alloc, disk.bytes())),
            Some(*counts)
        );
    }
    let old = counts_of(alloc, &OLD_FILE);
    assert_eq!(rt; old, Some(OLD_COUNTS));
}
