// Swaps of roots in a map of 100,000 names, which is read from one payload that no cache wrote.

use super::*;
use sled_pagecache_testing::calls::{root_of, swaps};
use sled_pagecache_testing::scripts::walks_over;
use sled_pagecache_testing::steps::Outcome::{Done, Is};
use sled_pagecache_testing::steps::Step;
use sled_pagecache_testing::steps::Step::{Crashes, Finds, Flushes, Has, Lacks, Swaps, Takes};

const NAMES: u32 = 100_000;

// The root of the first name. It is written in five bytes, as all those behind it.
const ROOT: PageId = 1 << 24;

// So many names with their roots, in order. Each is the number of the name in four bytes, behind their length, and its root: the
// mark of four bytes, and these.
fn payload(alloc: Global, names: u32) -> Result<Vec<u8>, AllocError> {
    let mut bytes = Vec::new(alloc);
    for n in 0..names {
        bytes.push(4)?;
        bytes.extend_from_slice(&n.to_be_bytes())?;
        bytes.push(251)?;
        bytes.extend_from_slice(&(ROOT as u32 | n).to_le_bytes())?;
    }
    Ok(bytes)
}

// A log of the two pages of a cache, of which the named roots have this payload.
fn log_of(alloc: Global, roots: &[u8]) -> Option<MemLog> {
    let mut log = MemLog::new(alloc, 512, 16);
    let _roots = log.append(MessageKind::InlineMeta, 0, roots).ok()?;
    let _counter = log.append(MessageKind::Counter, 1, &[0]).ok()?;
    Some(log)
}

const FIRST: &[u8] = b"\x00\x00\x00\x00";

// 49,999, 50,000, a name behind it, and 50,001
const BELOW: &[u8] = b"\x00\x00\xc3\x4f";

const MIDDLE: &[u8] = b"\x00\x00\xc3\x50";

const NEW: &[u8] = b"\x00\x00\xc3\x50\x00";

const ABOVE: &[u8] = b"\x00\x00\xc3\x51";

// 99,999
const LAST: &[u8] = b"\x00\x01\x86\x9f";

// The system pages take 17 and 18 bytes of the log, and a name with a root that was read 10. The swaps leave one of these with a
// root of one byte, add one of a byte more with such a root, and take one out.
const STEPS: &[Step] = &[
    Has(100_000, 0),
    Takes(35 + 1_000_000),
    Finds(FIRST, ROOT),
    Finds(MIDDLE, ROOT + 50_000),
    Finds(LAST, ROOT + 99_999),
    Lacks(NEW),
    Swaps(MIDDLE, Some(ROOT + 50_000), Some(2), Done),
    Finds(MIDDLE, 2),
    Takes(1_000_035 + 17 + 999_996),
    Swaps(NEW, None, Some(3), Done),
    Finds(NEW, 3),
    Takes(2_000_048 + 17 + 1_000_003),
    Swaps(LAST, Some(ROOT + 99_999), None, Done),
    Lacks(LAST),
    Takes(3_000_068 + 17 + 999_993),
    Swaps(MIDDLE, Some(ROOT + 50_000), None, Is(Some(2))),
    Has(100_000, 3),
    Flushes,
    Crashes(0),
    Has(100_000, 0),
    Finds(FIRST, ROOT),
    Finds(BELOW, ROOT + 49_999),
    Finds(MIDDLE, 2),
    Finds(NEW, 3),
    Finds(ABOVE, ROOT + 50_001),
    Lacks(LAST),
    Takes(4_000_078),
];

fn walks_many(alloc: Global) -> Option<usize> {
    let roots = payload(alloc, NAMES).ok()?;
    let cache = opened_over(alloc, CONFIG, log_of(alloc, &roots)?)?;
    Some(walks_over(alloc, cache, STEPS))
}

#[test]
fn a_hundred_thousand_names_are_read_from_one_payload(rt: HostRuntime) {
    assert_eq!(rt; walks_many(rt.alloc()), Some(STEPS.len()));
}

// ---- one swap in a map of none to 1,000 names

const COUNTS: &[u32] = &[0, 1, 2, 16, 17, 1_000];

// Where the name stands that is swapped: it is there, or missing below the others, between them or above them.
#[derive(Clone, Copy, Debug)]
enum Place {
    First,
    Middle,
    Last,
    Below,
    Between,
    Above,
}

const PLACES: &[Place] = &[
    Place::First,
    Place::Middle,
    Place::Last,
    Place::Below,
    Place::Between,
    Place::Above,
];

// The name at a place among so many, and how long it is.
fn name_at(place: Place, count: u32) -> ([u8; 5], usize) {
    let (n, len) = match place {
        Place::First => (0, 4),
        Place::Middle => (count / 2, 4),
        Place::Last => (count.saturating_sub(1), 4),
        Place::Below => (0, 0),
        Place::Between => (count / 2, 5),
        Place::Above => (count, 4),
    };
    let [a, b, c, d] = n.to_be_bytes();
    ([a, b, c, d, 0], len)
}

// Whether each name but that one has the root that was read.
fn are_left(cache: &Cache, count: u32, name: &[u8]) -> bool {
    for n in 0..count {
        let other = n.to_be_bytes();
        let root = Some(Some(ROOT + n as PageId));
        if other.as_slice() != name && root_of(cache, &other) != root {
            return false;
        }
    }
    true
}

// Whether the name has this root, and each other the one that was read, in the cache and in one that is opened over its log again.
fn is_swapped(alloc: Global, cache: Cache, count: u32, name: &[u8], root: Option<PageId>) -> bool {
    if root_of(&cache, name) != Some(root) || !are_left(&cache, count, name) {
        return false;
    }
    match super::log_of(cache).and_then(|log| opened_over(alloc, CONFIG, log)) {
        Some(again) => root_of(&again, name) == Some(root) && are_left(&again, count, name),
        None => false,
    }
}

// Whether the name at that place is given another root, or taken out.
fn swaps_one(alloc: Global, count: u32, place: Place, new: Option<PageId>) -> Option<bool> {
    let roots = payload(alloc, count).ok()?;
    let mut cache = opened_over(alloc, CONFIG, log_of(alloc, &roots)?)?;
    let (bytes, len) = name_at(place, count);
    let name = bytes.get(..len)?;
    let old = root_of(&cache, name)?;
    let is_done = swaps(&mut cache, name, old, new) == Done;
    Some(is_done && is_swapped(alloc, cache, count, name, new))
}

#[test]
fn one_name_is_swapped_at_each_place(rt: HostRuntime) {
    for count in COUNTS {
        for place in PLACES {
            for new in [Some(300), None] {
                let is_so = swaps_one(rt.alloc(), *count, *place, new);
                assert_eq!(rt; is_so, Some(true), "{place:?} of {count} names");
            }
        }
    }
}
