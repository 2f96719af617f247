// Batches of many sizes over segments of some sizes, each sealed, cancelled or left open. The file is opened again, and its pages are those
// of a plain map.

use super::*;
use sled_pagecache_testing::calls::{adds_from, flushes, links_so, replaces_by_pair};
use sled_pagecache_testing::disks::{Disked, disk_of, new_disk, opened_on};
use sled_pagecache_testing::steps::Change::{Del, Set};
use sled_pagecache_testing::steps::Outcome::At;

#[derive(Clone, Copy, Debug, PartialEq, Eq)]
enum End {
    Sealed,
    Cancelled,
    LeftOpen,
}

const LETTERS: &[u8; 26] = b"abcdefghijklmnopqrstuvwxyz";

/// The value of each letter on each of three pages, and their stamps.
#[derive(Clone, Copy)]
struct Map {
    values: [[Option<u8>; 26]; 3],
    stamps: [u64; 3],
}

const EMPTY: Map = Map {
    values: [[None; 26]; 3],
    stamps: [1; 3],
};

// Makes a change of a page and of the map, by a number: it is replaced by a leaf of one pair, or a letter is taken out or set.
fn changes(alloc: Global, cache: &mut Disked, map: &mut Map, number: usize) -> Option<()> {
    let (page, place) = (number % 3, (number / 3).wrapping_mul(7) % 26);
    let (pid, letter) = (page as u64 + 2, LETTERS.get(place..place + 1)?);
    let values = map.values.get_mut(page)?;
    let stamp = map.stamps.get_mut(page)?;
    let outcome = if number % 31 == 30 {
        *values = [None; 26];
        *values.get_mut(10)? = Some(b'v');
        replaces_by_pair(alloc, cache, pid, *stamp)
    } else if number % 5 == 4 {
        *values.get_mut(place)? = None;
        links_so(alloc, cache, pid, *stamp, &Del(letter))
    } else {
        let value = LETTERS.get(number % 26..number % 26 + 1)?;
        *values.get_mut(place)? = value.first().copied();
        links_so(alloc, cache, pid, *stamp, &Set(letter, value))
    };
    *stamp = stamp.checked_add(1)?;
    (outcome == At(*stamp)).then_some(())
}

fn changes_all(
    alloc: Global,
    cache: &mut Disked,
    map: &mut Map,
    from: usize,
    to: usize,
) -> Option<()> {
    for number in from..to {
        changes(alloc, cache, map, number)?;
    }
    Some(())
}

// Ends the batch so. What is left open is as if it was cancelled, since that writes nothing: what is pending is lost.
fn ends(cache: &mut Disked, end: End) -> Option<()> {
    if !cache.batch_open() {
        return None;
    }
    if end == End::Sealed {
        return cache.seal().ok();
    }
    cache.cancel().ok()
}

fn is_page(node: &Node, values: &[Option<u8>; 26]) -> bool {
    let mut number = 0;
    for (letter, value) in LETTERS.iter().zip(values) {
        let Some(value) = value else {
            continue;
        };
        if number >= node.len() {
            return false;
        }
        let (stored, item) = node.pair(number);
        if stored != [*letter].as_slice() || item != Item::Value(&[*value]) {
            return false;
        }
        number += 1;
    }
    number == node.len()
}

// Whether each page is that of the map, at stamp 0, and there is no other.
fn is_map(cache: &mut Disked, map: &Map) -> bool {
    for (pid, values) in (2..5).zip(&map.values) {
        let is_so = match cache.get(pid) {
            Ok(Some(view)) => view.token().ts() == 0 && is_page(view.node(), values),
            _ => false,
        };
        if !is_so {
            return false;
        }
    }
    matches!(cache.get(5), Ok(None))
}

// The cache over a file that has three pages, seven changes, and a batch of so many, which ends so; and the map, as it is then.
fn behind(alloc: Global, segment_size: u64, count: usize, end: End) -> Option<(Disked, Map)> {
    let mut cache = opened_on(alloc, new_disk(alloc, 262_144)?, segment_size).ok()?;
    let mut map = EMPTY;
    adds_from(alloc, &mut cache, 2, 5).then_some(())?;
    changes_all(alloc, &mut cache, &mut map, 0, 7)?;
    flushes(&mut cache).ok()?;
    let before = map;
    cache.pin().ok()?;
    changes_all(alloc, &mut cache, &mut map, 7, count.checked_add(7)?)?;
    ends(&mut cache, end)?;
    if end == End::LeftOpen {
        return Some((cache, before));
    }
    flushes(&mut cache).ok()?;
    Some((cache, map))
}

// The cache over the same file, if its pages are those of the map.
fn reopened(alloc: Global, cache: Disked, segment_size: u64, map: &mut Map) -> Option<Disked> {
    let mut cache = opened_on(alloc, disk_of(cache)?, segment_size).ok()?;
    map.stamps = [0; 3];
    is_map(&mut cache, map).then_some(cache)
}

// Whether all that counts stands behind an opening, and with three changes more behind another one.
fn stands(alloc: Global, segment_size: u64, count: usize, end: End) -> Option<()> {
    let (cache, mut map) = behind(alloc, segment_size, count, end)?;
    let mut cache = reopened(alloc, cache, segment_size, &mut map)?;
    changes_all(alloc, &mut cache, &mut map, 20, 23)?;
    flushes(&mut cache).ok()?;
    reopened(alloc, cache, segment_size, &mut map)?;
    Some(())
}

#[test]
fn a_batch_of_any_size_stands_or_counts_for_nothing(rt: HostRuntime) {
    for segment_size in [64, 300, 4096] {
        for count in [0, 1, 2, 3, 16, 17, 1000] {
            for end in [End::Sealed, End::Cancelled, End::LeftOpen] {
                let found = stands(rt.alloc(), segment_size, count, end);
                assert!(rt; found.is_some(), "{segment_size} {count} {end:?}");
            }
        }
    }
}
