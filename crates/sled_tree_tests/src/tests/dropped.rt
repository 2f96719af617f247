// A map that is dropped, the pages that it had, and the names of the others.

use super::lengths::Length;
use super::pairs::{Pair, Shape, finds as finds_kept, gets_all, inserts, new_pair};
use super::*;

const SHORT: Shape = Shape {
    keys: Length::Of(8),
    values: Length::Of(3),
};

// Keys that have their first 300 bytes in common.
const LONG: Shape = Shape {
    keys: Length::Of(308),
    values: Length::Of(3),
};

// How many pairs the maps have.
const COUNTS: &[(u64, Shape)] = &[
    (0, SHORT),
    (1, SHORT),
    (5, SHORT),
    (200, SHORT),
    (1000, SHORT),
    (50, LONG),
];

// A new map of so many pairs.
fn filled(
    alloc: Global,
    trees: &mut Trees<MemLog>,
    name: u8,
    (count, shape): (u64, Shape),
) -> Option<Pair> {
    let mut pair = new_pair(alloc, trees, name)?;
    for number in 0..count {
        if !inserts(alloc, trees, &mut pair, shape, number, number) {
            return None;
        }
    }
    Some(pair)
}

fn pages_in(trees: &Trees<MemLog>) -> Option<usize> {
    Some(trees.cache().shape().ok()?.pages.len())
}

// Whether there is a map of this name, and none once it was dropped.
fn drops(trees: &mut Trees<MemLog>, name: &[u8]) -> bool {
    trees.drop_tree(name) == Ok(true) && trees.drop_tree(name) == Ok(false)
}

fn is_filled(alloc: Global, trees: &mut Trees<MemLog>, name: u8, count: (u64, Shape)) -> bool {
    match filled(alloc, trees, name, count) {
        Some(pair) => gets_all(alloc, trees, &pair, count.1, count.0),
        None => false,
    }
}

// Whether there are as many pages once a map was dropped and another one of as many pairs was made.
fn are_used_again(alloc: Global, trees: &mut Trees<MemLog>, count: (u64, Shape)) -> bool {
    let before = pages_in(trees);
    before.is_some()
        && drops(trees, b"m\x01")
        && is_filled(alloc, trees, 2, count)
        && pages_in(trees) == before
}

// The same beside a map that stays. The log is opened again before the one is dropped, or not.
fn are_used_in(alloc: Global, config: Config, count: (u64, Shape), is_again: bool) -> Option<bool> {
    let limits = Limits::new(4, 4);
    let mut trees = opened(alloc, config, MemLog::new(alloc, 512, 16), limits)?;
    let mut kept = filled(alloc, &mut trees, 0, count)?;
    let is_made = is_filled(alloc, &mut trees, 1, count);
    if is_again {
        trees = opened(alloc, config, log_of(trees)?, limits)?;
        if !finds_kept(&mut trees, &mut kept) {
            return None;
        }
    }
    Some(
        is_made
            && are_used_again(alloc, &mut trees, count)
            && gets_all(alloc, &mut trees, &kept, count.1, count.0),
    )
}

#[test]
fn the_pages_of_a_dropped_map_are_used_again(rt: HostRuntime) {
    for count in COUNTS {
        for (config, is_again) in [(CONFIG, false), (CONFIG, true), (SMALL, false)] {
            assert_eq!(rt;
                are_used_in(rt.alloc(), config, *count, is_again),
                Some(true),
                "{} {is_again}",
                count.0
            );
        }
    }
}

const NAMES: &[&[u8]] = &[b"pear", b"apple", b"", b"fig"];

fn opens_all(trees: &mut Trees<MemLog>) -> bool {
    for name in NAMES {
        if trees.open(name).is_err() {
            return false;
        }
    }
    true
}

fn are(names: &[IVec], wanted: &[&[u8]]) -> bool {
    if names.len() != wanted.len() {
        return false;
    }
    for i in 0..wanted.len() {
        if names[i].as_slice() != wanted[i] {
            return false;
        }
    }
    true
}

fn names_are(trees: &Trees<MemLog>, wanted: &[&[u8]]) -> bool {
    match trees.names() {
        Ok(names) => are(&names, wanted),
        Err(_) => false,
    }
}

// Whether each of these is found with the map that an opening answers, and the other name with none.
fn finds(trees: &mut Trees<MemLog>, names: &[&[u8]], other: &[u8]) -> bool {
    for name in names {
        if !is_found(trees, name) {
            return false;
        }
    }
    trees.get_tree(other) == Ok(None)
}

fn is_found(trees: &mut Trees<MemLog>, name: &[u8]) -> bool {
    match trees.get_tree(name) {
        Ok(Some(found)) => is_opened(trees, name, found),
        _ => false,
    }
}

fn is_opened(trees: &mut Trees<MemLog>, name: &[u8], wanted: Tree) -> bool {
    match trees.open(name) {
        Ok(opened) => opened == wanted,
        Err(_) => false,
    }
}

fn are_in_order(alloc: Global) -> bool {
    let log = MemLog::new(alloc, 512, 16);
    match opened(alloc, CONFIG, log, Limits::usual()) {
        Some(mut trees) => {
            opens_all(&mut trees)
                && drops(&mut trees, b"fig")
                && finds(&mut trees, &[b"pear", b"", b"apple"], b"fig")
                && names_are(&trees, &[b"", b"apple", b"pear"])
        }
        None => false,
    }
}

#[test]
fn names_are_in_their_order(rt: HostRuntime) {
    assert!(rt; are_in_order(rt.alloc()));
}
