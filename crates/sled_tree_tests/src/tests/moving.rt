// Maps that are walked piece by piece, while pairs come and go between two pieces.

use super::lengths::bytes_of;
use super::ordered::{bound_of, is_piece, is_within};
use super::pairs::{Pair, Plain, Shape, inserts, new_pair, removes};
use super::pieces::{LONG, MIXED, SHORT, new_maps};
use super::*;
use std::ops::Bound;

/// A map of each third number below an end, and calls between two pieces of a walk.
///
/// The keys that are there at first stay there. Others come and go.
#[derive(Clone, Copy)]
struct Moving {
    seed: u64,
    end: u64,
    shape: Shape,
    limits: (usize, usize),
    is_small: bool,
    // whether all is in one batch
    is_batch: bool,
    // the numbers of the bounds
    between: (u64, u64),
    // so many of the numbers that don't stay are set at first
    others: u64,
    // so many calls come between two pieces, and of ten on keys that don't stay this many take one out
    calls: u64,
    removes: u64,
}

const MOVING: Moving = Moving {
    seed: 1,
    end: 60,
    shape: SHORT,
    limits: (4, 4),
    is_small: false,
    is_batch: false,
    between: (0, 0),
    others: 20,
    calls: 3,
    removes: 5,
};

const MOVINGS: &[Moving] = &[
    MOVING,
    Moving {
        seed: 2,
        calls: 20,
        ..MOVING
    },
    Moving {
        seed: 13,
        calls: 20,
        is_batch: true,
        ..MOVING
    },
    // most calls take a key out, so leaves go into their neighbours
    Moving {
        seed: 3,
        others: 200,
        calls: 20,
        removes: 9,
        ..MOVING
    },
    Moving {
        seed: 4,
        end: 300,
        others: 1000,
        calls: 60,
        removes: 10,
        ..MOVING
    },
    // most set one, so leaves are split
    Moving {
        seed: 5,
        end: 300,
        others: 0,
        calls: 40,
        removes: 1,
        ..MOVING
    },
    Moving {
        seed: 6,
        end: 300,
        calls: 40,
        is_small: true,
        ..MOVING
    },
    Moving {
        seed: 7,
        shape: MIXED,
        calls: 8,
        ..MOVING
    },
    Moving {
        seed: 8,
        shape: LONG,
        calls: 8,
        ..MOVING
    },
    // a key that stays, excluded at both ends and included, and one that doesn't
    Moving {
        seed: 9,
        calls: 10,
        between: (21, 111),
        ..MOVING
    },
    Moving {
        seed: 10,
        calls: 10,
        between: (20, 110),
        ..MOVING
    },
    Moving {
        seed: 11,
        calls: 10,
        between: (22, 109),
        ..MOVING
    },
    Moving {
        seed: 12,
        end: 1000,
        limits: (32, 128),
        others: 400,
        calls: 200,
        ..MOVING
    },
];

/// What a walk has met, and what it has to meet.
#[derive(Drop)]
struct Met {
    // the key of the last pair
    last: Option<IVec>,
    // the keys that stay and were not met yet
    unmet: Plain,
}

// A map and the keys that stay in it: each third one, before others are set.
fn sets_kept(
    alloc: Global,
    trees: &mut Trees<MemLog>,
    pair: &mut Pair,
    moving: &Moving,
) -> Option<(Plain, Plain)> {
    let (mut kept, mut unmet) = (Plain::new(alloc), Plain::new(alloc));
    for number in 0..moving.end {
        if number % 3 == 0 {
            if !inserts(alloc, trees, pair, moving.shape, number, number) {
                return None;
            }
            let key = bytes_of(alloc, moving.shape.keys, number).ok()?;
            unmet.insert(key.clone().ok()?, IVec::default()).ok()?;
            kept.insert(key, IVec::default()).ok()?;
        }
    }
    Some((kept, unmet))
}

// Whether a random call is answered as it should be: it sets a key, or takes one out that doesn't stay.
fn calls(
    alloc: Global,
    moving: &Moving,
    random: &mut Random,
    trees: &mut Trees<MemLog>,
    pair: &mut Pair,
    kept: &Plain,
    removes_of_ten: u64,
) -> bool {
    let number = random.below(moving.end);
    let is_removed = random.below(10) < removes_of_ten;
    let value = random.below(100_000);
    match bytes_of(alloc, moving.shape.keys, number) {
        Ok(key) if is_removed && kept.get(&key).is_none() => {
            removes(alloc, trees, pair, moving.shape, number)
        }
        Ok(_) => inserts(alloc, trees, pair, moving.shape, number, value),
        Err(_) => false,
    }
}

fn calls_all(
    alloc: Global,
    moving: &Moving,
    random: &mut Random,
    trees: &mut Trees<MemLog>,
    pair: &mut Pair,
    kept: &Plain,
    (count, removes_of_ten): (u64, u64),
) -> bool {
    for _ in 0..count {
        if !calls(alloc, moving, random, trees, pair, kept, removes_of_ten) {
            return false;
        }
    }
    true
}

// Whether the keys of a piece rise, and are all behind those that were met before.
fn meets(piece: &Piece, met: &mut Met) -> bool {
    for (key, _) in piece.pairs.iter() {
        let is_behind = match &met.last {
            Some(last) => last < key,
            None => true,
        };
        let Ok(same) = key.clone() else {
            return false;
        };
        if !is_behind {
            return false;
        }
        met.last = Some(same);
        met.unmet.remove(key);
    }
    true
}

// Whether no key within the bounds that stays was left out.
fn all_met(met: &Met, from: &Bound<IVec>, to: &Bound<IVec>) -> bool {
    for (key, _) in met.unmet.iter() {
        if is_within(from, to, key) {
            return false;
        }
    }
    true
}

// Whether each piece is what is there at its time, no pair comes twice or out of order, and each one that stays is met; or none where the
// walk doesn't end.
fn walks_on(
    alloc: Global,
    moving: &Moving,
    random: &mut Random,
    trees: &mut Trees<MemLog>,
    pair: &mut Pair,
    (kept, mut met): (&Plain, Met),
) -> Option<bool> {
    let first = bound_of(alloc, moving.shape, moving.between.0).ok()?;
    let to = bound_of(alloc, moving.shape, moving.between.1).ok()?;
    let mut from = bound_of(alloc, moving.shape, moving.between.0).ok()?;
    let change = (moving.calls, moving.removes);
    for _ in 0..moving.end.saturating_add(1) {
        let piece = trees.range(pair.tree, &from, &to).ok()?;
        if !is_piece(&piece, &pair.plain, &from, &to) || !meets(&piece, &mut met) {
            return Some(false);
        }
        let Piece { pairs, rest } = piece;
        drop(pairs);
        let Some(start) = rest else {
            return Some(all_met(&met, &first, &to));
        };
        from = Bound::Included(start);
        if !calls_all(alloc, moving, random, trees, pair, kept, change) {
            return Some(false);
        }
    }
    None
}

fn walks(alloc: Global, moving: &Moving) -> Option<bool> {
    let mut random = Random::new(moving.seed);
    let mut trees = new_maps(alloc, moving.limits, moving.is_small)?;
    let mut pair = new_pair(alloc, &mut trees, b'p')?;
    if moving.is_batch {
        trees.pin().ok()?;
    }
    let (kept, unmet) = sets_kept(alloc, &mut trees, &mut pair, moving)?;
    let others = (moving.others, 0);
    let is_set = calls_all(
        alloc,
        moving,
        &mut random,
        &mut trees,
        &mut pair,
        &kept,
        others,
    );
    let met = Met { last: None, unmet };
    let is_right = walks_on(
        alloc,
        moving,
        &mut random,
        &mut trees,
        &mut pair,
        (&kept, met),
    )?;
    Some(is_set && is_right)
}

#[test]
fn walks_go_on_while_pairs_come_and_go(rt: HostRuntime) {
    for moving in MOVINGS {
        assert_eq!(rt;
            walks(rt.alloc(), moving),
            Some(true),
            "seed {}",
            moving.seed
        );
    }
}
