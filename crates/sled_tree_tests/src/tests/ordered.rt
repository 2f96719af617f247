// The pairs in the order of their keys, as a plain sorted map has them.

use super::lengths::{Length, bytes_of};
use super::pairs::{Pair, Plain, Shape, inserts, new_pair, removes};
use super::*;
use std::ops::Bound;

// Which pairs there are: so many keys are set at random, and then all are taken out whose numbers are from the one to the other. Some leaves
// are empty then.
#[derive(Clone, Copy)]
struct Row {
    seed: u64,
    sets: u64,
    // keys are of numbers below it
    space: u64,
    shape: Shape,
    taken: (u64, u64),
    // how many pairs and children before a split
    limit: usize,
    is_small: bool,
}

// With how many bounds the calls are made.
const BOUNDS: u64 = 120;

const VALUES: Length = Length::Below(9);

const ROW: Row = Row {
    seed: 1,
    sets: 300,
    space: 200,
    shape: Shape {
        keys: Length::Of(8),
        values: VALUES,
    },
    taken: (60, 140),
    limit: 4,
    is_small: false,
};

const MIXED: Shape = Shape {
    keys: Length::Below(5),
    values: VALUES,
};

// Keys of one byte, and values about what a log in memory keeps apart.
const BYTES: Shape = Shape {
    keys: Length::Of(1),
    values: Length::Below(600),
};

const LONG: Shape = Shape {
    keys: Length::Of(308),
    values: VALUES,
};

const ROWS: &[Row] = &[
    ROW,
    Row {
        seed: 2,
        taken: (0, 0),
        ..ROW
    },
    Row {
        seed: 3,
        taken: (0, 100),
        ..ROW
    },
    Row {
        seed: 4,
        taken: (100, 200),
        is_small: true,
        ..ROW
    },
    Row {
        seed: 5,
        taken: (0, 200),
        ..ROW
    },
    // all but the first, and all but the last
    Row {
        seed: 10,
        taken: (1, 200),
        ..ROW
    },
    Row {
        seed: 11,
        taken: (0, 199),
        ..ROW
    },
    Row {
        seed: 12,
        shape: BYTES,
        sets: 600,
        space: 256,
        taken: (16, 240),
        ..ROW
    },
    Row {
        seed: 6,
        shape: MIXED,
        taken: (60, 100),
        ..ROW
    },
    Row {
        seed: 7,
        shape: LONG,
        sets: 150,
        ..ROW
    },
    Row {
        seed: 8,
        sets: 0,
        ..ROW
    },
    Row {
        seed: 9,
        limit: 32,
        sets: 600,
        space: 900,
        taken: (100, 700),
        ..ROW
    },
];

// ---- what a plain map has

/// Whether a key is behind the one bound and before the other.
pub(super) fn is_within(from: &Bound<IVec>, to: &Bound<IVec>, key: &IVec) -> bool {
    let is_behind = match from {
        Bound::Included(start) => key >= start,
        Bound::Excluded(start) => key > start,
        Bound::Unbounded => true,
    };
    let is_before = match to {
        Bound::Included(end) => key <= end,
        Bound::Excluded(end) => key < end,
        Bound::Unbounded => true,
    };
    is_behind && is_before
}

// Whether a call answered the first or the last pair between the bounds.
fn is_end(
    answer: &Result<Option<(IVec, IVec)>, TreeError>,
    plain: &Plain,
    (from, to): (&Bound<IVec>, &Bound<IVec>),
    is_last: bool,
) -> bool {
    let mut wanted = None;
    for (key, value) in plain.iter() {
        if is_within(from, to, key) && (is_last || wanted.is_none()) {
            wanted = Some((key, value));
        }
    }
    match (answer, wanted) {
        (Ok(None), None) => true,
        (Ok(Some(pair)), Some((key, value))) => pair.0 == *key && pair.1 == *value,
        _ => false,
    }
}

/// Whether the pairs are the first between the bounds, none only where there is none, and the others are from where it says.
pub(super) fn is_piece(piece: &Piece, plain: &Plain, from: &Bound<IVec>, to: &Bound<IVec>) -> bool {
    let found = piece.pairs.as_slice();
    let mut place = 0usize;
    for (key, value) in plain.iter() {
        if is_within(from, to, key) {
            match found.get(place) {
                Some(pair) if pair.0 == *key && pair.1 == *value => {
                    place = place.saturating_add(1);
                }
                Some(_) => return false,
                None => return begins_rest(&piece.rest, found, key),
            }
        }
    }
    place == found.len()
}

// Whether the others begin behind what was found, and with this key at the latest.
fn begins_rest(rest: &Option<IVec>, found: &[(IVec, IVec)], next: &IVec) -> bool {
    match (rest, found.last()) {
        (Some(start), Some((last, _))) => last < start && start <= next,
        _ => false,
    }
}

// ---- the calls

/// A bound by its number: the first two are no bound, and then two each are those of a key, which is included by the first of them.
pub(super) fn bound_of(
    alloc: Global,
    shape: Shape,
    number: u64,
) -> Result<Bound<IVec>, AllocError> {
    if number < 2 {
        return Ok(Bound::Unbounded);
    }
    let key = bytes_of(alloc, shape.keys, number / 2 - 1)?;
    Ok(if number % 2 == 0 {
        Bound::Included(key)
    } else {
        Bound::Excluded(key)
    })
}

// Whether the calls between these bounds answer what the plain map has.
fn agrees(trees: &mut Trees<MemLog>, pair: &Pair, from: &Bound<IVec>, to: &Bound<IVec>) -> bool {
    let all = Bound::Unbounded;
    if !is_end(
        &trees.next_above(pair.tree, from),
        &pair.plain,
        (from, &all),
        false,
    ) || !is_end(
        &trees.next_below(pair.tree, from),
        &pair.plain,
        (&all, from),
        true,
    ) {
        return false;
    }
    match trees.range(pair.tree, from, to) {
        Ok(piece) => is_piece(&piece, &pair.plain, from, to),
        Err(_) => false,
    }
}

/// The same of the bounds with these numbers.
pub(super) fn agrees_between(
    alloc: Global,
    shape: Shape,
    trees: &mut Trees<MemLog>,
    pair: &Pair,
    from: u64,
    to: u64,
) -> bool {
    match (bound_of(alloc, shape, from), bound_of(alloc, shape, to)) {
        (Ok(from), Ok(to)) => agrees(trees, pair, &from, &to),
        _ => false,
    }
}

// The same of many bounds.
fn all_agree(
    alloc: Global,
    row: &Row,
    random: &mut Random,
    trees: &mut Trees<MemLog>,
    pair: &Pair,
) -> bool {
    let end = row.space.saturating_add(1).saturating_mul(2);
    for _ in 0..BOUNDS {
        let (from, to) = (random.below(end), random.below(end));
        if !agrees_between(alloc, row.shape, trees, pair, from, to) {
            return false;
        }
    }
    true
}

/// Whether the calls that have no bounds answer what the plain map has.
pub(super) fn sums_agree(trees: &mut Trees<MemLog>, pair: &Pair) -> bool {
    let (all, plain) = (Bound::Unbounded, &pair.plain);
    is_end(&trees.first(pair.tree), plain, (&all, &all), false)
        && is_end(&trees.last(pair.tree), plain, (&all, &all), true)
        && trees.len(pair.tree).ok() == Some(plain.len() as u64)
        && trees.is_empty(pair.tree).ok() == Some(plain.is_empty())
}

// Whether the pairs are set, and some taken out.
fn changes(
    alloc: Global,
    row: &Row,
    random: &mut Random,
    trees: &mut Trees<MemLog>,
    pair: &mut Pair,
) -> bool {
    for step in 0..row.sets.saturating_add(row.taken.1) {
        let number = random.below(row.space);
        let is_right = match step.checked_sub(row.sets) {
            None => inserts(alloc, trees, pair, row.shape, number, step),
            Some(taken) => { taken < row.taken.0 || removes(alloc, trees, pair, row.shape, taken) }
        };
        if !is_right {
            return false;
        }
    }
    true
}

fn walks(alloc: Global, row: &Row) -> Option<bool> {
    let mut random = Random::new(row.seed);
    let config = if row.is_small { SMALL } else { CONFIG };
    let limits = Limits::new(row.limit, row.limit);
    let mut trees = opened(alloc, config, MemLog::new(alloc, 512, 16), limits)?;
    let mut pair = new_pair(alloc, &mut trees, b'm')?;
    Some(
        changes(alloc, row, &mut random, &mut trees, &mut pair)
            && sums_agree(&mut trees, &pair)
            && all_agree(alloc, row, &mut random, &mut trees, &pair),
    )
}

#[test]
fn pairs_are_in_the_order_of_their_keys(rt: HostRuntime) {
    for row in ROWS {
        assert_eq!(rt; walks(rt.alloc(), row), Some(true), "seed {}", row.seed);
    }
}
