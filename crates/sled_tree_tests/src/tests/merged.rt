// A map whose pairs are taken out, and the pages that it takes then.

use super::lengths::Length;
use super::pages::used;
use super::pairs::{Pair, Shape, gets_all, inserts, new_pair, reached_in, removes};
use super::*;

const SHAPE: Shape = Shape {
    keys: Length::Of(8),
    values: Length::Of(3),
};

/// So many pairs are set in an order, and all are taken out in another one but each n-th, or all.
#[derive(Clone, Copy, Debug)]
struct Row {
    // the most pairs of a leaf, and the most children of an index
    limits: (usize, usize),
    count: u64,
    // the i-th key that is set, and the i-th that is taken out, are those of i times this, by the count
    steps: (u64, u64),
    // 0 where none stays
    kept: u64,
    // there are no more leaves then, and more were before
    leaves: usize,
}

// With nothing left a map has its root, an index on each level and a leaf. With few pairs left, one of two leaves beside each other has four
// pairs or more, if both are of one index.
const ROWS: &[Row] = &[
    Row {
        limits: (4, 4),
        count: 300,
        steps: (1, 1),
        kept: 0,
        leaves: 1,
    },
    Row {
        limits: (4, 4),
        count: 300,
        steps: (7, 299),
        kept: 0,
        leaves: 1,
    },
    Row {
        limits: (4, 4),
        count: 300,
        steps: (7, 11),
        kept: 10,
        leaves: 20,
    },
    Row {
        limits: (4, 8),
        count: 500,
        steps: (1, 499),
        kept: 50,
        leaves: 6,
    },
    Row {
        limits: (32, 128),
        count: 1000,
        steps: (1, 1),
        kept: 0,
        leaves: 1,
    },
    Row {
        limits: (32, 128),
        count: 1000,
        steps: (1, 999),
        kept: 0,
        leaves: 1,
    },
    Row {
        limits: (32, 128),
        count: 1000,
        steps: (7, 379),
        kept: 100,
        leaves: 5,
    },
];

fn number_at(row: &Row, i: u64, step: u64) -> u64 {
    match i.wrapping_mul(step).checked_rem(row.count) {
        Some(number) => number,
        None => 0,
    }
}

fn is_kept(row: &Row, number: u64) -> bool {
    number.checked_rem(row.kept) == Some(0)
}

fn fills(alloc: Global, trees: &mut Trees<MemLog>, pair: &mut Pair, row: &Row) -> bool {
    for i in 0..row.count {
        let number = number_at(row, i, row.steps.0);
        if !inserts(alloc, trees, pair, SHAPE, number, number) {
            return false;
        }
    }
    true
}

fn thins(alloc: Global, trees: &mut Trees<MemLog>, pair: &mut Pair, row: &Row) -> bool {
    for i in 0..row.count {
        let number = number_at(row, i, row.steps.1);
        if !is_kept(row, number) && !removes(alloc, trees, pair, SHAPE, number) {
            return false;
        }
    }
    true
}

// Whether the map has all pages that the cache uses, but for the cache's own two, and these keep to the limits. A leaf may have one pair more,
// up to the next one that comes there.
fn is_tidy(trees: &Trees<MemLog>, reached: &Reached, row: &Row) -> bool {
    let pages = reached.leaves.saturating_add(reached.indices);
    used(trees) == pages.saturating_add(2)
        && reached.pairs <= row.limits.0.saturating_add(1)
        && reached.children <= row.limits.1
}

// Whether there is one index on each level, where nothing is left.
fn is_thin(reached: &Reached, row: &Row) -> bool {
    row.kept > 0 || reached.indices.saturating_add(1) == reached.levels
}

// How many leaves there are once the pairs were taken out, if all answers are those of a sorted map, the pages are as they should be, and
// there were more leaves before.
fn left(alloc: Global, trees: &mut Trees<MemLog>, row: &Row) -> Option<usize> {
    let mut pair = new_pair(alloc, trees, 0)?;
    if !fills(alloc, trees, &mut pair, row) {
        return None;
    }
    let before = reached_in(alloc, trees, &pair)?;
    if !is_tidy(trees, &before, row) || before.leaves <= row.leaves {
        return None;
    }
    if !thins(alloc, trees, &mut pair, row) || !gets_all(alloc, trees, &pair, SHAPE, row.count) {
        return None;
    }
    let after = reached_in(alloc, trees, &pair)?;
    (is_tidy(trees, &after, row) && is_thin(&after, row)).then_some(after.leaves)
}

fn left_of(alloc: Global, config: Config, row: &Row) -> Option<usize> {
    let log = MemLog::new(alloc, 512, 16);
    let limits = Limits::new(row.limits.0, row.limits.1);
    let mut trees = opened(alloc, config, log, limits)?;
    left(alloc, &mut trees, row)
}

#[test]
fn pages_are_given_back(rt: HostRuntime) {
    for row in ROWS {
        for config in [CONFIG, SMALL] {
            let left = left_of(rt.alloc(), config, row);
            assert!(rt;
                left.is_some_and(|leaves| leaves <= row.leaves),
                "{left:?} {row:?}"
            );
        }
    }
}
