// How many leaves and indices maps have: what is said of limits, and of what removals merge.

use super::lengths::Length;
use super::pages::used;
use super::pairs::{Pair, Shape, finds, gets_all, inserts, new_pair, reached_in, removes};
use super::swaps::{Old, Swap, swaps};
use super::*;

const SHAPE: Shape = Shape {
    keys: Length::Of(8),
    values: Length::Of(3),
};

/// So many pairs are set by keys that rise, and then those of some numbers are taken out, each second one by swaps.
///
/// Keys that rise leave each leaf full, and each index, and the last leaf has one pair more before it is split.
#[derive(Clone, Copy, Debug)]
struct Row {
    // the most pairs of a leaf, and the most children of an index; 0 where none are said
    limits: (usize, usize),
    count: u64,
    // from the one number to the other, part after part
    taken: &'static [(u64, u64)],
    leaves: usize,
    indices: usize,
}

const FOURS: Row = Row {
    limits: (4, 8),
    count: 16,
    taken: &[],
    leaves: 4,
    indices: 1,
};

const EIGHTS: Row = Row {
    limits: (8, 8),
    count: 16,
    taken: &[],
    leaves: 2,
    indices: 1,
};

// Four indices of four leaves each, under the root.
const LEVELS: Row = Row {
    limits: (4, 4),
    count: 64,
    taken: &[],
    leaves: 16,
    indices: 5,
};

// 32 pairs and 128 children
const USUAL: Row = Row {
    limits: (0, 0),
    count: 32 * 128 + 2,
    taken: &[],
    leaves: 129,
    indices: 3,
};

const ROWS: &[Row] = &[
    FOURS,
    // a leaf has one pair too many, and is split once another one comes
    Row {
        count: 5,
        leaves: 1,
        ..FOURS
    },
    Row {
        count: 6,
        leaves: 2,
        ..FOURS
    },
    // one pair is left, and the neighbour has no room for it
    Row {
        taken: &[(0, 3)],
        ..FOURS
    },
    // the first leaf goes into its right neighbour, one in the middle, and the last
    Row {
        taken: &[(0, 4)],
        leaves: 3,
        ..FOURS
    },
    Row {
        taken: &[(4, 8)],
        leaves: 3,
        ..FOURS
    },
    Row {
        taken: &[(12, 16)],
        leaves: 3,
        ..FOURS
    },
    // one pair and three
    Row {
        taken: &[(0, 3), (4, 5)],
        leaves: 3,
        ..FOURS
    },
    Row {
        taken: &[(4, 5), (0, 3)],
        leaves: 3,
        ..FOURS
    },
    // two pairs and three
    Row {
        taken: &[(4, 5), (0, 2)],
        ..FOURS
    },
    EIGHTS,
    // four pairs each, of which neither is few
    Row {
        taken: &[(0, 4), (8, 12)],
        ..EIGHTS
    },
    // three pairs and four
    Row {
        taken: &[(0, 4), (8, 13)],
        leaves: 1,
        ..EIGHTS
    },
    // five pairs and three, of which the three are few, but were left last by a removal that found no room
    Row {
        taken: &[(8, 13), (0, 3)],
        ..EIGHTS
    },
    Row {
        taken: &[(8, 13), (0, 3), (13, 14)],
        leaves: 1,
        ..EIGHTS
    },
    // a fifth leaf is one child too many for an index, which is split at once, under a new root
    Row {
        count: 17,
        leaves: 4,
        indices: 1,
        ..LEVELS
    },
    Row {
        count: 18,
        leaves: 5,
        indices: 3,
        ..LEVELS
    },
    LEVELS,
    // two leaves each are left of two indices, which are merged at the next removal from a leaf that has few pairs
    Row {
        taken: &[(0, 8), (16, 24)],
        leaves: 12,
        ..LEVELS
    },
    Row {
        taken: &[(0, 8), (16, 25)],
        leaves: 12,
        indices: 4,
        ..LEVELS
    },
    Row {
        taken: &[(16, 24), (0, 9)],
        leaves: 12,
        indices: 4,
        ..LEVELS
    },
    Row {
        taken: &[(48, 56), (32, 41)],
        leaves: 12,
        indices: 4,
        ..LEVELS
    },
    USUAL,
    Row {
        count: 33,
        leaves: 1,
        indices: 1,
        ..USUAL
    },
    Row {
        count: 34,
        leaves: 2,
        indices: 1,
        ..USUAL
    },
];

// The maps of a log, with the limits of a row.
fn new_maps(alloc: Global, row: &Row, log: MemLog) -> Option<Trees<MemLog>> {
    if row.limits != (0, 0) {
        return opened(alloc, CONFIG, log, Limits::new(row.limits.0, row.limits.1));
    }
    if log.batch_open() {
        return None;
    }
    match PageCache::start(alloc, CONFIG, log) {
        Ok(cache) => Some(Trees::new(alloc, cache)),
        Err(_) => None,
    }
}

// Whether the key is swapped from what it has to the value of that number, or taken out.
fn is_swapped(
    alloc: Global,
    trees: &mut Trees<MemLog>,
    pair: &mut Pair,
    number: u64,
    new: Option<u64>,
) -> bool {
    let old = Old::Present;
    swaps(alloc, trees, pair, SHAPE, number, Swap { old, new })
}

// Whether the keys are set, by a swap where the number is odd.
fn fills(alloc: Global, trees: &mut Trees<MemLog>, pair: &mut Pair, count: u64) -> bool {
    for number in 0..count {
        let is_set = if number % 2 == 0 {
            inserts(alloc, trees, pair, SHAPE, number, number)
        } else {
            is_swapped(alloc, trees, pair, number, Some(number))
        };
        if !is_set {
            return false;
        }
    }
    true
}

// Whether the key is taken out, by a swap where its number is odd.
fn takes(alloc: Global, trees: &mut Trees<MemLog>, pair: &mut Pair, number: u64) -> bool {
    if number % 2 == 0 {
        return removes(alloc, trees, pair, SHAPE, number);
    }
    is_swapped(alloc, trees, pair, number, None)
}

fn takes_all(
    alloc: Global,
    trees: &mut Trees<MemLog>,
    pair: &mut Pair,
    taken: &[(u64, u64)],
) -> bool {
    for (from, to) in taken {
        for number in *from..*to {
            if !takes(alloc, trees, pair, number) {
                return false;
            }
        }
    }
    true
}

/// In how many parts a row is made.
#[derive(Clone, Copy, Debug, PartialEq)]
enum Way {
    Once,
    Batch,
    // the log is opened again before pairs are taken out
    Again,
}

const WAYS: &[Way] = &[Way::Once, Way::Batch, Way::Again];

// The maps and the map behind the pairs that are set, if these are set as they should be.
fn filled(alloc: Global, row: &Row, way: Way) -> Option<(Trees<MemLog>, Pair)> {
    let mut trees = new_maps(alloc, row, MemLog::new(alloc, 512, 16))?;
    let mut pair = new_pair(alloc, &mut trees, 0)?;
    if way == Way::Batch {
        trees.pin().ok()?;
    }
    if !fills(alloc, &mut trees, &mut pair, row.count) {
        return None;
    }
    if way == Way::Again {
        trees = new_maps(alloc, row, log_of(trees)?)?;
        finds(&mut trees, &mut pair).then_some(())?;
    }
    Some((trees, pair))
}

// How many leaves and indices there are in the end, if all answers are those of a sorted map, and all other pages are free but the cache's
// own two.
fn left(alloc: Global, row: &Row, way: Way) -> Option<(usize, usize)> {
    let (mut trees, mut pair) = filled(alloc, row, way)?;
    let is_so = takes_all(alloc, &mut trees, &mut pair, row.taken)
        && gets_all(alloc, &mut trees, &pair, SHAPE, row.count)
        && (way != Way::Batch || trees.seal().is_ok());
    let reached = reached_in(alloc, &mut trees, &pair)?;
    let pages = reached.leaves.saturating_add(reached.indices);
    (is_so && used(&trees) == pages.saturating_add(2)).then_some((reached.leaves, reached.indices))
}

#[test]
fn leaves_and_indices_are_as_many_as_is_said(rt: HostRuntime) {
    for row in ROWS {
        for way in WAYS {
            assert_eq!(rt;
                left(rt.alloc(), row, *way),
                Some((row.leaves, row.indices)),
                "{way:?} {row:?}"
            );
        }
    }
}
