// Whole maps that are walked piece by piece, and pair by pair, beside a plain sorted map.

use super::lengths::Length;
use super::ordered::{bound_of, is_within, sums_agree};
use super::pairs::{Pair, Plain, Shape, inserts, new_pair};
use super::*;
use std::ops::Bound;

type Pairs = Vec<(IVec, IVec)>;

/// Keys of eight bytes.
pub(super) const SHORT: Shape = Shape {
    keys: Length::Of(8),
    values: Length::Below(9),
};

/// Keys of which some begin others, and the empty one.
pub(super) const MIXED: Shape = Shape {
    keys: Length::Below(5),
    values: Length::Below(9),
};

/// Keys that have their first 300 bytes in common.
pub(super) const LONG: Shape = Shape {
    keys: Length::Of(308),
    values: Length::Below(9),
};

/// New maps with these limits, and a cache of little capacity or not.
pub(super) fn new_maps(
    alloc: Global,
    limits: (usize, usize),
    is_small: bool,
) -> Option<Trees<MemLog>> {
    let config = if is_small { SMALL } else { CONFIG };
    let log = MemLog::new(alloc, 512, 16);
    opened(alloc, config, log, Limits::new(limits.0, limits.1))
}

// ---- piece by piece

/// A map of each second number below an end, and the numbers of the keys of bounds.
#[derive(Clone, Copy)]
struct Still {
    end: u64,
    shape: Shape,
    limits: (usize, usize),
    is_small: bool,
    // from each of these keys, included or not, and from the first one on, walks go to each, and to the last one
    keys: &'static [u64],
}

const STILL: Still = Still {
    end: 60,
    shape: SHORT,
    limits: (4, 4),
    is_small: false,
    // the first and the last key, some that are there and some that aren't, and one behind all
    keys: &[0, 1, 7, 8, 9, 10, 32, 33, 56, 57, 58, 59, 60],
};

const STILLS: &[Still] = &[
    STILL,
    Still {
        end: 0,
        keys: &[0, 1],
        ..STILL
    },
    Still {
        end: 1,
        keys: &[0, 1],
        ..STILL
    },
    Still {
        end: 10,
        keys: &[0, 1, 2, 3, 4, 5, 6, 7, 8, 9, 10],
        ..STILL
    },
    Still {
        shape: MIXED,
        ..STILL
    },
    Still {
        shape: LONG,
        is_small: true,
        ..STILL
    },
    // six levels
    Still {
        end: 2000,
        keys: &[0, 997, 1998],
        ..STILL
    },
    Still {
        end: 6000,
        limits: (32, 128),
        keys: &[1, 2998, 5998],
        ..STILL
    },
    // one leaf
    Still {
        end: 2000,
        limits: (65_536, 65_536),
        keys: &[0, 997, 1998],
        ..STILL
    },
];

// Whether each second number is set, those that come late first.
fn fills(alloc: Global, trees: &mut Trees<MemLog>, pair: &mut Pair, still: &Still) -> bool {
    for place in 0..still.end {
        let number = place.wrapping_mul(7919).checked_rem(still.end).unwrap_or(0);
        if number % 2 == 0 && !inserts(alloc, trees, pair, still.shape, number, place) {
            return false;
        }
    }
    true
}

// The pairs of all pieces within the bounds, if each piece but the last one has some, and there are no more pieces than pairs and one.
fn walked(
    alloc: Global,
    trees: &mut Trees<MemLog>,
    pair: &Pair,
    from: &Bound<IVec>,
    to: &Bound<IVec>,
) -> Option<Pairs> {
    let mut found = Vec::new(alloc);
    let mut piece = trees.range(pair.tree, from, to).ok()?;
    for _ in 0..pair.plain.len().saturating_add(1) {
        let Piece { pairs, rest } = piece;
        let is_none = pairs.is_empty();
        for entry in pairs {
            found.push(entry).ok()?;
        }
        let Some(start) = rest else {
            return Some(found);
        };
        if is_none {
            return None;
        }
        piece = trees.range(pair.tree, &Bound::Included(start), to).ok()?;
    }
    None
}

// Whether these are all pairs of the plain map within the bounds, in its order.
fn are_all(found: &[(IVec, IVec)], plain: &Plain, from: &Bound<IVec>, to: &Bound<IVec>) -> bool {
    let mut place = 0usize;
    for (key, value) in plain.iter() {
        if is_within(from, to, key) {
            match found.get(place) {
                Some(pair) if pair.0 == *key && pair.1 == *value => {
                    place = place.saturating_add(1);
                }
                _ => return false,
            }
        }
    }
    place == found.len()
}

// Whether a walk from the bound of the one number to that of the other meets each pair once, in order, and ends.
fn walks_between(
    alloc: Global,
    trees: &mut Trees<MemLog>,
    pair: &Pair,
    shape: Shape,
    (from, to): (u64, u64),
) -> bool {
    let (Ok(from), Ok(to)) = (bound_of(alloc, shape, from), bound_of(alloc, shape, to)) else {
        return false;
    };
    match walked(alloc, trees, pair, &from, &to) {
        Some(found) => are_all(&found, &pair.plain, &from, &to),
        None => false,
    }
}

// The number of the bound in a place: none, and then the two of each key.
fn number_at(still: &Still, place: usize) -> u64 {
    match still.keys.get(place.saturating_sub(1) / 2) {
        Some(key) if place > 0 => {
            let is_excluded = place % 2 == 0;
            key.saturating_add(1)
                .saturating_mul(2)
                .saturating_add(u64::from(is_excluded))
        }
        _ => 0,
    }
}

// Whether the walks between all bounds are right; or none where the map can't be made.
fn all_walk(alloc: Global, still: &Still) -> Option<bool> {
    let mut trees = new_maps(alloc, still.limits, still.is_small)?;
    let mut pair = new_pair(alloc, &mut trees, b'p')?;
    let count = still.keys.len().saturating_mul(2).saturating_add(1);
    let mut is_right = fills(alloc, &mut trees, &mut pair, still) && sums_agree(&mut trees, &pair);
    for from in 0..count {
        for to in 0..count {
            let between = (number_at(still, from), number_at(still, to));
            is_right = is_right && walks_between(alloc, &mut trees, &pair, still.shape, between);
        }
    }
    Some(is_right)
}

#[test]
fn walks_by_pieces_meet_each_pair_once(rt: HostRuntime) {
    for still in STILLS {
        assert_eq!(rt; all_walk(rt.alloc(), still), Some(true), "{}", still.end);
    }
}

// ---- pair by pair

// The pairs behind each other from the first one on, or before each other from the last one on.
fn stepped(alloc: Global, trees: &mut Trees<MemLog>, pair: &Pair, is_down: bool) -> Option<Pairs> {
    let mut found: Pairs = Vec::new(alloc);
    let mut bound = Bound::Unbounded;
    for _ in 0..pair.plain.len().saturating_add(1) {
        let next = if is_down {
            trees.next_below(pair.tree, &bound).ok()?
        } else {
            trees.next_above(pair.tree, &bound).ok()?
        };
        let Some(entry) = next else {
            return Some(found);
        };
        bound = Bound::Excluded(entry.0.clone().ok()?);
        found.push(entry).ok()?;
    }
    None
}

// Whether the steps are right, and the calls that have no bounds, all in a batch.
fn steps_so(alloc: Global, still: &Still, is_down: bool) -> Option<bool> {
    let mut trees = new_maps(alloc, still.limits, still.is_small)?;
    let mut pair = new_pair(alloc, &mut trees, b'p')?;
    let is_filled = fills(alloc, &mut trees, &mut pair, still);
    trees.pin().ok()?;
    let mut found = stepped(alloc, &mut trees, &pair, is_down)?;
    if is_down {
        found.reverse();
    }
    let all = Bound::Unbounded;
    Some(is_filled && sums_agree(&mut trees, &pair) && are_all(&found, &pair.plain, &all, &all))
}

#[test]
fn steps_up_and_down_meet_each_pair_once(rt: HostRuntime) {
    for still in STILLS {
        for is_down in [false, true] {
            assert_eq!(rt;
                steps_so(rt.alloc(), still, is_down),
                Some(true),
                "{} {is_down}",
                still.end
            );
        }
    }
}
