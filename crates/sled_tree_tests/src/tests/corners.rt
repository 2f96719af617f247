// Maps of few pairs and of many, with short keys and values and long ones, whose first, middle and last keys are set and taken out again. Then
// all are taken out, and the leaves, which have nothing any more, are looked up in, and filled again.
//
// A key or a value above the limit has 2^31 bytes, and none is made here.

use super::lengths::Length;
use super::ordered::{agrees_between, sums_agree};
use super::pairs::{Pair, Shape, finds, gets, gets_all, inserts, new_pair, removes};
use super::*;

// In which order the keys are set at first.
#[derive(Clone, Copy, Debug)]
enum Order {
    Rising,
    Falling,
    // each second one, then the others
    Mixed,
    // the first key alone, as often
    Equal,
}

const ORDERS: &[Order] = &[Order::Rising, Order::Falling, Order::Mixed, Order::Equal];

// A map of so many pairs.
#[derive(Clone, Copy)]
struct Corner {
    count: u64,
    shape: Shape,
    // how many pairs and children before a split
    limits: (usize, usize),
    order: Order,
}

const SHORT: Shape = Shape {
    keys: Length::Of(8),
    values: Length::Of(1),
};

const COUNTS: &[u64] = &[0, 1, 2, 3, 16, 17, 33, 1000];

const LIMITS: &[(usize, usize)] = &[(4, 4), (4, 5), (16, 16), (32, 128)];

const LENGTHS: &[usize] = &[0, 1, 22, 23, 240, 241, 308, 2287];

// How many pairs, and how long the keys and the values: all keys of one byte, and values about what a log in memory keeps apart.
const SHAPES: &[(u64, usize, usize)] = &[
    (256, 1, 1),
    (256, 1, 23),
    (17, 8, 512),
    (17, 8, 513),
    (33, 308, 512),
    (9, 0, 100_000),
    (9, 8, 100_000),
    (5, 308, 100_000),
];

// What takes the place of what was set first.
const SECOND: u64 = 2;

const THIRD: u64 = 300;

// The number of the key that is set in this place.
fn number_at(corner: &Corner, place: u64) -> u64 {
    let (last, middle) = (
        corner.count.saturating_sub(1),
        corner.count.saturating_sub(corner.count / 2),
    );
    match corner.order {
        Order::Rising => place,
        Order::Falling => last.saturating_sub(place),
        Order::Mixed if place < middle => place.saturating_mul(2),
        Order::Mixed => place
            .saturating_sub(middle)
            .saturating_mul(2)
            .saturating_add(1),
        Order::Equal => 0,
    }
}

// Whether all keys are set.
fn fills(alloc: Global, trees: &mut Trees<MemLog>, pair: &mut Pair, corner: &Corner) -> bool {
    for place in 0..corner.count {
        let number = number_at(corner, place);
        if !inserts(alloc, trees, pair, corner.shape, number, place) {
            return false;
        }
    }
    true
}

// Whether a key is set, set again, taken out and taken out again, each of which is seen, and is set in the end.
fn changes(
    alloc: Global,
    trees: &mut Trees<MemLog>,
    pair: &mut Pair,
    shape: Shape,
    number: u64,
) -> bool {
    for value in [SECOND, THIRD] {
        if !inserts(alloc, trees, pair, shape, number, value)
            || !gets(alloc, trees, pair, shape, number)
        {
            return false;
        }
    }
    for _ in 0..2 {
        if !removes(alloc, trees, pair, shape, number) || !gets(alloc, trees, pair, shape, number) {
            return false;
        }
    }
    inserts(alloc, trees, pair, shape, number, SECOND)
}

// Whether the first, the middle and the last key change so, and one behind all of them.
fn changes_all(alloc: Global, trees: &mut Trees<MemLog>, pair: &mut Pair, corner: &Corner) -> bool {
    let count = corner.count;
    for number in [0, count / 2, count.saturating_sub(1), count] {
        if !changes(alloc, trees, pair, corner.shape, number) {
            return false;
        }
    }
    true
}

// Whether look-ups in the order of the keys answer what they should: without bounds, and between the first, middle and last keys.
fn looks(alloc: Global, trees: &mut Trees<MemLog>, pair: &Pair, corner: &Corner) -> bool {
    let (middle, end) = (
        corner.count.saturating_add(2),
        corner.count.saturating_mul(2),
    );
    for from in [0, 2, 3, middle, end, end.saturating_add(1)] {
        for to in [0, 2, middle, end, end.saturating_add(3)] {
            if !agrees_between(alloc, corner.shape, trees, pair, from, to) {
                return false;
            }
        }
    }
    sums_agree(trees, pair)
}

// Whether all keys are taken out, and none is left.
fn empties(alloc: Global, trees: &mut Trees<MemLog>, pair: &mut Pair, corner: &Corner) -> bool {
    let end = corner.count.saturating_add(2);
    for number in 0..end {
        if !removes(alloc, trees, pair, corner.shape, number) {
            return false;
        }
    }
    gets_all(alloc, trees, pair, corner.shape, end) && looks(alloc, trees, pair, corner)
}

// Whether the pairs stand once the log was opened again, are taken out, and set once more.
fn stands(alloc: Global, trees: &mut Trees<MemLog>, pair: &mut Pair, corner: &Corner) -> bool {
    let end = corner.count.saturating_add(2);
    finds(trees, pair)
        && gets_all(alloc, trees, pair, corner.shape, end)
        && looks(alloc, trees, pair, corner)
        && empties(alloc, trees, pair, corner)
        && fills(alloc, trees, pair, corner)
        && looks(alloc, trees, pair, corner)
}

fn walks(alloc: Global, corner: &Corner) -> Option<bool> {
    let limits = Limits::new(corner.limits.0, corner.limits.1);
    let mut trees = opened(alloc, CONFIG, MemLog::new(alloc, 512, 16), limits)?;
    let mut pair = new_pair(alloc, &mut trees, b'c')?;
    let is_changed = fills(alloc, &mut trees, &mut pair, corner)
        && changes_all(alloc, &mut trees, &mut pair, corner);
    let mut trees = opened(alloc, CONFIG, log_of(trees)?, limits)?;
    Some(is_changed && stands(alloc, &mut trees, &mut pair, corner))
}

// How many orders of so many keys are right, before the first that isn't.
fn orders_walked(alloc: Global, count: u64, limits: (usize, usize)) -> usize {
    for (place, order) in ORDERS.iter().enumerate() {
        let corner = Corner {
            count,
            shape: SHORT,
            limits,
            order: *order,
        };
        if walks(alloc, &corner) != Some(true) {
            return place;
        }
    }
    ORDERS.len()
}

#[test]
fn maps_of_few_pairs_and_of_many(rt: HostRuntime) {
    for count in COUNTS {
        for limits in LIMITS {
            assert_eq!(rt;
                orders_walked(rt.alloc(), *count, *limits),
                ORDERS.len(),
                "{count} {limits:?}"
            );
        }
    }
}

fn shape_walks(alloc: Global, count: u64, keys: usize, values: usize) -> bool {
    let corner = Corner {
        count,
        shape: Shape {
            keys: Length::Of(keys),
            values: Length::Of(values),
        },
        limits: (4, 4),
        order: Order::Rising,
    };
    walks(alloc, &corner) == Some(true)
}

#[test]
fn short_keys_and_values_and_long_ones(rt: HostRuntime) {
    for keys in LENGTHS {
        for values in LENGTHS {
            assert!(rt;
                shape_walks(rt.alloc(), 17, *keys, *values),
                "{keys} {values}"
            );
        }
    }
    for (count, keys, values) in SHAPES {
        assert!(rt;
            shape_walks(rt.alloc(), *count, *keys, *values),
            "{count} {keys} {values}"
        );
    }
}
