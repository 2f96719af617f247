// Lists of random calls, whose answers are those of a plain sorted map. The log is opened again in between.

use super::lengths::Length;
use super::pairs::{Pair, Shape, finds_all, gets, gets_all, inserts, new_pairs, removes};
use super::swaps::{Near, Old, Swap, swaps};
use super::*;

// Which key comes next.
#[derive(Clone, Copy)]
enum Order {
    Any,
    Rising,
    Falling,
}

// What a list is made of.
#[derive(Clone, Copy)]
struct List {
    seed: u64,
    // it has so many openings, of so many calls each
    openings: u64,
    calls: u64,
    // keys are of numbers below it
    space: u64,
    order: Order,
    shape: Shape,
    // of so many more calls than ten this many take a key out
    removes: u64,
    // how many pairs and children before a split
    pairs: usize,
    children: usize,
    maps: u8,
    is_small: bool,
}

// up to eight bytes
const VALUES: Length = Length::Below(9);

const LIST: List = List {
    seed: 1,
    openings: 8,
    calls: 90,
    space: 300,
    order: Order::Any,
    shape: Shape {
        keys: Length::Of(8),
        values: VALUES,
    },
    removes: 3,
    pairs: 4,
    children: 4,
    maps: 1,
    is_small: false,
};

// Keys of which some begin others, and the empty one.
const MIXED: Shape = Shape {
    keys: Length::Below(5),
    values: VALUES,
};

// Keys of one byte, and values about what a log in memory keeps apart.
const BYTES: Shape = Shape {
    keys: Length::Of(1),
    values: Length::Below(600),
};

// Keys that have their first 300 bytes in common.
const LONG: Shape = Shape {
    keys: Length::Of(308),
    values: VALUES,
};

const LISTS: &[List] = &[
    LIST,
    List {
        seed: 2,
        maps: 3,
        ..LIST
    },
    List {
        seed: 3,
        space: 1000,
        removes: 0,
        ..LIST
    },
    List {
        seed: 4,
        shape: MIXED,
        ..LIST
    },
    List {
        seed: 5,
        shape: MIXED,
        space: 40,
        removes: 8,
        ..LIST
    },
    List {
        seed: 6,
        shape: LONG,
        maps: 2,
        ..LIST
    },
    List {
        seed: 7,
        is_small: true,
        maps: 2,
        ..LIST
    },
    List {
        seed: 8,
        space: 2000,
        openings: 15,
        calls: 100,
        removes: 1,
        pairs: 8,
        children: 5,
        ..LIST
    },
    List {
        seed: 9,
        space: 5000,
        openings: 5,
        calls: 600,
        removes: 0,
        pairs: 32,
        children: 128,
        ..LIST
    },
    List {
        seed: 13,
        shape: BYTES,
        space: 256,
        ..LIST
    },
    List {
        seed: 14,
        shape: LONG,
        order: Order::Rising,
        removes: 8,
        is_small: true,
        ..LIST
    },
    // equal keys, rising ones and falling ones
    List {
        seed: 10,
        space: 1,
        ..LIST
    },
    List {
        seed: 11,
        order: Order::Rising,
        ..LIST
    },
    List {
        seed: 12,
        order: Order::Falling,
        is_small: true,
        ..LIST
    },
];

// The number of the next key.
fn next_key(list: &List, random: &mut Random, call: u64) -> u64 {
    let risen = call.checked_rem(list.space).unwrap_or(0);
    match list.order {
        Order::Any => random.below(list.space),
        Order::Rising => risen,
        Order::Falling => list.space.saturating_sub(1).saturating_sub(risen),
    }
}

// The next swap: of each of these old values the new one is none a third of the times.
fn next_swap(random: &mut Random, value: u64) -> Swap {
    let old = match random.below(8) {
        0 | 1 => Old::Missing,
        2 => Old::Of(random.below(100_000)),
        3 => Old::Near(Near::LastByte),
        4 => Old::Near(Near::Longer),
        5 => Old::Near(Near::Shorter),
        _ => Old::Present,
    };
    let new = if random.below(3) == 0 {
        None
    } else {
        Some(value)
    };
    Swap { old, new }
}

// Whether the next call is answered as the plain map answers it.
fn agrees(
    alloc: Global,
    list: &List,
    random: &mut Random,
    call: u64,
    trees: &mut Trees<MemLog>,
    pair: &mut Pair,
) -> bool {
    let number = next_key(list, random, call);
    let value = random.below(100_000);
    match random.below(list.removes.saturating_add(10)) {
        0 => gets(alloc, trees, pair, list.shape, number),
        1..4 => {
            let swap = next_swap(random, value);
            swaps(alloc, trees, pair, list.shape, number, swap)
        }
        4..10 => inserts(alloc, trees, pair, list.shape, number, value),
        _ => removes(alloc, trees, pair, list.shape, number),
    }
}

// How many calls are answered so, from this one on, before the first that isn't.
fn agreed(
    alloc: Global,
    list: &List,
    random: &mut Random,
    first: u64,
    trees: &mut Trees<MemLog>,
    pairs: &mut [Pair],
) -> u64 {
    for call in 0..list.calls {
        let which = random.below(pairs.len() as u64) as usize;
        let Some(pair) = pairs.get_mut(which) else {
            return call;
        };
        if !agrees(alloc, list, random, first.saturating_add(call), trees, pair) {
            return call;
        }
    }
    list.calls
}

// Whether all maps have what they should.
fn are_same(alloc: Global, list: &List, trees: &mut Trees<MemLog>, pairs: &[Pair]) -> bool {
    for pair in pairs {
        if !gets_all(alloc, trees, pair, list.shape, list.space) {
            return false;
        }
    }
    true
}

fn opened_for(alloc: Global, list: &List, log: MemLog) -> Option<Trees<MemLog>> {
    let config = if list.is_small { SMALL } else { CONFIG };
    opened(alloc, config, log, Limits::new(list.pairs, list.children))
}

// How many calls of a list are answered as plain maps answer them, before the first that isn't.
fn calls_agreed(alloc: Global, list: &List) -> Option<u64> {
    let mut random = Random::new(list.seed);
    let mut trees = opened_for(alloc, list, MemLog::new(alloc, 512, 16))?;
    let mut pairs = new_pairs(alloc, &mut trees, list.maps)?;
    let mut calls = 0u64;
    for _ in 0..list.openings {
        let agreed = agreed(alloc, list, &mut random, calls, &mut trees, &mut pairs);
        calls = calls.saturating_add(agreed);
        if agreed < list.calls {
            return Some(calls);
        }
        trees = opened_for(alloc, list, log_of(trees)?)?;
        if !finds_all(&mut trees, &mut pairs) {
            return None;
        }
    }
    are_same(alloc, list, &mut trees, &pairs).then_some(calls)
}

#[test]
fn answers_are_those_of_a_sorted_map(rt: HostRuntime) {
    for list in LISTS {
        let all = list.openings.saturating_mul(list.calls);
        assert_eq!(rt;
            calls_agreed(rt.alloc(), list),
            Some(all),
            "seed {}",
            list.seed
        );
    }
}
