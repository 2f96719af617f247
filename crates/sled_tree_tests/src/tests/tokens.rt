// Tokens of maps that aren't there: of a map that was dropped, whose pages are free or are used again, and of another cache.
//
// Such a call may read or change another map. So a test of changing calls asks for answers, for names that stay, and for maps that can be
// called, and not for what is in them.

use super::lengths::Length;
use super::pairs::{Pair, Shape, gets_all, inserts, new_pair};
use super::*;
use std::ops::Bound;

const SHAPE: Shape = Shape {
    keys: Length::Of(8),
    values: Length::Of(3),
};

// How many calls there are that read, and how many in all.
const READS: u64 = 9;

const CALLS: u64 = 13;

/// What a call told.
#[derive(Clone, Copy, PartialEq, Eq)]
enum Told {
    Answer,
    // that the token is of no map
    Nothing,
    Failed,
}

fn told_by<T>(answer: &Result<T, TreeError>) -> Told {
    match answer {
        Ok(_) => Told::Answer,
        Err(error) => refused(error),
    }
}

fn refused(error: &TreeError) -> Told {
    match error {
        TreeError::Cache(error) => told_of(error),
        _ => Told::Failed,
    }
}

fn told_of(error: &Error) -> Told {
    if *error == Error::Corruption(None) {
        Told::Nothing
    } else {
        Told::Failed
    }
}

fn key_told(trees: &mut Trees<MemLog>, tree: Tree, call: u64, key: &[u8]) -> Told {
    match call {
        0 => told_by(&trees.get(tree, key)),
        1 => told_by(&trees.contains_key(tree, key)),
        2 => told_by(&trees.first(tree)),
        _ => told_by(&trees.last(tree)),
    }
}

fn sum_told(trees: &mut Trees<MemLog>, tree: Tree, call: u64) -> Told {
    let bound = Bound::Unbounded;
    match call {
        4 => told_by(&trees.next_above(tree, &bound)),
        5 => told_by(&trees.next_below(tree, &bound)),
        6 => told_by(&trees.range(tree, &bound, &bound)),
        7 => told_by(&trees.len(tree)),
        _ => told_by(&trees.is_empty(tree)),
    }
}

fn read_told(trees: &mut Trees<MemLog>, tree: Tree, call: u64, key: &[u8]) -> Told {
    if call < 4 {
        key_told(trees, tree, call, key)
    } else {
        sum_told(trees, tree, call)
    }
}

fn change_told(trees: &mut Trees<MemLog>, tree: Tree, call: u64, key: &[u8]) -> Told {
    let value = IVec::from_front([7; 22], 5);
    match call {
        0 => told_by(&trees.insert(tree, key, value)),
        1 => told_by(&trees.remove(tree, key)),
        2 => told_by(&trees.compare_and_swap(tree, key, None, Some(value))),
        _ => told_by(&trees.compare_and_swap(tree, key, Some(value.as_slice()), None)),
    }
}

fn call_told(trees: &mut Trees<MemLog>, tree: Tree, call: u64, key: &[u8]) -> Told {
    match call.checked_sub(READS) {
        None => read_told(trees, tree, call, key),
        Some(change) => change_told(trees, tree, change, key),
    }
}

// Whether each call tells that the token is of no map.
fn is_of_none(trees: &mut Trees<MemLog>, tree: Tree) -> bool {
    for call in 0..CALLS {
        if call_told(trees, tree, call, b"\0\0\0\0\0\0\0\x07") != Told::Nothing {
            return false;
        }
    }
    true
}

fn fills(alloc: Global, trees: &mut Trees<MemLog>, pair: &mut Pair, from: u64, to: u64) -> bool {
    for number in from..to {
        if !inserts(alloc, trees, pair, SHAPE, number, number) {
            return false;
        }
    }
    true
}

// A new map of so many pairs.
fn filled(alloc: Global, trees: &mut Trees<MemLog>, name: u8, count: u64) -> Option<Pair> {
    let mut pair = new_pair(alloc, trees, name)?;
    fills(alloc, trees, &mut pair, 0, count).then_some(pair)
}

fn new_maps(alloc: Global) -> Option<Trees<MemLog>> {
    opened(
        alloc,
        CONFIG,
        MemLog::new(alloc, 512, 16),
        Limits::new(4, 4),
    )
}

// A map of so many pairs, and the token of another one beside it.
#[derive(Drop)]
struct Beside {
    trees: Trees<MemLog>,
    pair: Pair,
    token: Tree,
}

fn maps_beside(alloc: Global, first: u64, second: u64) -> Option<Beside> {
    let mut trees = new_maps(alloc)?;
    let pair = filled(alloc, &mut trees, 0, first)?;
    let token = filled(alloc, &mut trees, 1, second)?.tree;
    Some(Beside { trees, pair, token })
}

fn drops(trees: &mut Trees<MemLog>) -> bool {
    trees.drop_tree(b"m\x01") == Ok(true)
}

// Whether no call by the token of another cache, which has no such page here, finds a map or changes one.
fn refuses_others(alloc: Global, count: u64) -> bool {
    match (maps_beside(alloc, 40, count), maps_beside(alloc, 0, 0)) {
        (Some(other), Some(mut here)) => {
            drops(&mut here.trees) && is_of_none(&mut here.trees, other.token)
        }
        _ => false,
    }
}

// Whether no call by the token of a dropped map finds a map, or changes one, while its pages are free.
fn refuses_dropped(alloc: Global, count: u64) -> bool {
    match maps_beside(alloc, 40, count) {
        Some(mut maps) => {
            drops(&mut maps.trees)
                && is_of_none(&mut maps.trees, maps.token)
                && gets_all(alloc, &mut maps.trees, &maps.pair, SHAPE, 40)
        }
        None => false,
    }
}

#[test]
fn a_token_of_no_map_is_refused(rt: HostRuntime) {
    for count in [0, 3, 40] {
        assert!(rt; refuses_others(rt.alloc(), count), "{count}");
        assert!(rt; refuses_dropped(rt.alloc(), count), "{count}");
    }
}

fn reads_all(trees: &mut Trees<MemLog>, token: Tree) {
    for call in 0..READS {
        let _ = call_told(trees, token, call, b"key");
    }
}

// Whether no call that reads changes a map that takes the pages of a dropped one.
fn grows(alloc: Global, trees: &mut Trees<MemLog>, pair: &mut Pair, token: Tree, end: u64) -> bool {
    for number in 9..end {
        if !fills(alloc, trees, pair, number, number.saturating_add(1)) {
            return false;
        }
        reads_all(trees, token);
    }
    gets_all(alloc, trees, pair, SHAPE, end)
}

fn grows_beside(alloc: Global, count: u64) -> bool {
    match maps_beside(alloc, 9, count) {
        Some(mut maps) => {
            let end = count.saturating_add(20);
            drops(&mut maps.trees) && grows(alloc, &mut maps.trees, &mut maps.pair, maps.token, end)
        }
        None => false,
    }
}

#[test]
fn a_reading_call_by_an_old_token_changes_no_map(rt: HostRuntime) {
    for count in [0, 1, 5, 40] {
        assert!(rt; grows_beside(rt.alloc(), count), "{count}");
    }
}

// ---- random calls by old tokens

const NAMES: [&[u8]; 3] = [b"a", b"b", b"c"];

const SEEDS: u64 = 4;

const STEPS: u64 = 400;

fn one_of(tokens: &[Tree], random: &mut Random) -> Option<Tree> {
    tokens
        .get(random.below(tokens.len() as u64) as usize)
        .copied()
}

// The next step: a map is opened or dropped, or a call is made by a token of before. Answers whether that is known to be right.
fn goes(trees: &mut Trees<MemLog>, tokens: &mut Vec<Tree>, random: &mut Random) -> bool {
    let name = NAMES.get(random.below(3) as usize).copied().unwrap_or(b"");
    let key = [(random.below(20) % 256) as u8];
    match random.below(30) {
        0 => opens(trees, tokens, name),
        1 => trees.drop_tree(name).is_ok(),
        _ => match one_of(tokens, random) {
            Some(tree) => call_told(trees, tree, random.below(CALLS), &key) != Told::Failed,
            None => opens(trees, tokens, name),
        },
    }
}

fn opens(trees: &mut Trees<MemLog>, tokens: &mut Vec<Tree>, name: &[u8]) -> bool {
    match trees.open(name) {
        Ok(tree) => tokens.push(tree).is_ok(),
        Err(_) => false,
    }
}

// How many steps are told nothing but that a token is of no map, before the first that is told otherwise.
fn steps_gone(alloc: Global, seed: u64) -> Option<u64> {
    let mut random = Random::new(seed);
    let mut trees = new_maps(alloc)?;
    let mut tokens = Vec::new(alloc);
    for step in 0..STEPS {
        if !goes(&mut trees, &mut tokens, &mut random) {
            return Some(step);
        }
    }
    Some(STEPS)
}

#[test]
fn calls_by_old_tokens_end(rt: HostRuntime) {
    for seed in 0..SEEDS {
        assert_eq!(rt; steps_gone(rt.alloc(), seed), Some(STEPS), "{seed}");
    }
}
