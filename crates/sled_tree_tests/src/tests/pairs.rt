// A map beside a plain sorted map, by which each answer is judged.

use super::lengths::{Length, bytes_of};
use super::*;

pub(super) type Plain = BTreeMap<IVec, IVec>;

/// A map, and what it should have.
#[derive(Drop)]
pub(super) struct Pair {
    name: u8,
    pub tree: Tree,
    pub plain: Plain,
}

/// How long the keys and the values are.
#[derive(Clone, Copy)]
pub(super) struct Shape {
    pub keys: Length,
    pub values: Length,
}

fn tree_of(trees: &mut Trees<MemLog>, name: u8) -> Option<Tree> {
    trees.open(&[b'm', name]).ok()
}

/// The pages of the map, if each one is there.
pub(super) fn reached_in(alloc: Global, trees: &mut Trees<MemLog>, pair: &Pair) -> Option<Reached> {
    pages_of(alloc, trees, &[b'm', pair.name])
}

/// A new map. Opened again, it is the same.
pub(super) fn new_pair(alloc: Global, trees: &mut Trees<MemLog>, name: u8) -> Option<Pair> {
    let tree = tree_of(trees, name)?;
    if tree_of(trees, name)? != tree {
        return None;
    }
    let plain = Plain::new(alloc);
    Some(Pair { name, tree, plain })
}

/// The same map, once its log was opened again, and whether there is one.
pub(super) fn finds(trees: &mut Trees<MemLog>, pair: &mut Pair) -> bool {
    match tree_of(trees, pair.name) {
        Some(tree) => {
            pair.tree = tree;
            true
        }
        None => false,
    }
}

/// New maps, so many.
pub(super) fn new_pairs(alloc: Global, trees: &mut Trees<MemLog>, maps: u8) -> Option<Vec<Pair>> {
    let mut pairs = Vec::new(alloc);
    for name in 0..maps {
        pairs.push(new_pair(alloc, trees, name)?).ok()?;
    }
    Some(pairs)
}

/// Whether all maps are there once their log was opened again.
pub(super) fn finds_all(trees: &mut Trees<MemLog>, pairs: &mut [Pair]) -> bool {
    for pair in pairs {
        if !finds(trees, pair) {
            return false;
        }
    }
    true
}

// Whether a call answered this value.
fn is_value(answer: &Result<Option<IVec>, TreeError>, wanted: Option<&IVec>) -> bool {
    match (answer, wanted) {
        (Ok(None), None) => true,
        (Ok(Some(value)), Some(wanted)) => value == wanted,
        _ => false,
    }
}

/// Whether a key has the value that it should.
pub(super) fn gets(
    alloc: Global,
    trees: &mut Trees<MemLog>,
    pair: &Pair,
    shape: Shape,
    number: u64,
) -> bool {
    match bytes_of(alloc, shape.keys, number) {
        Ok(key) => gets_key(trees, pair, &key),
        Err(_) => false,
    }
}

fn gets_key(trees: &mut Trees<MemLog>, pair: &Pair, key: &IVec) -> bool {
    let wanted = pair.plain.get(key);
    is_value(&trees.get(pair.tree, key.as_slice()), wanted)
        && is_there(
            &trees.contains_key(pair.tree, key.as_slice()),
            wanted.is_some(),
        )
}

fn is_there(answer: &Result<bool, TreeError>, wanted: bool) -> bool {
    match answer {
        Ok(there) => *there == wanted,
        Err(_) => false,
    }
}

/// Whether all keys below this number have the values that they should.
pub(super) fn gets_all(
    alloc: Global,
    trees: &mut Trees<MemLog>,
    pair: &Pair,
    shape: Shape,
    end: u64,
) -> bool {
    for number in 0..end {
        if !gets(alloc, trees, pair, shape, number) {
            return false;
        }
    }
    true
}

/// Whether a key is set to the value of that number, and the value before is answered.
pub(super) fn inserts(
    alloc: Global,
    trees: &mut Trees<MemLog>,
    pair: &mut Pair,
    shape: Shape,
    number: u64,
    value: u64,
) -> bool {
    match (
        bytes_of(alloc, shape.keys, number),
        bytes_of(alloc, shape.values, value),
    ) {
        (Ok(key), Ok(value)) => inserts_key(trees, pair, key, value),
        _ => false,
    }
}

fn inserts_key(trees: &mut Trees<MemLog>, pair: &mut Pair, key: IVec, value: IVec) -> bool {
    let Ok(same) = value.clone() else {
        return false;
    };
    let answer = trees.insert(pair.tree, key.as_slice(), same);
    match pair.plain.insert(key, value) {
        Ok(before) => is_value(&answer, before.as_ref()),
        Err(_) => false,
    }
}

/// Whether a key is taken out, and the value is answered that it had.
pub(super) fn removes(
    alloc: Global,
    trees: &mut Trees<MemLog>,
    pair: &mut Pair,
    shape: Shape,
    number: u64,
) -> bool {
    match bytes_of(alloc, shape.keys, number) {
        Ok(key) => removes_key(trees, pair, &key),
        Err(_) => false,
    }
}

fn removes_key(trees: &mut Trees<MemLog>, pair: &mut Pair, key: &IVec) -> bool {
    let answer = trees.remove(pair.tree, key.as_slice());
    is_value(&answer, pair.plain.remove(key).as_ref())
}
