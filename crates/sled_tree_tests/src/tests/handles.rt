// What limits are, and what a token of another cache does.

use super::*;

// What is asked for, and what is taken in its place.
const LIMITS: &[(usize, usize)] = &[
    (0, 4),
    (3, 4),
    (4, 4),
    (5, 5),
    (65_535, 65_535),
    (65_536, 65_536),
    (65_537, 65_536),
    (usize::MAX, 65_536),
];

fn is_taken(asked: usize, taken: usize) -> bool {
    let (pairs, children) = (Limits::new(asked, 7), Limits::new(9, asked));
    pairs.pairs() == taken
        && pairs.children() == 7
        && children.pairs() == 9
        && children.children() == taken
}

#[test]
fn limits_have_bounds(rt: HostRuntime) {
    for (asked, taken) in LIMITS {
        assert!(rt; is_taken(*asked, *taken), "{asked}");
    }
    let usual = Limits::usual();
    assert_eq!(rt; (usual.pairs(), usual.children()), (32, 128));
}

fn new_maps(alloc: Global) -> Option<Trees<MemLog>> {
    let log = MemLog::new(alloc, 512, 16);
    match PageCache::start(alloc, CONFIG, log) {
        Ok(cache) => Some(Trees::new(alloc, cache)),
        Err(_) => None,
    }
}

// A token of the second map of a cache.
fn second_map(alloc: Global) -> Option<Tree> {
    let mut trees = new_maps(alloc)?;
    let first = trees.open(b"first").ok()?;
    let second = trees.open(b"second").ok()?;
    (first != second).then_some(second)
}

fn is_corrupt(error: &TreeError) -> bool {
    match error {
        TreeError::Cache(error) => *error == Error::Corruption(None),
        _ => false,
    }
}

fn is_refused(answer: &Result<Option<IVec>, TreeError>) -> bool {
    match answer {
        Ok(_) => false,
        Err(error) => is_corrupt(error),
    }
}

fn has_no_key(trees: &mut Trees<MemLog>, tree: Tree) -> bool {
    match trees.contains_key(tree, b"key") {
        Ok(_) => false,
        Err(error) => is_corrupt(&error),
    }
}

fn is_unknown(trees: &mut Trees<MemLog>, tree: Tree) -> bool {
    has_no_key(trees, tree)
        && is_refused(&trees.get(tree, b"key"))
        && is_refused(&trees.remove(tree, b"key"))
        && is_refused(&trees.insert(tree, b"key", IVec::from_front([7; 22], 5)))
}

// Whether a map that another cache has, and this one hasn't, is refused.
fn refuses_a_map(alloc: Global) -> Option<bool> {
    let tree = second_map(alloc)?;
    let mut trees = new_maps(alloc)?;
    trees.open(b"first").ok()?;
    Some(is_unknown(&mut trees, tree))
}

#[test]
fn a_token_of_another_cache_is_of_no_map(rt: HostRuntime) {
    assert_eq!(rt; refuses_a_map(rt.alloc()), Some(true));
}
