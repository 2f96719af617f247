// Maps of few names and of many, of short names and long ones: each is there, by its own token, once it was opened and until it is dropped.

use super::lengths::{Length, bytes_of};
use super::*;

// How many names, and how long each.
const ROWS: &[(u64, usize)] = &[
    (0, 0),
    (1, 0),
    (1, 1),
    (17, 1),
    (256, 1),
    (17, 22),
    (17, 23),
    (1, 255),
    (17, 255),
    (300, 22),
    (300, 23),
    (300, 255),
    (17, 308),
];

// The key of each map whose value tells the number of its name.
const KEY: &[u8] = b"key";

fn name_of(alloc: Global, length: usize, number: u64) -> Option<IVec> {
    bytes_of(alloc, Length::Of(length), number).ok()
}

// The map of a name, which other calls find too.
fn tree_of(alloc: Global, trees: &mut Trees<MemLog>, length: usize, number: u64) -> Option<Tree> {
    let name = name_of(alloc, length, number)?;
    let tree = trees.open(name.as_slice()).ok()?;
    let is_found = trees.get_tree(name.as_slice()).ok() == Some(Some(tree))
        && trees.open(name.as_slice()).ok() == Some(tree);
    is_found.then_some(tree)
}

// Whether a map has had nothing, and has the number of its name now.
fn sets(alloc: Global, trees: &mut Trees<MemLog>, tree: Tree, number: u64) -> bool {
    match bytes_of(alloc, Length::Of(8), number) {
        Ok(value) => matches!(trees.insert(tree, KEY, value), Ok(None)),
        Err(_) => false,
    }
}

// Whether a map has the number of its name.
fn has(alloc: Global, trees: &mut Trees<MemLog>, tree: Tree, number: u64) -> bool {
    match (trees.get(tree, KEY), bytes_of(alloc, Length::Of(8), number)) {
        (Ok(Some(value)), Ok(wanted)) => value == wanted,
        _ => false,
    }
}

// Whether all maps are made.
fn makes_all(alloc: Global, trees: &mut Trees<MemLog>, count: u64, length: usize) -> bool {
    for number in 0..count {
        let Some(tree) = tree_of(alloc, trees, length, number) else {
            return false;
        };
        if !sets(alloc, trees, tree, number) {
            return false;
        }
    }
    true
}

// Which of the maps are there.
#[derive(Clone, Copy)]
enum Kept {
    All,
    Even,
    Nothing,
}

fn is_kept(kept: Kept, number: u64) -> bool {
    match kept {
        Kept::All => true,
        Kept::Even => number % 2 == 0,
        Kept::Nothing => false,
    }
}

// Whether these are the names that are kept, in their order, which is that of their numbers.
fn are_kept(alloc: Global, names: &[IVec], count: u64, length: usize, kept: Kept) -> bool {
    let mut place = 0usize;
    for number in 0..count {
        if is_kept(kept, number) {
            match (names.get(place), name_of(alloc, length, number)) {
                (Some(name), Some(wanted)) if *name == wanted => place = place.saturating_add(1),
                _ => return false,
            }
        }
    }
    place == names.len()
}

fn has_names(alloc: Global, trees: &Trees<MemLog>, count: u64, length: usize, kept: Kept) -> bool {
    match trees.names() {
        Ok(names) => are_kept(alloc, &names, count, length, kept),
        Err(_) => false,
    }
}

// Whether each map that is kept has what was put there.
fn has_values(
    alloc: Global,
    trees: &mut Trees<MemLog>,
    count: u64,
    length: usize,
    kept: Kept,
) -> bool {
    for number in 0..count {
        if is_kept(kept, number) {
            let Some(tree) = tree_of(alloc, trees, length, number) else {
                return false;
            };
            if !has(alloc, trees, tree, number) {
                return false;
            }
        }
    }
    true
}

// Whether there was a map of this name as it should be, and there is none now.
fn drops(alloc: Global, trees: &mut Trees<MemLog>, length: usize, number: u64, was: bool) -> bool {
    match name_of(alloc, length, number) {
        Some(name) => {
            trees.drop_tree(name.as_slice()) == Ok(was)
                && trees.get_tree(name.as_slice()) == Ok(None)
                && trees.drop_tree(name.as_slice()) == Ok(false)
        }
        None => false,
    }
}

// Whether all maps are dropped but those that are kept.
fn drops_others(
    alloc: Global,
    trees: &mut Trees<MemLog>,
    count: u64,
    length: usize,
    (were, kept): (Kept, Kept),
) -> bool {
    for number in 0..count {
        if !is_kept(kept, number) && !drops(alloc, trees, length, number, is_kept(were, number)) {
            return false;
        }
    }
    true
}

// The maps once more, in which those are that are kept, before the log was opened again and behind that.
fn again(
    alloc: Global,
    trees: Trees<MemLog>,
    count: u64,
    length: usize,
    kept: Kept,
) -> Option<Trees<MemLog>> {
    if !has_names(alloc, &trees, count, length, kept) {
        return None;
    }
    let mut trees = opened(alloc, CONFIG, log_of(trees)?, Limits::usual())?;
    let is_so = has_names(alloc, &trees, count, length, kept)
        && has_values(alloc, &mut trees, count, length, kept)
        && has_names(alloc, &trees, count, length, kept);
    is_so.then_some(trees)
}

// Whether maps are made, each second one is dropped, then the others are, and all are made again, and the names tell each time which are
// there.
fn walks(alloc: Global, count: u64, length: usize) -> Option<bool> {
    let log = MemLog::new(alloc, 512, 16);
    let mut trees = opened(alloc, CONFIG, log, Limits::usual())?;
    let mut were = Kept::Nothing;
    let mut is_so = makes_all(alloc, &mut trees, count, length);
    for kept in [Kept::All, Kept::Even, Kept::Nothing] {
        is_so = is_so && drops_others(alloc, &mut trees, count, length, (were, kept));
        trees = again(alloc, trees, count, length, kept)?;
        were = kept;
    }
    is_so = is_so && makes_all(alloc, &mut trees, count, length);
    Some(is_so && again(alloc, trees, count, length, Kept::All).is_some())
}

#[test]
fn maps_are_found_by_their_names(rt: HostRuntime) {
    for (count, length) in ROWS {
        assert_eq!(rt;
            walks(rt.alloc(), *count, *length),
            Some(true),
            "{count} {length}"
        );
    }
}
