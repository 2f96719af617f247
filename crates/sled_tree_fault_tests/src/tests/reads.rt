// A read that fails within a call that looks something up or drops a map: it is answered as one, and the next call as if there had been none.

use super::calls::{answer, key_of, name_of, outcome_of};
use super::listed::{Call, KEYS, Outcome};
use super::*;
use std::ops::Bound;

type Disked = Trees<DiskLog<MemDisk>>;

/// A call on a map that has all keys.
#[derive(Clone, Copy, Debug)]
enum Look {
    Gets,
    Contains,
    First,
    Last,
    Above,
    Below,
    Range,
    Counts,
    Empty,
    Drops,
}

const LOOKS: &[Look] = &[
    Look::Gets,
    Look::Contains,
    Look::First,
    Look::Last,
    Look::Above,
    Look::Below,
    Look::Range,
    Look::Counts,
    Look::Empty,
    Look::Drops,
];

// Calls and bounds are of this key.
const PLACE: usize = 7;

fn opened_on(alloc: Global, disk: MemDisk) -> Option<Disked> {
    let log = DiskLog::open(alloc, disk, 512, 0).ok()?;
    let cache = PageCache::start(alloc, SMALL, log).ok()?;
    Some(Trees::with_limits(alloc, cache, Limits::new(4, 4)))
}

// A disk on which the map has all keys.
fn filled(alloc: Global) -> Option<MemDisk> {
    let mut disk = MemDisk::new(alloc, 1 << 16).ok()?;
    DiskLog::create(&mut disk).ok()?;
    let mut trees = opened_on(alloc, disk)?;
    for key in 0..KEYS {
        if answer(alloc, &mut trees, &Call::Inserts(0, key, 2)) != Outcome::Was(0) {
            return None;
        }
    }
    trees.flush().ok()?;
    log_of(trees).map(DiskLog::into_disk)
}

fn has_key(pair: Option<(IVec, IVec)>, key: usize) -> bool {
    match pair {
        Some((found, _)) => found.as_slice() == key_of(key),
        None => false,
    }
}

fn begins_with(piece: &Piece, key: usize) -> bool {
    match piece.pairs.first() {
        Some((found, _)) => found.as_slice() == key_of(key),
        None => false,
    }
}

// Whether a call that looks next to the bound of a key answers what the map has.
fn is_beside(alloc: Global, trees: &mut Disked, tree: Tree, look: Look) -> Result<bool, TreeError> {
    let bound = Bound::Excluded(IVec::from_slice(alloc, key_of(PLACE))?);
    match look {
        Look::Above => Ok(has_key(trees.next_above(tree, &bound)?, PLACE + 1)),
        Look::Below => Ok(has_key(trees.next_below(tree, &bound)?, PLACE - 1)),
        _ => {
            let piece = trees.range(tree, &bound, &Bound::Unbounded)?;
            Ok(begins_with(&piece, PLACE + 1))
        }
    }
}

// Whether a call answers what the map has.
fn is_right(alloc: Global, trees: &mut Disked, tree: Tree, look: Look) -> Result<bool, TreeError> {
    match look {
        Look::Gets => Ok(trees.get(tree, key_of(PLACE))?.is_some()),
        Look::Contains => trees.contains_key(tree, key_of(PLACE)),
        Look::First => Ok(has_key(trees.first(tree)?, 0)),
        Look::Last => Ok(has_key(trees.last(tree)?, KEYS - 1)),
        Look::Above | Look::Below | Look::Range => is_beside(alloc, trees, tree, look),
        Look::Counts => Ok(trees.len(tree)? == KEYS as u64),
        Look::Empty => Ok(!trees.is_empty(tree)?),
        Look::Drops => trees.drop_tree(name_of(0)),
    }
}

/// What came of a call in which the n-th read fails.
#[derive(Clone, Copy, PartialEq)]
enum Came {
    // the read came before the call
    Elsewhere,
    // it was answered as a read that failed, and then as it should be
    Failed,
    // there were fewer reads
    Never,
    Wrong,
}

fn is_unread(error: &TreeError) -> bool {
    match error {
        TreeError::Cache(error) => outcome_of(error) == Outcome::Unread,
        _ => false,
    }
}

fn came_of(alloc: Global, trees: &mut Disked, look: Look) -> Option<Came> {
    let tree = trees.get_tree(name_of(0)).ok()??;
    let first = is_right(alloc, trees, tree, look);
    if trees.cache().log().disk().failed_reads() == 0 {
        return (first.ok() == Some(true)).then_some(Came::Never);
    }
    match first {
        Ok(is_right) => is_right.then_some(Came::Elsewhere),
        Err(error) => {
            let second = is_right(alloc, trees, tree, look);
            (is_unread(&error) && second.ok() == Some(true)).then_some(Came::Failed)
        }
    }
}

// The same, where a disk whose opening meets the read is opened no more.
fn what_came(alloc: Global, look: Look, unread: u64) -> Came {
    let Some(mut disk) = filled(alloc) else {
        return Came::Wrong;
    };
    disk.fail_read(unread);
    match opened_on(alloc, disk) {
        Some(mut trees) => came_of(alloc, &mut trees, look).unwrap_or(Came::Wrong),
        None => Came::Elsewhere,
    }
}

const MOST_READS: u64 = 200;

// How many reads of a call failed, each of which was answered as it should be.
fn failed_in(alloc: Global, look: Look) -> Option<u64> {
    let mut failed = 0u64;
    for unread in 1..MOST_READS {
        match what_came(alloc, look, unread) {
            Came::Elsewhere => {}
            Came::Failed => failed = failed.saturating_add(1),
            Came::Never => return Some(failed),
            Came::Wrong => return None,
        }
    }
    None
}

// Each call reads the root, an index and a leaf at least.
#[test]
fn a_failed_read_is_answered_as_one(rt: HostRuntime) {
    for look in LOOKS {
        let failed = failed_in(rt.alloc(), *look);
        assert!(rt;
            failed.is_some_and(|reads| reads > 1),
            "{failed:?} {look:?}"
        );
    }
}
