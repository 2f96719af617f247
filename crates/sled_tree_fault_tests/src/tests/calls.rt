// The calls of the list on maps over any log, and what the maps show.

use super::listed::{Call, KEYS, Outcome, Plain};
use super::*;
use std::ops::Bound;

// A name, a key or a value of more than 22 bytes takes memory.
const NAMES: [&[u8]; 2] = [b"m", b"a map whose name takes memory"];

const KEY_BYTES: [&[u8]; KEYS] = [
    b"",
    b"a",
    b"a key that takes memory, as b does not",
    b"b",
    b"c, which takes memory as well",
    b"d",
    b"e, which takes memory as well",
    b"e, which takes memory as well, and begins as the one before",
    b"f",
    b"g",
    b"h, which takes memory as well",
    b"i",
    b"j",
    b"k, which takes memory as well",
    b"l",
    b"m",
];

const NONE: &[u8] = b"";

/// The name of a map.
pub(super) fn name_of(map: usize) -> &'static [u8] {
    NAMES.get(map).copied().unwrap_or(NONE)
}

/// The bytes of a key.
pub(super) fn key_of(key: usize) -> &'static [u8] {
    KEY_BYTES.get(key).copied().unwrap_or(NONE)
}

// The bytes of a value that takes memory, if its number is even, and of another one.
fn bytes_of(value: u8) -> ([u8; 30], usize) {
    ([value; 30], if value % 2 == 0 { 30 } else { 3 })
}

// ---- what is answered

pub(super) fn outcome_of(error: &Error) -> Outcome {
    match error {
        Error::OutOfMemory => Outcome::Unmade,
        Error::Io(Device::Read) => Outcome::Unread,
        Error::Io(Device::Write) => Outcome::Faulty,
        Error::Unsupported(Why::BatchOpen) => Outcome::BatchOpen,
        _ => Outcome::Other,
    }
}

fn refused(error: &TreeError) -> Outcome {
    match error {
        TreeError::NoBatch => Outcome::NoBatch,
        TreeError::Cache(error) => outcome_of(error),
        _ => Outcome::Other,
    }
}

/// What a call answers that answers no value.
pub(super) fn answer_of<T>(answer: &Result<T, TreeError>) -> Outcome {
    match answer {
        Ok(_) => Outcome::Done,
        Err(error) => refused(error),
    }
}

fn value_of(found: &[u8]) -> Outcome {
    let Some(value) = found.first() else {
        return Outcome::Other;
    };
    let (bytes, length) = bytes_of(*value);
    if bytes.get(..length) == Some(found) {
        Outcome::Was(*value)
    } else {
        Outcome::Other
    }
}

fn answered(answer: &Result<Option<IVec>, TreeError>) -> Outcome {
    match answer {
        Ok(Some(found)) => value_of(found.as_slice()),
        Ok(None) => Outcome::Was(0),
        Err(error) => refused(error),
    }
}

// ---- the calls

fn tree_of<L: Log>(trees: &mut Trees<L>, map: usize) -> Result<Tree, Outcome> {
    match trees.open(name_of(map)) {
        Ok(tree) => Ok(tree),
        Err(error) => Err(refused(&error)),
    }
}

fn gets<L: Log>(trees: &mut Trees<L>, tree: Tree, key: usize) -> Outcome {
    answered(&trees.get(tree, key_of(key)))
}

fn removes<L: Log>(trees: &mut Trees<L>, tree: Tree, key: usize) -> Outcome {
    answered(&trees.remove(tree, key_of(key)))
}

fn inserts<L: Log>(
    alloc: Global,
    trees: &mut Trees<L>,
    tree: Tree,
    key: usize,
    value: u8,
) -> Outcome {
    let (bytes, length) = bytes_of(value);
    match IVec::from_slice(alloc, bytes.get(..length).unwrap_or(NONE)) {
        Ok(value) => answered(&trees.insert(tree, key_of(key), value)),
        Err(_) => Outcome::Unmade,
    }
}

fn asks<L: Log>(alloc: Global, trees: &mut Trees<L>, tree: Tree, call: &Call) -> Outcome {
    match *call {
        Call::Opens(_) => Outcome::Done,
        Call::Inserts(_, key, value) => inserts(alloc, trees, tree, key, value),
        Call::Removes(_, key) => removes(trees, tree, key),
        Call::Gets(_, key) => gets(trees, tree, key),
    }
}

/// Drops a map, and answers 1 where there was one, and 0 where not.
pub(super) fn drops<L: Log>(trees: &mut Trees<L>, map: usize) -> Outcome {
    match trees.drop_tree(name_of(map)) {
        Ok(was_there) => Outcome::Was(u8::from(was_there)),
        Err(error) => refused(&error),
    }
}

/// What a call answers. It opens its map first.
pub(super) fn answer<L: Log>(alloc: Global, trees: &mut Trees<L>, call: &Call) -> Outcome {
    let (Call::Opens(map) | Call::Inserts(map, _, _) | Call::Removes(map, _) | Call::Gets(map, _)) =
        *call;
    match tree_of(trees, map) {
        Ok(tree) => asks(alloc, trees, tree, call),
        Err(outcome) => outcome,
    }
}

// ---- what maps show

fn is_named<L: Log>(cache: &PageCache<L>, name: &[u8]) -> bool {
    cache.meta_pid_for_name(name).is_ok()
}

fn is_unnamed<L: Log>(cache: &PageCache<L>, name: &[u8]) -> bool {
    match cache.meta_pid_for_name(name) {
        Err(Error::CollectionNotFound(missing)) => missing.as_slice() == name,
        _ => false,
    }
}

fn has_values<L: Log>(trees: &mut Trees<L>, map: usize, values: &[u8; KEYS]) -> bool {
    let Ok(tree) = tree_of(trees, map) else {
        return false;
    };
    for (key, value) in values.iter().enumerate() {
        if gets(trees, tree, key) != Outcome::Was(*value) {
            return false;
        }
    }
    true
}

// The first key from this one on that has a value.
fn next_key(values: &[u8; KEYS], from: usize) -> Option<usize> {
    for (key, value) in values.iter().enumerate() {
        if key >= from && *value > 0 {
            return Some(key);
        }
    }
    None
}

// The key behind those of a piece, if its pairs are the next ones from this key on.
fn behind_piece(piece: &Piece, values: &[u8; KEYS], from: usize) -> Option<usize> {
    let mut next = from;
    for (found, value) in piece.pairs.iter() {
        let key = next_key(values, next)?;
        let wanted = values.get(key).copied()?;
        if found.as_slice() != key_of(key) || value_of(value.as_slice()) != Outcome::Was(wanted) {
            return None;
        }
        next = key.saturating_add(1);
    }
    Some(next)
}

fn count_of(values: &[u8; KEYS]) -> u64 {
    let mut count = 0u64;
    for value in values {
        count = count.saturating_add(u64::from(*value > 0));
    }
    count
}

// Whether all pieces from the first key on have these pairs alone, and as many are counted.
fn has_pieces<L: Log>(trees: &mut Trees<L>, map: usize, values: &[u8; KEYS]) -> bool {
    let Ok(tree) = tree_of(trees, map) else {
        return false;
    };
    let (mut from, mut next) = (Bound::Unbounded, 0usize);
    for _ in 0..KEYS + 1 {
        let Ok(piece) = trees.range(tree, &from, &Bound::Unbounded) else {
            return false;
        };
        let Some(behind) = behind_piece(&piece, values, next) else {
            return false;
        };
        next = behind;
        let Piece { pairs, rest } = piece;
        drop(pairs);
        let Some(start) = rest else {
            return next_key(values, next).is_none()
                && trees.len(tree).ok() == Some(count_of(values));
        };
        from = Bound::Included(start);
    }
    false
}

/// Whether all maps are there that should be, with the values that they should have, key by key and piece by piece. No map is made.
pub(super) fn is_plain<L: Log>(trees: &mut Trees<L>, plain: &Plain) -> bool {
    for (map, values) in plain.iter().enumerate() {
        let is_so = match values {
            Some(values) => {
                is_named(trees.cache(), name_of(map))
                    && has_values(trees, map, values)
                    && has_pieces(trees, map, values)
            }
            None => is_unnamed(trees.cache(), name_of(map)),
        };
        if !is_so {
            return false;
        }
    }
    true
}

// A value that the list has nowhere.
const SPARE: u8 = 99;

// Whether a call answers this. It is made again where an allocation or a read failed.
fn answers<L: Log>(alloc: Global, trees: &mut Trees<L>, call: &Call, wanted: Outcome) -> bool {
    let outcome = answer(alloc, trees, call);
    if matches!(outcome, Outcome::Unmade | Outcome::Unread) {
        return answer(alloc, trees, call) == wanted;
    }
    outcome == wanted
}

/// Whether the maps can be gone on with: each key is set once more, and taken out.
pub(super) fn goes_on<L: Log>(alloc: Global, trees: &mut Trees<L>, plain: &Plain) -> bool {
    for (map, values) in plain.iter().enumerate() {
        if let Some(values) = values {
            if !sets_all(alloc, trees, map, values) || !empties(alloc, trees, map) {
                return false;
            }
        }
    }
    true
}

// Whether the map has these pairs. A read that fails, or a refused allocation, may fall in the first try.
fn shows<L: Log>(trees: &mut Trees<L>, map: usize, values: &[u8; KEYS]) -> bool {
    has_pieces(trees, map, values) || has_pieces(trees, map, values)
}

/// Whether each key of a map that has these values can be set once more.
pub(super) fn sets_all<L: Log>(
    alloc: Global,
    trees: &mut Trees<L>,
    map: usize,
    values: &[u8; KEYS],
) -> bool {
    for (key, value) in values.iter().enumerate() {
        let call = Call::Inserts(map, key, SPARE);
        if !answers(alloc, trees, &call, Outcome::Was(*value)) {
            return false;
        }
    }
    shows(trees, map, &[SPARE; KEYS])
}

/// Whether the keys of a map that were set so can be taken out.
pub(super) fn empties<L: Log>(alloc: Global, trees: &mut Trees<L>, map: usize) -> bool {
    for key in 0..KEYS {
        if !answers(alloc, trees, &Call::Removes(map, key), Outcome::Was(SPARE)) {
            return false;
        }
    }
    shows(trees, map, &[0; KEYS])
}
