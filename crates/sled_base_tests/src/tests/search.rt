ghost use Rattle.std.specs.Prelude.{◌≡◌, ◌<◌, ◌∷◌, [], length, IfOk, map};
ghost use Rattle.sled_base.specs.Searches.{IsSorted};

use super::joined;
use sled_base::IVec;
use sled_base::prefix::{binary_search, binary_search_lub};
use sled_base::search::{count_at_most, is_sorted, last_at_most, last_equal};
use std::alloc::{AllocError, Global};
use std::test::Fail;

// Pairs with the keys [1], [1] and [3].
fn three_pairs(alloc: Global) -> Result<[(IVec, u8); 3], AllocError>
    ensures { IfOk result (λ pairs. map (λ pair. pair.0) pairs ≡ (1 ∷ []) ∷ (1 ∷ []) ∷ (3 ∷ []) ∷ []) }
{
    Ok([
        (IVec::from_slice(alloc, &[1])?, 10),
        (IVec::from_slice(alloc, &[1])?, 20),
        (IVec::from_slice(alloc, &[3])?, 30),
    ])
}

// How many pairs aren't above the key, the last of them, and the last that equals it or how many are below.
type InPairs = (usize, Option<usize>, Result<usize, usize>);

fn are_found_in_pairs(alloc: Global, key: &[u8], wanted: &InPairs) -> Result<bool, AllocError> {
    let pairs = three_pairs(alloc)?;
    Ok(
        count_at_most(key, &pairs) == wanted.0
            && last_at_most(key, &pairs) == wanted.1
            && last_equal(key, &pairs) == wanted.2,
    )
}

// ---- sorted lists

fn strings(alloc: Global, rows: &[&[u8]]) -> Result<Vec<IVec>, AllocError> {
    let mut strings = Vec::new(alloc);
    for row in rows {
        strings.push(IVec::from_slice(alloc, row)?)?;
    }
    Ok(strings)
}

fn sorts(alloc: Global, keys: &[&[u8]], sorted: bool) -> Result<bool, AllocError> {
    Ok(is_sorted(&strings(alloc, keys)?) == sorted)
}

// The last key that isn't above, and the last that equals it or how many are below.
type InKeys = (Option<usize>, Result<usize, usize>);

fn are_found_in_keys(
    alloc: Global,
    keys: &[&[u8]],
    key: &[u8],
    wanted: &InKeys,
) -> Result<bool, AllocError> {
    let keys = strings(alloc, keys)?;
    Ok(
        is_sorted(&keys)
            && binary_search_lub(key, &keys) == wanted.0
            && binary_search(key, &keys) == wanted.1,
    )
}

// ---- each length

// The key at a place: eight bytes of the place, and the tail.
fn key_at(alloc: Global, tail: &[u8], place: usize) -> Result<IVec, AllocError> {
    let key = joined(alloc, &(place as u64).to_be_bytes(), tail)?;
    IVec::from_vec(alloc, key)
}

// So many keys, each of them twice. The keys between two of them are absent.
fn doubled(alloc: Global, tail: &[u8], count: usize) -> Result<Vec<IVec>, AllocError> {
    let mut keys = Vec::new(alloc);
    for i in 0..count {
        keys.push(key_at(alloc, tail, i | 1)?)?;
    }
    Ok(keys)
}

// Whether the key of the item is found at its greatest place, and the absent key above it isn't found behind that.
fn is_found(alloc: Global, tail: &[u8], keys: &[IVec], i: usize) -> Result<bool, AllocError>
    requires sorted { IsSorted keys.now }
    requires some { i < length keys.now }
{
    let last = (i | 1).min(keys.len() - 1);
    let (key, above) = (
        key_at(alloc, tail, i | 1)?,
        key_at(alloc, tail, (i | 1).saturating_add(1))?,
    );
    let is_there = binary_search(key.as_slice(), keys) == Ok(last)
        && binary_search_lub(key.as_slice(), keys) == Some(last);
    let is_absent = binary_search(above.as_slice(), keys) == Err(last + 1)
        && binary_search_lub(above.as_slice(), keys) == Some(last);
    Ok(is_there && is_absent)
}

fn are_found(alloc: Global, tail: &[u8], count: usize) -> Result<bool, AllocError> {
    let keys = doubled(alloc, tail, count)?;
    let lowest = key_at(alloc, tail, 0)?;
    if !is_sorted(&keys) || binary_search(lowest.as_slice(), &keys) != Err(0) {
        return Ok(false);
    }
    for i in 0..keys.len() {
        if !is_found(alloc, tail, &keys, i)? {
            return Ok(false);
        }
    }
    Ok(keys.len() == count)
}

fn are_found_at_each_length(alloc: Global, tail: &[u8]) -> Result<bool, AllocError> {
    for count in [0, 1, 2, 3, 16, 17, 1_000] {
        if !are_found(alloc, tail, count)? {
            return Ok(false);
        }
    }
    Ok(true)
}

// ---- rows

enum Case {
    Pairs(&'static [u8], InPairs),
    Sorted(&'static [&'static [u8]], bool),
    Keys(&'static [&'static [u8]], &'static [u8], InKeys),
    // What stands at the end of each key.
    Lengths(&'static [u8]),
}

type Rows = &'static [(&'static str, Case)];

const IN_PAIRS: Rows = &[
    ("the empty key", Case::Pairs(&[], (0, None, Err(0)))),
    ("below all", Case::Pairs(&[0], (0, None, Err(0)))),
    (
        "a key more than once",
        Case::Pairs(&[1], (2, Some(1), Ok(1))),
    ),
    (
        "one byte more than a key",
        Case::Pairs(&[1, 0], (2, Some(1), Err(2))),
    ),
    ("between two keys", Case::Pairs(&[2], (2, Some(1), Err(2)))),
    ("the greatest key", Case::Pairs(&[3], (3, Some(2), Ok(2)))),
    ("above all", Case::Pairs(&[4], (3, Some(2), Err(3)))),
];

// A list is sorted where no key is above the next.
const LISTS: Rows = &[
    ("no key", Case::Sorted(&[], true)),
    ("one key", Case::Sorted(&[&[4]], true)),
    ("a greater key", Case::Sorted(&[&[4], &[5]], true)),
    ("a key again", Case::Sorted(&[&[5], &[5]], true)),
    ("a longer key", Case::Sorted(&[&[5], &[5, 0]], true)),
    ("a smaller key", Case::Sorted(&[&[5], &[4]], false)),
    ("a shorter key", Case::Sorted(&[&[5, 0], &[5]], false)),
    ("no byte at the end", Case::Sorted(&[&[5], &[]], false)),
    (
        "a smaller key at the front",
        Case::Sorted(&[&[5], &[4], &[6]], false),
    ),
    (
        "a smaller key at the end",
        Case::Sorted(&[&[4], &[6], &[5]], false),
    ),
    (
        "a longer key of 23 bytes",
        Case::Sorted(&[&[7; 22], &[7; 23]], true),
    ),
    (
        "a shorter key of 22 bytes",
        Case::Sorted(&[&[7; 23], &[7; 22]], false),
    ),
];

const FIVE_KEYS: &[&[u8]] = &[&[4], &[5], &[5], &[6], &[9]];

const IN_KEYS: Rows = &[
    (
        "the empty key of five",
        Case::Keys(FIVE_KEYS, &[], (None, Err(0))),
    ),
    (
        "below all five",
        Case::Keys(FIVE_KEYS, &[3], (None, Err(0))),
    ),
    (
        "the least of five",
        Case::Keys(FIVE_KEYS, &[4], (Some(0), Ok(0))),
    ),
    (
        "one byte more than the least",
        Case::Keys(FIVE_KEYS, &[4, 0], (Some(0), Err(1))),
    ),
    (
        "more than once among five",
        Case::Keys(FIVE_KEYS, &[5], (Some(2), Ok(2))),
    ),
    (
        "behind the key more than once",
        Case::Keys(FIVE_KEYS, &[6], (Some(3), Ok(3))),
    ),
    (
        "between two of five",
        Case::Keys(FIVE_KEYS, &[7], (Some(3), Err(4))),
    ),
    (
        "below the greatest",
        Case::Keys(FIVE_KEYS, &[8], (Some(3), Err(4))),
    ),
    (
        "the greatest of five",
        Case::Keys(FIVE_KEYS, &[9], (Some(4), Ok(4))),
    ),
    (
        "above all five",
        Case::Keys(FIVE_KEYS, &[10], (Some(4), Err(5))),
    ),
    ("in no keys", Case::Keys(&[], &[3], (None, Err(0)))),
];

const LENGTHS: Rows = &[
    ("keys of 8 bytes", Case::Lengths(b"")),
    (
        "keys of 38 bytes",
        Case::Lengths(b"xxxxxxxxxxxxxxxxxxxxxxxxxxxxxx"),
    ),
];

fn holds(alloc: Global, case: &Case) -> Result<bool, AllocError> {
    match case {
        Case::Pairs(key, wanted) => are_found_in_pairs(alloc, key, wanted),
        Case::Sorted(keys, sorted) => sorts(alloc, keys, *sorted),
        Case::Keys(keys, key, wanted) => are_found_in_keys(alloc, keys, key, wanted),
        Case::Lengths(tail) => are_found_at_each_length(alloc, tail),
    }
}

#[test]
fn sorted_lists_are_searched(rt: HostRuntime) -> Result<(), Fail> {
    for rows in [IN_PAIRS, LISTS, IN_KEYS, LENGTHS] {
        for (row, case) in rows {
            assert!(rt; holds(rt.alloc(), case)?, "{row}");
        }
    }
    Ok(())
}
