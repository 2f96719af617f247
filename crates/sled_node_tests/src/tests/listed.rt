// A leaf beside a plain list of its pairs: after each of many edits it answers as the list does.

use super::corners::{deletes, sets};
use super::links::sets_payload;
use super::lookups::is_found;
use super::neighbours::nearest;
use super::parts::node_over;
use super::serialization::is_node_written;
use super::*;
use std::test::Fail;

type Bytes = &'static [u8];

// A whole key and a value.
type Pair = (Bytes, Bytes);

// The range of a leaf, and how many bytes of its keys it doesn't store.
struct Row {
    name: &'static str,
    prefix_len: u8,
    lo: Bytes,
    hi: Bytes,
}

const ROWS: &[Row] = &[
    Row {
        name: "over all keys",
        prefix_len: 0,
        lo: b"",
        hi: b"",
    },
    Row {
        name: "between two keys",
        prefix_len: 0,
        lo: b"ka",
        hi: b"kz",
    },
    Row {
        name: "without the prefix",
        prefix_len: 1,
        lo: b"ka",
        hi: b"kz",
    },
];

// Keys in each of these ranges. With and without the prefix some are on both sides of where a length takes more bytes.
const KEYS: &[Bytes] = &[
    b"ka",
    b"kb",
    b"kb\0",
    b"kbb",
    &[107; 2],
    &[107; 22],
    &[107; 23],
    &[107; 24],
    &[107; 128],
    &[107; 129],
    &[107; 240],
    &[107; 241],
    &[107; 242],
    &[107; 2287],
    &[107; 2288],
    &[107; 2289],
    b"kx",
    b"kx\xff",
    b"ky",
    b"ky\0",
];

const VALUES: &[Bytes] = &[
    &[],
    b"v",
    &[1; 2],
    &[2; 22],
    &[3; 23],
    &[4; 127],
    &[5; 128],
    &[6; 240],
    &[7; 241],
    &[8; 2287],
    &[9; 2288],
];

const STEPS: usize = 80;

// ---- the list

// How many keys of the list are below this one.
fn place_of(list: &[Pair], key: &[u8]) -> usize {
    for (place, pair) in list.iter().enumerate() {
        if pair.0.cmp(&key).is_ge() {
            return place;
        }
    }
    list.len()
}

fn value_in(list: &[Pair], key: &[u8]) -> Option<Bytes> {
    let pair = list.get(place_of(list, key))?;
    if pair.0 == key { Some(pair.1) } else { None }
}

fn set_in(list: &mut Vec<Pair>, pair: Pair) -> Result<(), AllocError> {
    let place = place_of(list, pair.0);
    if value_in(list, pair.0).is_some() && place < list.len() {
        list[place] = pair;
    } else if place <= list.len() {
        list.insert(place, pair)?;
    }
    Ok(())
}

fn delete_from(list: &mut Vec<Pair>, key: &[u8]) {
    let place = place_of(list, key);
    if value_in(list, key).is_some() && place < list.len() {
        list.remove(place);
    }
}

// ---- the leaf beside it

// The bytes that stored keys lack.
fn prefix(leaf: &Node) -> &[u8] {
    leaf.lo()
        .as_slice()
        .get(..leaf.prefix_len() as usize)
        .unwrap_or(&[])
}

fn has_pair(leaf: &Node, place: usize, pair: &Pair) -> bool {
    if place >= leaf.len() {
        return false;
    }
    match leaf.pair(place) {
        (stored, Item::Value(value)) => {
            pair.0.strip_prefix(prefix(leaf)) == Some(stored) && pair.1 == value
        }
        _ => false,
    }
}

// Whether these are all pairs of the leaf.
fn is_listed(leaf: &Node, list: &[Pair]) -> bool {
    for (place, pair) in list.iter().enumerate() {
        if !has_pair(leaf, place, pair) {
            return false;
        }
    }
    leaf.len() == list.len()
}

// 128, the bounds, and for each pair the stored key and the value.
fn size_of(leaf: &Node, list: &[Pair]) -> u64 {
    let mut size = leaf.lo().len().saturating_add(leaf.hi().len());
    for pair in list {
        let stored = pair.0.len().saturating_sub(leaf.prefix_len() as usize);
        size = size.saturating_add(stored).saturating_add(pair.1.len());
    }
    128u64.saturating_add(size as u64)
}

fn is_near(
    alloc: Global,
    leaf: &Node,
    is_behind: bool,
    bound: (u8, &[u8]),
    pair: Option<&Pair>,
) -> bool {
    match (nearest(alloc, leaf, is_behind, bound.0, bound.1), pair) {
        (Ok(Some(found)), Some(pair)) => found.0.eq_bytes(pair.0) && found.1.eq_bytes(pair.1),
        (Ok(None), None) => true,
        _ => false,
    }
}

// The pair before a place.
fn before(list: &[Pair], place: usize) -> Option<&Pair> {
    list.get(place.checked_sub(1)?)
}

// Whether the key is found as in the list, and its neighbours on either side.
fn is_answered(alloc: Global, leaf: &Node, list: &[Pair], key: &[u8]) -> bool {
    let value = value_in(list, key);
    let first = place_of(list, key);
    let end = first.saturating_add(value.is_some() as usize);
    is_found(leaf, key, key.strip_prefix(prefix(leaf)), value)
        && is_near(alloc, leaf, true, (b'[', key), list.get(first))
        && is_near(alloc, leaf, true, (b'(', key), list.get(end))
        && is_near(alloc, leaf, false, (b'(', key), before(list, first))
        && is_near(alloc, leaf, false, (b'[', key), before(list, end))
}

// Whether that is so of each key, and the leaf is written and copied.
fn is_as_listed(alloc: Global, leaf: &Node, list: &[Pair]) -> bool {
    for key in KEYS {
        if !is_answered(alloc, leaf, list, key) {
            return false;
        }
    }
    is_listed(leaf, list)
        && leaf.rss() == size_of(leaf, list)
        && is_near(alloc, leaf, true, (b'-', b""), list.first())
        && is_near(alloc, leaf, false, (b'-', b""), list.last())
        && is_node_written(alloc, leaf, None)
        && is_written(alloc, leaf, list)
        && is_cloned(leaf)
}

// ---- payloads

fn append_string(alloc: Global, payload: &mut Vec<u8>, string: &[u8]) -> Result<(), AllocError> {
    let written = bytes(alloc, string)?.serialize(alloc)?;
    payload.extend_from_slice(&written)
}

// A leaf's tag, the count, all stored keys, and then all values.
fn payload_of(alloc: Global, leaf: &Node, list: &[Pair]) -> Result<Vec<u8>, AllocError> {
    let mut payload = Vec::from_slice(alloc, &[0])?;
    let count = (list.len() as u64).serialize(alloc)?;
    payload.extend_from_slice(&count)?;
    for pair in list {
        let stored = pair.0.strip_prefix(prefix(leaf)).unwrap_or(&[]);
        append_string(alloc, &mut payload, stored)?;
    }
    for pair in list {
        append_string(alloc, &mut payload, pair.1)?;
    }
    Ok(payload)
}

// A link that sets the pair.
fn set_payload(alloc: Global, stored: &[u8], value: &[u8]) -> Result<Vec<u8>, AllocError> {
    let mut payload = Vec::from_slice(alloc, &[0])?;
    append_string(alloc, &mut payload, stored)?;
    append_string(alloc, &mut payload, value)?;
    Ok(payload)
}

fn is_written(alloc: Global, leaf: &Node, list: &[Pair]) -> bool {
    match payload_of(alloc, leaf, list) {
        Ok(payload) => is_read(alloc, &payload, leaf.data()) && writes(alloc, leaf, &payload),
        Err(_) => false,
    }
}

fn writes(alloc: Global, leaf: &Node, payload: &[u8]) -> bool {
    match leaf.data().serialize(alloc) {
        Ok(written) => written.as_slice() == payload,
        Err(_) => false,
    }
}

// ---- edits

// The next of a fixed row of numbers, below `count`.
fn next(state: &mut u64, count: usize) -> usize {
    *state = state
        .wrapping_mul(6364136223846793005)
        .wrapping_add(1442695040888963407);
    if count == 0 {
        0
    } else {
        (*state >> 33) as usize % count
    }
}

fn picked(from: &[Bytes], state: &mut u64) -> Bytes {
    from.get(next(state, from.len())).copied().unwrap_or(&[])
}

// Whether the next edit, of which every fourth takes a key out and half of the others set a pair from a payload, is made of both.
fn is_edited(
    alloc: Global,
    leaf: &mut Node,
    list: &mut Vec<Pair>,
    state: &mut u64,
) -> Result<bool, AllocError> {
    let key = picked(KEYS, state);
    let Some(stored) = key.strip_prefix(prefix(leaf)) else {
        return Ok(false);
    };
    if next(state, 4) == 0 {
        delete_from(list, key);
        return Ok(deletes(alloc, leaf, stored));
    }
    let value = picked(VALUES, state);
    set_in(list, (key, value))?;
    if next(state, 2) == 0 {
        return Ok(sets(alloc, leaf, stored, value));
    }
    let payload = set_payload(alloc, stored, value)?;
    Ok(sets_payload(leaf, &payload) == Some(true))
}

// Whether the leaf answers as the list does after each edit.
fn are_edited(alloc: Global, leaf: &mut Node, list: &mut Vec<Pair>) -> Result<bool, AllocError> {
    let mut state = 1;
    for _ in 0..STEPS {
        if !is_edited(alloc, leaf, list, &mut state)? || !is_as_listed(alloc, leaf, list) {
            return Ok(false);
        }
    }
    Ok(true)
}

// ---- parts

// Whether the parts are the first half of the list and the other, and together the list again.
fn are_parted(alloc: Global, left: &Node, right: &Node, list: &[Pair]) -> bool {
    let (front, back) = list.split_at(left.len().min(list.len()));
    is_listed(left, front) && is_listed(right, back) && merges(alloc, left, right, list)
}

fn merges(alloc: Global, left: &Node, right: &Node, list: &[Pair]) -> bool {
    if !left.can_receive(right) {
        return false;
    }
    match left.receive_merge(right) {
        Ok(whole) => is_as_listed(alloc, &whole, list),
        Err(_) => false,
    }
}

fn is_parted(alloc: Global, leaf: Node, list: &[Pair]) -> bool {
    if leaf.len() < 3 {
        return false;
    }
    match leaf.split() {
        Ok((left, right)) => are_parted(alloc, &left, &right, list),
        Err(_) => false,
    }
}

fn holds(alloc: Global, row: &Row) -> Result<bool, AllocError> {
    let mut list = Vec::new(alloc);
    let contents = Data::Leaf(Leaf::default(alloc));
    match node_over(alloc, row.prefix_len, [row.lo, row.hi], 0, contents)? {
        Some(mut leaf) => {
            let is_so = are_edited(alloc, &mut leaf, &mut list)?;
            Ok(is_parted(alloc, leaf, &list) && is_so)
        }
        None => Ok(false),
    }
}

#[test]
fn leaves_answer_as_lists(rt: HostRuntime) -> Result<(), Fail> {
    for row in ROWS {
        assert!(rt; holds(rt.alloc(), row)?, "{}", row.name);
    }
    Ok(())
}
