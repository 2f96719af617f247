// Each call of a node at the corners: none to 2,000 pairs, short and long keys and values, pages of each length, and prefixes that
// stay, that become longer in a part, and that become shorter again where the parts are merged. The payload of the largest leaves has
// more than 2^17 bytes.

use super::children::{next, split};
use super::links::applies;
use super::lookups::is_found;
use super::neighbours::nearest;
use super::parts::{is_over, node_over};
use super::serialization::is_node_written;
use super::*;

const COUNTS: &[u32] = &[0, 1, 2, 3, 16, 17, 1_000, 2_000];

// What stands at the end of each key, and as each value: nothing, or more than is kept in place.
const TAILS: &[&[u8]] = &[b"", b"xxxxxxxxxxxxxxxxxxxxxxxxxxxxxx"];

// The range of a node, and how its keys begin.
pub(super) struct Shape {
    row: &'static str,
    prefix_len: u8,
    lo: &'static [u8],
    hi: &'static [u8],
    front: &'static [u8],
}

pub(super) const SHAPES: &[Shape] = &[
    Shape {
        row: "over all keys",
        prefix_len: 0,
        lo: b"",
        hi: b"",
        front: b"k",
    },
    Shape {
        row: "the prefix of the left part is longer",
        prefix_len: 1,
        lo: b"bb",
        hi: b"bd",
        front: b"bb",
    },
    Shape {
        row: "the prefix of the right part is longer",
        prefix_len: 1,
        lo: b"ba",
        hi: b"bbz",
        front: b"bb",
    },
    Shape {
        row: "the prefix is shorter than it might be",
        prefix_len: 0,
        lo: b"bb",
        hi: b"bd",
        front: b"bb",
    },
];

// ---- keys, and nodes of them

// The whole key at a place: the front, eight bytes of the place, and the tail.
fn key_at(shape: &Shape, tail: &[u8], place: u64) -> Key {
    let digits = place.to_be_bytes();
    let mut key = ([0; 40], 0);
    append(&mut key, shape.front);
    append(&mut key, &digits);
    append(&mut key, tail);
    key
}

// A whole key as it is stored.
fn stored<'a>(shape: &Shape, key: &'a Key) -> &'a [u8] {
    whole(key).get(shape.prefix_len as usize..).unwrap_or(&[])
}

// The keys stand at odd places, so at even ones keys are absent.
fn there(i: u32) -> u64 {
    i as u64 * 2 + 1
}

// Pages of each length.
fn page_at(i: usize) -> u64 {
    1 << (i % 64)
}

// So many keys as they are stored.
fn keys_in(alloc: Global, shape: &Shape, tail: &[u8], count: u32) -> Result<Vec<IVec>, AllocError> {
    let mut keys = Vec::new(alloc);
    for i in 0..count {
        let key = key_at(shape, tail, there(i));
        keys.push(bytes(alloc, stored(shape, &key))?)?;
    }
    Ok(keys)
}

fn leaf_in(alloc: Global, keys: Vec<IVec>, value: &[u8]) -> Result<Option<Leaf>, AllocError> {
    let mut pairs = Vec::new(alloc);
    for key in keys {
        pairs.push((key, bytes(alloc, value)?))?;
    }
    Leaf::from_pairs(alloc, pairs)
}

fn index_in(alloc: Global, keys: Vec<IVec>) -> Result<Option<Index>, AllocError> {
    let mut pairs = Vec::new(alloc);
    for (i, key) in keys.into_iter().enumerate() {
        pairs.push((key, page_at(i)))?;
    }
    Index::from_pairs(alloc, pairs)
}

// A leaf or an index of so many pairs, or none where they make up no node, or there is no memory.
pub(super) fn filled(
    alloc: Global,
    is_index: bool,
    shape: &Shape,
    tail: &[u8],
    count: u32,
) -> Option<Node> {
    let keys = keys_in(alloc, shape, tail, count).ok()?;
    let contents = if is_index {
        Data::Index(index_in(alloc, keys).ok()??)
    } else {
        Data::Leaf(leaf_in(alloc, keys, tail).ok()??)
    };
    let range = [shape.lo, shape.hi];
    node_over(alloc, shape.prefix_len, range, 0, contents).ok()?
}

// ---- what both kinds do

// Whether the two are merged into one of so many pairs, which is that node but for its prefix.
fn merge_into(left: &Node, right: &Node, shape: &Shape, count: u32) -> bool {
    if !left.can_receive(right) {
        return false;
    }
    match left.receive_merge(right) {
        Ok(merged) => is_merged(&merged, shape, count),
        Err(_) => false,
    }
}

fn is_merged(node: &Node, shape: &Shape, count: u32) -> bool {
    node.len() == count as usize && is_over(node, node.prefix_len(), shape.lo, shape.hi)
}

// Whether the parts are those of a node of so many pairs, and are merged again.
fn are_parts(left: &Node, right: &Node, shape: &Shape, count: u32) -> bool {
    let half = count as usize / 2 + 1;
    let halves = left.len() == half && half.saturating_add(right.len()) == count as usize;
    halves && merge_into(left, right, shape, count)
}

// Whether the node splits, if it has three pairs.
fn splits(node: Node, shape: &Shape, count: u32) -> bool {
    if node.len() < 3 {
        return count < 3;
    }
    match node.split() {
        Ok((left, right)) => are_parts(&left, &right, shape, count),
        Err(_) => false,
    }
}

// ---- leaves

// Whether the leaf has the key at the place with the tail as its value, or lacks it.
fn looks_up(leaf: &Node, shape: &Shape, tail: &[u8], place: u64) -> bool {
    let key = key_at(shape, tail, place);
    let value = if place % 2 == 1 { Some(tail) } else { None };
    is_found(leaf, whole(&key), Some(stored(shape, &key)), value)
}

// Whether the nearest pair behind the bound, or before it, has this key, and the tail as its value.
fn is_near(
    alloc: Global,
    leaf: &Node,
    is_behind: bool,
    bound: (u8, &Key),
    key: &Key,
    tail: &[u8],
) -> bool {
    let (kind, at) = bound;
    match nearest(alloc, leaf, is_behind, kind, whole(at)) {
        Ok(Some(pair)) => pair.0.eq_bytes(whole(key)) && pair.1.eq_bytes(tail),
        _ => false,
    }
}

// Whether the key at the place is the nearest behind the key before it, and the nearest before the key behind it.
fn is_nearest(alloc: Global, leaf: &Node, shape: &Shape, tail: &[u8], i: u32) -> bool {
    let key = key_at(shape, tail, there(i));
    let low = key_at(shape, tail, there(i).saturating_sub(1));
    let high = key_at(shape, tail, there(i).saturating_add(1));
    is_near(alloc, leaf, true, (b'(', &low), &key, tail)
        && is_near(alloc, leaf, false, (b'[', &high), &key, tail)
}

// Whether all its keys are found in the leaf, by name and as neighbours, and those between them are not.
fn is_read(alloc: Global, leaf: &Node, shape: &Shape, tail: &[u8], count: u32) -> bool {
    let mut is_so = leaf.len() == count as usize;
    for i in 0..count {
        is_so = is_so
            && looks_up(leaf, shape, tail, i as u64 * 2)
            && looks_up(leaf, shape, tail, there(i))
            && is_nearest(alloc, leaf, shape, tail, i);
    }
    is_so
}

// Whether the leaf takes the key with the value.
pub(super) fn sets(alloc: Global, leaf: &mut Node, key: &[u8], value: &[u8]) -> bool {
    let Ok(key) = bytes(alloc, key) else {
        return false;
    };
    match bytes(alloc, value) {
        Ok(value) => takes(leaf, Link::Set(key, value)),
        Err(_) => false,
    }
}

pub(super) fn deletes(alloc: Global, leaf: &mut Node, key: &[u8]) -> bool {
    match bytes(alloc, key) {
        Ok(key) => takes(leaf, Link::Del(key)),
        Err(_) => false,
    }
}

fn takes(node: &mut Node, link: Link) -> bool {
    matches!(applies(node, &link), Ok(true))
}

// Whether the leaf takes a new key in front, another value for it, and is what it was when the key is taken out again.
fn is_changed(alloc: Global, leaf: &mut Node, shape: &Shape, tail: &[u8], count: u32) -> bool {
    let place = key_at(shape, tail, 0);
    let key = stored(shape, &place);
    let new = sets(alloc, leaf, key, b"") && sets(alloc, leaf, key, TAILS[1]);
    let more = leaf.len() == count as usize + 1;
    new && more && deletes(alloc, leaf, key) && leaf.len() == count as usize
}

// How large the leaf is: 128, its bounds, and for each pair the stored key and the value.
fn leaf_size(shape: &Shape, tail: &[u8], count: u32) -> u64 {
    let key = key_at(shape, tail, 0);
    let bounds = shape.lo.len().saturating_add(shape.hi.len());
    let pair = stored(shape, &key).len().saturating_add(tail.len());
    let pairs = pair.saturating_mul(count as usize);
    128u64.saturating_add(bounds.saturating_add(pairs) as u64)
}

fn acts_as_leaf(alloc: Global, leaf: &mut Node, shape: &Shape, tail: &[u8], count: u32) -> bool {
    leaf.rss() == leaf_size(shape, tail, count)
        && is_changed(alloc, leaf, shape, tail, count)
        && is_read(alloc, leaf, shape, tail, count)
        && is_node_written(alloc, leaf, None)
        && is_cloned(leaf)
}

// ---- indexes

// Whether the key at the place leads to this page at this place, or to none.
fn leads(
    index: &Node,
    shape: &Shape,
    tail: &[u8],
    place: u64,
    child: Option<(usize, PageId)>,
) -> bool {
    let key = key_at(shape, tail, place);
    next(index, whole(&key)) == child
}

// Whether each key, and one above it, leads to its child, and one below them all to none.
fn is_led(index: &Node, shape: &Shape, tail: &[u8], count: u32) -> bool {
    let mut is_so = leads(index, shape, tail, 0, None);
    for i in 0..count {
        let child = Some((i as usize, page_at(i as usize)));
        is_so = is_so
            && leads(index, shape, tail, there(i), child)
            && leads(index, shape, tail, there(i).saturating_add(1), child);
    }
    is_so
}

const NEW_PAGE: u64 = u64::MAX;

// Whether the index leads to a new child in front once it is asked to, and to no other when it is asked again.
fn is_parted(index: &mut Node, shape: &Shape, tail: &[u8]) -> bool {
    let key = key_at(shape, tail, 0);
    let key = whole(&key);
    split(index, key, NEW_PAGE) == Some(true) && split(index, key, NEW_PAGE) == Some(false)
}

// Whether the new child is taken out again when it was merged.
fn is_confirmed(index: &mut Node) -> bool {
    takes(index, Link::ParentMergeIntention(NEW_PAGE)) && takes(index, Link::ParentMergeConfirm)
}

fn acts_as_index(alloc: Global, index: &mut Node, shape: &Shape, tail: &[u8], count: u32) -> bool {
    is_node_written(alloc, index, None)
        && is_cloned(index)
        && is_led(index, shape, tail, count)
        && is_parted(index, shape, tail)
        && index.len() == count as usize + 1
        && is_confirmed(index)
        && index.len() == count as usize
}

// ---- both

fn acts(alloc: Global, node: &mut Node, shape: &Shape, tail: &[u8], count: u32) -> bool {
    if node.is_index() {
        acts_as_index(alloc, node, shape, tail, count)
    } else {
        acts_as_leaf(alloc, node, shape, tail, count)
    }
}

fn holds(alloc: Global, is_index: bool, shape: &Shape, tail: &[u8], count: u32) -> bool {
    match filled(alloc, is_index, shape, tail, count) {
        Some(mut node) => {
            let done = node.is_index() == is_index && acts(alloc, &mut node, shape, tail, count);
            splits(node, shape, count) && done
        }
        None => false,
    }
}

fn hold(rt: &impl Abort, alloc: Global, is_index: bool) {
    for shape in SHAPES {
        for tail in TAILS {
            for count in COUNTS {
                let is_so = holds(alloc, is_index, shape, tail, *count);
                assert!(rt; is_so, "{}, {count} pairs", shape.row);
            }
        }
    }
}

#[test]
fn leaves_hold_at_each_size(rt: HostRuntime) {
    hold(&rt, rt.alloc(), false);
}

#[test]
fn indexes_hold_at_each_size(rt: HostRuntime) {
    hold(&rt, rt.alloc(), true);
}
