use super::*;
use sled_node::node::MAX_BYTES;

// An index of the empty key to page 5.
const ROOT: &[u8] = &[0, 0, 0, 0, 0, 0, 1, 1, 0, 5];

// An index of the empty key to page 2 and "m" to page 3, and the same with "q" to page 4.
const HOISTED: &[u8] = &[0, 0, 0, 0, 0, 0, 1, 2, 0, 1, 109, 2, 3];

const HOISTED_Q: &[u8] = &[0, 0, 0, 0, 0, 0, 1, 3, 0, 1, 109, 1, 113, 2, 3, 4];

// An index from "ba" up to "bz", of "bb" to page 2 and "bm" to page 3, and the same with "ba" to page 4.
const INDEX: &[u8] = &[0, 0, 0, 1, 2, 98, 97, 2, 98, 122, 1, 2, 1, 98, 1, 109, 2, 3];

const INDEX_BA: &[u8] = &[
    0, 0, 0, 1, 2, 98, 97, 2, 98, 122, 1, 3, 1, 97, 1, 98, 1, 109, 4, 2, 3,
];

// The place and the page that the key leads to, if there is one.
pub(super) fn next(node: &Node, key: &[u8]) -> Option<(usize, PageId)> {
    if !node.has_child_for(key) {
        return None;
    }
    Some(node.index_next_node(key))
}

fn leads(alloc: Global, payload: &[u8], key: &[u8], child: Option<(usize, PageId)>) -> bool {
    match node_of(alloc, payload) {
        Some(node) => next(&node, key) == child,
        None => false,
    }
}

const LED: &[(&[u8], &[u8], Option<(usize, PageId)>)] = &[
    (ROOT, b"", Some((0, 5))),
    (ROOT, b"z", Some((0, 5))),
    (HOISTED, b"a", Some((0, 2))),
    (HOISTED, b"m", Some((1, 3))),
    (HOISTED, b"z", Some((1, 3))),
    (HOISTED_Q, b"p", Some((1, 3))),
    (HOISTED_Q, b"z", Some((2, 4))),
    (INDEX, b"ba", None),
    (INDEX, b"bb", Some((0, 2))),
    (INDEX, b"bl", Some((0, 2))),
    (INDEX, b"bm", Some((1, 3))),
    (INDEX, b"bzz", None),
    (INDEX, b"b", None),
    (INDEX_BA, b"ba", Some((0, 4))),
    (INDEX_BA, b"bz0", None),
    (INDEX_BA, b"bm", Some((2, 3))),
    (EMPTY, b"a", None),
];

#[test]
fn whole_keys_lead_to_children(rt: HostRuntime) {
    for (payload, key, child) in LED {
        assert!(rt; leads(rt.alloc(), payload, key, *child), "{key:?}");
    }
}

// Whether the key was new, or none where the node can't take it, or there is no memory.
pub(super) fn split(node: &mut Node, at: &[u8], to: PageId) -> Option<bool> {
    if !node.accepts_child(at) {
        return None;
    }
    node.parent_split(at, to).ok()
}

// Whether the key is reported as new or not, and the node is then this one.
fn is_split(
    alloc: Global,
    node: &mut Node,
    at: &[u8],
    to: PageId,
    is_new: bool,
    after: &[u8],
) -> bool {
    split(node, at, to) == Some(is_new) && is_read(alloc, after, node)
}

fn splits(alloc: Global, before: &[u8], at: &[u8], to: PageId, is_new: bool, after: &[u8]) -> bool {
    match node_of(alloc, before) {
        Some(mut node) => is_split(alloc, &mut node, at, to, is_new, after),
        None => false,
    }
}

const SPLIT: &[(&[u8], &[u8], PageId, bool, &[u8])] = &[
    (HOISTED, b"m", 9, false, HOISTED),
    (HOISTED, b"q", 4, true, HOISTED_Q),
    (INDEX, b"bb", 9, false, INDEX),
    (INDEX, b"ba", 4, true, INDEX_BA),
];

#[test]
fn new_children_come_in_order(rt: HostRuntime) {
    for (before, at, to, is_new, after) in SPLIT {
        assert!(rt;
            splits(rt.alloc(), before, at, *to, *is_new, after),
            "{at:?}"
        );
    }
}

// Whether the node may take a child at the key, or may not.
fn takes_child(alloc: Global, payload: &[u8], at: &[u8], is_so: bool) -> bool {
    match node_of(alloc, payload) {
        Some(node) => node.accepts_child(at) == is_so,
        None => false,
    }
}

const TAKEN: &[(&str, &[u8], &[u8], bool)] = &[
    ("a new key", HOISTED, b"q", true),
    ("a key that is there", HOISTED, b"m", true),
    ("lo", INDEX, b"ba", true),
    ("below hi", INDEX, b"byy", true),
    ("below lo", INDEX, b"b", false),
    ("hi", INDEX, b"bz", false),
    ("above hi", INDEX, b"c", false),
    ("a leaf", EMPTY, b"a", false),
];

#[test]
fn children_begin_in_the_range_of_an_index(rt: HostRuntime) {
    for (row, payload, at, is_so) in TAKEN {
        assert!(rt; takes_child(rt.alloc(), payload, at, *is_so), "{row}");
    }
}

// An index of the empty key to page 2 and "m" to page 3.
fn hoisted(alloc: Global) -> Result<Node, AllocError> {
    let at = bytes(alloc, b"m")?;
    if at.is_empty() || at.len() > MAX_BYTES {
        return Err(AllocError);
    }
    Node::new_hoisted_root(alloc, 2, at, 3)
}

fn is_root(alloc: Global) -> bool {
    match Node::new_root(alloc, 5) {
        Ok(root) => is_read(alloc, ROOT, &root),
        Err(_) => false,
    }
}

fn is_hoisted(alloc: Global) -> bool {
    match hoisted(alloc) {
        Ok(root) => is_read(alloc, HOISTED, &root),
        Err(_) => false,
    }
}

#[test]
fn roots_lead_to_their_children(rt: HostRuntime) {
    assert!(rt; is_root(rt.alloc()));
    assert!(rt; is_hoisted(rt.alloc()));
}
