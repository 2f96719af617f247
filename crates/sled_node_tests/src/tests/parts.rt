// What a node says of itself, and which parts make up one.

use super::leaf::leaf_of;
use super::serialization::is_node_written;
use super::*;

// ---- what a node says of itself

// What the node of a payload says. The pages are those of the next node and of the child that is being merged; 0 is none.
struct Wanted {
    payload: &'static [u8],
    prefix_len: u8,
    lo: &'static [u8],
    hi: &'static [u8],
    next: u64,
    child: u64,
    merging: bool,
    is_index: bool,
    len: usize,
}

const DEFAULT: &Wanted = &Wanted {
    payload: EMPTY,
    prefix_len: 0,
    lo: b"",
    hi: b"",
    next: 0,
    child: 0,
    merging: false,
    is_index: false,
    len: 0,
};

const NODES: &[(&str, &Wanted)] = &[
    ("an empty leaf", DEFAULT),
    (
        "all marks",
        &Wanted {
            payload: MARKED,
            prefix_len: 1,
            lo: b"ba",
            hi: b"bz",
            next: 7,
            child: 5,
            merging: true,
            is_index: false,
            len: 1,
        },
    ),
    (
        "next to page 7, with a child on page 5 that is being merged",
        &Wanted {
            payload: PREFIXED_5,
            prefix_len: 1,
            lo: b"ba",
            hi: b"bz",
            next: 7,
            child: 5,
            merging: false,
            is_index: false,
            len: 1,
        },
    ),
    (
        "an index that is being merged",
        &Wanted {
            payload: CAPPED_INDEX,
            prefix_len: 0,
            lo: b"",
            hi: b"",
            next: 0,
            child: 0,
            merging: true,
            is_index: true,
            len: 0,
        },
    ),
];

// Whether the node is over these keys, of which so many bytes aren't stored.
pub(super) fn is_over(node: &Node, prefix_len: u8, lo: &[u8], hi: &[u8]) -> bool {
    node.prefix_len() == prefix_len && node.lo().eq_bytes(lo) && node.hi().eq_bytes(hi)
}

fn says(node: &Node, wanted: &Wanted) -> bool {
    is_over(node, wanted.prefix_len, wanted.lo, wanted.hi)
        && node.next() == NonZeroU64::new(wanted.next)
        && node.merging_child() == NonZeroU64::new(wanted.child)
        && node.merging() == wanted.merging
        && node.is_index() == wanted.is_index
        && matches!(node.data(), Data::Index(_)) == wanted.is_index
        && node.len() == wanted.len
}

// Whether the clone is equal, and says the same.
fn clone_says(node: &Node, wanted: &Wanted) -> bool {
    match node.clone() {
        Ok(copy) => says(&copy, wanted) && copy == *node,
        Err(_) => false,
    }
}

fn is_wanted(alloc: Global, node: &Node, wanted: &Wanted) -> bool {
    is_node_written(alloc, node, Some(wanted.payload))
        && says(node, wanted)
        && clone_says(node, wanted)
}

fn node_is_wanted(alloc: Global, wanted: &Wanted) -> bool {
    match node_of(alloc, wanted.payload) {
        Some(node) => is_wanted(alloc, &node, wanted),
        None => false,
    }
}

fn default_is_wanted(alloc: Global) -> bool {
    let node = Node::default(alloc);
    is_wanted(alloc, &node, DEFAULT)
}

#[test]
fn nodes_say_what_they_are(rt: HostRuntime) {
    assert!(rt; default_is_wanted(rt.alloc()));
    for (row, wanted) in NODES {
        assert!(rt; node_is_wanted(rt.alloc(), wanted), "{row}");
    }
}

// Whether the node has one pair, of this stored key and this value.
fn has_pair(node: &Node, key: &[u8], value: &[u8]) -> bool {
    if node.len() != 1 {
        return false;
    }
    let (stored, item) = node.pair(0);
    stored == key && item == Item::Value(value)
}

fn expect_range(rt: &impl Abort, marked: Option<&Node>, empty: &Node) {
    assert!(rt; marked.is_some());
    let marked = marked.unwrap_or(empty);
    assert!(rt; has_pair(marked, b"b", b"v"));
    for (node, key, is_in) in [
        (marked, b"ba".as_slice(), true),
        (marked, b"bb", true),
        (marked, b"byz", true),
        (marked, b"b", false),
        (marked, b"bz", false),
        (empty, b"", true),
        (empty, b"\xff\xff", true),
    ] {
        assert!(rt; node.contains_key(key) == is_in, "{key:?}");
    }
}

#[test]
fn keys_are_in_the_range(rt: HostRuntime) {
    let marked = node_of(rt.alloc(), MARKED);
    let empty = Node::default(rt.alloc());
    expect_range(&rt, marked.as_ref(), &empty);
}

// Whether the two are equal, or are not.
fn are_equal(alloc: Global, one: &[u8], other: &[u8], is_so: bool) -> bool {
    match node_of(alloc, one) {
        Some(node) => reads_as(alloc, other, &node) == Some(is_so),
        None => false,
    }
}

const PAIRS: &[(&[u8], &[u8], bool)] = &[
    (EMPTY, EMPTY, true),
    (EMPTY, CAPPED, false),
    (EMPTY, MERGING_5, false),
    (EMPTY, INDEX_OF_NONE, false),
    (B_TO_V, B_TO_W, false),
    (PREFIXED_A, PREFIXED_B, false),
    (MARKED, MARKED, true),
];

#[test]
fn equal_nodes_are_the_same(rt: HostRuntime) {
    for (one, other, is_so) in PAIRS {
        assert!(rt; are_equal(rt.alloc(), one, other, *is_so));
    }
}

// ---- parts

// The node of the contents over these keys, next to the page, if they are well-formed.
pub(super) fn node_over(
    alloc: Global,
    prefix_len: u8,
    range: [&[u8]; 2],
    next: u64,
    contents: Data,
) -> Result<Option<Node>, AllocError> {
    let [lo, hi] = range;
    let lo = bytes(alloc, lo)?;
    let hi = bytes(alloc, hi)?;
    let next = NonZeroU64::new(next);
    Ok(Node::from_parts(prefix_len, next, None, false, lo, hi, contents))
}

// Whether there is such a node next to page 7, or none where there is no memory.
fn is_node_over(alloc: Global, prefix_len: u8, range: [&[u8]; 2], contents: Data) -> Option<bool> {
    match node_over(alloc, prefix_len, range, 7, contents) {
        Ok(node) => Some(node.is_some()),
        Err(_) => None,
    }
}

// Whether a leaf of these stored keys may be over this range, or may not.
fn is_well_formed(
    alloc: Global,
    prefix_len: u8,
    range: [&[u8]; 2],
    keys: &[&[u8]],
    is_so: bool,
) -> bool {
    match leaf_of(alloc, keys) {
        Ok(Some(leaf)) => is_node_over(alloc, prefix_len, range, Data::Leaf(leaf)) == Some(is_so),
        Ok(None) => !is_so,
        Err(_) => false,
    }
}

#[test]
fn ill_formed_parts_make_no_node(rt: HostRuntime) {
    let none = [].as_slice();
    let bb = [b"bb".as_slice()];
    let bb = bb.as_slice();
    for (prefix_len, lo, hi, keys, is_so) in [
        (0, b"ba".as_slice(), b"".as_slice(), none, true),
        (0, b"ba", b"c", none, true),
        (2, b"ba", b"baa", none, true),
        (1, b"ba", b"", none, false),
        (0, b"c", b"ba", none, false),
        (0, b"ba", b"ba", none, false),
        (2, b"ba", b"bz", none, false),
        (3, b"ba", b"baa", none, false),
        // a key has to be in the range
        (0, b"b", b"c", bb, true),
        (0, b"ba", b"", bb, true),
        (0, b"bc", b"", bb, false),
        (0, b"a", b"bb", bb, false),
    ] {
        let holds = is_well_formed(rt.alloc(), prefix_len, [lo, hi], keys, is_so);
        assert!(rt; holds, "{prefix_len} {lo:?} {hi:?}");
    }
}
