use super::parts::is_over;
use super::*;

pub(super) fn push(
    alloc: Global,
    pairs: &mut Vec<(IVec, IVec)>,
    key: &[u8],
    value: &[u8],
) -> Result<(), AllocError> {
    let key = bytes(alloc, key)?;
    let value = bytes(alloc, value)?;
    pairs.push((key, value))?;
    Ok(())
}

// These keys, each with the value `v`.
fn pairs_of(alloc: Global, keys: &[&[u8]]) -> Result<Vec<(IVec, IVec)>, AllocError> {
    let mut pairs = vec![in alloc]?;
    for key in keys {
        push(alloc, &mut pairs, key, b"v")?;
    }
    Ok(pairs)
}

// A leaf of these keys, each with the value `v`.
pub(super) fn leaf_of(alloc: Global, keys: &[&[u8]]) -> Result<Option<Leaf>, AllocError> {
    let pairs = pairs_of(alloc, keys)?;
    Leaf::from_pairs(alloc, pairs)
}

// The node over all keys that has such a leaf.
fn leaf_node(alloc: Global, keys: &[&[u8]]) -> Result<Option<Node>, AllocError> {
    let pairs = pairs_of(alloc, keys)?;
    Node::leaf_of(alloc, pairs)
}

// Whether there is such a leaf, of so many pairs, or is none.
fn is_leaf(alloc: Global, keys: &[&[u8]], is_so: bool) -> bool {
    match leaf_of(alloc, keys) {
        Ok(Some(leaf)) => is_so && leaf.len() == keys.len(),
        Ok(None) => !is_so,
        Err(_) => false,
    }
}

// Whether there is such a node over all keys, or is none.
fn is_node(alloc: Global, keys: &[&[u8]], is_so: bool) -> bool {
    match leaf_node(alloc, keys) {
        Ok(Some(node)) => is_so && node.len() == keys.len() && is_over(&node, 0, b"", b""),
        Ok(None) => !is_so,
        Err(_) => false,
    }
}

const KEYS: &[(&[&[u8]], bool)] = &[
    (&[], true),
    (&[b"a"], true),
    (&[b"a", b"b"], true),
    (&[b"a", b"aa", b"b"], true),
    (&[b"", b"a"], true),
    (&[b"a", b"a"], false),
    (&[b"b", b"a"], false),
    (&[b"aa", b"a"], false),
    (&[b"a", b"b", b"b"], false),
    (&[b"a", b"c", b"b"], false),
];

#[test]
fn leaves_have_ascending_keys(rt: HostRuntime) {
    for (keys, is_so) in KEYS {
        assert!(rt; is_leaf(rt.alloc(), keys, *is_so), "{keys:?}");
        assert!(rt; is_node(rt.alloc(), keys, *is_so), "{keys:?}");
    }
}

// Whether the leaf of these keys is another than this one.
fn differs(alloc: Global, keys: &[&[u8]], other: &Option<Leaf>) -> bool {
    match leaf_of(alloc, keys) {
        Ok(leaf) => leaf != *other,
        Err(_) => false,
    }
}

// Whether the leaf of these keys is equal to its clone, and other than the leaf of those.
fn is_leaf_cloned(alloc: Global, keys: &[&[u8]], others: &[&[u8]]) -> bool {
    match leaf_of(alloc, keys) {
        Ok(leaf) => is_cloned(&leaf) && differs(alloc, others, &leaf),
        Err(_) => false,
    }
}

// Whether an empty leaf and an empty index are equal to their clones, and other than each other.
fn are_empty_cloned(alloc: Global) -> bool {
    let leaf = Data::Leaf(Leaf::default(alloc));
    let index = Data::Index(Index::default(alloc));
    leaf != index && is_cloned(&leaf) && is_cloned(&index)
}

fn is_empty_index_cloned(alloc: Global) -> bool {
    let index = Index::default(alloc);
    is_cloned(&index)
}

const A_B: &[&[u8]] = &[b"a", b"b"];

const A: &[&[u8]] = &[b"a"];

fn are_clones_equal(alloc: Global) -> bool {
    is_leaf_cloned(alloc, A_B, A) && are_empty_cloned(alloc) && is_empty_index_cloned(alloc)
}

#[test]
fn clones_are_equal(rt: HostRuntime) {
    assert!(rt; are_clones_equal(rt.alloc()));
}

// Whether the leaf of these keys is written so.
fn is_shown(alloc: Global, keys: &[&[u8]], wanted: &str) -> bool {
    match leaf_of(alloc, keys) {
        Ok(Some(leaf)) => is_text(format!(in alloc; "{leaf:?}"), wanted),
        _ => false,
    }
}

fn is_text(text: Result<String, AllocError>, wanted: &str) -> bool {
    match text {
        Ok(text) => text.as_str() == wanted,
        Err(_) => false,
    }
}

const SHOWN: &[(&[&[u8]], &str)] = &[
    (&[], "Leaf { pairs: [] }"),
    (&[b""], "Leaf { pairs: [([], [118])] }"),
    (&[b"a"], "Leaf { pairs: [([97], [118])] }"),
    (
        &[b"a", b"aa", b"b"],
        "Leaf { pairs: [([97], [118]), ([97, 97], [118]), ([98], [118])] }",
    ),
];

#[test]
fn leaves_are_written_as_their_pairs(rt: HostRuntime) {
    for (keys, wanted) in SHOWN {
        assert!(rt; is_shown(rt.alloc(), keys, wanted), "{keys:?}");
    }
}
