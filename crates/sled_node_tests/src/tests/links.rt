// Links, and the edits of a leaf that a merging node takes too.

use super::*;
use sled_node::serialization::split_set;

// ---- links, as payloads

const SET_A_V: &[u8] = &[0, 1, 97, 1, 118];

const SET_B_V: &[u8] = &[0, 1, 98, 1, 118];

const SET_B_W: &[u8] = &[0, 1, 98, 1, 119];

const SET_Z_V: &[u8] = &[0, 1, 122, 1, 118];

const SET_NO_KEY: &[u8] = &[0, 0, 1, 118];

const SET_Q: &[u8] = &[0, 1, 113, 0];

const SET_R: &[u8] = &[0, 1, 114, 0];

const SET_LONG: &[u8] = b"\0\x1exxxxxxxxxxxxxxxxxxxxxxxxxxxxxx\x1eyyyyyyyyyyyyyyyyyyyyyyyyyyyyyy";

const DEL_NO_KEY: &[u8] = &[1, 0];

const DEL_A: &[u8] = &[1, 1, 97];

const DEL_B: &[u8] = &[1, 1, 98];

pub(super) const MERGE_0: &[u8] = &[2, 0];

pub(super) const MERGE_5: &[u8] = &[2, 5];

const MERGE_6: &[u8] = &[2, 6];

const MERGE_FAR: &[u8] = b"\x02\xfc\x05\0\0\0\x01";

const DEL_R: &[u8] = &[1, 1, 114];

const DEL_LONG: &[u8] = b"\x01\x1exxxxxxxxxxxxxxxxxxxxxxxxxxxxxx";

const DEL_KEY: &[u8] = b"\x01\x03key";

const SET_KEY: &[u8] = b"\0\x03key\x05value";

const MERGE_7: &[u8] = &[2, 7];

const CONFIRM: &[u8] = &[3];

pub(super) const CAP: &[u8] = &[4];

// ---- nodes, as payloads: a leaf from "ba" up to "bz" that is being merged, without pairs or with one; stored keys lack the first byte

const CAPPED_FROM_BA: &[u8] = &[0, 0, 1, 1, 2, 98, 97, 2, 98, 122, 0, 0];

const CAPPED_B: &[u8] = &[0, 0, 1, 1, 2, 98, 97, 2, 98, 122, 0, 1, 1, 98, 1, 118];

fn link_of(alloc: Global, payload: &[u8]) -> Option<Link> {
    let mut input = payload;
    Link::deserialize(alloc, &mut input).ok()
}

// Whether the node accepts the link, which is then applied.
pub(super) fn applies(node: &mut Node, link: &Link) -> Result<bool, AllocError> {
    if !node.accepts(link) {
        return Ok(false);
    }
    node.apply(link)?;
    Ok(true)
}

// Whether the node accepts the pair or the key of the link as an edit of a leaf, which is then made.
fn edits(node: &mut Node, link: Link) -> Result<bool, AllocError> {
    match link {
        Link::Set(key, value) => {
            if !node.accepts_set(&key, &value) {
                return Ok(false);
            }
            node.set_leaf(key, value)?;
            Ok(true)
        }
        Link::Del(key) => {
            let accepts = node.accepts_del(&key);
            if accepts {
                node.del_leaf(&key);
            }
            Ok(accepts)
        }
        _ => Ok(false),
    }
}

// The same of the link of a payload; none where there is no such link, or no memory.
pub(super) fn applies_payload(alloc: Global, node: &mut Node, payload: &[u8]) -> Option<bool> {
    match link_of(alloc, payload) {
        Some(link) => applies(node, &link).ok(),
        None => None,
    }
}

// The same of the pair of a payload that sets one, where it lies.
pub(super) fn sets_payload(node: &mut Node, payload: &[u8]) -> Option<bool> {
    let (key, value) = split_set(payload)?;
    if !node.accepts_pair(key, value) {
        return Some(false);
    }
    match node.set_pair(key, value) {
        Ok(()) => Some(true),
        Err(_) => None,
    }
}

fn edits_payload(alloc: Global, node: &mut Node, payload: &[u8]) -> Option<bool> {
    match link_of(alloc, payload) {
        Some(link) => edits(node, link).ok(),
        None => None,
    }
}

// How a link is made: as it is, as an edit of a leaf, or by its pair.
#[derive(Clone, Copy)]
enum Way {
    Link,
    Edit,
    Pair,
}

// Whether the node accepts the link, and is then the node of the other payload, or doesn't accept it where there is no other.
fn changes(alloc: Global, node: &mut Node, way: Way, link: &[u8], after: Option<&[u8]>) -> bool {
    let accepts = match way {
        Way::Link => applies_payload(alloc, node, link),
        Way::Edit => edits_payload(alloc, node, link),
        Way::Pair => sets_payload(node, link),
    };
    match after {
        Some(after) => accepts == Some(true) && is_read(alloc, after, node),
        None => accepts == Some(false),
    }
}

fn takes(alloc: Global, way: Way, before: &[u8], link: &[u8], after: Option<&[u8]>) -> bool {
    match node_of(alloc, before) {
        Some(mut node) => changes(alloc, &mut node, way, link, after),
        None => false,
    }
}

// A node, a link, and the node that it is applied to it, or none where the node refuses it.
type Row = (
    &'static str,
    &'static [u8],
    &'static [u8],
    Option<&'static [u8]>,
);

const LINKS: &[Row] = &[
    ("a key is set", EMPTY, SET_B_V, Some(B_TO_V)),
    ("a value is set over another", B_TO_V, SET_B_W, Some(B_TO_W)),
    ("an absent key is deleted", B_TO_W, DEL_A, Some(B_TO_W)),
    ("a key is deleted", B_TO_W, DEL_B, Some(EMPTY)),
    (
        "a long key is set to a long value",
        EMPTY,
        SET_LONG,
        Some(LONG_PAIR),
    ),
    ("a long key is deleted", LONG_PAIR, DEL_LONG, Some(EMPTY)),
    ("a 17th pair", PAIRS_16, SET_Q, Some(PAIRS_17)),
    ("an 18th pair", PAIRS_17, SET_R, Some(PAIRS_18)),
    ("17 pairs are left", PAIRS_18, DEL_R, Some(PAIRS_17)),
    ("a node is capped", EMPTY, CAP, Some(CAPPED)),
    ("a child is to be merged", EMPTY, MERGE_5, Some(MERGING_5)),
    (
        "a child on a page above 2^32",
        EMPTY,
        MERGE_FAR,
        Some(MERGING_FAR),
    ),
    (
        "a merged child is confirmed",
        INDEX_MERGING_5,
        CONFIRM,
        Some(INDEX_OF_NONE),
    ),
    ("a stored key at lo", PREFIXED, SET_A_V, Some(PREFIXED_A)),
    ("a stored key above lo", PREFIXED, SET_B_V, Some(PREFIXED_B)),
    ("a capped node takes no Set", CAPPED, SET_B_V, None),
    ("a capped node takes no Del", CAPPED, DEL_B, None),
    (
        "a capped node takes no ParentMergeIntention",
        CAPPED,
        MERGE_5,
        None,
    ),
    (
        "a capped node takes no ParentMergeConfirm",
        CAPPED,
        CONFIRM,
        None,
    ),
    ("a capped node takes no ChildMergeCap", CAPPED, CAP, None),
    ("no child is on page 0", EMPTY, MERGE_0, None),
    ("no child is being merged", EMPTY, CONFIRM, None),
    ("the same child is being merged", MERGING_5, MERGE_5, None),
    ("another child is being merged", MERGING_5, MERGE_6, None),
    ("a leaf leads to no child", MERGING_5, CONFIRM, None),
    ("an index takes no Set", INDEX_OF_NONE, SET_B_V, None),
    ("an index takes no Del", INDEX_OF_NONE, DEL_B, None),
    ("a stored key below lo", PREFIXED, SET_NO_KEY, None),
    ("a stored key at hi", PREFIXED, SET_Z_V, None),
];

const EDITS: &[Row] = &[
    ("a new key", EMPTY, SET_B_V, Some(B_TO_V)),
    ("a key that is there", B_TO_W, SET_B_V, Some(B_TO_V)),
    ("a key is taken out", B_TO_V, DEL_B, Some(EMPTY)),
    ("an absent key", B_TO_V, DEL_A, Some(B_TO_V)),
    (
        "an absent key below lo",
        CAPPED_B,
        DEL_NO_KEY,
        Some(CAPPED_B),
    ),
    (
        "a node that is being merged",
        CAPPED_FROM_BA,
        SET_B_V,
        Some(CAPPED_B),
    ),
    (
        "a node that is being merged, taken out",
        CAPPED_B,
        DEL_B,
        Some(CAPPED_FROM_BA),
    ),
    ("a stored key below lo", CAPPED_B, SET_NO_KEY, None),
    ("a stored key at hi", CAPPED_B, SET_Z_V, None),
    ("an index", INDEX_OF_NONE, SET_B_V, None),
    ("an index, taken out", INDEX_OF_NONE, DEL_B, None),
];

#[test]
fn links_are_applied_and_leaves_edited(rt: HostRuntime) {
    for (way, rows) in [(Way::Link, LINKS), (Way::Edit, EDITS)] {
        for (row, before, link, after) in rows {
            let is_so = takes(rt.alloc(), way, before, link, *after);
            assert!(rt; is_so, "{row}");
        }
    }
}

#[test]
fn pairs_are_set_as_links_are(rt: HostRuntime) {
    for (row, before, link, after) in LINKS {
        let is_set = link.first() == Some(&0);
        let is_so = !is_set || takes(rt.alloc(), Way::Pair, before, link, *after);
        assert!(rt; split_set(link).is_some() == is_set && is_so, "{row}");
    }
}

// Parts of a link that sets a pair, one with a byte behind it, others with a forged length, and other links.
const NO_SETS: &[&[u8]] = &[
    &[],
    &[0],
    &[0, 1],
    &[0, 1, 98],
    &[0, 1, 98, 1],
    &[0, 1, 98, 1, 118, 0],
    &[0, 250, 255, 255, 255, 1, 1],
    &[0, 0, 255, 0, 0, 0, 0, 0, 0, 0, 1],
    DEL_B,
    MERGE_5,
    CONFIRM,
    CAP,
    &[5, 1, 98, 1, 118],
];

#[test]
fn other_payloads_set_no_pair(rt: HostRuntime) {
    assert!(rt; split_set(SET_KEY) == Some((b"key".as_slice(), b"value".as_slice())));
    for payload in NO_SETS {
        assert!(rt; split_set(payload).is_none(), "{payload:?}");
    }
}

fn is_link_cloned(alloc: Global, payload: &[u8]) -> bool {
    match link_of(alloc, payload) {
        Some(link) => is_cloned(&link),
        None => false,
    }
}

#[test]
fn clones_of_links_are_equal(rt: HostRuntime) {
    for link in [SET_KEY, DEL_KEY, MERGE_7, CONFIRM, CAP] {
        assert!(rt; is_link_cloned(rt.alloc(), link));
    }
}
