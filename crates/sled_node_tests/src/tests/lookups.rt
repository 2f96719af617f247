use super::*;

// Over "ba" to "bz", without the first byte: "b" to "v".
const ONE_PAIR: &[u8] = &[0, 0, 0, 1, 2, 98, 97, 2, 98, 122, 0, 1, 1, 98, 1, 118];

// Over all keys, with no byte left out: "" to "v", and "b" to "w".
const TWO_PAIRS: &[u8] = &[0, 0, 0, 0, 0, 0, 0, 2, 0, 1, 98, 1, 118, 1, 119];

// Whether the leaf lends this stored key with this value for the whole key, or none.
fn lends(node: &Node, key: &[u8], pair: Option<(&[u8], &[u8])>) -> bool {
    !node.is_index() && node.leaf_pair_for_key(key) == pair
}

fn is_value(found: &Option<IVec>, value: Option<&[u8]>) -> bool {
    match (found, value) {
        (Some(found), Some(value)) => found.eq_bytes(value),
        (None, None) => true,
        _ => false,
    }
}

// Whether the leaf gives the stored key for the whole key, with this value or none.
fn gives(node: &Node, key: &[u8], stored: &[u8], value: Option<&[u8]>) -> bool {
    if node.is_index() || !node.contains_key(key) {
        return false;
    }
    match node.node_kv_pair(key) {
        Ok(pair) => pair.0.eq_bytes(stored) && is_value(&pair.1, value),
        Err(_) => false,
    }
}

// Whether the whole key, which is stored as this one, or as none where it is out of the range, is found with the value.
pub(super) fn is_found(
    node: &Node,
    key: &[u8],
    stored: Option<&[u8]>,
    value: Option<&[u8]>,
) -> bool {
    match (stored, value) {
        (None, _) => lends(node, key, None),
        (Some(stored), None) => lends(node, key, None) && gives(node, key, stored, None),
        (Some(stored), Some(value)) => {
            lends(node, key, Some((stored, value))) && gives(node, key, stored, Some(value))
        }
    }
}

fn finds(
    alloc: Global,
    payload: &[u8],
    key: &[u8],
    stored: Option<&[u8]>,
    value: Option<&[u8]>,
) -> bool {
    match node_of(alloc, payload) {
        Some(node) => is_found(&node, key, stored, value),
        None => false,
    }
}

const ROWS: &[(&[u8], &[u8], Option<&[u8]>, Option<&[u8]>)] = &[
    (ONE_PAIR, b"bb", Some(b"b"), Some(b"v")),
    (ONE_PAIR, b"", None, None),
    (ONE_PAIR, b"a", None, None),
    (ONE_PAIR, b"b", None, None),
    (ONE_PAIR, b"abb", None, None),
    (ONE_PAIR, b"ba", Some(b"a"), None),
    (ONE_PAIR, b"bc", Some(b"c"), None),
    (ONE_PAIR, b"bbb", Some(b"bb"), None),
    (ONE_PAIR, b"c", None, None),
    (
        ONE_PAIR,
        b"bxxxxxxxxxxxxxxxxxxxxxxxxxxxxxx",
        Some(b"xxxxxxxxxxxxxxxxxxxxxxxxxxxxxx"),
        None,
    ),
    (TWO_PAIRS, b"", Some(b""), Some(b"v")),
    (TWO_PAIRS, b"b", Some(b"b"), Some(b"w")),
    (TWO_PAIRS, b"a", Some(b"a"), None),
];

#[test]
fn whole_keys_are_looked_up(rt: HostRuntime) {
    for (payload, key, stored, value) in ROWS {
        assert!(rt; finds(rt.alloc(), payload, key, *stored, *value), "{key:?}");
    }
}
