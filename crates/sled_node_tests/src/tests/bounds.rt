use super::*;

// A leaf from "ba" up to "bz".
const FROM_BA: &[u8] = &[0, 0, 0, 1, 2, 98, 97, 2, 98, 122, 0, 1, 1, 98, 1, 118];

// Whether the bound ends within the node, and begins within it forward, and backward.
fn lies_within(node: &Node, bound: &Bound<IVec>) -> [bool; 3] {
    [
        node.contains_upper_bound(bound),
        node.contains_lower_bound(bound, true),
        node.contains_lower_bound(bound, false),
    ]
}

fn node_is_around(alloc: Global, payload: &[u8], bound: &Bound<IVec>, wanted: [bool; 3]) -> bool {
    match node_of(alloc, payload) {
        Some(node) => lies_within(&node, bound) == wanted,
        None => false,
    }
}

fn is_within(alloc: Global, payload: &[u8], kind: u8, key: &[u8], wanted: [bool; 3]) -> bool {
    match bound_of(alloc, kind, key) {
        Ok(bound) => node_is_around(alloc, payload, &bound, wanted),
        Err(_) => false,
    }
}

const ROWS: &[(&[u8], u8, &[u8], [bool; 3])] = &[
    (FROM_BA, b'(', b"", [true, false, false]),
    (FROM_BA, b'[', b"", [true, false, false]),
    (FROM_BA, b'(', b"b", [true, false, false]),
    (FROM_BA, b'[', b"b", [true, false, false]),
    (FROM_BA, b'(', b"ba", [true, true, false]),
    (FROM_BA, b'[', b"ba", [true, true, true]),
    (FROM_BA, b'(', b"bb", [true, true, true]),
    (FROM_BA, b'[', b"bb", [true, true, true]),
    (FROM_BA, b'(', b"by", [true, true, true]),
    (FROM_BA, b'[', b"by", [true, true, true]),
    (FROM_BA, b'(', b"bz", [true, true, true]),
    (FROM_BA, b'[', b"bz", [false, true, true]),
    (FROM_BA, b'(', b"bza", [false, true, true]),
    (FROM_BA, b'[', b"bza", [false, true, true]),
    (FROM_BA, b'-', b"", [false, false, false]),
    (EMPTY, b'(', b"", [true, true, true]),
    (EMPTY, b'[', b"", [true, true, true]),
    (EMPTY, b'(', b"bz", [true, true, true]),
    (EMPTY, b'[', b"bz", [true, true, true]),
    (EMPTY, b'-', b"", [true, true, true]),
];

#[test]
fn bounds_lie_within(rt: HostRuntime) {
    for (node, kind, key, wanted) in ROWS {
        assert!(rt; is_within(rt.alloc(), node, *kind, key, *wanted), "{key:?}");
    }
}
