// Calls that are made again where they were refused. Run with one allocation refused, whichever it is, each of them changes nothing then, and is made
// at the second try.

use super::*;

// A leaf of "a" and "b" whose first length has four bytes, and is read as if it had one.
const LONG_LENGTH: &[u8] = b"\0\0\0\0\0\0\0\x02\xfa\x01\0\0a\x01b\x011\x012";

const LEAVES: &[&[u8]] = &[EMPTY, PAIRS_17, LONG_PAIR, LONG_LENGTH];

// A new key, the same with a longer and with a shorter value, and keys before and behind it.
const SETS: &[(&[u8], &[u8])] = &[
    (b"m", &[1; 30]),
    (b"m", &[2; 300]),
    (b"m", &[3; 3]),
    (&[110; 2288], b"n"),
    (b"b", &[]),
];

fn read(alloc: Global, payload: &[u8]) -> Option<Node> {
    match node_of(alloc, payload) {
        Some(node) => Some(node),
        None => node_of(alloc, payload),
    }
}

fn copied(node: &Node) -> Option<Node> {
    match node.clone() {
        Ok(copy) => Some(copy),
        Err(_) => node.clone().ok(),
    }
}

fn string(alloc: Global, from: &[u8]) -> Option<IVec> {
    match bytes(alloc, from) {
        Ok(string) => Some(string),
        Err(_) => bytes(alloc, from).ok(),
    }
}

fn is_applied(node: &mut Node, link: &Link, before: &Node) -> bool {
    if !node.accepts(link) {
        return false;
    }
    match node.apply(link) {
        Ok(()) => true,
        Err(_) => *node == *before && node.accepts(link) && node.apply(link).is_ok(),
    }
}

fn is_set(alloc: Global, node: &mut Node, key: &[u8], value: &[u8]) -> bool {
    let (Some(key), Some(value)) = (string(alloc, key), string(alloc, value)) else {
        return false;
    };
    match copied(node) {
        Some(before) => is_applied(node, &Link::Set(key, value), &before),
        None => false,
    }
}

fn are_set(alloc: Global, node: &mut Node) -> bool {
    for (key, value) in SETS {
        if !is_set(alloc, node, key, value) {
            return false;
        }
    }
    true
}

fn halves(node: Node) -> Option<(Node, Node)> {
    if node.len() < 3 {
        return None;
    }
    node.split().ok()
}

fn parted(node: &Node) -> Option<(Node, Node)> {
    match halves(copied(node)?) {
        Some(both) => Some(both),
        None => halves(copied(node)?),
    }
}

fn merged(left: &Node, right: &Node) -> Option<Node> {
    if !left.can_receive(right) {
        return None;
    }
    match left.receive_merge(right) {
        Ok(node) => Some(node),
        Err(_) => left.receive_merge(right).ok(),
    }
}

// Whether the halves of the node make it again.
fn is_joined(node: &Node) -> bool {
    let Some((left, right)) = parted(node) else {
        return false;
    };
    match merged(&left, &right) {
        Some(whole) => whole == *node,
        None => false,
    }
}

// Whether a leaf is read, edited, split and merged.
fn is_made(alloc: Global, payload: &[u8]) -> bool {
    match read(alloc, payload) {
        Some(mut node) => are_set(alloc, &mut node) && is_joined(&node),
        None => false,
    }
}

#[test]
fn a_refused_allocation_leaves_a_leaf(rt: HostRuntime) {
    for payload in LEAVES {
        assert!(rt; is_made(rt.alloc(), payload));
    }
}
