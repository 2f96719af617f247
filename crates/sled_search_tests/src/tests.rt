// Rows of nodes, as their payloads: next page, merging child, mark, prefix length, both bounds, kind, count, stored keys, items.

use Sought::{At, Below, Last, UpTo};
use Turn::{Astray, Down, Here, Right};
use sled_base::{Error, IVec};
use sled_node::{Node, Serialize};
use sled_search::{Turn, route, route_before, value_in};
use std::alloc::Global;
use std::ops::Bound;
use std::process::Abort;

fn node_of(alloc: Global, payload: &[u8]) -> Option<Node> {
    let mut input = payload;
    Node::deserialize(alloc, &mut input).ok()
}

// From "b" up to "m", with "c" and "f"; page 7 is to the right.
const LEAF: &[u8] = b"\x07\0\0\0\x01b\x01m\0\x02\x01c\x01f\x01v\x01w";

// The same range, and a child from "b" and one from "f" on.
const INDEX: &[u8] = b"\x07\0\0\0\x01b\x01m\x01\x02\x01b\x01f\x03\x04";

// From "b" on, with no end and no page to the right.
const LAST: &[u8] = b"\0\0\0\0\x01b\0\0\x01\x01c\x01v";

// Over all keys, with no child.
const BARE: &[u8] = b"\0\0\0\0\0\0\x01\0";

// From "ba" up to "bz", whose first byte the stored keys lack.
const UNDER_B: &[u8] = b"\0\0\0\x01\x02ba\x02bz\x01\x02\x01a\x01f\x03\x04";

// What is looked for: a key, or the last key before a bound.
#[derive(Clone, Copy)]
enum Sought {
    At(&'static [u8]),
    UpTo(&'static [u8]),
    Below(&'static [u8]),
    Last,
}

// A name, a node, what is looked for, and where the node leads it.
type Row = (&'static str, &'static [u8], Sought, Turn);

const KEYS: &[Row] = &[
    ("a key of a leaf", LEAF, At(b"c"), Here),
    ("a key that a leaf lacks", LEAF, At(b"d"), Here),
    ("where a leaf begins", LEAF, At(b"b"), Here),
    ("where it ends", LEAF, At(b"m"), Right(7)),
    ("behind its end", LEAF, At(b"z"), Right(7)),
    ("before it begins", LEAF, At(b"a"), Right(7)),
    ("a leaf with no end", LAST, At(b"z"), Here),
    ("before a leaf with no neighbour", LAST, At(b"a"), Astray),
    ("at the first child", INDEX, At(b"b"), Down(3)),
    ("behind the first child's key", INDEX, At(b"ez"), Down(3)),
    ("at the second child", INDEX, At(b"f"), Down(4)),
    ("behind the last child's key", INDEX, At(b"lz"), Down(4)),
    ("where an index ends", INDEX, At(b"m"), Right(7)),
    ("an index with no child", BARE, At(b"a"), Astray),
    ("a key with the prefix", UNDER_B, At(b"bc"), Down(3)),
    ("the empty key", BARE, At(b""), Astray),
];

const BOUNDS: &[Row] = &[
    ("below the second child", INDEX, Below(b"f"), Down(3)),
    ("up to it", INDEX, UpTo(b"f"), Down(4)),
    ("right behind it", INDEX, Below(b"f\0"), Down(4)),
    ("up to the first child", INDEX, UpTo(b"b"), Down(3)),
    ("below the beginning", INDEX, Below(b"b"), Right(7)),
    ("below the end", INDEX, Below(b"m"), Down(4)),
    ("up to the end", INDEX, UpTo(b"m"), Right(7)),
    ("below more than the end", INDEX, Below(b"m\0"), Right(7)),
    ("all, where more is to the right", INDEX, Last, Right(7)),
    ("all, with no child", BARE, Last, Astray),
    ("below the end of a leaf", LEAF, Below(b"m"), Here),
    ("below its beginning", LEAF, Below(b"b"), Right(7)),
    ("all, at the last leaf", LAST, Last, Here),
    ("below the last leaf's beginning", LAST, Below(b"b"), Astray),
    (
        "below a key with the prefix",
        UNDER_B,
        Below(b"bf"),
        Down(3),
    ),
    ("right behind it", UNDER_B, Below(b"bf\0"), Down(4)),
    (
        "below an end with the prefix",
        UNDER_B,
        Below(b"bz"),
        Down(4),
    ),
];

fn turn_of(alloc: Global, payload: &[u8], sought: Sought) -> Option<Turn> {
    let node = node_of(alloc, payload)?;
    let bound = match sought {
        At(key) => return Some(route(&node, key)),
        UpTo(key) => Bound::Included(IVec::from_slice(alloc, key).ok()?),
        Below(key) => Bound::Excluded(IVec::from_slice(alloc, key).ok()?),
        Last => Bound::Unbounded,
    };
    Some(route_before(&node, &bound))
}

// The name of the first row that is led elsewhere.
fn led_elsewhere(alloc: Global, rows: &[Row]) -> Option<&'static str> {
    for (name, payload, sought, turn) in rows {
        if turn_of(alloc, payload, *sought) != Some(*turn) {
            return Some(*name);
        }
    }
    None
}

#[test]
fn keys_are_led(rt: HostRuntime) {
    assert_eq!(rt; led_elsewhere(rt.alloc(), KEYS), None);
}

#[test]
fn keys_right_before_a_bound_are_led(rt: HostRuntime) {
    assert_eq!(rt; led_elsewhere(rt.alloc(), BOUNDS), None);
}

fn is_value(answer: Result<Option<IVec>, Error>, wanted: Option<&[u8]>) -> bool {
    match (answer, wanted) {
        (Ok(Some(value)), Some(wanted)) => value.as_slice() == wanted,
        (Ok(None), None) => true,
        _ => false,
    }
}

fn has(alloc: Global, payload: &[u8], key: &[u8], wanted: Option<&[u8]>) -> bool {
    match node_of(alloc, payload) {
        Some(node) => is_value(value_in(&node, key), wanted),
        None => false,
    }
}

fn is_refused(alloc: Global, payload: &[u8], key: &[u8]) -> bool {
    match node_of(alloc, payload) {
        Some(node) => matches!(value_in(&node, key), Err(Error::Corruption(None))),
        None => false,
    }
}

const VALUES: &[(&str, &[u8], &[u8], Option<&[u8]>)] = &[
    ("a key that is there", LEAF, b"c", Some(b"v")),
    ("the last one", LEAF, b"f", Some(b"w")),
    ("a key that is missing", LEAF, b"d", None),
];

#[test]
fn leaves_have_values(rt: HostRuntime) {
    for (row, payload, key, wanted) in VALUES {
        assert!(rt; has(rt.alloc(), payload, key, *wanted), "{row}");
    }
    assert!(rt; is_refused(rt.alloc(), LEAF, b"m"));
    assert!(rt; is_refused(rt.alloc(), INDEX, b"c"));
}
