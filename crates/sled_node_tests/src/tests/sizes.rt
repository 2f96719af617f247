use super::corners::{SHAPES, filled};
use super::links::{CAP, MERGE_0, MERGE_5, applies_payload};
use super::*;

// Whether the node is to be split, and whether to be merged.
fn should(node: &Node) -> (bool, bool) {
    (node.should_split(), node.should_merge())
}

// Whether this is so of a leaf or an index of so many pairs.
fn should_be(alloc: Global, is_index: bool, count: u32, wanted: (bool, bool)) -> bool {
    match filled(alloc, is_index, &SHAPES[0], b"", count) {
        Some(node) => should(&node) == wanted,
        None => false,
    }
}

const COUNTS: &[(bool, u32, bool, bool)] = &[
    (false, 3, false, true),
    (false, 4, false, false),
    (false, 16, false, false),
    (false, 17, true, false),
    (true, 63, false, true),
    (true, 64, false, false),
    (true, 256, false, false),
    (true, 257, true, false),
];

#[test]
fn nodes_are_split_and_merged(rt: HostRuntime) {
    for (is_index, count, split, merge) in COUNTS {
        let is_so = should_be(rt.alloc(), *is_index, *count, (*split, *merge));
        assert!(rt; is_so, "{count} pairs");
    }
}

// Whether it is so that an empty leaf to which the link is applied, if it accepts that, is to be merged, and that it may have a
// child merged.
fn is_free(alloc: Global, link: &[u8], wanted: (bool, bool)) -> bool {
    let mut node = Node::default(alloc);
    let is_done = applies_payload(alloc, &mut node, link).is_some();
    is_done && (node.should_merge(), node.can_merge_child()) == wanted
}

const MARKS: &[(&str, &[u8], (bool, bool))] = &[
    ("no mark", MERGE_0, (true, true)),
    ("a child is being merged", MERGE_5, (false, false)),
    ("the node is being merged", CAP, (false, false)),
];

#[test]
fn a_marked_node_stays(rt: HostRuntime) {
    for (row, link, wanted) in MARKS {
        assert!(rt; is_free(rt.alloc(), link, *wanted), "{row}");
    }
}

fn has_size(alloc: Global, payload: &[u8], size: u64) -> bool {
    match node_of(alloc, payload) {
        Some(node) => node.rss() == size,
        None => false,
    }
}

fn empty_rss(alloc: Global) -> u64 {
    let contents = Data::Leaf(Leaf::default(alloc));
    contents.rss()
}

#[test]
fn stored_keys_and_items_count(rt: HostRuntime) {
    for (row, payload, size) in [
        (
            "a leaf from \"ba\" up to \"bz\" with a pair",
            [0, 0, 0, 1, 2, 98, 97, 2, 98, 122, 0, 1, 1, 98, 1, 118].as_slice(),
            134,
        ),
        ("an empty leaf", EMPTY, 128),
        (
            "an index of three keys of two bytes",
            &[0, 0, 0, 0, 0, 0, 1, 3, 2, 0, 0, 2, 0, 1, 2, 0, 2, 2, 2, 2],
            158,
        ),
    ] {
        assert!(rt; has_size(rt.alloc(), payload, size), "{row}");
    }
    assert!(rt; empty_rss(rt.alloc()) == 0);
}
