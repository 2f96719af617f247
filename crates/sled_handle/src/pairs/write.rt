//! Writing pairs.

ghost use Rattle.std.specs.Prelude.{◌≡◌, ◌+◌, ◌<◌, ◌≤◌, ◌^◌, ◌++◌, ◌∷◌, length, drop, take};
ghost use Rattle.sled_node.specs.Node.{whole};
ghost use Rattle.sled_node.specs.Parts.{item_of};
ghost use Rattle.sled_handle.specs.Pairs.{IsPut, IsShort, item_bytes, node_bytes, pair_bytes, value_of};

use sled_pagecache::{Item, Node};

// So many bytes stand before a key.
pub(super) const HEAD: usize = 8;

/// Returns how many bytes the pairs of a node take.
pub fn size_of_pairs(node: &Node) -> usize
    ensures { result ≡ length (node_bytes node.now) }
{
    know_size(node);
    let front = prefix_of(node);
    let mut size = 0;
    for i in 0..node.len() {
        let (rest, item) = pair_at(node, i);
        size += HEAD + front.len() + rest.len() + size_of_value(item);
    }
    size
}

/// Writes the pairs of a node to the front of `out`, which must have room for them.
pub fn write_pairs(node: &Node, out: &mut [u8])
    requires { length (node_bytes node.now) ≤ length out.old }
    ensures { IsPut out.old 0 (node_bytes node.now) out.new }
{
    let front = prefix_of(node);
    let mut end = 0;
    for i in 0..node.len() {
        let (rest, item) = pair_at(node, i);
        end = put_item(front, rest, item, out, end);
    }
}

// What stored keys lack.
fn prefix_of(node: &Node) -> &[u8]
    ensures { result.now ≡ take node.now.prefix_len node.now.lo }
{
    &node.lo().as_slice()[..node.prefix_len() as usize]
}

// The pair at place `i`, by its stored key.
fn pair_at(node: &Node, i: usize) -> (&[u8], Item<'_>)
    requires { i < length node.now.pairs }
    ensures next { drop i node.now.pairs
        ≡ (whole node.now result.0.now, item_of result.1) ∷ drop (i + 1) node.now.pairs }
    ensures short { IsShort (whole node.now result.0.now, value_of (item_of result.1)) }
{
    let _data = node.data();
    node.pair(i)
}

// The pairs of every node take fewer bytes than there can be. Nothing is done.
fn know_size(node: &Node)
    ensures { length (node_bytes node.now) < 2 ^ 60 }
{
    let _data = node.data();
}

// How many bytes a value takes.
fn size_of_value(item: Item<'_>) -> usize
    ensures { result ≡ length (value_of (item_of item.entry)) }
{
    match item {
        Item::Value(value) => value.len(),
        Item::Child(_) => 8,
    }
}

// Writes a pair from a place on, where there is room for it, and answers where it ends.
fn put_item(front: &[u8], rest: &[u8], item: Item<'_>, out: &mut [u8], start: usize) -> usize
    requires short { IsShort (front.now ++ rest.now, value_of (item_of item)) }
    requires room { start + length (item_bytes (front.now ++ rest.now, item_of item))
        ≤ length out.old }
    ensures end { result ≡ start + length (item_bytes (front.now ++ rest.now, item_of item.entry)) }
    ensures bytes { IsPut out.old start (item_bytes (front.now ++ rest.now, item_of item.entry)) out.new }
{
    match item {
        Item::Value(value) => put_pair(front, rest, value, out, start),
        Item::Child(page) => put_pair(front, rest, &page.to_le_bytes(), out, start),
    }
}

// The same of a value that stands alone.
pub(super) fn put_pair(
    front: &[u8],
    rest: &[u8],
    value: &[u8],
    out: &mut [u8],
    start: usize,
) -> usize
    requires short { IsShort (front.now ++ rest.now, value.now) }
    requires room { start + length (pair_bytes (front.now ++ rest.now, value.now))
        ≤ length out.old }
    ensures end { result ≡ start + length (pair_bytes (front.now ++ rest.now, value.now)) }
    ensures bytes { IsPut out.old start (pair_bytes (front.now ++ rest.now, value.now)) out.new }
{
    let key_len = (front.len() + rest.len()) as u32;
    let value_len = value.len() as u32;
    let end = put(&key_len.to_le_bytes(), out, start);
    let end = put(&value_len.to_le_bytes(), out, end);
    let end = put(front, out, end);
    let end = put(rest, out, end);
    put(value, out, end)
}

// Writes the bytes from a place on, where there is room for them, and answers where they end.
pub(super) fn put(bytes: &[u8], out: &mut [u8], start: usize) -> usize
    requires { start + length bytes.now ≤ length out.old }
    ensures end { result ≡ start + length bytes.now }
    ensures bytes { IsPut out.old start bytes.now out.new }
{
    let end = start + bytes.len();
    out[start..end].copy_from_slice(bytes);
    end
}
