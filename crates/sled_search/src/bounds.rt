//! Where a node leads a search for the keys just before a bound.

ghost use Rattle.std.specs.Prelude.{◌≡◌, ◌<◌, ◌≤◌, true, length, take, Some, IsTrue, ◌↔◌, slice_get};
ghost use Rattle.std.specs.declared.ops.Bound.{Bound as BoundOf};
ghost use Rattle.sled_base.specs.Order.{Bytes, IsBelow, IsAtMost};
ghost use Rattle.sled_node.specs.Neighbours.{IsBefore, IsCount};
ghost use Rattle.sled_node.specs.Node.{Item as WholeItem, IsInRange};
ghost use Rattle.sled_search.specs.Ordered.{HasBefore, IsChildOf};
ghost use Rattle.sled_search.specs.Routes.{RoutesBefore};

use crate::turns::Turn;
use sled_base::{IVec, PageId};
use sled_node::{Item, Node};
use std::ops::Bound;

/// Returns where a node leads a search for the keys just before a bound: all keys before the bound, from some key on.
///
/// The result is [`Turn::Here`] at a leaf whose range has these keys, and [`Turn::Down`] at an index whose range has them and that has a child
/// for them. It is [`Turn::Right`] at a node whose range lacks them and that has a next node. Otherwise it is [`Turn::Astray`].
pub fn route_before(node: &Node, bound: &Bound<IVec>) -> Turn
    ensures { RoutesBefore bound.now result node.now }
{
    if !node.contains_upper_bound(bound) || !node.contains_lower_bound(bound, false) {
        return right_before(node);
    }
    if !node.is_index() {
        return Turn::Here;
    }
    match child_at(node, count_before(node, bound)) {
        Some(child) => Turn::Down(child),
        None => Turn::Astray,
    }
}

// To the right, of keys that aren't in the range.
fn right_before(node: &Node) -> Turn
    ensures { (bound : BoundOf Bytes) → (¬ HasBefore bound node.now)
        → RoutesBefore bound result node.now }
{
    match node.next() {
        Some(page) => Turn::Right(page.get()),
        None => Turn::Astray,
    }
}

// The child of the last of so many first pairs of an index.
fn child_at(node: &Node, count: usize) -> Option<PageId>
    requires index { node.now.is_index ≡ true }
    requires within { count ≤ length node.now.pairs }
    ensures { IsChildOf node.now.pairs count result }
{
    let last = count.checked_sub(1)?;
    let _ = node.data(); // which says that an index has children alone
    match node.pair(last) {
        (_, Item::Child(page)) => Some(page),
        (_, Item::Value(_)) => unreachable!(),
    }
}

// How many keys of an index are before the bound, where the keys right before it are in the range.
fn count_before(node: &Node, bound: &Bound<IVec>) -> usize
    requires index { node.now.is_index ≡ true }
    requires has { HasBefore bound.now node.now }
    ensures { IsCount (IsBefore bound.now) (λ key. IsBefore bound.now key
        → ⊥) node.now.pairs result }
{
    match bound {
        Bound::Included(key) => count_up_to(node, key.as_slice()),
        Bound::Excluded(key) => count_below(node, key.as_slice()),
        Bound::Unbounded => node.len(),
    }
}

// How many keys of an index are at most this one, which is in its range.
fn count_up_to(node: &Node, key: &[u8]) -> usize
    requires index { node.now.is_index ≡ true }
    requires range { IsInRange node.now key.now }
    ensures { IsCount (λ other. IsAtMost other key.now)
        (λ other. IsBelow key.now other) node.now.pairs result }
{
    let _ = node.data(); // which says that the keys rise
    if !node.has_child_for(key) {
        return 0;
    }
    let (at, _) = node.index_next_node(key);
    at + 1
}

// How many keys of an index are below this one, which is in its range or its end.
fn count_below(node: &Node, key: &[u8]) -> usize
    requires index { node.now.is_index ≡ true }
    requires low { IsAtMost node.now.lo key.now }
    ensures { IsCount (λ other. IsBelow other key.now)
        (λ other. IsAtMost key.now other) node.now.pairs result }
{
    let _ = node.data(); // which says that the keys rise, and are in the range
    if !node.contains_key(key) {
        return node.len();
    }
    let count = count_up_to(node, key);
    if count == 0 {
        return 0;
    }
    let last = count - 1;
    if is_key_at(node, last, key) {
        return last;
    }
    count
}

/// Returns whether the key of the pair at place `at`, taken whole, is `key`.
pub fn is_key_at(node: &Node, at: usize, key: &[u8]) -> bool
    requires { at < length node.now.pairs }
    ensures { (found : Bytes) (item : WholeItem) → slice_get node.now.pairs at ≡ Some (found, item)
        → IsTrue result ↔ (found ≡ key.now) }
{
    let (stored, _) = node.pair(at);
    match key.strip_prefix(prefix(node)) {
        Some(rest) => rest == stored,
        None => false,
    }
}

// The first bytes of `lo`, which stored keys lack.
fn prefix(node: &Node) -> &[u8]
    ensures { result.now ≡ take node.now.prefix_len node.now.lo }
{
    let skipped = node.prefix_len() as usize;
    &node.lo().as_slice()[..skipped]
}
