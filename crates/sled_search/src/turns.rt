//! Where a node leads a search for a key.

ghost use Rattle.sled_base.specs.Order.{Bytes};
ghost use Rattle.sled_node.specs.Node.{IsInRange};
ghost use Rattle.sled_search.specs.Routes.{Routes};

use sled_base::PageId;
use sled_node::Node;

/// Where a search for a key looks next.
#[derive(Clone, Copy, Debug, PartialEq, Eq)]
pub enum Turn {
    /// Nowhere else: if any leaf has the key, it is this one.
    Here,
    /// In this child.
    Down(PageId),
    /// In the next node to the right, which received a part of this node's range when this node was split.
    Right(PageId),
    /// Nowhere: the node is not a leaf of the key and leads nowhere. In a tree, no search comes to such a node.
    Astray,
}

/// Returns where a node leads a search for a whole key.
///
/// The result is [`Turn::Here`] at a leaf whose range has the key, and [`Turn::Down`] at an index whose range has the key and that has a child
/// for it. It is [`Turn::Right`] at a node whose range lacks the key and that has a next node. Otherwise it is [`Turn::Astray`].
pub fn route(node: &Node, key: &[u8]) -> Turn
    ensures { Routes key.now result node.now }
{
    if node.has_child_for(key) {
        let (_, child) = node.index_next_node(key);
        return Turn::Down(child);
    }
    if !node.contains_key(key) {
        return route_right(node);
    }
    let _ = node.data(); // which says that the keys rise
    if node.is_index() {
        return Turn::Astray;
    }
    Turn::Here
}

// To the right, of a key that isn't in the range.
fn route_right(node: &Node) -> Turn
    ensures { (key : Bytes) → (¬ IsInRange node.now key) → Routes key result node.now }
{
    match node.next() {
        Some(page) => Turn::Right(page.get()),
        None => Turn::Astray,
    }
}
