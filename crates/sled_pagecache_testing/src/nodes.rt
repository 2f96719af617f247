//! Links and nodes of a page.

use sled_base::IVec;
use sled_node::{Data, Item, Leaf, Link, Node};
use std::alloc::{AllocError, Global};

/// Makes a link that sets a key to a value.
pub fn set(alloc: Global, key: &[u8], value: &[u8]) -> Result<Link, AllocError> {
    Ok(Link::Set(
        IVec::from_slice(alloc, key)?,
        IVec::from_slice(alloc, value)?,
    ))
}

/// Makes an empty leaf of the keys between these bounds, of which the first byte is a prefix.
pub fn node_between(alloc: Global, lo: &[u8], hi: &[u8]) -> Result<Option<Node>, AllocError> {
    let lo = IVec::from_slice(alloc, lo)?;
    let hi = IVec::from_slice(alloc, hi)?;
    let leaf = Data::Leaf(Leaf::default(alloc));
    Ok(Node::from_parts(1, None, None, false, lo, hi, leaf))
}

/// Returns whether a node has exactly one pair, of this stored key and this value.
pub fn is_pair(node: &Node, key: &[u8], value: &[u8]) -> bool {
    if node.len() != 1 {
        return false;
    }
    let (stored, item) = node.pair(0);
    stored == key && item == Item::Value(value)
}
