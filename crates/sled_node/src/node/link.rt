//! Links: the changes of a node.

use sled_base::{IVec, PageId};
use std::alloc::AllocError;

/// A change of a node.
///
/// The key of `Set` and `Del` is a stored key: it lacks the first `prefix_len` bytes of the node's `lo`.
#[derive(Debug, Drop, PartialEq, Eq)]
pub enum Link {
    /// Maps the key to the value, in a leaf. Neither the whole key nor the value is longer than
    /// [`MAX_BYTES`](super::MAX_BYTES).
    Set(IVec, IVec),
    /// Removes the key from a leaf, if it is there. The whole key isn't longer than [`MAX_BYTES`](super::MAX_BYTES).
    Del(IVec),
    /// Marks the child on this page, which isn't 0, as being merged into its left neighbour.
    ParentMergeIntention(PageId),
    /// Removes the first pair that leads to the marked child from an index, and the mark.
    ParentMergeConfirm,
    /// Marks the node itself as being merged. It then accepts no more links.
    ChildMergeCap,
}

impl Clone for Link {
    ghost use Rattle.std.specs.Prelude.{◌≡◌};

    ghost is_clone = { λ v w. w ≡ v };

    /// Copies the link. Byte strings longer than 22 bytes are shared. An error means that there are more holders than can be counted.
    fn clone(&self) -> Result<Link, AllocError> {
        Ok(match self {
            Link::Set(key, value) => Link::Set(key.clone()?, value.clone()?),
            Link::Del(key) => Link::Del(key.clone()?),
            Link::ParentMergeIntention(page) => Link::ParentMergeIntention(*page),
            Link::ParentMergeConfirm => Link::ParentMergeConfirm,
            Link::ChildMergeCap => Link::ChildMergeCap,
        })
    }
}
