//! Merging a node with its right neighbour.

ghost use Rattle.std.specs.Prelude.{◌≡◌, ◌↔◌, ◌++◌, IsTrue, IfOk};
ghost use Rattle.sled_node.specs.Parts.{is_index, HasStored};
ghost use Rattle.sled_node.specs.Splitting.{CanReceive, merged};
ghost use Rattle.sled_node.specs.Restoring.{restored, restored_data, joined_data};

use super::stored::{own_prefix, store_without};
use super::{Data, Index, MAX_PAIRS, Node};
use sled_base::IVec;
use std::alloc::AllocError;

impl Node {
    /// Returns whether `right` can be merged into this node: both are of the same kind, this one has an end, `right` begins there, and
    /// together they have at most [`MAX_PAIRS`] pairs.
    pub fn can_receive(&self, right: &Node) -> bool
        ensures { IsTrue result ↔ CanReceive self.now right.now }
    {
        self.is_index() == right.is_index()
            && !self.hi.is_empty()
            && self.hi == right.lo
            && self.len() <= MAX_PAIRS - right.len()
    }

    /// Returns this node with the pairs of its right neighbour after its own. [`can_receive`](Node::can_receive) must hold.
    ///
    /// The result has this node's marks, and the neighbour's end and next. Its stored keys lack what its bounds have in common, up to
    /// 255 bytes. Both nodes are unchanged. An error means that an allocation failed.
    pub fn receive_merge(&self, right: &Node) -> Result<Node, AllocError>
        requires { CanReceive self.now right.now }
        ensures { IfOk result (λ node. node ≡ merged self.now right.now) }
    {
        let prefix_len = own_prefix(&self.lo, &right.hi);
        let lo = self.lo.clone()?;
        let hi = right.hi.clone()?;
        let contents = self.contents.joined(
            self.prefix(),
            &right.contents,
            right.prefix(),
            prefix_len as usize,
        )?;
        Ok(Node {
            prefix_len,
            next: right.next,
            merging_child: self.merging_child,
            merging: self.merging,
            lo,
            hi,
            contents,
        })
    }
}

impl Data {
    // The pairs of both, with stored keys that lack so many bytes in place of those of the prefixes.
    fn joined(
        &self,
        prefix: &[u8],
        right: &Data,
        right_prefix: &[u8],
        skipped: usize,
    ) -> Result<Data, AllocError>
        requires kinds { is_index self.now ≡ is_index right.now }
        requires stored { HasStored (joined_data (restored_data prefix.now skipped self.now)
            (restored_data right_prefix.now skipped right.now)) }
        ensures { IfOk result (λ parts. parts ≡ joined_data (restored_data prefix.now skipped
            self.now) (restored_data right_prefix.now skipped right.now)) }
    {
        match (self, right) {
            (Data::Leaf(left), Data::Leaf(right)) => {
                Ok(Data::Leaf(left.joined(prefix, right, right_prefix, skipped)?))
            }
            (Data::Index(left), Data::Index(right)) => {
                let left = left.clone()?.into_pairs();
                let right = right.clone()?.into_pairs();
                let pairs = joined_pairs(left, prefix, right, right_prefix, skipped)?;
                Ok(Data::Index(Index::of(pairs)))
            }
            _ => unreachable!(),
        }
    }
}

// The pairs of both, with stored keys that lack so many bytes in place of those of the prefixes.
fn joined_pairs<V: Drop>(
    mut left: Vec<(IVec, V)>,
    prefix: &[u8],
    mut right: Vec<(IVec, V)>,
    right_prefix: &[u8],
    skipped: usize,
) -> Result<Vec<(IVec, V)>, AllocError>
    ensures { IfOk result (λ pairs. pairs.items ≡ restored prefix.now skipped left.items
        ++ restored right_prefix.now skipped right.items) }
{
    store_without(&mut left, prefix, skipped)?;
    store_without(&mut right, right_prefix, skipped)?;
    left.append(&mut right)?;
    Ok(left)
}
