//! Splitting a node in two, and linking the left part to the right one.

ghost use Rattle.std.specs.Prelude.{◌≡◌, ◌+◌, ◌/◌, ◌<◌, ◌≤◌, take, drop, length, Some, IfOk, OnOk};
ghost use Rattle.std.specs.Int.NonZero.{non_zero_u64_get};
ghost use Rattle.sled_node.specs.Parts.{HasStored};
ghost use Rattle.sled_node.specs.Splitting.{least, greatest, SeparatesAt, IsSplitPlace, SplitsBehind, Splits, MergeBack};
ghost use Rattle.sled_node.specs.Restoring.{restored, restored_data, first_data, later_data, data_len};

use super::parts::know_page;
use super::stored::{common_len, own_prefix, store_without};
use super::{Data, Index, Node};
use sled_base::IVec;
use sled_base::prefix::decode;
use std::alloc::AllocError;
use std::num::NonZeroU64;

impl Node {
    /// Splits a node of at least three pairs in two. The left part has the first `len / 2 + 1` pairs, and the right part the others.
    ///
    /// The left part begins where the node did, and the right part ends where it did. They meet at a separator, the least key of the
    /// right part. In a leaf the separator is cut to one byte past what it shares with the greatest key of the left part. The left part
    /// keeps the marks and has no next. The right part keeps the next and has no marks. Stored keys lack what the bounds of their own
    /// part have in common, up to 255 bytes. An error means that an allocation failed, and drops the node.
    pub fn split(self) -> Result<(Node, Node), AllocError>
        requires { 3 ≤ length self.pairs }
        ensures parts { IfOk result (λ parts. Splits self parts.0 parts.1) }
        ensures merge { IfOk result (λ parts. MergeBack self parts.0 parts.1) }
    {
        let count = self.len() / 2 + 1;
        self.split_behind(count)
    }

    /// Splits a node in two as [`split`](Node::split) does, but after the first `count` pairs. There must be more than `count` pairs, and
    /// `count` must be at least 1.
    ///
    /// If keys are only added in ascending order, a left part with all pairs except the last stays full. An error means that an allocation
    /// failed, and drops the node.
    pub fn split_behind(self, count: usize) -> Result<(Node, Node), AllocError>
        requires some { 1 ≤ count }
        requires others { count < length self.pairs }
        ensures parts { IfOk result (λ parts. SplitsBehind self count parts.0 parts.1) }
        ensures merge { IfOk result (λ parts. MergeBack self parts.0 parts.1) }
    {
        let separator = self.separator(count)?;
        self.split_at(count, separator)
    }

    /// Sets the page of the node to the right, for example to link the left part of a split to the right one. It allocates nothing.
    pub fn set_next(&mut self, page: NonZeroU64)
        ensures { self.new ≡ record self.old { next = Some (non_zero_u64_get page) } }
    {
        know_page(Some(page));
        self.next = Some(page);
    }

    // The parts that meet at the separator, of which the left has so many pairs.
    fn split_at(self, count: usize, separator: IVec) -> Result<(Node, Node), AllocError>
        requires { IsSplitPlace self count separator }
        ensures parts { IfOk result (λ parts. SplitsBehind self count parts.0 parts.1) }
        ensures merge { IfOk result (λ parts. MergeBack self parts.0 parts.1) }
    {
        let Node {
            prefix_len,
            next,
            merging_child,
            merging,
            lo,
            hi,
            contents,
        } = self;
        let left_len = own_prefix(&lo, &separator);
        let right_len = own_prefix(&separator, &hi);
        let low = separator.clone()?;
        let prefix = &lo.as_slice()[..prefix_len as usize];
        let (left, right) = contents.split(count, prefix, left_len as usize, right_len as usize)?;
        let left = Node {
            prefix_len: left_len,
            next: None,
            merging_child,
            merging,
            lo,
            hi: separator,
            contents: left,
        };
        let right = Node {
            prefix_len: right_len,
            next,
            merging_child: None,
            merging: false,
            lo: low,
            hi,
            contents: right,
        };
        Ok((left, right))
    }

    // A string that parts the keys of the first pairs from those of the others: of an index the least key of the others,
    // and of a leaf a shortest string.
    fn separator(&self, count: usize) -> Result<IVec, AllocError>
        requires some { 1 ≤ count }
        requires others { count < length self.now.pairs }
        ensures { IfOk result (λ s. SeparatesAt self.now.is_index
            (greatest (take count self.now.pairs)) (least (drop count self.now.pairs)) s) }
    {
        let alloc = self.contents.allocator();
        let prefix = self.prefix();
        let (left, _) = self.pair(count - 1);
        let (right, _) = self.pair(count);
        match &self.contents {
            Data::Leaf(_) => {
                let len = common_len(left, right) + 1;
                decode(alloc, prefix, &right[..len])
            }
            Data::Index(_) => decode(alloc, prefix, right),
        }
    }
}

impl Data {
    // The first pairs and the others, with stored keys that lack so many bytes in place of those of the prefix.
    fn split(
        self,
        count: usize,
        prefix: &[u8],
        left_skipped: usize,
        right_skipped: usize,
    ) -> Result<(Data, Data), AllocError>
        requires within { count ≤ data_len self }
        requires left { HasStored (restored_data prefix.now left_skipped (first_data count self)) }
        requires right { HasStored
            (restored_data prefix.now right_skipped (later_data count self)) }
        ensures left { IfOk result
            (λ parts. parts.0 ≡ restored_data prefix.now left_skipped (first_data count self)) }
        ensures right { IfOk result
            (λ parts. parts.1 ≡ restored_data prefix.now right_skipped (later_data count self)) }
    {
        match self {
            Data::Leaf(leaf) => {
                let left = leaf.restored(0, count, prefix, left_skipped)?;
                let right = leaf.restored(count, leaf.len(), prefix, right_skipped)?;
                Ok((Data::Leaf(left), Data::Leaf(right)))
            }
            Data::Index(index) => {
                let mut left = index.into_pairs();
                let right = split_pairs(&mut left, count, prefix, left_skipped, right_skipped)?;
                Ok((Data::Index(Index::of(left)), Data::Index(Index::of(right))))
            }
        }
    }
}

// Takes out the pairs behind the first ones, with stored keys that lack so many bytes in place of those of the prefix.
//
// An error leaves some pairs changed and others not.
fn split_pairs<V: Drop>(
    pairs: &mut Vec<(IVec, V)>,
    count: usize,
    prefix: &[u8],
    left_skipped: usize,
    right_skipped: usize,
) -> Result<Vec<(IVec, V)>, AllocError>
    requires { count ≤ length pairs.old.items }
    ensures left { OnOk result
        (pairs.new.items ≡ restored prefix.now left_skipped (take count pairs.old.items)) }
    ensures right { IfOk result
        (λ right. right.items ≡ restored prefix.now right_skipped (drop count pairs.old.items)) }
{
    let mut right = pairs.split_off(count)?;
    store_without(pairs, prefix, left_skipped)?;
    store_without(&mut right, prefix, right_skipped)?;
    Ok(right)
}
