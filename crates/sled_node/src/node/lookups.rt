//! Looking whole keys up in a leaf.

ghost use Rattle.std.specs.Prelude.{◌≡◌, ◌<◌, false, take, drop, length, Some, IfOk, IfErr, IfSome, IfNone, slice_get};
ghost use Rattle.std.specs.List.{HoldsAt};
ghost use Rattle.sled_node.specs.declared.node.data.Data.TheVariants.{Leaf as Stored};
ghost use Rattle.sled_node.specs.Node.{Value, whole, IsInRange, IsWellFormed};
ghost use Rattle.sled_node.specs.Pairs.{StandsAt, IsGap};
ghost use Rattle.sled_node.specs.Parts.{pairs_under};
ghost use Rattle.sled_node.specs.Lookups.{HasValue, LacksKey};

use super::pairs::is_below;
use super::{Data, Leaf, Node};
use sled_base::IVec;
use std::alloc::AllocError;

impl Node {
    /// Returns the stored key and the value of a whole key, or None if the leaf lacks the key.
    ///
    /// The node must be a leaf. The key may be out of its range. It allocates nothing.
    pub fn leaf_pair_for_key(&self, key: &[u8]) -> Option<(&[u8], &[u8])>
        requires leaf { self.now.is_index ≡ false }
        ensures key { IfSome result (λ pair. whole self.now pair.0.now ≡ key.now) }
        ensures value { IfSome result (λ pair. HasValue self.now key.now pair.1.now) }
        ensures absent { IfNone result (LacksKey self.now key.now) }
    {
        match self.place_of_whole_key(key) {
            Ok(at) => Some(self.leaf_pair(at)),
            Err(_) => None,
        }
    }

    /// Returns the stored key of a whole key, and the key's value, or no value if the leaf lacks the key.
    ///
    /// The node must be a leaf with the key in its range, as [`contains_key`](Node::contains_key) tests. The key may be absent. An error
    /// means that a copy could not be allocated.
    pub fn node_kv_pair(&self, key: &[u8]) -> Result<(IVec, Option<IVec>), AllocError>
        requires leaf { self.now.is_index ≡ false }
        requires in_range { IsInRange self.now key.now }
        ensures stored { IfOk result (λ pair. pair.0 ≡ drop self.now.prefix_len key.now) }
        ensures key { IfOk result (λ pair. whole self.now pair.0 ≡ key.now) }
        ensures value { IfOk result (λ pair. IfSome pair.1 (HasValue self.now key.now)) }
        ensures absent { IfOk result (λ pair. IfNone pair.1 (LacksKey self.now key.now)) }
    {
        match self.place_of_whole_key(key) {
            Ok(at) => {
                let alloc = self.contents.allocator();
                let (stored, value) = self.leaf_pair(at);
                let stored = IVec::from_slice(alloc, stored)?;
                Ok((stored, Some(IVec::from_slice(alloc, value)?)))
            }
            Err(_) => {
                let alloc = self.contents.allocator();
                Ok((IVec::from_slice(alloc, self.without_prefix(key))?, None))
            }
        }
    }

    // Where the whole key stands in a leaf, or else where it would.
    pub(super) fn place_of_whole_key(&self, key: &[u8]) -> Result<usize, usize>
        requires leaf { self.now.is_index ≡ false }
        ensures found { IfOk result (StandsAt self.now.pairs key.now) }
        ensures same { IfOk result (HoldsAt (λ pair. pair.0 ≡ key.now) self.now.pairs) }
        ensures missing { IfErr result (IsGap self.now.pairs key.now) }
        ensures well_formed { IsWellFormed self.now }
    {
        match &self.contents {
            Data::Leaf(leaf) => place_under(leaf, self.prefix(), key),
            Data::Index(_) => unreachable!(),
        }
    }

    // The stored key and the value of a leaf's pair at a place.
    pub(super) fn leaf_pair(&self, place: usize) -> (&[u8], &[u8])
        requires leaf { self.now.is_index ≡ false }
        requires within { place < length self.now.pairs }
        ensures there { slice_get self.now.pairs place
            ≡ Some (whole self.now result.0.now, Value result.1.now) }
        ensures well_formed { IsWellFormed self.now }
    {
        match &self.contents {
            Data::Leaf(leaf) => leaf.pair(place),
            Data::Index(_) => unreachable!(),
        }
    }

    // The stored key of a whole key in the range.
    pub(super) fn without_prefix<'a>(&self, key: &'a [u8]) -> &'a [u8]
        requires { IsInRange self.now key.now }
        ensures stored { result.now ≡ drop self.now.prefix_len key.now }
        ensures key { whole self.now result.now ≡ key.now }
    {
        &key[self.prefix_len as usize..]
    }

    // The first bytes of `lo`, which stored keys lack.
    pub(super) fn prefix(&self) -> &[u8]
        ensures well_formed { IsWellFormed self.now }
        ensures value { result.now ≡ take self.now.prefix_len self.now.lo }
    {
        &self.lo.as_slice()[..self.prefix_len as usize]
    }
}

// Where the whole key stands among pairs whose stored keys lack the prefix, or else where it would.
fn place_under(leaf: &Leaf, prefix: &[u8], key: &[u8]) -> Result<usize, usize>
    ensures found { IfOk result (StandsAt (pairs_under prefix.now (Stored leaf.now)) key.now) }
    ensures same { IfOk result
        (HoldsAt (λ pair. pair.0 ≡ key.now) (pairs_under prefix.now (Stored leaf.now))) }
    ensures missing { IfErr result (IsGap (pairs_under prefix.now (Stored leaf.now)) key.now) }
{
    match key.strip_prefix(prefix) {
        Some(stored) => leaf.place_of_key(stored),
        None if is_below(key, prefix) => Err(0),
        None => Err(leaf.len()),
    }
}
