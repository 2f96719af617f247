//! The nearest pairs on either side of a bound.

ghost use Rattle.std.specs.Prelude.{◌≡◌, ◌<◌, false, length, Some, IfOk, IfSome, IfNone, slice_get};
ghost use Rattle.sled_base.specs.Order.{IsBelow, IsAtMost};
ghost use Rattle.sled_node.specs.Node.{Value, IsWellFormed};
ghost use Rattle.sled_node.specs.Neighbours.{IsBehind, IsBefore, IsLeast, IsGreatest, HasNone, IsCount};

use super::Node;
use sled_base::IVec;
use sled_base::prefix::decode;
use std::alloc::AllocError;
use std::ops::Bound;

impl Node {
    /// Returns the whole key and the value of the leaf's first pair after the bound, or None if no pair is after it.
    ///
    /// The key of an included bound counts as after it, and without a bound all keys do. The node must be a leaf. The bound may be out
    /// of its range. An error means that the copy could not be allocated.
    pub fn successor(&self, bound: &Bound<IVec>) -> Result<Option<(IVec, IVec)>, AllocError>
        requires leaf { self.now.is_index ≡ false }
        ensures least { IfOk result
            (λ found. IfSome found (IsLeast (IsBehind bound.now) self.now)) }
        ensures none { IfOk result (λ found. IfNone found (HasNone (IsBehind bound.now) self.now)) }
    {
        let first = self.first_behind(bound);
        if first == self.len() {
            return Ok(None);
        }
        Ok(Some(self.whole_pair(first)?))
    }

    /// Returns the whole key and the value of the leaf's last pair before the bound, or None if no pair is before it.
    ///
    /// The key of an included bound counts as before it, and without a bound all keys do. The node must be a leaf. The bound may be out
    /// of its range. An error means that the copy could not be allocated.
    pub fn predecessor(&self, bound: &Bound<IVec>) -> Result<Option<(IVec, IVec)>, AllocError>
        requires leaf { self.now.is_index ≡ false }
        ensures greatest { IfOk result
            (λ found. IfSome found (IsGreatest (IsBefore bound.now) self.now)) }
        ensures none { IfOk result (λ found. IfNone found (HasNone (IsBefore bound.now) self.now)) }
    {
        let end = self.end_before(bound);
        match end.checked_sub(1) {
            Some(last) => Ok(Some(self.whole_pair(last)?)),
            None => Ok(None),
        }
    }

    /// Returns the place of the leaf's first pair after the bound, or the number of pairs if none is after it.
    ///
    /// The key of an included bound counts as after it, and without a bound all keys do. The node must be a leaf. The bound may be out
    /// of its range.
    pub fn first_behind(&self, bound: &Bound<IVec>) -> usize
        requires leaf { self.now.is_index ≡ false }
        ensures { IsCount (λ key. IsBehind bound.now key
            → ⊥) (IsBehind bound.now) self.now.pairs result }
    {
        match bound {
            Bound::Included(key) => self.count_below(key.as_slice()),
            Bound::Excluded(key) => self.count_up_to(key.as_slice()),
            Bound::Unbounded => 0,
        }
    }

    /// Returns the place that follows the leaf's last pair before the bound, or 0 if none is before it.
    ///
    /// The key of an included bound counts as before it, and without a bound all keys do. The node must be a leaf. The bound may be out
    /// of its range.
    pub fn end_before(&self, bound: &Bound<IVec>) -> usize
        requires leaf { self.now.is_index ≡ false }
        ensures { IsCount (IsBefore bound.now) (λ key. IsBefore bound.now key
            → ⊥) self.now.pairs result }
    {
        match bound {
            Bound::Included(key) => self.count_up_to(key.as_slice()),
            Bound::Excluded(key) => self.count_below(key.as_slice()),
            Bound::Unbounded => self.len(),
        }
    }

    // How many pairs of a leaf have a whole key below this one.
    fn count_below(&self, key: &[u8]) -> usize
        requires leaf { self.now.is_index ≡ false }
        ensures { IsCount (λ other. IsBelow other key.now)
            (λ other. IsAtMost key.now other) self.now.pairs result }
    {
        match self.place_of_whole_key(key) {
            Ok(at) => at,
            Err(at) => at,
        }
    }

    // How many pairs of a leaf have a whole key that is at most this one.
    fn count_up_to(&self, key: &[u8]) -> usize
        requires leaf { self.now.is_index ≡ false }
        ensures { IsCount (λ other. IsAtMost other key.now)
            (λ other. IsBelow key.now other) self.now.pairs result }
    {
        match self.place_of_whole_key(key) {
            Ok(at) => at + 1,
            Err(at) => at,
        }
    }

    /// Copies the pair at a place, with its whole key. The node must be a leaf, and the place must be below [`len`](Node::len).
    ///
    /// An error means that the copy could not be allocated.
    pub fn whole_pair(&self, place: usize) -> Result<(IVec, IVec), AllocError>
        requires leaf { self.now.is_index ≡ false }
        requires within { place < length self.now.pairs }
        ensures there { IfOk result
            (λ copy. slice_get self.now.pairs place ≡ Some (copy.0, Value copy.1)) }
        ensures well_formed { IsWellFormed self.now }
    {
        let alloc = self.contents.allocator();
        let (key, value) = self.leaf_pair(place);
        let key = decode(alloc, self.prefix(), key)?;
        Ok((key, IVec::from_slice(alloc, value)?))
    }
}
