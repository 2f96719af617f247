//! Whether the end of a range of keys is within the range of a node.

ghost use Rattle.std.specs.Prelude.{◌↔◌, IsTrue};
ghost use Rattle.sled_node.specs.Bounds.{ContainsUpper, ContainsLower};

use super::Node;
use super::pairs::is_below;
use sled_base::IVec;
use std::ops::Bound;

impl Node {
    /// Returns whether the upper end of a range is within the node.
    ///
    /// For an excluded key `hi` must not be below it, unless `hi` is empty. For an included key `hi` must be above it, or empty.
    /// Without a bound `hi` must be empty.
    pub fn contains_upper_bound(&self, bound: &Bound<IVec>) -> bool
        ensures { IsTrue result ↔ ContainsUpper self.now bound.now }
    {
        let hi = self.hi.as_slice();
        match bound {
            Bound::Excluded(key) => self.hi.is_empty() || !is_below(hi, key.as_slice()),
            Bound::Included(key) => self.hi.is_empty() || is_below(key.as_slice(), hi),
            Bound::Unbounded => self.hi.is_empty(),
        }
    }

    /// Returns whether the lower end of a range is within the node, for iterating forward or backward.
    ///
    /// For an included key `lo` must not be above it. For an excluded key `lo` must be below it, or empty, or, going forward, the key
    /// itself. Without a bound `lo` must be empty going forward, and `hi` going backward.
    pub fn contains_lower_bound(&self, bound: &Bound<IVec>, forward: bool) -> bool
        ensures { IsTrue result ↔ ContainsLower self.now forward bound.now }
    {
        let lo = self.lo.as_slice();
        match bound {
            Bound::Excluded(key) => {
                self.lo.is_empty()
                    || is_below(lo, key.as_slice())
                    || (forward && self.lo.eq_bytes(key.as_slice()))
            }
            Bound::Included(key) => !is_below(key.as_slice(), lo),
            Bound::Unbounded if forward => self.lo.is_empty(),
            Bound::Unbounded => self.hi.is_empty(),
        }
    }
}
