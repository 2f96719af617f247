//! Pairs of a key and an item, in the order of their keys.

ghost use Rattle.std.specs.Prelude.{◌≡◌, ◌↔◌, IsTrue, IfOk, IfErr};
ghost use Rattle.std.specs.List.{AllByRecursion, HoldsAt};
ghost use Rattle.sled_base.specs.Order.{IsBelow};
ghost use Rattle.sled_node.specs.Pairs.{IsWithinLimit, IsAscending, StandsAt, IsGap};

use super::MAX_BYTES;
use sled_base::IVec;

/// Returns whether `left` is below `right`.
pub fn is_below(left: &[u8], right: &[u8]) -> bool
    ensures { IsTrue result ↔ IsBelow left.now right.now }
{
    left.cmp(&right).is_lt()
}

/// Returns the place of the key, or, as the error, the place where it would be inserted. The keys must ascend.
pub fn place_of_key<V>(pairs: &[(IVec, V)], key: &[u8]) -> Result<usize, usize>
    requires { IsAscending pairs.now }
    ensures found { IfOk result (StandsAt pairs.now key.now) }
    ensures same { IfOk result (HoldsAt (λ pair. pair.0 ≡ key.now) pairs.now) }
    ensures missing { IfErr result (IsGap pairs.now key.now) }
{
    pairs.binary_search_by(|pair| pair.0.as_slice().cmp(&key))
}

/// Returns whether each key is below the next.
pub fn are_ascending<V>(pairs: &[(IVec, V)]) -> bool
    ensures { IsTrue result ↔ IsAscending pairs.now }
{
    for i in 1..pairs.len() {
        if !is_below(pairs[i - 1].0.as_slice(), pairs[i].0.as_slice()) {
            return false;
        }
    }
    true
}

/// Returns whether no key is longer than [`MAX_BYTES`].
pub fn are_short<V>(pairs: &[(IVec, V)]) -> bool
    ensures { IsTrue result ↔ AllByRecursion (λ pair. IsWithinLimit pair.0) pairs.now }
{
    for pair in pairs {
        if pair.0.len() > MAX_BYTES {
            return false;
        }
    }
    true
}
