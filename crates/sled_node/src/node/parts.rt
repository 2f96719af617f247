//! Whether parts make a well-formed node.

ghost use Rattle.std.specs.Prelude.{◌≡◌, ◌↔◌, ◌≤◌, ◌-◌, length, take, drop, IsTrue, IfSome};
ghost use Rattle.std.specs.List.{AllByRecursion};
ghost use Rattle.std.specs.Option.{option_map};
ghost use Rattle.std.specs.Int.NonZero.{non_zero_u64_get};
ghost use Rattle.sled_node.specs.Node.{IsPage};
ghost use Rattle.sled_node.specs.Pairs.{IsWithinLimit, HasPairs};
ghost use Rattle.sled_node.specs.Parts.{AreBounds, IsStoredWithin, AreStoredWithin, HasStored};

use super::pairs::is_below;
use super::{Data, Leaf, MAX_BYTES};
use sled_base::IVec;
use std::num::NonZeroU64;

/// Returns whether a node may have these bounds, and stored keys that lack `skipped` bytes.
pub fn are_bounds(skipped: usize, lo: &IVec, hi: &IVec) -> bool
    ensures { IsTrue result ↔ AreBounds skipped lo.now hi.now }
{
    let (lo, hi) = (lo.as_slice(), hi.as_slice());
    if lo.len() > MAX_BYTES || hi.len() > MAX_BYTES {
        return false;
    }
    if hi.is_empty() {
        return skipped == 0;
    }
    is_below(lo, hi) && have_common(skipped, lo, hi)
}

/// Returns the bytes of a bound after those that stored keys lack.
pub fn rest_of(bound: &IVec, skipped: usize) -> &[u8]
    requires { skipped ≤ length bound.now }
    ensures { result.now ≡ take (length bound.now - skipped) (drop skipped bound.now) }
{
    &bound.as_slice()[skipped..]
}

/// Returns whether the stored keys are within the rest of the bounds, and no longer than `most`.
pub fn are_stored_within(contents: &Data, lo: &[u8], hi: &[u8], most: usize) -> bool
    ensures within { IsTrue result ↔ AreStoredWithin lo.now hi.now most contents.now }
    ensures stored { HasStored contents.now }
{
    match contents {
        Data::Leaf(leaf) => leaf_is_within(leaf, lo, hi, most),
        Data::Index(index) => are_within(index.pairs(), lo, hi, most),
    }
}

/// Does nothing. It shows a proof that a page, if there is one, isn't 0.
pub fn know_page(page: Option<NonZeroU64>)
    ensures { IfSome (option_map non_zero_u64_get page) IsPage }
{
    if let Some(page) = page {
        let _ = page.get();
    }
}

// Whether both have this many bytes, and the same ones.
fn have_common(count: usize, left: &[u8], right: &[u8]) -> bool
    ensures { IsTrue result ↔ ((count ≤ length left.now) × (count ≤ length right.now)
        × (take count left.now ≡ take count right.now)) }
{
    count <= left.len() && count <= right.len() && left[..count] == right[..count]
}

// Whether each key is within the bounds and no longer than `most`.
fn are_within<V>(pairs: &[(IVec, V)], lo: &[u8], hi: &[u8], most: usize) -> bool
    ensures { IsTrue result
        ↔ AllByRecursion (λ pair. IsStoredWithin lo.now hi.now most pair.0) pairs.now }
{
    for pair in pairs {
        if !is_within(pair.0.as_slice(), lo, hi, most) {
            return false;
        }
    }
    true
}

// Whether each stored key of a leaf is within the bounds and no longer than `most`.
fn leaf_is_within(leaf: &Leaf, lo: &[u8], hi: &[u8], most: usize) -> bool
    ensures within { IsTrue result
        ↔ AllByRecursion (λ pair. IsStoredWithin lo.now hi.now most pair.0) leaf.now }
    ensures stored { HasPairs IsWithinLimit leaf.now }
{
    let strings = leaf.strings();
    for i in 0..leaf.len() {
        if !is_within(strings.get(i), lo, hi, most) {
            return false;
        }
    }
    true
}

// Whether the key is within the bounds, of which an empty `hi` is none, and no longer than `most`.
fn is_within(key: &[u8], lo: &[u8], hi: &[u8], most: usize) -> bool
    ensures { IsTrue result ↔ IsStoredWithin lo.now hi.now most key.now }
{
    key.len() <= most && !is_below(key, lo) && (hi.is_empty() || is_below(key, hi))
}
