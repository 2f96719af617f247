//! Reading pairs.

ghost use Rattle.std.specs.Prelude.{◌≡◌, ◌≢◌, ◌<◌, ◌^◌, ◌++◌, false, List, length, IfOk, IfSome, IfNone};
ghost use Rattle.std.specs.Int.{w32, to_le_bytes};
ghost use Rattle.sled_base.specs.Order.{Bytes, is_below};
ghost use Rattle.sled_node.specs.Node.{WholeNode};
ghost use Rattle.sled_node.specs.Pairs.{IsAscending};
ghost use Rattle.sled_handle.specs.Pairs.{AreAbove, EncodeLeaf, EncodePairs, IsShort, pair_bytes};

use sled_pagecache::{IVec, Node};
use std::alloc::{AllocError, Global};

/// Returns a leaf over all keys that holds the pairs which the bytes encode, or `None` if they encode no pairs that a leaf can hold. No memory is
/// allocated for pairs whose keys don't ascend.
///
/// `AllocError`: an allocation failed.
pub fn leaf_in(alloc: Global, bytes: &[u8]) -> Result<Option<Node>, AllocError>
    ensures some { IfOk result (λ found. IfSome found (EncodeLeaf bytes.now)) }
    ensures none { IfOk result (λ found. IfNone found ((node : WholeNode)
        → ¬ EncodeLeaf bytes.now node)) }
{
    if !ascend(bytes) {
        return Ok(None);
    }
    let Some(pairs) = pairs_in(alloc, bytes)? else {
        return Ok(None);
    };
    Node::leaf_of(alloc, pairs)
}

// Whether pairs fill the bytes, each with a key above that of the one before it. Nothing is allocated.
fn ascend(bytes: &[u8]) -> bool
    ensures { result ≡ false → (pairs : List (Bytes × Bytes)) → EncodePairs bytes.now pairs
        → ¬ IsAscending pairs }
{
    if bytes.is_empty() {
        return true;
    }
    let Some((first, _, behind)) = first_pair(bytes) else {
        return false;
    };
    ascend_from(first, behind)
}

// The same where each key has to be above this one, too.
fn ascend_from<'a>(first: &'a [u8], bytes: &'a [u8]) -> bool
    ensures { result ≡ false → (pairs : List (Bytes × Bytes)) → EncodePairs bytes.now pairs
        → ¬ AreAbove first.now pairs }
{
    let (mut last, mut left) = (first, bytes);
    while !left.is_empty() {
        let Some((key, _, behind)) = first_pair(left) else {
            return false;
        };
        if !is_below(last, key) {
            return false;
        }
        (last, left) = (key, behind);
    }
    true
}

// Whether the first bytes are below the second.
fn is_below(left: &[u8], right: &[u8]) -> bool
    ensures { result ≡ is_below left.now right.now }
{
    left.cmp(&right).is_lt()
}

// The pairs that the bytes encode, or none where they encode none.
fn pairs_in(alloc: Global, bytes: &[u8]) -> Result<Option<Vec<(IVec, IVec)>>, AllocError>
    ensures some { IfOk result
        (λ found. IfSome found (λ pairs. EncodePairs bytes.now pairs.items)) }
    ensures none { IfOk result (λ found. IfNone found ((pairs : List (Bytes × Bytes))
        → ¬ EncodePairs bytes.now pairs)) }
{
    let mut pairs = Vec::new(alloc);
    let mut left = bytes;
    while !left.is_empty() {
        let Some((key, value, behind)) = first_pair(left) else {
            return Ok(None);
        };
        let key = IVec::from_slice(alloc, key)?;
        let value = IVec::from_slice(alloc, value)?;
        pairs.push((key, value))?;
        left = behind;
    }
    Ok(Some(pairs))
}

// The first key, its value, and the bytes behind them, or none where no pair stands in front.
fn first_pair(bytes: &[u8]) -> Option<(&[u8], &[u8], &[u8])>
    ensures some { IfSome result (λ parts. IsShort (parts.0.now, parts.1.now)
        × (bytes.now ≡ pair_bytes (parts.0.now, parts.1.now) ++ parts.2.now)) }
    ensures none { IfNone result ((pair : Bytes × Bytes) → (behind : Bytes) → IsShort pair
        → bytes.now ≢ pair_bytes pair ++ behind) }
{
    let (key_len, rest) = first_number(bytes)?;
    let (value_len, rest) = first_number(rest)?;
    let (key, rest) = rest.split_at_checked(key_len as usize)?;
    let (value, behind) = rest.split_at_checked(value_len as usize)?;
    Some((key, value, behind))
}

// The number of the first four bytes, the lowest first, and the bytes behind them, if there are so many.
fn first_number(bytes: &[u8]) -> Option<(u32, &[u8])>
    ensures some { IfSome result (λ parts. (parts.0 < 2 ^ 32)
        × (bytes.now ≡ to_le_bytes w32 parts.0 ++ parts.1.now)) }
    ensures none { IfNone result (length bytes.now < 4) }
{
    let (number, behind) = bytes.split_first_chunk::<4>()?;
    Some((u32::from_le_bytes(*number), behind))
}
