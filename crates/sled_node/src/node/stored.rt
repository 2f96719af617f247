//! Which first bytes stored keys lack, and storing keys with another prefix.

ghost use Rattle.std.specs.Prelude.{◌≡◌, ◌++◌, drop, IfOk, OnOk};
ghost use Rattle.sled_node.specs.Splitting.{common_length, own_prefix};
ghost use Rattle.sled_node.specs.Restoring.{restored};

use sled_base::IVec;
use sled_base::prefix::decode;
use std::alloc::{AllocError, Global};

/// Returns how many first bytes two strings have in common.
pub fn common_len(left: &[u8], right: &[u8]) -> usize
    ensures { result ≡ common_length left.now right.now }
{
    let most = left.len().min(right.len());
    for i in 0..most {
        if left[i] != right[i] {
            return i;
        }
    }
    most
}

/// Returns how many bytes stored keys lack between these bounds: those that the bounds have in common, up to 255.
pub fn own_prefix(lo: &IVec, hi: &IVec) -> u8
    ensures { result ≡ own_prefix lo.now hi.now }
{
    common_len(lo.as_slice(), hi.as_slice()).min(u8::MAX as usize) as u8
}

/// Makes each stored key lack the first `skipped` bytes of the whole key, where it lacked `front` before.
///
/// The keys are unchanged if `front` has `skipped` bytes. An error leaves some of the keys changed and others not.
pub fn store_without<V>(
    pairs: &mut Vec<(IVec, V)>,
    front: &[u8],
    skipped: usize,
) -> Result<(), AllocError>
    ensures { OnOk result (pairs.new.items ≡ restored front.now skipped pairs.old.items) }
{
    if skipped == front.len() {
        return Ok(());
    }
    let alloc = *pairs.allocator();
    for pair in pairs.iter_mut() {
        pair.0 = key_without(alloc, front, &pair.0, skipped)?;
    }
    Ok(())
}

// The key behind `front`, without its first bytes. None of the key's bytes is copied where all of `front` is skipped.
fn key_without(alloc: Global, front: &[u8], key: &IVec, skipped: usize) -> Result<IVec, AllocError>
    ensures { IfOk result (λ stored. stored ≡ drop skipped (front.now ++ key.now)) }
{
    if skipped < front.len() {
        return decode(alloc, &front[skipped..], key.as_slice());
    }
    let cut = key.len().min(skipped - front.len());
    key.subslice(cut, key.len() - cut)
}
