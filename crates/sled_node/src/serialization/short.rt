//! The encoding of the byte strings of a link, and of the names of roots.

ghost use Rattle.std.specs.Prelude.{◌≡◌, IfSome, IfNone, IfOk, IfErr, OnErr};
ghost use Rattle.sled_base.specs.Payloads.Reading.{ReadsNoValue, IsRefusal};
ghost use Rattle.sled_node.specs.Payloads.ShortStrings.{ReadsShort, AsksShort};

use crate::node::MAX_BYTES;
use sled_base::serialization::bytes::split_bytes;
use sled_base::{Error, IVec};
use std::alloc::Global;

// The byte string at the front, where it lies, and the rest, if there is one that is short enough.
pub fn split_short(bytes: &[u8]) -> Option<(&[u8], &[u8])>
    ensures read { IfSome result (λ x. ReadsShort bytes.now x.0.now x.1.now) }
    ensures nothing { IfNone result (ReadsNoValue ReadsShort bytes.now) }
{
    let (short, rest) = split_bytes(bytes)?;
    if short.len() > MAX_BYTES {
        return None;
    }
    Some((short, rest))
}

// Reads a byte string that is short enough for a link or a root's name.
pub fn read_short(alloc: Global, input: &mut &[u8]) -> Result<IVec, Error>
    ensures read { IfOk result (λ value. ReadsShort input.old.now value input.new.now) }
    ensures refused { IfErr result (IsRefusal AsksShort ReadsShort input.old.now) }
    ensures stays { OnErr result (input.new ≡ input.old) }
{
    let Some((bytes, rest)) = split_short(*input) else {
        return Err(Error::Corruption(None));
    };
    let value = IVec::from_slice(alloc, bytes)?;
    *input = rest;
    Ok(value)
}
