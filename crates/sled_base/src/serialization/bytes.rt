//! The encoding of byte strings.

ghost use Rattle.std.specs.Prelude.{◌≡◌, ◌≤◌, ◌++◌, length, drop, IfSome, IfNone};
ghost use Rattle.sled_base.specs.Payloads.Reading.{ReadsNoValue};
ghost use Rattle.sled_base.specs.Payloads.ByteStrings.{ReadsBytes, AsksBytes, written_bytes, CanWriteBytes};
ghost use Rattle.sled_base.specs.Payloads.ByteStringLaws.{Bytes-grammar};
ghost use Rattle.sled_base.specs.Payloads.ReadingLaws.{some_taken};

use super::Serialize;
use super::numbers::read_u64;
use crate::ivec::IVec;
use crate::types::Error;
use std::alloc::Global;

/// Borrows the byte string at the front and the rest, or returns None if there is no byte string. It allocates nothing.
pub fn split_bytes(bytes: &[u8]) -> Option<(&[u8], &[u8])>
    ensures read { IfSome result (λ x. ReadsBytes bytes.now x.0.now x.1.now) }
    ensures nothing { IfNone result (ReadsNoValue ReadsBytes bytes.now) }
{
    let (len, rest) = read_u64(bytes)?;
    if len > rest.len() as u64 {
        return None;
    }
    Some(rest.split_at(len as usize))
}

/// Writes a byte string at the front of `out`, which must have room for it, and returns how many bytes it took.
pub fn write_bytes(bytes: &[u8], out: &mut [u8]) -> usize
    requires can_write { CanWriteBytes bytes.now }
    requires room { length (written_bytes bytes.now) ≤ length out.old }
    ensures size { result ≡ length (written_bytes bytes.now) }
    ensures bytes { out.new ≡ written_bytes bytes.now ++ drop (length (written_bytes bytes.now)) out.old }
{
    let start = (bytes.len() as u64).serialize_into(out);
    let end = start + bytes.len();
    out[start..end].copy_from_slice(bytes);
    end
}

impl Serialize for IVec {
    ghost reads = { ReadsBytes };

    ghost asks = { AsksBytes };

    ghost written = { written_bytes };

    ghost can_write = { CanWriteBytes };

    ghost least_size = { 1 };

    ghost grammar = { Bytes-grammar };

    ghost takes = { some_taken Bytes-grammar };

    fn serialized_size(&self) -> u64 {
        let len = self.len() as u64;
        len.serialized_size() + len
    }

    fn serialize_into(&self, out: &mut [u8]) -> usize {
        write_bytes(self.as_slice(), out)
    }

    fn deserialize(alloc: Global, input: &mut &[u8]) -> Result<IVec, Error> {
        let Some((bytes, rest)) = split_bytes(*input) else {
            return Err(Error::Corruption(None));
        };
        let value = IVec::from_slice(alloc, bytes)?;
        *input = rest;
        Ok(value)
    }
}
