//! Byte strings that are written one after the other into a buffer of known size.

ghost use Rattle.std.specs.Prelude.{◌≡◌, ◌+◌, ◌-◌, ◌<◌, ◌≤◌, ◌^◌, [], ◌∷◌, ◌++◌, length, take, drop, IfOk, OnOk, OnErr};
ghost use Rattle.sled_base.specs.Payloads.ByteStrings.{written_bytes};
ghost use Rattle.sled_base.specs.Strings.{strings_in, Keeps, IsFilled};

use super::Strings;
use super::edits::written_size;
use crate::serialization::bytes::write_bytes;
use std::alloc::{AllocError, Global};
use std::marker::Model;

/// Byte strings that are appended one after the other. Contracts see the list of the strings.
#[derive(Debug, Drop)]
pub struct StringsBuilder {
    // the strings as they are written, and room behind them
    bytes: Vec<u8>,
    // where the strings end
    len: usize,
    // where each string ends
    ends: Vec<usize>,
}

impl Model for StringsBuilder {
    ghost use Rattle.std.specs.Prelude.{List, ℕ, take};
    ghost use Rattle.sled_base.specs.Strings.{strings_in, IsFilled};

    ghost Value = { List (List ℕ) };

    ghost view = { λ s. strings_in (take s.len s.bytes.items) s.ends.items };

    ghost invariant = { λ s. IsFilled s.bytes.items s.len s.ends.items };
}

impl StringsBuilder {
    /// Returns a builder without strings. It has room for `strings` strings that take `bytes` bytes in total when encoded, and accepts more.
    ///
    /// An error means that an allocation failed.
    pub fn with_room(
        alloc: Global,
        strings: usize,
        bytes: usize,
    ) -> Result<StringsBuilder, AllocError>
        ensures { IfOk result (λ made. made ≡ []) }
    {
        let ends = Vec::with_capacity(alloc, strings)?;
        let mut room = Vec::with_capacity(alloc, bytes)?;
        room.resize(bytes, 0)?;
        Ok(StringsBuilder {
            bytes: room,
            len: 0,
            ends,
        })
    }

    /// Appends a string, which must be shorter than 2^32 bytes. An error means that an allocation failed, and leaves the strings unchanged.
    #[inline(always)]
    pub fn push(&mut self, string: &[u8]) -> Result<(), AllocError>
        requires { length string.now < 2 ^ 32 }
        ensures ok { OnOk result (self.new ≡ self.old ++ string.now ∷ []) }
        ensures err { OnErr result (self.new ≡ self.old) }
    {
        self.len = put_behind(&mut self.bytes, self.len, &mut self.ends, string)?;
        Ok(())
    }

    /// Returns the strings.
    pub fn build(self) -> Strings
        ensures { result ≡ self }
    {
        let StringsBuilder {
            mut bytes,
            len,
            ends,
        } = self;
        bytes.truncate(len);
        Strings { bytes, ends }
    }
}

// Writes a string behind the first `len` bytes, and answers where it ends.
#[inline(always)]
fn put_behind(
    bytes: &mut Vec<u8>,
    len: usize,
    ends: &mut Vec<usize>,
    string: &[u8],
) -> Result<usize, AllocError>
    requires keeps { IsFilled bytes.old.items len ends.old.items }
    requires short { length string.now < 2 ^ 32 }
    ensures within { IfOk result (λ end. end ≤ length bytes.new.items) }
    ensures ok { IfOk result (λ end. Keeps (strings_in (take len bytes.old.items) ends.old.items
        ++ string.now ∷ []) (take end bytes.new.items) ends.new.items) }
    ensures room { OnErr result (len ≤ length bytes.new.items) }
    ensures err { OnErr result ((take len bytes.new.items ≡ take len bytes.old.items)
        × (ends.new.items ≡ ends.old.items)) }
{
    let size = written_size(string);
    make_room(bytes, len, size)?;
    write_at(bytes, len, string);
    ends.push(len + size)?;
    Ok(len + size)
}

// Makes room for so many bytes behind the first `len`, if there is less.
#[inline(always)]
fn make_room(bytes: &mut Vec<u8>, len: usize, size: usize) -> Result<(), AllocError>
    requires within { len ≤ length bytes.old.items }
    requires fits { size < 2 ^ 64 - 2 ^ 63 }
    ensures front { take len bytes.new.items ≡ take len bytes.old.items }
    ensures within { len ≤ length bytes.new.items }
    ensures room { OnOk result (len + size ≤ length bytes.new.items) }
{
    if size > bytes.len() - len {
        return grow(bytes, len + size);
    }
    Ok(())
}

// Makes the buffer longer.
#[cold]
#[inline(never)]
fn grow(bytes: &mut Vec<u8>, size: usize) -> Result<(), AllocError>
    requires { length bytes.old.items ≤ size }
    ensures front { take (length bytes.old.items) bytes.new.items ≡ bytes.old.items }
    ensures within { length bytes.old.items ≤ length bytes.new.items }
    ensures room { OnOk result (length bytes.new.items ≡ size) }
{
    bytes.resize(size, 0)
}

// Writes a string behind the first `len` bytes.
fn write_at(bytes: &mut Vec<u8>, len: usize, string: &[u8])
    requires short { length string.now < 2 ^ 32 }
    requires room { len + length (written_bytes string.now) ≤ length bytes.old.items }
    ensures { bytes.new.items ≡ take len bytes.old.items ++ (written_bytes string.now
        ++ drop (len + length (written_bytes string.now)) bytes.old.items) }
{
    write_bytes(string, bytes.slice_mut(len..));
}
