//! Payloads: how values are encoded as bytes, and decoded.

ghost use Rattle.std.specs.Prelude.{◌≡◌, ℕ, ◌<◌, ◌≤◌, ◌^◌, Bool, true, List, length, drop, ◌++◌, IfOk, IfErr, OnErr};
ghost use Rattle.sled_base.specs.Payloads.Reading.{IsRefusal, IsGrammar, TakesAByte};

pub mod bytes;
mod consume;
mod manifests;
pub mod numbers;
mod options;
pub mod tuples;

use crate::types::Error;
pub use consume::ConsumeSequence;
use std::alloc::{AllocError, Global};

/// A type whose values can be encoded as bytes. Each value is written in one way.
pub trait Serialize: Drop {
    /// States that the input is an encoding of the value, followed by the rest.
    ghost reads: { List ℕ → Self → List ℕ → Type 0 };

    /// The inputs for which reading may allocate. Any other is read or refused without an allocation.
    ghost asks: { List ℕ → Type 0 };

    /// The encoding that is written.
    ghost written: { Self → List ℕ };

    /// States that the value has an encoding, and is within the limits.
    ghost can_write: { Self → Type 0 };

    /// Bytes that may follow a written value: reading then returns the value, and these bytes as the rest.
    ghost can_follow: { Self → List ℕ → Type 0 } = { λ _ _. Unit {0} };

    /// The least number of bytes of an encoding.
    ghost least_size: { ℕ };

    /// Whether each read of an input that isn't empty consumes at least a byte.
    ghost takes_a_byte: { Bool } = { true };

    /// Returns the number of bytes that the encoded value takes. The value must be within its limits (`can_write`), and take fewer than
    /// 2^64 bytes.
    fn serialized_size(&self) -> u64
        requires can_write { can_write self.now }
        requires fits { length (written self.now) < 2 ^ 64 }
        ensures { result ≡ length (written self.now) };

    /// Writes the value at the front of `out`, and returns how many bytes it took. The other bytes are unchanged.
    ///
    /// The value must be within its limits (`can_write`), and `out` must have room for it:
    /// [`serialized_size`](Serialize::serialized_size) bytes. It allocates nothing.
    fn serialize_into(&self, out: &mut [u8]) -> usize
        requires can_write { can_write self.now }
        requires room { length (written self.now) ≤ length out.old }
        ensures size { result ≡ length (written self.now) }
        ensures bytes { out.new ≡ written self.now ++ drop (length (written self.now)) out.old };

    /// Reads a value from the front of the input, and advances the input past it.
    ///
    /// An input that doesn't begin with a value is refused with `Corruption(None)`, unless an allocation fails first. No other input
    /// is. `OutOfMemory` means that an allocation failed, which happens only for an input for which reading may allocate. An error
    /// leaves the input unchanged.
    fn deserialize(alloc: Global, input: &mut &[u8]) -> Result<Self, Error>
        ensures read { IfOk result (λ value. reads input.old.now value input.new.now) }
        ensures refused { IfErr result (IsRefusal asks reads input.old.now) }
        ensures stays { OnErr result (input.new ≡ input.old) };

    /// Encodes the value into a new vector. The value must be within its limits (`can_write`), and take fewer than 2^64 bytes.
    ///
    /// An error means that an allocation failed.
    fn serialize(&self, alloc: Global) -> Result<Vec<u8>, AllocError>
        requires can_write { can_write self.now }
        requires fits { length (written self.now) < 2 ^ 64 }
        ensures { IfOk result (λ bytes. bytes.items ≡ written self.now) }
    {
        let size = self.serialized_size() as usize;
        let mut bytes = vec![in alloc; 0u8; size]?;
        self.serialize_into(&mut bytes);
        Ok(bytes)
    }

    /// Proves three laws: an input is read as at most one value and one rest, a written value is read again with what may follow it
    /// as the rest, and a read consumes at least `least_size` bytes.
    ghost grammar: { IsGrammar reads written can_write can_follow least_size };

    /// Proves that each read of an input that isn't empty consumes at least a byte, if `takes_a_byte` says so.
    ghost takes: { takes_a_byte ≡ true → TakesAByte reads };
}
