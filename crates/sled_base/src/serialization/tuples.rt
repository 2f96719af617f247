//! The encoding of tuples: one part after the other.

ghost use Rattle.std.specs.Prelude.{◌≡◌, ◌<◌, ◌≤◌, ◌^◌, ◌++◌, ◌+◌, ◌||◌, false, length, take, drop};
ghost use Rattle.sled_base.specs.Payloads.Reading.{ReadsUnit, written_unit, AsksNever, ReadsPair, AsksPair, ReadsTriple, AsksTriple};
ghost use Rattle.sled_base.specs.Payloads.ReadingLaws.{Unit-grammar, Pair-grammar, Triple-grammar, Unit-takes, Pair-takes, Triple-takes};

use super::Serialize;
use crate::types::Error;
use std::alloc::Global;

/// Writes one value after the other at the front of `out`, which must have room for both, and returns how many bytes they took.
pub fn write_both<A: Serialize, B: Serialize>(first: &A, second: &B, out: &mut [u8]) -> usize
    requires can_write_first { A.can_write first.now }
    requires can_write_second { B.can_write second.now }
    requires room { length (A.written first.now ++ B.written second.now) ≤ length out.old }
    ensures size { result ≡ length (A.written first.now ++ B.written second.now) }
    ensures bytes { out.new ≡ (A.written first.now ++ B.written second.now)
        ++ drop (length (A.written first.now ++ B.written second.now)) out.old }
{
    let end = first.serialize_into(out);
    end + second.serialize_into(&mut out[end..])
}

/// Writes a value to `out` from `start` on, where there must be room for it, and returns where it ends.
pub fn write_at<T: Serialize>(value: &T, out: &mut [u8], start: usize) -> usize
    requires can_write { T.can_write value.now }
    requires room { start + length (T.written value.now) ≤ length out.old }
    ensures size { result ≡ start + length (T.written value.now) }
    ensures bytes { out.new ≡ (take start out.old ++ T.written value.now)
        ++ drop (start + length (T.written value.now)) out.old }
{
    start + value.serialize_into(&mut out[start..])
}

/// Writes one value after the other at the front of `out`, which must have room for all, and returns how many bytes they took.
pub fn write_three<A: Serialize, B: Serialize, C: Serialize>(
    first: &A,
    second: &B,
    third: &C,
    out: &mut [u8],
) -> usize
    requires can_write_first { A.can_write first.now }
    requires can_write_second { B.can_write second.now }
    requires can_write_third { C.can_write third.now }
    requires room { length (A.written first.now ++ (B.written second.now ++ C.written third.now))
        ≤ length out.old }
    ensures size { result
        ≡ length (A.written first.now ++ (B.written second.now ++ C.written third.now)) }
    ensures bytes { out.new ≡ (A.written first.now ++ (B.written second.now ++ C.written third.now))
        ++ drop (length (A.written first.now ++ (B.written second.now ++ C.written third.now)))
        out.old }
{
    let end = first.serialize_into(out);
    end + write_both(second, third, &mut out[end..])
}

/// Writes one value after the other to `out` from `start` on, where there must be room for all, and returns where they end.
pub fn write_three_at<A: Serialize, B: Serialize, C: Serialize>(
    first: &A,
    second: &B,
    third: &C,
    out: &mut [u8],
    start: usize,
) -> usize
    requires can_write_first { A.can_write first.now }
    requires can_write_second { B.can_write second.now }
    requires can_write_third { C.can_write third.now }
    requires room { start
        + length (A.written first.now ++ (B.written second.now ++ C.written third.now))
        ≤ length out.old }
    ensures size { result
        ≡ start + length (A.written first.now ++ (B.written second.now ++ C.written third.now)) }
    ensures bytes { out.new ≡ (take start out.old
        ++ (A.written first.now ++ (B.written second.now ++ C.written third.now)))
        ++ drop (start
        + length (A.written first.now ++ (B.written second.now ++ C.written third.now))) out.old }
{
    start + write_three(first, second, third, &mut out[start..])
}

/// Returns the number of bytes that the encoded values take together. It must be below 2^64.
pub fn size_of_three<A: Serialize, B: Serialize, C: Serialize>(
    first: &A,
    second: &B,
    third: &C,
) -> u64
    requires can_write_first { A.can_write first.now }
    requires can_write_second { B.can_write second.now }
    requires can_write_third { C.can_write third.now }
    requires fits { length (A.written first.now ++ (B.written second.now ++ C.written third.now))
        < 2 ^ 64 }
    ensures { result
        ≡ length (A.written first.now ++ (B.written second.now ++ C.written third.now)) }
{
    first.serialized_size() + second.serialized_size() + third.serialized_size()
}

impl Serialize for () {
    ghost reads = { ReadsUnit };

    ghost asks = { AsksNever };

    ghost written = { written_unit };

    ghost can_write = { λ _. Unit {0} };

    ghost least_size = { 0 };

    ghost takes_a_byte = { false };

    ghost grammar = { Unit-grammar };

    ghost takes = { Unit-takes };

    fn serialized_size(&self) -> u64 {
        0
    }

    fn serialize_into(&self, _out: &mut [u8]) -> usize {
        0
    }

    fn deserialize(_alloc: Global, _input: &mut &[u8]) -> Result<(), Error> {
        Ok(())
    }
}

impl<A: Serialize, B: Serialize> Serialize for (A, B) {
    ghost reads = { ReadsPair A.reads B.reads };

    ghost asks = { AsksPair A.asks A.reads B.asks };

    ghost written = { λ p. A.written p.0 ++ B.written p.1 };

    ghost can_write = { λ p. A.can_write p.0 × B.can_write p.1 };

    ghost can_follow = { λ p rest. A.can_follow p.0 (B.written p.1 ++ rest) × B.can_follow p.1 rest };

    ghost least_size = { A.least_size + B.least_size };

    ghost takes_a_byte = { A.takes_a_byte || B.takes_a_byte };

    ghost grammar = { Pair-grammar A.grammar B.grammar };

    ghost takes = { Pair-takes A.takes_a_byte B.takes_a_byte A.takes B.takes A.grammar B.grammar };

    fn serialized_size(&self) -> u64 {
        self.0.serialized_size() + self.1.serialized_size()
    }

    fn serialize_into(&self, out: &mut [u8]) -> usize {
        write_both(&self.0, &self.1, out)
    }

    fn deserialize(alloc: Global, input: &mut &[u8]) -> Result<(A, B), Error> {
        let mut rest = *input;
        let first = A::deserialize(alloc, &mut rest)?;
        let second = B::deserialize(alloc, &mut rest)?;
        *input = rest;
        Ok((first, second))
    }
}

impl<A: Serialize, B: Serialize, C: Serialize> Serialize for (A, B, C) {
    ghost reads = { ReadsTriple A.reads B.reads C.reads };

    ghost asks = { AsksTriple A.asks A.reads B.asks B.reads C.asks };

    ghost written = { λ t. A.written t.0 ++ (B.written t.1 ++ C.written t.2) };

    ghost can_write = { λ t. A.can_write t.0 × (B.can_write t.1 × C.can_write t.2) };

    ghost can_follow = { λ t rest. A.can_follow t.0 ((B.written t.1 ++ C.written t.2) ++ rest) × (B.can_follow t.1 (C.written t.2 ++ rest) × C.can_follow t.2 rest) };

    ghost least_size = { A.least_size + (B.least_size + C.least_size) };

    ghost takes_a_byte = { A.takes_a_byte || (B.takes_a_byte || C.takes_a_byte) };

    ghost grammar = { Triple-grammar A.grammar B.grammar C.grammar };

    ghost takes = { Triple-takes A.takes_a_byte B.takes_a_byte C.takes_a_byte A.takes B.takes C.takes A.grammar B.grammar C.grammar };

    fn serialized_size(&self) -> u64 {
        size_of_three(&self.0, &self.1, &self.2)
    }

    fn serialize_into(&self, out: &mut [u8]) -> usize {
        write_three(&self.0, &self.1, &self.2, out)
    }

    fn deserialize(alloc: Global, input: &mut &[u8]) -> Result<(A, B, C), Error> {
        let mut rest = *input;
        let first = A::deserialize(alloc, &mut rest)?;
        let second = B::deserialize(alloc, &mut rest)?;
        let third = C::deserialize(alloc, &mut rest)?;
        *input = rest;
        Ok((first, second, third))
    }
}
