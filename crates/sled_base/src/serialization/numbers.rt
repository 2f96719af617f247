//! The encoding of numbers.

ghost use Rattle.std.specs.Prelude.{◌≡◌, ◌-◌, ◌<◌, ◌≤◌, ◌^◌, ◌++◌, length, replicate, IfSome, IfNone};
ghost use Rattle.std.specs.Int.{w64};
ghost use Rattle.std.specs.Int.RustNames.{FitsSigned};
ghost use Rattle.std.specs.Option.{option_map};
ghost use Rattle.sled_base.specs.Payloads.Numbers.{from_low_bytes, low_bytes, byte_count, ReadsU64, written_u64, ReadsLow, ReadsI64, written_i64, ReadsBool, written_bool, ReadsU8, written_u8};
ghost use Rattle.sled_base.specs.Payloads.NumberLaws.{U64-grammar, U32-grammar, I64-grammar, Bool-grammar, U8-grammar};
ghost use Rattle.sled_base.specs.Payloads.PlainNumbers.{u64_at};
ghost use Rattle.sled_base.specs.Payloads.Reading.{ReadsNoValue, AsksNever};
ghost use Rattle.sled_base.specs.Payloads.ReadingLaws.{some_taken};

use super::Serialize;
use crate::types::Error;
use std::alloc::Global;

// The number that up to eight bytes make, the lowest first.
fn from_low_bytes(bytes: &[u8]) -> u64
    requires { length bytes.now ≤ 8 }
    ensures value { result ≡ from_low_bytes bytes.now }
    ensures bound { result < 256 ^ length bytes.now }
{
    u64::from_le_bytes(padded(bytes))
}

// The bytes, with zeros behind them up to eight.
fn padded(bytes: &[u8]) -> [u8; 8]
    requires { length bytes.now ≤ 8 }
    ensures { result ≡ bytes.now ++ replicate (8 - length bytes.now) 0 }
{
    let mut eight = [0u8; 8];
    eight[..bytes.len()].copy_from_slice(bytes);
    eight
}

// Writes the number over up to eight bytes, the lowest first.
fn put_low_bytes(value: u64, out: &mut [u8])
    requires { length out.old ≤ 8 }
    ensures { out.new ≡ low_bytes (length out.old) value }
{
    let count = out.len();
    out.copy_from_slice(&value.to_le_bytes()[..count]);
}

// The number that so many bytes at the front make, and the rest, if there are so many.
fn read_low(bytes: &[u8], count: usize) -> Option<(u64, &[u8])>
    requires { count ≤ 8 }
    ensures read { IfSome result (λ x. ReadsLow count bytes.now x.0 x.1.now) }
    ensures nothing { IfNone result (ReadsNoValue (ReadsLow count) bytes.now) }
    ensures bound { IfSome result (λ x. x.0 < 256 ^ count) }
{
    if bytes.len() < count {
        return None;
    }
    let (low, rest) = bytes.split_at(count);
    Some((from_low_bytes(low), rest))
}

/// Returns the number at the front and the rest, or None if there is no number.
pub fn read_u64(bytes: &[u8]) -> Option<(u64, &[u8])>
    ensures read { IfSome result (λ x. ReadsU64 bytes.now x.0 x.1.now) }
    ensures nothing { IfNone result (ReadsNoValue ReadsU64 bytes.now) }
{
    plain_u64(bytes)
}

#[tactic(auto, unfolding(crate::specs::Payloads::PlainNumbers::u64_at))]
fn plain_u64(bytes: &[u8]) -> Option<(u64, &[u8])>
    ensures { option_map (λ x. (x.0, x.1.now)) result ≡ u64_at bytes.now }
{
    match bytes {
        [] => None,
        [first @ 0..=240, rest @ ..] => Some((*first as u64, rest)),
        [first @ 241..=248, second, rest @ ..] => {
            Some((240 + 256 * (*first as u64 - 241) + *second as u64, rest))
        }
        [249, second, third, rest @ ..] => {
            Some((2288 + 256 * *second as u64 + *third as u64, rest))
        }
        [0..=249, ..] => None,
        [first, rest @ ..] => {
            let count = (*first - 247) as usize;
            if rest.len() < count {
                return None;
            }
            let (low, rest) = rest.split_at(count);
            Some((from_low_bytes(low), rest))
        }
    }
}

// How many bytes a number above 67823 is written in.
fn byte_count(value: u64) -> usize
    ensures { result ≡ byte_count value }
{
    if value < 1 << 24 {
        3
    } else if value < 1 << 32 {
        4
    } else if value < 1 << 40 {
        5
    } else if value < 1 << 48 {
        6
    } else if value < 1 << 56 {
        7
    } else {
        8
    }
}

impl Serialize for u64 {
    ghost reads = { ReadsU64 };

    ghost asks = { AsksNever };

    ghost written = { written_u64 };

    ghost can_write = { λ n. n < 2 ^ 64 };

    ghost least_size = { 1 };

    ghost grammar = { U64-grammar };

    ghost takes = { some_taken U64-grammar };

    fn serialized_size(&self) -> u64 {
        match *self {
            0..=240 => 1,
            241..=2287 => 2,
            2288..=67823 => 3,
            value => 1 + byte_count(value) as u64,
        }
    }

    fn serialize_into(&self, out: &mut [u8]) -> usize {
        match *self {
            value @ 0..=240 => {
                out[0] = value as u8;
                1
            }
            value @ 241..=2287 => {
                out[0] = (241 + (value - 240) / 256) as u8;
                out[1] = ((value - 240) % 256) as u8;
                2
            }
            value @ 2288..=67823 => {
                out[0] = 249;
                out[1] = ((value - 2288) / 256) as u8;
                out[2] = ((value - 2288) % 256) as u8;
                3
            }
            value => {
                let count = byte_count(value);
                out[0] = (247 + count) as u8;
                put_low_bytes(value, &mut out[1..1 + count]);
                1 + count
            }
        }
    }

    fn deserialize(_alloc: Global, input: &mut &[u8]) -> Result<u64, Error> {
        match read_u64(*input) {
            Some((value, rest)) => {
                *input = rest;
                Ok(value)
            }
            None => Err(Error::Corruption(None)),
        }
    }
}

impl Serialize for u32 {
    ghost reads = { ReadsLow 4 };

    ghost asks = { AsksNever };

    ghost written = { low_bytes 4 };

    ghost can_write = { λ n. n < 2 ^ 32 };

    ghost least_size = { 4 };

    ghost grammar = { U32-grammar };

    ghost takes = { some_taken U32-grammar };

    fn serialized_size(&self) -> u64 {
        4
    }

    fn serialize_into(&self, out: &mut [u8]) -> usize {
        put_low_bytes(*self as u64, &mut out[..4]);
        4
    }

    fn deserialize(_alloc: Global, input: &mut &[u8]) -> Result<u32, Error> {
        match read_low(*input, 4) {
            Some((value, rest)) => {
                *input = rest;
                Ok(value as u32)
            }
            None => Err(Error::Corruption(None)),
        }
    }
}

impl Serialize for i64 {
    ghost reads = { ReadsI64 };

    ghost asks = { AsksNever };

    ghost written = { written_i64 };

    ghost can_write = { λ n. FitsSigned w64 n };

    ghost least_size = { 8 };

    ghost grammar = { I64-grammar };

    ghost takes = { some_taken I64-grammar };

    fn serialized_size(&self) -> u64 {
        8
    }

    fn serialize_into(&self, out: &mut [u8]) -> usize {
        put_low_bytes(self.cast_unsigned(), &mut out[..8]);
        8
    }

    fn deserialize(_alloc: Global, input: &mut &[u8]) -> Result<i64, Error> {
        match read_low(*input, 8) {
            Some((bits, rest)) => {
                *input = rest;
                Ok(bits.cast_signed())
            }
            None => Err(Error::Corruption(None)),
        }
    }
}

impl Serialize for bool {
    ghost reads = { ReadsBool };

    ghost asks = { AsksNever };

    ghost written = { written_bool };

    ghost can_write = { λ _. Unit {0} };

    ghost least_size = { 1 };

    ghost grammar = { Bool-grammar };

    ghost takes = { some_taken Bool-grammar };

    fn serialized_size(&self) -> u64 {
        1
    }

    fn serialize_into(&self, out: &mut [u8]) -> usize {
        out[0] = if *self { 1 } else { 0 };
        1
    }

    fn deserialize(_alloc: Global, input: &mut &[u8]) -> Result<bool, Error> {
        match *input {
            [byte, rest @ ..] => {
                *input = rest;
                Ok(*byte != 0)
            }
            [] => Err(Error::Corruption(None)),
        }
    }
}

impl Serialize for u8 {
    ghost reads = { ReadsU8 };

    ghost asks = { AsksNever };

    ghost written = { written_u8 };

    ghost can_write = { λ n. n < 2 ^ 8 };

    ghost least_size = { 1 };

    ghost grammar = { U8-grammar };

    ghost takes = { some_taken U8-grammar };

    fn serialized_size(&self) -> u64 {
        1
    }

    fn serialize_into(&self, out: &mut [u8]) -> usize {
        out[0] = *self;
        1
    }

    fn deserialize(_alloc: Global, input: &mut &[u8]) -> Result<u8, Error> {
        match *input {
            [byte, rest @ ..] => {
                *input = rest;
                Ok(*byte)
            }
            [] => Err(Error::Corruption(None)),
        }
    }
}
