ghost use Rattle.std.specs.Prelude.{◌<◌, ◌≡◌, ◌^◌, length, true};
ghost use Rattle.sled_base.specs.Payloads.Reading.{ReadsNoValue};

mod rows;

use super::joined;
use rows::{Case, ENCODED, REFUSED, SEQUENCES, Type, Value};
use sled_base::{BatchManifest, ConsumeSequence, Error, IVec, Serialize};
use std::alloc::{AllocError, Global};
use std::num::NonZeroU64;
use std::test::Fail;

// ---- steps for any type

// Whether no value is read, and the input stays where it was. Then the grammar has none for it. It takes no memory.
fn is_refused<T: Serialize>(alloc: Global, bytes: &[u8]) -> bool
    ensures { result ≡ true → ReadsNoValue T.reads bytes.now }
{
    let mut rest = bytes;
    let answer = T::deserialize(alloc, &mut rest);
    matches!(&answer, Err(Error::Corruption(None))) && rest == bytes
}

// Whether the value is at the front of the input, before this rest.
fn is_read<T: Serialize + PartialEq>(
    alloc: Global,
    input: &[u8],
    value: &T,
    rest: &[u8],
) -> Result<bool, AllocError> {
    let mut left = input;
    match T::deserialize(alloc, &mut left) {
        Ok(found) => Ok(found == *value && left == rest),
        Err(Error::OutOfMemory) => Err(AllocError),
        Err(_) => Ok(false),
    }
}

// Whether the bytes are read as the value, alone and before other bytes, and each proper prefix of them is refused.
fn is_encoding<T: Serialize + PartialEq>(
    alloc: Global,
    value: &T,
    bytes: &[u8],
) -> Result<bool, AllocError> {
    for len in 0..bytes.len() {
        if !is_refused::<T>(alloc, &bytes[..len]) {
            return Ok(false);
        }
    }
    let followed = joined(alloc, bytes, &[7, 8])?;
    Ok(is_read(alloc, bytes, value, &[])? && is_read(alloc, &followed, value, &[7, 8])?)
}

// Whether the bytes are the one encoding that is written of the value, or else another. What is written has the size that is
// answered, and leaves the bytes behind it.
fn writes<T: Serialize>(
    alloc: Global,
    value: &T,
    bytes: &[u8],
    is_written: bool,
) -> Result<bool, AllocError>
    requires can_write { T.can_write value.now }
    requires fits { length (T.written value.now) < 2 ^ 64 }
{
    let written = value.serialize(alloc)?;
    let size = value.serialized_size();
    let mut out = vec![in alloc; 9u8; written.len() + 2]?;
    let end = value.serialize_into(&mut out);
    Ok(
        (written.as_slice() == bytes) == is_written
            && [written.len() as u64, end as u64] == [size, size]
            && out.starts_with(&written)
            && out.ends_with(&[9, 9]),
    )
}

// Whether the bytes are an encoding of the value, and the one that is written where that is wanted.
fn is_encoded<T: Serialize + PartialEq>(
    alloc: Global,
    value: &T,
    bytes: &[u8],
    is_written: bool,
) -> Result<bool, AllocError>
    requires can_write { T.can_write value.now }
    requires fits { length (T.written value.now) < 2 ^ 64 }
{
    Ok(writes(alloc, value, bytes, is_written)? && is_encoding(alloc, value, bytes)?)
}

// ---- values

fn is_text(
    alloc: Global,
    text: &[u8],
    length: &[u8],
    is_written: bool,
) -> Result<bool, AllocError> {
    let bytes = joined(alloc, length, text)?;
    let string = IVec::from_slice(alloc, text)?;
    is_encoded(alloc, &string, &bytes, is_written)
}

// Whether so many bytes 6 are written behind this length, and read again.
fn is_long_text(alloc: Global, len: usize, length: &[u8]) -> Result<bool, AllocError> {
    let text = vec![in alloc; 6u8; len]?;
    let bytes = joined(alloc, length, &text)?;
    let string = IVec::from_vec(alloc, text)?;
    Ok(writes(alloc, &string, &bytes, true)? && is_read(alloc, &bytes, &string, &[])?)
}

// The greatest optional number can't be written.
fn agrees(alloc: Global, value: Value, bytes: &[u8], is_written: bool) -> Result<bool, AllocError> {
    match value {
        Value::U64(n) => is_encoded(alloc, &n, bytes, is_written),
        Value::U32(n) => is_encoded(alloc, &n, bytes, is_written),
        Value::U8(n) => is_encoded(alloc, &n, bytes, is_written),
        Value::I64(n) => is_encoded(alloc, &n, bytes, is_written),
        Value::Bool(b) => is_encoded(alloc, &b, bytes, is_written),
        Value::Unit => is_encoded(alloc, &(), bytes, is_written),
        Value::Manifest(place) => is_encoded(alloc, &BatchManifest(place), bytes, is_written),
        Value::NoU64 => is_encoded::<Option<u64>>(alloc, &None, bytes, is_written),
        Value::SomeU64(u64::MAX) | Value::SomeI64(i64::MAX) => Ok(false),
        Value::SomeU64(n) => is_encoded(alloc, &Some(n), bytes, is_written),
        Value::NoI64 => is_encoded::<Option<i64>>(alloc, &None, bytes, is_written),
        Value::SomeI64(n) => is_encoded(alloc, &Some(n), bytes, is_written),
        Value::NonZero(n) => is_encoded(alloc, &NonZeroU64::new(n), bytes, is_written),
        Value::Pair(a, b) => is_encoded(alloc, &(a, b), bytes, is_written),
        Value::Triple(a, c) => is_encoded(alloc, &(a, (), c), bytes, is_written),
        Value::Text(text) => is_text(alloc, text, bytes, is_written),
        Value::Sixes(len) => is_long_text(alloc, len, bytes),
    }
}

// What is longer than it need be is read, and never written.
#[test]
fn values_are_encoded(rt: HostRuntime) -> Result<(), Fail> {
    for (rows, is_written) in ENCODED {
        for (row, value, bytes) in *rows {
            assert!(rt; agrees(rt.alloc(), *value, bytes, *is_written)?, "{row}");
        }
    }
    Ok(())
}

// ---- refusals

fn refuses(alloc: Global, of: &Type, bytes: &[u8]) -> bool {
    match of {
        Type::U64 => is_refused::<u64>(alloc, bytes),
        Type::U32 => is_refused::<u32>(alloc, bytes),
        Type::U8 => is_refused::<u8>(alloc, bytes),
        Type::I64 => is_refused::<i64>(alloc, bytes),
        Type::Bool => is_refused::<bool>(alloc, bytes),
        Type::Manifest => is_refused::<BatchManifest>(alloc, bytes),
        Type::Pair => is_refused::<(u8, u64)>(alloc, bytes),
        Type::Triple => is_refused::<(u8, (), u32)>(alloc, bytes),
        Type::Text => is_refused::<IVec>(alloc, bytes),
    }
}

// ---- values to the end of an input

// Whether the value comes next.
fn is_next<T: Serialize + PartialEq>(values: &mut ConsumeSequence<'_, T>, value: &T) -> bool {
    match values.next() {
        Some(Ok(next)) => next == *value,
        _ => false,
    }
}

// Whether the input gives these numbers, and then a refusal where that is wanted, and nothing more.
fn gives(alloc: Global, input: &[u8], numbers: &[u64], is_refused: bool) -> bool {
    let mut values = ConsumeSequence::<u64>::new(alloc, input);
    for number in numbers {
        if !matches!(values.next(), Some(Ok(next)) if next == *number) {
            return false;
        }
    }
    if is_refused && !matches!(values.next(), Some(Err(Error::Corruption(None)))) {
        return false;
    }
    values.next().is_none()
}

// A byte string of each length at which it is kept or encoded in another way, and a number of each length.
const LENS: &[usize] = &[0, 1, 21, 22, 23, 24, 240, 241, 1_000];

fn text_at(alloc: Global, i: u32) -> Result<IVec, AllocError> {
    let len = LENS.get(i as usize % LENS.len()).copied().unwrap_or(0);
    IVec::from_vec(alloc, vec![in alloc; (i % 256) as u8; len]?)
}

fn number_at(i: u32) -> u64 {
    1 << (i % 64)
}

// A byte string, a number and the next byte string, one behind the other, so often.
fn triples(alloc: Global, count: u32) -> Result<Vec<u8>, AllocError> {
    let mut bytes = Vec::new(alloc);
    for i in 0..count {
        bytes.extend_from_slice(&text_at(alloc, i)?.serialize(alloc)?)?;
        bytes.extend_from_slice(&number_at(i).serialize(alloc)?)?;
        bytes.extend_from_slice(&text_at(alloc, i + 1)?.serialize(alloc)?)?;
    }
    Ok(bytes)
}

fn come_as_triples(alloc: Global, input: &[u8], count: u32) -> Result<bool, AllocError> {
    let mut values = ConsumeSequence::<(IVec, u64, IVec)>::new(alloc, input);
    for i in 0..count {
        let triple = (text_at(alloc, i)?, number_at(i), text_at(alloc, i + 1)?);
        if !is_next(&mut values, &triple) {
            return Ok(false);
        }
    }
    Ok(values.next().is_none())
}

fn come_as_pairs(alloc: Global, input: &[u8], count: u32) -> Result<bool, AllocError> {
    let mut values = ConsumeSequence::<((IVec, u64), IVec)>::new(alloc, input);
    for i in 0..count {
        let pair = ((text_at(alloc, i)?, number_at(i)), text_at(alloc, i + 1)?);
        if !is_next(&mut values, &pair) {
            return Ok(false);
        }
    }
    Ok(values.next().is_none())
}

#[test]
fn as_many_values_come_as_were_written(rt: HostRuntime) -> Result<(), Fail> {
    for count in [0, 1, 2, 3, 16, 17, 1_000] {
        let bytes = triples(rt.alloc(), count)?;
        let is_so = come_as_triples(rt.alloc(), &bytes, count)?
            && come_as_pairs(rt.alloc(), &bytes, count)?;
        assert!(rt; is_so, "{count} values");
    }
    Ok(())
}

// The second of the last pair, or none where none is read. The loop ends, since a pair takes a byte where a part of it does.
fn last_of(alloc: Global, input: &[u8]) -> Option<u64> {
    let mut last = None;
    for pair in ConsumeSequence::<((), u64)>::new(alloc, input) {
        last = match pair {
            Ok(pair) => Some(pair.1),
            Err(_) => None,
        };
    }
    last
}

// Whether so many values of no byte come.
fn come_again(alloc: Global, input: &[u8], count: u32) -> bool {
    let mut values = ConsumeSequence::<()>::new(alloc, input);
    for _ in 0..count {
        if !is_next(&mut values, &()) {
            return false;
        }
    }
    true
}

// ---- what takes no memory

fn holds(alloc: Global, case: &Case) -> bool {
    match case {
        Case::Refused(of, bytes) => refuses(alloc, of, bytes),
        Case::Numbers(input, numbers, is_refused) => gives(alloc, input, numbers, *is_refused),
        Case::Pairs(input, last) => last_of(alloc, input) == *last,
        Case::Nothing(input, count, comes) => come_again(alloc, input, *count) == *comes,
    }
}

// It passes with each allocation failing.
#[test]
fn what_is_refused_or_of_numbers_takes_no_memory(rt: HostRuntime) {
    for rows in [REFUSED, SEQUENCES] {
        for (row, case) in rows {
            assert!(rt; holds(rt.alloc(), case), "{row}");
        }
    }
}
