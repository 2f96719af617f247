//! The encoding of the pairs of a node: a count, all keys, and then all items.

ghost use Rattle.std.specs.Prelude.{◌≡◌, ◌+◌, ◌*◌, ◌<◌, ◌≤◌, ◌^◌, ◌++◌, [], length, drop, take, IfSome, IfNone, IfOk, IfErr, OnErr};
ghost use Rattle.std.specs.List.{flat_map, AllByRecursion};
ghost use Rattle.std.specs.Vec.{vec_capacity};
ghost use Rattle.sled_base.specs.Payloads.Reading.{ReadsNoValue, IsRefusal};
ghost use Rattle.sled_base.specs.Payloads.ByteStrings.{ReadsBytes, written_bytes, CanWriteBytes};
ghost use Rattle.sled_node.specs.Payloads.Sequences.{ReadsCount};
ghost use Rattle.sled_node.specs.Payloads.Pairs.{keys_of, items_of, IsBehindKeys, SplitsPairs, AsksPairs, ReadsBoth, ReadsPairs, CanWritePairs, written_pairs};

use super::Serialize;
use crate::node::MAX_PAIRS;
use sled_base::serialization::bytes::split_bytes;
use sled_base::serialization::numbers::read_u64;
use sled_base::serialization::tuples::write_at;
use sled_base::{Error, IVec};
use std::alloc::{AllocError, Global};

const MOST_PAIRS: u64 = MAX_PAIRS as u64;

// Reads the count, all keys, and then all items.
pub fn read_pairs<V: Serialize>(alloc: Global, input: &mut &[u8]) -> Result<Vec<(IVec, V)>, Error>
    requires { 1 ≤ V.least_size }
    ensures read { IfOk result
        (λ pairs. ReadsPairs V.reads input.old.now pairs.items input.new.now) }
    ensures refused { IfErr result (IsRefusal AsksPairs (ReadsPairs V.reads) input.old.now) }
    ensures stays { OnErr result (input.new ≡ input.old) }
{
    let Some((count, keys, behind)) = split_pairs::<V>(*input) else {
        return Err(Error::Corruption(None));
    };
    let mut items = behind;
    let pairs = read_both(alloc, count, keys, &mut items)?;
    *input = items;
    Ok(pairs)
}

// The count, where the keys begin, and where the items do, if there may be so many pairs. It allocates nothing.
pub fn split_pairs<V: Serialize>(input: &[u8]) -> Option<(usize, &[u8], &[u8])>
    requires { 1 ≤ V.least_size }
    ensures found { IfSome result (λ x. SplitsPairs input.now x.0 x.1.now x.2.now) }
    ensures nothing { IfNone result (ReadsNoValue (ReadsPairs V.reads) input.now) }
{
    let (count, keys) = read_u64(input)?;
    if count > MOST_PAIRS {
        return None;
    }
    let most = keys.len() as u64 / 2;
    if count > most {
        return None;
    }
    let items = skip_keys(keys, count as usize)?;
    Some((count as usize, keys, items))
}

// What is left behind so many keys, if there are so many.
fn skip_keys(input: &[u8], count: usize) -> Option<&[u8]>
    ensures found { IfSome result (λ rest. IsBehindKeys count input.now rest.now) }
    ensures nothing { IfNone result (ReadsNoValue (ReadsCount count ReadsBytes) input.now) }
{
    let mut rest = input;
    for _ in 0..count {
        let (_, behind) = split_bytes(rest)?;
        rest = behind;
    }
    Some(rest)
}

// Reads so many keys from the one input, and as many items from the other.
fn read_both<V: Serialize>(
    alloc: Global,
    count: usize,
    keys: &[u8],
    items: &mut &[u8],
) -> Result<Vec<(IVec, V)>, Error>
    requires judged { 2 * count ≤ length keys.now }
    requires behind { IsBehindKeys count keys.now items.old.now }
    ensures read { IfOk result
        (λ pairs. ReadsBoth V.reads count keys.now items.old.now pairs.items items.new.now) }
    ensures refused { IfErr result
        (IsRefusal (λ _. 1 ≤ count) (ReadsBoth V.reads count keys.now) items.old.now) }
    ensures stays { OnErr result (items.new ≡ items.old) }
{
    let mut pairs = room_for(alloc, count, keys)?;
    let mut key_rest = keys;
    let mut item_rest = *items;
    for _ in 0..count {
        let key = IVec::deserialize(alloc, &mut key_rest)?;
        let item = V::deserialize(alloc, &mut item_rest)?;
        pairs.push((key, item))?;
    }
    *items = item_rest;
    Ok(pairs)
}

// The one place that takes memory for a count: for no more pairs than what is left can hold, at two bytes a pair.
fn room_for<V>(alloc: Global, count: usize, rest: &[u8]) -> Result<Vec<(IVec, V)>, AllocError>
    requires judged { 2 * count ≤ length rest.now }
    ensures empty { IfOk result (λ pairs. pairs.items ≡ []) }
    ensures room { IfOk result (λ pairs. vec_capacity pairs ≡ count) }
    ensures taken { OnErr result (1 ≤ count) }
{
    Vec::with_capacity(alloc, count)
}

// How many bytes the pairs are written as.
pub fn size_of_pairs<V: Serialize>(pairs: &[(IVec, V)]) -> u64
    requires can_write { CanWritePairs V.can_write pairs.now }
    requires fits { length (written_pairs V.written pairs.now) < 2 ^ 64 }
    ensures { result ≡ length (written_pairs V.written pairs.now) }
{
    let mut size = (pairs.len() as u64).serialized_size();
    for pair in pairs {
        size += pair.0.serialized_size() + pair.1.serialized_size();
    }
    size
}

// Writes the count, all keys, and then all items, at the front.
pub fn write_pairs<V: Serialize>(pairs: &[(IVec, V)], out: &mut [u8]) -> usize
    requires can_write { CanWritePairs V.can_write pairs.now }
    requires room { length (written_pairs V.written pairs.now) ≤ length out.old }
    ensures size { result ≡ length (written_pairs V.written pairs.now) }
    ensures bytes { out.new ≡ written_pairs V.written pairs.now
        ++ drop (length (written_pairs V.written pairs.now)) out.old }
{
    let start = (pairs.len() as u64).serialize_into(out);
    write_behind(pairs, out, start)
}

// Writes all keys, and then all items, from a place on, and answers where they end.
fn write_behind<V: Serialize>(pairs: &[(IVec, V)], out: &mut [u8], start: usize) -> usize
    requires keys { AllByRecursion CanWriteBytes (keys_of pairs.now) }
    requires items { AllByRecursion V.can_write (items_of pairs.now) }
    requires room { start + length (flat_map written_bytes (keys_of pairs.now)
        ++ flat_map V.written (items_of pairs.now)) ≤ length out.old }
    ensures size { result ≡ start + length
        (flat_map written_bytes (keys_of pairs.now) ++ flat_map V.written (items_of pairs.now)) }
    ensures bytes { out.new ≡ (take start out.old ++ (flat_map written_bytes (keys_of pairs.now)
        ++ flat_map V.written (items_of pairs.now))) ++ drop (start + length (flat_map written_bytes
        (keys_of pairs.now) ++ flat_map V.written (items_of pairs.now))) out.old }
{
    start + write_keys_and_items(pairs, &mut out[start..])
}

fn write_keys_and_items<V: Serialize>(pairs: &[(IVec, V)], out: &mut [u8]) -> usize
    requires keys { AllByRecursion CanWriteBytes (keys_of pairs.now) }
    requires items { AllByRecursion V.can_write (items_of pairs.now) }
    requires room { length (flat_map written_bytes (keys_of pairs.now)
        ++ flat_map V.written (items_of pairs.now)) ≤ length out.old }
    ensures size { result ≡ length
        (flat_map written_bytes (keys_of pairs.now) ++ flat_map V.written (items_of pairs.now)) }
    ensures bytes { out.new ≡ (flat_map written_bytes (keys_of pairs.now) ++ flat_map V.written
        (items_of pairs.now)) ++ drop (length (flat_map written_bytes (keys_of pairs.now)
        ++ flat_map V.written (items_of pairs.now))) out.old }
{
    let end = write_keys(pairs, out);
    end + write_items(pairs, &mut out[end..])
}

// Writes the keys one after the other at the front.
fn write_keys<V>(pairs: &[(IVec, V)], out: &mut [u8]) -> usize
    requires can_write { AllByRecursion CanWriteBytes (keys_of pairs.now) }
    requires room { length (flat_map written_bytes (keys_of pairs.now)) ≤ length out.old }
    ensures size { result ≡ length (flat_map written_bytes (keys_of pairs.now)) }
    ensures bytes { out.new ≡ flat_map written_bytes (keys_of pairs.now)
        ++ drop (length (flat_map written_bytes (keys_of pairs.now))) out.old }
{
    let mut end = 0;
    for pair in pairs {
        end = write_at(&pair.0, out, end);
    }
    end
}

// Writes the items one after the other at the front.
fn write_items<V: Serialize>(pairs: &[(IVec, V)], out: &mut [u8]) -> usize
    requires can_write { AllByRecursion V.can_write (items_of pairs.now) }
    requires room { length (flat_map V.written (items_of pairs.now)) ≤ length out.old }
    ensures size { result ≡ length (flat_map V.written (items_of pairs.now)) }
    ensures bytes { out.new ≡ flat_map V.written (items_of pairs.now)
        ++ drop (length (flat_map V.written (items_of pairs.now))) out.old }
{
    let mut end = 0;
    for pair in pairs {
        end = write_at(&pair.1, out, end);
    }
    end
}
