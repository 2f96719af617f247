//! Edits of byte strings in one buffer: of its bytes, and of the list of where they end.

ghost use Rattle.std.specs.Prelude.{◌≡◌, ◌+◌, ◌-◌, ◌<◌, ◌≤◌, ◌^◌, [], ◌∷◌, ◌++◌, length, map, take, drop, OnOk, OnErr};
ghost use Rattle.std.specs.List.{AllByRecursion};
ghost use Rattle.sled_base.specs.Payloads.ByteStrings.{written_bytes};
ghost use Rattle.sled_base.specs.Strings.{strings_in, Keeps, with_at, without_at};
ghost use Rattle.sled_base.specs.StringLaws.{KeepsOwn};

use super::begin_at;
use crate::moves::{move_down, move_up};
use crate::serialization::Serialize;
use crate::serialization::bytes::write_bytes;
use std::alloc::AllocError;

// How many bytes a string is written in.
pub(super) fn written_size(string: &[u8]) -> usize
    requires { length string.now < 2 ^ 32 }
    ensures value { result ≡ length (written_bytes string.now) }
    ensures bound { result ≤ 2 ^ 32 + 9 }
{
    (string.len() as u64).serialized_size() as usize + string.len()
}

pub(super) fn insert(
    bytes: &mut Vec<u8>,
    ends: &mut Vec<usize>,
    place: usize,
    string: &[u8],
) -> Result<(), AllocError>
    requires keeps { KeepsOwn bytes.old.items ends.old.items }
    requires within { place ≤ length ends.old.items }
    requires short { length string.now < 2 ^ 32 }
    ensures ok { OnOk result
        (Keeps (with_at place string.now (strings_in bytes.old.items ends.old.items))
        bytes.new.items ends.new.items) }
    ensures err { OnErr result
        ((bytes.new.items ≡ bytes.old.items) × (ends.new.items ≡ ends.old.items)) }
{
    if place == ends.len() {
        return push(bytes, ends, string);
    }
    let start = begin_at(ends, place);
    let size = written_size(string);
    ends.insert(place, start + size)?;
    if let Err(error) = put(bytes, start, start, string) {
        ends.remove(place);
        return Err(error);
    }
    move_ends(ends, place + 1, size, 0);
    Ok(())
}

pub(super) fn push(
    bytes: &mut Vec<u8>,
    ends: &mut Vec<usize>,
    string: &[u8],
) -> Result<(), AllocError>
    requires keeps { KeepsOwn bytes.old.items ends.old.items }
    requires short { length string.now < 2 ^ 32 }
    ensures ok { OnOk result (Keeps (strings_in bytes.old.items ends.old.items
        ++ string.now ∷ []) bytes.new.items ends.new.items) }
    ensures err { OnErr result
        ((bytes.new.items ≡ bytes.old.items) × (ends.new.items ≡ ends.old.items)) }
{
    ends.push(bytes.len() + written_size(string))?;
    if let Err(error) = append(bytes, string) {
        ends.pop();
        return Err(error);
    }
    Ok(())
}

// Writes a string behind the bytes.
fn append(bytes: &mut Vec<u8>, string: &[u8]) -> Result<(), AllocError>
    requires { length string.now < 2 ^ 32 }
    ensures ok { OnOk result (bytes.new.items ≡ bytes.old.items ++ written_bytes string.now) }
    ensures err { OnErr result (bytes.new.items ≡ bytes.old.items) }
{
    let start = bytes.len();
    if string.len() > 240 {
        return put(bytes, start, start, string);
    }
    bytes.push(string.len() as u8)?;
    if let Err(error) = bytes.extend_from_slice(string) {
        bytes.truncate(start);
        return Err(error);
    }
    Ok(())
}

pub(super) fn remove(bytes: &mut Vec<u8>, ends: &mut Vec<usize>, place: usize)
    requires keeps { KeepsOwn bytes.old.items ends.old.items }
    requires within { place < length ends.old.items }
    ensures { Keeps (without_at place (strings_in bytes.old.items ends.old.items))
        bytes.new.items ends.new.items }
{
    let start = begin_at(ends, place);
    if place + 1 == ends.len() {
        bytes.truncate(start);
        ends.truncate(place);
        return;
    }
    let end = ends[place];
    close_gap(bytes, start, end);
    ends.remove(place);
    move_ends(ends, place, 0, end - start);
}

pub(super) fn replace(
    bytes: &mut Vec<u8>,
    ends: &mut Vec<usize>,
    place: usize,
    string: &[u8],
) -> Result<(), AllocError>
    requires keeps { KeepsOwn bytes.old.items ends.old.items }
    requires within { place < length ends.old.items }
    requires short { length string.now < 2 ^ 32 }
    ensures ok { OnOk result (Keeps (take place (strings_in bytes.old.items ends.old.items)
        ++ string.now ∷ drop (place + 1) (strings_in bytes.old.items ends.old.items))
        bytes.new.items ends.new.items) }
    ensures err { OnErr result
        ((bytes.new.items ≡ bytes.old.items) × (ends.new.items ≡ ends.old.items)) }
{
    let start = begin_at(ends, place);
    let end = ends[place];
    let taken = end - start;
    let size = written_size(string);
    put(bytes, start, end, string)?;
    if size == taken {
        return Ok(());
    }
    move_ends(ends, place, size, taken);
    Ok(())
}

// Writes a string in the place of a run of bytes.
fn put(bytes: &mut Vec<u8>, start: usize, end: usize, string: &[u8]) -> Result<(), AllocError>
    requires order { start ≤ end }
    requires within { end ≤ length bytes.old.items }
    requires short { length string.now < 2 ^ 32 }
    ensures ok { OnOk result (bytes.new.items
        ≡ take start bytes.old.items ++ (written_bytes string.now ++ drop end bytes.old.items)) }
    ensures err { OnErr result (bytes.new.items ≡ bytes.old.items) }
{
    fit(bytes, start, end, written_size(string))?;
    write_bytes(string, bytes.slice_mut(start..));
    Ok(())
}

// Makes a run of bytes another length, and leaves what stands before and behind it.
fn fit(bytes: &mut Vec<u8>, start: usize, end: usize, size: usize) -> Result<(), AllocError>
    requires order { start ≤ end }
    requires within { end ≤ length bytes.old.items }
    requires fits { size < 2 ^ 64 - 2 ^ 63 }
    ensures front { OnOk result (take start bytes.new.items ≡ take start bytes.old.items) }
    ensures back { OnOk result (drop (start + size) bytes.new.items ≡ drop end bytes.old.items) }
    ensures room { OnOk result (start + size ≤ length bytes.new.items) }
    ensures err { OnErr result (bytes.new.items ≡ bytes.old.items) }
{
    let was = end - start;
    if was < size {
        return open_gap(bytes, end, size - was);
    }
    close_gap(bytes, start + size, end);
    Ok(())
}

// Moves what stands from a place on up by so many bytes.
fn open_gap(bytes: &mut Vec<u8>, at: usize, more: usize) -> Result<(), AllocError>
    requires within { at ≤ length bytes.old.items }
    requires fits { more < 2 ^ 64 - 2 ^ 63 }
    ensures front { OnOk result (take at bytes.new.items ≡ take at bytes.old.items) }
    ensures back { OnOk result (drop (at + more) bytes.new.items ≡ drop at bytes.old.items) }
    ensures many { OnOk result (length bytes.new.items ≡ length bytes.old.items + more) }
    ensures err { OnErr result (bytes.new.items ≡ bytes.old.items) }
{
    let len = bytes.len();
    bytes.resize(len + more, 0)?;
    move_up(bytes.slice_mut(at..), more);
    Ok(())
}

// Takes a run of bytes out.
fn close_gap(bytes: &mut Vec<u8>, start: usize, end: usize)
    requires order { start ≤ end }
    requires within { end ≤ length bytes.old.items }
    ensures { bytes.new.items ≡ take start bytes.old.items ++ drop end bytes.old.items }
{
    let less = end - start;
    if less == 0 {
        return;
    }
    let rest = bytes.len() - less;
    move_down(bytes.slice_mut(start..), less);
    bytes.truncate(rest);
}

// Takes from each of the ends from a place on, and adds to it.
fn move_ends(ends: &mut Vec<usize>, from: usize, added: usize, taken: usize)
    requires within { from ≤ length ends.old.items }
    requires fit { AllByRecursion (λ end. (taken ≤ end) × (end - taken + added < 2 ^ 64))
        (drop from ends.old.items) }
    ensures { ends.new.items ≡ take from ends.old.items
        ++ map (λ end. end - taken + added) (drop from ends.old.items) }
{
    move_all(ends.slice_mut(from..), added, taken);
}

fn move_all(ends: &mut [usize], added: usize, taken: usize)
    requires { AllByRecursion (λ end. (taken ≤ end) × (end - taken + added < 2 ^ 64)) ends.old }
    ensures { ends.new ≡ map (λ end. end - taken + added) ends.old }
{
    for end in ends.iter_mut() {
        *end = *end - taken + added;
    }
}
