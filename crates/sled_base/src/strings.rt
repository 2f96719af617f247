//! Byte strings in one buffer, one after the other, each preceded by its length, as in payloads.

ghost use Rattle.std.specs.Prelude.{◌≡◌, ◌↔◌, ◌+◌, ◌<◌, ◌≤◌, ◌^◌, [], ◌∷◌, ◌++◌, length, take, drop, Some, IsTrue, IfSome, IfOk, OnOk, OnErr, slice_get};
ghost use Rattle.std.specs.List.{flat_map, AllByRecursion, HoldsAt};
ghost use Rattle.sled_base.specs.Payloads.ByteStrings.{ReadsBytes, written_bytes, CanWriteBytes};
ghost use Rattle.sled_base.specs.Order.{Bytes};
ghost use Rattle.sled_base.specs.Strings.{strings_in, Keeps, begin_of, BeginsWith, IsPlain, ReadsSome, with_at, without_at};

pub mod builder;
mod edits;

use crate::serialization::bytes::split_bytes;
use edits::{insert, push, remove, replace};
use std::alloc::{AllocError, Global};
use std::marker::Model;

/// Byte strings in one buffer. Contracts see the list of the strings.
#[derive(Debug, Drop)]
pub struct Strings {
    // each string, with its length before it
    bytes: Vec<u8>,
    // where each string ends
    ends: Vec<usize>,
}

impl Model for Strings {
    ghost use Rattle.std.specs.Prelude.{List, ℕ};
    ghost use Rattle.sled_base.specs.Strings.{strings_in, Keeps};

    ghost Value = { List (List ℕ) };

    ghost view = { λ s. strings_in s.bytes.items s.ends.items };

    ghost invariant = { λ s. Keeps (strings_in s.bytes.items s.ends.items) s.bytes.items s.ends.items };
}

impl Strings {
    /// Returns an empty list of strings. It allocates nothing.
    pub fn new(alloc: Global) -> Strings
        ensures { result ≡ [] }
    {
        Strings {
            bytes: Vec::new(alloc),
            ends: Vec::new(alloc),
        }
    }

    /// Reads `count` strings from the front of an input, and copies their bytes as they are.
    ///
    /// Returns None if the input doesn't begin with that many strings, or if the length of one takes more than one byte.
    ///
    /// An error means that an allocation failed.
    pub fn read_plain(
        alloc: Global,
        count: usize,
        input: &[u8],
    ) -> Result<Option<Strings>, AllocError>
        ensures { IfOk result
            (λ found. IfSome found (λ strings. BeginsWith count strings input.now)) }
    {
        let mut ends = Vec::with_capacity(alloc, count)?;
        let mut rest = input;
        for _ in 0..count {
            let Some(behind) = behind_plain(rest) else {
                return Ok(None);
            };
            rest = behind;
            ends.push_reserved(input.len() - rest.len());
        }
        let end = input.len() - rest.len();
        Ok(Some(Strings {
            bytes: Vec::from_slice(alloc, &input[..end])?,
            ends,
        }))
    }

    /// Returns the number of strings.
    pub fn len(&self) -> usize
        ensures { result ≡ length self.now }
    {
        self.ends.len()
    }

    /// Returns the encoded strings, one after the other.
    pub fn written(&self) -> &[u8]
        ensures value { result.now ≡ flat_map written_bytes self.now }
        ensures each { AllByRecursion CanWriteBytes self.now }
    {
        &self.bytes
    }

    /// Returns the string at a place, which must be below [`len`](Strings::len).
    pub fn get(&self, place: usize) -> &[u8]
        requires { place < length self.now }
        ensures { slice_get self.now place ≡ Some result.now }
    {
        string_at(&self.bytes, &self.ends, place)
    }

    /// Returns the string after the one at a place. There must be one: `place + 1` is below [`len`](Strings::len).
    pub fn get_next(&self, place: usize) -> &[u8]
        requires { place + 1 < length self.now }
        ensures { slice_get self.now (place + 1) ≡ Some result.now }
    {
        string_behind(&self.bytes, &self.ends, place)
    }

    /// Returns the allocator of the strings.
    pub fn allocator(&self) -> Global {
        *self.bytes.allocator()
    }

    /// Returns whether both have the same strings.
    pub fn is_same(&self, other: &Strings) -> bool
        ensures { IsTrue result ↔ (self.now ≡ other.now) }
    {
        self.bytes == other.bytes && self.ends == other.ends
    }

    /// Inserts a string at a place. The place must be at most [`len`](Strings::len), and the string shorter than 2^32 bytes.
    ///
    /// An error means that an allocation failed, and leaves the strings unchanged.
    pub fn insert(&mut self, place: usize, string: &[u8]) -> Result<(), AllocError>
        requires within { place ≤ length self.old }
        requires short { length string.now < 2 ^ 32 }
        ensures ok { OnOk result
            (self.new ≡ take place self.old ++ string.now ∷ drop place self.old) }
        ensures err { OnErr result (self.new ≡ self.old) }
    {
        insert(&mut self.bytes, &mut self.ends, place, string)
    }

    /// Appends a string, which must be shorter than 2^32 bytes. An error means that an allocation failed, and leaves the strings unchanged.
    pub fn push(&mut self, string: &[u8]) -> Result<(), AllocError>
        requires { length string.now < 2 ^ 32 }
        ensures ok { OnOk result (self.new ≡ self.old ++ string.now ∷ []) }
        ensures err { OnErr result (self.new ≡ self.old) }
    {
        push(&mut self.bytes, &mut self.ends, string)
    }

    /// Inserts two strings: `string` at `place`, and `other` at `later`. Each must be shorter than 2^32 bytes.
    ///
    /// Both are places among the strings as they were before the call: `later` isn't before `place`, and is at most
    /// [`len`](Strings::len). An error means that an allocation failed, and leaves the strings unchanged.
    pub fn insert_both(
        &mut self,
        place: usize,
        string: &[u8],
        later: usize,
        other: &[u8],
    ) -> Result<(), AllocError>
        requires order { place ≤ later }
        requires within { later ≤ length self.old }
        requires short { length string.now < 2 ^ 32 }
        requires other { length other.now < 2 ^ 32 }
        ensures ok { OnOk result
            (self.new ≡ with_at place string.now (with_at later other.now self.old)) }
        ensures err { OnErr result (self.new ≡ self.old) }
    {
        self.insert(place, string)?;
        let _ = self.len();
        if let Err(error) = self.insert(later + 1, other) {
            self.remove(place);
            return Err(error);
        }
        Ok(())
    }

    /// Removes the string at a place, which must be below [`len`](Strings::len). It allocates nothing.
    pub fn remove(&mut self, place: usize)
        requires { place < length self.old }
        ensures { self.new ≡ take place self.old ++ drop (place + 1) self.old }
    {
        remove(&mut self.bytes, &mut self.ends, place)
    }

    /// Removes the strings at `place` and at `later`. Both are places among the strings before the call: `later` must be after `place`
    /// and below [`len`](Strings::len). It allocates nothing.
    pub fn remove_both(&mut self, place: usize, later: usize)
        requires order { place < later }
        requires within { later < length self.old }
        ensures { self.new ≡ without_at place (without_at later self.old) }
    {
        self.remove(later);
        self.remove(place);
    }

    /// Replaces the string at a place, which must be below [`len`](Strings::len). The new one must be shorter than 2^32 bytes.
    ///
    /// An error means that an allocation failed, and leaves the strings unchanged.
    pub fn replace(&mut self, place: usize, string: &[u8]) -> Result<(), AllocError>
        requires within { place < length self.old }
        requires short { length string.now < 2 ^ 32 }
        ensures ok { OnOk result
            (self.new ≡ take place self.old ++ string.now ∷ drop (place + 1) self.old) }
        ensures err { OnErr result (self.new ≡ self.old) }
    {
        replace(&mut self.bytes, &mut self.ends, place, string)
    }
}

impl Clone for Strings {
    ghost use Rattle.std.specs.Prelude.{◌≡◌};

    ghost is_clone = { λ v w. w ≡ v };

    /// Copies the strings. An error means that an allocation failed.
    fn clone(&self) -> Result<Strings, AllocError> {
        Ok(Strings {
            bytes: self.bytes.clone()?,
            ends: self.ends.clone()?,
        })
    }
}

// Where the string at a place begins, or the last one ends.
fn begin_at(ends: &[usize], place: usize) -> usize
    requires { place ≤ length ends.now }
    ensures { result ≡ begin_of ends.now place }
{
    if place == 0 { 0 } else { ends[place - 1] }
}

// The string at a place.
fn string_at<'a>(bytes: &'a Vec<u8>, ends: &[usize], place: usize) -> &'a [u8]
    requires keeps { Keeps (strings_in bytes.now.items ends.now) bytes.now.items ends.now }
    requires within { place < length ends.now }
    ensures { HoldsAt (λ string. string ≡ result.now) (strings_in bytes.now.items ends.now) place }
{
    string_from(bytes, begin_at(ends, place))
}

// The string behind that at a place, which begins where that one ends.
fn string_behind<'a>(bytes: &'a Vec<u8>, ends: &[usize], place: usize) -> &'a [u8]
    requires keeps { Keeps (strings_in bytes.now.items ends.now) bytes.now.items ends.now }
    requires within { place + 1 < length ends.now }
    ensures { HoldsAt (λ string. string ≡ result.now) (strings_in bytes.now.items ends.now) (place + 1) }
{
    string_from(bytes, ends[place])
}

// The string that is read from a place on. A length of one byte is that byte.
fn string_from(bytes: &Vec<u8>, start: usize) -> &[u8]
    requires { ReadsSome (drop start bytes.now.items) }
    ensures { (rest : Bytes) × ReadsBytes (drop start bytes.now.items) result.now rest }
{
    let written = bytes.as_slice();
    let size = written[start] as usize;
    if size > 240 {
        return long_string(bytes, start);
    }
    &written[start + 1..start + 1 + size]
}

// The same where the length may have several bytes.
#[cold]
#[inline(never)]
fn long_string(bytes: &Vec<u8>, start: usize) -> &[u8]
    requires { ReadsSome (drop start bytes.now.items) }
    ensures { (rest : Bytes) × ReadsBytes (drop start bytes.now.items) result.now rest }
{
    let written = bytes.as_slice();
    match split_bytes(&written[start..]) {
        Some((string, _)) => string,
        None => unreachable!(),
    }
}

// What stands behind the string that an input begins with, if its length takes one byte.
fn behind_plain(input: &[u8]) -> Option<&[u8]>
    ensures { IfSome result (λ behind. IsPlain input.now behind.now) }
{
    match input {
        [len @ 0..=240, rest @ ..] if *len as usize <= rest.len() => Some(&rest[*len as usize..]),
        _ => None,
    }
}
