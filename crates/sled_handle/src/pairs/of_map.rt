//! Writing pairs that were read from a map.

ghost use Rattle.std.specs.Prelude.{◌≡◌, ◌+◌, ◌≤◌, ◌++◌, length};
ghost use Rattle.std.specs.List.{AllByRecursion, flat_map};
ghost use Rattle.std.specs.Option.{SomeIff};
ghost use Rattle.sled_handle.specs.Pairs.{AreWritable, IsPut, IsShort, pair_bytes};

use super::write::{HEAD, put, put_pair};
use sled_pagecache::IVec;

// What fits into four bytes.
const MOST_SHORT: usize = u32::MAX as usize;

/// Returns how many bytes a pair takes, or `None` if the length of its key or of its value doesn't fit into four bytes. Every length in a map does.
pub fn size_of_pair(pair: &(IVec, IVec)) -> Option<usize>
    ensures { SomeIff result (IsShort pair.now) (length (pair_bytes pair.now)) }
{
    let (key_len, value_len) = (pair.0.len(), pair.1.len());
    if key_len > MOST_SHORT {
        return None;
    }
    if value_len > MOST_SHORT {
        return None;
    }
    Some(HEAD + key_len + value_len)
}

/// Returns how many bytes the pairs take together, or `None` if they can't be written: a length doesn't fit into four bytes, or the sum overflows.
pub fn size_of_all(pairs: &[(IVec, IVec)]) -> Option<usize>
    ensures { SomeIff result (AreWritable pairs.now) (length (flat_map pair_bytes pairs.now)) }
{
    let mut size: usize = 0;
    for pair in pairs {
        size = size.checked_add(size_of_pair(pair)?)?;
    }
    Some(size)
}

/// Writes a pair to the front of `out`, which must have room for it.
pub fn write_pair(pair: &(IVec, IVec), out: &mut [u8])
    requires short { IsShort pair.now }
    requires room { length (pair_bytes pair.now) ≤ length out.old }
    ensures { IsPut out.old 0 (pair_bytes pair.now) out.new }
{
    put_at(pair, out, 0);
}

/// Writes the pairs to the front of `out`, and the bytes of `behind` after them. `out` must have room for both.
pub fn write_all(pairs: &[(IVec, IVec)], behind: &[u8], out: &mut [u8])
    requires short { AllByRecursion IsShort pairs.now }
    requires room { length (flat_map pair_bytes pairs.now) + length behind.now ≤ length out.old }
    ensures { IsPut out.old 0 (flat_map pair_bytes pairs.now ++ behind.now) out.new }
{
    let end = write_pairs(pairs, out);
    put(behind, out, end);
}

// Writes pairs to the front, and answers where they end.
fn write_pairs(pairs: &[(IVec, IVec)], out: &mut [u8]) -> usize
    requires short { AllByRecursion IsShort pairs.now }
    requires room { length (flat_map pair_bytes pairs.now) ≤ length out.old }
    ensures end { result ≡ length (flat_map pair_bytes pairs.now) }
    ensures bytes { IsPut out.old 0 (flat_map pair_bytes pairs.now) out.new }
{
    let mut end = 0;
    for pair in pairs {
        end = put_at(pair, out, end);
    }
    end
}

// Writes a pair from a place on, and answers where it ends.
fn put_at(pair: &(IVec, IVec), out: &mut [u8], start: usize) -> usize
    requires short { IsShort pair.now }
    requires room { start + length (pair_bytes pair.now) ≤ length out.old }
    ensures end { result ≡ start + length (pair_bytes pair.now) }
    ensures bytes { IsPut out.old start (pair_bytes pair.now) out.new }
{
    put_pair(&[], pair.0.as_slice(), pair.1.as_slice(), out, start)
}
