//! The pairs of a map in the order of their keys.

ghost use Rattle.std.specs.Prelude.{◌≡◌, ◌⊎◌, None, Some, IfErr, IfOk};
ghost use Rattle.sled_handle.specs.MapCalls.{ReadsNamed, ReadsNext, ReadsPiece, TellsCount, TellsPair, TellsPiece, found_piece, named_bound, named_side, nearest, rest_in};
ghost use Rattle.sled_handle.specs.Numbers as number;

use crate::pairs::{size_of_all, size_of_pair, write_all, write_pair};
use crate::status::{ARGUMENTS, CORRUPTION, MEMORY, NONE, OK, SHORT, status_of_tree};
use sled_pagecache::{IVec, Log, PageCache};
use sled_tree::{Piece, TreeError, named};
use std::alloc::Global;
use std::ops::Bound;

// The kinds of a bound.
const INCLUDED: u32 = 0;

const EXCLUDED: u32 = 1;

const UNBOUNDED: u32 = 2;

// The sides of a key on which a pair is looked for: behind it, from it on, before it, up to it; and the ends of a map.
const ABOVE: u32 = 0;

const FROM: u32 = 1;

const BELOW: u32 = 2;

const UP_TO: u32 = 3;

const FIRST: u32 = 4;

const LAST: u32 = 5;

/// The bounds of a piece of a map: the kind of each as a number, and its key, which is ignored if the kind is unbounded.
#[derive(Clone, Copy)]
pub struct Bounds<'a> {
    pub from_kind: u32,
    pub from: &'a [u8],
    pub to_kind: u32,
    pub to: &'a [u8],
}

/// What is reported of a piece of a map besides its pairs.
#[repr(C)]
#[derive(Clone, Copy)]
pub struct FoundPiece {
    /// How many pairs there are.
    pub count: usize,
    /// How many bytes they take; `count` reports 0.
    pub pairs_len: usize,
    /// The length of the key at which the other pairs begin, or 0 if there are none.
    pub rest_len: usize,
    /// Whether there are other pairs: the key at which they begin may have no bytes.
    pub more: bool,
}

/// The side of a bound on which a pair is looked for.
#[derive(Drop)]
pub enum Side {
    Above(Bound<IVec>),
    Below(Bound<IVec>),
}

pub fn next<L: Log>(
    alloc: Global,
    cache: &mut PageCache<L>,
    name: &[u8],
    side: u32,
    bound: &[u8],
    buffer: &mut [u8],
    needed: &mut usize,
) -> u32
    ensures { ReadsNext L.Log cache.old cache.new name.now side bound.now result (needed.old, buffer.old)
        (needed.new, buffer.new) }
{
    let side = match side_of(alloc, side, bound) {
        Ok(side) => side,
        Err(status) => return status,
    };
    match next_on(cache, name, &side) {
        Ok(Some(pair)) => put_pair(&pair, buffer, needed),
        Ok(None) => NONE,
        Err(error) => status_of_tree(&error),
    }
}

// The side of a number, or the status that tells why there is none.
fn side_of(alloc: Global, side: u32, bound: &[u8]) -> Result<Side, u32>
    ensures side { IfOk result (λ s. named_side side bound.now ≡ Some s) }
    ensures none { IfErr result (λ status. (status ≡ number.memory)
        ⊎ ((status ≡ number.arguments) × (named_side side bound.now ≡ None))) }
{
    match side {
        ABOVE => Ok(Side::Above(Bound::Excluded(copied(alloc, bound)?))),
        FROM => Ok(Side::Above(Bound::Included(copied(alloc, bound)?))),
        BELOW => Ok(Side::Below(Bound::Excluded(copied(alloc, bound)?))),
        UP_TO => Ok(Side::Below(Bound::Included(copied(alloc, bound)?))),
        FIRST => Ok(Side::Above(Bound::Unbounded)),
        LAST => Ok(Side::Below(Bound::Unbounded)),
        _ => Err(ARGUMENTS),
    }
}

fn copied(alloc: Global, key: &[u8]) -> Result<IVec, u32>
    ensures copy { IfOk result (λ copy. copy ≡ key.now) }
    ensures memory { IfErr result (λ status. status ≡ number.memory) }
{
    IVec::from_slice(alloc, key).map_err(|_| MEMORY)
}

fn next_on<L: Log>(
    cache: &mut PageCache<L>,
    name: &[u8],
    side: &Side,
) -> Result<Option<(IVec, IVec)>, TreeError>
    ensures { ReadsNamed L.Log cache.old cache.new name.now (λ m pair. pair ≡ nearest side.now m) result }
{
    match side {
        Side::Above(bound) => named::next_above(cache, name, bound),
        Side::Below(bound) => named::next_below(cache, name, bound),
    }
}

// Writes the pair, if there is room for it, and how many bytes it takes.
fn put_pair(pair: &(IVec, IVec), buffer: &mut [u8], needed: &mut usize) -> u32
    ensures { TellsPair pair.now result (needed.old, buffer.old) (needed.new, buffer.new) }
{
    let Some(size) = size_of_pair(pair) else {
        return CORRUPTION;
    };
    *needed = size;
    if buffer.len() < size {
        return SHORT;
    }
    write_pair(pair, buffer);
    OK
}

pub fn range<L: Log>(
    alloc: Global,
    cache: &mut PageCache<L>,
    name: &[u8],
    bounds: Bounds<'_>,
    buffer: &mut [u8],
    piece: &mut FoundPiece,
) -> u32
    ensures { ReadsPiece L.Log cache.old cache.new name.now bounds.entry.from_kind bounds.entry.from.now bounds.entry.to_kind
        bounds.entry.to.now TellsPiece result (piece.old, buffer.old) (piece.new, buffer.new) }
{
    let (from, to) = match bounds_of(alloc, bounds) {
        Ok(both) => both,
        Err(status) => return status,
    };
    match named::range(alloc, cache, name, &from, &to) {
        Ok(found) => put_piece(&found, buffer, piece),
        Err(error) => status_of_tree(&error),
    }
}

pub fn count<L: Log>(
    alloc: Global,
    cache: &mut PageCache<L>,
    name: &[u8],
    bounds: Bounds<'_>,
    buffer: &mut [u8],
    piece: &mut FoundPiece,
) -> u32
    ensures { ReadsPiece L.Log cache.old cache.new name.now bounds.entry.from_kind bounds.entry.from.now bounds.entry.to_kind
        bounds.entry.to.now TellsCount result (piece.old, buffer.old) (piece.new, buffer.new) }
{
    let (from, to) = match bounds_of(alloc, bounds) {
        Ok(both) => both,
        Err(status) => return status,
    };
    match named::range(alloc, cache, name, &from, &to) {
        Ok(found) => put_count(&found, buffer, piece),
        Err(error) => status_of_tree(&error),
    }
}

// Both bounds, or the status that tells why there are none.
fn bounds_of(alloc: Global, bounds: Bounds<'_>) -> Result<(Bound<IVec>, Bound<IVec>), u32>
    ensures both { IfOk result (λ both. (named_bound bounds.entry.from_kind bounds.entry.from.now ≡ Some both.0)
        × (named_bound bounds.entry.to_kind bounds.entry.to.now ≡ Some both.1)) }
    ensures none { IfErr result (λ status. (status ≡ number.memory)
        ⊎ ((status ≡ number.arguments) × ((named_bound bounds.entry.from_kind bounds.entry.from.now ≡ None)
        ⊎ (named_bound bounds.entry.to_kind bounds.entry.to.now ≡ None)))) }
{
    let from = bound_of(alloc, bounds.from_kind, bounds.from)?;
    let to = bound_of(alloc, bounds.to_kind, bounds.to)?;
    Ok((from, to))
}

// The bound of a number and a key, or the status that tells why there is none.
fn bound_of(alloc: Global, kind: u32, key: &[u8]) -> Result<Bound<IVec>, u32>
    ensures bound { IfOk result (λ bound. named_bound kind key.now ≡ Some bound) }
    ensures none { IfErr result (λ status. (status ≡ number.memory)
        ⊎ ((status ≡ number.arguments) × (named_bound kind key.now ≡ None))) }
{
    match kind {
        INCLUDED => Ok(Bound::Included(copied(alloc, key)?)),
        EXCLUDED => Ok(Bound::Excluded(copied(alloc, key)?)),
        UNBOUNDED => Ok(Bound::Unbounded),
        _ => Err(ARGUMENTS),
    }
}

// Writes the pairs, and behind them the key from which on the others are.
fn put_piece(found: &Piece, buffer: &mut [u8], piece: &mut FoundPiece) -> u32
    ensures { TellsPiece found.now result (piece.old, buffer.old) (piece.new, buffer.new) }
{
    let Some(pairs_len) = size_of_all(&found.pairs) else {
        return CORRUPTION;
    };
    *piece = told(found, pairs_len);
    let rest = rest_of(found);
    if buffer.len() < pairs_len || buffer.len() - pairs_len < rest.len() {
        return SHORT;
    }
    write_all(&found.pairs, rest, buffer);
    OK
}

// Writes that key alone.
fn put_count(found: &Piece, buffer: &mut [u8], piece: &mut FoundPiece) -> u32
    ensures { TellsCount found.now result (piece.old, buffer.old) (piece.new, buffer.new) }
{
    *piece = told(found, 0);
    let rest = rest_of(found);
    if buffer.len() < rest.len() {
        return SHORT;
    }
    buffer[..rest.len()].copy_from_slice(rest);
    OK
}

fn told(found: &Piece, pairs_len: usize) -> FoundPiece
    ensures { result ≡ found_piece pairs_len found.now }
{
    FoundPiece {
        count: found.pairs.len(),
        pairs_len,
        rest_len: rest_of(found).len(),
        more: found.rest.is_some(),
    }
}

// The key from which on the others are, or no bytes where there are none.
fn rest_of(found: &Piece) -> &[u8]
    ensures { result.now ≡ rest_in found.now }
{
    match &found.rest {
        Some(key) => key.as_slice(),
        None => &[],
    }
}
