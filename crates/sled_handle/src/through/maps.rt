//! Ordered maps by names. A name without a map reads as an empty map, and gets a map when a value is set.

ghost use Rattle.std.specs.Prelude.{◌≡◌, ⊤};
ghost use Rattle.std.specs.Option.{option_map};
ghost use Rattle.sled_handle.specs.Handles.{ThroughStore};
ghost use Rattle.sled_handle.specs.MapCalls.{DropsOfName, FindsName, GetsOfMap, ReadsNext, ReadsPiece, SetsOfMap, SwapsOfMap, TakesOfMap, TellsCount, TellsPiece};

use crate::calls::maps as calls;
use crate::calls::maps::{Bounds, FoundPiece};
use crate::file::{has_failed, told};
use crate::status::{CLOSED, WRITE};
use crate::store::Store;
use sled_disk::CallersFile;
use std::alloc::Global;

/// Writes the value of a key, and its length. Returns `NONE` if the key has no value, and `SHORT` if the buffer is too short: then only the length is
/// written.
pub fn get<F: CallersFile>(
    alloc: Global,
    store: &mut Store<F>,
    name: &[u8],
    key: &[u8],
    buffer: &mut [u8],
    needed: &mut usize,
) -> u32
    ensures { ThroughStore store.old store.new result ((needed.new ≡ needed.old) × (buffer.new ≡ buffer.old))
        (λ _ g old new status. GetsOfMap g old new name.now key.now status (
          needed.old,
          buffer.old,
        ) (needed.new, buffer.new)) }
{
    through!(store, cache => calls::get(alloc, cache, name, key, buffer, needed))
}

/// Sets the value of a key, and writes whether it had one before. A name without a map gets one. Returns `KEY_TOO_LONG` or `VALUE_TOO_LONG` before a
/// map is made.
pub fn set<F: CallersFile>(
    alloc: Global,
    store: &mut Store<F>,
    name: &[u8],
    key: &[u8],
    value: &[u8],
    had: &mut bool,
) -> u32
    ensures { ThroughStore store.old store.new result (had.new ≡ had.old)
        (λ _ g old new status. SetsOfMap g old new name.now key.now value.now status had.old had.new) }
{
    through!(store, cache => calls::set(alloc, cache, name, key, value, had))
}

/// Removes a key, and writes whether it had a value.
pub fn del<F: CallersFile>(store: &mut Store<F>, name: &[u8], key: &[u8], had: &mut bool) -> u32
    ensures { ThroughStore store.old store.new result (had.new ≡ had.old)
        (λ _ g old new status. TakesOfMap g old new name.now key.now status had.old had.new) }
{
    through!(store, cache => calls::del(cache, name, key, had))
}

/// Sets the value of a key to `new`, or removes the key if that is `None`, provided that its value is `old`, or that it has none if that is `None`.
/// Otherwise returns `STALE`, and nothing changes.
pub fn cas<F: CallersFile>(
    alloc: Global,
    store: &mut Store<F>,
    name: &[u8],
    key: &[u8],
    old: Option<&[u8]>,
    new: Option<&[u8]>,
) -> u32
    ensures { ThroughStore store.old store.new result ⊤
        (λ _ g before after status. SwapsOfMap g before after name.now key.now
        (option_map (λ old. old.now) old.entry) (option_map (λ new. new.now) new.entry) status) }
{
    through!(store, cache => calls::cas(alloc, cache, name, key, old, new))
}

/// Writes the nearest pair on a side of a key, or at an end of the map, and its length. Returns `NONE` if there is no such pair, `SHORT` if the
/// buffer is too short, where only the length is written, and `ARGUMENTS` if `side` names no side.
pub fn next<F: CallersFile>(
    alloc: Global,
    store: &mut Store<F>,
    name: &[u8],
    side: u32,
    bound: &[u8],
    buffer: &mut [u8],
    needed: &mut usize,
) -> u32
    ensures { ThroughStore store.old store.new result ((needed.new ≡ needed.old) × (buffer.new ≡ buffer.old))
        (λ _ g old new status. ReadsNext g old new name.now side bound.now status (
          needed.old,
          buffer.old,
        ) (needed.new, buffer.new)) }
{
    through!(store, cache => calls::next(alloc, cache, name, side, bound, buffer, needed))
}

/// Writes the first pairs between the bounds, those of one leaf, followed by the key at which the others begin, if there are any. It also writes the
/// number of pairs, both lengths, and whether there are others. Returns `SHORT` if the buffer is too short, where only these values are written, and
/// `ARGUMENTS` if a kind names no kind of bound.
pub fn range<F: CallersFile>(
    alloc: Global,
    store: &mut Store<F>,
    name: &[u8],
    bounds: Bounds<'_>,
    buffer: &mut [u8],
    piece: &mut FoundPiece,
) -> u32
    ensures { ThroughStore store.old store.new result ((piece.new ≡ piece.old) × (buffer.new ≡ buffer.old))
        (λ _ g old new status. ReadsPiece g old new name.now bounds.entry.from_kind bounds.entry.from.now bounds.entry.to_kind
        bounds.entry.to.now TellsPiece status (piece.old, buffer.old) (piece.new, buffer.new)) }
{
    through!(store, cache => calls::range(alloc, cache, name, bounds, buffer, piece))
}

/// Does the same without the pairs: only the key at which the others begin is written to the buffer.
pub fn count<F: CallersFile>(
    alloc: Global,
    store: &mut Store<F>,
    name: &[u8],
    bounds: Bounds<'_>,
    buffer: &mut [u8],
    piece: &mut FoundPiece,
) -> u32
    ensures { ThroughStore store.old store.new result ((piece.new ≡ piece.old) × (buffer.new ≡ buffer.old))
        (λ _ g old new status. ReadsPiece g old new name.now bounds.entry.from_kind bounds.entry.from.now bounds.entry.to_kind
        bounds.entry.to.now TellsCount status (piece.old, buffer.old) (piece.new, buffer.new)) }
{
    through!(store, cache => calls::count(alloc, cache, name, bounds, buffer, piece))
}

/// Drops the map of a name with all its pairs, and writes whether there was one.
pub fn drop_map<F: CallersFile>(
    alloc: Global,
    store: &mut Store<F>,
    name: &[u8],
    had: &mut bool,
) -> u32
    ensures { ThroughStore store.old store.new result (had.new ≡ had.old)
        (λ _ g old new status. DropsOfName g old new name.now status had.old had.new) }
{
    through!(store, cache => calls::drop_map(alloc, cache, name, had))
}

/// Writes the first name after `after`, in the order of their bytes, or the first of all if that is `None`, and its length. Returns `NONE` if there
/// is no such name, and `SHORT` if the buffer is too short: then only the length is written.
pub fn next_name<F: CallersFile>(
    alloc: Global,
    store: &mut Store<F>,
    after: Option<&[u8]>,
    buffer: &mut [u8],
    needed: &mut usize,
) -> u32
    ensures { ThroughStore store.old store.new result ((needed.new ≡ needed.old) × (buffer.new ≡ buffer.old))
        (λ _ g old new status. FindsName g old new (option_map (λ after. after.now) after.entry)
        status (needed.old, buffer.old) (needed.new, buffer.new)) }
{
    through!(store, cache => calls::next_name(alloc, cache, after, buffer, needed))
}
