//! Ordered maps by names.

ghost use Rattle.std.specs.Prelude.{◌≡◌, ⊤};
ghost use Rattle.std.specs.Option.{option_map};
ghost use Rattle.sled_handle.specs.Handles.{Through};
ghost use Rattle.sled_handle.specs.MapCalls.{DropsOfName, FindsName, GetsOfMap, ReadsNext, ReadsPiece, SetsOfMap, SwapsOfMap, TakesOfMap, TellsCount, TellsPiece, value_if};

use sled_handle::status::CLOSED;
use sled_handle::through::maps as through;
use sled_handle::{Bounds, FoundPiece, Handle};
use std::alloc::Global;

/// Writes the value of a key, and its length.
#[unsafe(no_mangle)]
pub extern "C" fn dilluvas_raw_map_get(
    alloc: Global,
    handle: &mut Handle,
    name: &[u8],
    key: &[u8],
    buffer: &mut [u8],
    needed: &mut usize,
) -> u32
    ensures { Through handle.old.store handle.new.store result ((needed.new ≡ needed.old) × (buffer.new ≡ buffer.old))
        (λ _ g old new status. GetsOfMap g old new name.now key.now status (
          needed.old,
          buffer.old,
        ) (needed.new, buffer.new)) }
{
    behind!(alloc, handle, store => through::get(alloc, store, name, key, buffer, needed))
}

/// Sets the value of a key, and writes whether it had one before.
#[unsafe(no_mangle)]
pub extern "C" fn dilluvas_raw_map_set(
    alloc: Global,
    handle: &mut Handle,
    name: &[u8],
    key: &[u8],
    value: &[u8],
    had: &mut bool,
) -> u32
    ensures { Through handle.old.store handle.new.store result (had.new ≡ had.old)
        (λ _ g old new status. SetsOfMap g old new name.now key.now value.now status had.old had.new) }
{
    behind!(alloc, handle, store => through::set(alloc, store, name, key, value, had))
}

/// Removes a key, and writes whether it had a value.
#[unsafe(no_mangle)]
pub extern "C" fn dilluvas_raw_map_del(
    alloc: Global,
    handle: &mut Handle,
    name: &[u8],
    key: &[u8],
    had: &mut bool,
) -> u32
    ensures { Through handle.old.store handle.new.store result (had.new ≡ had.old)
        (λ _ g old new status. TakesOfMap g old new name.now key.now status had.old had.new) }
{
    behind!(alloc, handle, store => through::del(store, name, key, had))
}

/// Sets the value of a key to `new`, or removes the key if `has_new` is false, provided that its value is `old`, or that it has none if `has_old` is
/// false.
#[unsafe(no_mangle)]
pub extern "C" fn dilluvas_raw_map_cas(
    alloc: Global,
    handle: &mut Handle,
    name: &[u8],
    key: &[u8],
    has_old: bool,
    old: &[u8],
    has_new: bool,
    new: &[u8],
) -> u32
    ensures { Through handle.old.store handle.new.store result ⊤
        (λ _ g before after status. SwapsOfMap g before after name.now key.now (value_if has_old old.now)
        (value_if has_new new.now) status) }
{
    let (old, new) = (given(has_old, old), given(has_new, new));
    behind!(alloc, handle, store => through::cas(alloc, store, name, key, old, new))
}

/// Writes the nearest pair on a side of a key, or at an end of the map, and its length.
#[unsafe(no_mangle)]
pub extern "C" fn dilluvas_raw_map_next(
    alloc: Global,
    handle: &mut Handle,
    name: &[u8],
    side: u32,
    bound: &[u8],
    buffer: &mut [u8],
    needed: &mut usize,
) -> u32
    ensures { Through handle.old.store handle.new.store result ((needed.new ≡ needed.old) × (buffer.new ≡ buffer.old))
        (λ _ g old new status. ReadsNext g old new name.now side bound.now status (
          needed.old,
          buffer.old,
        ) (needed.new, buffer.new)) }
{
    behind!(alloc, handle, store => through::next(alloc, store, name, side, bound, buffer, needed))
}

/// Writes the first pairs between the bounds, those of one leaf, followed by the key at which the others begin.
#[unsafe(no_mangle)]
pub extern "C" fn dilluvas_raw_map_range(
    alloc: Global,
    handle: &mut Handle,
    name: &[u8],
    from_kind: u32,
    from: &[u8],
    to_kind: u32,
    to: &[u8],
    buffer: &mut [u8],
    piece: &mut FoundPiece,
) -> u32
    ensures { Through handle.old.store handle.new.store result ((piece.new ≡ piece.old) × (buffer.new ≡ buffer.old))
        (λ _ g old new status. ReadsPiece g old new name.now from_kind from.now to_kind to.now TellsPiece
        status (piece.old, buffer.old) (piece.new, buffer.new)) }
{
    let bounds = Bounds {
        from_kind,
        from,
        to_kind,
        to,
    };
    behind!(alloc, handle, store => through::range(alloc, store, name, bounds, buffer, piece))
}

/// Does the same without the pairs.
#[unsafe(no_mangle)]
pub extern "C" fn dilluvas_raw_map_count(
    alloc: Global,
    handle: &mut Handle,
    name: &[u8],
    from_kind: u32,
    from: &[u8],
    to_kind: u32,
    to: &[u8],
    buffer: &mut [u8],
    piece: &mut FoundPiece,
) -> u32
    ensures { Through handle.old.store handle.new.store result ((piece.new ≡ piece.old) × (buffer.new ≡ buffer.old))
        (λ _ g old new status. ReadsPiece g old new name.now from_kind from.now to_kind to.now TellsCount
        status (piece.old, buffer.old) (piece.new, buffer.new)) }
{
    let bounds = Bounds {
        from_kind,
        from,
        to_kind,
        to,
    };
    behind!(alloc, handle, store => through::count(alloc, store, name, bounds, buffer, piece))
}

/// Drops the map of a name with all its pairs, and writes whether there was one.
#[unsafe(no_mangle)]
pub extern "C" fn dilluvas_raw_map_drop(
    alloc: Global,
    handle: &mut Handle,
    name: &[u8],
    had: &mut bool,
) -> u32
    ensures { Through handle.old.store handle.new.store result (had.new ≡ had.old)
        (λ _ g old new status. DropsOfName g old new name.now status had.old had.new) }
{
    behind!(alloc, handle, store => through::drop_map(alloc, store, name, had))
}

/// Writes the first name of a map after another one, or the first of all.
#[unsafe(no_mangle)]
pub extern "C" fn dilluvas_raw_map_name(
    alloc: Global,
    handle: &mut Handle,
    has_after: bool,
    after: &[u8],
    buffer: &mut [u8],
    needed: &mut usize,
) -> u32
    ensures { Through handle.old.store handle.new.store result ((needed.new ≡ needed.old) × (buffer.new ≡ buffer.old))
        (λ _ g old new status. FindsName g old new (value_if has_after after.now)
        status (needed.old, buffer.old) (needed.new, buffer.new)) }
{
    let after = given(has_after, after);
    behind!(alloc, handle, store => through::next_name(alloc, store, after, buffer, needed))
}

// The bytes, where the program says that there are any.
fn given(is_there: bool, bytes: &[u8]) -> Option<&[u8]>
    ensures { option_map (λ bytes. bytes.now) result ≡ value_if is_there bytes.now }
{
    if is_there { Some(bytes) } else { None }
}
