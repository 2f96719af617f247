//! Setting or removing the value of a key if it has the expected value.

ghost use Rattle.std.specs.Prelude.{◌≡◌, ◌≢◌, true, false, Some, None};
ghost use Rattle.std.specs.Option.{option_map};
ghost use Rattle.sled_tree.specs.Maps.{ChangesMap, SwapsKey};
ghost use Rattle.sled_tree.specs.Performs.{Performs};

use crate::merging::merge_few;
use crate::place::{delete, place_for, set};
use crate::room::room_for;
use crate::trees::Limits;
use sled_pagecache::{Error, IVec, Log, PageCache, PageId};
use std::alloc::Global;

/// Sets the value of a key if its value is `old`, where `None` means no value. Otherwise it returns the current value as the inner error.
pub fn set_where<L: Log>(
    alloc: Global,
    cache: &mut PageCache<L>,
    root: PageId,
    key: &[u8],
    old: Option<&[u8]>,
    value: IVec,
    limits: Limits,
) -> Result<Result<(), Option<IVec>>, Error>
    ensures { Performs L.Log (ChangesMap root (SwapsKey root key.now
        (option_map (λ old. old.now) old.entry) (Some value) result)) cache.old cache.new }
{
    let place = room_for(alloc, cache, root, key, limits)?;
    if !is_value(&place.value, old) {
        return Ok(Err(place.value));
    }
    set(cache, place, value)?;
    Ok(Ok(()))
}

/// Removes a key if its value is `old`, where `None` means no value. Otherwise it returns the current value as the inner error.
pub fn take_where<L: Log>(
    cache: &mut PageCache<L>,
    root: PageId,
    key: &[u8],
    old: Option<&[u8]>,
    limits: Limits,
) -> Result<Result<(), Option<IVec>>, Error>
    ensures { Performs L.Log (ChangesMap root (SwapsKey root key.now
        (option_map (λ old. old.now) old.entry) None result)) cache.old cache.new }
{
    let place = place_for(cache, root, key)?;
    if !is_value(&place.value, old) {
        return Ok(Err(place.value));
    }
    if place.value.is_none() {
        return Ok(Ok(()));
    }
    let leaf = place.token.pid();
    delete(cache, place)?;
    merge_few(cache, root, leaf, key, limits);
    Ok(Ok(()))
}

// Whether the value is that one, or both are none.
fn is_value(value: &Option<IVec>, wanted: Option<&[u8]>) -> bool
    ensures same { result ≡ true → value.now ≡ option_map (λ wanted. wanted.now) wanted.entry }
    ensures other { result ≡ false → value.now ≢ option_map (λ wanted. wanted.now) wanted.entry }
{
    match (value, wanted) {
        (Some(value), Some(wanted)) => value.as_slice() == wanted,
        (None, None) => true,
        _ => false,
    }
}
