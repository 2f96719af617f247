//! Reading and changing the value of a key.

ghost use Rattle.std.specs.Prelude.{◌≡◌, ◌⊎◌, [], IfErr, IsErrOf, unwrap_or};
ghost use Rattle.std.specs.Option.{option_map};
ghost use Rattle.sled_search.specs.Map.{at_key};
ghost use Rattle.sled_tree.specs.Errors.{IsOfCache, IsOfKey, IsOfPair, IsTooLong};
ghost use Rattle.sled_tree.specs.Maps.{ChangesMap, ReadsMap, SetsKey, SwapsKey, TakesKey, root_of};
ghost use Rattle.sled_tree.specs.Performs.{Performs};
ghost use Rattle.sled_tree.specs.declared.error.TreeError.TheVariants.{KeyTooLong, ValueTooLong};

use crate::error::TreeError;
use crate::merging::merge_few;
use crate::place::{delete, place_for, set};
use crate::room::room_for;
use crate::swap::{set_where, take_where};
use crate::trees::{Limits, Tree};
use crate::walk::value_for;
use sled_pagecache::sled_node::node::MAX_BYTES;
use sled_pagecache::{IVec, Log, PageCache};
use std::alloc::Global;

/// Returns the value of a key, if it has one.
pub fn get<L: Log>(
    alloc: Global,
    cache: &mut PageCache<L>,
    tree: Tree,
    key: &[u8],
) -> Result<Option<IVec>, TreeError>
    ensures value { ReadsMap L.Log tree (λ m value. value ≡ at_key m key.now) result cache.old cache.new }
    ensures errors { IfErr result IsOfCache }
{
    Ok(value_for(alloc, cache, tree.root, key)?)
}

/// Sets the value of a key, and returns the value before. A key or value that is too long is refused before anything is read.
pub fn insert<L: Log>(
    alloc: Global,
    cache: &mut PageCache<L>,
    limits: Limits,
    tree: Tree,
    key: &[u8],
    value: IVec,
) -> Result<Option<IVec>, TreeError>
    ensures maps { Performs L.Log
        (ChangesMap (root_of tree) (SetsKey (root_of tree) key.now value result)) cache.old
        cache.new }
    ensures key { IsTooLong key.now → IsErrOf result KeyTooLong × (cache.new ≡ cache.old) }
    ensures value { IsTooLong value → (IsErrOf result KeyTooLong ⊎ IsErrOf result ValueTooLong)
        × (cache.new ≡ cache.old) }
    ensures errors { IfErr result (IsOfPair key.now value) }
{
    if key.len() > MAX_BYTES {
        return Err(TreeError::KeyTooLong);
    }
    if value.len() > MAX_BYTES {
        return Err(TreeError::ValueTooLong);
    }
    let place = room_for(alloc, cache, tree.root, key, limits)?;
    Ok(set(cache, place, value)?)
}

/// Removes a key, and returns the value that it had. A leaf that has few pairs left is merged with a neighbour.
pub fn remove<L: Log>(
    cache: &mut PageCache<L>,
    limits: Limits,
    tree: Tree,
    key: &[u8],
) -> Result<Option<IVec>, TreeError>
    ensures maps { Performs L.Log
        (ChangesMap (root_of tree) (TakesKey (root_of tree) key.now result)) cache.old cache.new }
    ensures key { IsTooLong key.now → IsErrOf result KeyTooLong × (cache.new ≡ cache.old) }
    ensures errors { IfErr result (IsOfKey key.now) }
{
    if key.len() > MAX_BYTES {
        return Err(TreeError::KeyTooLong);
    }
    let place = place_for(cache, tree.root, key)?;
    if place.value.is_none() {
        return Ok(None);
    }
    let leaf = place.token.pid();
    let before = delete(cache, place)?;
    merge_few(cache, tree.root, leaf, key, limits);
    Ok(before)
}

/// Changes the value of a key to `new` if it is `old`, where `None` means no value. Otherwise it returns the current value as the inner error.
pub fn compare_and_swap<L: Log>(
    alloc: Global,
    cache: &mut PageCache<L>,
    limits: Limits,
    tree: Tree,
    key: &[u8],
    old: Option<&[u8]>,
    new: Option<IVec>,
) -> Result<Result<(), Option<IVec>>, TreeError>
    ensures maps { Performs L.Log (ChangesMap (root_of tree) (SwapsKey (root_of tree) key.now
        (option_map (λ old. old.now) old.entry) new result)) cache.old cache.new }
    ensures key { IsTooLong key.now → IsErrOf result KeyTooLong × (cache.new ≡ cache.old) }
    ensures value { IsTooLong (unwrap_or new []) → (IsErrOf result KeyTooLong
        ⊎ IsErrOf result ValueTooLong) × (cache.new ≡ cache.old) }
    ensures errors { IfErr result (IsOfPair key.now (unwrap_or new [])) }
{
    if key.len() > MAX_BYTES {
        return Err(TreeError::KeyTooLong);
    }
    let Some(value) = new else {
        return Ok(take_where(cache, tree.root, key, old, limits)?);
    };
    if value.len() > MAX_BYTES {
        return Err(TreeError::ValueTooLong);
    }
    Ok(set_where(alloc, cache, tree.root, key, old, value, limits)?)
}
