//! Calls on the maps of a cache by their names. A name that has no map counts as an empty map; a call that sets a value makes a map for it.

ghost use Rattle.std.specs.Prelude.{◌≡◌, [], IfErr, OnOk, unwrap_or, length};
ghost use Rattle.std.specs.Option.{option_map};
ghost use Rattle.sled_search.specs.Map.{at_key};
ghost use Rattle.sled_tree.specs.ByName.{IsOfMap, SetsIn, SwapsIn, SwapsNone, TakesFrom, first_name, follows};
ghost use Rattle.sled_tree.specs.Changed.{Reads};
ghost use Rattle.sled_tree.specs.Dropping.{names_of};
ghost use Rattle.sled_tree.specs.Errors.{IsOfCache, IsOfKey, IsOfPair, IsTooLong};
ghost use Rattle.sled_tree.specs.Maps.{root_of};
ghost use Rattle.sled_tree.specs.Named.{AreNamed, Named};
ghost use Rattle.sled_tree.specs.Names.{OpensMap};
ghost use Rattle.sled_tree.specs.Ordered.{behind, before, first_of, last_of, IsPieceOf};
ghost use Rattle.sled_tree.specs.Performs.{Performs};
ghost use Rattle.sled_tree.specs.declared.error.TreeError.TheVariants.{KeyTooLong, ValueTooLong};

pub use crate::maps::names::drop_tree;
use crate::maps::{names, ordered, values};
use crate::neighbours::Side;
use crate::{Error, IVec, Limits, Log, PageCache, Piece, Tree, TreeError, Why};
use sled_pagecache::sled_node::node::MAX_BYTES;
use std::alloc::Global;
use std::ops::Bound;

/// Checks the length of a key, and returns `KeyTooLong` if it is too long for any map.
pub fn check_key(key: &[u8]) -> Result<(), TreeError>
    ensures long { IfErr result (λ e. (e ≡ KeyTooLong) × IsTooLong key.now) }
    ensures short { OnOk result (IsTooLong key.now → ⊥) }
{
    if key.len() > MAX_BYTES {
        return Err(TreeError::KeyTooLong);
    }
    Ok(())
}

/// Checks the length of a value, and returns `ValueTooLong` if it is too long for any map.
pub fn check_value(value: &[u8]) -> Result<(), TreeError>
    ensures long { IfErr result (λ e. (e ≡ ValueTooLong) × IsTooLong value.now) }
    ensures short { OnOk result (IsTooLong value.now → ⊥) }
{
    if value.len() > MAX_BYTES {
        return Err(TreeError::ValueTooLong);
    }
    Ok(())
}

// The map of a name, which is made where there is none. A search in memory is all where there is one.
fn tree_for<L: Log>(alloc: Global, cache: &mut PageCache<L>, name: &[u8]) -> Result<Tree, TreeError>
    ensures maps { Performs L.Log (OpensMap root_of name.now result) cache.old cache.new }
    ensures errors { IfErr result IsOfCache }
{
    match names::get_tree(cache, name)? {
        Some(tree) => Ok(tree),
        None => tree_of_new(alloc, cache, name),
    }
}

// A map that is made for a name. One that is too long is refused before anything is allocated for it.
fn tree_of_new<L: Log>(
    alloc: Global,
    cache: &mut PageCache<L>,
    name: &[u8],
) -> Result<Tree, TreeError>
    ensures maps { Performs L.Log (OpensMap root_of name.now result) cache.old cache.new }
    ensures errors { IfErr result IsOfCache }
{
    if name.len() > MAX_BYTES {
        return Err(TreeError::Cache(Error::Unsupported(Why::NameTooLong)));
    }
    names::open(alloc, cache, name)
}

/// Returns the value of a key, if it has one.
pub fn get<L: Log>(
    alloc: Global,
    cache: &mut PageCache<L>,
    name: &[u8],
    key: &[u8],
) -> Result<Option<IVec>, TreeError>
    ensures value { Performs L.Log (Reads result (IsOfMap name.now
        (λ m value. value ≡ at_key m key.now))) cache.old cache.new }
    ensures errors { IfErr result IsOfCache }
{
    match names::get_tree(cache, name)? {
        Some(tree) => values::get(alloc, cache, tree, key),
        None => Ok(None),
    }
}

/// Sets the value of a key, and returns the value before.
///
/// `KeyTooLong` and `ValueTooLong` are returned before a map is made.
pub fn set<L: Log>(
    alloc: Global,
    cache: &mut PageCache<L>,
    limits: Limits,
    name: &[u8],
    key: &[u8],
    value: IVec,
) -> Result<Option<IVec>, TreeError>
    ensures maps { SetsIn L.Log name.now key.now value result cache.old cache.new }
    ensures errors { IfErr result (IsOfPair key.now value) }
{
    check_key(key)?;
    check_value(value.as_slice())?;
    let tree = tree_for(alloc, cache, name)?;
    values::insert(alloc, cache, limits, tree, key, value)
}

/// Removes a key, and returns the value that it had.
///
/// `KeyTooLong` is returned before anything is read, whether or not there is a map.
pub fn remove<L: Log>(
    cache: &mut PageCache<L>,
    limits: Limits,
    name: &[u8],
    key: &[u8],
) -> Result<Option<IVec>, TreeError>
    ensures maps { TakesFrom L.Log name.now key.now result cache.old cache.new }
    ensures errors { IfErr result (IsOfKey key.now) }
{
    check_key(key)?;
    match names::get_tree(cache, name)? {
        Some(tree) => values::remove(cache, limits, tree, key),
        None => Ok(None),
    }
}

/// Changes the value of a key to `new` if it is `old`, where `None` means no value. Otherwise it returns the current value as the inner error.
///
/// `KeyTooLong` and `ValueTooLong` are returned before anything is read, and before a map is made.
pub fn swap<L: Log>(
    alloc: Global,
    cache: &mut PageCache<L>,
    limits: Limits,
    name: &[u8],
    key: &[u8],
    old: Option<&[u8]>,
    new: Option<IVec>,
) -> Result<Result<(), Option<IVec>>, TreeError>
    ensures maps { SwapsIn L.Log name.now key.now (option_map (λ old. old.now) old.entry) new result
        cache.old cache.new }
    ensures errors { IfErr result (IsOfPair key.now (unwrap_or new [])) }
{
    check_key(key)?;
    check_some(&new)?;
    match names::get_tree(cache, name)? {
        Some(tree) => values::compare_and_swap(alloc, cache, limits, tree, key, old, new),
        None => swap_in_new(alloc, cache, limits, name, key, old, new),
    }
}

// Refuses a value that is too long, if there is one.
fn check_some(value: &Option<IVec>) -> Result<(), TreeError>
    ensures long { IfErr result (λ e. (e ≡ ValueTooLong) × IsTooLong (unwrap_or value.now [])) }
{
    match value {
        Some(value) => check_value(value.as_slice()),
        None => Ok(()),
    }
}

// A swap where the name has no map: that has no value, and is made where the key is to have one.
fn swap_in_new<L: Log>(
    alloc: Global,
    cache: &mut PageCache<L>,
    limits: Limits,
    name: &[u8],
    key: &[u8],
    old: Option<&[u8]>,
    new: Option<IVec>,
) -> Result<Result<(), Option<IVec>>, TreeError>
    ensures maps { SwapsNone L.Log name.now key.now (option_map (λ old. old.now) old.entry) new
        result cache.old cache.new }
    ensures errors { IfErr result (IsOfPair key.now (unwrap_or new [])) }
{
    if old.is_some() {
        return Ok(Err(None));
    }
    let Some(value) = new else {
        return Ok(Ok(()));
    };
    let tree = tree_of_new(alloc, cache, name)?;
    values::compare_and_swap(alloc, cache, limits, tree, key, None, Some(value))
}

/// Returns the pair with the least key, if there is any.
pub fn first<L: Log>(
    cache: &mut PageCache<L>,
    name: &[u8],
) -> Result<Option<(IVec, IVec)>, TreeError>
    ensures pair { Performs L.Log (Reads result (IsOfMap name.now
        (λ m pair. pair ≡ first_of m))) cache.old cache.new }
    ensures errors { IfErr result IsOfCache }
{
    match names::get_tree(cache, name)? {
        Some(tree) => ordered::first(cache, tree),
        None => Ok(None),
    }
}

/// Returns the pair with the greatest key, if there is any.
pub fn last<L: Log>(
    cache: &mut PageCache<L>,
    name: &[u8],
) -> Result<Option<(IVec, IVec)>, TreeError>
    ensures pair { Performs L.Log (Reads result (IsOfMap name.now
        (λ m pair. pair ≡ last_of m))) cache.old cache.new }
    ensures errors { IfErr result IsOfCache }
{
    match names::get_tree(cache, name)? {
        Some(tree) => ordered::last(cache, tree),
        None => Ok(None),
    }
}

/// Returns the first pair after the bound, if there is one.
pub fn next_above<L: Log>(
    cache: &mut PageCache<L>,
    name: &[u8],
    bound: &Bound<IVec>,
) -> Result<Option<(IVec, IVec)>, TreeError>
    ensures pair { Performs L.Log (Reads result (IsOfMap name.now
        (λ m pair. pair ≡ first_of (behind bound.now m)))) cache.old cache.new }
    ensures errors { IfErr result IsOfCache }
{
    match names::get_tree(cache, name)? {
        Some(tree) => ordered::next_to(cache, tree, Side::Above, bound),
        None => Ok(None),
    }
}

/// Returns the last pair before the bound, if there is one.
pub fn next_below<L: Log>(
    cache: &mut PageCache<L>,
    name: &[u8],
    bound: &Bound<IVec>,
) -> Result<Option<(IVec, IVec)>, TreeError>
    ensures pair { Performs L.Log (Reads result (IsOfMap name.now
        (λ m pair. pair ≡ last_of (before bound.now m)))) cache.old cache.new }
    ensures errors { IfErr result IsOfCache }
{
    match names::get_tree(cache, name)? {
        Some(tree) => ordered::next_to(cache, tree, Side::Below, bound),
        None => Ok(None),
    }
}

/// Returns the pair with the next greater key, if there is one.
pub fn above<L: Log>(
    cache: &mut PageCache<L>,
    name: &[u8],
    key: IVec,
) -> Result<Option<(IVec, IVec)>, TreeError> {
    next_above(cache, name, &Bound::Excluded(key))
}

/// Returns the pair with the next smaller key, if there is one.
pub fn below<L: Log>(
    cache: &mut PageCache<L>,
    name: &[u8],
    key: IVec,
) -> Result<Option<(IVec, IVec)>, TreeError> {
    next_below(cache, name, &Bound::Excluded(key))
}

/// Returns the number of pairs.
pub fn count<L: Log>(cache: &mut PageCache<L>, name: &[u8]) -> Result<u64, TreeError>
    ensures pairs { Performs L.Log (Reads result (IsOfMap name.now
        (λ m count. count ≡ length m))) cache.old cache.new }
    ensures errors { IfErr result IsOfCache }
{
    match names::get_tree(cache, name)? {
        Some(tree) => ordered::len(cache, tree),
        None => Ok(0),
    }
}

/// Returns the first pairs within two bounds, those that one leaf has, and the key from which the others begin.
pub fn range<L: Log>(
    alloc: Global,
    cache: &mut PageCache<L>,
    name: &[u8],
    from: &Bound<IVec>,
    to: &Bound<IVec>,
) -> Result<Piece, TreeError>
    ensures pairs { Performs L.Log (Reads result (IsOfMap name.now
        (λ m piece. IsPieceOf from.now to.now m piece))) cache.old cache.new }
    ensures errors { IfErr result IsOfCache }
{
    match names::get_tree(cache, name)? {
        Some(tree) => ordered::range(alloc, cache, tree, from, to),
        None => Ok(Piece {
            pairs: Vec::new(alloc),
            rest: None,
        }),
    }
}

/// Returns the first name of a map after `after` in byte order, or the first of all names if `after` is `None`.
///
/// It copies all names to do so, and reads nothing from the log.
pub fn next_name<L: Log>(
    alloc: Global,
    cache: &PageCache<L>,
    after: Option<&[u8]>,
) -> Result<Option<IVec>, TreeError>
    ensures name { Performs L.Log (Reads result (λ pages name. (w : Named) → AreNamed pages w
        → name ≡ first_name (option_map (λ after. after.now) after.entry) (names_of w.names)))
        cache.now cache.now }
    ensures errors { IfErr result IsOfCache }
{
    let names = names::names(alloc, cache)?;
    match first_behind(&names, after) {
        Some(name) => Ok(Some(name.clone()?)),
        None => Ok(None),
    }
}

// The first of these names behind this one, or of all.
fn first_behind<'a>(names: &'a [IVec], after: Option<&[u8]>) -> Option<&'a IVec>
    ensures { option_map (λ name. name.now) result
        ≡ first_name (option_map (λ after. after.now) after.entry) names.now }
{
    for name in names {
        if is_behind(name, after) {
            return Some(name);
        }
    }
    None
}

// Whether the name is behind the other one, if there is one.
fn is_behind(name: &IVec, after: Option<&[u8]>) -> bool
    ensures { result ≡ follows (option_map (λ after. after.now) after.entry) name.now }
{
    match after {
        Some(after) => after.cmp(name.as_slice()).is_lt(),
        None => true,
    }
}
