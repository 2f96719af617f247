//! The values of keys.

ghost use Rattle.std.specs.Prelude.{◌≡◌, ◌⊎◌, [], IfErr, IfOk, unwrap_or};
ghost use Rattle.std.specs.Option.{option_map};
ghost use Rattle.sled_tree.specs.Errors.{IsTooLong};
ghost use Rattle.sled_tree.specs.declared.error.TreeError.TheVariants.{KeyTooLong, ValueTooLong};
ghost use Rattle.sled_handle.specs.MapCalls.{GetsOfMap, SetsOfMap, SwapsOfMap, TakesOfMap, TellsHad};

use crate::output::put_bytes;
use crate::status::{MEMORY, NONE, OK, STALE, status_of_tree};
use sled_pagecache::{IVec, Log, PageCache};
use sled_tree::named::{self, check_key, check_value};
use sled_tree::{Limits, TreeError};
use std::alloc::{AllocError, Global};

pub fn get<L: Log>(
    alloc: Global,
    cache: &mut PageCache<L>,
    name: &[u8],
    key: &[u8],
    buffer: &mut [u8],
    needed: &mut usize,
) -> u32
    ensures { GetsOfMap L.Log cache.old cache.new name.now key.now result (needed.old, buffer.old)
        (needed.new, buffer.new) }
{
    match named::get(alloc, cache, name, key) {
        Ok(Some(value)) => put_bytes(value.as_slice(), buffer, needed),
        Ok(None) => NONE,
        Err(error) => status_of_tree(&error),
    }
}

pub fn set<L: Log>(
    alloc: Global,
    cache: &mut PageCache<L>,
    name: &[u8],
    key: &[u8],
    value: &[u8],
    had: &mut bool,
) -> u32
    ensures { SetsOfMap L.Log cache.old cache.new name.now key.now value.now result had.old had.new }
{
    if let Err(error) = check_pair(key, Some(value)) {
        return status_of_tree(&error);
    }
    let Ok(value) = IVec::from_slice(alloc, value) else {
        return MEMORY;
    };
    put_had(
        named::set(alloc, cache, Limits::usual(), name, key, value),
        had,
    )
}

pub fn del<L: Log>(cache: &mut PageCache<L>, name: &[u8], key: &[u8], had: &mut bool) -> u32
    ensures { TakesOfMap L.Log cache.old cache.new name.now key.now result had.old had.new }
{
    put_had(named::remove(cache, Limits::usual(), name, key), had)
}

// Writes whether there was a value before.
fn put_had(before: Result<Option<IVec>, TreeError>, had: &mut bool) -> u32
    ensures { TellsHad before result had.old had.new }
{
    match before {
        Ok(value) => {
            *had = value.is_some();
            OK
        }
        Err(error) => status_of_tree(&error),
    }
}

pub fn cas<L: Log>(
    alloc: Global,
    cache: &mut PageCache<L>,
    name: &[u8],
    key: &[u8],
    old: Option<&[u8]>,
    new: Option<&[u8]>,
) -> u32
    ensures { SwapsOfMap L.Log cache.old cache.new name.now key.now
        (option_map (λ old. old.now) old.entry) (option_map (λ new. new.now) new.entry) result }
{
    if let Err(error) = check_pair(key, new) {
        return status_of_tree(&error);
    }
    let Ok(new) = owned(alloc, new) else {
        return MEMORY;
    };
    match named::swap(alloc, cache, Limits::usual(), name, key, old, new) {
        Ok(Ok(())) => OK,
        Ok(Err(_)) => STALE,
        Err(error) => status_of_tree(&error),
    }
}

// Refuses a pair that no map takes, before anything is allocated for it.
fn check_pair(key: &[u8], value: Option<&[u8]>) -> Result<(), TreeError>
    ensures { IfErr result (λ e. ((e ≡ KeyTooLong) × IsTooLong key.now)
        ⊎ ((e ≡ ValueTooLong) × IsTooLong (unwrap_or (option_map (λ value. value.now) value.entry) []))) }
{
    check_key(key)?;
    match value {
        Some(value) => check_value(value),
        None => Ok(()),
    }
}

fn owned(alloc: Global, bytes: Option<&[u8]>) -> Result<Option<IVec>, AllocError>
    ensures { IfOk result (λ copy. copy ≡ option_map (λ bytes. bytes.now) bytes.entry) }
{
    match bytes {
        Some(bytes) => Ok(Some(IVec::from_slice(alloc, bytes)?)),
        None => Ok(None),
    }
}
