//! Whole maps, by their names.

ghost use Rattle.std.specs.Option.{option_map};
ghost use Rattle.sled_handle.specs.MapCalls.{DropsOfName, FindsName};

use crate::output::put_bytes;
use crate::status::{NONE, OK, status_of_tree};
use sled_pagecache::{Log, PageCache};
use sled_tree::named;
use std::alloc::Global;

pub fn drop_map<L: Log>(alloc: Global, cache: &mut PageCache<L>, name: &[u8], had: &mut bool) -> u32
    ensures { DropsOfName L.Log cache.old cache.new name.now result had.old had.new }
{
    match named::drop_tree(alloc, cache, name) {
        Ok(dropped) => {
            *had = dropped;
            OK
        }
        Err(error) => status_of_tree(&error),
    }
}

pub fn next_name<L: Log>(
    alloc: Global,
    cache: &PageCache<L>,
    after: Option<&[u8]>,
    buffer: &mut [u8],
    needed: &mut usize,
) -> u32
    ensures { FindsName L.Log cache.now cache.now (option_map (λ after. after.now) after.entry) result
        (needed.old, buffer.old) (needed.new, buffer.new) }
{
    match named::next_name(alloc, cache, after) {
        Ok(Some(name)) => put_bytes(name.as_slice(), buffer, needed),
        Ok(None) => NONE,
        Err(error) => status_of_tree(&error),
    }
}
