//! Named roots.

ghost use Rattle.std.specs.Prelude.{◌≡◌};
ghost use Rattle.sled_handle.specs.Statuses.{root_of};
ghost use Rattle.sled_handle.specs.Steps.{FindsRoot, OpensTree, SwapsRoot};

use crate::output::put_answer;
use crate::status::{MEMORY, OK, STALE, status_of};
use sled_pagecache::{IVec, Log, PageCache, PageId, open_tree as open_tree_of};
use std::alloc::Global;

pub fn root<L: Log>(cache: &PageCache<L>, name: &[u8], page: &mut u64) -> u32
    ensures { FindsRoot L.Log cache.now cache.now name.now result page.old page.new }
{
    put_answer(cache.meta_pid_for_name(name), page)
}

pub fn cas_root<L: Log>(cache: &mut PageCache<L>, name: &[u8], root: &mut u64, new: u64) -> u32
    ensures { SwapsRoot L.Log cache.old cache.new name.now new result root.old root.new }
{
    match cache.cas_root_in_meta(name, root_of(*root), root_of(new)) {
        Ok(Ok(())) => OK,
        Ok(Err(present)) => {
            *root = present.unwrap_or(0);
            STALE
        }
        Err(error) => status_of(&error),
    }
}

// Page 0 is the cache's own, so it stands for no root.
fn root_of(page: u64) -> Option<PageId>
    ensures { result ≡ root_of page }
{
    if page == 0 { None } else { Some(page) }
}

pub fn open_tree<L: Log>(
    alloc: Global,
    cache: &mut PageCache<L>,
    name: &[u8],
    page: &mut u64,
) -> u32
    ensures { OpensTree L.Log cache.old cache.new name.now result page.old page.new }
{
    let Ok(name) = IVec::from_slice(alloc, name) else {
        return MEMORY;
    };
    put_answer(open_tree_of(cache, name), page)
}
