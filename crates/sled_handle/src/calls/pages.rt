//! Allocating, reading, changing and freeing a page.

ghost use Rattle.std.specs.Prelude.{◌≡◌};
ghost use Rattle.sled_node.specs.declared.node.link.Link.TheVariants.{Set, Del};
ghost use Rattle.sled_pagecache.specs.State.{stamp_of};
ghost use Rattle.sled_handle.specs.Statuses.{TellsAllocated};
ghost use Rattle.sled_handle.specs.Steps.{AllocatesLeaf, FreesPage, AppliesLink, MakesLink, ReplacesByLeaf};
ghost use Rattle.sled_handle.specs.Found.{GetsPage, TellsNode};
ghost use Rattle.sled_handle.specs.Values.{TellsValue, GetsValue, written};

use crate::output::{put_bytes, put_swapped};
use crate::pairs::{leaf_in, size_of_pairs, write_pairs};
use crate::status::{
    ARGUMENTS, GONE, INDEX, MEMORY, NONE, OK, SHORT, status_of, status_of_refusal,
};
use sled_pagecache::{Error, IVec, Link, Log, NodeView, PageCache, PageId, PageView};
use std::alloc::Global;

/// What is reported of a page besides its pairs.
#[repr(C)]
#[derive(Clone, Copy)]
pub struct Found {
    /// The page's stamp.
    pub stamp: u64,
    /// How many pairs there are.
    pub count: usize,
    /// How many bytes they take.
    pub needed: usize,
    /// Whether the page is an index: then the value of each pair is a page.
    pub is_index: bool,
}

pub fn allocate<L: Log>(
    alloc: Global,
    cache: &mut PageCache<L>,
    pairs: &[u8],
    page: &mut u64,
    stamp: &mut u64,
) -> u32
    ensures { AllocatesLeaf L.Log cache.old cache.new pairs.now result (page.old, stamp.old)
        (page.new, stamp.new) }
{
    let node = match leaf_in(alloc, pairs) {
        Ok(Some(node)) => node,
        Ok(None) => return ARGUMENTS,
        Err(_) => return MEMORY,
    };
    put_allocated(cache.allocate(node), page, stamp)
}

// Writes the page and its stamp.
fn put_allocated(made: Result<(PageId, PageView), Error>, page: &mut u64, stamp: &mut u64) -> u32
    ensures { TellsAllocated made result (page.old, stamp.old) (page.new, stamp.new) }
{
    match made {
        Ok((pid, token)) => {
            *page = pid;
            *stamp = token.ts();
            OK
        }
        Err(error) => status_of(&error),
    }
}

pub fn get<L: Log>(cache: &mut PageCache<L>, page: u64, found: &mut Found, buffer: &mut [u8]) -> u32
    ensures { GetsPage L.Log cache.old cache.new page result (found.old, buffer.old)
        (found.new, buffer.new) }
{
    match cache.get(page) {
        Ok(Some(view)) => put_node(view, found, buffer),
        Ok(None) => GONE,
        Err(refusal) => status_of_refusal(refusal),
    }
}

// Writes what the node is, and its pairs where there is room for them.
fn put_node(view: NodeView<'_>, found: &mut Found, buffer: &mut [u8]) -> u32
    ensures { TellsNode view.entry.token view.entry.node.now result found.new buffer.old
        buffer.new }
{
    let node = view.node();
    let needed = size_of_pairs(node);
    *found = Found {
        stamp: view.token().ts(),
        count: node.len(),
        needed,
        is_index: node.is_index(),
    };
    if buffer.len() < needed {
        return SHORT;
    }
    write_pairs(node, buffer);
    OK
}

pub fn value<L: Log>(
    cache: &mut PageCache<L>,
    page: u64,
    key: &[u8],
    stamp: &mut u64,
    buffer: &mut [u8],
    needed: &mut usize,
) -> u32
    ensures { GetsValue L.Log cache.old cache.new page key.now result
        (written stamp.old needed.old buffer.old) (written stamp.new needed.new buffer.new) }
{
    match cache.get(page) {
        Ok(Some(view)) => put_value(view, key, stamp, buffer, needed),
        Ok(None) => GONE,
        Err(refusal) => status_of_refusal(refusal),
    }
}

// Writes the value of a key.
fn put_value(
    view: NodeView<'_>,
    key: &[u8],
    stamp: &mut u64,
    buffer: &mut [u8],
    needed: &mut usize,
) -> u32
    ensures stamp { stamp.new ≡ stamp_of view.entry.token }
    ensures value { TellsValue view.entry.node.now key.now result
        (written stamp.old needed.old buffer.old) (written stamp.new needed.new buffer.new) }
{
    let node = view.node();
    *stamp = view.token().ts();
    if node.is_index() {
        return INDEX;
    }
    let Some((_, value)) = node.leaf_pair_for_key(key) else {
        return NONE;
    };
    put_bytes(value, buffer, needed)
}

pub fn set<L: Log>(
    alloc: Global,
    cache: &mut PageCache<L>,
    page: u64,
    stamp: &mut u64,
    key: &[u8],
    value: &[u8],
) -> u32
    ensures { MakesLink L.Log cache.old cache.new page (Set key.now value.now) result stamp.old
        stamp.new }
{
    let Ok(key) = IVec::from_slice(alloc, key) else {
        return MEMORY;
    };
    let Ok(value) = IVec::from_slice(alloc, value) else {
        return MEMORY;
    };
    link(cache, page, stamp, Link::Set(key, value))
}

pub fn del<L: Log>(
    alloc: Global,
    cache: &mut PageCache<L>,
    page: u64,
    stamp: &mut u64,
    key: &[u8],
) -> u32
    ensures { MakesLink L.Log cache.old cache.new page (Del key.now) result stamp.old stamp.new }
{
    let Ok(key) = IVec::from_slice(alloc, key) else {
        return MEMORY;
    };
    link(cache, page, stamp, Link::Del(key))
}

fn link<L: Log>(cache: &mut PageCache<L>, page: u64, stamp: &mut u64, link: Link) -> u32
    ensures { AppliesLink L.Log cache.old cache.new page link result stamp.old stamp.new }
{
    let token = PageView::new(page, *stamp);
    put_swapped(cache.link(page, token, link), stamp)
}

pub fn replace<L: Log>(
    alloc: Global,
    cache: &mut PageCache<L>,
    page: u64,
    stamp: &mut u64,
    pairs: &[u8],
) -> u32
    ensures { ReplacesByLeaf L.Log cache.old cache.new page pairs.now result stamp.old stamp.new }
{
    let node = match leaf_in(alloc, pairs) {
        Ok(Some(node)) => node,
        Ok(None) => return ARGUMENTS,
        Err(_) => return MEMORY,
    };
    let token = PageView::new(page, *stamp);
    put_swapped(cache.replace(page, token, node), stamp)
}

pub fn free<L: Log>(cache: &mut PageCache<L>, page: u64, stamp: &mut u64) -> u32
    ensures { FreesPage L.Log cache.old cache.new page result stamp.old stamp.new }
{
    let token = PageView::new(page, *stamp);
    put_swapped(cache.free(page, token), stamp)
}
