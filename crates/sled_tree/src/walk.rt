//! From a tree's root to the leaf of a key, and the value that the leaf has.

ghost use Rattle.std.specs.Prelude.{◌≡◌, true, false, IfOk};
ghost use Rattle.sled_search.specs.Routes.{Routes};
ghost use Rattle.sled_search.specs.Search.{ComesToValue, HasNodeAt, HasAt};
ghost use Rattle.sled_tree.specs.Changed.{Reads};
ghost use Rattle.sled_tree.specs.Performs.{Performs};
ghost use Rattle.sled_tree.specs.Walks.{Leads, Shows};

use sled_node::Node;
use sled_pagecache::{Error, IVec, Log, PageCache, PageId, sled_node};
use sled_search::{Turn, route};
use std::alloc::Global;

/// The most turns of a search. Only a search that goes in a circle takes more: pages may lead in a circle if the map of a token was dropped.
pub const MOST_TURNS: u64 = 1 << 20;

// What a page says of a key.
#[derive(Drop)]
enum Sight {
    // The leaf of the key: the value there, or that it has none.
    Value(Option<IVec>),
    // The page to look at next.
    On(PageId),
}

/// Returns the value that a key has in the tree with this root, if it has one.
pub fn value_for<L: Log>(
    alloc: Global,
    cache: &mut PageCache<L>,
    root: PageId,
    key: &[u8],
) -> Result<Option<IVec>, Error>
    ensures { Performs L.Log (Reads result (λ pages value. ComesToValue pages key.now value root))
        cache.old cache.new }
{
    let mut at = root;
    'turns: for _ in 0..MOST_TURNS {
        match sight_at(alloc, cache, at, key)? {
            Sight::Value(value) => return Ok(value),
            Sight::On(page) => at = page,
        }
    }
    Err(Error::Corruption(None))
}

// What the page says of the key.
fn sight_at<L: Log>(
    alloc: Global,
    cache: &mut PageCache<L>,
    pid: PageId,
    key: &[u8],
) -> Result<Sight, Error>
    ensures { Performs L.Log (Reads result (λ pages sight. HasNodeAt pages pid (Shows key.now sight)))
        cache.old cache.new }
{
    match cache.get(pid) {
        Ok(Some(view)) => seen(alloc, view.node(), key),
        Ok(None) => Err(Error::Corruption(None)),
        Err(refusal) => Err(Error::from(refusal)),
    }
}

fn seen(alloc: Global, node: &Node, key: &[u8]) -> Result<Sight, Error>
    ensures { IfOk result (λ sight. Shows key.now sight node.now) }
{
    match route(node, key) {
        Turn::Here => Ok(Sight::Value(value_here(alloc, node, key)?)),
        Turn::Down(page) | Turn::Right(page) => Ok(Sight::On(page)),
        Turn::Astray => Err(Error::Corruption(None)),
    }
}

// The value of a key in its leaf.
fn value_here(alloc: Global, node: &Node, key: &[u8]) -> Result<Option<IVec>, Error>
    requires leaf { node.now.is_index ≡ false }
    ensures { IfOk result (λ value. HasAt key.now value node.now) }
{
    let _ = node.data(); // which says that the keys rise
    match node.leaf_pair_for_key(key) {
        Some((_, value)) => Ok(Some(IVec::from_slice(alloc, value)?)),
        None => Ok(None),
    }
}

/// Returns where the page leads the key.
pub fn turn_at<L: Log>(cache: &mut PageCache<L>, pid: PageId, key: &[u8]) -> Result<Turn, Error>
    ensures { Performs L.Log (Reads result (λ pages turn. HasNodeAt pages pid (Routes key.now turn)))
        cache.old cache.new }
{
    match cache.get(pid) {
        Ok(Some(view)) => Ok(route(view.node(), key)),
        Ok(None) => Err(Error::Corruption(None)),
        Err(refusal) => Err(Error::from(refusal)),
    }
}

/// Returns whether the search for a key from the root comes to the page.
pub fn is_on_way<L: Log>(
    cache: &mut PageCache<L>,
    root: PageId,
    key: &[u8],
    page: PageId,
) -> Result<bool, Error>
    ensures { Performs L.Log (Reads result
        (λ pages is. is ≡ true → Leads pages key.now root page)) cache.old cache.new }
{
    let mut at = root;
    'turns: for _ in 0..MOST_TURNS {
        if at == page {
            return Ok(true);
        }
        match turn_at(cache, at, key)? {
            Turn::Down(next) | Turn::Right(next) => at = next,
            _ => return Ok(false),
        }
    }
    Ok(false)
}
