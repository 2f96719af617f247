//! From a tree's root to the leaf of a key, or to that of the keys just before a bound.

ghost use Rattle.sled_search.specs.Ordered.{start_of};
ghost use Rattle.sled_search.specs.Routes.{RoutesBefore};
ghost use Rattle.sled_search.specs.Search.{HasNodeAt, ComesToLeafOf};
ghost use Rattle.sled_tree.specs.Changed.{Reads};
ghost use Rattle.sled_tree.specs.OrderedLeaves.{ComesBefore};
ghost use Rattle.sled_tree.specs.Performs.{Performs};

use crate::walk::{MOST_TURNS, turn_at};
use sled_pagecache::{Error, IVec, Log, PageCache, PageId};
use sled_search::{Turn, route_before};
use std::ops::Bound;

/// Returns the leaf of the bound's key, or the first leaf if there is no bound. No key after the bound is in an earlier leaf.
pub fn leaf_above<L: Log>(
    cache: &mut PageCache<L>,
    root: PageId,
    bound: &Bound<IVec>,
) -> Result<PageId, Error>
    ensures { Performs L.Log (Reads result (λ pages leaf.
        ComesToLeafOf pages (start_of bound.now) (start_of bound.now) leaf root))
        cache.old cache.new }
{
    match bound {
        Bound::Included(key) | Bound::Excluded(key) => leaf_of(cache, root, key.as_slice()),
        Bound::Unbounded => leaf_of(cache, root, &[]),
    }
}

/// Returns the leaf of a key.
pub fn leaf_of<L: Log>(cache: &mut PageCache<L>, root: PageId, key: &[u8]) -> Result<PageId, Error>
    ensures { Performs L.Log (Reads result (λ pages leaf.
        ComesToLeafOf pages key.now key.now leaf root)) cache.old cache.new }
{
    let mut at = root;
    'turns: for _ in 0..MOST_TURNS {
        match turn_at(cache, at, key)? {
            Turn::Here => return Ok(at),
            Turn::Down(page) | Turn::Right(page) => at = page,
            Turn::Astray => return Err(Error::Corruption(None)),
        }
    }
    Err(Error::Corruption(None))
}

/// Returns the leaf of the keys just before the bound.
pub fn leaf_before<L: Log>(
    cache: &mut PageCache<L>,
    root: PageId,
    bound: &Bound<IVec>,
) -> Result<PageId, Error>
    ensures { Performs L.Log (Reads result (λ pages leaf. ComesBefore pages root bound.now leaf))
        cache.old cache.new }
{
    let mut at = root;
    'turns: for _ in 0..MOST_TURNS {
        match turn_before_at(cache, at, bound)? {
            Turn::Here => return Ok(at),
            Turn::Down(page) | Turn::Right(page) => at = page,
            Turn::Astray => return Err(Error::Corruption(None)),
        }
    }
    Err(Error::Corruption(None))
}

// Where the page leads the keys right before the bound.
fn turn_before_at<L: Log>(
    cache: &mut PageCache<L>,
    pid: PageId,
    bound: &Bound<IVec>,
) -> Result<Turn, Error>
    ensures { Performs L.Log (Reads result (λ pages turn.
        HasNodeAt pages pid (RoutesBefore bound.now turn))) cache.old cache.new }
{
    match cache.get(pid) {
        Ok(Some(view)) => Ok(route_before(view.node(), bound)),
        Ok(None) => Err(Error::Corruption(None)),
        Err(refusal) => Err(Error::from(refusal)),
    }
}
