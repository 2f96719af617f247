//! The maps and their calls.

ghost use Rattle.std.specs.Prelude.{◌≡◌, ◌-◌, ◌^◌};
ghost use Rattle.std.specs.Borrow.{sem};
ghost use Rattle.sled_tree.specs.Lending.{LendsCache};
ghost use Rattle.sled_tree.specs.Limits.{nearest};

mod batches;
mod names;
mod ordered;
mod values;

use sled_pagecache::{Log, PageCache, PageId};
use std::alloc::Global;
use std::marker::Model;

/// The token of a named map. Calls take it to know which map they are for.
///
/// It stays the same as long as the map exists, whatever is put into the map, until the log is reopened.
#[derive(Clone, Copy, Debug, PartialEq, Eq)]
pub struct Tree {
    // the page of the map's root, which never moves
    pub(crate) root: PageId,
}

/// The most pairs of a leaf and the most children of an index. The next call that sets a value and comes to a node with more splits it.
///
/// Both numbers are from 4 to 65,536. Leaves of 32 to 64 pairs suit short pairs; smaller leaves suit values of some hundred bytes.
#[derive(Clone, Copy, Debug, PartialEq, Eq)]
pub struct Limits {
    pairs: usize,
    children: usize,
}

impl Limits {
    /// Makes limits of these two numbers, each replaced by the nearest number in the range if it is outside.
    pub fn new(pairs: usize, children: usize) -> Limits
        ensures pairs { result.pairs ≡ nearest pairs }
        ensures children { result.children ≡ nearest children }
    {
        Limits {
            pairs: between(pairs),
            children: between(children),
        }
    }

    /// Returns the default limits: 32 pairs in a leaf, and 128 children of an index.
    pub fn usual() -> Limits
        ensures pairs { result.pairs ≡ 32 }
        ensures children { result.children ≡ 128 }
    {
        Limits {
            pairs: 32,
            children: 128,
        }
    }

    // Nothing is split.
    pub(crate) fn none() -> Limits
        ensures pairs { result.pairs ≡ 2 ^ 64 - 1 }
        ensures children { result.children ≡ 2 ^ 64 - 1 }
    {
        Limits {
            pairs: usize::MAX,
            children: usize::MAX,
        }
    }

    // Whether so many pairs are more than a leaf may have, or an index.
    pub(crate) fn are_passed(&self, is_index: bool, count: usize) -> bool {
        let most = if is_index { self.children } else { self.pairs };
        count > most
    }

    /// Returns the most pairs of a leaf.
    pub fn pairs(&self) -> usize
        ensures { result ≡ self.now.pairs }
    {
        self.pairs
    }

    /// Returns the most children of an index.
    pub fn children(&self) -> usize
        ensures { result ≡ self.now.children }
    {
        self.children
    }
}

// The number, or the nearest that a limit may be.
fn between(number: usize) -> usize
    ensures { result ≡ nearest number }
{
    if number < 4 {
        4
    } else if number > 65_536 {
        65_536
    } else {
        number
    }
}

/// Ordered maps from byte strings to byte strings, each with a name, in a cache that belongs only to them.
///
/// In contracts, the value of `Trees` is its cache. What a contract says of a map holds in any state of the cache, for whichever map the pages from
/// the root on are.
#[derive(Drop)]
pub struct Trees<L: Log> {
    alloc: Global,
    limits: Limits,
    cache: PageCache<L>,
}

impl<L: Log> Model for Trees<L> {
    ghost use Rattle.sled_pagecache.specs.Cache.{Cache};

    ghost Value = { Cache L };

    ghost view = { λ trees. trees.cache };
}

impl<L: Log> Trees<L> {
    /// Makes `Trees` of a cache, with the limits of [`Limits::usual`]. The maps are those that were made in this cache before. It reads nothing and
    /// allocates nothing.
    pub fn new(alloc: Global, cache: PageCache<L>) -> Trees<L>
        ensures { result ≡ cache }
    {
        Trees::with_limits(alloc, cache, Limits::usual())
    }

    /// Makes `Trees` of a cache as [`Trees::new`] does, with these limits. Leaves and indices that were made before may have other sizes.
    pub fn with_limits(alloc: Global, cache: PageCache<L>, limits: Limits) -> Trees<L>
        ensures { result ≡ cache }
    {
        Trees {
            alloc,
            limits,
            cache,
        }
    }

    /// Returns the cache. It flushes nothing.
    pub fn into_cache(self) -> PageCache<L>
        ensures { result ≡ self }
    {
        self.cache
    }

    /// Returns a mutable reference to the cache, to make its own calls. A page of a map that such a call changes, frees or moves to another number no
    /// longer belongs to that map.
    pub fn cache_mut(&mut self) -> &mut PageCache<L>
        ensures* lends { sem 𝓛 (LendsCache L.row L.Log self.entry result) }
        ensures value { result.now ≡ self.old }
    {
        &mut self.cache
    }

    /// Returns a shared reference to the cache.
    pub fn cache(&self) -> &PageCache<L>
        ensures { result.now ≡ self.now }
    {
        &self.cache
    }
}
