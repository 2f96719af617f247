//! Maps by their names.

ghost use Rattle.std.specs.Prelude.{◌≡◌, IfErr, IfOk};
ghost use Rattle.sled_node.specs.Meta as meta;
ghost use Rattle.sled_tree.specs.Changed.{Reads};
ghost use Rattle.sled_tree.specs.Dropping.{AreNamesOf, DropsMap, IsMapOf, IsRootOf, Unnames, names_of};
ghost use Rattle.sled_tree.specs.Errors.{IsOfCache};
ghost use Rattle.sled_tree.specs.Maps.{root_of};
ghost use Rattle.sled_tree.specs.Names.{OpensMap};
ghost use Rattle.sled_tree.specs.Performs.{Performs};

use crate::error::TreeError;
use crate::freeing::{free_all, pages_of};
use crate::trees::Tree;
use sled_pagecache::sled_node::meta::Meta;
use sled_pagecache::{Error, IVec, Log, PageCache, PageId, open_tree};
use std::alloc::Global;

/// Returns the map of a name, and makes an empty one if there is none.
pub fn open<L: Log>(alloc: Global, cache: &mut PageCache<L>, name: &[u8]) -> Result<Tree, TreeError>
    ensures maps { Performs L.Log (OpensMap root_of name.now result) cache.old cache.new }
    ensures errors { IfErr result IsOfCache }
{
    let name = IVec::from_slice(alloc, name)?;
    let root = open_tree(cache, name)?;
    Ok(Tree { root })
}

/// Returns the map of a name, if there is one.
pub fn get_tree<L: Log>(cache: &PageCache<L>, name: &[u8]) -> Result<Option<Tree>, TreeError>
    ensures map { Performs L.Log (Reads result (IsMapOf name.now)) cache.now cache.now }
    ensures errors { IfErr result IsOfCache }
{
    match root_at(cache, name)? {
        Some(root) => Ok(Some(Tree { root })),
        None => Ok(None),
    }
}

/// Returns the names of the maps, in ascending order.
pub fn names<L: Log>(alloc: Global, cache: &PageCache<L>) -> Result<Vec<IVec>, TreeError>
    ensures names { Performs L.Log (Reads result AreNamesOf) cache.now cache.now }
    ensures errors { IfErr result IsOfCache }
{
    Ok(listed(alloc, cache)?)
}

/// Drops the map of a name with all of its pairs, and returns whether there was one.
pub fn drop_tree<L: Log>(
    alloc: Global,
    cache: &mut PageCache<L>,
    name: &[u8],
) -> Result<bool, TreeError>
    ensures maps { Performs L.Log (DropsMap name.now result) cache.old cache.new }
    ensures errors { IfErr result IsOfCache }
{
    let Some(root) = root_at(cache, name)? else {
        return Ok(false);
    };
    let pages = pages_of(alloc, cache, root)?;
    unname(cache, name, root)?;
    free_all(cache, &pages);
    Ok(true)
}

// The names of the maps.
fn listed<L: Log>(alloc: Global, cache: &PageCache<L>) -> Result<Vec<IVec>, Error>
    ensures { Performs L.Log (Reads result AreNamesOf) cache.now cache.now }
{
    match cache.get_meta() {
        Ok(view) => names_in(alloc, view.meta()),
        Err(refusal) => Err(Error::from(refusal)),
    }
}

fn names_in(alloc: Global, meta: &Meta) -> Result<Vec<IVec>, Error>
    ensures { IfOk result (λ names. names.items ≡ names_of meta.now) }
{
    let roots = meta.tenants()?;
    let mut names = Vec::new(alloc);
    for name in roots.keys() {
        names.push(IVec::from_slice(alloc, name.as_slice())?)?;
    }
    Ok(names)
}

// The root that the name has.
fn root_at<L: Log>(cache: &PageCache<L>, name: &[u8]) -> Result<Option<PageId>, Error>
    ensures { Performs L.Log (Reads result (IsRootOf name.now)) cache.now cache.now }
{
    match cache.get_meta() {
        Ok(view) => Ok(view.meta().get_root(name)),
        Err(refusal) => Err(Error::from(refusal)),
    }
}

// Takes out the name, which has this root.
fn unname<L: Log>(cache: &mut PageCache<L>, name: &[u8], root: PageId) -> Result<(), Error>
    ensures { Performs L.Log (Unnames name.now root result) cache.old cache.new }
{
    match cache.cas_root_in_meta(name, Some(root), None)? {
        Ok(()) => Ok(()),
        Err(_) => Err(Error::Corruption(None)),
    }
}
