//! Collecting the pages of a map, and freeing them once no name leads to them.

ghost use Rattle.std.specs.Prelude.{◌≡◌, ◌⊎◌, [], ◌∷◌, ◌++◌, IfOk, OnOk};
ghost use Rattle.sled_tree.specs.Changed.{Reads};
ghost use Rattle.sled_tree.specs.Dropping.{AreLoose, AreReached, Frees, IsStopAt, LeadsOn};
ghost use Rattle.sled_tree.specs.Maps.{Keeps};
ghost use Rattle.sled_tree.specs.Performs.{Performs};

use crate::walk::MOST_TURNS;
use sled_node::Node;
use sled_pagecache::{Error, IVec, Log, PageCache, PageId, PageView, sled_node};
use sled_search::{Turn, route};
use std::alloc::Global;

// Where a search that gathers pages goes on.
#[derive(Drop)]
enum Way {
    // To this page.
    On(PageId),
    // Nowhere: this is the leaf of the key, with this end.
    End(IVec),
}

// What a page says to a search that gathers pages.
#[derive(Drop)]
struct Stop {
    token: PageView,
    // whether the keys of the page begin at that of the search: no search for a lesser key was here then
    begins: bool,
    way: Way,
}

/// Returns the tokens of the pages that searches from the root reach: those on the way to each leaf, from the first leaf to the last.
pub fn pages_of<L: Log>(
    alloc: Global,
    cache: &mut PageCache<L>,
    root: PageId,
) -> Result<Vec<PageView>, Error>
    ensures { Performs L.Log (Reads result (λ pages found. AreReached root found.items pages))
        cache.old cache.new }
{
    let mut found = Vec::new(alloc);
    let mut key = IVec::default();
    'leaves: for _ in 0..u64::MAX {
        key = gather(alloc, cache, root, key.as_slice(), &mut found)?;
        if key.is_empty() {
            return Ok(found);
        }
    }
    Err(Error::Corruption(None))
}

// Puts the pages on the way to the leaf of the key behind the others, without those where a search for a lesser key was. Answers the end of
// the leaf.
fn gather<L: Log>(
    alloc: Global,
    cache: &mut PageCache<L>,
    root: PageId,
    key: &[u8],
    found: &mut Vec<PageView>,
) -> Result<IVec, Error>
    ensures { Performs L.Log (Reads result (λ pages _. AreReached root found.old.items pages
        → AreReached root found.new.items pages)) cache.old cache.new }
{
    let mut at = root;
    'turns: for _ in 0..MOST_TURNS {
        let Stop { token, begins, way } = stop_at(alloc, cache, at, key)?;
        put(found, token, begins)?;
        match way {
            Way::On(page) => at = page,
            Way::End(end) => return Ok(end),
        }
    }
    Err(Error::Corruption(None))
}

// Puts the page behind the others, if its keys begin there.
fn put(found: &mut Vec<PageView>, token: PageView, begins: bool) -> Result<(), Error>
    ensures { OnOk result ((found.new.items ≡ found.old.items)
        ⊎ (found.new.items ≡ found.old.items ++ token ∷ [])) }
{
    if begins {
        found.push(token)?;
    }
    Ok(())
}

// What the page says of the key.
fn stop_at<L: Log>(
    alloc: Global,
    cache: &mut PageCache<L>,
    pid: PageId,
    key: &[u8],
) -> Result<Stop, Error>
    ensures { Performs L.Log (Reads result (λ pages stop. IsStopAt pages key.now pid stop))
        cache.old cache.new }
{
    match cache.get(pid) {
        Ok(Some(view)) => stop_of(alloc, view.node(), view.token(), key),
        Ok(None) => Err(Error::Corruption(None)),
        Err(refusal) => Err(Error::from(refusal)),
    }
}

fn stop_of(alloc: Global, node: &Node, token: PageView, key: &[u8]) -> Result<Stop, Error>
    ensures token { IfOk result (λ stop. stop.token ≡ token) }
    ensures way { IfOk result (λ stop. LeadsOn key.now node.now stop.way) }
{
    let way = match route(node, key) {
        Turn::Here => Way::End(IVec::from_slice(alloc, node.hi().as_slice())?),
        Turn::Down(page) | Turn::Right(page) => Way::On(page),
        Turn::Astray => return Err(Error::Corruption(None)),
    };
    Ok(Stop {
        token,
        begins: node.lo().eq_bytes(key),
        way,
    })
}

/// Frees pages that no search reaches. A page that can't be freed stays, and no error is returned for it.
pub fn free_all<L: Log>(cache: &mut PageCache<L>, pages: &[PageView])
    ensures { Performs L.Log (Keeps (AreLoose pages.now)) cache.old cache.new }
{
    for page in pages {
        free(cache, *page);
    }
}

// Frees a page, if it can be freed.
fn free<L: Log>(cache: &mut PageCache<L>, page: PageView)
    ensures { Performs L.Log (Frees page) cache.old cache.new }
{
    let _ = cache.free(page.pid(), page); // a write error is kept, and the next call answers it
}
