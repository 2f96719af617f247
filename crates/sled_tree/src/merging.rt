//! Merging: a leaf or an index that has few pairs left is merged with a neighbour under the same index, and the right one's page is freed.
//!
//! First the index above is written without the right node: a search that it led there is now led to the left node, and from there to the right
//! one. Then the left node is written with the pairs of both, and no search reaches the right node any more. Last, the right node's page is
//! freed. So a crash or an error between two of these steps leaves the same map.

ghost use Rattle.sled_tree.specs.Maps.{Keeps};
ghost use Rattle.sled_tree.specs.Merging.{LooksOn};
ghost use Rattle.sled_tree.specs.Performs.{Performs};
ghost use Rattle.sled_tree.specs.Walks.{HasRoot};

mod carry;
mod plan;

use crate::trees::Limits;
use crate::walk::{MOST_TURNS, turn_at};
use carry::carry_out;
use plan::{Neighbours, neighbours_at, plan_for};
use sled_node::Node;
use sled_pagecache::{Error, Log, PageCache, PageId, sled_node};
use sled_search::Turn;

// The way of a key from the root of a map to its leaf, and the limits of the nodes there.
#[derive(Clone, Copy)]
struct Way<'a> {
    root: PageId,
    key: &'a [u8],
    limits: Limits,
}

/// Merges `leaf`, in which `key` was, with a neighbour that has room for its pairs, if it has few pairs left. In that case, each index on the way to
/// it that has few children is merged in the same way too. What can't be merged stays as it is, and no error is returned.
pub fn merge_few<L: Log>(
    cache: &mut PageCache<L>,
    root: PageId,
    leaf: PageId,
    key: &[u8],
    limits: Limits,
)
    ensures { Performs L.Log (Keeps (HasRoot root)) cache.old cache.new }
{
    let _ = merge_leaf(cache, Way { root, key, limits }, leaf); // a write error is kept, and the next call answers it
}

// Merges what has few pairs, if the leaf does.
fn merge_leaf<L: Log>(cache: &mut PageCache<L>, way: Way<'_>, leaf: PageId) -> Result<(), Error>
    ensures { Performs L.Log (Keeps (HasRoot way.entry.root)) cache.old cache.new }
{
    if !has_few(cache, leaf)? {
        return Ok(());
    }
    merge_way(cache, way)
}

// Merges what has few pairs on the way.
fn merge_way<L: Log>(cache: &mut PageCache<L>, way: Way<'_>) -> Result<(), Error>
    ensures { Performs L.Log (Keeps (HasRoot way.entry.root)) cache.old cache.new }
{
    let mut at = way.root;
    'turns: for _ in 0..MOST_TURNS {
        match next_on(cache, way, at)? {
            Some(page) => at = page,
            None => return Ok(()),
        }
    }
    Err(Error::Corruption(None))
}

// The page behind this one on the way, if it isn't the leaf. A child with few pairs is merged first.
fn next_on<L: Log>(
    cache: &mut PageCache<L>,
    way: Way<'_>,
    at: PageId,
) -> Result<Option<PageId>, Error>
    ensures { Performs L.Log (Keeps (HasRoot way.entry.root)) cache.old cache.new }
{
    merge_below(cache, way, at)?;
    match turn_at(cache, at, way.key)? {
        Turn::Down(page) | Turn::Right(page) => Ok(Some(page)),
        _ => Ok(None),
    }
}

// Merges the child to which the page leads the key, if that has few pairs.
fn merge_below<L: Log>(cache: &mut PageCache<L>, way: Way<'_>, above: PageId) -> Result<(), Error>
    ensures { Performs L.Log (Keeps (HasRoot way.entry.root)) cache.old cache.new }
{
    let Turn::Down(child) = turn_at(cache, above, way.key)? else {
        return Ok(());
    };
    if !has_few(cache, child)? {
        return Ok(());
    }
    merge_child(cache, way, above)
}

// Whether the node of the page has few pairs.
fn has_few<L: Log>(cache: &mut PageCache<L>, pid: PageId) -> Result<bool, Error>
    ensures { Performs L.Log (LooksOn result) cache.old cache.new }
{
    match cache.get(pid) {
        Ok(Some(view)) => Ok(view.node().should_merge()),
        Ok(None) => Err(Error::Corruption(None)),
        Err(refusal) => Err(Error::from(refusal)),
    }
}

// Merges the child of the key with its left neighbour, or else with its right one, if the index above leads to one and they are few enough.
fn merge_child<L: Log>(cache: &mut PageCache<L>, way: Way<'_>, above: PageId) -> Result<(), Error>
    ensures { Performs L.Log (Keeps (HasRoot way.entry.root)) cache.old cache.new }
{
    let Sides { before, behind } = sides_at(cache, above, way.key)?;
    if !merge(cache, way.root, above, before, way.limits)? {
        merge(cache, way.root, above, behind, way.limits)?;
    }
    Ok(())
}

// A child with its left neighbour, and with its right one, if it has them.
#[derive(Clone, Copy)]
struct Sides {
    before: Option<Neighbours>,
    behind: Option<Neighbours>,
}

fn sides_at<L: Log>(cache: &mut PageCache<L>, above: PageId, key: &[u8]) -> Result<Sides, Error>
    ensures { Performs L.Log (LooksOn result) cache.old cache.new }
{
    match cache.get(above) {
        Ok(Some(view)) => Ok(sides_of(view.node(), key)),
        Ok(None) => Err(Error::Corruption(None)),
        Err(refusal) => Err(Error::from(refusal)),
    }
}

fn sides_of(index: &Node, key: &[u8]) -> Sides {
    if !index.has_child_for(key) {
        return Sides {
            before: None,
            behind: None,
        };
    }
    let (at, _) = index.index_next_node(key);
    Sides {
        before: neighbours_at(index, at),
        behind: neighbours_at(index, at.saturating_add(1)),
    }
}

// Merges two neighbours, and answers whether they were merged.
fn merge<L: Log>(
    cache: &mut PageCache<L>,
    root: PageId,
    above: PageId,
    neighbours: Option<Neighbours>,
    limits: Limits,
) -> Result<bool, Error>
    ensures { Performs L.Log (Keeps (HasRoot root)) cache.old cache.new }
{
    let Some(neighbours) = neighbours else {
        return Ok(false);
    };
    match plan_for(cache, root, above, neighbours, limits)? {
        Some(plan) => {
            carry_out(cache, root, above, neighbours, plan)?;
            Ok(true)
        }
        None => Ok(false),
    }
}
