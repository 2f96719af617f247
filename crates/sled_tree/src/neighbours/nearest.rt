//! The pair next to a bound, on one side of it.

ghost use Rattle.std.specs.Prelude.{◌≡◌, ◌↔◌, IfOk, IsTrue, false, []};
ghost use Rattle.sled_node.specs.Neighbours.{IsBefore};
ghost use Rattle.sled_search.specs.Map.{Map};
ghost use Rattle.sled_search.specs.Search.{HasNodeAt, IsTreeOf};
ghost use Rattle.sled_tree.specs.Changed.{Reads};
ghost use Rattle.sled_tree.specs.OrderedLeaves.{IsNextTo, SeesNear, ShowsAbove, ShowsBelow, ShowsNear};
ghost use Rattle.sled_tree.specs.Performs.{Performs};
ghost use Rattle.sled_tree.specs.declared.neighbours.Side.TheVariants.{Above, Below};

use super::leaves::{leaf_above, leaf_before};
use super::{Near, Pair, Side};
use sled_node::Node;
use sled_pagecache::{Error, IVec, Log, PageCache, PageId, sled_node};
use std::ops::Bound;

/// Returns the pair next to the bound on this side of it, in the tree with this root, if there is one.
pub fn next_to<L: Log>(
    cache: &mut PageCache<L>,
    root: PageId,
    side: Side,
    bound: &Bound<IVec>,
) -> Result<Option<Pair>, Error>
    ensures { Performs L.Log (Reads result (λ pages answer. (m : Map) → IsTreeOf pages root m
        → IsNextTo side m bound.now answer)) cache.old cache.new }
{
    let mut near = near_to(cache, root, side, bound)?;
    'leaves: for _ in 0..u64::MAX {
        match near {
            Near::Pair(pair) => return Ok(Some(pair)),
            Near::Further(next) => near = near_to(cache, root, side, &next)?,
            Near::Nothing => return Ok(None),
        }
    }
    Err(Error::Corruption(None))
}

// What is next to the bound, as far as one leaf tells.
fn near_to<L: Log>(
    cache: &mut PageCache<L>,
    root: PageId,
    side: Side,
    bound: &Bound<IVec>,
) -> Result<Near, Error>
    ensures { Performs L.Log (Reads result (SeesNear side root bound.now)) cache.old cache.new }
{
    match side {
        Side::Above => near_above(cache, root, bound),
        Side::Below => near_below(cache, root, bound),
    }
}

// The same behind the bound, where the leaf of its key tells.
fn near_above<L: Log>(
    cache: &mut PageCache<L>,
    root: PageId,
    bound: &Bound<IVec>,
) -> Result<Near, Error>
    ensures { Performs L.Log (Reads result (SeesNear Above root bound.now)) cache.old cache.new }
{
    let leaf = leaf_above(cache, root, bound)?;
    near_at(cache, leaf, Side::Above, bound)
}

// The same before the bound, where the leaf of the keys right before it tells.
fn near_below<L: Log>(
    cache: &mut PageCache<L>,
    root: PageId,
    bound: &Bound<IVec>,
) -> Result<Near, Error>
    ensures { Performs L.Log (Reads result (SeesNear Below root bound.now)) cache.old cache.new }
{
    if !has_keys(bound) {
        return Ok(Near::Nothing);
    }
    let leaf = leaf_before(cache, root, bound)?;
    near_at(cache, leaf, Side::Below, bound)
}

// Whether a key may be before the bound.
fn has_keys(bound: &Bound<IVec>) -> bool
    ensures { IsTrue result ↔ IsBefore bound.now [] }
{
    match bound {
        Bound::Excluded(key) => !key.is_empty(),
        Bound::Included(_) | Bound::Unbounded => true,
    }
}

// What the leaf on this page has next to the bound.
fn near_at<L: Log>(
    cache: &mut PageCache<L>,
    leaf: PageId,
    side: Side,
    bound: &Bound<IVec>,
) -> Result<Near, Error>
    ensures { Performs L.Log (Reads result (λ pages near.
        HasNodeAt pages leaf (ShowsNear side bound.now near))) cache.old cache.new }
{
    match cache.get(leaf) {
        Ok(Some(view)) => near_in(view.node(), side, bound),
        Ok(None) => Err(Error::Corruption(None)),
        Err(refusal) => Err(Error::from(refusal)),
    }
}

fn near_in(node: &Node, side: Side, bound: &Bound<IVec>) -> Result<Near, Error>
    ensures { IfOk result (λ near. ShowsNear side bound.now near node.now) }
{
    if node.is_index() {
        return Err(Error::Corruption(None));
    }
    match side {
        Side::Above => first_in(node, bound),
        Side::Below => last_in(node, bound),
    }
}

// The first pair behind the bound.
fn first_in(node: &Node, bound: &Bound<IVec>) -> Result<Near, Error>
    requires { node.now.is_index ≡ false }
    ensures { IfOk result (λ near. ShowsAbove bound.now near node.now) }
{
    let _ = node.data(); // which says that the node is well-formed
    if let Some(pair) = node.successor(bound)? {
        return Ok(Near::Pair(pair));
    }
    if node.hi().is_empty() {
        return Ok(Near::Nothing);
    }
    Ok(Near::Further(Bound::Included(node.hi().clone()?)))
}

// The last pair before the bound.
fn last_in(node: &Node, bound: &Bound<IVec>) -> Result<Near, Error>
    requires { node.now.is_index ≡ false }
    ensures { IfOk result (λ near. ShowsBelow bound.now near node.now) }
{
    let _ = node.data(); // which says that the node is well-formed
    if let Some(pair) = node.predecessor(bound)? {
        return Ok(Near::Pair(pair));
    }
    Ok(Near::Further(Bound::Excluded(node.lo().clone()?)))
}
