//! The pairs of a leaf within two bounds.

ghost use Rattle.std.specs.Prelude.{◌≡◌, ◌⊎◌, ◌≤◌, ◌-◌, ◌↔◌, IfOk, IsTrue, [], false, length, take, drop};
ghost use Rattle.sled_search.specs.Map.{Map};
ghost use Rattle.sled_search.specs.Ordered.{is_before};
ghost use Rattle.sled_search.specs.Search.{HasNodeAt, IsTreeOf};
ghost use Rattle.sled_tree.specs.Changed.{Reads};
ghost use Rattle.sled_tree.specs.Ordered.{within, IsPieceOf};
ghost use Rattle.sled_tree.specs.OrderedLeaves.{SeesPart, ShowsWithin, as_items};
ghost use Rattle.sled_tree.specs.Performs.{Performs};

use super::Pair;
use super::leaves::leaf_above;
use sled_node::Node;
use sled_pagecache::{Error, IVec, Log, PageCache, PageId, sled_node};
use std::alloc::Global;
use std::ops::Bound;

/// The first pairs of a map within two bounds, those that one leaf has, and the key from which the others begin.
#[derive(Drop)]
pub struct Piece {
    /// The pairs, in key order.
    pub pairs: Vec<(IVec, IVec)>,
    /// All other pairs within the bounds are at this key or after it. If it is `None`, there are no others.
    pub rest: Option<IVec>,
}

// The pairs of a leaf within two bounds, and its end, which is empty where it has none.
#[derive(Drop)]
struct LeafPart {
    pairs: Vec<Pair>,
    end: IVec,
}

/// Returns the pairs within the bounds of the first leaf that has any.
pub fn pairs_within<L: Log>(
    alloc: Global,
    cache: &mut PageCache<L>,
    root: PageId,
    from: &Bound<IVec>,
    to: &Bound<IVec>,
) -> Result<Piece, Error>
    ensures { Performs L.Log (Reads result (λ pages piece. (m : Map) → IsTreeOf pages root m
        → IsPieceOf from.now to.now m piece)) cache.old cache.new }
{
    let mut part = part_of(alloc, cache, root, from, to)?;
    'leaves: for _ in 0..u64::MAX {
        let LeafPart { pairs, end } = part;
        if is_past(&end, to) {
            return Ok(Piece { pairs, rest: None });
        }
        if !pairs.is_empty() {
            return Ok(Piece {
                pairs,
                rest: Some(end),
            });
        }
        part = part_of(alloc, cache, root, &Bound::Included(end), to)?;
    }
    Err(Error::Corruption(None))
}

// Whether nothing before the bound is behind this end of a leaf.
fn is_past(end: &IVec, to: &Bound<IVec>) -> bool
    ensures { IsTrue result ↔ ((end.now ≡ []) ⊎ (is_before to.now end.now ≡ false)) }
{
    end.is_empty() || !comes_before(end, to)
}

// The pairs of the leaf of the one bound.
fn part_of<L: Log>(
    alloc: Global,
    cache: &mut PageCache<L>,
    root: PageId,
    from: &Bound<IVec>,
    to: &Bound<IVec>,
) -> Result<LeafPart, Error>
    ensures { Performs L.Log (Reads result (SeesPart root from.now to.now)) cache.old cache.new }
{
    let leaf = leaf_above(cache, root, from)?;
    part_at(alloc, cache, leaf, from, to)
}

// The pairs of the leaf on this page.
fn part_at<L: Log>(
    alloc: Global,
    cache: &mut PageCache<L>,
    leaf: PageId,
    from: &Bound<IVec>,
    to: &Bound<IVec>,
) -> Result<LeafPart, Error>
    ensures { Performs L.Log (Reads result (λ pages part.
        HasNodeAt pages leaf (ShowsWithin from.now to.now part))) cache.old cache.new }
{
    match cache.get(leaf) {
        Ok(Some(view)) => part_in(alloc, view.node(), from, to),
        Ok(None) => Err(Error::Corruption(None)),
        Err(refusal) => Err(Error::from(refusal)),
    }
}

fn part_in(
    alloc: Global,
    node: &Node,
    from: &Bound<IVec>,
    to: &Bound<IVec>,
) -> Result<LeafPart, Error>
    ensures { IfOk result (λ part. ShowsWithin from.now to.now part node.now) }
{
    if node.is_index() {
        return Err(Error::Corruption(None));
    }
    let _ = node.data(); // which says that the node is well-formed
    let pairs = pairs_in(alloc, node, from, to)?;
    Ok(LeafPart {
        pairs,
        end: node.hi().clone()?,
    })
}

// The pairs of a leaf that are within the bounds.
fn pairs_in(
    alloc: Global,
    node: &Node,
    from: &Bound<IVec>,
    to: &Bound<IVec>,
) -> Result<Vec<Pair>, Error>
    requires leaf { node.now.is_index ≡ false }
    ensures { IfOk result (λ pairs. as_items pairs.items ≡ within from.now to.now node.now.pairs) }
{
    let first = node.first_behind(from);
    let end = node.end_before(to);
    if first < end {
        copies(alloc, node, first, end)
    } else {
        Ok(Vec::new(alloc))
    }
}

// The pairs of a leaf from one place to another.
fn copies(alloc: Global, node: &Node, first: usize, end: usize) -> Result<Vec<Pair>, Error>
    requires leaf { node.now.is_index ≡ false }
    requires order { first ≤ end }
    requires places { end ≤ length node.now.pairs }
    ensures { IfOk result (λ pairs. as_items pairs.items
        ≡ take (end - first) (drop first node.now.pairs)) }
{
    let mut pairs = Vec::with_capacity(alloc, end - first)?;
    'places: for at in first..end {
        pairs.push(node.whole_pair(at)?)?;
    }
    Ok(pairs)
}

fn comes_before(key: &IVec, bound: &Bound<IVec>) -> bool
    ensures { result ≡ is_before bound.now key.now }
{
    match bound {
        Bound::Included(end) => key <= end,
        Bound::Excluded(end) => key < end,
        Bound::Unbounded => true,
    }
}
