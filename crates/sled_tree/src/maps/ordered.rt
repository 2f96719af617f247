//! The pairs of a map in key order.

ghost use Rattle.std.specs.Prelude.{◌≡◌, IfErr, length};
ghost use Rattle.sled_tree.specs.Errors.{IsOfCache};
ghost use Rattle.sled_tree.specs.Maps.{ReadsMap};
ghost use Rattle.sled_tree.specs.Ordered.{first_of, last_of, IsPieceOf};
ghost use Rattle.sled_tree.specs.OrderedLeaves.{next_of};

use crate::error::TreeError;
use crate::neighbours::count::count_all;
use crate::neighbours::pieces::{Piece, pairs_within};
use crate::neighbours::{Side, nearest};
use crate::trees::Tree;
use sled_pagecache::{IVec, Log, PageCache};
use std::alloc::Global;
use std::ops::Bound;

/// Returns the pair with the least key, if there is any.
pub fn first<L: Log>(
    cache: &mut PageCache<L>,
    tree: Tree,
) -> Result<Option<(IVec, IVec)>, TreeError>
    ensures pair { ReadsMap L.Log tree (λ m answer. answer ≡ first_of m) result cache.old cache.new }
    ensures errors { IfErr result IsOfCache }
{
    next_to(cache, tree, Side::Above, &Bound::Unbounded)
}

/// Returns the pair with the greatest key, if there is any.
pub fn last<L: Log>(cache: &mut PageCache<L>, tree: Tree) -> Result<Option<(IVec, IVec)>, TreeError>
    ensures pair { ReadsMap L.Log tree (λ m answer. answer ≡ last_of m) result cache.old cache.new }
    ensures errors { IfErr result IsOfCache }
{
    next_to(cache, tree, Side::Below, &Bound::Unbounded)
}

/// Returns the pair next to the bound on this side of it, if there is one.
pub fn next_to<L: Log>(
    cache: &mut PageCache<L>,
    tree: Tree,
    side: Side,
    bound: &Bound<IVec>,
) -> Result<Option<(IVec, IVec)>, TreeError>
    ensures pair { ReadsMap L.Log tree (λ m answer. answer ≡ next_of side bound.now m) result cache.old cache.new }
    ensures errors { IfErr result IsOfCache }
{
    Ok(nearest::next_to(cache, tree.root, side, bound)?)
}

/// Returns the first pairs within two bounds, those that one leaf has, and the key from which the others begin.
pub fn range<L: Log>(
    alloc: Global,
    cache: &mut PageCache<L>,
    tree: Tree,
    from: &Bound<IVec>,
    to: &Bound<IVec>,
) -> Result<Piece, TreeError>
    ensures pairs { ReadsMap L.Log tree (λ m piece. IsPieceOf from.now to.now m piece) result cache.old cache.new }
    ensures errors { IfErr result IsOfCache }
{
    Ok(pairs_within(alloc, cache, tree.root, from, to)?)
}

/// Returns the number of pairs.
pub fn len<L: Log>(cache: &mut PageCache<L>, tree: Tree) -> Result<u64, TreeError>
    ensures count { ReadsMap L.Log tree (λ m count. count ≡ length m) result cache.old cache.new }
    ensures errors { IfErr result IsOfCache }
{
    Ok(count_all(cache, tree.root)?)
}
