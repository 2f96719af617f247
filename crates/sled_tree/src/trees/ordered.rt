//! The pairs of a map in key order.

ghost use Rattle.std.specs.Prelude.{◌≡◌, ◌↔◌, IfErr, IsTrue, [], length};
ghost use Rattle.sled_tree.specs.Errors.{IsOfCache};
ghost use Rattle.sled_tree.specs.Maps.{ReadsMap};
ghost use Rattle.sled_tree.specs.Ordered.{behind, before, first_of, last_of, IsPieceOf};

use super::{Tree, Trees};
use crate::error::TreeError;
use crate::maps::ordered;
use crate::neighbours::Side;
use crate::neighbours::pieces::Piece;
use sled_pagecache::{IVec, Log};
use std::ops::Bound;

impl<L: Log> Trees<L> {
    /// Returns the pair with the least key, or `None` if the map has no pair.
    pub fn first(&mut self, tree: Tree) -> Result<Option<(IVec, IVec)>, TreeError>
        ensures pair { ReadsMap L.Log tree (λ m answer. answer ≡ first_of m) result self.old self.new }
        ensures errors { IfErr result IsOfCache }
    {
        ordered::first(&mut self.cache, tree)
    }

    /// Returns the pair with the greatest key, or `None` if the map has no pair.
    pub fn last(&mut self, tree: Tree) -> Result<Option<(IVec, IVec)>, TreeError>
        ensures pair { ReadsMap L.Log tree (λ m answer. answer ≡ last_of m) result self.old self.new }
        ensures errors { IfErr result IsOfCache }
    {
        ordered::last(&mut self.cache, tree)
    }

    /// Returns the first pair after the bound, or `None` if there is none.
    ///
    /// An included key counts as after its own bound. If the bound is `Unbounded`, all keys count.
    pub fn next_above(
        &mut self,
        tree: Tree,
        bound: &Bound<IVec>,
    ) -> Result<Option<(IVec, IVec)>, TreeError>
        ensures pair { ReadsMap L.Log tree (λ m answer. answer ≡ first_of (behind bound.now m)) result self.old self.new }
        ensures errors { IfErr result IsOfCache }
    {
        ordered::next_to(&mut self.cache, tree, Side::Above, bound)
    }

    /// Returns the last pair before the bound, or `None` if there is none.
    ///
    /// An included key counts as before its own bound. If the bound is `Unbounded`, all keys count.
    pub fn next_below(
        &mut self,
        tree: Tree,
        bound: &Bound<IVec>,
    ) -> Result<Option<(IVec, IVec)>, TreeError>
        ensures pair { ReadsMap L.Log tree (λ m answer. answer ≡ last_of (before bound.now m)) result self.old self.new }
        ensures errors { IfErr result IsOfCache }
    {
        ordered::next_to(&mut self.cache, tree, Side::Below, bound)
    }

    /// Returns the first pairs after `from` and before `to`, in key order: those that one leaf has, and the key from which the others begin, if there
    /// are any. To continue, call it again with that key as an included bound. It returns no pair only if the map has none within the bounds.
    pub fn range(
        &mut self,
        tree: Tree,
        from: &Bound<IVec>,
        to: &Bound<IVec>,
    ) -> Result<Piece, TreeError>
        ensures pairs { ReadsMap L.Log tree (λ m piece. IsPieceOf from.now to.now m piece) result self.old self.new }
        ensures errors { IfErr result IsOfCache }
    {
        ordered::range(self.alloc, &mut self.cache, tree, from, to)
    }

    /// Returns the number of pairs. It reads every leaf, and returns `Corruption` if there are more pairs than a u64 holds.
    pub fn len(&mut self, tree: Tree) -> Result<u64, TreeError>
        ensures count { ReadsMap L.Log tree (λ m count. count ≡ length m) result self.old self.new }
        ensures errors { IfErr result IsOfCache }
    {
        ordered::len(&mut self.cache, tree)
    }

    /// Returns whether the map has no pair.
    pub fn is_empty(&mut self, tree: Tree) -> Result<bool, TreeError>
        ensures none { ReadsMap L.Log tree (λ m none. IsTrue none ↔ (m ≡ [])) result self.old self.new }
        ensures errors { IfErr result IsOfCache }
    {
        Ok(self.first(tree)?.is_none())
    }
}
