//! Reading and changing the value of a key.

ghost use Rattle.std.specs.Prelude.{◌≡◌, ◌⊎◌, [], IfErr, IsErrOf, unwrap_or};
ghost use Rattle.std.specs.Option.{is_some, option_map};
ghost use Rattle.sled_search.specs.Map.{at_key};
ghost use Rattle.sled_tree.specs.Errors.{IsOfCache, IsOfKey, IsOfPair, IsTooLong};
ghost use Rattle.sled_tree.specs.Maps.{ChangesMap, ReadsMap, SetsKey, SwapsKey, TakesKey, root_of};
ghost use Rattle.sled_tree.specs.Performs.{Performs};
ghost use Rattle.sled_tree.specs.declared.error.TreeError.TheVariants.{KeyTooLong, ValueTooLong};

use super::{Tree, Trees};
use crate::error::TreeError;
use crate::maps::values;
use sled_pagecache::{IVec, Log};

impl<L: Log> Trees<L> {
    /// Returns a copy of the value of a key, if it has one. It writes nothing.
    pub fn get(&mut self, tree: Tree, key: &[u8]) -> Result<Option<IVec>, TreeError>
        ensures value { ReadsMap L.Log tree (λ m value. value ≡ at_key m key.now) result self.old self.new }
        ensures errors { IfErr result IsOfCache }
    {
        values::get(self.alloc, &mut self.cache, tree, key)
    }

    /// Returns whether a key has a value. It writes nothing.
    pub fn contains_key(&mut self, tree: Tree, key: &[u8]) -> Result<bool, TreeError>
        ensures there { ReadsMap L.Log tree (λ m there. there ≡ is_some (at_key m key.now)) result self.old self.new }
        ensures errors { IfErr result IsOfCache }
    {
        Ok(self.get(tree, key)?.is_some())
    }

    /// Sets the value of a key, and returns the value before.
    ///
    /// `KeyTooLong` and `ValueTooLong` are returned before anything is read. `LogFull`, `StampUsedUp`, and `PagesUsedUp` where a node has to be
    /// split, leave the map as it was.
    pub fn insert(&mut self, tree: Tree, key: &[u8], value: IVec) -> Result<Option<IVec>, TreeError>
        ensures maps { Performs L.Log
            (ChangesMap (root_of tree) (SetsKey (root_of tree) key.now value result)) self.old
            self.new }
        ensures key { IsTooLong key.now → IsErrOf result KeyTooLong × (self.new ≡ self.old) }
        ensures value { IsTooLong value → (IsErrOf result KeyTooLong ⊎ IsErrOf result ValueTooLong)
            × (self.new ≡ self.old) }
        ensures errors { IfErr result (IsOfPair key.now value) }
    {
        values::insert(self.alloc, &mut self.cache, self.limits, tree, key, value)
    }

    /// Removes a key, and returns the value that it had.
    ///
    /// If the leaf has fewer than 4 pairs left, it is merged with a neighbour under the same index that has room, and the page of the right one of
    /// the two is freed. In that case, each index on the way to the leaf with fewer than 64 children is merged in the same way too. Merging reads the
    /// neighbours, and returns no error: what can't be merged is left for a later removal, and a write error is sticky, so the next call returns it.
    ///
    /// `KeyTooLong` is returned before anything is read. `LogFull` and `StampUsedUp` leave the map as it was.
    pub fn remove(&mut self, tree: Tree, key: &[u8]) -> Result<Option<IVec>, TreeError>
        ensures maps { Performs L.Log
            (ChangesMap (root_of tree) (TakesKey (root_of tree) key.now result)) self.old self.new }
        ensures key { IsTooLong key.now → IsErrOf result KeyTooLong × (self.new ≡ self.old) }
        ensures errors { IfErr result (IsOfKey key.now) }
    {
        values::remove(&mut self.cache, self.limits, tree, key)
    }

    /// Changes the value of a key to `new` if it is `old`. `None` means no value: with `old` it expects that the key is absent, and with `new` it
    /// removes the key. If the key has another value, or none, the call returns that as the inner error, and the map stays as it was.
    ///
    /// Removing a key may merge nodes as `remove` does. `KeyTooLong` and `ValueTooLong` are returned before anything is read. `LogFull`,
    /// `StampUsedUp`, and `PagesUsedUp` where a node has to be split, leave the map as it was.
    pub fn compare_and_swap(
        &mut self,
        tree: Tree,
        key: &[u8],
        old: Option<&[u8]>,
        new: Option<IVec>,
    ) -> Result<Result<(), Option<IVec>>, TreeError>
        ensures maps { Performs L.Log (ChangesMap (root_of tree) (SwapsKey (root_of tree) key.now
            (option_map (λ old. old.now) old.entry) new result)) self.old self.new }
        ensures key { IsTooLong key.now → IsErrOf result KeyTooLong × (self.new ≡ self.old) }
        ensures value { IsTooLong (unwrap_or new []) → (IsErrOf result KeyTooLong
            ⊎ IsErrOf result ValueTooLong) × (self.new ≡ self.old) }
        ensures errors { IfErr result (IsOfPair key.now (unwrap_or new [])) }
    {
        values::compare_and_swap(
            self.alloc,
            &mut self.cache,
            self.limits,
            tree,
            key,
            old,
            new,
        )
    }
}
