//! Maps by their names.

ghost use Rattle.std.specs.Prelude.{IfErr};
ghost use Rattle.sled_tree.specs.Changed.{Reads};
ghost use Rattle.sled_tree.specs.Dropping.{AreNamesOf, DropsMap, IsMapOf};
ghost use Rattle.sled_tree.specs.Errors.{IsOfCache};
ghost use Rattle.sled_tree.specs.Maps.{root_of};
ghost use Rattle.sled_tree.specs.Names.{OpensMap};
ghost use Rattle.sled_tree.specs.Performs.{Performs};

use super::{Tree, Trees};
use crate::error::TreeError;
use crate::maps::names;
use sled_pagecache::{IVec, Log};

impl<L: Log> Trees<L> {
    /// Returns the map of this name, and makes an empty one if there is none.
    ///
    /// `NameTooLong` and `TooManyNames` are returned before anything is made. `PagesUsedUp`, `StampUsedUp`, `LogFull` or `OutOfMemory` may come after
    /// a leaf, or a leaf and an index, was made for the map: these pages stay allocated, and no name leads to them.
    pub fn open(&mut self, name: &[u8]) -> Result<Tree, TreeError>
        ensures maps { Performs L.Log (OpensMap root_of name.now result) self.old self.new }
        ensures errors { IfErr result IsOfCache }
    {
        names::open(self.alloc, &mut self.cache, name)
    }

    /// Returns the map of this name, or `None` if there is none. It makes no map.
    ///
    /// It reads nothing from the log and allocates nothing. The only error is the sticky write error of an earlier call.
    pub fn get_tree(&self, name: &[u8]) -> Result<Option<Tree>, TreeError>
        ensures map { Performs L.Log (Reads result (IsMapOf name.now)) self.now self.now }
        ensures errors { IfErr result IsOfCache }
    {
        names::get_tree(&self.cache, name)
    }

    /// Returns the names of the maps, in ascending order.
    ///
    /// It reads nothing from the log. The only errors are `OutOfMemory` and the sticky write error of an earlier call.
    pub fn names(&self) -> Result<Vec<IVec>, TreeError>
        ensures names { Performs L.Log (Reads result AreNamesOf) self.now self.now }
        ensures errors { IfErr result IsOfCache }
    {
        names::names(self.alloc, &self.cache)
    }

    /// Drops the map of this name with all of its pairs, and returns whether there was one. The tokens of the map are invalid after that: a call with
    /// one of them may read or change another map.
    ///
    /// First it collects the map's pages: it reads all of them, and uses 16 bytes of memory for each. An error here, or at any time before the name
    /// is removed, leaves everything as it was: `OutOfMemory`, a read error, `LogFull`, `StampUsedUp` if the stamp of the page of the names is the
    /// greatest, or `Corruption` if a search comes to no leaf or a page is damaged. If the write of the names fails, the name may be gone from the
    /// log; the error is sticky.
    ///
    /// Then it frees the pages, and returns no error any more. A page stays allocated if it can't be freed, because memory or the log is full, or if
    /// a crash comes first; nothing leads to such a page. A write error in this step is sticky, and the next call returns it.
    pub fn drop_tree(&mut self, name: &[u8]) -> Result<bool, TreeError>
        ensures maps { Performs L.Log (DropsMap name.now result) self.old self.new }
        ensures errors { IfErr result IsOfCache }
    {
        names::drop_tree(self.alloc, &mut self.cache, name)
    }
}
