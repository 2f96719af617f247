//! Calls for all maps at once: ids, flushing, and batches.

ghost use Rattle.std.specs.Prelude.{◌≡◌, ◌+◌, true, false, Ok, IfErr, IfOk, IsErrOf, OnErr, OnOk, []};
ghost use Rattle.sled_pagecache.specs.Answers.{IsCovered};
ghost use Rattle.sled_pagecache.specs.Batches.{CancelsBatch, SealsBatch};
ghost use Rattle.sled_tree.specs.Changed.{LeavesPages};
ghost use Rattle.sled_tree.specs.Errors.{IsOfCache};
ghost use Rattle.sled_tree.specs.Maps.{FlushesMaps, KeepsMaps};
ghost use Rattle.sled_tree.specs.Performs.{Performs};
ghost use Rattle.sled_tree.specs.declared.error.TreeError.TheVariants.{NoBatch};

use super::Trees;
use crate::error::TreeError;
use sled_pagecache::Log;

impl<L: Log> Trees<L> {
    /// Returns the next id, which no call returned before.
    ///
    /// An error uses no id. `IdsUsedUp` means that the next id would be above the greatest u64. If the counter of ids has to be raised, it returns
    /// `BatchOpen` inside a batch, `StampUsedUp` if the stamp of the counter's page is the greatest, and `LogFull` if the log has no room.
    pub fn generate_id(&mut self) -> Result<u64, TreeError>
        ensures maps { Performs L.Log KeepsMaps self.old self.new }
        ensures id { IfOk result (λ id. (id ≡ self.old.next)
            × (self.new.next ≡ self.old.next + 1)) }
        ensures covered { IfOk result (IsCovered L.Log self.new) }
        ensures errors { IfErr result IsOfCache }
    {
        Ok(self.cache.generate_id_inner()?)
    }

    /// Makes all changes durable, and returns the number of bytes written. It returns `BatchOpen` inside a batch.
    pub fn flush(&mut self) -> Result<usize, TreeError>
        ensures maps { FlushesMaps L.Log result self.old self.new }
        ensures stable { OnOk result ((L.state self.new.log).pending ≡ []) }
        ensures number { IfOk result (λ n. n ≡ L.to_write self.old.log) }
        ensures errors { IfErr result IsOfCache }
    {
        Ok(self.cache.flush()?)
    }

    /// Returns whether a batch is open.
    pub fn batch_open(&self) -> bool
        ensures { result ≡ self.now.batch }
    {
        self.cache.batch_open()
    }

    /// Opens a batch, which stays open until `seal` or `cancel`.
    ///
    /// It returns `BatchOpen` if one is open, and `LogFull` if the log has no room for the marks of a batch. An error opens no batch.
    pub fn pin(&mut self) -> Result<(), TreeError>
        ensures maps { Performs L.Log KeepsMaps self.old self.new }
        ensures opens { OnOk result ((self.old.batch ≡ false) × (self.new.batch ≡ true)) }
        ensures refused { OnErr result (self.new.batch ≡ self.old.batch) }
        ensures errors { IfErr result IsOfCache }
    {
        Ok(self.cache.pin()?)
    }

    /// Seals and closes the open batch: a crash leaves all of its changes, in whichever maps they are, or none.
    ///
    /// It returns `NoBatch` if none is open, and only then. The only other error is a write error; the batch is closed then too.
    pub fn seal(&mut self) -> Result<(), TreeError>
        ensures pages { Performs L.Log LeavesPages self.old self.new }
        ensures none { self.old.batch ≡ false → IsErrOf result NoBatch × (self.new ≡ self.old) }
        ensures closed { self.new.batch ≡ false }
        ensures errors { self.old.batch ≡ true → IfErr result IsOfCache }
        ensures seals { OnOk result (SealsBatch L.Log self.old (Ok tt) self.new) }
    {
        if !self.cache.batch_open() {
            return Err(TreeError::NoBatch);
        }
        Ok(self.cache.seal()?)
    }

    /// Closes the open batch without sealing it: a crash may leave a part of its changes. No change is undone in the maps.
    ///
    /// It returns `NoBatch` if none is open, and only then. The only other error is a write error; the batch is closed then too.
    pub fn cancel(&mut self) -> Result<(), TreeError>
        ensures pages { Performs L.Log LeavesPages self.old self.new }
        ensures none { self.old.batch ≡ false → IsErrOf result NoBatch × (self.new ≡ self.old) }
        ensures closed { self.new.batch ≡ false }
        ensures errors { self.old.batch ≡ true → IfErr result IsOfCache }
        ensures cancels { OnOk result (CancelsBatch L.Log self.old (Ok tt) self.new) }
    {
        if !self.cache.batch_open() {
            return Err(TreeError::NoBatch);
        }
        Ok(self.cache.cancel()?)
    }
}
