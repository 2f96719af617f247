//! What the caller of a cache over a staged disk does for the disk, between calls of the cache.

ghost use Rattle.sled_disk.specs.StagedReads.{StandsAt};
ghost use Rattle.sled_disk.specs.Served.{OnlyDisk};
ghost use Rattle.sled_disk.specs.Staged.{Fails, Forgets, HandsOut, TakesIn, holds};
ghost use Rattle.sled_pagecache.specs.Served.{IsServed, StaysAsItIs};

use super::PageCache;
use sled_disk::{CallersFile, DiskLog, StagedDisk, Task};
use sled_log::Log;
use std::alloc::AllocError;

/// Each of these calls is passed to the disk. The cache stays in its state, and so does its log, of which only the disk changes. A crash
/// during the call leaves what a crash before it could have left.
impl<F: CallersFile> PageCache<DiskLog<StagedDisk<F>>> {
    /// Returns the next task of the caller, or `None` once nothing waits: `StagedDisk::next_task`.
    pub fn next_task(&mut self, into: &mut [u8]) -> Option<Task>
        ensures next { OnlyDisk (HandsOut result into.new) self.old.log self.new.log }
        ensures served { IsServed ⟦<DiskLog<StagedDisk<F>> as Log>⟧ self.old self.new }
        ensures state { StaysAsItIs ⟦<DiskLog<StagedDisk<F>> as Log>⟧ self.old self.new }
    {
        self.writer.sticky_log.log.next_task(into)
    }

    /// Hands in bytes of the file, starting at a place: `StagedDisk::hand_in`.
    ///
    /// AllocError: there was no memory for a copy of them, and nothing changed.
    pub fn hand_in(&mut self, at: u64, bytes: &[u8]) -> Result<(), AllocError>
        requires word { F.tells → StandsAt at bytes.now (holds self.old.log.disk) }
        ensures taken { OnlyDisk (TakesIn at bytes.now) self.old.log self.new.log }
        ensures served { IsServed ⟦<DiskLog<StagedDisk<F>> as Log>⟧ self.old self.new }
        ensures state { StaysAsItIs ⟦<DiskLog<StagedDisk<F>> as Log>⟧ self.old self.new }
    {
        self.writer.sticky_log.log.hand_in(at, bytes)
    }

    /// Drops the bytes that were handed in, and what was needed: `StagedDisk::forget`.
    pub fn forget(&mut self)
        ensures forgets { OnlyDisk Forgets self.old.log self.new.log }
        ensures served { IsServed ⟦<DiskLog<StagedDisk<F>> as Log>⟧ self.old self.new }
        ensures state { StaysAsItIs ⟦<DiskLog<StagedDisk<F>> as Log>⟧ self.old self.new }
    {
        self.writer.sticky_log.log.forget();
    }

    /// Reports that a write or a sync of the caller failed: `StagedDisk::fail`. No task is returned any more, and each later write or sync
    /// of the disk fails.
    pub fn fail(&mut self)
        ensures fails { OnlyDisk Fails self.old.log self.new.log }
        ensures served { IsServed ⟦<DiskLog<StagedDisk<F>> as Log>⟧ self.old self.new }
        ensures state { StaysAsItIs ⟦<DiskLog<StagedDisk<F>> as Log>⟧ self.old self.new }
    {
        self.writer.sticky_log.log.fail();
    }
}
