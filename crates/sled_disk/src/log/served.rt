//! What the caller of a staged disk does for the log on it, between the calls of `Log`.

ghost use Rattle.sled_disk.specs.StagedReads.{StandsAt};
ghost use Rattle.sled_disk.specs.Served.{OnlyDisk, StaysALog};
ghost use Rattle.sled_disk.specs.Staged.{Fails, Forgets, HandsOut, TakesIn, holds};

use super::DiskLog;
use crate::disk::{CallersFile, StagedDisk, Task};
use sled_log::Log;
use std::alloc::AllocError;

/// Each of these is the disk's call of that name. It leaves the rest of the log unchanged: its state, its counts, and its crash states.
impl<F: CallersFile> DiskLog<StagedDisk<F>> {
    /// Returns the next task for the caller, or `None` if none is queued, and after `fail`: see `StagedDisk::next_task`.
    pub fn next_task(&mut self, into: &mut [u8]) -> Option<Task>
        ensures next { OnlyDisk (HandsOut result into.new) self.old self.new }
        ensures stays { StaysALog ⟦<Self as Log>⟧ self.old self.new }
    {
        self.disk.next_task(into)
    }

    /// Hands in bytes of the file, from place `at` on: see `StagedDisk::hand_in`.
    ///
    /// AllocError: the allocation of a copy failed, and nothing changed.
    pub fn hand_in(&mut self, at: u64, bytes: &[u8]) -> Result<(), AllocError>
        requires word { F.tells → StandsAt at bytes.now (holds self.old.disk) }
        ensures taken { OnlyDisk (TakesIn at bytes.now) self.old self.new }
        ensures stays { StaysALog ⟦<Self as Log>⟧ self.old self.new }
    {
        self.disk.hand_in(at, bytes)
    }

    /// Drops the bytes that were handed in, and resets what the disk needs.
    pub fn forget(&mut self)
        ensures forgets { OnlyDisk Forgets self.old self.new }
        ensures stays { StaysALog ⟦<Self as Log>⟧ self.old self.new }
    {
        self.disk.forget();
    }

    /// Reports that a write or a sync of the caller failed. From then on no task is handed out, and each write and sync returns WriteFault.
    pub fn fail(&mut self)
        ensures fails { OnlyDisk Fails self.old self.new }
        ensures stays { StaysALog ⟦<Self as Log>⟧ self.old self.new }
    {
        self.disk.fail();
    }
}
