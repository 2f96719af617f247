// What is asked of the disk of an opening, and told it, however far it has come.

ghost use Rattle.std.specs.Prelude.{◌≡◌};
ghost use Rattle.sled_disk.specs.Staged.{Fails, Forgets, HandsOut, TakesIn};
ghost use Rattle.sled_handle.specs.Files.{AreIn, OpeningIsBut, disk_at, has_failed};

use super::{Opening, Step};
use sled_disk::{CallersFile, Task};
use std::alloc::AllocError;

impl<F: CallersFile> Opening<F> {
    /// Returns whether a write or a sync of the file failed.
    pub fn has_failed(&self) -> bool
        ensures { result ≡ has_failed (disk_at self.now.step) }
    {
        match &self.step {
            Some(Step::Unread(disk)) => disk.has_failed(),
            Some(Step::Reading(part)) => part.disk.has_failed(),
            Some(Step::Unsynced(part)) => part.disk.has_failed(),
            Some(Step::Read(read)) => read.log.disk().has_failed(),
            None => false,
        }
    }

    /// Returns the next task that the program has to do on the file, if there is one, and writes the bytes of a write to the front of the buffer.
    pub fn next_task(&mut self, into: &mut [u8]) -> Option<Task>
        ensures { OpeningIsBut (HandsOut result into.new) self.old self.new }
    {
        match &mut self.step {
            Some(Step::Unread(disk)) => disk.next_task(into),
            Some(Step::Reading(part)) => part.disk.next_task(into),
            Some(Step::Unsynced(part)) => part.disk.next_task(into),
            Some(Step::Read(read)) => read.log.next_task(into),
            None => None,
        }
    }

    /// Hands in bytes of the file, from a place on. `AllocError`: there is no memory for them, and nothing changed.
    pub fn hand_in(&mut self, at: u64, bytes: &[u8]) -> Result<(), AllocError>
        requires word { F.tells → AreIn at bytes.now (disk_at self.old.step) }
        ensures { OpeningIsBut (TakesIn at bytes.now) self.old self.new }
    {
        match &mut self.step {
            Some(Step::Unread(disk)) => disk.hand_in(at, bytes),
            Some(Step::Reading(part)) => part.disk.hand_in(at, bytes),
            Some(Step::Unsynced(part)) => part.disk.hand_in(at, bytes),
            Some(Step::Read(read)) => read.log.hand_in(at, bytes),
            None => Ok(()),
        }
    }

    /// Drops the bytes that were handed in, and what the disk needed.
    pub fn forget(&mut self)
        ensures { OpeningIsBut Forgets self.old self.new }
    {
        match &mut self.step {
            Some(Step::Unread(disk)) => disk.forget(),
            Some(Step::Reading(part)) => part.disk.forget(),
            Some(Step::Unsynced(part)) => part.disk.forget(),
            Some(Step::Read(read)) => read.log.forget(),
            None => {}
        }
    }

    /// Records that a write or a sync of the file failed.
    pub fn fail(&mut self)
        ensures { OpeningIsBut Fails self.old self.new }
    {
        match &mut self.step {
            Some(Step::Unread(disk)) => disk.fail(),
            Some(Step::Reading(part)) => part.disk.fail(),
            Some(Step::Unsynced(part)) => part.disk.fail(),
            Some(Step::Read(read)) => read.log.fail(),
            None => {}
        }
    }
}
