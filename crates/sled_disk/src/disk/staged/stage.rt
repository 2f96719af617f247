// What waits, and what was handed in.

ghost use Rattle.std.specs.Prelude.{◌≡◌, ◌≤◌, ◌<◌, ◌+◌, ◌^◌, ◌++◌, ℕ, List, [], ◌∷◌, None, Some, false, true, length, IfSome, IfNone, IsTrue};

use super::pieces::Pieces;
use super::tasks::{Task, Tasks};
use crate::disk::CallersFile;
use std::alloc::{AllocError, Global};

// What the caller has still to do, and what it handed in.
#[derive(Drop)]
pub(super) struct Stage {
    pub(super) tasks: Tasks,
    pub(super) pieces: Pieces,
    pub(super) needs: Option<(u64, usize)>,
    pub(super) failed: bool,
}

// In these contracts `file` is what the file holds once all is done that was handed out, and `seen` what a read is to give: the file
// once all that waits is done too.
impl Stage {
    ghost use Rattle.sled_disk.specs.Disk.{overlaid};
    ghost use Rattle.sled_disk.specs.CallersFile.{bytewise, held_after};
    ghost use Rattle.sled_disk.specs.StagedReads.{AddsTask, StandsAt, ArePieces, AreWithin, after_task, seen_in};
    ghost use Rattle.sled_disk.specs.Journal.{Write, Again, Sync};
    ghost use Rattle.sled_disk.specs.Staged.{HandsNone};
    ghost use Rattle.sled_disk.specs.Tasks.{tasks_in, IsHandedOut};

    // Nothing waits, and nothing was handed in.
    pub(super) fn new(alloc: Global) -> Stage
        ensures none { tasks_in result.tasks ≡ [] }
        ensures unsynced { result.tasks.is_synced ≡ false }
        ensures works { result.failed ≡ false }
        ensures pieces { (file : List ℕ) → ArePieces result.pieces file }
        ensures needs { result.needs ≡ None }
    {
        Stage {
            tasks: Tasks::new(alloc),
            pieces: Pieces::new(alloc),
            needs: None,
            failed: false,
        }
    }

    // Hands out the next task, and tells the caller's file of it. Where that fails nothing is handed out any more.
    pub(super) fn next<F: CallersFile>(&mut self, file: &mut F, into: &mut [u8]) -> Option<Task>
        requires within { F.tells → AreWithin (held_after (F.first file.old) (F.done file.old))
            (tasks_in self.old.tasks) }
        ensures next { IfSome result (λ task. IsHandedOut task into.new (tasks_in self.old.tasks)
            (tasks_in self.new.tasks)) }
        ensures works { IfSome result (λ task. (self.old.failed ≡ false)
            × (self.new ≡ record self.old { tasks = self.new.tasks })) }
        ensures none { IfNone result (HandsNone F.may_fail self.old self.new) }
        ensures within { (file : List ℕ) → AreWithin file (tasks_in self.old.tasks) → IfSome result
            (λ task. AreWithin (after_task file task into.new) (tasks_in self.new.tasks)) }
        ensures seen { (file : List ℕ) → AreWithin file (tasks_in self.old.tasks) → IfSome result
            (λ task. seen_in (after_task file task into.new) self.new.tasks
            ≡ seen_in file self.old.tasks) }
        ensures is_synced { self.new.tasks.is_synced ≡ self.old.tasks.is_synced }
        ensures told { F.tells → F.done file.new ++ bytewise (tasks_in self.new.tasks)
            ≡ F.done file.old ++ bytewise (tasks_in self.old.tasks) }
        ensures first { F.tells → F.first file.new ≡ F.first file.old }
        ensures adds { F.tells → IfSome result
            (λ task. AddsTask (held_after (F.first file.old) (F.done file.old)) task into.new
            (F.done file.old) (F.done file.new)) }
        ensures held { F.tells → IfSome result
            (λ task. held_after (F.first file.new) (F.done file.new)
            ≡ after_task (held_after (F.first file.old) (F.done file.old)) task into.new) }
        ensures not_held { F.tells → IfNone result (F.done file.new ≡ F.done file.old) }
    {
        if self.failed {
            return None;
        }
        match self.tasks.next(file, into) {
            Ok(task) => task,
            Err(()) => {
                self.failed = true;
                None
            }
        }
    }

    // Keeps bytes that were handed in, unless a write that waits may change them.
    pub(super) fn take_in(&mut self, at: u64, bytes: &[u8]) -> Result<(), AllocError>
        requires { at + length bytes.now < 2 ^ 64 }
        ensures pieces { (file : List ℕ) → AreWithin file (tasks_in self.old.tasks)
            → StandsAt at bytes.now file → ArePieces self.old.pieces (seen_in file self.old.tasks)
            → ArePieces self.new.pieces (seen_in file self.old.tasks) }
        ensures kept { self.new
            ≡ record self.old { pieces = self.new.pieces; needs = self.new.needs } }
    {
        let end = at + bytes.len() as u64;
        if bytes.is_empty() || self.tasks.may_change(at, end) {
            return Ok(());
        }
        self.pieces.add(at, bytes)?;
        self.needs = None;
        Ok(())
    }

    // Gives bytes that were handed in, or notes that they are needed.
    pub(super) fn read(&mut self, at: u64, into: &mut [u8]) -> bool
        requires { at + length into.old < 2 ^ 64 }
        ensures length { length into.new ≡ length into.old }
        ensures bytes { (seen : List ℕ) → ArePieces self.old.pieces seen → IsTrue result
            → StandsAt at into.new seen }
        ensures needed { result ≡ false → self.new.needs ≡ Some (at, length into.old) }
        ensures kept { self.new ≡ record self.old { needs = self.new.needs } }
    {
        if self.pieces.read(at, into) {
            return true;
        }
        self.needs = Some((at, into.len()));
        false
    }

    // Lets a write wait, and drops the pieces that it writes over.
    pub(super) fn write(&mut self, at: u64, bytes: &[u8]) -> bool
        requires { at + length bytes.now < 2 ^ 64 }
        ensures works { IsTrue result → self.old.failed ≡ false }
        ensures added { IsTrue result → 0 < length bytes.now
            → tasks_in self.new.tasks ≡ tasks_in self.old.tasks ++ Write at bytes.now ∷ [] }
        ensures unsynced { IsTrue result → 0 < length bytes.now → self.new.tasks.is_synced ≡ false }
        ensures empty { length bytes.now ≡ 0 → self.new.tasks ≡ self.old.tasks }
        ensures written { (file : List ℕ) → IsTrue result → seen_in file self.new.tasks
            ≡ overlaid (seen_in file self.old.tasks) at bytes.now }
        ensures within { (file : List ℕ) → IsTrue result → AreWithin file (tasks_in self.old.tasks)
            → at ≤ length (seen_in file self.old.tasks) → AreWithin file (tasks_in self.new.tasks) }
        ensures pieces { (seen : List ℕ) → at ≤ length seen → ArePieces self.old.pieces seen
            → IsTrue result → ArePieces self.new.pieces (overlaid seen at bytes.now) }
        ensures refused { result ≡ false → tasks_in self.new.tasks ≡ tasks_in self.old.tasks }
        ensures still { result ≡ false → self.new.tasks.is_synced ≡ self.old.tasks.is_synced }
        ensures kept { result ≡ false → self.new ≡ record self.old { tasks = self.new.tasks } }
        ensures failed { self.new.failed ≡ self.old.failed }
    {
        if self.failed || self.tasks.write(at, bytes, false).is_err() {
            return false;
        }
        self.pieces.drop_between(at, at + bytes.len() as u64);
        true
    }

    // Lets a write of a byte wait that is there already.
    pub(super) fn write_again(&mut self, at: u64, bytes: &[u8]) -> bool
        requires small { at + length bytes.now < 2 ^ 64 }
        requires one { length bytes.now ≡ 1 }
        ensures works { IsTrue result → self.old.failed ≡ false }
        ensures added { IsTrue result
            → tasks_in self.new.tasks ≡ tasks_in self.old.tasks ++ Again at bytes.now ∷ [] }
        ensures unsynced { IsTrue result → self.new.tasks.is_synced ≡ false }
        ensures refused { result ≡ false → tasks_in self.new.tasks ≡ tasks_in self.old.tasks }
        ensures still { result ≡ false → self.new.tasks.is_synced ≡ self.old.tasks.is_synced }
        ensures kept { self.new ≡ record self.old { tasks = self.new.tasks } }
    {
        !self.failed && self.tasks.write(at, bytes, true).is_ok()
    }

    // Lets go of what was handed in, and of what was needed.
    pub(super) fn forget(&mut self)
        ensures pieces { self.new.pieces.pieces.items ≡ [] }
        ensures needs { self.new.needs ≡ None }
        ensures kept { self.new
            ≡ record self.old { pieces = self.new.pieces; needs = self.new.needs } }
    {
        self.pieces.clear();
        self.needs = None;
    }

    // Hands out nothing any more, and lets nothing wait later.
    pub(super) fn fail(&mut self)
        ensures { self.new ≡ record self.old { failed = true } }
    {
        self.failed = true;
    }

    // Lets a sync wait, where one is due.
    pub(super) fn sync(&mut self) -> bool
        ensures works { IsTrue result → self.old.failed ≡ false }
        ensures added { IsTrue result → self.old.tasks.is_synced ≡ false
            → tasks_in self.new.tasks ≡ tasks_in self.old.tasks ++ Sync ∷ [] }
        ensures same { IsTrue result → self.old.tasks.is_synced ≡ true
            → tasks_in self.new.tasks ≡ tasks_in self.old.tasks }
        ensures is_synced { IsTrue result → self.new.tasks.is_synced ≡ true }
        ensures refused { result ≡ false → self.new ≡ self.old }
        ensures seen { (file : List ℕ) → seen_in file self.new.tasks ≡ seen_in file self.old.tasks }
        ensures within { (file : List ℕ) → AreWithin file (tasks_in self.old.tasks)
            → AreWithin file (tasks_in self.new.tasks) }
        ensures kept { self.new ≡ record self.old { tasks = self.new.tasks } }
    {
        if self.failed {
            return false;
        }
        self.tasks.sync();
        true
    }
}
