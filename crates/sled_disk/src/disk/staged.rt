//! A disk whose caller does the reading and writing.

ghost use Rattle.std.specs.Prelude.{◌≡◌, ◌≤◌, ◌<◌, ◌+◌, ◌^◌, ◌⊎◌, ◌++◌, ℕ, List, [], ◌∷◌, Some, false, true, length, take, drop, max, IfOk, IfErr, IfSome, IfNone, OnOk, OnErr, IsOk};
ghost use Rattle.sled_log.specs.Calls.{HasCause, one_more};
ghost use Rattle.sled_disk.specs.CallersFile.{IsSettled, bytewise, held_after};
ghost use Rattle.sled_disk.specs.CallersFileLaws.{bytes-tasks, leaves-tasks};
ghost use Rattle.sled_disk.specs.StagedReads.{StandOver, seen_in};
ghost use Rattle.sled_disk.specs.StagedReadsLaws.{stand_over-prop};
ghost use Rattle.sled_disk.specs.Journal.{after_calls, MayLeave, WasLeft};
ghost use Rattle.sled_disk.specs.JournalLaws.{left_by_now, only_by_now, left_earlier};
ghost use Rattle.sled_disk.specs.Tasks.{tasks_in};
ghost use Rattle.sled_log.specs.declared.log.LogError.TheVariants.{Memory, ReadFault, WriteFault};

use super::Disk;
use super::callers_file::{CallersFile, UnseenFile};
use super::journal::count;
pub use doing::do_task;
use sled_log::LogError;
use stage::Stage;
use std::alloc::{AllocError, Global};
pub use tasks::Task;

mod doing;
mod pieces;
mod stage;
mod tasks;

/// A disk that reads and writes nothing itself. Its caller does both, between the calls of the log or cache over the disk.
///
/// Writes and syncs are queued, in order. The caller fetches them with `next_task` and does them before it relies on the result of a call.
/// A sync is not queued if nothing was written since the last one. A read returns bytes that were handed in; otherwise it fails with
/// ReadFault, and `needs` returns their place and number. The caller then does all queued tasks, reads those bytes, hands them in with
/// `hand_in`, and repeats the call. Once it has a result, it drops the bytes with `forget`. If a task fails, it calls `fail`.
///
/// The disk tells its bytes if the caller's file does, to which each task is applied when it is handed out (`CallersFile`). A read then
/// returns what the file will hold once all queued tasks are done, and a crash leaves what it may leave of that file. Over an `UnseenFile`
/// this is the caller's responsibility and not part of the contract: as over a file of the system, a log then only knows why a call fails,
/// and the counts. The length is the one given when the disk was made, or more after writes past it.
///
/// `make_room` allocates memory for the next four writes, and keeps it for later ones. A write without reserved room allocates its own. If
/// that fails, it returns WriteFault, none of it is queued, and the disk remains usable. A sync allocates nothing.
#[derive(Drop)]
pub struct StagedDisk<F: CallersFile = UnseenFile> {
    file: F,
    stage: Stage,
    len: u64,
    reads: u64,
    failed_reads: u64,
    write_faults: u64,
    ghost over: { F.tells → StandOver (held_after (F.first file) (F.done file)) stage len } by { stand_over-prop F.tells (held_after (F.first file) (F.done file)) stage len },
    ghost settled: { F.tells → stage.tasks.is_synced ≡ true → IsSettled (after_calls (F.first file) (F.done file ++ bytewise (tasks_in stage.tasks))) },
}

impl StagedDisk<UnseenFile> {
    ghost use Rattle.sled_disk.specs.Staged.{IsBegun};

    /// Returns a staged disk over an `UnseenFile` of `len` bytes, as `over` does.
    pub fn new(alloc: Global, len: u64) -> StagedDisk<UnseenFile>
        ensures { IsBegun len result }
    {
        StagedDisk::over(alloc, UnseenFile, len)
    }
}

impl<F: CallersFile> StagedDisk<F> {
    ghost use Rattle.sled_disk.specs.StagedReads.{AddsTask, StandsAt};
    ghost use Rattle.sled_disk.specs.Staged.{counts_of, failed, holds, Fails, Forgets, HandsOut, HandsOver, IsBegun, IsOver, StaysOver, StaysTheSame, StillWaits, TakesIn};

    /// Returns a staged disk over the caller's file, which has `len` bytes. It allocates nothing. What the file holds is not known to be
    /// durable, so the first sync is queued even if nothing was written before it.
    pub fn over(alloc: Global, file: F, len: u64) -> StagedDisk<F>
        requires { F.tells → len ≡ length (held_after (F.first file) (F.done file)) }
        ensures begun { IsBegun len result }
        ensures file { result.file ≡ file }
    {
        StagedDisk {
            file,
            stage: Stage::new(alloc),
            len,
            reads: 0,
            failed_reads: 0,
            write_faults: 0,
        }
    }

    /// Returns a reference to the caller's file.
    pub fn file(&self) -> &F
        ensures { result.now ≡ self.now.file }
    {
        &self.file
    }

    /// Closes the disk and returns the caller's file. Tasks that are still queued are lost.
    pub fn into_file(self) -> F
        ensures { result ≡ self.file }
    {
        self.file
    }

    /// Returns the next task for the caller, or `None` if none is queued, and after `fail`. The task counts as done from then on: the
    /// caller does it before it hands in bytes.
    ///
    /// The bytes of a write are put at the front of `into`, as many as fit, and the rest follows as another write. If `into` is empty, a
    /// write is returned with no bytes, and stays queued. If the caller's file fails at the task, the result is `None` too, and the disk is
    /// as after `fail`.
    pub fn next_task(&mut self, into: &mut [u8]) -> Option<Task>
        ensures next { HandsOut result into.new self.old self.new }
        ensures over { (file : List ℕ) → IsOver file self.old
            → IfSome result (λ task. HandsOver file task into.new self.old self.new) }
        ensures told { F.tells → IfSome result (λ task. AddsTask (holds self.old) task into.new
            (F.done self.old.file) (F.done self.new.file)) }
        ensures untold { F.tells → IfNone result (F.done self.new.file ≡ F.done self.old.file) }
        ensures first { F.tells → F.first self.new.file ≡ F.first self.old.file }
        ensures rests { StaysTheSame self.old self.new }
        ensures counts { counts_of self.new ≡ counts_of self.old }
    {
        self.stage.next(&mut self.file, into)
    }

    /// Returns the place and the number of the bytes that were needed by the last read whose bytes had not been handed in. It is `None`
    /// again once bytes were handed in and kept, after `forget`, and after a read outside of the file, for which no bytes would help.
    pub fn needs(&self) -> Option<(u64, usize)>
        ensures { result ≡ self.now.stage.needs }
    {
        self.stage.needs
    }

    /// Hands in bytes of the file, from place `at` on, as they are once all tasks that were handed out are done. The disk keeps a copy
    /// until `forget`, or until one of these bytes is written over. A read may span several pieces that adjoin or overlap.
    ///
    /// Bytes past the file's length are ignored. While writes are queued, nothing is kept of a piece that overlaps the range from the
    /// lowest to the highest place written since the queue was last empty, because a queued write may change it: the caller does all queued
    /// tasks first.
    ///
    /// AllocError: the allocation of the copy failed, and nothing changed.
    pub fn hand_in(&mut self, at: u64, bytes: &[u8]) -> Result<(), AllocError>
        requires word { F.tells → StandsAt at bytes.now (holds self.old) }
        ensures taken { TakesIn at bytes.now self.old self.new }
        ensures waits { StillWaits self.old self.new }
        ensures over { (file : List ℕ) → StandsAt at bytes.now file → IsOver file self.old
            → StaysOver file self.old self.new }
        ensures rests { StaysTheSame self.old self.new }
    {
        let behind = self.len.saturating_sub(at);
        let len = behind.min(bytes.len() as u64) as usize;
        self.stage.take_in(at, &bytes[..len])
    }

    /// Drops the bytes that were handed in, and resets `needs` to `None`.
    pub fn forget(&mut self)
        ensures forgets { Forgets self.old self.new }
        ensures waits { StillWaits self.old self.new }
        ensures over { (file : List ℕ) → IsOver file self.old → StaysOver file self.old self.new }
        ensures rests { StaysTheSame self.old self.new }
    {
        self.stage.forget();
    }

    /// Reports that a write or a sync of the caller failed. From then on no task is handed out, and each write and sync returns WriteFault.
    /// To find what is durable, open the file again over a new disk.
    ///
    /// The length still counts what was written and then lost. Reads still work, except of bytes that `hand_in` does not keep because
    /// writes were still queued.
    pub fn fail(&mut self)
        ensures fails { Fails self.old self.new }
        ensures rests { StaysTheSame self.old self.new }
    {
        self.stage.fail();
    }

    /// Returns whether a write or a sync of the caller failed.
    pub fn has_failed(&self) -> bool
        ensures { result ≡ failed self.now }
    {
        self.stage.failed
    }
}

impl<F: CallersFile> Disk for StagedDisk<F> {
    ghost use Rattle.sled_disk.specs.Disk.{Elapses, Follows, LeavesNoMore, Only, Torn, overlaid};
    ghost use Rattle.sled_disk.specs.Journal.{Write, Sync};
    ghost use Rattle.sled_disk.specs.Staged.{clock_of, counts_of, failed, may_leave_of, might_have_left, seen_of, synced, waiting, IsOver, ReadsOver, StaysOver, StillWaits, WritesByte, WritesOver};

    ghost tells = { F.tells };

    ghost seen = { λ disk. seen_in (held_after (F.first disk.file) (F.done disk.file)) disk.stage.tasks };

    ghost may_leave = { λ disk left. MayLeave (after_calls (F.first disk.file) (F.done disk.file ++ bytewise (tasks_in disk.stage.tasks))) left };

    ghost moment = { λ disk. length (F.done disk.file ++ bytewise (tasks_in disk.stage.tasks)) };

    ghost left_since = { λ disk t left. WasLeft (F.first disk.file) (F.done disk.file ++ bytewise (tasks_in disk.stage.tasks)) t left };

    ghost counts = { λ disk. record { reads = disk.reads; failed_reads = disk.failed_reads; write_faults = disk.write_faults } };

    ghost are_bytes = { λ disk i told. bytes-tasks (held_after (F.first disk.file) (F.done disk.file)) disk.stage.tasks.writes.items disk.stage.tasks.bytes.items disk.stage.tasks.handed_out disk.stage.tasks.sync_last (λ k. F.are_bytes disk.file k told) disk.stage.tasks.are_bytes i };

    ghost seen_now = { λ disk told. leaves-tasks (F.first disk.file) (F.done disk.file) (tasks_in disk.stage.tasks) (disk.over told).within (F.seen_now disk.file told) };

    ghost left_now = { λ disk left told may. left_by_now (F.first disk.file) (F.done disk.file ++ bytewise (tasks_in disk.stage.tasks)) left may };

    ghost only_now = { λ disk left told was. only_by_now (F.first disk.file) (F.done disk.file ++ bytewise (tasks_in disk.stage.tasks)) left was };

    ghost since_earlier = { λ disk t u left told le was. left_earlier (F.first disk.file) (F.done disk.file ++ bytewise (tasks_in disk.stage.tasks)) t u left le was };

    // It is kept, so it never fails.
    fn len(&mut self) -> Result<u64, LogError>
        ensures tells_len { F.tells → IfOk result (λ len. len ≡ length (seen_of self.old)) }
        ensures seen { F.tells → seen_of self.new ≡ seen_of self.old }
        ensures stop { F.tells → LeavesNoMore (may_leave_of self.old) (may_leave_of self.new) }
        ensures time { F.tells → Elapses clock_of might_have_left may_leave_of self.old self.new }
        ensures ok { IsOk result }
        ensures len { IfOk result (λ len. len ≡ self.old.len) }
        ensures kept { self.new.len ≡ self.old.len }
        ensures only { IfErr result (λ e. e ≡ ReadFault) }
        ensures cause { HasCause (counts_of self.old) (counts_of self.new) result }
        ensures reads { self.new.reads ≡ one_more self.old.reads }
        ensures waits { StillWaits self.old self.new }
        ensures over { (file : List ℕ) → IsOver file self.old → StaysOver file self.old self.new }
    {
        count(&mut self.reads);
        Ok(self.len)
    }

    fn read_at(&mut self, at: u64, into: &mut [u8]) -> Result<(), LogError>
        ensures inside { F.tells → OnOk result (at + length into.old ≤ length (seen_of self.old)) }
        ensures told { F.tells → OnOk result (into.new ≡ take (length into.old) (drop at (seen_of self.old))) }
        ensures seen { F.tells → seen_of self.new ≡ seen_of self.old }
        ensures stop { F.tells → LeavesNoMore (may_leave_of self.old) (may_leave_of self.new) }
        ensures time { F.tells → Elapses clock_of might_have_left may_leave_of self.old self.new }
        ensures within { OnOk result (at + length into.old ≤ self.old.len) }
        ensures small { OnOk result (at + length into.old < 2 ^ 64) }
        ensures length { length into.new ≡ length into.old }
        ensures kept { self.new.len ≡ self.old.len }
        ensures only { IfErr result (λ e. e ≡ ReadFault) }
        ensures cause { HasCause (counts_of self.old) (counts_of self.new) result }
        ensures reads { self.new.reads ≡ one_more self.old.reads }
        ensures waits { StillWaits self.old self.new }
        ensures over { (file : List ℕ) → IsOver file self.old → StaysOver file self.old self.new }
        ensures bytes { (file : List ℕ) → IsOver file self.old
            → OnOk result (ReadsOver file self.old at into.new) }
        ensures needed { OnErr result (at + length into.old ≤ self.old.len
            → self.new.stage.needs ≡ Some (at, length into.old)) }
    {
        count(&mut self.reads);
        let is_within = at <= self.len && into.len() as u64 <= self.len - at;
        if !is_within {
            self.stage.needs = None;
        } else if self.stage.read(at, into) {
            return Ok(());
        }
        count(&mut self.failed_reads);
        Err(LogError::ReadFault)
    }

    fn make_room(&mut self, len: usize) -> Result<(), LogError>
        ensures seen { F.tells → seen_of self.new ≡ seen_of self.old }
        ensures stop { F.tells → LeavesNoMore (may_leave_of self.old) (may_leave_of self.new) }
        ensures time { F.tells → Elapses clock_of might_have_left may_leave_of self.old self.new }
        ensures moment { F.tells → clock_of self.new ≡ clock_of self.old }
        ensures kept { self.new.len ≡ self.old.len }
        ensures only { IfErr result (λ e. e ≡ Memory) }
        ensures counts { counts_of self.new ≡ counts_of self.old }
        ensures waits { StillWaits self.old self.new }
        ensures over { (file : List ℕ) → IsOver file self.old → StaysOver file self.old self.new }
    {
        self.stage.tasks.make_room(len)?;
        Ok(())
    }

    // Where no room was made and there is no memory, it fails, and nothing of it waits.
    fn write_at(&mut self, at: u64, bytes: &[u8]) -> Result<(), LogError>
        ensures inside { F.tells → OnOk result (at ≤ length (seen_of self.old)) }
        ensures written { F.tells → OnOk result (seen_of self.new ≡ overlaid (seen_of self.old) at bytes.now) }
        ensures stop { F.tells → Follows (Torn at (length bytes.now)) (may_leave_of self.old) (may_leave_of self.new) }
        ensures time { F.tells → Elapses clock_of might_have_left may_leave_of self.old self.new }
        ensures within { OnOk result (at ≤ self.old.len) }
        ensures fits { OnOk result (at + length bytes.now < 2 ^ 64) }
        ensures len { OnOk result (self.new.len ≡ max self.old.len (at + length bytes.now)) }
        ensures kept { OnErr result (self.new.len ≡ self.old.len) }
        ensures only { IfErr result (λ e. e ≡ WriteFault) }
        ensures cause { HasCause (counts_of self.old) (counts_of self.new) result }
        ensures reads { self.new.reads ≡ self.old.reads }
        ensures works { OnOk result (failed self.old ≡ false) }
        ensures added { OnOk result (0 < length bytes.now
            → waiting self.new ≡ waiting self.old ++ Write at bytes.now ∷ []) }
        ensures unsynced { OnOk result (0 < length bytes.now → synced self.new ≡ false) }
        ensures empty { length bytes.now ≡ 0 → StillWaits self.old self.new }
        ensures waits { OnErr result (StillWaits self.old self.new) }
        ensures still { failed self.new ≡ failed self.old }
        ensures over { (file : List ℕ) → IsOver file self.old
            → OnOk result (WritesOver file at bytes.now self.old self.new) }
        ensures stays { (file : List ℕ) → IsOver file self.old
            → OnErr result (StaysOver file self.old self.new) }
    {
        let len = bytes.len() as u64;
        let is_within = at <= self.len && len <= u64::MAX - at;
        if is_within && self.stage.write(at, bytes) {
            self.len = self.len.max(at + len);
            return Ok(());
        }
        count(&mut self.write_faults);
        Err(LogError::WriteFault)
    }

    // The byte is one that was handed in, and its write waits.
    fn write_again(&mut self, at: u64) -> Result<(), LogError>
        ensures seen { F.tells → seen_of self.new ≡ seen_of self.old }
        ensures stop { F.tells → LeavesNoMore (may_leave_of self.old) (may_leave_of self.new) }
        ensures time { F.tells → Elapses clock_of might_have_left may_leave_of self.old self.new }
        ensures kept { self.new.len ≡ self.old.len }
        ensures only { IfErr result (λ e. (e ≡ ReadFault) ⊎ (e ≡ WriteFault)) }
        ensures cause { HasCause (counts_of self.old) (counts_of self.new) result }
        ensures reads { self.new.reads ≡ one_more self.old.reads }
        ensures works { OnOk result (failed self.old ≡ false) }
        ensures again { OnOk result (WritesByte at self.old self.new) }
        ensures unsynced { OnOk result (synced self.new ≡ false) }
        ensures still { failed self.new ≡ failed self.old }
        ensures waits { OnErr result (StillWaits self.old self.new) }
        ensures over { (file : List ℕ) → IsOver file self.old → StaysOver file self.old self.new }
    {
        let mut byte = [0];
        self.read_at(at, &mut byte)?;
        if self.stage.write_again(at, &byte) {
            return Ok(());
        }
        count(&mut self.write_faults);
        Err(LogError::WriteFault)
    }

    fn sync(&mut self) -> Result<(), LogError>
        ensures durable { F.tells → OnOk result (Only (seen_of self.old) (may_leave_of self.new)) }
        ensures seen { F.tells → OnOk result (seen_of self.new ≡ seen_of self.old) }
        ensures stop { F.tells → LeavesNoMore (may_leave_of self.old) (may_leave_of self.new) }
        ensures time { F.tells → Elapses clock_of might_have_left may_leave_of self.old self.new }
        ensures kept { self.new.len ≡ self.old.len }
        ensures only { IfErr result (λ e. e ≡ WriteFault) }
        ensures cause { HasCause (counts_of self.old) (counts_of self.new) result }
        ensures reads { self.new.reads ≡ self.old.reads }
        ensures works { OnOk result (failed self.old ≡ false) }
        ensures added { OnOk result (synced self.old ≡ false
            → waiting self.new ≡ waiting self.old ++ Sync ∷ []) }
        ensures none_due { OnOk result
            (synced self.old ≡ true → waiting self.new ≡ waiting self.old) }
        ensures synced { OnOk result (synced self.new ≡ true) }
        ensures waits { OnErr result (StillWaits self.old self.new) }
        ensures still { failed self.new ≡ failed self.old }
        ensures over { (file : List ℕ) → IsOver file self.old → StaysOver file self.old self.new }
    {
        if self.stage.sync() {
            return Ok(());
        }
        count(&mut self.write_faults);
        Err(LogError::WriteFault)
    }

    fn reads(&self) -> u64 {
        self.reads
    }

    fn failed_reads(&self) -> u64 {
        self.failed_reads
    }

    fn write_faults(&self) -> u64 {
        self.write_faults
    }
}
