// What the caller of a staged disk has still to do: writes and syncs, in order.

ghost use Rattle.std.specs.Prelude.{◌≡◌, ◌≤◌, ◌<◌, ◌+◌, ◌^◌, ◌++◌, ℕ, [], ◌∷◌, true, false, length, vec_len, IsOk, IsTrue, IfOk, OnOk, OnErr, IfSome, IfNone};
ghost use Rattle.std.specs.List.{All, AllByRecursion, sum_by};
ghost use Rattle.sled_disk.specs.Format.{IsBytes};

use crate::disk::CallersFile;
use std::alloc::{AllocError, Global};
use std::collections::VecDeque;

/// What the caller of a `StagedDisk` does next to its file.
#[derive(Clone, Copy, PartialEq, Eq, Debug)]
pub enum Task {
    /// Write `len` bytes at place `at`. They are at the front of the buffer that was passed to `next_task`.
    Write { at: u64, len: usize },
    /// Make durable everything that was written before.
    Sync,
}

// A write that waits, whether it is of a byte that is there already, and whether a sync comes before it.
#[derive(Clone, Copy)]
struct WaitingWrite {
    at: u64,
    len: usize,
    again: bool,
    sync_before: bool,
    ghost small: { at + len < 2 ^ 64 },
    ghost alone: { again ≡ true → len ≤ 1 },
}

// The tasks that wait.
#[derive(Drop)]
pub(super) struct Tasks {
    // of the first write only what was not handed out
    writes: VecDeque<WaitingWrite>,
    // the bytes of these writes from end to end, behind so many that were handed out
    bytes: Vec<u8>,
    handed_out: usize,
    // whether a sync comes behind the last write
    sync_last: bool,
    // whether nothing was written since the last sync
    is_synced: bool,
    // all these writes lie from one place up to another
    from: u64,
    to: u64,
    ghost last: { sync_last ≡ true → is_synced ≡ true },
    ghost around: { All (λ write. (from ≤ write.at) × (write.at + write.len ≤ to)) writes.items },
    ghost are_bytes: { IsBytes bytes.items },
    ghost whole: { handed_out + sum_by (λ write. write.len) writes.items ≡ vec_len bytes },
}

impl Tasks {
    ghost use Rattle.sled_disk.specs.CallersFile.{bytewise, held_after};
    ghost use Rattle.sled_disk.specs.StagedReads.{AddsTask, AreWithin, IsThere, LeavesBetween};
    ghost use Rattle.sled_disk.specs.Journal.{Sync};
    ghost use Rattle.sled_disk.specs.Tasks.{tasks_in, write_if, HasRoom, IsHandedOut};

    // No tasks. What the file held before is not known to be durable, so a sync is one.
    pub(super) fn new(alloc: Global) -> Tasks
        ensures none { tasks_in result ≡ [] }
        ensures unsynced { result.is_synced ≡ false }
    {
        Tasks {
            writes: VecDeque::new(alloc),
            bytes: Vec::new(alloc),
            handed_out: 0,
            sync_last: false,
            is_synced: false,
            from: 0,
            to: 0,
        }
    }

    // Makes room for so many bytes, in four writes at most.
    pub(super) fn make_room(&mut self, len: usize) -> Result<(), AllocError>
        ensures same { tasks_in self.new ≡ tasks_in self.old }
        ensures is_synced { self.new.is_synced ≡ self.old.is_synced }
        ensures room { OnOk result (HasRoom self.new len 4) }
    {
        self.writes.reserve(4)?;
        self.bytes.reserve(len)
    }

    // Adds a write, or one of a byte that is there already. It takes memory only where no room was made.
    pub(super) fn write(&mut self, at: u64, bytes: &[u8], again: bool) -> Result<(), AllocError>
        requires small { at + length bytes.now < 2 ^ 64 }
        requires alone { again ≡ true → length bytes.now ≤ 1 }
        ensures added { OnOk result (0 < length bytes.now
            → tasks_in self.new ≡ tasks_in self.old ++ write_if again at bytes.now ∷ []) }
        ensures unsynced { OnOk result (0 < length bytes.now → self.new.is_synced ≡ false) }
        ensures empty { length bytes.now ≡ 0 → self.new ≡ self.old }
        ensures kept { OnErr result (tasks_in self.new ≡ tasks_in self.old) }
        ensures still { OnErr result (self.new.is_synced ≡ self.old.is_synced) }
        ensures room { (len count : ℕ) → HasRoom self.old (length bytes.now + len) (1 + count)
            → IsOk result × HasRoom self.new len count }
    {
        if bytes.is_empty() {
            return Ok(());
        }
        self.writes.reserve(1)?;
        self.bytes.extend_from_slice(bytes)?;
        let end = at + bytes.len() as u64;
        if self.writes.is_empty() {
            self.from = at;
            self.to = end;
        } else {
            self.from = self.from.min(at);
            self.to = self.to.max(end);
        }
        self.writes.push_back_reserved(WaitingWrite {
            at,
            len: bytes.len(),
            again,
            sync_before: self.sync_last,
        });
        self.sync_last = false;
        self.is_synced = false;
        Ok(())
    }

    // Adds a sync, if something was written since the last one. It takes no memory.
    pub(super) fn sync(&mut self)
        ensures added { self.old.is_synced ≡ false
            → tasks_in self.new ≡ tasks_in self.old ++ Sync ∷ [] }
        ensures same { self.old.is_synced ≡ true → tasks_in self.new ≡ tasks_in self.old }
        ensures is_synced { self.new.is_synced ≡ true }
        ensures room { (len count : ℕ) → HasRoom self.old len count → HasRoom self.new len count }
    {
        if !self.is_synced {
            self.is_synced = true;
            self.sync_last = true;
        }
    }

    // Tells a file of a write, or of one of bytes that are there already.
    fn tell<F: CallersFile>(file: &mut F, again: bool, at: u64, bytes: &[u8]) -> bool
        requires there { F.tells → again ≡ true
            → IsThere at bytes.now (held_after (F.first file.old) (F.done file.old)) }
        ensures told { F.tells → IsTrue result
            → F.done file.new ≡ F.done file.old ++ bytewise (write_if again at bytes.now ∷ []) }
        ensures kept { F.tells → result ≡ false → F.done file.new ≡ F.done file.old }
        ensures first { F.tells → F.first file.new ≡ F.first file.old }
        ensures fails { result ≡ false → F.may_fail }
    {
        if again {
            file.write_again(at, bytes)
        } else {
            file.write(at, bytes)
        }
    }

    // Hands out the first task, of a write as many bytes as the buffer has room for, and tells the file of it. An error means that the file
    // failed, and nothing was handed out.
    pub(super) fn next<F: CallersFile>(
        &mut self,
        file: &mut F,
        into: &mut [u8],
    ) -> Result<Option<Task>, ()>
        requires within { F.tells → AreWithin (held_after (F.first file.old) (F.done file.old))
            (tasks_in self.old) }
        ensures next { IfOk result (λ found. IfSome found
            (λ task. IsHandedOut task into.new (tasks_in self.old) (tasks_in self.new))) }
        ensures none { IfOk result
            (λ found. IfNone found ((tasks_in self.old ≡ []) × (self.new ≡ self.old))) }
        ensures is_synced { self.new.is_synced ≡ self.old.is_synced }
        ensures room { (len count : ℕ) → HasRoom self.old len count → HasRoom self.new len count }
        ensures told { F.tells → F.done file.new ++ bytewise (tasks_in self.new)
            ≡ F.done file.old ++ bytewise (tasks_in self.old) }
        ensures first { F.tells → F.first file.new ≡ F.first file.old }
        ensures adds { F.tells → IfOk result (λ found. IfSome found
            (λ task. AddsTask (held_after (F.first file.old) (F.done file.old)) task into.new
            (F.done file.old) (F.done file.new))) }
        ensures not_held { F.tells → IfOk result
            (λ found. IfNone found (F.done file.new ≡ F.done file.old)) }
        ensures kept { OnErr result (self.new ≡ self.old) }
        ensures still { F.tells → OnErr result (F.done file.new ≡ F.done file.old) }
        ensures fails { OnErr result F.may_fail }
    {
        let Some(mut first) = self.writes.front().copied() else {
            if !self.sync_last {
                return Ok(None);
            }
            if !file.sync() {
                return Err(());
            }
            self.sync_last = false;
            return Ok(Some(Task::Sync));
        };
        if first.sync_before {
            if !file.sync() {
                return Err(());
            }
            first.sync_before = false;
            self.writes.pop_front();
            self.writes.push_front_reserved(first);
            return Ok(Some(Task::Sync));
        }
        let (at, len) = (first.at, first.len.min(into.len()));
        into[..len].copy_from_slice(&self.bytes[self.handed_out..self.handed_out + len]);
        if !Tasks::tell(file, first.again, at, &into[..len]) {
            return Err(());
        }
        self.writes.pop_front();
        self.handed_out += len;
        if len < first.len {
            first.at += len as u64;
            first.len -= len;
            self.writes.push_front_reserved(first);
        } else if self.writes.is_empty() {
            self.bytes.clear();
            self.handed_out = 0;
        }
        Ok(Some(Task::Write { at, len }))
    }

    // Whether a write that waits may change bytes between two places.
    pub(super) fn may_change(&self, from: u64, to: u64) -> bool
        ensures { result ≡ false → AllByRecursion (LeavesBetween from to) (tasks_in self.now) }
    {
        if self.writes.is_empty() {
            return false;
        }
        from < self.to && self.from < to
    }
}
