// A log in memory of which one read and one other call fail.

ghost use Rattle.std.specs.Prelude.{⊤, ◌≡◌, ◌==◌, ◌+◌, ◌≤◌, pos, [], true, length};
ghost use Rattle.sled_log.specs.Calls.{one_more};
ghost use Rattle.sled_log.specs.Inside.Items.{left_now, left_earlier, stable_left};
ghost use Rattle.sled_log.specs.Limits.{head_size, size_limit};
ghost use Rattle.sled_log.specs.MemLog.State.{kept_in, state_of, clock_of, might_have_left, size_of, stable_size_of, moves_of, due_of};
ghost use Rattle.sled_log.specs.Inside.MovesLaws.{due_within};
ghost use Rattle.sled_log.specs.LogState.{now};
ghost use Rattle.sled_log.specs.Messages.{effect_of_entry};
ghost use Rattle.sled_log.specs.Inside.Memory.{pending_size_of};

use super::*;
use sled_base::{BlobPointer, LogOffset, PageId};

// Which calls of a log fail, each counted from 1: a read, and one of the calls that write. That one may do its work before.
#[derive(Clone, Copy)]
pub(super) struct Faults {
    pub(super) read: u64,
    pub(super) write: u64,
    pub(super) works: bool,
}

// A log in memory with such faults. The calls that write are append,
// rewrite_blob_pointer, make_stable, pin, seal and cancel.
#[derive(Drop)]
pub(super) struct FaultyLog {
    log: MemLog,
    faults: Faults,
    reads: u64,
    writes: u64,
    failed_reads: u64,
    write_faults: u64,
}

// One more, or the greatest number.
fn one_more(count: u64) -> u64
    ensures { result ≡ one_more count }
{
    if count < u64::MAX { count + 1 } else { count }
}

// Counts one more, and answers whether it has this number.
fn is_next(count: &mut u64, number: u64) -> bool
    ensures { count.new ≡ one_more count.old }
{
    *count = one_more(*count);
    *count == number
}

impl FaultyLog {
    // An empty log with these faults.
    pub(super) fn new(alloc: Global, faults: Faults) -> FaultyLog
        ensures log { state_of result.log ≡ record { stable = []; pending = []; usable = true } }
        ensures usable { result.write_faults ≡ 0 }
    {
        FaultyLog {
            log: MemLog::new(alloc, 512, 16),
            faults,
            reads: 0,
            writes: 0,
            failed_reads: 0,
            write_faults: 0,
        }
    }

    // What is there after a fault.
    pub(super) fn into_log(self) -> MemLog {
        self.log
    }
}

impl Log for FaultyLog {
    ghost tells = { ⊤ };

    ghost state = { λ log. record { stable = (state_of log.log).stable; pending = (state_of log.log).pending; usable = log.write_faults == 0 } };

    ghost moment = { λ log. clock_of log.log };

    ghost left_since = { λ log t pages. might_have_left log.log t pages };

    ghost counts = { λ log. record { reads = log.reads; failed_reads = log.failed_reads; write_faults = log.write_faults } };

    ghost bytes = { λ log. size_of log.log };

    ghost stable_bytes = { λ log. pos (stable_size_of log.log) };

    ghost to_write = { λ log. pending_size_of log.log };

    ghost is_full = { λ log n. size_limit ≤ size_of log.log + head_size + n };

    ghost is_full_for_batch = { λ _. ⊥ };

    ghost due = { λ log. due_of log.log };

    ghost due_is_held = { λ log pid place told usable is. due_within (length (now effect_of_entry (state_of log.log))) log.log.clean_every (moves_of log.log) pid place is };

    ghost keeps_stable = { λ log told usable. stable_left log.log.clock (kept_in log.log) };

    ghost only_now = { λ log pages told usable left. (let l = left_now log.log.clock (kept_in log.log) pages left in record { came = l.came; beginning = l.beginning; cut = l.cut; fair = l.fair; is = l.is }) };

    ghost since_earlier = { λ log t u pages told le left. left_earlier log.log.clock (kept_in log.log) t u pages le left };

    fn append(
        &mut self,
        kind: MessageKind,
        pid: PageId,
        payload: &[u8],
    ) -> Result<(Lsn, DiskPtr, u64), LogError> {
        let fails = is_next(&mut self.writes, self.faults.write);
        if fails && !self.faults.works {
            self.write_faults = one_more(self.write_faults);
            return Err(LogError::WriteFault);
        }
        let said = self.log.append(kind, pid, payload);
        if fails {
            self.write_faults = one_more(self.write_faults);
            return Err(LogError::WriteFault);
        }
        said
    }

    fn read(
        &mut self,
        pid: PageId,
        lsn: Lsn,
        pointer: DiskPtr,
    ) -> Result<(MessageKind, Vec<u8>), LogError> {
        if is_next(&mut self.reads, self.faults.read) {
            self.failed_reads = one_more(self.failed_reads);
            return Err(LogError::ReadFault);
        }
        self.log.read(pid, lsn, pointer)
    }

    fn make_stable(&mut self) -> Result<usize, LogError> {
        let fails = is_next(&mut self.writes, self.faults.write);
        if fails && !self.faults.works {
            self.write_faults = one_more(self.write_faults);
            return Err(LogError::WriteFault);
        }
        let wrote = self.log.make_stable();
        if fails {
            self.write_faults = one_more(self.write_faults);
            return Err(LogError::WriteFault);
        }
        wrote
    }

    fn pin(&mut self) -> Result<(), LogError> {
        let fails = is_next(&mut self.writes, self.faults.write);
        if fails && !self.faults.works {
            self.write_faults = one_more(self.write_faults);
            return Err(LogError::WriteFault);
        }
        let pinned = self.log.pin();
        if fails {
            self.write_faults = one_more(self.write_faults);
            return Err(LogError::WriteFault);
        }
        pinned
    }

    fn seal(&mut self) -> Result<(), LogError> {
        let fails = is_next(&mut self.writes, self.faults.write);
        if fails && !self.faults.works {
            self.write_faults = one_more(self.write_faults);
            return Err(LogError::WriteFault);
        }
        let sealed = self.log.seal();
        if fails {
            self.write_faults = one_more(self.write_faults);
            return Err(LogError::WriteFault);
        }
        sealed
    }

    fn cancel(&mut self) -> Result<(), LogError> {
        let fails = is_next(&mut self.writes, self.faults.write);
        if fails && !self.faults.works {
            self.write_faults = one_more(self.write_faults);
            return Err(LogError::WriteFault);
        }
        let cancelled = self.log.cancel();
        if fails {
            self.write_faults = one_more(self.write_faults);
            return Err(LogError::WriteFault);
        }
        cancelled
    }

    fn to_move(&mut self) -> Option<(PageId, LogOffset)> {
        self.log.to_move()
    }

    fn rewrite_blob_pointer(
        &mut self,
        pid: PageId,
        blob: BlobPointer,
    ) -> Result<(Lsn, DiskPtr, u64), LogError> {
        let fails = is_next(&mut self.writes, self.faults.write);
        if fails && !self.faults.works {
            self.write_faults = one_more(self.write_faults);
            return Err(LogError::WriteFault);
        }
        let said = self.log.rewrite_blob_pointer(pid, blob);
        if fails {
            self.write_faults = one_more(self.write_faults);
            return Err(LogError::WriteFault);
        }
        said
    }

    fn recover(&mut self) -> Result<Vec<PageState>, LogError> {
        self.log.recover()
    }

    fn batch_open(&self) -> bool {
        self.log.batch_open()
    }

    fn stable_offset(&self) -> Lsn {
        self.log.stable_offset()
    }

    fn size(&self) -> u64 {
        self.log.size()
    }

    fn reads(&self) -> u64 {
        self.reads
    }

    fn failed_reads(&self) -> u64 {
        self.failed_reads
    }

    fn write_faults(&self) -> u64 {
        self.write_faults
    }
}
