//! A log in memory of which one read or one write fails, or that is full, for good or for one message.

ghost use Rattle.std.specs.Prelude.{⊤, ◌≡◌, ◌==◌, pos, true, length};
ghost use Rattle.sled_log.specs.Calls.{one_more};
ghost use Rattle.sled_log.specs.Inside.Items.{left_now, left_earlier, stable_left};
ghost use Rattle.sled_log.specs.MemLog.State.{kept_in, state_of, clock_of, might_have_left, size_of, stable_size_of, moves_of, due_of};
ghost use Rattle.sled_log.specs.Inside.MovesLaws.{due_within};
ghost use Rattle.sled_log.specs.LogState.{now};
ghost use Rattle.sled_log.specs.Messages.{effect_of_entry};
ghost use Rattle.sled_log.specs.Inside.Memory.{pending_size_of};

use sled_base::{BlobPointer, DiskPtr, LogOffset, Lsn, MessageKind, PageId, PageState};
use sled_log::{Log, LogError, MemLog};

/// Which read or write of a log fails, or which message finds it full, each counted from 1, or how many bytes the log may have.
#[derive(Clone, Copy)]
pub enum Trouble {
    Never,
    Read(u64),
    Write(u64),
    Full(u64),
    Room(u64),
}

/// A log in memory that fails at given calls. Of its reads only the one with a given number fails, and of its writes only the one with
/// another number, each counted from 1. A write that fails writes nothing. The log refuses each message that would make it larger than its
/// room, and the one with a third number.
#[derive(Drop)]
pub struct FailingLog {
    log: MemLog,
    fails_to_read: u64,
    fails_to_write: u64,
    room: u64,
    full_at: u64,
    reads: u64,
    writes: u64,
    appends: u64,
    failed: u64,
    faults: u64,
}

/// Adds one to a count, unless it is the greatest.
pub fn one_more(count: u64) -> u64
    ensures { result ≡ one_more count }
{
    if count == u64::MAX { count } else { count + 1 }
}

// Counts one more, and says whether it has this number.
fn is_next(count: &mut u64, number: u64) -> bool
    ensures { count.new ≡ one_more count.old }
{
    *count = one_more(*count);
    *count == number
}

impl FailingLog {
    /// Makes a log with this trouble, before its first call.
    pub fn new(log: MemLog, trouble: &Trouble) -> FailingLog
        ensures usable { (⟦<FailingLog as Log>⟧.state result).usable ≡ true }
        ensures stable { (⟦<FailingLog as Log>⟧.state result).stable ≡ (state_of log).stable }
        ensures pending { (⟦<FailingLog as Log>⟧.state result).pending ≡ (state_of log).pending }
    {
        let (fails_to_read, fails_to_write, full_at, room) = match *trouble {
            Trouble::Never => (0, 0, 0, u64::MAX),
            Trouble::Read(number) => (number, 0, 0, u64::MAX),
            Trouble::Write(number) => (0, number, 0, u64::MAX),
            Trouble::Full(number) => (0, 0, number, u64::MAX),
            Trouble::Room(bytes) => (0, 0, 0, bytes),
        };
        FailingLog {
            log,
            fails_to_read,
            fails_to_write,
            room,
            full_at,
            reads: 0,
            writes: 0,
            appends: 0,
            failed: 0,
            faults: 0,
        }
    }

    /// Returns the log in memory.
    pub fn into_log(self) -> MemLog {
        self.log
    }
}

impl Log for FailingLog {
    ghost tells = { ⊤ };

    ghost state = { λ log. record { stable = (state_of log.log).stable; pending = (state_of log.log).pending; usable = log.faults == 0 } };

    ghost moment = { λ log. clock_of log.log };

    ghost left_since = { λ log t pages. might_have_left log.log t pages };

    ghost counts = { λ log. record { reads = log.reads; failed_reads = log.failed; write_faults = log.faults } };

    ghost bytes = { λ log. size_of log.log };

    ghost stable_bytes = { λ log. pos (stable_size_of log.log) };

    ghost to_write = { λ log. pending_size_of log.log };

    ghost is_full = { λ _ _. ⊤ };

    ghost is_full_for_batch = { λ _. ⊥ };

    ghost due = { λ log. due_of log.log };

    ghost due_is_held = { λ log pid place told usable is. due_within (length (now effect_of_entry (state_of log.log))) log.log.clean_every (moves_of log.log) pid place is };

    ghost keeps_stable = { λ log told usable. stable_left log.log.clock (kept_in log.log) };

    ghost only_now = { λ log pages told usable left. (let l = left_now log.log.clock (kept_in log.log) pages left in record { came = l.came; beginning = l.beginning; cut = l.cut; fair = l.fair; is = l.is }) };

    ghost since_earlier = { λ log t u pages told le left. left_earlier log.log.clock (kept_in log.log) t u pages le left };

    fn append(
        &mut self,
        kind: MessageKind,
        pid: PageId,
        payload: &[u8],
    ) -> Result<(Lsn, DiskPtr, u64), LogError> {
        let added = (payload.len() as u64).saturating_add(17);
        let is_refused = is_next(&mut self.appends, self.full_at);
        if is_refused || self.log.size().saturating_add(added) > self.room {
            return Err(LogError::Full);
        }
        if is_next(&mut self.writes, self.fails_to_write) {
            self.faults = one_more(self.faults);
            return Err(LogError::WriteFault);
        }
        self.log.append(kind, pid, payload)
    }

    fn read(
        &mut self,
        pid: PageId,
        lsn: Lsn,
        pointer: DiskPtr,
    ) -> Result<(MessageKind, Vec<u8>), LogError> {
        if is_next(&mut self.reads, self.fails_to_read) {
            self.failed = one_more(self.failed);
            return Err(LogError::ReadFault);
        }
        self.log.read(pid, lsn, pointer)
    }

    fn make_stable(&mut self) -> Result<usize, LogError> {
        if is_next(&mut self.writes, self.fails_to_write) {
            self.faults = one_more(self.faults);
            return Err(LogError::WriteFault);
        }
        self.log.make_stable()
    }

    fn pin(&mut self) -> Result<(), LogError> {
        if is_next(&mut self.writes, self.fails_to_write) {
            self.faults = one_more(self.faults);
            return Err(LogError::WriteFault);
        }
        self.log.pin()
    }

    fn seal(&mut self) -> Result<(), LogError> {
        if is_next(&mut self.writes, self.fails_to_write) {
            self.faults = one_more(self.faults);
            return Err(LogError::WriteFault);
        }
        self.log.seal()
    }

    fn cancel(&mut self) -> Result<(), LogError> {
        if is_next(&mut self.writes, self.fails_to_write) {
            self.faults = one_more(self.faults);
            return Err(LogError::WriteFault);
        }
        self.log.cancel()
    }

    fn to_move(&mut self) -> Option<(PageId, LogOffset)> {
        self.log.to_move()
    }

    fn rewrite_blob_pointer(
        &mut self,
        pid: PageId,
        blob: BlobPointer,
    ) -> Result<(Lsn, DiskPtr, u64), LogError> {
        let is_refused = is_next(&mut self.appends, self.full_at);
        if is_refused || self.log.size().saturating_add(17) > self.room {
            return Err(LogError::Full);
        }
        if is_next(&mut self.writes, self.fails_to_write) {
            self.faults = one_more(self.faults);
            return Err(LogError::WriteFault);
        }
        self.log.rewrite_blob_pointer(pid, blob)
    }

    fn recover(&mut self) -> Result<Vec<PageState>, LogError> {
        self.log.recover()
    }

    fn batch_open(&self) -> bool {
        self.log.batch_open()
    }

    fn stable_offset(&self) -> Lsn {
        self.log.stable_offset()
    }

    fn size(&self) -> u64 {
        self.log.size()
    }

    fn reads(&self) -> u64 {
        self.reads
    }

    fn failed_reads(&self) -> u64 {
        self.failed
    }

    fn write_faults(&self) -> u64 {
        self.faults
    }
}
