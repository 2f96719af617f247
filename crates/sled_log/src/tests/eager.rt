// A log that makes stable what it may at every call, refused calls and readings included. It shows that the trait
// promises no more than such a log can keep.

ghost use Rattle.std.specs.Prelude.{⊤, ◌≡◌, ◌+◌, ◌≤◌, pos, [], true, false, length};
ghost use Rattle.sled_log.specs.Events.{is_open};
ghost use Rattle.sled_log.specs.Inside.Items.{left_now, left_earlier, stable_left};
ghost use Rattle.sled_log.specs.Limits.{head_size, size_limit};
ghost use Rattle.sled_log.specs.MemLog.State.{kept_in, state_of, clock_of, might_have_left, counts_of, size_of, stable_size_of, moves_of, due_of};
ghost use Rattle.sled_log.specs.Inside.MovesLaws.{due_within};
ghost use Rattle.sled_log.specs.Inside.Memory.{pending_size_of};
ghost use Rattle.sled_log.specs.Messages.{effect_of, effect_of_entry};
ghost use Rattle.sled_log.specs.LogState.{now, Adds, IsLeft, CrashesSinceLeave, unplaced_state};

use crate::{Log, LogError, MemLog, PageState};
use sled_base::{BlobPointer, DiskPtr, LogOffset, Lsn, MessageKind, PageId};
use std::alloc::Global;

// A log in memory in which nothing is pending but an open batch.
#[derive(Drop)]
pub(super) struct EagerLog {
    log: MemLog,
    ghost eager: { is_open (state_of log).pending ≡ false → (state_of log).pending ≡ [] },
}

impl EagerLog {
    // An empty log.
    pub(super) fn new(alloc: Global) -> EagerLog
        ensures { state_of result.log ≡ record { stable = []; pending = []; usable = true } }
    {
        EagerLog {
            log: MemLog::new(alloc, 512, 16),
        }
    }
}

// Makes all that is pending stable, unless a batch is open.
fn settle(log: &mut MemLog)
    ensures adds { Adds effect_of_entry (state_of log.old) [] (state_of log.new) }
    ensures stop { CrashesSinceLeave clock_of might_have_left log.old log.new
        (IsLeft effect_of (unplaced_state (state_of log.old)) []) }
    ensures counts { counts_of log.new ≡ counts_of log.old }
    ensures size { size_of log.new ≡ size_of log.old }
    ensures stable { is_open (state_of log.new).pending ≡ false → (state_of log.new).pending ≡ [] }
{
    if !log.batch_open() {
        let _ = log.make_stable();
    }
}

impl Log for EagerLog {
    ghost tells = { ⊤ };

    ghost state = { λ log. state_of log.log };

    ghost moment = { λ log. clock_of log.log };

    ghost left_since = { λ log t pages. might_have_left log.log t pages };

    ghost counts = { λ log. counts_of log.log };

    ghost bytes = { λ log. size_of log.log };

    ghost stable_bytes = { λ log. pos (stable_size_of log.log) };

    ghost to_write = { λ log. pending_size_of log.log };

    ghost is_full = { λ log n. size_limit ≤ size_of log.log + head_size + n };

    ghost is_full_for_batch = { λ _. ⊥ };

    ghost due = { λ log. due_of log.log };

    ghost due_is_held = { λ log pid place told usable is. due_within (length (now effect_of_entry (state_of log.log))) log.log.clean_every (moves_of log.log) pid place is };

    ghost keeps_stable = { λ log told usable. stable_left log.log.clock (kept_in log.log) };

    ghost only_now = { λ log pages told usable left. left_now log.log.clock (kept_in log.log) pages left };

    ghost since_earlier = { λ log t u pages told le left. left_earlier log.log.clock (kept_in log.log) t u pages le left };

    fn append(
        &mut self,
        kind: MessageKind,
        pid: PageId,
        payload: &[u8],
    ) -> Result<(Lsn, DiskPtr, u64), LogError> {
        let said = self.log.append(kind, pid, payload);
        settle(&mut self.log);
        said
    }

    fn read(
        &mut self,
        pid: PageId,
        lsn: Lsn,
        pointer: DiskPtr,
    ) -> Result<(MessageKind, Vec<u8>), LogError> {
        let found = self.log.read(pid, lsn, pointer);
        settle(&mut self.log);
        found
    }

    fn make_stable(&mut self) -> Result<usize, LogError> {
        self.log.make_stable()
    }

    fn pin(&mut self) -> Result<(), LogError> {
        let pinned = self.log.pin();
        settle(&mut self.log);
        pinned
    }

    fn seal(&mut self) -> Result<(), LogError> {
        let sealed = self.log.seal();
        settle(&mut self.log);
        sealed
    }

    fn cancel(&mut self) -> Result<(), LogError> {
        let cancelled = self.log.cancel();
        settle(&mut self.log);
        cancelled
    }

    fn to_move(&mut self) -> Option<(PageId, LogOffset)> {
        self.log.to_move()
    }

    fn rewrite_blob_pointer(
        &mut self,
        pid: PageId,
        blob: BlobPointer,
    ) -> Result<(Lsn, DiskPtr, u64), LogError> {
        let said = self.log.rewrite_blob_pointer(pid, blob);
        settle(&mut self.log);
        said
    }

    fn recover(&mut self) -> Result<Vec<PageState>, LogError> {
        let pages = self.log.recover();
        settle(&mut self.log);
        pages
    }

    fn batch_open(&self) -> bool {
        self.log.batch_open()
    }

    fn stable_offset(&self) -> Lsn {
        self.log.stable_offset()
    }

    fn size(&self) -> u64 {
        self.log.size()
    }

    fn reads(&self) -> u64 {
        self.log.reads()
    }

    fn failed_reads(&self) -> u64 {
        self.log.failed_reads()
    }

    fn write_faults(&self) -> u64 {
        self.log.write_faults()
    }
}
