// A log with a buffer: a crash leaves just what was made stable, and nothing of what is pending. The trait asks no more.

ghost use Rattle.std.proofs.Common.{refl, ◌∙◌, ap, le_trans};
ghost use Rattle.std.proofs.Math.Nat.{le_refl, le_antisymm};
ghost use Rattle.std.specs.Prelude.{⊤, ◌≡◌, ℕ, ◌+◌, ◌≤◌, pos, [], true, length};
ghost use Rattle.sled_log.specs.Inside.Laws.{IsFair-none};
ghost use Rattle.sled_log.specs.Limits.{head_size, size_limit};
ghost use Rattle.sled_log.specs.MemLog.State.{state_of, clock_of, counts_of, size_of, stable_size_of, moves_of, due_of};
ghost use Rattle.sled_log.specs.Inside.MovesLaws.{due_within};
ghost use Rattle.sled_log.specs.Messages.{effect_of_entry};
ghost use Rattle.sled_log.specs.Inside.Memory.{was_at, pending_size_of};
ghost use Rattle.sled_log.specs.LogState.{now, unplaced_state};

use super::*;
use sled_base::{BlobPointer, LogOffset, PageId};

// A log that holds what is pending in a buffer alone.
#[derive(Drop)]
pub(super) struct BufferedLog {
    log: MemLog,
}

impl BufferedLog {
    // An empty log.
    pub(super) fn new(alloc: Global) -> BufferedLog
        ensures { state_of result.log ≡ record { stable = []; pending = []; usable = true } }
    {
        BufferedLog {
            log: MemLog::new(alloc, 512, 16),
        }
    }
}

impl Log for BufferedLog {
    ghost tells = { ⊤ };

    ghost state = { λ log. state_of log.log };

    ghost moment = { λ log. clock_of log.log };

    ghost left_since = { λ log t pages. (at : ℕ) × (t ≤ at) × (at ≤ clock_of log.log) × (pages ≡ (unplaced_state (was_at at log.log)).stable) };

    ghost counts = { λ log. counts_of log.log };

    ghost bytes = { λ log. size_of log.log };

    ghost stable_bytes = { λ log. pos (stable_size_of log.log) };

    ghost to_write = { λ log. pending_size_of log.log };

    ghost is_full = { λ log n. size_limit ≤ size_of log.log + head_size + n };

    ghost is_full_for_batch = { λ _. ⊥ };

    ghost due = { λ log. due_of log.log };

    ghost due_is_held = { λ log pid place told usable is. due_within (length (now effect_of_entry (state_of log.log))) log.log.clean_every (moves_of log.log) pid place is };

    ghost keeps_stable = { λ log told usable. (clock_of log.log, le_refl (clock_of log.log), le_refl (clock_of log.log), refl) };

    ghost only_now = { λ log pages told usable left. record { came = []; beginning = ([], refl); cut = 0; fair = IsFair-none _; is = left.3 ∙ ap (λ moment. (unplaced_state (was_at moment log.log)).stable) (le_antisymm left.2 left.1) } };

    ghost since_earlier = { λ log t u pages told le left. (left.0, le_trans le left.1, left.2, left.3) };

    fn append(
        &mut self,
        kind: MessageKind,
        pid: PageId,
        payload: &[u8],
    ) -> Result<(Lsn, DiskPtr, u64), LogError> {
        self.log.append(kind, pid, payload)
    }

    fn read(
        &mut self,
        pid: PageId,
        lsn: Lsn,
        pointer: DiskPtr,
    ) -> Result<(MessageKind, Vec<u8>), LogError> {
        self.log.read(pid, lsn, pointer)
    }

    fn make_stable(&mut self) -> Result<usize, LogError> {
        self.log.make_stable()
    }

    fn pin(&mut self) -> Result<(), LogError> {
        self.log.pin()
    }

    fn seal(&mut self) -> Result<(), LogError> {
        self.log.seal()
    }

    fn cancel(&mut self) -> Result<(), LogError> {
        self.log.cancel()
    }

    fn to_move(&mut self) -> Option<(PageId, LogOffset)> {
        self.log.to_move()
    }

    fn rewrite_blob_pointer(
        &mut self,
        pid: PageId,
        blob: BlobPointer,
    ) -> Result<(Lsn, DiskPtr, u64), LogError> {
        self.log.rewrite_blob_pointer(pid, blob)
    }

    fn recover(&mut self) -> Result<Vec<PageState>, LogError> {
        self.log.recover()
    }

    fn batch_open(&self) -> bool {
        self.log.batch_open()
    }

    fn stable_offset(&self) -> Lsn {
        self.log.stable_offset()
    }

    fn size(&self) -> u64 {
        self.log.size()
    }

    fn reads(&self) -> u64 {
        self.log.reads()
    }

    fn failed_reads(&self) -> u64 {
        self.log.failed_reads()
    }

    fn write_faults(&self) -> u64 {
        self.log.write_faults()
    }
}
