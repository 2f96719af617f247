// The log in memory as a log.

ghost use Rattle.std.specs.Prelude.{⊤, ◌≡◌, ℕ, ◌+◌, ◌≤◌, ◌<◌, ◌↔◌, pos, [], ◌∷◌, length, true, false, slice_index_or, Ok, IfOk, IfErr, OnOk, OnErr, IsOk, IsErrOf, IfSome, IfNone};
ghost use Rattle.std.specs.List.{All, AllByRecursion, AllZip, Any};
ghost use Rattle.sled_base.specs.declared.types.DiskPtr.TheVariants.{Blob};
ghost use Rattle.sled_log.specs.Events.{is_open};
ghost use Rattle.sled_log.specs.Calls.{ReadsOnce};
ghost use Rattle.sled_log.specs.Chains.{is_chain};
ghost use Rattle.sled_log.specs.Events.{Change, Pin, Seal, Cancel};
ghost use Rattle.sled_log.specs.Inside.Items.{left_now, left_earlier, stable_left};
ghost use Rattle.sled_log.specs.MemLog.Items.{pointer_at};
ghost use Rattle.sled_log.specs.Limits.{head_size, size_limit};
ghost use Rattle.sled_log.specs.Messages.{effect_of_entry, message, message_size, placed_entry};
ghost use Rattle.sled_log.specs.Moves.{HasBlob, message_at, moves_with, Named};
ghost use Rattle.sled_log.specs.Inside.MovesLaws.{due_within};
ghost use Rattle.sled_log.specs.Pages.{IsPageState, IsSized, IsAt, IsRead, IsReadAs};
ghost use Rattle.sled_log.specs.Payloads.{payload_in};
ghost use Rattle.sled_log.specs.LogState.{now};
ghost use Rattle.sled_log.specs.declared.log.LogError.TheVariants.{Memory, Full};

use super::MemLog;
use super::finding::{before_change, behind};
use super::item::Mark;
use super::packed::PackedMark;
use super::pages::{apply, said_at};
use crate::{Log, LogError, PageState, Payload};
use sled_base::{BlobPointer, DiskPtr, LogOffset, Lsn, MessageKind, PageId};

impl Log for MemLog {
    ghost use Rattle.sled_log.specs.MemLog.State.{kept_in, state_of, clock_of, might_have_left, counts_of, size_of, stable_size_of, settings_of, moves_of, due_of, CalledHere};
    ghost use Rattle.sled_log.specs.Inside.Memory.{pending_size_of, MovesNothing, Remembers};

    ghost tells = { ⊤ };

    ghost state = { state_of };

    ghost moment = { clock_of };

    ghost left_since = { might_have_left };

    ghost counts = { counts_of };

    ghost bytes = { size_of };

    ghost stable_bytes = { λ log. pos (stable_size_of log) };

    ghost to_write = { pending_size_of };

    ghost is_full = { λ log n. size_limit ≤ size_of log + head_size + n };

    ghost is_full_for_batch = { λ _. ⊥ };

    ghost due = { due_of };

    ghost due_is_held = { λ log pid place told usable is. due_within (length (now effect_of_entry (state_of log))) log.clean_every (moves_of log) pid place is };

    ghost keeps_stable = { λ log told usable. stable_left log.clock (kept_in log) };

    ghost only_now = { λ log pages told usable left. left_now log.clock (kept_in log) pages left };

    ghost since_earlier = { λ log t u pages told le left. left_earlier log.clock (kept_in log) t u pages le left };

    // Its place is the sum of the log sizes before it. It is Full exactly where the sum would pass the limit then.
    fn append(
        &mut self,
        kind: MessageKind,
        pid: PageId,
        payload: &[u8],
    ) -> Result<(Lsn, DiskPtr, u64), LogError>
        ensures called { CalledHere self.old self.new
            (λ said. Change pid (placed_entry (message kind payload.now) said) ∷ [])
            (Change pid (message kind payload.now) ∷ []) result }
        ensures size { IfOk result (λ said. (said.2 ≡ head_size + length payload.now)
            × (said.2 < size_limit)) }
        ensures sized { OnOk result
            (AllByRecursion IsSized (now effect_of_entry (state_of self.new))) }
        ensures lsn { IfOk result (λ said. said.0 ≡ pos (size_of self.old)) }
        ensures pointer { IfOk result
            (λ said. said.1 ≡ pointer_at (settings_of self.old).0 (size_of self.old) payload.now) }
        ensures moves { MovesNothing self.old self.new
            (λ said. Change pid (placed_entry (message kind payload.now) said) ∷ []) result }
        ensures full { IsErrOf result Full
            ↔ (size_limit ≤ size_of self.old + head_size + length payload.now) }
        ensures past { Remembers self.old self.new }
        ensures named { OnOk result (moves_of self.new
            ≡ moves_with (moves_of self.old) ((pid, size_of self.old) ∷ [])) }
        ensures unnamed { OnErr result (moves_of self.new ≡ moves_of self.old) }
    {
        self.put(kind, pid, None, payload)
    }

    fn read(
        &mut self,
        pid: PageId,
        lsn: Lsn,
        pointer: DiskPtr,
    ) -> Result<(MessageKind, Vec<u8>), LogError>
        requires known { Any (IsAt lsn pointer)
            (slice_index_or (now effect_of_entry (state_of self.old)) pid []) }
        ensures called { ReadsOnce ⊤ state_of clock_of might_have_left counts_of self.old self.new
            result }
        ensures found { IfOk result
            (λ found. All (λ entry. IsAt lsn pointer entry → IsRead entry found)
            (slice_index_or (now effect_of_entry (state_of self.old)) pid [])) }
        ensures room { (n : ℕ) → size_limit ≤ size_of self.new + head_size + n
            → size_limit ≤ size_of self.old + head_size + n }
        ensures moves { MovesNothing self.old self.new (λ _. []) result }
        ensures only { IfErr result (λ e. e ≡ Memory) }
        ensures past { Remembers self.old self.new }
        ensures unnamed { moves_of self.new ≡ moves_of self.old }
    {
        self.count_read();
        let Some((kind, payload)) = self.kind_and_payload(pointer) else {
            return Err(LogError::Corruption);
        };
        Ok((kind, payload.to_vec(self.alloc)?))
    }

    // A payload for which the space has room is put there.
    fn read_to(
        &mut self,
        pid: PageId,
        lsn: Lsn,
        pointer: DiskPtr,
        space: &mut [u8],
    ) -> Result<(MessageKind, Payload), LogError>
        requires known { Any (IsAt lsn pointer)
            (slice_index_or (now effect_of_entry (state_of self.old)) pid []) }
        ensures called { ReadsOnce ⊤ state_of clock_of might_have_left counts_of self.old self.new
            result }
        ensures found { IfOk result (λ found. All (λ entry. IsAt lsn pointer entry
            → IsReadAs entry found.0 (payload_in space.new found.1))
            (slice_index_or (now effect_of_entry (state_of self.old)) pid [])) }
        ensures room { (n : ℕ) → size_limit ≤ size_of self.new + head_size + n
            → size_limit ≤ size_of self.old + head_size + n }
        ensures moves { MovesNothing self.old self.new (λ _. []) result }
        ensures only { IfErr result (λ e. e ≡ Memory) }
        ensures past { Remembers self.old self.new }
        ensures unnamed { moves_of self.new ≡ moves_of self.old }
    {
        self.count_read();
        let Some((kind, payload)) = self.kind_and_payload(pointer) else {
            return Err(LogError::Corruption);
        };
        Ok((kind, Payload::put(self.alloc, payload, space)?))
    }

    // It is never refused.
    fn make_stable(&mut self) -> Result<usize, LogError>
        requires closed { is_open (state_of self.old).pending ≡ false }
        ensures called { CalledHere self.old self.new (λ _. []) [] result }
        ensures stable { OnOk result ((state_of self.new).pending ≡ []) }
        ensures number { IfOk result (λ n. n ≡ pending_size_of self.old) }
        ensures size { size_of self.new ≡ size_of self.old }
        ensures settings { settings_of self.new ≡ settings_of self.old }
        ensures always { IsOk result }
        ensures past { Remembers self.old self.new }
        ensures unnamed { moves_of self.new ≡ moves_of self.old }
    {
        let wrote = self.size - self.stable_size;
        if self.stable < self.items.len() {
            self.clock += 1;
            self.stable = self.items.len();
            self.stable_size = self.size;
        }
        Ok(wrote as usize)
    }

    // It is never Full.
    fn pin(&mut self) -> Result<(), LogError>
        requires closed { is_open (state_of self.old).pending ≡ false }
        ensures called { CalledHere self.old self.new (λ _. Pin ∷ []) (Pin ∷ []) result }
        ensures moves { MovesNothing self.old self.new (λ _. Pin ∷ []) result }
        ensures only { IfErr result (λ e. e ≡ Memory) }
        ensures past { Remembers self.old self.new }
        ensures unnamed { moves_of self.new ≡ moves_of self.old }
    {
        self.add(PackedMark::pin(), &[], true)
    }

    // It is never refused.
    fn seal(&mut self) -> Result<(), LogError>
        requires opened { is_open (state_of self.old).pending ≡ true }
        ensures called { CalledHere self.old self.new (λ _. Seal ∷ []) (Seal ∷ []) result }
        ensures moves { MovesNothing self.old self.new (λ _. Seal ∷ []) result }
        ensures always { IsOk result }
        ensures past { Remembers self.old self.new }
        ensures unnamed { moves_of self.new ≡ moves_of self.old }
    {
        self.add(PackedMark::seal(), &[], false)
    }

    // It is never refused.
    fn cancel(&mut self) -> Result<(), LogError>
        requires opened { is_open (state_of self.old).pending ≡ true }
        ensures called { CalledHere self.old self.new (λ _. Cancel ∷ []) (Cancel ∷ []) result }
        ensures moves { MovesNothing self.old self.new (λ _. Cancel ∷ []) result }
        ensures always { IsOk result }
        ensures past { Remembers self.old self.new }
        ensures unnamed { moves_of self.new ≡ moves_of self.old }
    {
        self.add(PackedMark::cancel(), &[], false)
    }

    // The message at the cursor, which moves on, where enough were appended; the count begins at 0 again then.
    fn to_move(&mut self) -> Option<(PageId, LogOffset)>
        ensures named { result ≡ due_of self.old }
        ensures called { CalledHere self.old self.new (λ _. []) [] (Ok result) }
        ensures moves_on { IfSome result
            (λ named. Named named (moves_of self.old) (moves_of self.new)) }
        ensures unnamed { IfNone result (moves_of self.new ≡ moves_of self.old) }
        ensures kept { kept_in self.new ≡ kept_in self.old }
        ensures state { state_of self.new ≡ state_of self.old }
        ensures counts { counts_of self.new ≡ counts_of self.old }
        ensures settings { settings_of self.new ≡ settings_of self.old }
        ensures number { pending_size_of self.new ≡ pending_size_of self.old }
        ensures stable_size { stable_size_of self.new ≡ stable_size_of self.old }
        ensures past { Remembers self.old self.new }
    {
        if self.clean_every == 0 || self.appended < self.clean_every {
            return None;
        }
        let at = self.cursor + before_change(&self.items[self.cursor..]);
        let Some(item) = self.items.get(at) else {
            return None;
        };
        let Mark::Change { pid, .. } = item.mark.unpacked() else {
            return None;
        };
        if pid >= self.pages {
            return None;
        }
        let (place, _) = behind(&self.items[..at]);
        self.cursor = at + 1;
        self.appended = 0;
        Some((pid, place))
    }

    // The payload isn't copied. It is Full exactly where a message with a payload of that length would be.
    fn rewrite_blob_pointer(
        &mut self,
        pid: PageId,
        blob: BlobPointer,
    ) -> Result<(Lsn, DiskPtr, u64), LogError>
        requires holds { HasBlob (now effect_of_entry (state_of self.old)) pid blob }
        ensures called { CalledHere self.old self.new
            (λ said. Change pid
            (placed_entry (message_at (now effect_of_entry (state_of self.old)) pid) said) ∷ [])
            (Change pid (message_at (now effect_of_entry (state_of self.old)) pid) ∷ []) result }
        ensures size { IfOk result (λ said. said.2
            ≡ message_size (message_at (now effect_of_entry (state_of self.old)) pid)) }
        ensures fits { IfOk result (λ said. said.2 < size_limit) }
        ensures sized { OnOk result
            (AllByRecursion IsSized (now effect_of_entry (state_of self.new))) }
        ensures lsn { IfOk result (λ said. said.0 ≡ pos (size_of self.old)) }
        ensures pointer { IfOk result (λ said. said.1 ≡ Blob (size_of self.old) blob) }
        ensures moves { MovesNothing self.old self.new
            (λ said. Change pid
            (placed_entry (message_at (now effect_of_entry (state_of self.old)) pid) said) ∷ [])
            result }
        ensures full { IsErrOf result Full ↔ (size_limit ≤ size_of self.old
            + message_size (message_at (now effect_of_entry (state_of self.old)) pid)) }
        ensures past { Remembers self.old self.new }
        ensures named { OnOk result (moves_of self.new
            ≡ moves_with (moves_of self.old) ((pid, size_of self.old) ∷ [])) }
        ensures unnamed { OnErr result (moves_of self.new ≡ moves_of self.old) }
    {
        let Some((kind, held)) = self.holder_of(blob) else {
            return Err(LogError::Corruption);
        };
        self.put(kind, pid, Some(held), &[])
    }

    fn recover(&mut self) -> Result<Vec<PageState>, LogError>
        ensures called { CalledHere self.old self.new (λ _. []) [] result }
        ensures pages { IfOk result
            (λ pages. AllZip IsPageState (now effect_of_entry (state_of self.old)) pages.items) }
        ensures sized { OnOk result
            (AllByRecursion IsSized (now effect_of_entry (state_of self.old))) }
        ensures chains { OnOk result
            (AllByRecursion (λ chain. is_chain effect_of_entry chain ≡ true)
            (now effect_of_entry (state_of self.old))) }
        ensures moves { MovesNothing self.old self.new (λ _. []) result }
        ensures room { (n : ℕ) → size_limit ≤ size_of self.new + head_size + n
            → size_limit ≤ size_of self.old + head_size + n }
        ensures only { IfErr result (λ e. e ≡ Memory) }
        ensures past { Remembers self.old self.new }
        ensures unnamed { moves_of self.new ≡ moves_of self.old }
    {
        let mut pages = Vec::new(self.alloc);
        let mut place = 0;
        for item in &self.items {
            if let Mark::Change { kind, pid, blob } = item.mark.unpacked() {
                let said = said_at(self.blob_limit, place, item.end - place, blob);
                apply(self.alloc, &mut pages, pid, kind, said)?;
            }
            place = item.end;
        }
        Ok(pages)
    }

    fn batch_open(&self) -> bool {
        self.batch
    }

    fn stable_offset(&self) -> Lsn {
        self.stable_size as Lsn
    }

    fn size(&self) -> u64 {
        self.size
    }

    fn reads(&self) -> u64 {
        self.reads
    }

    fn failed_reads(&self) -> u64 {
        0
    }

    fn write_faults(&self) -> u64 {
        0
    }
}
