// The log on a disk as a log.

ghost use Rattle.std.specs.Prelude.{◌≡◌, ◌≢◌, ◌≤◌, ◌<◌, ◌+◌, ◌*◌, ◌⊎◌, ◌↔◌, ℕ, pos, [], ◌∷◌, true, false, length, slice_index_or, Ok, IfOk, IfErr, OnOk, IsErrOf, IsOk, IfSome, IfNone};
ghost use Rattle.std.specs.List.{All, AllByRecursion, AllZip, Any};
ghost use Rattle.sled_log.specs.Events.{is_open};
ghost use Rattle.sled_log.specs.Calls.{can_append, Appends, Pins, Seals, Cancels, AddsNothing, ReadsOnce};
ghost use Rattle.sled_log.specs.Chains.{is_chain};
ghost use Rattle.sled_log.specs.Limits.{head_size, size_limit};
ghost use Rattle.sled_log.specs.LogState.{now};
ghost use Rattle.sled_log.specs.Messages.{effect_of_entry, message};
ghost use Rattle.sled_log.specs.Moves.{Named, due_among, moves_with};
ghost use Rattle.sled_log.specs.Pages.{IsPageState, IsSized, IsAt, IsRead, IsReadAs};
ghost use Rattle.sled_log.specs.Payloads.{payload_in};
ghost use Rattle.sled_log.specs.declared.log.LogError.TheVariants.{Memory, Full, WriteFault, Corruption};
ghost use Rattle.sled_base.specs.declared.types.DiskPtr.TheVariants.{Inline};
ghost use Rattle.sled_disk.specs.Crash.{BytesLeft};
ghost use Rattle.sled_disk.specs.Reading.{chains_of, effect_of_head};
ghost use Rattle.sled_disk.specs.LogContents.{events_in};
ghost use Rattle.sled_disk.specs.DiskReads.{Rests};
ghost use Rattle.sled_disk.specs.RecoveredLog.{LeavesPages, IsEither};
ghost use Rattle.sled_disk.specs.RecoveredLogLaws.{log-keeps, log-only, log-due};
ghost use Rattle.sled_disk.specs.Names.{moves_in, read_of, most_steps, IsReadAhead, IsDueOfAll};
ghost use Rattle.sled_disk.specs.PendingFrame.{state_of, place_of, said_of, size_of, events_of, events_with, IsDue, IsFullFor, IsFullForBatch};

use super::DiskLog;
use super::finding::find;
use crate::disk::{Disk, count};
use crate::format::record::{CANCELLED, END};
use crate::recovery::pages::pages_of;
use sled_base::{BlobPointer, DiskPtr, LogOffset, Lsn, MessageKind, PageId};
use sled_log::{Log, LogError, PageState, Payload};

impl<D: Disk> Log for DiskLog<D> {
    ghost tells = { D.tells };

    ghost state = { λ log. state_of (D.seen log.disk) log.next log.usable };

    ghost moment = { λ log. D.moment log.disk };

    ghost left_since = { λ log t pages. LeavesPages (D.left_since log.disk t) pages };

    ghost counts = { λ log. record { reads = log.reads; failed_reads = (D.counts log.disk).failed_reads; write_faults = (D.counts log.disk).write_faults } };

    ghost bytes = { λ log. log.next.gate + 1 };

    ghost stable_bytes = { λ log. pos log.next.gate };

    ghost to_write = { λ log. size_of log.next };

    ghost is_full = { λ log n. IsFullFor log.next n };

    ghost is_full_for_batch = { λ log. IsFullForBatch log.next };

    ghost due = { λ log. due_among (length log.pages.items) log.clean_every (read_of log.names) };

    ghost due_is_held = { λ log pid place told usable is. log-due (D.seen log.disk) log.next.gate log.next.spilled log.next.buffer.items log.usable _ log.pages.items (λ i. D.are_bytes log.disk i told) (log.stands told usable) log.next.own log.clean_every (read_of log.names) pid place is };

    ghost keeps_stable = { λ log told usable. log-keeps (D.seen log.disk) _ _ _ _ _ (λ i. D.are_bytes log.disk i told) (log.stands told usable) (D.left_since log.disk (D.moment log.disk)) (D.left_now log.disk (D.seen log.disk) told (D.seen_now log.disk told)) };

    ghost only_now = { λ log pages told usable left. log-only (D.seen log.disk) _ _ _ _ _ (λ i. D.are_bytes log.disk i told) (log.stands told usable) log.next.spilled log.next.buffer.items log.usable (D.left_since log.disk (D.moment log.disk)) (λ bytes was. log.durable told usable bytes (D.only_now log.disk bytes told was)) pages left };

    ghost since_earlier = { λ log t u pages told le left. (left.0, D.since_earlier log.disk t u left.0 told le left.1, left.2) };

    // At any moment a crash leaves a file that describes what was durable, with all of the frame and the new record or without. Full comes
    // exactly where the gate behind that frame would stand above the greatest i64.
    fn append(
        &mut self,
        kind: MessageKind,
        pid: PageId,
        payload: &[u8],
    ) -> Result<(Lsn, DiskPtr, u64), LogError>
        requires usable { (⟦<Self as Log>⟧.state self.old).usable ≡ true }
        requires can { D.tells → can_append effect_of_entry
            (now effect_of_entry (⟦<Self as Log>⟧.state self.old)) pid kind ≡ true }
        ensures called { Appends D.tells ⟦<Self as Log>⟧.state ⟦<Self as Log>⟧.moment
            ⟦<Self as Log>⟧.left_since ⟦<Self as Log>⟧.counts self.old self.new
            pid (message kind payload.now) result }
        ensures any_moment { D.tells
            → BytesLeft D.moment D.left_since self.old.disk self.new.disk (IsEither
            (events_in (D.seen self.old.disk))
            (events_with (D.seen self.old.disk) self.old.next kind pid payload.now)) }
        ensures size { IfOk result (λ said. (said.2 ≡ head_size + length payload.now)
            × (said.2 < size_limit)) }
        ensures sized { D.tells → OnOk result
            (AllByRecursion IsSized (now effect_of_entry (⟦<Self as Log>⟧.state self.new))) }
        ensures full { IsErrOf result Full ↔ IsFullFor self.old.next (length payload.now) }
        ensures sound { can_append effect_of_head (chains_of self.old.pages.items) pid kind ≡ true
            → IsErrOf result Corruption → ⊥ }
        ensures written { OnOk result (IsDue self.old.segment_size self.old.next
            (length payload.now) ↔ (⟦<Self as Log>⟧.to_write self.new ≡ 0)) }
        ensures settings { (self.new.segment_size ≡ self.old.segment_size)
            × (self.new.clean_every ≡ self.old.clean_every) }
        ensures said { IfOk result (λ said. said ≡ said_of self.old.next payload.now) }
        ensures named { D.tells → OnOk result (0 < self.old.clean_every
            → moves_in (D.seen self.new.disk) self.new.next self.new.names
            ≡ moves_with (moves_in (D.seen self.old.disk) self.old.next self.old.names)
            ((pid, place_of self.old.next) ∷ [])) }
        ensures unnamed { D.tells → IfErr result (λ e. e ≢ WriteFault
            → moves_in (D.seen self.new.disk) self.new.next self.new.names
            ≡ moves_in (D.seen self.old.disk) self.old.next self.old.names) }
        ensures counted { OnOk result (0 < self.old.clean_every
            → self.new.names.appended ≡ self.old.names.appended + 1) }
        ensures kept { IfErr result (λ e. e ≢ WriteFault → self.new.names ≡ self.old.names) }
        ensures read { D.tells → OnOk result (0 < self.old.clean_every → IsReadAhead
            self.old.names self.new.names (D.counts self.old.disk) (D.counts self.new.disk)) }
        ensures due { D.tells → OnOk result (IsDueOfAll (⟦<Self as Log>⟧.due self.new)
            (due_among (length self.new.pages.items) self.new.clean_every
            (moves_in (D.seen self.new.disk) self.new.next self.new.names))
            self.old.names self.new.names
            (D.counts self.old.disk) (D.counts self.new.disk)) }
        ensures disk_reads { (D.counts self.new.disk).reads
            ≤ (D.counts self.old.disk).reads + 2 * most_steps }
        ensures no_read { self.old.clean_every ≡ 0
            → (D.counts self.new.disk).reads ≡ (D.counts self.old.disk).reads }
    {
        let said = self.put(kind, pid, payload)?;
        self.read_name();
        Ok(said)
    }

    // It is read by `read_to`, with no space.
    fn read(
        &mut self,
        pid: PageId,
        lsn: Lsn,
        pointer: DiskPtr,
    ) -> Result<(MessageKind, Vec<u8>), LogError>
        requires usable { (⟦<Self as Log>⟧.state self.old).usable ≡ true }
        requires known { D.tells → Any (IsAt lsn pointer)
            (slice_index_or (now effect_of_entry (⟦<Self as Log>⟧.state self.old)) pid []) }
        ensures called { ReadsOnce D.tells ⟦<Self as Log>⟧.state ⟦<Self as Log>⟧.moment
            ⟦<Self as Log>⟧.left_since ⟦<Self as Log>⟧.counts self.old self.new result }
        ensures found { D.tells
            → IfOk result (λ found. All (λ entry. IsAt lsn pointer entry → IsRead entry found)
            (slice_index_or (now effect_of_entry (⟦<Self as Log>⟧.state self.old)) pid [])) }
        ensures settings { (self.new.segment_size ≡ self.old.segment_size)
            × (self.new.clean_every ≡ self.old.clean_every) }
        ensures room { (n : ℕ) → IsFullFor self.new.next n → IsFullFor self.old.next n }
        ensures not_full { IsErrOf result Full → ⊥ }
        ensures rests { Rests D.tells D.seen D.may_leave D.moment D.left_since self.old.disk
            self.new.disk }
        ensures memory { (at : ℕ) → pointer ≡ Inline at → self.old.next.gate < at
            → self.new.disk ≡ self.old.disk }
        ensures sound { Any (λ head. pointer ≡ Inline head.place) (slice_index_or
            (chains_of self.old.pages.items) pid []) → IsErrOf result Corruption → ⊥ }
        ensures unnamed { D.tells
            → moves_in (D.seen self.new.disk) self.new.next self.new.names
            ≡ moves_in (D.seen self.old.disk) self.old.next self.old.names }
        ensures names { self.new.names ≡ self.old.names }
    {
        match self.read_to(pid, lsn, pointer, &mut []) {
            Ok((kind, payload)) => Ok((kind, payload.into_vec(self.alloc))),
            Err(error) => Err(error),
        }
    }

    // A record that is pending is read from memory. A place of the page's chain is never Corruption, whatever the disk gives.
    fn read_to(
        &mut self,
        pid: PageId,
        lsn: Lsn,
        pointer: DiskPtr,
        space: &mut [u8],
    ) -> Result<(MessageKind, Payload), LogError>
        requires usable { (⟦<Self as Log>⟧.state self.old).usable ≡ true }
        requires known { D.tells → Any (IsAt lsn pointer)
            (slice_index_or (now effect_of_entry (⟦<Self as Log>⟧.state self.old)) pid []) }
        ensures called { ReadsOnce D.tells ⟦<Self as Log>⟧.state ⟦<Self as Log>⟧.moment
            ⟦<Self as Log>⟧.left_since ⟦<Self as Log>⟧.counts self.old self.new result }
        ensures found { D.tells → IfOk result (λ found. All (λ entry. IsAt lsn pointer entry
            → IsReadAs entry found.0 (payload_in space.new found.1))
            (slice_index_or (now effect_of_entry (⟦<Self as Log>⟧.state self.old)) pid [])) }
        ensures settings { (self.new.segment_size ≡ self.old.segment_size)
            × (self.new.clean_every ≡ self.old.clean_every) }
        ensures room { (n : ℕ) → IsFullFor self.new.next n → IsFullFor self.old.next n }
        ensures not_full { IsErrOf result Full → ⊥ }
        ensures rests { Rests D.tells D.seen D.may_leave D.moment D.left_since self.old.disk
            self.new.disk }
        ensures memory { (at : ℕ) → pointer ≡ Inline at → self.old.next.gate < at
            → self.new.disk ≡ self.old.disk }
        ensures sound { Any (λ head. pointer ≡ Inline head.place) (slice_index_or
            (chains_of self.old.pages.items) pid []) → IsErrOf result Corruption → ⊥ }
        ensures unnamed { D.tells
            → moves_in (D.seen self.new.disk) self.new.next self.new.names
            ≡ moves_in (D.seen self.old.disk) self.old.next self.old.names }
        ensures names { self.new.names ≡ self.old.names }
    {
        count(&mut self.reads);
        let DiskPtr::Inline(at) = pointer else {
            return Err(LogError::Corruption);
        };
        let Some(head) = find(&self.pages, pid, at) else {
            return Err(LogError::Corruption);
        };
        let payload = self.payload(head, space)?;
        Ok((head.kind, payload))
    }

    // At any moment a crash leaves a file that describes what was durable, with all that was pending or without.
    fn make_stable(&mut self) -> Result<usize, LogError>
        requires usable { (⟦<Self as Log>⟧.state self.old).usable ≡ true }
        requires closed { is_open (⟦<Self as Log>⟧.state self.old).pending ≡ false }
        ensures called { AddsNothing D.tells ⟦<Self as Log>⟧.state ⟦<Self as Log>⟧.moment
            ⟦<Self as Log>⟧.left_since ⟦<Self as Log>⟧.counts self.old self.new result }
        ensures stable { OnOk result ((⟦<Self as Log>⟧.state self.new).pending ≡ []) }
        ensures settings { (self.new.segment_size ≡ self.old.segment_size)
            × (self.new.clean_every ≡ self.old.clean_every) }
        ensures number { IfOk result (λ n. n ≡ ⟦<Self as Log>⟧.to_write self.old) }
        ensures only { IfErr result (λ e. e ≡ WriteFault) }
        ensures any_moment { D.tells → BytesLeft D.moment D.left_since self.old.disk self.new.disk
            (IsEither (events_in (D.seen self.old.disk)) (events_of (D.seen self.old.disk) self.old.next)) }
        ensures unnamed { D.tells → OnOk result
            (moves_in (D.seen self.new.disk) self.new.next self.new.names
            ≡ moves_in (D.seen self.old.disk) self.old.next self.old.names) }
        ensures names { self.new.names ≡ self.old.names }
    {
        let bytes = self.next.to_write();
        if bytes == 0 {
            return Ok(0);
        }
        self.write_next()?;
        Ok(bytes)
    }

    // The disk makes room, and is called no more.
    fn pin(&mut self) -> Result<(), LogError>
        requires usable { (⟦<Self as Log>⟧.state self.old).usable ≡ true }
        requires closed { is_open (⟦<Self as Log>⟧.state self.old).pending ≡ false }
        ensures called { Pins D.tells ⟦<Self as Log>⟧.state ⟦<Self as Log>⟧.moment
            ⟦<Self as Log>⟧.left_since ⟦<Self as Log>⟧.counts self.old self.new result }
        ensures settings { (self.new.segment_size ≡ self.old.segment_size)
            × (self.new.clean_every ≡ self.old.clean_every) }
        ensures rests { Rests D.tells D.seen D.may_leave D.moment D.left_since self.old.disk
            self.new.disk }
        ensures full { IsErrOf result Full ↔ IsFullForBatch self.old.next }
        ensures refusals { IfErr result (λ e. (e ≡ Memory) ⊎ (e ≡ Full)) }
        ensures unnamed { D.tells
            → moves_in (D.seen self.new.disk) self.new.next self.new.names
            ≡ moves_in (D.seen self.old.disk) self.old.next self.old.names }
        ensures names { self.new.names ≡ self.old.names }
    {
        if self.next.is_full(true, 0) {
            return Err(LogError::Full);
        }
        self.make_room(0)?;
        self.next.pin();
        Ok(())
    }

    // It calls no device.
    fn seal(&mut self) -> Result<(), LogError>
        requires usable { (⟦<Self as Log>⟧.state self.old).usable ≡ true }
        requires opened { is_open (⟦<Self as Log>⟧.state self.old).pending ≡ true }
        ensures called { Seals D.tells ⟦<Self as Log>⟧.state ⟦<Self as Log>⟧.moment
            ⟦<Self as Log>⟧.left_since ⟦<Self as Log>⟧.counts self.old self.new result }
        ensures disk { self.new.disk ≡ self.old.disk }
        ensures settings { (self.new.segment_size ≡ self.old.segment_size)
            × (self.new.clean_every ≡ self.old.clean_every) }
        ensures ok { IsOk result }
        ensures unnamed { D.tells
            → moves_in (D.seen self.new.disk) self.new.next self.new.names
            ≡ moves_in (D.seen self.old.disk) self.old.next self.old.names }
        ensures names { self.new.names ≡ self.old.names }
    {
        self.close_batch(END);
        Ok(())
    }

    // It calls no device.
    fn cancel(&mut self) -> Result<(), LogError>
        requires usable { (⟦<Self as Log>⟧.state self.old).usable ≡ true }
        requires opened { is_open (⟦<Self as Log>⟧.state self.old).pending ≡ true }
        ensures called { Cancels D.tells ⟦<Self as Log>⟧.state ⟦<Self as Log>⟧.moment
            ⟦<Self as Log>⟧.left_since ⟦<Self as Log>⟧.counts self.old self.new result }
        ensures disk { self.new.disk ≡ self.old.disk }
        ensures settings { (self.new.segment_size ≡ self.old.segment_size)
            × (self.new.clean_every ≡ self.old.clean_every) }
        ensures ok { IsOk result }
        ensures unnamed { D.tells
            → moves_in (D.seen self.new.disk) self.new.next self.new.names
            ≡ moves_in (D.seen self.old.disk) self.old.next self.old.names }
        ensures names { self.new.names ≡ self.old.names }
    {
        self.close_batch(CANCELLED);
        Ok(())
    }

    // It calls no device.
    fn to_move(&mut self) -> Option<(PageId, LogOffset)>
        requires usable { (⟦<Self as Log>⟧.state self.old).usable ≡ true }
        ensures named { result ≡ ⟦<Self as Log>⟧.due self.old }
        ensures called { AddsNothing D.tells ⟦<Self as Log>⟧.state ⟦<Self as Log>⟧.moment
            ⟦<Self as Log>⟧.left_since ⟦<Self as Log>⟧.counts self.old self.new (Ok result) }
        ensures moves_on { IfSome result (λ named. Named named
            (moves_in (D.seen self.old.disk) self.old.next self.old.names)
            (moves_in (D.seen self.new.disk) self.new.next self.new.names)) }
        ensures unnamed { IfNone result (self.new.names ≡ self.old.names) }
        ensures disk { self.new.disk ≡ self.old.disk }
        ensures next { self.new.next ≡ self.old.next }
        ensures counts { ⟦<Self as Log>⟧.counts self.new ≡ ⟦<Self as Log>⟧.counts self.old }
        ensures state { ⟦<Self as Log>⟧.state self.new ≡ ⟦<Self as Log>⟧.state self.old }
        ensures settings { (self.new.segment_size ≡ self.old.segment_size)
            × (self.new.clean_every ≡ self.old.clean_every) }
    {
        self.names.next(self.pages.len() as u64, self.clean_every)
    }

    // A log on a disk keeps no blobs, so no page is kept as one.
    fn rewrite_blob_pointer(
        &mut self,
        _pid: PageId,
        _blob: BlobPointer,
    ) -> Result<(Lsn, DiskPtr, u64), LogError> {
        Err(LogError::Corruption)
    }

    // It fails for memory alone, whatever the disk gives.
    fn recover(&mut self) -> Result<Vec<PageState>, LogError>
        requires usable { (⟦<Self as Log>⟧.state self.old).usable ≡ true }
        ensures called { AddsNothing D.tells ⟦<Self as Log>⟧.state ⟦<Self as Log>⟧.moment
            ⟦<Self as Log>⟧.left_since ⟦<Self as Log>⟧.counts self.old self.new result }
        ensures pages { D.tells → IfOk result (λ pages. AllZip IsPageState
            (now effect_of_entry (⟦<Self as Log>⟧.state self.old)) pages.items) }
        ensures sized { D.tells → OnOk result
            (AllByRecursion IsSized (now effect_of_entry (⟦<Self as Log>⟧.state self.old))) }
        ensures chains { D.tells → OnOk result (AllByRecursion (λ chain. is_chain effect_of_entry
            chain ≡ true) (now effect_of_entry (⟦<Self as Log>⟧.state self.old))) }
        ensures disk { self.new.disk ≡ self.old.disk }
        ensures settings { (self.new.segment_size ≡ self.old.segment_size)
            × (self.new.clean_every ≡ self.old.clean_every) }
        ensures room { (n : ℕ) → IsFullFor self.new.next n → IsFullFor self.old.next n }
        ensures only { IfErr result (λ e. e ≡ Memory) }
        ensures unnamed { D.tells
            → moves_in (D.seen self.new.disk) self.new.next self.new.names
            ≡ moves_in (D.seen self.old.disk) self.old.next self.old.names }
        ensures names { self.new.names ≡ self.old.names }
    {
        pages_of(self.alloc, &self.pages)
    }

    fn batch_open(&self) -> bool {
        self.next.batch_open()
    }

    fn stable_offset(&self) -> Lsn {
        self.next.gate() as Lsn
    }

    fn size(&self) -> u64 {
        self.next.gate() + 1
    }

    fn reads(&self) -> u64 {
        self.reads
    }

    fn failed_reads(&self) -> u64 {
        self.disk.failed_reads()
    }

    fn write_faults(&self) -> u64 {
        self.disk.write_faults()
    }
}
