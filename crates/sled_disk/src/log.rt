//! A log on a disk.

ghost use Rattle.std.specs.Prelude.{◌≡◌, ◌≢◌, ◌≤◌, ◌<◌, ◌+◌, ◌^◌, ◌⊎◌, ◌++◌, ◌↔◌, List, [], ◌∷◌, true, length, is_ok, IfOk, IfErr, OnOk, OnErr, IsErrOf, vec_len, vec_capacity};
ghost use Rattle.std.specs.List.{AllByRecursion};
ghost use Rattle.sled_log.specs.Calls.{HasGrown, HasCause, can_append};
ghost use Rattle.sled_log.specs.Events.{Event};
ghost use Rattle.sled_log.specs.LogState.{now};
ghost use Rattle.sled_log.specs.Messages.{Entry, effect_of_entry};
ghost use Rattle.sled_log.specs.declared.log.LogError.TheVariants.{Memory, Full, ReadFault, WriteFault, Corruption};
ghost use Rattle.sled_disk.specs.Crash.{BytesLeft, IsTornOf};
ghost use Rattle.sled_disk.specs.Disk.{Only, overlaid, LeavesTheSame};
ghost use Rattle.sled_disk.specs.Format.{Describes, opening};
ghost use Rattle.sled_disk.specs.ReaderState.{GoesOn};
ghost use Rattle.sled_disk.specs.CountedMessages.{IsLooked};
ghost use Rattle.sled_disk.specs.Cursor.{IsAmong};
ghost use Rattle.sled_disk.specs.Names.{moves_in, messages_in, all_messages};
ghost use Rattle.sled_disk.specs.DiskReads.{Rests};
ghost use Rattle.sled_disk.specs.HeadLaws.{are_heads-prop, end_by-prop};
ghost use Rattle.sled_disk.specs.RecoveredHeads.{AllEndBy, AreHeads};
ghost use Rattle.sled_disk.specs.Reading.{chains_of, effect_of_head};
ghost use Rattle.sled_disk.specs.RecoveredLog.{IsLogOf, IsEither, LeavesTheMeaning};
ghost use Rattle.sled_disk.specs.LogContents.{Stands, records_behind, events_in, progress_in};
ghost use Rattle.sled_disk.specs.PendingFrame.{state_of, place_of, events_of, progress_of, records_with, batch_of, IsFullFor};

use crate::disk::Disk;
use crate::format::next_frame::NextFrame;
use crate::reader::Reader;
use crate::recovery::abandoning::{finish, gate_behind};
use crate::recovery::chains::{is_change, take_head};
use crate::recovery::head::Head;
use names::Names;
use sled_base::{MessageKind, PageId};
use sled_log::{Log, LogError};
use std::alloc::Global;

mod calls;
mod finding;
mod names;
mod naming;
mod putting;
mod served;

// the opening bytes and a closed gate
const EMPTY: [u8; 9] = [0x53, 0x4c, 0x50, 0x43, 0x4c, 0x4f, 0x47, 0x31, 0];

/// A log on a disk. `create` writes an empty one, and each `open` finds everything durable in it. Its `size` is the length of the durable
/// file, and its `stable_offset` one byte less, the place of the closed gate at the end.
///
/// Pending messages are kept in memory, and written as one frame after a closed gate, which is opened once the frame is durable. So a crash
/// at any moment leaves everything that was durable, and either all of a frame or none of it. What it leaves can be opened again. A batch
/// may span several frames. It counts once the record that closes it is in a frame; if a crash cuts it before that, `open` marks it as
/// abandoned.
///
/// Full: the place of the next gate, or of the one after the frame that closes an open batch, would be above `i64::MAX`. Memory: an
/// allocation failed, in the log or in the disk; `make_stable`, `seal` and `cancel` never return it. Corruption: the log does not hold the
/// place or the blob that was asked for (it stores no blobs), or the page cannot take the change; a call that meets its preconditions never
/// returns it if the disk tells its bytes. After a WriteFault the log is not usable any more. To find what was durable, open the disk
/// again, or the file with `FileDisk::open`.
#[derive(Drop)]
pub struct DiskLog<D: Disk> {
    alloc: Global,
    disk: D,
    // at so many bytes of pending records an append writes a frame
    segment_size: u64,
    // a message is due to be moved for every so many that are appended
    clean_every: u64,
    // the chains of the pages, by the heads of their records, the pending ones among them
    pages: Vec<Vec<Head>>,
    // which of its messages were named
    names: Names,
    next: NextFrame,
    usable: bool,
    reads: u64,
    ghost heads: { AllByRecursion AreHeads (chains_of pages.items) } by { are_heads-prop (chains_of pages.items) },
    ghost ends: { usable ≡ true → AllEndBy (place_of next) (chains_of pages.items) } by { end_by-prop usable (place_of next) (chains_of pages.items) },
    ghost stands: { D.tells → usable ≡ true → Stands (D.seen disk) next.gate next.spilled (records_behind next.buffer.items) (batch_of next) (chains_of pages.items) },
    ghost durable: { D.tells → usable ≡ true → Only (D.seen disk) (D.may_leave disk) },
    ghost stood: { D.tells → usable ≡ true → IsAmong (D.seen disk) (records_behind next.buffer.items) names.gate names.at },
    ghost looked: { D.tells → usable ≡ true → IsLooked (D.seen disk) (records_behind next.buffer.items) names },
    ghost counted: { usable ≡ true → names.appended ≤ place_of next },
}

impl<D: Disk> DiskLog<D> {
    /// Writes an empty log to the front of the disk, and makes it durable: the opening bytes and a closed gate, nine bytes together. Bytes
    /// after these stay, and mean nothing.
    ///
    /// Memory: nothing was done. WriteFault: the device failed to write or to sync, and the first nine bytes may be any. They may also be
    /// any after a crash during this call. So a file whose `create` did not return Ok has no log in it, and can be created again.
    pub fn create(disk: &mut D) -> Result<(), LogError>
        ensures bytes { D.tells
            → OnOk result (D.seen disk.new ≡ overlaid (D.seen disk.old) 0 (opening ++ 0 ∷ [])) }
        ensures empty { D.tells → OnOk result (Describes (D.seen disk.new) []) }
        ensures durable { D.tells → OnOk result (Only (D.seen disk.new) (D.may_leave disk.new)) }
        ensures any_moment { D.tells → BytesLeft D.moment D.left_since disk.old disk.new
            (IsTornOf (D.may_leave disk.old) 0 9) }
        ensures memory { IsErrOf result Memory
            → Rests D.tells D.seen D.may_leave D.moment D.left_since disk.old disk.new }
        ensures only { IfErr result (λ e. (e ≡ Memory) ⊎ (e ≡ WriteFault)) }
        ensures cause { HasCause (D.counts disk.old) (D.counts disk.new) result }
        ensures reads { (D.counts disk.new).reads ≡ (D.counts disk.old).reads }
    {
        disk.make_room(EMPTY.len())?;
        disk.write_at(0, &EMPTY)?;
        disk.sync()
    }

    /// Opens the log of the file on a disk. It reads the file, writes the gate that was opened last again, and syncs. Everything that the
    /// file describes is then durable, and nothing is pending. If the file ends inside a batch, a frame is written that marks the batch as
    /// abandoned; the file still describes the same.
    ///
    /// An `append` that brings the pending records to `segment_size` bytes or more writes them, which takes two syncs. So between two
    /// flushes a log syncs twice for each `segment_size` bytes. Some thousands keep little in memory; a million suits many writes in a row.
    ///
    /// For every `clean_every` appended messages one is due to be moved, in the order of the file from its first message on. With 0 none
    /// ever is, and no append reads. Otherwise an append looks for the next one as long as it is not known, even before it is due. It reads
    /// at most 256 records and ends of frames, in at most 512 short reads. If a batch was in the file when it was opened, its whole extent
    /// is read before its first message is known. If a read fails, or if there is more before the next message than the appends since the
    /// last one have covered, none is due until a later append has found it.
    ///
    /// Corruption: the file describes no events, for example because it has fewer than nine bytes. No crash of a log leaves such a file.
    /// ReadFault: the device failed to read. WriteFault: it failed to write or to sync. Memory: an allocation failed. An error returns the
    /// disk. It still describes what the file described, whatever was written. Unless the error is a WriteFault, no byte changed and no
    /// crash state was added.
    pub fn open(
        alloc: Global,
        mut disk: D,
        segment_size: u64,
        clean_every: u64,
    ) -> Result<Self, (LogError, D)>
        ensures opened { D.tells
            → IfOk result (λ log. IsLogOf (D.seen disk) (⟦<Self as Log>⟧.state log)) }
        ensures durable { D.tells
            → IfOk result (λ log. Only (D.seen log.disk) (D.may_leave log.disk)) }
        ensures usable { IfOk result (λ log. (⟦<Self as Log>⟧.state log).usable ≡ true) }
        ensures none { IfOk result (λ log. (⟦<Self as Log>⟧.state log).pending ≡ []) }
        ensures reads { IfOk result (λ log. (⟦<Self as Log>⟧.counts log).reads ≡ 0) }
        ensures settings { IfOk result (λ log. (log.segment_size ≡ segment_size)
            × (log.clean_every ≡ clean_every)) }
        ensures waiting { D.tells → IfOk result
            (λ log. (moves_in (D.seen log.disk) log.next log.names).waiting
            ≡ messages_in (events_in (D.seen disk))) }
        ensures appended { IfOk result (λ log. log.names.appended ≡ 0) }
        ensures any_moment { IfOk result
            (λ log. LeavesTheMeaning D.tells D.seen D.may_leave D.moment D.left_since disk log.disk) }
        ensures corrupt { D.tells → IfErr result (λ e. e.0 ≡ Corruption
            → (events : List (Event Entry)) → Describes (D.seen disk) events → ⊥) }
        ensures left { IfErr result
            (λ e. LeavesTheMeaning D.tells D.seen D.may_leave D.moment D.left_since disk e.1) }
        ensures unwritten { IfErr result (λ e. e.0 ≢ WriteFault
            → LeavesTheSame D.tells D.may_leave D.moment D.left_since disk e.1) }
        ensures seen { D.tells → IfErr result (λ e. e.0 ≢ WriteFault → D.seen e.1 ≡ D.seen disk) }
        ensures not_full { IfErr result (λ e. e.0 ≢ Full) }
        ensures read_fault { IfErr result (λ e. e.0 ≡ ReadFault
            → HasGrown (D.counts disk).failed_reads (D.counts e.1).failed_reads) }
        ensures write_fault { IfErr result (λ e. e.0 ≡ WriteFault
            → HasGrown (D.counts disk).write_faults (D.counts e.1).write_faults) }
    {
        let reader = match Reader::read_whole(alloc, &mut disk) {
            Ok(reader) => reader,
            Err(e) => return Err((e, disk)),
        };
        if let Err(e) = reader.make_durable(&mut disk) {
            return Err((e, disk));
        }
        match DiskLog::open_with(alloc, reader, disk, segment_size, clean_every) {
            Ok(log) => Ok(log),
            Err((e, _, disk)) => Err((e, disk)),
        }
    }

    /// Opens the log of a file that was read and made durable. This is the last step of `open`, after `Reader::begin`, `Reader::read` and
    /// `Reader::make_durable`, for a caller that resumes after a fault. `segment_size` and `clean_every` are those of `open`.
    ///
    /// ReadFault: the device failed to read. Memory: an allocation failed. Corruption: the file describes no events. WriteFault: the file
    /// ends inside a batch, and the device failed to write that it is abandoned. An error returns the reader and the disk. Unless it is a
    /// WriteFault, the disk was only read, and the call can be repeated with both; it resumes where it was.
    pub fn open_with(
        alloc: Global,
        mut reader: Reader,
        mut disk: D,
        segment_size: u64,
        clean_every: u64,
    ) -> Result<Self, (LogError, Reader, D)>
        requires goes_on { D.tells → GoesOn (D.seen disk) reader }
        requires synced { D.tells → Only (D.seen disk) (D.may_leave disk) }
        ensures opened { D.tells
            → IfOk result (λ log. IsLogOf (D.seen disk) (⟦<Self as Log>⟧.state log)) }
        ensures durable { D.tells
            → IfOk result (λ log. Only (D.seen log.disk) (D.may_leave log.disk)) }
        ensures usable { IfOk result (λ log. (⟦<Self as Log>⟧.state log).usable ≡ true) }
        ensures none { IfOk result (λ log. (⟦<Self as Log>⟧.state log).pending ≡ []) }
        ensures reads { IfOk result (λ log. (⟦<Self as Log>⟧.counts log).reads ≡ 0) }
        ensures settings { IfOk result (λ log. (log.segment_size ≡ segment_size)
            × (log.clean_every ≡ clean_every)) }
        ensures waiting { D.tells → IfOk result
            (λ log. (moves_in (D.seen log.disk) log.next log.names).waiting
            ≡ messages_in (events_in (D.seen disk))) }
        ensures appended { IfOk result (λ log. log.names.appended ≡ 0) }
        ensures any_moment { IfOk result
            (λ log. LeavesTheMeaning D.tells D.seen D.may_leave D.moment D.left_since disk log.disk) }
        ensures goes_on { D.tells → IfErr result (λ e. e.0 ≢ WriteFault → GoesOn (D.seen e.2) e.1) }
        ensures synced { D.tells
            → IfErr result (λ e. e.0 ≢ WriteFault → Only (D.seen e.2) (D.may_leave e.2)) }
        ensures only_read { IfErr result (λ e. e.0 ≢ WriteFault
            → Rests D.tells D.seen D.may_leave D.moment D.left_since disk e.2) }
        ensures left { IfErr result
            (λ e. LeavesTheMeaning D.tells D.seen D.may_leave D.moment D.left_since disk e.2) }
        ensures corrupt { D.tells → IfErr result (λ e. e.0 ≡ Corruption
            → (events : List (Event Entry)) → Describes (D.seen disk) events → ⊥) }
        ensures only { IfErr result (λ e. (e.0 ≡ Memory) ⊎ (e.0 ≡ ReadFault) ⊎ (e.0 ≡ WriteFault)
            ⊎ (e.0 ≡ Corruption)) }
        ensures read_fault { IfErr result (λ e. e.0 ≡ ReadFault
            → HasGrown (D.counts disk).failed_reads (D.counts e.2).failed_reads) }
        ensures write_fault { IfErr result (λ e. e.0 ≡ WriteFault
            → HasGrown (D.counts disk).write_faults (D.counts e.2).write_faults) }
    {
        let gate = match reader.read(&mut disk) {
            Ok(gate) => gate,
            Err(e) => return Err((e, reader, disk)),
        };
        let begun = reader.begun();
        let Ok(next) = NextFrame::new(alloc, gate_behind(gate, begun)) else {
            return Err((LogError::Memory, reader, disk));
        };
        if let Err(e) = finish(alloc, &mut disk, gate, begun) {
            return Err((e, reader, disk));
        }
        let pages = reader.into_pages();
        Ok(DiskLog {
            alloc,
            disk,
            segment_size,
            clean_every,
            pages,
            names: Names::new(next.gate()),
            next,
            usable: true,
            reads: 0,
        })
    }

    /// Returns a reference to the disk.
    pub fn disk(&self) -> &D
        ensures { result.now ≡ self.now.disk }
    {
        &self.disk
    }

    /// Returns whether the log holds no page, durable or pending.
    pub fn is_empty(&self) -> bool
        ensures pages { result ≡ true ↔ self.now.pages.items ≡ [] }
        ensures told { D.tells → self.now.usable ≡ true → (result ≡ true
            ↔ now effect_of_entry (⟦<Self as Log>⟧.state self.now) ≡ []) }
    {
        self.pages.as_slice().is_empty()
    }

    /// Closes the log and returns its disk. It makes nothing durable, so what is pending is lost.
    pub fn into_disk(self) -> D
        ensures { result ≡ self.disk }
    {
        self.disk
    }

    // Makes room for a record with a payload of so many bytes: in the next frame, and on the disk for all that will be written then.
    fn make_room(&mut self, len: usize) -> Result<(), LogError>
        requires usable { self.old.usable ≡ true }
        requires not_full { IsFullFor self.old.next len → ⊥ }
        ensures rests { Rests D.tells D.seen D.may_leave D.moment D.left_since self.old.disk
            self.new.disk }
        ensures counts { D.counts self.new.disk ≡ D.counts self.old.disk }
        ensures usable { self.new.usable ≡ true }
        ensures reads { self.new.reads ≡ self.old.reads }
        ensures settings { (self.new.segment_size ≡ self.old.segment_size)
            × (self.new.clean_every ≡ self.old.clean_every) }
        ensures pages { self.new.pages.items ≡ self.old.pages.items }
        ensures gate { self.new.next.gate ≡ self.old.next.gate }
        ensures buffer { self.new.next.buffer.items ≡ self.old.next.buffer.items }
        ensures batch { batch_of self.new.next ≡ batch_of self.old.next }
        ensures spilled { self.new.next.spilled ≡ self.old.next.spilled }
        ensures room { OnOk result
            (vec_len self.new.next.buffer + 43 + len ≤ vec_capacity self.new.next.buffer) }
        ensures names { self.new.names ≡ self.old.names }
        ensures only { IfErr result (λ e. e ≡ Memory) }
    {
        self.next.make_room(len)?;
        self.disk.make_room(self.next.to_write_with(len))
    }

    // Adds a record of a page to what is pending, and answers where it will stand.
    fn add(&mut self, kind: MessageKind, pid: PageId, payload: &[u8]) -> Result<u64, LogError>
        requires usable { self.old.usable ≡ true }
        requires can { D.tells → can_append effect_of_entry (now effect_of_entry
            (state_of (D.seen self.old.disk) self.old.next self.old.usable)) pid kind ≡ true }
        ensures rests { Rests D.tells D.seen D.may_leave D.moment D.left_since self.old.disk
            self.new.disk }
        ensures counts { D.counts self.new.disk ≡ D.counts self.old.disk }
        ensures usable { self.new.usable ≡ true }
        ensures reads { self.new.reads ≡ self.old.reads }
        ensures gate { self.new.next.gate ≡ self.old.next.gate }
        ensures batch { batch_of self.new.next ≡ batch_of self.old.next }
        ensures spilled { self.new.next.spilled ≡ self.old.next.spilled }
        ensures added { OnOk result (records_behind self.new.next.buffer.items
            ≡ records_with self.old.next kind pid payload.now) }
        ensures kept { OnErr result (self.new.next.buffer.items ≡ self.old.next.buffer.items) }
        ensures settings { (self.new.segment_size ≡ self.old.segment_size)
            × (self.new.clean_every ≡ self.old.clean_every) }
        ensures some { OnOk result (8 < length self.new.next.buffer.items) }
        ensures len { OnOk result (length self.new.next.buffer.items
            ≡ length self.old.next.buffer.items + 17 + length payload.now) }
        ensures place { IfOk result (λ place. place ≡ place_of self.old.next) }
        ensures small { IfOk result (λ place. place + 17 + length payload.now < 2 ^ 63) }
        ensures full { IsErrOf result Full ↔ IsFullFor self.old.next (length payload.now) }
        ensures sound { can_append effect_of_head (chains_of self.old.pages.items) pid kind ≡ true
            → IsErrOf result Corruption → ⊥ }
        ensures only { IfErr result (λ e. (e ≡ Memory) ⊎ (e ≡ Full) ⊎ (e ≡ Corruption)) }
        ensures places { self.new.names ≡ record self.old.names { appended = self.new.names.appended } }
        ensures counted { OnOk result (0 < self.old.clean_every
            → self.new.names.appended ≡ self.old.names.appended + 1) }
        ensures unnamed { OnErr result (self.new.names ≡ self.old.names) }
        ensures unwritten { OnErr result (self.new.next.buffer.items ≡ self.old.next.buffer.items) }
    {
        if self.next.is_full(self.next.batch_open(), payload.len()) {
            return Err(LogError::Full);
        }
        if !is_change(kind) {
            return Err(LogError::Corruption);
        }
        self.make_room(payload.len())?;
        let place = self.next.place();
        let len = payload.len() as u64;
        take_head(self.alloc, &mut self.pages, pid, Head { kind, place, len })?;
        self.next.push(u8::from(kind), pid, payload);
        self.names.count(self.clean_every);
        Ok(place)
    }

    // Writes what is pending as a frame.
    //
    // At any moment of a crash the file describes what was durable, with all that the frame makes of it or without.
    fn write_next(&mut self) -> Result<(), LogError>
        requires usable { self.old.usable ≡ true }
        requires some { 8 < length self.old.next.buffer.items }
        ensures usable { self.new.usable ≡ is_ok result }
        ensures reads { self.new.reads ≡ self.old.reads }
        ensures settings { (self.new.segment_size ≡ self.old.segment_size)
            × (self.new.clean_every ≡ self.old.clean_every) }
        ensures buffer { length self.new.next.buffer.items ≡ 8 }
        ensures batch { batch_of self.new.next ≡ batch_of self.old.next }
        ensures spilled { self.new.next.spilled ≡ self.old.next.batch }
        ensures stable { D.tells → OnOk result (progress_in (D.seen self.new.disk)
            ≡ progress_of (D.seen self.old.disk) self.old.next) }
        ensures any_moment { D.tells → BytesLeft D.moment D.left_since self.old.disk self.new.disk
            (IsEither (events_in (D.seen self.old.disk)) (events_of (D.seen self.old.disk) self.old.next)) }
        ensures only { IfErr result (λ e. e ≡ WriteFault) }
        ensures cause { HasCause (D.counts self.old.disk) (D.counts self.new.disk) result }
        ensures names { self.new.names ≡ self.old.names }
        ensures messages { D.tells → OnOk result (all_messages (D.seen self.new.disk) self.new.next
            ≡ all_messages (D.seen self.old.disk) self.old.next) }
        ensures disk_reads { (D.counts self.new.disk).reads ≡ (D.counts self.old.disk).reads }
    {
        let wrote = self.next.write(&mut self.disk);
        self.usable = wrote.is_ok();
        wrote
    }
}
