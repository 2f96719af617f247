//! The next frame: the pending records, as they will be written.

ghost use Rattle.std.specs.Prelude.{◌≡◌, ◌≤◌, ◌<◌, ◌+◌, ◌-◌, ◌^◌, ◌⊎◌, ◌++◌, ◌↔◌, [], ◌∷◌, true, false, length, take, drop, Some, IfOk, OnOk, OnErr, IfErr, IfSome, IfNone, IsTrue, vec_len, vec_capacity};
ghost use Rattle.std.specs.List.{list_all};
ghost use Rattle.sled_log.specs.Calls.{HasCause};
ghost use Rattle.sled_log.specs.declared.log.LogError.TheVariants.{WriteFault};
ghost use Rattle.sled_disk.specs.Cursor.{IsFront};
ghost use Rattle.sled_disk.specs.Crash.{BytesLeft, IsClosed, IsShutOrOpened, IsWhole};
ghost use Rattle.sled_disk.specs.Disk.{Only};
ghost use Rattle.sled_disk.specs.Format.{record_bytes, IsBytes, begin_record, closing_record};
ghost use Rattle.sled_disk.specs.Pending.{open_by, open_behind, is_own, closing_room, room_after, frame_in, frame_size};
ghost use Rattle.sled_disk.specs.Reading.{records_of};
ghost use Rattle.sled_disk.specs.RecoveredLog.{IsFull};
ghost use Rattle.sled_disk.specs.LogContents.{records_behind};

use super::frame::{bytes_of, close, empty, push_record, put, write_frame};
use super::record::{BEGIN, MARK_ID, MAX_PLACE, RawHead, head_in};
use crate::disk::Disk;
use sled_base::PageId;
use sled_log::LogError;
use std::alloc::{AllocError, Global};

// The record that closes a batch has so many bytes,
pub(crate) const CLOSING: usize = 25;

// and a frame of it alone needs so much behind the present gate.
pub(crate) const CLOSING_FRAME: u64 = 34;

// The records that are pending, those that mark batches among them. They will stand behind the present gate.
#[derive(Drop)]
pub(crate) struct NextFrame {
    // the place of the present gate
    gate: u64,
    // 8 bytes for a length, the pending records, and room for a gate and the record that closes a batch
    buffer: Vec<u8>,
    // whether a batch is open, and where its first record will stand or stands
    batch: bool,
    batch_place: u64,
    // whether the frames that were written end inside a batch
    spilled: bool,
    ghost are_bytes: { IsBytes buffer.items },
    ghost parsed: { records_of (drop 8 buffer.items) ≡ Some (records_behind buffer.items) },
    ghost front: { 8 ≤ length buffer.items },
    ghost room: { vec_len buffer + closing_room batch < vec_capacity buffer },
    ghost small: { gate < 2 ^ 63 },
    ghost fits: { 8 < length buffer.items → gate + 1 + length buffer.items + room_after batch < 2 ^ 63 },
    ghost closes: { gate + room_after batch < 2 ^ 63 },
    ghost batch_is: { batch ≡ open_by spilled (records_behind buffer.items) },
    ghost own: { list_all is_own (records_behind buffer.items) ≡ true },
}

impl NextFrame {
    // No records yet, behind a gate.
    pub(crate) fn new(alloc: Global, gate: u64) -> Result<NextFrame, AllocError>
        requires { gate < 2 ^ 63 }
        ensures gate { IfOk result (λ next. next.gate ≡ gate) }
        ensures batch { IfOk result (λ next. next.batch ≡ false) }
        ensures spilled { IfOk result (λ next. next.spilled ≡ false) }
        ensures buffer { IfOk result (λ next. length next.buffer.items ≡ 8) }
    {
        let mut buffer = Vec::new(alloc);
        buffer.reserve(9)?;
        put(&mut buffer, &[0; 8]);
        Ok(NextFrame {
            gate,
            buffer,
            batch: false,
            batch_place: 0,
            spilled: false,
        })
    }

    // The place of the present gate.
    pub(crate) fn gate(&self) -> u64
        ensures { result ≡ self.now.gate }
    {
        self.gate
    }

    // Whether a batch is open.
    pub(crate) fn batch_open(&self) -> bool
        ensures { result ≡ self.now.batch }
    {
        self.batch
    }

    // How many bytes the pending records have.
    pub(crate) fn len(&self) -> usize
        ensures { result ≡ length self.now.buffer.items - 8 }
    {
        self.buffer.len() - 8
    }

    // How many bytes writing them writes.
    pub(crate) fn to_write(&self) -> usize
        ensures { result ≡ frame_size self.now.buffer.items }
    {
        if self.buffer.len() <= 8 {
            return 0;
        }
        self.buffer.len() - 8 + 10
    }

    // How many bytes writing them will write, with one record more, and then the frame that closes a batch.
    pub(crate) fn to_write_with(&self, len: usize) -> usize
        requires { IsFull self.now.gate self.now.buffer.items self.now.batch len → ⊥ }
        ensures { result ≡ length self.now.buffer.items + 19 + len + 35 }
    {
        self.buffer.len() + 19 + len + 35
    }

    // Whether the next gate's place would be above the greatest i64 with one record more, and with the frame behind it that closes the
    // batch which is open then.
    pub(crate) fn is_full(&self, batch: bool, len: usize) -> bool
        ensures { IsTrue result ↔ IsFull self.now.gate self.now.buffer.items batch len }
    {
        let room = MAX_PLACE - self.gate;
        let closing = if batch { CLOSING_FRAME } else { 0 };
        let taken = self.buffer.len() as u64 + 18 + closing;
        room < taken || room - taken < len as u64
    }

    // Where the next record will stand.
    pub(crate) fn place(&self) -> u64
        requires { self.now.gate + 1 + length self.now.buffer.items < 2 ^ 64 }
        ensures { result ≡ self.now.gate + 1 + length self.now.buffer.items }
    {
        self.gate + 1 + self.buffer.len() as u64
    }

    // Makes room for a record with a payload of so many bytes, a gate behind it, and the record that closes a batch.
    pub(crate) fn make_room(&mut self, len: usize) -> Result<(), AllocError>
        requires { IsFull self.old.gate self.old.buffer.items self.old.batch len → ⊥ }
        ensures gate { self.new.gate ≡ self.old.gate }
        ensures buffer { self.new.buffer.items ≡ self.old.buffer.items }
        ensures batch { self.new.batch ≡ self.old.batch }
        ensures batch_place { self.new.batch_place ≡ self.old.batch_place }
        ensures spilled { self.new.spilled ≡ self.old.spilled }
        ensures room { OnOk result
            (vec_len self.new.buffer + 43 + len ≤ vec_capacity self.new.buffer) }
    {
        self.buffer.reserve(18 + len + CLOSING)
    }

    // Adds the record of a page, for which there is room.
    pub(crate) fn push(&mut self, kind: u8, page: PageId, payload: &[u8])
        requires own { is_own (record { kind = kind; id = page; payload = payload.now }) ≡ true }
        requires not_mark { open_behind self.old.batch kind ≡ self.old.batch }
        requires not_full { IsFull self.old.gate self.old.buffer.items self.old.batch (length payload.now) → ⊥ }
        requires room { vec_len self.old.buffer + 43 + length payload.now
            ≤ vec_capacity self.old.buffer }
        ensures gate { self.new.gate ≡ self.old.gate }
        ensures buffer { self.new.buffer.items ≡ self.old.buffer.items
            ++ record_bytes (record { kind = kind; id = page; payload = payload.now }) }
        ensures len { length self.new.buffer.items
            ≡ length self.old.buffer.items + 17 + length payload.now }
        ensures records { records_behind self.new.buffer.items ≡ records_behind
            self.old.buffer.items ++ record { kind = kind; id = page; payload = payload.now } ∷ [] }
        ensures batch { self.new.batch ≡ self.old.batch }
        ensures batch_place { self.new.batch_place ≡ self.old.batch_place }
        ensures spilled { self.new.spilled ≡ self.old.spilled }
    {
        push_record(&mut self.buffer, kind, page, payload);
    }

    // Opens a batch by its record, for which there is room.
    pub(crate) fn pin(&mut self)
        requires not_full { IsFull self.old.gate self.old.buffer.items true 0 → ⊥ }
        requires closed { self.old.batch ≡ false }
        requires room { vec_len self.old.buffer + 43 ≤ vec_capacity self.old.buffer }
        ensures gate { self.new.gate ≡ self.old.gate }
        ensures len { length self.new.buffer.items ≡ length self.old.buffer.items + 17 }
        ensures records { records_behind self.new.buffer.items
            ≡ records_behind self.old.buffer.items ++ begin_record ∷ [] }
        ensures batch { self.new.batch ≡ true }
        ensures batch_place { self.new.batch_place ≡ self.old.gate + 1 + length self.old.buffer.items }
        ensures spilled { self.new.spilled ≡ self.old.spilled }
    {
        self.batch_place = self.place();
        push_record(&mut self.buffer, BEGIN, MARK_ID, &[]);
        self.batch = true;
    }

    // Closes the batch by a record of that kind, for which there is room.
    pub(crate) fn end(&mut self, kind: u8)
        requires opened { self.old.batch ≡ true }
        requires kind { (kind ≡ 13) ⊎ (kind ≡ 1) }
        ensures gate { self.new.gate ≡ self.old.gate }
        ensures len { length self.new.buffer.items ≡ length self.old.buffer.items + 25 }
        ensures records { records_behind self.new.buffer.items ≡ records_behind
            self.old.buffer.items ++ closing_record kind self.old.batch_place ∷ [] }
        ensures batch { self.new.batch ≡ false }
        ensures small { self.old.batch_place < 2 ^ 64 }
        ensures spilled { self.new.spilled ≡ self.old.spilled }
    {
        push_record(&mut self.buffer, kind, MARK_ID, &bytes_of(self.batch_place));
        self.batch = false;
    }

    // The payload of a record that begins so many bytes from the front of the buffer.
    pub(crate) fn payload(&self, at: u64, len: u64) -> &[u8]
        requires { at + 17 + len ≤ length self.now.buffer.items }
        ensures { result.now ≡ take len (drop (at + 17) self.now.buffer.items) }
    {
        let from = at as usize + 17;
        &self.buffer[from..from + len as usize]
    }

    // The head of the pending record that stands at a place behind the gate, and its payload's length.
    pub(crate) fn head(&self, at: u64) -> Option<(RawHead, u64)>
        requires { self.now.gate < at }
        ensures some { IfSome result
            (λ x. IsFront (drop (at - (self.now.gate + 1)) self.now.buffer.items) x.0 x.1) }
        ensures none { IfNone result
            (length self.now.buffer.items < at - (self.now.gate + 1) + 17) }
    {
        let from = (at - self.gate - 1) as usize;
        let len = self.buffer.len();
        if from > len || len - from < 17 {
            return None;
        }
        Some(head_in(&self.buffer[from..]))
    }

    // Writes the pending records as a frame behind the present gate, which is closed, and opens the gate once they are durable.
    // They are pending no more, whatever the answer.
    pub(crate) fn write<D: Disk>(&mut self, disk: &mut D) -> Result<(), LogError>
        requires some { 8 < length self.old.buffer.items }
        requires closed { D.tells → IsClosed self.old.gate (D.seen disk.old) }
        requires durable { D.tells → Only (D.seen disk.old) (D.may_leave disk.old) }
        ensures gate { OnOk result
            (self.new.gate ≡ self.old.gate + 1 + length self.old.buffer.items) }
        ensures err { OnErr result (self.new.gate ≡ self.old.gate) }
        ensures buffer { length self.new.buffer.items ≡ 8 }
        ensures batch { self.new.batch ≡ self.old.batch }
        ensures batch_place { self.new.batch_place ≡ self.old.batch_place }
        ensures spilled { self.new.spilled ≡ self.old.batch }
        ensures written { D.tells → OnOk result (IsWhole self.old.gate
            (frame_in self.old.buffer.items) (D.seen disk.old) (D.seen disk.new)) }
        ensures durable { D.tells → OnOk result (Only (D.seen disk.new) (D.may_leave disk.new)) }
        ensures stop { D.tells → BytesLeft D.moment D.left_since disk.old disk.new
            (IsShutOrOpened self.old.gate (frame_in self.old.buffer.items) (D.seen disk.old)) }
        ensures only { IfErr result (λ e. e ≡ WriteFault) }
        ensures cause { HasCause (D.counts disk.old) (D.counts disk.new) result }
        ensures reads { (D.counts disk.new).reads ≡ (D.counts disk.old).reads }
    {
        let len = self.buffer.len() as u64;
        close(&mut self.buffer);
        let wrote = write_frame(disk, self.gate, &self.buffer);
        empty(&mut self.buffer);
        self.spilled = self.batch;
        if wrote.is_ok() {
            self.gate += 1 + len;
        }
        wrote
    }
}
