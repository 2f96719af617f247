//! The steps of a reader: a gate, or a record.

ghost use Rattle.std.specs.Prelude.{◌≡◌, ◌≢◌, ℕ, ◌+◌, ◌≤◌, ◌<◌, ◌^◌, ◌⊎◌, ◌&&◌, ◌||◌, ◌==◌, Bool, true, false, Some, None, List, drop, IfOk, IfErr, OnOk, OnErr, IsErrOf};
ghost use Rattle.std.specs.List.{AllByRecursion, list_all};
ghost use Rattle.sled_log.specs.Events.{Event};
ghost use Rattle.sled_log.specs.Messages.{Entry};
ghost use Rattle.sled_log.specs.Calls.{HasCause};
ghost use Rattle.sled_log.specs.declared.log.LogError.TheVariants.{Memory, ReadFault, WriteFault, Corruption};
ghost use Rattle.sled_disk.specs.Disk.{Only, LeavesTheSame};
ghost use Rattle.sled_disk.specs.Format.{Describes};
ghost use Rattle.sled_disk.specs.Abandoned.{room_behind};
ghost use Rattle.sled_disk.specs.ReaderState.{AreCorrupt, GoesOn, StepsOn, TakesNext, read_by, waiting_by};
ghost use Rattle.sled_base.specs.Kinds.{kind_of};
ghost use Rattle.sled_disk.specs.DiskReads.{Rests, ReadFaults};
ghost use Rattle.sled_disk.specs.RecoveredHeads.{AllEndBy, AreHeads, AreRead};
ghost use Rattle.sled_disk.specs.Reading.{chains_of, start, found_at, Holds};

use super::Reader;
use super::parts::{body_on, gate_on, head_on, number_on};
use super::targets::Targets;
use super::waiting::take_all;
use super::window::Window;
use crate::disk::Disk;
use crate::format::next_frame::CLOSING_FRAME;
use crate::format::record::{
    ABANDONED, MAX_PLACE, OPENING, RawHead, begins, closes, is_begin, is_end, is_mark,
};
use crate::recovery::chains::{is_change, take_head};
use crate::recovery::head::Head;
use sled_base::MessageKind;
use sled_log::LogError;
use std::alloc::Global;
use std::collections::VecDeque;

// Names the place that a mark which stands at `at` names. A place before the mark is Corruption.
fn name(targets: &mut Targets, at: u64, target: u64) -> Result<(), LogError>
    ensures named { OnOk result ((test : ℕ → Bool) → list_all test targets.new
        ≡ ((target == at || test target) && list_all test targets.old)) }
    ensures kept { OnErr result (targets.new ≡ targets.old) }
    ensures before { IsErrOf result Corruption → target < at }
    ensures only { IfErr result (λ e. (e ≡ Memory) ⊎ (e ≡ Corruption)) }
{
    if target < at {
        return Err(LogError::Corruption);
    }
    if target == at {
        return Ok(());
    }
    Ok(targets.push(target)?)
}

// The greatest place of a closed gate at which a file may end: behind it there is room for the frame that closes a batch.
fn greatest_gate(begun: Option<u64>) -> u64
    ensures { result + room_behind begun + 1 ≡ 2 ^ 63 }
{
    match begun {
        Some(_) => MAX_PLACE - CLOSING_FRAME,
        None => MAX_PLACE,
    }
}

impl Reader {
    /// Begins to read the file on a disk.
    ///
    /// Corruption: the file does not begin with the opening bytes. ReadFault, Memory: a read or an allocation failed. Nothing is kept, and
    /// the call can be repeated.
    pub fn begin<D: Disk>(alloc: Global, disk: &mut D) -> Result<Reader, LogError>
        ensures goes_on { D.tells → IfOk result (λ reader. GoesOn (D.seen disk.new) reader) }
        ensures corrupt { D.tells → IsErrOf result Corruption → (events : List (Event Entry))
            → Describes (D.seen disk.old) events → ⊥ }
        ensures only { IfErr result (λ e. (e ≡ Memory) ⊎ (e ≡ ReadFault) ⊎ (e ≡ Corruption)) }
        ensures rests { Rests D.tells D.seen D.may_leave D.moment D.left_since disk.old disk.new }
        ensures faults { ReadFaults (D.counts disk.old) (D.counts disk.new) result }
    {
        let end = disk.len()?;
        if end < 8 {
            return Err(LogError::Corruption);
        }
        let mut window = Window::new(alloc);
        let from = window.reach(disk, 0, 8, end)?;
        let front = &window.bytes()[from..from + 8];
        if front != OPENING.as_slice() {
            return Err(LogError::Corruption);
        }
        Ok(Reader {
            alloc,
            window,
            end,
            at: 8,
            body_end: 8,
            opened: 8,
            pages: Vec::new(alloc),
            targets: Targets::new(alloc),
            begun: None,
            changes: VecDeque::new(alloc),
        })
    }

    // Goes behind the gate, or says that it is closed.
    fn pass_gate<D: Disk>(&mut self, disk: &mut D) -> Result<bool, LogError>
        requires goes_on { D.tells → GoesOn (D.seen disk.old) self.old }
        requires gate { self.old.at ≡ self.old.body_end }
        ensures goes_on { D.tells → GoesOn (D.seen disk.old) self.new }
        ensures further { IfOk result (λ opened. opened ≡ true → self.old.at < self.new.at) }
        ensures small { IfOk result (λ opened. opened ≡ false → self.new.at + room_behind self.new.begun < 2 ^ 63) }
        ensures closed { D.tells → IfOk result (λ opened. opened ≡ false → found_at 8 start
            (drop 8 (D.seen disk.old)) ≡ Some (self.new.at, read_by self.new)) }
        ensures corrupt { D.tells → IsErrOf result Corruption → AreCorrupt (D.seen disk.old) }
        ensures steps { StepsOn ⟦<D as Disk>⟧ disk.old disk.new self.old self.new result }
    {
        if !self.targets.is_empty() {
            return Err(LogError::Corruption);
        }
        if self.at >= self.end {
            return Err(LogError::Corruption);
        }
        if gate_on(&mut self.window, disk, self.at, self.end)? == 0 {
            let greatest = greatest_gate(self.begun);
            if self.at > greatest {
                return Err(LogError::Corruption);
            }
            return Ok(false);
        }
        let Some(len) = body_on(&mut self.window, disk, self.at + 1, self.end)? else {
            return Err(LogError::Corruption);
        };
        self.opened = self.at;
        self.at += 9;
        self.body_end = self.at + len;
        Ok(true)
    }

    // Takes the next record of a body.
    fn take_record<D: Disk>(&mut self, disk: &mut D) -> Result<(), LogError>
        requires goes_on { D.tells → GoesOn (D.seen disk.old) self.old }
        requires body { self.old.at < self.old.body_end }
        ensures goes_on { D.tells → GoesOn (D.seen disk.old) self.new }
        ensures further { OnOk result (self.old.at < self.new.at) }
        ensures corrupt { D.tells → IsErrOf result Corruption → AreCorrupt (D.seen disk.old) }
        ensures steps { StepsOn ⟦<D as Disk>⟧ disk.old disk.new self.old self.new result }
    {
        let head = head_on(&mut self.window, disk, self.at, self.body_end, self.end)?;
        let Some((raw, len)) = head else {
            return Err(LogError::Corruption);
        };
        if !self.targets.reach(self.at) {
            return Err(LogError::Corruption);
        }
        match self.begun {
            None => self.take_outside(disk, raw, len),
            Some(begun) => self.take_inside(disk, begun, raw, len),
        }
    }

    // Takes a record outside a begun batch, by its head: the places that name it are met.
    fn take_outside<D: Disk>(
        &mut self,
        disk: &mut D,
        raw: RawHead,
        len: u64,
    ) -> Result<(), LogError>
        requires closed { self.old.begun ≡ None }
        requires next { TakesNext D.tells (D.seen disk.old) self.old raw len }
        ensures goes_on { D.tells → GoesOn (D.seen disk.old) self.new }
        ensures further { OnOk result (self.old.at < self.new.at) }
        ensures corrupt { D.tells → IsErrOf result Corruption → AreCorrupt (D.seen disk.old) }
        ensures steps { StepsOn ⟦<D as Disk>⟧ disk.old disk.new self.old self.new result }
    {
        if begins(raw) {
            if !is_begin(raw, len) {
                return Err(LogError::Corruption);
            }
            self.begun = Some(self.at);
            self.at += 17;
            return Ok(());
        }
        if is_mark(raw, len) {
            let target = number_on(&mut self.window, disk, self.at + 17, self.end)?;
            name(&mut self.targets, self.at, target)?;
            self.at += 25;
            return Ok(());
        }
        let head = self.head(raw, len);
        take_head(self.alloc, &mut self.pages, raw.page, head)?;
        self.at += 17 + len;
        Ok(())
    }

    // Takes a record of a begun batch, by its head: one that closes it, or a change, which waits for that.
    fn take_inside<D: Disk>(
        &mut self,
        disk: &mut D,
        begun: u64,
        raw: RawHead,
        len: u64,
    ) -> Result<(), LogError>
        requires opened { self.old.begun ≡ Some begun }
        requires next { TakesNext D.tells (D.seen disk.old) self.old raw len }
        ensures goes_on { D.tells → GoesOn (D.seen disk.old) self.new }
        ensures further { OnOk result (self.old.at < self.new.at) }
        ensures corrupt { D.tells → IsErrOf result Corruption → AreCorrupt (D.seen disk.old) }
        ensures steps { StepsOn ⟦<D as Disk>⟧ disk.old disk.new self.old self.new result }
    {
        if closes(raw) {
            if !is_end(raw, len) {
                return Err(LogError::Corruption);
            }
            let place = number_on(&mut self.window, disk, self.at + 17, self.end)?;
            if place != begun {
                return Err(LogError::Corruption);
            }
            if raw.kind == ABANDONED {
                self.drop_batch();
                return Ok(());
            }
            return self.count_batch();
        }
        let head = self.head(raw, len);
        if !is_change(head.kind) {
            return Err(LogError::Corruption);
        }
        self.changes.push_back((raw.page, head))?;
        self.at += 17 + len;
        Ok(())
    }

    // Closes the batch by the record here, which says that it was abandoned: its changes never count.
    fn drop_batch(&mut self)
        requires { self.old.at + 25 ≤ self.old.body_end }
        ensures window { self.new.window ≡ self.old.window }
        ensures end { self.new.end ≡ self.old.end }
        ensures body_end { self.new.body_end ≡ self.old.body_end }
        ensures targets { self.new.targets ≡ self.old.targets }
        ensures at { self.new.at ≡ self.old.at + 25 }
        ensures closed { self.new.begun ≡ None }
        ensures pages { self.new.pages ≡ self.old.pages }
    {
        self.changes.clear();
        self.begun = None;
        self.at += 25;
    }

    // Closes the batch by the record here: its changes count. Without memory for them the next call goes on with those that are left.
    fn count_batch(&mut self) -> Result<(), LogError>
        requires room { self.old.at + 25 ≤ self.old.body_end }
        requires opened { self.old.begun ≡ None → ⊥ }
        ensures window { self.new.window ≡ self.old.window }
        ensures end { self.new.end ≡ self.old.end }
        ensures body_end { self.new.body_end ≡ self.old.body_end }
        ensures targets { self.new.targets ≡ self.old.targets }
        ensures closed { OnOk result ((self.new.at ≡ self.old.at + 25) × (self.new.begun ≡ None)) }
        ensures counted { OnOk result
            (waiting_by self.old ≡ Some (chains_of self.new.pages.items)) }
        ensures opened { OnErr result ((self.new.at ≡ self.old.at)
            × (self.new.begun ≡ self.old.begun)) }
        ensures left { OnErr result (waiting_by self.new ≡ waiting_by self.old) }
        ensures corrupt { IsErrOf result Corruption → waiting_by self.old ≡ None }
        ensures only { IfErr result (λ e. (e ≡ Memory) ⊎ (e ≡ Corruption)) }
    {
        take_all(self.alloc, &mut self.pages, &mut self.changes)?;
        self.begun = None;
        self.at += 25;
        Ok(())
    }

    // What is kept of the record that stands here.
    fn head(&self, raw: RawHead, len: u64) -> Head
        ensures { result ≡ record { kind = kind_of raw.kind; place = self.now.at; len = len } }
    {
        Head {
            kind: MessageKind::from(raw.kind),
            place: self.at,
            len,
        }
    }

    /// Returns the place of the record that began a batch, if the file ends inside one.
    pub(crate) fn begun(&self) -> Option<u64>
        ensures { result ≡ self.now.begun }
    {
        self.begun
    }

    /// Continues to read up to the closed gate at which the described part of the file ends, and returns the place of that gate. The disk
    /// must be the one that the reader began with.
    ///
    /// Corruption: the file describes no events. ReadFault, Memory: a read or an allocation failed. What was read stays read, and the next
    /// call resumes from there.
    pub fn read<D: Disk>(&mut self, disk: &mut D) -> Result<u64, LogError>
        requires goes_on { D.tells → GoesOn (D.seen disk.old) self.old }
        ensures goes_on { D.tells → GoesOn (D.seen disk.new) self.new }
        ensures kept { self.old.at ≤ self.new.at }
        ensures small { IfOk result (λ gate. gate + room_behind self.new.begun < 2 ^ 63) }
        ensures read { D.tells → IfOk result
            (λ gate. AreRead (D.seen disk.old) gate (read_by self.new)) }
        ensures holds { D.tells
            → IfOk result (λ gate. Holds (D.seen disk.old) gate (chains_of self.new.pages.items)) }
        ensures heads { OnOk result (AllByRecursion AreHeads (chains_of self.new.pages.items)) }
        ensures ends { IfOk result (λ gate. AllEndBy gate (chains_of self.new.pages.items)) }
        ensures corrupt { D.tells → IsErrOf result Corruption → (events : List (Event Entry))
            → Describes (D.seen disk.old) events → ⊥ }
        ensures only { IfErr result (λ e. (e ≡ Memory) ⊎ (e ≡ ReadFault) ⊎ (e ≡ Corruption)) }
        ensures rests { Rests D.tells D.seen D.may_leave D.moment D.left_since disk.old disk.new }
        ensures faults { ReadFaults (D.counts disk.old) (D.counts disk.new) result }
    {
        loop {
            if self.at < self.body_end {
                self.take_record(disk)?;
            } else if !self.pass_gate(disk)? {
                return Ok(self.at);
            }
        }
    }

    /// Reads the whole file on a disk, as `begin` and `read` do. An error keeps nothing.
    pub(crate) fn read_whole<D: Disk>(alloc: Global, disk: &mut D) -> Result<Reader, LogError>
        ensures goes_on { D.tells → IfOk result (λ reader. GoesOn (D.seen disk.new) reader) }
        ensures corrupt { D.tells → IsErrOf result Corruption → (events : List (Event Entry))
            → Describes (D.seen disk.old) events → ⊥ }
        ensures only { IfErr result (λ e. (e ≡ Memory) ⊎ (e ≡ ReadFault) ⊎ (e ≡ Corruption)) }
        ensures rests { Rests D.tells D.seen D.may_leave D.moment D.left_since disk.old disk.new }
        ensures faults { ReadFaults (D.counts disk.old) (D.counts disk.new) result }
    {
        match Reader::begin(alloc, disk) {
            Ok(mut reader) => match reader.read(disk) {
                Ok(_) => Ok(reader),
                Err(e) => Err(e),
            },
            Err(e) => Err(e),
        }
    }

    /// Makes durable what was read: writes the byte of the last open gate again, or of the first gate if none is open, and syncs the disk.
    ///
    /// After a failed sync, a system may take data for durable that it could not write. A read then shows the gate that was opened, the
    /// device has the closed one, and a further sync does nothing. All else that was read was synced before a later gate was opened, so
    /// writing this one byte is enough. No crash state is added, and no byte changes unless the error is a WriteFault.
    ///
    /// Memory: no memory for that write, and nothing was done. ReadFault: the byte could not be read. WriteFault: it could not be written
    /// or synced.
    pub fn make_durable<D: Disk>(&self, disk: &mut D) -> Result<(), LogError>
        ensures durable { D.tells → OnOk result (Only (D.seen disk.new) (D.may_leave disk.new)) }
        ensures seen { D.tells → OnOk result (D.seen disk.new ≡ D.seen disk.old) }
        ensures unsynced { D.tells
            → IfErr result (λ e. e ≢ WriteFault → D.seen disk.new ≡ D.seen disk.old) }
        ensures stays { LeavesTheSame D.tells D.may_leave D.moment D.left_since disk.old disk.new }
        ensures only { IfErr result (λ e. (e ≡ Memory) ⊎ (e ≡ ReadFault) ⊎ (e ≡ WriteFault)) }
        ensures cause { HasCause (D.counts disk.old) (D.counts disk.new) result }
    {
        disk.make_room(1)?;
        disk.write_again(self.opened)?;
        disk.sync()
    }

    /// Returns the pages that were read, by the heads of their chains.
    pub(crate) fn into_pages(self) -> Vec<Vec<Head>>
        ensures { result ≡ self.pages }
    {
        self.pages
    }
}
