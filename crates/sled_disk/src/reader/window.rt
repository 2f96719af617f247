//! A piece of a file that was read at once.

ghost use Rattle.std.specs.Prelude.{◌≡◌, ◌+◌, ◌≤◌, ◌<◌, ◌⊎◌, length, min, ◌-◌, IfOk, OnOk, IfErr, IfSome};
ghost use Rattle.sled_log.specs.declared.log.LogError.TheVariants.{Memory, ReadFault};
ghost use Rattle.sled_disk.specs.declared.reader.window.TheConstants.{PIECE};

use crate::disk::Disk;
use sled_log::LogError;
use std::alloc::Global;

// So many bytes are read at a time, where the file has them.
const PIECE: u64 = 65536;

/// The bytes of a file from a place on.
#[derive(Drop)]
pub(crate) struct Window {
    start: u64,
    bytes: Vec<u8>,
    ghost piece: { length bytes.items ≤ PIECE },
}

impl Window {
    ghost use Rattle.sled_disk.specs.DiskReads.{Rests, ReadFaults, Shows};

    /// Returns an empty window.
    pub(crate) fn new(alloc: Global) -> Window
        ensures { length result.bytes.items ≡ 0 }
    {
        Window {
            start: 0,
            bytes: Vec::new(alloc),
        }
    }

    /// Returns the bytes of the window.
    pub(crate) fn bytes(&self) -> &[u8]
        ensures { result.now ≡ self.now.bytes.items }
    {
        &self.bytes
    }

    // Where a place stands in the window, if so many bytes from there on do.
    fn place_of(&self, at: u64, len: u64) -> Option<usize>
        ensures place { IfSome result (λ from. self.now.start + from ≡ at) }
        ensures has { IfSome result (λ from. from + len ≤ length self.now.bytes.items) }
    {
        let from = at.checked_sub(self.start)?;
        let behind = (self.bytes.len() as u64).checked_sub(from)?;
        if behind < len {
            return None;
        }
        Some(from as usize)
    }

    // Reads the piece at a place into the room of the one before. At an error the window is that one or empty.
    fn read<D: Disk>(&mut self, disk: &mut D, at: u64, end: u64) -> Result<(), LogError>
        requires shows { Shows D.tells (D.seen disk.old) self.old }
        requires within { at ≤ end }
        ensures shows { Shows D.tells (D.seen disk.old) self.new }
        ensures start { OnOk result (self.new.start ≡ at) }
        ensures has { OnOk result (length self.new.bytes.items ≡ min PIECE (end - at)) }
        ensures only { IfErr result (λ e. (e ≡ Memory) ⊎ (e ≡ ReadFault)) }
        ensures rests { Rests D.tells D.seen D.may_leave D.moment D.left_since disk.old disk.new }
        ensures faults { ReadFaults (D.counts disk.old) (D.counts disk.new) result }
    {
        let len = PIECE.min(end - at);
        self.bytes.resize(len as usize, 0)?;
        self.start = at;
        let read = disk.read_at(at, &mut self.bytes);
        if read.is_err() {
            self.bytes.clear();
        }
        read
    }

    /// Makes the window cover `len` bytes at place `at`, at most one piece, and returns where in the window they begin. `end` is the end of
    /// the file. On an error the window covers what it did before, or nothing.
    pub(crate) fn reach<D: Disk>(
        &mut self,
        disk: &mut D,
        at: u64,
        len: u64,
        end: u64,
    ) -> Result<usize, LogError>
        requires shows { Shows D.tells (D.seen disk.old) self.old }
        requires within { at + len ≤ end }
        requires small { len ≤ PIECE }
        ensures shows { Shows D.tells (D.seen disk.old) self.new }
        ensures place { IfOk result (λ from. self.new.start + from ≡ at) }
        ensures has { IfOk result (λ from. from + len ≤ length self.new.bytes.items) }
        ensures only { IfErr result (λ e. (e ≡ Memory) ⊎ (e ≡ ReadFault)) }
        ensures rests { Rests D.tells D.seen D.may_leave D.moment D.left_since disk.old disk.new }
        ensures faults { ReadFaults (D.counts disk.old) (D.counts disk.new) result }
    {
        if let Some(from) = self.place_of(at, len) {
            return Ok(from);
        }
        self.read(disk, at, end)?;
        Ok(0)
    }
}
