//! The contract of a disk: bytes that a log reads, writes and syncs, and what a crash leaves of them.

ghost use Rattle.std.specs.Prelude.{◌≡◌, ◌+◌, ◌≤◌, ◌<◌, ◌⊎◌, List, ℕ, length, take, drop, get_or, IfOk, OnOk, IfErr};
ghost use Rattle.sled_log.specs.Calls.{Counts, HasCause, one_more};
ghost use Rattle.sled_disk.specs.Disk.{Only, Follows, LeavesNoMore, Torn, overlaid, Elapses};
ghost use Rattle.sled_log.specs.declared.log.LogError.TheVariants.{Memory, ReadFault, WriteFault};

mod callers_file;
mod file;
mod journal;
mod limit;
mod memory;
mod opening;
mod staged;
mod system;

pub use callers_file::{CallersFile, UnseenFile};
pub use file::FileDisk;
pub(crate) use journal::count;
pub use memory::MemDisk;
use sled_log::LogError;
pub use staged::{StagedDisk, Task, do_task};
pub use system::SystemFile;

/// A disk: a sequence of bytes, which are read and written by their place.
///
/// A crash may leave any bytes in the ranges that were written since the last sync. If these reach past the old end, it may leave any
/// length up to theirs. It keeps all other bytes. Right after a sync it leaves what a read returns.
///
/// ReadFault: the device failed to read, and nothing changed. WriteFault: it failed to write or to sync, and may have done any part of
/// that, which is not durable. Every such error is counted. Only `make_room` returns Memory, and no call returns Full or Corruption.
///
/// What the contract says about bytes and crash states holds if the device tells its bytes. A file whose reads may return any bytes is also
/// a disk. For it the rest of the contract holds: which errors a call may return, and the counts.
pub trait Disk: Drop {
    /// The premise that the device tells its bytes: a read returns what was written there, and a crash keeps what was synced.
    ghost tells: { Type 0 };

    /// The bytes that reads return.
    ghost seen: { Self → List ℕ };

    /// The crash states of the current moment: the bytes that a crash now may leave.
    ghost may_leave: { Self → List ℕ → Type 0 };

    /// The current moment, a number that never decreases.
    ghost moment: { Self → ℕ };

    /// The crash states since a moment: what a crash at that moment or later, during a call or between two calls, might have left.
    ghost left_since: { Self → ℕ → List ℕ → Type 0 };

    /// How often the disk was read, and how often the device failed to read and to write.
    ghost counts: { Self → Counts };

    /// Returns the number of bytes. It counts as a read.
    fn len(&mut self) -> Result<u64, LogError>
        ensures len { tells → IfOk result (λ len. len ≡ length (seen self.old)) }
        ensures seen { tells → seen self.new ≡ seen self.old }
        ensures stop { tells → LeavesNoMore (may_leave self.old) (may_leave self.new) }
        ensures time { tells → Elapses moment left_since may_leave self.old self.new }
        ensures only { IfErr result (λ e. e ≡ ReadFault) }
        ensures cause { HasCause (counts self.old) (counts self.new) result }
        ensures reads { (counts self.new).reads ≡ one_more (counts self.old).reads };

    /// Reads the bytes at place `at` into all of `into`. A read past the end fails with ReadFault.
    fn read_at(&mut self, at: u64, into: &mut [u8]) -> Result<(), LogError>
        ensures within { tells → OnOk result (at + length into.old ≤ length (seen self.old)) }
        ensures bytes { tells
            → OnOk result (into.new ≡ take (length into.old) (drop at (seen self.old))) }
        ensures length { length into.new ≡ length into.old }
        ensures seen { tells → seen self.new ≡ seen self.old }
        ensures stop { tells → LeavesNoMore (may_leave self.old) (may_leave self.new) }
        ensures time { tells → Elapses moment left_since may_leave self.old self.new }
        ensures only { IfErr result (λ e. e ≡ ReadFault) }
        ensures cause { HasCause (counts self.old) (counts self.new) result }
        ensures reads { (counts self.new).reads ≡ one_more (counts self.old).reads };

    /// Reserves memory for up to four writes of `len` bytes in total, and for the syncs after them.
    ///
    /// A disk that keeps written bytes until its caller fetches them allocates here, so that these writes need no memory. Other disks do
    /// nothing. Nothing is written: no byte, crash state or count changes.
    fn make_room(&mut self, len: usize) -> Result<(), LogError>
        ensures seen { tells → seen self.new ≡ seen self.old }
        ensures stop { tells → LeavesNoMore (may_leave self.old) (may_leave self.new) }
        ensures time { tells → Elapses moment left_since may_leave self.old self.new }
        ensures moment { tells → moment self.new ≡ moment self.old }
        ensures only { IfErr result (λ e. e ≡ Memory) }
        ensures counts { counts self.new ≡ counts self.old };

    /// Writes the bytes at place `at`, over what is there and past the end. A write that begins past the end fails.
    ///
    /// Until a sync, a crash may leave any bytes in the range, even if the write fails.
    fn write_at(&mut self, at: u64, bytes: &[u8]) -> Result<(), LogError>
        ensures within { tells → OnOk result (at ≤ length (seen self.old)) }
        ensures written { tells
            → OnOk result (seen self.new ≡ overlaid (seen self.old) at bytes.now) }
        ensures stop { tells
            → Follows (Torn at (length bytes.now)) (may_leave self.old) (may_leave self.new) }
        ensures time { tells → Elapses moment left_since may_leave self.old self.new }
        ensures only { IfErr result (λ e. e ≡ WriteFault) }
        ensures cause { HasCause (counts self.old) (counts self.new) result }
        ensures reads { (counts self.new).reads ≡ (counts self.old).reads };

    /// Makes durable what was written: a crash then leaves what a read returns. If it fails, nothing more than before is known, and no
    /// crash state is added.
    fn sync(&mut self) -> Result<(), LogError>
        ensures durable { tells → OnOk result (Only (seen self.old) (may_leave self.new)) }
        ensures seen { tells → OnOk result (seen self.new ≡ seen self.old) }
        ensures stop { tells → LeavesNoMore (may_leave self.old) (may_leave self.new) }
        ensures time { tells → Elapses moment left_since may_leave self.old self.new }
        ensures only { IfErr result (λ e. e ≡ WriteFault) }
        ensures cause { HasCause (counts self.old) (counts self.new) result }
        ensures reads { (counts self.new).reads ≡ (counts self.old).reads };

    /// Reads the byte at place `at`, and writes the same byte again. No byte changes and no crash state is added, since a byte is never
    /// torn.
    ///
    /// The next sync then makes durable what a read returns there, even if the system wrongly took it for durable after a failed sync. It
    /// counts as a read.
    fn write_again(&mut self, at: u64) -> Result<(), LogError>
        ensures seen { tells → seen self.new ≡ seen self.old }
        ensures stop { tells → LeavesNoMore (may_leave self.old) (may_leave self.new) }
        ensures time { tells → Elapses moment left_since may_leave self.old self.new }
        ensures only { IfErr result (λ e. (e ≡ ReadFault) ⊎ (e ≡ WriteFault)) }
        ensures cause { HasCause (counts self.old) (counts self.new) result }
        ensures reads { (counts self.new).reads ≡ one_more (counts self.old).reads };

    /// Returns how often the disk was read. This count and the next two stop at `u64::MAX`.
    fn reads(&self) -> u64
        ensures { result ≡ (counts self.now).reads };

    /// Returns how often a read failed.
    fn failed_reads(&self) -> u64
        ensures { result ≡ (counts self.now).failed_reads };

    /// Returns how often a write or a sync failed.
    fn write_faults(&self) -> u64
        ensures { result ≡ (counts self.now).write_faults };

    /// Each byte is below 256.
    ghost are_bytes: { (disk : Self) (i : ℕ) → tells → get_or (seen disk) i 0 < 256 };

    /// What a read returns is a crash state of the current moment.
    ghost seen_now: { (disk : Self) → tells → may_leave disk (seen disk) };

    /// The crash states of the current moment are among those since it.
    ghost left_now: { (disk : Self) (left : List ℕ) → tells → may_leave disk left
        → left_since disk (moment disk) left };

    /// There are no other crash states since the current moment.
    ghost only_now: { (disk : Self) (left : List ℕ) → tells → left_since disk (moment disk) left
        → may_leave disk left };

    /// The crash states since a moment are among those since any earlier moment.
    ghost since_earlier: { (disk : Self) (t u : ℕ) (left : List ℕ) → tells → t ≤ u
        → left_since disk u left → left_since disk t left };
}
