//! A disk in memory.

ghost use Rattle.std.specs.Prelude.{◌^◌, ⊤, ◌≡◌, ◌≤◌, ◌<◌, ◌+◌, ◌-◌, false, nat_eq, ℕ, [], ◌++◌, ◌∷◌, length, take, drop, get_or, IsTrue, is_ok, min, vec_len, vec_capacity, IfOk, IfErr, IsOk, OnOk, OnErr};
ghost use Rattle.sled_log.specs.Calls.{HasCause, one_more};
ghost use Rattle.sled_disk.specs.Disk.{overlaid, Torn, Follows, LeavesEach, LeavesNoMore, Only, Elapses};
ghost use Rattle.sled_disk.specs.Journal.{Write, Sync, are_within, calls_in, all_synced, after_calls, MayLeave, WasLeft, left_of};
ghost use Rattle.sled_disk.specs.JournalLaws.{left_by_now, only_by_now, left_earlier, seen_left};
ghost use Rattle.sled_log.specs.declared.log.LogError.TheVariants.{ReadFault, WriteFault};

mod files;

use super::Disk;
use super::journal::{Call, add, copy, count, overlay, replay};
use sled_log::LogError;
use std::alloc::{AllocError, Global};

/// A disk in memory, for tests of crashes. It stores what it held at first and a journal of its writes and syncs. So the crash states of
/// every moment are known from what is stored, and `stop` returns the disk that a crash leaves.
///
/// A crash tears each range that is not synced: it may leave any bytes there, and any length between the old end and that of the range. A
/// write or a sync that fails does nothing. All memory is allocated when the disk is made, which fixes how many bytes may be written, and
/// how many writes and syncs may be made.
#[derive(Drop)]
pub struct MemDisk {
    // what it held at first, all of it durable
    start: Vec<u8>,
    // the writes and syncs since, and the bytes of all writes
    calls: Vec<Call>,
    written: Vec<u8>,
    // what a read gives
    bytes: Vec<u8>,
    // how many bytes may still be written, and how many writes and syncs made
    bytes_left: usize,
    calls_left: usize,
    reads: u64,
    failed_reads: u64,
    write_faults: u64,
    // which read from now fails, and which write or sync; 0 for none
    read_to_fail: u64,
    write_to_fail: u64,
    ghost within: { IsTrue (are_within (length written.items) (length start.items) (length bytes.items) calls.items) },
    ghost replayed: { bytes.items ≡ (after_calls (all_synced start.items) (calls_in written.items calls.items)).seen },
    ghost are_bytes: { (i : ℕ) → get_or bytes.items i 0 < 256 },
    ghost start_room: { vec_len bytes + bytes_left ≤ vec_capacity start },
    ghost bytes_room: { vec_len bytes + bytes_left ≤ vec_capacity bytes },
    ghost written_room: { vec_len written + bytes_left ≤ vec_capacity written },
    ghost calls_room: { vec_len calls + calls_left ≤ vec_capacity calls },
}

impl MemDisk {
    ghost use Rattle.sled_disk.specs.DiskMemory.{bytes_of, calls_of, clock_of, image_at, might_have_left, counts_of, room_of, faults_of};

    /// Returns an empty disk. A write fails if it would bring the bytes written above `limit`, and a write or a sync fails if it would
    /// bring the number of writes and syncs above `limit`. AllocError: an allocation failed.
    ///
    /// The disk takes 3 bytes of memory for each byte that may be written, and 32 for each write or sync.
    pub fn new(alloc: Global, limit: usize) -> Result<MemDisk, AllocError>
        ensures bytes { IfOk result (λ disk. bytes_of disk ≡ []) }
        ensures moment { IfOk result (λ disk. clock_of disk ≡ 0) }
        ensures counts { IfOk result
            (λ disk. counts_of disk ≡ record { reads = 0; failed_reads = 0; write_faults = 0 }) }
        ensures room { IfOk result (λ disk. room_of disk ≡ (limit, limit)) }
        ensures faults { IfOk result (λ disk. faults_of disk ≡ (0, 0)) }
    {
        Ok(MemDisk {
            start: Vec::with_capacity(alloc, limit)?,
            calls: Vec::with_capacity(alloc, limit)?,
            written: Vec::with_capacity(alloc, limit)?,
            bytes: Vec::with_capacity(alloc, limit)?,
            bytes_left: limit,
            calls_left: limit,
            reads: 0,
            failed_reads: 0,
            write_faults: 0,
            read_to_fail: 0,
            write_to_fail: 0,
        })
    }

    /// Returns the bytes that reads return.
    pub fn bytes(&self) -> &[u8]
        ensures { result.now ≡ bytes_of self.now }
    {
        &self.bytes
    }

    /// Returns how many writes and syncs were made.
    pub fn calls(&self) -> usize
        ensures calls { result ≡ clock_of self.now }
        ensures small { result < 2 ^ 63 }
    {
        self.calls.len()
    }

    /// Makes the `n`-th read from now fail, and no other. If `n` is 0, none fails.
    pub fn fail_read(&mut self, n: u64)
        ensures { self.new ≡ record self.old { read_to_fail = n } }
    {
        self.read_to_fail = n;
    }

    /// Makes the `n`-th write or sync from now fail, and no other. If `n` is 0, none fails.
    pub fn fail_write(&mut self, n: u64)
        ensures { self.new ≡ record self.old { write_to_fail = n } }
    {
        self.write_to_fail = n;
    }

    /// Returns the disk that a crash leaves before the `n`-th write or sync, or now if fewer were made. The first one is 1, and 0 means the
    /// same.
    ///
    /// Ranges that were not synced hold what was written or, if `fill` is given, that byte throughout. The disk is new: its counts are 0
    /// and none of its calls is set to fail. It may still write as much as this one could.
    pub fn stop(self, n: usize, fill: Option<u8>) -> MemDisk
        ensures bytes { bytes_of result ≡ left_of fill (image_at (n - 1) self) }
        ensures may { MayLeave (image_at (n - 1) self) (bytes_of result) }
        ensures left { might_have_left self (min (n - 1) (clock_of self)) (bytes_of result) }
        ensures moment { clock_of result ≡ 0 }
        ensures faults { faults_of result ≡ (0, 0) }
        ensures counts { counts_of result
            ≡ record { reads = 0; failed_reads = 0; write_faults = 0 } }
        ensures room { room_of result ≡ room_of self }
    {
        let MemDisk {
            start: mut left,
            mut calls,
            mut written,
            bytes: mut seen,
            bytes_left,
            calls_left,
            ..
        } = self;
        copy(&mut seen, &left);
        let before = n.saturating_sub(1).min(calls.len());
        for call in &calls[..before] {
            replay(&mut seen, &mut left, *call, &written, fill);
        }
        copy(&mut seen, &left);
        calls.clear();
        written.clear();
        MemDisk {
            start: left,
            calls,
            written,
            bytes: seen,
            bytes_left,
            calls_left,
            reads: 0,
            failed_reads: 0,
            write_faults: 0,
            read_to_fail: 0,
            write_to_fail: 0,
        }
    }

    // Makes a write, and keeps it in the journal. There is room.
    fn note_write(&mut self, at: usize, bytes: &[u8])
        requires within { at ≤ length (bytes_of self.old) }
        requires bytes_left { length bytes.now ≤ self.old.bytes_left }
        requires calls_left { 0 < self.old.calls_left }
        ensures bytes { bytes_of self.new ≡ overlaid (bytes_of self.old) at bytes.now }
        ensures start { self.new.start.items ≡ self.old.start.items }
        ensures calls { calls_of self.new ≡ calls_of self.old ++ Write at bytes.now ∷ [] }
        ensures room { room_of self.new
            ≡ (self.old.bytes_left - length bytes.now, self.old.calls_left - 1) }
        ensures faults { faults_of self.new ≡ faults_of self.old }
        ensures counts { counts_of self.new ≡ counts_of self.old }
    {
        overlay(&mut self.bytes, at, bytes);
        let from = self.written.len();
        add(&mut self.written, bytes);
        self.calls.push_reserved(Call::Write {
            at,
            from,
            to: from + bytes.len(),
        });
        self.bytes_left -= bytes.len();
        self.calls_left -= 1;
    }

    // Makes a sync, and keeps it in the journal. There is room.
    fn note_sync(&mut self)
        requires calls_left { 0 < self.old.calls_left }
        ensures bytes { bytes_of self.new ≡ bytes_of self.old }
        ensures start { self.new.start.items ≡ self.old.start.items }
        ensures calls { calls_of self.new ≡ calls_of self.old ++ Sync ∷ [] }
        ensures room { room_of self.new ≡ (self.old.bytes_left, self.old.calls_left - 1) }
        ensures faults { faults_of self.new ≡ faults_of self.old }
        ensures counts { counts_of self.new ≡ counts_of self.old }
    {
        self.calls.push_reserved(Call::Sync);
        self.calls_left -= 1;
    }
}

// Counts down to a call that is to fail, and says whether it is this one.
fn is_due(countdown: &mut u64) -> bool
    ensures due { result ≡ nat_eq countdown.old 1 }
    ensures next { countdown.new ≡ countdown.old - 1 }
{
    if *countdown == 0 {
        return false;
    }
    *countdown -= 1;
    *countdown == 0
}

impl Disk for MemDisk {
    ghost use Rattle.sled_disk.specs.DiskMemory.{bytes_of, calls_of, clock_of, image_now, may_leave_of, might_have_left, counts_of, room_of, faults_of, can_measure, can_read, can_write, can_sync};

    ghost tells = { ⊤ };

    ghost seen = { λ disk. disk.bytes.items };

    ghost may_leave = { λ disk left. MayLeave (after_calls (all_synced disk.start.items) (calls_of disk)) left };

    ghost moment = { λ disk. length (calls_of disk) };

    ghost left_since = { λ disk t left. WasLeft (all_synced disk.start.items) (calls_of disk) t left };

    ghost counts = { λ disk. record { reads = disk.reads; failed_reads = disk.failed_reads; write_faults = disk.write_faults } };

    ghost are_bytes = { λ disk i told. disk.are_bytes i };

    ghost seen_now = { λ disk told. seen_left disk.start.items disk.written.items disk.bytes.items (length disk.bytes.items) disk.calls.items disk.within disk.replayed };

    ghost left_now = { λ disk left told may. left_by_now (all_synced disk.start.items) (calls_of disk) left may };

    ghost only_now = { λ disk left told was. only_by_now (all_synced disk.start.items) (calls_of disk) left was };

    ghost since_earlier = { λ disk t u left told le was. left_earlier (all_synced disk.start.items) (calls_of disk) t u left le was };

    fn len(&mut self) -> Result<u64, LogError>
        ensures ok { is_ok result ≡ can_measure self.old }
        ensures len { IfOk result (λ len. len ≡ length (bytes_of self.old)) }
        ensures seen { bytes_of self.new ≡ bytes_of self.old }
        ensures stop { LeavesNoMore (may_leave_of self.old) (may_leave_of self.new) }
        ensures time { Elapses clock_of might_have_left may_leave_of self.old self.new }
        ensures room { room_of self.new ≡ room_of self.old }
        ensures faults { faults_of self.new ≡ (self.old.read_to_fail - 1, self.old.write_to_fail) }
        ensures only { IfErr result (λ e. e ≡ ReadFault) }
        ensures cause { HasCause (counts_of self.old) (counts_of self.new) result }
        ensures reads { self.new.reads ≡ one_more self.old.reads }
    {
        count(&mut self.reads);
        if is_due(&mut self.read_to_fail) {
            count(&mut self.failed_reads);
            return Err(LogError::ReadFault);
        }
        Ok(self.bytes.len() as u64)
    }

    fn read_at(&mut self, at: u64, into: &mut [u8]) -> Result<(), LogError>
        ensures ok { is_ok result ≡ can_read self.old at (length into.old) }
        ensures within { OnOk result (at + length into.old ≤ length (bytes_of self.old)) }
        ensures bytes { OnOk result
            (into.new ≡ take (length into.old) (drop at (bytes_of self.old))) }
        ensures length { length into.new ≡ length into.old }
        ensures seen { bytes_of self.new ≡ bytes_of self.old }
        ensures stop { LeavesNoMore (may_leave_of self.old) (may_leave_of self.new) }
        ensures time { Elapses clock_of might_have_left may_leave_of self.old self.new }
        ensures room { room_of self.new ≡ room_of self.old }
        ensures faults { faults_of self.new ≡ (self.old.read_to_fail - 1, self.old.write_to_fail) }
        ensures only { IfErr result (λ e. e ≡ ReadFault) }
        ensures cause { HasCause (counts_of self.old) (counts_of self.new) result }
        ensures reads { self.new.reads ≡ one_more self.old.reads }
    {
        count(&mut self.reads);
        let due = is_due(&mut self.read_to_fail);
        let len = self.bytes.len() as u64;
        if due || len < at || len - at < into.len() as u64 {
            count(&mut self.failed_reads);
            return Err(LogError::ReadFault);
        }
        let at = at as usize;
        into.copy_from_slice(&self.bytes[at..at + into.len()]);
        Ok(())
    }

    // All room was made when the disk was.
    fn make_room(&mut self, _len: usize) -> Result<(), LogError>
        ensures ok { IsOk result }
        ensures same { self.new ≡ self.old }
    {
        Ok(())
    }

    // A crash tears what isn't synced: from each crash state of before it may leave any bytes in the range.
    fn write_at(&mut self, at: u64, bytes: &[u8]) -> Result<(), LogError>
        ensures ok { is_ok result ≡ can_write self.old at (length bytes.now) }
        ensures within { OnOk result (at ≤ length (bytes_of self.old)) }
        ensures written { OnOk result
            (bytes_of self.new ≡ overlaid (bytes_of self.old) at bytes.now) }
        ensures tears { OnOk result (LeavesEach (Torn at (length bytes.now)) (may_leave_of self.old)
            (may_leave_of self.new)) }
        ensures stop { Follows (Torn at (length bytes.now)) (may_leave_of self.old)
            (may_leave_of self.new) }
        ensures time { Elapses clock_of might_have_left may_leave_of self.old self.new }
        ensures room { OnOk result
            (room_of self.new ≡ (self.old.bytes_left - length bytes.now, self.old.calls_left - 1)) }
        ensures kept { OnErr result ((image_now self.new ≡ image_now self.old)
            × (room_of self.new ≡ room_of self.old)) }
        ensures noted { OnOk result
            (calls_of self.new ≡ calls_of self.old ++ Write at bytes.now ∷ []) }
        ensures unnoted { OnErr result (calls_of self.new ≡ calls_of self.old) }
        ensures start { self.new.start.items ≡ self.old.start.items }
        ensures faults { faults_of self.new ≡ (self.old.read_to_fail, self.old.write_to_fail - 1) }
        ensures only { IfErr result (λ e. e ≡ WriteFault) }
        ensures cause { HasCause (counts_of self.old) (counts_of self.new) result }
        ensures reads { self.new.reads ≡ self.old.reads }
    {
        let due = is_due(&mut self.write_to_fail);
        let full = self.bytes_left < bytes.len() || self.calls_left == 0;
        if due || full || (self.bytes.len() as u64) < at {
            count(&mut self.write_faults);
            return Err(LogError::WriteFault);
        }
        self.note_write(at as usize, bytes);
        Ok(())
    }

    // What it keeps of a sync that fails it doesn't take for durable, so there is nothing to write.
    fn write_again(&mut self, at: u64) -> Result<(), LogError> {
        self.read_at(at, &mut [0])
    }

    fn sync(&mut self) -> Result<(), LogError>
        ensures ok { is_ok result ≡ can_sync self.old }
        ensures durable { OnOk result (Only (bytes_of self.old) (may_leave_of self.new)) }
        ensures seen { bytes_of self.new ≡ bytes_of self.old }
        ensures stop { LeavesNoMore (may_leave_of self.old) (may_leave_of self.new) }
        ensures time { Elapses clock_of might_have_left may_leave_of self.old self.new }
        ensures room { OnOk result
            (room_of self.new ≡ (self.old.bytes_left, self.old.calls_left - 1)) }
        ensures kept { OnErr result ((image_now self.new ≡ image_now self.old)
            × (room_of self.new ≡ room_of self.old)) }
        ensures noted { OnOk result (calls_of self.new ≡ calls_of self.old ++ Sync ∷ []) }
        ensures unnoted { OnErr result (calls_of self.new ≡ calls_of self.old) }
        ensures start { self.new.start.items ≡ self.old.start.items }
        ensures faults { faults_of self.new ≡ (self.old.read_to_fail, self.old.write_to_fail - 1) }
        ensures only { IfErr result (λ e. e ≡ WriteFault) }
        ensures cause { HasCause (counts_of self.old) (counts_of self.new) result }
        ensures reads { self.new.reads ≡ self.old.reads }
    {
        if is_due(&mut self.write_to_fail) || self.calls_left == 0 {
            count(&mut self.write_faults);
            return Err(LogError::WriteFault);
        }
        self.note_sync();
        Ok(())
    }

    fn reads(&self) -> u64 {
        self.reads
    }

    fn failed_reads(&self) -> u64 {
        self.failed_reads
    }

    fn write_faults(&self) -> u64 {
        self.write_faults
    }
}
