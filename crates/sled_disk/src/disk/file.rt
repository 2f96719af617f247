//! A disk over a file of the operating system.

ghost use Rattle.std.specs.Prelude.{◌≡◌, ◌+◌, ◌≤◌, ◌<◌, ◌^◌, length, false, true, IsTrue};
ghost use Rattle.sled_disk.specs.Disk.{Follows, Torn, overlaid, Elapses};
ghost use Rattle.sled_log.specs.declared.log.LogError.TheVariants.{ReadFault, WriteFault};

use super::Disk;
use super::journal::count;
use super::system::SystemFile;
use sled_log::LogError;
use std::fs::File;

/// A disk over a file of the operating system. It tells its bytes if the file does: it meets the contract of `Disk` if the file meets that
/// of `SystemFile`.
///
/// A read past the end fails. So does a write that begins past the end, which leaves no hole. After a write or a sync has failed, no later
/// one is made, and each returns WriteFault: the system may have dropped what was not durable, and may still return Ok from the next sync.
/// What was durable is there when the file is opened again.
#[derive(Drop)]
pub struct FileDisk<F: SystemFile = File> {
    file: F,
    // no write ends behind it
    limit: u64,
    failed: bool,
    reads: u64,
    failed_reads: u64,
    write_faults: u64,
    ghost sound: { F.tells → failed ≡ false → F.has_failed file ≡ false },
}

impl<F: SystemFile> FileDisk<F> {
    /// Returns a disk over a file on which no write or sync has failed.
    pub fn new(file: F) -> FileDisk<F>
        requires sound { F.tells → F.has_failed file ≡ false }
        ensures file { result.file ≡ file }
        ensures counts { ⟦<Self as Disk>⟧.counts result
            ≡ record { reads = 0; failed_reads = 0; write_faults = 0 } }
    {
        FileDisk::within(file, u64::MAX)
    }

    /// Returns such a disk that makes no write which ends after place `limit`, and returns WriteFault instead.
    pub(super) fn within(file: F, limit: u64) -> FileDisk<F>
        requires sound { F.tells → F.has_failed file ≡ false }
        ensures file { result.file ≡ file }
        ensures counts { ⟦<Self as Disk>⟧.counts result
            ≡ record { reads = 0; failed_reads = 0; write_faults = 0 } }
    {
        FileDisk {
            file,
            limit,
            failed: false,
            reads: 0,
            failed_reads: 0,
            write_faults: 0,
        }
    }

    /// Closes the disk and returns its file. It makes nothing durable.
    pub fn into_file(self) -> F
        ensures { result ≡ self.file }
    {
        self.file
    }

    // Whether a write of so many bytes begins within the file, or at its end, and ends within the limit. Where someone else has made the
    // file shorter than the place, it doesn't.
    fn takes(&self, at: u64, len: usize) -> bool
        ensures within { F.tells → IsTrue result → at ≤ length (F.seen self.now.file) }
        ensures small { IsTrue result → at + len < 2 ^ 64 }
    {
        let is_within = self.file.size().is_ok_and(|size| at <= size);
        is_within && at <= self.limit && len as u64 <= self.limit - at
    }
}

// Writes all of the bytes at a place, in as many pieces as the system makes of them: whether it did.
fn write_whole<F: SystemFile>(file: &mut F, at: u64, bytes: &[u8]) -> bool
    requires sound { F.tells → F.has_failed file.old ≡ false }
    requires within { F.tells → at ≤ length (F.seen file.old) }
    requires small { at + length bytes.now < 2 ^ 64 }
    ensures sound { F.tells → IsTrue result → F.has_failed file.new ≡ false }
    ensures written { F.tells
        → IsTrue result → F.seen file.new ≡ overlaid (F.seen file.old) at bytes.now }
    ensures stop { F.tells
        → Follows (Torn at (length bytes.now)) (F.may_leave file.old) (F.may_leave file.new) }
    ensures time { F.tells → Elapses F.moment F.left_since F.may_leave file.old file.new }
{
    let mut done = 0;
    while done < bytes.len() {
        match file.write_some_at(at + done as u64, &bytes[done..]) {
            Ok(0) | Err(_) => return false,
            Ok(n) => done += n,
        }
    }
    true
}

impl<F: SystemFile> Disk for FileDisk<F> {
    ghost tells = { F.tells };

    ghost seen = { λ disk. F.seen disk.file };

    ghost may_leave = { λ disk left. F.may_leave disk.file left };

    ghost moment = { λ disk. F.moment disk.file };

    ghost left_since = { λ disk t left. F.left_since disk.file t left };

    ghost counts = { λ disk. record { reads = disk.reads; failed_reads = disk.failed_reads; write_faults = disk.write_faults } };

    ghost are_bytes = { λ disk i told. F.are_bytes disk.file i told };

    ghost seen_now = { λ disk told. F.seen_now disk.file told };

    ghost left_now = { λ disk left told may. F.left_now disk.file left told may };

    ghost only_now = { λ disk left told was. F.only_now disk.file left told was };

    ghost since_earlier = { λ disk t u left told le was. F.since_earlier disk.file t u left told le was };

    fn len(&mut self) -> Result<u64, LogError> {
        count(&mut self.reads);
        match self.file.size() {
            Ok(len) => Ok(len),
            Err(_) => {
                count(&mut self.failed_reads);
                Err(LogError::ReadFault)
            }
        }
    }

    fn read_at(&mut self, at: u64, into: &mut [u8]) -> Result<(), LogError> {
        count(&mut self.reads);
        match self.file.read_whole_at(at, into) {
            Ok(()) => Ok(()),
            Err(_) => {
                count(&mut self.failed_reads);
                Err(LogError::ReadFault)
            }
        }
    }

    fn make_room(&mut self, _len: usize) -> Result<(), LogError> {
        Ok(())
    }

    fn write_at(&mut self, at: u64, bytes: &[u8]) -> Result<(), LogError> {
        if !self.failed && self.takes(at, bytes.len()) && write_whole(&mut self.file, at, bytes) {
            return Ok(());
        }
        self.failed = true;
        count(&mut self.write_faults);
        Err(LogError::WriteFault)
    }

    fn write_again(&mut self, at: u64) -> Result<(), LogError> {
        count(&mut self.reads);
        let mut byte = [0];
        if self.file.read_whole_at(at, &mut byte).is_err() {
            count(&mut self.failed_reads);
            return Err(LogError::ReadFault);
        }
        if !self.failed && self.file.write_again_at(at, byte[0]).is_ok() {
            return Ok(());
        }
        self.failed = true;
        count(&mut self.write_faults);
        Err(LogError::WriteFault)
    }

    fn sync(&mut self) -> Result<(), LogError> {
        if !self.failed && self.file.sync_data().is_ok() {
            return Ok(());
        }
        self.failed = true;
        count(&mut self.write_faults);
        Err(LogError::WriteFault)
    }

    fn reads(&self) -> u64 {
        self.reads
    }

    fn failed_reads(&self) -> u64 {
        self.failed_reads
    }

    fn write_faults(&self) -> u64 {
        self.write_faults
    }
}
