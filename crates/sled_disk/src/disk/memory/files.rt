//! The disk in memory as a file of the system, and as a caller's file.

ghost use Rattle.std.specs.Prelude.{⊤, false, length};
ghost use Rattle.sled_disk.specs.CallersFile.{bytewise};
ghost use Rattle.sled_disk.specs.CallersFileLaws.{bytes-calls, leaves-calls};
ghost use Rattle.sled_disk.specs.DiskMemory.{calls_of};
ghost use Rattle.sled_disk.specs.Journal.{MayLeave, WasLeft, all_synced, after_calls};
ghost use Rattle.sled_disk.specs.JournalLaws.{left_by_now, only_by_now, left_earlier, seen_left};

use super::MemDisk;
use crate::disk::{CallersFile, Disk, SystemFile};
use std::io;
use std::io::ErrorKind;

/// A file that keeps its word, for tests of what is built on a file. No read of it fails, and a write or a sync fails if that of the disk
/// does.
impl SystemFile for MemDisk {
    ghost tells = { ⊤ };

    ghost has_failed = { λ _. false };

    ghost seen = { λ disk. disk.bytes.items };

    ghost may_leave = { λ disk left. MayLeave (after_calls (all_synced disk.start.items) (calls_of disk)) left };

    ghost moment = { λ disk. length (calls_of disk) };

    ghost left_since = { λ disk t left. WasLeft (all_synced disk.start.items) (calls_of disk) t left };

    ghost are_bytes = { λ disk i told. disk.are_bytes i };

    ghost seen_now = { λ disk told. seen_left disk.start.items disk.written.items disk.bytes.items (length disk.bytes.items) disk.calls.items disk.within disk.replayed };

    ghost left_now = { λ disk left told may. left_by_now (all_synced disk.start.items) (calls_of disk) left may };

    ghost only_now = { λ disk left told was. only_by_now (all_synced disk.start.items) (calls_of disk) left was };

    ghost since_earlier = { λ disk t u left told le was. left_earlier (all_synced disk.start.items) (calls_of disk) t u left le was };

    fn size(&self) -> io::Result<u64> {
        Ok(self.bytes.len() as u64)
    }

    fn read_whole_at(&self, at: u64, into: &mut [u8]) -> io::Result<()> {
        let len = self.bytes.len() as u64;
        if len < at || len - at < into.len() as u64 {
            return Err(io::Error::from(ErrorKind::UnexpectedEof));
        }
        let at = at as usize;
        into.copy_from_slice(&self.bytes[at..at + into.len()]);
        Ok(())
    }

    fn write_some_at(&mut self, at: u64, bytes: &[u8]) -> io::Result<usize> {
        match self.write_at(at, bytes) {
            Ok(()) => Ok(bytes.len()),
            Err(_) => Err(io::Error::from(ErrorKind::Other)),
        }
    }

    fn write_again_at(&mut self, _at: u64, _byte: u8) -> io::Result<()> {
        Ok(())
    }

    fn sync_data(&mut self) -> io::Result<()> {
        match Disk::sync(self) {
            Ok(()) => Ok(()),
            Err(_) => Err(io::Error::from(ErrorKind::Other)),
        }
    }
}

/// A caller's file that keeps its word, for tests of what is built on a staged disk. A task fails if the disk fails, and then changes
/// nothing.
impl CallersFile for MemDisk {
    ghost tells = { ⊤ };

    ghost may_fail = { ⊤ };

    ghost first = { λ disk. all_synced disk.start.items };

    ghost done = { λ disk. bytewise (calls_of disk) };

    ghost are_bytes = { λ disk i told. bytes-calls disk.start.items disk.written.items disk.bytes.items (length disk.bytes.items) disk.calls.items disk.within disk.replayed disk.are_bytes i };

    ghost seen_now = { λ disk told. leaves-calls disk.start.items disk.written.items (length disk.bytes.items) disk.calls.items disk.within };

    fn write(&mut self, at: u64, bytes: &[u8]) -> bool {
        match self.write_at(at, bytes) {
            Ok(()) => true,
            Err(_) => false,
        }
    }

    fn write_again(&mut self, _at: u64, _bytes: &[u8]) -> bool {
        true
    }

    fn sync(&mut self) -> bool {
        match Disk::sync(self) {
            Ok(()) => true,
            Err(_) => false,
        }
    }
}
