//! What a disk over a file requires of the operating system.

ghost use Rattle.std.specs.Prelude.{◌≡◌, ◌+◌, ◌≤◌, ◌<◌, ℕ, Bool, false, [], ◌∷◌, List, length, take, drop, get_or, IfOk, OnOk};
ghost use Rattle.sled_disk.specs.Disk.{Only, Follows, LeavesNoMore, Torn, overlaid, Elapses};

use std::fs::File;
use std::io;
use std::io::{ErrorKind, Seek, SeekFrom};
use std::os::unix::fs::FileExt;

// So often in a row may a write be interrupted before it has written anything.
const MOST_INTERRUPTIONS: u32 = 1000;

/// A file of the operating system, opened for reading and writing.
///
/// `tells` is the premise that the system keeps its word, which is four things. A read returns the bytes that were written there, and the
/// size is their number. A write changes only its own range and the size: it writes as many of its first bytes as it returns, and if it
/// fails, it may have written any of them. Once a sync has returned Ok, a crash leaves what was there then, and may tear only what is
/// written after it. Nobody else writes to the file or truncates it.
///
/// Once a write or a sync has failed, no other one is made on that file, and nothing more is assumed of it: a system may take data that it
/// could not write for durable. Nothing is assumed either when the file is opened again, until the system has been restarted. After that a
/// read returns what is durable.
pub trait SystemFile: Drop {
    /// The premise that the system keeps its word.
    ghost tells: { Type 0 };

    /// Whether a write or a sync of this file has failed since the system was started, including before it was opened, for example on
    /// another handle of the same file.
    ghost has_failed: { Self → Bool };

    /// The bytes that reads return.
    ghost seen: { Self → List ℕ };

    /// The bytes that a crash now may leave.
    ghost may_leave: { Self → List ℕ → Type 0 };

    /// The current moment, a number that never decreases.
    ghost moment: { Self → ℕ };

    /// What a crash at that moment or later might have left.
    ghost left_since: { Self → ℕ → List ℕ → Type 0 };

    /// Returns the number of bytes.
    fn size(&self) -> io::Result<u64>
        ensures size { tells → IfOk result (λ len. len ≡ length (seen self.now)) };

    /// Reads the bytes at place `at` into all of `into`, or fails.
    fn read_whole_at(&self, at: u64, into: &mut [u8]) -> io::Result<()>
        ensures within { tells → OnOk result (at + length into.old ≤ length (seen self.now)) }
        ensures bytes { tells
            → OnOk result (into.new ≡ take (length into.old) (drop at (seen self.now))) }
        ensures length { length into.new ≡ length into.old };

    /// Writes the first of the bytes at place `at`, as many as the system takes at once, and returns how many. 0 means that the write
    /// failed.
    ///
    /// Until a sync, a crash may leave any bytes in the whole range, or what it might have left before, whether the write fails or not.
    fn write_some_at(&mut self, at: u64, bytes: &[u8]) -> io::Result<usize>
        requires sound { tells → has_failed self.old ≡ false }
        requires within { tells → at ≤ length (seen self.old) }
        ensures some { IfOk result (λ n. n ≤ length bytes.now) }
        ensures sound { tells → OnOk result (has_failed self.new ≡ false) }
        ensures written { tells → IfOk result
            (λ n. seen self.new ≡ overlaid (seen self.old) at (take n bytes.now)) }
        ensures stop { tells
            → Follows (Torn at (length bytes.now)) (may_leave self.old) (may_leave self.new) }
        ensures keeps { tells → (left : List ℕ) → may_leave self.old left → may_leave self.new left }
        ensures time { tells → Elapses moment left_since may_leave self.old self.new };

    /// Writes the one byte that is at place `at` again, or fails. No byte changes and no crash state is added, since a byte is never torn.
    fn write_again_at(&mut self, at: u64, byte: u8) -> io::Result<()>
        requires sound { tells → has_failed self.old ≡ false }
        requires there { tells → take 1 (drop at (seen self.old)) ≡ byte ∷ [] }
        ensures sound { tells → OnOk result (has_failed self.new ≡ false) }
        ensures seen { tells → seen self.new ≡ seen self.old }
        ensures stop { tells → LeavesNoMore (may_leave self.old) (may_leave self.new) }
        ensures time { tells → Elapses moment left_since may_leave self.old self.new };

    /// Makes durable what was written.
    fn sync_data(&mut self) -> io::Result<()>
        requires sound { tells → has_failed self.old ≡ false }
        ensures sound { tells → OnOk result (has_failed self.new ≡ false) }
        ensures durable { tells → OnOk result (Only (seen self.old) (may_leave self.new)) }
        ensures seen { tells → OnOk result (seen self.new ≡ seen self.old) }
        ensures stop { tells → LeavesNoMore (may_leave self.old) (may_leave self.new) }
        ensures time { tells → Elapses moment left_since may_leave self.old self.new };

    /// Each byte is below 256.
    ghost are_bytes: { (file : Self) (i : ℕ) → tells → get_or (seen file) i 0 < 256 };

    /// What a read returns is a crash state of the current moment.
    ghost seen_now: { (file : Self) → tells → may_leave file (seen file) };

    /// The crash states of the current moment are among those since it.
    ghost left_now: { (file : Self) (left : List ℕ) → tells → may_leave file left
        → left_since file (moment file) left };

    /// There are no other crash states since the current moment.
    ghost only_now: { (file : Self) (left : List ℕ) → tells → left_since file (moment file) left
        → may_leave file left };

    /// The crash states since a moment are among those since any earlier moment.
    ghost since_earlier: { (file : Self) (t u : ℕ) (left : List ℕ) → tells → t ≤ u
        → left_since file u left → left_since file t left };
}

/// The operating system's own file. That the system keeps its word cannot be proved, so here `tells` is false, and nothing is promised
/// about bytes. Its calls make the system's: a reader compares them with what the trait requires, and `tools/trace.sh` checks them in a
/// built program.
impl SystemFile for File {
    ghost tells = { ⊥ };

    ghost has_failed = { λ _. false };

    ghost seen = { λ _. [] };

    ghost may_leave = { λ _ _. ⊥ };

    ghost moment = { λ _. 0 };

    ghost left_since = { λ _ _ _. ⊥ };

    ghost are_bytes = { λ file i told. absurd told };

    ghost seen_now = { λ file told. absurd told };

    ghost left_now = { λ file left told may. absurd told };

    ghost only_now = { λ file left told was. absurd told };

    ghost since_earlier = { λ file t u left told le was. absurd told };

    // A seek to the end takes a tenth of what the file's metadata do.
    fn size(&self) -> io::Result<u64> {
        let mut file = self;
        file.seek(SeekFrom::End(0))
    }

    fn read_whole_at(&self, at: u64, into: &mut [u8]) -> io::Result<()> {
        self.read_exact_at(into, at)
    }

    fn write_some_at(&mut self, at: u64, bytes: &[u8]) -> io::Result<usize> {
        for _ in 0..MOST_INTERRUPTIONS {
            match self.write_at(bytes, at) {
                // a signal came before anything was written
                Err(error) if error.kind() == ErrorKind::Interrupted => {}
                answer => return answer,
            }
        }
        Err(io::Error::from(ErrorKind::Interrupted))
    }

    fn write_again_at(&mut self, at: u64, byte: u8) -> io::Result<()> {
        self.write_all_at(&[byte], at)
    }

    fn sync_data(&mut self) -> io::Result<()> {
        File::sync_data(self)
    }
}
