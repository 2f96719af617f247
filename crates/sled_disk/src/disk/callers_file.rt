//! The file that the caller of a staged disk reads and writes.

ghost use Rattle.std.specs.Prelude.{◌≡◌, ◌<◌, ◌++◌, ℕ, List, [], ◌∷◌, false, get_or, length, take, drop, IsTrue};
ghost use Rattle.sled_disk.specs.CallersFile.{writes_of, held_after};
ghost use Rattle.sled_disk.specs.Journal.{DiskCall, Sync, Image, all_synced, after_calls, MayLeave};

/// The file of a `StagedDisk`'s caller, as a value. Each task is done to this value at the moment when the task is handed out to the
/// caller.
///
/// `tells` is the premise that the caller keeps its word, which is three things. It does all tasks that it is handed, in order, before it
/// hands in bytes, and it hands in the bytes that its file has then. What it was handed to write is there from then on, and nothing else
/// changes; until a sync a crash may leave any bytes in that range, or what it might have left before, and after a sync it leaves what is
/// there. Nobody else writes to the file or truncates it.
///
/// Each call returns whether the task was done. If it was not, the file may be as a crash during the task could have left it. The staged
/// disk then behaves as after `StagedDisk::fail`, and hands out no further task.
pub trait CallersFile: Drop {
    /// The premise that the caller keeps its word.
    ghost tells: { Type 0 };

    /// The premise that a task may fail.
    ghost may_fail: { Type 0 };

    /// What the file was at first: the bytes that reads returned, and what a crash might have left.
    ghost first: { Self → Image };

    /// The writes, byte by byte, and the syncs that were done since.
    ghost done: { Self → List DiskCall };

    /// Writes the bytes at place `at`, over what is there and past the end. Returns whether it did.
    fn write(&mut self, at: u64, bytes: &[u8]) -> bool
        ensures done { tells → IsTrue result
            → done self.new ≡ done self.old ++ writes_of at bytes.now }
        ensures kept { tells → result ≡ false → done self.new ≡ done self.old }
        ensures first { tells → first self.new ≡ first self.old }
        ensures fails { result ≡ false → may_fail };

    /// Writes bytes again that are there already. None of them changes, and a byte is never torn. Returns whether it did.
    fn write_again(&mut self, at: u64, bytes: &[u8]) -> bool
        requires there { tells → take (length bytes.now)
            (drop at (held_after (first self.old) (done self.old))) ≡ bytes.now }
        ensures kept { tells → done self.new ≡ done self.old }
        ensures first { tells → first self.new ≡ first self.old }
        ensures fails { result ≡ false → may_fail };

    /// Makes durable what was written. Returns whether it did.
    fn sync(&mut self) -> bool
        ensures done { tells → IsTrue result → done self.new ≡ done self.old ++ Sync ∷ [] }
        ensures kept { tells → result ≡ false → done self.new ≡ done self.old }
        ensures first { tells → first self.new ≡ first self.old }
        ensures fails { result ≡ false → may_fail };

    /// Each byte is below 256.
    ghost are_bytes: { (file : Self) (i : ℕ) → tells
        → get_or (held_after (first file) (done file)) i 0 < 256 };

    /// What a read returns is a crash state.
    ghost seen_now: { (file : Self) → tells → MayLeave (after_calls (first file) (done file))
        (held_after (first file) (done file)) };
}

/// A caller's file that is outside of the program. Whether its caller keeps its word cannot be proved, so here `tells` is false, and
/// nothing is promised about bytes. It uses no memory and no time.
#[derive(Drop)]
pub struct UnseenFile;

impl CallersFile for UnseenFile {
    ghost tells = { ⊥ };

    ghost may_fail = { ⊥ };

    ghost first = { λ _. all_synced [] };

    ghost done = { λ _. [] };

    ghost are_bytes = { λ file i told. absurd told };

    ghost seen_now = { λ file told. absurd told };

    fn write(&mut self, _at: u64, _bytes: &[u8]) -> bool {
        true
    }

    fn write_again(&mut self, _at: u64, _bytes: &[u8]) -> bool {
        true
    }

    fn sync(&mut self) -> bool {
        true
    }
}
