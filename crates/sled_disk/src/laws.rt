//! Theorems about the file of a log.

ghost use Rattle.std.specs.Prelude.{◌≡◌, ℕ, ◌+◌, List, [], true, length, take};
ghost use Rattle.sled_log.specs.Events.{Event};
ghost use Rattle.sled_log.specs.Messages.{Entry};
ghost use Rattle.sled_disk.specs.AppendedFrame.{MayFollow, IsWritten};
ghost use Rattle.sled_disk.specs.Format.{Describes, DescribesTo, Frame, body};
ghost use Rattle.sled_disk.specs.RecoveredLog.{IsLogOf};

use crate::disk::Disk;
use crate::log::DiskLog;
use sled_log::Log;

pub(crate) mod crashes;

/// Proves that a file describes at most one list of events.
pub fn a_file_has_one_meaning()
    ensures { (bytes : List ℕ) (events others : List (Event Entry)) → Describes bytes events
        → Describes bytes others → events ≡ others }
{}

/// Proves that the bytes after the closed gate mean nothing: whatever they are, the file describes the same events, up to the same gate.
pub fn bytes_behind_the_gate_say_nothing()
    ensures { (gate : ℕ) (bytes other : List ℕ) (events : List (Event Entry))
        → DescribesTo gate bytes events
        → take (gate + 1) other ≡ take (gate + 1) bytes
        → DescribesTo gate other events }
{}

/// Proves that a frame, written after the closed gate, which is then opened, adds exactly its events: those outside of a batch, and those
/// of each batch that it closes.
pub fn a_frame_adds_its_events()
    ensures { (gate : ℕ) (bytes : List ℕ) (events after_events : List (Event Entry))
        (frame : Frame) (after : List ℕ) (was : DescribesTo gate bytes events)
        → MayFollow gate events was.begun frame after_events
        → IsWritten gate bytes frame after
        → DescribesTo (gate + (9 + length (body frame.records))) after after_events }
{}

/// Proves that a log with nothing pending is the log of the bytes that its disk returns: it holds all that they describe, and that is
/// durable.
pub fn a_log_is_of_its_bytes<D: Disk>(_log: &DiskLog<D>)
    ensures { D.tells → _log.now.usable ≡ true → (⟦<DiskLog<D> as Log>⟧.state _log.now).pending ≡ []
        → IsLogOf (D.seen _log.now.disk) (⟦<DiskLog<D> as Log>⟧.state _log.now) }
{}
