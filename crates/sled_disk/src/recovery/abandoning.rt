//! The frame that marks a batch as abandoned if a file ends inside it.

ghost use Rattle.std.specs.Prelude.{◌≡◌, ◌+◌, ◌<◌, ◌^◌, ◌⊎◌, [], false, Option, Some, None, IfOk, OnOk, IfErr};
ghost use Rattle.sled_log.specs.Calls.{HasCause};
ghost use Rattle.sled_log.specs.declared.log.LogError.TheVariants.{Memory, WriteFault};
ghost use Rattle.sled_disk.specs.Abandoned.{abandoned_frame, room_behind, IsReadTo};
ghost use Rattle.sled_disk.specs.Reading.{Read};
ghost use Rattle.sled_disk.specs.RecoveredLog.{SameMeaning};
ghost use Rattle.sled_disk.specs.LogContents.{Stands, events_in};
ghost use Rattle.sled_disk.specs.Crash.{BytesLeft, IsClosed, IsShutOrOpened, IsWhole};
ghost use Rattle.sled_disk.specs.Disk.{Only};
ghost use Rattle.sled_disk.specs.DiskReads.{Rests};

use crate::disk::Disk;
use crate::format::frame::{bytes_of, close, push_record, put, write_frame};
use crate::format::next_frame::{CLOSING, CLOSING_FRAME};
use crate::format::record::{ABANDONED, MARK_ID};
use sled_log::LogError;
use std::alloc::{AllocError, Global};

// Where the present gate stands once such a frame is written, if one is needed.
pub(crate) fn gate_behind(gate: u64, begun: Option<u64>) -> u64
    requires { gate + room_behind begun < 2 ^ 63 }
    ensures { result ≡ gate + room_behind begun }
{
    match begun {
        Some(_) => gate + CLOSING_FRAME,
        None => gate,
    }
}

// The bytes of such a frame: a length, the record, and the next gate.
fn frame_of(alloc: Global, begun: u64) -> Result<Vec<u8>, AllocError>
    ensures { IfOk result (λ frame. frame.items ≡ abandoned_frame begun) }
{
    let mut frame = Vec::new(alloc);
    frame.reserve(9 + CLOSING)?;
    put(&mut frame, &[0; 8]);
    push_record(&mut frame, ABANDONED, MARK_ID, &bytes_of(begun));
    close(&mut frame);
    Ok(frame)
}

// Makes room on a disk.
fn make_room<D: Disk>(disk: &mut D, len: usize) -> Result<(), LogError>
    ensures rests { Rests D.tells D.seen D.may_leave D.moment D.left_since disk.old disk.new }
    ensures counts { D.counts disk.new ≡ D.counts disk.old }
    ensures only { IfErr result (λ e. e ≡ Memory) }
{
    disk.make_room(len)
}

// Writes such a frame behind the closed gate.
fn abandon<D: Disk>(alloc: Global, disk: &mut D, gate: u64, begun: u64) -> Result<(), LogError>
    requires small { gate + 34 < 2 ^ 63 }
    requires closed { D.tells → IsClosed gate (D.seen disk.old) }
    requires durable { D.tells → Only (D.seen disk.old) (D.may_leave disk.old) }
    ensures written { D.tells → OnOk result
        (IsWhole gate (abandoned_frame begun) (D.seen disk.old) (D.seen disk.new)) }
    ensures durable { D.tells → OnOk result (Only (D.seen disk.new) (D.may_leave disk.new)) }
    ensures stop { D.tells → BytesLeft D.moment D.left_since disk.old disk.new
        (IsShutOrOpened gate (abandoned_frame begun) (D.seen disk.old)) }
    ensures memory { IfErr result (λ e. e ≡ Memory
        → Rests D.tells D.seen D.may_leave D.moment D.left_since disk.old disk.new) }
    ensures only { IfErr result (λ e. (e ≡ Memory) ⊎ (e ≡ WriteFault)) }
    ensures cause { HasCause (D.counts disk.old) (D.counts disk.new) result }
    ensures reads { (D.counts disk.new).reads ≡ (D.counts disk.old).reads }
{
    let frame = frame_of(alloc, begun)?;
    make_room(disk, 10 + CLOSING)?;
    write_frame(disk, gate, &frame)
}

// Ends a batch in which a file ends, if it does: the file describes the same, and ends outside of one.
pub(crate) fn finish<D: Disk>(
    alloc: Global,
    disk: &mut D,
    gate: u64,
    begun: Option<u64>,
) -> Result<(), LogError>
    requires small { gate + room_behind begun < 2 ^ 63 }
    requires read { D.tells → (read : Read) × IsReadTo (D.seen disk.old) gate begun read }
    requires durable { D.tells → Only (D.seen disk.old) (D.may_leave disk.old) }
    ensures stands { D.tells → OnOk result ((read : Read)
        → IsReadTo (D.seen disk.old) gate begun read
        → Stands (D.seen disk.new) (gate + room_behind begun) false [] None read.settled) }
    ensures says { D.tells → OnOk result (events_in (D.seen disk.new)
        ≡ events_in (D.seen disk.old)) }
    ensures durable { D.tells → OnOk result (Only (D.seen disk.new) (D.may_leave disk.new)) }
    ensures stop { D.tells → BytesLeft D.moment D.left_since disk.old disk.new
        (SameMeaning (D.seen disk.old)) }
    ensures memory { IfErr result (λ e. e ≡ Memory
        → Rests D.tells D.seen D.may_leave D.moment D.left_since disk.old disk.new) }
    ensures only { IfErr result (λ e. (e ≡ Memory) ⊎ (e ≡ WriteFault)) }
    ensures cause { HasCause (D.counts disk.old) (D.counts disk.new) result }
{
    match begun {
        Some(begun) => abandon(alloc, disk, gate, begun),
        None => Ok(()),
    }
}
