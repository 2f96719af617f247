//! The bytes of a frame, in a buffer that begins with 8 bytes for the length.

ghost use Rattle.std.specs.Prelude.{◌≡◌, ◌+◌, ◌-◌, ◌<◌, ◌≤◌, ◌++◌, length, drop, OnOk, IfErr, vec_len, vec_capacity};
ghost use Rattle.sled_log.specs.Calls.{HasCause};
ghost use Rattle.sled_log.specs.declared.log.LogError.TheVariants.{WriteFault};
ghost use Rattle.sled_disk.specs.Crash.{BytesLeft, IsClosed, IsShutOrOpened, IsWhole};
ghost use Rattle.sled_disk.specs.Disk.{Only};
ghost use Rattle.sled_disk.specs.Format.{number_bytes, record_bytes, IsBytes};
ghost use Rattle.sled_disk.specs.Pending.{frame_in};

use crate::disk::Disk;
use sled_base::PageId;
use sled_log::LogError;

// A number as 8 bytes, the lowest first.
#[tactic(auto, unfolding(crate::specs::Format::number_bytes))]
pub(crate) fn bytes_of(number: u64) -> [u8; 8]
    ensures bytes { result ≡ number_bytes number }
    ensures length { length result ≡ 8 }
{
    number.to_le_bytes()
}

// Puts bytes at the end, for which there is room.
pub(crate) fn put(buffer: &mut Vec<u8>, bytes: &[u8])
    requires { vec_len buffer.old + length bytes.now ≤ vec_capacity buffer.old }
    ensures items { buffer.new.items ≡ buffer.old.items ++ bytes.now }
    ensures len { vec_len buffer.new ≡ vec_len buffer.old + length bytes.now }
    ensures capacity { vec_capacity buffer.old ≤ vec_capacity buffer.new }
    ensures are_bytes { IsBytes buffer.old.items → IsBytes buffer.new.items }
{
    let _ = buffer.extend_from_slice(bytes);
}

// Puts a number in front.
pub(crate) fn put_front(buffer: &mut [u8], number: u64)
    requires { 8 ≤ length buffer.old }
    ensures front { buffer.new ≡ number_bytes number ++ drop 8 buffer.old }
    ensures are_bytes { IsBytes buffer.new }
{
    buffer[..8].copy_from_slice(&bytes_of(number));
}

// Puts a record at the end, for which there is room.
pub(crate) fn push_record(buffer: &mut Vec<u8>, kind: u8, page: PageId, payload: &[u8])
    requires { vec_len buffer.old + 17 + length payload.now ≤ vec_capacity buffer.old }
    ensures items { buffer.new.items ≡ buffer.old.items
        ++ record_bytes (record { kind = kind; id = page; payload = payload.now }) }
    ensures len { vec_len buffer.new ≡ vec_len buffer.old + 17 + length payload.now }
    ensures capacity { vec_capacity buffer.old ≤ vec_capacity buffer.new }
    ensures are_bytes { IsBytes buffer.old.items → IsBytes buffer.new.items }
{
    put(buffer, &[kind]);
    put(buffer, &bytes_of(page));
    put(buffer, &bytes_of(payload.len() as u64));
    put(buffer, payload);
}

// Makes a frame of the records: their length in front, and behind them the next gate, which is closed. There is room.
pub(crate) fn close(buffer: &mut Vec<u8>)
    requires front { 8 ≤ length buffer.old.items }
    requires room { vec_len buffer.old < vec_capacity buffer.old }
    ensures items { buffer.new.items ≡ frame_in buffer.old.items }
    ensures len { vec_len buffer.new ≡ vec_len buffer.old + 1 }
    ensures capacity { vec_capacity buffer.old ≤ vec_capacity buffer.new }
    ensures are_bytes { IsBytes buffer.new.items }
{
    let len = (buffer.len() - 8) as u64;
    put_front(buffer, len);
    put(buffer, &[0]);
}

// Takes the records out.
pub(crate) fn empty(buffer: &mut Vec<u8>)
    requires { 8 ≤ length buffer.old.items }
    ensures len { length buffer.new.items ≡ 8 }
    ensures capacity { vec_capacity buffer.old ≤ vec_capacity buffer.new }
    ensures are_bytes { IsBytes buffer.old.items → IsBytes buffer.new.items }
{
    buffer.truncate(8);
}

// Writes a frame behind a closed gate, and opens the gate once the frame is durable.
//
// The frame has its length, its body and the next gate, which is closed. At any moment of a crash the gate is closed and all is as
// it was up to it, or the whole frame stands behind it.
pub(crate) fn write_frame<D: Disk>(disk: &mut D, gate: u64, frame: &[u8]) -> Result<(), LogError>
    requires small { gate + 1 < 18446744073709551616 }
    requires closed { D.tells → IsClosed gate (D.seen disk.old) }
    requires durable { D.tells → Only (D.seen disk.old) (D.may_leave disk.old) }
    ensures written { D.tells
        → OnOk result (IsWhole gate frame.now (D.seen disk.old) (D.seen disk.new)) }
    ensures durable { D.tells → OnOk result (Only (D.seen disk.new) (D.may_leave disk.new)) }
    ensures stop { D.tells → BytesLeft D.moment D.left_since disk.old disk.new
        (IsShutOrOpened gate frame.now (D.seen disk.old)) }
    ensures only { IfErr result (λ e. e ≡ WriteFault) }
    ensures cause { HasCause (D.counts disk.old) (D.counts disk.new) result }
    ensures reads { (D.counts disk.new).reads ≡ (D.counts disk.old).reads }
{
    disk.write_at(gate + 1, frame)?;
    disk.sync()?;
    disk.write_at(gate, &[1])?;
    disk.sync()
}
