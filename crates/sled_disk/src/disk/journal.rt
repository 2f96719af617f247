// What a disk in memory keeps of its writes and syncs, and how bytes are written over others.

ghost use Rattle.std.specs.Prelude.{◌≡◌, ◌≤◌, ◌<◌, ◌+◌, ℕ, get_or, ◌++◌, length, replicate, vec_len, vec_capacity, IsTrue};
ghost use Rattle.sled_log.specs.Calls.{one_more};
ghost use Rattle.sled_disk.specs.Disk.{overlaid};
ghost use Rattle.sled_disk.specs.Journal.{is_within, length_after, call_in, Image, after_call, IsReplayed};

// A write or a sync that was made. The bytes of a write are those from one place up to another among all that were written.
#[derive(Clone, Copy)]
pub(super) enum Call {
    Write { at: usize, from: usize, to: usize },
    Sync,
}

// Adds bytes behind the others. There is room.
pub(super) fn add(bytes: &mut Vec<u8>, more: &[u8])
    requires room { vec_len bytes.old + length more.now ≤ vec_capacity bytes.old }
    ensures items { bytes.new.items ≡ bytes.old.items ++ more.now }
    ensures capacity { vec_capacity bytes.old ≤ vec_capacity bytes.new }
{
    let _room_was_reserved = bytes.extend_from_slice(more);
}

// Writes bytes over those that stand there, and past the end. There is room.
pub(super) fn overlay(bytes: &mut Vec<u8>, at: usize, more: &[u8])
    requires within { at ≤ vec_len bytes.old }
    requires room { at + length more.now ≤ vec_capacity bytes.old }
    ensures items { bytes.new.items ≡ overlaid bytes.old.items at more.now }
    ensures capacity { vec_capacity bytes.old ≤ vec_capacity bytes.new }
{
    let over = more.len().min(bytes.len() - at);
    bytes[at..at + over].copy_from_slice(&more[..over]);
    add(bytes, &more[over..]);
}

// The same, and then that byte in place of each of them.
pub(super) fn overlay_filled(bytes: &mut Vec<u8>, at: usize, more: &[u8], byte: u8)
    requires within { at ≤ vec_len bytes.old }
    requires room { at + length more.now ≤ vec_capacity bytes.old }
    ensures items { bytes.new.items
        ≡ overlaid bytes.old.items at (replicate (length more.now) byte) }
    ensures capacity { vec_capacity bytes.old ≤ vec_capacity bytes.new }
{
    overlay(bytes, at, more);
    bytes[at..at + more.len()].fill(byte);
}

// Makes bytes those of another list. There is room.
pub(super) fn copy(bytes: &mut Vec<u8>, from: &[u8])
    requires room { length from.now ≤ vec_capacity bytes.old }
    ensures items { bytes.new.items ≡ from.now }
    ensures are_bytes { (i : ℕ) → get_or bytes.new.items i 0 < 256 }
    ensures capacity { vec_capacity bytes.old ≤ vec_capacity bytes.new }
{
    bytes.clear();
    add(bytes, from);
}

// Makes a call again of what a read gave, and of what a crash left: a write is as it was written or, where one is given, of that
// byte. There is room.
pub(super) fn replay(
    seen: &mut Vec<u8>,
    left: &mut Vec<u8>,
    call: Call,
    written: &[u8],
    fill: Option<u8>,
)
    requires within { IsTrue (is_within (length written.now) (length seen.old.items) call) }
    requires long { length left.old.items ≡ length seen.old.items }
    requires seen_room { length_after (length seen.old.items) call ≤ vec_capacity seen.old }
    requires left_room { length_after (length seen.old.items) call ≤ vec_capacity left.old }
    ensures replayed { (image : Image) → IsReplayed fill image seen.old.items left.old.items
        → IsReplayed fill (after_call image (call_in written.now call)) seen.new.items
        left.new.items }
    ensures length { length seen.new.items ≡ length_after (length seen.old.items) call }
    ensures long { length left.new.items ≡ length seen.new.items }
    ensures seen_capacity { vec_capacity seen.old ≤ vec_capacity seen.new }
    ensures left_capacity { vec_capacity left.old ≤ vec_capacity left.new }
{
    match call {
        Call::Write { at, from, to } => {
            let more = &written[from..to];
            overlay(seen, at, more);
            match fill {
                Some(byte) => overlay_filled(left, at, more, byte),
                None => overlay(left, at, more),
            }
        }
        Call::Sync => copy(left, seen),
    }
}

// Counts one more, up to the greatest number.
pub(crate) fn count(n: &mut u64)
    ensures { n.new ≡ one_more n.old }
{
    *n = n.saturating_add(1);
}
