//! The tasks of a staged disk, done on another disk.

ghost use Rattle.std.specs.Prelude.{◌≡◌, ◌≤◌, ◌⊎◌, [], ◌∷◌, true, false, length, IfErr, IfOk, OnOk, OnErr};
ghost use Rattle.sled_log.specs.Calls.{HasCause};
ghost use Rattle.sled_log.specs.declared.log.LogError.TheVariants.{Memory, ReadFault, WriteFault};
ghost use Rattle.sled_disk.specs.Disk.{Follows, LeavesNoMore, Torn, overlaid};
ghost use Rattle.sled_disk.specs.StagedReads.{FitsIn, IsThere, LeavesTask, SettlesTask, after_task};
ghost use Rattle.sled_disk.specs.Staged.{failed, might_have_left, HandsOut, IsDoneOn, StaysTheSame};

use super::{CallersFile, StagedDisk, Task};
use crate::disk::Disk;
use sled_log::LogError;

/// Does the next task of a staged disk on another disk, as a caller's loop does, and returns it. Returns `None` if no task is handed out. A
/// single byte that is there already is written with `write_again`.
///
/// If both disks tell their bytes, the other one behaves as the file of a caller that keeps its word. If it had done all tasks that were
/// handed out before, it has done this one too, and once none is queued its reads return what those of the staged disk do. A crash of it,
/// even inside this call, leaves one of the crash states of the staged disk since the call began.
///
/// Memory, ReadFault and WriteFault: the other disk failed. The staged disk is then as after `fail`, and hands out no further task.
pub fn do_task<F: CallersFile, D: Disk>(
    staged: &mut StagedDisk<F>,
    disk: &mut D,
    buffer: &mut [u8],
) -> Result<Option<Task>, LogError>
    ensures next { IfOk result (λ found. HandsOut found buffer.new staged.old staged.new) }
    ensures done { F.tells → D.tells → IsDoneOn D.Disk staged.old disk.old
        → OnOk result (IsDoneOn D.Disk staged.new disk.new) }
    ensures left { F.tells → D.tells → IsDoneOn D.Disk staged.old disk.old
        → LeavesNoMore (might_have_left staged.new (length (F.done staged.old.file))) (D.may_leave disk.new) }
    ensures rests { StaysTheSame staged.old staged.new }
    ensures fails { OnErr result (failed staged.new ≡ true) }
    ensures only { IfErr result (λ e. (e ≡ Memory) ⊎ (e ≡ ReadFault) ⊎ (e ≡ WriteFault)) }
    ensures cause { HasCause (D.counts disk.old) (D.counts disk.new) result }
{
    let Some(task) = staged.next_task(buffer) else {
        return Ok(None);
    };
    match apply(disk, task, buffer) {
        Ok(()) => Ok(Some(task)),
        Err(error) => {
            staged.fail();
            Err(error)
        }
    }
}

// Does a task, the bytes of which stand at the front of a buffer.
fn apply<D: Disk>(disk: &mut D, task: Task, buffer: &[u8]) -> Result<(), LogError>
    requires { FitsIn task buffer.now }
    ensures did { D.tells
        → OnOk result (D.seen disk.new ≡ after_task (D.seen disk.old) task buffer.now) }
    ensures leaves { D.tells
        → LeavesTask task buffer.now (D.seen disk.old) (D.may_leave disk.old) (D.may_leave disk.new) }
    ensures durable { D.tells
        → OnOk result (SettlesTask task (D.seen disk.old) (D.may_leave disk.new)) }
    ensures only { IfErr result (λ e. (e ≡ Memory) ⊎ (e ≡ ReadFault) ⊎ (e ≡ WriteFault)) }
    ensures cause { HasCause (D.counts disk.old) (D.counts disk.new) result }
{
    match task {
        Task::Write { at, len } => write(disk, at, &buffer[..len]),
        Task::Sync => disk.sync(),
    }
}

// Writes bytes; a single one that is there already is written again.
fn write<D: Disk>(disk: &mut D, at: u64, bytes: &[u8]) -> Result<(), LogError>
    ensures written { D.tells
        → OnOk result (D.seen disk.new ≡ overlaid (D.seen disk.old) at bytes.now) }
    ensures stop { D.tells
        → Follows (Torn at (length bytes.now)) (D.may_leave disk.old) (D.may_leave disk.new) }
    ensures again { D.tells → length bytes.now ≤ 1 → IsThere at bytes.now (D.seen disk.old)
        → LeavesNoMore (D.may_leave disk.old) (D.may_leave disk.new) }
    ensures only { IfErr result (λ e. (e ≡ Memory) ⊎ (e ≡ ReadFault) ⊎ (e ≡ WriteFault)) }
    ensures cause { HasCause (D.counts disk.old) (D.counts disk.new) result }
{
    match bytes {
        [] => Ok(()),
        [byte] => write_byte(disk, at, *byte),
        _ => write_anew(disk, at, bytes),
    }
}

fn write_byte<D: Disk>(disk: &mut D, at: u64, byte: u8) -> Result<(), LogError>
    ensures written { D.tells
        → OnOk result (D.seen disk.new ≡ overlaid (D.seen disk.old) at (byte ∷ [])) }
    ensures stop { D.tells → Follows (Torn at 1) (D.may_leave disk.old) (D.may_leave disk.new) }
    ensures again { D.tells → IsThere at (byte ∷ []) (D.seen disk.old)
        → LeavesNoMore (D.may_leave disk.old) (D.may_leave disk.new) }
    ensures only { IfErr result (λ e. (e ≡ Memory) ⊎ (e ≡ ReadFault) ⊎ (e ≡ WriteFault)) }
    ensures cause { HasCause (D.counts disk.old) (D.counts disk.new) result }
{
    if is_there(disk, at, byte)? {
        disk.write_again(at)
    } else {
        write_anew(disk, at, &[byte])
    }
}

fn write_anew<D: Disk>(disk: &mut D, at: u64, bytes: &[u8]) -> Result<(), LogError>
    ensures written { D.tells
        → OnOk result (D.seen disk.new ≡ overlaid (D.seen disk.old) at bytes.now) }
    ensures stop { D.tells
        → Follows (Torn at (length bytes.now)) (D.may_leave disk.old) (D.may_leave disk.new) }
    ensures only { IfErr result (λ e. (e ≡ Memory) ⊎ (e ≡ ReadFault) ⊎ (e ≡ WriteFault)) }
    ensures cause { HasCause (D.counts disk.old) (D.counts disk.new) result }
{
    disk.make_room(bytes.len())?;
    disk.write_at(at, bytes)
}

// Whether a byte is at a place.
fn is_there<D: Disk>(disk: &mut D, at: u64, byte: u8) -> Result<bool, LogError>
    ensures there { D.tells
        → IfOk result (λ there. there ≡ true → IsThere at (byte ∷ []) (D.seen disk.old)) }
    ensures other { D.tells
        → IfOk result (λ there. there ≡ false → IsThere at (byte ∷ []) (D.seen disk.old) → ⊥) }
    ensures seen { D.tells → D.seen disk.new ≡ D.seen disk.old }
    ensures stop { D.tells → LeavesNoMore (D.may_leave disk.old) (D.may_leave disk.new) }
    ensures only { IfErr result (λ e. e ≡ ReadFault) }
    ensures cause { HasCause (D.counts disk.old) (D.counts disk.new) result }
{
    if at >= disk.len()? {
        return Ok(false);
    }
    let mut found = [0];
    disk.read_at(at, &mut found)?;
    Ok(found[0] == byte)
}
