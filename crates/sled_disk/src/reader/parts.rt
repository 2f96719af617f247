//! Reading the parts of a file from a disk.

ghost use Rattle.std.specs.Prelude.{◌≡◌, ◌+◌, ◌≤◌, ◌<◌, ◌⊎◌, length, take, drop, get_or, IfOk, IfErr};
ghost use Rattle.sled_log.specs.declared.log.LogError.TheVariants.{Memory, ReadFault};
ghost use Rattle.sled_disk.specs.Format.{number};
ghost use Rattle.sled_disk.specs.DiskReads.{Rests, ReadFaults, Shows, HasBody, BodyOnDisk, HasHead, HeadOnDisk};

use super::window::Window;
use crate::disk::Disk;
use crate::format::record::{RawHead, head_in, number_at};
use sled_log::LogError;

// The gate at a place.
pub(crate) fn gate_on<D: Disk>(
    window: &mut Window,
    disk: &mut D,
    at: u64,
    end: u64,
) -> Result<u8, LogError>
    requires shows { Shows D.tells (D.seen disk.old) window.old }
    requires within { at < end }
    ensures shows { Shows D.tells (D.seen disk.old) window.new }
    ensures gate { D.tells → IfOk result (λ gate. gate ≡ get_or (drop at (D.seen disk.old)) 0 0) }
    ensures only { IfErr result (λ e. (e ≡ Memory) ⊎ (e ≡ ReadFault)) }
    ensures rests { Rests D.tells D.seen D.may_leave D.moment D.left_since disk.old disk.new }
    ensures faults { ReadFaults (D.counts disk.old) (D.counts disk.new) result }
{
    let from = window.reach(disk, at, 1, end)?;
    Ok(window.bytes()[from])
}

// The number at a place.
pub(crate) fn number_on<D: Disk>(
    window: &mut Window,
    disk: &mut D,
    at: u64,
    end: u64,
) -> Result<u64, LogError>
    requires shows { Shows D.tells (D.seen disk.old) window.old }
    requires within { at + 8 ≤ end }
    ensures shows { Shows D.tells (D.seen disk.old) window.new }
    ensures number { D.tells → IfOk result (λ n. n ≡ number (take 8 (drop at (D.seen disk.old)))) }
    ensures only { IfErr result (λ e. (e ≡ Memory) ⊎ (e ≡ ReadFault)) }
    ensures rests { Rests D.tells D.seen D.may_leave D.moment D.left_since disk.old disk.new }
    ensures faults { ReadFaults (D.counts disk.old) (D.counts disk.new) result }
{
    let from = window.reach(disk, at, 8, end)?;
    Ok(number_at(&window.bytes()[from..]))
}

// The length of the body behind a gate, which stands at a place, if the file holds the body.
pub(crate) fn body_on<D: Disk>(
    window: &mut Window,
    disk: &mut D,
    at: u64,
    end: u64,
) -> Result<Option<u64>, LogError>
    requires shows { Shows D.tells (D.seen disk.old) window.old }
    requires within { at ≤ end }
    requires end { D.tells → end ≡ length (D.seen disk.old) }
    ensures shows { Shows D.tells (D.seen disk.old) window.new }
    ensures has { IfOk result (λ found. HasBody at end found) }
    ensures body { D.tells → IfOk result (λ found. BodyOnDisk (D.seen disk.old) at found) }
    ensures only { IfErr result (λ e. (e ≡ Memory) ⊎ (e ≡ ReadFault)) }
    ensures rests { Rests D.tells D.seen D.may_leave D.moment D.left_since disk.old disk.new }
    ensures faults { ReadFaults (D.counts disk.old) (D.counts disk.new) result }
{
    let room = end - at;
    if room < 8 {
        return Ok(None);
    }
    let len = number_on(window, disk, at, end)?;
    if len == 0 {
        return Ok(None);
    }
    if room - 8 < len {
        return Ok(None);
    }
    Ok(Some(len))
}

// The record at a place of a body, by its head and its payload's length, if the body holds it.
pub(crate) fn head_on<D: Disk>(
    window: &mut Window,
    disk: &mut D,
    at: u64,
    body_end: u64,
    end: u64,
) -> Result<Option<(RawHead, u64)>, LogError>
    requires shows { Shows D.tells (D.seen disk.old) window.old }
    requires within { at ≤ body_end }
    requires inside { body_end ≤ end }
    requires end { D.tells → end ≡ length (D.seen disk.old) }
    ensures shows { Shows D.tells (D.seen disk.old) window.new }
    ensures has { IfOk result (λ found. HasHead at body_end found) }
    ensures head { D.tells → IfOk result (λ found. HeadOnDisk (D.seen disk.old) at body_end found) }
    ensures only { IfErr result (λ e. (e ≡ Memory) ⊎ (e ≡ ReadFault)) }
    ensures rests { Rests D.tells D.seen D.may_leave D.moment D.left_since disk.old disk.new }
    ensures faults { ReadFaults (D.counts disk.old) (D.counts disk.new) result }
{
    let room = body_end - at;
    if room < 17 {
        return Ok(None);
    }
    let from = window.reach(disk, at, 17, end)?;
    let (raw, len) = head_in(&window.bytes()[from..]);
    if room - 17 < len {
        return Ok(None);
    }
    Ok(Some((raw, len)))
}
