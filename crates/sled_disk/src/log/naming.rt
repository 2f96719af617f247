// The message that is to be named next, which is read from the file or from what is pending.

ghost use Rattle.std.specs.Prelude.{◌≡◌, ◌≤◌, ◌<◌, ◌+◌, ◌-◌, ◌*◌, ◌^◌, ◌⊎◌, None, IfOk, IfErr, IsErrOf, true, false, length, take, drop};
ghost use Rattle.sled_log.specs.declared.log.LogError.TheVariants.{ReadFault, Corruption};
ghost use Rattle.sled_disk.specs.Cursor.{IsFront};
ghost use Rattle.sled_disk.specs.Format.{number};
ghost use Rattle.sled_disk.specs.Names.{moves_in, most_steps, IsStep, IsFound, IsSought};
ghost use Rattle.sled_disk.specs.DiskReads.{Rests, ReadFaults};
ghost use Rattle.sled_disk.specs.LogSteps.{LooksAhead};
ghost use Rattle.sled_disk.specs.PendingFrame.{place_of};

use super::DiskLog;
use crate::disk::Disk;
use crate::format::next_frame::NextFrame;
use crate::format::record::{RawHead, head_in, number_at};
use sled_log::LogError;

// So many frames and records are gone over at most in one call.
const MOST_STEPS: u64 = 256;

// Where a frame ends whose gate stands at a place: behind all that is pending, where it is the pending one.
fn frame_end<D: Disk>(disk: &mut D, next: &NextFrame, gate: u64) -> Result<u64, LogError>
    ensures pending { next.now.gate ≤ gate → IfOk result (λ end. end ≡ place_of next.now) }
    ensures durable { D.tells → gate < next.now.gate → IfOk result
        (λ end. end ≡ gate + 9 + number (take 8 (drop (gate + 1) (D.seen disk.old)))) }
    ensures corrupt { D.tells → IsErrOf result Corruption → (gate < next.now.gate)
        × (2 ^ 64 ≤ gate + 9 + number (take 8 (drop (gate + 1) (D.seen disk.old)))) }
    ensures only { IfErr result (λ e. (e ≡ ReadFault) ⊎ (e ≡ Corruption)) }
    ensures rests { Rests D.tells D.seen D.may_leave D.moment D.left_since disk.old disk.new }
    ensures faults { ReadFaults (D.counts disk.old) (D.counts disk.new) result }
    ensures reads { (D.counts disk.new).reads ≤ (D.counts disk.old).reads + 1 }
{
    if gate >= next.gate() {
        return Ok(next.place());
    }
    let mut bytes = [0; 8];
    disk.read_at(gate + 1, &mut bytes)?;
    (gate + 9)
        .checked_add(number_at(&bytes))
        .ok_or(LogError::Corruption)
}

// The head of the record at a place, and its payload's length.
fn head_of<D: Disk>(disk: &mut D, next: &NextFrame, at: u64) -> Result<(RawHead, u64), LogError>
    ensures pending { next.now.gate < at → IfOk result
        (λ x. IsFront (drop (at - (next.now.gate + 1)) next.now.buffer.items) x.0 x.1) }
    ensures durable { D.tells → at ≤ next.now.gate
        → IfOk result (λ x. IsFront (drop at (D.seen disk.old)) x.0 x.1) }
    ensures corrupt { IsErrOf result Corruption → (next.now.gate < at)
        × (length next.now.buffer.items < at - (next.now.gate + 1) + 17) }
    ensures only { IfErr result (λ e. (e ≡ ReadFault) ⊎ (e ≡ Corruption)) }
    ensures rests { Rests D.tells D.seen D.may_leave D.moment D.left_since disk.old disk.new }
    ensures faults { ReadFaults (D.counts disk.old) (D.counts disk.new) result }
    ensures reads { (D.counts disk.new).reads ≤ (D.counts disk.old).reads + 1 }
{
    if at > next.gate() {
        return next.head(at).ok_or(LogError::Corruption);
    }
    let mut bytes = [0; 17];
    disk.read_at(at, &mut bytes)?;
    Ok(head_in(&bytes))
}

impl<D: Disk> DiskLog<D> {
    // Goes on into the next frame, or over a record and keeps its message, if it is one. Answers whether that was no message.
    fn step(&mut self) -> bool
        requires usable { self.old.usable ≡ true }
        requires unread { self.old.names.read ≡ None }
        ensures looks { LooksAhead self.old self.new }
        ensures moves { D.tells → moves_in (D.seen self.old.disk) self.new.next self.new.names
            ≡ moves_in (D.seen self.old.disk) self.old.next self.old.names }
        ensures disk_reads { (D.counts self.new.disk).reads ≤ (D.counts self.old.disk).reads + 2 }
        ensures unread { result ≡ true → self.new.names.read ≡ None }
        ensures further { D.tells → result ≡ true → IsStep self.old.names self.new.names }
        ensures ended { D.tells → result ≡ false → IsFound self.new.names
            (D.counts self.old.disk) (D.counts self.new.disk)
            (moves_in (D.seen self.old.disk) self.old.next self.old.names) }
    {
        let Ok(end) = frame_end(&mut self.disk, &self.next, self.names.gate()) else {
            return false;
        };
        let at = self.names.at();
        if at < end {
            return match head_of(&mut self.disk, &self.next, at) {
                Ok((raw, len)) => self.names.pass(raw, len),
                Err(_) => false,
            };
        }
        if end > self.next.gate() {
            return self.names.end();
        }
        self.names.enter(end);
        true
    }

    // Reads the message that is to be named next, where none was read and any is ever due.
    pub(crate) fn read_name(&mut self)
        requires usable { self.old.usable ≡ true }
        ensures looks { LooksAhead self.old self.new }
        ensures moves { D.tells → moves_in (D.seen self.old.disk) self.new.next self.new.names
            ≡ moves_in (D.seen self.old.disk) self.old.next self.old.names }
        ensures disk_reads { (D.counts self.new.disk).reads
            ≤ (D.counts self.old.disk).reads + 2 * most_steps }
        ensures none { self.old.clean_every ≡ 0 → self.new.disk ≡ self.old.disk }
        ensures read { D.tells → 0 < self.old.clean_every
            → IsSought self.old.names self.new.names (D.counts self.old.disk)
            (D.counts self.new.disk)
            (moves_in (D.seen self.old.disk) self.old.next self.old.names) }
    {
        if !self.names.is_awaited(self.clean_every) {
            return;
        }
        for _ in 0..MOST_STEPS {
            if !self.step() {
                return;
            }
        }
    }
}
