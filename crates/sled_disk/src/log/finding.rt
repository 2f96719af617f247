// A record of a page by its place.

ghost use Rattle.std.specs.Prelude.{◌≡◌, ◌≢◌, ◌≤◌, ◌<◌, ◌+◌, ◌-◌, ◌⊎◌, [], true, take, drop, slice_index_or, IfOk, IfErr, IfSome, IfNone};
ghost use Rattle.std.specs.List.{AllByRecursion};
ghost use Rattle.sled_log.specs.Payloads.{payload_in};
ghost use Rattle.sled_log.specs.declared.log.LogError.TheVariants.{Memory, ReadFault};
ghost use Rattle.sled_disk.specs.HeadLookup.{IsHeadOf};
ghost use Rattle.sled_disk.specs.DiskReads.{Rests, ReadFaults};
ghost use Rattle.sled_disk.specs.RecoveredHeads.{EndsBy, IsPlaced};
ghost use Rattle.sled_disk.specs.Reading.{chains_of};
ghost use Rattle.sled_disk.specs.PendingFrame.{place_of};

use super::DiskLog;
use crate::disk::Disk;
use crate::recovery::head::Head;
use sled_base::{LogOffset, PageId};
use sled_log::{LogError, Payload};
use std::alloc::Global;

// The head of the record at a place.
fn head_at(chain: &[Head], at: LogOffset) -> Option<Head>
    ensures some { IfSome result (λ head. IsHeadOf at head chain.now) }
    ensures none { IfNone result (AllByRecursion (λ head. head.place ≢ at) chain.now) }
{
    for head in chain {
        if head.place == at {
            return Some(*head);
        }
    }
    None
}

// The head of the record of a page at a place.
pub(crate) fn find(pages: &[Vec<Head>], pid: PageId, at: LogOffset) -> Option<Head>
    ensures some { IfSome result
        (λ head. IsHeadOf at head (slice_index_or (chains_of pages.now) pid [])) }
    ensures none { IfNone result
        (AllByRecursion (λ head. head.place ≢ at) (slice_index_or (chains_of pages.now) pid [])) }
{
    if pid >= pages.len() as u64 {
        return None;
    }
    head_at(&pages[pid as usize], at)
}

// So many bytes at a place of a disk, as the payload of a message: they are put into the space where it has room for them.
fn payload_on<D: Disk>(
    alloc: Global,
    disk: &mut D,
    at: u64,
    len: usize,
    space: &mut [u8],
) -> Result<Payload, LogError>
    ensures bytes { D.tells → IfOk result
        (λ payload. payload_in space.new payload ≡ take len (drop at (D.seen disk.old))) }
    ensures only { IfErr result (λ e. (e ≡ Memory) ⊎ (e ≡ ReadFault)) }
    ensures rests { Rests D.tells D.seen D.may_leave D.moment D.left_since disk.old disk.new }
    ensures faults { ReadFaults (D.counts disk.old) (D.counts disk.new) result }
{
    if len > space.len() {
        let mut bytes = vec![in alloc; 0; len]?;
        disk.read_at(at, &mut bytes)?;
        return Ok(Payload::Long(bytes));
    }
    disk.read_at(at, &mut space[..len])?;
    Ok(Payload::Short(len))
}

impl<D: Disk> DiskLog<D> {
    // The payload of a record, which is put into the space where it has room for it: that of a pending one is copied from memory.
    pub(crate) fn payload(&mut self, head: Head, space: &mut [u8]) -> Result<Payload, LogError>
        requires usable { self.old.usable ≡ true }
        requires placed { IsPlaced head }
        requires ends { EndsBy (place_of self.old.next) head }
        ensures next { self.new.next ≡ self.old.next }
        ensures names { self.new.names ≡ self.old.names }
        ensures settings { (self.new.segment_size ≡ self.old.segment_size)
            × (self.new.clean_every ≡ self.old.clean_every) }
        ensures usable { self.new.usable ≡ true }
        ensures reads { self.new.reads ≡ self.old.reads }
        ensures durable { D.tells → head.place ≤ self.old.next.gate → IfOk result
            (λ payload. payload_in space.new payload
            ≡ take head.len (drop (head.place + 17) (D.seen self.old.disk))) }
        ensures pending { self.old.next.gate < head.place → IfOk result
            (λ payload. payload_in space.new payload ≡ take head.len
            (drop (head.place - self.old.next.gate - 1 + 17) self.old.next.buffer.items)) }
        ensures memory { self.old.next.gate < head.place → self.new.disk ≡ self.old.disk }
        ensures only { IfErr result (λ e. (e ≡ Memory) ⊎ (e ≡ ReadFault)) }
        ensures rests { Rests D.tells D.seen D.may_leave D.moment D.left_since self.old.disk
            self.new.disk }
        ensures faults { ReadFaults (D.counts self.old.disk) (D.counts self.new.disk) result }
    {
        let gate = self.next.gate();
        if head.place > gate {
            let at = head.place - gate - 1;
            let bytes = self.next.payload(at, head.len);
            return Ok(Payload::put(self.alloc, bytes, space)?);
        }
        let (at, len) = (head.place + 17, head.len as usize);
        payload_on(self.alloc, &mut self.disk, at, len, space)
    }
}
