// A log over a device that tells nothing of its bytes: what it reads may be anything, and so may be what a crash leaves. It
// shows that the trait asks no copy of the contents in memory of such a log.

ghost use Rattle.std.specs.Prelude.{◌≡◌, ◌+◌, ◌-◌, ◌≤◌, ◌<◌, ◌==◌, pos};
ghost use Rattle.sled_log.specs.Calls.{one_more};
ghost use Rattle.sled_log.specs.Limits.{head_size, size_limit};
ghost use Rattle.sled_log.specs.Inside.Marks.{marks};
ghost use Rattle.std.specs.Prelude.{⊤, None, [], true, false};

use super::*;
use sled_base::{BlobPointer, LogKind, LogOffset, PageId};
use std::alloc::AllocError;

// A device of messages. Nothing is said of what it gives.
pub(super) trait Device: Drop {
    fn put(&mut self, at: u64, kind: MessageKind, pid: PageId, payload: &[u8]) -> bool;

    fn get(&mut self, at: u64) -> Option<(MessageKind, PageId, Vec<u8>)>;

    fn sync(&mut self) -> bool;
}

// A log of which memory has no more than counts, and whether a batch is open.
#[derive(Drop)]
pub(super) struct BlindLog<D: Device> {
    alloc: Global,
    device: D,
    end: u64,
    stable: u64,
    batch: bool,
    reads: u64,
    failed_reads: u64,
    write_faults: u64,
    ghost within: { stable ≤ end },
    ghost fits: { end < size_limit },
}

impl<D: Device> BlindLog<D> {
    // An empty log.
    pub(super) fn new(alloc: Global, device: D) -> BlindLog<D>
        ensures usable { result.write_faults ≡ 0 }
        ensures closed { result.batch ≡ false }
    {
        BlindLog {
            alloc,
            device,
            end: 0,
            stable: 0,
            batch: false,
            reads: 0,
            failed_reads: 0,
            write_faults: 0,
        }
    }
}

// One more, or the greatest number.
fn one_more(count: u64) -> u64
    ensures { result ≡ one_more count }
{
    if count < u64::MAX { count + 1 } else { count }
}

// Puts what was read of a page where it belongs, and answers whether it belongs anywhere.
fn take(
    alloc: Global,
    pages: &mut Vec<PageState>,
    kind: MessageKind,
    pid: PageId,
    said: (Lsn, DiskPtr, u64),
) -> Result<bool, AllocError> {
    let at = pid as usize;
    let page = match LogKind::from(kind) {
        LogKind::Free => PageState::Free(said.0, said.1),
        LogKind::Replace => PageState::Present {
            base: said,
            frags: Vec::new(alloc),
        },
        LogKind::Link => {
            if at >= pages.len() {
                return Ok(false);
            }
            let PageState::Present { frags, .. } = &mut pages[at] else {
                return Ok(false);
            };
            frags.push(said)?;
            return Ok(true);
        }
        LogKind::Skip | LogKind::Corrupted => return Ok(false),
    };
    if at < pages.len() {
        pages[at] = page;
        return Ok(true);
    }
    if at > pages.len() {
        return Ok(false);
    }
    pages.push(page)?;
    Ok(true)
}

impl<D: Device> Log for BlindLog<D> {
    ghost tells = { ⊥ };

    ghost state = { λ log. record { stable = []; pending = marks log.batch; usable = log.write_faults == 0 } };

    ghost moment = { λ log. 0 };

    ghost left_since = { λ log t pages. ⊤ };

    ghost counts = { λ log. record { reads = log.reads; failed_reads = log.failed_reads; write_faults = log.write_faults } };

    ghost bytes = { λ log. log.end };

    ghost stable_bytes = { λ log. pos log.stable };

    ghost to_write = { λ log. log.end - log.stable };

    ghost is_full = { λ log n. size_limit ≤ log.end + head_size + n };

    ghost is_full_for_batch = { λ _. ⊥ };

    ghost due = { λ _. None };

    ghost due_is_held = { λ log pid place told. absurd told };

    ghost keeps_stable = { λ log told. absurd told };

    ghost only_now = { λ log pages told. absurd told };

    ghost since_earlier = { λ log t u pages told. absurd told };

    fn append(
        &mut self,
        kind: MessageKind,
        pid: PageId,
        payload: &[u8],
    ) -> Result<(Lsn, DiskPtr, u64), LogError> {
        let len = payload.len() as u64;
        let room = i64::MAX as u64 - self.end;
        if room < 17 || room - 17 < len {
            return Err(LogError::Full);
        }
        if !self.device.put(self.end, kind, pid, payload) {
            self.write_faults = one_more(self.write_faults);
            return Err(LogError::WriteFault);
        }
        let at = self.end;
        self.end += 17 + len;
        Ok((at as Lsn, DiskPtr::Inline(at), 17 + len))
    }

    fn read(
        &mut self,
        _pid: PageId,
        _lsn: Lsn,
        pointer: DiskPtr,
    ) -> Result<(MessageKind, Vec<u8>), LogError> {
        self.reads = one_more(self.reads);
        let Some((kind, _, payload)) = self.device.get(pointer.lid()) else {
            self.failed_reads = one_more(self.failed_reads);
            return Err(LogError::ReadFault);
        };
        Ok((kind, payload))
    }

    fn make_stable(&mut self) -> Result<usize, LogError> {
        if !self.device.sync() {
            self.write_faults = one_more(self.write_faults);
            return Err(LogError::WriteFault);
        }
        let wrote = self.end - self.stable;
        self.stable = self.end;
        Ok(wrote as usize)
    }

    fn pin(&mut self) -> Result<(), LogError> {
        self.batch = true;
        Ok(())
    }

    fn seal(&mut self) -> Result<(), LogError> {
        self.batch = false;
        Ok(())
    }

    fn cancel(&mut self) -> Result<(), LogError> {
        self.batch = false;
        Ok(())
    }

    fn to_move(&mut self) -> Option<(PageId, LogOffset)> {
        None
    }

    // It has no blobs.
    fn rewrite_blob_pointer(
        &mut self,
        _pid: PageId,
        _blob: BlobPointer,
    ) -> Result<(Lsn, DiskPtr, u64), LogError> {
        Err(LogError::Corruption)
    }

    fn recover(&mut self) -> Result<Vec<PageState>, LogError> {
        let mut pages = Vec::new(self.alloc);
        let mut at = 0;
        while at < self.end {
            let Some((kind, pid, payload)) = self.device.get(at) else {
                self.failed_reads = one_more(self.failed_reads);
                return Err(LogError::ReadFault);
            };
            let len = payload.len() as u64;
            let left = self.end - at;
            if left < 17 || left - 17 < len {
                return Err(LogError::Corruption);
            }
            let said = (at as Lsn, DiskPtr::Inline(at), 17 + len);
            if !take(self.alloc, &mut pages, kind, pid, said)? {
                return Err(LogError::Corruption);
            }
            at += 17 + len;
        }
        Ok(pages)
    }

    fn batch_open(&self) -> bool {
        self.batch
    }

    fn stable_offset(&self) -> Lsn {
        self.stable as Lsn
    }

    fn size(&self) -> u64 {
        self.end
    }

    fn reads(&self) -> u64 {
        self.reads
    }

    fn failed_reads(&self) -> u64 {
        self.failed_reads
    }

    fn write_faults(&self) -> u64 {
        self.write_faults
    }
}
