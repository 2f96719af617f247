//! A log that counts what is appended to another log.

ghost use Rattle.std.specs.Prelude.{◌≡◌};

use sled_pagecache::{
    BlobPointer, DiskPtr, Log, LogError, LogOffset, Lsn, MessageKind, PageId, PageState,
};

/// The number, the place and the size of a message that was appended, or why it wasn't.
type Placed = Result<(Lsn, DiskPtr, u64), LogError>;

/// A message that was read, or why it wasn't.
type Found = Result<(MessageKind, Vec<u8>), LogError>;

/// A log, with the number of the messages appended to it and the number of bytes of their payloads.
#[derive(Drop)]
pub struct Counted<L: Log> {
    inner: L,
    pub messages: u64,
    pub bytes: u64,
}

impl<L: Log> Counted<L> {
    /// Wraps a log, and counts what is appended from now on.
    pub fn over(inner: L) -> Counted<L>
        ensures { result.inner ≡ inner }
    {
        Counted {
            inner,
            messages: 0,
            bytes: 0,
        }
    }
}

// The ghost members say what the log holds, and the last four prove it: all of it is what the inner log says.
impl<L: Log> Log for Counted<L> {
    ghost tells = { L.tells };

    ghost state = { λ log. L.state log.inner };

    ghost moment = { λ log. L.moment log.inner };

    ghost left_since = { λ log. L.left_since log.inner };

    ghost counts = { λ log. L.counts log.inner };

    ghost bytes = { λ log. L.bytes log.inner };

    ghost stable_bytes = { λ log. L.stable_bytes log.inner };

    ghost to_write = { λ log. L.to_write log.inner };

    ghost is_full = { λ log. L.is_full log.inner };

    ghost is_full_for_batch = { λ log. L.is_full_for_batch log.inner };

    ghost due = { λ log. L.due log.inner };

    ghost due_is_held = { λ log. L.due_is_held log.inner };

    ghost keeps_stable = { λ log. L.keeps_stable log.inner };

    ghost only_now = { λ log. L.only_now log.inner };

    ghost since_earlier = { λ log. L.since_earlier log.inner };

    fn append(&mut self, kind: MessageKind, pid: PageId, payload: &[u8]) -> Placed {
        let place = self.inner.append(kind, pid, payload)?;
        self.messages = self.messages.saturating_add(1);
        self.bytes = self.bytes.saturating_add(payload.len() as u64);
        Ok(place)
    }

    fn read(&mut self, pid: PageId, lsn: Lsn, pointer: DiskPtr) -> Found {
        self.inner.read(pid, lsn, pointer)
    }

    fn make_stable(&mut self) -> Result<usize, LogError> {
        self.inner.make_stable()
    }

    fn pin(&mut self) -> Result<(), LogError> {
        self.inner.pin()
    }

    fn seal(&mut self) -> Result<(), LogError> {
        self.inner.seal()
    }

    fn cancel(&mut self) -> Result<(), LogError> {
        self.inner.cancel()
    }

    fn to_move(&mut self) -> Option<(PageId, LogOffset)> {
        self.inner.to_move()
    }

    fn rewrite_blob_pointer(&mut self, pid: PageId, blob: BlobPointer) -> Placed {
        self.inner.rewrite_blob_pointer(pid, blob)
    }

    fn recover(&mut self) -> Result<Vec<PageState>, LogError> {
        self.inner.recover()
    }

    fn batch_open(&self) -> bool {
        self.inner.batch_open()
    }

    fn stable_offset(&self) -> Lsn {
        self.inner.stable_offset()
    }

    fn size(&self) -> u64 {
        self.inner.size()
    }

    fn reads(&self) -> u64 {
        self.inner.reads()
    }

    fn failed_reads(&self) -> u64 {
        self.inner.failed_reads()
    }

    fn write_faults(&self) -> u64 {
        self.inner.write_faults()
    }
}
