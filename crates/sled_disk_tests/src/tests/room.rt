// A disk that keeps what is written until it is handed on, and takes the memory for it only where it is asked to make room.

ghost use Rattle.std.specs.Prelude.{[]};
ghost use Rattle.sled_disk.specs.DiskMemory.{counts_of};

use super::*;
use sled_base::MessageKind;

#[derive(Drop)]
pub(super) struct KeepingDisk {
    inner: MemDisk,
    // the most that it has memory for, and what it has made room for and was not written yet, by how many writes
    most: usize,
    room: usize,
    writes: u8,
}

impl KeepingDisk {
    // An empty disk, with memory for all that it has room for.
    pub(super) fn new(alloc: Global) -> Result<KeepingDisk, LogError> {
        Ok(KeepingDisk {
            inner: MemDisk::new(alloc, 4096)?,
            most: 4096,
            room: 0,
            writes: 0,
        })
    }

    // A disk that holds these bytes.
    pub(super) fn of(alloc: Global, bytes: &[u8]) -> Result<KeepingDisk, LogError> {
        let mut inner = MemDisk::new(alloc, bytes.len().saturating_add(65_536))?;
        inner.write_at(0, bytes)?;
        inner.sync()?;
        Ok(KeepingDisk {
            inner,
            most: 65_536,
            room: 0,
            writes: 0,
        })
    }

    // Lets the n-th read from now fail.
    pub(super) fn fail_read(&mut self, n: u64) {
        self.inner.fail_read(n);
    }

    // The bytes that it holds.
    pub(super) fn bytes(&self) -> &[u8] {
        self.inner.bytes()
    }
}

impl Disk for KeepingDisk {
    ghost tells = { ⊥ };

    ghost seen = { λ _. [] };

    ghost may_leave = { λ _ _. ⊥ };

    ghost moment = { λ _. 0 };

    ghost left_since = { λ _ _ _. ⊥ };

    ghost counts = { λ disk. counts_of disk.inner };

    ghost are_bytes = { λ disk i told. absurd told };

    ghost seen_now = { λ disk told. absurd told };

    ghost left_now = { λ disk left told may. absurd told };

    ghost only_now = { λ disk left told was. absurd told };

    ghost since_earlier = { λ disk t u left told le was. absurd told };

    fn len(&mut self) -> Result<u64, LogError> {
        self.inner.len()
    }

    fn read_at(&mut self, at: u64, into: &mut [u8]) -> Result<(), LogError> {
        self.inner.read_at(at, into)
    }

    fn make_room(&mut self, len: usize) -> Result<(), LogError> {
        if len > self.most {
            return Err(LogError::Memory);
        }
        self.room = len;
        self.writes = 4;
        Ok(())
    }

    // A write for which no room was made is a fault.
    fn write_at(&mut self, at: u64, bytes: &[u8]) -> Result<(), LogError> {
        if bytes.len() > self.room || self.writes == 0 {
            self.inner.fail_write(1);
        }
        self.inner.write_at(at, bytes)?;
        self.room = self.room.saturating_sub(bytes.len());
        self.writes = self.writes.saturating_sub(1);
        Ok(())
    }

    fn write_again(&mut self, at: u64) -> Result<(), LogError> {
        self.inner.write_again(at)
    }

    fn sync(&mut self) -> Result<(), LogError> {
        self.inner.sync()
    }

    fn reads(&self) -> u64 {
        self.inner.reads()
    }

    fn failed_reads(&self) -> u64 {
        self.inner.failed_reads()
    }

    fn write_faults(&self) -> u64 {
        self.inner.write_faults()
    }
}

// A new log over a disk with memory for so many bytes at a time: a frame of two pages, and one of a batch that is sealed, and one of a
// batch that is cancelled. Each append writes a frame of its own where the segments have no bytes.
fn kept(alloc: Global, segment_size: u64, most: usize) -> Result<(), LogError> {
    let mut disk = KeepingDisk {
        inner: MemDisk::new(alloc, 4096)?,
        most,
        room: 0,
        writes: 0,
    };
    DiskLog::create(&mut disk)?;
    let mut log = DiskLog::open(alloc, disk, segment_size, 0).map_err(|(error, _)| error)?;
    log.append(MessageKind::InlineMeta, 0, &[])?;
    log.append(MessageKind::Counter, 1, &[0])?;
    log.make_stable()?;
    log.pin()?;
    log.append(MessageKind::Counter, 1, &[10])?;
    log.seal()?;
    log.make_stable()?;
    log.pin()?;
    log.append(MessageKind::Counter, 1, &[20])?;
    log.cancel()?;
    log.make_stable()?;
    Ok(())
}

// The bytes of an empty file are 9. An append makes room for its frame and for one that closes a batch: that in the batch, whose record has
// 18 bytes, asks for 80, and so does the second where it is in a frame with the first. Whatever there is no room for is refused before it
// is written: none of these ends with a write fault.
#[test]
fn room_is_made_for_a_whole_frame(rt: HostRuntime) {
    for segment_size in [0, 4096] {
        for most in [0, 8, 9, 61, 62, 79] {
            let refused = kept(rt.alloc(), segment_size, most);
            assert!(rt; refused == Err(LogError::Memory), "{segment_size} {most}");
        }
        assert!(rt;
            kept(rt.alloc(), segment_size, 80) == Ok(()),
            "{segment_size}"
        );
    }
}
