// What is read of a file, and that reading goes on behind a fault.

ghost use Rattle.std.specs.Prelude.{[], IfOk, OnOk};
ghost use Rattle.sled_disk.specs.Disk.{Only};
ghost use Rattle.sled_disk.specs.ReaderState.{GoesOn};

use super::*;

// A disk with these bytes and zeros behind them, which tells nothing. Every second read of bytes fails where it is late.
#[derive(Drop)]
pub(super) struct Sparse {
    bytes: Vec<u8>,
    len: u64,
    late: bool,
    failed: bool,
    reads: u64,
    failed_reads: u64,
    // how many bytes were read
    read: usize,
}

pub(super) fn with_zeros_behind(bytes: Vec<u8>, len: u64, late: bool) -> Sparse {
    Sparse {
        bytes,
        len,
        late,
        failed: false,
        reads: 0,
        failed_reads: 0,
        read: 0,
    }
}

impl Disk for Sparse {
    ghost tells = { ⊥ };

    ghost seen = { λ _. [] };

    ghost may_leave = { λ _ _. ⊥ };

    ghost moment = { λ _. 0 };

    ghost left_since = { λ _ _ _. ⊥ };

    ghost counts = { λ disk. record { reads = disk.reads; failed_reads = disk.failed_reads; write_faults = 0 } };

    ghost are_bytes = { λ disk i told. absurd told };

    ghost seen_now = { λ disk told. absurd told };

    ghost left_now = { λ disk left told may. absurd told };

    ghost only_now = { λ disk left told was. absurd told };

    ghost since_earlier = { λ disk t u left told le was. absurd told };

    fn len(&mut self) -> Result<u64, LogError> {
        count(&mut self.reads);
        Ok(self.len)
    }

    fn read_at(&mut self, at: u64, into: &mut [u8]) -> Result<(), LogError> {
        count(&mut self.reads);
        self.failed = self.late && !self.failed;
        if self.failed || self.len < into.len() as u64 || self.len - (into.len() as u64) < at {
            count(&mut self.failed_reads);
            return Err(LogError::ReadFault);
        }
        for (behind, byte) in into.iter_mut().enumerate() {
            *byte = byte_at(&self.bytes, at, behind);
        }
        self.read = self.read.saturating_add(into.len());
        Ok(())
    }

    fn make_room(&mut self, _len: usize) -> Result<(), LogError> {
        Ok(())
    }

    fn write_at(&mut self, _at: u64, _bytes: &[u8]) -> Result<(), LogError> {
        Ok(())
    }

    fn write_again(&mut self, at: u64) -> Result<(), LogError> {
        self.read_at(at, &mut [0])
    }

    fn sync(&mut self) -> Result<(), LogError> {
        Ok(())
    }

    fn reads(&self) -> u64 {
        self.reads
    }

    fn failed_reads(&self) -> u64 {
        self.failed_reads
    }

    fn write_faults(&self) -> u64 {
        0
    }
}

// The byte so many places behind one.
fn byte_at(bytes: &[u8], at: u64, behind: usize) -> u8 {
    match bytes.get((at as usize).saturating_add(behind)) {
        Some(byte) => *byte,
        None => 0,
    }
}

const TWO_GIB: u64 = 1 << 31;

// A frame of one cancelled batch, whose payload has so many bytes, none of which stand there.
fn front_of_payload(alloc: Global, len: u32) -> Option<Vec<u8>> {
    let len = u64::from(len);
    let mut file = marks::front(alloc, 17 + len)?;
    if !marks::put_head(&mut file, 1, 0, len) {
        return None;
    }
    Some(file)
}

// How many bytes are read of a file with a payload of 2 GiB, if it opens.
fn read_of_a_long_payload(alloc: Global) -> Option<usize> {
    let file = front_of_payload(alloc, 1 << 31)?;
    let log = DiskLog::open(
        alloc,
        with_zeros_behind(file, 35 + TWO_GIB, false),
        4096,
        16,
    )
    .ok()?;
    if log.size() != 35 + TWO_GIB {
        return None;
    }
    Some(log.into_disk().read)
}

// The first piece has the head, and the second the gate behind the payload; and the byte of the open gate is written again.
#[test]
fn a_payload_is_skipped(rt: HostRuntime) {
    assert_eq!(rt; read_of_a_long_payload(rt.alloc()), Some(65_538));
}

// A payload of 80,000 bytes, and the frame of a new cache behind it.
fn long_file(alloc: Global) -> Option<Vec<u8>> {
    let mut file = front_of_payload(alloc, 80_000)?;
    let payload = vec![in alloc; 7; 80_000].ok()?;
    file.extend_from_slice(&payload).ok()?;
    file.extend_from_slice(FIRST.get(8..)?).ok()?;
    Some(file)
}

// The place of the closed gate, where each read that fails is made again, so often at most.
fn gate_of(alloc: Global, disk: &mut Sparse, tries: u32) -> Option<u64> {
    let mut begun = None;
    for _ in 0..tries {
        begun = Reader::begin(alloc, disk).ok();
        if begun.is_some() {
            break;
        }
    }
    let mut reader = begun?;
    for _ in 0..tries {
        if let Ok(gate) = reader.read(disk) {
            return Some(gate);
        }
    }
    None
}

// The place of the gate, how often the disk was read for it, and how often that failed.
fn read_in_parts(alloc: Global, late: bool) -> Option<(u64, u64, u64)> {
    let file = long_file(alloc)?;
    let len = file.len() as u64;
    let mut disk = with_zeros_behind(file, len, late);
    let gate = gate_of(alloc, &mut disk, 4)?;
    Some((gate, disk.reads(), disk.failed_reads()))
}

#[test]
fn a_reader_goes_on_behind_a_fault(rt: HostRuntime) {
    let alloc = rt.alloc();
    // the length and two pieces; with the first and the second piece each failing once, the length is asked for again
    assert_eq!(rt; read_in_parts(alloc, false), Some((80_078, 3, 0)));
    assert_eq!(rt; read_in_parts(alloc, true), Some((80_078, 6, 2)));
}

// A reader of this disk, all of which was made durable before.
fn begin_on<D: Disk>(alloc: Global, disk: &mut D) -> Result<Reader, LogError>
    ensures goes_on { D.tells → IfOk result (λ reader. GoesOn (D.seen disk.new) reader) }
    ensures synced { D.tells → OnOk result (Only (D.seen disk.new) (D.may_leave disk.new)) }
{
    disk.sync()?;
    let reader = Reader::begin(alloc, disk)?;
    Ok(reader)
}

// How many pages a log recovers whose second piece can't be read at first, how often its disk was read, and how often that failed.
fn opened_in_parts<D: Disk>(alloc: Global, mut disk: D) -> Option<(usize, u64, u64)> {
    let Ok(reader) = begin_on(alloc, &mut disk) else {
        return None;
    };
    let Err((LogError::ReadFault, reader, disk)) = DiskLog::open_with(alloc, reader, disk, 4096, 16)
    else {
        return None;
    };
    let Ok(mut log) = DiskLog::open_with(alloc, reader, disk, 4096, 16) else {
        return None;
    };
    let pages = log.recover().ok()?.len();
    let disk = log.into_disk();
    Some((pages, disk.reads(), disk.failed_reads()))
}

// The same of a disk whose third read fails: behind the length and the first piece.
fn opened_behind_a_fault(alloc: Global) -> Option<(usize, u64, u64)> {
    let file = long_file(alloc)?;
    let mut disk = disk_of(alloc, &file).ok()?;
    disk.fail_read(3);
    opened_in_parts(alloc, disk)
}

#[test]
fn a_log_opens_behind_a_fault(rt: HostRuntime) {
    // the length, the first piece, and the second one twice
    assert_eq!(rt; opened_behind_a_fault(rt.alloc()), Some((2, 4, 1)));
}
