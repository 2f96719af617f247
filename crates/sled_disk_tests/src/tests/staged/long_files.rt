// A long file that is opened over a staged disk, a piece at a time.

ghost use Rattle.std.specs.Prelude.{◌≡◌, true, IfSome};

use super::super::marks;
use super::device::{Device, device_of};
use super::*;

// A reader of the file, which is begun again once its first piece is handed in.
fn begun(alloc: Global, disk: &mut StagedDisk, device: &mut Device) -> Option<Reader> {
    disk.sync().ok()?;
    for _ in 0..2u32 {
        match Reader::begin(alloc, disk) {
            Ok(reader) => return Some(reader),
            Err(LogError::ReadFault) => {}
            Err(_) => return None,
        }
        if !device.serve(disk) {
            return None;
        }
    }
    None
}

// The log of the file: its reader goes on behind each piece that is handed in.
fn opened(alloc: Global, mut disk: StagedDisk, device: &mut Device) -> Option<DiskLog<StagedDisk>>
    ensures { IfSome result (λ log. log.usable ≡ true) }
{
    let mut reader = begun(alloc, &mut disk, device)?;
    for _ in 0..8u32 {
        match DiskLog::open_with(alloc, reader, disk, 4096, 0) {
            Ok(log) => return Some(log),
            Err((LogError::ReadFault, reader_back, disk_back)) => {
                reader = reader_back;
                disk = disk_back;
            }
            Err(_) => return None,
        }
        if !device.serve(&mut disk) {
            return None;
        }
    }
    None
}

// How many pages a file of 20,000 has once it is opened so, how often the disk was read, and how often that failed; how many bytes
// were handed in, and how many syncs made.
fn opened_in_pieces(alloc: Global) -> Option<(usize, u64, u64, usize, usize)> {
    let mut file = marks::pages(alloc, 20_000, 3)?;
    file.push(0).ok()?;
    let disk = StagedDisk::new(alloc, file.len() as u64);
    let mut device = device_of(file, 64, usize::MAX);
    let mut log = opened(alloc, disk, &mut device)?;
    let pages = log.recover().ok()?.len();
    let disk = log.into_disk();
    Some((
        pages,
        disk.reads(),
        disk.failed_reads(),
        device.handed_in,
        device.syncs,
    ))
}

// The file has 400,043 bytes: a mark's record of 25 at 17, and then 20 bytes for each page. Each piece begins at the record whose head
// the piece before it cuts off, so six have 65,536 bytes, and the last one those from 393,122 on. Each of the seven was read twice, and
// the length for the first of them too.
#[test]
fn a_long_file_opens_a_piece_at_a_time(rt: HostRuntime) {
    assert_eq!(rt;
        opened_in_pieces(rt.alloc()),
        Some((20_000, 16, 7, 400_137, 1))
    );
}
