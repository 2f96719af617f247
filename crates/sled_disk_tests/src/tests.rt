ghost use Rattle.std.specs.Prelude.{◌≡◌};
ghost use Rattle.sled_log.specs.Calls.{one_more};

mod acts;
mod batch_records;
mod closing;
mod disks;
mod empty;
mod files;
mod forgetful;
mod full;
mod marks;
mod moves;
mod naming;
mod naming_batches;
mod old_files;
mod opening;
mod reading;
mod room;
mod spilling;
mod staged;

use sled_base::PageState;
use sled_disk::{Disk, DiskLog, FileDisk, MemDisk, Reader};
use sled_log::{Log, LogError};
use std::alloc::{Alloc, Global};
use std::fs::{File, Files};

// The file after the first start of a cache: its named roots, of which there are none, and its counter of ids.
const FIRST: [u8; 53] = [
    0x53, 0x4c, 0x50, 0x43, 0x4c, 0x4f, 0x47, 0x31, 1, 35, 0, 0, 0, 0, 0, 0, 0, 6, 0, 0, 0, 0, 0,
    0, 0, 0, 0, 0, 0, 0, 0, 0, 0, 0, 5, 1, 0, 0, 0, 0, 0, 0, 0, 1, 0, 0, 0, 0, 0, 0, 0, 0, 0,
];

// A disk that holds these bytes, durably. It has room for as many more, and some.
fn disk_of(alloc: Global, bytes: &[u8]) -> Result<MemDisk, LogError> {
    let mut disk = MemDisk::new(alloc, bytes.len() + 100)?;
    disk.write_at(0, bytes)?;
    disk.sync()?;
    Ok(disk)
}

// Counts one more, up to the greatest number.
fn count(n: &mut u64)
    ensures { n.new ≡ one_more n.old }
{
    *n = n.saturating_add(1);
}
