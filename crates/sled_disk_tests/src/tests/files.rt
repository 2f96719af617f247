// Files of the system as disks.

use super::*;
use std::fs;
use std::os::unix::fs::symlink;

// Whether opening that path fails, as a read.
fn is_refused<R: Files<File = File> + Alloc>(files: &R, path: &str) -> bool {
    match FileDisk::open(files, path) {
        Ok(_) => false,
        Err(error) => error == LogError::ReadFault,
    }
}

#[test]
fn what_is_no_file_is_refused(rt: HostRuntime) {
    for path in [
        "",
        ".",
        "/",
        "/dev/zero",
        "/dev/null",
        "no_such_folder/file",
        // files of the system's own, which say that they have no bytes
        "/proc/self/comm",
        "/proc/self/oom_score_adj",
    ] {
        assert!(rt; is_refused(&rt, path), "{path}");
    }
}

// Whether the disk reads these bytes at a place.
fn reads<D: Disk>(disk: &mut D, at: u64, expected: &[u8]) -> bool {
    let mut into = [0x2a; 8];
    let Some(part) = into.get_mut(..expected.len()) else {
        return false;
    };
    disk.read_at(at, part).is_ok() && into.get(..expected.len()) == Some(expected)
}

// Whether one byte at a place fails to be read.
fn read_fails<D: Disk>(disk: &mut D, at: u64) -> bool {
    disk.read_at(at, &mut [0]) == Err(LogError::ReadFault)
}

fn keeps_what_is_written<D: Disk>(disk: &mut D) -> bool {
    disk.len() == Ok(0)
        && read_fails(disk, 0)
        && disk.write_at(0, b"abc").is_ok()
        && disk.write_at(3, b"def").is_ok()
        && disk.write_at(1, b"-").is_ok()
        && disk.sync().is_ok()
        && disk.len() == Ok(6)
        && reads(disk, 0, b"a-cdef")
        && reads(disk, 5, b"f")
        && reads(disk, 6, b"")
        && read_fails(disk, 6)
        && read_fails(disk, u64::MAX)
        && (disk.reads(), disk.failed_reads(), disk.write_faults()) == (8, 3, 0)
}

// After a write past the end none is made, and no sync.
fn writes_no_more<D: Disk>(disk: &mut D) -> bool {
    disk.write_at(7, b"x") == Err(LogError::WriteFault)
        && disk.write_at(0, b"x") == Err(LogError::WriteFault)
        && disk.sync() == Err(LogError::WriteFault)
        && disk.write_faults() == 3
        && disk.len() == Ok(6)
        && reads(disk, 0, b"a-cdef")
}

#[test]
fn a_file_keeps_what_is_written(rt: HostRuntime) {
    let path = "disk in a test";
    let Ok(mut disk) = FileDisk::open(&rt, path) else {
        assert!(rt; false);
        return;
    };
    assert!(rt; keeps_what_is_written(&mut disk));
    // it is locked meanwhile
    assert!(rt; is_refused(&rt, path));
    assert!(rt; writes_no_more(&mut disk));
    drop(disk);
    let Ok(mut disk) = FileDisk::open(&rt, path) else {
        assert!(rt; false);
        return;
    };
    assert!(rt; reads(&mut disk, 0, b"a-cdef"));
    assert!(rt; disk.write_at(6, b"!").is_ok());
    assert!(rt; reads(&mut disk, 4, b"ef!"));
}

#[test]
fn a_file_in_memory_is_a_disk(rt: HostRuntime) {
    let Ok(file) = MemDisk::new(rt.alloc(), 64) else {
        assert!(rt; false);
        return;
    };
    let mut disk = FileDisk::new(file);
    assert!(rt; keeps_what_is_written(&mut disk));
    // three writes and a sync
    let file = disk.into_file();
    assert!(rt; file.calls() == 4);
    let mut disk = FileDisk::new(file);
    assert!(rt; disk.write_at(7, b"x") == Err(LogError::WriteFault));
    assert!(rt; disk.write_at(0, b"x") == Err(LogError::WriteFault));
    assert!(rt; disk.sync() == Err(LogError::WriteFault));
    assert!(rt; disk.into_file().calls() == 4);
}

// Once a write or a sync of the file failed the disk makes none, and a disk that is opened of it makes them.
#[test]
fn a_failed_sync_is_sticky(rt: HostRuntime) {
    let Ok(mut file) = MemDisk::new(rt.alloc(), 64) else {
        assert!(rt; false);
        return;
    };
    file.fail_write(2);
    let mut disk = FileDisk::new(file);
    assert!(rt; disk.write_at(0, b"abc").is_ok());
    assert!(rt; disk.sync() == Err(LogError::WriteFault));
    assert!(rt; disk.sync() == Err(LogError::WriteFault));
    assert!(rt; disk.write_at(0, b"x") == Err(LogError::WriteFault));
    assert!(rt; reads(&mut disk, 0, b"abc"));
    assert!(rt; disk.write_faults() == 3);
    assert!(rt; disk.into_file().calls() == 1);
}

// Whether a disk over a file of no bytes takes three.
fn takes_bytes<D: Disk>(disk: &mut D) -> bool {
    disk.len() == Ok(0) && disk.write_at(0, b"abc").is_ok() && disk.sync().is_ok()
}

// Whether the file of a path is open as it takes three bytes, or as it has them.
fn takes_bytes_at(rt: &HostRuntime, path: &str) -> bool {
    match FileDisk::open(rt, path) {
        Ok(mut disk) => takes_bytes(&mut disk),
        Err(_) => false,
    }
}

fn has_bytes_at(rt: &HostRuntime, path: &str) -> bool {
    match FileDisk::open(rt, path) {
        Ok(mut disk) => reads(&mut disk, 0, b"abc"),
        Err(_) => false,
    }
}

// No file is made where a link leads to nothing.
#[test]
fn a_link_leads_to_its_file(rt: HostRuntime) {
    let (target, link) = ("linked in a test", "link in a test");
    let _ = fs::remove_file(&rt, link);
    let _ = fs::remove_file(&rt, target);
    assert!(rt; symlink(&rt, target, link).is_ok());
    assert!(rt; is_refused(&rt, link));
    assert!(rt; takes_bytes_at(&rt, target));
    assert!(rt; has_bytes_at(&rt, link));
    assert!(rt; fs::remove_file(&rt, link).is_ok());
    assert!(rt; has_bytes_at(&rt, target));
    assert!(rt; fs::remove_file(&rt, target).is_ok());
}
