// A staged disk over the disk in memory, which is told each task as it is handed out: it leaves what that disk leaves by itself, wherever
// that stops.

use super::*;
use sled_disk::do_task;

#[derive(Clone, Copy)]
enum Call<'a> {
    Writes(u64, &'a [u8]),
    Syncs,
}

use Call::{Syncs, Writes};

// A file is made, and then a frame and its gate are written; writes overlap, are empty, or wait for no sync.
const SCRIPTS: &[&[Call]] = &[
    &[],
    &[Writes(0, b"")],
    &[Syncs],
    &[
        Writes(0, b"SLPCLOG1\0"),
        Syncs,
        Writes(9, b"frame\0"),
        Syncs,
        Writes(8, b"\x01"),
        Syncs,
    ],
    &[
        Writes(0, b"abcd"),
        Writes(2, b"xyz"),
        Syncs,
        Writes(1, b"--"),
        Writes(5, b"end"),
    ],
];

// Makes the calls of a disk, and says whether each succeeds.
fn makes<D: Disk>(disk: &mut D, calls: &[Call]) -> bool {
    for call in calls {
        let answer = match *call {
            Writes(at, bytes) => disk.write_at(at, bytes),
            Syncs => disk.sync(),
        };
        if answer.is_err() {
            return false;
        }
    }
    true
}

// Hands out all that waits, and says whether no task failed.
fn works_off(disk: &mut StagedDisk<MemDisk>, room: usize) -> bool {
    let mut buffer = [0; 64];
    let Some(into) = buffer.get_mut(..room) else {
        return false;
    };
    for _ in 0..100u32 {
        if disk.next_task(into).is_none() {
            return !disk.has_failed();
        }
    }
    false
}

// What the calls leave of a disk in memory that stops before its n-th write or sync.
fn left_alone(alloc: Global, calls: &[Call], n: usize, fill: Option<u8>) -> Option<MemDisk> {
    let mut disk = MemDisk::new(alloc, 100).ok()?;
    if makes(&mut disk, calls) {
        Some(disk.stop(n, fill))
    } else {
        None
    }
}

// The same, where they are made of a staged disk over it, and the tasks are handed out into a buffer of so many bytes.
fn left_behind(
    alloc: Global,
    calls: &[Call],
    room: usize,
    n: usize,
    fill: Option<u8>,
) -> Option<MemDisk> {
    let file = MemDisk::new(alloc, 100).ok()?;
    let mut disk = StagedDisk::over(alloc, file, 0);
    if makes(&mut disk, calls) && works_off(&mut disk, room) {
        Some(disk.into_file().stop(n, fill))
    } else {
        None
    }
}

// The same, where the tasks of a staged disk that is told of no file are done on it.
fn left_by_tasks(
    alloc: Global,
    calls: &[Call],
    room: usize,
    n: usize,
    fill: Option<u8>,
) -> Option<MemDisk> {
    let mut disk = MemDisk::new(alloc, 100).ok()?;
    let mut staged = StagedDisk::new(alloc, 0);
    if makes(&mut staged, calls) && does(&mut staged, &mut disk, room) {
        Some(disk.stop(n, fill))
    } else {
        None
    }
}

// Does all that waits on a disk, and says whether no task failed.
fn does(staged: &mut StagedDisk, disk: &mut MemDisk, room: usize) -> bool {
    let mut buffer = [0; 64];
    let Some(into) = buffer.get_mut(..room) else {
        return false;
    };
    for _ in 0..100u32 {
        match do_task(staged, disk, into) {
            Ok(Some(_)) => {}
            Ok(None) => return !staged.has_failed(),
            Err(_) => return false,
        }
    }
    false
}

fn leaves_the_same(alloc: Global, calls: &[Call], room: usize, n: usize, fill: Option<u8>) -> bool {
    match (
        left_alone(alloc, calls, n, fill),
        left_behind(alloc, calls, room, n, fill),
        left_by_tasks(alloc, calls, room, n, fill),
    ) {
        (Some(alone), Some(behind), Some(done)) => {
            alone.bytes() == behind.bytes() && alone.bytes() == done.bytes()
        }
        _ => false,
    }
}

#[test]
fn a_disk_that_is_told_its_tasks_leaves_what_it_leaves_by_itself(rt: HostRuntime) {
    for calls in SCRIPTS {
        for fill in [None, Some(0x2a)] {
            for n in 0..=calls.len() + 1 {
                assert!(rt; leaves_the_same(rt.alloc(), calls, 64, n, fill), "{n}");
            }
            // in parts, of which a stop may come before each, so only behind all of them
            for room in [1, 2, 3] {
                let all = usize::MAX;
                assert!(rt;
                    leaves_the_same(rt.alloc(), calls, room, all, fill),
                    "{room}"
                );
            }
        }
    }
}

// Whether a disk whose n-th task fails hands out no more, and takes no more, and its file has what was done before.
fn stops_at(alloc: Global, n: u64, expected: &[u8]) -> bool {
    let Ok(mut file) = MemDisk::new(alloc, 100) else {
        return false;
    };
    file.fail_write(n);
    let mut disk = StagedDisk::over(alloc, file, 0);
    let calls = [Writes(0, b"abc"), Syncs, Writes(3, b"def"), Syncs];
    makes(&mut disk, &calls)
        && !works_off(&mut disk, 64)
        && disk.has_failed()
        && disk.next_task(&mut []).is_none()
        && disk.write_at(0, b"a") == Err(LogError::WriteFault)
        && disk.sync() == Err(LogError::WriteFault)
        && disk.into_file().bytes() == expected
}

// Whether a disk that fails at its n-th write or sync ends the tasks there, and has what was done before.
fn ends_at(alloc: Global, n: u64, expected: &[u8]) -> bool {
    let Ok(mut disk) = MemDisk::new(alloc, 100) else {
        return false;
    };
    disk.fail_write(n);
    let mut staged = StagedDisk::new(alloc, 0);
    let calls = [Writes(0, b"abc"), Syncs, Writes(3, b"def"), Syncs];
    makes(&mut staged, &calls)
        && !does(&mut staged, &mut disk, 64)
        && staged.has_failed()
        && do_task(&mut staged, &mut disk, &mut []) == Ok(None)
        && disk.bytes() == expected
}

#[test]
fn a_task_that_fails_is_the_last(rt: HostRuntime) {
    for (n, expected) in [(1, &b""[..]), (2, b"abc"), (3, b"abc"), (4, b"abcdef")] {
        assert!(rt; stops_at(rt.alloc(), n, expected), "{n}");
        assert!(rt; ends_at(rt.alloc(), n, expected), "{n}");
    }
}
