// The disk in memory, call by call.

use super::*;

#[derive(Clone, Copy)]
enum Step<'a> {
    // Writes at a place, and whether that succeeds.
    Writes(u64, &'a [u8], bool),
    Syncs(bool),
    // Reads at a place what stands there, or so many bytes, which fails.
    Reads(u64, &'a [u8]),
    ReadFails(u64, usize),
    // It has so many bytes, or fails to say it.
    Len(u64),
    LenFails,
    FailRead(u64),
    FailWrite(u64),
    // A crash before that write or sync.
    Stops(usize, Option<u8>),
    // So many reads, failed reads and write faults were counted, and so many writes and syncs were made.
    Counted(u64, u64, u64, usize),
}

use Step::{Counted, FailRead, FailWrite, Len, LenFails, ReadFails, Reads, Stops, Syncs, Writes};

// What a disk with that limit is said to do, step by step.
type Script<'a> = (&'a str, usize, &'a [Step<'a>]);

const SCRIPTS: &[Script] = &[
    (
        "a new disk is empty",
        4,
        &[
            Len(0),
            Reads(0, b""),
            ReadFails(0, 1),
            ReadFails(1, 0),
            Counted(4, 2, 0, 0),
        ],
    ),
    (
        "a write stands at its place, over what is there and past the end",
        16,
        &[
            Writes(0, b"abcd", true),
            Reads(0, b"abcd"),
            Writes(2, b"xyz", true),
            Reads(0, b"abxyz"),
            Writes(1, b"-", true),
            Reads(0, b"a-xyz"),
            Writes(5, b"", true),
            Writes(5, b"!", true),
            Reads(4, b"z!"),
            Len(6),
            ReadFails(4, 3),
            ReadFails(7, 0),
            ReadFails(u64::MAX, 1),
            Counted(8, 3, 0, 5),
        ],
    ),
    (
        "a write that begins past the end fails, and changes nothing",
        16,
        &[
            Writes(0, b"ab", true),
            Writes(3, b"c", false),
            Writes(u64::MAX, b"c", false),
            Reads(0, b"ab"),
            Len(2),
            Counted(2, 0, 2, 1),
        ],
    ),
    (
        "so many bytes may be written, and no more",
        4,
        &[
            Writes(0, b"abc", true),
            Writes(0, b"de", false),
            Writes(0, b"d", true),
            Writes(0, b"e", false),
            Reads(0, b"dbc"),
            Syncs(true),
            Counted(1, 0, 2, 3),
        ],
    ),
    (
        "so many writes and syncs may be made, and no more",
        2,
        &[
            Writes(0, b"a", true),
            Syncs(true),
            Syncs(false),
            Writes(0, b"", false),
            Reads(0, b"a"),
            Counted(1, 0, 2, 2),
        ],
    ),
    (
        "a disk with no room takes nothing",
        0,
        &[
            Writes(0, b"", false),
            Syncs(false),
            Len(0),
            Counted(1, 0, 2, 0),
        ],
    ),
    (
        "the n-th read fails, and no other",
        8,
        &[
            Writes(0, b"ab", true),
            FailRead(2),
            Reads(0, b"a"),
            ReadFails(0, 1),
            Reads(0, b"ab"),
            FailRead(1),
            LenFails,
            Len(2),
            FailRead(1),
            FailRead(0),
            Reads(1, b"b"),
            Counted(6, 2, 0, 1),
        ],
    ),
    (
        "the n-th write or sync fails, and no other",
        8,
        &[
            FailWrite(2),
            Writes(0, b"ab", true),
            Syncs(false),
            Syncs(true),
            FailWrite(1),
            Writes(0, b"cd", false),
            Reads(0, b"ab"),
            Writes(0, b"e", true),
            Reads(0, b"eb"),
            Counted(2, 0, 2, 3),
        ],
    ),
    (
        "a crash before the first call leaves what was there",
        8,
        &[
            Writes(0, b"ab", true),
            Syncs(true),
            Stops(1, None),
            Len(0),
            Counted(1, 0, 0, 0),
        ],
    ),
    (
        "a number of a call that is 0 means the first",
        8,
        &[Writes(0, b"ab", true), Stops(0, Some(7)), Len(0)],
    ),
    (
        "what wasn't synced is as it was written where nothing else is said",
        8,
        &[
            Writes(0, b"ab", true),
            Syncs(true),
            Writes(1, b"xy", true),
            Stops(4, None),
            Reads(0, b"axy"),
            Len(3),
        ],
    ),
    (
        "or is of one byte, in the ranges that were written and nowhere else",
        8,
        &[
            Writes(0, b"abcd", true),
            Syncs(true),
            Writes(1, b"xy", true),
            Stops(4, Some(0)),
            Reads(0, b"a\0\0d"),
            Len(4),
        ],
    ),
    (
        "past the old end too",
        8,
        &[
            Writes(0, b"ab", true),
            Syncs(true),
            Writes(2, b"cd", true),
            Writes(3, b"efg", true),
            Stops(100, Some(255)),
            Reads(0, b"ab\xff\xff\xff\xff"),
            Len(6),
        ],
    ),
    (
        "a sync makes all durable that was written before it",
        12,
        &[
            Writes(0, b"ab", true),
            Writes(1, b"cd", true),
            Syncs(true),
            Writes(0, b"z", true),
            Stops(4, Some(0)),
            Reads(0, b"acd"),
            Len(3),
        ],
    ),
    (
        "a disk that a crash left may write as much as before, and fails at nothing",
        4,
        &[
            Writes(0, b"abc", true),
            FailRead(1),
            FailWrite(1),
            Stops(2, None),
            Reads(0, b"abc"),
            Writes(0, b"x", true),
            Writes(0, b"y", false),
            Counted(1, 0, 1, 1),
        ],
    ),
];

fn writes(disk: &mut MemDisk, at: u64, bytes: &[u8], succeeds: bool) -> bool {
    match disk.write_at(at, bytes) {
        Ok(()) => succeeds,
        Err(error) => !succeeds && error == LogError::WriteFault,
    }
}

fn syncs(disk: &mut MemDisk, succeeds: bool) -> bool {
    match disk.sync() {
        Ok(()) => succeeds,
        Err(error) => !succeeds && error == LogError::WriteFault,
    }
}

fn reads(disk: &mut MemDisk, at: u64, expected: &[u8]) -> bool {
    let mut into = [0x2a; 8];
    let Some(part) = into.get_mut(..expected.len()) else {
        return false;
    };
    disk.read_at(at, part).is_ok() && into.get(..expected.len()) == Some(expected)
}

fn read_fails(disk: &mut MemDisk, at: u64, len: usize) -> bool {
    let mut into = [0x2a; 8];
    let Some(part) = into.get_mut(..len) else {
        return false;
    };
    disk.read_at(at, part) == Err(LogError::ReadFault)
}

// Takes a step, and says whether it went as it should.
fn takes(disk: &mut MemDisk, step: Step) -> bool {
    match step {
        Writes(at, bytes, succeeds) => writes(disk, at, bytes, succeeds),
        Syncs(succeeds) => syncs(disk, succeeds),
        Reads(at, expected) => reads(disk, at, expected),
        ReadFails(at, len) => read_fails(disk, at, len),
        Len(len) => disk.len() == Ok(len),
        LenFails => disk.len() == Err(LogError::ReadFault),
        FailRead(n) => {
            disk.fail_read(n);
            true
        }
        FailWrite(n) => {
            disk.fail_write(n);
            true
        }
        Stops(..) => false,
        Counted(reads, failed_reads, write_faults, calls) => {
            (disk.reads(), disk.failed_reads(), disk.write_faults())
                == (reads, failed_reads, write_faults)
                && disk.calls() == calls
        }
    }
}

// The first step that doesn't go as it should.
fn first_wrong(alloc: Global, script: &Script) -> Option<usize> {
    let (_, limit, steps) = *script;
    let Ok(mut disk) = MemDisk::new(alloc, limit) else {
        return Some(0);
    };
    for (at, step) in steps.iter().enumerate() {
        if let Stops(n, fill) = *step {
            disk = disk.stop(n, fill);
        } else if !takes(&mut disk, *step) {
            return Some(at);
        }
    }
    None
}

#[test]
fn a_disk_in_memory_takes_each_step(rt: HostRuntime) {
    for script in SCRIPTS {
        assert_eq!(rt; first_wrong(rt.alloc(), script), None, "{}", script.0);
    }
}
