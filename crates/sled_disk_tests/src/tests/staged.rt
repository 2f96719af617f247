// The disk whose caller reads and writes, call by call.

use super::*;
use sled_disk::{StagedDisk, Task};

mod device;
mod failing;
mod handing;
mod logs;
mod long_files;
mod overwriting;
mod told;
mod writing;

#[derive(Clone, Copy)]
enum Step<'a> {
    // What stands on the disk writes at a place, which succeeds or not.
    Writes(u64, &'a [u8], bool),
    Syncs(bool),
    // It reads at a place these bytes, or so many, which fails.
    Reads(u64, &'a [u8]),
    ReadFails(u64, usize),
    Len(u64),
    // It asks for room for so many bytes, and gets it or not.
    MakesRoom(usize, bool),
    // So many reads, failed reads and write faults were counted.
    Counted(u64, u64, u64),
    // With a buffer of so many bytes the caller is to write these at a place, or to sync, or has nothing left to do.
    ToWrite(usize, u64, &'a [u8]),
    ToSync(usize),
    Done,
    HandsIn(u64, &'a [u8]),
    Needs(u64, usize),
    NeedsNothing,
    Forgets,
    Fails,
    HasFailed(bool),
}

// What the disk of a file with so many bytes is said to do, step by step.
type Script<'a> = (&'a str, u64, &'a [Step<'a>]);

fn reads(disk: &mut StagedDisk, at: u64, expected: &[u8]) -> bool {
    let mut into = [0x2a; 16];
    let Some(part) = into.get_mut(..expected.len()) else {
        return false;
    };
    disk.read_at(at, part).is_ok() && into.get(..expected.len()) == Some(expected)
}

fn read_fails(disk: &mut StagedDisk, at: u64, len: usize) -> bool {
    let mut into = [0x2a; 16];
    let Some(part) = into.get_mut(..len) else {
        return false;
    };
    disk.read_at(at, part) == Err(LogError::ReadFault)
}

// Whether a write or a sync went as it should.
fn is_answered(answer: Result<(), LogError>, succeeds: bool) -> bool {
    match answer {
        Ok(()) => succeeds,
        Err(error) => !succeeds && error == LogError::WriteFault,
    }
}

fn makes_room(disk: &mut StagedDisk, len: usize, succeeds: bool) -> bool {
    match disk.make_room(len) {
        Ok(()) => succeeds,
        Err(error) => !succeeds && error == LogError::Memory,
    }
}

// The next task, with a buffer of so many bytes, and whether that has these bytes in front and is as it was behind them.
fn next_task(disk: &mut StagedDisk, room: usize, expected: &[u8]) -> (Option<Task>, bool) {
    let mut into = [0x2a; 64];
    let task = match into.get_mut(..room) {
        Some(part) => disk.next_task(part),
        None => None,
    };
    let (front, behind) = into.split_at(expected.len().min(64));
    (
        task,
        front == expected && behind.iter().all(|byte| *byte == 0x2a),
    )
}

// Takes a step of what stands on the disk, and says whether it went as it should.
fn calls(disk: &mut StagedDisk, step: Step) -> bool {
    match step {
        Step::Writes(at, bytes, succeeds) => is_answered(disk.write_at(at, bytes), succeeds),
        Step::Syncs(succeeds) => is_answered(disk.sync(), succeeds),
        Step::Reads(at, expected) => reads(disk, at, expected),
        Step::ReadFails(at, len) => read_fails(disk, at, len),
        Step::Len(len) => disk.len() == Ok(len),
        Step::MakesRoom(len, succeeds) => makes_room(disk, len, succeeds),
        Step::Counted(reads, failed_reads, write_faults) => {
            (disk.reads(), disk.failed_reads(), disk.write_faults())
                == (reads, failed_reads, write_faults)
        }
        _ => works(disk, step),
    }
}

// Takes a step of the disk's caller.
fn works(disk: &mut StagedDisk, step: Step) -> bool {
    match step {
        Step::ToWrite(room, at, bytes) => {
            let len = bytes.len();
            next_task(disk, room, bytes) == (Some(Task::Write { at, len }), true)
        }
        Step::ToSync(room) => next_task(disk, room, b"") == (Some(Task::Sync), true),
        Step::Done => next_task(disk, 64, b"") == (None, true),
        Step::HandsIn(at, bytes) => disk.hand_in(at, bytes).is_ok(),
        Step::Needs(at, len) => disk.needs() == Some((at, len)),
        Step::NeedsNothing => disk.needs().is_none(),
        Step::Forgets => {
            disk.forget();
            true
        }
        Step::Fails => {
            disk.fail();
            true
        }
        Step::HasFailed(failed) => disk.has_failed() == failed,
        _ => false,
    }
}

// The first step that doesn't go as it should.
fn first_wrong(alloc: Global, script: &Script) -> Option<usize> {
    let (_, len, steps) = *script;
    let mut disk = StagedDisk::new(alloc, len);
    for (at, step) in steps.iter().enumerate() {
        if !calls(&mut disk, *step) {
            return Some(at);
        }
    }
    None
}

#[test]
fn a_staged_disk_takes_each_step(rt: HostRuntime) {
    for scripts in [
        handing::READS,
        writing::WRITES,
        overwriting::PIECES,
        failing::FAILURES,
    ] {
        for script in scripts {
            assert_eq!(rt; first_wrong(rt.alloc(), script), None, "{}", script.0);
        }
    }
}
