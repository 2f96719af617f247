// A log over a staged disk, whose caller works its tasks off on a list of bytes.

ghost use Rattle.std.specs.Prelude.{◌≡◌, true, IfSome};

use super::super::acts::Act::{Append, Cancel, Flush, Pin, Seal};
use super::super::acts::{Act, PAYLOAD, acts, acts_all};
use super::super::opening::{Outcome, outcome_of};
use super::super::room::KeepingDisk;
use super::device::{Device, device_of};
use super::*;
use sled_base::{DiskPtr, Lsn, MessageKind, PageId};

const SEGMENT_SIZE: u64 = 64;

// Calls, and for a buffer of so many bytes: how many tasks there are, and behind how many of them the file has its first nine bytes, and
// then each gate open. How many of the tasks are syncs, and what comes of a file with so many of these gates.
#[derive(Clone, Copy)]
struct Script {
    calls: &'static [Act],
    devices: &'static [(usize, usize, &'static [usize])],
    syncs: usize,
    outcomes: &'static [Outcome],
}

const SCRIPTS: &[Script] = &[PLAIN, SPILLING];

// Four frames, the last of which is written by its append, and a record that waits. By the format their gates are at 8, 56, 125 and
// 194, and the last one at 280. A write of 9 bytes and a sync make the file, and its opening writes the gate again and syncs; a frame has
// 48, 69, 69 and 86 bytes, which are written and synced, and then its gate.
const PLAIN: Script = Script {
    calls: &[
        Append(MessageKind::InlineNode, 0, 3),
        Append(MessageKind::InlineNode, 1, 2),
        Flush,
        Pin,
        Append(MessageKind::InlineLink, 0, 1),
        Seal,
        Flush,
        Pin,
        Append(MessageKind::InlineLink, 1, 1),
        Cancel,
        Flush,
        Append(MessageKind::InlineNode, 2, 60),
        Append(MessageKind::Free, 1, 0),
    ],
    devices: &[
        (1, 296, &[9, 62, 134, 206, 295]),
        (7, 57, &[2, 14, 27, 40, 56]),
        (64, 23, &[1, 7, 12, 17, 22]),
    ],
    syncs: 10,
    outcomes: &[
        Outcome::Corrupt,
        Outcome::Opens(0, 9),
        Outcome::Opens(2, 57),
        Outcome::Opens(2, 126),
        Outcome::Opens(2, 195),
        Outcome::Opens(3, 281),
    ],
};

// Batches over two frames and over three, one sealed and one cancelled: the last append of each frame but the closing one writes it. The
// frames have 48, 80, 34, 73, 73 and 51 bytes, and their gates are at 8, 56, 136, 170, 243 and 316, and the last one at 367. A file that
// ends inside a batch has 34 bytes more once it is opened.
const SPILLING: Script = Script {
    calls: &[
        Append(MessageKind::InlineNode, 0, 3),
        Append(MessageKind::InlineNode, 1, 2),
        Flush,
        Pin,
        Append(MessageKind::InlineLink, 0, 1),
        Append(MessageKind::InlineLink, 0, 1),
        Append(MessageKind::InlineLink, 0, 1),
        Seal,
        Flush,
        Pin,
        Append(MessageKind::InlineLink, 1, 30),
        Append(MessageKind::InlineLink, 1, 29),
        Append(MessageKind::InlineLink, 0, 1),
        Append(MessageKind::Free, 1, 0),
        Cancel,
        Flush,
    ],
    devices: &[
        (1, 389, &[9, 62, 145, 182, 258, 334, 388]),
        (7, 77, &[2, 14, 29, 37, 51, 65, 76]),
        (64, 31, &[1, 7, 12, 16, 21, 26, 30]),
    ],
    syncs: 14,
    outcomes: &[
        Outcome::Corrupt,
        Outcome::Opens(0, 9),
        Outcome::Opens(2, 57),
        Outcome::Opens(2, 171),
        Outcome::Opens(2, 171),
        Outcome::Opens(2, 278),
        Outcome::Opens(2, 351),
        Outcome::Opens(2, 368),
    ],
};

// The log of a file, which is opened again wherever it needs bytes.
fn opened(alloc: Global, mut disk: StagedDisk, device: &mut Device) -> Option<DiskLog<StagedDisk>>
    ensures { IfSome result (λ log. log.usable ≡ true) }
{
    for _ in 0..8u32 {
        match DiskLog::open(alloc, disk, SEGMENT_SIZE, 0) {
            Ok(log) => return Some(log),
            Err((LogError::ReadFault, mut back)) => {
                if !device.serve(&mut back) {
                    return None;
                }
                disk = back;
            }
            Err((LogError::Memory, back)) => {
                device.refused = device.refused.saturating_add(1);
                disk = back;
            }
            Err(_) => return None,
        }
    }
    None
}

// A new log behind all of these, with what the device did of its tasks.
fn log_on(alloc: Global, device: &mut Device, calls: &[Act]) -> Option<DiskLog<StagedDisk>>
    ensures { IfSome result (λ log. log.usable ≡ true) }
{
    let mut disk = StagedDisk::new(alloc, 0);
    if DiskLog::create(&mut disk).is_err() && DiskLog::create(&mut disk).is_err() {
        return None;
    }
    if !device.work_off(&mut disk) {
        return None;
    }
    let mut log = opened(alloc, disk, device)?;
    for act in calls {
        if !acts(&mut log, *act) || !device.work_off_log(&mut log) {
            return None;
        }
    }
    Some(log)
}

// The bytes of the same log on a disk in memory.
fn in_memory(alloc: Global, calls: &[Act]) -> Option<Vec<u8>> {
    let mut disk = KeepingDisk::new(alloc).ok()?;
    DiskLog::create(&mut disk).ok()?;
    let mut log = DiskLog::open(alloc, disk, SEGMENT_SIZE, 0).ok()?;
    if !acts_all(&mut log, calls) {
        return None;
    }
    log.into_disk().bytes().to_vec(alloc).ok()
}

// Whether with such a buffer the file is that of a disk in memory, by so many tasks, and one read was refused. Where an allocation is
// refused, whichever it is, that is so too, by a second call of what may be refused: an opening may write the gate again twice then.
fn is_the_same(alloc: Global, script: &Script, room: usize, tasks: usize) -> bool {
    let mut device = device_of(Vec::new(alloc), room, usize::MAX);
    let Some(log) = log_on(alloc, &mut device, script.calls) else {
        return false;
    };
    let Some(expected) = in_memory(alloc, script.calls).or_else(|| in_memory(alloc, script.calls))
    else {
        return false;
    };
    let again = device
        .syncs
        .saturating_sub(script.syncs)
        .min(device.refused);
    device.file == expected
        && (device.tasks, device.syncs)
            == (
                tasks.saturating_add(again.saturating_mul(2)),
                script.syncs.saturating_add(again),
            )
        && (log.failed_reads(), log.write_faults()) == (1, 0)
}

#[test]
fn a_staged_log_writes_what_a_log_in_memory_does(rt: HostRuntime) {
    for script in SCRIPTS {
        for (room, tasks, _) in script.devices {
            assert!(rt;
                is_the_same(rt.alloc(), script, *room, *tasks),
                "{room} {tasks}"
            );
        }
    }
}

// What comes of the file where the power goes off behind so many tasks.
fn left_behind(alloc: Global, script: &Script, room: usize, tasks: usize) -> Outcome {
    let mut device = device_of(Vec::new(alloc), room, tasks);
    let _where_it_stopped = log_on(alloc, &mut device, script.calls);
    match outcome_of(alloc, &device.file) {
        Outcome::Fails => outcome_of(alloc, &device.file),
        outcome => outcome,
    }
}

fn outcome_behind(script: &Script, tasks: usize, steps: &[usize]) -> Option<&'static Outcome> {
    let reached = steps.iter().filter(|step| **step <= tasks).count();
    script.outcomes.get(reached)
}

#[test]
fn tasks_that_a_crash_loses_leave_a_file_that_opens(rt: HostRuntime) {
    for script in SCRIPTS {
        for (room, tasks, steps) in script.devices {
            for done in 0..=*tasks {
                let left = left_behind(rt.alloc(), script, *room, done);
                let wanted = outcome_behind(script, done, steps);
                assert!(rt; wanted == Some(&left), "{room} {tasks} {done}");
            }
        }
    }
}

// The bytes of a file that ends inside a batch, once it was opened over a staged disk, and over one in memory.
fn cut_off(alloc: Global) -> Option<(Vec<u8>, Vec<u8>)> {
    let mut device = device_of(Vec::new(alloc), 64, usize::MAX);
    let _until_it_spilled = log_on(alloc, &mut device, SPILLING.calls.get(..7)?)?;
    let disk = KeepingDisk::of(alloc, &device.file)
        .or_else(|_| KeepingDisk::of(alloc, &device.file))
        .ok()?;
    let log = match DiskLog::open(alloc, disk, SEGMENT_SIZE, 0) {
        Ok(log) => log,
        Err((_, disk)) => DiskLog::open(alloc, disk, SEGMENT_SIZE, 0).ok()?,
    };
    let bytes = log.disk().bytes();
    let expected = bytes.to_vec(alloc).or_else(|_| bytes.to_vec(alloc)).ok()?;
    let disk = StagedDisk::new(alloc, device.file.len() as u64);
    let mut log = opened(alloc, disk, &mut device)?;
    device
        .work_off_log(&mut log)
        .then_some((device.file, expected))
}

// The same is so where an allocation is refused, whichever it is.
#[test]
fn a_staged_log_abandons_a_batch_as_a_log_in_memory_does(rt: HostRuntime) {
    let found = cut_off(rt.alloc());
    assert!(rt; found.is_some_and(|(found, expected)| found == expected && found.len() == 171));
}

// Whether the message of a page at a place is read, with this payload, or bytes are needed for it.
fn is_read(log: &mut DiskLog<StagedDisk>, pid: PageId, place: u32, payload: &[u8]) -> Option<bool>
    requires { log.old.usable ≡ true }
    ensures { IfSome result (λ _. log.new.usable ≡ true) }
{
    match log.read(pid, Lsn::from(place), DiskPtr::Inline(u64::from(place))) {
        Ok((_, bytes)) if bytes.as_slice() == payload => Some(true),
        Err(LogError::ReadFault) => Some(false),
        _ => None,
    }
}

// Whether page 2 is read once its payload is handed in, behind the head of its record at 203; and page 1, whose record waits at 289,
// with no bytes of the disk.
fn reads_pages(log: &mut DiskLog<StagedDisk>, device: &mut Device) -> bool
    requires { log.old.usable ≡ true }
{
    let Some(false) = is_read(log, 2, 203, &PAYLOAD) else {
        return false;
    };
    if log.disk().needs() != Some((220, 60)) || !device.serve_log(log) {
        return false;
    }
    let Some(true) = is_read(log, 2, 203, &PAYLOAD) else {
        return false;
    };
    log.forget();
    is_read(log, 1, 289, &[]) == Some(true) && log.disk().needs().is_none()
}

// Whether a log whose caller failed to write what waits answers so, and then has nothing to do.
fn stops(log: &mut DiskLog<StagedDisk>) -> bool
    requires { log.old.usable ≡ true }
{
    log.fail();
    if log.batch_open() || log.make_stable() != Err(LogError::WriteFault) {
        return false;
    }
    log.write_faults() == 1 && log.next_task(&mut [0; 64]).is_none()
}

fn reads_and_stops(alloc: Global) -> bool {
    let mut device = device_of(Vec::new(alloc), 64, usize::MAX);
    let Some(mut log) = log_on(alloc, &mut device, PLAIN.calls) else {
        return false;
    };
    if !reads_pages(&mut log, &mut device) {
        return false;
    }
    let Some(mut log) = log_on(
        alloc,
        &mut device_of(Vec::new(alloc), 64, usize::MAX),
        PLAIN.calls,
    ) else {
        return false;
    };
    stops(&mut log)
}

#[test]
fn a_staged_log_reads_what_is_handed_in_and_stops_at_a_fault(rt: HostRuntime) {
    assert!(rt; reads_and_stops(rt.alloc()));
}
