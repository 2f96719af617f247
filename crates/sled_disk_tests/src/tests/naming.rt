// Which messages a log on a disk names over many frames, behind marks and behind a read that fails, and how often it reads for that.

ghost use Rattle.std.specs.Prelude.{◌≡◌, true, [], IfSome};

use super::room::KeepingDisk;
use super::*;
use sled_base::{DiskPtr, LogOffset, MessageKind, PageId};

type Name = (PageId, LogOffset);

const LEAF: [u8; 8] = [0; 8];

// The messages of a log in order, and how many of them were named, each where it was the next one.
#[derive(Drop)]
struct Named {
    messages: Vec<Name>,
    count: usize,
    in_order: bool,
}

impl Named {
    fn new(alloc: Global) -> Named {
        Named {
            messages: Vec::new(alloc),
            count: 0,
            in_order: true,
        }
    }

    // Notes what was named, if anything was.
    fn note(&mut self, name: Option<Name>) {
        if name.is_some() {
            self.in_order = self.in_order && self.messages.get(self.count).copied() == name;
            self.count = self.count.saturating_add(1);
        }
    }
}

// The log of a disk, of which a message is due for every so many.
fn opened(
    alloc: Global,
    disk: KeepingDisk,
    segment_size: u64,
    every: u64,
) -> Option<DiskLog<KeepingDisk>>
    ensures { IfSome result (λ log. log.usable ≡ true) }
{
    DiskLog::open(alloc, disk, segment_size, every).ok()
}

// An empty log.
fn new_log(alloc: Global, segment_size: u64, every: u64) -> Option<DiskLog<KeepingDisk>>
    ensures { IfSome result (λ log. log.usable ≡ true) }
{
    let mut disk = KeepingDisk::of(alloc, &[]).ok()?;
    DiskLog::create(&mut disk).ok()?;
    opened(alloc, disk, segment_size, every)
}

// Appends a leaf of a page, and notes it and what is named then. Answers whether anything was.
fn append(log: &mut DiskLog<KeepingDisk>, pid: PageId, named: &mut Named) -> Option<bool>
    requires usable { log.old.usable ≡ true }
    ensures { IfSome result (λ _. log.new.usable ≡ true) }
{
    let Ok((_, DiskPtr::Inline(place), _)) = log.append(MessageKind::InlineNode, pid, &LEAF) else {
        return None;
    };
    named.messages.push((pid, place)).ok()?;
    let name = log.to_move();
    named.note(name);
    Some(name.is_some())
}

// Opens a batch for some of these numbers.
fn begins(log: &mut DiskLog<KeepingDisk>, number: u64) -> bool
    requires usable { log.old.usable ≡ true }
    ensures { result ≡ true → log.new.usable ≡ true }
{
    if number % 5 != 4 || log.batch_open() {
        return true;
    }
    log.pin().is_ok()
}

// Seals or cancels it, and flushes for some of these numbers.
fn ends(log: &mut DiskLog<KeepingDisk>, number: u64) -> bool
    requires usable { log.old.usable ≡ true }
    ensures { result ≡ true → log.new.usable ≡ true }
{
    if log.batch_open() {
        if number % 2 == 0 {
            return log.seal().is_ok();
        }
        return log.cancel().is_ok();
    }
    if number % 7 != 6 {
        return true;
    }
    log.make_stable().is_ok()
}

// Appends a leaf for each of these numbers, a fifth of them in a batch of its own. Answers how many were named, if each was the next one.
fn append_all(
    log: &mut DiskLog<KeepingDisk>,
    from: u64,
    to: u64,
    named: &mut Named,
) -> Option<usize>
    requires usable { log.old.usable ≡ true }
    ensures { IfSome result (λ _. log.new.usable ≡ true) }
{
    for number in from..to {
        if !begins(log, number) {
            return None;
        }
        append(log, number, named)?;
        if !ends(log, number) {
            return None;
        }
    }
    if !named.in_order {
        return None;
    }
    Some(named.count)
}

// How many of 60 messages are named, and how many of 40 more behind another opening, of which the first is that of the file.
fn named_in_frames(alloc: Global, segment_size: u64, every: u64) -> Option<(usize, usize)> {
    let mut log = new_log(alloc, segment_size, every)?;
    let mut named = Named::new(alloc);
    let first = append_all(&mut log, 0, 60, &mut named)?;
    if log.batch_open() || log.make_stable().is_err() {
        return None;
    }
    let mut log = opened(alloc, log.into_disk(), segment_size, every)?;
    named.count = 0;
    let second = append_all(&mut log, 60, 100, &mut named)?;
    Some((first, second))
}

const FRAMES: &[(u64, u64)] = &[
    (0, 1),
    (0, 3),
    (0, 16),
    (64, 1),
    (64, 7),
    (64, 16),
    (4096, 1),
    (4096, 16),
];

#[test]
fn names_go_over_frames_and_batches(rt: HostRuntime) {
    for (segment_size, every) in FRAMES {
        let of = |count: u64| (count / (*every).max(1)) as usize;
        let found = named_in_frames(rt.alloc(), *segment_size, *every);
        assert_eq!(rt; found, Some((of(60), of(40))), "{segment_size} {every}");
    }
}

// How many of ten appends name nothing, and how many reads failed, where the n-th read does of a file of 19 messages, if that file opens.
fn unnamed_behind(alloc: Global, n: u64) -> Option<(usize, u64)> {
    let mut log = new_log(alloc, 0, 0)?;
    let mut named = Named::new(alloc);
    append_all(&mut log, 0, 19, &mut named)?;
    let mut disk = log.into_disk();
    disk.fail_read(n);
    let mut log = opened(alloc, disk, 0, 1)?;
    let count = append_all(&mut log, 19, 29, &mut named)?;
    Some((10usize.saturating_sub(count), log.failed_reads()))
}

// The file is opened by three reads. A message is read by two, and by three where its frame is another one. That of a batch takes ten, for
// the record that closes the batch is looked for first, in the next frame; and the one behind that record five: ten are by 45. An append
// that lacks one of these names nothing, and the next one goes on.
#[test]
fn a_name_waits_for_a_read(rt: HostRuntime) {
    for n in 1..=3 {
        assert_eq!(rt; unnamed_behind(rt.alloc(), n), None, "{n}");
    }
    for n in 4..=48 {
        assert_eq!(rt; unnamed_behind(rt.alloc(), n), Some((1, 1)), "{n}");
    }
    assert_eq!(rt; unnamed_behind(rt.alloc(), 49), Some((0, 0)));
}

// Behind so many marks, how many appends it takes until a message is named, 100 at most, and how often the first of them reads.
fn named_behind_marks(alloc: Global, count: u32) -> Option<(u64, u64)> {
    let mut file = marks::marks(alloc, count, true)?;
    file.push(0).ok()?;
    let mut log = opened(alloc, KeepingDisk::of(alloc, &file).ok()?, 4096, 1)?;
    let opening = log.disk().reads();
    let mut named = Named::new(alloc);
    let mut first = 0;
    for number in 0..100 {
        let found = append(&mut log, number, &mut named)?;
        if number == 0 {
            first = log.disk().reads().saturating_sub(opening);
        }
        if found && named.in_order {
            return Some((number.saturating_add(1), first));
        }
    }
    Some((100, first))
}

// A record that marks a batch is gone over by two reads, and 256 in one call. Behind the last one the frame ends.
const MARKS: &[(u32, u64, u64)] = &[
    (1, 1, 3),
    (254, 1, 509),
    (255, 2, 511),
    (256, 2, 512),
    (600, 3, 512),
    (10_000, 40, 512),
    (30_000, 100, 512),
];

#[test]
fn marks_are_gone_over_in_steps(rt: HostRuntime) {
    for (count, appends, reads) in MARKS {
        let found = named_behind_marks(rt.alloc(), *count);
        assert_eq!(rt; found, Some((*appends, *reads)), "{count}");
    }
}
