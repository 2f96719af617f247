// Which messages a log names where batches are among them: the log's own, which it names as a log in memory does, and those of a file
// that is opened again.

ghost use Rattle.std.specs.Prelude.{◌≡◌, true, IfSome};

use super::room::KeepingDisk;
use super::*;
use Ends::{Cancelled, CutOff, Plain, Sealed};
use sled_base::{DiskPtr, LogOffset, MessageKind};
use sled_log::MemLog;

const LEAF: [u8; 8] = [0; 8];

// What is to be named: the places of all messages in order, of which the next one is due for every so many that are appended.
#[derive(Drop)]
struct Due {
    places: Vec<LogOffset>,
    next: usize,
    every: u64,
    appended: u64,
}

impl Due {
    fn new(alloc: Global, every: u64) -> Due {
        Due {
            places: Vec::new(alloc),
            next: 0,
            every,
            appended: 0,
        }
    }

    // Behind an opening the first of them is next, and none was appended since.
    fn open(&mut self, every: u64) {
        self.next = 0;
        self.every = every;
        self.appended = 0;
    }

    // Notes a message that was appended. Answers the one that is due then, if one is.
    fn behind(&mut self, place: LogOffset) -> Option<Option<LogOffset>> {
        self.places.push(place).ok()?;
        self.appended = self.appended.saturating_add(1);
        if self.every == 0 || self.appended < self.every {
            return Some(None);
        }
        self.appended = 0;
        let due = self.places.get(self.next).copied();
        self.next = self.next.saturating_add(1);
        Some(due)
    }
}

// Messages, and whether they are a batch: one that is sealed, cancelled, or cut off where the log ends.
#[derive(Clone, Copy, PartialEq)]
enum Ends {
    Plain,
    Sealed,
    Cancelled,
    CutOff,
}

type Part = (Ends, u64);

// Appends so many leaves of a page. Answers whether behind each of them is named what is due.
fn appends<L: Log>(log: &mut L, count: u64, due: &mut Due) -> bool
    requires usable { (⟦<L as Log>⟧.state log.old).usable ≡ true }
    ensures { result ≡ true → (⟦<L as Log>⟧.state log.new).usable ≡ true }
{
    for _ in 0..count {
        let Ok((_, DiskPtr::Inline(place), _)) = log.append(MessageKind::InlineNode, 0, &LEAF)
        else {
            return false;
        };
        let named = log.to_move().map(|(_, place)| place);
        if due.behind(place) != Some(named) {
            return false;
        }
    }
    true
}

// Opens a batch, but for plain messages.
fn begins<L: Log>(log: &mut L, ends: Ends) -> bool
    requires usable { (⟦<L as Log>⟧.state log.old).usable ≡ true }
    ensures { result ≡ true → (⟦<L as Log>⟧.state log.new).usable ≡ true }
{
    if log.batch_open() {
        return false;
    }
    ends == Plain || log.pin().is_ok()
}

// Closes it, but where it is cut off.
fn closes<L: Log>(log: &mut L, ends: Ends) -> bool
    requires usable { (⟦<L as Log>⟧.state log.old).usable ≡ true }
    ensures { result ≡ true → (⟦<L as Log>⟧.state log.new).usable ≡ true }
{
    if !log.batch_open() {
        return ends == Plain;
    }
    match ends {
        Sealed => log.seal().is_ok(),
        Cancelled => log.cancel().is_ok(),
        Plain | CutOff => ends == CutOff,
    }
}

fn flushes<L: Log>(log: &mut L) -> bool
    requires usable { (⟦<L as Log>⟧.state log.old).usable ≡ true }
    ensures { result ≡ true → (⟦<L as Log>⟧.state log.new).usable ≡ true }
{
    !log.batch_open() && log.make_stable().is_ok()
}

// Whether a part names what is due.
fn names<L: Log>(log: &mut L, part: Part, due: &mut Due) -> bool
    requires usable { (⟦<L as Log>⟧.state log.old).usable ≡ true }
    ensures { result ≡ true → (⟦<L as Log>⟧.state log.new).usable ≡ true }
{
    begins(log, part.0) && appends(log, part.1, due) && closes(log, part.0)
}

// Whether all parts do, for every so many messages.
fn names_all<L: Log>(log: &mut L, parts: &[Part], due: &mut Due) -> bool
    requires usable { (⟦<L as Log>⟧.state log.old).usable ≡ true }
    ensures { result ≡ true → (⟦<L as Log>⟧.state log.new).usable ≡ true }
{
    for part in parts {
        if !names(log, *part, due) {
            return false;
        }
    }
    true
}

fn opened(
    alloc: Global,
    disk: KeepingDisk,
    segment_size: u64,
    every: u64,
) -> Option<DiskLog<KeepingDisk>>
    ensures { IfSome result (λ log. log.usable ≡ true) }
{
    DiskLog::open(alloc, disk, segment_size, every).ok()
}

fn new_log(alloc: Global, segment_size: u64, every: u64) -> Option<DiskLog<KeepingDisk>>
    ensures { IfSome result (λ log. log.usable ≡ true) }
{
    let mut disk = KeepingDisk::of(alloc, &[]).ok()?;
    DiskLog::create(&mut disk).ok()?;
    opened(alloc, disk, segment_size, every)
}

// ---- a log's own batches

// Each is longer than what one append looks at.
const OWN: &[Part] = &[
    (Plain, 2),
    (Sealed, 300),
    (Plain, 1),
    (Cancelled, 300),
    (Sealed, 1),
    (Plain, 5),
    (Sealed, 300),
];

// Whether a new log on a disk names what is due.
fn names_on_a_disk(alloc: Global, segment_size: u64, every: u64) -> bool {
    let Some(mut log) = new_log(alloc, segment_size, every) else {
        return false;
    };
    names_all(&mut log, OWN, &mut Due::new(alloc, every))
}

#[test]
fn own_batches_are_named_as_in_memory(rt: HostRuntime) {
    let alloc = rt.alloc();
    for every in [0, 1, 3, 16] {
        let mut log = MemLog::new(alloc, 512, every);
        assert!(rt;
            names_all(&mut log, OWN, &mut Due::new(alloc, every)),
            "{every}"
        );
        for segment_size in [0, 64, 4096] {
            let named = names_on_a_disk(alloc, segment_size, every);
            assert!(rt; named, "{segment_size} {every}");
        }
    }
}

// ---- a file's batches

// The log behind a part, of which nothing is named. Where the part is cut off, the log is opened again, and the part is none of its messages.
fn behind(
    alloc: Global,
    mut log: DiskLog<KeepingDisk>,
    segment_size: u64,
    part: Part,
    due: &mut Due,
) -> Option<DiskLog<KeepingDisk>>
    requires usable { log.usable ≡ true }
    ensures { IfSome result (λ log. log.usable ≡ true) }
{
    let before = due.places.len();
    if !flushes(&mut log) || !names(&mut log, part, due) {
        return None;
    }
    if part.0 != CutOff {
        return Some(log);
    }
    due.places.truncate(before);
    opened(alloc, log.into_disk(), segment_size, 0)
}

// The log of a file of these parts, which is opened again.
fn reopened(
    alloc: Global,
    segment_size: u64,
    every: u64,
    parts: &[Part],
    due: &mut Due,
) -> Option<DiskLog<KeepingDisk>>
    ensures { IfSome result (λ log. log.usable ≡ true) }
{
    let mut log = new_log(alloc, segment_size, 0)?;
    for part in parts {
        log = behind(alloc, log, segment_size, *part, due)?;
    }
    if !flushes(&mut log) {
        return None;
    }
    opened(alloc, log.into_disk(), segment_size, every)
}

// Behind the opening so many are appended that all of the file are named, and some of the new ones.
const MORE: &[Part] = &[(Plain, 10), (Sealed, 60), (Cancelled, 60), (Plain, 300)];

// How many messages of a file with these parts are named each where it is due, if all are.
fn named_of(alloc: Global, segment_size: u64, every: u64, parts: &[Part]) -> Option<usize> {
    let mut due = Due::new(alloc, 0);
    let mut log = reopened(alloc, segment_size, every, parts, &mut due)?;
    let count = due.places.len();
    due.open(every);
    if !names_all(&mut log, MORE, &mut due) || due.next <= count {
        return None;
    }
    Some(count)
}

const SMALL: &[Part] = &[
    (Plain, 2),
    (Sealed, 1),
    (Plain, 1),
    (Cancelled, 1),
    (Plain, 1),
    (CutOff, 1),
    (Plain, 1),
    (Sealed, 7),
    (Plain, 1),
    (Cancelled, 7),
    (Plain, 1),
    (CutOff, 7),
    (Plain, 3),
    (Sealed, 20),
    (Plain, 1),
    (Cancelled, 20),
    (Plain, 1),
    (CutOff, 20),
    (Plain, 1),
];

const LARGE: &[Part] = &[
    (Plain, 1),
    (Sealed, 50),
    (Plain, 1),
    (CutOff, 50),
    (Plain, 1),
    (Cancelled, 50),
    (Plain, 1),
    (CutOff, 50),
    (CutOff, 1),
    (Plain, 2),
];

const HUGE: &[Part] = &[
    (Plain, 1),
    (CutOff, 200),
    (Plain, 2),
    (Sealed, 200),
    (Plain, 1),
];

// How many bytes a frame has, for how many messages one is due, and the parts of a file with how many messages. At 0 each change of a
// batch is a frame of its own. Where only each third message is due, three appends look for it.
const FILES: &[(u64, u64, &[Part], usize)] = &[
    (0, 1, SMALL, 69),
    (0, 3, SMALL, 69),
    (200, 1, SMALL, 69),
    (500, 1, SMALL, 69),
    (500, 3, SMALL, 69),
    (500, 1, LARGE, 106),
    (500, 3, LARGE, 106),
    (0, 3, LARGE, 106),
    (500, 1, HUGE, 204),
];

#[test]
fn batches_of_a_file_delay_no_name(rt: HostRuntime) {
    for (segment_size, every, parts, count) in FILES {
        let found = named_of(rt.alloc(), *segment_size, *every, parts);
        assert_eq!(rt; found, Some(*count), "{segment_size} {every} {count}");
    }
}
