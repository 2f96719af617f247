// Which messages a log on a disk names to be moved, before and after its file is opened again.

ghost use Rattle.std.specs.Prelude.{◌≡◌, true, [], IfOk, OnOk};
ghost use Rattle.sled_disk.specs.PendingFrame.{pending_of};

use super::room::KeepingDisk;
use super::*;
use sled_base::{LogOffset, MessageKind, PageId};

type Name = Option<(PageId, LogOffset)>;

const LEAF: [u8; 8] = [0; 8];

// A new log, of which a message is due for every so many.
fn new_log(alloc: Global, clean_every: u64) -> Result<DiskLog<KeepingDisk>, LogError>
    ensures usable { IfOk result (λ log. log.usable ≡ true) }
    ensures closed { IfOk result (λ log. pending_of [] log.next ≡ []) }
{
    let mut disk = KeepingDisk::new(alloc)?;
    DiskLog::create(&mut disk)?;
    DiskLog::open(alloc, disk, 4096, clean_every).map_err(|(error, _)| error)
}

// The log of the same file, which is opened again.
fn reopened(
    alloc: Global,
    log: DiskLog<KeepingDisk>,
    clean_every: u64,
) -> Result<DiskLog<KeepingDisk>, LogError>
    ensures { IfOk result (λ log. log.usable ≡ true) }
{
    DiskLog::open(alloc, log.into_disk(), 4096, clean_every).map_err(|(error, _)| error)
}

// Appends so many leaves, each of a new page from that one on.
fn append_leaves(log: &mut DiskLog<KeepingDisk>, from: PageId, count: u64) -> Result<(), LogError>
    requires usable { log.old.usable ≡ true }
    ensures usable { OnOk result (log.new.usable ≡ true) }
{
    for number in 0..count {
        let _ = log.append(MessageKind::InlineNode, from.saturating_add(number), &LEAF)?;
    }
    Ok(())
}

// What is named behind so many leaves, and then behind one more.
fn named(alloc: Global, clean_every: u64, count: u64) -> Result<(Name, Name), LogError> {
    let mut log = new_log(alloc, clean_every)?;
    append_leaves(&mut log, 0, count)?;
    let first = log.to_move();
    append_leaves(&mut log, count, 1)?;
    Ok((first, log.to_move()))
}

// For how many messages one is due, how many there are, and what is named then and behind one more. The first record of a file
// stands at 17, and each leaf has 25 bytes.
const ROWS: &[(u64, u64, Name, Name)] = &[
    (0, 17, None, None),
    (1, 0, None, Some((0, 17))),
    (1, 1, Some((0, 17)), Some((1, 42))),
    (1, 2, Some((0, 17)), Some((1, 42))),
    (3, 1, None, None),
    (3, 2, None, Some((0, 17))),
    (3, 3, Some((0, 17)), None),
    (16, 3, None, None),
    (16, 15, None, Some((0, 17))),
    (16, 16, Some((0, 17)), None),
    (16, 17, Some((0, 17)), None),
];

#[test]
fn messages_are_named_in_turn(rt: HostRuntime) {
    for (clean_every, count, first, second) in ROWS {
        let found = named(rt.alloc(), *clean_every, *count);
        assert!(rt; found == Ok((*first, *second)), "{clean_every} {count}");
    }
}

// What is named of a file with a batch that is sealed, one that is cancelled and a page that is put twice: nothing before a message
// is appended, and then each message in turn, those that were read first.
fn named_again(alloc: Global) -> Result<[Name; 7], LogError> {
    let mut log = new_log(alloc, 1)?;
    let _ = log.append(MessageKind::InlineNode, 0, &LEAF)?;
    let first = log.to_move();
    log.pin()?;
    let _ = log.append(MessageKind::InlineNode, 1, &LEAF)?;
    log.seal()?;
    let _ = log.make_stable()?;
    log.pin()?;
    let _ = log.append(MessageKind::InlineNode, 0, &LEAF)?;
    log.cancel()?;
    let _ = log.make_stable()?;
    let mut log = reopened(alloc, log, 1)?;
    let none = log.to_move();
    append_leaves(&mut log, 2, 1)?;
    let read = log.to_move();
    let again = log.to_move();
    append_leaves(&mut log, 3, 1)?;
    let second = log.to_move();
    append_leaves(&mut log, 4, 2)?;
    let third = log.to_move();
    append_leaves(&mut log, 6, 1)?;
    let fourth = log.to_move();
    Ok([first, none, read, again, second, third, fourth])
}

// The first frame has 8 bytes before its gate and a leaf at 17; a batch begins at 42, with a leaf at 59, and ends at 84; the next gate
// is at 109. In the second frame a batch begins at 118, with a leaf at 135, and is cancelled at 160; the third begins at 194.
#[test]
fn a_file_begins_at_its_first_message_again(rt: HostRuntime) {
    let found = named_again(rt.alloc());
    let names = [
        Some((0, 17)),
        None,
        Some((0, 17)),
        None,
        Some((1, 59)),
        Some((0, 135)),
        Some((2, 194)),
    ];
    assert!(rt; found == Ok(names));
}
