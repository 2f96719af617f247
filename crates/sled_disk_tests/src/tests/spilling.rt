// Batches that go over several frames: they count once the record that closes them is in one, and those that a stop cut never do.

ghost use Rattle.std.specs.Prelude.{◌≡◌, true, IfSome, OnOk};

use super::room::KeepingDisk;
use super::*;
use sled_base::{LogOffset, MessageKind, PageId};

type Name = Option<(PageId, LogOffset)>;

const SEGMENT_SIZE: u64 = 64;

const LEAF: [u8; 8] = [0; 8];

const LINK: [u8; 5] = [0, 1, 99, 1, 119];

// The log of a file with these bytes, of which a message is due for every so many.
fn opened(alloc: Global, bytes: &[u8], every: u64) -> Option<DiskLog<KeepingDisk>>
    ensures { IfSome result (λ log. log.usable ≡ true) }
{
    let disk = KeepingDisk::of(alloc, bytes).ok()?;
    DiskLog::open(alloc, disk, SEGMENT_SIZE, every).ok()
}

fn bytes_of(alloc: Global, log: &DiskLog<KeepingDisk>) -> Option<Vec<u8>> {
    log.disk().bytes().to_vec(alloc).ok()
}

// Links page 2 so many times.
fn link(log: &mut DiskLog<KeepingDisk>, count: u32) -> Result<(), LogError>
    requires usable { log.old.usable ≡ true }
    ensures usable { OnOk result (log.new.usable ≡ true) }
{
    for _ in 0..count {
        let _ = log.append(MessageKind::InlineLink, 2, &LINK)?;
    }
    Ok(())
}

fn pins(log: &mut DiskLog<KeepingDisk>) -> bool
    requires usable { log.old.usable ≡ true }
    ensures { result ≡ true → log.new.usable ≡ true }
{
    !log.batch_open() && log.pin().is_ok()
}

// Seals the batch, or cancels it.
fn closes(log: &mut DiskLog<KeepingDisk>, seal: bool) -> bool
    requires usable { log.old.usable ≡ true }
    ensures { result ≡ true → log.new.usable ≡ true }
{
    if !log.batch_open() {
        return false;
    }
    if seal {
        return log.seal().is_ok();
    }
    log.cancel().is_ok()
}

// How many bytes a flush writes.
fn flushed(log: &mut DiskLog<KeepingDisk>) -> Option<usize>
    requires usable { log.old.usable ≡ true }
    ensures { IfSome result (λ _. log.new.usable ≡ true) }
{
    if log.batch_open() {
        return None;
    }
    log.make_stable().ok()
}

// How many links page 2 has.
fn links_of(log: &mut DiskLog<KeepingDisk>) -> Option<usize>
    requires usable { log.old.usable ≡ true }
    ensures { IfSome result (λ _. log.new.usable ≡ true) }
{
    match log.recover().ok()?.get(2)? {
        PageState::Present { frags, .. } => Some(frags.len()),
        PageState::Free(..) => None,
    }
}

// The first file of a cache, and behind it in one frame an empty leaf of page 2 and so many links.
fn file(alloc: Global, links: u32) -> Option<Vec<u8>> {
    let mut log = opened(alloc, &FIRST, 0)?;
    let _ = log.append(MessageKind::InlineNode, 2, &LEAF).ok()?;
    link(&mut log, links).ok()?;
    let _ = flushed(&mut log)?;
    bytes_of(alloc, &log)
}

// The file of 87 bytes with three links of a batch, which a stop cut: the third link writes a frame.
fn cut_off(alloc: Global) -> Option<Vec<u8>> {
    let mut log = opened(alloc, &file(alloc, 0)?, 0)?;
    if !pins(&mut log) || link(&mut log, 3).is_err() || !log.batch_open() {
        return None;
    }
    bytes_of(alloc, &log)
}

// A record of a batch, by its kind and its payload's length.
fn is_mark(bytes: &[u8], kind: u8, len: u8) -> bool {
    let head = [
        kind, 0x65, 0xfd, 0xff, 0xff, 0xff, 0xff, 0xff, 0xff, len, 0, 0, 0, 0, 0, 0, 0,
    ];
    bytes.get(..17) == Some(head.as_slice())
}

fn is_place(bytes: &[u8], place: u8) -> bool {
    bytes.get(..8) == Some([place, 0, 0, 0, 0, 0, 0, 0].as_slice())
}

// A batch in one frame: its first record stands at 117, the link at 134, and the record that ends it at 156.
fn in_one_frame(alloc: Global) -> Option<(usize, usize, bool)> {
    let first = file(alloc, 1)?;
    let mut log = opened(alloc, &first, 0)?;
    if !pins(&mut log) || link(&mut log, 1).is_err() || !closes(&mut log, true) {
        return None;
    }
    let wrote = flushed(&mut log)?;
    let bytes = bytes_of(alloc, &log)?;
    let marked = is_mark(bytes.get(117..)?, 12, 0)
        && is_mark(bytes.get(156..)?, 13, 8)
        && is_place(bytes.get(173..)?, 117);
    Some((first.len(), wrote, marked && bytes.len() == 182))
}

#[test]
fn a_batch_in_one_frame(rt: HostRuntime) {
    assert_eq!(rt; in_one_frame(rt.alloc()), Some((109, 74, true)));
}

// How long the file is while the batch is open, what the flush behind it writes, how long it is then, and how many links page 2 has in it.
fn in_two_frames(alloc: Global, seal: bool) -> Option<(usize, usize, usize, usize)> {
    let mut log = opened(alloc, &file(alloc, 0)?, 0)?;
    if !pins(&mut log) || link(&mut log, 3).is_err() || !log.batch_open() {
        return None;
    }
    let before = log.disk().bytes().len();
    if !closes(&mut log, seal) {
        return None;
    }
    let wrote = flushed(&mut log)?;
    let bytes = bytes_of(alloc, &log)?;
    let mut log = opened(alloc, &bytes, 0)?;
    Some((before, wrote, bytes.len(), links_of(&mut log)?))
}

#[test]
fn a_batch_in_two_frames(rt: HostRuntime) {
    for seal in [true, false] {
        let found = in_two_frames(rt.alloc(), seal);
        assert_eq!(rt; found, Some((179, 35, 213, 3)), "{seal}");
    }
}

// How many links page 2 has in a file that was cut off in a batch, how long it is then, whether it says that the batch was abandoned, and
// both numbers behind a link more and another opening.
fn abandoned(alloc: Global) -> Option<(usize, usize, bool, usize, usize)> {
    let mut log = opened(alloc, &cut_off(alloc)?, 0)?;
    let links = links_of(&mut log)?;
    let bytes = bytes_of(alloc, &log)?;
    let marked = is_mark(bytes.get(187..)?, 14, 8) && is_place(bytes.get(204..)?, 95);
    link(&mut log, 1).ok()?;
    let _ = flushed(&mut log)?;
    let longer = bytes_of(alloc, &log)?;
    let mut log = opened(alloc, &longer, 0)?;
    Some((
        links,
        bytes.len(),
        marked,
        links_of(&mut log)?,
        longer.len(),
    ))
}

#[test]
fn a_batch_that_is_cut_off_never_counts(rt: HostRuntime) {
    assert_eq!(rt; abandoned(rt.alloc()), Some((0, 213, true, 1, 244)));
}

// Links page 2, and says what is named then.
fn named_behind(log: &mut DiskLog<KeepingDisk>) -> Option<Name>
    requires usable { log.old.usable ≡ true }
    ensures { IfSome result (λ _. log.new.usable ≡ true) }
{
    link(log, 1).ok()?;
    Some(log.to_move())
}

// What is named of that file, where each append names a message: none of the batch, and then the links that are appended. The first of
// those stands behind the gate at 212.
fn named(alloc: Global) -> Option<[Name; 5]> {
    let mut log = opened(alloc, &cut_off(alloc)?, 1)?;
    let first = named_behind(&mut log)?;
    let second = named_behind(&mut log)?;
    let third = named_behind(&mut log)?;
    let fourth = named_behind(&mut log)?;
    Some([first, second, third, fourth, named_behind(&mut log)?])
}

#[test]
fn a_batch_that_is_cut_off_is_never_named(rt: HostRuntime) {
    let names = [
        Some((0, 17)),
        Some((1, 34)),
        Some((2, 61)),
        Some((2, 221)),
        Some((2, 243)),
    ];
    assert_eq!(rt; named(rt.alloc()), Some(names));
}

// A record that closes a batch is none that an append adds.
fn refuses(alloc: Global) -> Option<LogError> {
    let mut log = opened(alloc, &FIRST, 0)?;
    log.append(MessageKind::Canceled, 0, &[]).err()
}

#[test]
fn an_append_closes_no_batch(rt: HostRuntime) {
    assert_eq!(rt; refuses(rt.alloc()), Some(LogError::Corruption));
}
