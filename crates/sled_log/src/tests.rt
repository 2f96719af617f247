ghost use Rattle.std.specs.Prelude.{◌≡◌, [], true, OnOk};

mod blind;
mod buffered;
mod corners;
mod eager;
mod faulty;
mod hostile;
pub(crate) mod moves;
mod rows;
mod scripts;
mod walks;

use super::*;
use blind::{BlindLog, Device};
use buffered::BufferedLog;
use eager::EagerLog;
use sled_base::{DiskPtr, Lsn, MessageKind, PageId};
use std::alloc::Global;
use std::test::Fail;

// The payloads of an empty root map, of the counter 0, and of an empty leaf.
const ROOTS: [u8; 0] = [];

const COUNTER: [u8; 1] = [0];

const LEAF: [u8; 8] = [0; 8];
// A link that sets "b" to "v".
const LINK: [u8; 5] = [0, 1, 98, 1, 118];

// Whether a message was put at this place, with this log size.
fn is_at(
    placed: Result<(Lsn, DiskPtr, u64), LogError>,
    lsn: Lsn,
    pointer: DiskPtr,
    log_size: u64,
) -> bool {
    placed == Ok((lsn, pointer, log_size))
}

// Where a leaf is put by a log with this limit of payloads that are no blobs.
fn leaf_at(alloc: Global, blob_limit: usize) -> Option<DiskPtr> {
    let mut log = MemLog::new(alloc, blob_limit, 0);
    match log.append(MessageKind::InlineNode, 0, &LEAF) {
        Ok((_, pointer, _)) => Some(pointer),
        Err(_) => None,
    }
}

#[test]
fn a_payload_above_the_limit_is_a_blob(rt: HostRuntime) {
    for (limit, pointer) in [(8, DiskPtr::Inline(0)), (7, DiskPtr::Blob(0, 0))] {
        assert!(rt; leaf_at(rt.alloc(), limit) == Some(pointer), "{limit}");
    }
}

// How many pages a crash leaves that keeps so many events, if it may.
fn pages_left(log: MemLog, n: usize) -> Option<usize> {
    if !log.is_fair(n) {
        return None;
    }
    let mut left = log.stop(n);
    match left.recover() {
        Ok(pages) => Some(pages.len()),
        Err(_) => None,
    }
}

// A page and a link on it, both pending behind a stable page.
fn page_and_link(alloc: Global) -> Result<MemLog, LogError> {
    let mut log = MemLog::new(alloc, 512, 16);
    let _ = log.append(MessageKind::Counter, 0, &COUNTER)?;
    let _ = log.make_stable()?;
    let _ = log.append(MessageKind::InlineNode, 1, &LEAF)?;
    let _ = log.append(MessageKind::InlineLink, 1, &LINK)?;
    Ok(log)
}

#[test]
fn a_crash_leaves_what_was_stable(rt: HostRuntime) -> Result<(), Fail> {
    for (kept, pages) in [(0, Some(1)), (1, Some(2)), (2, Some(2)), (3, None)] {
        let log = page_and_link(rt.alloc())?;
        assert!(rt; pages_left(log, kept) == pages, "{kept}");
    }
    Ok(())
}

// Whether the message was read so.
fn is_read_so(
    read: Result<(MessageKind, Vec<u8>), LogError>,
    kind: MessageKind,
    len: usize,
) -> bool {
    match read {
        Ok((found, payload)) => found == kind && payload.len() == len,
        Err(_) => false,
    }
}

fn reads_a_blob(alloc: Global) -> Result<bool, LogError> {
    let mut log = MemLog::new(alloc, 4, 0);
    let (_, pointer, _) = log.append(MessageKind::InlineNode, 0, &LEAF)?;
    let read = log.read(0, 0, pointer);
    Ok((is_read_so(read, MessageKind::BlobNode, 8), log.reads()) == (true, 1))
}

#[test]
fn a_blob_is_read_with_its_kind(rt: HostRuntime) -> Result<(), Fail> {
    assert!(rt; reads_a_blob(rt.alloc())?);
    Ok(())
}

// Makes a batch of two pages by calls in a row.
fn batch<L: Log>(alloc: Global, log: &mut L) -> Result<(), LogError>
    requires tells { L.tells }
    requires empty { L.state log.old ≡ record { stable = []; pending = []; usable = true } }
    ensures usable { OnOk result ((L.state log.new).usable ≡ true) }
{
    let calls = [
        LogCall::Pin,
        LogCall::Append(MessageKind::Counter, 0, COUNTER.to_vec(alloc)?),
        LogCall::Append(MessageKind::InlineNode, 1, LEAF.to_vec(alloc)?),
        LogCall::Seal,
        LogCall::MakeStable,
    ];
    runs::make_calls(log, &calls)
}

// Whether both pages of the batch are durable then.
fn keeps_batch<L: Log>(alloc: Global, log: &mut L) -> Result<bool, LogError>
    requires tells { L.tells }
    requires empty { L.state log.old ≡ record { stable = []; pending = []; usable = true } }
{
    batch(alloc, log)?;
    let durable = log.stable_offset();
    Ok((durable, log.recover()?.len()) == (43, 2))
}

fn memory_keeps_batch(alloc: Global) -> Result<bool, LogError> {
    let mut log = MemLog::new(alloc, 512, 16);
    let is_kept = keeps_batch(alloc, &mut log)?;
    Ok((is_kept, pages_left(log, 0)) == (true, Some(2)))
}

fn buffered_keeps_batch(alloc: Global) -> Result<bool, LogError> {
    let mut log = BufferedLog::new(alloc);
    keeps_batch(alloc, &mut log)
}

fn eager_keeps_batch(alloc: Global) -> Result<bool, LogError> {
    let mut log = EagerLog::new(alloc);
    keeps_batch(alloc, &mut log)
}

#[test]
fn calls_are_made_in_a_row(rt: HostRuntime) -> Result<(), Fail> {
    assert!(rt; memory_keeps_batch(rt.alloc())?, "in memory");
    assert!(rt; buffered_keeps_batch(rt.alloc())?, "with a buffer");
    assert!(rt; eager_keeps_batch(rt.alloc())?, "eager");
    Ok(())
}

fn eager_makes_stable(alloc: Global) -> Result<bool, LogError> {
    let mut log = EagerLog::new(alloc);
    let _ = log.append(MessageKind::InlineNode, 0, &LEAF)?;
    let first = (log.stable_offset(), log.batch_open());
    let wrote = log.make_stable()?;
    log.pin()?;
    let _ = log.append(MessageKind::InlineNode, 0, &LEAF)?;
    let inside = (log.stable_offset(), log.batch_open());
    log.seal()?;
    let last = (wrote, log.stable_offset());
    Ok((first, inside, last) == ((25, false), (25, true), (0, 50)))
}

#[test]
fn an_eager_log_makes_each_call_stable(rt: HostRuntime) -> Result<(), Fail> {
    assert!(rt; eager_makes_stable(rt.alloc())?);
    Ok(())
}

// A device that keeps nothing, and gives the same message wherever it is read.
#[derive(Drop)]
struct Forgetful {
    alloc: Global,
}

impl Device for Forgetful {
    fn put(&mut self, _at: u64, _kind: MessageKind, _pid: PageId, _payload: &[u8]) -> bool {
        true
    }

    fn get(&mut self, _at: u64) -> Option<(MessageKind, PageId, Vec<u8>)> {
        Some((MessageKind::Counter, 0, Vec::new(self.alloc)))
    }

    fn sync(&mut self) -> bool {
        true
    }
}
