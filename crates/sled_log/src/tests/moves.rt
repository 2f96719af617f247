// Which messages the log in memory names to be moved, and the blobs that it names again.

ghost use Rattle.std.specs.Prelude.{IfSome};
ghost use Rattle.sled_log.specs.Messages.{Chain};
ghost use Rattle.sled_log.specs.Moves.{IsBlob};
ghost use Rattle.sled_log.specs.Pages.{IsPageState};

use super::corners::{is_message, read_last};
use super::*;
use sled_base::{BlobPointer, LogOffset, PageId};

// ---- a blob that is named again

// The blob that a page is kept as, if its message is all its chain and is kept so.
fn blob_of(page: &PageState) -> Option<BlobPointer>
    ensures { IfSome result
        (λ blob. (chain : Chain) → IsPageState chain page.now → IsBlob blob chain) }
{
    let PageState::Present { base, frags } = page else {
        return None;
    };
    let (_, pointer, _) = base;
    match pointer {
        DiskPtr::Blob(_, blob) if frags.is_empty() => Some(*blob),
        _ => None,
    }
}

// Where the message of a page is put again that is kept as a blob, if it is.
pub(crate) fn rewrite(
    log: &mut MemLog,
    pid: PageId,
) -> Result<Option<(Lsn, DiskPtr, u64)>, LogError> {
    let pages = log.recover()?;
    let Some(page) = pages.get(pid as usize) else {
        return Ok(None);
    };
    let Some(blob) = blob_of(page) else {
        return Ok(None);
    };
    Ok(Some(log.rewrite_blob_pointer(pid, blob)?))
}

// Whether it was put there and names that blob, which has the payload of a leaf.
fn is_again(said: Option<(Lsn, DiskPtr, u64)>, place: LogOffset, blob: BlobPointer) -> bool {
    let Some((lsn, pointer, log_size)) = said else {
        return false;
    };
    (lsn.unsigned_abs(), log_size) == (place, 25) && pointer == DiskPtr::Blob(place, blob)
}

// ---- calls in a row

#[derive(Clone, Copy)]
enum Step {
    // so many leaves, each of a new page
    Leaves(usize),
    Put(MessageKind, PageId, &'static [u8]),
    Pin,
    Seal,
    Cancel,
    MakeStable,
    // a crash that keeps so many of the pending events
    Crash(usize),
    // which message is named, or none
    Names(PageId, LogOffset),
    NamesNone,
    // a page that is a blob, the place where it is put again, and the name of the blob; or one that is none
    Rewrites(PageId, LogOffset, BlobPointer),
    RewritesNone(PageId),
    // a page whose last message is read with this kind and the payload of a leaf
    Reads(PageId, MessageKind),
}

// What is shown, the greatest payload that is no blob, for how many messages one is due, and calls of an empty log.
type Row = (&'static str, usize, u64, &'static [Step]);

const NO: Step = Step::NamesNone;

// Each leaf has 25 bytes of log.
const ROWS: &[Row] = &[
    ("0 names none", 512, 0, &[NO, Step::Leaves(17), NO, NO]),
    (
        "1 names each message in turn",
        512,
        1,
        &[
            NO,
            Step::Leaves(1),
            Step::Names(0, 0),
            NO,
            Step::Leaves(1),
            Step::Names(1, 25),
            NO,
            Step::Leaves(2),
            Step::Names(2, 50),
            NO,
            Step::Leaves(1),
            Step::Names(3, 75),
            NO,
        ],
    ),
    (
        "1 names the first of 17",
        512,
        1,
        &[Step::Leaves(17), Step::Names(0, 0), NO],
    ),
    (
        "3 names one for every three",
        512,
        3,
        &[
            Step::Leaves(2),
            NO,
            Step::Leaves(1),
            Step::Names(0, 0),
            NO,
            Step::Leaves(2),
            NO,
            Step::Leaves(1),
            Step::Names(1, 25),
            Step::Leaves(16),
            Step::Names(2, 50),
            NO,
        ],
    ),
    (
        "16 names one for every sixteen",
        512,
        16,
        &[
            Step::Leaves(3),
            NO,
            Step::Leaves(12),
            NO,
            Step::Leaves(1),
            Step::Names(0, 0),
            NO,
            Step::Leaves(15),
            NO,
            Step::Leaves(1),
            Step::Names(1, 25),
        ],
    ),
    (
        "16 names the first of 17",
        512,
        16,
        &[
            Step::Leaves(17),
            Step::Names(0, 0),
            NO,
            Step::Leaves(16),
            Step::Names(1, 25),
        ],
    ),
    (
        "marks are no messages",
        512,
        1,
        &[
            Step::Pin,
            NO,
            Step::Leaves(1),
            Step::Names(0, 0),
            Step::Seal,
            NO,
            Step::Pin,
            Step::Cancel,
            NO,
            Step::MakeStable,
            NO,
            Step::Leaves(1),
            Step::Names(1, 25),
            NO,
        ],
    ),
    (
        "the messages of batches are named",
        512,
        3,
        &[
            Step::Pin,
            Step::Leaves(1),
            Step::Seal,
            Step::Pin,
            Step::Leaves(1),
            Step::Cancel,
            NO,
            Step::Leaves(1),
            Step::Names(0, 0),
            Step::Leaves(3),
            Step::Names(1, 25),
            Step::Leaves(3),
            Step::Names(2, 50),
        ],
    ),
    (
        "a crash begins at the first again",
        512,
        1,
        &[
            Step::Leaves(3),
            Step::Names(0, 0),
            Step::Leaves(1),
            Step::Names(1, 25),
            Step::Leaves(1),
            Step::Crash(2),
            NO,
            Step::Leaves(1),
            Step::Names(0, 0),
            NO,
            Step::Leaves(1),
            Step::Names(1, 25),
            Step::Leaves(1),
            Step::Names(2, 50),
        ],
    ),
    (
        "a name may be of a message that is no more of its chain",
        512,
        1,
        &[
            Step::Put(MessageKind::InlineNode, 0, &LEAF),
            Step::Put(MessageKind::InlineLink, 0, &LINK),
            Step::Put(MessageKind::Free, 0, &ROOTS),
            Step::Names(0, 0),
            Step::Put(MessageKind::InlineNode, 0, &LEAF),
            Step::Names(0, 25),
            Step::Put(MessageKind::InlineNode, 0, &LEAF),
            Step::Names(0, 47),
        ],
    ),
    (
        "a message of no page is never named",
        512,
        1,
        &[
            Step::Put(MessageKind::InlineNode, 7, &LEAF),
            NO,
            Step::Leaves(1),
            NO,
        ],
    ),
    (
        "each page is moved, and a blob keeps its name",
        4,
        1,
        &[
            Step::Put(MessageKind::InlineMeta, 0, &ROOTS),
            Step::Put(MessageKind::Counter, 1, &COUNTER),
            Step::Put(MessageKind::InlineNode, 2, &LEAF),
            Step::Names(0, 0),
            Step::RewritesNone(0),
            Step::Put(MessageKind::InlineMeta, 0, &ROOTS),
            Step::Names(1, 17),
            Step::RewritesNone(1),
            Step::Put(MessageKind::Counter, 1, &COUNTER),
            Step::Names(2, 35),
            Step::Rewrites(2, 95, 35),
            Step::Reads(2, MessageKind::BlobNode),
            Step::Names(0, 60),
        ],
    ),
    (
        "a blob is named again and again",
        4,
        0,
        &[
            Step::Leaves(2),
            Step::Rewrites(0, 50, 0),
            Step::Reads(0, MessageKind::BlobNode),
            Step::Rewrites(0, 75, 0),
            Step::Rewrites(1, 100, 25),
            Step::Reads(0, MessageKind::BlobNode),
            Step::Reads(1, MessageKind::BlobNode),
            Step::MakeStable,
            Step::Rewrites(0, 125, 0),
            Step::Rewrites(1, 150, 25),
            Step::Crash(1),
            Step::Reads(0, MessageKind::BlobNode),
            Step::Reads(1, MessageKind::BlobNode),
            Step::Rewrites(1, 150, 25),
            Step::Reads(1, MessageKind::BlobNode),
            Step::Put(MessageKind::InlineLink, 1, &LINK),
            Step::RewritesNone(1),
        ],
    ),
    (
        "a blob is named again in a batch",
        4,
        2,
        &[
            Step::Pin,
            Step::Leaves(1),
            NO,
            Step::Rewrites(0, 25, 0),
            Step::Names(0, 0),
            Step::Seal,
            Step::Reads(0, MessageKind::BlobNode),
            Step::Pin,
            Step::Rewrites(0, 50, 0),
            Step::Cancel,
            Step::Reads(0, MessageKind::BlobNode),
            Step::Crash(6),
            Step::Reads(0, MessageKind::BlobNode),
        ],
    ),
];

// Appends so many leaves, each of a new page.
fn append_leaves(log: &mut MemLog, count: usize) -> Result<(), LogError> {
    let pages = log.recover()?.len() as u64;
    for number in 0..count as u64 {
        let pid = pages.saturating_add(number);
        let _ = log.append(MessageKind::InlineNode, pid, &LEAF)?;
    }
    Ok(())
}

// Makes the mark of a batch, or makes stable, where it may come.
fn marks(log: &mut MemLog, step: Step) -> Result<bool, LogError> {
    match step {
        Step::Pin if !log.batch_open() => log.pin()?,
        Step::MakeStable if !log.batch_open() => {
            let _ = log.make_stable()?;
        }
        Step::Seal if log.batch_open() => log.seal()?,
        Step::Cancel if log.batch_open() => log.cancel()?,
        _ => return Ok(false),
    }
    Ok(true)
}

// Whether a call is answered so. None of them reads but `Reads`.
fn is_so(log: &mut MemLog, step: Step) -> Result<bool, LogError> {
    Ok(match step {
        Step::Leaves(count) => {
            append_leaves(log, count)?;
            true
        }
        Step::Put(kind, pid, payload) => {
            let _ = log.append(kind, pid, payload)?;
            true
        }
        Step::Names(pid, place) => log.to_move() == Some((pid, place)),
        Step::NamesNone => log.to_move().is_none(),
        Step::Rewrites(pid, place, blob) => is_again(rewrite(log, pid)?, place, blob),
        Step::RewritesNone(pid) => rewrite(log, pid)?.is_none(),
        Step::Reads(pid, kind) => is_message(&read_last(log, pid)?, kind, &LEAF),
        _ => marks(log, step)?,
    })
}

// What a crash leaves that keeps so many of the pending events, if it may.
fn crash(log: MemLog, n: usize) -> Option<MemLog> {
    if log.is_fair(n) {
        Some(log.stop(n))
    } else {
        None
    }
}

fn takes_steps(alloc: Global, row: &Row) -> Result<bool, LogError> {
    let (_, blob_limit, clean_every, steps) = row;
    let mut log = MemLog::new(alloc, *blob_limit, *clean_every);
    for step in *steps {
        if let Step::Crash(n) = step {
            let Some(left) = crash(log, *n) else {
                return Ok(false);
            };
            log = left;
        } else if !is_so(&mut log, *step)? {
            return Ok(false);
        }
    }
    Ok(true)
}

#[test]
fn messages_are_named_and_blobs_again(rt: HostRuntime) -> Result<(), Fail> {
    for row in ROWS {
        assert!(rt; takes_steps(rt.alloc(), row)?, "{}", row.0);
    }
    Ok(())
}
