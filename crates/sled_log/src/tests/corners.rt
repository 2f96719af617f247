// Each call of the log in memory at the corners: payloads of no byte to 1,000, at, below and above the limit of blobs, of each
// kind; and none to 1,000 messages, of pages of their own, of links on one page, and of one page that is freed and put again,
// in a batch or in none.

ghost use Rattle.std.specs.List.{Any};
ghost use Rattle.sled_log.specs.Messages.{Chain};
ghost use Rattle.sled_log.specs.Pages.{IsAt, IsPageState};

use super::*;

const COUNTS: &[usize] = &[0, 1, 2, 3, 16, 17, 1_000];

const BYTES: [u8; 1000] = [7; 1000];

const LENS: &[usize] = &[0, 1, 21, 22, 23, 24, 240, 241, 999, 1_000];

// The kinds of messages, each with that which is read of a blob.
const KINDS: &[(MessageKind, MessageKind)] = &[
    (MessageKind::Counter, MessageKind::Counter),
    (MessageKind::InlineMeta, MessageKind::BlobMeta),
    (MessageKind::InlineNode, MessageKind::BlobNode),
    (MessageKind::InlineLink, MessageKind::BlobLink),
    (MessageKind::Free, MessageKind::Free),
];

// ---- what is read

// Where the last message of the page stands.
fn last_of(page: &PageState) -> (Lsn, DiskPtr)
    ensures { (chain : Chain) → IsPageState chain page.now → Any (IsAt result.0 result.1) chain }
{
    match page {
        PageState::Free(lsn, pointer) => (*lsn, *pointer),
        PageState::Present { base, frags } if frags.is_empty() => (base.0, base.1),
        PageState::Present { frags, .. } => {
            let link = &frags[frags.len() - 1];
            (link.0, link.1)
        }
    }
}

// What is read of the last message of the page, if there is one.
pub(super) fn read_last(
    log: &mut MemLog,
    pid: PageId,
) -> Result<Option<(MessageKind, Vec<u8>)>, LogError> {
    let pages = log.recover()?;
    let Some(page) = pages.get(pid as usize) else {
        return Ok(None);
    };
    let (lsn, pointer) = last_of(page);
    Ok(Some(log.read(pid, lsn, pointer)?))
}

pub(super) fn is_message(
    found: &Option<(MessageKind, Vec<u8>)>,
    kind: MessageKind,
    payload: &[u8],
) -> bool {
    match found {
        Some((found, bytes)) => *found == kind && bytes.as_slice() == payload,
        None => false,
    }
}

// Whether the last message of the page is read so with a space of so many bytes, and is in there where that has room for it.
fn is_read_to(
    log: &mut MemLog,
    pid: PageId,
    room: usize,
    kind: MessageKind,
    payload: &[u8],
) -> Result<bool, LogError> {
    let pages = log.recover()?;
    let Some(page) = pages.get(pid as usize) else {
        return Ok(false);
    };
    let (lsn, pointer) = last_of(page);
    let mut bytes = [1; 1001];
    let Some(space) = bytes.get_mut(..room) else {
        return Ok(false);
    };
    let (found, read) = log.read_to(pid, lsn, pointer, space)?;
    let is_short = matches!(&read, Payload::Short(_));
    Ok(found == kind && read.bytes(space) == payload && is_short == (payload.len() <= room))
}

// ---- messages of each kind

// Whether a message behind another one of its page is put there, and read again, before and after a crash.
fn is_kept(
    alloc: Global,
    blob_limit: usize,
    kinds: (MessageKind, MessageKind),
    payload: &[u8],
) -> Result<bool, LogError> {
    let mut log = MemLog::new(alloc, blob_limit, 0);
    let _ = log.append(MessageKind::InlineNode, 0, &[])?;
    let size = (payload.len() as u64).saturating_add(17);
    let is_blob = payload.len() > blob_limit;
    let (pointer, kind) = if is_blob {
        (DiskPtr::Blob(17, 17), kinds.1)
    } else {
        (DiskPtr::Inline(17), kinds.0)
    };
    let is_put = is_at(log.append(kinds.0, 0, payload), 17, pointer, size);
    let mut is_read = is_message(&read_last(&mut log, 0)?, kind, payload);
    let len = payload.len();
    for room in [0, len.saturating_sub(1), len, len.saturating_add(1)] {
        is_read = is_read && is_read_to(&mut log, 0, room, kind, payload)?;
    }
    if !log.is_fair(2) {
        return Ok(false);
    }
    let mut left = log.stop(2);
    let is_left = is_message(&read_last(&mut left, 0)?, kind, payload);
    Ok(is_put && is_read && is_left && left.size() == size.saturating_add(17))
}

// Whether that is so with the limit of blobs below the length, at it and above it.
fn is_kept_at_each_limit(
    alloc: Global,
    kinds: (MessageKind, MessageKind),
    payload: &[u8],
) -> Result<bool, LogError> {
    let len = payload.len();
    for limit in [len.saturating_sub(1), len, len.saturating_add(1)] {
        if !is_kept(alloc, limit, kinds, payload)? {
            return Ok(false);
        }
    }
    Ok(true)
}

#[test]
fn messages_of_each_kind_are_kept(rt: HostRuntime) -> Result<(), Fail> {
    for kinds in KINDS {
        for len in LENS {
            let payload = BYTES.get(..*len).ok_or("so many bytes")?;
            let is_so = is_kept_at_each_limit(rt.alloc(), *kinds, payload)?;
            assert!(rt; is_so, "{kinds:?} of {len} bytes");
        }
    }
    Ok(())
}

// ---- so many messages

// Which pages messages are of: each of a page of its own, all of one page, as a node and links on it, or all of one page, as
// nodes that are put and freed by turns.
#[derive(Clone, Copy, Debug)]
enum Shape {
    Pages,
    Links,
    Frees,
}

// Whether messages come in no batch, in one that is sealed, in one that is cancelled, or in one that stays open.
#[derive(Clone, Copy, Debug, PartialEq, Eq)]
enum Batch {
    None,
    Sealed,
    Cancelled,
    Open,
}

const SHAPES: [Shape; 3] = [Shape::Pages, Shape::Links, Shape::Frees];

const BATCHES: [Batch; 4] = [Batch::None, Batch::Sealed, Batch::Cancelled, Batch::Open];

// The kind and the page of the message with this number.
fn kind_and_page(shape: Shape, number: usize) -> (MessageKind, PageId) {
    match shape {
        Shape::Pages => (MessageKind::InlineNode, number as u64),
        Shape::Links if number > 0 => (MessageKind::InlineLink, 0),
        Shape::Frees if number % 2 == 1 => (MessageKind::Free, 0),
        Shape::Links | Shape::Frees => (MessageKind::InlineNode, 0),
    }
}

// Its payload. Above 100 bytes it is a blob.
fn payload_of(number: usize) -> &'static [u8] {
    let len = LENS.get(number % 10).copied().unwrap_or(0);
    BYTES.get(..len).unwrap_or(&[])
}

// How large so many messages are.
fn size_of(count: usize) -> u64 {
    let mut size = 0u64;
    for number in 0..count {
        size = size
            .saturating_add(17)
            .saturating_add(payload_of(number).len() as u64);
    }
    size
}

// Opens a batch, where there is to be one.
fn open(log: &mut MemLog, batch: Batch) -> Result<(), LogError> {
    if batch != Batch::None && !log.batch_open() {
        log.pin()?;
    }
    Ok(())
}

fn close(log: &mut MemLog, batch: Batch) -> Result<(), LogError> {
    if log.batch_open() && batch == Batch::Sealed {
        log.seal()?;
    } else if log.batch_open() && batch == Batch::Cancelled {
        log.cancel()?;
    }
    Ok(())
}

// A log of so many messages.
fn filled(alloc: Global, shape: Shape, batch: Batch, count: usize) -> Result<MemLog, LogError> {
    let mut log = MemLog::new(alloc, 100, 0);
    open(&mut log, batch)?;
    for number in 0..count {
        let (kind, pid) = kind_and_page(shape, number);
        let _ = log.append(kind, pid, payload_of(number))?;
    }
    close(&mut log, batch)?;
    Ok(log)
}

// How many pages there are, and how many links the first has, or none where it is free.
fn shape_after(shape: Shape, count: usize) -> (usize, Option<usize>) {
    match shape {
        Shape::Pages => (count, if count > 0 { Some(0) } else { None }),
        Shape::Links => (count.min(1), count.checked_sub(1)),
        Shape::Frees => (count.min(1), if count % 2 == 1 { Some(0) } else { None }),
    }
}

fn links_of(page: Option<&PageState>) -> Option<usize> {
    match page {
        Some(PageState::Present { frags, .. }) => Some(frags.len()),
        _ => None,
    }
}

// Whether the log holds so many messages, the last of which is read.
fn holds(log: &mut MemLog, shape: Shape, count: usize) -> Result<bool, LogError> {
    let pages = log.recover()?;
    let is_shaped = (pages.len(), links_of(pages.first())) == shape_after(shape, count);
    let Some(last) = count.checked_sub(1) else {
        return Ok(is_shaped && log.size() == 0);
    };
    let (kind, pid) = kind_and_page(shape, last);
    let payload = payload_of(last);
    let kind = match kind {
        MessageKind::InlineNode if payload.len() > 100 => MessageKind::BlobNode,
        MessageKind::InlineLink if payload.len() > 100 => MessageKind::BlobLink,
        other => other,
    };
    let is_read = is_message(&read_last(log, pid)?, kind, payload);
    Ok(is_shaped && is_read && log.size() == size_of(count))
}

// How many of the messages a crash leaves that keeps so many events, if it may.
fn messages_left(batch: Batch, count: usize, cut: usize) -> Option<usize> {
    let marks = match batch {
        Batch::None => 0,
        Batch::Open => 1,
        Batch::Sealed | Batch::Cancelled => 2,
    };
    if cut > count.saturating_add(marks) {
        return None;
    }
    let left = cut.saturating_sub(marks.min(1)).min(count);
    let is_whole = cut == 0 || cut == count.saturating_add(2);
    match batch {
        Batch::None | Batch::Cancelled => Some(left),
        Batch::Sealed if is_whole => Some(left),
        Batch::Open if cut == 0 => Some(0),
        Batch::Sealed | Batch::Open => None,
    }
}

// Whether a crash that keeps so many events leaves what it may leave, which takes another message, in such a batch.
fn leaves(
    alloc: Global,
    shape: Shape,
    batch: Batch,
    count: usize,
    cut: usize,
) -> Result<bool, LogError> {
    let log = filled(alloc, shape, batch, count)?;
    if !log.is_fair(cut) {
        return Ok(messages_left(batch, count, cut).is_none());
    }
    let Some(left) = messages_left(batch, count, cut) else {
        return Ok(false);
    };
    let mut log = log.stop(cut);
    let is_left = holds(&mut log, shape, left)?;
    let (kind, pid) = kind_and_page(shape, left);
    open(&mut log, batch)?;
    let _ = log.append(kind, pid, payload_of(left))?;
    close(&mut log, batch)?;
    Ok(is_left && holds(&mut log, shape, left.saturating_add(1))?)
}

// Whether the log holds so many messages, also once they are stable, and crashes leave what they may.
fn is_whole(alloc: Global, shape: Shape, batch: Batch, count: usize) -> Result<bool, LogError> {
    let mut log = filled(alloc, shape, batch, count)?;
    let mut is_so = holds(&mut log, shape, count)? && log.stable_offset() == 0;
    if !log.batch_open() {
        is_so = is_so && log.make_stable()? as u64 == size_of(count);
    }
    is_so = is_so && holds(&mut log, shape, count)?;
    if !log.batch_open() {
        is_so = is_so && log.make_stable()? == 0;
    }
    let end = count.saturating_add(2);
    for cut in [
        0,
        1,
        2,
        count / 2,
        count.saturating_sub(1),
        count,
        end.saturating_sub(1),
        end,
    ] {
        is_so = is_so && leaves(alloc, shape, batch, count, cut)?;
    }
    Ok(is_so)
}

#[test]
fn logs_hold_at_each_number_of_messages(rt: HostRuntime) -> Result<(), Fail> {
    for shape in SHAPES {
        for batch in BATCHES {
            for count in COUNTS {
                let is_so = is_whole(rt.alloc(), shape, batch, *count)?;
                assert!(rt; is_so, "{count} messages, {shape:?}, {batch:?}");
            }
        }
    }
    Ok(())
}
