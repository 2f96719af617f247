// What the log in memory tells of its messages, and how much memory it keeps for them.

use super::*;
use crate::tests::moves::rewrite;
use crate::{Log, LogError};
use sled_base::{DiskPtr, MessageKind};
use std::test::Fail;

// Payloads above so many bytes are blobs.
const LIMIT: usize = 4;

// Payloads are empty, at the limit and one above it; and so long that messages end at, before and behind whole strides of the log, one
// of them behind three.
const LENGTHS: [usize; 11] = [0, 4, 5, 51, 111, 110, 0, 95, 112, 367, 238];

const LONGEST: usize = 400;

// Bytes of which no two parts that begin near each other are the same.
fn bytes() -> [u8; LONGEST] {
    let mut bytes = [0; LONGEST];
    for (number, byte) in bytes.iter_mut().enumerate() {
        *byte = (number * 7 % 251) as u8;
    }
    bytes
}

// The payload of the message with this number.
fn payload(bytes: &[u8], number: usize) -> &[u8] {
    let start = number % 5;
    bytes
        .get(start..start + LENGTHS[number % LENGTHS.len()])
        .unwrap_or(bytes)
}

// Appends messages up to that number, and says where they are.
fn append_up_to(
    log: &mut MemLog,
    bytes: &[u8],
    pointers: &mut Vec<DiskPtr>,
    count: usize,
) -> Result<(), LogError> {
    for number in pointers.len()..count {
        let (_, pointer, _) = log.append(
            MessageKind::InlineNode,
            number as u64,
            payload(bytes, number),
        )?;
        pointers.push(pointer)?;
    }
    Ok(())
}

// Whether a reader is told this payload, and the kind that it is kept under.
fn is_read_so(found: Option<(MessageKind, &[u8])>, payload: &[u8]) -> bool {
    let expected = if payload.len() <= LIMIT {
        MessageKind::InlineNode
    } else {
        MessageKind::BlobNode
    };
    match found {
        Some((kind, bytes)) => kind == expected && bytes == payload,
        None => false,
    }
}

// Whether the log tells the first messages where they were put, and none of the others.
fn tells(log: &MemLog, bytes: &[u8], pointers: &[DiskPtr], kept: usize) -> bool {
    for (number, pointer) in pointers.iter().enumerate() {
        let found = log.kind_and_payload(*pointer);
        let so = if number < kept {
            is_read_so(found, payload(bytes, number))
        } else {
            found.is_none()
        };
        if !so {
            return false;
        }
    }
    true
}

// Whether no more than an eighth of the memory is spare, and room for seven.
fn spare_is_small(log: &MemLog) -> bool {
    let items = log.items.capacity() - log.items.len();
    let bytes = log.bytes.capacity() - log.bytes.len();
    items <= log.items.len() / 8 + 7 && bytes <= log.bytes.len() / 8 + 7
}

// Whether a log of so many messages tells each, after a crash the first half, and each again once the others are appended anew.
fn keeps_its_messages(alloc: Global, count: usize) -> Result<bool, LogError> {
    let bytes = bytes();
    let mut log = MemLog::new(alloc, LIMIT, 0);
    let mut pointers = Vec::new(alloc);
    append_up_to(&mut log, &bytes, &mut pointers, count)?;
    let kept = count / 2;
    if !tells(&log, &bytes, &pointers, count) || !spare_is_small(&log) || !log.is_fair(kept) {
        return Ok(false);
    }
    let mut left = log.stop(kept);
    if left.items.len() != kept || !tells(&left, &bytes, &pointers, kept) {
        return Ok(false);
    }
    pointers.truncate(kept);
    append_up_to(&mut left, &bytes, &mut pointers, count)?;
    Ok(tells(&left, &bytes, &pointers, count))
}

#[test]
fn each_message_is_told_where_it_was_put(rt: HostRuntime) -> Result<(), Fail> {
    for count in [0, 1, 2, 3, 16, 17, 1000] {
        assert!(rt; keeps_its_messages(rt.alloc(), count)?, "{count}");
    }
    Ok(())
}

// Appends, and once more where memory was refused. Whether the log was as before then.
fn append_again(log: &mut MemLog, payload: &[u8]) -> Result<bool, LogError> {
    let before = (log.size, log.clock, log.items.len(), log.bytes.len());
    if log.append(MessageKind::InlineNode, 0, payload).is_ok() {
        return Ok(true);
    }
    let same = (log.size, log.clock, log.items.len(), log.bytes.len()) == before;
    let _ = log.append(MessageKind::InlineNode, 0, payload)?;
    Ok(same)
}

fn appends_again(alloc: Global) -> Result<bool, LogError> {
    let bytes = bytes();
    let mut log = MemLog::new(alloc, LIMIT, 0);
    for number in 0..40 {
        if !append_again(&mut log, payload(&bytes, number))? {
            return Ok(false);
        }
    }
    Ok((log.items.len(), log.bytes.len()) == (40, 3560))
}

#[test]
fn a_refused_append_changes_nothing(rt: HostRuntime) -> Result<(), Fail> {
    assert!(rt; appends_again(rt.alloc())?);
    Ok(())
}

// Puts the blob of page 0 again, and once more where memory was refused. Whether the log was as before then, and then names the
// message at this place.
fn rewrite_again(log: &mut MemLog, named: u64) -> Result<bool, LogError> {
    let before = (log.size, log.clock, log.items.len(), log.appended);
    let mut same = true;
    if rewrite(log, 0).is_err() {
        same = (log.size, log.clock, log.items.len(), log.appended) == before;
        let _ = rewrite(log, 0)?;
    }
    Ok(same && log.to_move() == Some((0, named)))
}

// The payload is kept once.
fn rewrites_again(alloc: Global) -> Result<bool, LogError> {
    let mut log = MemLog::new(alloc, LIMIT, 1);
    let _ = log.append(MessageKind::InlineNode, 0, &[7; 10])?;
    for number in 0..40u64 {
        if !rewrite_again(&mut log, number.saturating_mul(27))? {
            return Ok(false);
        }
    }
    Ok((log.items.len(), log.bytes.len(), log.size) == (41, 10, 1107))
}

#[test]
fn a_refused_rewrite_changes_nothing(rt: HostRuntime) -> Result<(), Fail> {
    assert!(rt; rewrites_again(rt.alloc())?);
    Ok(())
}
