// Logs whose places come near the greatest one, over a disk that keeps nothing of what is written and tells nothing. Whether a batch is open
// is a fact of the log's own, so it holds there too.

ghost use Rattle.std.specs.Prelude.{◌≡◌, true, IfSome};

use super::acts::Act::{Append, Cancel, Flush, Pin, Seal};
use super::acts::Answer::{Full, Made};
use super::acts::{Act, Answer, acts, acts_all, answers};
use super::opening::BATCH;
use super::reading::{Sparse, with_zeros_behind};
use super::*;
use sled_base::MessageKind::InlineNode;

const MOST: u64 = i64::MAX as u64;

// A file whose closed gate stands there: of a record that is skipped, or of a batch that begins at 17, with one change. Of their payload
// nothing stands there.
fn file_to(alloc: Global, gate: u64, is_batch: bool) -> Option<Sparse> {
    let mut file = marks::front(alloc, gate.checked_sub(17)?)?;
    let mut is_put = true;
    if is_batch {
        is_put = marks::put_head(&mut file, 12, BATCH, 0)
            && marks::put_head(&mut file, 8, 0, gate.checked_sub(51)?);
    } else {
        is_put = marks::put_head(&mut file, 1, 0, gate.checked_sub(34)?);
    }
    let disk = with_zeros_behind(file, gate.checked_add(1)?, false);
    is_put.then_some(disk)
}

fn opened(alloc: Global, disk: Sparse, segment_size: u64) -> Option<DiskLog<Sparse>>
    ensures { IfSome result (λ log. log.usable ≡ true) }
{
    DiskLog::open(alloc, disk, segment_size, 0).ok()
}

// Where the gate of such a file stands once it is opened, if it describes anything.
fn gate_of(alloc: Global, gate: u64, is_batch: bool) -> Option<u64> {
    match DiskLog::open(alloc, file_to(alloc, gate, is_batch)?, 4096, 0) {
        Ok(log) => u64::try_from(log.stable_offset()).ok(),
        Err((LogError::Corruption, _)) => Some(0),
        Err(_) => None,
    }
}

// A gate stands at the greatest place at most. Inside a batch that is so for the gate behind the frame that abandons it, too.
const GATES: &[(u64, bool, u64)] = &[
    (MOST - 1, false, MOST - 1),
    (MOST, false, MOST),
    (MOST + 1, false, 0),
    (MOST - 35, true, MOST - 1),
    (MOST - 34, true, MOST),
    (MOST - 33, true, 0),
    (MOST, true, 0),
    (MOST + 1, true, 0),
];

#[test]
fn a_gate_stands_at_the_greatest_place_at_most(rt: HostRuntime) {
    for (gate, is_batch, wanted) in GATES {
        let found = gate_of(rt.alloc(), *gate, *is_batch);
        assert_eq!(rt; found, Some(*wanted), "{gate} {is_batch}");
    }
}

// Calls with segments of so many bytes, of which the last is Full where fewer bytes than this lie between the gate and the greatest place:
// the next gate's place, and 34 where a batch is open behind the call. Whether a batch is open where it is made, and where it is Full. How
// many bytes are left of these where it is made, and the batch is closed and all of it flushed.
type Row = (u64, &'static [Act], u64, bool, bool, u64);

// No append writes a frame: all that is pending has this before its gate.
const LONG: u64 = u64::MAX;

const ROWS: &[Row] = &[
    (LONG, &[Append(InlineNode, 0, 0)], 26, false, false, 0),
    (LONG, &[Append(InlineNode, 0, 60)], 86, false, false, 0),
    (LONG, &[Pin], 60, true, false, 9),
    (LONG, &[Pin, Append(InlineNode, 0, 1)], 78, true, true, 9),
    (LONG, &[Append(InlineNode, 0, 1), Pin], 78, true, false, 9),
    (
        LONG,
        &[
            Pin,
            Append(InlineNode, 0, 0),
            Seal,
            Append(InlineNode, 0, 1),
        ],
        86,
        false,
        false,
        0,
    ),
    (LONG, &[Pin, Cancel, Pin], 102, true, false, 9),
    (
        LONG,
        &[Pin, Cancel, Append(InlineNode, 0, 0)],
        68,
        false,
        false,
        0,
    ),
    (
        LONG,
        &[Append(InlineNode, 0, 0), Flush, Append(InlineNode, 0, 0)],
        52,
        false,
        false,
        0,
    ),
    (LONG, &[Pin, Seal, Flush, Pin], 111, true, false, 9),
    // each append writes a frame
    (0, &[Append(InlineNode, 0, 0)], 26, false, false, 0),
    (0, &[Pin], 60, true, false, 9),
    (0, &[Pin, Append(InlineNode, 0, 1)], 78, true, true, 0),
    (
        0,
        &[Pin, Append(InlineNode, 0, 1), Append(InlineNode, 0, 2)],
        106,
        true,
        true,
        0,
    ),
    (
        0,
        &[
            Pin,
            Append(InlineNode, 0, 1),
            Seal,
            Append(InlineNode, 0, 0),
        ],
        95,
        false,
        false,
        0,
    ),
    (
        0,
        &[Pin, Append(InlineNode, 0, 1), Cancel, Pin],
        129,
        true,
        false,
        9,
    ),
    (
        0,
        &[
            Pin,
            Append(InlineNode, 0, 1),
            Seal,
            Flush,
            Append(InlineNode, 0, 0),
        ],
        104,
        false,
        false,
        0,
    ),
];

// What the last of these calls answers where so many bytes lie before the greatest place, and whether a batch is open then; and how many are
// left once that is closed by this call and all is flushed.
fn answered(alloc: Global, room: u64, row: &Row, closing: Act) -> Option<(Answer, bool, u64)> {
    let (segment_size, calls, ..) = *row;
    let mut log = opened(
        alloc,
        file_to(alloc, MOST.checked_sub(room)?, false)?,
        segment_size,
    )?;
    let (last, before) = calls.split_last()?;
    if !acts_all(&mut log, before) {
        return None;
    }
    let answer = answers(&mut log, *last)?;
    let is_open = log.batch_open();
    if is_open && !acts(&mut log, closing) || log.batch_open() || !acts(&mut log, Flush) {
        return None;
    }
    let gate = u64::try_from(log.stable_offset()).ok()?;
    Some((answer, is_open, MOST.checked_sub(gate)?))
}

// Whether the last call is made where there are so many bytes more than it wants, and is Full where there is one less.
fn is_full_at(alloc: Global, row: &Row, closing: Act) -> bool {
    let (_, _, room, is_open, was_open, left) = *row;
    for more in [0, 1, 9, 1000] {
        let wanted = (Made, is_open, left.saturating_add(more));
        if answered(alloc, room.saturating_add(more), row, closing) != Some(wanted) {
            return false;
        }
    }
    match answered(alloc, room.saturating_sub(1), row, closing) {
        Some((answer, found, _)) => answer == Full && found == was_open,
        None => false,
    }
}

#[test]
fn a_log_is_full_at_the_greatest_place(rt: HostRuntime) {
    for (at, row) in ROWS.iter().enumerate() {
        for closing in [Seal, Cancel] {
            assert!(rt; is_full_at(rt.alloc(), row, closing), "{at}");
        }
    }
}
