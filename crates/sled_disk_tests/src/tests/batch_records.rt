// Files with records of batches: which of them open, and what their batches make then.

use super::opening::Outcome::{Corrupt, Opens};
use super::opening::Part::{Body, Bytes, Frame, Head, Place};
use super::opening::{BATCH, File, Outcome, Part, file_of, is_so, outcome_of, put_part};
use super::*;

// The record that begins a batch, of 17 bytes.
const BEGIN: Part = Head(12, BATCH, 0);

// The heads of records that close one, of 25 bytes with the place behind them.
const END: Part = Head(13, BATCH, 8);

const CANCELLED: Part = Head(1, BATCH, 8);

const ABANDONED: Part = Head(14, BATCH, 8);

// Files with a closed gate behind their parts. The first record stands at 17, and behind one that begins a batch the next at 34. A file
// that ends inside a batch has 34 bytes more once it is opened.
const FILES: &[File] = &[
    // a batch begins, and another can't begin inside it
    (&[Frame(12, BATCH)], Opens(0, 69)),
    (&[Body(34), BEGIN, BEGIN], Corrupt),
    (&[Frame(12, BATCH), Frame(12, BATCH)], Corrupt),
    // with another page, or a payload
    (&[Frame(12, 0)], Corrupt),
    (&[Frame(12, BATCH + 1)], Corrupt),
    (&[Body(18), Head(12, BATCH, 1), Bytes(&[0])], Corrupt),
    (&[Body(25), Head(12, BATCH, 8), Place(17)], Corrupt),
    // it is closed by a record that names its own, also in another frame
    (&[Body(42), BEGIN, END, Place(17)], Opens(0, 60)),
    (&[Body(42), BEGIN, CANCELLED, Place(17)], Opens(0, 60)),
    (&[Body(42), BEGIN, ABANDONED, Place(17)], Opens(0, 60)),
    (&[Frame(12, BATCH), Body(25), END, Place(17)], Opens(0, 69)),
    (
        &[Frame(12, BATCH), Body(25), CANCELLED, Place(17)],
        Opens(0, 69),
    ),
    (
        &[Frame(12, BATCH), Body(25), ABANDONED, Place(17)],
        Opens(0, 69),
    ),
    // and not by one that names another place,
    (&[Body(42), BEGIN, END, Place(0)], Corrupt),
    (&[Body(42), BEGIN, END, Place(16)], Corrupt),
    (&[Body(42), BEGIN, END, Place(18)], Corrupt),
    (&[Body(42), BEGIN, END, Place(34)], Corrupt),
    (&[Body(42), BEGIN, END, Place(u64::MAX)], Corrupt),
    (&[Body(42), BEGIN, CANCELLED, Place(0)], Corrupt),
    (&[Body(42), BEGIN, CANCELLED, Place(16)], Corrupt),
    (&[Body(42), BEGIN, CANCELLED, Place(18)], Corrupt),
    (&[Body(42), BEGIN, CANCELLED, Place(34)], Corrupt),
    (&[Body(42), BEGIN, ABANDONED, Place(0)], Corrupt),
    (&[Body(42), BEGIN, ABANDONED, Place(16)], Corrupt),
    (&[Body(42), BEGIN, ABANDONED, Place(18)], Corrupt),
    (&[Body(42), BEGIN, ABANDONED, Place(34)], Corrupt),
    (&[Frame(12, BATCH), Body(25), END, Place(43)], Corrupt),
    // or has another page
    (&[Body(42), BEGIN, Head(13, 0, 8), Place(17)], Corrupt),
    (
        &[Body(42), BEGIN, Head(13, BATCH - 1, 8), Place(17)],
        Corrupt,
    ),
    (&[Body(42), BEGIN, Head(1, 0, 8), Place(17)], Corrupt),
    (
        &[Body(42), BEGIN, Head(1, BATCH + 1, 8), Place(17)],
        Corrupt,
    ),
    (&[Body(42), BEGIN, Head(14, 0, 8), Place(17)], Corrupt),
    (
        &[Body(42), BEGIN, Head(14, u64::MAX, 8), Place(17)],
        Corrupt,
    ),
    // or a payload of another length
    (&[Body(34), BEGIN, Head(13, BATCH, 0)], Corrupt),
    (
        &[
            Body(41),
            BEGIN,
            Head(13, BATCH, 7),
            Bytes(&[17, 0, 0, 0, 0, 0, 0]),
        ],
        Corrupt,
    ),
    (
        &[Body(43), BEGIN, Head(13, BATCH, 9), Place(17), Bytes(&[0])],
        Corrupt,
    ),
    (&[Body(34), BEGIN, Head(1, BATCH, 0)], Corrupt),
    (
        &[
            Body(41),
            BEGIN,
            Head(1, BATCH, 7),
            Bytes(&[17, 0, 0, 0, 0, 0, 0]),
        ],
        Corrupt,
    ),
    (
        &[Body(43), BEGIN, Head(1, BATCH, 9), Place(17), Bytes(&[0])],
        Corrupt,
    ),
    (&[Body(34), BEGIN, Head(14, BATCH, 0)], Corrupt),
    (
        &[
            Body(41),
            BEGIN,
            Head(14, BATCH, 7),
            Bytes(&[17, 0, 0, 0, 0, 0, 0]),
        ],
        Corrupt,
    ),
    (
        &[Body(43), BEGIN, Head(14, BATCH, 9), Place(17), Bytes(&[0])],
        Corrupt,
    ),
    // outside a batch none ends and none is abandoned
    (&[Body(25), END, Place(17)], Corrupt),
    (&[Body(25), ABANDONED, Place(17)], Corrupt),
    (&[Body(67), BEGIN, END, Place(17), END, Place(17)], Corrupt),
    (
        &[Body(67), BEGIN, END, Place(17), ABANDONED, Place(17)],
        Corrupt,
    ),
    (
        &[Body(67), BEGIN, ABANDONED, Place(17), ABANDONED, Place(17)],
        Corrupt,
    ),
    (
        &[Body(67), BEGIN, CANCELLED, Place(17), END, Place(17)],
        Corrupt,
    ),
    // and a cancelled one is skipped, whatever its page and payload
    (&[Body(25), CANCELLED, Place(17)], Opens(0, 43)),
    (&[Body(25), CANCELLED, Place(u64::MAX)], Opens(0, 43)),
    (&[Frame(1, 0)], Opens(0, 35)),
    (&[Body(24), Head(1, 7, 7), Bytes(&[9; 7])], Opens(0, 42)),
    (&[Body(26), Head(1, BATCH, 9), Bytes(&[9; 9])], Opens(0, 44)),
    (
        &[Body(67), BEGIN, END, Place(17), CANCELLED, Place(17)],
        Opens(0, 85),
    ),
    // one batch behind another, and one that is left open
    (
        &[Body(84), BEGIN, END, Place(17), BEGIN, CANCELLED, Place(59)],
        Opens(0, 102),
    ),
    (
        &[Body(84), BEGIN, END, Place(17), BEGIN, END, Place(17)],
        Corrupt,
    ),
    (&[Body(59), BEGIN, END, Place(17), BEGIN], Opens(0, 111)),
    // marks of the older kind stand outside a batch alone. Such a mark may name a record of a batch in its frame
    (&[Body(42), BEGIN, Head(3, BATCH, 8), Place(34)], Corrupt),
    (
        &[Frame(12, BATCH), Body(25), Head(3, BATCH, 8), Place(43)],
        Corrupt,
    ),
    (
        &[
            Body(67),
            BEGIN,
            END,
            Place(17),
            Head(3, BATCH, 8),
            Place(59),
        ],
        Opens(0, 85),
    ),
    (
        &[
            Body(67),
            Head(3, BATCH, 8),
            Place(42),
            BEGIN,
            END,
            Place(42),
        ],
        Opens(0, 85),
    ),
    (
        &[
            Body(67),
            Head(3, BATCH, 8),
            Place(59),
            BEGIN,
            END,
            Place(42),
        ],
        Opens(0, 85),
    ),
    (
        &[
            Body(67),
            Head(3, BATCH, 8),
            Place(60),
            BEGIN,
            END,
            Place(42),
        ],
        Corrupt,
    ),
    (
        &[Body(59), Head(3, BATCH, 8), Place(59), BEGIN, Head(8, 0, 0)],
        Opens(0, 111),
    ),
    (&[Body(42), Head(3, BATCH, 8), Place(59), BEGIN], Corrupt),
    (
        &[Body(25), Head(3, BATCH, 8), Place(51), Frame(12, BATCH)],
        Corrupt,
    ),
    // kinds that no change has, inside a batch that nothing closes
    (&[Body(34), BEGIN, Head(0, 0, 0)], Corrupt),
    (&[Body(34), BEGIN, Head(2, 0, 0)], Corrupt),
    (&[Body(34), BEGIN, Head(15, 0, 0)], Corrupt),
    (&[Body(34), BEGIN, Head(255, 0, 0)], Corrupt),
    (&[Frame(12, BATCH), Frame(15, 0)], Corrupt),
    // records that are cut off there, and frames
    (&[Body(18), BEGIN, Bytes(&[8])], Corrupt),
    (&[Body(33), BEGIN, Bytes(&[8; 16])], Corrupt),
    (&[Body(34), BEGIN, Head(8, 0, 1)], Corrupt),
    (&[Body(34), BEGIN, Head(8, 0, u64::MAX)], Corrupt),
    (&[Frame(12, BATCH), Body(0)], Corrupt),
    (&[Frame(12, BATCH), Body(18), Head(8, 0, 0)], Corrupt),
    (&[Frame(12, BATCH), Body(u64::MAX), Head(8, 0, 0)], Corrupt),
];

#[test]
fn a_record_of_a_batch_fits_or_is_corrupt(rt: HostRuntime) {
    for (at, file) in FILES.iter().enumerate() {
        assert!(rt; is_so(rt.alloc(), file, &[0]), "file {at}");
    }
}

// Changes of a batch behind page 0, none of which has a payload, and how many pages there are once they count, if they may.
const CHANGES: &[(&[Part], Option<usize>)] = &[
    (&[], Some(1)),
    (&[Head(8, 0, 0)], Some(1)),
    (&[Head(10, 0, 0)], Some(1)),
    (&[Head(8, 1, 0), Head(10, 1, 0)], Some(2)),
    (&[Head(8, 1, 0), Head(5, 2, 0), Head(6, 3, 0)], Some(4)),
    // kinds that another log writes
    (&[Head(9, 1, 0), Head(11, 1, 0), Head(7, 0, 0)], Some(2)),
    // a page is freed, and put again
    (&[Head(4, 0, 0)], Some(1)),
    (&[Head(4, 0, 0), Head(8, 0, 0), Head(10, 0, 0)], Some(1)),
    (&[Head(4, 0, 0), Head(10, 0, 0)], None),
    // links of pages that aren't there, or not yet
    (&[Head(10, 1, 0)], None),
    (&[Head(11, u64::MAX, 0)], None),
    (&[Head(10, 1, 0), Head(8, 1, 0)], None),
    (&[Head(10, 0, 0), Head(10, 5, 0), Head(10, 0, 0)], None),
    // contents of pages behind the next one
    (&[Head(8, 2, 0)], None),
    (&[Head(8, 1, 0), Head(8, 3, 0)], None),
    (&[Head(5, u64::MAX, 0)], None),
    // frees of pages that aren't there
    (&[Head(4, 1, 0)], None),
    (&[Head(4, BATCH, 0)], None),
];

// A file of page 0, and of a batch that begins at 43 with these changes, and is closed by a record of that kind or by none.
fn batch_of(alloc: Global, changes: &[Part], closing: Option<u8>) -> Option<Vec<u8>> {
    let mut file = file_of(alloc, &[Frame(8, 0)], &[])?;
    let closing_len = if closing.is_some() { 25 } else { 0 };
    let len = (changes.len() as u64)
        .saturating_mul(17)
        .saturating_add(17 + closing_len);
    let mut is_put = put_part(&mut file, &Body(len)) && put_part(&mut file, &BEGIN);
    for change in changes {
        is_put = is_put && put_part(&mut file, change);
    }
    if let Some(kind) = closing {
        is_put = is_put && put_part(&mut file, &Head(kind, BATCH, 8));
        is_put = is_put && put_part(&mut file, &Place(43));
    }
    file.push(0).ok()?;
    is_put.then_some(file)
}

// What comes of such a file: changes that don't count aren't looked at, and a batch that nothing closes is abandoned by 34 bytes more.
fn wanted(changes: usize, pages: Option<usize>, closing: Option<u8>) -> Outcome {
    let closing_len = if closing.is_some() { 25 } else { 34 };
    let size = (changes as u64)
        .saturating_mul(17)
        .saturating_add(43 + 17 + closing_len + 1);
    match (closing, pages) {
        (None | Some(14), _) => Opens(1, size),
        (_, Some(pages)) => Opens(pages, size),
        _ => Corrupt,
    }
}

// What comes of a file that is opened, and then of what that left.
fn opened_twice(alloc: Global, bytes: &[u8]) -> Option<(Outcome, Outcome)> {
    let first = outcome_of(alloc, bytes);
    let disk = disk_of(alloc, bytes).ok()?;
    let left = match DiskLog::open(alloc, disk, 4096, 16) {
        Ok(log) => log.into_disk(),
        Err((_, disk)) => disk,
    };
    Some((first, outcome_of(alloc, left.bytes())))
}

#[test]
fn changes_of_a_batch_are_judged_where_they_count(rt: HostRuntime) {
    for (at, (changes, pages)) in CHANGES.iter().enumerate() {
        for closing in [None, Some(13), Some(1), Some(14)] {
            let wanted = wanted(changes.len(), *pages, closing);
            let found = batch_of(rt.alloc(), changes, closing).and_then(|file| opened_twice(
                rt.alloc(),
                &file,
            ));
            assert_eq!(rt; found, Some((wanted, wanted)), "{at} {closing:?}");
        }
    }
}
