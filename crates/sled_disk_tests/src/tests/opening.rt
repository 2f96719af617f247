// Files of any bytes that are opened.

use super::marks::{put, put_body, put_head};
use super::*;

#[derive(Clone, Copy, PartialEq, Eq, Debug)]
pub(super) enum Outcome {
    // It holds so many pages, and has so many bytes up to its closed gate, this one counted.
    Opens(usize, u64),
    Corrupt,
    Fails,
}

use Outcome::{Corrupt, Fails, Opens};

pub(super) fn outcome_of(alloc: Global, bytes: &[u8]) -> Outcome {
    let Ok(disk) = disk_of(alloc, bytes) else {
        return Fails;
    };
    let mut log = match DiskLog::open(alloc, disk, 4096, 16) {
        Ok(log) => log,
        Err((LogError::Corruption, _)) => return Corrupt,
        Err(_) => return Fails,
    };
    let size = log.size();
    match log.recover() {
        Ok(pages) => Opens(pages.len(), size),
        Err(_) => Fails,
    }
}

const OPENING: &[u8] = b"SLPCLOG1";

pub(super) const BATCH: u64 = u64::MAX - 666;

/// A part of a file.
#[derive(Clone, Copy)]
pub(super) enum Part {
    Bytes(&'static [u8]),
    // an open gate, and the length of a body
    Body(u64),
    // the kind of a record, its page, and the length of its payload
    Head(u8, u64, u64),
    // a whole frame of one record, with no payload
    Frame(u8, u64),
    // the payload of a batch's mark. The first record of the first frame stands at 17, and the second one behind a batch's mark at 42,
    // and behind one with no payload at 34
    Place(u64),
}

use Part::{Body, Bytes, Frame, Head, Place};

// A file of these parts behind its opening.
pub(super) type File = (&'static [Part], Outcome);

// Files with no closed gate behind their parts.
const ENDS: &[File] = &[
    (&[Bytes(&[0]), Bytes(b"anything")], Opens(0, 9)),
    (&[], Corrupt),
    (&[Bytes(&[1])], Corrupt),
    (&[Bytes(&[255]), Bytes(&[0; 8])], Corrupt),
    (&[Body(17), Bytes(&[6]), Bytes(&[0; 15])], Corrupt),
    (&[Frame(6, 0)], Corrupt),
];

// Files with one.
const FILES: &[File] = &[
    (&[], Opens(0, 9)),
    // lengths of a body: none, past the end, and far past it
    (&[Body(0)], Corrupt),
    (&[Body(u64::MAX), Head(6, 0, 0)], Corrupt),
    // one record, and any byte but 0 opens its gate
    (&[Frame(6, 0)], Opens(1, 35)),
    (
        &[Bytes(&[255, 17, 0, 0, 0, 0, 0, 0, 0]), Head(6, 0, 0)],
        Opens(1, 35),
    ),
    // records that are cut off, and lengths of a payload that pass the end of the body
    (&[Body(18), Head(6, 0, 0), Bytes(&[6])], Corrupt),
    (&[Body(17), Head(6, 0, 1)], Corrupt),
    (&[Body(17), Head(6, 0, 1), Bytes(&[7])], Corrupt),
    (&[Body(18), Head(6, 0, 1), Bytes(&[7])], Opens(1, 36)),
    (&[Body(18), Head(6, 0, u64::MAX), Bytes(&[7])], Corrupt),
    // kinds that put a content: 5 to 9, on a page that is there or on the next
    (&[Frame(5, 0)], Opens(1, 35)),
    (&[Frame(7, 0)], Opens(1, 35)),
    (&[Frame(8, 0)], Opens(1, 35)),
    (&[Frame(9, 0)], Opens(1, 35)),
    (&[Frame(8, 1)], Corrupt),
    (&[Frame(8, u64::MAX)], Corrupt),
    (&[Body(34), Head(8, 0, 0), Head(8, 1, 0)], Opens(2, 52)),
    (&[Body(34), Head(8, 0, 0), Head(8, 0, 0)], Opens(1, 52)),
    // kinds that no record has
    (&[Frame(0, 0)], Corrupt),
    (&[Frame(2, 0)], Corrupt),
    (&[Frame(12, 0)], Corrupt),
    (&[Frame(255, 0)], Corrupt),
    // a cancelled batch is skipped, whatever its page and payload
    (&[Frame(1, u64::MAX)], Opens(0, 35)),
    (&[Body(18), Head(1, 1, 1), Bytes(&[3])], Opens(0, 36)),
    // frees and links want a page, and links one that has a content
    (&[Frame(4, 0)], Corrupt),
    (&[Frame(10, 0)], Corrupt),
    (&[Body(34), Head(8, 0, 0), Head(4, 0, 0)], Opens(1, 52)),
    (&[Body(34), Head(8, 0, 0), Head(4, 1, 0)], Corrupt),
    (&[Body(34), Head(8, 0, 0), Head(10, 0, 0)], Opens(1, 52)),
    (&[Body(34), Head(8, 0, 0), Head(11, 0, 0)], Opens(1, 52)),
    (&[Body(34), Head(8, 0, 0), Head(10, u64::MAX, 0)], Corrupt),
    (&[Frame(8, 0), Frame(4, 0), Frame(10, 0)], Corrupt),
    (&[Frame(8, 0), Frame(4, 0), Frame(4, 0)], Opens(1, 87)),
    // the mark of a batch names itself or a later record of its frame
    (&[Body(25), Head(3, BATCH, 8), Place(17)], Opens(0, 43)),
    (&[Body(25), Head(3, BATCH, 8), Place(0)], Corrupt),
    (&[Body(25), Head(3, BATCH, 8), Place(42)], Corrupt),
    (&[Body(25), Head(3, BATCH, 8), Place(u64::MAX)], Corrupt),
    (&[Body(25), Head(3, 0, 8), Place(17)], Corrupt),
    (&[Frame(3, BATCH)], Corrupt),
    (
        &[Body(42), Head(3, BATCH, 8), Place(42), Head(8, 0, 0)],
        Opens(1, 60),
    ),
    (
        &[Body(42), Head(3, BATCH, 8), Place(34), Head(8, 0, 0)],
        Corrupt,
    ),
    (
        &[Body(42), Head(3, BATCH, 8), Place(59), Head(8, 0, 0)],
        Corrupt,
    ),
    (
        &[Body(42), Head(8, 0, 0), Head(3, BATCH, 8), Place(34)],
        Opens(1, 60),
    ),
    (
        &[Body(42), Head(8, 0, 0), Head(3, BATCH, 8), Place(17)],
        Corrupt,
    ),
    (
        &[
            Body(59),
            Head(3, BATCH, 8),
            Place(59),
            Head(8, 0, 0),
            Head(8, 1, 0),
        ],
        Opens(2, 77),
    ),
    (
        &[
            Body(59),
            Head(3, BATCH, 8),
            Place(42),
            Head(8, 0, 0),
            Head(8, 1, 0),
        ],
        Opens(2, 77),
    ),
    // a record of the next frame is none of its own
    (
        &[Body(25), Head(3, BATCH, 8), Place(51), Frame(8, 0)],
        Corrupt,
    ),
];

pub(super) fn put_part(file: &mut Vec<u8>, part: &Part) -> bool {
    match *part {
        Bytes(bytes) => file.extend_from_slice(bytes).is_ok(),
        Body(len) => put_body(file, len),
        Head(kind, page, len) => put_head(file, kind, page, len),
        Frame(kind, page) => put_body(file, 17) && put_head(file, kind, page, 0),
        Place(at) => put(file, at),
    }
}

pub(super) fn file_of(alloc: Global, parts: &[Part], end: &[u8]) -> Option<Vec<u8>> {
    let mut file = OPENING.to_vec(alloc).ok()?;
    for part in parts {
        if !put_part(&mut file, part) {
            return None;
        }
    }
    file.extend_from_slice(end).ok()?;
    Some(file)
}

// Whether a file with this end behind its parts is opened so.
pub(super) fn is_so(alloc: Global, file: &File, end: &[u8]) -> bool {
    match file_of(alloc, file.0, end) {
        Some(bytes) => outcome_of(alloc, &bytes) == file.1,
        None => false,
    }
}

#[test]
fn a_file_opens_or_is_corrupt(rt: HostRuntime) {
    for (at, file) in ENDS.iter().enumerate() {
        assert!(rt; is_so(rt.alloc(), file, &[]), "file {at} that ends so");
    }
    for (at, file) in FILES.iter().enumerate() {
        assert!(rt; is_so(rt.alloc(), file, &[0]), "file {at}");
    }
}

// Whether the file of a new cache, with one byte changed or cut off there, opens so.
fn changed_is(alloc: Global, at: usize, byte: u8, outcome: Outcome) -> bool {
    let mut file = FIRST;
    match file.get_mut(at) {
        Some(place) => *place = byte,
        None => return false,
    }
    outcome_of(alloc, &file) == outcome
}

// Places, what is written there, and what comes of it.
const CHANGES: &[(usize, u8, Outcome)] = &[
    (0, 0, Corrupt),
    (7, 0x32, Corrupt),
    (8, 7, Opens(2, 53)),
    (8, 0, Opens(0, 9)),
    (9, 0, Corrupt),
    (9, 34, Corrupt),
    (9, 36, Corrupt),
    (9, 255, Corrupt),
    (16, 1, Corrupt),
    (17, 4, Corrupt),
    (17, 8, Opens(2, 53)),
    (18, 1, Corrupt),
    (34, 10, Corrupt),
    (35, 0, Opens(1, 53)),
    (51, 9, Opens(2, 53)),
    (52, 1, Corrupt),
    (52, 0, Opens(2, 53)),
];

#[test]
fn one_changed_byte_is_found_out_or_not(rt: HostRuntime) {
    for (at, byte, outcome) in CHANGES {
        assert!(rt; changed_is(rt.alloc(), *at, *byte, *outcome), "{at} {byte}");
    }
}

#[test]
fn a_file_that_is_cut_off_is_corrupt(rt: HostRuntime) {
    for len in 0..FIRST.len() {
        assert!(rt;
            FIRST
                .get(..len)
                .is_some_and(|cut| outcome_of(rt.alloc(), cut) == Corrupt),
            "{len}"
        );
    }
    assert_eq!(rt; outcome_of(rt.alloc(), &FIRST), Opens(2, 53));
}
