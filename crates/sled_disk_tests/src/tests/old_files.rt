// Files from before a batch could go over several frames, byte by byte: the mark of a batch stands before its changes, which lie in its frame.

use super::*;
use sled_base::{DiskPtr, Lsn};

// A first start, and an empty leaf on page 2 with a link that sets 62 to 76. The bytes of each field on a line.
#[rattlefmt::skip]
const BEFORE: [u8; 109] = [
    0x53, 0x4c, 0x50, 0x43, 0x4c, 0x4f, 0x47, 0x31,
    // an open gate, and 35 bytes: no named roots, at 17, and the counter 0, at 34
    1,
    0x23, 0, 0, 0, 0, 0, 0, 0,
    6, 0, 0, 0, 0, 0, 0, 0, 0, 0, 0, 0, 0, 0, 0, 0, 0,
    5, 1, 0, 0, 0, 0, 0, 0, 0, 1, 0, 0, 0, 0, 0, 0, 0, 0,
    // an open gate, at 52, and 47 bytes: the leaf at 61, and the link at 86
    1,
    0x2f, 0, 0, 0, 0, 0, 0, 0,
    8, 2, 0, 0, 0, 0, 0, 0, 0, 8, 0, 0, 0, 0, 0, 0, 0, 0, 0, 0, 0, 0, 0, 0, 0,
    10, 2, 0, 0, 0, 0, 0, 0, 0, 5, 0, 0, 0, 0, 0, 0, 0, 0, 1, 0x62, 1, 0x76,
    // an open gate, at 108
    1,
];

// A sealed batch with one link, which sets 63 to 77. Its mark, at 117, names the link at 142.
#[rattlefmt::skip]
const SEALED: &[u8] = &[
    0x2f, 0, 0, 0, 0, 0, 0, 0,
    3, 0x65, 0xfd, 0xff, 0xff, 0xff, 0xff, 0xff, 0xff, 8, 0, 0, 0, 0, 0, 0, 0, 0x8e, 0, 0, 0, 0, 0, 0, 0,
    10, 2, 0, 0, 0, 0, 0, 0, 0, 5, 0, 0, 0, 0, 0, 0, 0, 0, 1, 0x63, 1, 0x77,
    0,
];

// The same, cancelled: the mark's kind is 1, and its payload as it was when the batch was begun.
#[rattlefmt::skip]
const CANCELLED: &[u8] = &[
    0x2f, 0, 0, 0, 0, 0, 0, 0,
    1, 0x65, 0xfd, 0xff, 0xff, 0xff, 0xff, 0xff, 0xff, 8, 0, 0, 0, 0, 0, 0, 0, 0, 0, 0, 0, 0, 0, 0, 0,
    10, 2, 0, 0, 0, 0, 0, 0, 0, 5, 0, 0, 0, 0, 0, 0, 0, 0, 1, 0x63, 1, 0x77,
    0,
];

// A sealed batch with nothing in it, whose mark names itself.
#[rattlefmt::skip]
const EMPTY: &[u8] = &[
    0x19, 0, 0, 0, 0, 0, 0, 0,
    3, 0x65, 0xfd, 0xff, 0xff, 0xff, 0xff, 0xff, 0xff, 8, 0, 0, 0, 0, 0, 0, 0, 0x75, 0, 0, 0, 0, 0, 0, 0,
    0,
];

// A sealed batch with two changes, the second of which puts an empty leaf on page 3, and a link of that behind the batch: its mark, at 117,
// names the leaf at 164.
#[rattlefmt::skip]
const FOLLOWED: &[u8] = &[
    0x5e, 0, 0, 0, 0, 0, 0, 0,
    3, 0x65, 0xfd, 0xff, 0xff, 0xff, 0xff, 0xff, 0xff, 8, 0, 0, 0, 0, 0, 0, 0, 0xa4, 0, 0, 0, 0, 0, 0, 0,
    10, 2, 0, 0, 0, 0, 0, 0, 0, 5, 0, 0, 0, 0, 0, 0, 0, 0, 1, 0x63, 1, 0x77,
    8, 3, 0, 0, 0, 0, 0, 0, 0, 8, 0, 0, 0, 0, 0, 0, 0, 0, 0, 0, 0, 0, 0, 0, 0,
    10, 3, 0, 0, 0, 0, 0, 0, 0, 5, 0, 0, 0, 0, 0, 0, 0, 0, 1, 0x63, 1, 0x77,
    0,
];

// A message's place and its size.
type Message = (u64, u64);

const ROOTS: &[Message] = &[(17, 17)];

const COUNTER: &[Message] = &[(34, 18)];

// What stands behind the 109 bytes, how many bytes the file has then, and the messages of each page.
const FILES: &[(&[u8], u64, &[&[Message]])] = &[
    (
        SEALED,
        165,
        &[ROOTS, COUNTER, &[(61, 25), (86, 22), (142, 22)]],
    ),
    (
        CANCELLED,
        165,
        &[ROOTS, COUNTER, &[(61, 25), (86, 22), (142, 22)]],
    ),
    (EMPTY, 143, &[ROOTS, COUNTER, &[(61, 25), (86, 22)]]),
    (
        FOLLOWED,
        212,
        &[
            ROOTS,
            COUNTER,
            &[(61, 25), (86, 22), (142, 22)],
            &[(164, 25), (189, 22)],
        ],
    ),
];

fn is_message(said: &(Lsn, DiskPtr, u64), message: &Message) -> bool {
    let (place, size) = *message;
    u64::try_from(said.0) == Ok(place) && (said.1, said.2) == (DiskPtr::Inline(place), size)
}

// Whether a page has these messages, the first of which puts its content.
fn is_page(page: &PageState, messages: &[Message]) -> bool {
    let (PageState::Present { base, frags }, [first, links @ ..]) = (page, messages) else {
        return false;
    };
    let mut is_so = is_message(base, first) && frags.len() == links.len();
    for (said, link) in frags.iter().zip(links) {
        is_so = is_so && is_message(said, link);
    }
    is_so
}

// How many bytes the log of a file has, if its pages have these messages.
fn size_of(alloc: Global, behind: &[u8], pages: &[&[Message]]) -> Option<u64> {
    let mut file = BEFORE.to_vec(alloc).ok()?;
    file.extend_from_slice(behind).ok()?;
    let mut log = DiskLog::open(alloc, disk_of(alloc, &file).ok()?, 4096, 0).ok()?;
    let found = log.recover().ok()?;
    let mut is_so = found.len() == pages.len();
    for (page, messages) in found.iter().zip(pages) {
        is_so = is_so && is_page(page, messages);
    }
    is_so.then_some(log.size())
}

#[test]
fn a_file_with_marks_of_the_older_kind_opens(rt: HostRuntime) {
    for (behind, size, pages) in FILES {
        assert_eq!(rt; size_of(rt.alloc(), behind, pages), Some(*size));
    }
}
