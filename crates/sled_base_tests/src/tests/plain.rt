// The errors, the plain types, and the kinds of messages.

use super::*;
use sled_base::{LogKind, MessageKind};
use std::fmt::Display;

fn shows<T: Display>(alloc: Global, value: &T, text: &str) -> Result<bool, Fail> {
    Ok(format!(in alloc; "{value}")?.as_str() == text)
}

// Whether a refusal and its error show the same text.
fn is_shown(alloc: Global, refusal: &Refusal, text: &str) -> Result<bool, Fail> {
    Ok(shows(alloc, refusal, text)? && shows(alloc, &Error::from(*refusal), text)?)
}

// An unknown name is not shown.
fn hides_a_name(alloc: Global) -> Result<bool, Fail> {
    let error = Error::CollectionNotFound(IVec::from_slice(alloc, &[97])?);
    shows(alloc, &error, "error collection")
}

// An allocation failure is an error of the cache.
fn is_pushed(alloc: Global, byte: u8) -> Result<bool, Error> {
    let mut bytes = Vec::new(alloc);
    bytes.push(byte)?;
    Ok(bytes.as_slice() == [byte].as_slice())
}

const PLACES: &[Lsn] = &[i64::MIN, -1, 0, 1, i64::MAX];

// Whether the manifest of the place stands to those of all places as the place to these.
fn is_ordered(place: Lsn) -> bool {
    let x = BatchManifest(place);
    for other in PLACES {
        let y = BatchManifest(*other);
        if x.cmp(&y) != place.cmp(other)
            || (x < y) != (place < *other)
            || (x == y) != (place == *other)
        {
            return false;
        }
    }
    true
}

// Whether the pointer is to this message, and to this blob or to none.
fn is_pointer(pointer: DiskPtr, lid: u64, blob: Option<(u64, i64)>) -> bool {
    let found = if pointer.is_blob() {
        Some(pointer.blob())
    } else {
        None
    };
    pointer.lid() == lid && found == blob
}

fn is_free(alloc: Global, is_free: bool) -> bool {
    let at = DiskPtr::Inline(3);
    let page = if is_free {
        PageState::Free(3, at)
    } else {
        PageState::Present {
            base: (0, at, 25),
            frags: Vec::new(alloc),
        }
    };
    page.is_free() == is_free
}

// Whether the byte is read as the kind, which has this effect, and is written as the other byte.
fn is_kind(byte: u8, kind: MessageKind, effect: LogKind, written: u8) -> bool {
    MessageKind::from(byte) == kind && LogKind::from(kind) == effect && u8::from(kind) == written
}

fn are_corrupted(from: u8) -> bool {
    for byte in from..=255 {
        if !is_kind(byte, MessageKind::Corrupted, LogKind::Corrupted, 0) {
            return false;
        }
    }
    true
}

// ---- rows

const REFUSALS: &[(Refusal, &str)] = &[
    (Refusal::Unsupported(Why::ReservedId), "error unsupported 1"),
    (
        Refusal::Unsupported(Why::CapacityTooSmall),
        "error unsupported 2",
    ),
    (
        Refusal::Unsupported(Why::IntervalZero),
        "error unsupported 3",
    ),
    (
        Refusal::Unsupported(Why::SegmentZero),
        "error unsupported 4",
    ),
    (
        Refusal::Unsupported(Why::PagesUsedUp),
        "error unsupported 5",
    ),
    (Refusal::Unsupported(Why::IdsUsedUp), "error unsupported 6"),
    (
        Refusal::Unsupported(Why::StampUsedUp),
        "error unsupported 7",
    ),
    (Refusal::Unsupported(Why::BatchOpen), "error unsupported 8"),
    (
        Refusal::Unsupported(Why::TooManyNames),
        "error unsupported 9",
    ),
    (
        Refusal::Unsupported(Why::NameTooLong),
        "error unsupported 10",
    ),
    (Refusal::Unsupported(Why::LogFull), "error unsupported 11"),
    (Refusal::Unsupported(Why::BookFull), "error unsupported 12"),
    (Refusal::ReportableBug(Bug::MissingMeta), "error bug 1"),
    (Refusal::ReportableBug(Bug::MissingCounter), "error bug 2"),
    (Refusal::ReportableBug(Bug::LinkRefused), "error bug 3"),
    (Refusal::ReportableBug(Bug::FreeInPull), "error bug 4"),
    (Refusal::Io(Device::Read), "error read"),
    (Refusal::Io(Device::Write), "error write"),
    (Refusal::Corruption(None), "error corruption"),
    (
        Refusal::Corruption(Some(DiskPtr::Inline(7))),
        "error corruption",
    ),
    (Refusal::OutOfMemory, "error memory"),
];

enum Case {
    HiddenName,
    Pushed(u8),
    Failed,
    DefaultManifest,
    Manifest(Lsn),
    // The place of its message, and the blob that it has.
    Pointer(DiskPtr, u64, Option<(u64, i64)>),
    Page(bool),
    // A byte, its kind, and the effect of that.
    Kind(u8, MessageKind, LogKind),
    // The bytes from this one on.
    Corrupted(u8),
}

type Rows = &'static [(&'static str, Case)];

const PLAIN: Rows = &[
    ("an unknown name is not shown", Case::HiddenName),
    ("a byte is pushed", Case::Pushed(7)),
    ("an allocation failure is an error", Case::Failed),
    ("the default manifest", Case::DefaultManifest),
    ("the least manifest", Case::Manifest(i64::MIN)),
    ("a manifest below 0", Case::Manifest(-1)),
    ("the manifest of 0", Case::Manifest(0)),
    ("a manifest above 0", Case::Manifest(1)),
    ("the greatest manifest", Case::Manifest(i64::MAX)),
    ("inline", Case::Pointer(DiskPtr::Inline(7), 7, None)),
    (
        "inline at the beginning",
        Case::Pointer(DiskPtr::Inline(0), 0, None),
    ),
    (
        "a blob",
        Case::Pointer(DiskPtr::Blob(7, 9), 7, Some((7, 9))),
    ),
    (
        "a blob in its own message",
        Case::Pointer(DiskPtr::Blob(35, 35), 35, Some((35, 35))),
    ),
    ("a free page", Case::Page(true)),
    ("a page that is present", Case::Page(false)),
];

const KINDS: Rows = &[
    (
        "corrupted",
        Case::Kind(0, MessageKind::Corrupted, LogKind::Corrupted),
    ),
    (
        "canceled",
        Case::Kind(1, MessageKind::Canceled, LogKind::Skip),
    ),
    ("a cap", Case::Kind(2, MessageKind::Cap, LogKind::Skip)),
    (
        "a manifest",
        Case::Kind(3, MessageKind::BatchManifest, LogKind::Skip),
    ),
    ("a free", Case::Kind(4, MessageKind::Free, LogKind::Free)),
    (
        "a counter",
        Case::Kind(5, MessageKind::Counter, LogKind::Replace),
    ),
    (
        "inline meta",
        Case::Kind(6, MessageKind::InlineMeta, LogKind::Replace),
    ),
    (
        "blob meta",
        Case::Kind(7, MessageKind::BlobMeta, LogKind::Replace),
    ),
    (
        "an inline node",
        Case::Kind(8, MessageKind::InlineNode, LogKind::Replace),
    ),
    (
        "a blob node",
        Case::Kind(9, MessageKind::BlobNode, LogKind::Replace),
    ),
    (
        "an inline link",
        Case::Kind(10, MessageKind::InlineLink, LogKind::Link),
    ),
    (
        "a blob link",
        Case::Kind(11, MessageKind::BlobLink, LogKind::Link),
    ),
    ("all other bytes", Case::Corrupted(12)),
];

fn holds(alloc: Global, case: &Case) -> Result<bool, Fail> {
    match case {
        Case::HiddenName => hides_a_name(alloc),
        Case::Pushed(byte) => Ok(is_pushed(alloc, *byte)?),
        Case::Failed => Ok(Error::from(AllocError) == Error::OutOfMemory),
        Case::DefaultManifest => Ok(BatchManifest::default() == BatchManifest(0)),
        Case::Manifest(place) => Ok(is_ordered(*place)),
        Case::Pointer(pointer, lid, blob) => Ok(is_pointer(*pointer, *lid, *blob)),
        Case::Page(free) => Ok(is_free(alloc, *free)),
        Case::Kind(byte, kind, effect) => Ok(is_kind(*byte, *kind, *effect, *byte)),
        Case::Corrupted(from) => Ok(are_corrupted(*from)),
    }
}

#[test]
fn errors_and_plain_types_are_as_they_show(rt: HostRuntime) -> Result<(), Fail> {
    for (refusal, text) in REFUSALS {
        assert!(rt; is_shown(rt.alloc(), refusal, text)?, "{text}");
    }
    for rows in [PLAIN, KINDS] {
        for (row, case) in rows {
            assert!(rt; holds(rt.alloc(), case)?, "{row}");
        }
    }
    Ok(())
}
