// What the log in memory keeps.

ghost use Rattle.std.specs.Prelude.{◌≡◌, length, ◌<◌, ◌≤◌, ℕ, List, [], ◌∷◌};
ghost use Rattle.sled_base.specs.Kinds.{log_kind_of};
ghost use Rattle.sled_log.specs.Inside.Stored.{size_of_stored, payload_size, pages_with, pages_after, bare_event_of};
ghost use Rattle.sled_log.specs.MemLog.Items.{named_by};
ghost use Rattle.sled_log.specs.MemLog.Stored.{kept_mark};
ghost use Rattle.sled_log.specs.Limits.{size_limit};

use super::packed::PackedMark;
use sled_base::{BlobPointer, LogKind, MessageKind, PageId};

// What every message takes beside its payload.
pub(super) const HEAD: u64 = 17;

// A blob that a message holds: the place of that message, and where its payload begins in the buffer and how long it is.
#[derive(Clone, Copy)]
pub(super) struct Held {
    pub(super) first: BlobPointer,
    pub(super) start: usize,
    pub(super) len: usize,
}

// What the log was told: a message of a page, or the mark of a batch. A message that names the blob of an earlier one has no
// payload of its own.
#[derive(Clone, Copy)]
pub(super) enum Mark {
    Change {
        kind: MessageKind,
        pid: PageId,
        blob: Option<Held>,
    },
    Pin,
    Seal,
    Cancel,
}

// What the log was told, with the log sizes of all up to it, the place in the buffer where its payload ends, and the moment when
// it came. When it became stable follows from when the others came.
#[derive(Drop)]
pub(super) struct LogItem {
    pub(super) mark: PackedMark,
    pub(super) end: u64,
    pub(super) payload_end: usize,
    pub(super) came: u64,
}

impl Mark {
    // Its log size, with that payload, or with that of the blob that it names.
    pub(super) fn size(self, payload: &[u8]) -> u64
        requires { size_of_stored self (length payload.now) < size_limit }
        ensures { result ≡ size_of_stored self (length payload.now) }
    {
        match self {
            Mark::Change { blob, .. } => HEAD + payload_len(blob, payload),
            Mark::Pin | Mark::Seal | Mark::Cancel => 0,
        }
    }

    // How many messages of pages it is.
    pub(super) fn messages(self) -> u64
        ensures few { result ≤ 1 }
        ensures count { (limit place : ℕ) (bytes payload : List ℕ)
            → result ≡ length (named_by (kept_mark limit bytes place payload self)) }
    {
        match self {
            Mark::Change { .. } => 1,
            Mark::Pin | Mark::Seal | Mark::Cancel => 0,
        }
    }

    // How many pages there are behind it, where there were so many.
    pub(super) fn pages_behind(self, pages: u64) -> u64
        requires { pages < size_limit }
        ensures { result ≡ pages_after pages (bare_event_of self ∷ []) }
    {
        match self {
            Mark::Change { kind, pid, .. } => pages_with(pages, pid, kind),
            Mark::Pin | Mark::Seal | Mark::Cancel => pages,
        }
    }
}

// How long the payload of a message is: its own, or that of the blob that it names.
pub(super) fn payload_len(blob: Option<Held>, payload: &[u8]) -> u64
    ensures { result ≡ payload_size (length payload.now) blob }
{
    match blob {
        Some(held) => held.len as u64,
        None => payload.len() as u64,
    }
}

// How many pages there are with one message more, where there were so many.
fn pages_with(pages: u64, pid: PageId, kind: MessageKind) -> u64
    requires { pages < size_limit }
    ensures { result ≡ pages_with pages pid (log_kind_of kind) }
{
    match LogKind::from(kind) {
        LogKind::Free | LogKind::Replace if pid == pages => pages + 1,
        _ => pages,
    }
}
