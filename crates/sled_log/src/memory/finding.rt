// How a message is found by its place.

ghost use Rattle.std.specs.Prelude.{◌≡◌, ◌+◌, ◌≤◌, ◌<◌, ◌^◌, ℕ, pos, length, Some, IfSome, slice_get, IsSomeAnd, vec_len, get_or, ◌-◌, true};
ghost use Rattle.sled_base.specs.Pointers.{offset_of};
ghost use Rattle.sled_base.specs.declared.types.DiskPtr.TheVariants.{Blob};
ghost use Rattle.sled_log.specs.MemLog.Items.{entry_of};
ghost use Rattle.sled_log.specs.MemLog.Kept.{LogItem as KeptItem, KeptChange};
ghost use Rattle.sled_log.specs.MemLog.Kept as kept;
ghost use Rattle.sled_log.specs.MemLog.Stored.{part};
ghost use Rattle.sled_log.specs.Messages.{kind_at};
ghost use Rattle.sled_log.specs.Pages.{IsReadAs};
ghost use Rattle.sled_log.specs.declared.memory.item.LogItem.{LogItem as StoredItem};
ghost use Rattle.sled_log.specs.Inside.Stored.{place_after, start_after, before_change};

use super::MemLog;
use super::item::{Held, LogItem, Mark};
use sled_base::{BlobPointer, DiskPtr, LogOffset, MessageKind};

// The kind that a reader is told of a message of a kind that is kept there.
fn kind_read(kind: MessageKind, pointer: DiskPtr) -> MessageKind
    ensures { result ≡ kind_at pointer kind }
{
    match (pointer, kind) {
        (DiskPtr::Blob(_, _), MessageKind::InlineMeta) => MessageKind::BlobMeta,
        (DiskPtr::Blob(_, _), MessageKind::InlineNode) => MessageKind::BlobNode,
        (DiskPtr::Blob(_, _), MessageKind::InlineLink) => MessageKind::BlobLink,
        _ => kind,
    }
}

// Where a message behind these items stands in the log, and its payload in the buffer.
pub(super) fn behind(items: &[LogItem]) -> (LogOffset, usize)
    ensures place { result.0 ≡ place_after 0 items.now }
    ensures start { result.1 ≡ start_after 0 items.now }
{
    match items.last() {
        Some(item) => (item.end, item.payload_end),
        None => (0, 0),
    }
}

// How many items come before the first message.
pub(super) fn before_change(items: &[LogItem]) -> usize
    requires few { length items.now < 2 ^ 63 }
    ensures count { result ≡ before_change items.now }
    ensures within { result ≤ length items.now }
{
    let mut n = 0;
    for item in items {
        match item.mark.unpacked() {
            Mark::Change { .. } => return n,
            Mark::Pin | Mark::Seal | Mark::Cancel => n += 1,
        }
    }
    n
}

impl MemLog {
    ghost use Rattle.sled_log.specs.MemLog.State.{kept_in};

    // Where the message at that place stands among the items, if there is one.
    fn index_of(&self, place: LogOffset) -> usize
        ensures { (i : ℕ) (item : KeptItem) (change : KeptChange)
            → slice_get (kept_in self.now) i ≡ Some item
            → item.mark ≡ kept.Change change
            → offset_of change.pointer ≡ place
            → result ≡ i }
    {
        let (from, to) = self.strides.around(place, self.items.len());
        let near = from + self.items[from..to].partition_point(|item| item.end <= place);
        if self.holds(near, place) {
            near
        } else {
            self.index_among_all(place)
        }
    }

    // The same where memory for a note was refused, which is to be looked for among all.
    fn index_among_all(&self, place: LogOffset) -> usize
        ensures { (i : ℕ) (item : KeptItem) (change : KeptChange)
            → slice_get (kept_in self.now) i ≡ Some item
            → item.mark ≡ kept.Change change
            → offset_of change.pointer ≡ place
            → result ≡ i }
    {
        self.items.partition_point(|item| item.end <= place)
    }

    // Whether that place lies in the item, behind the one before it.
    fn holds(&self, at: usize, place: LogOffset) -> bool
        ensures { result ≡ true → (item : StoredItem)
            → (place < (get_or self.now.items.items at item).end) × (at < vec_len self.now.items)
            × (0 < at → (get_or self.now.items.items (at - 1) item).end ≤ place) }
    {
        let is_before_end = match self.items.get(at) {
            Some(item) => place < item.end,
            None => false,
        };
        is_before_end && (at == 0 || self.items[at - 1].end <= place)
    }

    // The kind of the message that stands there among the items, if one does, and where its payload begins in the buffer and how
    // long it is.
    fn message_at(&self, at: usize) -> Option<(MessageKind, usize, usize)>
        ensures told { (item : KeptItem) (change : KeptChange)
            → slice_get (kept_in self.now) at ≡ Some item → item.mark ≡ kept.Change change
            → IsSomeAnd result (λ told. (told.0 ≡ change.kind)
            × (part told.1 (told.1 + told.2) self.now.bytes.items ≡ change.payload)) }
        ensures within { IfSome result (λ told. told.1 + told.2 ≤ vec_len self.now.bytes) }
    {
        let Some(item) = self.items.get(at) else {
            return None;
        };
        let Mark::Change { kind, blob, .. } = item.mark.unpacked() else {
            return None;
        };
        if let Some(held) = blob {
            return Some((kind, held.start, held.len));
        }
        let (_, start) = behind(&self.items[..at]);
        Some((kind, start, item.payload_end - start))
    }

    // The kind of the message that holds the blob of that name, if there is one, and where its payload lies.
    pub(super) fn holder_of(&self, blob: BlobPointer) -> Option<(MessageKind, Held)>
        ensures told { (i : ℕ) (item : KeptItem) (change : KeptChange) (place : ℕ)
            → slice_get (kept_in self.now) i ≡ Some item → item.mark ≡ kept.Change change
            → change.pointer ≡ Blob place blob → blob ≡ pos place
            → IsSomeAnd result (λ told. (told.0 ≡ change.kind) × (told.1.first ≡ blob)
            × (part told.1.start (told.1.start + told.1.len) self.now.bytes.items ≡ change.payload)) }
        ensures named { IfSome result (λ told. told.1.first ≡ blob) }
        ensures within { IfSome result (λ told. told.1.start + told.1.len ≤ vec_len self.now.bytes) }
    {
        let at = self.index_of(blob.unsigned_abs());
        let Some((kind, start, len)) = self.message_at(at) else {
            return None;
        };
        let held = Held {
            first: blob,
            start,
            len,
        };
        Some((kind, held))
    }

    // The message that the pointer leads to, if there is one: its kind, as a reader is told, and its payload.
    pub(super) fn kind_and_payload(&self, pointer: DiskPtr) -> Option<(MessageKind, &[u8])>
        ensures { (i : ℕ) (item : KeptItem) (change : KeptChange)
            → slice_get (kept_in self.now) i ≡ Some item → item.mark ≡ kept.Change change
            → change.pointer ≡ pointer
            → IsSomeAnd result (λ found. IsReadAs (entry_of change) found.0 found.1.now) }
    {
        let at = self.index_of(pointer.lid());
        let (kind, start, len) = self.message_at(at)?;
        Some((kind_read(kind, pointer), &self.bytes[start..start + len]))
    }
}
