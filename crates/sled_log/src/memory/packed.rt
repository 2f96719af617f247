// How an item keeps what the log was told.

ghost use Rattle.std.specs.Prelude.{◌≡◌, IfOk};
ghost use Rattle.sled_log.specs.declared.memory.item.Mark.TheVariants.{Change, Pin, Seal, Cancel};

use super::item::{Held, Mark};
use sled_base::{MessageKind, PageId};
use std::alloc::{AllocError, Global};
use std::marker::Model;

// A message has a payload of its own, or names the blob of an earlier one. Few do, so the blob lies apart.
#[derive(Drop)]
enum Told {
    Own(MessageKind),
    Names(MessageKind, Box<Held>),
    Pin,
    Seal,
    Cancel,
}

// What the log was told, in 24 bytes.
//
// Contracts see the mark.
#[derive(Drop)]
pub(super) struct PackedMark {
    told: Told,
    // 0 for the mark of a batch
    pid: PageId,
}

impl Model for PackedMark {
    ghost use Rattle.sled_log.specs.MemLog.Packed.{mark_of};
    ghost use Rattle.sled_log.specs.declared.memory.item.Mark.{Mark};

    ghost Value = { Mark };

    ghost view = { λ packed. mark_of packed.told packed.pid };
}

impl PackedMark {
    // A message of a page. The only error is out of memory, which one with a payload of its own never meets.
    pub(super) fn change(
        alloc: Global,
        kind: MessageKind,
        pid: PageId,
        blob: Option<Held>,
    ) -> Result<PackedMark, AllocError>
        ensures { IfOk result (λ packed. packed ≡ Change kind pid blob) }
    {
        let told = match blob {
            None => Told::Own(kind),
            Some(held) => Told::Names(kind, Box::new(alloc, held)?),
        };
        Ok(PackedMark { told, pid })
    }

    // A mark that opens a batch.
    pub(super) fn pin() -> PackedMark
        ensures { result ≡ Pin }
    {
        PackedMark {
            told: Told::Pin,
            pid: 0,
        }
    }

    // A mark that closes a batch, and keeps it.
    pub(super) fn seal() -> PackedMark
        ensures { result ≡ Seal }
    {
        PackedMark {
            told: Told::Seal,
            pid: 0,
        }
    }

    // A mark that closes a batch, and doesn't keep it together.
    pub(super) fn cancel() -> PackedMark
        ensures { result ≡ Cancel }
    {
        PackedMark {
            told: Told::Cancel,
            pid: 0,
        }
    }

    #[inline(always)]
    pub(super) fn unpacked(&self) -> Mark
        ensures { result ≡ self.now }
    {
        match &self.told {
            Told::Own(kind) => Mark::Change {
                kind: *kind,
                pid: self.pid,
                blob: None,
            },
            Told::Names(kind, held) => Mark::Change {
                kind: *kind,
                pid: self.pid,
                blob: Some(**held),
            },
            Told::Pin => Mark::Pin,
            Told::Seal => Mark::Seal,
            Told::Cancel => Mark::Cancel,
        }
    }
}
