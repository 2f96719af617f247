//! Reading a file record by record.

ghost use Rattle.std.specs.Prelude.{◌≡◌, ◌≤◌, [], None};
ghost use Rattle.std.proofs.Props.{props};
ghost use Rattle.std.specs.List.{AllByRecursion};
ghost use Rattle.sled_disk.specs.RecoveredHeads.{AreHeadsBy};
ghost use Rattle.sled_disk.specs.Reading.{chains_of};
ghost use Rattle.sled_disk.specs.BatchChanges.{IsWaiting};

use crate::recovery::head::Head;
use sled_base::PageId;
use std::alloc::Global;
use std::collections::VecDeque;
use targets::Targets;
use window::Window;

mod parts;
mod steps;
mod targets;
mod waiting;
mod window;

/// A reader of the file on a disk. It keeps its place and the heads of the records before it, so after a failed read or a failed allocation
/// it resumes where it was. `DiskLog::open_with` makes the log of the file from it.
///
/// It holds at most 64 KiB of the file, however long frames and payloads are, and skips payloads. In addition it keeps 8 bytes, or 16 if
/// their vector has grown, for each place that the mark of a batch named and that is still to come; and about 32 bytes for each change of a
/// batch that has begun, until the record that closes it.
#[derive(Drop)]
pub struct Reader {
    alloc: Global,
    window: Window,
    // the file's length
    end: u64,
    // the place of the next record of a frame's body, or of the next gate
    at: u64,
    // where that body ends; at a gate, its place
    body_end: u64,
    // the place of the last gate that was open; before any, of the first
    opened: u64,
    pages: Vec<Vec<Head>>,
    // the places that the marks of the frame named, and that are still to come
    targets: Targets,
    // the place of the record that began a batch, and the batch's changes
    begun: Option<u64>,
    changes: VecDeque<(PageId, Head)>,
    ghost none: { begun ≡ None → changes.items ≡ [] },
    ghost waiting: { AllByRecursion (IsWaiting at) changes.items } by { Prim.hlevel props },
    ghost within: { at ≤ body_end },
    ghost inside: { body_end ≤ end },
    ghost heads: { AllByRecursion (AreHeadsBy at) (chains_of pages.items) } by { Prim.hlevel props },
}
