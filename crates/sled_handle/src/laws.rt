//! Facts about the definitions that the contracts of the calls cite.

ghost use Rattle.std.specs.Prelude.{ℕ, List, Option};
ghost use Rattle.sled_disk.specs.Staged.{Fails, Forgets, HandsOut, TakesIn};
ghost use Rattle.sled_disk.specs.declared.disk.staged.tasks.Task.{Task};
ghost use Rattle.sled_handle.specs.FileOpenings.{IsOpeningOver};
ghost use Rattle.sled_handle.specs.Files.{OpeningIsBut, OpeningOver};
ghost use Rattle.sled_handle.specs.Pairs.{IsReadAgain};

use crate::opening::FileLog;
use sled_disk::CallersFile;
use sled_pagecache::{Log, Node};

/// Proves that `allocate` and `replace` read the pairs of a leaf, as `get` writes them, as a leaf over all keys with the same pairs. A call does
/// nothing.
pub fn pairs_are_read_again(node: &Node)
    ensures { IsReadAgain node.now }
{
    let _data = node.data();
}

/// Proves that an opening remains over the same bytes of its file when a task is handed out, when bytes are handed in, when they are dropped, and
/// when a write or a sync fails. A call does nothing.
pub fn an_opening_stays_over_its_bytes<F: CallersFile>()
    ensures handed_out { F.tells → (task : Option Task) (buffer bytes : List ℕ)
        (old new : OpeningOver ⟦<FileLog<F> as Log>⟧)
        → OpeningIsBut (HandsOut task buffer) old new
        → IsOpeningOver bytes old → IsOpeningOver bytes new }
    ensures taken_in { F.tells → (at : ℕ) (piece bytes : List ℕ)
        (old new : OpeningOver ⟦<FileLog<F> as Log>⟧)
        → OpeningIsBut (TakesIn at piece) old new
        → IsOpeningOver bytes old → IsOpeningOver bytes new }
    ensures forgotten { F.tells → (bytes : List ℕ) (old new : OpeningOver ⟦<FileLog<F> as Log>⟧)
        → OpeningIsBut Forgets old new → IsOpeningOver bytes old → IsOpeningOver bytes new }
    ensures failed { F.tells → (bytes : List ℕ) (old new : OpeningOver ⟦<FileLog<F> as Log>⟧)
        → OpeningIsBut Fails old new → IsOpeningOver bytes old → IsOpeningOver bytes new }
{}
