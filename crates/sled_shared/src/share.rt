//! The shares of the threads, which count the entered calls. One history has these calls with their answers.

ghost use Rattle.std.specs.Prelude.{◌≡◌, ℕ, ⊤, []};

use crate::entry::Entry;
use crate::history::{History, Pen};
use std::marker::{Brand, Model};
use std::sync::ledger;
use std::sync::ledger::Ledger;

/// The ledger and the history of one shared cache. Callers pass `Brand`.
pub trait Tally: Ledger {
    /// That the caller knows the state of the cache that it shares. A caller that doesn't know it may say so, and less is promised of its books.
    ghost known: { Type 0 };

    /// The name of the history.
    ghost history: { ℕ };
}

impl Tally for Brand {
    ghost known = { ⊤ };

    ghost history = { 0 };
}

/// A new ledger and a new history, which no cache uses yet. They take no bytes.
#[derive(Drop)]
pub struct Blank {
    pub(crate) ledger: ledger::Blank,
    pub(crate) history: History<Entry>,
}

impl Model for Blank {
    ghost use Rattle.std.specs.Prelude.{◌≡◌, []};
    ghost use Rattle.sled_shared.specs.Held.{Blank as Seen, blank};

    ghost Value = { Seen };

    ghost view = { λ b. blank b.ledger.name b.ledger.parts b.history.name };

    ghost invariant = { λ b. b.history.log ≡ [] };
}

impl Blank {
    /// Makes a new ledger with this number of parts, and a new history. A cache needs one part for each share that there can be, and one more.
    pub fn new(parts: u64) -> Blank
        ensures { result.parts ≡ parts }
    {
        Blank {
            ledger: ledger::Blank::new(parts),
            history: History::new(),
        }
    }
}

/// The right of one thread to make calls.
///
/// In contracts, the value of a share is its number, and what it has seen of the history of all calls. The calls that it made have its number there.
#[derive(Drop)]
pub struct Share<K: Tally> {
    pub(crate) mark: ledger::Share<K>,
    pub(crate) pen: Pen<Entry>,
    pub(crate) count: u64,
}

impl<K: Tally> Model for Share<K> {
    ghost use Rattle.std.specs.Prelude.{◌≡◌, length};
    ghost use Rattle.sled_shared.specs.History.{written_by};
    ghost use Rattle.sled_shared.specs.Held.{Share as Seen, share};

    ghost Value = { Seen };

    ghost view = { λ s. share s.pen.number s.pen.seen };

    ghost invariant = { λ s. (s.mark.parts ≡ 1) × (s.mark.amount ≡ s.count) × (s.count ≡ length (written_by s.pen.number s.pen.seen)) × (s.pen.of ≡ K.history) };
}

impl<K: Tally> Share<K> {
    ghost use Rattle.sled_shared.specs.Held.{count_of};

    /// Returns the number of its calls that were entered.
    pub fn count(&self) -> u64
        ensures { result ≡ count_of self.now }
    {
        self.count
    }
}
