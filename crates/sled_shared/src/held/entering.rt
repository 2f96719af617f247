//! Entering a call: its room, which is allocated before the cache is called, and the entry.

ghost use Rattle.std.specs.Prelude.{◌≡◌, ◌+◌, ◌-◌, ◌^◌, ◌<◌, ◌∷◌, [], ◌++◌, ◌||◌, ◌==◌, false, nat_le, vec_len, vec_capacity, OnOk, IfErr, IsSome, MatchBool};
ghost use Rattle.sled_base.specs.declared.types.Error.TheVariants.{Unsupported, OutOfMemory};
ghost use Rattle.sled_base.specs.declared.types.Why.TheVariants.{BookFull};
ghost use Rattle.sled_shared.specs.Kept.{entry_of};
ghost use Rattle.sled_shared.specs.Held.{HasTold};

use crate::entry::{Called, Entry};
use crate::history::History;
use crate::keeping::Spare;
use crate::share::{Share, Tally};
use sled_base::{Error, Refusal, Why};
use std::alloc::Global;
use std::sync::ledger;

// Takes the room of one entry more, unless the book is full.
pub(super) fn make_room(
    alloc: Global,
    entries: &mut Vec<Entry>,
    spare: &mut Spare,
    earlier: u64,
    limit: usize,
) -> Result<(), Error>
    requires { earlier + vec_len entries.old < 2 ^ 64 }
    ensures entries { entries.new.items ≡ entries.old.items }
    ensures len { vec_len entries.new ≡ vec_len entries.old }
    ensures ok { OnOk result (((nat_le limit (vec_len entries.old) || (earlier + vec_len entries.old
        == 2 ^ 64 - 1)) ≡ false) × (vec_len entries.new < vec_capacity entries.new)) }
    ensures spare { OnOk result (IsSome spare.new) }
    ensures err { IfErr result (λ e. MatchBool
        (nat_le limit (vec_len entries.old) || (earlier + vec_len entries.old == 2 ^ 64 - 1))
        (e ≡ Unsupported BookFull) (e ≡ OutOfMemory)) }
{
    if entries.len() >= limit || earlier + entries.len() as u64 == u64::MAX {
        return Err(Error::Unsupported(Why::BookFull));
    }
    entries.reserve(1)?;
    if spare.is_none() {
        *spare = Some(Box::new(alloc, Refusal::OutOfMemory)?);
    }
    Ok(())
}

// Enters a call: the entry, the total, the history and the caller's share.
#[tactic(auto, using(crate::proofs::HistorySteps::counts_one))]
pub(super) fn enter<K: Tally>(
    entries: &mut Vec<Entry>,
    total: &mut ledger::Book<K>,
    history: &mut History<Entry>,
    mine: &mut Share<K>,
    called: Called,
)
    requires room { vec_len entries.old < vec_capacity entries.old }
    requires fits { total.old.total < 2 ^ 64 - 1 }
    requires named { history.old.name ≡ K.history }
    ensures entry { entries.new.items ≡ entries.old.items ++ entry_of called ∷ [] }
    ensures len { vec_len entries.new ≡ vec_len entries.old + 1 }
    ensures total { total.new.total ≡ total.old.total + 1 }
    ensures name { history.new.name ≡ history.old.name }
    ensures line { history.new.log ≡ history.old.log ++ (mine.old.number, entry_of called) ∷ [] }
    ensures told { HasTold mine.old (entry_of called) mine.new }
{
    let Share { mark, pen, count } = mine;
    total.audit(mark);
    total.add(mark, 1);
    *count += 1;
    let entry = Entry::new(called);
    history.enter(pen, &entry);
    entries.push_reserved(entry);
}
