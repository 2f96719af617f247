//! Sequences of log calls.

ghost use Rattle.std.specs.Prelude.{◌≡◌, ℕ, ◌<◌, ◌++◌, true, false, not, IsTrue, List, [], length, take, OnOk, OnErr, IsErrOf};
ghost use Rattle.sled_log.specs.Events.{is_open};
ghost use Rattle.sled_log.specs.Calls.{HasCause, is_write_fault};
ghost use Rattle.sled_log.specs.Events.{Event};
ghost use Rattle.sled_log.specs.Messages.{Message, effect_of};
ghost use Rattle.sled_log.specs.Runs.{events_of, events_of_all, can_make, can_make_all};
ghost use Rattle.sled_log.specs.declared.log.LogError.TheVariants.{Corruption};
ghost use Rattle.sled_log.specs.LogState.{LogState, now, Adds, IsLeft, CrashesSinceLeave, unplaced_state};

use crate::{Log, LogError};
use sled_base::{MessageKind, PageId};

/// A call that appends to a log, or makes it durable.
#[derive(Debug, Drop)]
pub enum LogCall {
    Append(MessageKind, PageId, Vec<u8>),
    MakeStable,
    Pin,
    Seal,
    Cancel,
}

/// Proves that the crash states of two consecutive parts of a call are crash states of the whole call. The second part starts
/// from the state that the first one left. What a crash leaves is what was durable, and a prefix of what was pending and of what
/// both parts began; it splits no batch, except a cancelled one.
pub fn parts_make_the_whole<L: Log>()
    ensures { (old mid new : L) (before after : LogState Message)
        (first second : List (Event Message))
        → Adds effect_of before first after
        → CrashesSinceLeave L.moment L.left_since old mid (IsLeft effect_of before first)
        → CrashesSinceLeave L.moment L.left_since mid new (IsLeft effect_of after second)
        → CrashesSinceLeave L.moment L.left_since old new
        (IsLeft effect_of before (first ++ second)) }
{}

/// Makes one call.
fn make_call<L: Log>(log: &mut L, call: &LogCall) -> Result<(), LogError>
    requires tells { L.tells }
    requires usable { (L.state log.old).usable ≡ true }
    requires can { IsTrue (can_make (now effect_of (unplaced_state (L.state log.old)))
        (is_open (L.state log.old).pending) call.now) }
    ensures added { OnOk result (Adds effect_of (unplaced_state (L.state log.old))
        (events_of call.now) (unplaced_state (L.state log.new))) }
    ensures refused { OnErr result (is_write_fault result ≡ false
        → Adds effect_of (unplaced_state (L.state log.old)) [] (unplaced_state (L.state log.new))) }
    ensures usable { (L.state log.new).usable ≡ not (is_write_fault result) }
    ensures stop { CrashesSinceLeave L.moment L.left_since log.old log.new
        (IsLeft effect_of (unplaced_state (L.state log.old)) (events_of call.now)) }
    ensures cause { HasCause (L.counts log.old) (L.counts log.new) result }
    ensures sound { IsErrOf result Corruption → ⊥ }
{
    match call {
        LogCall::Append(kind, pid, payload) => {
            log.append(*kind, *pid, payload)?;
        }
        LogCall::MakeStable => {
            log.make_stable()?;
        }
        LogCall::Pin => log.pin()?,
        LogCall::Seal => log.seal()?,
        LogCall::Cancel => log.cancel()?,
    }
    Ok(())
}

/// Makes the calls in order, up to the first one that fails, and returns its error. The failed call adds nothing, unless its
/// error is WriteFault.
///
/// A crash at any moment of this leaves what was durable, and a prefix of what was pending and of what all the calls add. That
/// prefix splits no batch, except a cancelled one.
pub fn make_calls<L: Log>(log: &mut L, calls: &[LogCall]) -> Result<(), LogError>
    requires tells { L.tells }
    requires usable { (L.state log.old).usable ≡ true }
    requires can { IsTrue (can_make_all (now effect_of (unplaced_state (L.state log.old)))
        (is_open (L.state log.old).pending) calls.now) }
    ensures added { OnOk result (Adds effect_of (unplaced_state (L.state log.old))
        (events_of_all calls.now) (unplaced_state (L.state log.new))) }
    ensures refused { OnErr result (is_write_fault result ≡ false
        → (made : ℕ) × (made < length calls.now) × Adds effect_of (unplaced_state (L.state log.old))
        (events_of_all (take made calls.now)) (unplaced_state (L.state log.new))) }
    ensures usable { (L.state log.new).usable ≡ not (is_write_fault result) }
    ensures stop { CrashesSinceLeave L.moment L.left_since log.old log.new
        (IsLeft effect_of (unplaced_state (L.state log.old)) (events_of_all calls.now)) }
    ensures cause { HasCause (L.counts log.old) (L.counts log.new) result }
    ensures sound { IsErrOf result Corruption → ⊥ }
{
    for call in calls {
        make_call(log, call)?;
    }
    Ok(())
}
