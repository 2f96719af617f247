//! The log of a cache, with its sticky write error.

ghost use Rattle.std.specs.Prelude.{◌≡◌, ℕ, ◌+◌, ◌<◌, ◌||◌, [], ◌∷◌, false, true, length, slice_index_or, IfOk, IfErr, OnOk, OnErr};
ghost use Rattle.std.specs.List.{All, AllByRecursion, AllZip, Any};
ghost use Rattle.sled_base.specs.declared.types.Device.TheVariants.{Write};
ghost use Rattle.sled_base.specs.declared.types.Refusal.TheVariants.{Io};
ghost use Rattle.sled_log.specs.Events.{is_open};
ghost use Rattle.sled_log.specs.Calls.{can_append, one_more};
ghost use Rattle.sled_log.specs.Calls.{is_write_fault as log_met_fault};
ghost use Rattle.sled_log.specs.Chains.{chains_from, is_chain};
ghost use Rattle.sled_log.specs.Events.{Change, Pin};
ghost use Rattle.sled_log.specs.Limits.{head_size, size_limit};
ghost use Rattle.sled_log.specs.Messages.{effect_of_entry, message, message_size, placed_entry};
ghost use Rattle.sled_log.specs.Moves.{HasBlob, message_at};
ghost use Rattle.sled_log.specs.Pages.{IsAt, IsPageState, IsReadAs, IsSized};
ghost use Rattle.sled_log.specs.Payloads.{payload_in};
ghost use Rattle.sled_log.specs.LogState.{now};
ghost use Rattle.sled_pagecache.specs.Inside.StickyLog.{Went, IsCaused, IsOfLog, begun_by, cache_answer, mark_of, IsReady};

use sled_base::{BlobPointer, DiskPtr, LogOffset, Lsn, MessageKind, PageId, PageState, Refusal};
use sled_log::{Log, LogError, Payload};
use std::alloc::Global;

/// The log of a cache, whether a batch is open, and whether a write error was met. After a write error the log is never called again.
/// What is made of its messages, and they themselves, take memory from its allocator.
#[derive(Drop)]
pub(crate) struct StickyLog<L> {
    pub(crate) alloc: Global,
    pub(crate) log: L,
    pub(crate) fault: bool,
    pub(crate) batch: bool,
}

// How a batch is closed: a crash leaves all of it or nothing, or it may leave a part.
#[derive(Clone, Copy)]
pub(crate) enum Closing {
    Seal,
    Cancel,
}

impl<L: Log> StickyLog<L> {
    // Adds a message of a page, and answers where it stands: its lsn, the pointer to it, and its log size.
    pub(crate) fn append(
        &mut self,
        kind: MessageKind,
        pid: PageId,
        payload: &[u8],
    ) -> Result<(Lsn, DiskPtr, u64), Refusal>
        requires ready { IsReady L.Log self.old }
        requires can { L.tells → can_append effect_of_entry
            (now effect_of_entry (L.state self.old.log)) pid kind ≡ true }
        ensures went { Went L.Log self.old self.new
            (begun_by result (Change pid (message kind payload.now) ∷ [])) }
        ensures cause { IsCaused L.Log self.old self.new
            (L.is_full self.old.log (length payload.now)) result }
        ensures sound { L.tells → IfErr result IsOfLog }
        ensures reads { (L.counts self.new.log).reads ≡ (L.counts self.old.log).reads }
        ensures chains { L.tells → IfOk result (λ said. now effect_of_entry (L.state self.new.log)
            ≡ chains_from effect_of_entry (now effect_of_entry (L.state self.old.log))
            (Change pid (placed_entry (message kind payload.now) said))) }
        ensures same { L.tells → OnErr result (self.new.fault ≡ false → now effect_of_entry
            (L.state self.new.log) ≡ now effect_of_entry (L.state self.old.log)) }
        ensures size { IfOk result (λ said. (said.2 ≡ head_size + length payload.now)
            × (said.2 < size_limit)) }
        ensures sized { L.tells
            → OnOk result (AllByRecursion IsSized (now effect_of_entry (L.state self.new.log))) }
    {
        let outcome = self.log.append(kind, pid, payload);
        keep_fault(&mut self.fault, outcome)
    }

    // Adds the message of a page again, which is all its chain and is kept as that blob, and answers where it stands.
    pub(crate) fn rewrite_blob_pointer(
        &mut self,
        pid: PageId,
        blob: BlobPointer,
    ) -> Result<(Lsn, DiskPtr, u64), Refusal>
        requires ready { IsReady L.Log self.old }
        requires holds { L.tells → HasBlob (now effect_of_entry (L.state self.old.log)) pid blob }
        ensures went { Went L.Log self.old self.new (begun_by result
            (Change pid (message_at (now effect_of_entry (L.state self.old.log)) pid) ∷ [])) }
        ensures cause { IsCaused L.Log self.old self.new (L.tells → L.is_full self.old.log
            (length (message_at (now effect_of_entry (L.state self.old.log)) pid).payload)) result }
        ensures sound { L.tells → IfErr result IsOfLog }
        ensures reads { (L.counts self.new.log).reads ≡ (L.counts self.old.log).reads }
        ensures chains { L.tells → IfOk result (λ said. now effect_of_entry (L.state self.new.log)
            ≡ chains_from effect_of_entry (now effect_of_entry (L.state self.old.log))
            (Change pid (placed_entry
            (message_at (now effect_of_entry (L.state self.old.log)) pid) said))) }
        ensures same { L.tells → OnErr result (self.new.fault ≡ false → now effect_of_entry
            (L.state self.new.log) ≡ now effect_of_entry (L.state self.old.log)) }
        ensures size { L.tells → IfOk result (λ said. said.2
            ≡ message_size (message_at (now effect_of_entry (L.state self.old.log)) pid)) }
        ensures sized { L.tells
            → OnOk result (AllByRecursion IsSized (now effect_of_entry (L.state self.new.log))) }
    {
        let outcome = self.log.rewrite_blob_pointer(pid, blob);
        keep_fault(&mut self.fault, outcome)
    }

    // Names the message that is due to be moved, by its page and its place, if one is.
    pub(crate) fn to_move(&mut self) -> Option<(PageId, LogOffset)>
        requires ready { IsReady L.Log self.old }
        ensures named { result ≡ L.due self.old.log }
        ensures went { Went L.Log self.old self.new [] }
        ensures fault { self.new.fault ≡ false }
        ensures state { L.state self.new.log ≡ L.state self.old.log }
        ensures counts { L.counts self.new.log ≡ L.counts self.old.log }
        ensures room { (n : ℕ) → L.is_full self.new.log n → L.is_full self.old.log n }
    {
        self.log.to_move()
    }

    // Reads a message of a page by its place, which is one of the page's chain: its kind, or the kind of its blob, and its
    // payload, which may be put into the space.
    pub(crate) fn read_to(
        &mut self,
        pid: PageId,
        lsn: Lsn,
        pointer: DiskPtr,
        space: &mut [u8],
    ) -> Result<(MessageKind, Payload), Refusal>
        requires ready { IsReady L.Log self.old }
        requires known { L.tells → Any (IsAt lsn pointer)
            (slice_index_or (now effect_of_entry (L.state self.old.log)) pid []) }
        ensures went { Went L.Log self.old self.new [] }
        ensures cause { IsCaused L.Log self.old self.new ⊥ result }
        ensures sound { L.tells → IfErr result IsOfLog }
        ensures reads { (L.counts self.new.log).reads ≡ one_more (L.counts self.old.log).reads }
        ensures found { L.tells → IfOk result (λ found. All (λ entry. IsAt lsn pointer entry
            → IsReadAs entry found.0 (payload_in space.new found.1))
            (slice_index_or (now effect_of_entry (L.state self.old.log)) pid [])) }
        ensures room { (n : ℕ) → L.is_full self.new.log n → L.is_full self.old.log n }
        ensures same { L.tells → self.new.fault ≡ false → now effect_of_entry (L.state self.new.log)
            ≡ now effect_of_entry (L.state self.old.log) }
    {
        let outcome = self.log.read_to(pid, lsn, pointer, space);
        keep_fault(&mut self.fault, outcome)
    }

    // Makes all that is pending stable, and answers how many bytes that wrote. It is refused only for a write fault.
    pub(crate) fn make_stable(&mut self) -> Result<usize, Refusal>
        requires ready { IsReady L.Log self.old }
        requires closed { is_open (L.state self.old.log).pending ≡ false }
        ensures went { Went L.Log self.old self.new [] }
        ensures cause { IsCaused L.Log self.old self.new ⊥ result }
        ensures sound { L.tells → IfErr result IsOfLog }
        ensures only { IfErr result (λ refusal. refusal ≡ Io Write) }
        ensures reads { (L.counts self.new.log).reads ≡ (L.counts self.old.log).reads }
        ensures number { IfOk result (λ n. n ≡ L.to_write self.old.log) }
        ensures stable { OnOk result ((L.state self.new.log).pending ≡ []) }
        ensures same { L.tells → self.new.fault ≡ false → now effect_of_entry (L.state self.new.log)
            ≡ now effect_of_entry (L.state self.old.log) }
    {
        let outcome = self.log.make_stable();
        keep_fault(&mut self.fault, outcome)
    }

    // Opens a batch in the log.
    pub(crate) fn pin(&mut self) -> Result<(), Refusal>
        requires ready { IsReady L.Log self.old }
        requires closed { is_open (L.state self.old.log).pending ≡ false }
        ensures went { Went L.Log self.old self.new (begun_by result (Pin ∷ [])) }
        ensures cause { IsCaused L.Log self.old self.new (L.is_full_for_batch self.old.log) result }
        ensures sound { L.tells → IfErr result IsOfLog }
        ensures reads { (L.counts self.new.log).reads ≡ (L.counts self.old.log).reads }
        ensures same { L.tells → self.new.fault ≡ false → now effect_of_entry (L.state self.new.log)
            ≡ now effect_of_entry (L.state self.old.log) }
    {
        let outcome = self.log.pin();
        keep_fault(&mut self.fault, outcome)
    }

    // Closes the batch in the log. It is refused only for a write fault.
    pub(crate) fn close(&mut self, closing: Closing) -> Result<(), Refusal>
        requires ready { IsReady L.Log self.old }
        requires opened { is_open (L.state self.old.log).pending ≡ true }
        ensures went { Went L.Log self.old self.new (begun_by result (mark_of closing ∷ [])) }
        ensures cause { IsCaused L.Log self.old self.new ⊥ result }
        ensures only { IfErr result (λ refusal. refusal ≡ Io Write) }
        ensures reads { (L.counts self.new.log).reads ≡ (L.counts self.old.log).reads }
        ensures same { L.tells → self.new.fault ≡ false → now effect_of_entry (L.state self.new.log)
            ≡ now effect_of_entry (L.state self.old.log) }
    {
        match closing {
            Closing::Seal => {
                let outcome = self.log.seal();
                keep_fault(&mut self.fault, outcome)
            }
            Closing::Cancel => {
                let outcome = self.log.cancel();
                keep_fault(&mut self.fault, outcome)
            }
        }
    }

    // The pages, by id, with the places of their chains.
    pub(crate) fn recover(&mut self) -> Result<Vec<PageState>, Refusal>
        requires ready { IsReady L.Log self.old }
        ensures went { Went L.Log self.old self.new [] }
        ensures cause { IsCaused L.Log self.old self.new ⊥ result }
        ensures sound { L.tells → IfErr result IsOfLog }
        ensures reads { (L.counts self.new.log).reads ≡ (L.counts self.old.log).reads }
        ensures pages { L.tells → IfOk result
            (λ pages. AllZip IsPageState (now effect_of_entry (L.state self.old.log)) pages.items) }
        ensures sized { L.tells
            → OnOk result (AllByRecursion IsSized (now effect_of_entry (L.state self.old.log))) }
        ensures chains { L.tells → OnOk result (AllByRecursion (λ chain. is_chain effect_of_entry
            chain ≡ true) (now effect_of_entry (L.state self.old.log))) }
        ensures room { (n : ℕ) → L.is_full self.new.log n → L.is_full self.old.log n }
        ensures same { L.tells → self.new.fault ≡ false → now effect_of_entry (L.state self.new.log)
            ≡ now effect_of_entry (L.state self.old.log) }
    {
        let outcome = self.log.recover();
        keep_fault(&mut self.fault, outcome)
    }
}

// Hands on what the log answered, and keeps a write fault.
fn keep_fault<T>(fault: &mut bool, outcome: Result<T, LogError>) -> Result<T, Refusal>
    ensures answer { result ≡ cache_answer outcome }
    ensures kept { fault.new ≡ (fault.old || log_met_fault outcome) }
{
    match outcome {
        Ok(answer) => Ok(answer),
        Err(error) => {
            if error == LogError::WriteFault {
                *fault = true;
            }
            Err(Refusal::from(error))
        }
    }
}
