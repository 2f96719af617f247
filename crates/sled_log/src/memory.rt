//! A log in memory.

ghost use Rattle.std.specs.Prelude.{◌≡◌, ◌+◌, ◌≤◌, ◌<◌, ◌↔◌, pos, Some, [], ◌∷◌, ◌++◌, length, take, drop, map, true, false, IsTrue, IsOk, IfOk, IfErr, OnOk, OnErr, IsErrOf, vec_len, vec_capacity};
ghost use Rattle.std.specs.List.{AllByRecursion, list_any};
ghost use Rattle.sled_log.specs.Events.{is_open, open_after, IsFair, Change};
ghost use Rattle.sled_log.specs.Calls.{one_more};
ghost use Rattle.sled_log.specs.Chains.{chains_after};
ghost use Rattle.sled_log.specs.MemLog.Items.{event_of, event_of_mark, log_size, named_by};
ghost use Rattle.sled_log.specs.Inside.Blobs.{marks_of, is_first, is_held, are_held};
ghost use Rattle.sled_log.specs.Inside.Items.{IsInOrder, are_placed};
ghost use Rattle.sled_log.specs.Limits.{size_limit};
ghost use Rattle.sled_log.specs.Messages.{effect_of_entry, message_size, placed_entry, unplaced_events};
ghost use Rattle.sled_log.specs.Moves.{fresh_moves, moves_with};
ghost use Rattle.sled_log.specs.Pages.{IsSized};
ghost use Rattle.sled_log.specs.LogState.{now, unplaced_state};
ghost use Rattle.sled_log.specs.Inside.Stored.{are_within, lies, blob_lies, size_of_stored, pages_after, bare_event, came_by, last_came};
ghost use Rattle.sled_log.specs.MemLog.Stored.{kept_items, part, pointer_of};
ghost use Rattle.sled_log.specs.declared.log.LogError.TheVariants.{Memory, Full};
ghost use Rattle.sled_log.specs.declared.memory.item.Held.{Held};

mod calls;
mod cuts;
mod finding;
mod item;
mod keeping;
mod packed;
mod pages;
mod strides;

use crate::LogError;
use cuts::is_fair_cut;
use finding::behind;
use item::{HEAD, Held, LogItem, payload_len};
use keeping::{keep_first, push, room_for};
use packed::PackedMark;
use pages::{count_pages, said_at};
use sled_base::growth::reserve;
use sled_base::{DiskPtr, Lsn, MessageKind, PageId};
use std::alloc::Global;
use strides::Strides;

const MAX_SIZE: u64 = i64::MAX as u64;

/// A log in memory. Its `size` is the sum of the log sizes of all messages, and its `stable_offset` that of the durable ones. It
/// fails only with Memory and Full.
///
/// Each item stores the moment at which it was added, and the moment at which it became durable follows from these. So the crash
/// states of every moment are known from what is stored.
#[derive(Drop)]
pub struct MemLog {
    alloc: Global,
    // payloads above so many bytes are blobs
    blob_limit: usize,
    clean_every: u64,
    // the item from which on messages were not named yet, and how many were appended since one was named
    cursor: usize,
    appended: u64,
    // how many pages the messages make
    pages: u64,
    items: Vec<LogItem>,
    // their payloads, one behind the other
    bytes: Vec<u8>,
    // where items stand
    strides: Strides,
    // how many items are stable
    stable: usize,
    // the log sizes of the stable messages, and of all
    stable_size: u64,
    size: u64,
    clock: u64,
    // whether a batch is open
    batch: bool,
    reads: u64,
    ghost within: { IsTrue (are_within 0 (length bytes.items) items.items) },
    ghost fewer: { stable ≤ length items.items },
    ghost in_order: { IsInOrder clock stable (kept_items blob_limit bytes.items clock stable items.items) },
    ghost counted: { clock ≤ length items.items + stable },
    ghost timed: { last_came 0 items.items ≡ came_by clock stable items.items },
    ghost sized: { size ≡ log_size (kept_items blob_limit bytes.items clock stable items.items) },
    ghost stable_sized: { stable_size ≡ log_size (take stable (kept_items blob_limit bytes.items clock stable items.items)) },
    ghost fits: { size < size_limit },
    ghost placed: { IsTrue (are_placed 0 (kept_items blob_limit bytes.items clock stable items.items)) },
    ghost batch_is: { batch ≡ is_open (map event_of (drop stable (kept_items blob_limit bytes.items clock stable items.items))) },
    ghost holds_blobs: { IsTrue (are_held [] (marks_of (kept_items blob_limit bytes.items clock stable items.items))) },
    ghost paged: { pages ≡ pages_after 0 (map bare_event items.items) },
    ghost few_pages: { pages ≤ length items.items },
    ghost cursor_within: { cursor ≤ length items.items },
    ghost few_appended: { appended ≤ length items.items },
    // a batch that is open has room for its closing mark
    ghost room: { batch ≡ true → vec_len items < vec_capacity items },
}

impl MemLog {
    ghost use Rattle.sled_log.specs.MemLog.State.{kept_in, state_of, clock_of, might_have_left, counts_of, settings_of, size_of, stable_size_of, kept_size_of, kept_names_of, moves_of, CalledHere};
    ghost use Rattle.sled_log.specs.Inside.Memory.{MovesNothing, Remembers, mark_in, put_message};

    /// Returns an empty log. It allocates nothing.
    ///
    /// A payload of more than `blob_limit` bytes is stored as a blob. One message is due to be moved for every `clean_every`
    /// messages that are appended; if `clean_every` is 0, none ever is.
    pub fn new(alloc: Global, blob_limit: usize, clean_every: u64) -> MemLog
        ensures state { state_of result ≡ record { stable = []; pending = []; usable = true } }
        ensures settings { settings_of result ≡ (blob_limit, clean_every) }
        ensures size { size_of result ≡ 0 }
        ensures moment { clock_of result ≡ 0 }
        ensures counts { counts_of result
            ≡ record { reads = 0; failed_reads = 0; write_faults = 0 } }
        ensures moves { moves_of result ≡ fresh_moves [] }
    {
        MemLog {
            alloc,
            blob_limit,
            clean_every,
            cursor: 0,
            appended: 0,
            pages: 0,
            items: Vec::new(alloc),
            bytes: Vec::new(alloc),
            strides: Strides::new(alloc),
            stable: 0,
            stable_size: 0,
            size: 0,
            clock: 0,
            batch: false,
            reads: 0,
        }
    }

    /// Returns whether a crash now may keep exactly the first `n` pending events.
    pub fn is_fair(&self, n: usize) -> bool
        ensures { IsTrue result ↔ IsFair (state_of self.now).pending n }
    {
        is_fair_cut(&self.items[self.stable..], n)
    }

    /// Returns the log that a crash now leaves, if it keeps the first `n` pending events. This is a new log in which everything
    /// is durable: its counts are 0, and none of its messages was named by `to_move`.
    pub fn stop(self, n: usize) -> MemLog
        requires { IsFair (state_of self).pending n }
        ensures left { might_have_left self (clock_of self)
            (unplaced_state (state_of result)).stable }
        ensures stable { (state_of result).stable
            ≡ chains_after effect_of_entry (state_of self).stable (take n (state_of self).pending) }
        ensures pending { (state_of result).pending ≡ [] }
        ensures size { size_of result ≡ kept_size_of self n }
        ensures durable { stable_size_of result ≡ kept_size_of self n }
        ensures counts { counts_of result
            ≡ record { reads = 0; failed_reads = 0; write_faults = 0 } }
        ensures moment { clock_of result ≡ 0 }
        ensures settings { settings_of result ≡ settings_of self }
        ensures moves { moves_of result ≡ fresh_moves (kept_names_of self n) }
    {
        let MemLog {
            alloc,
            blob_limit,
            clean_every,
            cursor: _,
            appended: _,
            pages: _,
            mut items,
            mut bytes,
            mut strides,
            stable,
            stable_size: _,
            size: _,
            clock: _,
            batch: _,
            reads: _,
        } = self;
        keep_first(&mut items, stable + n);
        let (size, end) = behind(&items);
        bytes.truncate(end);
        strides.cut(size);
        let pages = count_pages(&items);
        let stable = items.len();
        MemLog {
            alloc,
            blob_limit,
            clean_every,
            cursor: 0, // no message of the new log was named
            appended: 0,
            pages,
            items,
            bytes,
            strides,
            stable,
            stable_size: size,
            size,
            clock: 0,
            batch: false,
            reads: 0, // no call has read the new log
        }
    }

    // Adds an item with its payload. `batch` says whether a batch is open then, for whose closing mark it keeps room. So a mark
    // that closes one is never refused.
    fn add(&mut self, mark: PackedMark, payload: &[u8], batch: bool) -> Result<(), LogError>
        requires fits { self.old.size + size_of_stored mark (length payload.now) < size_limit }
        requires lies { lies (vec_len self.old.bytes) mark ≡ true }
        requires held { is_held (marks_of (kept_in self.old) ++ mark_in self.old mark payload.now ∷ [])
            (mark_in self.old mark payload.now) ≡ true }
        requires batch { batch ≡ open_after self.old.batch
            (event_of_mark (mark_in self.old mark payload.now) ∷ []) }
        ensures called { CalledHere self.old self.new
            (λ _. event_of_mark (mark_in self.old mark payload.now) ∷ [])
            (unplaced_events (event_of_mark (mark_in self.old mark payload.now) ∷ [])) result }
        ensures moves { MovesNothing self.old self.new
            (λ _. event_of_mark (mark_in self.old mark payload.now) ∷ []) result }
        ensures past { Remembers self.old self.new }
        ensures only { IfErr result (λ e. e ≡ Memory) }
        ensures always { is_open (state_of self.old).pending ≡ true → batch ≡ false
            → payload.now ≡ [] → IsOk result }
        ensures named { OnOk result (moves_of self.new
            ≡ moves_with (moves_of self.old) (named_by (mark_in self.old mark payload.now))) }
        ensures unnamed { OnErr result (moves_of self.new ≡ moves_of self.old) }
    {
        reserve(&mut self.items, room_for(batch))?;
        reserve(&mut self.bytes, payload.len())?;
        let told = mark.unpacked();
        self.clock += 1;
        self.size += told.size(payload);
        self.batch = batch;
        self.pages = told.pages_behind(self.pages);
        self.appended += told.messages();
        let item = LogItem {
            mark,
            end: self.size,
            payload_end: self.bytes.len() + payload.len(),
            came: self.clock,
        };
        self.strides.note(self.size, self.items.len());
        push(&mut self.items, &mut self.bytes, item, payload);
        Ok(())
    }

    // Adds a message with its payload, which names that blob and has its payload in place of one of its own, where it is given.
    // Full comes before any memory is asked for.
    fn put(
        &mut self,
        kind: MessageKind,
        pid: PageId,
        blob: Option<Held>,
        payload: &[u8],
    ) -> Result<(Lsn, DiskPtr, u64), LogError>
        requires lies { blob_lies (vec_len self.old.bytes) blob ≡ true }
        requires held { (named : Held) → blob ≡ Some named → list_any (is_first named.first kind
            (part named.start (named.start + named.len) self.old.bytes.items))
            (marks_of (kept_in self.old)) ≡ true }
        ensures called { CalledHere self.old self.new
            (λ said. Change pid (placed_entry (put_message self.old kind blob payload.now) said) ∷ [])
            (Change pid (put_message self.old kind blob payload.now) ∷ []) result }
        ensures size { IfOk result
            (λ said. said.2 ≡ message_size (put_message self.old kind blob payload.now)) }
        ensures fits { IfOk result (λ said. said.2 < size_limit) }
        ensures sized { OnOk result
            (AllByRecursion IsSized (now effect_of_entry (state_of self.new))) }
        ensures lsn { IfOk result (λ said. said.0 ≡ pos (size_of self.old)) }
        ensures pointer { IfOk result (λ said. said.1
            ≡ pointer_of (settings_of self.old).0 (size_of self.old) payload.now blob) }
        ensures moves { MovesNothing self.old self.new
            (λ said. Change pid (placed_entry (put_message self.old kind blob payload.now) said) ∷ [])
            result }
        ensures full { IsErrOf result Full ↔ (size_limit ≤ size_of self.old
            + message_size (put_message self.old kind blob payload.now)) }
        ensures past { Remembers self.old self.new }
        ensures named { OnOk result (moves_of self.new
            ≡ moves_with (moves_of self.old) ((pid, size_of self.old) ∷ [])) }
        ensures unnamed { OnErr result (moves_of self.new ≡ moves_of self.old) }
    {
        let len = payload_len(blob, payload);
        let room = MAX_SIZE - self.size;
        if room < HEAD || room - HEAD < len {
            return Err(LogError::Full);
        }
        let said = said_at(self.blob_limit, self.size, HEAD + len, blob);
        let mark = PackedMark::change(self.alloc, kind, pid, blob)?;
        self.add(mark, payload, self.batch)?;
        Ok(said)
    }

    // Counts a read.
    fn count_read(&mut self)
        ensures reads { self.new.reads ≡ one_more self.old.reads }
        ensures clock { self.new.clock ≡ self.old.clock }
        ensures kept { kept_in self.new ≡ kept_in self.old }
        ensures settings { settings_of self.new ≡ settings_of self.old }
        ensures moves { moves_of self.new ≡ moves_of self.old }
    {
        if self.reads < u64::MAX {
            self.reads += 1;
        }
    }
}

#[cfg(test)]
mod tests;
