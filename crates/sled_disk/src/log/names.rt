//! Which messages of a log were named, to be moved.

ghost use Rattle.std.specs.Prelude.{◌≡◌, ◌≤◌, ◌<◌, ◌+◌, ◌^◌, ◌⊎◌, ◌==◌, None, IfNone, IfSome, true, false, [], ◌∷◌, nat_lt, ◌&&◌, if◌then◌else◌};

use crate::format::record::{ABANDONED, RawHead, begins, closes};
use sled_base::{LogKind, LogOffset, MessageKind, PageId};

/// The place up to which a log was read for messages to name, the message that was read and not named yet, and how many messages were
/// appended since one was named.
///
/// The messages of a batch are named, unless the batch was abandoned. A log abandons no batch that it began itself, only the one inside
/// which the file ended that it opened. So after a record that begins a batch in the file as it was opened, the record that closes it is
/// looked for first.
#[derive(Drop)]
pub(crate) struct Names {
    // where the next record stands, or its frame ends
    at: u64,
    // where the gate of that frame stands
    gate: u64,
    // the same of the records behind it that are looked at for the one that closes its batch,
    ahead: u64,
    ahead_gate: u64,
    // as long as that one is sought
    seeks: bool,
    // a message before the first place, by its page and its place
    read: Option<(PageId, LogOffset)>,
    appended: u64,
    // where what the log writes itself begins: the gate behind which it was opened
    own: u64,
}

impl Names {
    ghost use Rattle.sled_base.specs.Kinds.{kind_of, log_kind_of};
    ghost use Rattle.sled_log.specs.Moves.{due_among};
    ghost use Rattle.sled_disk.specs.Format.{is_closing};
    ghost use Rattle.sled_disk.specs.Names.{one_or_none, read_of, named_by, looks_at, frame_of, behind_gate, behind_begin, behind_closing, behind_record};

    /// Returns names for which nothing was read: the next record is the first after the file's first gate. `own` is where the log's own
    /// records begin.
    pub(crate) fn new(own: u64) -> Names
        ensures at { result.at ≡ 17 }
        ensures gate { result.gate ≡ 8 }
        ensures seeks { result.seeks ≡ false }
        ensures read { result.read ≡ None }
        ensures appended { result.appended ≡ 0 }
        ensures own { result.own ≡ own }
    {
        Names {
            at: 17,
            gate: 8,
            ahead: 17,
            ahead_gate: 8,
            seeks: false,
            read: None,
            appended: 0,
            own,
        }
    }

    /// Returns the place of the record that is looked at next, or of the end of its frame.
    pub(crate) fn at(&self) -> u64
        ensures { result ≡ looks_at self.now }
    {
        if self.seeks { self.ahead } else { self.at }
    }

    /// Returns the place of the gate of that frame.
    pub(crate) fn gate(&self) -> u64
        ensures { result ≡ frame_of self.now }
    {
        if self.seeks {
            self.ahead_gate
        } else {
            self.gate
        }
    }

    /// Returns whether a message must still be read, if one is due for every `every`. It is read before it is due, which spreads the reads
    /// over the calls between two names.
    pub(crate) fn is_awaited(&self, every: u64) -> bool
        ensures unread { result ≡ true → self.now.read ≡ None }
        ensures some { result ≡ true → 0 < every }
        ensures waits { result ≡ false → (every ≡ 0) ⊎ (IfNone self.now.read ⊥) }
    {
        every != 0 && self.read.is_none()
    }

    /// Counts a message that was appended, unless `every` is 0.
    pub(crate) fn count(&mut self, every: u64)
        requires { self.old.appended + 1 < 2 ^ 64 }
        ensures appended { 0 < every → self.new.appended ≡ self.old.appended + 1 }
        ensures most { self.new.appended ≤ self.old.appended + 1 }
        ensures kept { self.new ≡ record self.old { appended = self.new.appended } }
    {
        if every != 0 {
            self.appended += 1;
        }
    }

    /// Continues after a gate.
    pub(crate) fn enter(&mut self, gate: u64)
        requires { gate + 9 < 2 ^ 64 }
        ensures { self.new ≡ behind_gate self.old gate }
    {
        if self.seeks {
            self.ahead_gate = gate;
            self.ahead = gate + 9;
        } else {
            self.gate = gate;
            self.at = gate + 9;
        }
    }

    /// Continues after the record that is looked at, whose payload has `len` bytes, and keeps its message if it is the next one and has
    /// one. Returns whether none was kept.
    pub(crate) fn pass(&mut self, raw: RawHead, len: u64) -> bool
        requires { self.old.read ≡ None }
        ensures places { looks_at self.old + (17 + len) < 2 ^ 64
            → self.new ≡ record (behind_record self.old raw.kind len) { read = self.new.read } }
        ensures read { one_or_none self.new.read ≡ (if self.old.seeks then []
            else if raw.kind == 12 && nat_lt self.old.at self.old.own then []
            else named_by (log_kind_of (kind_of raw.kind)) raw.page self.old.at) }
        ensures none { result ≡ true → self.new.read ≡ None }
        ensures some { result ≡ false → IfNone self.new.read ⊥ }
        ensures appended { self.new.appended ≡ self.old.appended }
    {
        if self.seeks {
            self.look(raw, len);
            return true;
        }
        if begins(raw) && self.at < self.own {
            self.seek(len);
            return true;
        }
        self.take(raw, len)
    }

    // Goes on behind the record that begins a batch, and seeks the one that closes it.
    fn seek(&mut self, len: u64)
        ensures places { self.old.at + (17 + len) < 2 ^ 64
            → self.new ≡ behind_begin self.old (self.old.at + (17 + len)) }
        ensures read { self.new.read ≡ self.old.read }
        ensures appended { self.new.appended ≡ self.old.appended }
    {
        self.at = self.at.saturating_add(17).saturating_add(len);
        self.ahead = self.at;
        self.ahead_gate = self.gate;
        self.seeks = true;
    }

    // Looks at a record of a batch. Where it says that the batch was abandoned, what stands behind it is next.
    fn look(&mut self, raw: RawHead, len: u64)
        ensures places { self.old.ahead + (17 + len) < 2 ^ 64 → self.new ≡ (if is_closing raw.kind
            then behind_closing self.old (raw.kind == 14) (self.old.ahead + (17 + len))
            else record self.old { ahead = self.old.ahead + (17 + len) }) }
        ensures read { self.new.read ≡ self.old.read }
        ensures appended { self.new.appended ≡ self.old.appended }
    {
        self.ahead = self.ahead.saturating_add(17).saturating_add(len);
        if closes(raw) {
            self.seeks = false;
            if raw.kind == ABANDONED {
                self.at = self.ahead;
                self.gate = self.ahead_gate;
            }
        }
    }

    // Goes on behind the next record, whose payload has so many bytes, and keeps its message, if it is one. Answers whether it is none.
    fn take(&mut self, raw: RawHead, len: u64) -> bool
        requires { self.old.read ≡ None }
        ensures places { self.old.at + (17 + len) < 2 ^ 64 → self.new
            ≡ record self.old { at = self.old.at + (17 + len); read = self.new.read } }
        ensures read { one_or_none self.new.read
            ≡ named_by (log_kind_of (kind_of raw.kind)) raw.page self.old.at }
        ensures none { result ≡ true → self.new.read ≡ None }
        ensures some { result ≡ false → IfNone self.new.read ⊥ }
        ensures appended { self.new.appended ≡ self.old.appended }
    {
        let place = self.at;
        self.at = place.saturating_add(17).saturating_add(len);
        match LogKind::from(MessageKind::from(raw.kind)) {
            LogKind::Free | LogKind::Replace | LogKind::Link => {
                self.read = Some((raw.page, place));
                false
            }
            LogKind::Skip | LogKind::Corrupted => true,
        }
    }

    /// Ends the search for the record that closes a batch, since there are no more records, pending ones included: no record marks that
    /// batch as abandoned. Returns whether there was a search.
    pub(crate) fn end(&mut self) -> bool
        ensures sought { result ≡ self.old.seeks }
        ensures kept { self.new ≡ record self.old { seeks = false } }
    {
        let sought = self.seeks;
        self.seeks = false;
        sought
    }

    /// Names the message that is due in a log of `pages` pages, if one is due for every `every` messages, and returns its page and its
    /// place.
    pub(crate) fn next(&mut self, pages: u64, every: u64) -> Option<(PageId, LogOffset)>
        ensures named { result ≡ due_among pages every (read_of self.old) }
        ensures kept { self.new ≡ record self.old { read = self.new.read; appended = self.new.appended } }
        ensures moves_on { IfSome result (λ named. (one_or_none self.old.read ≡ named ∷ [])
            × (self.new.read ≡ None) × (self.new.appended ≡ 0)) }
        ensures unnamed { IfNone result (self.new ≡ self.old) }
    {
        if every == 0 || self.appended < every {
            return None;
        }
        let (pid, place) = self.read?;
        if pid >= pages {
            return None;
        }
        self.appended = 0;
        self.read = None;
        Some((pid, place))
    }
}
