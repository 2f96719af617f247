//! The value under the lock: the cache with the book of its calls.

ghost use Rattle.std.specs.Prelude.{◌≡◌, ◌+◌, ◌-◌, ◌<◌, false, length, IfOk, IfErr, IfSome, IfNone, IsOk, ◌↔◌, All, sum_by};
ghost use Rattle.sled_shared.specs.History.{HasAll};
ghost use Rattle.sled_shared.specs.Held.{count_of};
ghost use Rattle.sled_base.specs.declared.types.Error.TheVariants.{OutOfMemory};
ghost use Rattle.sled_pagecache.specs.Trees.{IsKnown};

mod calls;
mod entering;

use crate::book::Book;
use crate::entry::Entry;
use crate::history::History;
use crate::keeping::Spare;
use crate::share::{Blank, Share, Tally};
use sled_base::Error;
use sled_log::Log;
use sled_pagecache::{PageCache, Shape};
use std::alloc::Global;
use std::marker::Model;
use std::mem;
use std::sync::ledger;

/// A page cache with the book of its calls. The book's calls were made one after another, on a cache that had the opening shape, and they left
/// the cache as it is.
///
/// In contracts, the value is the cache, the book, the most entries that the book may have, and how many shares were given out and are left.
#[derive(Drop)]
pub struct Held<L: Log, K: Tally> {
    alloc: Global,
    cache: PageCache<L>,
    earlier: u64,
    opening: Shape,
    entries: Vec<Entry>,
    spare: Spare,
    limit: usize,
    total: ledger::Book<K>,
    rest: ledger::Share<K>,
    history: History<Entry>,
    given: u64,
    left: u64,
}

impl<L: Log, K: Tally> Model for Held<L, K> {
    ghost use Rattle.sled_shared.specs.Book.{book};
    ghost use Rattle.sled_shared.specs.Held.{Held as Seen, held, IsKept, IsSound};

    ghost Value = { Seen L };

    ghost view = { λ h. held h.cache (book h.earlier h.opening h.entries.items) h.limit h.given h.left };

    ghost invariant = { λ h. IsSound L.Log K.known (held h.cache (book h.earlier h.opening h.entries.items) h.limit h.given h.left) h.total.total h.rest.parts h.rest.amount K.parts × IsKept K.history h.history.name h.history.log h.earlier h.entries.items };
}

impl<L: Log, K: Tally> Held<L, K> {
    ghost use Rattle.sled_shared.specs.Book.{RisesWithin, ids_of};
    ghost use Rattle.sled_shared.specs.Held.{AreOfBook, EndsBefore, IsBookOf, IsNewRound, ReplaysIn, calls_of, held};

    /// Opens the first round over a cache that has no open batch. A book has at most `limit` entries. The ledger has one part for each share that
    /// there can be, and one more.
    ///
    /// `blank` is that of the ledger, with the same number of `parts`. `OutOfMemory` returns the cache.
    pub fn over(
        alloc: Global,
        cache: PageCache<L>,
        limit: usize,
        parts: u64,
        blank: Blank,
    ) -> Result<Held<L, K>, (Error, PageCache<L>)>
        requires name { (blank.name ≡ K.name) × (blank.history ≡ K.history) }
        requires parts { (blank.parts ≡ parts) × (K.parts ≡ parts) × (0 < parts) }
        requires closed { cache.batch ≡ false }
        requires known { K.known → L.tells → IsKnown L.Log cache }
        ensures ok { IfOk result (λ h. IsNewRound L.Log 0 cache h.book
            × (h ≡ held cache h.book limit 0 parts)) }
        ensures err { IfErr result (λ e. (e.0 ≡ OutOfMemory) × (e.1 ≡ cache)) }
    {
        let Ok(opening) = cache.shape() else {
            return Err((Error::OutOfMemory, cache));
        };
        let Blank { ledger, history } = blank;
        let (total, rest) = ledger.open::<K>();
        Ok(Held {
            alloc,
            cache,
            earlier: 0,
            opening,
            entries: Vec::new(alloc),
            spare: None,
            limit,
            total,
            rest,
            history,
            given: 0,
            left: parts,
        })
    }

    /// Returns whether both system pages were found in the log when the cache was opened.
    pub fn was_recovered(&self) -> bool
        ensures { result ≡ self.now.cache.recovered }
    {
        self.cache.was_recovered()
    }

    /// Returns a share for one more thread, or `None` if all were given out: one part stays here.
    pub fn share(&mut self) -> Option<Share<K>>
        ensures some { IfSome result (λ s. (count_of s ≡ 0) × (1 < self.old.left) × (self.new ≡ held
            self.old.cache self.old.book self.old.limit (self.old.given + 1) (self.old.left - 1))) }
        ensures none { IfNone result ((self.old.left ≡ 1) × (self.new ≡ self.old)) }
    {
        if self.left == 1 {
            return None;
        }
        let mark = self.rest.split_off(1, 0);
        self.left -= 1;
        self.given += 1;
        let pen = self.history.pen();
        Some(Share {
            mark,
            pen,
            count: 0,
        })
    }

    /// Ends a round, and returns its book. The next round begins with the cache's shape at the end of this one, and only that shape takes memory. It
    /// works after a write error too. `OutOfMemory` changes nothing.
    pub fn take_book(&mut self) -> Result<Book, Error>
        ensures book { IfOk result (λ b. (b ≡ self.old.book)
            × IsNewRound L.Log (calls_of self.old.book) self.old.cache self.new.book × (self.new
            ≡ held self.old.cache self.new.book self.old.limit self.old.given self.old.left)) }
        ensures of { IfOk result (λ b. IsBookOf L.Log K.known b self.new.cache) }
        ensures legal { K.known → L.tells
            → IfOk result (λ b. EndsBefore L.Log b self.new.cache self.new.book) }
        ensures ids { K.known → L.tells
            → IfOk result (λ b. RisesWithin b.opening.next (ids_of b) self.new.book.opening.next) }
        ensures err { IfErr result (λ e. (e ≡ OutOfMemory) × (self.new ≡ self.old)) }
    {
        let shape = self.cache.shape()?;
        let opening = mem::replace(&mut self.opening, shape);
        let entries = mem::replace(&mut self.entries, Vec::new(self.alloc));
        let earlier = self.earlier;
        self.earlier += entries.len() as u64;
        Ok(Book::new(earlier, opening, entries))
    }

    /// Ends the last round, if all shares are passed in. It returns the cache, the last book, and the number of calls that were entered in all. If a
    /// share is missing, it returns the held cache and the shares as the error.
    pub fn close(
        self,
        shares: Vec<Share<K>>,
    ) -> Result<(PageCache<L>, Book, u64), (Held<L, K>, Vec<Share<K>>)>
        ensures all { IsOk result ↔ (length shares.items ≡ self.given) }
        ensures ok { IfOk result (λ r. (r.0 ≡ self.cache) × (r.1 ≡ self.book)) }
        ensures of { IfOk result (λ r. IsBookOf L.Log K.known r.1 r.0) }
        ensures legal { K.known → L.tells → IfOk result (λ r. ReplaysIn L.Log r.1 r.0) }
        ensures closed { IfOk result (λ r. r.0.batch ≡ false) }
        ensures total { IfOk result (λ r. (r.2 ≡ calls_of self.book) × (r.2 ≡ sum_by count_of shares.items)) }
        ensures history { IfOk result (λ r. AreOfBook shares.items r.1) }
        ensures err { IfErr result (λ back. (back.0 ≡ self) × (back.1 ≡ shares)) }
    {
        if shares.len() as u64 != self.given {
            return Err((self, shares));
        }
        let Held {
            alloc: _,
            cache,
            earlier,
            opening,
            entries,
            spare: _,
            limit: _,
            total,
            rest,
            history,
            given: _,
            left: _,
        } = self;
        let calls = earlier + entries.len() as u64;
        count_up(total, rest, history, shares);
        Ok((cache, Book::new(earlier, opening, entries), calls))
    }
}

// With every share back, the ledger's total is the sum of their counts.
fn count_up<K: Tally>(
    total: ledger::Book<K>,
    rest: ledger::Share<K>,
    history: History<Entry>,
    shares: Vec<Share<K>>,
)
    requires all { rest.parts + length shares.items ≡ K.parts }
    requires idle { rest.amount ≡ 0 }
    requires named { history.name ≡ K.history }
    ensures total { total.total ≡ sum_by count_of shares.items }
    ensures seen { All (λ s. HasAll s.number s.seen history.log) shares.items }
{
    let mut total = total;
    let mut whole = rest;
    let mut history = history;
    let mut left = shares;
    while let Some(share) = left.pop() {
        let Share {
            mark,
            mut pen,
            count: _,
        } = share;
        history.audit(&mut pen);
        whole.merge(mark);
    }
    total.audit(&mut whole);
}
