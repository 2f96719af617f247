//! Rewriting a cache into another log, which then holds its pages and nothing older.

ghost use Rattle.std.specs.Prelude.{◌≡◌, ◌⊎◌, [], false, true, Err, IfOk, IfErr};
ghost use Rattle.sled_base.specs.declared.types.Device.TheVariants.{Write};
ghost use Rattle.sled_base.specs.declared.types.Error.TheVariants.{Unsupported, Io};
ghost use Rattle.sled_base.specs.declared.types.Why.TheVariants.{BatchOpen, LogFull};
ghost use Rattle.sled_log.specs.Calls.{HasGrown};
ghost use Rattle.sled_log.specs.Events.{is_open};
ghost use Rattle.sled_log.specs.LogState.{now};
ghost use Rattle.sled_log.specs.Messages.{effect_of_entry};
ghost use Rattle.sled_pagecache.specs.Answers.{HasNoName};
ghost use Rattle.sled_pagecache.specs.Cache.{chain_at};
ghost use Rattle.sled_pagecache.specs.Damage.{LeavesPages, ReportsSomeWrong};
ghost use Rattle.sled_pagecache.specs.Memory.{HasRead, IsBounded, KeepsMemory, messages_away};
ghost use Rattle.sled_pagecache.specs.Rewriting.{IsRewritten, IsFullFor, IsBlamedRewriting, StaysInState};

use super::PageCache;
use crate::pagecache::write::page_copies::copy_pages;
use crate::pagecache::write::sticky_log::StickyLog;
use sled_base::{Device, Error, Why};
use sled_log::Log;

impl<L: Log> PageCache<L> {
    /// Writes the pages to another log, which holds none, and makes them durable there. That log then takes no more than the pages do.
    ///
    /// It appends what each page holds as one message, page by page in the order of their ids. For a free page it appends an empty leaf
    /// first, since no log frees a page that isn't there. A page that isn't in memory is read, by one read for each of its messages, and
    /// dropped again. Nothing is written to the log of the cache, and no page is accessed. The cache can be called as before: a caller
    /// opens a cache over the other log in its place, or continues with this one.
    ///
    /// It fails with `BatchOpen` if a batch is open. It fails with `Corruption` if the messages of a page make no node, with the pointer of
    /// the first wrong one; no page is skipped. It fails with `LogFull` if the other log has no room. These, `Io` and `OutOfMemory` leave
    /// every page unchanged, and return the other log with what was written to it, which should be discarded. A write error of the cache's
    /// own log is sticky, and an earlier one is returned before anything else. A write error of the other log isn't sticky.
    #[tactic(auto, using(crate::proofs::Steps::Refusals::no_name))]
    pub fn rewrite_into<M: Log>(&mut self, into: M) -> Result<M, (Error, M)>
        requires usable { (M.state into).usable ≡ true }
        requires closed { is_open (M.state into).pending ≡ false }
        requires empty { M.tells → now effect_of_entry (M.state into) ≡ [] }
        ensures stuck { self.old.fault ≡ true → (result ≡ Err (Io Write, into)) × (self.new ≡ self.old) }
        ensures in_batch { self.old.fault ≡ false → self.old.batch ≡ true
            → (result ≡ Err (Unsupported BatchOpen, into)) × (self.new ≡ self.old) }
        ensures rewritten { IfOk result (IsRewritten L.Log M.Log self.old) }
        ensures step { StaysInState L.Log self.old self.new }
        ensures left { self.old.fault ≡ false → LeavesPages L.Log self.old self.new }
        ensures same { KeepsMemory self.old self.new }
        ensures bounded { IsBounded L.Log self.new }
        ensures fault { self.old.fault ≡ false → self.new.fault ≡ true → IfErr result (λ e. e.0 ≡ Io Write)
            × HasGrown (L.counts self.old.log).write_faults (L.counts self.new.log).write_faults }
        ensures kept { IfOk result (λ _. self.new.fault ≡ false) }
        ensures blame { self.old.fault ≡ false → IsBlamedRewriting L.Log M.Log self.old self.new into result }
        ensures refused { L.tells → M.tells → self.old.fault ≡ false → self.old.batch ≡ false
            → IfErr result (λ e. (e.0 ≡ Unsupported LogFull)
            ⊎ ReportsSomeWrong (chain_at (L.state self.old.log)) e.0) }
        ensures full { L.tells → M.tells → self.old.fault ≡ false
            → IfErr result (λ e. e.0 ≡ Unsupported LogFull → IsFullFor L.Log M.Log self.old into) }
        ensures reads { L.tells → HasRead L.counts self.old.log self.new.log
            (messages_away (now effect_of_entry (L.state self.old.log)) self.old.resident) result }
        ensures unnamed { IfErr result (λ e. HasNoName e.0) }
    {
        if self.writer.sticky_log.fault {
            return Err((Error::Io(Device::Write), into));
        }
        if self.writer.sticky_log.batch {
            return Err((Error::Unsupported(Why::BatchOpen), into));
        }
        let mut copy = StickyLog {
            alloc: self.writer.sticky_log.alloc,
            log: into,
            fault: false,
            batch: false,
        };
        match copy_pages(&mut self.writer.sticky_log, &self.pages, &mut copy) {
            Ok(()) => Ok(copy.log),
            Err(refusal) => Err((Error::from(refusal), copy.log)),
        }
    }
}
