//! The cache: stamped pages over a log. Each call is one step of a machine.

ghost use Rattle.std.specs.Prelude.{◌≡◌, ◌≢◌, ◌≤◌, [], false, true, length, None, Some, Err, IfOk, IfErr, OnOk};
ghost use Rattle.sled_base.specs.declared.types.Device.TheVariants.{Write};
ghost use Rattle.sled_base.specs.declared.types.Error.TheVariants.{Unsupported, Io};
ghost use Rattle.sled_base.specs.declared.types.Why.{Why};
ghost use Rattle.sled_log.specs.Events.{is_open};
ghost use Rattle.sled_log.specs.Messages.{effect_of_entry};
ghost use Rattle.sled_log.specs.LogState.{now, unplaced_state};
ghost use Rattle.sled_pagecache.specs.Answers.{HasNoName, Keeps};
ghost use Rattle.sled_pagecache.specs.Calls.{Steps, IsBlamed};
ghost use Rattle.sled_pagecache.specs.Logged.{Logged, IsLogged};
ghost use Rattle.sled_pagecache.specs.Memory.{IsBounded, ListsResident, KeepsMemory};
ghost use Rattle.sled_pagecache.specs.Opening.{fault_of};
ghost use Rattle.sled_pagecache.specs.Memory.{ReadsNothing, HasRead, own_among};
ghost use Rattle.sled_pagecache.specs.Opening.{RefusesOpening, Opens, IsBlamedOpening, MayBeOpened, HoldsNoNode, log_after};
ghost use Rattle.sled_pagecache.specs.declared.pagecache.handles.call.Answer.TheVariants.{Flushed, Sized};
ghost use Rattle.sled_pagecache.specs.declared.pagecache.handles.call.Call.TheVariants.{Flush, SizeOnDisk};

mod batch_bounds;
mod cache_shape;
mod fuzzy_snapshot;
mod generated_ids;
pub(crate) mod guard;
mod moves;
mod named_roots;
mod pages;
mod rewrite;
mod served;
mod space;
mod swaps_alone;
pub(crate) mod trees;

use super::handles::config::Config;
use super::memory::accesses::{Accesses, Dropped};
use super::open::start::open;
use super::table::boxed_node::EmptyLeaf;
use super::table::free_ids::FreeIds;
use super::table::pagetable::PageTable;
use super::write::sticky_log::StickyLog;
use super::write::writer::Writer;
use sled_base::{Device, Error, Lru, Why};
use sled_log::Log;
use std::alloc::Global;
use std::fmt;
use std::marker::Model;

/// A cache of stamped pages over a log. Each page has an id; pages 0 and 1 are the cache's own.
///
/// Each append accesses its page, and so does each `get` that finds a node. The pages are spread over 256 shards by their ids, and each
/// shard has its part of the capacity. The size of a page is how many bytes of the log its messages take, rounded up to a power of two.
/// When the pages of a shard take more than its part, the cache evicts the nodes that were accessed longest ago. The page that was accessed
/// last stays in memory.
///
/// Contracts see the stamps, which pages are in memory, how many bytes of the log the messages of each node in memory take, the next
/// generated id, whether a batch is open, whether a write error was met, the config, whether the system pages were found in the log, the
/// pages by their recent use, and the log.
#[derive(Drop)]
pub struct PageCache<L: Log> {
    config: Config,
    recovered: bool,
    next: u128,
    pages: PageTable,
    free: FreeIds,
    writer: Writer<L>,
    // lent in the place of each empty leaf
    empty: EmptyLeaf,
}

impl<L: Log> Model for PageCache<L> {
    ghost use Rattle.sled_pagecache.specs.Cache.{Cache};

    ghost Value = { Cache L };

    ghost use Rattle.sled_pagecache.specs.Inside.Eviction.{cache_of, IsSettled};

    ghost view = { λ c. cache_of c.next c.config c.recovered c.writer.accesses.lru c.writer.sticky_log c.pages.pages };

    ghost invariant = { λ c. IsSettled L.Log c.next c.config c.recovered c.writer.sticky_log c.pages.pages c.free.ids.keys c.writer.accesses };
}

impl<L: Log> PageCache<L> {
    /// Opens a cache over a log. It reads the system pages, each by one read, and no node.
    ///
    /// Before it touches the log it checks the config: it fails with `CapacityTooSmall` for a capacity below 256, then with `IntervalZero`,
    /// then with `SegmentZero`. The pages that the log recovers have stamp 0. If page 0 of the named roots or page 1 of the counter is
    /// missing, it is added at stamp 1, with no names or with the counter 0, and then everything is made durable. If neither is missing,
    /// nothing is written.
    ///
    /// It fails with `Corruption` without a pointer if there are more than 2^37 pages. Any other `Corruption` has the pointer of the first
    /// message of the first page, by id, that no cache leaves in this form: a page of more than 10 messages, a page 0 that doesn't hold
    /// named roots in one message, or a page 1 that doesn't hold a counter in one message. It fails with `LogFull` if the log has no room
    /// for a missing page; those added before stay. It fails with `Io` if the device failed, and with `OutOfMemory` if an allocation did:
    /// the table takes memory for each page of the log, and for each of its messages.
    ///
    /// An error returns the log, unchanged except for the missing pages that were added before the error. Unless a write failed, a cache
    /// can be opened over it again. A crash during the call leaves what the log held and, of the missing pages that had begun to be added,
    /// a prefix.
    ///
    /// Over every run of openings: [`every_opening_shows_a_prefix`](crate::openings::every_opening_shows_a_prefix).
    #[tactic(auto, using(crate::proofs::Steps::Refusals::no_name))]
    pub fn start(alloc: Global, config: Config, log: L) -> Result<PageCache<L>, (Error, L)>
        requires usable { (L.state log).usable ≡ true }
        requires closed { is_open (L.state log).pending ≡ false }
        ensures settings { (why : Why) → fault_of config ≡ Some why
            → result ≡ Err (Unsupported why, log) }
        ensures opens { fault_of config ≡ None → L.tells → (held : Logged)
            → IsLogged (unplaced_state (L.state log)) held → Opens L.Log log config held result }
        ensures refused { L.tells
            → IfErr result (λ e. RefusesOpening config (now effect_of_entry (L.state log)) e.0) }
        ensures blame { IsBlamedOpening L.Log log result }
        ensures unnamed { IfErr result (λ e. HasNoName e.0) }
        ensures again { IfErr result (λ e. e.0 ≢ Io Write → MayBeOpened L.Log e.1) }
        ensures unread { L.tells → IfOk result (HoldsNoNode L.Log) }
        ensures reads { L.tells → HasRead L.counts log (log_after result)
            (own_among (length (now effect_of_entry (L.state log)))) result }
        ensures bounded { IfOk result (IsBounded L.Log) }
        ensures listed { IfOk result ListsResident }
        ensures closed { IfOk result (λ cache. cache.batch ≡ false) }
    {
        if let Some(why) = config.fault() {
            return Err((Error::Unsupported(why), log));
        }
        let Ok(lru) = Lru::new(alloc, config.cache_capacity) else {
            return Err((Error::OutOfMemory, log));
        };
        let mut sticky_log = StickyLog {
            alloc,
            log,
            fault: false,
            batch: false,
        };
        match open(config, &mut sticky_log) {
            Ok(opening) => Ok(PageCache {
                config,
                recovered: opening.recovered,
                next: opening.next,
                pages: opening.pages,
                free: opening.free,
                writer: Writer {
                    sticky_log,
                    accesses: Accesses {
                        lru,
                        dropped: Dropped::none(alloc),
                    },
                },
                empty: EmptyLeaf::new(alloc),
            }),
            Err(refusal) => Err((Error::from(refusal), sticky_log.log)),
        }
    }

    /// Returns whether both system pages were found in the log when the cache was opened. It doesn't call the log.
    pub fn was_recovered(&self) -> bool
        ensures { result ≡ self.now.recovered }
    {
        self.recovered
    }

    /// Makes everything that is pending in the log durable, and returns how many bytes that wrote.
    ///
    /// It allocates nothing. A log on a disk writes one frame for it, with two syncs, or nothing if nothing is pending. Inside a batch it
    /// fails with `BatchOpen`. The only other error is a write error, which is sticky: every later call returns it until the log is
    /// reopened.
    #[tactic(auto, using(crate::proofs::Steps::Refusals::no_name))]
    pub fn flush(&mut self) -> Result<usize, Error>
        ensures step { Steps L.Log self.old Flush (Flushed result) self.new }
        ensures blame { IsBlamed L.Log self.old self.new result }
        ensures keeps { Keeps self.old self.new result (λ _. self.old.stamps) }
        ensures unread { ReadsNothing L.Log self.old self.new }
        ensures stable { OnOk result ((L.state self.new.log).pending ≡ []) }
        ensures number { IfOk result (λ n. n ≡ L.to_write self.old.log) }
        ensures bounded { IsBounded L.Log self.new }
        ensures same { KeepsMemory self.old self.new }
        ensures unnamed { IfErr result HasNoName }
    {
        if self.writer.sticky_log.fault {
            return Err(Error::Io(Device::Write));
        }
        if self.writer.sticky_log.batch {
            return Err(Error::Unsupported(Why::BatchOpen));
        }
        Ok(self.writer.sticky_log.make_stable()?)
    }

    /// Returns how many bytes the log has. A log on a disk counts the bytes that are written; the log in memory also counts what is
    /// pending.
    ///
    /// It reads no page, and allocates nothing. The only error is an earlier write error.
    pub fn size_on_disk(&self) -> Result<u64, Error>
        ensures step { Steps L.Log self.now SizeOnDisk (Sized result) self.now }
        ensures keeps { Keeps self.now self.now result (λ _. self.now.stamps) }
        ensures size { IfOk result (λ size. size ≡ L.bytes self.now.log) }
        ensures unnamed { IfErr result HasNoName }
    {
        if self.writer.sticky_log.fault {
            return Err(Error::Io(Device::Write));
        }
        Ok(self.writer.sticky_log.log.size())
    }

    /// Ends the cache, of which no batch is open, and returns its log. It flushes nothing, and can't fail.
    ///
    /// Unless there was a write error, a cache can be opened over the log again.
    pub fn into_log(self) -> L
        requires closed { self.batch ≡ false }
        ensures log { result ≡ self.log }
        ensures again { self.fault ≡ false → MayBeOpened L.Log result }
    {
        self.crashed_log()
    }

    /// Returns a reference to the log, for inspection: how often it was read, or what a log on a disk offers besides the calls of `Log`.
    pub fn log(&self) -> &L
        ensures { result.now ≡ self.now.log }
    {
        &self.writer.sticky_log.log
    }

    // Its log as a crash finds it: a batch may be open.
    pub(crate) fn crashed_log(self) -> L
        ensures { result ≡ self.log }
    {
        let writer = self.writer;
        let sticky_log = writer.sticky_log;
        sticky_log.log
    }

    // Every cache has both system pages. Nothing is done.
    pub(crate) fn know_own(&self)
        ensures { 2 ≤ length self.now.stamps }
    {
        let _recovered = self.recovered;
    }

    // What the cache allocates by.
    pub(crate) fn alloc(&self) -> Global {
        self.writer.sticky_log.alloc
    }

    // Every cache lists what lies in memory. Nothing is done.
    pub(crate) fn know_listed(&self)
        ensures { IsBounded L.Log self.now }
    {
        let _recovered = self.recovered;
    }
}

/// Prints the id that the next new page will have, and the ids of the free pages, the greatest first. The output ends with a newline, as in
/// the original.
impl<L: Log> fmt::Debug for PageCache<L> {
    fn fmt<W: fmt::Write>(&self, f: &mut fmt::Formatter<W>) -> fmt::Result {
        let (max, free) = (self.pages.len(), &self.free);
        writeln!(f, "PageCache {{ max: {max} free: {free:?} }}")
    }
}
