//! The cache that threads share: the held cache under one lock.

ghost use Rattle.std.specs.Prelude.{◌≡◌, ◌<◌, false, IfOk, IfErr, IfSome, sum_by};
ghost use Rattle.sled_base.specs.declared.types.Error.TheVariants.{OutOfMemory};
ghost use Rattle.sled_pagecache.specs.State.{pid_of};
ghost use Rattle.sled_pagecache.specs.Trees.{IsKnown};
ghost use Rattle.sled_shared.specs.Book.{IsLegal};
ghost use Rattle.sled_pagecache.specs.declared.pagecache.handles.call.Answer.TheVariants.{Allocated, Got, Linked, Replaced, Freed, FoundRoot, RootSwapped, Generated, Flushed};
ghost use Rattle.sled_pagecache.specs.declared.pagecache.handles.call.Call.TheVariants.{Allocate, Get, GenerateId, Flush, MetaPidForName, CasRoot};
ghost use Rattle.sled_pagecache.specs.declared.pagecache.handles.call.Call.TheVariants as call;
ghost use Rattle.sled_shared.specs.Calls.{Answered, Asked, Batch, Batched, GetAll, GotAll, OpenTree, Opened, batched, got_all};
ghost use Rattle.sled_shared.specs.Held.{AreOfBook, IsBookOf, ReplaysIn, Tells, calls_of, count_of};

use crate::book::Book;
use crate::calls::{Swap, SwapAnswer};
use crate::held::Held;
use crate::share::{Blank, Share, Tally};
use sled_base::{Error, IVec, PageId};
use sled_log::Log;
use sled_node::{Link, Node};
use sled_pagecache::{PageCache, PageView};
use std::alloc::Global;
use std::marker::Model;
use std::sync::{Mutex, Wait};

/// A page cache for many threads: a [`Held`] under a lock.
///
/// A call that takes a share makes the call of [`Held`] of the same name while it holds the lock. So it may block on other threads. Neither the
/// order of the threads nor the time of a wait is promised.
///
/// A call returns `BookFull` if the book is at its limit, and `OutOfMemory` also if there is no memory for the entry. With one of these two errors
/// the call may have been left out, and then nothing changed. With any other result the call is entered, and counts once in the share. An entered
/// call is in one history of all calls, which exists only in the proofs: once, with the answer that the caller got, and after all that the share
/// had seen.
///
/// In contracts, the value of a shared cache is only whether the cache was recovered, since what is under the lock may change at any time.
#[derive(Drop)]
pub struct SharedPageCache<L: Log, K: Tally> {
    recovered: bool,
    held: Mutex<Held<L, K>>,
}

impl<L: Log, K: Tally> Model for SharedPageCache<L, K> {
    ghost use Rattle.std.specs.Prelude.{Bool};

    ghost Value = { Bool };

    ghost view = { λ s. s.recovered };
}

impl<L: Log, K: Tally> SharedPageCache<L, K> {
    /// Shares a cache that has no open batch. A book has at most `limit` entries. There is one share less than the ledger has parts.
    ///
    /// `blank` is that of the ledger, with the same number of `parts`. `OutOfMemory` returns the cache.
    pub fn over(
        alloc: Global,
        cache: PageCache<L>,
        limit: usize,
        parts: u64,
        blank: Blank,
    ) -> Result<SharedPageCache<L, K>, (Error, PageCache<L>)>
        requires name { (blank.name ≡ K.name) × (blank.history ≡ K.history) }
        requires parts { (blank.parts ≡ parts) × (K.parts ≡ parts) × (0 < parts) }
        requires closed { cache.batch ≡ false }
        requires known { K.known → L.tells → IsKnown L.Log cache }
        ensures ok { IfOk result (λ s. s ≡ cache.recovered) }
        ensures err { IfErr result (λ e. (e.0 ≡ OutOfMemory) × (e.1 ≡ cache)) }
    {
        let held = Held::over(alloc, cache, limit, parts, blank)?;
        Ok(SharedPageCache::of(held))
    }

    /// Puts a held cache under a lock. The shares that were taken of it stay valid.
    pub fn of(held: Held<L, K>) -> SharedPageCache<L, K>
        ensures { result ≡ held.cache.recovered }
    {
        SharedPageCache {
            recovered: held.was_recovered(),
            held: Mutex::new(held),
        }
    }

    /// Returns a share for one more thread, or `None` if all were given out. It may block on the lock.
    pub fn share<R: Wait>(&self, rt: &R) -> Option<Share<K>>
        ensures { IfSome result (λ s. count_of s ≡ 0) }
    {
        self.held.lock(rt).share()
    }

    /// Returns whether both system pages were found in the log when the cache was opened. It takes no lock.
    pub fn was_recovered(&self) -> bool
        ensures { result ≡ self.now }
    {
        self.recovered
    }

    /// Puts a node on a free or new page, and returns the page's id and token.
    #[tactic(auto, using(crate::proofs::Replays::serves_tells))]
    pub fn allocate<R: Wait>(
        &self,
        rt: &R,
        node: Node,
        mine: &mut Share<K>,
    ) -> Result<(PageId, PageView), Error>
        ensures told { Tells mine.old (Asked (Allocate node)) (Answered (Allocated result)) mine.new }
    {
        self.held.lock(rt).allocate(node, mine)
    }

    /// Returns a page's token and a copy of its node, or `None` if the page is absent or free.
    #[tactic(auto, using(crate::proofs::Replays::serves_tells))]
    pub fn get<R: Wait>(
        &self,
        rt: &R,
        pid: PageId,
        mine: &mut Share<K>,
    ) -> Result<Option<(PageView, Node)>, Error>
        ensures told { Tells mine.old (Asked (Get pid)) (Answered (Got result)) mine.new }
    {
        self.held.lock(rt).get(pid, mine)
    }

    /// Reads several pages as one call, in the order given: the lock is taken once, and no call of another share comes between the reads. Each
    /// answer is that of [`get`](SharedPageCache::get) for the page at its place.
    ///
    /// At the first page whose read fails the call ends: that error is returned with the answers before it.
    #[tactic(auto, using(crate::proofs::Replays::serves_tells))]
    pub fn get_all<R: Wait>(
        &self,
        rt: &R,
        pages: Vec<PageId>,
        mine: &mut Share<K>,
    ) -> Result<Vec<Option<(PageView, Node)>>, (Error, Vec<Option<(PageView, Node)>>)>
        ensures told { Tells mine.old (GetAll pages.items) (GotAll (got_all result)) mine.new }
    {
        self.held.lock(rt).get_all(pages, mine)
    }

    /// Applies a link to the node of a page that is still at the token's stamp, and returns the new token. Otherwise it returns the current token and
    /// the link as the inner error, or `None` if the page is absent or free.
    #[tactic(auto, using(crate::proofs::Replays::serves_tells))]
    pub fn link<R: Wait>(
        &self,
        rt: &R,
        pid: PageId,
        old: PageView,
        link: Link,
        mine: &mut Share<K>,
    ) -> Result<Result<PageView, Option<(PageView, Link)>>, Error>
        requires { pid_of old ≡ pid }
        ensures told { Tells mine.old (Asked (call.Link old link)) (Answered (Linked result)) mine.new }
    {
        self.held.lock(rt).link(pid, old, link, mine)
    }

    /// Replaces the node of a page that is still at the token's stamp, and returns the new token. Otherwise it returns the current token and the node
    /// as the inner error, or `None` if the page is absent or free.
    #[tactic(auto, using(crate::proofs::Replays::serves_tells))]
    pub fn replace<R: Wait>(
        &self,
        rt: &R,
        pid: PageId,
        old: PageView,
        node: Node,
        mine: &mut Share<K>,
    ) -> Result<Result<PageView, Option<(PageView, Node)>>, Error>
        requires { pid_of old ≡ pid }
        ensures told { Tells mine.old (Asked (call.Replace old node)) (Answered (Replaced result)) mine.new }
    {
        self.held.lock(rt).replace(pid, old, node, mine)
    }

    /// Frees a page that is still at the token's stamp, and returns the new token. Otherwise it returns the current token as the inner error, or
    /// `None` if the page is absent or free.
    #[tactic(auto, using(crate::proofs::Replays::serves_tells))]
    pub fn free<R: Wait>(
        &self,
        rt: &R,
        pid: PageId,
        old: PageView,
        mine: &mut Share<K>,
    ) -> Result<Result<PageView, Option<(PageView, ())>>, Error>
        requires { pid_of old ≡ pid }
        ensures told { Tells mine.old (Asked (call.Free old)) (Answered (Freed result)) mine.new }
    {
        self.held.lock(rt).free(pid, old, mine)
    }

    /// Returns the next id.
    #[tactic(auto, using(crate::proofs::Replays::serves_tells))]
    pub fn generate_id<R: Wait>(&self, rt: &R, mine: &mut Share<K>) -> Result<u64, Error>
        ensures told { Tells mine.old (Asked GenerateId) (Answered (Generated result)) mine.new }
    {
        self.held.lock(rt).generate_id(mine)
    }

    /// Makes all that is pending durable, and returns the number of bytes written.
    #[tactic(auto, using(crate::proofs::Replays::serves_tells))]
    pub fn flush<R: Wait>(&self, rt: &R, mine: &mut Share<K>) -> Result<usize, Error>
        ensures told { Tells mine.old (Asked Flush) (Answered (Flushed result)) mine.new }
    {
        self.held.lock(rt).flush(mine)
    }

    /// Gives a name the root `new`, or removes the name if `new` is `None`, if its root is still `old`. Otherwise it returns the current root as the
    /// inner error.
    #[tactic(auto, using(crate::proofs::Replays::serves_tells))]
    pub fn cas_root_in_meta<R: Wait>(
        &self,
        rt: &R,
        name: &[u8],
        old: Option<PageId>,
        new: Option<PageId>,
        mine: &mut Share<K>,
    ) -> Result<Result<(), Option<PageId>>, Error>
        ensures told { Tells mine.old (Asked (CasRoot name.now old new)) (Answered (RootSwapped result)) mine.new }
    {
        self.held.lock(rt).cas_root_in_meta(name, old, new, mine)
    }

    /// Returns the root page of a name, or the error `CollectionNotFound`, with the name, if it has none.
    #[tactic(auto, using(crate::proofs::Replays::serves_tells))]
    pub fn meta_pid_for_name<R: Wait>(
        &self,
        rt: &R,
        name: &[u8],
        mine: &mut Share<K>,
    ) -> Result<PageId, Error>
        ensures told { Tells mine.old (Asked (MetaPidForName name.now)) (Answered (FoundRoot result)) mine.new }
    {
        self.held.lock(rt).meta_pid_for_name(name, mine)
    }

    /// Returns the root page of the tree of this name, and makes a tree if the name has no root.
    #[tactic(auto, using(crate::proofs::Replays::serves_tells))]
    pub fn open_tree<R: Wait>(
        &self,
        rt: &R,
        name: IVec,
        mine: &mut Share<K>,
    ) -> Result<PageId, Error>
        ensures told { Tells mine.old (OpenTree name) (Opened result) mine.new }
    {
        self.held.lock(rt).open_tree(name, mine)
    }

    /// Makes swaps in a batch: a crash leaves all of them or nothing. A stale swap has its answer, and doesn't stop the batch.
    ///
    /// If a swap is refused, the batch is cancelled. The error is returned with the answers before it, and a crash may leave a part of these swaps.
    /// If the batch can't be opened or sealed, that error is returned, with no answers or with all of them.
    #[tactic(auto, using(crate::proofs::Replays::serves_tells))]
    pub fn batch<R: Wait>(
        &self,
        rt: &R,
        swaps: Vec<Swap>,
        mine: &mut Share<K>,
    ) -> Result<Vec<SwapAnswer>, (Error, Vec<SwapAnswer>)>
        ensures told { Tells mine.old (Batch swaps.items) (Batched (batched result)) mine.new }
    {
        self.held.lock(rt).batch(swaps, mine)
    }

    /// Ends a round, and returns its book. The next round begins with the cache's shape at the end of this one. It works after a write error too.
    /// `OutOfMemory` changes nothing. It may block on the lock.
    pub fn take_book<R: Wait>(&self, rt: &R) -> Result<Book, Error>
        ensures legal { K.known → L.tells → IfOk result IsLegal }
        ensures err { IfErr result (λ e. e ≡ OutOfMemory) }
    {
        self.held.lock(rt).take_book()
    }

    /// Ends the last round, if all shares are passed in. It returns the cache, the last book, and the number of calls that were entered in all. If a
    /// share is missing, it returns the shared cache and the shares as the error.
    pub fn close(
        self,
        shares: Vec<Share<K>>,
    ) -> Result<(PageCache<L>, Book, u64), (SharedPageCache<L, K>, Vec<Share<K>>)>
        ensures of { IfOk result (λ r. IsBookOf L.Log K.known r.1 r.0) }
        ensures legal { K.known → L.tells → IfOk result (λ r. ReplaysIn L.Log r.1 r.0) }
        ensures closed { IfOk result (λ r. r.0.batch ≡ false) }
        ensures total { IfOk result (λ r. (r.2 ≡ calls_of r.1) × (r.2 ≡ sum_by count_of shares.items)) }
        ensures history { IfOk result (λ r. AreOfBook shares.items r.1) }
        ensures err { IfErr result (λ back. (back.0 ≡ self) × (back.1 ≡ shares)) }
    {
        let SharedPageCache { recovered, held } = self;
        match held.into_inner().close(shares) {
            Ok(closed) => Ok(closed),
            Err((held, shares)) => {
                let held = Mutex::new(held);
                Err((SharedPageCache { recovered, held }, shares))
            }
        }
    }
}
