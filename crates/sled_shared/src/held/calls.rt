//! The calls of a held cache: each is one entry of the book.
//!
//! Each call first allocates the room of its entry, with copies of its arguments. It returns `BookFull` if the book is at its limit, or if the number
//! of calls would be above the greatest `u64`, and `OutOfMemory` if there is no memory. In these cases it doesn't call the cache, enters nothing, and
//! changes nothing. Otherwise it returns and enters what the cache answers, and the share counts one more.

ghost use Rattle.std.specs.Prelude.{◌≡◌};
ghost use Rattle.sled_pagecache.specs.State.{pid_of};
ghost use Rattle.sled_pagecache.specs.declared.pagecache.handles.call.Answer.TheVariants.{Allocated, Got, Linked, Replaced, Freed, FoundRoot, RootSwapped, Generated, Flushed};
ghost use Rattle.sled_pagecache.specs.declared.pagecache.handles.call.Call.TheVariants.{Allocate, Get, GenerateId, Flush, MetaPidForName, CasRoot};
ghost use Rattle.sled_pagecache.specs.declared.pagecache.handles.call.Call.TheVariants as call;
ghost use Rattle.sled_shared.specs.Calls.{Answered, Asked, Batch, Batched, GetAll, GotAll, OpenTree, Opened, batched, got_all};
ghost use Rattle.sled_shared.specs.Held.{Serves};

use super::Held;
use super::entering::{enter, make_room};
use crate::batch::{make_batch, prepare};
use crate::calls::{Swap, SwapAnswer};
use crate::copies::{
    copy_link, copy_name, copy_node, copy_replacement, copy_root_swap, get_twice, share_name,
};
use crate::entry::Called;
use crate::keeping::{keep, keep_ending, keep_root};
use crate::reads::{plan, read_all};
use crate::share::{Share, Tally};
use sled_base::{Error, IVec, PageId};
use sled_log::Log;
use sled_node::{Link, Node};
use sled_pagecache::{PageView, open_tree};

// Takes the room of one call more in the book of a held cache, unless the book is full.
macro_rules! make_room_in {
    ($held:ident) => {
        make_room(
            $held.alloc,
            &mut $held.entries,
            &mut $held.spare,
            $held.earlier,
            $held.limit,
        )
    };
}

// Enters a call of a held cache, which a share made. This is no method, since the invariant doesn't hold between the cache's answer and the entry.
macro_rules! enter_in {
    ($held:ident, $mine:ident, $called:expr) => {
        enter(
            &mut $held.entries,
            &mut $held.total,
            &mut $held.history,
            $mine,
            $called,
        )
    };
}

impl<L: Log, K: Tally> Held<L, K> {
    /// Puts a node on a free or new page, as [`PageCache::allocate`](sled_pagecache::PageCache::allocate) does.
    pub fn allocate(&mut self, node: Node, mine: &mut Share<K>) -> Result<(PageId, PageView), Error>
        ensures { Serves L.Log self.old mine.old (Asked (Allocate node))
            (Answered (Allocated result)) self.new mine.new }
    {
        make_room_in!(self)?;
        let copy = copy_node(self.alloc, &node)?;
        let answer = self.cache.allocate(node);
        let kept = keep(&answer, &mut self.spare);
        enter_in!(self, mine, Called::Allocate(copy, kept));
        answer
    }

    /// Returns a page's token and a copy of its node, which [`PageCache::get`](sled_pagecache::PageCache::get) returns by reference. If there is no
    /// memory for the copies, the answer is `OutOfMemory`, and it is entered.
    pub fn get(
        &mut self,
        pid: PageId,
        mine: &mut Share<K>,
    ) -> Result<Option<(PageView, Node)>, Error>
        ensures { Serves L.Log self.old mine.old (Asked (Get pid)) (Answered (Got result)) self.new
            mine.new }
    {
        make_room_in!(self)?;
        let (answer, kept) = get_twice(self.alloc, &mut self.cache, pid, &mut self.spare);
        enter_in!(self, mine, Called::Get(pid, kept));
        answer
    }

    /// Reads several pages as one call, each as [`get`](Held::get) does, in the order given. Each answer is of the page at its place.
    ///
    /// At the first page whose read fails the call ends: that error is returned with the answers before it, and both are entered. If there is no
    /// memory for the list of answers, the error is `OutOfMemory` before the first read.
    pub fn get_all(
        &mut self,
        pages: Vec<PageId>,
        mine: &mut Share<K>,
    ) -> Result<Vec<Option<(PageView, Node)>>, (Error, Vec<Option<(PageView, Node)>>)>
        ensures { Serves L.Log self.old mine.old (GetAll pages.items) (GotAll (got_all result))
            self.new mine.new }
    {
        let alloc = self.alloc;
        if let Err(e) = make_room_in!(self) {
            return Err((e, Vec::new(alloc)));
        }
        let Ok(planned) = plan(alloc, pages) else {
            return Err((Error::OutOfMemory, Vec::new(alloc)));
        };
        let (answer, asked, kept) = read_all(alloc, &mut self.cache, planned, &mut self.spare);
        enter_in!(self, mine, Called::GetAll(asked, kept));
        answer
    }

    /// Applies a link to the node of a page, as [`PageCache::link`](sled_pagecache::PageCache::link) does.
    pub fn link(
        &mut self,
        pid: PageId,
        old: PageView,
        link: Link,
        mine: &mut Share<K>,
    ) -> Result<Result<PageView, Option<(PageView, Link)>>, Error>
        requires { pid_of old ≡ pid }
        ensures { Serves L.Log self.old mine.old (Asked (call.Link old link))
            (Answered (Linked result)) self.new mine.new }
    {
        make_room_in!(self)?;
        let copy = copy_link(self.alloc, old, &link)?;
        let answer = self.cache.link(pid, old, link);
        let kept = keep_ending(&answer, &mut self.spare);
        enter_in!(self, mine, Called::Link(copy, kept));
        answer
    }

    /// Replaces what a page holds with a node, as [`PageCache::replace`](sled_pagecache::PageCache::replace) does.
    pub fn replace(
        &mut self,
        pid: PageId,
        old: PageView,
        node: Node,
        mine: &mut Share<K>,
    ) -> Result<Result<PageView, Option<(PageView, Node)>>, Error>
        requires { pid_of old ≡ pid }
        ensures { Serves L.Log self.old mine.old (Asked (call.Replace old node))
            (Answered (Replaced result)) self.new mine.new }
    {
        make_room_in!(self)?;
        let copy = copy_replacement(self.alloc, old, &node)?;
        let answer = self.cache.replace(pid, old, node);
        let kept = keep_ending(&answer, &mut self.spare);
        enter_in!(self, mine, Called::Replace(copy, kept));
        answer
    }

    /// Frees a page, as [`PageCache::free`](sled_pagecache::PageCache::free) does.
    pub fn free(
        &mut self,
        pid: PageId,
        old: PageView,
        mine: &mut Share<K>,
    ) -> Result<Result<PageView, Option<(PageView, ())>>, Error>
        requires { pid_of old ≡ pid }
        ensures { Serves L.Log self.old mine.old (Asked (call.Free old)) (Answered (Freed result))
            self.new mine.new }
    {
        make_room_in!(self)?;
        let answer = self.cache.free(pid, old);
        let kept = keep_ending(&answer, &mut self.spare);
        enter_in!(self, mine, Called::Free(old, kept));
        answer
    }

    /// Returns the next id, as [`PageCache::generate_id_inner`](sled_pagecache::PageCache::generate_id_inner) does.
    pub fn generate_id(&mut self, mine: &mut Share<K>) -> Result<u64, Error>
        ensures { Serves L.Log self.old mine.old (Asked GenerateId) (Answered (Generated result))
            self.new mine.new }
    {
        make_room_in!(self)?;
        let answer = self.cache.generate_id_inner();
        let kept = keep(&answer, &mut self.spare);
        enter_in!(self, mine, Called::GenerateId(kept));
        answer
    }

    /// Makes all that is pending durable, as [`PageCache::flush`](sled_pagecache::PageCache::flush) does.
    pub fn flush(&mut self, mine: &mut Share<K>) -> Result<usize, Error>
        ensures { Serves L.Log self.old mine.old (Asked Flush) (Answered (Flushed result)) self.new
            mine.new }
    {
        make_room_in!(self)?;
        let answer = self.cache.flush();
        let kept = keep(&answer, &mut self.spare);
        enter_in!(self, mine, Called::Flush(kept));
        answer
    }

    /// Gives a name another root, as [`PageCache::cas_root_in_meta`](sled_pagecache::PageCache::cas_root_in_meta) does.
    pub fn cas_root_in_meta(
        &mut self,
        name: &[u8],
        old: Option<PageId>,
        new: Option<PageId>,
        mine: &mut Share<K>,
    ) -> Result<Result<(), Option<PageId>>, Error>
        ensures { Serves L.Log self.old mine.old (Asked (CasRoot name.now old new))
            (Answered (RootSwapped result)) self.new mine.new }
    {
        make_room_in!(self)?;
        let copy = copy_root_swap(self.alloc, name, old, new)?;
        let answer = self.cache.cas_root_in_meta(name, old, new);
        let kept = keep(&answer, &mut self.spare);
        enter_in!(self, mine, Called::CasRoot(copy, kept));
        answer
    }

    /// Returns the root page of a name, as [`PageCache::meta_pid_for_name`](sled_pagecache::PageCache::meta_pid_for_name) does.
    pub fn meta_pid_for_name(&mut self, name: &[u8], mine: &mut Share<K>) -> Result<PageId, Error>
        ensures { Serves L.Log self.old mine.old (Asked (MetaPidForName name.now))
            (Answered (FoundRoot result)) self.new mine.new }
    {
        make_room_in!(self)?;
        let copy = copy_name(self.alloc, name)?;
        let answer = self.cache.meta_pid_for_name(name);
        let kept = keep_root(&answer, &mut self.spare);
        enter_in!(self, mine, Called::MetaPidForName(copy, kept));
        answer
    }

    /// Returns the root page of the tree of this name, and makes a tree if there is none, as [`open_tree`] does.
    pub fn open_tree(&mut self, name: IVec, mine: &mut Share<K>) -> Result<PageId, Error>
        ensures { Serves L.Log self.old mine.old (OpenTree name) (Opened result) self.new mine.new }
    {
        make_room_in!(self)?;
        let copy = share_name(self.alloc, &name)?;
        let answer = open_tree(&mut self.cache, name);
        let kept = keep(&answer, &mut self.spare);
        enter_in!(self, mine, Called::OpenTree(copy, kept));
        answer
    }

    /// Makes swaps in a batch: a crash leaves all of them or nothing. A stale swap has its answer, and doesn't stop the batch.
    ///
    /// If a swap is refused, the batch is cancelled. The error is returned with the answers before it, and a crash may leave a part of these swaps.
    /// If the batch can't be opened or sealed, that error is returned, with no answers or with all of them.
    pub fn batch(
        &mut self,
        swaps: Vec<Swap>,
        mine: &mut Share<K>,
    ) -> Result<Vec<SwapAnswer>, (Error, Vec<SwapAnswer>)>
        ensures { Serves L.Log self.old mine.old (Batch swaps.items) (Batched (batched result))
            self.new mine.new }
    {
        let alloc = self.alloc;
        let room = make_room(
            alloc,
            &mut self.entries,
            &mut self.spare,
            self.earlier,
            self.limit,
        );
        if let Err(e) = room {
            return Err((e, Vec::new(alloc)));
        }
        let Ok(prepared) = prepare(alloc, swaps) else {
            return Err((Error::OutOfMemory, Vec::new(alloc)));
        };
        let (answer, asked, kept) = make_batch(&mut self.cache, prepared, &mut self.spare);
        enter_in!(self, mine, Called::Batch(asked, kept));
        answer
    }
}
