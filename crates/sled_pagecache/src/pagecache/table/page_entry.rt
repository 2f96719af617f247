//! Pages as the cache stores them.

ghost use Rattle.std.specs.Prelude.{◌≡◌, ◌+◌, ◌<◌, ◌-◌, ◌^◌, ◌++◌, [], ◌∷◌, min, length, map, slice_get, Some, IfOk, true};
ghost use Rattle.std.specs.List.{sum_by};
ghost use Rattle.sled_pagecache.specs.Infos.{place_of};
ghost use Rattle.sled_pagecache.specs.Infos.{stamps_to};

use crate::pagecache::table::boxed_node::BoxedNode;
use crate::pagecache::table::boxed_roots::BoxedRoots;
use crate::pagecache::table::infos::Infos;
use sled_base::{DiskPtr, Lsn, PageState};
use std::alloc::{AllocError, Global};

/// How a log stores one message of a page: the stamp of the page once the message was appended, or 0 if it was recovered, its place, and
/// its log size in bytes.
#[derive(Clone, Copy, Debug, PartialEq, Eq)]
pub struct CacheInfo {
    /// The stamp of the page once the message was appended, or 0 if the message was recovered.
    pub ts: u64,
    /// The message's place.
    pub lsn: Lsn,
    /// The pointer by which it is read.
    pub pointer: DiskPtr,
    /// How many bytes of the log it takes.
    pub log_size: u64,
}

/// A page of the cache: its stamp, where the log stores the messages that make it, and what it holds, if that is in memory.
#[derive(Debug, Drop)]
pub struct Page {
    pub(crate) stamp: u64,
    // in the order of its chain
    pub(crate) infos: Infos,
    pub(crate) kept: PageContent,
    ghost some: { 0 < length infos.items },
    ghost stamped: { map (λ info. info.ts) infos.items ≡ stamps_to stamp (length infos.items) },
}

/// What a page holds.
#[derive(Debug, Drop)]
pub(crate) enum PageContent {
    Free,
    /// Content that isn't in memory.
    OnLog,
    Counter(u64),
    Roots(BoxedRoots),
    Node(BoxedNode),
}

impl Page {
    ghost use Rattle.sled_pagecache.specs.Table.{is_free, IsSaidBy};
    ghost use Rattle.sled_pagecache.specs.Infos.{IsLast};
    ghost use Rattle.sled_pagecache.specs.Inside.Eviction.{IsPagedOut};

    /// Returns where the log stores the messages that make the page, in the order of its chain.
    pub fn cache_infos(&self) -> &[CacheInfo]
        ensures { result.now ≡ self.now.infos.items }
    {
        self.infos.as_slice()
    }

    /// Returns how many bytes of the log these messages take together, or `u64::MAX` for that number or more.
    pub fn log_size(&self) -> u64
        ensures { sum_by (λ info. info.log_size) self.now.infos.items < 2 ^ 64
            → result ≡ sum_by (λ info. info.log_size) self.now.infos.items }
    {
        total_size(self.cache_infos())
    }

    /// Returns the lsn of the last of these messages.
    pub fn last_lsn(&self) -> Lsn
        ensures { IsLast self.now.infos.items result }
    {
        let infos = self.cache_infos();
        infos[infos.len() - 1].lsn
    }

    // The place of the first of them.
    pub(crate) fn first_info(&self) -> CacheInfo
        ensures { slice_get self.now.infos.items 0 ≡ Some result }
    {
        self.cache_infos()[0]
    }

    /// Returns whether the page is free.
    pub fn is_free(&self) -> bool
        ensures { result ≡ is_free self.now.kept }
    {
        matches!(self.kept, PageContent::Free)
    }

    // Lets go of the node, where one lies in memory.
    pub(crate) fn page_out(&mut self)
        ensures { IsPagedOut self.old self.new }
    {
        if let PageContent::Node(_) = self.kept {
            self.kept = PageContent::OnLog;
        }
    }

    /// Returns the page as a log reports it: by the places of its messages. The only error is out of memory.
    pub fn to_page_state(&self, alloc: Global) -> Result<PageState, AllocError>
        ensures { IfOk result (IsSaidBy self.now) }
    {
        let first = self.first_info();
        if self.is_free() {
            return Ok(PageState::Free(first.lsn, first.pointer));
        }
        let frags = places(alloc, &self.cache_infos()[1..])?;
        Ok(PageState::Present {
            base: place(first),
            frags,
        })
    }
}

impl Clone for Page {
    ghost use Rattle.sled_pagecache.specs.Inside.PageEntry.{IsSame};

    ghost is_clone = { IsSame };

    fn clone(&self) -> Result<Page, AllocError> {
        Ok(Page {
            stamp: self.stamp,
            infos: self.infos.clone()?,
            kept: self.kept.clone()?,
        })
    }
}

impl Clone for PageContent {
    ghost is_clone = { λ v w. w ≡ v };

    fn clone(&self) -> Result<PageContent, AllocError> {
        Ok(match self {
            PageContent::Free => PageContent::Free,
            PageContent::OnLog => PageContent::OnLog,
            PageContent::Counter(n) => PageContent::Counter(*n),
            PageContent::Roots(roots) => PageContent::Roots(roots.clone()?),
            PageContent::Node(node) => PageContent::Node(node.clone()?),
        })
    }
}

// Keeps how a message is kept as the only one of a page, at the next stamp.
pub(crate) fn keep_alone(page: &mut Page, info: CacheInfo)
    requires below { page.old.stamp < 2 ^ 64 - 1 }
    requires stamped { info.ts ≡ page.old.stamp + 1 }
    ensures stamp { page.new.stamp ≡ page.old.stamp + 1 }
    ensures infos { page.new.infos.items ≡ info ∷ [] }
    ensures kept { page.new.kept ≡ page.old.kept }
{
    page.infos.keep_one(info);
    page.stamp += 1;
}

// The same of a page that was moved, whose stamp stays.
pub(crate) fn keep_moved(page: &mut Page, info: CacheInfo)
    requires stamped { info.ts ≡ page.old.stamp }
    ensures stamp { page.new.stamp ≡ page.old.stamp }
    ensures infos { page.new.infos.items ≡ info ∷ [] }
    ensures kept { page.new.kept ≡ page.old.kept }
{
    page.infos.keep_one(info);
}

// Keeps how a message is kept behind the others of a page, at the next stamp.
pub(crate) fn keep_also(page: &mut Page, info: CacheInfo)
    requires below { page.old.stamp < 2 ^ 64 - 1 }
    requires room { page.old.infos.room ≡ true }
    requires stamped { info.ts ≡ page.old.stamp + 1 }
    ensures stamp { page.new.stamp ≡ page.old.stamp + 1 }
    ensures infos { page.new.infos.items ≡ page.old.infos.items ++ info ∷ [] }
    ensures kept { page.new.kept ≡ page.old.kept }
{
    page.infos.push_reserved(info);
    page.stamp += 1;
}

// How much of the log messages take up together, in bytes, or `u64::MAX` where it is no less.
pub(crate) fn total_size(infos: &[CacheInfo]) -> u64
    ensures { result ≡ min (sum_by (λ info. info.log_size) infos.now) (2 ^ 64 - 1) }
{
    let mut total: u64 = 0;
    for info in infos {
        total = total.saturating_add(info.log_size);
    }
    total
}

// The places of messages, as a log says them.
fn places(alloc: Global, infos: &[CacheInfo]) -> Result<Vec<(Lsn, DiskPtr, u64)>, AllocError>
    ensures { IfOk result (λ places. places.items ≡ map place_of infos.now) }
{
    let mut places = Vec::new(alloc);
    for info in infos {
        places.push(place(*info))?;
    }
    Ok(places)
}

// The place of a message, as a log says it.
fn place(info: CacheInfo) -> (Lsn, DiskPtr, u64)
    ensures { result ≡ place_of info }
{
    (info.lsn, info.pointer, info.log_size)
}
