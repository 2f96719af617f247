//! The pages that a log recovers.

ghost use Rattle.std.specs.Prelude.{◌≡◌, ◌≤◌, ◌∷◌, List, IfOk, MatchOption, length, map};
ghost use Rattle.std.specs.List.{AllByRecursion, AllZip};
ghost use Rattle.sled_log.specs.Messages.{Chain};
ghost use Rattle.sled_log.specs.Pages.{IsPageState};
ghost use Rattle.sled_pagecache.specs.Limits.{most_pages};
ghost use Rattle.sled_pagecache.specs.Inside.Loading.{IsLoaded, IsUnread};
ghost use Rattle.sled_pagecache.specs.Inside.PageEntry.{free_ids};
ghost use Rattle.sled_pagecache.specs.Inside.Recovery.{IsRecovered, info_at, is_misfit, AllFit, BeginsMisfit};

use crate::pagecache::table::free_ids::FreeIds;
use crate::pagecache::table::infos::Infos;
use crate::pagecache::table::page_entry::{CacheInfo, Page, PageContent};
use crate::pagecache::table::pagetable::PageTable;
use crate::pagecache::{COUNTER_PID, PAGE_CONSOLIDATION_THRESHOLD};
use sled_base::{DiskPtr, Lsn, PageId, PageState};
use std::alloc::{AllocError, Global};

// The log size of a message that frees a page.
const MAX_MSG_HEADER_LEN: u64 = 17;

// The pages of a table, of which no content lies in memory, and each is at stamp 0.
pub(crate) fn recovered_pages(alloc: Global, states: &[PageState]) -> Result<PageTable, AllocError>
    requires { length states.now ≤ most_pages }
    ensures recovered { IfOk result (λ pages. AllZip IsRecovered states.now pages.pages) }
    ensures loaded { IfOk result (λ pages. (chains : List Chain)
        → AllZip IsPageState chains states.now → AllZip IsLoaded chains pages.pages) }
    ensures unread { IfOk result
        (λ pages. AllByRecursion (λ page. IsUnread page.kept) pages.pages) }
{
    let mut pages = PageTable::default(alloc);
    for (pid, state) in states.iter().enumerate() {
        let page = Page::from_state(alloc, state)?;
        pages
            .insert(pid as PageId, page)
            .map_err(|refused| refused.1)?;
    }
    Ok(pages)
}

impl Page {
    /// Makes a page from what a log reports of it, at stamp 0. Its content isn't in memory. The only error is out of memory.
    pub fn from_state(alloc: Global, state: &PageState) -> Result<Page, AllocError>
        ensures { IfOk result (IsRecovered state.now) }
    {
        match state {
            PageState::Free(lsn, pointer) => Ok(Page {
                stamp: 0,
                infos: Infos::one(info_at((*lsn, *pointer, MAX_MSG_HEADER_LEN))),
                kept: PageContent::Free,
            }),
            PageState::Present { base, frags } => Ok(Page {
                stamp: 0,
                infos: infos_of(alloc, *base, frags)?,
                kept: PageContent::OnLog,
            }),
        }
    }
}

// The places of a chain, as a page keeps them.
fn infos_of(
    alloc: Global,
    base: (Lsn, DiskPtr, u64),
    frags: &[(Lsn, DiskPtr, u64)],
) -> Result<Infos, AllocError>
    ensures { IfOk result (λ infos. infos.items ≡ map info_at (base ∷ frags.now)) }
{
    if frags.is_empty() {
        return Ok(Infos::one(info_at(base)));
    }
    let mut infos = Vec::with_capacity(alloc, frags.len().saturating_add(1))?;
    infos.push(info_at(base))?;
    for frag in frags {
        infos.push(info_at(*frag))?;
    }
    Ok(Infos::several(infos))
}

// The place of a recovered message, as its page keeps it.
fn info_at(place: (Lsn, DiskPtr, u64)) -> CacheInfo
    ensures { result ≡ info_at place }
{
    let (lsn, pointer, log_size) = place;
    CacheInfo {
        ts: 0,
        lsn,
        pointer,
        log_size,
    }
}

// The pointer of the first message of the first page, by id, that no cache leaves so, if there is one.
pub(crate) fn misfit(pages: &PageTable) -> Option<DiskPtr>
    ensures { MatchOption result (AllFit pages.now.pages) (BeginsMisfit pages.now.pages) }
{
    for pid in 0..pages.len() {
        if let Some(page) = pages.get(pid as PageId)
            && is_misfit(pid, page)
        {
            return Some(page.first_info().pointer);
        }
    }
    None
}

// Whether no cache leaves a page so at this id.
pub(crate) fn is_misfit(pid: usize, page: &Page) -> bool
    ensures { result ≡ is_misfit pid page.now }
{
    let len = page.cache_infos().len();
    len > PAGE_CONSOLIDATION_THRESHOLD
        || pid as PageId <= COUNTER_PID && (page.is_free() || len > 1)
}

// The ids of the free pages.
pub(crate) fn free_of(alloc: Global, pages: &PageTable) -> Result<FreeIds, AllocError>
    ensures { IfOk result (λ free. free.ids.keys ≡ free_ids 0 pages.now.pages) }
{
    let mut free = FreeIds::new(alloc);
    for pid in 0..pages.len() as PageId {
        if let Some(page) = pages.get(pid)
            && page.is_free()
        {
            free.put(pid)?;
        }
    }
    Ok(free)
}
