//! What leaves memory after a call.

ghost use Rattle.std.specs.Prelude.{◌≡◌, None};
ghost use Rattle.sled_pagecache.specs.Inside.Eviction.{IsOutAt, AreOut, Evicts, lost_by, answer_behind, link_behind, allocation_behind, move_behind};

use crate::pagecache::handles::view::PageView;
use crate::pagecache::memory::accesses::Accesses;
use crate::pagecache::table::pagetable::PageTable;
use crate::pagecache::write::token_check::Rejection;
use sled_base::{Error, PageId, Refusal};

// Ends a swap whose page was written or refused: pages out what the list dropped for it, and with that the page of a refused one.
// It answers the token, which the page has once it was written.
#[inline(always)]
pub(crate) fn end_swap<R: Drop>(
    pages: &mut PageTable,
    accesses: &mut Accesses,
    token: PageView,
    written: Result<(), Refusal>,
) -> Result<Result<PageView, Option<(PageView, R)>>, Error>
    ensures evicts { Evicts accesses.old (lost_by token.pid written) pages.old.pages pages.new.pages
        accesses.new }
    ensures answer { result ≡ answer_behind token written }
{
    match written {
        Ok(()) => {
            evict(pages, accesses, None);
            Ok(Ok(token))
        }
        Err(refusal) => {
            evict(pages, accesses, Some(token.pid()));
            Err(Error::from(refusal))
        }
    }
}

// Ends a link whose page was written or refused, as a swap is ended. It answers the token, and whether the link joined the page's messages.
#[inline(always)]
pub(crate) fn end_link(
    pages: &mut PageTable,
    accesses: &mut Accesses,
    token: PageView,
    linked: Result<bool, Refusal>,
) -> Result<(PageView, bool), Rejection>
    ensures evicts { Evicts accesses.old (lost_by token.pid linked) pages.old.pages pages.new.pages
        accesses.new }
    ensures answer { result ≡ link_behind token linked }
{
    match linked {
        Ok(joins) => {
            evict(pages, accesses, None);
            Ok((token, joins))
        }
        Err(refusal) => {
            evict(pages, accesses, Some(token.pid()));
            Err(Rejection::Refused(refusal))
        }
    }
}

// Ends an allocation whose page was written or refused: pages out what the list dropped for it. It answers the token, which the page
// has once it was written.
pub(crate) fn end_allocation(
    pages: &mut PageTable,
    accesses: &mut Accesses,
    token: PageView,
    written: Result<(), Refusal>,
) -> Result<(PageId, PageView), Error>
    ensures evicts { Evicts accesses.old None pages.old.pages pages.new.pages accesses.new }
    ensures answer { result ≡ allocation_behind token written }
{
    evict(pages, accesses, None);
    match written {
        Ok(()) => Ok((token.pid(), token)),
        Err(refusal) => Err(Error::from(refusal)),
    }
}

// Ends a move whose page was written again or refused, as a swap is ended.
pub(crate) fn end_move(
    pages: &mut PageTable,
    accesses: &mut Accesses,
    pid: PageId,
    moved: Result<(), Refusal>,
) -> Result<bool, Error>
    ensures evicts { Evicts accesses.old (lost_by pid moved) pages.old.pages pages.new.pages
        accesses.new }
    ensures answer { result ≡ move_behind moved }
{
    match moved {
        Ok(()) => {
            evict(pages, accesses, None);
            Ok(true)
        }
        Err(refusal) => {
            evict(pages, accesses, Some(pid));
            Err(Error::from(refusal))
        }
    }
}

// Pages out what the list dropped in the present call, and with it the page whose append was refused then.
pub(crate) fn evict(pages: &mut PageTable, accesses: &mut Accesses, lost: Option<PageId>)
    ensures { Evicts accesses.old lost pages.old.pages pages.new.pages accesses.new }
{
    if let Some(dropped) = accesses.dropped.ids() {
        page_out(pages, dropped);
        accesses.dropped.forget();
        if let Some(pid) = lost {
            page_out_at(pages, pid);
        }
    }
}

// Pages out the nodes at these ids, as far as they lie in memory. The cache's own pages and free ones stay as they are.
fn page_out(pages: &mut PageTable, pids: &[PageId])
    ensures { AreOut pids.now pages.old.pages pages.new.pages }
{
    for pid in pids {
        page_out_at(pages, *pid);
    }
}

// Pages out the node at an id, if one lies in memory there.
fn page_out_at(pages: &mut PageTable, pid: PageId)
    ensures { IsOutAt pid pages.old.pages pages.new.pages }
{
    if pid < pages.len() as PageId {
        pages.get_mut(pid).page_out();
    }
}
