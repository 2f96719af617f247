//! Testing the token of a swap.

ghost use Rattle.std.specs.Prelude.{◌≡◌};
ghost use Rattle.sled_pagecache.specs.Inside.TokenCheck.{Judges, answer_to};
ghost use Rattle.sled_pagecache.specs.Step.{is_reserved};

use crate::pagecache::handles::view::PageView;
use crate::pagecache::table::pagetable::PageTable;
use crate::pagecache::{BATCH_MANIFEST_PID, COUNTER_PID, META_PID};
use sled_base::{Device, Error, PageId, Refusal, Why};

// Why a swap isn't made.
pub(crate) enum Rejection {
    // A write fault is kept, or the page is the cache's own.
    Refused(Refusal),
    // The page is at another stamp, and this is its token.
    Stale(PageView),
    // It is absent or free.
    Gone,
}

impl Rejection {
    // What the swap answers. It hands back what it was given where the page is at another stamp.
    pub(crate) fn answer<R: Drop>(
        self,
        given: R,
    ) -> Result<Result<PageView, Option<(PageView, R)>>, Error>
        ensures { result ≡ answer_to self given }
    {
        match self {
            Rejection::Refused(refusal) => Err(Error::from(refusal)),
            Rejection::Stale(present) => Ok(Err(Some((present, given)))),
            Rejection::Gone => Ok(Err(None)),
        }
    }
}

// Judges the token of a swap. In this order: a kept write fault is answered, the cache's own pages are refused, and then the page
// is gone, stale or at the token's stamp.
pub(crate) fn judge(
    fault: bool,
    pages: &PageTable,
    pid: PageId,
    old: PageView,
) -> Result<(), Rejection>
    ensures { Judges fault pages.now.pages pid old result }
{
    if fault {
        return Err(Rejection::Refused(Refusal::Io(Device::Write)));
    }
    if is_reserved(pid) {
        return Err(Rejection::Refused(Refusal::Unsupported(Why::ReservedId)));
    }
    let Some(page) = pages.get(pid) else {
        return Err(Rejection::Gone);
    };
    if page.is_free() {
        return Err(Rejection::Gone);
    }
    if page.stamp != old.ts() {
        return Err(Rejection::Stale(PageView::new(pid, page.stamp)));
    }
    Ok(())
}

// Whether the page is the cache's own.
pub(crate) fn is_reserved(pid: PageId) -> bool
    ensures { result ≡ is_reserved pid }
{
    pid == META_PID || pid == COUNTER_PID || pid == BATCH_MANIFEST_PID
}
