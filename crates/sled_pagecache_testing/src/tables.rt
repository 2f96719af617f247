//! A table of free pages, each with the lsn of its id.

ghost use Rattle.std.specs.Prelude.{◌≡◌, ◌+◌, ◌<◌, ◌≤◌, length, IfOk};
ghost use Rattle.sled_pagecache.specs.Limits.{most_pages};

use sled_base::{DiskPtr, Lsn, PageId, PageState};
use sled_pagecache::{Page, PageTable};
use std::alloc::{AllocError, Global};

/// Makes a free page, which was freed by a message of this lsn.
pub fn page(alloc: Global, lsn: Lsn) -> Result<Page, AllocError> {
    Page::from_state(alloc, &PageState::Free(lsn, DiskPtr::Inline(0)))
}

// Puts a page in at an id, a second time where memory was wanting the first time.
fn put_in(table: &mut PageTable, pid: PageId, page: Page) -> Result<(), AllocError>
    requires next { pid ≡ length table.old.pages }
    requires few { pid < most_pages }
    ensures { IfOk result (λ _. length table.new.pages ≡ pid + 1) }
{
    let Err((page, _)) = table.insert(pid, page) else {
        return Ok(());
    };
    table.insert(pid, page).map_err(|refused| refused.1)
}

/// Makes a table of `count` free pages.
pub fn table_of(alloc: Global, count: u64) -> Result<PageTable, AllocError>
    requires { count ≤ most_pages }
    ensures { IfOk result (λ table. length table.pages ≡ count) }
{
    let mut table = PageTable::default(alloc);
    for pid in 0..count {
        put_in(&mut table, pid, page(alloc, pid as Lsn)?)?;
    }
    Ok(table)
}

/// Returns the lsn of the page at an id, if there is one.
pub fn lsn_at(table: &PageTable, pid: PageId) -> Option<Lsn> {
    table.get(pid).map(|page| page.last_lsn())
}
