//! How much the pages of a table would take if each were stored by its content only.

ghost use Rattle.std.specs.Prelude.{◌≡◌, ◌≤◌, ◌*◌, ◌-◌, ◌^◌, length, min, IfOk, IfErr};
ghost use Rattle.std.specs.List.{AllZip, sum_by};
ghost use Rattle.sled_log.specs.LogState.{now};
ghost use Rattle.sled_log.specs.Messages.{effect_of_entry};
ghost use Rattle.sled_pagecache.specs.Cache.{chain_at};
ghost use Rattle.sled_pagecache.specs.Inside.PageEntry.{IsKept};
ghost use Rattle.sled_pagecache.specs.Inside.Measurements.{IsSizeOf, Weighs, ReadsLog, RefusesAway, RefusesSome, messages_to_read, page_live};
ghost use Rattle.sled_pagecache.specs.Inside.StickyLog.{IsReady};

use crate::pagecache::memory::chain::read_node;
use crate::pagecache::table::page_entry::{Page, PageContent, total_size};
use crate::pagecache::table::pagetable::PageTable;
use crate::pagecache::write::sticky_log::StickyLog;
use sled_base::{PageId, Refusal};
use sled_log::Log;

// How much a counter takes.
const COUNTER_BYTES: u64 = 8;

// How much the pages take together. Those that don't lie in memory are read, and stay as they are.
pub(crate) fn total_rss<L: Log>(
    sticky_log: &mut StickyLog<L>,
    pages: &PageTable,
) -> Result<u128, Refusal>
    requires ready { IsReady L.Log sticky_log.old }
    requires kept { L.tells
        → AllZip IsKept (now effect_of_entry (L.state sticky_log.old.log)) pages.now.pages }
    ensures read { ReadsLog L.Log sticky_log.old sticky_log.new
        (sum_by messages_to_read pages.now.pages) result }
    ensures total { L.tells
        → IfOk result (Weighs (now effect_of_entry (L.state sticky_log.old.log))) }
    ensures few { IfOk result (λ total. total ≤ length pages.now.pages * 2 ^ 64) }
    ensures refused { L.tells → IfErr result
        (RefusesSome (chain_at (L.state sticky_log.old.log)) pages.now.pages) }
{
    let mut total: u128 = 0;
    for pid in 0..pages.len() {
        let Some(page) = pages.get(pid as PageId) else {
            unreachable!()
        };
        total += page_rss(sticky_log, pid as PageId, page)? as u128;
    }
    Ok(total)
}

// How much a page takes. A node that doesn't lie in memory is read, and let go.
fn page_rss<L: Log>(sticky_log: &mut StickyLog<L>, pid: PageId, page: &Page) -> Result<u64, Refusal>
    requires ready { IsReady L.Log sticky_log.old }
    requires kept { L.tells → IsKept (chain_at (L.state sticky_log.old.log) pid) page.now }
    ensures read { ReadsLog L.Log sticky_log.old sticky_log.new (messages_to_read page.now) result }
    ensures size { L.tells
        → IfOk result (IsSizeOf (chain_at (L.state sticky_log.old.log) pid)) }
    ensures refused { L.tells → IfErr result
        (RefusesAway (chain_at (L.state sticky_log.old.log) pid) page.now) }
{
    match &page.kept {
        PageContent::Free => Ok(0),
        PageContent::OnLog => Ok(read_node(sticky_log, pid, page.cache_infos())?.rss(
            sticky_log.alloc,
        )),
        PageContent::Counter(_) => Ok(COUNTER_BYTES),
        PageContent::Roots(roots) => Ok(roots.as_meta().rss()),
        PageContent::Node(node) => Ok(node.rss(sticky_log.alloc)),
    }
}

// How much of the log the messages take that make the pages, in bytes, or `u64::MAX` where it is no less.
pub(crate) fn live_size(pages: &PageTable) -> u64
    ensures { result ≡ min (sum_by page_live pages.now.pages) (2 ^ 64 - 1) }
{
    let mut total: u64 = 0;
    for pid in 0..pages.len() {
        let Some(page) = pages.get(pid as PageId) else {
            unreachable!()
        };
        total = total.saturating_add(page_live(page));
    }
    total
}

// How much of the log the messages of a page take, or nothing of a free one.
fn page_live(page: &Page) -> u64
    ensures { result ≡ min (page_live page.now) (2 ^ 64 - 1) }
{
    match page.kept {
        PageContent::Free => 0,
        _ => total_size(page.cache_infos()),
    }
}
