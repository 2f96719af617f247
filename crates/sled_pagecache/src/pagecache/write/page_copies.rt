//! Writing all pages to another log.

ghost use Rattle.std.specs.Prelude.{◌≡◌, ◌≤◌, ◌<◌, [], false, true, length};
ghost use Rattle.std.specs.List.{AllZip};
ghost use Rattle.sled_log.specs.Contents as contents;
ghost use Rattle.sled_log.specs.Events.{is_open};
ghost use Rattle.sled_log.specs.LogState.{now};
ghost use Rattle.sled_log.specs.Messages.{effect_of_entry};
ghost use Rattle.sled_pagecache.specs.Cache.{chain_at};
ghost use Rattle.sled_pagecache.specs.Inside.PageEntry.{IsKept, is_resident};
ghost use Rattle.sled_pagecache.specs.Inside.PageWrites.{Wrote, content_of};
ghost use Rattle.sled_pagecache.specs.Inside.PageCopies.{Copies, CopiesPage, PutsCopy};
ghost use Rattle.sled_pagecache.specs.Table.{is_free};
ghost use Rattle.sled_pagecache.specs.Inside.StickyLog.{IsReady};

use crate::pagecache::memory::chain::read_node;
use crate::pagecache::table::page_entry::{CacheInfo, Page, PageContent};
use crate::pagecache::table::pagetable::PageTable;
use crate::pagecache::write::message::{
    write_content, write_counter, write_empty_leaf, write_node, write_roots,
};
use crate::pagecache::write::page_move::know_limits;
use crate::pagecache::write::page_swap::payload_size;
use crate::pagecache::write::sticky_log::StickyLog;
use sled_base::{PageId, Refusal};
use sled_log::Log;

// Puts what each page holds on a page of the other log, which holds none yet, by their ids, and makes all of it stable there. A page
// that isn't in memory is read, and let go.
pub(crate) fn copy_pages<L: Log, M: Log>(
    sticky_log: &mut StickyLog<L>,
    pages: &PageTable,
    copy: &mut StickyLog<M>,
) -> Result<(), Refusal>
    requires ready { IsReady L.Log sticky_log.old }
    requires kept { L.tells
        → AllZip IsKept (now effect_of_entry (L.state sticky_log.old.log)) pages.now.pages }
    requires some { 0 < length pages.now.pages }
    requires copy_ready { copy.old.fault ≡ false }
    requires copy_usable { (M.state copy.old.log).usable ≡ true }
    requires closed { is_open (M.state copy.old.log).pending ≡ false }
    requires empty { M.tells → now effect_of_entry (M.state copy.old.log) ≡ [] }
    ensures { Copies L.Log M.Log pages.now.pages sticky_log.old sticky_log.new copy.old copy.new
        result }
{
    for pid in 0..pages.len() {
        let Some(page) = pages.get(pid as PageId) else {
            unreachable!()
        };
        copy_page(sticky_log, pid as PageId, page, copy)?;
    }
    copy.make_stable()?;
    Ok(())
}

// Puts what a page holds on the next new page of the other log. A node that isn't in memory is read, and let go.
fn copy_page<L: Log, M: Log>(
    sticky_log: &mut StickyLog<L>,
    pid: PageId,
    page: &Page,
    copy: &mut StickyLog<M>,
) -> Result<(), Refusal>
    requires ready { IsReady L.Log sticky_log.old }
    requires kept { L.tells → IsKept (chain_at (L.state sticky_log.old.log) pid) page.now }
    requires copy_ready { copy.old.fault ≡ false }
    requires copy_usable { (M.state copy.old.log).usable ≡ true }
    requires next { M.tells → pid ≡ length (now effect_of_entry (M.state copy.old.log)) }
    ensures { CopiesPage L.Log M.Log pid page.now sticky_log.old sticky_log.new copy.old copy.new
        result }
{
    let PageContent::OnLog = page.kept else {
        return put_copy(copy, pid, &page.kept);
    };
    let node = read_node(sticky_log, pid, page.cache_infos())?;
    put_copy(copy, pid, &PageContent::Node(node))
}

// Puts what is in memory of a page on the next new page of a log.
fn put_copy<L: Log>(copy: &mut StickyLog<L>, pid: PageId, kept: &PageContent) -> Result<(), Refusal>
    requires held { is_resident kept.now ≡ true }
    requires ready { IsReady L.Log copy.old }
    requires next { L.tells → pid ≡ length (now effect_of_entry (L.state copy.old.log)) }
    ensures { PutsCopy L.Log pid (content_of kept.now) copy.old copy.new result }
{
    match kept {
        PageContent::Free => put_free(copy, pid),
        _ => {
            put_content(copy, pid, kept)?;
            Ok(())
        }
    }
}

// Puts a free page behind those of a log. No log frees a page that isn't there, so it is put there as an empty leaf first.
fn put_free<L: Log>(copy: &mut StickyLog<L>, pid: PageId) -> Result<(), Refusal>
    requires ready { IsReady L.Log copy.old }
    requires next { L.tells → pid ≡ length (now effect_of_entry (L.state copy.old.log)) }
    ensures { PutsCopy L.Log pid contents.Free copy.old copy.new result }
{
    write_empty_leaf(copy, pid, 0)?;
    write_content(copy, pid, &PageContent::Free, 0, 0)?;
    Ok(())
}

// Writes what is in memory of a page, which isn't free, as the next new page of a log.
fn put_content<L: Log>(
    copy: &mut StickyLog<L>,
    pid: PageId,
    kept: &PageContent,
) -> Result<CacheInfo, Refusal>
    requires held { is_resident kept.now ≡ true }
    requires full { is_free kept.now ≡ false }
    requires ready { IsReady L.Log copy.old }
    requires there { L.tells → pid ≤ length (now effect_of_entry (L.state copy.old.log)) }
    ensures { Wrote L.Log copy.old copy.new pid (contents.Put (content_of kept.now)) 0 result }
{
    know_limits(kept);
    let size = payload_size(kept);
    match kept {
        PageContent::Node(node) => write_node(copy, pid, node, size, 0),
        PageContent::Roots(roots) => write_roots(copy, pid, roots.as_meta(), size, 0),
        PageContent::Counter(n) => write_counter(copy, pid, *n, 0),
        PageContent::Free | PageContent::OnLog => unreachable!(),
    }
}
