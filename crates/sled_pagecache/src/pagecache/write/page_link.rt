//! A link that is applied to the node of a page in memory and written to the log.

ghost use Rattle.std.specs.Prelude.{◌≡◌, ◌-◌, ◌^◌, ◌<◌, ◌≤◌, ◌↔◌, true, length, IsTrue};
ghost use Rattle.sled_log.specs.Messages.{effect_of_entry};
ghost use Rattle.sled_log.specs.LogState.{now};
ghost use Rattle.sled_node.specs.Links.{Accepts};
ghost use Rattle.sled_node.specs.Payloads.Links.{CanWriteLink};
ghost use Rattle.sled_pagecache.specs.Cache.{chain_at};
ghost use Rattle.sled_pagecache.specs.Limits.{most_messages};
ghost use Rattle.sled_pagecache.specs.Inside.LinkWrites.{LinksPage, AcceptsAt};
ghost use Rattle.sled_pagecache.specs.Inside.PageEntry.{IsKept};
ghost use Rattle.sled_pagecache.specs.Inside.StickyLog.{IsReady};

use crate::pagecache::PAGE_CONSOLIDATION_THRESHOLD;
use crate::pagecache::memory::accesses::size_with;
use crate::pagecache::table::boxed_node::BoxedNode;
use crate::pagecache::table::page_entry::{Page, PageContent, keep_alone, keep_also, total_size};
use crate::pagecache::write::message::{write_link, write_node};
use crate::pagecache::write::writer::Writer;
use sled_base::{Bug, PageId, Refusal, Serialize, Why};
use sled_log::Log;
use sled_node::Link;
use std::alloc::Global;

// Applies a link to the node of a page and writes it to the log, and answers whether it joins the messages that make the page. Where they
// are 10, the node that it makes takes their place. A refused append may leave the page out of memory.
//
// `Corruption` comes where no node of the page is in memory, and `LinkRefused` where the node doesn't accept the link.
pub(crate) fn link_page<L: Log>(
    writer: &mut Writer<L>,
    pid: PageId,
    page: &mut Page,
    link: &Link,
) -> Result<bool, Refusal>
    requires ready { IsReady L.Log writer.old.sticky_log }
    requires there { L.tells → pid < length (now effect_of_entry (L.state writer.old.sticky_log.log)) }
    requires kept { L.tells → IsKept (chain_at (L.state writer.old.sticky_log.log) pid) page.old }
    ensures { LinksPage L.Log writer.old pid page.old link.now writer.new page.new result }
{
    let PageContent::Node(node) = &page.kept else {
        return Err(Refusal::Corruption(None));
    };
    if !accepts(writer.sticky_log.alloc, node, link) {
        return Err(Refusal::ReportableBug(Bug::LinkRefused));
    }
    if page.stamp == u64::MAX {
        return Err(Refusal::Unsupported(Why::StampUsedUp));
    }
    if page.infos.len() < PAGE_CONSOLIDATION_THRESHOLD {
        return join_link(writer, pid, page, link);
    }
    put_linked(writer, pid, page, link)
}

// Whether the node accepts the link, which can be written then.
fn accepts(alloc: Global, node: &BoxedNode, link: &Link) -> bool
    ensures accepted { IsTrue result ↔ Accepts node.now link.now }
    ensures can_write { result ≡ true → CanWriteLink link.now }
{
    match link {
        // It is read here, which shows that it has 64 bits.
        Link::ParentMergeIntention(page) => {
            let _page = *page;
            node.accepts(alloc, link)
        }
        _ => node.accepts(alloc, link),
    }
}

// Applies a link that the page's node accepts, and appends it to the log as one more message of the page.
#[inline(always)]
fn join_link<L: Log>(
    writer: &mut Writer<L>,
    pid: PageId,
    page: &mut Page,
    link: &Link,
) -> Result<bool, Refusal>
    requires accepted { AcceptsAt page.old.kept link.now }
    requires can_write { CanWriteLink link.now }
    requires below { page.old.stamp < 2 ^ 64 - 1 }
    requires few { length page.old.infos.items < most_messages }
    requires ready { IsReady L.Log writer.old.sticky_log }
    requires there { L.tells → pid < length (now effect_of_entry (L.state writer.old.sticky_log.log)) }
    requires kept { L.tells → IsKept (chain_at (L.state writer.old.sticky_log.log) pid) page.old }
    ensures { LinksPage L.Log writer.old pid page.old link.now writer.new page.new result }
{
    let PageContent::Node(node) = &mut page.kept else {
        unreachable!();
    };
    let Ok(()) = page.infos.reserve(writer.sticky_log.alloc) else {
        return Err(Refusal::OutOfMemory);
    };
    let Ok(()) = node.apply(writer.sticky_log.alloc, link) else {
        return Err(Refusal::OutOfMemory);
    };
    let size = link.serialized_size();
    let taken = size_with(total_size(page.infos.as_slice()), size);
    let Ok(()) = writer.accesses.access(pid, taken) else {
        page.kept = PageContent::OnLog;
        return Err(Refusal::OutOfMemory);
    };
    match write_link(&mut writer.sticky_log, pid, link, size, page.stamp + 1) {
        Ok(info) => {
            keep_also(page, info);
            Ok(true)
        }
        Err(refusal) => {
            page.kept = PageContent::OnLog;
            Err(refusal)
        }
    }
}

// Applies a link that the page's node accepts, and puts the node that it makes on the page, in place of its messages.
fn put_linked<L: Log>(
    writer: &mut Writer<L>,
    pid: PageId,
    page: &mut Page,
    link: &Link,
) -> Result<bool, Refusal>
    requires accepted { AcceptsAt page.old.kept link.now }
    requires below { page.old.stamp < 2 ^ 64 - 1 }
    requires many { most_messages ≤ length page.old.infos.items }
    requires ready { IsReady L.Log writer.old.sticky_log }
    requires there { L.tells → pid < length (now effect_of_entry (L.state writer.old.sticky_log.log)) }
    requires kept { L.tells → IsKept (chain_at (L.state writer.old.sticky_log.log) pid) page.old }
    ensures { LinksPage L.Log writer.old pid page.old link.now writer.new page.new result }
{
    let PageContent::Node(node) = &mut page.kept else {
        unreachable!();
    };
    let Ok(()) = node.apply(writer.sticky_log.alloc, link) else {
        return Err(Refusal::OutOfMemory);
    };
    let size = node.written_size();
    let Ok(()) = writer.accesses.access(pid, size_with(0, size)) else {
        page.kept = PageContent::OnLog;
        return Err(Refusal::OutOfMemory);
    };
    match write_node(&mut writer.sticky_log, pid, node, size, page.stamp + 1) {
        Ok(info) => {
            keep_alone(page, info);
            Ok(false)
        }
        Err(refusal) => {
            page.kept = PageContent::OnLog;
            Err(refusal)
        }
    }
}
