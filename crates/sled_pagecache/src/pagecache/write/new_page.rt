//! Adding a page.

ghost use Rattle.std.specs.Prelude.{◌≡◌, length};
ghost use Rattle.sled_log.specs.Messages.{effect_of_entry};
ghost use Rattle.sled_log.specs.LogState.{now};
ghost use Rattle.sled_pagecache.specs.Inside.Appends.{PutsOnNewPage};
ghost use Rattle.sled_pagecache.specs.Inside.StickyLog.{IsReady};

use crate::pagecache::MAX_PAGES;
use crate::pagecache::memory::accesses::size_with;
use crate::pagecache::table::boxed_node::BoxedNode;
use crate::pagecache::table::infos::Infos;
use crate::pagecache::table::page_entry::{Page, PageContent};
use crate::pagecache::table::pagetable::PageTable;
use crate::pagecache::write::message::write_node;
use crate::pagecache::write::writer::Writer;
use sled_base::{PageId, Refusal, Why};
use sled_log::Log;
use sled_node::Node;

// Puts a node on a new page behind the others, at stamp 1. A refusal leaves the pages.
pub(crate) fn add_page<L: Log>(
    writer: &mut Writer<L>,
    pages: &mut PageTable,
    node: Node,
) -> Result<(), Refusal>
    requires ready { IsReady L.Log writer.old.sticky_log }
    requires there { L.tells
        → length pages.old.pages ≡ length (now effect_of_entry (L.state writer.old.sticky_log.log)) }
    ensures { PutsOnNewPage L.Log node writer.old writer.new
        pages.old.pages pages.new.pages result }
{
    // Every node is well-formed.
    let _ = node.data();
    if pages.len() == MAX_PAGES {
        return Err(Refusal::Unsupported(Why::PagesUsedUp));
    }
    let pid = pages.len() as PageId;
    let Ok(()) = pages.reserve() else {
        return Err(Refusal::OutOfMemory);
    };
    let Ok(held) = BoxedNode::new(writer.sticky_log.alloc, node) else {
        return Err(Refusal::OutOfMemory);
    };
    let size = held.written_size();
    let Ok(()) = writer.accesses.access(pid, size_with(0, size)) else {
        return Err(Refusal::OutOfMemory);
    };
    let info = write_node(&mut writer.sticky_log, pid, &held, size, 1)?;
    pages.push_reserved(Page {
        stamp: 1,
        infos: Infos::one(info),
        kept: PageContent::Node(held),
    });
    Ok(())
}
