//! The swaps of a page, written to the log: putting a content or a node on it, freeing it, and reusing a free page.

ghost use Rattle.std.specs.Prelude.{◌≡◌, ◌≢◌, ◌-◌, ◌<◌, length, OnOk, OnErr, take};
ghost use Rattle.std.specs.BTreeSet.{insert_key};
ghost use Rattle.std.specs.List.{AllByRecursion};
ghost use Rattle.std.specs.Ordering.{nat_cmp};
ghost use Rattle.sled_log.specs.Contents as contents;
ghost use Rattle.sled_log.specs.Messages.{effect_of_entry};
ghost use Rattle.sled_log.specs.Reading.{IsUpdate};
ghost use Rattle.sled_log.specs.LogState.{now};
ghost use Rattle.sled_log.specs.Reading.{message_of};
ghost use Rattle.sled_pagecache.specs.Inside.Appends.{Puts};
ghost use Rattle.sled_pagecache.specs.Inside.PageWrites.{CanPut, content_of};
ghost use Rattle.sled_pagecache.specs.Inside.StickyLog.{IsReady};
ghost use Rattle.sled_pagecache.specs.declared.pagecache.table.page_entry.PageContent.TheVariants as page_content;

use crate::pagecache::memory::accesses::size_with;
use crate::pagecache::table::boxed_node::BoxedNode;
use crate::pagecache::table::free_ids::FreeIds;
use crate::pagecache::table::page_entry::{Page, PageContent, keep_alone};
use crate::pagecache::write::message::write_content;
use crate::pagecache::write::writer::Writer;
use sled_base::{PageId, Refusal, Serialize, Why};
use sled_log::Log;
use sled_node::Node;

// Puts a content on a page in place of what it held. A refusal leaves the page.
pub(crate) fn put_page<L: Log>(
    writer: &mut Writer<L>,
    pid: PageId,
    page: &mut Page,
    kept: PageContent,
) -> Result<(), Refusal>
    requires can_put { CanPut kept }
    requires ready { IsReady L.Log writer.old.sticky_log }
    requires there { L.tells → pid < length (now effect_of_entry (L.state writer.old.sticky_log.log)) }
    ensures { Puts L.Log pid kept writer.old writer.new page.old page.new result }
{
    let payload = payload_size(&kept);
    if page.stamp == u64::MAX {
        return Err(Refusal::Unsupported(Why::StampUsedUp));
    }
    let Ok(()) = writer.accesses.access(pid, size_with(0, payload)) else {
        return Err(Refusal::OutOfMemory);
    };
    let info = write_content(&mut writer.sticky_log, pid, &kept, payload, page.stamp + 1)?;
    page.kept = kept;
    keep_alone(page, info);
    Ok(())
}

// Puts a node on a page in place of what it held. A refusal leaves the page.
pub(crate) fn put_node<L: Log>(
    writer: &mut Writer<L>,
    pid: PageId,
    page: &mut Page,
    node: Node,
) -> Result<(), Refusal>
    requires ready { IsReady L.Log writer.old.sticky_log }
    requires there { L.tells → pid < length (now effect_of_entry (L.state writer.old.sticky_log.log)) }
    ensures { Puts L.Log pid (page_content.Node node) writer.old writer.new page.old page.new result }
{
    // Every node is well-formed.
    let _ = node.data();
    if page.stamp == u64::MAX {
        return Err(Refusal::Unsupported(Why::StampUsedUp));
    }
    let Ok(held) = BoxedNode::new(writer.sticky_log.alloc, node) else {
        return Err(Refusal::OutOfMemory);
    };
    put_page(writer, pid, page, PageContent::Node(held))
}

// Frees a page, and puts its id among those of the free ones. A refusal leaves both.
pub(crate) fn free_page<L: Log>(
    writer: &mut Writer<L>,
    free: &mut FreeIds,
    pid: PageId,
    page: &mut Page,
) -> Result<(), Refusal>
    requires lacks { AllByRecursion (λ id. id ≢ pid) free.old.ids.keys }
    requires ready { IsReady L.Log writer.old.sticky_log }
    requires there { L.tells → pid < length (now effect_of_entry (L.state writer.old.sticky_log.log)) }
    ensures freed { OnOk result (free.new.ids.keys ≡ insert_key nat_cmp free.old.ids.keys pid) }
    ensures unfreed { OnErr result (free.new.ids.keys ≡ free.old.ids.keys) }
    ensures put { Puts L.Log pid page_content.Free writer.old writer.new page.old page.new result }
{
    if page.stamp == u64::MAX {
        return Err(Refusal::Unsupported(Why::StampUsedUp));
    }
    let Ok(()) = free.put(pid) else {
        return Err(Refusal::OutOfMemory);
    };
    let freed = put_page(writer, pid, page, PageContent::Free);
    if freed.is_err() {
        free.take_back(pid);
    }
    freed
}

// Puts a node on the free page with the greatest id, which is free no more then. A refusal leaves both.
pub(crate) fn reuse_page<L: Log>(
    writer: &mut Writer<L>,
    free: &mut FreeIds,
    pid: PageId,
    page: &mut Page,
    node: Node,
) -> Result<(), Refusal>
    requires ready { IsReady L.Log writer.old.sticky_log }
    requires there { L.tells → pid < length (now effect_of_entry (L.state writer.old.sticky_log.log)) }
    ensures taken { OnOk result
        (free.new.ids.keys ≡ take (length free.old.ids.keys - 1) free.old.ids.keys) }
    ensures untaken { OnErr result (free.new.ids.keys ≡ free.old.ids.keys) }
    ensures put { Puts L.Log pid (page_content.Node node) writer.old writer.new page.old page.new result }
{
    let put = put_node(writer, pid, page, node);
    if put.is_ok() {
        free.take_greatest();
    }
    put
}

// How many bytes the payload has by which a content is put on a page.
pub(crate) fn payload_size(kept: &PageContent) -> u64
    requires { CanPut kept.now }
    ensures size { result ≡ length (message_of (contents.Put (content_of kept.now))).payload }
    ensures is { IsUpdate (message_of (contents.Put (content_of kept.now)))
        (contents.Put (content_of kept.now)) }
{
    match kept {
        PageContent::Node(node) => node.written_size(),
        PageContent::Roots(roots) => roots.as_meta().serialized_size(),
        PageContent::Counter(n) => n.serialized_size(),
        PageContent::Free => 0,
        PageContent::OnLog => unreachable!(),
    }
}
