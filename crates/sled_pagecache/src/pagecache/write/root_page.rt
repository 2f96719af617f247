//! The swap of a named root, on the page of the named roots.

ghost use Rattle.std.specs.Prelude.{◌≡◌, ◌⊎◌, ◌<◌, length, None, Some, IfErr, OnOk, OnErr};
ghost use Rattle.sled_log.specs.LogState.{now};
ghost use Rattle.sled_log.specs.Messages.{effect_of_entry};
ghost use Rattle.sled_base.specs.declared.types.Refusal.TheVariants.{Unsupported};
ghost use Rattle.sled_base.specs.declared.types.Why.TheVariants.{TooManyNames, NameTooLong};
ghost use Rattle.sled_node.specs.Limits.{bytes_limit};
ghost use Rattle.sled_node.specs.Meta.{CanChange, HasRoom, changed_roots};
ghost use Rattle.sled_node.specs.Payloads.Roots.{written_roots};
ghost use Rattle.sled_node.specs.Pairs.{IsWithinLimit};
ghost use Rattle.sled_pagecache.specs.Inside.Appends.{Puts};
ghost use Rattle.sled_pagecache.specs.Limits.{meta_pid};
ghost use Rattle.sled_pagecache.specs.Inside.RootWrites.{FindsRoots, JudgesRoot, KeepsRoots, WritesMap};
ghost use Rattle.sled_pagecache.specs.Inside.PageWrites.{roots_in};
ghost use Rattle.sled_pagecache.specs.Inside.Invariant.{IsRoots};
ghost use Rattle.sled_pagecache.specs.Inside.StickyLog.{IsReady};
ghost use Rattle.sled_pagecache.specs.declared.pagecache.table.page_entry.PageContent.TheVariants as page_content;

use crate::pagecache::META_PID;
use crate::pagecache::handles::view::{MetaView, PageView};
use crate::pagecache::memory::accesses::size_with;
use crate::pagecache::table::page_entry::{CacheInfo, Page, PageContent, keep_alone};
use crate::pagecache::table::pagetable::PageTable;
use crate::pagecache::write::message::write_payload;
use crate::pagecache::write::writer::Writer;
use sled_base::{Device, MessageKind, PageId, Refusal, Serialize, Why};
use sled_log::Log;
use sled_node::Meta;
use sled_node::node::MAX_BYTES;

// The map of named roots, with the token of its page. A kept write fault is answered.
pub(crate) fn own_roots(fault: bool, pages: &PageTable) -> Result<MetaView<'_>, Refusal>
    requires { KeepsRoots pages.now.pages }
    ensures { FindsRoots fault pages.now.pages result }
{
    if fault {
        return Err(Refusal::Io(Device::Write));
    }
    let Some(page) = pages.get(META_PID) else {
        unreachable!()
    };
    let PageContent::Roots(roots) = &page.kept else {
        unreachable!()
    };
    let token = PageView::new(META_PID, page.stamp);
    Ok(MetaView::new(roots.as_meta(), token))
}

// Tests a swap of a root. In this order: another root is handed back, and where the name is to have a root, one that is too long
// is refused, and one that finds no room.
pub(crate) fn judge_root(
    roots: &Meta,
    name: &[u8],
    old: Option<PageId>,
    new: Option<PageId>,
) -> Result<Result<(), Option<PageId>>, Refusal>
    ensures { JudgesRoot roots.now name.now old new result }
{
    let root = roots.get_root(name);
    if root != old {
        return Ok(Err(root));
    }
    if new.is_some() {
        judge_name(roots, name)?;
    }
    Ok(Ok(()))
}

// Tests a name that is to have a root: one that is too long is refused, and then one that finds no room.
pub(crate) fn judge_name(roots: &Meta, name: &[u8]) -> Result<(), Refusal>
    ensures fits { OnOk result (IsWithinLimit name.now × HasRoom name.now roots.now) }
    ensures refused { IfErr result (λ refusal. ((bytes_limit < length name.now)
        × (refusal ≡ Unsupported NameTooLong)) ⊎ (IsWithinLimit name.now
        × (¬ HasRoom name.now roots.now) × (refusal ≡ Unsupported TooManyNames))) }
{
    if name.len() > MAX_BYTES {
        return Err(Refusal::Unsupported(Why::NameTooLong));
    }
    if !roots.has_room(name) {
        return Err(Refusal::Unsupported(Why::TooManyNames));
    }
    Ok(())
}

// Gives a name another root page in the map that the page holds, or takes it out where there is none, and writes the map. A
// refusal leaves the page.
pub(crate) fn swap_root<L: Log>(
    writer: &mut Writer<L>,
    page: &mut Page,
    name: &[u8],
    root: Option<PageId>,
) -> Result<(), Refusal>
    requires roots { IsRoots page.old.kept }
    requires can { CanChange name.now root (roots_in page.old.kept) }
    requires ready { IsReady L.Log writer.old.sticky_log }
    requires there { L.tells
        → meta_pid < length (now effect_of_entry (L.state writer.old.sticky_log.log)) }
    ensures { Puts L.Log meta_pid
        (page_content.Roots (changed_roots name.now root (roots_in page.old.kept)))
        writer.old writer.new page.old page.new result }
{
    let PageContent::Roots(held) = &mut page.kept else {
        unreachable!()
    };
    let roots = held.as_mut();
    // Every map keeps the limits.
    let _ = roots.len();
    if page.stamp == u64::MAX {
        return Err(Refusal::Unsupported(Why::StampUsedUp));
    }
    let stamp = page.stamp + 1;
    let info = put_changed(writer, roots, name, root, stamp)?;
    keep_alone(page, info);
    Ok(())
}

// Changes the map as asked, and writes it. A refusal leaves the map.
fn put_changed<L: Log>(
    writer: &mut Writer<L>,
    roots: &mut Meta,
    name: &[u8],
    root: Option<PageId>,
    stamp: u64,
) -> Result<CacheInfo, Refusal>
    requires can { CanChange name.now root roots.old }
    requires ready { IsReady L.Log writer.old.sticky_log }
    requires there { L.tells
        → meta_pid < length (now effect_of_entry (L.state writer.old.sticky_log.log)) }
    ensures put { WritesMap L.Log writer.old writer.new
        (written_roots (changed_roots name.now root roots.old)) stamp result }
    ensures changed { OnOk result (roots.new ≡ changed_roots name.now root roots.old) }
    ensures left { OnErr result (roots.new ≡ roots.old) }
{
    match root {
        None => put_without(writer, roots, name, stamp),
        Some(root) => put_with(writer, roots, name, root, stamp),
    }
}

// Writes the map without the name, and takes the name out.
fn put_without<L: Log>(
    writer: &mut Writer<L>,
    roots: &mut Meta,
    name: &[u8],
    stamp: u64,
) -> Result<CacheInfo, Refusal>
    requires ready { IsReady L.Log writer.old.sticky_log }
    requires there { L.tells
        → meta_pid < length (now effect_of_entry (L.state writer.old.sticky_log.log)) }
    ensures put { WritesMap L.Log writer.old writer.new
        (written_roots (changed_roots name.now None roots.old)) stamp result }
    ensures changed { OnOk result (roots.new ≡ changed_roots name.now None roots.old) }
    ensures left { OnErr result (roots.new ≡ roots.old) }
{
    let Ok(payload) = roots.serialize_without(name) else {
        return Err(Refusal::OutOfMemory);
    };
    let written = put_payload(writer, &payload, stamp);
    if written.is_ok() {
        roots.del_root(name);
    }
    written
}

// Sets the name to that root, and writes the map. Where it can't be written, the name is given back what it had, which takes no
// memory.
fn put_with<L: Log>(
    writer: &mut Writer<L>,
    roots: &mut Meta,
    name: &[u8],
    root: PageId,
    stamp: u64,
) -> Result<CacheInfo, Refusal>
    requires can { CanChange name.now (Some root) roots.old }
    requires ready { IsReady L.Log writer.old.sticky_log }
    requires there { L.tells
        → meta_pid < length (now effect_of_entry (L.state writer.old.sticky_log.log)) }
    ensures put { WritesMap L.Log writer.old writer.new
        (written_roots (changed_roots name.now (Some root) roots.old)) stamp result }
    ensures changed { OnOk result (roots.new ≡ changed_roots name.now (Some root) roots.old) }
    ensures left { OnErr result (roots.new ≡ roots.old) }
{
    // Every map keeps the limits.
    let _ = roots.len();
    if let Some(former) = roots.replace_root(name, root) {
        let written = put_map(writer, roots, stamp);
        if written.is_err() {
            roots.replace_root(name, former);
        }
        return written;
    }
    let Ok(copy) = Vec::from_slice(writer.sticky_log.alloc, name) else {
        return Err(Refusal::OutOfMemory);
    };
    let Ok(_) = roots.put_root(copy, root) else {
        return Err(Refusal::OutOfMemory);
    };
    let written = put_map(writer, roots, stamp);
    if written.is_err() {
        roots.del_root(name);
    }
    written
}

// Writes the map as it is.
fn put_map<L: Log>(writer: &mut Writer<L>, roots: &Meta, stamp: u64) -> Result<CacheInfo, Refusal>
    requires ready { IsReady L.Log writer.old.sticky_log }
    requires there { L.tells
        → meta_pid < length (now effect_of_entry (L.state writer.old.sticky_log.log)) }
    ensures { WritesMap L.Log writer.old writer.new (written_roots roots.now) stamp result }
{
    let Ok(payload) = roots.serialize(writer.sticky_log.alloc) else {
        return Err(Refusal::OutOfMemory);
    };
    put_payload(writer, &payload, stamp)
}

// Accesses the page of the named roots and writes the map that has this payload.
fn put_payload<L: Log>(
    writer: &mut Writer<L>,
    payload: &[u8],
    stamp: u64,
) -> Result<CacheInfo, Refusal>
    requires ready { IsReady L.Log writer.old.sticky_log }
    requires there { L.tells
        → meta_pid < length (now effect_of_entry (L.state writer.old.sticky_log.log)) }
    ensures { WritesMap L.Log writer.old writer.new payload.now stamp result }
{
    let Ok(()) = writer
        .accesses
        .access(META_PID, size_with(0, payload.len() as u64))
    else {
        return Err(Refusal::OutOfMemory);
    };
    write_payload(
        &mut writer.sticky_log,
        MessageKind::InlineMeta,
        META_PID,
        payload,
        stamp,
    )
}
