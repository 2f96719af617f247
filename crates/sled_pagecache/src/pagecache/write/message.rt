//! Writing a page's messages to the log.

ghost use Rattle.std.specs.Prelude.{◌≡◌, ◌<◌, ◌≤◌, true, length};
ghost use Rattle.sled_log.specs.Calls.{can_append};
ghost use Rattle.sled_log.specs.Contents as contents;
ghost use Rattle.sled_log.specs.Messages.{effect_of_entry, message};
ghost use Rattle.sled_log.specs.LogState.{now};
ghost use Rattle.sled_log.specs.Reading.{message_of};
ghost use Rattle.sled_node.specs.Meta.{IsRootMap};
ghost use Rattle.sled_node.specs.Node.{empty_leaf};
ghost use Rattle.sled_node.specs.Payloads.Links.{CanWriteLink};
ghost use Rattle.sled_pagecache.specs.Inside.PageWrites.{CanPut, WritesMessage, Wrote, content_of};
ghost use Rattle.sled_pagecache.specs.Inside.StickyLog.{IsReady};
ghost use Rattle.sled_pagecache.specs.State.{pid_of, stamp_of};

use crate::pagecache::handles::view::PageView;
use crate::pagecache::table::boxed_node::{BoxedNode, EMPTY_LEAF};
use crate::pagecache::table::page_entry::{CacheInfo, PageContent};
use crate::pagecache::write::sticky_log::StickyLog;
use sled_base::{MessageKind, PageId, Refusal, Serialize};
use sled_log::Log;
use sled_node::{Link, Meta};

// A payload of at most so many bytes is made without an allocation.
const SHORT_PAYLOAD: usize = 256;

// Writes a node to the log as the content of a page, in so many bytes, and answers how it is kept, at that stamp.
pub(crate) fn write_node<L: Log>(
    sticky_log: &mut StickyLog<L>,
    pid: PageId,
    node: &BoxedNode,
    size: u64,
    stamp: u64,
) -> Result<CacheInfo, Refusal>
    requires sized { size ≡ length (message_of (contents.Put (contents.Node node.now))).payload }
    requires ready { IsReady L.Log sticky_log.old }
    requires can { L.tells
        → can_append effect_of_entry (now effect_of_entry (L.state sticky_log.old.log)) pid
        (message_of (contents.Put (contents.Node node.now))).kind ≡ true }
    ensures { Wrote L.Log sticky_log.old sticky_log.new pid (contents.Put (contents.Node node.now))
        stamp result }
{
    let Some(node) = node.apart() else {
        return write_empty_leaf(sticky_log, pid, stamp);
    };
    // Every node is well-formed.
    let _ = node.data();
    let token = PageView::new(pid, stamp);
    write(sticky_log, MessageKind::InlineNode, token, node, size)
}

// Writes an empty leaf to the log as the content of a page, and answers how it is kept, at that stamp.
pub(crate) fn write_empty_leaf<L: Log>(
    sticky_log: &mut StickyLog<L>,
    pid: PageId,
    stamp: u64,
) -> Result<CacheInfo, Refusal>
    requires ready { IsReady L.Log sticky_log.old }
    requires there { L.tells → pid ≤ length (now effect_of_entry (L.state sticky_log.old.log)) }
    ensures { Wrote L.Log sticky_log.old sticky_log.new pid
        (contents.Put (contents.Node empty_leaf)) stamp result }
{
    write_payload(sticky_log, MessageKind::InlineNode, pid, &EMPTY_LEAF, stamp)
}

// Writes a link to the log, in so many bytes, and answers how it is kept, at that stamp.
pub(crate) fn write_link<L: Log>(
    sticky_log: &mut StickyLog<L>,
    pid: PageId,
    link: &Link,
    size: u64,
    stamp: u64,
) -> Result<CacheInfo, Refusal>
    requires short { CanWriteLink link.now }
    requires sized { size ≡ length (message_of (contents.Link link.now)).payload }
    requires ready { IsReady L.Log sticky_log.old }
    requires can { L.tells → can_append effect_of_entry (now effect_of_entry
        (L.state sticky_log.old.log)) pid (message_of (contents.Link link.now)).kind ≡ true }
    ensures { Wrote L.Log sticky_log.old sticky_log.new pid (contents.Link link.now) stamp result }
{
    let token = PageView::new(pid, stamp);
    write(sticky_log, MessageKind::InlineLink, token, link, size)
}

// Writes a root map to the log as the content of a page, in so many bytes, and answers how it is kept, at that stamp.
pub(crate) fn write_roots<L: Log>(
    sticky_log: &mut StickyLog<L>,
    pid: PageId,
    roots: &Meta,
    size: u64,
    stamp: u64,
) -> Result<CacheInfo, Refusal>
    requires can_write { IsRootMap roots.now }
    requires sized { size ≡ length (message_of (contents.Put (contents.Roots roots.now))).payload }
    requires ready { IsReady L.Log sticky_log.old }
    requires there { L.tells → pid ≤ length (now effect_of_entry (L.state sticky_log.old.log)) }
    ensures { Wrote L.Log sticky_log.old sticky_log.new pid
        (contents.Put (contents.Roots roots.now)) stamp result }
{
    let token = PageView::new(pid, stamp);
    write(sticky_log, MessageKind::InlineMeta, token, roots, size)
}

// Writes a counter to the log as the content of a page, and answers how it is kept, at that stamp.
pub(crate) fn write_counter<L: Log>(
    sticky_log: &mut StickyLog<L>,
    pid: PageId,
    n: u64,
    stamp: u64,
) -> Result<CacheInfo, Refusal>
    requires ready { IsReady L.Log sticky_log.old }
    requires there { L.tells → pid ≤ length (now effect_of_entry (L.state sticky_log.old.log)) }
    ensures { Wrote L.Log sticky_log.old sticky_log.new pid (contents.Put (contents.Counter n))
        stamp result }
{
    let token = PageView::new(pid, stamp);
    write(
        sticky_log,
        MessageKind::Counter,
        token,
        &n,
        n.serialized_size(),
    )
}

// Writes to the log that a page is free, and answers how that is kept, at that stamp.
fn write_free<L: Log>(
    sticky_log: &mut StickyLog<L>,
    pid: PageId,
    stamp: u64,
) -> Result<CacheInfo, Refusal>
    requires ready { IsReady L.Log sticky_log.old }
    requires there { L.tells → pid < length (now effect_of_entry (L.state sticky_log.old.log)) }
    ensures { Wrote L.Log sticky_log.old sticky_log.new pid (contents.Put contents.Free) stamp
        result }
{
    let token = PageView::new(pid, stamp);
    write(sticky_log, MessageKind::Free, token, &(), 0)
}

// Writes what is put on a page, in so many bytes, and answers how it is kept, at that stamp.
pub(crate) fn write_content<L: Log>(
    sticky_log: &mut StickyLog<L>,
    pid: PageId,
    kept: &PageContent,
    size: u64,
    stamp: u64,
) -> Result<CacheInfo, Refusal>
    requires can_write { CanPut kept.now }
    requires sized { size ≡ length (message_of (contents.Put (content_of kept.now))).payload }
    requires ready { IsReady L.Log sticky_log.old }
    requires there { L.tells → pid < length (now effect_of_entry (L.state sticky_log.old.log)) }
    ensures { Wrote L.Log sticky_log.old sticky_log.new pid (contents.Put (content_of kept.now))
        stamp result }
{
    match kept {
        PageContent::Node(node) => write_node(sticky_log, pid, node, size, stamp),
        PageContent::Roots(roots) => write_roots(sticky_log, pid, roots.as_meta(), size, stamp),
        PageContent::Counter(n) => write_counter(sticky_log, pid, *n, stamp),
        PageContent::Free => write_free(sticky_log, pid, stamp),
        PageContent::OnLog => unreachable!(),
    }
}

// Writes a value to the log as a message of a page, in so many bytes, and answers how it is kept, where the page gets that token.
fn write<L: Log, T: Serialize>(
    sticky_log: &mut StickyLog<L>,
    kind: MessageKind,
    token: PageView,
    value: &T,
    size: u64,
) -> Result<CacheInfo, Refusal>
    requires can_write { T.can_write value.now }
    requires sized { size ≡ length (T.written value.now) }
    requires ready { IsReady L.Log sticky_log.old }
    requires can { L.tells → can_append effect_of_entry
        (now effect_of_entry (L.state sticky_log.old.log)) (pid_of token) kind ≡ true }
    ensures { WritesMessage L.Log sticky_log.old sticky_log.new (pid_of token)
        (message kind (T.written value.now)) (stamp_of token) result }
{
    let size = size as usize;
    if size <= SHORT_PAYLOAD {
        let mut room = [0; SHORT_PAYLOAD];
        let payload = &mut room[..size];
        fill(value, payload);
        return write_payload(sticky_log, kind, token.pid(), payload, token.ts());
    }
    let Ok(mut payload) = vec![in sticky_log.alloc; 0; size] else {
        return Err(Refusal::OutOfMemory);
    };
    fill(value, &mut payload);
    write_payload(sticky_log, kind, token.pid(), &payload, token.ts())
}

// Writes a value over all of these bytes.
#[inline(always)]
fn fill<T: Serialize>(value: &T, bytes: &mut [u8])
    requires can_write { T.can_write value.now }
    requires exact { length bytes.old ≡ length (T.written value.now) }
    ensures { bytes.new ≡ T.written value.now }
{
    value.serialize_into(bytes);
}

// Writes a payload to the log as a message of a page, and answers how it is kept, at that stamp.
pub(crate) fn write_payload<L: Log>(
    sticky_log: &mut StickyLog<L>,
    kind: MessageKind,
    pid: PageId,
    payload: &[u8],
    stamp: u64,
) -> Result<CacheInfo, Refusal>
    requires ready { IsReady L.Log sticky_log.old }
    requires can { L.tells → can_append effect_of_entry
        (now effect_of_entry (L.state sticky_log.old.log)) pid kind ≡ true }
    ensures { WritesMessage L.Log sticky_log.old sticky_log.new pid (message kind payload.now) stamp
        result }
{
    let (lsn, pointer, log_size) = sticky_log.append(kind, pid, payload)?;
    Ok(CacheInfo {
        ts: stamp,
        lsn,
        pointer,
        log_size,
    })
}
