//! The cache's own pages: that of the named roots, and that of the counter.

ghost use Rattle.std.specs.Prelude.{◌≡◌, ◌<◌, ℕ, [], ◌∷◌, ◌++◌, false, length, map, IfOk, IfErr, OnOk};
ghost use Rattle.sled_log.specs.Contents as contents;
ghost use Rattle.sled_log.specs.Messages.{effect_of_entry, messages_of};
ghost use Rattle.sled_log.specs.Reading.{IsUpdate, Makes};
ghost use Rattle.sled_log.specs.LogState.{now};
ghost use Rattle.sled_node.specs.Meta as meta;
ghost use Rattle.sled_pagecache.specs.Cache.{chain_at};
ghost use Rattle.sled_pagecache.specs.Inside.StickyLog.{IsOfLog, IsReady};
ghost use Rattle.sled_pagecache.specs.Inside.Loading.{IsLoaded, IsTable, RefusesOwn, events_of_roots, counter_event, stamps_at_start};
ghost use Rattle.sled_pagecache.specs.Inside.LogCalls.{Proceeds, refusal_in};
ghost use Rattle.sled_log.specs.Payloads.{payload_in};
ghost use Rattle.sled_pagecache.specs.Inside.PageIn.{found_message, IsOnly, RefusesMessage};
ghost use Rattle.sled_pagecache.specs.Memory.{HasRead};
ghost use Rattle.sled_pagecache.specs.Inside.Invariant.{stamps_in};

use crate::pagecache::memory::chain::SPACE;
use crate::pagecache::memory::reading::{Found, whole};
use crate::pagecache::open::recovered_pages::is_misfit;
use crate::pagecache::table::boxed_roots::BoxedRoots;
use crate::pagecache::table::infos::Infos;
use crate::pagecache::table::page_entry::{Page, PageContent};
use crate::pagecache::table::pagetable::PageTable;
use crate::pagecache::write::message::{write_counter, write_roots};
use crate::pagecache::write::sticky_log::StickyLog;
use crate::pagecache::{COUNTER_PID, META_PID};
use sled_base::{Bug, DiskPtr, MessageKind, PageId, Refusal, Serialize};
use sled_log::{Log, Payload};
use sled_node::Meta;
use std::alloc::Global;

// Reads the named roots.
pub(crate) fn read_roots<L: Log>(
    sticky_log: &mut StickyLog<L>,
    page: &Page,
) -> Result<BoxedRoots, Refusal>
    requires ready { IsReady L.Log sticky_log.old }
    requires loaded { L.tells → IsLoaded (chain_at (L.state sticky_log.old.log) 0) page.now }
    ensures proceeds { Proceeds L.Log sticky_log.old sticky_log.new [] (refusal_in result) }
    ensures same { L.tells → sticky_log.new.fault ≡ false → now effect_of_entry
        (L.state sticky_log.new.log) ≡ now effect_of_entry (L.state sticky_log.old.log) }
    ensures read { L.tells → IfOk result (λ roots. Makes
        (messages_of (chain_at (L.state sticky_log.old.log) 0)) (contents.Roots roots)) }
    ensures refused { L.tells
        → IfErr result (RefusesOwn 0 (chain_at (L.state sticky_log.old.log) 0)) }
    ensures reads { HasRead L.counts sticky_log.old.log sticky_log.new.log 1 result }
{
    let mut space = [0; SPACE];
    let (kind, payload, pointer) = read_own(sticky_log, META_PID, page, &mut space)?;
    let found = Found {
        kind,
        payload: payload.bytes(&space),
        pointer,
    };
    boxed_roots(&found, sticky_log.alloc)
}

// Reads the counter.
pub(crate) fn read_counter<L: Log>(
    sticky_log: &mut StickyLog<L>,
    page: &Page,
) -> Result<u64, Refusal>
    requires ready { IsReady L.Log sticky_log.old }
    requires loaded { L.tells → IsLoaded (chain_at (L.state sticky_log.old.log) 1) page.now }
    ensures proceeds { Proceeds L.Log sticky_log.old sticky_log.new [] (refusal_in result) }
    ensures same { L.tells → sticky_log.new.fault ≡ false → now effect_of_entry
        (L.state sticky_log.new.log) ≡ now effect_of_entry (L.state sticky_log.old.log) }
    ensures read { L.tells → IfOk result
        (λ n. Makes (messages_of (chain_at (L.state sticky_log.old.log) 1)) (contents.Counter n)) }
    ensures refused { L.tells
        → IfErr result (RefusesOwn 1 (chain_at (L.state sticky_log.old.log) 1)) }
    ensures reads { HasRead L.counts sticky_log.old.log sticky_log.new.log 1 result }
{
    let mut space = [0; SPACE];
    let (kind, payload, pointer) = read_own(sticky_log, COUNTER_PID, page, &mut space)?;
    let found = Found {
        kind,
        payload: payload.bytes(&space),
        pointer,
    };
    counter_of(&found, sticky_log.alloc)
}

// Reads the one message of a system page: its kind, its payload and where it is kept. A page that is free, or has more, is refused before.
fn read_own<L: Log>(
    sticky_log: &mut StickyLog<L>,
    pid: PageId,
    page: &Page,
    space: &mut [u8],
) -> Result<(MessageKind, Payload, DiskPtr), Refusal>
    requires ready { IsReady L.Log sticky_log.old }
    requires own { pid < 2 }
    requires loaded { L.tells → IsLoaded (chain_at (L.state sticky_log.old.log) pid) page.now }
    ensures proceeds { Proceeds L.Log sticky_log.old sticky_log.new [] (refusal_in result) }
    ensures same { L.tells → sticky_log.new.fault ≡ false → now effect_of_entry
        (L.state sticky_log.new.log) ≡ now effect_of_entry (L.state sticky_log.old.log) }
    ensures found { L.tells → IfOk result
        (λ found. IsOnly (chain_at (L.state sticky_log.old.log) pid) found.0
        (payload_in space.new found.1) found.2) }
    ensures refused { L.tells
        → IfErr result (RefusesOwn pid (chain_at (L.state sticky_log.old.log) pid)) }
    ensures reads { HasRead L.counts sticky_log.old.log sticky_log.new.log 1 result }
{
    if is_misfit(pid as usize, page) {
        return Err(Refusal::Corruption(Some(page.first_info().pointer)));
    }
    let info = page.first_info();
    let (kind, payload) = sticky_log.read_to(pid, info.lsn, info.pointer, space)?;
    if kind == MessageKind::Free {
        return Err(Refusal::ReportableBug(Bug::FreeInPull));
    }
    Ok((kind, payload, info.pointer))
}

// The root map that a message puts on its page, held in memory.
fn boxed_roots(found: &Found<'_>, alloc: Global) -> Result<BoxedRoots, Refusal>
    ensures read { IfOk result
        (λ roots. IsUpdate (found_message found.now) (contents.Put (contents.Roots roots))) }
    ensures refused { IfErr result (RefusesMessage found.now.pointer ((roots : meta.Roots)
        → ¬ IsUpdate (found_message found.now) (contents.Put (contents.Roots roots)))) }
{
    let roots = roots_of(found, alloc)?;
    BoxedRoots::new(alloc, roots).map_err(|_| Refusal::OutOfMemory)
}

// The root map that a message puts on its page.
fn roots_of(found: &Found<'_>, alloc: Global) -> Result<Meta, Refusal>
    ensures read { IfOk result
        (λ roots. IsUpdate (found_message found.now) (contents.Put (contents.Roots roots))) }
    ensures refused { IfErr result (RefusesMessage found.now.pointer ((roots : meta.Roots)
        → ¬ IsUpdate (found_message found.now) (contents.Put (contents.Roots roots)))) }
{
    match found.kind {
        MessageKind::InlineMeta | MessageKind::BlobMeta => whole::<Meta>(found, alloc),
        _ => Err(Refusal::Corruption(Some(found.pointer))),
    }
}

// The counter that a message puts on its page.
fn counter_of(found: &Found<'_>, alloc: Global) -> Result<u64, Refusal>
    ensures read { IfOk result
        (λ n. IsUpdate (found_message found.now) (contents.Put (contents.Counter n))) }
    ensures refused { IfErr result (RefusesMessage found.now.pointer ((n : ℕ)
        → ¬ IsUpdate (found_message found.now) (contents.Put (contents.Counter n)))) }
{
    match found.kind {
        MessageKind::Counter => whole::<u64>(found, alloc),
        _ => Err(Refusal::Corruption(Some(found.pointer))),
    }
}

// Makes the page of the named roots, of which there are none, at stamp 1, unless it is there.
pub(crate) fn add_roots<L: Log>(
    sticky_log: &mut StickyLog<L>,
    pages: &mut PageTable,
) -> Result<(), Refusal>
    requires ready { IsReady L.Log sticky_log.old }
    requires table { IsTable L.tells (now effect_of_entry (L.state sticky_log.old.log))
        pages.old.pages }
    requires some { length pages.old.pages < 2 }
    requires fresh { L.tells → stamps_in pages.old.pages ≡ map (λ _. 0) pages.old.pages }
    ensures proceeds { Proceeds L.Log sticky_log.old sticky_log.new
        (events_of_roots pages.old.pages) (refusal_in result) }
    ensures of_log { L.tells → IfErr result IsOfLog }
    ensures table { OnOk result
        (IsTable L.tells (now effect_of_entry (L.state sticky_log.new.log)) pages.new.pages) }
    ensures one { OnOk result (length pages.new.pages ≡ 1) }
    ensures stamps { L.tells
        → OnOk result (stamps_in pages.new.pages ++ 1 ∷ [] ≡ stamps_at_start pages.old.pages) }
    ensures unread { (L.counts sticky_log.new.log).reads ≡ (L.counts sticky_log.old.log).reads }
{
    if pages.len() > 0 {
        return Ok(());
    }
    let Ok(()) = pages.reserve() else {
        return Err(Refusal::OutOfMemory);
    };
    let Ok(held) = BoxedRoots::new(sticky_log.alloc, Meta::default(sticky_log.alloc)) else {
        return Err(Refusal::OutOfMemory);
    };
    let roots = held.as_meta();
    let size = roots.serialized_size();
    let info = write_roots(sticky_log, META_PID, roots, size, 1)?;
    pages.push_reserved(Page {
        stamp: 1,
        infos: Infos::one(info),
        kept: PageContent::Roots(held),
    });
    Ok(())
}

// Makes the page of the counter, which is 0, at stamp 1.
pub(crate) fn add_counter<L: Log>(
    sticky_log: &mut StickyLog<L>,
    pages: &mut PageTable,
) -> Result<(), Refusal>
    requires ready { IsReady L.Log sticky_log.old }
    requires table { IsTable L.tells (now effect_of_entry (L.state sticky_log.old.log))
        pages.old.pages }
    requires one { length pages.old.pages ≡ 1 }
    ensures proceeds { Proceeds L.Log sticky_log.old sticky_log.new (counter_event ∷ [])
        (refusal_in result) }
    ensures of_log { L.tells → IfErr result IsOfLog }
    ensures table { OnOk result
        (IsTable L.tells (now effect_of_entry (L.state sticky_log.new.log)) pages.new.pages) }
    ensures stamps { OnOk result (stamps_in pages.new.pages ≡ stamps_in pages.old.pages ++ 1 ∷ []) }
    ensures unread { (L.counts sticky_log.new.log).reads ≡ (L.counts sticky_log.old.log).reads }
    ensures two { OnOk result (length pages.new.pages ≡ 2) }
{
    let Ok(()) = pages.reserve() else {
        return Err(Refusal::OutOfMemory);
    };
    let info = write_counter(sticky_log, COUNTER_PID, 0, 1)?;
    pages.push_reserved(Page {
        stamp: 1,
        infos: Infos::one(info),
        kept: PageContent::Counter(0),
    });
    Ok(())
}
