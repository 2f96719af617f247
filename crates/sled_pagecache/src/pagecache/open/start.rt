//! The opening of a cache: the pages that its log recovers, and the system pages that are missing.

ghost use Rattle.std.specs.Prelude.{◌≡◌, ◌<◌, ◌≤◌, ℕ, [], List, false, length, map, slice_get, IfOk, IfErr, IfSome, OnOk};
ghost use Rattle.sled_base.specs.Errors.{error_of};
ghost use Rattle.sled_log.specs.Events.{is_open};
ghost use Rattle.sled_log.specs.Contents.{Content};
ghost use Rattle.sled_log.specs.Messages.{effect_of_entry, messages_of};
ghost use Rattle.sled_log.specs.Reading.{Hold};
ghost use Rattle.sled_log.specs.LogState.{now};
ghost use Rattle.sled_pagecache.specs.Inside.Invariant.{IsCounted};
ghost use Rattle.sled_pagecache.specs.Inside.StickyLog.{IsOfLog, IsReady};
ghost use Rattle.sled_pagecache.specs.Inside.Loading.{AreRecovered, AreRead, IsTable, IsUnread, IsOpenedWith, RefusesPages, next_id, events_at_start, stamps_at_start};
ghost use Rattle.sled_pagecache.specs.Inside.LogCalls.{Proceeds, refusal_in};
ghost use Rattle.sled_pagecache.specs.Inside.SystemPages.{Starts};
ghost use Rattle.sled_pagecache.specs.Memory.{HasRead, own_among};
ghost use Rattle.sled_pagecache.specs.Inside.Recovery.{AllFit};
ghost use Rattle.sled_pagecache.specs.Opening.{RefusesOpening};
ghost use Rattle.sled_pagecache.specs.Inside.Invariant.{IsConsistent, stamps_in};

use crate::pagecache::handles::config::Config;
use crate::pagecache::open::own_pages::{add_counter, add_roots, read_counter, read_roots};
use crate::pagecache::open::recovered_pages::{free_of, misfit, recovered_pages};
use crate::pagecache::table::free_ids::FreeIds;
use crate::pagecache::table::page_entry::PageContent;
use crate::pagecache::table::pagetable::PageTable;
use crate::pagecache::write::sticky_log::StickyLog;
use crate::pagecache::{COUNTER_PID, MAX_PAGES, META_PID};
use sled_base::Refusal;
use sled_log::Log;

/// What a cache is opened with: its pages, the ids of the free ones, the next generated id, and whether both system pages were
/// found in the log.
#[derive(Drop)]
pub(crate) struct Opening {
    pub(crate) pages: PageTable,
    pub(crate) free: FreeIds,
    pub(crate) next: u128,
    pub(crate) recovered: bool,
}

// Reads what a log holds for a cache, and makes what is missing.
pub(crate) fn open<L: Log>(
    config: Config,
    sticky_log: &mut StickyLog<L>,
) -> Result<Opening, Refusal>
    requires ready { IsReady L.Log sticky_log.old }
    requires closed { is_open (L.state sticky_log.old.log).pending ≡ false }
    requires unopened { sticky_log.old.batch ≡ false }
    ensures proceeds { Starts L.Log sticky_log.old sticky_log.new (refusal_in result) }
    ensures refused { L.tells → IfErr result (λ refusal. RefusesOpening config
        (now effect_of_entry (L.state sticky_log.old.log)) (error_of refusal)) }
    ensures consistent { IfOk result (λ opening. IsConsistent L.tells L.state sticky_log.new
        opening.pages.pages opening.free.ids.keys) }
    ensures opened { L.tells → IfOk result (λ opening. (held : List Content)
        → Hold (map messages_of (now effect_of_entry (L.state sticky_log.old.log))) held
        → IsOpenedWith config held (stamps_in opening.pages.pages) opening.next opening.recovered) }
    ensures counted { IfOk result (λ opening. IsCounted L.tells L.state
        config.idgen_persist_interval opening.next sticky_log.new opening.pages.pages) }
    ensures stable { L.tells
        → OnOk result (length (now effect_of_entry (L.state sticky_log.old.log)) < 2
        → (L.state sticky_log.new.log).pending ≡ []) }
    ensures unread { IfOk result (λ opening. (pid : ℕ) → 2 ≤ pid
        → IfSome (slice_get opening.pages.pages pid) (λ page. IsUnread page.kept)) }
    ensures reads { L.tells → HasRead L.counts sticky_log.old.log sticky_log.new.log
        (own_among (length (now effect_of_entry (L.state sticky_log.old.log)))) result }
{
    let (pages, counter) = load(sticky_log)?;
    complete(config, sticky_log, pages, counter)
}

// Reads the pages that a log holds, with the contents of the system pages, and answers the counter too, where its page is there.
fn load<L: Log>(sticky_log: &mut StickyLog<L>) -> Result<(PageTable, Option<u64>), Refusal>
    requires ready { IsReady L.Log sticky_log.old }
    ensures proceeds { Proceeds L.Log sticky_log.old sticky_log.new [] (refusal_in result) }
    ensures same { L.tells → sticky_log.new.fault ≡ false → now effect_of_entry
        (L.state sticky_log.new.log) ≡ now effect_of_entry (L.state sticky_log.old.log) }
    ensures read { IfOk result (λ loaded. AreRead L.tells
        (now effect_of_entry (L.state sticky_log.new.log)) loaded.0.pages loaded.1) }
    ensures fit { IfOk result (λ loaded. AllFit loaded.0.pages) }
    ensures refused { L.tells
        → IfErr result (RefusesPages (now effect_of_entry (L.state sticky_log.old.log))) }
    ensures reads { L.tells → HasRead L.counts sticky_log.old.log sticky_log.new.log
        (own_among (length (now effect_of_entry (L.state sticky_log.old.log)))) result }
{
    let mut pages = recover_pages(sticky_log)?;
    let counter = read_system_pages(sticky_log, &mut pages)?;
    match misfit(&pages) {
        Some(pointer) => Err(Refusal::Corruption(Some(pointer))),
        None => Ok((pages, counter)),
    }
}

// Makes the system pages that are missing, and finds the free ids.
fn complete<L: Log>(
    config: Config,
    sticky_log: &mut StickyLog<L>,
    mut pages: PageTable,
    counter: Option<u64>,
) -> Result<Opening, Refusal>
    requires ready { IsReady L.Log sticky_log.old }
    requires closed { is_open (L.state sticky_log.old.log).pending ≡ false }
    requires unopened { sticky_log.old.batch ≡ false }
    requires read { AreRead L.tells (now effect_of_entry (L.state sticky_log.old.log)) pages.pages
        counter }
    requires fit { AllFit pages.pages }
    ensures proceeds { Proceeds L.Log sticky_log.old sticky_log.new (events_at_start pages.pages)
        (refusal_in result) }
    ensures of_log { L.tells → IfErr result IsOfLog }
    ensures consistent { IfOk result (λ opening. IsConsistent L.tells L.state sticky_log.new
        opening.pages.pages opening.free.ids.keys) }
    ensures opened { L.tells → IfOk result (λ opening. (held : List Content)
        → Hold (map messages_of (now effect_of_entry (L.state sticky_log.old.log))) held
        → IsOpenedWith config held (stamps_in opening.pages.pages) opening.next opening.recovered) }
    ensures counted { IfOk result (λ opening. IsCounted L.tells L.state
        config.idgen_persist_interval opening.next sticky_log.new opening.pages.pages) }
    ensures stable { OnOk result (length pages.pages < 2
        → (L.state sticky_log.new.log).pending ≡ []) }
    ensures unread { IfOk result (λ opening. (pid : ℕ) → 2 ≤ pid
        → IfSome (slice_get opening.pages.pages pid) (λ page. IsUnread page.kept)) }
    ensures reads { (L.counts sticky_log.new.log).reads ≡ (L.counts sticky_log.old.log).reads }
{
    add_missing(sticky_log, &mut pages)?;
    let Ok(free) = free_of(sticky_log.alloc, &pages) else {
        return Err(Refusal::OutOfMemory);
    };
    Ok(Opening {
        pages,
        free,
        next: next_id(config, counter),
        recovered: counter.is_some(),
    })
}

// The first generated id, where the counter was found or not.
fn next_id(config: Config, counter: Option<u64>) -> u128
    ensures { result ≡ next_id config.idgen_persist_interval counter }
{
    match counter {
        Some(n) => n as u128 + 2 * config.idgen_persist_interval as u128,
        None => 0,
    }
}

// The pages that the log holds, of which none was read yet.
fn recover_pages<L: Log>(sticky_log: &mut StickyLog<L>) -> Result<PageTable, Refusal>
    requires ready { IsReady L.Log sticky_log.old }
    ensures proceeds { Proceeds L.Log sticky_log.old sticky_log.new [] (refusal_in result) }
    ensures same { L.tells → sticky_log.new.fault ≡ false → now effect_of_entry
        (L.state sticky_log.new.log) ≡ now effect_of_entry (L.state sticky_log.old.log) }
    ensures pages { IfOk result (λ pages. AreRecovered L.tells
        (now effect_of_entry (L.state sticky_log.old.log)) pages.pages) }
    ensures refused { L.tells
        → IfErr result (RefusesPages (now effect_of_entry (L.state sticky_log.old.log))) }
    ensures unread { (L.counts sticky_log.new.log).reads ≡ (L.counts sticky_log.old.log).reads }
{
    let states = sticky_log.recover()?;
    if states.len() > MAX_PAGES {
        return Err(Refusal::Corruption(None));
    }
    let Ok(pages) = recovered_pages(sticky_log.alloc, &states) else {
        return Err(Refusal::OutOfMemory);
    };
    Ok(pages)
}

// Reads the contents of the system pages, and answers the counter, where its page is there.
fn read_system_pages<L: Log>(
    sticky_log: &mut StickyLog<L>,
    pages: &mut PageTable,
) -> Result<Option<u64>, Refusal>
    requires ready { IsReady L.Log sticky_log.old }
    requires recovered { AreRecovered L.tells (now effect_of_entry (L.state sticky_log.old.log))
        pages.old.pages }
    ensures proceeds { Proceeds L.Log sticky_log.old sticky_log.new [] (refusal_in result) }
    ensures same { L.tells → sticky_log.new.fault ≡ false → now effect_of_entry
        (L.state sticky_log.new.log) ≡ now effect_of_entry (L.state sticky_log.old.log) }
    ensures read { IfOk result
        (AreRead L.tells (now effect_of_entry (L.state sticky_log.old.log)) pages.new.pages) }
    ensures refused { L.tells
        → IfErr result (RefusesPages (now effect_of_entry (L.state sticky_log.old.log))) }
    ensures reads { HasRead L.counts sticky_log.old.log sticky_log.new.log
        (own_among (length pages.old.pages)) result }
{
    let Some(page) = pages.get(META_PID) else {
        return Ok(None);
    };
    let roots = read_roots(sticky_log, page)?;
    pages.get_mut(META_PID).kept = PageContent::Roots(roots);
    let Some(page) = pages.get(COUNTER_PID) else {
        return Ok(None);
    };
    let n = read_counter(sticky_log, page)?;
    pages.get_mut(COUNTER_PID).kept = PageContent::Counter(n);
    Ok(Some(n))
}

// Makes the system pages that are missing, each at stamp 1, and makes them stable.
fn add_missing<L: Log>(sticky_log: &mut StickyLog<L>, pages: &mut PageTable) -> Result<(), Refusal>
    requires ready { IsReady L.Log sticky_log.old }
    requires closed { is_open (L.state sticky_log.old.log).pending ≡ false }
    requires table { IsTable L.tells (now effect_of_entry (L.state sticky_log.old.log))
        pages.old.pages }
    requires fresh { L.tells → stamps_in pages.old.pages ≡ map (λ _. 0) pages.old.pages }
    ensures proceeds { Proceeds L.Log sticky_log.old sticky_log.new
        (events_at_start pages.old.pages) (refusal_in result) }
    ensures of_log { L.tells → IfErr result IsOfLog }
    ensures table { OnOk result
        (IsTable L.tells (now effect_of_entry (L.state sticky_log.new.log)) pages.new.pages) }
    ensures stamps { L.tells
        → OnOk result (stamps_in pages.new.pages ≡ stamps_at_start pages.old.pages) }
    ensures both { OnOk result (1 < length pages.new.pages) }
    ensures others { OnOk result ((pid : ℕ) → 2 ≤ pid
        → slice_get pages.new.pages pid ≡ slice_get pages.old.pages pid) }
    ensures stable { OnOk result (length pages.old.pages < 2
        → (L.state sticky_log.new.log).pending ≡ []) }
    ensures there { OnOk result (1 < length pages.old.pages → pages.new ≡ pages.old) }
    ensures unread { (L.counts sticky_log.new.log).reads ≡ (L.counts sticky_log.old.log).reads }
{
    if pages.len() > 1 {
        return Ok(());
    }
    add_roots(sticky_log, pages)?;
    add_counter(sticky_log, pages)?;
    sticky_log.make_stable()?;
    Ok(())
}
