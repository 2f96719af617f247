// A run of openings that real calls make, on a disk in memory: a log that is handed on, a crash inside a call, a crash while the cache is
// rewritten, and a start that is refused. The law on openings speaks of such runs.

ghost use Rattle.std.specs.Prelude.{◌≡◌, ℕ, [], ◌∷◌, List, Option, Some, None, Ok, IfSome, map};
ghost use Rattle.sled_disk.specs.declared.disk.memory.MemDisk.{MemDisk};
ghost use Rattle.sled_disk.specs.declared.log.DiskLog.{DiskLog};
ghost use Rattle.sled_pagecache.specs.Opening.{MayBeOpened};
ghost use Rattle.sled_pagecache.specs.Openings.{CrashedIn, CrashedRewriting, HandedOn, IsEmpty, IsRun, Opening};
ghost use Rattle.sled_pagecache.specs.Prefixes.{ShowPrefixes, history_from};
ghost use Rattle.sled_pagecache.specs.Reopening.{HoldsCrash};
ghost use Rattle.sled_pagecache.specs.declared.pagecache.handles.call.Answer.TheVariants.{Flushed};
ghost use Rattle.sled_pagecache.specs.declared.pagecache.handles.call.Call.TheVariants.{Flush};
ghost use Rattle.sled_pagecache_move_tests.specs.Runs.{IsOpenedOnce, ending_of};

use super::rewriting::new_log;
use super::*;
use sled_disk::reopen_after_a_crash;
use sled_pagecache::Disk;
use sled_pagecache::crashes::writes_and_syncs;
use sled_pagecache::openings::every_opening_of_a_disk_shows_a_prefix;
use sled_pagecache_testing::disks::Disked;
use sled_pagecache_testing::steps::shown;

// The log that is opened again behind a crash of the cache's disk, so many writes and syncs behind the moment `since`, or at the end if
// that is earlier. Unsynced bytes are as they were written, or of that byte.
fn crashed(
    alloc: Global,
    cache: Disked,
    since: usize,
    later: u32,
    fill: Option<u8>,
) -> Option<DiskLog<MemDisk>>
    ensures { IfSome result (λ left. HoldsCrash ⟦<DiskLog<MemDisk> as Log>⟧ cache.log since left
        × MayBeOpened ⟦<DiskLog<MemDisk> as Log>⟧ left) }
{
    let made = writes_and_syncs(&cache);
    if made < since || cache.batch_open() {
        return None;
    }
    let n = since + 1 + later as usize;
    match reopen_after_a_crash(alloc, cache.into_log(), n, fill, 4096, 0) {
        Ok(log) => Some(log),
        Err(_) => None,
    }
}

// A page is added and flushed, and the log is handed on.
fn handed_on(alloc: Global, config: Config, log: DiskLog<MemDisk>) -> Option<DiskLog<MemDisk>>
    requires { MayBeOpened ⟦<DiskLog<MemDisk> as Log>⟧ log }
    ensures { IfSome result (IsOpenedOnce ⟦<DiskLog<MemDisk> as Log>⟧ log (Some HandedOn)) }
{
    let Ok(mut cache) = PageCache::start(alloc, config, log) else {
        return None;
    };
    let Ok((_pid, _token)) = cache.allocate(Node::default(alloc)) else {
        return None;
    };
    let Ok(_written) = cache.flush() else {
        return None;
    };
    let Ok(shape) = cache.shape() else {
        return None;
    };
    if shape.fault || cache.batch_open() {
        return None;
    }
    Some(cache.into_log())
}

// A page is added, and a crash comes inside the flush behind it, or as it ends.
fn crashed_flushing(
    alloc: Global,
    config: Config,
    log: DiskLog<MemDisk>,
    later: u32,
    fill: Option<u8>,
) -> Option<DiskLog<MemDisk>>
    requires { MayBeOpened ⟦<DiskLog<MemDisk> as Log>⟧ log }
    ensures { IfSome result (λ left. (written : ℕ) × IsOpenedOnce ⟦<DiskLog<MemDisk> as Log>⟧ log (Some (CrashedIn Flush (Flushed (Ok written)))) left) }
{
    let Ok(mut cache) = PageCache::start(alloc, config, log) else {
        return None;
    };
    let Ok((_pid, _token)) = cache.allocate(Node::default(alloc)) else {
        return None;
    };
    let since = writes_and_syncs(&cache);
    let Ok(_written) = cache.flush() else {
        return None;
    };
    let left = crashed(alloc, cache, since, later, fill)?;
    Some(left)
}

// A crash comes while the cache is rewritten into another log, or as that ends.
fn crashed_rewriting(
    alloc: Global,
    config: Config,
    log: DiskLog<MemDisk>,
    later: u32,
    fill: Option<u8>,
) -> Option<DiskLog<MemDisk>>
    requires { MayBeOpened ⟦<DiskLog<MemDisk> as Log>⟧ log }
    ensures { IfSome result (IsOpenedOnce ⟦<DiskLog<MemDisk> as Log>⟧ log (Some CrashedRewriting)) }
{
    let Ok(mut cache) = PageCache::start(alloc, config, log) else {
        return None;
    };
    let since = writes_and_syncs(&cache);
    let into = new_log(alloc, 65_536)?;
    let _rewritten = cache.rewrite_into(into);
    let left = crashed(alloc, cache, since, later, fill)?;
    Some(left)
}

// A start that these settings refuse.
fn refused(alloc: Global, config: Config, log: DiskLog<MemDisk>) -> Option<DiskLog<MemDisk>>
    requires { MayBeOpened ⟦<DiskLog<MemDisk> as Log>⟧ log }
    ensures { IfSome result (IsOpenedOnce ⟦<DiskLog<MemDisk> as Log>⟧ log None) }
{
    match PageCache::start(alloc, config, log) {
        Err((Error::Unsupported(_), log)) => Some(log),
        _ => None,
    }
}

// What all four leave, one over what the other left.
fn left_by_four(
    alloc: Global,
    config: Config,
    later: u32,
    fill: Option<u8>,
) -> Option<DiskLog<MemDisk>>
    ensures { IfSome result (λ left. (log : DiskLog MemDisk ⟦<MemDisk as Disk>⟧)
        × (openings : List (Opening (DiskLog MemDisk ⟦<MemDisk as Disk>⟧)))
        × (written : ℕ)
        × IsEmpty ⟦<DiskLog<MemDisk> as Log>⟧ log
        × IsRun ⟦<DiskLog<MemDisk> as Log>⟧ log openings
        × (map ending_of openings ≡ Some HandedOn ∷ Some (CrashedIn Flush (Flushed (Ok written))) ∷ Some CrashedRewriting ∷ None ∷ [])
        × ShowPrefixes ⟦<DiskLog<MemDisk> as Log>⟧ (history_from []) openings
        × MayBeOpened ⟦<DiskLog<MemDisk> as Log>⟧ left) }
{
    every_opening_of_a_disk_shows_a_prefix();
    let log = new_log(alloc, 65_536)?;
    let log = handed_on(alloc, config, log)?;
    let log = crashed_flushing(alloc, config, log, later, fill)?;
    let log = crashed_rewriting(alloc, config, log, later, fill)?;
    let too_small = Config {
        cache_capacity: 255,
        ..config
    };
    let log = refused(alloc, too_small, log)?;
    Some(log)
}

// Whether what was flushed is there behind all four.
fn has_flushed(alloc: Global, later: u32, fill: Option<u8>) -> bool {
    let Some(log) = left_by_four(alloc, CONFIG, later, fill) else {
        return false;
    };
    match PageCache::start(alloc, CONFIG, log) {
        Ok(mut cache) => shown(alloc, &mut cache, &[Recovered(true), Gets(2, Empty(0))]) == 2,
        Err(_) => false,
    }
}

#[test]
fn a_run_of_openings_shows_what_was_flushed(rt: HostRuntime) {
    for later in [0, 1, 2, 3, u32::MAX] {
        for fill in [None, Some(0), Some(255)] {
            assert!(rt; has_flushed(rt.alloc(), later, fill), "{later} {fill:?}");
        }
    }
}
