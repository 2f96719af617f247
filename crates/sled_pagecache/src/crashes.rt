//! Crashes of a cache on a disk in memory, and the cache that is reopened over what each crash leaves.

ghost use Rattle.std.specs.Prelude.{◌≡◌, ◌≤◌, ◌<◌, ◌-◌, ◌^◌, [], false, List, IfOk, IfErr};
ghost use Rattle.sled_disk.specs.declared.disk.memory.MemDisk.{MemDisk};
ghost use Rattle.sled_disk.specs.declared.log.DiskLog.{DiskLog};
ghost use Rattle.sled_pagecache.specs.Cache.{Cache, Represents};
ghost use Rattle.sled_pagecache.specs.Reopening.{IsFlushed, ReopensAfter, HasFlushed, RefusesReopening};
ghost use Rattle.sled_pagecache.specs.Logged.{Logged};
ghost use Rattle.sled_pagecache.specs.Opening.{opened_state};
ghost use Rattle.sled_pagecache.specs.Rows.{StepInRow};
ghost use Rattle.sled_pagecache.specs.State.{State};
ghost use Rattle.sled_pagecache.specs.declared.pagecache.handles.call.Answer.{Answer};
ghost use Rattle.sled_pagecache.specs.declared.pagecache.handles.call.Call.{Call};

use crate::pagecache::{Config, PageCache};
use crate::rows::calls_in_a_row_are_steps;
use sled_base::Error;
use sled_disk::{Disk, DiskLog, MemDisk};
use sled_log::Log;
use std::alloc::Global;

/// Proves that a cache with nothing pending and no write error is flushed, whichever state it is in.
pub fn a_cache_is_flushed<L: Log>(cache: &PageCache<L>)
    ensures { cache.now.fault ≡ false → (L.state cache.now.log).pending ≡ []
        → (held : Logged) (s : State) → Represents L.Log cache.now held s
        → IsFlushed L.Log cache.now s }
{
    cache.know_own();
}

/// Starts a cache on a new disk in memory.
///
/// The disk has room for `limit` written bytes, and for `limit` writes and syncs. The cache has only the system pages, and all of it is
/// durable.
pub fn start_on_a_new_disk(
    alloc: Global,
    limit: usize,
    config: Config,
    clean_every: u64,
) -> Result<PageCache<DiskLog<MemDisk>>, Error>
    ensures { IfOk result
        (λ cache. IsFlushed ⟦<DiskLog<MemDisk> as Log>⟧ cache (opened_state config [])) }
{
    let segment_size = config.segment_size as u64;
    let mut disk = MemDisk::new(alloc, limit)?;
    DiskLog::create(&mut disk)?;
    match DiskLog::open(alloc, disk, segment_size, clean_every) {
        Ok(log) => match PageCache::start(alloc, config, log) {
            Ok(cache) => Ok(cache),
            Err((error, _log)) => Err(error),
        },
        Err((error, _disk)) => Err(Error::from(error)),
    }
}

/// Returns how many writes and syncs the disk of a cache has made, which is the moment of its log. A crash before the next write or sync is
/// a crash now.
pub fn writes_and_syncs(cache: &PageCache<DiskLog<MemDisk>>) -> usize
    ensures moment { result ≡ ⟦<DiskLog<MemDisk> as Log>⟧.moment cache.now.log }
    ensures small { result < 2 ^ 63 }
{
    cache.log().disk().calls()
}

/// Reopens a cache after a crash of its disk before write or sync number `n`, counted from 1. The crash leaves each unsynced range as it
/// was written or, if `fill` is given, filled with that byte.
///
/// The contract is about a cache that was flushed, and then called, whatever the calls returned. The crash comes at any moment since the
/// flush, even inside a call, inside a batch, or after a write error. The reopened cache has the pages after a prefix of the changes of
/// those calls. The prefix splits no batch, and the pages hold everything that was flushed. All of the reopened cache is durable, so the
/// same holds for the next crash. Reopening fails only because of the settings, an allocation or the device.
pub fn reopen_after_a_crash(
    alloc: Global,
    cache: PageCache<DiskLog<MemDisk>>,
    n: usize,
    fill: Option<u8>,
    config: Config,
    clean_every: u64,
) -> Result<PageCache<DiskLog<MemDisk>>, Error>
    ensures { (first : Cache (DiskLog MemDisk ⟦<MemDisk as Disk>⟧)) (calls : List (Call × Answer))
        (s : State)
        → IsFlushed ⟦<DiskLog<MemDisk> as Log>⟧ first s
        → ⟦<DiskLog<MemDisk> as Log>⟧.moment first.log ≤ n - 1
        → StepInRow ⟦<DiskLog<MemDisk> as Log>⟧ first calls cache
        → ReopensAfter ⟦<DiskLog<MemDisk> as Log>⟧ first s calls cache config result }
{
    let segment_size = config.segment_size as u64;
    let log = cache.crashed_log();
    sled_disk::a_log_at_rest(&log);
    match sled_disk::reopen_after_a_crash(alloc, log, n, fill, segment_size, clean_every) {
        Ok(log) => match PageCache::start(alloc, config, log) {
            Ok(cache) => Ok(cache),
            Err((error, _log)) => Err(error),
        },
        Err((error, _disk)) => Err(Error::from(error)),
    }
}

/// Reopens, in the same way, a cache that was flushed and not called since. The reopened cache has exactly its pages, each at stamp 0.
pub fn what_was_flushed_is_there(
    alloc: Global,
    cache: PageCache<DiskLog<MemDisk>>,
    n: usize,
    fill: Option<u8>,
    config: Config,
    clean_every: u64,
) -> Result<PageCache<DiskLog<MemDisk>>, Error>
    requires clear { cache.fault ≡ false }
    requires flushed { (⟦<DiskLog<MemDisk> as Log>⟧.state cache.log).pending ≡ [] }
    ensures { (held : Logged) (s : State)
        → Represents ⟦<DiskLog<MemDisk> as Log>⟧ cache held s
        → ⟦<DiskLog<MemDisk> as Log>⟧.moment cache.log ≤ n - 1
        → IfOk result (HasFlushed ⟦<DiskLog<MemDisk> as Log>⟧ s config)
        × IfErr result (RefusesReopening config) }
{
    calls_in_a_row_are_steps::<DiskLog<MemDisk>>();
    a_cache_is_flushed(&cache);
    reopen_after_a_crash(alloc, cache, n, fill, config, clean_every)
}
