// Callers of the laws on crashes of a disk: what they say of a cache that was really made.

ghost use Rattle.std.specs.Prelude.{◌≡◌, ◌≤◌, ◌-◌, List, Ok, OnOk, IfOk};
ghost use Rattle.sled_disk.specs.declared.disk.memory.MemDisk.{MemDisk};
ghost use Rattle.sled_disk.specs.declared.log.DiskLog.{DiskLog};
ghost use Rattle.sled_pagecache.specs.Cache.{Cache as CacheModel};
ghost use Rattle.sled_pagecache.specs.Reopening.{IsFlushed, ReopensAfter, HasFlushed};
ghost use Rattle.sled_pagecache.specs.Rows.{StepInRow};
ghost use Rattle.sled_pagecache.specs.State.{State};
ghost use Rattle.sled_pagecache.specs.State.{pid_of};
ghost use Rattle.sled_pagecache.specs.declared.pagecache.handles.call.Answer.{Answer};
ghost use Rattle.sled_pagecache.specs.declared.pagecache.handles.call.Call.{Call};

use super::*;
use sled_pagecache::crashes::{
    a_cache_is_flushed, reopen_after_a_crash, start_on_a_new_disk, what_was_flushed_is_there,
    writes_and_syncs,
};
use sled_pagecache::rows::calls_in_a_row_are_steps;
use sled_pagecache_testing::disks::Disked;
use sled_pagecache_testing::steps::Sight::Empty;
use sled_pagecache_testing::steps::Step::Gets;
use sled_pagecache_testing::steps::shows;

// Frees a page in a batch that is sealed, whatever these calls answer: they are calls in a row.
fn free_in_a_batch<L: Log>(
    cache: &mut PageCache<L>,
    pid: PageId,
    token: PageView,
) -> Result<(), Error>
    requires { pid_of token ≡ pid }
    ensures { OnOk result ((calls : List (Call × Answer)) × StepInRow L.Log cache.old calls cache.new) }
{
    calls_in_a_row_are_steps::<L>();
    let mut guard = cache.pin_log()?;
    let _freed = guard.cache().free(pid, token);
    let _sealed = guard.seal_batch();
    Ok(())
}

// The call before which a crash comes, if the disk of a cache makes so many before it.
fn call_behind(cache: &Disked, later: u32) -> usize
    ensures { ⟦<DiskLog<MemDisk> as Log>⟧.moment cache.now.log ≤ result - 1 }
{
    writes_and_syncs(cache) + 1 + later as usize
}

// A cache on a new disk with an empty leaf on page 2, which is flushed. Then the leaf is freed in a batch, and the disk crashes so many
// writes and syncs behind the flush: the cache that is opened again has what was flushed, with the batch or without.
fn freed_then_crashed(
    alloc: Global,
    config: Config,
    later: u32,
    fill: Option<u8>,
) -> Result<Disked, Error>
    ensures { IfOk result (λ new. (first : CacheModel (DiskLog MemDisk ⟦<MemDisk as Disk>⟧)) × (s : State) × (calls : List (Call × Answer)) × (last : CacheModel (DiskLog MemDisk ⟦<MemDisk as Disk>⟧)) × IsFlushed ⟦<DiskLog<MemDisk> as Log>⟧ first s × ReopensAfter ⟦<DiskLog<MemDisk> as Log>⟧ first s calls last config (Ok new)) }
{
    let mut cache = start_on_a_new_disk(alloc, 4096, config, 0)?;
    let (pid, token) = cache.allocate(Node::default(alloc))?;
    cache.flush()?;
    a_cache_is_flushed(&cache);
    let n = call_behind(&cache, later);
    free_in_a_batch(&mut cache, pid, token)?;
    reopen_after_a_crash(alloc, cache, n, fill, config, 0)
}

// The same with no batch: exactly what was flushed.
fn flushed_then_crashed(
    alloc: Global,
    config: Config,
    later: u32,
    fill: Option<u8>,
) -> Result<Disked, Error>
    ensures { IfOk result (λ new. (first : CacheModel (DiskLog MemDisk ⟦<MemDisk as Disk>⟧)) × (s : State) × IsFlushed ⟦<DiskLog<MemDisk> as Log>⟧ first s × HasFlushed ⟦<DiskLog<MemDisk> as Log>⟧ s config new) }
{
    let mut cache = start_on_a_new_disk(alloc, 4096, config, 0)?;
    cache.allocate(Node::default(alloc))?;
    cache.flush()?;
    a_cache_is_flushed(&cache);
    let n = call_behind(&cache, later);
    what_was_flushed_is_there(alloc, cache, n, fill, config, 0)
}

// Whether page 2 is there, empty.
fn has_leaf(alloc: Global, cache: Result<Disked, Error>) -> bool {
    match cache {
        Ok(mut cache) => shows(alloc, &mut cache, &Gets(2, Empty(0))),
        Err(_) => false,
    }
}

// Whether the leaf is there behind each of the two crashes. The batch stays pending.
fn leave_leaf(alloc: Global, later: u32, fill: Option<u8>) -> bool {
    has_leaf(alloc, freed_then_crashed(alloc, CONFIG, later, fill))
        && has_leaf(alloc, flushed_then_crashed(alloc, CONFIG, later, fill))
}

#[test]
fn what_was_flushed_is_opened_again(rt: HostRuntime) {
    for later in [0, 1, 2, u32::MAX] {
        for fill in [None, Some(0), Some(255)] {
            assert!(rt; leave_leaf(rt.alloc(), later, fill), "{later} {fill:?}");
        }
    }
}
