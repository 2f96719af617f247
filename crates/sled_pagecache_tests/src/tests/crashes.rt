// What a crash leaves of the log of a cache.

ghost use Rattle.std.specs.Prelude.{IfSome};
ghost use Rattle.sled_log.specs.contracts.memory.calls.MemLogLog.TheImpl as mem;
ghost use Rattle.sled_pagecache.specs.Openings.{Crashed, Leaves};

use super::*;

// What a crash leaves of the log of a cache that keeps so many of the pending events. There is none while a batch is open, or where there
// are fewer events.
pub(super) fn crashed(cache: PageCache<MemLog>, keeps: usize) -> Option<MemLog>
    ensures { IfSome result (Leaves mem.ghosts cache Crashed) }
{
    if cache.batch_open() {
        return None;
    }
    let log = cache.into_log();
    if !log.is_fair(keeps) {
        return None;
    }
    Some(log.stop(keeps))
}
