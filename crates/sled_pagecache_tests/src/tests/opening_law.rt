// Callers of the law on openings: runs of openings, to which it applies.

ghost use Rattle.std.specs.Prelude.{◌≡◌, ℕ, [], ◌∷◌, Ok, IfSome};
ghost use Rattle.sled_log.specs.contracts.memory.calls.MemLogLog.TheImpl as mem;
ghost use Rattle.sled_log.specs.declared.memory.MemLog.{MemLog};
ghost use Rattle.sled_node.specs.Node.{WholeNode};
ghost use Rattle.sled_pagecache.specs.Cache.{Cache as CacheModel};
ghost use Rattle.sled_pagecache.specs.Openings.{Crashed, Leaves, Starts};
ghost use Rattle.sled_pagecache.specs.Rows.{AreMade};
ghost use Rattle.sled_pagecache.specs.State.{Token};
ghost use Rattle.sled_pagecache.specs.declared.pagecache.handles.call.Answer.TheVariants.{Allocated, Flushed};
ghost use Rattle.sled_pagecache.specs.declared.pagecache.handles.call.Call.TheVariants.{Allocate, Flush};

use super::crashes::crashed;
use super::*;
use sled_pagecache::openings::every_opening_shows_a_prefix;

// The page that a cache over the log adds and flushes, and what a crash leaves then that keeps so many of the pending events. There is
// none where the cache is not opened, refuses a call, or has fewer pending events.
fn added(alloc: Global, config: Config, log: MemLog, keeps: usize) -> Option<(PageId, MemLog)>
    ensures { IfSome result (λ added. (first last : CacheModel MemLog) × (node : WholeNode) × (token : Token) × (written : ℕ) × Starts mem.ghosts log config (Ok first) × AreMade mem.ghosts first ((Allocate node, Allocated (Ok (added.0, token))) ∷ (Flush, Flushed (Ok written)) ∷ []) last × Leaves mem.ghosts last Crashed added.1) }
{
    if log.batch_open() {
        return None;
    }
    let Ok(mut cache) = PageCache::start(alloc, config, log) else {
        return None;
    };
    let Ok((pid, _token)) = cache.allocate(Node::default(alloc)) else {
        return None;
    };
    let Ok(_written) = cache.flush() else {
        return None;
    };
    let left = crashed(cache, keeps)?;
    Some((pid, left))
}

// The pages that two caches add, the second opened over what a crash left of the first: what the first flushed is there, so the second
// adds the next page.
fn add_two(alloc: Global, config: Config, keeps: usize) -> Option<(PageId, PageId)>
    ensures { IfSome result (λ pids. (pids.0 ≡ 2) × (pids.1 ≡ 3)) }
{
    every_opening_shows_a_prefix::<MemLog>();
    let (first, log) = added(alloc, config, MemLog::new(alloc, 512, 16), keeps)?;
    let (second, _log) = added(alloc, config, log, 0)?;
    Some((first, second))
}

#[test]
fn what_was_flushed_is_shown(rt: HostRuntime) {
    assert_eq!(rt; add_two(rt.alloc(), CONFIG, 0), Some((2, 3)));
}
