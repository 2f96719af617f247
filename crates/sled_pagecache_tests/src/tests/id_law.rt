// A caller of the law on generated ids: runs of openings, to which it applies.

ghost use Rattle.std.specs.Prelude.{◌<◌, [], ◌∷◌, Ok, IfSome};
ghost use Rattle.sled_log.specs.contracts.memory.calls.MemLogLog.TheImpl as mem;
ghost use Rattle.sled_log.specs.declared.memory.MemLog.{MemLog};
ghost use Rattle.sled_pagecache.specs.Cache.{Cache as CacheModel};
ghost use Rattle.sled_pagecache.specs.Openings.{Ending, Leaves, Rewritten, Starts};
ghost use Rattle.sled_pagecache.specs.Rows.{AreMade};
ghost use Rattle.sled_pagecache.specs.declared.pagecache.handles.call.Answer.TheVariants.{Generated};
ghost use Rattle.sled_pagecache.specs.declared.pagecache.handles.call.Call.TheVariants.{GenerateId};

use super::crashes::crashed;
use super::*;
use sled_pagecache::openings::ids_are_given_once;

// The log that a cache is rewritten into. There is none where it is refused.
fn rewritten(alloc: Global, mut cache: PageCache<MemLog>) -> Option<MemLog>
    ensures { IfSome result (Leaves mem.ghosts cache Rewritten) }
{
    match cache.rewrite_into(MemLog::new(alloc, 512, 16)) {
        Ok(log) => Some(log),
        Err(_) => None,
    }
}

// What a cache leaves: by a crash that keeps so many of the pending events, or by the log that it is rewritten into.
fn left_by(alloc: Global, cache: PageCache<MemLog>, keeps: Option<usize>) -> Option<MemLog>
    ensures { IfSome result (λ left. (ending : Ending) × Leaves mem.ghosts cache ending left) }
{
    match keeps {
        Some(n) => {
            let log = crashed(cache, n)?;
            Some(log)
        }
        None => {
            let log = rewritten(alloc, cache)?;
            Some(log)
        }
    }
}

// The id that a cache over the log answers, and what it leaves then. There is none where the cache is not opened, answers none, or leaves
// none.
fn drawn(alloc: Global, config: Config, log: MemLog, keeps: Option<usize>) -> Option<(u64, MemLog)>
    ensures { IfSome result (λ drawn. (first last : CacheModel MemLog) × (ending : Ending) × Starts mem.ghosts log config (Ok first) × AreMade mem.ghosts first ((GenerateId, Generated (Ok drawn.0)) ∷ []) last × Leaves mem.ghosts last ending drawn.1) }
{
    if log.batch_open() {
        return None;
    }
    let Ok(mut cache) = PageCache::start(alloc, config, log) else {
        return None;
    };
    let Ok(id) = cache.generate_id_inner() else {
        return None;
    };
    let left = left_by(alloc, cache, keeps)?;
    Some((id, left))
}

/// How two caches end, one after another: by a crash that keeps so many of the pending events, or by the log that it is rewritten into.
type Ends = (Option<usize>, Option<usize>);

// The ids of three caches, each opened over what the one before left: they rise, whatever crashes keep, and over logs that were rewritten.
fn draw_three(alloc: Global, config: Config, ends: Ends) -> Option<(u64, u64, u64)>
    ensures { IfSome result (λ ids. (ids.0 < ids.1) × (ids.1 < ids.2)) }
{
    ids_are_given_once::<MemLog>();
    let (first, log) = drawn(alloc, config, MemLog::new(alloc, 512, 16), ends.0)?;
    let (second, log) = drawn(alloc, config, log, ends.1)?;
    let (third, _log) = drawn(alloc, config, log, None)?;
    Some((first, second, third))
}

// The ids at this interval.
fn ids_at(alloc: Global, interval: u64, ends: Ends) -> Option<(u64, u64, u64)> {
    let config = Config {
        cache_capacity: 256,
        idgen_persist_interval: interval,
        segment_size: 1,
    };
    draw_three(alloc, config, ends)
}

const ENDS: &[Ends] = &[
    (Some(0), Some(0)),
    (None, None),
    (Some(0), None),
    (None, Some(0)),
];

#[test]
fn ids_rise_over_crashes_and_rewritten_logs(rt: HostRuntime) {
    for (interval, ids) in [
        (0, None),
        (1, Some((0, 2, 4))),
        (10, Some((0, 20, 40))),
        (u64::MAX / 5, Some((0, u64::MAX / 5 * 2, u64::MAX / 5 * 4))),
        (u64::MAX / 3, None),
    ] {
        for ends in ENDS {
            assert_eq!(rt;
                ids_at(rt.alloc(), interval, *ends),
                ids,
                "{interval}, {ends:?}"
            );
        }
    }
}
