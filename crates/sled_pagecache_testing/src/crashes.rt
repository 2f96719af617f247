//! A caller of the law on crashes, for caches over the log in memory.

ghost use Rattle.std.specs.Prelude.{◌≡◌, false, IfOk};
ghost use Rattle.sled_log.specs.Events.{IsFair};
ghost use Rattle.sled_log.specs.MemLog.State.{state_of};
ghost use Rattle.sled_log.specs.contracts.memory.calls.MemLogLog.TheImpl as mem;
ghost use Rattle.sled_log.specs.declared.memory.MemLog.{MemLog};
ghost use Rattle.sled_pagecache.specs.Cache.{Cache as CacheModel, Represents};
ghost use Rattle.sled_pagecache.specs.Calls.{StepOver, Steps};
ghost use Rattle.sled_pagecache.specs.Logged.{Logged};
ghost use Rattle.sled_pagecache.specs.Reopening.{AreAfterPrefix, ReopensTo};
ghost use Rattle.sled_pagecache.specs.State.{State};
ghost use Rattle.sled_pagecache.specs.Step.{Outcome};
ghost use Rattle.sled_pagecache.specs.declared.pagecache.handles.call.Answer.{Answer};
ghost use Rattle.sled_pagecache.specs.declared.pagecache.handles.call.Call.{Call};

use sled_base::Error;
use sled_log::MemLog;
use sled_pagecache::laws::a_crash_reopens_to_a_prefix;
use sled_pagecache::{Config, PageCache};
use std::alloc::Global;

/// Opens a cache over what a crash leaves of the log of another cache, if the crash keeps `n` of the pending events. Whatever call the
/// other cache ran last, the new one has the pages after a prefix of the changes.
pub fn reopen(
    alloc: Global,
    config: Config,
    log: MemLog,
    n: usize,
) -> Result<PageCache<MemLog>, (Error, MemLog)>
    requires { IsFair (state_of log).pending n }
    ensures { (old new : CacheModel MemLog) (call : Call) (answer : Answer) (held : Logged) (s : State) → new.log ≡ log → Steps mem.ghosts old call answer new → Represents mem.ghosts old held s → s.fault ≡ false → (out : Outcome) × StepOver mem.ghosts old s call answer out × IfOk result (ReopensTo mem.ghosts (AreAfterPrefix held out.changes) config) }
{
    a_crash_reopens_to_a_prefix::<MemLog>();
    PageCache::start(alloc, config, log.stop(n))
}
