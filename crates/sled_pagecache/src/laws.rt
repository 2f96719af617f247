//! Properties of the definitions that the contracts of a page cache cite.

ghost use Rattle.std.specs.Prelude.{◌≡◌, [], ◌++◌, Bool, false, List, Result, take};
ghost use Rattle.sled_log.specs.Contents.{Update, contents_after};
ghost use Rattle.sled_log.specs.Events.{Event};
ghost use Rattle.sled_log.specs.Messages.{Messages};
ghost use Rattle.sled_log.specs.LogState.{IsPrefix};
ghost use Rattle.sled_pagecache.specs.Cache.{Cache, Represents};
ghost use Rattle.sled_pagecache.specs.Calls.{StepOver, Steps};
ghost use Rattle.sled_pagecache.specs.Limits.{meta_pid, counter_pid, batch_manifest_pid, most_messages, pid_bits, chunk_bits, chunk_length};
ghost use Rattle.sled_pagecache.specs.Logged.{Logged, IsLogged, IsLeft, now};
ghost use Rattle.sled_pagecache.specs.Opening.{changes_of_start};
ghost use Rattle.sled_pagecache.specs.Reopening.{AreAfterPrefix, CrashReopens};
ghost use Rattle.sled_pagecache.specs.Rows.{AreSteps, StepInRow, changes_of};
ghost use Rattle.sled_pagecache.specs.Opening.{Opens, log_after, stable_state, stable_contents};
ghost use Rattle.sled_pagecache.specs.Served.{IsServed, StaysAsItIs};
ghost use Rattle.sled_pagecache.specs.State.{State};
ghost use Rattle.sled_pagecache.specs.Step.{Outcome};
ghost use Rattle.sled_pagecache.specs.declared.pagecache.handles.call.Answer.{Answer};
ghost use Rattle.sled_pagecache.specs.declared.pagecache.handles.call.Call.{Call};
ghost use Rattle.sled_pagecache.specs.declared.pagecache.handles.config.Config.{Config};
ghost use Rattle.sled_base.specs.declared.types.Error.{Error};

use crate::pagecache::{
    BATCH_MANIFEST_PID, CHUNK_BITS, CHUNK_LENGTH, COUNTER_PID, MAX_PID_BITS, META_PID,
    PAGE_CONSOLIDATION_THRESHOLD,
};
use sled_log::Log;

/// Proves that the constants of the crate are the numbers of the definitions.
pub fn constants_are_the_numbers()
    ensures meta { META_PID ≡ meta_pid }
    ensures counter { COUNTER_PID ≡ counter_pid }
    ensures batch { BATCH_MANIFEST_PID ≡ batch_manifest_pid }
    ensures messages { PAGE_CONSOLIDATION_THRESHOLD ≡ most_messages }
    ensures bits { MAX_PID_BITS ≡ pid_bits }
    ensures chunk { CHUNK_BITS ≡ chunk_bits }
    ensures length { CHUNK_LENGTH ≡ chunk_length }
{}

/// Proves that a log to which nothing was appended holds no page.
pub fn an_empty_log_is_logged()
    ensures { (usable : Bool) → IsLogged (stable_state [] usable) (stable_contents []) }
{}

/// Proves that a crash leaves a log over which a cache can be opened again, and that this log holds the contents that the crash left.
pub fn what_a_crash_leaves_is_logged()
    ensures { (held : Logged) (changes : List (Event Update)) (pages : List Messages)
        (left : IsLeft held changes pages) (usable : Bool)
        → IsLogged (stable_state pages usable) (stable_contents
        (contents_after held.stable (take left.cut (held.pending ++ left.came)))) }
{}

/// Proves that a cache stays in its state, whichever that is, while its caller serves its log between two calls.
pub fn a_served_cache_stays_as_it_is<L: Log>()
    ensures { (old new : Cache L) → IsServed L.Log old new → StaysAsItIs L.Log old new }
{}

/// Proves that a crash at any moment, even inside a call, reopens to the pages after a prefix of the changes begun. The prefix holds
/// everything that was durable, and splits no batch.
///
/// The clauses are for one call, for calls in a row, and for opening a cache. The calls may start in any state without a write error. The
/// crash may come at any moment since the start of the call, the calls or the opening, and may leave any crash state that the log has then,
/// also after a write error in them. A cache that `start` opens over a log with such a crash state is the opening of those pages.
pub fn a_crash_reopens_to_a_prefix<L: Log>()
    ensures of_a_call { (old new : Cache L) (call : Call) (answer : Answer)
        → Steps L.Log old call answer new
        → (held : Logged) (s : State)
        → Represents L.Log old held s
        → s.fault ≡ false
        → (out : Outcome) × StepOver L.Log old s call answer out
        × CrashReopens L.Log new.log (L.moment old.log) (AreAfterPrefix held out.changes) }
    ensures of_calls { (old new : Cache L) (calls : List (Call × Answer))
        → StepInRow L.Log old calls new
        → (held : Logged) (s : State)
        → Represents L.Log old held s
        → s.fault ≡ false
        → (outs : List Outcome) × (t : State) × AreSteps L.Log (Steps L.Log) old s calls outs new t
        × CrashReopens L.Log new.log (L.moment old.log) (AreAfterPrefix held (changes_of outs)) }
    ensures of_opening { L.tells
        → (log : L) (config : Config) (held : Logged) (result : Result (Cache L) (Error × L))
        → Opens L.Log log config held result
        → (begun : List (Event Update)) × IsPrefix begun (changes_of_start (now held))
        × CrashReopens L.Log (log_after result) (L.moment log) (AreAfterPrefix held begun) }
{}
