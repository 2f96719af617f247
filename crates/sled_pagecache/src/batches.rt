//! What a crash leaves of a batch.

ghost use Rattle.std.specs.Prelude.{◌≡◌, ℕ, false, List, Ok};
ghost use Rattle.sled_pagecache.specs.Batches.{AreWithout, AreThoseOf, EachClosed, RunsBatch, StandsWhole, StandsInPart};
ghost use Rattle.sled_pagecache.specs.Cache.{Cache, Represents};
ghost use Rattle.sled_pagecache.specs.Logged.{Logged};
ghost use Rattle.sled_pagecache.specs.Reopening.{CrashReopens};
ghost use Rattle.sled_pagecache.specs.Rows.{IsMade};
ghost use Rattle.sled_pagecache.specs.State.{State};
ghost use Rattle.sled_pagecache.specs.declared.pagecache.handles.call.Answer.{Answer};
ghost use Rattle.sled_pagecache.specs.declared.pagecache.handles.call.Answer.TheVariants.{Sealed, Cancelled, Flushed};
ghost use Rattle.sled_pagecache.specs.declared.pagecache.handles.call.Call.{Call};
ghost use Rattle.sled_pagecache.specs.declared.pagecache.handles.call.Call.TheVariants.{Seal, Cancel, Flush};

use sled_log::Log;

/// Proves that a sealed batch is all or nothing after a crash.
///
/// Before the batch is sealed, a crash at any moment since it was opened, even inside a call, reopens to pages that a crash before the
/// batch could have left. Once it is sealed, whatever the seal returned, a crash reopens to such pages or to all of the batch. Once a flush
/// has returned Ok, a crash reopens to all of it. A crash may leave a part of a cancelled batch.
pub fn a_batch_stands_whole_or_not_at_all<L: Log>()
    ensures unsealed { (old new : Cache L) (calls : List (Call × Answer))
        → RunsBatch L.Log old calls new
        → (held : Logged) (s : State)
        → Represents L.Log old held s
        → s.fault ≡ false
        → CrashReopens L.Log new.log (L.moment old.log) (AreWithout held) }
    ensures sealed { EachClosed L.Log Seal Sealed (StandsWhole L.Log) }
    ensures flushed { (old new : Cache L) (n : ℕ)
        → IsMade L.Log old Flush (Flushed (Ok n)) new
        → (held : Logged) (s : State)
        → Represents L.Log old held s
        → CrashReopens L.Log new.log (L.moment new.log) (AreThoseOf s) }
    ensures cancelled { EachClosed L.Log Cancel Cancelled (StandsInPart L.Log) }
{}
