//! What a sequence of calls of the page cache does.

ghost use Rattle.std.specs.Prelude.{List, [], ◌∷◌, ◌++◌};
ghost use Rattle.sled_pagecache.specs.Cache.{Cache};
ghost use Rattle.sled_pagecache.specs.Calls.{Steps};
ghost use Rattle.sled_pagecache.specs.Rows.{StepInRow, AreMade};
ghost use Rattle.sled_pagecache.specs.declared.pagecache.handles.call.Answer.{Answer};
ghost use Rattle.sled_pagecache.specs.declared.pagecache.handles.call.Call.{Call};

use sled_log::Log;

/// Proves which calls are steps in a row: no call, one call, calls after other such calls, and calls that were made one after another.
///
/// What they write is added to the log in order. A crash at any moment during them leaves what the log held and a prefix of everything that
/// they write, which splits no batch.
pub fn calls_in_a_row_are_steps<L: Log>()
    ensures none { (cache : Cache L) → StepInRow L.Log cache [] cache }
    ensures one { (old new : Cache L) (call : Call) (answer : Answer)
        → Steps L.Log old call answer new → StepInRow L.Log old ((call, answer) ∷ []) new }
    ensures then { (old mid new : Cache L) (calls others : List (Call × Answer)) → StepInRow L.Log
        old calls mid → StepInRow L.Log mid others new → StepInRow L.Log old (calls ++ others) new }
    ensures made { (old new : Cache L) (calls : List (Call × Answer)) → AreMade L.Log old calls new
        → StepInRow L.Log old calls new }
{}
