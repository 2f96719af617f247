//! Rewriting a cache into another log, which is no larger than its pages need.

ghost use Rattle.std.specs.Prelude.{◌≡◌, ⊤};
ghost use Rattle.sled_handle.specs.Handles.{Through, ThroughMemory};
ghost use Rattle.sled_handle.specs.Rewriting.{Compacts, Rewrites};

use sled_handle::handle::rewrite_behind;
use sled_handle::status::CLOSED;
use sled_handle::through::rewriting as through;
use sled_handle::{Handle, Settings};
use std::alloc::Global;

/// Writes the pages of a cache to the new log of a file, which `dilluvas_raw_new_log` left in the other handle, and makes them durable there. The
/// cache stays as it is. The other handle then has the log, over which `dilluvas_raw_open_file` opens a cache. It is closed if the rewrite fails, or
/// needs bytes of the cache's own file.
///
/// Returns `ALREADY_OPEN` if the other handle has a cache, and `CLOSED` if either handle has nothing, or the other has no new log. Then both stay as
/// they are, and so they do at `WRITE` if a write or a sync of the cache's own file had failed before.
#[unsafe(no_mangle)]
pub extern "C" fn dilluvas_raw_rewrite(alloc: Global, handle: &mut Handle, into: &mut Handle) -> u32
    ensures { Through handle.old.store handle.new.store result (into.new.store ≡ into.old.store)
        (λ _ g old new status. Rewrites g old new into.old.store into.new.store status) }
{
    behind!(alloc, handle, store => rewrite_behind(alloc, store, into))
}

/// Rewrites a cache in memory into a new log, and replaces it with a cache that is opened over that log. If that fails, the cache continues as it
/// was.
#[unsafe(no_mangle)]
pub extern "C" fn dilluvas_raw_compact(
    alloc: Global,
    handle: &mut Handle,
    settings: &Settings,
) -> u32
    ensures { ThroughMemory handle.old.store handle.new.store result ⊤
        (λ old new status. Compacts settings.now old new status) }
{
    behind!(alloc, handle, store => through::compact(alloc, store, *settings))
}
