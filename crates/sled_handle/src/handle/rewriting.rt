//! Rewriting a cache into the log of another handle.

ghost use Rattle.std.specs.Prelude.{◌≡◌};
ghost use Rattle.sled_handle.specs.Handles.{ThroughStore};
ghost use Rattle.sled_handle.specs.Rewriting.{Rewrites};

use super::Handle;
use crate::store::Store;
use crate::through::rewriting as through;
use std::alloc::Global;

/// Writes the pages of a store's cache to the new log of a handle, and makes them durable there. The handle then has the log. If the rewrite fails,
/// the handle is closed. The other statuses, at which both stay as they are, are those of `through::rewrite`.
pub fn rewrite_behind(alloc: Global, store: &mut Store, into: &mut Handle) -> u32
    ensures { ThroughStore store.old store.new result (into.new.store ≡ into.old.store)
        (λ _ g old new status. Rewrites g old new into.old.store into.new.store status) }
{
    let mut other = into.take(alloc);
    let status = through::rewrite(store, &mut other);
    if let Some(other) = other {
        into.put(alloc, other);
    }
    status
}
