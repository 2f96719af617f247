//! Named roots.

ghost use Rattle.std.specs.Prelude.{◌≡◌};
ghost use Rattle.sled_handle.specs.Handles.{ThroughStore};
ghost use Rattle.sled_handle.specs.Steps.{FindsRoot, OpensTree, SwapsRoot};

use crate::calls::roots as calls;
use crate::file::{has_failed, told};
use crate::status::{CLOSED, WRITE};
use crate::store::Store;
use sled_disk::CallersFile;
use std::alloc::Global;

/// Writes the root page of a name. Returns `NONE` if it has none.
pub fn root<F: CallersFile>(store: &mut Store<F>, name: &[u8], page: &mut u64) -> u32
    ensures { ThroughStore store.old store.new result (page.new ≡ page.old)
        (λ _ g old new status. FindsRoot g old new name.now status page.old page.new) }
{
    through!(store, cache => calls::root(cache, name, page))
}

/// Gives a name the root `next`, if its root is `root`. Page 0 means no root. If the name has another root, writes that to `root` and returns
/// `STALE`, and nothing changes.
pub fn cas_root<F: CallersFile>(store: &mut Store<F>, name: &[u8], root: &mut u64, next: u64) -> u32
    ensures { ThroughStore store.old store.new result (root.new ≡ root.old)
        (λ _ g old new status. SwapsRoot g old new name.now next status root.old root.new) }
{
    through!(store, cache => calls::cas_root(cache, name, root, next))
}

/// Writes the root page of a name. A name that has none gets an index over an empty leaf.
pub fn open_tree<F: CallersFile>(
    alloc: Global,
    store: &mut Store<F>,
    name: &[u8],
    page: &mut u64,
) -> u32
    ensures { ThroughStore store.old store.new result (page.new ≡ page.old)
        (λ _ g old new status. OpensTree g old new name.now status page.old page.new) }
{
    through!(store, cache => calls::open_tree(alloc, cache, name, page))
}
