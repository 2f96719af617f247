//! Named roots.

ghost use Rattle.std.specs.Prelude.{◌≡◌};
ghost use Rattle.sled_handle.specs.Handles.{Through};
ghost use Rattle.sled_handle.specs.Steps.{FindsRoot, OpensTree, SwapsRoot};

use sled_handle::Handle;
use sled_handle::status::CLOSED;
use sled_handle::through::roots as through;
use std::alloc::Global;

/// Writes the root page of a name.
#[unsafe(no_mangle)]
pub extern "C" fn dilluvas_raw_root(
    alloc: Global,
    handle: &mut Handle,
    name: &[u8],
    page: &mut u64,
) -> u32
    ensures { Through handle.old.store handle.new.store result (page.new ≡ page.old)
        (λ _ g old new status. FindsRoot g old new name.now status page.old page.new) }
{
    behind!(alloc, handle, store => through::root(store, name, page))
}

/// Gives a name the root `next`, if its root is `root`. Page 0 means no root.
#[unsafe(no_mangle)]
pub extern "C" fn dilluvas_raw_cas_root(
    alloc: Global,
    handle: &mut Handle,
    name: &[u8],
    root: &mut u64,
    next: u64,
) -> u32
    ensures { Through handle.old.store handle.new.store result (root.new ≡ root.old)
        (λ _ g old new status. SwapsRoot g old new name.now next status root.old root.new) }
{
    behind!(alloc, handle, store => through::cas_root(store, name, root, next))
}

/// Writes the root page of a name. A name that has none gets an index over an empty leaf.
#[unsafe(no_mangle)]
pub extern "C" fn dilluvas_raw_open_tree(
    alloc: Global,
    handle: &mut Handle,
    name: &[u8],
    page: &mut u64,
) -> u32
    ensures { Through handle.old.store handle.new.store result (page.new ≡ page.old)
        (λ _ g old new status. OpensTree g old new name.now status page.old page.new) }
{
    behind!(alloc, handle, store => through::open_tree(alloc, store, name, page))
}
