//! Allocating, reading, changing and freeing a page.

ghost use Rattle.std.specs.Prelude.{◌≡◌};
ghost use Rattle.sled_handle.specs.Handles.{Through};
ghost use Rattle.sled_node.specs.declared.node.link.Link.TheVariants.{Set, Del};
ghost use Rattle.sled_handle.specs.Found.{GetsPage};
ghost use Rattle.sled_handle.specs.Steps.{AllocatesLeaf, FreesPage, MakesLink, ReplacesByLeaf};
ghost use Rattle.sled_handle.specs.Values.{GetsValue, written};

use sled_handle::status::CLOSED;
use sled_handle::through::pages as through;
use sled_handle::{Found, Handle};
use std::alloc::Global;

/// Allocates a page with a leaf of the pairs, and writes its number and its stamp.
#[unsafe(no_mangle)]
pub extern "C" fn dilluvas_raw_allocate(
    alloc: Global,
    handle: &mut Handle,
    pairs: &[u8],
    page: &mut u64,
    stamp: &mut u64,
) -> u32
    ensures { Through handle.old.store handle.new.store result
        ((page.new ≡ page.old) × (stamp.new ≡ stamp.old))
        (λ _ g old new status. AllocatesLeaf g old new pairs.now status (page.old, stamp.old)
        (page.new, stamp.new)) }
{
    behind!(alloc, handle, store => through::allocate(alloc, store, pairs, page, stamp))
}

/// Writes what a page is, and its pairs.
#[unsafe(no_mangle)]
pub extern "C" fn dilluvas_raw_get(
    alloc: Global,
    handle: &mut Handle,
    page: u64,
    found: &mut Found,
    buffer: &mut [u8],
) -> u32
    ensures { Through handle.old.store handle.new.store result
        ((found.new ≡ found.old) × (buffer.new ≡ buffer.old))
        (λ _ g old new status. GetsPage g old new page status (found.old, buffer.old)
        (found.new, buffer.new)) }
{
    behind!(alloc, handle, store => through::get(store, page, found, buffer))
}

/// Writes the value of a key of a leaf, its length, and the stamp of the page.
#[unsafe(no_mangle)]
pub extern "C" fn dilluvas_raw_value(
    alloc: Global,
    handle: &mut Handle,
    page: u64,
    key: &[u8],
    stamp: &mut u64,
    buffer: &mut [u8],
    needed: &mut usize,
) -> u32
    ensures { Through handle.old.store handle.new.store result
        (written stamp.new needed.new buffer.new ≡ written stamp.old needed.old buffer.old)
        (λ _ g old new status. GetsValue g old new page key.now status (written stamp.old needed.old
        buffer.old) (written stamp.new needed.new buffer.new)) }
{
    behind!(alloc, handle, store => through::value(store, page, key, stamp, buffer, needed))
}

/// Sets a key of a leaf to a value, if the page has the expected stamp, and writes the stamp that it has now.
#[unsafe(no_mangle)]
pub extern "C" fn dilluvas_raw_set(
    alloc: Global,
    handle: &mut Handle,
    page: u64,
    stamp: &mut u64,
    key: &[u8],
    value: &[u8],
) -> u32
    ensures { Through handle.old.store handle.new.store result (stamp.new ≡ stamp.old)
        (λ _ g old new status. MakesLink g old new page (Set key.now value.now) status stamp.old
        stamp.new) }
{
    behind!(alloc, handle, store => through::set(alloc, store, page, stamp, key, value))
}

/// Removes a key from a leaf, likewise.
#[unsafe(no_mangle)]
pub extern "C" fn dilluvas_raw_del(
    alloc: Global,
    handle: &mut Handle,
    page: u64,
    stamp: &mut u64,
    key: &[u8],
) -> u32
    ensures { Through handle.old.store handle.new.store result (stamp.new ≡ stamp.old)
        (λ _ g old new status. MakesLink g old new page (Del key.now) status stamp.old stamp.new) }
{
    behind!(alloc, handle, store => through::del(alloc, store, page, stamp, key))
}

/// Replaces the contents of a page with a leaf of the pairs, likewise.
#[unsafe(no_mangle)]
pub extern "C" fn dilluvas_raw_replace(
    alloc: Global,
    handle: &mut Handle,
    page: u64,
    stamp: &mut u64,
    pairs: &[u8],
) -> u32
    ensures { Through handle.old.store handle.new.store result (stamp.new ≡ stamp.old)
        (λ _ g old new status. ReplacesByLeaf g old new page pairs.now status stamp.old stamp.new) }
{
    behind!(alloc, handle, store => through::replace(alloc, store, page, stamp, pairs))
}

/// Frees a page, likewise.
#[unsafe(no_mangle)]
pub extern "C" fn dilluvas_raw_free(
    alloc: Global,
    handle: &mut Handle,
    page: u64,
    stamp: &mut u64,
) -> u32
    ensures { Through handle.old.store handle.new.store result (stamp.new ≡ stamp.old)
        (λ _ g old new status. FreesPage g old new page status stamp.old stamp.new) }
{
    behind!(alloc, handle, store => through::free(store, page, stamp))
}
