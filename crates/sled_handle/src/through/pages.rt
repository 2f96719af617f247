//! Allocating, reading, changing and freeing a page.

ghost use Rattle.std.specs.Prelude.{◌≡◌};
ghost use Rattle.sled_handle.specs.Handles.{ThroughStore};
ghost use Rattle.sled_node.specs.declared.node.link.Link.TheVariants.{Set, Del};
ghost use Rattle.sled_handle.specs.Found.{GetsPage};
ghost use Rattle.sled_handle.specs.Steps.{AllocatesLeaf, FreesPage, MakesLink, ReplacesByLeaf};
ghost use Rattle.sled_handle.specs.Values.{GetsValue, written};

use crate::calls::pages as calls;
use crate::calls::pages::Found;
use crate::file::{has_failed, told};
use crate::status::{CLOSED, WRITE};
use crate::store::Store;
use sled_disk::CallersFile;
use std::alloc::Global;

/// Allocates a page with a leaf of the pairs, and writes its number and its stamp. Returns `ARGUMENTS` if the bytes encode no such pairs.
pub fn allocate<F: CallersFile>(
    alloc: Global,
    store: &mut Store<F>,
    pairs: &[u8],
    page: &mut u64,
    stamp: &mut u64,
) -> u32
    ensures { ThroughStore store.old store.new result
        ((page.new ≡ page.old) × (stamp.new ≡ stamp.old))
        (λ _ g old new status. AllocatesLeaf g old new pairs.now status (page.old, stamp.old)
        (page.new, stamp.new)) }
{
    through!(store, cache => calls::allocate(alloc, cache, pairs, page, stamp))
}

/// Writes what a page is, and its pairs. Returns `SHORT` if the buffer is too short: then only the first is written.
pub fn get<F: CallersFile>(
    store: &mut Store<F>,
    page: u64,
    found: &mut Found,
    buffer: &mut [u8],
) -> u32
    ensures { ThroughStore store.old store.new result
        ((found.new ≡ found.old) × (buffer.new ≡ buffer.old))
        (λ _ g old new status. GetsPage g old new page status (found.old, buffer.old)
        (found.new, buffer.new)) }
{
    through!(store, cache => calls::get(cache, page, found, buffer))
}

/// Writes the value of a key of a leaf, its length, and the stamp of the page. Returns `SHORT` if the buffer is too short: then the length and the
/// stamp are written.
pub fn value<F: CallersFile>(
    store: &mut Store<F>,
    page: u64,
    key: &[u8],
    stamp: &mut u64,
    buffer: &mut [u8],
    needed: &mut usize,
) -> u32
    ensures { ThroughStore store.old store.new result
        (written stamp.new needed.new buffer.new ≡ written stamp.old needed.old buffer.old)
        (λ _ g old new status. GetsValue g old new page key.now status (written stamp.old needed.old
        buffer.old) (written stamp.new needed.new buffer.new)) }
{
    through!(store, cache => calls::value(cache, page, key, stamp, buffer, needed))
}

/// Sets a key of a leaf to a value, if the page has the expected stamp, and writes its new stamp. If it has another stamp, writes that and returns
/// `STALE`, and nothing changes.
pub fn set<F: CallersFile>(
    alloc: Global,
    store: &mut Store<F>,
    page: u64,
    stamp: &mut u64,
    key: &[u8],
    value: &[u8],
) -> u32
    ensures { ThroughStore store.old store.new result (stamp.new ≡ stamp.old)
        (λ _ g old new status. MakesLink g old new page (Set key.now value.now) status stamp.old
        stamp.new) }
{
    through!(store, cache => calls::set(alloc, cache, page, stamp, key, value))
}

/// Removes a key from a leaf, if the page has the expected stamp, as `set` does.
pub fn del<F: CallersFile>(
    alloc: Global,
    store: &mut Store<F>,
    page: u64,
    stamp: &mut u64,
    key: &[u8],
) -> u32
    ensures { ThroughStore store.old store.new result (stamp.new ≡ stamp.old)
        (λ _ g old new status. MakesLink g old new page (Del key.now) status stamp.old stamp.new) }
{
    through!(store, cache => calls::del(alloc, cache, page, stamp, key))
}

/// Replaces the contents of a page with a leaf of the pairs, if the page has the expected stamp, as `set` does. Returns `ARGUMENTS` if the bytes
/// encode no such pairs.
pub fn replace<F: CallersFile>(
    alloc: Global,
    store: &mut Store<F>,
    page: u64,
    stamp: &mut u64,
    pairs: &[u8],
) -> u32
    ensures { ThroughStore store.old store.new result (stamp.new ≡ stamp.old)
        (λ _ g old new status. ReplacesByLeaf g old new page pairs.now status stamp.old stamp.new) }
{
    through!(store, cache => calls::replace(alloc, cache, page, stamp, pairs))
}

/// Frees a page, if it has the expected stamp, as `set` does.
pub fn free<F: CallersFile>(store: &mut Store<F>, page: u64, stamp: &mut u64) -> u32
    ensures { ThroughStore store.old store.new result (stamp.new ≡ stamp.old)
        (λ _ g old new status. FreesPage g old new page status stamp.old stamp.new) }
{
    through!(store, cache => calls::free(cache, page, stamp))
}
