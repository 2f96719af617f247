//! How much each page takes by its content, and how many pages there are.

ghost use Rattle.std.specs.Prelude.{◌≡◌};
ghost use Rattle.sled_handle.specs.Handles.{Through};
ghost use Rattle.sled_handle.specs.PageSizes.{TellsPageCount, TellsPageSize};

use sled_handle::Handle;
use sled_handle::status::CLOSED;
use sled_handle::through::sizes as through;
use std::alloc::Global;

/// Writes how many bytes a page takes by its content. A page that isn't there takes none.
#[unsafe(no_mangle)]
pub extern "C" fn dilluvas_raw_page_size(
    alloc: Global,
    handle: &mut Handle,
    page: u64,
    bytes: &mut u64,
) -> u32
    ensures { Through handle.old.store handle.new.store result (bytes.new ≡ bytes.old)
        (λ _ g old new status. TellsPageSize g old new page status bytes.old bytes.new) }
{
    behind!(alloc, handle, store => through::page_size(store, page, bytes))
}

/// Writes how many pages there are, with those that are free and the cache's own.
#[unsafe(no_mangle)]
pub extern "C" fn dilluvas_raw_page_count(
    alloc: Global,
    handle: &mut Handle,
    pages: &mut u64,
) -> u32
    ensures { Through handle.old.store handle.new.store result (pages.new ≡ pages.old)
        (λ _ g old new status. TellsPageCount g old new status pages.old pages.new) }
{
    behind!(alloc, handle, store => through::page_count(store, pages))
}
