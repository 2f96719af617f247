//! How much each page takes by its content, and how many pages there are: of these a program over a file makes `amp`, which isn't available there,
//! and reads one page at a time.

ghost use Rattle.std.specs.Prelude.{◌≡◌};
ghost use Rattle.sled_handle.specs.Handles.{ThroughStore};
ghost use Rattle.sled_handle.specs.PageSizes.{TellsPageCount, TellsPageSize};

use crate::calls::sizes as calls;
use crate::file::{has_failed, told};
use crate::status::{CLOSED, WRITE};
use crate::store::Store;
use sled_disk::CallersFile;

/// Writes how many bytes a page takes by its content. A page that isn't there takes none.
pub fn page_size<F: CallersFile>(store: &mut Store<F>, page: u64, bytes: &mut u64) -> u32
    ensures { ThroughStore store.old store.new result (bytes.new ≡ bytes.old)
        (λ _ g old new status. TellsPageSize g old new page status bytes.old bytes.new) }
{
    through!(store, cache => calls::page_size(cache, page, bytes))
}

/// Writes how many pages there are, with those that are free and the cache's own.
pub fn page_count<F: CallersFile>(store: &mut Store<F>, pages: &mut u64) -> u32
    ensures { ThroughStore store.old store.new result (pages.new ≡ pages.old)
        (λ _ g old new status. TellsPageCount g old new status pages.old pages.new) }
{
    through!(store, cache => calls::page_count(cache, pages))
}
