// The record that closes a batch of many changes, where memory is refused. Run with one allocation refused, whichever it is, the reader goes on
// with the changes that are left, and the pages are the same.

ghost use Rattle.std.specs.Prelude.{◌≡◌, true, IfSome};

use super::marks::{put, put_body, put_head};
use super::opening::BATCH;
use super::room::KeepingDisk;
use super::*;
use sled_base::DiskPtr;

// How many pages the batch puts, each with two links.
const PAGES: u64 = 12;

// A file of page 0, and of a batch that begins at 43 with three changes for each further page, and is closed by a record of that kind or none.
fn file_of(alloc: Global, closing: Option<u8>) -> Option<Vec<u8>> {
    let mut file = marks::front(alloc, 17)?;
    let len = 17 + 51 * PAGES;
    let mut is_put = put_head(&mut file, 8, 0, 0)
        && put_body(&mut file, len)
        && put_head(&mut file, 12, BATCH, 0);
    for page in 1..=PAGES {
        for kind in [8, 10, 10] {
            is_put = is_put && put_head(&mut file, kind, page, 0);
        }
    }
    if let Some(kind) = closing {
        is_put = is_put && put_body(&mut file, 25);
        is_put = is_put && put_head(&mut file, kind, BATCH, 8) && put(&mut file, 43);
    }
    file.push(0).ok()?;
    is_put.then_some(file)
}

// Reads a file to its closed gate, a second time where memory is refused.
fn read(alloc: Global, disk: &mut KeepingDisk) -> Option<Reader> {
    let mut reader = match Reader::begin(alloc, disk) {
        Ok(reader) => reader,
        Err(_) => Reader::begin(alloc, disk).ok()?,
    };
    match reader.read(disk) {
        Ok(_) => {}
        Err(LogError::Memory) => {
            reader.read(disk).ok()?;
        }
        Err(_) => return None,
    }
    Some(reader)
}

// The log of a file that is read so.
fn opened(alloc: Global, file: &[u8]) -> Option<DiskLog<KeepingDisk>>
    ensures { IfSome result (λ log. log.usable ≡ true) }
{
    let mut disk = match KeepingDisk::of(alloc, file) {
        Ok(disk) => disk,
        Err(_) => KeepingDisk::of(alloc, file).ok()?,
    };
    let reader = read(alloc, &mut disk)?;
    match DiskLog::open_with(alloc, reader, disk, 4096, 0) {
        Ok(log) => Some(log),
        Err((LogError::Memory, reader, disk)) => {
            DiskLog::open_with(alloc, reader, disk, 4096, 0).ok()
        }
        Err(_) => None,
    }
}

// Whether a page of the batch stands there, with both links behind it.
fn is_page(page: &PageState, place: u64) -> bool {
    match page {
        PageState::Present { base, frags } => match frags.as_slice() {
            [first, second] => {
                base.1 == DiskPtr::Inline(place)
                    && first.1 == DiskPtr::Inline(place.saturating_add(17))
                    && second.1 == DiskPtr::Inline(place.saturating_add(34))
            }
            _ => false,
        },
        PageState::Free(..) => false,
    }
}

// How many pages a file has, if those of the batch are where they should be.
fn pages_of(alloc: Global, closing: Option<u8>) -> Option<usize> {
    let file = file_of(alloc, closing).or_else(|| file_of(alloc, closing))?;
    let mut log = opened(alloc, &file)?;
    let pages = match log.recover() {
        Ok(pages) => pages,
        Err(_) => log.recover().ok()?,
    };
    let mut place = 60;
    for page in pages.iter().skip(1) {
        if !is_page(page, place) {
            return None;
        }
        place = place.saturating_add(51);
    }
    Some(pages.len())
}

// Without a refused allocation this shows which changes count.
#[test]
fn a_refused_allocation_leaves_the_changes_of_a_batch(rt: HostRuntime) {
    for (closing, pages) in [(Some(13), 13), (Some(1), 13), (Some(14), 1), (None, 1)] {
        assert_eq!(rt; pages_of(rt.alloc(), closing), Some(pages), "{closing:?}");
    }
}
