// The pages that a log makes of its messages, in one pass.

ghost use Rattle.std.specs.Prelude.{◌≡◌, ◌==◌, ◌≤◌, ◌<◌, ◌+◌, ℕ, pos, ◌∷◌, [], ◌++◌, List, length, map, slice_set, if◌then◌else◌, OnOk};
ghost use Rattle.std.specs.List.{AllZip};
ghost use Rattle.sled_base.specs.declared.types.page_state.PageState.TheVariants.{Free};
ghost use Rattle.sled_log.specs.Chains.{chain_with_link, chains_from};
ghost use Rattle.sled_log.specs.Events as events;
ghost use Rattle.sled_log.specs.Limits.{head_size, size_limit};
ghost use Rattle.sled_log.specs.MemLog.Stored.{pointer_of};
ghost use Rattle.sled_log.specs.Inside.Stored.{bare_event, pages_after};
ghost use Rattle.sled_log.specs.Messages.{Chain, Entry, effect_of_entry};
ghost use Rattle.sled_log.specs.Pages.{said_of, IsPageState};

use super::item::{HEAD, Held, LogItem};
use crate::PageState;
use sled_base::{DiskPtr, LogKind, LogOffset, Lsn, MessageKind, PageId};
use std::alloc::{AllocError, Global};

// The place of a message that stands there and has this log size: its lsn, the pointer to it, and its log size. It names a
// blob, or has a payload, which is one above the limit.
pub(super) fn said_at(
    limit: usize,
    place: LogOffset,
    log_size: u64,
    blob: Option<Held>,
) -> (Lsn, DiskPtr, u64)
    requires place { place < size_limit }
    requires size { head_size ≤ log_size }
    ensures { (payload : List ℕ) → log_size ≡ head_size + length payload
        → result ≡ (pos place, pointer_of limit place payload blob, log_size) }
{
    let pointer = match blob {
        Some(held) => DiskPtr::Blob(place, held.first),
        None if log_size - HEAD <= limit as u64 => DiskPtr::Inline(place),
        None => DiskPtr::Blob(place, place as Lsn),
    };
    (place as Lsn, pointer, log_size)
}

// How many pages the messages of these items make.
pub(super) fn count_pages(items: &[LogItem]) -> u64
    requires { length items.now < size_limit }
    ensures pages { result ≡ pages_after 0 (map bare_event items.now) }
    ensures few { result ≤ length items.now }
{
    let mut pages = 0;
    for item in items {
        pages = item.mark.unpacked().pages_behind(pages);
    }
    pages
}

// A page that is freed there.
fn freed(said: (Lsn, DiskPtr, u64)) -> PageState
    ensures { result ≡ Free said.0 said.1 }
{
    let (lsn, pointer, _) = said;
    PageState::Free(lsn, pointer)
}

// Puts a page in its place, or behind all others.
fn put(pages: &mut Vec<PageState>, pid: PageId, page: PageState) -> Result<(), AllocError>
    ensures { OnOk result (pages.new.items ≡ (if pid == length pages.old.items
        then pages.old.items ++ page ∷ [] else slice_set pages.old.items pid page)) }
{
    let at = pid as usize;
    if at == pages.len() {
        pages.push(page)?;
    } else if at < pages.len() {
        pages[at] = page;
    }
    Ok(())
}

// Adds a link to a page that has a content.
fn link(page: &mut PageState, said: (Lsn, DiskPtr, u64)) -> Result<(), AllocError>
    ensures { OnOk result ((chain : Chain) (entry : Entry) → said_of entry ≡ said
        → IsPageState chain page.old
        → IsPageState (chain_with_link effect_of_entry chain entry) page.new) }
{
    if let PageState::Present { frags, .. } = page {
        frags.push(said)?;
    }
    Ok(())
}

// Makes one change of the pages: a message of that kind, at that place.
pub(super) fn apply(
    alloc: Global,
    pages: &mut Vec<PageState>,
    pid: PageId,
    kind: MessageKind,
    said: (Lsn, DiskPtr, u64),
) -> Result<(), AllocError>
    ensures { OnOk result ((chains : List Chain) (entry : Entry) → entry.message.kind ≡ kind
        → said_of entry ≡ said → AllZip IsPageState chains pages.old.items → AllZip IsPageState
        (chains_from effect_of_entry chains (events.Change pid entry)) pages.new.items) }
{
    match LogKind::from(kind) {
        LogKind::Free => put(pages, pid, freed(said)),
        LogKind::Replace => put(
            pages,
            pid,
            PageState::Present {
                base: said,
                frags: Vec::new(alloc),
            },
        ),
        LogKind::Link => {
            let at = pid as usize;
            if at < pages.len() {
                link(&mut pages[at], said)?;
            }
            Ok(())
        }
        LogKind::Skip | LogKind::Corrupted => Ok(()),
    }
}
