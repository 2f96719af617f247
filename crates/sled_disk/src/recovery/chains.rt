//! The pages that the records of a file make.

ghost use Rattle.std.specs.Prelude.{◌≡◌, ◌≤◌, ◌<◌, not, length, Some, None, slice_set, slice_index_or, if◌then◌else◌, ◌++◌, ◌∷◌, [], OnOk, OnErr};
ghost use Rattle.sled_log.specs.Chains.{is_empty, chains_with_new};
ghost use Rattle.sled_base.specs.Kinds.{log_kind_of};
ghost use Rattle.sled_disk.specs.Format.{is_changing};
ghost use Rattle.sled_disk.specs.Reading.{Made, chains_of, effect_of_head, step_head};

use super::head::Head;
use sled_base::growth::reserve;
use sled_base::{LogKind, MessageKind, PageId};
use sled_log::LogError;
use std::alloc::{AllocError, Global};

// the most heads of a page of a cache
const USUAL: usize = 11;

// Adds a head to a chain. A chain of a cache's page has no room to spare, a longer one an eighth.
fn lengthen(chain: &mut Vec<Head>, head: Head) -> Result<(), AllocError>
    ensures longer { OnOk result (chain.new.items ≡ chain.old.items ++ head ∷ []) }
    ensures kept { OnErr result (chain.new.items ≡ chain.old.items) }
{
    if chain.len() < USUAL {
        chain.reserve_exact(1)?;
    } else {
        reserve(chain, 1)?;
    }
    chain.push(head)?;
    Ok(())
}

// Makes a chain one of this head alone, in the room that it has.
fn restart(chain: &mut Vec<Head>, head: Head) -> Result<(), AllocError>
    ensures made { OnOk result (chain.new.items ≡ head ∷ []) }
    ensures kept { OnErr result (chain.new.items ≡ chain.old.items) }
{
    if chain.is_empty() {
        return lengthen(chain, head);
    }
    chain.truncate(1);
    chain[0] = head;
    Ok(())
}

// Begins a page behind all others.
fn begin(alloc: Global, pages: &mut Vec<Vec<Head>>, head: Head) -> Result<(), AllocError>
    ensures made { OnOk result
        (chains_of pages.new.items ≡ chains_of pages.old.items ++ (head ∷ []) ∷ []) }
    ensures kept { OnErr result (chains_of pages.new.items ≡ chains_of pages.old.items) }
{
    reserve(pages, 1)?;
    let mut chain = Vec::with_capacity(alloc, 1)?;
    chain.push(head)?;
    pages.push(chain)?;
    Ok(())
}

// Puts a chain of one head in its place, or behind all others.
fn put(
    alloc: Global,
    pages: &mut Vec<Vec<Head>>,
    page: PageId,
    head: Head,
) -> Result<(), AllocError>
    requires { page ≤ length pages.old.items }
    ensures made { OnOk result
        (chains_of pages.new.items
        ≡ chains_with_new effect_of_head (chains_of pages.old.items) page head) }
    ensures kept { OnErr result (chains_of pages.new.items ≡ chains_of pages.old.items) }
{
    let at = page as usize;
    if at == pages.len() {
        return begin(alloc, pages, head);
    }
    restart(&mut pages[at], head)
}

// Whether a page with this chain has a content.
fn has_content(chain: &[Head]) -> bool
    ensures { result ≡ not (is_empty effect_of_head chain.now) }
{
    match chain {
        [] => false,
        [first, ..] => LogKind::from(first.kind) != LogKind::Free,
    }
}

// Adds a link to a page that has a content.
fn link(pages: &mut Vec<Vec<Head>>, page: PageId, head: Head) -> Result<(), LogError>
    ensures kept { OnErr result (chains_of pages.new.items ≡ chains_of pages.old.items) }
    ensures made { Made result (chains_of pages.new.items)
        (if is_empty effect_of_head (slice_index_or (chains_of pages.old.items) page []) then None
        else Some (slice_set (chains_of pages.old.items) page
        (slice_index_or (chains_of pages.old.items) page [] ++ head ∷ []))) }
{
    let at = page as usize;
    if at >= pages.len() {
        return Err(LogError::Corruption);
    }
    let chain = &mut pages[at];
    if !has_content(chain) {
        return Err(LogError::Corruption);
    }
    Ok(lengthen(chain, head)?)
}

// Whether a record of this kind is a change of a page.
pub(crate) fn is_change(kind: MessageKind) -> bool
    ensures { result ≡ is_changing (log_kind_of kind) }
{
    match LogKind::from(kind) {
        LogKind::Free | LogKind::Replace | LogKind::Link => true,
        LogKind::Skip | LogKind::Corrupted => false,
    }
}

// Takes a record of a page by its head, if it may stand there.
#[tactic(auto, unfolding(crate::specs::Reading::step_head))]
pub(crate) fn take_head(
    alloc: Global,
    pages: &mut Vec<Vec<Head>>,
    page: PageId,
    head: Head,
) -> Result<(), LogError>
    ensures kept { OnErr result (chains_of pages.new.items ≡ chains_of pages.old.items) }
    ensures made { Made result (chains_of pages.new.items)
        (step_head (chains_of pages.old.items) page head) }
{
    let pages_are = pages.len() as u64;
    match LogKind::from(head.kind) {
        LogKind::Replace if page <= pages_are => Ok(put(alloc, pages, page, head)?),
        LogKind::Free if page < pages_are => Ok(put(alloc, pages, page, head)?),
        LogKind::Link => link(pages, page, head),
        LogKind::Skip if head.kind == MessageKind::Canceled => Ok(()),
        _ => Err(LogError::Corruption),
    }
}
