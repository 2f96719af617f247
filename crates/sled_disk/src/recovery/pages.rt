//! The pages that the heads of a file show.

ghost use Rattle.std.specs.Prelude.{◌≡◌, ◌+◌, ◌<◌, ◌⊎◌, map, IfOk, IfErr, IfSome, IsSome, IsErrOf};
ghost use Rattle.std.specs.List.{AllZip, AllByRecursion};
ghost use Rattle.sled_log.specs.declared.log.LogError.TheVariants.{Memory, Corruption};
ghost use Rattle.sled_disk.specs.RecoveredHeads.{AreHeads, IsPlaced, IsShown, said_of_head};
ghost use Rattle.sled_disk.specs.Reading.{chains_of};

use super::head::Head;
use crate::format::record::MAX_PLACE;
use sled_base::{DiskPtr, LogKind, Lsn, PageState};
use sled_log::LogError;
use std::alloc::Global;

// Where a head's record stands, as a page says it; nothing where it ends above the greatest place.
fn said(head: &Head) -> Option<(Lsn, DiskPtr, u64)>
    ensures is { IfSome result (λ place. place ≡ said_of_head head.now) }
    ensures some { IsPlaced head.now → IsSome result }
{
    let room = MAX_PLACE.saturating_sub(head.place);
    if room < 17 || room - 17 < head.len {
        return None;
    }
    Some((
        head.place as Lsn,
        DiskPtr::Inline(head.place),
        17 + head.len,
    ))
}

// Where the links of a page stand.
fn all_said(alloc: Global, links: &[Head]) -> Result<Vec<(Lsn, DiskPtr, u64)>, LogError>
    ensures said { IfOk result (λ all. all.items ≡ map said_of_head links.now) }
    ensures sound { AllByRecursion IsPlaced links.now → IsErrOf result Corruption → ⊥ }
    ensures only { IfErr result (λ e. (e ≡ Memory) ⊎ (e ≡ Corruption)) }
{
    let mut all = Vec::with_capacity(alloc, links.len())?;
    for head in links {
        let Some(place) = said(head) else {
            return Err(LogError::Corruption);
        };
        all.push(place)?;
    }
    Ok(all)
}

// The page with these heads.
fn page_of(alloc: Global, chain: &[Head]) -> Result<PageState, LogError>
    ensures shown { IfOk result (λ page. IsShown chain.now page) }
    ensures sound { AreHeads chain.now → IsErrOf result Corruption → ⊥ }
    ensures only { IfErr result (λ e. (e ≡ Memory) ⊎ (e ≡ Corruption)) }
{
    let [first, links @ ..] = chain else {
        return Err(LogError::Corruption);
    };
    let Some(base) = said(first) else {
        return Err(LogError::Corruption);
    };
    if LogKind::from(first.kind) == LogKind::Free {
        if !links.is_empty() {
            return Err(LogError::Corruption);
        }
        return Ok(PageState::Free(base.0, base.1));
    }
    let frags = all_said(alloc, links)?;
    Ok(PageState::Present { base, frags })
}

// The pages with these heads. Corruption: they are no heads of pages.
pub(crate) fn pages_of(alloc: Global, chains: &[Vec<Head>]) -> Result<Vec<PageState>, LogError>
    ensures shown { IfOk result (λ pages. AllZip IsShown (chains_of chains.now) pages.items) }
    ensures sound { AllByRecursion AreHeads (chains_of chains.now) → IsErrOf result Corruption → ⊥ }
    ensures only { IfErr result (λ e. (e ≡ Memory) ⊎ (e ≡ Corruption)) }
{
    let mut pages = Vec::with_capacity(alloc, chains.len())?;
    for chain in chains {
        let page = page_of(alloc, chain)?;
        pages.push(page)?;
    }
    Ok(pages)
}
