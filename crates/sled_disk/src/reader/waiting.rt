// The changes of a batch that is begun, which wait for the record that closes it.

ghost use Rattle.std.specs.Prelude.{◌≡◌, ℕ, ◌⊎◌, [], IfErr, OnOk, IsErrOf, None};
ghost use Rattle.std.specs.List.{AllByRecursion};
ghost use Rattle.sled_log.specs.declared.log.LogError.TheVariants.{Memory, Corruption};
ghost use Rattle.sled_disk.specs.RecoveredHeads.{AreHeadsBy};
ghost use Rattle.sled_disk.specs.Reading.{chains_of};
ghost use Rattle.sled_disk.specs.BatchChanges.{taken_by, IsWaiting, IsChanging};

use crate::recovery::chains::take_head;
use crate::recovery::head::Head;
use sled_base::PageId;
use sled_log::LogError;
use std::alloc::Global;
use std::collections::VecDeque;

// Takes all of them in order. Without memory those that are left wait still.
pub(super) fn take_all(
    alloc: Global,
    pages: &mut Vec<Vec<Head>>,
    changes: &mut VecDeque<(PageId, Head)>,
) -> Result<(), LogError>
    requires { AllByRecursion IsChanging changes.old.items }
    ensures none { OnOk result (changes.new.items ≡ []) }
    ensures left { taken_by (chains_of pages.new.items) changes.new.items
        ≡ taken_by (chains_of pages.old.items) changes.old.items }
    ensures waiting { (end : ℕ) → AllByRecursion (IsWaiting end) changes.old.items
        → AllByRecursion (IsWaiting end) changes.new.items }
    ensures heads { (end : ℕ) → AllByRecursion (IsWaiting end) changes.old.items
        → AllByRecursion (AreHeadsBy end) (chains_of pages.old.items)
        → AllByRecursion (AreHeadsBy end) (chains_of pages.new.items) }
    ensures corrupt { IsErrOf result Corruption
        → taken_by (chains_of pages.old.items) changes.old.items ≡ None }
    ensures only { IfErr result (λ e. (e ≡ Memory) ⊎ (e ≡ Corruption)) }
{
    while let Some(&(page, head)) = changes.front() {
        take_head(alloc, pages, page, head)?;
        let _ = changes.pop_front();
    }
    Ok(())
}
