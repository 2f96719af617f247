//! The ids of the free pages.

ghost use Rattle.std.specs.Prelude.{◌≡◌, ◌≢◌, ◌-◌, ℕ, List, [], take, length, slice_get, OnOk, OnErr};
ghost use Rattle.std.specs.BTreeSet.{insert_key};
ghost use Rattle.std.specs.List.{AllByRecursion};
ghost use Rattle.std.specs.Ordering.{nat_cmp};

use sled_base::PageId;
use std::alloc::{AllocError, Global};
use std::collections::BTreeSet;
use std::fmt;

/// The ids of the free pages, in order. Each call takes logarithmic time.
#[derive(Drop)]
pub(crate) struct FreeIds {
    pub(crate) ids: BTreeSet<PageId>,
}

impl FreeIds {
    pub(crate) fn new(alloc: Global) -> FreeIds
        ensures { result.ids.keys ≡ [] }
    {
        FreeIds {
            ids: BTreeSet::new(alloc),
        }
    }

    pub(crate) fn greatest(&self) -> Option<PageId>
        ensures { result ≡ slice_get self.now.ids.keys (length self.now.ids.keys - 1) }
    {
        self.ids.last().copied()
    }

    pub(crate) fn take_greatest(&mut self)
        ensures { self.new.ids.keys ≡ take (length self.old.ids.keys - 1) self.old.ids.keys }
    {
        self.ids.pop_last();
    }

    // Puts an id in its place.
    pub(crate) fn put(&mut self, pid: PageId) -> Result<(), AllocError>
        ensures put { OnOk result (self.new.ids.keys ≡ insert_key nat_cmp self.old.ids.keys pid) }
        ensures err { OnErr result (self.new.ids.keys ≡ self.old.ids.keys) }
    {
        match self.ids.insert(pid) {
            Ok(_) => Ok(()),
            Err(_) => Err(AllocError),
        }
    }

    // Takes an id out that was put in.
    pub(crate) fn take_back(&mut self, pid: PageId)
        ensures { (before : List ℕ) → AllByRecursion (λ id. id ≢ pid) before
            → self.old.ids.keys ≡ insert_key nat_cmp before pid → self.new.ids.keys ≡ before }
    {
        self.ids.remove(&pid);
    }
}

impl fmt::Debug for FreeIds {
    // From the greatest, which is used again first.
    fn fmt<W: fmt::Write>(&self, f: &mut fmt::Formatter<W>) -> fmt::Result {
        f.debug_list().entries(self.ids.iter().rev()).finish()
    }
}
