//! The named roots of a cache: which page is the root of each named tree.

ghost use Rattle.std.specs.Prelude.{◌≡◌, false, slice_get, IfOk, IfErr, IsOk, OnOk, OnErr, Some};
ghost use Rattle.sled_pagecache.specs.Answers.{HasNoName, NamesOnly, Keeps, stamps_after_root_swap};
ghost use Rattle.sled_pagecache.specs.Calls.{Steps, IsBlamed};
ghost use Rattle.sled_pagecache.specs.Lending.{lent_meta};
ghost use Rattle.sled_pagecache.specs.Limits.{meta_pid};
ghost use Rattle.sled_pagecache.specs.Memory.{IsBounded, KeepsMemory, AccessesPage, EvictsAtMost};
ghost use Rattle.sled_pagecache.specs.Memory.{ReadsNothing};
ghost use Rattle.sled_pagecache.specs.declared.pagecache.handles.call.Answer.TheVariants.{GotMeta, FoundRoot, RootSwapped};
ghost use Rattle.sled_pagecache.specs.declared.pagecache.handles.call.Call.TheVariants.{GetMeta, MetaPidForName, CasRoot};

use super::PageCache;
use crate::pagecache::META_PID;
use crate::pagecache::handles::view::MetaView;
use crate::pagecache::memory::evict::evict;
use crate::pagecache::write::root_page::{judge_root, own_roots, swap_root};
use sled_base::{Error, IVec, PageId, Refusal};
use sled_log::Log;

impl<L: Log> PageCache<L> {
    /// Returns a reference to the map of named roots, with the token of its page. The map is in memory, so the call reads and allocates
    /// nothing.
    ///
    /// The only error is an earlier write error.
    pub fn get_meta(&self) -> Result<MetaView<'_>, Refusal>
        ensures step { Steps L.Log self.now GetMeta (GotMeta (lent_meta result)) self.now }
        ensures keeps { Keeps self.now self.now (lent_meta result) (λ _. self.now.stamps) }
        ensures token { IfOk result (λ view. (view.token.pid ≡ meta_pid)
            × (slice_get self.now.stamps meta_pid ≡ Some view.token.stamp)) }
        ensures always { self.now.fault ≡ false → IsOk result }
    {
        let view = own_roots(self.writer.sticky_log.fault, &self.pages)?;
        Ok(view)
    }

    /// Returns the root page of a name. It fails with `CollectionNotFound`, which holds the name, if the name has no root.
    ///
    /// It reads nothing. Only the copy of the name in that error takes memory; if that allocation fails, the error is `OutOfMemory`. An
    /// earlier write error is returned before anything else.
    #[tactic(auto, using(crate::proofs::Steps::Refusals::names_none))]
    pub fn meta_pid_for_name(&self, name: &[u8]) -> Result<PageId, Error>
        ensures step { Steps L.Log self.now (MetaPidForName name.now) (FoundRoot result) self.now }
        ensures keeps { Keeps self.now self.now result (λ _. self.now.stamps) }
        ensures named { IfErr result (NamesOnly name.now) }
    {
        let view = own_roots(self.writer.sticky_log.fault, &self.pages)?;
        if let Some(root) = view.meta().get_root(name) {
            return Ok(root);
        }
        let copy = IVec::from_slice(self.writer.sticky_log.alloc, name)?;
        Err(Error::CollectionNotFound(copy))
    }

    /// Sets the root page of a name, or removes the name if no new root is given, provided that its current root is the old one. It
    /// increases the stamp of the page of the named roots by one, even if the map stays the same.
    ///
    /// If the current root isn't the old one, the call changes nothing and returns the current root, or None if the name has no root. After
    /// this test, if there is a new root, it fails with `NameTooLong` for a name above [`MAX_BYTES`](sled_node::node::MAX_BYTES), and with
    /// `TooManyNames` if there are [`MAX_NAMES`](sled_node::meta::MAX_NAMES) others. Then it fails with `StampUsedUp` if the stamp is the
    /// greatest, and with `LogFull` if the log has no room. These and `OutOfMemory` leave every page and message unchanged. A write error
    /// is sticky: every later call returns it until the log is reopened.
    ///
    /// The whole map is written, and stored as one message. Nothing is read.
    #[tactic(auto, using(crate::proofs::Steps::Refusals::no_name))]
    pub fn cas_root_in_meta(
        &mut self,
        name: &[u8],
        old: Option<PageId>,
        new: Option<PageId>,
    ) -> Result<Result<(), Option<PageId>>, Error>
        ensures step { Steps L.Log self.old (CasRoot name.now old new) (RootSwapped result)
            self.new }
        ensures blame { IsBlamed L.Log self.old self.new result }
        ensures keeps { Keeps self.old self.new result (stamps_after_root_swap self.old.stamps) }
        ensures unread { ReadsNothing L.Log self.old self.new }
        ensures bounded { IsBounded L.Log self.new }
        ensures accesses { IfOk result
            (λ swapped. OnOk swapped (AccessesPage self.old meta_pid self.new)) }
        ensures same { IfOk result (λ swapped. OnErr swapped (KeepsMemory self.old self.new)) }
        ensures leaves { IfErr result (EvictsAtMost self.old meta_pid self.new L.tells) }
        ensures unnamed { IfErr result HasNoName }
    {
        let view = own_roots(self.writer.sticky_log.fault, &self.pages)?;
        match judge_root(view.meta(), name, old, new)? {
            Err(root) => return Ok(Err(root)),
            Ok(()) => {}
        }
        let page = self.pages.get_mut(META_PID);
        match swap_root(&mut self.writer, page, name, new) {
            Ok(()) => {
                evict(&mut self.pages, &mut self.writer.accesses, None);
                Ok(Ok(()))
            }
            Err(refusal) => {
                evict(&mut self.pages, &mut self.writer.accesses, Some(META_PID));
                Err(Error::from(refusal))
            }
        }
    }
}
