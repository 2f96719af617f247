//! The pages of a cache: making, reading, changing and freeing one.

ghost use Rattle.std.specs.Prelude.{◌≡◌, ℕ, false, true, length, None, Some, Err, slice_get, IfOk, IfErr, IsOk, OnOk, OnErr, IsErrOf, MatchOption};
ghost use Rattle.std.specs.Borrow.{sem};
ghost use Rattle.sled_base.specs.declared.types.Device.TheVariants.{Write};
ghost use Rattle.sled_base.specs.declared.types.Error.TheVariants.{Unsupported, Io};
ghost use Rattle.sled_base.specs.declared.types.Refusal.TheVariants as refusal;
ghost use Rattle.sled_base.specs.declared.types.Why.{Why};
ghost use Rattle.sled_log.specs.LogState.{now};
ghost use Rattle.sled_pagecache.specs.Answers.{HasNoName, Keeps, KeepsSwap, stamps_with, stamps_after_swap};
ghost use Rattle.sled_pagecache.specs.Cache.{IsResident, IsAway, chain_length};
ghost use Rattle.sled_pagecache.specs.Calls.{Steps, IsBlamed};
ghost use Rattle.sled_pagecache.specs.Lending.{IsGot, AfterLoan};
ghost use Rattle.sled_pagecache.specs.Memory.{HasNode, HasNoNode, IsBounded, KeepsMemory, AccessesPage, EvictsAtMost, LeavesNodes};
ghost use Rattle.sled_pagecache.specs.Inside.RecentUse.{FindsPage};
ghost use Rattle.sled_pagecache.specs.Inside.PageIn.{BringsIn, IsNodeAt};
ghost use Rattle.sled_pagecache.specs.Memory.{ReadsNothing, ReadsPage};
ghost use Rattle.sled_pagecache.specs.Step.{is_reserved};
ghost use Rattle.sled_pagecache.specs.Swaps.{JoinsOrMoves, PutsAndMoves};
ghost use Rattle.sled_pagecache.specs.State.{pid_of, stamp_of, IsAnswered};
ghost use Rattle.sled_pagecache.specs.declared.pagecache.handles.call.Answer.TheVariants.{Allocated, Linked, Replaced, Freed};
ghost use Rattle.sled_pagecache.specs.declared.pagecache.handles.call.Call.TheVariants.{Allocate};
ghost use Rattle.sled_pagecache.specs.declared.pagecache.handles.call.Call.TheVariants as call;

use super::PageCache;
use crate::pagecache::handles::view::{NodeView, PageView};
use crate::pagecache::memory::evict::{end_allocation, end_swap, evict};
use crate::pagecache::memory::pull::pull_and_access;
use crate::pagecache::table::page_entry::PageContent;
use crate::pagecache::write::new_page::add_page;
use crate::pagecache::write::page_swap::{free_page, reuse_page};
use crate::pagecache::write::token_check::{is_reserved, judge};
use sled_base::{Device, Error, PageId, Refusal, Why};
use sled_log::Log;
use sled_node::{Link, Node};

impl<L: Log> PageCache<L> {
    /// Puts a node on a page, and returns the page's id and token. The page is the free page with the greatest id, at its next stamp, or
    /// else a new one at stamp 1.
    ///
    /// One message with the whole node is appended, and nothing is read.
    ///
    /// It fails with `PagesUsedUp` if there are 2^37 pages and none is free, with `StampUsedUp` if the stamp of the free page is the
    /// greatest, and with `LogFull` if the log has no room. These and `OutOfMemory` leave every page and message unchanged. A write error
    /// is sticky: every later call returns it until the log is reopened.
    #[tactic(auto, using(crate::proofs::Steps::Refusals::no_name))]
    pub fn allocate(&mut self, node: Node) -> Result<(PageId, PageView), Error>
        ensures step { Steps L.Log self.old (Allocate node) (Allocated result) self.new }
        ensures blame { IsBlamed L.Log self.old self.new result }
        ensures unread { ReadsNothing L.Log self.old self.new }
        ensures keeps { Keeps self.old self.new result
            (λ made. stamps_with self.old.stamps made.1) }
        ensures token { IfOk result (λ made. (pid_of made.1 ≡ made.0)
            × (slice_get self.new.stamps made.0 ≡ Some (stamp_of made.1))) }
        ensures resident { IfOk result (λ made. IsResident self.new made.0) }
        ensures bounded { IsBounded L.Log self.new }
        ensures accesses { IfOk result (λ made. AccessesPage self.old made.0 self.new) }
        ensures leaves { IfErr result (LeavesNodes L.tells self.old self.new) }
        ensures unnamed { IfErr result HasNoName }
    {
        let stuck = self.writer.sticky_log.fault;
        if stuck {
            return Err(Error::Io(Device::Write));
        }
        let Some(pid) = self.free.greatest() else {
            let token = PageView::new(self.pages.len() as PageId, 1);
            let added = add_page(&mut self.writer, &mut self.pages, node);
            return end_allocation(&mut self.pages, &mut self.writer.accesses, token, added);
        };
        let page = self.pages.get_mut(pid);
        let reused = reuse_page(&mut self.writer, &mut self.free, pid, page, node);
        let token = PageView::new(pid, page.stamp);
        end_allocation(&mut self.pages, &mut self.writer.accesses, token, reused)
    }

    /// Returns a reference to the node of a page, with the page's token. It returns None if the page is absent or free.
    ///
    /// For a page in memory nothing is allocated, and the log isn't called. Any other page is read from the log, by one read for each
    /// message that makes it, and is in memory then.
    ///
    /// It fails with `ReservedId` for the cache's own pages, and with `Corruption` if the messages of the page make no node, with the
    /// pointer of the first wrong one. These, `Io` and `OutOfMemory` leave every page unchanged. An earlier write error is returned for
    /// every page.
    pub fn get(&mut self, pid: PageId) -> Result<Option<NodeView<'_>>, Refusal>
        ensures* got { sem 𝓛 (AfterLoan L.row L.Log self.entry
            (IsGot L.Log self.entry.now pid result)) }
    {
        self.page_in(pid)?;
        let found = self.node_at(pid);
        Ok(found)
    }

    /// Applies a link to the node of a page that is still at the stamp of the token, increases the stamp by one, and returns the new token.
    /// If ten messages make the page, the node that the link makes is written whole, and then the page that is due is moved, if the log
    /// names one (`attempt_gc`). The move never changes the result of the call.
    ///
    /// If the page is at another stamp, the call returns the page's current token with the link; if the page is absent or free, it returns
    /// neither. The tests come in this order: `ReservedId` for the cache's own pages; the stamp; a page that isn't in memory is read, and
    /// `Corruption` is returned if its messages make no node, with the pointer of the first wrong one; `LinkRefused` if the node doesn't
    /// accept the link; `StampUsedUp` if the stamp is the greatest. Only then is memory allocated for the link, and `LogFull` is returned
    /// if the log has no room. These, `OutOfMemory` and a failed read leave every page and message unchanged. A write error is sticky:
    /// every later call returns it until the log is reopened. A write error in the move is returned by the next call.
    #[tactic(auto, using(crate::proofs::Steps::Refusals::no_name))]
    pub fn link(
        &mut self,
        pid: PageId,
        old: PageView,
        link: Link,
    ) -> Result<Result<PageView, Option<(PageView, Link)>>, Error>
        requires { pid_of old ≡ pid }
        ensures step { Steps L.Log self.old (call.Link old link) (Linked result) self.new }
        ensures blame { IsBlamed L.Log self.old self.new result }
        ensures keeps { KeepsSwap self.old self.new result }
        ensures token { IfOk result (IsAnswered self.old.stamps old link) }
        ensures swap { JoinsOrMoves L.Log self.old pid old link result self.new }
        ensures unnamed { IfErr result HasNoName }
    {
        match self.link_alone(pid, old, &link) {
            Ok((token, joins)) => {
                if joins {
                    return Ok(Ok(token));
                }
                let _ = self.attempt_gc(); // the link stands, whatever it meets
                Ok(Ok(token))
            }
            Err(rejection) => rejection.answer(link),
        }
    }

    /// Replaces what a page holds with a node, if the page is still at the stamp of the token, increases the stamp by one, and returns the
    /// new token. The page isn't read. Then the page that is due is moved, if the log names one (`attempt_gc`). The move never changes the
    /// result of the call.
    ///
    /// If the page is at another stamp, the call returns the page's current token with the node; if the page is absent or free, it returns
    /// neither. It fails with `ReservedId` for the cache's own pages, with `StampUsedUp` if the stamp is the greatest, and with `LogFull`
    /// if the log has no room. These and `OutOfMemory` leave every page and message unchanged. A write error is sticky: every later call
    /// returns it until the log is reopened. A write error in the move is returned by the next call.
    #[tactic(auto, using(crate::proofs::Steps::Refusals::no_name))]
    pub fn replace(
        &mut self,
        pid: PageId,
        old: PageView,
        node: Node,
    ) -> Result<Result<PageView, Option<(PageView, Node)>>, Error>
        requires { pid_of old ≡ pid }
        ensures step { Steps L.Log self.old (call.Replace old node) (Replaced result) self.new }
        ensures blame { IsBlamed L.Log self.old self.new result }
        ensures keeps { KeepsSwap self.old self.new result }
        ensures token { IfOk result (IsAnswered self.old.stamps old node) }
        ensures swap { PutsAndMoves L.Log self.old pid old node result self.new }
        ensures unnamed { IfErr result HasNoName }
    {
        match self.replace_alone(pid, old, node) {
            Ok(Ok(made)) => {
                let _ = self.attempt_gc(); // the replacement stands, whatever it meets
                Ok(Ok(made))
            }
            Ok(Err(rejection)) => Ok(Err(rejection)),
            Err(error) => Err(error),
        }
    }

    /// Frees a page that is still at the stamp of the token, increases its stamp by one, and returns the new token. The page is absent for
    /// every other call until an `allocate` uses it again. One message is appended, and nothing is read.
    ///
    /// If the page is at another stamp, the call returns the page's current token; if the page is absent or free, it returns no token. It
    /// fails with `ReservedId` for the cache's own pages, with `StampUsedUp` if the stamp is the greatest, and with `LogFull` if the log
    /// has no room. These and `OutOfMemory` leave every page and message unchanged. A write error is sticky: every later call returns it
    /// until the log is reopened.
    #[tactic(auto, using(crate::proofs::Steps::Refusals::no_name))]
    pub fn free(
        &mut self,
        pid: PageId,
        old: PageView,
    ) -> Result<Result<PageView, Option<(PageView, ())>>, Error>
        requires { pid_of old ≡ pid }
        ensures step { Steps L.Log self.old (call.Free old) (Freed result) self.new }
        ensures blame { IsBlamed L.Log self.old self.new result }
        ensures keeps { Keeps self.old self.new result (stamps_after_swap self.old.stamps) }
        ensures token { IfOk result (IsAnswered self.old.stamps old tt) }
        ensures unread { ReadsNothing L.Log self.old self.new }
        ensures length { L.tells
            → IfOk result (λ swapped. OnOk swapped (chain_length L.state self.new pid ≡ 1)) }
        ensures resident { IfOk result (λ swapped. OnOk swapped
            (IsResident self.new pid × HasNoNode self.new pid)) }
        ensures bounded { IsBounded L.Log self.new }
        ensures accesses { IfOk result
            (λ swapped. OnOk swapped (AccessesPage self.old pid self.new)) }
        ensures same { IfOk result (λ swapped. OnErr swapped (KeepsMemory self.old self.new)) }
        ensures leaves { IfErr result (EvictsAtMost self.old pid self.new L.tells) }
        ensures unnamed { IfErr result HasNoName }
    {
        match judge(self.writer.sticky_log.fault, &self.pages, pid, old) {
            Ok(()) => {}
            Err(rejection) => return rejection.answer(()),
        }
        let page = self.pages.get_mut(pid);
        let freed = free_page(&mut self.writer, &mut self.free, pid, page);
        let token = PageView::new(pid, page.stamp);
        end_swap(&mut self.pages, &mut self.writer.accesses, token, freed)
    }

    // Refuses what can't be read, reads the page from the log where it doesn't lie in memory, and accesses it.
    fn page_in(&mut self, pid: PageId) -> Result<(), Refusal>
        ensures stuck { self.old.fault ≡ true
            → IsErrOf result (refusal.Io Write) × (self.new ≡ self.old) }
        ensures brings { self.old.fault ≡ false → BringsIn L.Log self.old pid result self.new }
        ensures always { self.old.fault ≡ false → is_reserved pid ≡ false → IsResident self.old pid
            → IsOk result }
        ensures reads { ReadsPage L.Log self.old pid self.new }
        ensures kept_out { OnErr result (IsAway self.old pid → IsAway self.new pid) }
        ensures bounded { IsBounded L.Log self.new }
        ensures accesses { OnOk result (FindsPage self.old pid self.new) }
        ensures same { OnErr result (KeepsMemory self.old self.new) }
    {
        if self.writer.sticky_log.fault {
            return Err(Refusal::Io(Device::Write));
        }
        if is_reserved(pid) {
            return Err(Refusal::Unsupported(Why::ReservedId));
        }
        let count = self.pages.len() as PageId;
        if pid >= count {
            return Ok(());
        }
        let page = self.pages.get_mut(pid);
        let read = pull_and_access(&mut self.writer, pid, page);
        evict(&mut self.pages, &mut self.writer.accesses, None);
        read
    }

    // The node at an id that lies in memory, with the page's token.
    fn node_at(&self, pid: PageId) -> Option<NodeView<'_>>
        ensures is { IsNodeAt L.Log self.now pid result }
        ensures node { MatchOption result (HasNoNode self.now pid) (λ _. (size : ℕ)
            × HasNode self.now pid size) }
    {
        let page = self.pages.get(pid)?;
        let PageContent::Node(node) = &page.kept else {
            return None;
        };
        let node = node.lend(&self.empty);
        Some(NodeView::new(node, PageView::new(pid, page.stamp)))
    }
}
