//! The swaps of a page's node by themselves, without the move that may follow.

ghost use Rattle.std.specs.Prelude.{◌≡◌, nat_lt, IfOk};
ghost use Rattle.sled_pagecache.specs.Cache.{chain_length};
ghost use Rattle.sled_pagecache.specs.Inside.TokenCheck.{link_answer};
ghost use Rattle.sled_pagecache.specs.Limits.{most_messages};
ghost use Rattle.sled_pagecache.specs.State.{pid_of};
ghost use Rattle.sled_pagecache.specs.Swaps.{LinksAlone, PutsAlone};

use super::PageCache;
use crate::pagecache::handles::view::PageView;
use crate::pagecache::memory::evict::{end_link, end_swap};
use crate::pagecache::memory::pull::pull_and_link;
use crate::pagecache::write::page_swap::put_node;
use crate::pagecache::write::token_check::{Rejection, judge};
use sled_base::{Error, PageId};
use sled_log::Log;
use sled_node::{Link, Node};

impl<L: Log> PageCache<L> {
    // Applies a link to the node of a page, as `link` says. It answers the page's token, and whether the link joined its messages.
    pub(crate) fn link_alone(
        &mut self,
        pid: PageId,
        old: PageView,
        link: &Link,
    ) -> Result<(PageView, bool), Rejection>
        requires { pid_of old ≡ pid }
        ensures links { LinksAlone L.Log self.old pid old link.now (link_answer result link.now)
            self.new }
        ensures joins { L.tells → IfOk result
            (λ done. done.1 ≡ nat_lt (chain_length L.state self.old pid) most_messages) }
    {
        judge(self.writer.sticky_log.fault, &self.pages, pid, old)?;
        let page = self.pages.get_mut(pid);
        let linked = pull_and_link(&mut self.writer, pid, page, link);
        let token = PageView::new(pid, page.stamp);
        end_link(&mut self.pages, &mut self.writer.accesses, token, linked)
    }

    // Puts a node on a page, as `replace` says.
    pub(crate) fn replace_alone(
        &mut self,
        pid: PageId,
        old: PageView,
        node: Node,
    ) -> Result<Result<PageView, Option<(PageView, Node)>>, Error>
        requires { pid_of old ≡ pid }
        ensures { PutsAlone L.Log self.old pid old node result self.new }
    {
        match judge(self.writer.sticky_log.fault, &self.pages, pid, old) {
            Ok(()) => {}
            Err(rejection) => return rejection.answer(node),
        }
        let page = self.pages.get_mut(pid);
        let put = put_node(&mut self.writer, pid, page, node);
        let token = PageView::new(pid, page.stamp);
        end_swap(&mut self.pages, &mut self.writer.accesses, token, put)
    }
}
