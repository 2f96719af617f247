//! Reading a page that isn't in memory.

ghost use Rattle.std.specs.Prelude.{◌≡◌, ◌<◌, false, true, length, IfErr, IsOk, OnOk, OnErr};
ghost use Rattle.sled_base.specs.declared.types.Refusal.TheVariants as refusal;
ghost use Rattle.sled_log.specs.Messages.{effect_of_entry};
ghost use Rattle.sled_log.specs.LogState.{now};
ghost use Rattle.sled_pagecache.specs.Cache.{chain_at};
ghost use Rattle.sled_pagecache.specs.Inside.LinkWrites.{PutsLink};
ghost use Rattle.sled_pagecache.specs.Inside.PageEntry.{IsKept, is_resident};
ghost use Rattle.sled_pagecache.specs.Table.{is_free};
ghost use Rattle.sled_pagecache.specs.Inside.PageIn.{PullsPage};
ghost use Rattle.sled_pagecache.specs.Inside.Invariant.{IsFreeOrNode};
ghost use Rattle.sled_pagecache.specs.Inside.RecentUse.{IsListedAt, AccessesNode};
ghost use Rattle.sled_pagecache.specs.Inside.StickyLog.{IsReady};

use crate::pagecache::memory::accesses::Accesses;
use crate::pagecache::memory::chain::read_node;
use crate::pagecache::table::page_entry::{Page, PageContent, total_size};
use crate::pagecache::write::page_link::link_page;
use crate::pagecache::write::sticky_log::StickyLog;
use crate::pagecache::write::writer::Writer;
use sled_base::{PageId, Refusal};
use sled_log::Log;
use sled_node::Link;

// Reads the node of a page from the log, unless what the page holds lies in memory. A refusal leaves the page.
#[inline(always)]
pub(crate) fn pull<L: Log>(
    sticky_log: &mut StickyLog<L>,
    pid: PageId,
    page: &mut Page,
) -> Result<(), Refusal>
    requires ready { IsReady L.Log sticky_log.old }
    requires kept { L.tells → IsKept (chain_at (L.state sticky_log.old.log) pid) page.old }
    ensures pulled { PullsPage L.Log sticky_log.old pid page.old sticky_log.new page.new result }
    ensures is_there { is_resident page.old.kept ≡ true → IsOk result }
{
    if let PageContent::OnLog = page.kept {
        page.kept = PageContent::Node(read_node(sticky_log, pid, page.cache_infos())?);
    }
    Ok(())
}

// Reads the node of a page and accesses the page, which takes no memory where it is listed with its size. What a refused access has
// read isn't kept.
pub(crate) fn pull_and_access<L: Log>(
    writer: &mut Writer<L>,
    pid: PageId,
    page: &mut Page,
) -> Result<(), Refusal>
    requires ready { IsReady L.Log writer.old.sticky_log }
    requires kept { L.tells → IsKept (chain_at (L.state writer.old.sticky_log.log) pid) page.old }
    ensures pulled { PullsPage L.Log writer.old.sticky_log pid page.old writer.new.sticky_log page.new result }
    ensures left { OnErr result (writer.new.accesses ≡ writer.old.accesses) }
    ensures is_there { is_resident page.old.kept ≡ true → IsListedAt pid page.old writer.old.accesses.lru
        → IsOk result }
    ensures accessed { OnOk result (AccessesNode writer.old.accesses pid page.new writer.new.accesses) }
{
    let was_away = matches!(page.kept, PageContent::OnLog);
    pull(&mut writer.sticky_log, pid, page)?;
    let outcome = access_node(&mut writer.accesses, pid, page);
    if was_away && outcome.is_err() {
        page.kept = PageContent::OnLog;
    }
    outcome
}

// Accesses a page of which the node lies in memory.
fn access_node(accesses: &mut Accesses, pid: PageId, page: &Page) -> Result<(), Refusal>
    ensures accessed { OnOk result (AccessesNode accesses.old pid page.now accesses.new) }
    ensures err { OnErr result (accesses.new ≡ accesses.old) }
    ensures refused { IfErr result (λ why. why ≡ refusal.OutOfMemory) }
    ensures always { IsListedAt pid page.now accesses.old.lru → IsOk result }
{
    match page.kept {
        PageContent::Node(_) => accesses.access(pid, total_size(page.cache_infos())),
        _ => Ok(()),
    }
}

// Applies a link to the node of a page, which is read where it doesn't lie in memory, and answers whether it joins the page's messages.
// What a refused link has read isn't kept.
pub(crate) fn pull_and_link<L: Log>(
    writer: &mut Writer<L>,
    pid: PageId,
    page: &mut Page,
    link: &Link,
) -> Result<bool, Refusal>
    requires ready { IsReady L.Log writer.old.sticky_log }
    requires there { L.tells → pid < length (now effect_of_entry (L.state writer.old.sticky_log.log)) }
    requires kept { L.tells → IsKept (chain_at (L.state writer.old.sticky_log.log) pid) page.old }
    requires full { is_free page.old.kept ≡ false }
    requires own { IsFreeOrNode page.old.kept }
    ensures { PutsLink L.Log writer.old pid page.old link.now writer.new page.new result }
{
    let was_away = matches!(page.kept, PageContent::OnLog);
    pull(&mut writer.sticky_log, pid, page)?;
    match link_page(writer, pid, page, link) {
        Ok(joins) => Ok(joins),
        Err(refusal) => {
            if was_away {
                page.kept = PageContent::OnLog;
            }
            Err(refusal)
        }
    }
}
