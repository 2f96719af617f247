//! The counter of generated ids, on its page.

ghost use Rattle.std.specs.Prelude.{◌≡◌, ◌<◌, [], false, length, OnOk};
ghost use Rattle.sled_log.specs.Events.{is_open};
ghost use Rattle.sled_log.specs.Contents as contents;
ghost use Rattle.sled_log.specs.LogState.{now};
ghost use Rattle.sled_log.specs.Messages.{effect_of_entry};
ghost use Rattle.sled_log.specs.Reading.{message_of};
ghost use Rattle.sled_pagecache.specs.Inside.Appends.{Puts};
ghost use Rattle.sled_pagecache.specs.Inside.CounterPage.{IsCounterIn, KeepsCounter};
ghost use Rattle.sled_pagecache.specs.Limits.{counter_pid};
ghost use Rattle.sled_pagecache.specs.Step.{interval_start};
ghost use Rattle.sled_pagecache.specs.Inside.PageWrites.{Wrote};
ghost use Rattle.sled_pagecache.specs.Inside.StickyLog.{IsReady};
ghost use Rattle.sled_pagecache.specs.declared.pagecache.table.page_entry.PageContent.TheVariants as page_content;

use crate::pagecache::COUNTER_PID;
use crate::pagecache::handles::view::PageView;
use crate::pagecache::memory::accesses::size_with;
use crate::pagecache::table::page_entry::{CacheInfo, Page, PageContent, keep_alone};
use crate::pagecache::table::pagetable::PageTable;
use crate::pagecache::write::message::write_content;
use crate::pagecache::write::sticky_log::StickyLog;
use crate::pagecache::write::writer::Writer;
use sled_base::{Refusal, Serialize, Why};
use sled_log::Log;

// The counter, with the token of its page.
pub(crate) fn own_counter(pages: &PageTable) -> (PageView, u64)
    requires { KeepsCounter pages.now.pages }
    ensures { IsCounterIn pages.now.pages result }
{
    let Some(page) = pages.get(COUNTER_PID) else {
        unreachable!()
    };
    let PageContent::Counter(n) = &page.kept else {
        unreachable!()
    };
    (PageView::new(COUNTER_PID, page.stamp), *n)
}

// The first number of the interval that a number is in.
pub(crate) fn interval_start(interval: u64, n: u64) -> u64
    ensures { result ≡ interval_start interval n }
{
    match n.checked_div(interval) {
        Some(intervals) => intervals * interval,
        None => 0,
    }
}

// Puts another counter on its page, and makes that and all that is pending stable. A refusal leaves the page.
pub(crate) fn put_counter<L: Log>(
    writer: &mut Writer<L>,
    page: &mut Page,
    n: u64,
) -> Result<(), Refusal>
    requires ready { IsReady L.Log writer.old.sticky_log }
    requires closed { is_open (L.state writer.old.sticky_log.log).pending ≡ false }
    requires there { L.tells
        → counter_pid < length (now effect_of_entry (L.state writer.old.sticky_log.log)) }
    ensures put { Puts L.Log counter_pid (page_content.Counter n) writer.old writer.new page.old page.new result }
    ensures stable { OnOk result ((L.state writer.new.sticky_log.log).pending ≡ []) }
{
    let payload = n.serialized_size();
    if page.stamp == u64::MAX {
        return Err(Refusal::Unsupported(Why::StampUsedUp));
    }
    let Ok(()) = writer.accesses.access(COUNTER_PID, size_with(0, payload)) else {
        return Err(Refusal::OutOfMemory);
    };
    let info = write_durably(&mut writer.sticky_log, n, payload, page.stamp + 1)?;
    page.kept = PageContent::Counter(n);
    keep_alone(page, info);
    Ok(())
}

// Writes a counter to the log, in so many bytes, and makes that and all that is pending stable. It answers how the message is kept, at that stamp.
fn write_durably<L: Log>(
    sticky_log: &mut StickyLog<L>,
    n: u64,
    size: u64,
    stamp: u64,
) -> Result<CacheInfo, Refusal>
    requires sized { size ≡ length (message_of (contents.Put (contents.Counter n))).payload }
    requires ready { IsReady L.Log sticky_log.old }
    requires closed { is_open (L.state sticky_log.old.log).pending ≡ false }
    requires there { L.tells
        → counter_pid < length (now effect_of_entry (L.state sticky_log.old.log)) }
    ensures wrote { Wrote L.Log sticky_log.old sticky_log.new counter_pid
        (contents.Put (contents.Counter n)) stamp result }
    ensures stable { OnOk result ((L.state sticky_log.new.log).pending ≡ []) }
{
    let counter = PageContent::Counter(n);
    let info = write_content(sticky_log, COUNTER_PID, &counter, size, stamp)?;
    sticky_log.make_stable()?;
    Ok(info)
}
