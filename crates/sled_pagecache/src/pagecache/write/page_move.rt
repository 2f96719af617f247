//! The moves of a page: each writes it to the log again, as it is.

ghost use Rattle.std.specs.Prelude.{◌≡◌, ◌<◌, false, true, length, MatchOption};
ghost use Rattle.sled_log.specs.LogState.{now};
ghost use Rattle.sled_log.specs.Messages.{effect_of_entry};
ghost use Rattle.sled_pagecache.specs.Cache.{chain_at};
ghost use Rattle.sled_pagecache.specs.Due.{is_one_blob, segment_of};
ghost use Rattle.sled_pagecache.specs.Inside.PageMoves.{lie_in, pointers_in, IsBlobOf, MovesOrNot, PutsAgain};
ghost use Rattle.sled_log.specs.Chains.{is_chain};
ghost use Rattle.sled_log.specs.Pages.{IsSized};
ghost use Rattle.sled_pagecache.specs.Inside.PageEntry.{IsKept, is_resident};
ghost use Rattle.sled_pagecache.specs.Inside.PageWrites.{CanPut};
ghost use Rattle.sled_pagecache.specs.Table.{is_free};
ghost use Rattle.sled_pagecache.specs.Inside.StickyLog.{IsReady};

use crate::pagecache::handles::config::Config;
use crate::pagecache::memory::accesses::size_with;
use crate::pagecache::memory::pull::pull;
use crate::pagecache::table::page_entry::{CacheInfo, Page, PageContent, keep_moved};
use crate::pagecache::write::message::write_content;
use crate::pagecache::write::page_swap::payload_size;
use crate::pagecache::write::writer::Writer;
use sled_base::{BlobPointer, DiskPtr, LogOffset, PageId, Refusal};
use sled_log::Log;

// Whether a message lies in the segment of a place, of those that make a page.
pub(crate) fn lies_in(config: Config, place: LogOffset, infos: &[CacheInfo]) -> bool
    ensures { result ≡ lie_in config place infos.now }
{
    let segment = segment_of(config, place);
    for info in infos {
        if segment_of(config, info.pointer.lid()) == segment {
            return true;
        }
    }
    false
}

// In which segment of the log a place lies.
fn segment_of(config: Config, place: LogOffset) -> u64
    ensures { result ≡ segment_of config place }
{
    place.checked_div(config.segment_size as u64).unwrap_or(0)
}

// Writes again what a page holds, by one message, and accesses the page. It is read before where it doesn't lie in memory, and then
// lies there. One that is kept as one blob isn't read: its message is written again, and it stays in memory or out of it. A refusal
// leaves the page, and what it has read isn't kept.
pub(crate) fn move_page<L: Log>(
    writer: &mut Writer<L>,
    pid: PageId,
    page: &mut Page,
) -> Result<(), Refusal>
    requires ready { IsReady L.Log writer.old.sticky_log }
    requires there { L.tells → pid < length (now effect_of_entry (L.state writer.old.sticky_log.log)) }
    requires kept { L.tells → IsKept (chain_at (L.state writer.old.sticky_log.log) pid) page.old }
    requires chain { L.tells
        → is_chain effect_of_entry (chain_at (L.state writer.old.sticky_log.log) pid) ≡ true }
    requires sized { L.tells → IsSized (chain_at (L.state writer.old.sticky_log.log) pid) }
    ensures { MovesOrNot L.Log writer.old pid page.old writer.new page.new result }
{
    match blob_of(page) {
        Some(blob) => move_blob(writer, pid, page, blob),
        None => pull_and_rewrite(writer, pid, page),
    }
}

// The blob that a page is kept as, if it isn't free and its one message is.
fn blob_of(page: &Page) -> Option<BlobPointer>
    ensures { MatchOption result (is_free page.now.kept ≡ false
        → is_one_blob (pointers_in page.now.infos.items) ≡ false)
        (λ blob. IsBlobOf page.now blob) }
{
    let infos = page.cache_infos();
    if page.is_free() || infos.len() != 1 {
        return None;
    }
    match infos[0].pointer {
        DiskPtr::Blob(_, blob) => Some(blob),
        DiskPtr::Inline(_) => None,
    }
}

// Writes the message of a page again that is kept as one blob.
fn move_blob<L: Log>(
    writer: &mut Writer<L>,
    pid: PageId,
    page: &mut Page,
    blob: BlobPointer,
) -> Result<(), Refusal>
    requires ready { IsReady L.Log writer.old.sticky_log }
    requires there { L.tells → pid < length (now effect_of_entry (L.state writer.old.sticky_log.log)) }
    requires kept { L.tells → IsKept (chain_at (L.state writer.old.sticky_log.log) pid) page.old }
    requires chain { L.tells
        → is_chain effect_of_entry (chain_at (L.state writer.old.sticky_log.log) pid) ≡ true }
    requires sized { L.tells → IsSized (chain_at (L.state writer.old.sticky_log.log) pid) }
    requires blob { IsBlobOf page.old blob }
    ensures { MovesOrNot L.Log writer.old pid page.old writer.new page.new result }
{
    let log_size = page.first_info().log_size;
    let Ok(()) = writer.accesses.access(pid, log_size) else {
        return Err(Refusal::OutOfMemory);
    };
    let (lsn, pointer, _) = writer.sticky_log.rewrite_blob_pointer(pid, blob)?;
    let info = CacheInfo {
        ts: page.stamp,
        lsn,
        pointer,
        log_size,
    };
    keep_moved(page, info);
    Ok(())
}

// Writes again what a page holds, which is read before where it doesn't lie in memory.
fn pull_and_rewrite<L: Log>(
    writer: &mut Writer<L>,
    pid: PageId,
    page: &mut Page,
) -> Result<(), Refusal>
    requires ready { IsReady L.Log writer.old.sticky_log }
    requires there { L.tells → pid < length (now effect_of_entry (L.state writer.old.sticky_log.log)) }
    requires kept { L.tells → IsKept (chain_at (L.state writer.old.sticky_log.log) pid) page.old }
    requires no_blob { is_free page.old.kept ≡ false
        → is_one_blob (pointers_in page.old.infos.items) ≡ false }
    ensures { MovesOrNot L.Log writer.old pid page.old writer.new page.new result }
{
    let was_away = matches!(page.kept, PageContent::OnLog);
    pull(&mut writer.sticky_log, pid, page)?;
    match rewrite(writer, pid, page) {
        Ok(()) => Ok(()),
        Err(refusal) => {
            if was_away {
                page.kept = PageContent::OnLog;
            }
            Err(refusal)
        }
    }
}

// Writes again what lies in memory of a page. A refusal leaves the page.
fn rewrite<L: Log>(writer: &mut Writer<L>, pid: PageId, page: &mut Page) -> Result<(), Refusal>
    requires held { is_resident page.old.kept ≡ true }
    requires ready { IsReady L.Log writer.old.sticky_log }
    requires there { L.tells → pid < length (now effect_of_entry (L.state writer.old.sticky_log.log)) }
    ensures { PutsAgain L.Log pid writer.old writer.new page.old page.new result }
{
    know_limits(&page.kept);
    let size = payload_size(&page.kept);
    let Ok(()) = writer.accesses.access(pid, size_with(0, size)) else {
        return Err(Refusal::OutOfMemory);
    };
    let stamp = page.stamp;
    let info = write_content(&mut writer.sticky_log, pid, &page.kept, size, stamp)?;
    keep_moved(page, info);
    Ok(())
}

// Whatever lies in memory can be written. Nothing is done.
pub(crate) fn know_limits(kept: &PageContent)
    requires { is_resident kept.now ≡ true }
    ensures { CanPut kept.now }
{
    match kept {
        // Every map keeps the limits, and a number is read here, which shows that it has 64 bits.
        PageContent::Roots(roots) => {
            let _ = roots.as_meta().len();
        }
        PageContent::Counter(n) => {
            let _n = *n;
        }
        _ => {}
    }
}
