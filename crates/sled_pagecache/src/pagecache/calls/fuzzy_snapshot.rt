//! What the log of a cache holds, according to the table.

ghost use Rattle.std.specs.Prelude.{IfOk, IfErr};
ghost use Rattle.std.specs.List.{AllZip};
ghost use Rattle.sled_pagecache.specs.Answers.{HasNoName, Keeps};
ghost use Rattle.sled_pagecache.specs.Calls.{Steps};
ghost use Rattle.sled_pagecache.specs.Snapshots.{IsSnapshot};
ghost use Rattle.sled_pagecache.specs.Table.{IsSaidBy};
ghost use Rattle.sled_pagecache.specs.declared.pagecache.handles.call.Answer.TheVariants.{TookSnapshot};
ghost use Rattle.sled_pagecache.specs.declared.pagecache.handles.call.Call.TheVariants.{TakeFuzzySnapshot};

use super::PageCache;
use crate::pagecache::handles::snapshot::Snapshot;
use crate::pagecache::table::pagetable::PageTable;
use sled_base::{Device, Error, PageId, PageState};
use sled_log::Log;
use std::alloc::{AllocError, Global};

impl<L: Log> PageCache<L> {
    /// Returns how far the log is durable, and where it stores each page, without a call of the device. The pages are as a log reports them
    /// when it is recovered, with what is pending included.
    ///
    /// It takes memory for each page and for each of its messages. The only errors are `OutOfMemory` and an earlier write error.
    pub fn take_fuzzy_snapshot(&self) -> Result<Snapshot, Error>
        ensures step { Steps L.Log self.now TakeFuzzySnapshot (TookSnapshot result) self.now }
        ensures keeps { Keeps self.now self.now result (λ _. self.now.stamps) }
        ensures snapshot { IfOk result (IsSnapshot L.Log self.now) }
        ensures unnamed { IfErr result HasNoName }
    {
        if self.writer.sticky_log.fault {
            return Err(Error::Io(Device::Write));
        }
        Ok(Snapshot {
            stable_lsn: Some(self.writer.sticky_log.log.stable_offset()),
            active_segment: None,
            pt: states_of(self.writer.sticky_log.alloc, &self.pages)?,
        })
    }
}

// The pages as a log says them, by their ids.
fn states_of(alloc: Global, pages: &PageTable) -> Result<Vec<PageState>, AllocError>
    ensures { IfOk result (λ states. AllZip IsSaidBy pages.now.pages states.items) }
{
    let count = pages.len();
    let mut states = Vec::with_capacity(alloc, count)?;
    for pid in 0..count {
        let Some(page) = pages.get(pid as PageId) else {
            unreachable!()
        };
        states.push(page.to_page_state(alloc)?)?;
    }
    Ok(states)
}
