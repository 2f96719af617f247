//! How many bytes a cache takes on its disk, and how many its pages would take.

ghost use Rattle.std.specs.Prelude.{◌≡◌, ◌-◌, ◌^◌, false, min, IfOk, IfErr};
ghost use Rattle.sled_log.specs.LogState.{now};
ghost use Rattle.sled_log.specs.Messages.{effect_of_entry};
ghost use Rattle.sled_pagecache.specs.Answers.{HasNoName, Keeps};
ghost use Rattle.sled_pagecache.specs.Cache.{chain_at};
ghost use Rattle.sled_pagecache.specs.Calls.{Steps, IsBlamed};
ghost use Rattle.sled_pagecache.specs.Damage.{ReportsSomeWrong};
ghost use Rattle.sled_pagecache.specs.Memory.{HasRead, IsBounded, KeepsMemory, messages_away};
ghost use Rattle.sled_pagecache.specs.Sizes.{live_size};
ghost use Rattle.sled_pagecache.specs.declared.pagecache.handles.call.Answer.TheVariants.{Amplified};
ghost use Rattle.sled_pagecache.specs.declared.pagecache.handles.call.Call.TheVariants.{SpaceAmplification};

use super::PageCache;
use crate::pagecache::memory::page_sizes::{live_size, total_rss};
use sled_base::{Device, Error};
use sled_log::Log;

impl<L: Log> PageCache<L> {
    /// Returns how many bytes the log has, and how many the pages would take together: the sizes of the nodes and of the map of named roots
    /// by their `rss`, 8 bytes for the counter of ids, and the size of a segment. Free pages take nothing.
    ///
    /// A page whose node isn't in memory is read, by one read for each of its messages, one page after another in the order of their ids.
    /// Nothing that was read is kept, and no page is accessed. It fails with `Corruption` if the messages of a page make no node, with the
    /// pointer of the first wrong one. This, `Io` and `OutOfMemory` leave every page unchanged. An earlier write error is returned before
    /// anything is read.
    #[tactic(auto, using(crate::proofs::Steps::Refusals::no_name))]
    pub fn space_amplification(&mut self) -> Result<(u64, u128), Error>
        ensures step { Steps L.Log self.old SpaceAmplification (Amplified result) self.new }
        ensures blame { IsBlamed L.Log self.old self.new result }
        ensures keeps { Keeps self.old self.new result (λ _. self.old.stamps) }
        ensures size { IfOk result (λ sizes. sizes.0 ≡ L.bytes self.old.log) }
        ensures damaged { L.tells → self.old.fault ≡ false
            → IfErr result (ReportsSomeWrong (chain_at (L.state self.old.log))) }
        ensures reads { L.tells → HasRead L.counts self.old.log self.new.log
            (messages_away (now effect_of_entry (L.state self.old.log)) self.old.resident) result }
        ensures same { KeepsMemory self.old self.new }
        ensures bounded { IsBounded L.Log self.new }
        ensures unnamed { IfErr result HasNoName }
    {
        if self.writer.sticky_log.fault {
            return Err(Error::Io(Device::Write));
        }
        let on_disk = self.writer.sticky_log.log.size();
        let pages = total_rss(&mut self.writer.sticky_log, &self.pages)?;
        Ok((on_disk, pages + self.config.segment_size as u128))
    }

    /// Returns how many bytes of the log the messages take that make the pages, which is about what rewriting the log leaves. `u64::MAX`
    /// means that number or more.
    ///
    /// It looks only at the table of pages: it reads nothing, and allocates nothing.
    pub fn live_bytes(&self) -> u64
        ensures live { L.tells → self.now.fault ≡ false
            → result ≡ min (live_size (now effect_of_entry (L.state self.now.log))) (2 ^ 64 - 1) }
    {
        live_size(&self.pages)
    }
}
