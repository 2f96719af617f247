//! The generated ids of a cache.

ghost use Rattle.std.specs.Prelude.{◌≡◌, false, slice_get, IfOk, IfErr, IsOk, Some, ◌+◌};
ghost use Rattle.sled_pagecache.specs.Answers.{HasNoName, Keeps};
ghost use Rattle.sled_pagecache.specs.Calls.{Steps, IsBlamed};
ghost use Rattle.sled_pagecache.specs.Answers.{GivesId, IsCovered};
ghost use Rattle.sled_pagecache.specs.Limits.{counter_pid};
ghost use Rattle.sled_pagecache.specs.Memory.{IsBounded, EvictsAtMost};
ghost use Rattle.sled_pagecache.specs.Memory.{ReadsNothing};
ghost use Rattle.sled_pagecache.specs.State.{pid_of, stamp_of};
ghost use Rattle.sled_pagecache.specs.declared.pagecache.handles.call.Answer.TheVariants.{GotIdgen, Generated};
ghost use Rattle.sled_pagecache.specs.declared.pagecache.handles.call.Call.TheVariants.{GetIdgen, GenerateId};

use super::PageCache;
use crate::pagecache::COUNTER_PID;
use crate::pagecache::handles::view::PageView;
use crate::pagecache::memory::evict::evict;
use crate::pagecache::write::counter_page::{interval_start, own_counter, put_counter};
use sled_base::{Device, Error, Why};
use sled_log::Log;

impl<L: Log> PageCache<L> {
    /// Returns the counter of generated ids with the token of its page. The counter is in memory, so the call reads and allocates nothing.
    ///
    /// The only error is an earlier write error.
    pub fn get_idgen(&self) -> Result<(PageView, u64), Error>
        ensures step { Steps L.Log self.now GetIdgen (GotIdgen result) self.now }
        ensures keeps { Keeps self.now self.now result (λ _. self.now.stamps) }
        ensures token { IfOk result (λ found. (pid_of found.0 ≡ counter_pid)
            × (slice_get self.now.stamps counter_pid ≡ Some (stamp_of found.0))) }
        ensures always { self.now.fault ≡ false → IsOk result }
        ensures unnamed { IfErr result HasNoName }
    {
        if self.writer.sticky_log.fault {
            return Err(Error::Io(Device::Write));
        }
        Ok(own_counter(&self.pages))
    }

    /// Generates the next id. As long as the interval of ids in the config never gets shorter, no id is returned twice over any run of
    /// openings: [`ids_are_given_once`](crate::openings::ids_are_given_once).
    ///
    /// Ids come in intervals of the length in the config. If the counter is below the interval of the next id, the start of that interval
    /// first becomes the counter. This counter and everything pending are made durable before the id is returned. Every other id takes no
    /// memory, and changes neither a page nor the log.
    ///
    /// It fails with `IdsUsedUp` if the next id is above the greatest u64. If a new counter is needed, it fails with `BatchOpen` inside a
    /// batch, with `StampUsedUp` if the stamp of its page is the greatest, and with `LogFull` if the log has no room. These and
    /// `OutOfMemory` leave every page and message unchanged, and use no id. A write error is sticky: every later call returns it until the
    /// log is reopened.
    #[tactic(auto, using(crate::proofs::Steps::Refusals::no_name))]
    pub fn generate_id_inner(&mut self) -> Result<u64, Error>
        ensures covered { IfOk result (IsCovered L.Log self.new) }
        ensures step { Steps L.Log self.old GenerateId (Generated result) self.new }
        ensures blame { IsBlamed L.Log self.old self.new result }
        ensures keeps { Keeps self.old self.new result (λ _. self.new.stamps) }
        ensures id { IfOk result (λ id. (id ≡ self.old.next)
            × (self.new.next ≡ self.old.next + 1)) }
        ensures unread { ReadsNothing L.Log self.old self.new }
        ensures bounded { IsBounded L.Log self.new }
        ensures gives { IfOk result (λ _. GivesId L.Log self.old self.new) }
        ensures leaves { IfErr result (EvictsAtMost self.old counter_pid self.new L.tells) }
        ensures unnamed { IfErr result HasNoName }
    {
        if self.writer.sticky_log.fault {
            return Err(Error::Io(Device::Write));
        }
        if self.next > u64::MAX as u128 {
            return Err(Error::Unsupported(Why::IdsUsedUp));
        }
        let id = self.next as u64;
        let (_, counter) = own_counter(&self.pages);
        let interval = self.config.idgen_persist_interval;
        let start = interval_start(interval, id);
        if start <= interval_start(interval, counter) {
            self.next += 1;
            return Ok(id);
        }
        if self.writer.sticky_log.batch {
            return Err(Error::Unsupported(Why::BatchOpen));
        }
        let page = self.pages.get_mut(COUNTER_PID);
        match put_counter(&mut self.writer, page, start) {
            Ok(()) => {
                self.next += 1;
                evict(&mut self.pages, &mut self.writer.accesses, None);
                Ok(id)
            }
            Err(refusal) => {
                evict(
                    &mut self.pages,
                    &mut self.writer.accesses,
                    Some(COUNTER_PID),
                );
                Err(Error::from(refusal))
            }
        }
    }
}
