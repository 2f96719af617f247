// A message more, or the record that closes a batch.

ghost use Rattle.std.specs.Prelude.{◌≡◌, ◌<◌, ◌+◌, ◌^◌, ◌⊎◌, pos, true};
ghost use Rattle.sled_log.specs.Calls.{can_append};
ghost use Rattle.sled_log.specs.Events.{is_open};
ghost use Rattle.sled_log.specs.LogState.{now};
ghost use Rattle.sled_log.specs.Messages.{effect_of_entry};
ghost use Rattle.sled_base.specs.declared.types.DiskPtr.TheVariants.{Inline};
ghost use Rattle.sled_disk.specs.LogSteps.{AddsMessage, AnswersMessage, ClosesBatch, OnlyNext};
ghost use Rattle.sled_disk.specs.Names.{moves_in};

use super::DiskLog;
use crate::disk::Disk;
use sled_base::{DiskPtr, Lsn, MessageKind, PageId};
use sled_log::{Log, LogError};

// What an append answers of a record at a place.
fn said_at(place: u64, len: usize) -> (Lsn, DiskPtr, u64)
    requires { place + 17 + len < 2 ^ 63 }
    ensures { result ≡ (pos place, Inline place, 17 + len) }
{
    (place as Lsn, DiskPtr::Inline(place), 17 + len as u64)
}

impl<D: Disk> DiskLog<D> {
    // Adds a message of a page as `append` does, and looks for none to be named.
    pub(crate) fn put(
        &mut self,
        kind: MessageKind,
        pid: PageId,
        payload: &[u8],
    ) -> Result<(Lsn, DiskPtr, u64), LogError>
        requires usable { self.old.usable ≡ true }
        requires can { D.tells → can_append effect_of_entry
            (now effect_of_entry (⟦<Self as Log>⟧.state self.old)) pid kind ≡ true }
        ensures adds { AddsMessage ⟦<Self as Log>⟧ self.old self.new kind pid payload.now result }
        ensures answers { AnswersMessage self.old self.new kind pid payload.now result }
    {
        let place = self.add(kind, pid, payload)?;
        let said = said_at(place, payload.len());
        if (self.next.len() as u64) < self.segment_size {
            return Ok(said);
        }
        self.write_next()?;
        Ok(said)
    }

    // Adds the record of that kind that closes the open batch. It calls no device.
    pub(crate) fn close_batch(&mut self, kind: u8)
        requires usable { self.old.usable ≡ true }
        requires opened { is_open (⟦<Self as Log>⟧.state self.old).pending ≡ true }
        requires kind { (kind ≡ 13) ⊎ (kind ≡ 1) }
        ensures called { ClosesBatch ⟦<Self as Log>⟧ self.old self.new kind }
        ensures only { OnlyNext self.old self.new }
        ensures unnamed { D.tells
            → moves_in (D.seen self.new.disk) self.new.next self.new.names
            ≡ moves_in (D.seen self.old.disk) self.old.next self.old.names }
    {
        self.next.end(kind);
    }
}
