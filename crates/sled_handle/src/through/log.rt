//! Generated ids, and calls on the whole log.

ghost use Rattle.std.specs.Prelude.{◌≡◌};
ghost use Rattle.sled_handle.specs.Handles.{InMemory, ThroughStore};
ghost use Rattle.sled_handle.specs.Steps.{GivesId, MakesStable, MovesDue, TellsAmplification, TellsLive, TellsRecovered, TellsSize};

use crate::calls::log as calls;
use crate::file::{has_failed, told};
use crate::status::{CLOSED, NOT_OVER_FILE, WRITE};
use crate::store::Store;
use sled_disk::CallersFile;
use sled_pagecache::{Log, MemLog};

/// Writes an id that was never returned before.
pub fn generate_id<F: CallersFile>(store: &mut Store<F>, id: &mut u64) -> u32
    ensures { ThroughStore store.old store.new result (id.new ≡ id.old)
        (λ _ g old new status. GivesId g old new status id.old id.new) }
{
    through!(store, cache => calls::generate_id(cache, id))
}

/// Makes everything pending durable, and writes how many bytes that wrote.
pub fn flush<F: CallersFile>(store: &mut Store<F>, written: &mut usize) -> u32
    ensures { ThroughStore store.old store.new result (written.new ≡ written.old)
        (λ _ g old new status. MakesStable g old new status written.old written.new) }
{
    through!(store, cache => calls::flush(cache, written))
}

/// Writes how many bytes the log has.
pub fn size<F: CallersFile>(store: &mut Store<F>, bytes: &mut u64) -> u32
    ensures { ThroughStore store.old store.new result (bytes.new ≡ bytes.old)
        (λ _ g old new status. TellsSize g old new status bytes.old bytes.new) }
{
    through!(store, cache => calls::size(cache, bytes))
}

/// Writes how many bytes of the log are taken by the messages that make the pages, at most `u64::MAX`.
pub fn live<F: CallersFile>(store: &mut Store<F>, bytes: &mut u64) -> u32
    ensures { ThroughStore store.old store.new result (bytes.new ≡ bytes.old)
        (λ _ g old new status. TellsLive g old new status bytes.new) }
{
    through!(store, cache => calls::live(cache, bytes))
}

/// Writes how many bytes the log has, and how many the pages would take, at most `u64::MAX`. It isn't available over a file.
pub fn amp<F: CallersFile>(store: &mut Store<F>, log: &mut u64, pages: &mut u64) -> u32
    ensures { InMemory store.old store.new result
        ((log.new ≡ log.old) × (pages.new ≡ pages.old))
        (λ old new status. TellsAmplification ⟦<MemLog as Log>⟧ old new status (log.old, pages.old) (
          log.new,
          pages.new,
        )) }
{
    in_memory!(store, cache => calls::amplification(cache, log, pages))
}

/// Moves the page that is due, and writes whether there was one. It isn't available over a file.
pub fn gc<F: CallersFile>(store: &mut Store<F>, moved: &mut bool) -> u32
    ensures { InMemory store.old store.new result (moved.new ≡ moved.old)
        (λ old new status. MovesDue ⟦<MemLog as Log>⟧ old new status moved.old moved.new) }
{
    in_memory!(store, cache => calls::attempt_gc(cache, moved))
}

/// Writes whether the log had the cache's own pages when it was opened.
pub fn was_recovered<F: CallersFile>(store: &mut Store<F>, recovered: &mut bool) -> u32
    ensures { ThroughStore store.old store.new result (recovered.new ≡ recovered.old)
        (λ _ g old new status. TellsRecovered g old new status recovered.new) }
{
    through!(store, cache => calls::was_recovered(cache, recovered))
}
