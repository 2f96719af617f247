//! Generated ids, and calls on the whole log.

ghost use Rattle.std.specs.Prelude.{◌≡◌};
ghost use Rattle.sled_handle.specs.Handles.{Through, ThroughMemory};
ghost use Rattle.sled_handle.specs.Steps.{GivesId, MakesStable, MovesDue, TellsAmplification, TellsLive, TellsRecovered, TellsSize};

use sled_handle::Handle;
use sled_handle::status::CLOSED;
use sled_handle::through::log as through;
use sled_pagecache::{Log, MemLog};
use std::alloc::Global;

/// Writes an id that was never returned before.
#[unsafe(no_mangle)]
pub extern "C" fn dilluvas_raw_generate_id(alloc: Global, handle: &mut Handle, id: &mut u64) -> u32
    ensures { Through handle.old.store handle.new.store result (id.new ≡ id.old)
        (λ _ g old new status. GivesId g old new status id.old id.new) }
{
    behind!(alloc, handle, store => through::generate_id(store, id))
}

/// Makes everything pending durable, and writes how many bytes that wrote.
#[unsafe(no_mangle)]
pub extern "C" fn dilluvas_raw_flush(alloc: Global, handle: &mut Handle, written: &mut usize) -> u32
    ensures { Through handle.old.store handle.new.store result (written.new ≡ written.old)
        (λ _ g old new status. MakesStable g old new status written.old written.new) }
{
    behind!(alloc, handle, store => through::flush(store, written))
}

/// Writes how many bytes the log has.
#[unsafe(no_mangle)]
pub extern "C" fn dilluvas_raw_size(alloc: Global, handle: &mut Handle, bytes: &mut u64) -> u32
    ensures { Through handle.old.store handle.new.store result (bytes.new ≡ bytes.old)
        (λ _ g old new status. TellsSize g old new status bytes.old bytes.new) }
{
    behind!(alloc, handle, store => through::size(store, bytes))
}

/// Writes how many bytes of the log are taken by the messages that make the pages, at most `u64::MAX`.
#[unsafe(no_mangle)]
pub extern "C" fn dilluvas_raw_live(alloc: Global, handle: &mut Handle, bytes: &mut u64) -> u32
    ensures { Through handle.old.store handle.new.store result (bytes.new ≡ bytes.old)
        (λ _ g old new status. TellsLive g old new status bytes.new) }
{
    behind!(alloc, handle, store => through::live(store, bytes))
}

/// Writes how many bytes the log has, and how many the pages would take, at most `u64::MAX`.
#[unsafe(no_mangle)]
pub extern "C" fn dilluvas_raw_amp(
    alloc: Global,
    handle: &mut Handle,
    log: &mut u64,
    pages: &mut u64,
) -> u32
    ensures { ThroughMemory handle.old.store handle.new.store result
        ((log.new ≡ log.old) × (pages.new ≡ pages.old))
        (λ old new status. TellsAmplification ⟦<MemLog as Log>⟧ old new status (log.old, pages.old) (
          log.new,
          pages.new,
        )) }
{
    behind!(alloc, handle, store => through::amp(store, log, pages))
}

/// Moves the page that is due, and writes whether there was one.
#[unsafe(no_mangle)]
pub extern "C" fn dilluvas_raw_gc(alloc: Global, handle: &mut Handle, moved: &mut bool) -> u32
    ensures { ThroughMemory handle.old.store handle.new.store result (moved.new ≡ moved.old)
        (λ old new status. MovesDue ⟦<MemLog as Log>⟧ old new status moved.old moved.new) }
{
    behind!(alloc, handle, store => through::gc(store, moved))
}

/// Writes whether the log had the cache's own pages when it was opened.
#[unsafe(no_mangle)]
pub extern "C" fn dilluvas_raw_was_recovered(
    alloc: Global,
    handle: &mut Handle,
    recovered: &mut bool,
) -> u32
    ensures { Through handle.old.store handle.new.store result (recovered.new ≡ recovered.old)
        (λ _ g old new status. TellsRecovered g old new status recovered.new) }
{
    behind!(alloc, handle, store => through::was_recovered(store, recovered))
}
