//! Opening and closing a batch.

ghost use Rattle.sled_handle.specs.Handles.{Through};
ghost use Rattle.std.specs.Prelude.{⊤};
ghost use Rattle.sled_pagecache.specs.Batches.{SealsBatch, CancelsBatch};
ghost use Rattle.sled_handle.specs.Steps.{Opens, Closes};

use sled_handle::Handle;
use sled_handle::status::CLOSED;
use sled_handle::through::batches as through;
use std::alloc::Global;

/// Opens a batch: once it is sealed, a crash leaves all of it or nothing.
#[unsafe(no_mangle)]
pub extern "C" fn dilluvas_raw_pin(alloc: Global, handle: &mut Handle) -> u32
    ensures { Through handle.old.store handle.new.store result ⊤
        (λ _ g old new status. Opens g old new status) }
{
    behind!(alloc, handle, store => through::pin(store))
}

/// Closes the open batch: a crash leaves all of it or nothing.
#[unsafe(no_mangle)]
pub extern "C" fn dilluvas_raw_seal(alloc: Global, handle: &mut Handle) -> u32
    ensures { Through handle.old.store handle.new.store result ⊤
        (λ _ g old new status. Closes g old new (SealsBatch g) status) }
{
    behind!(alloc, handle, store => through::seal(store))
}

/// Closes the open batch, of which a crash may leave a part. Nothing is undone.
#[unsafe(no_mangle)]
pub extern "C" fn dilluvas_raw_cancel(alloc: Global, handle: &mut Handle) -> u32
    ensures { Through handle.old.store handle.new.store result ⊤
        (λ _ g old new status. Closes g old new (CancelsBatch g) status) }
{
    behind!(alloc, handle, store => through::cancel(store))
}
