//! Opening and closing a batch.

ghost use Rattle.sled_handle.specs.Handles.{ThroughStore};
ghost use Rattle.std.specs.Prelude.{⊤};
ghost use Rattle.sled_pagecache.specs.Batches.{SealsBatch, CancelsBatch};
ghost use Rattle.sled_handle.specs.Steps.{Opens, Closes};

use crate::calls::batches as calls;
use crate::file::{has_failed, told};
use crate::status::{CLOSED, WRITE};
use crate::store::Store;
use sled_disk::CallersFile;

/// Opens a batch: once it is sealed, a crash leaves all of it or nothing. Returns `BATCH_OPEN` if one is open.
pub fn pin<F: CallersFile>(store: &mut Store<F>) -> u32
    ensures { ThroughStore store.old store.new result ⊤
        (λ _ g old new status. Opens g old new status) }
{
    through!(store, cache => calls::pin(cache))
}

/// Closes the open batch: a crash leaves all of it or nothing. Returns `NO_BATCH` if none is open.
pub fn seal<F: CallersFile>(store: &mut Store<F>) -> u32
    ensures { ThroughStore store.old store.new result ⊤
        (λ _ g old new status. Closes g old new (SealsBatch g) status) }
{
    through!(store, cache => calls::seal(cache))
}

/// Closes the open batch, of which a crash may leave a part. Nothing is undone. Returns `NO_BATCH` if none is open.
pub fn cancel<F: CallersFile>(store: &mut Store<F>) -> u32
    ensures { ThroughStore store.old store.new result ⊤
        (λ _ g old new status. Closes g old new (CancelsBatch g) status) }
{
    through!(store, cache => calls::cancel(cache))
}
