//! The status that a call over a file returns.

ghost use Rattle.std.specs.Prelude.{◌≡◌};
ghost use Rattle.sled_disk.specs.Staged.{failed};
ghost use Rattle.sled_handle.specs.Handles.{IsTold};

use crate::opening::{FileCache, FileLog};
use crate::status::{NEEDS, READ};
use sled_disk::CallersFile;
use sled_pagecache::Log;

/// Returns whether a write or a sync failed: then no call is made.
pub fn has_failed<F: CallersFile>(cache: &FileCache<F>) -> bool
    ensures { result ≡ failed cache.now.log.disk }
{
    cache.log().disk().has_failed()
}

/// Returns the status of a call over a file, given the call's own status. That is `NEEDS`, with everything unchanged, if the call's own is `READ` and
/// bytes of the file are needed. Otherwise it is the call's own, and the bytes that were handed in are dropped.
pub fn told<F: CallersFile>(cache: &mut FileCache<F>, status: u32) -> u32
    ensures { IsTold ⟦<FileLog<F> as Log>⟧ cache.old cache.new status result }
{
    if status == READ && cache.log().disk().needs().is_some() {
        return NEEDS;
    }
    cache.forget();
    status
}
