//! Opening a cache over a file, or its log alone.

ghost use Rattle.std.specs.Prelude.{◌≡◌, ℕ, List, None, length, IfOk, IfErr, OnOk};
ghost use Rattle.sled_disk.specs.CallersFile.{held_after};
ghost use Rattle.sled_pagecache.specs.Opening.{fault_of};
ghost use Rattle.sled_pagecache.specs.declared.pagecache.handles.config.Config.{Config};
ghost use Rattle.sled_handle.specs.FileOpenings.{GoesOnIn, IsBegun, IsBeingOpened, IsFailure, IsStoreOver, ReadsOnIn, TellsFault, config_of, with_log};

use crate::opening::Opening;
use crate::settings::FileSettings;
use crate::status::{ALREADY_OPEN, MEMORY, NEEDS, OK};
use crate::store::Store;
use sled_disk::CallersFile;
use std::alloc::Global;

/// Begins to open a file of `len` bytes, of which nothing is read yet. The error is a status: that of an invalid setting, which is checked before
/// anything is done, or of a failed allocation.
pub fn begin<F: CallersFile>(
    alloc: Global,
    settings: FileSettings,
    file: F,
    len: u64,
) -> Result<Box<Store<F>>, u32>
    requires len { F.tells → len ≡ length (held_after (F.first file) (F.done file)) }
    ensures begun { IfOk result (λ store. IsBegun (config_of settings) store.value) }
    ensures faultless { IfOk result (λ store. fault_of (config_of settings) ≡ None) }
    ensures settings { IfErr result (TellsFault (config_of settings)) }
    ensures fails { IfErr result IsFailure }
    ensures over { F.tells → IfOk result (λ store. IsStoreOver (config_of settings)
        (with_log (held_after (F.first file) (F.done file))) store.value) }
{
    let opening = Opening::new(alloc, settings.config(), file, len)?;
    Box::new(alloc, Store::Begun(opening)).map_err(|_| MEMORY)
}

/// Continues an opening until its cache is open. Returns `OK` then, `NEEDS` if bytes of the file are needed first, and `ALREADY_OPEN` if the store
/// has a cache, which stays. The error is the status of a failure: then the caller must close the handle.
pub fn go_on<F: CallersFile>(alloc: Global, store: &mut Store<F>) -> Result<u32, u32>
    ensures goes_on { IfOk result (GoesOnIn store.old store.new) }
    ensures over { F.tells → (config : Config) (bytes : List ℕ) → IsStoreOver config bytes store.old
        → OnOk result (IsStoreOver config bytes store.new) }
    ensures fails { IfErr result IsFailure }
    ensures begun { IfErr result (λ status. IsBeingOpened store.old) }
{
    let Store::Begun(opening) = store else {
        return Ok(ALREADY_OPEN);
    };
    match opening.go_on(alloc)? {
        Some(cache) => {
            *store = Store::File(cache);
            Ok(OK)
        }
        None => Ok(NEEDS),
    }
}

/// Does the same until the log is read, and opens no cache over it.
pub fn read_on<F: CallersFile>(alloc: Global, store: &mut Store<F>) -> Result<u32, u32>
    ensures reads_on { IfOk result (ReadsOnIn store.old store.new) }
    ensures over { F.tells → (config : Config) (bytes : List ℕ) → IsStoreOver config bytes store.old
        → OnOk result (IsStoreOver config bytes store.new) }
    ensures fails { IfErr result IsFailure }
    ensures begun { IfErr result (λ status. IsBeingOpened store.old) }
{
    let Store::Begun(opening) = store else {
        return Ok(ALREADY_OPEN);
    };
    if opening.read_log(alloc)? {
        Ok(OK)
    } else {
        Ok(NEEDS)
    }
}
