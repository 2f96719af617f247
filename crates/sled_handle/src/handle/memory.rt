//! Opening a cache of a handle over a new log in memory, and closing a handle.

ghost use Rattle.std.specs.Prelude.{IfOk, IfErr};
ghost use Rattle.sled_handle.specs.Handles.{CloseHandle};
ghost use Rattle.sled_handle.specs.Openings.{IsNew, IsNewStore, OpenHandle, TellsWhy, config_of};

use super::Handle;
use crate::settings::Settings;
use crate::status::{ALREADY_OPEN, CLOSED, MEMORY, OK, status_of};
use crate::store::Store;
use sled_pagecache::{MemLog, PageCache};
use std::alloc::Global;

impl Handle {
    /// Opens a cache over a new log in memory in a closed handle. If that fails, the handle stays closed. Returns `ALREADY_OPEN` if the handle is
    /// open, which changes nothing.
    pub fn open_memory(&mut self, alloc: Global, settings: Settings) -> u32
        ensures { OpenHandle settings self.old.store self.new.store result }
    {
        if let Some(store) = self.take(alloc) {
            self.put(alloc, store);
            return ALREADY_OPEN;
        }
        match new_store(alloc, settings) {
            Ok(store) => {
                self.put(alloc, store);
                OK
            }
            Err(status) => status,
        }
    }

    /// Closes the handle, and drops its cache, or the file that is being opened. Nothing is flushed, so an open batch is lost. Returns `CLOSED` if it
    /// was closed.
    pub fn close(&mut self, alloc: Global) -> u32
        ensures { CloseHandle self.old.store self.new.store result }
    {
        let Some(store) = self.take(alloc) else {
            return CLOSED;
        };
        drop(store);
        OK
    }
}

// A store over a new log in memory.
fn new_store(alloc: Global, settings: Settings) -> Result<Box<Store>, u32>
    ensures new { IfOk result (λ store. IsNewStore settings store.value) }
    ensures told { IfErr result (TellsWhy settings) }
{
    let cache = new_cache(alloc, settings)?;
    Box::new(alloc, Store::Memory(cache)).map_err(|_| MEMORY)
}

// A cache over a new log in memory.
fn new_cache(alloc: Global, settings: Settings) -> Result<PageCache<MemLog>, u32>
    ensures new { IfOk result (IsNew (config_of settings)) }
    ensures told { IfErr result (TellsWhy settings) }
{
    match PageCache::start(alloc, settings.config(), settings.log(alloc)) {
        Ok(cache) => Ok(cache),
        Err((error, _)) => Err(status_of(&error)),
    }
}
