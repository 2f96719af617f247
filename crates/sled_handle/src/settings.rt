//! The settings with which a program opens a cache.

ghost use Rattle.std.specs.Prelude.{◌≡◌, [], true};
ghost use Rattle.sled_log.specs.MemLog.State.{state_of};
ghost use Rattle.sled_handle.specs.FileOpenings as file;
ghost use Rattle.sled_handle.specs.Openings.{config_of};

use sled_pagecache::{Config, MemLog};
use std::alloc::Global;

/// The settings of a cache over a log in memory.
#[repr(C)]
#[derive(Clone, Copy)]
pub struct Settings {
    /// The capacity of the cache: bytes of the messages whose pages stay in memory as nodes. At least 256.
    pub cache_capacity: u64,
    /// How many ids one counter covers. At least 1.
    pub idgen_persist_interval: u64,
    /// The size of a segment, in bytes. At least 1.
    pub segment_size: usize,
    /// Payloads of more than this many bytes are kept as blobs.
    pub blob_limit: usize,
    /// One page is due to be moved for each of this many messages, and none if this is 0.
    pub clean_every: u64,
}

impl Settings {
    /// Returns the settings of the cache.
    pub fn config(self) -> Config
        ensures { result ≡ config_of self }
    {
        Config {
            cache_capacity: self.cache_capacity,
            idgen_persist_interval: self.idgen_persist_interval,
            segment_size: self.segment_size,
        }
    }

    /// Returns an empty log in memory.
    pub fn log(self, alloc: Global) -> MemLog
        ensures { state_of result ≡ record { stable = []; pending = []; usable = true } }
    {
        MemLog::new(alloc, self.blob_limit, self.clean_every)
    }
}

/// The settings of a cache over a file.
#[repr(C)]
#[derive(Clone, Copy)]
pub struct FileSettings {
    /// The capacity of the cache: bytes of the messages whose pages stay in memory as nodes. At least 256.
    pub cache_capacity: u64,
    /// How many ids one counter covers. At least 1.
    pub idgen_persist_interval: u64,
    /// Once this many bytes are pending, they are written. At least 1.
    pub segment_size: usize,
}

impl FileSettings {
    /// Returns the settings of the cache.
    pub fn config(self) -> Config
        ensures { result ≡ file.config_of self }
    {
        Config {
            cache_capacity: self.cache_capacity,
            idgen_persist_interval: self.idgen_persist_interval,
            segment_size: self.segment_size,
        }
    }
}
