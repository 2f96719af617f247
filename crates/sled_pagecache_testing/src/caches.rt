//! Caches over new logs in memory, and the logs that caches leave.

use sled_base::{Error, PageId, Why};
use sled_log::{Log, MemLog};
use sled_pagecache::{Config, PageCache};
use std::alloc::Global;

/// A cache over the log in memory.
pub type Cache = PageCache<MemLog>;

/// The settings of most caches.
pub const CONFIG: Config = Config {
    cache_capacity: 1_048_576,
    idgen_persist_interval: 10,
    segment_size: 4096,
};

/// A page id that the cache reserves: it marks the beginning of a batch in a log.
pub const MANIFEST: PageId = u64::MAX - 666;

/// Opens a cache over a log, unless a batch is open in it. An error returns the log.
pub fn opening(alloc: Global, config: Config, log: MemLog) -> Result<Cache, (Error, MemLog)> {
    if log.batch_open() {
        return Err((Error::Unsupported(Why::BatchOpen), log));
    }
    PageCache::start(alloc, config, log)
}

/// Opens a cache over a new log, in which payloads above `blob_limit` bytes are blobs. It returns None if that fails.
pub fn started(alloc: Global, blob_limit: usize) -> Option<Cache> {
    opening(alloc, CONFIG, MemLog::new(alloc, blob_limit, 16)).ok()
}

/// Returns the log of a cache, or None if a batch is open.
pub fn log_of<L: Log>(cache: PageCache<L>) -> Option<L> {
    if cache.batch_open() {
        return None;
    }
    Some(cache.into_log())
}

/// Returns the log of a cache if `is_so` is true and no batch is open, and otherwise None.
pub fn log_if<L: Log>(cache: PageCache<L>, is_so: bool) -> Option<L> {
    if is_so {
        return log_of(cache);
    }
    None
}
