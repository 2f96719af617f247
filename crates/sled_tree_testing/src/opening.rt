//! The settings of a cache, the maps that are opened over a log in memory, and the log of maps.

use sled_tree::{Config, Limits, Log, MemLog, PageCache, Trees};
use std::alloc::Global;

/// A cache of much capacity, all of whose pages are in memory.
pub const CONFIG: Config = Config {
    cache_capacity: 1 << 20,
    idgen_persist_interval: 100,
    segment_size: 1 << 16,
};

/// A cache of little capacity, most of whose pages are out of memory.
pub const SMALL: Config = Config {
    cache_capacity: 256,
    ..CONFIG
};

/// The maps of a cache that is opened over the log.
pub fn opened(alloc: Global, config: Config, log: MemLog, limits: Limits) -> Option<Trees<MemLog>> {
    if log.batch_open() {
        return None;
    }
    match PageCache::start(alloc, config, log) {
        Ok(cache) => Some(Trees::with_limits(alloc, cache, limits)),
        Err(_) => None,
    }
}

/// The log of the maps. Nothing is flushed.
pub fn log_of<L: Log>(trees: Trees<L>) -> Option<L> {
    let cache = trees.into_cache();
    if cache.batch_open() {
        return None;
    }
    Some(cache.into_log())
}
