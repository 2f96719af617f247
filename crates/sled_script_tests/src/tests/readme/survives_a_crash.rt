use sled_pagecache::{Config, Error, IVec, Log, MemLog, Node, PageCache, PageId};
use std::alloc::Global;

// Whether a pair that was flushed is there after a crash that loses all else.
fn survives_a_crash(alloc: Global, config: Config) -> Result<bool, Error> {
    let log = MemLog::new(alloc, 512, 16);
    let mut cache = PageCache::start(alloc, config, log).map_err(|(error, _)| error)?;
    let pid = flush_pair(alloc, &mut cache)?;
    if cache.batch_open() {
        return Ok(false);
    }

    let log = cache.into_log().stop(0); // a crash: nothing of what is pending is kept
    let mut cache = PageCache::start(alloc, config, log).map_err(|(error, _)| error)?;
    Ok(cache.get(pid)?.is_some_and(|view| view.node().len() == 1))
}

// Puts a pair on a new page, and makes it durable.
fn flush_pair<L: Log>(alloc: Global, cache: &mut PageCache<L>) -> Result<PageId, Error> {
    let mut node = Node::default(alloc);
    node.set_leaf(IVec::from_str(alloc, "k")?, IVec::from_str(alloc, "v")?)?;
    let (pid, _token) = cache.allocate(node)?;
    cache.flush()?;
    Ok(pid)
}

const CONFIG: Config = Config {
    cache_capacity: 1_048_576,
    idgen_persist_interval: 10,
    segment_size: 4096,
};

#[test]
fn a_flushed_pair_survives_a_crash(rt: HostRuntime) {
    assert!(rt; survives_a_crash(rt.alloc(), CONFIG) == Ok(true));
}
