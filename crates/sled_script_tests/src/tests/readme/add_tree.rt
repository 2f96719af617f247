ghost use Rattle.std.specs.Prelude.{◌≡◌};

use sled_pagecache::{Error, Log, Node, PageCache, PageId};
use std::alloc::Global;

// Adds a leaf and an index over it: after a crash both are there, or neither.
fn add_tree<L: Log>(alloc: Global, cache: &mut PageCache<L>) -> Result<PageId, Error> {
    let mut guard = cache.pin_log()?;
    let added = add_both(alloc, guard.cache());
    guard.settle(added)
}

// The changes of the batch, which is still open behind them, whatever they answer.
fn add_both<L: Log>(alloc: Global, cache: &mut PageCache<L>) -> Result<PageId, Error>
    ensures { cache.new.batch ≡ cache.old.batch }
{
    let (leaf, _) = cache.allocate(Node::default(alloc))?;
    let (root, _) = cache.allocate(Node::new_root(alloc, leaf)?)?;
    Ok(root)
}

use sled_pagecache::{Config, MemLog};

const CONFIG: Config = Config {
    cache_capacity: 1_048_576,
    idgen_persist_interval: 10,
    segment_size: 4096,
};

// The log of a cache that the two pages were added to, and their root.
fn added(alloc: Global) -> Result<Option<(MemLog, PageId)>, Error> {
    let log = MemLog::new(alloc, 512, 16);
    let mut cache = PageCache::start(alloc, CONFIG, log).map_err(|(error, _)| error)?;
    let root = add_tree(alloc, &mut cache)?;
    if cache.batch_open() {
        return Ok(None);
    }
    Ok(Some((cache.into_log(), root)))
}

fn has_page<L: Log>(cache: &mut PageCache<L>, pid: PageId) -> bool {
    match cache.get(pid) {
        Ok(found) => found.is_some(),
        Err(_) => false,
    }
}

// Whether a crash may leave so many events of the log, and a cache over them has so many of the two pages.
fn has_pages(alloc: Global, log: MemLog, events: usize, root: PageId, pages: usize) -> bool {
    if !log.is_fair(events) {
        return false;
    }
    match PageCache::start(alloc, CONFIG, log.stop(events)) {
        Ok(mut cache) => {
            let has = [has_page(&mut cache, 2), has_page(&mut cache, root)];
            has.iter().filter(|is| **is).count() == pages
        }
        Err(_) => false,
    }
}

// Whether so many of the two pages are there behind a crash that leaves so many of the four events: the marks and the pages between
// them. There is none where a crash can't leave these.
fn leaves(alloc: Global, events: usize, pages: Option<usize>) -> bool {
    let Ok(Some((log, root))) = added(alloc) else {
        return false;
    };
    match pages {
        Some(pages) => has_pages(alloc, log, events, root, pages),
        None => !log.is_fair(events),
    }
}

#[test]
fn a_tree_is_added_whole_or_not_at_all(rt: HostRuntime) {
    for (events, pages) in [(0, Some(0)), (1, None), (2, None), (3, None), (4, Some(2))] {
        assert!(rt; leaves(rt.alloc(), events, pages), "{events} events");
    }
}
