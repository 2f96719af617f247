use sled_pagecache::{Config, Disk, DiskLog, Error, FileDisk, PageCache};
use std::alloc::{Alloc, Global};
use std::fs::{File, Files};

// The cache over the log in a file, which is made where it is absent or empty.
pub fn open_file<H: Files<File = File> + Alloc>(
    files: &H,
    alloc: Global,
    path: &str,
) -> Result<PageCache<DiskLog<FileDisk>>, Error> {
    let config = Config {
        cache_capacity: 64 << 20,
        idgen_persist_interval: 1000,
        segment_size: 1 << 20,
    };
    let mut disk = FileDisk::open(files, path)?;
    if disk.len()? == 0 {
        DiskLog::create(&mut disk)?;
    }
    let segment_size = config.segment_size as u64;
    let log = DiskLog::open(alloc, disk, segment_size, 16).map_err(|(error, _)| error)?;
    PageCache::start(alloc, config, log).map_err(|(error, _)| error)
}

use sled_pagecache::{Node, PageId};

fn is_allocated(alloc: Global, cache: &mut PageCache<DiskLog<FileDisk>>) -> bool {
    cache.allocate(Node::default(alloc)).is_ok()
}

// Whether a flush writes so many bytes.
fn flushes(cache: &mut PageCache<DiskLog<FileDisk>>, bytes: usize) -> bool {
    match cache.flush() {
        Ok(written) => written == bytes,
        Err(_) => false,
    }
}

fn has_page(cache: &mut PageCache<DiskLog<FileDisk>>, pid: PageId) -> bool {
    match cache.get(pid) {
        Ok(found) => found.is_some(),
        Err(_) => false,
    }
}

// Whether an empty page is added to the cache over a file, and the flush behind it writes so many bytes.
fn is_added(files: &HostRuntime, path: &str, bytes: usize) -> bool {
    match open_file(files, files.alloc(), path) {
        Ok(mut cache) => is_allocated(files.alloc(), &mut cache) && flushes(&mut cache, bytes),
        Err(_) => false,
    }
}

// Whether the cache over a file has a page.
pub fn is_there(files: &HostRuntime, path: &str, pid: PageId) -> bool {
    match open_file(files, files.alloc(), path) {
        Ok(mut cache) => has_page(&mut cache, pid),
        Err(_) => false,
    }
}

#[test]
fn a_file_is_opened_again(rt: HostRuntime) {
    assert!(rt; is_added(&rt, "opened by an example", 35));
    assert!(rt; is_added(&rt, "opened by an example", 35));
    assert!(rt; is_there(&rt, "opened by an example", 3));
}
