use sled_pagecache::{Config, Device, DiskLog, Error, FileDisk, PageCache};
use std::alloc::{Alloc, Global};
use std::fs::{File, Files, OpenFile};

// Writes the pages of a cache to a new file of the folder, puts that in the place of the cache's own, and answers a cache over it. At an
// error the cache is let go, and what stands at the path is the old file or the new one, with the same pages: it is opened again.
fn compact_file<H: Files<File = File> + Alloc>(
    files: &H,
    alloc: Global,
    config: Config,
    mut cache: PageCache<DiskLog<FileDisk>>,
    folder: &str,
    path: &str,
    new_path: &str,
) -> Result<PageCache<DiskLog<FileDisk>>, Error> {
    cache.flush()?;
    let disk = new_file(files, new_path)?;
    let segment_size = config.segment_size as u64;
    let log = DiskLog::open(alloc, disk, segment_size, 16).map_err(|(error, _)| error)?;
    let log = cache.rewrite_into(log).map_err(|(error, _)| error)?;
    // The new file has all pages, and is durable.
    put_in_place(files, folder, path, new_path)?;
    PageCache::start(alloc, config, log).map_err(|(error, _)| error)
}

// A new file with a log of no messages.
fn new_file<H: Files<File = File> + Alloc>(files: &H, new_path: &str) -> Result<FileDisk, Error> {
    // what an attempt left that came to no end
    let _ = files.remove_file(new_path);
    let mut disk = FileDisk::open(files, new_path)?;
    DiskLog::create(&mut disk)?;
    Ok(disk)
}

// Puts the new file in the place of the old one, for good once the folder is synced.
fn put_in_place<H: Files<File = File>>(
    files: &H,
    folder: &str,
    path: &str,
    new_path: &str,
) -> Result<(), Error> {
    let renamed = files.rename(new_path, path);
    let synced = File::open(files, folder).and_then(|folder| folder.sync_all());
    if renamed.is_err() || synced.is_err() {
        return Err(Error::Io(Device::Write));
    }
    Ok(())
}

use super::open_file::{is_there, open_file};
use sled_pagecache::{Node, PageView};

const CONFIG: Config = Config {
    cache_capacity: 64 << 20,
    idgen_persist_interval: 1000,
    segment_size: 1 << 20,
};

const PATH: &str = "rewritten by an example";

const NEW_PATH: &str = "rewritten by an example, anew";

type FileCache = PageCache<DiskLog<FileDisk>>;

// Replaces the page of a token once, if it is the present one.
fn replaced(alloc: Global, cache: &mut FileCache, token: PageView) -> Option<PageView> {
    match cache.replace(token.pid(), token, Node::default(alloc)) {
        Ok(Ok(next)) => Some(next),
        _ => None,
    }
}

fn allocated(alloc: Global, cache: &mut FileCache) -> Option<PageView> {
    match cache.allocate(Node::default(alloc)) {
        Ok((_, token)) => Some(token),
        Err(_) => None,
    }
}

// Whether a page is there that was replaced a hundred times.
fn fills(alloc: Global, cache: &mut FileCache) -> bool {
    let mut token = allocated(alloc, cache);
    for _ in 0..100 {
        token = match token {
            Some(token) => replaced(alloc, cache, token),
            None => return false,
        };
    }
    token.is_some()
}

fn is_flushed(cache: &mut FileCache) -> bool {
    cache.flush().is_ok()
}

// How many bytes the file has.
fn size(cache: &mut FileCache) -> Option<u64> {
    match cache.size_on_disk() {
        Ok(bytes) => Some(bytes),
        Err(_) => None,
    }
}

// Whether the file of a cache has so many bytes once it is rewritten.
fn shrinks_to(files: &HostRuntime, cache: FileCache, bytes: u64) -> bool {
    match compact_file(files, files.alloc(), CONFIG, cache, ".", PATH, NEW_PATH) {
        Ok(mut cache) => size(&mut cache) == Some(bytes),
        Err(_) => false,
    }
}

// Whether the file of a page has more than so many bytes that was replaced a hundred times, and so many once it is rewritten.
fn shrinks(files: &HostRuntime, above: u64, bytes: u64) -> bool {
    // what an earlier run left
    let _ = files.remove_file(PATH);
    match open_file(files, files.alloc(), PATH) {
        Ok(mut cache) => {
            fills(files.alloc(), &mut cache)
                && is_flushed(&mut cache)
                && size(&mut cache).is_some_and(|size| size > above)
                && shrinks_to(files, cache, bytes)
        }
        Err(_) => false,
    }
}

#[test]
fn a_file_is_rewritten(rt: HostRuntime) {
    assert!(rt; shrinks(&rt, 2_500, 78));
    // the page is there when the file is opened again, and the other name is free
    assert!(rt; is_there(&rt, PATH, 2) && rt.metadata(NEW_PATH).is_err());
}
