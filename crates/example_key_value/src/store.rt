//! The store: a cache over a file, with all pairs on one page. Pairs are set in batches.

ghost use Rattle.std.specs.Prelude.{◌≡◌};

use sled_pagecache::{
    Config, Disk, DiskLog, Error, FileDisk, IVec, Link, Node, PageCache, PageId, PageView,
};
use std::alloc::{Alloc, Global};
use std::fs::{File, Files};
use std::io;

/// Why the program fails. `?` makes one from an error of the cache or of a print, and `settle` makes one from a seal that failed.
#[derive(Debug, Drop, thiserror::Error)]
pub enum Failure {
    #[error("{0}")]
    Cache(#[from] Error),
    #[error("{0}")]
    Print(#[from] io::Error),
    /// A rule of the store's own: pairs are set at the version of the page that the caller saw last.
    #[error("the pairs changed after this version was read")]
    Changed,
}

pub type Store = PageCache<DiskLog<FileDisk>>;

const CONFIG: Config = Config {
    cache_capacity: 1 << 20,
    idgen_persist_interval: 100,
    segment_size: 1 << 16,
};

/// The page of the pairs. The cache uses pages 0 and 1 itself, so this is the first page that is allocated.
pub const PAIRS: PageId = 2;

/// Opens the file, and creates it if it is absent or empty. It is closed when the store goes out of scope.
pub fn open<H: Files<File = File> + Alloc>(
    files: &H,
    alloc: Global,
    path: &str,
) -> Result<Store, Error> {
    let mut disk = FileDisk::open(files, path)?;
    if disk.len()? == 0 {
        DiskLog::create(&mut disk)?;
    }
    let segment_size = CONFIG.segment_size as u64;
    let log = DiskLog::open(alloc, disk, segment_size, 0).map_err(|(error, _)| error)?;
    PageCache::start(alloc, CONFIG, log).map_err(|(error, _)| error)
}

/// Returns the token of the page of the pairs, which names its version. In a new file it allocates the page first.
pub fn version(alloc: Global, store: &mut Store) -> Result<PageView, Error> {
    if let Some(view) = store.get(PAIRS)? {
        return Ok(view.token());
    }
    let (_, token) = store.allocate(Node::default(alloc))?;
    Ok(token)
}

/// Sets all of these pairs in one batch, if the page still has this version. After a crash all of them are there, or none.
///
/// An error between two of them, for example a failed allocation, cancels the batch, which undoes nothing: the pairs before it stay set.
pub fn set_all(
    alloc: Global,
    store: &mut Store,
    version: PageView,
    pairs: &[(&str, &str)],
) -> Result<PageView, Failure> {
    let mut guard = store.pin_log()?;
    let done = set_each(alloc, guard.cache(), version, pairs);
    guard.settle(done)
}

// The changes of the batch. `settle` has a condition, that the batch is still open: so this promises to leave it as it was, and the
// invariant of its loop says the same (proofs/store/set_each/Invariants.antt).
fn set_each(
    alloc: Global,
    store: &mut Store,
    mut version: PageView,
    pairs: &[(&str, &str)],
) -> Result<PageView, Failure>
    ensures { store.new.batch ≡ store.old.batch }
{
    for (key, value) in pairs {
        // `link` has a condition too, that the id is the token's: so it is given as `version.pid()`
        version = match store.link(version.pid(), version, set(alloc, key, value)?)? {
            Ok(next) => next,
            Err(_) => return Err(Failure::Changed),
        };
    }
    Ok(version)
}

fn set(alloc: Global, key: &str, value: &str) -> Result<Link, Error> {
    let key = IVec::from_str(alloc, key)?;
    let value = IVec::from_str(alloc, value)?;
    Ok(Link::Set(key, value))
}
