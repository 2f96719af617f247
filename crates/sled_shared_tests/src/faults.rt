//! A shared cache whose device fails, and a share that is missing as it is closed.

ghost use Rattle.std.specs.Prelude.{◌≡◌, ◌<◌, false, IfOk};

use sled_pagecache::{Config, Disk, DiskLog, Error, MemDisk, Node, PageCache, PageView};
use sled_shared::{Blank, Book, Held, Share, Swap, Tally};
use std::alloc::{AllocError, Global};
use std::fmt::Debug;

type Disked = DiskLog<MemDisk>;

/// The write or sync of the disk that fails: the first one of a flush. One sync opens the log, and two writes and two syncs make the
/// system pages.
const FAILS: u64 = 6;

pub const CONFIG: Config = Config {
    cache_capacity: 1_048_576,
    idgen_persist_interval: 10,
    segment_size: 4096,
};

// A new cache on a disk that fails later.
fn failing_cache(alloc: Global) -> Result<PageCache<Disked>, Error>
    ensures { IfOk result (λ cache. cache.batch ≡ false) }
{
    let mut disk = MemDisk::new(alloc, 65_536)?;
    DiskLog::create(&mut disk)?;
    disk.fail_write(FAILS);
    let log = match DiskLog::open(alloc, disk, 4096, 16) {
        Ok(log) => log,
        Err((error, _)) => return Err(Error::from(error)),
    };
    match PageCache::start(alloc, CONFIG, log) {
        Ok(cache) => Ok(cache),
        Err((error, _)) => Err(error),
    }
}

/// What calls answer at a book of three whose second call meets a write error, and what the books are: texts, in their order.
pub fn kept_error<K: Tally>(alloc: Global, blank: Blank, parts: u64) -> Option<Vec<String>>
    requires name { (blank.name ≡ K.name) × (blank.history ≡ K.history) }
    requires parts { (blank.parts ≡ parts) × (K.parts ≡ parts) × (0 < parts) }
    requires known { ¬ K.known }
{
    let cache = failing_cache(alloc).ok()?;
    let mut held = Held::<Disked, K>::over(alloc, cache, 3, parts, blank).ok()?;
    let mut share = held.share()?;
    let mut texts = Vec::new(alloc);
    let all = ask(alloc, &mut held, &mut share, &mut texts)
        && add(alloc, &mut texts, &share.count())
        && close(alloc, held, share, &mut texts);
    all.then_some(texts)
}

/// The same of a cache that met the write error before it was shared: what a page and a batch of one swap answer, and what the books are.
pub fn kept_before<K: Tally>(alloc: Global, blank: Blank, parts: u64) -> Option<Vec<String>>
    requires name { (blank.name ≡ K.name) × (blank.history ≡ K.history) }
    requires parts { (blank.parts ≡ parts) × (K.parts ≡ parts) × (0 < parts) }
    requires known { ¬ K.known }
{
    let mut cache = failing_cache(alloc).ok()?;
    let mut texts = Vec::new(alloc);
    let is_met = add(alloc, &mut texts, &cache.allocate(Node::default(alloc)))
        && add(alloc, &mut texts, &cache.flush());
    if cache.batch_open() {
        return None;
    }
    let mut held = Held::<Disked, K>::over(alloc, cache, 3, parts, blank).ok()?;
    let mut share = held.share()?;
    let all = is_met
        && ask_behind(alloc, &mut held, &mut share, &mut texts)
        && close(alloc, held, share, &mut texts);
    all.then_some(texts)
}

// Asks for a page and for a batch of one swap, and takes the book. Whether there was memory for the texts.
fn ask_behind<K: Tally>(
    alloc: Global,
    held: &mut Held<Disked, K>,
    share: &mut Share<K>,
    texts: &mut Vec<String>,
) -> bool {
    let mut swaps = Vec::new(alloc);
    if swaps.push(Swap::Free(PageView::new(2, 1))).is_err() {
        return false;
    }
    let mut all = add(alloc, texts, &held.allocate(Node::default(alloc), share));
    all &= add(alloc, texts, &held.batch(swaps, share));
    all &= add_book(alloc, texts, &held.take_book());
    all
}

// Fills a book, takes it, makes one call more, and takes that book. Whether there was memory for the texts.
fn ask<K: Tally>(
    alloc: Global,
    held: &mut Held<Disked, K>,
    share: &mut Share<K>,
    texts: &mut Vec<String>,
) -> bool {
    let mut all = add(alloc, texts, &held.allocate(Node::default(alloc), share));
    all &= add(alloc, texts, &held.flush(share));
    all &= add(alloc, texts, &held.batch(Vec::new(alloc), share));
    all &= add(alloc, texts, &held.get(2, share));
    all &= add_book(alloc, texts, &held.take_book());
    all &= add(alloc, texts, &held.generate_id(share));
    all &= add_book(alloc, texts, &held.take_book());
    all
}

pub fn add<T: Debug>(alloc: Global, texts: &mut Vec<String>, answer: &T) -> bool {
    put(texts, format!(in alloc; "{answer:?}"))
}

fn put(texts: &mut Vec<String>, text: Result<String, AllocError>) -> bool {
    match text {
        Ok(text) => texts.push(text).is_ok(),
        Err(_) => false,
    }
}

// A book: how many calls came before it, the stamps and kinds of its opening, whether an error was kept then, and how many entries it has.
fn add_book(alloc: Global, texts: &mut Vec<String>, taken: &Result<Book, Error>) -> bool {
    let Ok(book) = taken else {
        return false;
    };
    let (opening, entries) = (book.opening(), book.entries().len());
    put(
        texts,
        format!(in alloc;
            "{} {:?} {} {entries}",
            book.earlier(),
            opening.pages,
            opening.fault
        ),
    )
}

// Without its share the cache isn't closed, and with it it is: the total of the calls, and the last book.
fn close<K: Tally>(
    alloc: Global,
    held: Held<Disked, K>,
    share: Share<K>,
    texts: &mut Vec<String>,
) -> bool {
    let Err((held, mut shares)) = held.close(Vec::new(alloc)) else {
        return false;
    };
    if shares.push(share).is_err() {
        return false;
    }
    match held.close(shares) {
        Ok((_, book, total)) => add(alloc, texts, &total) && add_book(alloc, texts, &Ok(book)),
        Err(_) => false,
    }
}
