//! Caches that crews and other threads share.

ghost use Rattle.std.specs.Prelude.{◌≡◌, ◌<◌, false, IfOk};
ghost use Rattle.sled_pagecache.specs.Trees.{IsKnown};

use crate::asking::ask;
use crate::entered::texts_of;
use sled_pagecache::{Config, Error, Log, MemLog, PageCache};
use sled_shared::{Blank, Book, Entry, Gate, Share, SharedPageCache, Tally, run_crew};
use std::alloc::{AllocError, Global};
use std::sync::atomic::{AtomicBool, Ordering};
use std::sync::{Arc, Wait};
use std::thread;
use std::thread::{JoinHandle, Threads};

// Workers 0 and 1 each set a flag before their first call, and wait for the other's.
#[derive(Drop)]
struct Meeting {
    zero: AtomicBool,
    one: AtomicBool,
    missed: AtomicBool,
}

const TURNS: u32 = 10_000_000;

impl Meeting {
    fn wait_for(&self, other: &AtomicBool) {
        for _ in 0..TURNS {
            if other.load(Ordering::SeqCst) {
                return;
            }
            thread::yield_now();
        }
        self.missed.store(true, Ordering::SeqCst);
    }
}

impl Gate for Meeting {
    fn before(&self, worker: usize, call: u64) {
        if call == 0 && worker == 0 {
            self.zero.store(true, Ordering::SeqCst);
            self.wait_for(&self.one);
        }
        if call == 0 && worker == 1 {
            self.one.store(true, Ordering::SeqCst);
            self.wait_for(&self.zero);
        }
    }

    fn after(&self, _worker: usize, _call: u64) {}
}

const CONFIG: Config = Config {
    cache_capacity: 1_048_576,
    idgen_persist_interval: 10,
    segment_size: 4096,
};

// A new cache in memory.
pub fn new_cache(alloc: Global) -> Result<PageCache<MemLog>, Error>
    ensures closed { IfOk result (λ cache. cache.batch ≡ false) }
    ensures known { IfOk result (IsKnown ⟦<MemLog as Log>⟧) }
{
    let log = MemLog::new(alloc, 512, 16);
    match PageCache::start(alloc, CONFIG, log) {
        Ok(cache) => Ok(cache),
        Err((error, _log)) => Err(error),
    }
}

// A new cache in memory, that is shared.
pub fn shared<K: Tally>(
    alloc: Global,
    limit: usize,
    parts: u64,
    blank: Blank,
) -> Result<SharedPageCache<MemLog, K>, Error>
    requires name { (blank.name ≡ K.name) × (blank.history ≡ K.history) }
    requires parts { (blank.parts ≡ parts) × (K.parts ≡ parts) × (0 < parts) }
{
    let cache = new_cache(alloc)?;
    SharedPageCache::<MemLog, K>::over(alloc, cache, limit, parts, blank).map_err(|e| e.0)
}

// What a crew did: how many calls its shares count, whether workers 0 and 1 met, and whether the last book has just the ids below that
// number, each once.
pub fn crew_of<K: Tally + Send + Sync + 'static, R: Threads + Wait + Copy + Send + 'static>(
    rt: R,
    alloc: Global,
    workers: usize,
    calls: u64,
    blank: Blank,
    parts: u64,
) -> Result<(u64, bool, bool), Error>
    requires name { (blank.name ≡ K.name) × (blank.history ≡ K.history) }
    requires parts { (blank.parts ≡ parts) × (K.parts ≡ parts) × (0 < parts) }
{
    let shared = Arc::new(alloc, shared::<K>(alloc, usize::MAX, parts, blank)?)?;
    let gate = Arc::new(
        alloc,
        Meeting {
            zero: AtomicBool::new(false),
            one: AtomicBool::new(false),
            missed: AtomicBool::new(false),
        },
    )?;
    let shares = shares_of(&rt, alloc, &*shared, workers)?;
    let theirs = Arc::try_clone(&shared)?;
    let watched = Arc::try_clone(&gate)?;
    let shares = run_crew(rt, alloc, theirs, shares, calls, gate).map_err(|e| e.0)?;
    let met = !watched.missed.load(Ordering::SeqCst);
    let (book, total) = closed(shared, shares)?;
    Ok((total, met, are_ids(alloc, book.entries())?))
}

// So many shares, or all that there are.
fn shares_of<K: Tally, R: Wait>(
    rt: &R,
    alloc: Global,
    shared: &SharedPageCache<MemLog, K>,
    count: usize,
) -> Result<Vec<Share<K>>, AllocError> {
    let mut shares = Vec::new(alloc);
    for _ in 0..count {
        if let Some(share) = shared.share(rt) {
            shares.push(share)?;
        }
    }
    Ok(shares)
}

// The last book, and how many calls were entered in all.
fn closed<K: Tally>(
    shared: Arc<SharedPageCache<MemLog, K>>,
    shares: Vec<Share<K>>,
) -> Result<(Book, u64), Error> {
    let Ok(shared) = Arc::try_unwrap(shared) else {
        return Err(Error::OutOfMemory);
    };
    match shared.close(shares) {
        Ok((_, book, total)) => Ok((book, total)),
        Err(_) => Err(Error::OutOfMemory),
    }
}

// Whether the entries are those of the ids from 0 on, each once, in their order.
fn are_ids(alloc: Global, entries: &[Entry]) -> Result<bool, AllocError> {
    let texts = texts_of(alloc, entries)?;
    let mut ids = Vec::new(alloc);
    for id in 0..texts.len() {
        ids.push(format!(in alloc; "id: Ok({id})")?)?;
    }
    Ok(ids == texts)
}

type Asking<K> = JoinHandle<(Share<K>, Vec<String>, bool)>;

/// What four workers were answered, the books of the two rounds, and how many calls were entered.
#[derive(Drop)]
pub struct Asked {
    pub texts: Vec<String>,
    pub first: Book,
    pub last: Book,
    pub total: u64,
}

/// Four workers make every call that takes a share, and a book is taken while they do.
pub fn asked_by_four<K: Tally + Send + Sync + 'static, R: Threads + Wait + Copy + Send + 'static>(
    rt: R,
    alloc: Global,
    blank: Blank,
    parts: u64,
) -> Result<Asked, Error>
    requires name { (blank.name ≡ K.name) × (blank.history ≡ K.history) }
    requires parts { (blank.parts ≡ parts) × (K.parts ≡ parts) × (0 < parts) }
{
    let shared = Arc::new(alloc, shared::<K>(alloc, usize::MAX, parts, blank)?)?;
    let shares = shares_of(&rt, alloc, &*shared, 4)?;
    let running = start_asking(rt, alloc, &shared, shares)?;
    let first = shared.take_book(&rt)?;
    let (shares, texts) = joined(&rt, alloc, running)?;
    let (last, total) = closed(shared, shares)?;
    Ok(Asked {
        texts,
        first,
        last,
        total,
    })
}

fn start_asking<K: Tally + Send + Sync + 'static, R: Threads + Wait + Copy + Send + 'static>(
    rt: R,
    alloc: Global,
    shared: &Arc<SharedPageCache<MemLog, K>>,
    shares: Vec<Share<K>>,
) -> Result<Vec<Asking<K>>, Error> {
    let mut running = Vec::new(alloc);
    let mut worker = 0u8;
    for share in shares {
        let mut share = share;
        let theirs = Arc::try_clone(shared)?;
        let number = worker;
        let job = move || {
            let mut texts = Vec::new(alloc);
            let all = ask(&rt, alloc, &*theirs, &mut share, number, &mut texts);
            (share, texts, all)
        };
        let Ok(started) = thread::spawn(&rt, job) else {
            return Err(Error::OutOfMemory);
        };
        running.push(started)?;
        worker = worker.wrapping_add(1);
    }
    Ok(running)
}

// The shares that came back, and all texts; none where there was no memory for one of them.
fn joined<K: Tally, R: Threads>(
    rt: &R,
    alloc: Global,
    running: Vec<Asking<K>>,
) -> Result<(Vec<Share<K>>, Vec<String>), AllocError> {
    let mut shares = Vec::new(alloc);
    let mut asked = Vec::new(alloc);
    for thread in running {
        let (share, texts, all) = thread.join(rt);
        shares.push(share)?;
        if !all {
            continue;
        }
        for text in texts {
            asked.push(text)?;
        }
    }
    Ok((shares, asked))
}
