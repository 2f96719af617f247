//! Tokens that no call gave, some of an earlier opening, and ids of every size, through each call of a share that takes one.

ghost use Rattle.std.specs.Prelude.{◌≡◌, ◌<◌, false, IfOk};

use crate::asking::{batch, batch_of, cas, flush, free, get, link, replace, swaps_of};
use crate::crews::new_cache;
use crate::entered::texts_of;
use crate::faults::CONFIG;
use crate::replay::ask_again;
use crate::rows::end_so;
use sled_pagecache::{Error, MemLog, Node, PageCache, PageId, PageView, Why};
use sled_shared::{Blank, Book, Share, SharedPageCache, Tally};
use std::alloc::Global;
use std::sync::Wait;

const MID: u64 = 1 << 32;

const TOP: u64 = 1 << 63;

/// Stamps but the 5 that page 2 has: it had those up to 8 in the earlier opening, and those up to 4 in this one.
const STAMPS: &[u64] = &[0, 4, 6, 8, 9, MID + 5, TOP + 5, u64::MAX - 1, u64::MAX];

/// The free page, the next one, and any others; some have the id 2 in their lower half.
const ABSENT: &[PageId] = &[3, 4, 241, MID, MID + 2, TOP + 2, u64::MAX - 667, u64::MAX];

/// What a get of page 2 ends with: the value of its key.
const SEEN: &str = ", 7, 7])] }) })))";

/// Pages; what a swap of one answers whatever its stamp, and a batch of it alone; and what is got of one.
type Row = (&'static [PageId], &'static str, &'static str, &'static str);

const ROWS: &[Row] = &[
    (&[2], ": Ok(Stale(5))", ": [Stale(5)] Ok(())", SEEN),
    (
        &[0, 1, u64::MAX - 666],
        ": Err(Unsupported(ReservedId))",
        ": [] Err(Unsupported(ReservedId))",
        ": Err(Unsupported(ReservedId))",
    ),
    (ABSENT, ": Ok(Gone)", ": [Gone] Ok(())", ": Ok(None)"),
];

// A cache whose log was written in an earlier opening: page 2, which got to stamp 8 there, and page 3, which is free.
fn opened_again(alloc: Global) -> Result<PageCache<MemLog>, Error>
    ensures { IfOk result (λ cache. cache.batch ≡ false) }
{
    let mut cache = new_cache(alloc)?;
    let (_, mut token) = cache.allocate(Node::default(alloc))?;
    let (pid, last) = cache.allocate(Node::default(alloc))?;
    let _ = cache.free(pid, last)?;
    for _ in 0..7 {
        if let Ok(next) = cache.replace(token.pid(), token, Node::default(alloc))? {
            token = next;
        }
    }
    cache.flush()?;
    if cache.batch_open() {
        return Err(Error::Unsupported(Why::BatchOpen));
    }
    let log = cache.into_log().stop(0);
    match PageCache::start(alloc, CONFIG, log) {
        Ok(cache) => Ok(cache),
        Err((error, _)) => Err(error),
    }
}

// Such a cache that is shared, where page 2 has stamp 5, a name has the root 5, all is flushed and the book is taken.
fn ready<K: Tally, R: Wait>(
    rt: &R,
    alloc: Global,
    blank: Blank,
    parts: u64,
) -> Option<(SharedPageCache<MemLog, K>, Share<K>)>
    requires name { (blank.name ≡ K.name) × (blank.history ≡ K.history) }
    requires parts { (blank.parts ≡ parts) × (K.parts ≡ parts) × (0 < parts) }
    requires known { ¬ K.known }
{
    let cache = opened_again(alloc).ok()?;
    let shared = SharedPageCache::<MemLog, K>::over(alloc, cache, usize::MAX, parts, blank).ok()?;
    let mut share = shared.share(rt)?;
    let mut texts = Vec::new(alloc);
    for stamp in 0..5 {
        let old = PageView::new(2, stamp);
        link(rt, alloc, &shared, &mut share, old, 7, &mut texts);
    }
    cas(
        rt,
        alloc,
        &shared,
        &mut share,
        b"n",
        None,
        Some(5),
        &mut texts,
    );
    flush(rt, alloc, &shared, &mut share, &mut texts);
    let _ = shared.take_book(rt).ok()?;
    Some((shared, share))
}

// Puts texts behind others, and says whether they end so.
fn put(texts: &mut Vec<String>, told: Vec<String>, ends: &[&str]) -> bool {
    let mut all = end_so(&told, ends);
    for text in told {
        all &= texts.push(text).is_ok();
    }
    all
}

// Whether each swap by a token is answered so, alone and as the one of a batch.
fn token_is_refused<K: Tally, R: Wait>(
    rt: &R,
    alloc: Global,
    shared: &SharedPageCache<MemLog, K>,
    share: &mut Share<K>,
    old: PageView,
    row: &Row,
    texts: &mut Vec<String>,
) -> bool {
    let mut told = Vec::new(alloc);
    let mut all = link(rt, alloc, shared, share, old, 9, &mut told);
    all &= replace(rt, alloc, shared, share, old, &mut told);
    all &= free(rt, alloc, shared, share, old, &mut told);
    let Ok(swaps) = swaps_of(alloc, old, old) else {
        return false;
    };
    for swap in swaps {
        let mut one = Vec::new(alloc);
        all &= one.push(swap).is_ok();
        all &= batch_of(rt, alloc, shared, share, one, old, &mut told);
    }
    all && put(texts, told, &[row.1, row.1, row.1, row.2, row.2, row.2])
}

// Whether each page of a row is answered so, whatever the stamp, and isn't the root of the name.
fn row_is_refused<K: Tally, R: Wait>(
    rt: &R,
    alloc: Global,
    shared: &SharedPageCache<MemLog, K>,
    share: &mut Share<K>,
    row: &Row,
    texts: &mut Vec<String>,
) -> bool {
    let mut all = true;
    for pid in row.0 {
        for stamp in STAMPS {
            let old = PageView::new(*pid, *stamp);
            all &= token_is_refused(rt, alloc, shared, share, old, row, texts);
        }
        let mut told = Vec::new(alloc);
        all &= get(rt, alloc, shared, share, *pid, &mut told);
        all &= cas(rt, alloc, shared, share, b"n", Some(*pid), None, &mut told);
        all &= put(texts, told, &[row.3, ": Ok(Err(Some(5)))"]);
    }
    all
}

/// The book of such calls, and its texts; none where one is answered otherwise than it should, is entered otherwise, or changes a page: behind
/// all of them page 2 is the same, and there is nothing to flush.
pub fn strange<K: Tally, R: Wait>(
    rt: &R,
    alloc: Global,
    blank: Blank,
    parts: u64,
) -> Option<(Book, Vec<String>)>
    requires name { (blank.name ≡ K.name) × (blank.history ≡ K.history) }
    requires parts { (blank.parts ≡ parts) × (K.parts ≡ parts) × (0 < parts) }
    requires known { ¬ K.known }
{
    let (shared, mut share) = ready::<K, R>(rt, alloc, blank, parts)?;
    let mut texts = Vec::new(alloc);
    let mut all = get(rt, alloc, &shared, &mut share, 2, &mut texts);
    for row in ROWS {
        all &= row_is_refused(rt, alloc, &shared, &mut share, row, &mut texts);
    }
    let (stale, own) = (PageView::new(2, 0), PageView::new(0, 0));
    let mut told = Vec::new(alloc);
    all &= batch(rt, alloc, &shared, &mut share, stale, own, &mut told);
    all &= get(rt, alloc, &shared, &mut share, 2, &mut told);
    all &= told.last() == texts.first();
    all &= flush(rt, alloc, &shared, &mut share, &mut told);
    let refused = ": [Stale(5), Stale(5)] Err(Unsupported(ReservedId))";
    all &= put(&mut texts, told, &[refused, SEEN, ": Ok(0)"]);
    let book = shared.take_book(rt).ok()?;
    all &= texts_of(alloc, book.entries()).ok()? == texts;
    all.then_some((book, texts))
}

/// The texts of what is entered where the calls of such a book are made once more.
pub fn strange_again<K: Tally, R: Wait>(
    rt: &R,
    alloc: Global,
    book: &Book,
    blank: Blank,
    parts: u64,
) -> Option<Vec<String>>
    requires name { (blank.name ≡ K.name) × (blank.history ≡ K.history) }
    requires parts { (blank.parts ≡ parts) × (K.parts ≡ parts) × (0 < parts) }
    requires known { ¬ K.known }
{
    let (shared, mut share) = ready::<K, R>(rt, alloc, blank, parts)?;
    ask_again(rt, alloc, &shared, &mut share, book.entries()).ok()?;
    texts_of(alloc, shared.take_book(rt).ok()?.entries()).ok()
}
