//! One list of calls of a shared cache, any of which may be refused for memory: then nothing has changed, or a batch or the opening of a tree
//! has made the first of its changes. The book has the calls that were made, and the call is made again.

ghost use Rattle.std.specs.Prelude.{◌≡◌, ◌<◌};

mod there;

use self::Call::{Adds, Draws, Finds, Flushes, Gets, Links, Opens, Reads, Swaps, Together};
use self::there::{behind, is_plain, left_by, opens_again};
use crate::asking::swaps_of;
use crate::crews::{new_cache, shared};
use crate::entered::{add_entries, texts_of};
use crate::replay::ask_again;
use crate::rows::OTHER;
use sled_pagecache::sled_base::Refusal;
use sled_pagecache::{Error, IVec, Link, MemLog, Node, PageCache, PageId, PageView};
use sled_shared::{Blank, Book, Called, Ending, Entry, Share, SharedPageCache, SwapAnswer, Tally};
use std::alloc::Global;
use std::marker::Brand;
use std::sync::Wait;

#[derive(Clone, Copy)]
enum Call {
    // an empty leaf on the next page
    Adds,
    // a link on page 2 that sets this letter, by a token of this stamp
    Links(u64, &'static [u8]),
    // a batch: page 2 gets an empty leaf, and page 3 is freed; the link between them is stale
    Together,
    Opens,
    // the tree's root 4 becomes 2
    Swaps,
    Draws,
    Gets(PageId),
    // pages 2 and 3, one behind them, and page 2 again
    Reads,
    Finds,
    Flushes,
}

const NAME: &[u8] = b"t";

const PAGES: &[PageId] = &[2, 3, 7, 2];

/// A call; what it answers: a page, a stamp, some stamps added up, an id, or how many swaps are made; and the stamps that each of its changes leaves.
type Row = (Call, u64, &'static [(usize, u64)]);

const ROWS: &[Row] = &[
    (Adds, 2, &[(2, 1)]),
    (Adds, 3, &[(3, 1)]),
    (Links(1, b"a"), 2, &[(2, 2)]),
    (Links(2, b"b"), 3, &[(2, 3)]),
    (Links(3, b"c"), 4, &[(2, 4)]),
    (Links(4, b"d"), 5, &[(2, 5)]),
    (Links(5, b"e"), 6, &[(2, 6)]),
    (Links(6, b"f"), 7, &[(2, 7)]),
    (Links(7, b"g"), 8, &[(2, 8)]),
    (Links(8, b"h"), 9, &[(2, 9)]),
    (Links(9, b"i"), 10, &[(2, 10)]),
    (Links(10, b"j"), 11, &[(2, 11)]),
    (Links(11, b"k"), 12, &[(2, 12)]),
    (Gets(2), 12, &[]),
    (Reads, 25, &[]),
    (Together, 2, &[(2, 13), (3, 0)]),
    (Opens, 4, &[(3, 3), (4, 1), (0, 2)]),
    (Swaps, 0, &[(0, 3)]),
    (Finds, 2, &[]),
    (Draws, 0, &[]),
    (Draws, 1, &[]),
    (Draws, 2, &[]),
    (Draws, 3, &[]),
    (Draws, 4, &[]),
    (Draws, 5, &[]),
    (Draws, 6, &[]),
    (Draws, 7, &[]),
    (Draws, 8, &[]),
    (Draws, 9, &[]),
    (Draws, 10, &[(1, 2)]),
    (Flushes, 0, &[]),
];

/// What a call answers, or that it was refused for memory behind so many swaps of a batch.
type Told = Result<u64, usize>;

// ---- the calls

fn told(answer: Result<u64, Error>) -> Told {
    match answer {
        Ok(number) => Ok(number),
        Err(Error::OutOfMemory) => Err(0),
        Err(_) => Ok(OTHER),
    }
}

fn swaps_made(answers: &[SwapAnswer]) -> usize {
    let mut made = 0usize;
    for answer in answers {
        if matches!(answer, SwapAnswer::Replace(Ok(_)) | SwapAnswer::Free(Ok(_))) {
            made = made.saturating_add(1);
        }
    }
    made
}

fn links<K: Tally, R: Wait>(
    rt: &R,
    alloc: Global,
    shared: &SharedPageCache<MemLog, K>,
    share: &mut Share<K>,
    stamp: u64,
    letter: &[u8],
) -> Told {
    let (Ok(key), Ok(value)) = (
        IVec::from_slice(alloc, letter),
        IVec::from_slice(alloc, &[7; 30]),
    ) else {
        return Err(0);
    };
    let old = PageView::new(2, stamp);
    let linked = shared.link(rt, old.pid(), old, Link::Set(key, value), share);
    told(linked.map(|ended| ended.map_or(OTHER, |token| token.ts())))
}

fn together<K: Tally, R: Wait>(
    rt: &R,
    alloc: Global,
    shared: &SharedPageCache<MemLog, K>,
    share: &mut Share<K>,
) -> Told {
    let Ok(swaps) = swaps_of(alloc, PageView::new(2, 12), PageView::new(3, 1)) else {
        return Err(0);
    };
    match shared.batch(rt, swaps, share) {
        Ok(answers) => Ok(swaps_made(&answers) as u64),
        Err((Error::OutOfMemory, answers)) => Err(swaps_made(&answers)),
        Err(_) => Ok(OTHER),
    }
}

fn reads<K: Tally, R: Wait>(
    rt: &R,
    alloc: Global,
    shared: &SharedPageCache<MemLog, K>,
    share: &mut Share<K>,
) -> Told {
    let Ok(pages) = Vec::from_slice(alloc, PAGES) else {
        return Err(0);
    };
    match shared.get_all(rt, pages, share) {
        Ok(found) => {
            let mut stamps = 0u64;
            for (token, _) in found.into_iter().flatten() {
                stamps = stamps.saturating_add(token.ts());
            }
            Ok(stamps)
        }
        Err((e, _)) => told(Err(e)),
    }
}

fn answer<K: Tally, R: Wait>(
    rt: &R,
    alloc: Global,
    shared: &SharedPageCache<MemLog, K>,
    share: &mut Share<K>,
    call: &Call,
) -> Told {
    match *call {
        Adds => told(
            shared
                .allocate(rt, Node::default(alloc), share)
                .map(|made| made.0),
        ),
        Links(stamp, letter) => links(rt, alloc, shared, share, stamp, letter),
        Together => together(rt, alloc, shared, share),
        Opens => match IVec::from_slice(alloc, NAME) {
            Ok(name) => told(shared.open_tree(rt, name, share)),
            Err(_) => Err(0),
        },
        Swaps => told(
            shared
                .cas_root_in_meta(rt, NAME, Some(4), Some(2), share)
                .map(|ended| if ended.is_ok() { 0 } else { OTHER }),
        ),
        Draws => told(shared.generate_id(rt, share)),
        Gets(pid) => told(
            shared
                .get(rt, pid, share)
                .map(|got| got.map_or(OTHER, |page| page.0.ts())),
        ),
        Reads => reads(rt, alloc, shared, share),
        Finds => told(shared.meta_pid_for_name(rt, NAME, share)),
        Flushes => told(shared.flush(rt, share).map(|_| 0)),
    }
}

// The same of an entry.
fn entered(called: &Called) -> Told {
    match called {
        Called::Allocate(_, Ok((number, _)))
        | Called::GenerateId(Ok(number))
        | Called::OpenTree(_, Ok(number))
        | Called::Get(_, Ok(Some((number, _))))
        | Called::MetaPidForName(_, Ok(Some(number))) => Ok(*number),
        Called::Link(change, Ok(Ending::Made)) => Ok(change.0.ts().saturating_add(1)),
        Called::CasRoot(_, Ok(Ok(()))) | Called::Flush(Ok(_)) => Ok(0),
        Called::Batch(asked, kept) => {
            let made = asked
                .endings
                .iter()
                .filter(|ending| **ending == Ending::Made)
                .count();
            match kept {
                Ok(()) => Ok(made as u64),
                Err(refusal) if **refusal == Refusal::OutOfMemory => Err(made),
                Err(_) => Ok(OTHER),
            }
        }
        Called::GetAll(asked, Ok(())) => {
            let mut stamps = 0u64;
            for (stamp, _) in asked.found.iter().flatten() {
                stamps = stamps.saturating_add(*stamp);
            }
            Ok(stamps)
        }
        Called::Allocate(_, Err(refusal))
        | Called::GenerateId(Err(refusal))
        | Called::OpenTree(_, Err(refusal))
        | Called::Get(_, Err(refusal))
        | Called::GetAll(_, Err(refusal))
        | Called::MetaPidForName(_, Err(refusal))
        | Called::Link(_, Err(refusal))
        | Called::CasRoot(_, Err(refusal))
        | Called::Flush(Err(refusal))
            if **refusal == Refusal::OutOfMemory => Err(0),
        _ => Ok(OTHER),
    }
}

// Whether these are the entries of so many rows, and of no other but one that was refused behind so many swaps.
fn are_entered(entries: &[Entry], rows: &[Row], made: usize, left: usize) -> bool {
    for (place, entry) in entries.iter().enumerate() {
        let wanted = match rows.get(place) {
            Some(row) if place < made => Ok(row.1),
            Some(_) if place == made => Err(left),
            _ => return false,
        };
        if entered(entry.called()) != wanted {
            return false;
        }
    }
    entries.len() >= made
}

// ---- the list

// How many rows were made, up to one that is refused behind so many swaps.
fn made_of<K: Tally, R: Wait>(
    rt: &R,
    alloc: Global,
    shared: &SharedPageCache<MemLog, K>,
    share: &mut Share<K>,
    rows: &[Row],
) -> Option<(usize, usize)> {
    for (made, row) in rows.iter().enumerate() {
        match answer(rt, alloc, shared, share, &row.0) {
            Ok(number) if number == row.1 => {}
            Ok(_) => return None,
            Err(left) => return Some((made, left)),
        }
    }
    Some((rows.len(), 0))
}

/// The cache, its book, if there was memory to share it, how many rows were made, and how many swaps of the next.
type Made = (PageCache<MemLog>, Option<Book>, usize, usize);

// Shares a cache, makes the rows, and closes it.
fn made<K: Tally, R: Wait>(
    rt: &R,
    alloc: Global,
    cache: PageCache<MemLog>,
    rows: &[Row],
    blank: Blank,
    parts: u64,
) -> Option<Made>
    requires name { (blank.name ≡ K.name) × (blank.history ≡ K.history) }
    requires parts { (blank.parts ≡ parts) × (K.parts ≡ parts) × (0 < parts) }
    requires known { ¬ K.known }
{
    if cache.batch_open() {
        return None;
    }
    let Ok(mut shares) = Vec::with_capacity(alloc, 1) else {
        return Some((cache, None, 0, 0));
    };
    let shared = match SharedPageCache::<MemLog, K>::over(alloc, cache, usize::MAX, parts, blank) {
        Ok(shared) => shared,
        Err((_, cache)) => return Some((cache, None, 0, 0)),
    };
    let mut share = shared.share(rt)?;
    let (made, left) = made_of(rt, alloc, &shared, &mut share, rows)?;
    let count = share.count();
    shares.push(share).ok()?;
    let (cache, book, total) = shared.close(shares).ok()?;
    let entries = book.entries();
    let is_so = total == count
        && entries.len() as u64 == count
        && are_entered(entries, rows, made, left);
    is_so.then_some((cache, Some(book), made, left))
}

// Whether the first entries of two books are made again, and leave what so many rows do.
fn replays<K: Tally, R: Wait>(
    rt: &R,
    alloc: Global,
    books: [(&Option<Book>, usize); 2],
    rows: usize,
    blank: Blank,
    parts: u64,
) -> Option<bool>
    requires name { (blank.name ≡ K.name) × (blank.history ≡ K.history) }
    requires parts { (blank.parts ≡ parts) × (K.parts ≡ parts) × (0 < parts) }
{
    let again = shared::<K>(alloc, usize::MAX, parts, blank).ok()?;
    let mut share = again.share(rt)?;
    let mut texts = Vec::new(alloc);
    for (book, count) in books {
        if let Some(book) = book {
            let entries = book.entries().get(..count)?;
            ask_again(rt, alloc, &again, &mut share, entries).ok()?;
            add_entries(alloc, &mut texts, entries).ok()?;
        }
    }
    let mut shares = Vec::new(alloc);
    shares.push(share).ok()?;
    let (mut cache, book, _) = again.close(shares).ok()?;
    let is_same = texts_of(alloc, book.entries()).ok()? == texts;
    Some(is_same && is_plain(&mut cache, &behind(rows, 0), false))
}

/// Whether the list goes on where one request for memory is refused, whichever it is. Where none is, this shows that every call succeeds.
pub fn goes_on<R: Wait>(rt: &R, alloc: Global) -> Option<bool> {
    let cache = match new_cache(alloc) {
        Ok(cache) => cache,
        Err(_) => new_cache(alloc).ok()?,
    };
    let (mut cache, first, made_first, swaps) = made::<Brand, R>(
        rt,
        alloc,
        cache,
        ROWS,
        Blank::new(2),
        2,
    )?;
    let left = left_by(&mut cache, made_first, swaps)?;
    let is_entered = match &first {
        Some(book) => book.entries().len() > made_first,
        None => false,
    };
    if left > 0 && !is_entered {
        return None;
    }
    // the list ends behind a part of a row
    let rest = if left > 0 {
        &[]
    } else {
        ROWS.get(made_first..)?
    };
    let (cache, last, made_last, _) = made::<Brand, R>(rt, alloc, cache, rest, Blank::new(2), 2)?;
    let rows = made_first.saturating_add(made_last);
    let books = [(&first, made_first), (&last, made_last)];
    let is_again = replays::<Brand, R>(rt, alloc, books, rows, Blank::new(2), 2) == Some(true)
        || replays::<Brand, R>(rt, alloc, books, rows, Blank::new(2), 2) == Some(true);
    let is_all = left > 0 || rows == ROWS.len() && opens_again(alloc, cache)?;
    Some(is_again && is_all)
}
