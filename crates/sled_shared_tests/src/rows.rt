//! Books that are filled, taken and closed, and a batch that is cancelled.

ghost use Rattle.std.specs.Prelude.{◌≡◌, ◌<◌};

use crate::asking::ask_in_a_row;
use crate::crews::shared;
use sled_pagecache::{Error, MemLog, Node, PageView, Why};
use sled_shared::{Blank, Share, SharedPageCache, Swap, SwapAnswer, Tally};
use std::alloc::{AllocError, Global};
use std::sync::Wait;

/// An answer that isn't looked at.
pub const OTHER: u64 = u64::MAX;

/// That the book is full.
pub const FULL: u64 = u64::MAX - 1;

/// Two ids and a third one at a book of two, the count of the share then, the entries of the book that is taken, an id behind it, and
/// the total, the entries and the earlier calls of the last book.
pub fn rows<K: Tally, R: Wait>(
    rt: &R,
    alloc: Global,
    blank: Blank,
    parts: u64,
) -> Option<([u64; 4], u64, u64, (u64, u64, u64))>
    requires name { (blank.name ≡ K.name) × (blank.history ≡ K.history) }
    requires parts { (blank.parts ≡ parts) × (K.parts ≡ parts) × (0 < parts) }
{
    let shared = shared::<K>(alloc, 2, parts, blank).ok()?;
    let mut share = shared.share(rt)?;
    let first = id(rt, &shared, &mut share);
    let second = id(rt, &shared, &mut share);
    let third = id(rt, &shared, &mut share);
    let count = share.count();
    let taken = taken(rt, &shared);
    let fourth = id(rt, &shared, &mut share);
    Some((
        [first, second, third, fourth],
        count,
        taken,
        closed(alloc, shared, share),
    ))
}

fn id<K: Tally, R: Wait>(rt: &R, shared: &SharedPageCache<MemLog, K>, share: &mut Share<K>) -> u64 {
    match shared.generate_id(rt, share) {
        Ok(id) => id,
        Err(Error::Unsupported(Why::BookFull)) => FULL,
        Err(_) => OTHER,
    }
}

// How many entries the book has that is taken.
fn taken<K: Tally, R: Wait>(rt: &R, shared: &SharedPageCache<MemLog, K>) -> u64 {
    match shared.take_book(rt) {
        Ok(book) => book.entries().len() as u64,
        Err(_) => OTHER,
    }
}

// The total of the calls, the entries of the last book, and how many calls were entered before it. A cache that isn't handed its share
// hands back what it was given, and goes on.
fn closed<K: Tally>(
    alloc: Global,
    shared: SharedPageCache<MemLog, K>,
    share: Share<K>,
) -> (u64, u64, u64) {
    let Err((shared, none)) = shared.close(Vec::new(alloc)) else {
        return (OTHER, OTHER, OTHER);
    };
    let mut shares = none;
    if shares.push(share).is_err() {
        return (OTHER, OTHER, OTHER);
    }
    match shared.close(shares) {
        Ok((_, book, total)) => (total, book.entries().len() as u64, book.earlier()),
        Err(_) => (OTHER, OTHER, OTHER),
    }
}

/// A batch of a good replacement of a page, and one of the cache's own page: whether the refusal is that, how many answers come with it,
/// the stamp of the page behind it, and how many entries the book has.
pub fn batch_rows<K: Tally, R: Wait>(
    rt: &R,
    alloc: Global,
    blank: Blank,
    parts: u64,
) -> Option<(bool, usize, u64, u64)>
    requires name { (blank.name ≡ K.name) × (blank.history ≡ K.history) }
    requires parts { (blank.parts ≡ parts) × (K.parts ≡ parts) × (0 < parts) }
{
    let shared = shared::<K>(alloc, 20, parts, blank).ok()?;
    let mut share = shared.share(rt)?;
    let token = allocated(rt, alloc, &shared, &mut share)?;
    let swaps = swaps_of(alloc, token).ok()?;
    let (refused, answers) = refused(&shared.batch(rt, swaps, &mut share));
    let stamp = stamp_of(rt, &shared, &mut share, token);
    Some((refused, answers, stamp, taken(rt, &shared)))
}

fn allocated<K: Tally, R: Wait>(
    rt: &R,
    alloc: Global,
    shared: &SharedPageCache<MemLog, K>,
    share: &mut Share<K>,
) -> Option<PageView> {
    match shared.allocate(rt, Node::default(alloc), share) {
        Ok((_, token)) => Some(token),
        Err(_) => None,
    }
}

fn swaps_of(alloc: Global, token: PageView) -> Result<Vec<Swap>, AllocError> {
    let mut swaps = Vec::new(alloc);
    swaps.push(Swap::Replace(token, Node::default(alloc)))?;
    swaps.push(Swap::Replace(PageView::new(0, 0), Node::default(alloc)))?;
    Ok(swaps)
}

// Whether a batch was refused for the cache's own page, and how many answers it has.
fn refused(answer: &Result<Vec<SwapAnswer>, (Error, Vec<SwapAnswer>)>) -> (bool, usize) {
    match answer {
        Ok(answers) => (false, answers.len()),
        Err((e, answers)) => (
            matches!(e, Error::Unsupported(Why::ReservedId)),
            answers.len(),
        ),
    }
}

fn stamp_of<K: Tally, R: Wait>(
    rt: &R,
    shared: &SharedPageCache<MemLog, K>,
    share: &mut Share<K>,
    token: PageView,
) -> u64 {
    match shared.get(rt, token.pid(), share) {
        Ok(Some((present, _))) => present.ts(),
        _ => OTHER,
    }
}

/// What each call answers that succeeds, by one thread.
pub fn answers_in_a_row<K: Tally, R: Wait>(
    rt: &R,
    alloc: Global,
    blank: Blank,
    parts: u64,
) -> Option<Vec<String>>
    requires name { (blank.name ≡ K.name) × (blank.history ≡ K.history) }
    requires parts { (blank.parts ≡ parts) × (K.parts ≡ parts) × (0 < parts) }
{
    let shared = shared::<K>(alloc, 20, parts, blank).ok()?;
    let mut share = shared.share(rt)?;
    let mut texts = Vec::new(alloc);
    if ask_in_a_row(rt, alloc, &shared, &mut share, &mut texts) {
        Some(texts)
    } else {
        None
    }
}

/// Whether these are the texts, in their order.
pub fn are(texts: &[String], wanted: &[&str]) -> bool {
    if texts.len() != wanted.len() {
        return false;
    }
    for i in 0..wanted.len() {
        if texts[i].as_str() != wanted[i] {
            return false;
        }
    }
    true
}

/// Whether there are as many texts as ends, and each ends so.
pub fn end_so(texts: &[String], ends: &[&str]) -> bool {
    if texts.len() != ends.len() {
        return false;
    }
    for i in 0..ends.len() {
        if !texts[i].as_bytes().ends_with(ends[i].as_bytes()) {
            return false;
        }
    }
    true
}
