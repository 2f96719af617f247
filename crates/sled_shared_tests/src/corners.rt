//! Shares that run out and come back in another order, a book that has room for no call, and batches of no swaps and of many.

ghost use Rattle.std.specs.Prelude.{◌≡◌, ◌<◌};

use crate::asking::ask_in_a_row;
use crate::crews::shared;
use sled_pagecache::{IVec, Link, MemLog, Node, PageView};
use sled_shared::{Blank, Share, SharedPageCache, Swap, Tally};
use std::alloc::{AllocError, Global};
use std::sync::Wait;

/// How many shares there are, and the totals of three closings: with none of them, with all but one, and with all, the last one first. A
/// closing that hands the cache back has no total. Each share draws one id more than the one before it.
pub fn closings<K: Tally, R: Wait>(
    rt: &R,
    alloc: Global,
    blank: Blank,
    parts: u64,
) -> Option<(usize, [Option<u64>; 3])>
    requires name { (blank.name ≡ K.name) × (blank.history ≡ K.history) }
    requires parts { (blank.parts ≡ parts) × (K.parts ≡ parts) × (0 < parts) }
{
    let shared = shared::<K>(alloc, usize::MAX, parts, blank).ok()?;
    let mut left = drawn(rt, alloc, &shared).ok()?;
    let count = left.len();
    let shared = match shared.close(Vec::new(alloc)) {
        Ok((_, _, total)) => return Some((count, [Some(total), None, None])),
        Err((shared, _)) => shared,
    };
    let last = left.pop()?;
    let (shared, back) = match shared.close(left) {
        Ok((_, _, total)) => return Some((count, [None, Some(total), None])),
        Err(back) => back,
    };
    let mut turned = Vec::new(alloc);
    turned.push(last).ok()?;
    for share in back {
        turned.push(share).ok()?;
    }
    match shared.close(turned) {
        Ok((_, _, total)) => Some((count, [None, None, Some(total)])),
        Err(_) => Some((count, [None, None, None])),
    }
}

// All shares of a cache, up to eight. The first one has drawn an id, the second two, and so on.
fn drawn<K: Tally, R: Wait>(
    rt: &R,
    alloc: Global,
    shared: &SharedPageCache<MemLog, K>,
) -> Result<Vec<Share<K>>, AllocError> {
    let mut shares = Vec::new(alloc);
    for calls in 0..8u64 {
        let Some(mut share) = shared.share(rt) else {
            continue;
        };
        for _ in 0..=calls {
            let _ = shared.generate_id(rt, &mut share);
        }
        shares.push(share)?;
    }
    Ok(shares)
}

/// What each call answers where a book may have no entry, how many the share counts then, and how many entries the book has.
pub fn without_room<K: Tally, R: Wait>(
    rt: &R,
    alloc: Global,
    blank: Blank,
    parts: u64,
) -> Option<(Vec<String>, u64, usize)>
    requires name { (blank.name ≡ K.name) × (blank.history ≡ K.history) }
    requires parts { (blank.parts ≡ parts) × (K.parts ≡ parts) × (0 < parts) }
{
    let shared = shared::<K>(alloc, 0, parts, blank).ok()?;
    let mut share = shared.share(rt)?;
    let mut texts = Vec::new(alloc);
    if !ask_in_a_row(rt, alloc, &shared, &mut share, &mut texts) {
        return None;
    }
    let book = shared.take_book(rt).ok()?;
    Some((texts, share.count(), book.entries().len()))
}

/// How many answers come of a batch of no swaps, of 17 links of one page, and of three swaps of which the first is refused; whether each
/// was sealed; and the stamp of the page behind them.
pub fn batches<K: Tally, R: Wait>(
    rt: &R,
    alloc: Global,
    blank: Blank,
    parts: u64,
) -> Option<([(bool, usize); 3], u64)>
    requires name { (blank.name ≡ K.name) × (blank.history ≡ K.history) }
    requires parts { (blank.parts ≡ parts) × (K.parts ≡ parts) × (0 < parts) }
{
    let shared = shared::<K>(alloc, 20, parts, blank).ok()?;
    let mut share = shared.share(rt)?;
    let (_, token) = shared.allocate(rt, Node::default(alloc), &mut share).ok()?;
    let none = sealed(rt, &shared, &mut share, Vec::new(alloc));
    let links = links_from(alloc, token.pid(), 1, 17, Vec::new(alloc)).ok()?;
    let many = sealed(rt, &shared, &mut share, links);
    let mut swaps = Vec::new(alloc);
    swaps.push(Swap::Free(PageView::new(0, 0))).ok()?;
    let swaps = links_from(alloc, token.pid(), 18, 2, swaps).ok()?;
    let refused = sealed(rt, &shared, &mut share, swaps);
    let (present, _) = shared.get(rt, token.pid(), &mut share).ok()??;
    Some(([none, many, refused], present.ts()))
}

// Whether a batch was sealed, and how many answers it has.
fn sealed<K: Tally, R: Wait>(
    rt: &R,
    shared: &SharedPageCache<MemLog, K>,
    share: &mut Share<K>,
    swaps: Vec<Swap>,
) -> (bool, usize) {
    match shared.batch(rt, swaps, share) {
        Ok(answers) => (true, answers.len()),
        Err((_, answers)) => (false, answers.len()),
    }
}

// So many links of a page behind other swaps, each at the stamp that the one before it leaves.
fn links_from(
    alloc: Global,
    pid: u64,
    first: u64,
    count: u64,
    swaps: Vec<Swap>,
) -> Result<Vec<Swap>, AllocError> {
    let mut all = swaps;
    for i in 0..count {
        let link = Link::Del(IVec::from_slice(alloc, b"key")?);
        all.push(Swap::Link(PageView::new(pid, first.wrapping_add(i)), link))?;
    }
    Ok(all)
}
