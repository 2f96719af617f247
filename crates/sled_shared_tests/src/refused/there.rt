// What is there behind the rows that a cache was given, in stamps from which all else follows.

use super::Call::Opens;
use super::{NAME, ROWS};
use crate::faults::CONFIG;
use sled_pagecache::{Error, Item, Log, MemLog, Node, PageCache, PageId};
use std::alloc::Global;

/// The stamps of the names, of the counter, and of three pages, or 0 where there is none.
type Stamps = [u64; 5];

const NEW: Stamps = [1, 1, 0, 0, 0];

/// The stamps behind so many rows, and so many changes of the next.
pub(super) fn behind(rows: usize, left: usize) -> Stamps {
    let mut stamps = NEW;
    for (place, row) in ROWS.iter().enumerate() {
        for (change, (page, stamp)) in row.2.iter().enumerate() {
            if (place < rows || place == rows && change < left) && *page < 5 {
                stamps[*page] = *stamp;
            }
        }
    }
    stamps
}

// Whether a page of this stamp has its node: page 2 the letters that were linked, page 3 nothing, and page 4 leads to it.
fn is_node(node: &Node, pid: PageId, stamp: u64) -> bool {
    if pid == 4 {
        return node.len() == 1 && node.pair(0).1 == Item::Child(3);
    }
    for place in 0..node.len() {
        if b"abcdefghijk".get(place..=place) != Some(node.pair(place).0) {
            return false;
        }
    }
    let is_linked = pid == 2 && stamp < 13;
    let letters = if is_linked {
        stamp.saturating_sub(1)
    } else {
        0
    };
    node.len() as u64 == letters
}

// Whether a page is as its stamp has it, which is 0 itself in a cache that was opened again.
fn is_page(cache: &mut PageCache<MemLog>, pid: PageId, stamp: u64, is_again: bool) -> bool {
    match cache.get(pid) {
        Ok(Some(view)) => {
            let present = if is_again { 0 } else { stamp };
            view.token().ts() == present && stamp > 0 && is_node(view.node(), pid, stamp)
        }
        Ok(None) => stamp == 0,
        Err(_) => false,
    }
}

// The stamp of the names and the root of the tree, and the stamp of the counter and that.
fn system(cache: &PageCache<MemLog>) -> Option<(u64, u64, u64, u64)> {
    let names = cache.get_meta().ok()?.token().ts();
    let (token, counter) = cache.get_idgen().ok()?;
    let root = match cache.meta_pid_for_name(NAME) {
        Ok(root) => root,
        Err(Error::CollectionNotFound(_)) => 0,
        Err(_) => return None,
    };
    Some((names, root, token.ts(), counter))
}

/// Whether all is there that these stamps say, and nothing else.
pub(super) fn is_plain(cache: &mut PageCache<MemLog>, stamps: &Stamps, is_again: bool) -> bool {
    let [names, ids, first, second, third] = *stamps;
    let root = match names {
        1 => 0,
        2 => 4,
        _ => 2,
    };
    let counter = if ids == 1 { 0 } else { 10 };
    let (names, ids) = if is_again { (0, 0) } else { (names, ids) };
    system(cache) == Some((names, root, ids, counter))
        && is_page(cache, 2, first, is_again)
        && is_page(cache, 3, second, is_again)
        && is_page(cache, 4, third, is_again)
        && is_page(cache, 5, 0, is_again)
}

/// How many changes of a row stand that was refused, or none where there is something else. Those of a tree's opening come one by one.
pub(super) fn left_by(cache: &mut PageCache<MemLog>, rows: usize, swaps: usize) -> Option<usize> {
    let is_tree = ROWS.get(rows).is_some_and(|row| matches!(row.0, Opens));
    let end = if is_tree { 3 } else { swaps.saturating_add(1) };
    for left in swaps..end {
        let stamps = behind(rows, left);
        if is_plain(cache, &stamps, false) || is_plain(cache, &stamps, false) {
            return Some(left);
        }
    }
    None
}

fn started(alloc: Global, log: MemLog) -> Result<PageCache<MemLog>, MemLog> {
    if log.batch_open() {
        return Err(log);
    }
    PageCache::start(alloc, CONFIG, log).map_err(|(_, log)| log)
}

/// Whether a cache is opened again as all rows left it, and gives an id behind those that may have been given.
pub(super) fn opens_again(alloc: Global, cache: PageCache<MemLog>) -> Option<bool> {
    if cache.batch_open() {
        return None;
    }
    let mut cache = match started(alloc, cache.into_log().stop(0)) {
        Ok(cache) => cache,
        Err(log) => started(alloc, log).ok()?,
    };
    let stamps = behind(ROWS.len(), 0);
    let is_so = is_plain(&mut cache, &stamps, true) || is_plain(&mut cache, &stamps, true);
    let id = match cache.generate_id_inner() {
        Ok(id) => id,
        Err(_) => cache.generate_id_inner().ok()?,
    };
    Some(is_so && id == 30)
}
