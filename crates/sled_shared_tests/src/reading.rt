//! Reads of several pages as one call, with what they answered as a text.

use sled_pagecache::{Error, MemLog, Node, PageId, PageView};
use sled_shared::{Share, SharedPageCache, Tally};
use std::alloc::{AllocError, Global};
use std::sync::Wait;

/// Reads these pages as one call, and adds a text. Whether there was memory for both.
pub fn get_all<K: Tally, R: Wait>(
    rt: &R,
    alloc: Global,
    shared: &SharedPageCache<MemLog, K>,
    share: &mut Share<K>,
    pages: &[PageId],
    texts: &mut Vec<String>,
) -> bool {
    let Ok(copy) = Vec::from_slice(alloc, pages) else {
        return false;
    };
    let (found, error) = match shared.get_all(rt, copy, share) {
        Ok(found) => (found, None),
        Err((error, found)) => (found, Some(error)),
    };
    match text_of(alloc, pages, found, &error) {
        Ok(text) => texts.push(text).is_ok(),
        Err(_) => false,
    }
}

fn text_of(
    alloc: Global,
    pages: &[PageId],
    found: Vec<Option<(PageView, Node)>>,
    error: &Option<Error>,
) -> Result<String, AllocError> {
    let found = without_ids(alloc, pages, found)?;
    match error {
        None => format!(in alloc; "get {pages:?}: {found:?} Ok(())"),
        Some(e) => format!(in alloc; "get {pages:?}: {found:?} Err({e:?})"),
    }
}

// What was found, as an entry has it: the stamp is the greatest where the page is another than was asked for.
fn without_ids(
    alloc: Global,
    pages: &[PageId],
    found: Vec<Option<(PageView, Node)>>,
) -> Result<Vec<Option<(u64, Node)>>, AllocError> {
    let mut stamps = Vec::new(alloc);
    let mut place = 0usize;
    for one in found {
        stamps.push(match one {
            Some((token, node)) if pages.get(place) == Some(&token.pid()) => {
                Some((token.ts(), node))
            }
            Some((_, node)) => Some((u64::MAX, node)),
            None => None,
        })?;
        place = place.wrapping_add(1);
    }
    Ok(stamps)
}
