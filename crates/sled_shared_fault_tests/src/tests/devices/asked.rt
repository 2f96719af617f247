// What one call answers as a number: a page, a stamp, an id, a length, or why there is none.

ghost use Rattle.std.specs.Prelude.{◌≡◌};

use super::Call::{Adds, Draws, Finds, Frees, Gets, Links, Opens, Replaces, Swaps, Together};
use super::{Call, Disked};
use sled_pagecache::sled_base::{Device, Refusal};
use sled_pagecache::{Error, IVec, Link, Log, Node, PageCache, PageId, PageView, Why, open_tree};
use sled_shared::{Share, SharedPageCache, Swap, SwapAnswer, Tally};
use std::alloc::{AllocError, Global};
use std::sync::Wait;

// An answer that isn't looked at.
const OTHER: u64 = u64::MAX;

/// That a read failed.
pub const UNREAD: u64 = OTHER - 2;

/// That a write or a sync failed.
pub const UNWRITTEN: u64 = OTHER - 3;

/// That a page is one of the cache's own.
pub const RESERVED: u64 = OTHER - 1;

/// That a page is damaged.
pub const DAMAGED: u64 = OTHER - 4;

/// That there is no such page or name.
pub const GONE: u64 = OTHER - 5;

// To this is added the stamp that there is in place of the one that was asked for.
const STALE: u64 = 1 << 32;

const NAME: &[u8] = b"t";

/// Why there is no answer.
pub fn reason_of(error: &Error) -> u64 {
    match error {
        Error::Io(Device::Read) => UNREAD,
        Error::Io(Device::Write) => UNWRITTEN,
        Error::CollectionNotFound(_) => GONE,
        Error::Unsupported(Why::ReservedId) => RESERVED,
        Error::Corruption(_) => DAMAGED,
        _ => OTHER,
    }
}

fn number_of(answer: &Result<u64, Error>) -> u64 {
    match answer {
        Ok(number) => *number,
        Err(error) => reason_of(error),
    }
}

fn page_of(answer: &Result<(PageId, PageView), Error>) -> u64 {
    match answer {
        Ok((pid, _)) => *pid,
        Err(error) => reason_of(error),
    }
}

fn length_of(answer: &Result<usize, Error>) -> u64 {
    match answer {
        Ok(length) => *length as u64,
        Err(error) => reason_of(error),
    }
}

fn root_of<T>(answer: &Result<Result<(), T>, Error>) -> u64 {
    match answer {
        Ok(Ok(())) => 0,
        Ok(Err(_)) => STALE,
        Err(error) => reason_of(error),
    }
}

fn ended_of<T>(answer: &Result<PageView, Option<(PageView, T)>>) -> u64 {
    match answer {
        Ok(token) => token.ts(),
        Err(Some((present, _))) => STALE.saturating_add(present.ts()),
        Err(None) => GONE,
    }
}

fn stamp_of<T>(answer: &Result<Result<PageView, Option<(PageView, T)>>, Error>) -> u64 {
    match answer {
        Ok(ended) => ended_of(ended),
        Err(error) => reason_of(error),
    }
}

fn link_of(alloc: Global) -> Result<Link, AllocError> {
    let value = IVec::from_slice(alloc, &[7; 30])?;
    Ok(Link::Set(IVec::from_slice(alloc, b"key")?, value))
}

// ---- a cache that isn't shared

/// What the call answers.
pub fn answer_of(alloc: Global, cache: &mut PageCache<Disked>, call: &Call) -> u64 {
    match *call {
        Adds => page_of(&cache.allocate(Node::default(alloc))),
        Links(pid, stamp) => match link_of(alloc) {
            Ok(link) => stamp_of(&cache.link(pid, PageView::new(pid, stamp), link)),
            Err(_) => OTHER,
        },
        Replaces(pid, stamp) => {
            stamp_of(&cache.replace(pid, PageView::new(pid, stamp), Node::default(alloc)))
        }
        Frees(pid, stamp) => stamp_of(&cache.free(pid, PageView::new(pid, stamp))),
        Gets(pid) => got(cache, pid),
        Together(stamp, other) => together(alloc, cache, stamp, other),
        _ => answer_of_names(alloc, cache, call),
    }
}

// The same of a call without a token.
fn answer_of_names(alloc: Global, cache: &mut PageCache<Disked>, call: &Call) -> u64 {
    match *call {
        Opens(name) => match IVec::from_slice(alloc, name) {
            Ok(name) => number_of(&open_tree(cache, name)),
            Err(_) => OTHER,
        },
        Swaps(old) => root_of(&cache.cas_root_in_meta(NAME, Some(old), Some(2))),
        Draws => number_of(&cache.generate_id_inner()),
        Finds => number_of(&cache.meta_pid_for_name(NAME)),
        _ => length_of(&cache.flush()),
    }
}

fn got(cache: &mut PageCache<Disked>, pid: PageId) -> u64 {
    match cache.get(pid) {
        Ok(Some(view)) => view.token().ts(),
        Ok(None) => GONE,
        Err(Refusal::Io(Device::Read)) => UNREAD,
        Err(Refusal::Io(Device::Write)) => UNWRITTEN,
        Err(_) => OTHER,
    }
}

// The stamps of both pages behind a batch, added up.
fn together(alloc: Global, cache: &mut PageCache<Disked>, stamp: u64, other: u64) -> u64 {
    if cache.batch_open() {
        return OTHER;
    }
    let mut guard = match cache.pin_log() {
        Ok(guard) => guard,
        Err(error) => return reason_of(&error),
    };
    let told = swapped(alloc, guard.cache(), stamp, other);
    if told >= GONE {
        let _ = guard.cancel();
        return told;
    }
    match guard.seal_batch() {
        Ok(()) => told,
        Err(error) => reason_of(&error),
    }
}

fn swapped<L: Log>(alloc: Global, cache: &mut PageCache<L>, stamp: u64, other: u64) -> u64
    ensures { cache.new.batch ≡ cache.old.batch }
{
    let first = stamp_of(&cache.replace(2, PageView::new(2, stamp), Node::default(alloc)));
    if first >= GONE {
        return first;
    }
    let last = stamp_of(&cache.free(3, PageView::new(3, other)));
    if last >= GONE {
        return last;
    }
    first.saturating_add(last)
}

// ---- one that is

/// What the call answers through the shared cache.
pub fn shared_answer_of<K: Tally, R: Wait>(
    rt: &R,
    alloc: Global,
    shared: &SharedPageCache<Disked, K>,
    share: &mut Share<K>,
    call: &Call,
) -> u64 {
    match *call {
        Adds => page_of(&shared.allocate(rt, Node::default(alloc), share)),
        Links(pid, stamp) => match link_of(alloc) {
            Ok(link) => stamp_of(&shared.link(rt, pid, PageView::new(pid, stamp), link, share)),
            Err(_) => OTHER,
        },
        Replaces(pid, stamp) => {
            let old = PageView::new(pid, stamp);
            stamp_of(&shared.replace(rt, pid, old, Node::default(alloc), share))
        }
        Frees(pid, stamp) => stamp_of(&shared.free(rt, pid, PageView::new(pid, stamp), share)),
        Gets(pid) => match shared.get(rt, pid, share) {
            Ok(Some((token, _))) => token.ts(),
            Ok(None) => GONE,
            Err(error) => reason_of(&error),
        },
        Together(stamp, other) => shared_together(rt, alloc, shared, share, stamp, other),
        _ => shared_answer_of_names(rt, alloc, shared, share, call),
    }
}

fn shared_answer_of_names<K: Tally, R: Wait>(
    rt: &R,
    alloc: Global,
    shared: &SharedPageCache<Disked, K>,
    share: &mut Share<K>,
    call: &Call,
) -> u64 {
    match *call {
        Opens(name) => match IVec::from_slice(alloc, name) {
            Ok(name) => number_of(&shared.open_tree(rt, name, share)),
            Err(_) => OTHER,
        },
        Swaps(old) => root_of(&shared.cas_root_in_meta(rt, NAME, Some(old), Some(2), share)),
        Draws => number_of(&shared.generate_id(rt, share)),
        Finds => number_of(&shared.meta_pid_for_name(rt, NAME, share)),
        _ => length_of(&shared.flush(rt, share)),
    }
}

fn swaps_of(alloc: Global, stamp: u64, other: u64) -> Result<Vec<Swap>, AllocError> {
    let mut swaps = Vec::new(alloc);
    swaps.push(Swap::Replace(PageView::new(2, stamp), Node::default(alloc)))?;
    swaps.push(Swap::Free(PageView::new(3, other)))?;
    Ok(swaps)
}

fn shared_together<K: Tally, R: Wait>(
    rt: &R,
    alloc: Global,
    shared: &SharedPageCache<Disked, K>,
    share: &mut Share<K>,
    stamp: u64,
    other: u64,
) -> u64 {
    let Ok(swaps) = swaps_of(alloc, stamp, other) else {
        return OTHER;
    };
    match shared.batch(rt, swaps, share) {
        Ok(answers) => sum_of(&answers),
        Err((error, _)) => reason_of(&error),
    }
}

fn sum_of(answers: &[SwapAnswer]) -> u64 {
    let mut sum = 0u64;
    for answer in answers {
        let stamp = match answer {
            SwapAnswer::Link(ended) => ended_of(ended),
            SwapAnswer::Replace(ended) => ended_of(ended),
            SwapAnswer::Free(ended) => ended_of(ended),
        };
        sum = sum.saturating_add(stamp);
    }
    sum
}
