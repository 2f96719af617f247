//! What a snapshot of a cache contains.

use crate::calls::outcome_of;
use crate::steps::{Outcome, Shown};
use sled_base::DiskPtr::Inline;
use sled_base::{DiskPtr, Error, Lsn, PageState};
use sled_log::Log;
use sled_pagecache::{PageCache, Snapshot};

/// A page in a snapshot: the places and the sizes of its messages, or, if it is free, the place of the message that freed it. The lsn of
/// each message is its place.
#[derive(Clone, Copy)]
pub enum Said {
    Of(&'static [(DiskPtr, u64)]),
    Freed(u64),
}

// Whether a message is said so.
fn is_place(said: (Lsn, DiskPtr, u64), place: (DiskPtr, u64)) -> bool {
    let (lsn, pointer, size) = said;
    (pointer, size) == place && u64::try_from(lsn) == Ok(pointer.lid())
}

// Whether a page is said so.
fn is_said(state: &PageState, said: &Said) -> bool {
    match (state, said) {
        (PageState::Free(lsn, pointer), Said::Freed(place)) => {
            is_place((*lsn, *pointer, 17), (Inline(*place), 17))
        }
        (PageState::Present { base, frags }, Said::Of([first, rest @ ..])) => {
            is_place(*base, *first) && are_places(frags, rest)
        }
        _ => false,
    }
}

fn are_places(said: &[(Lsn, DiskPtr, u64)], places: &[(DiskPtr, u64)]) -> bool {
    if said.len() != places.len() {
        return false;
    }
    for (number, place) in places.iter().enumerate() {
        if !is_place(said[number], *place) {
            return false;
        }
    }
    true
}

// Whether all pages are said so, in a log that has no segments.
fn are_said(snapshot: &Snapshot, stable: Lsn, pages: &[Said]) -> bool {
    if snapshot.stable_lsn != Some(stable)
        || snapshot.active_segment.is_some()
        || snapshot.pt.len() != pages.len()
    {
        return false;
    }
    for (pid, said) in pages.iter().enumerate() {
        if !is_said(&snapshot.pt[pid], said) {
            return false;
        }
    }
    true
}

/// Returns whether a snapshot has this durable end and these pages, or None if an allocation failed.
pub fn says<L: Log>(cache: &PageCache<L>, stable: Lsn, pages: &[Said]) -> Shown {
    match cache.take_fuzzy_snapshot() {
        Ok(snapshot) => Some(are_said(&snapshot, stable, pages)),
        Err(Error::OutOfMemory) => None,
        Err(_) => Some(false),
    }
}

// Whether the pages from 2 on are so many, of one message each, one behind the other.
fn are_leaves(snapshot: &Snapshot, stable: Lsn, leaves: u64) -> bool {
    let count = snapshot.pt.len();
    if snapshot.stable_lsn != Some(stable) || count < 2 || (count - 2) as u64 != leaves {
        return false;
    }
    let mut place = 35;
    for state in &snapshot.pt[2..] {
        if !is_leaf(state, place) {
            return false;
        }
        place = place.wrapping_add(25);
    }
    true
}

fn is_leaf(state: &PageState, place: u64) -> bool {
    match state {
        PageState::Present { base, frags } => {
            frags.is_empty() && is_place(*base, (Inline(place), 25))
        }
        PageState::Free(..) => false,
    }
}

/// Returns whether a snapshot has this durable end and this many empty leaves after the system pages, or None if an allocation failed.
pub fn says_leaves<L: Log>(cache: &PageCache<L>, stable: Lsn, leaves: u64) -> Shown {
    match cache.take_fuzzy_snapshot() {
        Ok(snapshot) => Some(are_leaves(&snapshot, stable, leaves)),
        Err(Error::OutOfMemory) => None,
        Err(_) => Some(false),
    }
}

/// Returns whether a snapshot fails with this outcome.
pub fn is_unsaid<L: Log>(cache: &PageCache<L>, outcome: Outcome) -> bool {
    match cache.take_fuzzy_snapshot() {
        Ok(_) => false,
        Err(error) => outcome_of(&error) == outcome,
    }
}
