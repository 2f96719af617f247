//! What scripts do to a cache over any log, and what each step shows.

use crate::calls::{
    adds, adds_between, adds_from, attempts, counted, draws, flushes, frees, gives, idles,
    is_printed, links_from, links_so, moves, names_and_stamp, opens, replaces_by_empty,
    replaces_by_pair, root_of, size_of, swaps,
};
use crate::measuring::{measured, measures};
use crate::saying::{Said, is_unsaid, says, says_leaves};
use crate::sights::gets;
use sled_base::{Lsn, PageId, Why};
use sled_log::Log;
use sled_node::Node;
use sled_pagecache::PageCache;
use std::alloc::Global;

/// What a call returned.
#[derive(Clone, Copy, PartialEq)]
pub enum Outcome {
    Done,
    /// A new page, at this stamp.
    Made(PageId, u64),
    /// The new stamp of the page.
    At(u64),
    /// The current stamp of the page. A link or a node is returned as it was given.
    Stale(u64),
    /// There is no such page.
    Gone,
    /// The root that a name has instead of the expected one.
    Is(Option<PageId>),
    /// A generated id, or the root of a tree.
    Id(u64),
    Refused(Why),
    /// The node doesn't accept the link.
    Unaccepted,
    /// A write failed.
    Faulty,
    /// A read failed.
    Unread,
    /// An allocation failed.
    Unmade,
    Other,
}

/// A link.
#[derive(Clone, Copy)]
pub enum Change {
    Set(&'static [u8], &'static [u8]),
    Del(&'static [u8]),
    Intend(PageId),
    Confirm,
    Cap,
}

/// What a get of a page finds.
#[derive(Clone, Copy)]
pub enum Sight {
    /// A node of no pairs, at this stamp.
    Empty(u64),
    /// A node of one pair, of this stored key and this value, at this stamp.
    Pair(u64, &'static [u8], &'static [u8]),
    /// A leaf of these pairs, at this stamp.
    Pairs(u64, &'static [(&'static [u8], &'static [u8])]),
    /// A node of this many pairs, at this stamp.
    Holds(u64, usize),
    /// A node that maps each of these letters to the value of `PAIR`, and has no other key, at this stamp.
    Letters(u64, &'static [u8]),
    /// A node of the keys between these bounds, of which the first byte is a prefix.
    Between(&'static [u8], &'static [u8]),
    /// An index that leads each key to this leaf, at this stamp.
    Leads(u64, PageId),
    /// No page.
    Absent,
    /// A page whose node is refused, since the page is the cache's own.
    Reserved,
    /// A failed read.
    Unread,
    /// An earlier write error.
    Unwritten,
}

/// A link that sets the pair of most pages.
pub const PAIR: Change = Change::Set(b"b", b"v");

/// A name of 23 bytes.
pub const LONG: &[u8] = &[b'l'; 23];

/// A step of a script, and what it shows.
#[derive(Clone, Copy)]
pub enum Step {
    /// The log held a cache before, or didn't.
    Recovered(bool),
    /// An empty leaf goes to this page, at this stamp.
    Adds(PageId, u64),
    /// An empty leaf goes to each page from this one up to but not including the other, at stamp 1.
    AddsFrom(PageId, PageId),
    AddsNone(Outcome),
    /// An empty leaf of the keys between these bounds, of which the first byte is a prefix, goes to this page, at stamp 1.
    AddsBetween(PageId, &'static [u8], &'static [u8]),
    /// A link by a token of this stamp.
    Links(PageId, u64, Change, Outcome),
    /// Links of one pair, by tokens of this stamp and the following ones; the last number is how many.
    LinksFrom(PageId, u32, u32),
    /// A replacement by an empty leaf, by a token of this stamp.
    Replaces(PageId, u64, Outcome),
    /// A replacement by a leaf of one pair, by a token of this stamp.
    ReplacesByPair(PageId, u64, Outcome),
    Frees(PageId, u64, Outcome),
    Gets(PageId, Sight),
    /// A swap of the root of a name.
    Swaps(&'static [u8], Option<PageId>, Option<PageId>, Outcome),
    /// The opening of the tree of that name.
    Opens(&'static [u8], Outcome),
    /// The name has this root.
    Finds(&'static [u8], PageId),
    /// The name has no root, and the error holds the name.
    Lacks(&'static [u8]),
    /// There are this many names, on a page with this stamp.
    Has(usize, u64),
    /// Ids are generated, from this one on; the last number is how many.
    Gives(u64, u64),
    /// No id is generated.
    Refuses(Outcome),
    /// The counter is this, on a page with this stamp.
    Counts(u64, u64),
    /// A write failed, so the counter isn't returned.
    Hides,
    /// The log takes this many bytes.
    Takes(u64),
    Flushes,
    /// A flush writes this many bytes.
    Writes(usize),
    /// The log takes the first number of bytes, and the pages would take the second.
    Measures(u64, u128),
    /// Measuring the pages fails.
    Unmeasured(Outcome),
    /// This many messages are due, one after another, and no move fails.
    Moves(u32),
    /// No message is due.
    Idles,
    /// A message is due, and moving its page fails.
    Unmoved(Outcome),
    /// A snapshot has this durable end of the log, and these pages.
    Says(Lsn, &'static [Said]),
    /// A snapshot of a log in memory has this durable end, and after the system pages only this many empty leaves.
    SaysLeaves(Lsn, u64),
    /// A write failed, so a flush, the size of the log, the size of the pages and a snapshot return that error.
    Faults,
    /// The cache prints as this text.
    Prints(&'static str),
    /// Opening the cache fails.
    Unopened(Outcome),
    /// The cache is reopened over its log.
    Reopens,
    /// The log was read this often, and the cache is reopened over it.
    Reads(u64),
    /// A crash keeps this many of the pending events, and the cache is reopened.
    Crashes(usize),
}

/// Whether a step showed what it should, or None if an allocation failed.
pub type Shown = Option<bool>;

fn is(found: Outcome, wanted: &Outcome) -> Shown {
    if found == Outcome::Unmade {
        return None;
    }
    Some(found == *wanted)
}

/// Runs a step, and returns whether it shows what it should, or None if an allocation failed.
pub fn shows_page<L: Log>(alloc: Global, cache: &mut PageCache<L>, step: &Step) -> Shown {
    match step {
        Step::Adds(pid, stamp) => is(
            adds(cache, Node::default(alloc)),
            &Outcome::Made(*pid, *stamp),
        ),
        Step::AddsNone(outcome) => is(adds(cache, Node::default(alloc)), outcome),
        Step::AddsFrom(first, end) => Some(adds_from(alloc, cache, *first, *end)),
        Step::AddsBetween(pid, lo, hi) => is(
            adds_between(alloc, cache, lo, hi),
            &Outcome::Made(*pid, 1),
        ),
        Step::Links(pid, stamp, change, outcome) => {
            is(links_so(alloc, cache, *pid, *stamp, change), outcome)
        }
        Step::LinksFrom(pid, stamp, count) => Some(links_from(alloc, cache, *pid, *stamp, *count)),
        Step::Replaces(pid, stamp, outcome) => {
            is(replaces_by_empty(alloc, cache, *pid, *stamp), outcome)
        }
        Step::ReplacesByPair(pid, stamp, outcome) => {
            is(replaces_by_pair(alloc, cache, *pid, *stamp), outcome)
        }
        Step::Frees(pid, stamp, outcome) => is(frees(cache, *pid, *stamp), outcome),
        Step::Gets(pid, sight) => gets(cache, *pid, sight),
        _ => shows_rest(alloc, cache, step),
    }
}

// The same of roots, ids and the log.
fn shows_rest<L: Log>(alloc: Global, cache: &mut PageCache<L>, step: &Step) -> Shown {
    match step {
        Step::Swaps(name, old, new, outcome) => is(swaps(cache, name, *old, *new), outcome),
        Step::Opens(name, outcome) => is(opens(alloc, cache, name), outcome),
        Step::Refuses(outcome) => is(draws(cache), outcome),
        Step::Finds(name, root) => Some(root_of(cache, name) == Some(Some(*root))),
        Step::Lacks(name) => Some(root_of(cache, name) == Some(None)),
        Step::Has(names, stamp) => Some(names_and_stamp(cache) == Some((*names, *stamp))),
        Step::Gives(first, count) => Some(gives(cache, *first, *count)),
        Step::Counts(counter, stamp) => Some(counted(cache) == Some(Some((*counter, *stamp)))),
        Step::Hides => Some(counted(cache) == Some(None)),
        Step::Recovered(was) => Some(cache.was_recovered() == *was),
        Step::Takes(bytes) => Some(size_of(cache) == Ok(*bytes)),
        Step::Flushes => Some(flushes(cache).is_ok()),
        Step::Writes(bytes) => Some(flushes(cache) == Ok(*bytes)),
        Step::Prints(text) => Some(is_printed(alloc, cache, text)),
        _ => shows_log(cache, step),
    }
}

// The same of what the cache takes, and of where its pages lie.
fn shows_log<L: Log>(cache: &mut PageCache<L>, step: &Step) -> Shown {
    match step {
        Step::Measures(bytes, pages) => measures(cache, *bytes, *pages),
        Step::Unmeasured(outcome) => Some(measured(cache) == Err(*outcome)),
        Step::Moves(count) => Some(moves(cache, *count)),
        Step::Idles => Some(idles(cache)),
        Step::Unmoved(outcome) => Some(attempts(cache) == Err(*outcome)),
        Step::Says(stable, pages) => says(cache, *stable, pages),
        Step::SaysLeaves(stable, leaves) => says_leaves(cache, *stable, *leaves),
        Step::Faults => Some(
            flushes(cache) == Err(Outcome::Faulty)
                && size_of(cache) == Err(Outcome::Faulty)
                && measured(cache) == Err(Outcome::Faulty)
                && is_unsaid(cache, Outcome::Faulty),
        ),
        _ => Some(false),
    }
}

/// Runs a step, and returns whether it shows what it should; a failed allocation counts as not.
pub fn shows<L: Log>(alloc: Global, cache: &mut PageCache<L>, step: &Step) -> bool {
    shows_page(alloc, cache, step) == Some(true)
}

/// Runs steps, and returns how many show what they should before the first that doesn't.
pub fn shown<L: Log>(alloc: Global, cache: &mut PageCache<L>, steps: &[Step]) -> usize {
    for (done, step) in steps.iter().enumerate() {
        if !shows(alloc, cache, step) {
            return done;
        }
    }
    steps.len()
}
