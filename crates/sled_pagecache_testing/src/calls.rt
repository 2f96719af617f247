//! Calls of a cache over any log, and what they return as an outcome.

ghost use Rattle.std.specs.Prelude.{◌≡◌};

use crate::nodes::{node_between, set};
use crate::steps::{Change, Outcome, PAIR};
use sled_base::{Bug, Device, Error, IVec, PageId};
use sled_log::Log;
use sled_node::{Link, Node};
use sled_pagecache::{PageCache, PageView, open_tree};
use std::alloc::{AllocError, Global};

/// The results of a link, and below those of a replacement.
type Linked = Result<Result<PageView, Option<(PageView, Link)>>, Error>;

type Replaced = Result<Result<PageView, Option<(PageView, Node)>>, Error>;

/// Converts an error to an outcome.
pub fn outcome_of(error: &Error) -> Outcome {
    match error {
        Error::Unsupported(why) => Outcome::Refused(*why),
        Error::ReportableBug(Bug::LinkRefused) => Outcome::Unaccepted,
        Error::Io(Device::Write) => Outcome::Faulty,
        Error::Io(Device::Read) => Outcome::Unread,
        Error::OutOfMemory => Outcome::Unmade,
        _ => Outcome::Other,
    }
}

// ---- pages

/// Adds a page, and returns its id and stamp.
pub fn adds<L: Log>(cache: &mut PageCache<L>, node: Node) -> Outcome
    ensures { cache.new.batch ≡ cache.old.batch }
{
    match cache.allocate(node) {
        Ok((pid, token)) if token.pid() == pid => Outcome::Made(pid, token.ts()),
        Ok(_) => Outcome::Other,
        Err(error) => outcome_of(&error),
    }
}

/// Adds empty leaves, and returns whether they go to the pages from `first` up to but not including `end`, in order and at stamp 1.
pub fn adds_from<L: Log>(
    alloc: Global,
    cache: &mut PageCache<L>,
    first: PageId,
    end: PageId,
) -> bool {
    for pid in first..end {
        if adds(cache, Node::default(alloc)) != Outcome::Made(pid, 1) {
            return false;
        }
    }
    true
}

/// Adds an empty leaf of the keys between these bounds.
pub fn adds_between<L: Log>(
    alloc: Global,
    cache: &mut PageCache<L>,
    lo: &[u8],
    hi: &[u8],
) -> Outcome {
    match node_between(alloc, lo, hi) {
        Ok(Some(node)) => adds(cache, node),
        _ => Outcome::Other,
    }
}

fn link_of(alloc: Global, change: &Change) -> Result<Link, AllocError> {
    match *change {
        Change::Set(key, value) => set(alloc, key, value),
        Change::Del(key) => Ok(Link::Del(IVec::from_slice(alloc, key)?)),
        Change::Intend(pid) => Ok(Link::ParentMergeIntention(pid)),
        Change::Confirm => Ok(Link::ParentMergeConfirm),
        Change::Cap => Ok(Link::ChildMergeCap),
    }
}

/// Returns the outcome of a swap of a page by a link or a node that equals `same`.
pub fn outcome_of_swap<R: PartialEq>(
    answer: &Result<Result<PageView, Option<(PageView, R)>>, Error>,
    pid: PageId,
    same: &R,
) -> Outcome {
    match answer {
        Ok(Ok(token)) if token.pid() == pid => Outcome::At(token.ts()),
        Ok(Err(Some((present, back)))) if present.pid() == pid && *back == *same => {
            Outcome::Stale(present.ts())
        }
        Ok(Err(None)) => Outcome::Gone,
        Err(error) => outcome_of(error),
        _ => Outcome::Other,
    }
}

/// Links a page by the token of this stamp. `same` equals the link, to compare with what the call returns.
pub fn links<L: Log>(
    cache: &mut PageCache<L>,
    pid: PageId,
    stamp: u64,
    link: Link,
    same: &Link,
) -> Outcome
    ensures { cache.new.batch ≡ cache.old.batch }
{
    let answer = cache.link(pid, PageView::new(pid, stamp), link);
    let outcome = outcome_of_swap(&answer, pid, same);
    let_go(answer);
    outcome
}

fn let_go(_answer: Linked) {}

/// Links a page by the link of a change and a token of this stamp.
pub fn links_so<L: Log>(
    alloc: Global,
    cache: &mut PageCache<L>,
    pid: PageId,
    stamp: u64,
    change: &Change,
) -> Outcome
    ensures { cache.new.batch ≡ cache.old.batch }
{
    match (link_of(alloc, change), link_of(alloc, change)) {
        (Ok(link), Ok(same)) => links(cache, pid, stamp, link, &same),
        _ => Outcome::Unmade,
    }
}

/// Links a page `links` times by one pair, and returns whether each succeeds: the first by the token of stamp `first`, each other by the
/// token of the next stamp.
pub fn links_from<L: Log>(
    alloc: Global,
    cache: &mut PageCache<L>,
    pid: PageId,
    first: u32,
    links: u32,
) -> bool {
    for before in 0..links {
        let old = u64::from(first) + u64::from(before);
        if links_so(alloc, cache, pid, old, &PAIR) != Outcome::At(old + 1) {
            return false;
        }
    }
    true
}

/// Replaces a page by the token of this stamp. `same` equals the node, to compare with what the call returns.
pub fn replaces<L: Log>(
    cache: &mut PageCache<L>,
    pid: PageId,
    stamp: u64,
    node: Node,
    same: &Node,
) -> Outcome
    ensures { cache.new.batch ≡ cache.old.batch }
{
    let answer = cache.replace(pid, PageView::new(pid, stamp), node);
    let outcome = outcome_of_swap(&answer, pid, same);
    let_replaced_go(answer);
    outcome
}

fn let_replaced_go(_answer: Replaced) {}

/// Replaces a page by an empty leaf and a token of this stamp.
pub fn replaces_by_empty<L: Log>(
    alloc: Global,
    cache: &mut PageCache<L>,
    pid: PageId,
    stamp: u64,
) -> Outcome {
    let same = Node::default(alloc);
    replaces(cache, pid, stamp, Node::default(alloc), &same)
}

// A leaf of one pair.
fn leaf_of_pair(alloc: Global) -> Option<Node> {
    let mut node = Node::default(alloc);
    let link = set(alloc, b"k", b"v").ok()?;
    let is_put = node.accepts(&link) && node.apply(&link).is_ok();
    if is_put { Some(node) } else { None }
}

/// Replaces a page by a leaf of one pair and a token of this stamp.
pub fn replaces_by_pair<L: Log>(
    alloc: Global,
    cache: &mut PageCache<L>,
    pid: PageId,
    stamp: u64,
) -> Outcome
    ensures { cache.new.batch ≡ cache.old.batch }
{
    match (leaf_of_pair(alloc), leaf_of_pair(alloc)) {
        (Some(node), Some(same)) => replaces(cache, pid, stamp, node, &same),
        _ => Outcome::Unmade,
    }
}

/// Frees a page by a token of this stamp.
pub fn frees<L: Log>(cache: &mut PageCache<L>, pid: PageId, stamp: u64) -> Outcome {
    let answer = cache.free(pid, PageView::new(pid, stamp));
    outcome_of_swap(&answer, pid, &())
}

// ---- roots and ids

/// Swaps the root of a name.
pub fn swaps<L: Log>(
    cache: &mut PageCache<L>,
    name: &[u8],
    old: Option<PageId>,
    new: Option<PageId>,
) -> Outcome {
    match cache.cas_root_in_meta(name, old, new) {
        Ok(Ok(())) => Outcome::Done,
        Ok(Err(root)) => Outcome::Is(root),
        Err(error) => outcome_of(&error),
    }
}

/// Opens the tree of a name, and returns its root.
pub fn opens<L: Log>(alloc: Global, cache: &mut PageCache<L>, name: &[u8]) -> Outcome {
    let Ok(name) = IVec::from_slice(alloc, name) else {
        return Outcome::Unmade;
    };
    match open_tree(cache, name) {
        Ok(root) => Outcome::Id(root),
        Err(error) => outcome_of(&error),
    }
}

/// Returns the root of a name: `Some(None)` if the name has none and the error holds the name, and None for any other error.
pub fn root_of<L: Log>(cache: &PageCache<L>, name: &[u8]) -> Option<Option<PageId>> {
    match cache.meta_pid_for_name(name) {
        Ok(root) => Some(Some(root)),
        Err(Error::CollectionNotFound(missing)) if missing.as_slice() == name => Some(None),
        Err(_) => None,
    }
}

/// Returns how many names there are, and the stamp of their page.
pub fn names_and_stamp<L: Log>(cache: &PageCache<L>) -> Option<(usize, u64)> {
    match cache.get_meta() {
        Ok(view) if view.token().pid() == 0 => Some((view.meta().len(), view.token().ts())),
        _ => None,
    }
}

/// Generates an id.
pub fn draws<L: Log>(cache: &mut PageCache<L>) -> Outcome {
    match cache.generate_id_inner() {
        Ok(id) => Outcome::Id(id),
        Err(error) => outcome_of(&error),
    }
}

/// Generates `count` ids, and returns whether they are `first` and the numbers after it.
pub fn gives<L: Log>(cache: &mut PageCache<L>, first: u64, count: u64) -> bool {
    for i in 0..count {
        if draws(cache) != Outcome::Id(first.wrapping_add(i)) {
            return false;
        }
    }
    true
}

/// Returns the counter and the stamp of its page, or `Some(None)` after a write error.
pub fn counted<L: Log>(cache: &PageCache<L>) -> Option<Option<(u64, u64)>> {
    match cache.get_idgen() {
        Ok((token, counter)) if token.pid() == 1 => Some(Some((counter, token.ts()))),
        Err(Error::Io(Device::Write)) => Some(None),
        _ => None,
    }
}

// ---- the log

/// Flushes the cache, and returns how many bytes that writes.
pub fn flushes<L: Log>(cache: &mut PageCache<L>) -> Result<usize, Outcome> {
    match cache.flush() {
        Ok(bytes) => Ok(bytes),
        Err(error) => Err(outcome_of(&error)),
    }
}

/// Returns how many bytes the log takes.
pub fn size_of<L: Log>(cache: &PageCache<L>) -> Result<u64, Outcome> {
    match cache.size_on_disk() {
        Ok(bytes) => Ok(bytes),
        Err(error) => Err(outcome_of(&error)),
    }
}

/// Returns whether the cache prints as this text.
pub fn is_printed<L: Log>(alloc: Global, cache: &PageCache<L>, text: &str) -> bool {
    match format!(in alloc; "{cache:?}") {
        Ok(shown) => shown.as_str() == text,
        Err(_) => false,
    }
}

/// Attempts a move, and returns whether a message was due, or the outcome of the error.
pub fn attempts<L: Log>(cache: &mut PageCache<L>) -> Result<bool, Outcome>
    ensures { cache.new.batch ≡ cache.old.batch }
{
    match cache.attempt_gc() {
        Ok(moved) => Ok(moved),
        Err(error) => Err(outcome_of(&error)),
    }
}

/// Attempts a move, and returns whether a message was due and there was no error.
pub fn moves_one<L: Log>(cache: &mut PageCache<L>) -> bool
    ensures { cache.new.batch ≡ cache.old.batch }
{
    match cache.attempt_gc() {
        Ok(moved) => moved,
        Err(_) => false,
    }
}

/// Attempts a move, and returns whether no message was due and there was no error.
pub fn idles<L: Log>(cache: &mut PageCache<L>) -> bool
    ensures { cache.new.batch ≡ cache.old.batch }
{
    match cache.attempt_gc() {
        Ok(moved) => !moved,
        Err(_) => false,
    }
}

/// Attempts `count` moves, and returns whether a message was due for each and there was no error.
pub fn moves<L: Log>(cache: &mut PageCache<L>, count: u32) -> bool {
    for _ in 0..count {
        if !moves_one(cache) {
            return false;
        }
    }
    true
}
