// Each call of the cache on leaves and indexes of none to 2,000 pairs, over all keys and under a prefix, with short and long keys and
// values, whose payloads are blobs or not; and on pages by the lengths of their ids.

use super::*;
use sled_pagecache_testing::calls::{adds, flushes, links, replaces};
use sled_pagecache_testing::scripts::left_by;
use sled_pagecache_testing::steps::Outcome::{At, Made, Unaccepted};
use sled_pagecache_testing::steps::Sight::{Absent, Empty, Pair};
use sled_pagecache_testing::steps::Step::{Adds, AddsFrom, Frees, Gets, Links, Replaces, Takes};
use sled_pagecache_testing::steps::{PAIR, shown, shows};

const COUNTS: &[u32] = &[0, 1, 2, 3, 16, 17, 1_000, 2_000];

// What stands at the end of each key, and as each value: nothing, or more than is kept in place.
const NOTHING: &[u8] = b"";

const LONG: &[u8] = b"xxxxxxxxxxxxxxxxxxxxxxxxxxxxxx";

// A range of keys, with the length of the prefix.
type Range = (u8, &'static [u8], &'static [u8]);

const WHOLE: Range = (0, b"", b"");

const PREFIXED: Range = (1, b"ba", b"bz");

// Each range with each tail, and with a limit above which a payload is a blob: all payloads but those of no byte, or none.
const KINDS: &[(Range, &[u8], usize)] = &[
    (WHOLE, NOTHING, 0),
    (WHOLE, NOTHING, usize::MAX),
    (WHOLE, LONG, 0),
    (WHOLE, LONG, usize::MAX),
    (PREFIXED, NOTHING, 0),
    (PREFIXED, NOTHING, usize::MAX),
    (PREFIXED, LONG, 0),
    (PREFIXED, LONG, usize::MAX),
];

#[derive(Clone, Copy)]
struct Shape {
    is_index: bool,
    range: Range,
    tail: &'static [u8],
    blob_limit: usize,
    count: u32,
}

// ---- nodes

// The stored key at a place: a letter, eight bytes of the place, and the tail.
fn key_at(alloc: Global, tail: &[u8], place: u64) -> Result<IVec, AllocError> {
    let mut key = Vec::from_slice(alloc, b"k")?;
    key.extend_from_slice(&place.to_be_bytes())?;
    key.extend_from_slice(tail)?;
    IVec::from_vec(alloc, key)
}

// Pages of each length.
fn page_at(i: u32) -> PageId {
    1 << (i % 9 * 7)
}

fn leaf(alloc: Global, shape: &Shape) -> Result<Option<Leaf>, AllocError> {
    let mut pairs = Vec::new(alloc);
    for i in 0..shape.count {
        let key = key_at(alloc, shape.tail, u64::from(i) + 1)?;
        pairs.push((key, IVec::from_slice(alloc, shape.tail)?))?;
    }
    Leaf::from_pairs(alloc, pairs)
}

fn index(alloc: Global, shape: &Shape) -> Result<Option<Index>, AllocError> {
    let mut pairs = Vec::new(alloc);
    for i in 0..shape.count {
        let key = key_at(alloc, shape.tail, u64::from(i) + 1)?;
        pairs.push((key, page_at(i)))?;
    }
    Index::from_pairs(alloc, pairs)
}

fn contents(alloc: Global, shape: &Shape) -> Option<Data> {
    if shape.is_index {
        Some(Data::Index(index(alloc, shape).ok()??))
    } else {
        Some(Data::Leaf(leaf(alloc, shape).ok()??))
    }
}

fn node(alloc: Global, shape: &Shape) -> Option<Node> {
    let (prefix_len, lo, hi) = shape.range;
    let lo = IVec::from_slice(alloc, lo).ok()?;
    let hi = IVec::from_slice(alloc, hi).ok()?;
    let contents = contents(alloc, shape)?;
    Node::from_parts(prefix_len, None, None, false, lo, hi, contents)
}

// ---- links

#[derive(Clone, Copy)]
enum Change {
    // of a key that is in front of all others
    Set(&'static [u8]),
    Del,
    // of the page of the pair with this number
    Intend(u32),
    Confirm,
    Cap,
}

// More of each kind than a chain has links. A node takes those that it accepts, the last of which caps it.
const CHANGES: &[Change] = &[
    Change::Set(b""),
    Change::Set(b"a value of more than 22 bytes"),
    Change::Del,
    Change::Intend(0),
    Change::Confirm,
    Change::Set(b"v"),
    Change::Del,
    Change::Intend(1),
    Change::Confirm,
    Change::Set(b"v"),
    Change::Del,
    Change::Intend(2),
    Change::Confirm,
    Change::Set(b"v"),
    Change::Del,
    Change::Intend(3),
    Change::Confirm,
    Change::Set(b"v"),
    Change::Del,
    Change::Intend(4),
    Change::Confirm,
    Change::Set(b"v"),
    Change::Intend(5),
    Change::Cap,
    Change::Del,
    Change::Cap,
];

fn link_of(alloc: Global, tail: &[u8], change: &Change) -> Result<Link, AllocError> {
    Ok(match *change {
        Change::Set(value) => Link::Set(key_at(alloc, tail, 0)?, IVec::from_slice(alloc, value)?),
        Change::Del => Link::Del(key_at(alloc, tail, 0)?),
        Change::Intend(i) => Link::ParentMergeIntention(page_at(i)),
        Change::Confirm => Link::ParentMergeConfirm,
        Change::Cap => Link::ChildMergeCap,
    })
}

// Whether the page has this node at this stamp.
fn is_kept(cache: &mut Cache, pid: PageId, stamp: u32, same: &Node) -> bool {
    match cache.get(pid) {
        Ok(Some(view)) => {
            view.token() == PageView::new(pid, u64::from(stamp)) && *view.node() == *same
        }
        _ => false,
    }
}

// Links page 2, and the same node beside it, if that accepts the link; else the cache refuses it. The stamp behind it, if all is so.
fn taken(cache: &mut Cache, same: &mut Node, stamp: u32, link: Link, beside: &Link) -> Option<u32> {
    let accepts = same.accepts(beside);
    if accepts && same.apply(beside).is_err() {
        return None;
    }
    let next = stamp.saturating_add(u32::from(accepts));
    let wanted = if accepts {
        At(u64::from(next))
    } else {
        Unaccepted
    };
    let is_so = links(cache, 2, u64::from(stamp), link, beside) == wanted
        && is_kept(cache, 2, next, same);
    is_so.then_some(next)
}

fn changed(
    alloc: Global,
    cache: &mut Cache,
    same: &mut Node,
    stamp: u32,
    change: (&[u8], &Change),
) -> Option<u32> {
    match (
        link_of(alloc, change.0, change.1),
        link_of(alloc, change.0, change.1),
    ) {
        (Ok(link), Ok(beside)) => taken(cache, same, stamp, link, &beside),
        _ => None,
    }
}

// Whether page 2, at stamp 1, takes all links as the same node does.
fn is_linked(alloc: Global, cache: &mut Cache, same: &mut Node, tail: &[u8]) -> bool {
    let mut stamp = 1;
    for change in CHANGES {
        match changed(alloc, cache, same, stamp, (tail, change)) {
            Some(next) => stamp = next,
            None => return false,
        }
    }
    same.merging()
}

// ---- a page from its beginning to its end

// How many bytes the log has that holds two system pages and the node.
fn size_with(alloc: Global, node: &Node) -> Option<u64> {
    match node.serialize(alloc) {
        Ok(payload) => Some((payload.len() as u64).saturating_add(52)),
        Err(_) => None,
    }
}

// Whether a node of this shape, which is the same as that, goes to page 2 at this stamp.
fn comes(alloc: Global, cache: &mut Cache, shape: &Shape, stamp: u32, same: &Node) -> bool {
    match node(alloc, shape) {
        Some(node) => {
            adds(cache, node) == Made(2, u64::from(stamp)) && is_kept(cache, 2, stamp, same)
        }
        None => false,
    }
}

// Whether the node goes to page 2, and takes all links as the same node does.
fn is_written(alloc: Global, cache: &mut Cache, shape: &Shape, same: &mut Node) -> bool {
    let Some(size) = size_with(alloc, same) else {
        return false;
    };
    comes(alloc, cache, shape, 1, same)
        && shows(alloc, cache, &Takes(size))
        && is_linked(alloc, cache, same, shape.tail)
}

// Whether all behind the system pages is made stable, and nothing a second time.
fn is_flushed(cache: &mut Cache) -> bool {
    match (cache.size_on_disk(), flushes(cache), flushes(cache)) {
        (Ok(size), Ok(first), Ok(0)) => first as u64 == size.saturating_sub(35),
        _ => false,
    }
}

// The cache that is opened again over what was written.
fn linked(alloc: Global, shape: &Shape, same: &mut Node) -> Option<Cache> {
    let mut cache = started(alloc, shape.blob_limit)?;
    let is_so = is_written(alloc, &mut cache, shape, same);
    opened_over(alloc, CONFIG, log_if(cache, is_so)?)
}

// Whether page 2, at stamp 0, is replaced by a node of this shape, and flushed.
fn is_replaced(alloc: Global, cache: &mut Cache, shape: &Shape, same: &Node) -> bool {
    let is_so = match node(alloc, shape) {
        Some(node) => replaces(cache, 2, 0, node, same) == At(1),
        None => false,
    };
    is_so && is_kept(cache, 2, 1, same) && is_flushed(cache)
}

// The log in which page 2 has the node there that all links made, and was replaced.
fn replaced(alloc: Global, shape: &Shape, same: &Node) -> Option<MemLog> {
    let mut with_links = node(alloc, shape)?;
    let mut cache = linked(alloc, shape, &mut with_links)?;
    let is_so = is_kept(&mut cache, 2, 0, &with_links)
        && is_replaced(alloc, &mut cache, shape, same);
    log_if(cache, is_so)
}

// Whether page 2 holds the same node, and once it was freed another one.
fn ends(alloc: Global, cache: &mut Cache, shape: &Shape, same: &Node) -> bool {
    is_kept(cache, 2, 0, same)
        && shown(alloc, cache, &[Frees(2, 0, At(1)), Gets(2, Absent)]) == 2
        && comes(alloc, cache, shape, 2, same)
}

fn lasts(alloc: Global, shape: &Shape, same: &Node) -> Option<bool> {
    let mut cache = left_by(alloc, replaced(alloc, shape, same)?, 0)?;
    Some(ends(alloc, &mut cache, shape, same))
}

// Whether page 2 holds the node through all calls: it is added, linked, opened again, replaced, flushed, left by a crash, freed
// and added again.
fn is_held(alloc: Global, shape: &Shape) -> bool {
    match node(alloc, shape) {
        Some(same) => lasts(alloc, shape, &same) == Some(true),
        None => false,
    }
}

fn are_held(alloc: Global, is_index: bool, count: u32) -> bool {
    for (range, tail, blob_limit) in KINDS {
        let shape = Shape {
            is_index,
            range: *range,
            tail: *tail,
            blob_limit: *blob_limit,
            count,
        };
        if !is_held(alloc, &shape) {
            return false;
        }
    }
    true
}

#[test]
fn nodes_are_held_at_each_size(rt: HostRuntime) {
    for count in COUNTS {
        assert!(rt;
            are_held(rt.alloc(), false, *count),
            "a leaf of {count} pairs"
        );
        assert!(rt;
            are_held(rt.alloc(), true, *count),
            "an index of {count} pairs"
        );
    }
}

// ---- pages by their ids

const PAGES: &[PageId] = &[2, 3, 16, 17, 239, 240, 241, 2_286, 2_287, 2_288, 2_289];

// Whether each empty leaf at this stamp is linked, replaced, freed and added again.
fn serve(alloc: Global, cache: &mut Cache, stamp: u32) -> bool {
    let old = u64::from(stamp);
    for pid in PAGES {
        let steps = [
            Links(*pid, old, PAIR, At(old + 1)),
            Gets(*pid, Pair(old + 1, b"b", b"v")),
            Replaces(*pid, old + 1, At(old + 2)),
            Gets(*pid, Empty(old + 2)),
            Frees(*pid, old + 2, At(old + 3)),
            Gets(*pid, Absent),
            Adds(*pid, old + 4),
            Gets(*pid, Empty(old + 4)),
        ];
        if shown(alloc, cache, &steps) != steps.len() {
            return false;
        }
    }
    true
}

// Whether they do so in a new cache, and in one that is opened again over its log.
fn serve_twice(alloc: Global) -> Option<bool> {
    let mut cache = started(alloc, 512)?;
    let is_so = shows(alloc, &mut cache, &AddsFrom(2, 2_290)) && serve(alloc, &mut cache, 1);
    let mut cache = opened_over(alloc, CONFIG, log_if(cache, is_so)?)?;
    Some(serve(alloc, &mut cache, 0))
}

#[test]
fn pages_serve_at_each_id(rt: HostRuntime) {
    assert_eq!(rt; serve_twice(rt.alloc()), Some(true));
}
