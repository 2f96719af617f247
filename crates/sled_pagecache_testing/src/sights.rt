//! What a get of a page finds.

use crate::nodes::is_pair;
use crate::steps::{Shown, Sight};
use sled_base::{Device, PageId, Refusal, Why};
use sled_log::Log;
use sled_node::{Item, Node};
use sled_pagecache::PageCache;

/// Returns whether a get of a page finds this, or None if an allocation failed.
pub fn gets<L: Log>(cache: &mut PageCache<L>, pid: PageId, sight: &Sight) -> Shown {
    match cache.get(pid) {
        Ok(Some(view)) => {
            let token = view.token();
            Some(token.pid() == pid && is_seen(token.ts(), view.node(), sight))
        }
        Ok(None) => Some(matches!(*sight, Sight::Absent)),
        Err(refusal) => is_refused(refusal, sight),
    }
}

fn is_seen(stamp: u64, node: &Node, sight: &Sight) -> bool {
    match *sight {
        Sight::Empty(at) => stamp == at && node.len() == 0,
        Sight::Pair(at, key, value) => stamp == at && is_pair(node, key, value),
        Sight::Pairs(at, pairs) => stamp == at && are_pairs(node, pairs),
        Sight::Holds(at, pairs) => stamp == at && node.len() == pairs,
        Sight::Letters(at, letters) => stamp == at && is_spelled(node, letters),
        Sight::Between(lo, hi) => {
            node.prefix_len() == 1 && node.lo().as_slice() == lo && node.hi().as_slice() == hi
        }
        Sight::Leads(at, leaf) => stamp == at && is_index_over(node, leaf),
        _ => false,
    }
}

fn are_pairs(node: &Node, pairs: &[(&[u8], &[u8])]) -> bool {
    if node.len() != pairs.len() {
        return false;
    }
    for (number, (key, value)) in pairs.iter().enumerate() {
        let (stored, item) = node.pair(number);
        if stored != *key || item != Item::Value(value) {
            return false;
        }
    }
    true
}

fn is_spelled(node: &Node, letters: &[u8]) -> bool {
    if node.len() != letters.len() {
        return false;
    }
    for (number, letter) in letters.iter().enumerate() {
        let (stored, item) = node.pair(number);
        if stored != [*letter].as_slice() || item != Item::Value(b"v") {
            return false;
        }
    }
    true
}

fn is_index_over(node: &Node, leaf: PageId) -> bool {
    if node.len() != 1 || !node.lo().is_empty() || !node.hi().is_empty() {
        return false;
    }
    let (stored, item) = node.pair(0);
    stored.is_empty() && item == Item::Child(leaf)
}

fn is_refused(refusal: Refusal, sight: &Sight) -> Shown {
    match refusal {
        Refusal::OutOfMemory => None,
        Refusal::Unsupported(Why::ReservedId) => Some(matches!(*sight, Sight::Reserved)),
        Refusal::Io(Device::Read) => Some(matches!(*sight, Sight::Unread)),
        Refusal::Io(Device::Write) => Some(matches!(*sight, Sight::Unwritten)),
        _ => Some(false),
    }
}
