//! How large a node is, and whether it should be split or merged.

ghost use Rattle.std.specs.Prelude.{◌≡◌, ◌↔◌, ◌<◌, ◌≤◌, ◌^◌, IsTrue};
ghost use Rattle.sled_node.specs.Pairs.{HasPairs};
ghost use Rattle.sled_node.specs.Sizes.{IsUnmarked, ShouldSplit, ShouldMerge, node_size, data_size, leaf_size, index_size};

use super::{Data, Leaf, Node};
use sled_base::{IVec, PageId};

// A leaf with more pairs is to be split.
const MOST_LEAF_PAIRS: usize = 16;

// An index with more pairs is to be split.
const MOST_INDEX_PAIRS: usize = 256;

// A leaf with fewer pairs is to be merged.
const FEWEST_LEAF_PAIRS: usize = 4;

// An index with fewer pairs is to be merged.
const FEWEST_INDEX_PAIRS: usize = 64;

// How many bytes count for a node, its bounds and pairs aside.
const NODE_BYTES: u64 = 128;

// How many bytes count for a page behind a key.
const PAGE_BYTES: u64 = 8;

impl Node {
    /// Returns whether the node should be split: it is a leaf with more than 16 pairs or an index with more than 256, and neither a
    /// child of the node nor the node itself is being merged.
    pub fn should_split(&self) -> bool
        ensures { IsTrue result ↔ ShouldSplit self.now }
    {
        let most = if self.is_index() {
            MOST_INDEX_PAIRS
        } else {
            MOST_LEAF_PAIRS
        };
        self.len() > most && self.is_unmarked()
    }

    /// Returns whether the node should be merged: it is a leaf with fewer than 4 pairs or an index with fewer than 64, and neither a
    /// child of the node nor the node itself is being merged.
    pub fn should_merge(&self) -> bool
        ensures { IsTrue result ↔ ShouldMerge self.now }
    {
        let fewest = if self.is_index() {
            FEWEST_INDEX_PAIRS
        } else {
            FEWEST_LEAF_PAIRS
        };
        self.len() < fewest && self.is_unmarked()
    }

    /// Returns whether a child of the node may be merged: no child is being merged, nor is the node itself.
    pub fn can_merge_child(&self) -> bool
        ensures { IsTrue result ↔ IsUnmarked self.now }
    {
        self.is_unmarked()
    }

    /// Returns the size of the node in bytes: 128, the lengths of its bounds, and for each pair the length of the stored key and that
    /// of the value, or 8 for a page.
    pub fn rss(&self) -> u64
        ensures value { result ≡ node_size self.now }
        ensures bound { result < 2 ^ 57 }
    {
        NODE_BYTES + self.lo.len() as u64 + self.hi.len() as u64 + self.contents.rss()
    }

    // Whether neither a child of the node nor the node itself is being merged.
    fn is_unmarked(&self) -> bool
        ensures { IsTrue result ↔ IsUnmarked self.now }
    {
        self.merging_child.is_none() && !self.merging
    }
}

impl Data {
    /// Returns the size of the pairs in bytes: for each the length of the stored key and that of the value, or 8 for a page.
    pub fn rss(&self) -> u64
        ensures value { result ≡ data_size self.now }
        ensures bound { result ≤ 2 ^ 56 }
    {
        match self {
            Data::Leaf(leaf) => size_of_values(leaf),
            Data::Index(index) => size_of_pages(index.pairs()),
        }
    }
}

// How large the pairs of a leaf are.
fn size_of_values(leaf: &Leaf) -> u64
    ensures value { result ≡ leaf_size leaf.now }
    ensures bound { result ≤ 2 ^ 56 }
{
    let _ = leaf.strings();
    let mut size = 0;
    for i in 0..leaf.len() {
        let (key, value) = leaf.pair(i);
        size += key.len() as u64 + value.len() as u64;
    }
    size
}

// How large the pairs of an index are.
fn size_of_pages(pairs: &[(IVec, PageId)]) -> u64
    requires { HasPairs (λ page. page < 2 ^ 64) pairs.now }
    ensures value { result ≡ index_size pairs.now }
    ensures bound { result ≤ 2 ^ 56 }
{
    let mut size = 0;
    for pair in pairs {
        size += pair.0.len() as u64 + PAGE_BYTES;
    }
    size
}
