//! The children of an index: which one a key leads to, and how one is added.

ghost use Rattle.std.specs.Prelude.{◌≡◌, ◌≢◌, ◌↔◌, ◌<◌, ◌^◌, [], ◌∷◌, map, IsTrue, IfOk, IsOk, OnErr};
ghost use Rattle.sled_node.specs.Pairs.{IsWithinLimit, IsAscending, HasPairs};
ghost use Rattle.sled_node.specs.Node.{Child};
ghost use Rattle.sled_node.specs.Inserts.{HasKey, inserted};
ghost use Rattle.sled_node.specs.Children.{index_of, BeginsAtMost, HasChildFor, IsLeadingPair, AcceptsChild, with_child};

use super::pairs::is_below;
use super::{Data, Index, MAX_BYTES, Node};
use sled_base::{IVec, PageId};
use std::alloc::{AllocError, Global};

impl Node {
    /// Returns an index over all keys, which leads to one child. An error means that it could not be allocated.
    pub fn new_root(alloc: Global, child: PageId) -> Result<Node, AllocError>
        ensures { IfOk result (λ root. root ≡ index_of (([], Child child) ∷ [])) }
    {
        let pairs = vec![in alloc; (IVec::default(), child)]?;
        Ok(index_over_all(pairs))
    }

    /// Returns an index over all keys, which leads to `left` below the key `at`, and to `right` from that key on.
    ///
    /// The key must not be empty, nor longer than [`MAX_BYTES`]. An error means that the index could not be allocated.
    pub fn new_hoisted_root(
        alloc: Global,
        left: PageId,
        at: IVec,
        right: PageId,
    ) -> Result<Node, AllocError>
        requires some { at ≢ [] }
        requires limit { IsWithinLimit at }
        ensures { IfOk result
            (λ root. root ≡ index_of (([], Child left) ∷ (at, Child right) ∷ [])) }
    {
        let pairs = vec![in alloc; (IVec::default(), left), (at, right)]?;
        Ok(index_over_all(pairs))
    }

    /// Returns whether this is an index with the key in its range, whose first whole key isn't above the key.
    pub fn has_child_for(&self, key: &[u8]) -> bool
        ensures { IsTrue result ↔ HasChildFor self.now key.now }
    {
        match &self.contents {
            Data::Leaf(_) => false,
            Data::Index(index) => {
                self.contains_key(key) && begins_at_most(index.pairs(), self.without_prefix(key))
            }
        }
    }

    /// Returns the place of the last pair whose whole key isn't above the key, and the page that it leads to.
    ///
    /// The node must have a child for the key, as [`has_child_for`](Node::has_child_for) tests.
    pub fn index_next_node(&self, key: &[u8]) -> (usize, PageId)
        requires { HasChildFor self.now key.now }
        ensures { IsLeadingPair self.now.pairs key.now result.0 (Child result.1) }
    {
        match &self.contents {
            Data::Leaf(_) => unreachable!(),
            Data::Index(index) => leading_pair(index.pairs(), self.without_prefix(key)),
        }
    }

    /// Returns whether [`parent_split`](Node::parent_split) may be called with this whole key.
    ///
    /// The node must be an index with the key in its range. The key must be at most [`MAX_BYTES`](super::MAX_BYTES) bytes long. The
    /// index must have the key, or fewer than [`MAX_PAIRS`](super::MAX_PAIRS) pairs.
    pub fn accepts_child(&self, at: &[u8]) -> bool
        ensures { IsTrue result ↔ AcceptsChild self.now at.now }
    {
        match &self.contents {
            Data::Leaf(_) => false,
            Data::Index(index) => {
                self.contains_key(at)
                    && at.len() <= MAX_BYTES
                    && index.has_room(self.without_prefix(at))
            }
        }
    }

    /// Adds a child that the index leads to from the key on, and returns true. If the index has the key already, returns false and
    /// leaves the node unchanged.
    ///
    /// The key is whole, and [`accepts_child`](Node::accepts_child) must hold for it. An error means that an allocation failed, and
    /// leaves the node unchanged. A key that the index has already needs no allocation.
    pub fn parent_split(&mut self, at: &[u8], to: PageId) -> Result<bool, AllocError>
        requires { AcceptsChild self.old at.now }
        ensures new { IfOk result (λ is_new. IsTrue is_new ↔ (HasKey self.old.pairs at.now → ⊥)) }
        ensures value { IfOk result
            (λ is_new. self.new ≡ inserted is_new (with_child at.now to self.old) self.old) }
        ensures there { HasKey self.old.pairs at.now → IsOk result }
        ensures err { OnErr result (self.new ≡ self.old) }
    {
        let stored = self.without_prefix(at);
        let Data::Index(index) = &mut self.contents else {
            unreachable!()
        };
        let is_new = index.insert(stored, to)?;
        Ok(is_new)
    }
}

// The index of these pairs, over all keys.
fn index_over_all(pairs: Vec<(IVec, PageId)>) -> Node
    requires { HasPairs (λ page. page < 2 ^ 64) pairs.items }
    ensures { result ≡ index_of (map (λ pair. (pair.0, Child pair.1)) pairs.items) }
{
    Node {
        prefix_len: 0,
        next: None,
        merging_child: None,
        merging: false,
        lo: IVec::default(),
        hi: IVec::default(),
        contents: Data::Index(Index::of(pairs)),
    }
}

// Whether there is a first pair, and its key isn't above.
fn begins_at_most(pairs: &[(IVec, PageId)], key: &[u8]) -> bool
    ensures { IsTrue result ↔ BeginsAtMost pairs.now key.now }
{
    match pairs.first() {
        None => false,
        Some(pair) => !is_below(key, pair.0.as_slice()),
    }
}

// The place of the last pair whose key isn't above, and the page that it leads to.
fn leading_pair(pairs: &[(IVec, PageId)], key: &[u8]) -> (usize, PageId)
    requires ascending { IsAscending pairs.now }
    requires begins { BeginsAtMost pairs.now key.now }
    ensures { IsLeadingPair pairs.now key.now result.0 result.1 }
{
    let count = pairs.partition_point(|pair| !is_below(key, pair.0.as_slice()));
    let last = count - 1;
    (last, pairs[last].1)
}
