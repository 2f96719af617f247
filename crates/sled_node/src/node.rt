//! Nodes: a range of keys, and the pairs whose keys are in it.

ghost use Rattle.std.specs.Prelude.{◌≡◌, ◌↔◌, ◌<◌, ◌≤◌, length, map, Some, IfOk, IsTrue, IsOk, OnOk, OnErr, slice_get};
ghost use Rattle.std.specs.Option.{option_map, SomeIff};
ghost use Rattle.std.specs.Int.NonZero.{non_zero_u64_get};
ghost use Rattle.std.specs.Cmp.{partial_equiv_from_equiv};
ghost use Rattle.sled_node.specs.Equality.{same_nodes, node_equiv};
ghost use Rattle.sled_node.specs.Node.{Value, whole, IsWellFormed, IsInRange, empty_leaf, leaf_of};
ghost use Rattle.sled_node.specs.Links.{Accepts, AcceptsHere, AllocatesNothing, applied};
ghost use Rattle.sled_node.specs.Pairs.{HasPairs, IsWithinLimit};
ghost use Rattle.sled_node.specs.Parts.{node_of, HoldsData, item_of};
ghost use Rattle.sled_node.specs.declared.node.link.Link.TheVariants.{Set, Del};

mod bounds;
mod children;
mod contents;
mod data;
mod debug;
mod leaf;
mod link;
mod linking;
mod lookups;
mod merge;
mod neighbours;
pub(crate) mod pairs;
mod parts;
mod payload;
mod sizes;
mod split;
mod stored;

pub use data::{Data, Index, Item};
pub use leaf::Leaf;
pub use link::Link;
use pairs::is_below;
use parts::{are_bounds, are_stored_within, know_page, rest_of};
use sled_base::IVec;
use std::alloc::{AllocError, Global};
use std::marker::Model;
use std::num::NonZeroU64;

/// The greatest length of a key, a value, a bound or a name, in bytes.
pub const MAX_BYTES: usize = (1 << 31) - 1;

/// The greatest number of pairs in a node.
pub const MAX_PAIRS: usize = 1 << 24;

/// A range of keys, and the pairs whose keys are in it.
///
/// The range begins with `lo` and ends before `hi`. If `hi` is empty, the range has no end. A stored key lacks the first
/// `prefix_len` bytes of `lo`, which `lo` and `hi` have in common. Contracts see whole keys, and every node is well-formed.
#[derive(Debug, Drop)]
pub struct Node {
    next: Option<NonZeroU64>,
    merging_child: Option<NonZeroU64>,
    merging: bool,
    prefix_len: u8,
    lo: IVec,
    hi: IVec,
    contents: Data,
}

impl Model for Node {
    ghost use Rattle.std.specs.Option.{option_map};
    ghost use Rattle.std.specs.Int.NonZero.{non_zero_u64_get};
    ghost use Rattle.sled_node.specs.Node.{WholeNode, IsWellFormed};
    ghost use Rattle.sled_node.specs.Parts.{node_of};

    ghost Value = { WholeNode };

    ghost view = { λ n. node_of n.prefix_len (option_map non_zero_u64_get n.next) (option_map non_zero_u64_get n.merging_child) n.merging n.lo n.hi n.contents };

    ghost invariant = { λ n. IsWellFormed (node_of n.prefix_len (option_map non_zero_u64_get n.next) (option_map non_zero_u64_get n.merging_child) n.merging n.lo n.hi n.contents) };
}

impl Node {
    /// Returns an empty leaf over all keys. It allocates nothing.
    pub fn default(alloc: Global) -> Node
        ensures { result ≡ empty_leaf }
    {
        Node {
            prefix_len: 0,
            next: None,
            merging_child: None,
            merging: false,
            lo: IVec::default(),
            hi: IVec::default(),
            contents: Data::Leaf(Leaf::default(alloc)),
        }
    }

    /// Makes a node of these parts, or returns None if they are ill-formed. It allocates nothing.
    ///
    /// They are well-formed if all of this holds: `lo` is below `hi` or `hi` is empty, `lo` and `hi` have their first `prefix_len`
    /// bytes in common, `prefix_len` is 0 if `hi` is empty, each whole key is in the range, and no bound or whole key is longer
    /// than [`MAX_BYTES`].
    pub fn from_parts(
        prefix_len: u8,
        next: Option<NonZeroU64>,
        merging_child: Option<NonZeroU64>,
        merging: bool,
        lo: IVec,
        hi: IVec,
        contents: Data,
    ) -> Option<Node>
        ensures { SomeIff result
            (IsWellFormed (node_of prefix_len (option_map non_zero_u64_get next)
            (option_map non_zero_u64_get merging_child) merging lo hi contents))
            (node_of prefix_len (option_map non_zero_u64_get next)
            (option_map non_zero_u64_get merging_child) merging lo hi contents) }
    {
        let skipped = prefix_len as usize;
        if !are_bounds(skipped, &lo, &hi) {
            return None;
        }
        let (low, high) = (rest_of(&lo, skipped), rest_of(&hi, skipped));
        if !are_stored_within(&contents, low, high, MAX_BYTES - skipped) {
            return None;
        }
        know_page(next);
        know_page(merging_child);
        Some(Node {
            prefix_len,
            next,
            merging_child,
            merging,
            lo,
            hi,
            contents,
        })
    }

    /// Makes a leaf over all keys of these pairs, or returns None if a leaf can't hold them, as [`Leaf::from_pairs`] tests.
    ///
    /// An error means that an allocation failed.
    pub fn leaf_of(alloc: Global, pairs: Vec<(IVec, IVec)>) -> Result<Option<Node>, AllocError>
        ensures { IfOk result (λ node. SomeIff node (HasPairs IsWithinLimit pairs.items)
            (leaf_of (map (λ pair. (pair.0, Value pair.1)) pairs.items))) }
    {
        let Some(leaf) = Leaf::from_pairs(alloc, pairs)? else {
            return Ok(None);
        };
        let (lo, hi) = (IVec::default(), IVec::default());
        let contents = Data::Leaf(leaf);
        Ok(Node::from_parts(0, None, None, false, lo, hi, contents))
    }

    /// Returns how many bytes of `lo` the stored keys lack. `lo` has at least that many.
    pub fn prefix_len(&self) -> u8
        ensures value { result ≡ self.now.prefix_len }
        ensures within { result ≤ length self.now.lo }
    {
        self.prefix_len
    }

    /// Returns the page of the node to the right, if there is one.
    pub fn next(&self) -> Option<NonZeroU64>
        ensures { option_map non_zero_u64_get result ≡ self.now.next }
    {
        self.next
    }

    /// Returns the page of the child that is being merged into its left neighbour, if there is one.
    pub fn merging_child(&self) -> Option<NonZeroU64>
        ensures { option_map non_zero_u64_get result ≡ self.now.child }
    {
        self.merging_child
    }

    /// Returns whether the node itself is being merged into its left neighbour. Such a node accepts no link.
    pub fn merging(&self) -> bool
        ensures { result ≡ self.now.capped }
    {
        self.merging
    }

    /// Returns the least key of the range.
    pub fn lo(&self) -> &IVec
        ensures { result.now ≡ self.now.lo }
    {
        &self.lo
    }

    /// Returns the end of the range, which is not in the range. If it is empty, the range has no end.
    pub fn hi(&self) -> &IVec
        ensures { result.now ≡ self.now.hi }
    {
        &self.hi
    }

    /// Returns the stored keys, with their values or pages. Every node is well-formed.
    pub fn data(&self) -> &Data
        ensures value { HoldsData self.now result.now }
        ensures well_formed { IsWellFormed self.now }
    {
        &self.contents
    }

    /// Returns whether the node is an index, which leads to pages and holds no values.
    pub fn is_index(&self) -> bool
        ensures { result ≡ self.now.is_index }
    {
        self.contents.is_index()
    }

    /// Returns the number of pairs.
    pub fn len(&self) -> usize
        ensures { result ≡ length self.now.pairs }
    {
        self.contents.len()
    }

    /// Returns the stored key of the pair at place `i`, and what it leads to: a value or a page. `i` must be below [`len`](Node::len).
    ///
    /// The first pair is at place 0, and the keys ascend.
    pub fn pair(&self, i: usize) -> (&[u8], Item<'_>)
        requires { i < length self.now.pairs }
        ensures { slice_get self.now.pairs i
            ≡ Some (whole self.now result.0.now, item_of result.1) }
    {
        match &self.contents {
            Data::Leaf(leaf) => {
                let (key, value) = leaf.pair(i);
                (key, Item::Value(value))
            }
            Data::Index(index) => {
                let (key, page) = index.pair(i);
                (key, Item::Child(page))
            }
        }
    }

    /// Returns whether the whole key is in the range.
    pub fn contains_key(&self, key: &[u8]) -> bool
        ensures { IsTrue result ↔ IsInRange self.now key.now }
    {
        !is_below(key, self.lo.as_slice())
            && (self.hi.is_empty() || is_below(key, self.hi.as_slice()))
    }

    /// Returns whether the link may be applied.
    ///
    /// A merging node accepts no link. No node accepts a link whose whole key or value is longer than [`MAX_BYTES`]. `Set` requires
    /// a leaf with the whole key in its range, which has the key or fewer than [`MAX_PAIRS`] pairs. `Del` requires a leaf.
    /// `ParentMergeIntention` requires a page other than 0, and that no child is being merged. `ParentMergeConfirm` requires an
    /// index that leads to the child that is being merged. `ChildMergeCap` requires nothing else.
    pub fn accepts(&self, link: &Link) -> bool
        ensures { IsTrue result ↔ Accepts self.now link.now }
    {
        !self.merging && self.accepts_here(link)
    }

    /// Applies a link that the node [`accepts`](Node::accepts).
    ///
    /// `Set` maps the key to the value, and overwrites the present value if there is one. `Del` removes the key, or does nothing if
    /// it is absent. `ParentMergeIntention` marks the child as being merged. `ParentMergeConfirm` removes the first pair that leads
    /// to the marked child, and the mark. `ChildMergeCap` marks the node itself. An error means that an allocation failed, which
    /// happens only for a `Set`, and leaves the node unchanged.
    pub fn apply(&mut self, link: &Link) -> Result<(), AllocError>
        requires { Accepts self.old link.now }
        ensures ok { OnOk result (self.new ≡ applied link.now self.old) }
        ensures never { AllocatesNothing link.now → IsOk result }
        ensures err { OnErr result (self.new ≡ self.old) }
    {
        match link {
            Link::Set(key, value) => self.put(key.as_slice(), value.as_slice())?,
            Link::Del(key) => self.del_leaf(key),
            Link::ParentMergeIntention(page) => self.merging_child = NonZeroU64::new(*page),
            Link::ParentMergeConfirm => self.confirm_merge(),
            Link::ChildMergeCap => self.merging = true,
        }
        Ok(())
    }

    /// Returns whether [`set_leaf`](Node::set_leaf) may be called with this stored key and value.
    ///
    /// The node must be a leaf with the whole key in its range. Neither the whole key nor the value may be longer than [`MAX_BYTES`]
    /// bytes. The leaf must have the key, or fewer than [`MAX_PAIRS`] pairs. A merging node may take the pair too.
    pub fn accepts_set(&self, key: &IVec, value: &IVec) -> bool
        ensures { IsTrue result ↔ AcceptsHere self.now (Set key.now value.now) }
    {
        self.has_place_for(key.as_slice(), value.as_slice())
    }

    /// Maps a stored key to a value, and overwrites the present value if there is one.
    ///
    /// [`accepts_set`](Node::accepts_set) must hold for the pair. The node may be merging.
    ///
    /// An error means that an allocation failed, and leaves the node unchanged.
    pub fn set_leaf(&mut self, key: IVec, value: IVec) -> Result<(), AllocError>
        requires { AcceptsHere self.old (Set key value) }
        ensures ok { OnOk result (self.new ≡ applied (Set key value) self.old) }
        ensures err { OnErr result (self.new ≡ self.old) }
    {
        self.put(key.as_slice(), value.as_slice())
    }

    /// Returns whether [`del_leaf`](Node::del_leaf) may be called with this stored key: the node is a leaf, and the whole key is at
    /// most [`MAX_BYTES`] bytes long. The key may be absent or out of the range, and the node may be merging.
    pub fn accepts_del(&self, key: &IVec) -> bool
        ensures { IsTrue result ↔ AcceptsHere self.now (Del key.now) }
    {
        !self.is_index() && self.is_short(key.as_slice())
    }

    /// Removes a stored key and its value, or does nothing if the key is absent.
    ///
    /// [`accepts_del`](Node::accepts_del) must hold for the key. The node may be merging. The call allocates nothing.
    pub fn del_leaf(&mut self, key: &IVec)
        requires { AcceptsHere self.old (Del key.now) }
        ensures { self.new ≡ applied (Del key.now) self.old }
    {
        self.contents.del(key.as_slice());
    }

    // Whether the whole key of this stored key is in the range.
    fn spans(&self, stored: &[u8]) -> bool
        ensures { IsTrue result ↔ IsInRange self.now (whole self.now stored.now) }
    {
        let skipped = self.prefix_len as usize;
        !is_below(stored, &self.lo.as_slice()[skipped..])
            && (self.hi.is_empty() || is_below(stored, &self.hi.as_slice()[skipped..]))
    }

    // Whether the whole key of this stored key is within the limit.
    fn is_short(&self, stored: &[u8]) -> bool
        ensures { IsTrue result ↔ IsWithinLimit (whole self.now stored.now) }
    {
        stored.len() <= MAX_BYTES - self.prefix_len as usize
    }
}

impl Clone for Node {
    ghost use Rattle.std.specs.Prelude.{◌≡◌};

    ghost is_clone = { λ v w. w ≡ v };

    /// Copies the node.
    ///
    /// Bounds longer than 22 bytes are shared, and so are such keys of an index. The strings of a leaf are copied. An error means that
    /// an allocation failed, or that a shared string has more holders than can be counted.
    fn clone(&self) -> Result<Node, AllocError> {
        Ok(Node {
            prefix_len: self.prefix_len,
            next: self.next,
            merging_child: self.merging_child,
            merging: self.merging,
            lo: self.lo.clone()?,
            hi: self.hi.clone()?,
            contents: self.contents.clone()?,
        })
    }
}

impl PartialEq for Node {
    ghost eq = { same_nodes };

    ghost laws = { partial_equiv_from_equiv node_equiv };

    fn eq(&self, other: &Node) -> bool {
        self.lo == other.lo
            && self.hi == other.hi
            && self.prefix_len == other.prefix_len
            && self.next == other.next
            && self.merging_child == other.merging_child
            && self.merging == other.merging
            && self.contents == other.contents
    }
}

impl Eq for Node {
    ghost laws = { node_equiv };
}
