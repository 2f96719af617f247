//! What a node holds: a leaf's values, or an index's pages.

ghost use Rattle.std.specs.Prelude.{◌≡◌, ◌↔◌, ◌⊎◌, ◌==◌, ◌<◌, ◌^◌, [], length, position, Some, IsTrue, IfOk, IsOk, OnOk, OnErr, Any, nat_eq, slice_get};
ghost use Rattle.std.specs.Cmp.{partial_equiv_from_equiv};
ghost use Rattle.std.specs.Option.{SomeIff};
ghost use Rattle.std.specs.List.{AllByRecursion};
ghost use Rattle.sled_node.specs.Pairs.{IsWithinLimit, IsAscending, HasPairs, set_pair};
ghost use Rattle.sled_node.specs.Inserts.{HasKey, inserted};
ghost use Rattle.sled_node.specs.Equality.{same_pairs, index_equiv};
ghost use Rattle.sled_node.specs.Parts.{CanSet, set_stored, del_stored, without_page, without_stored};
ghost use Rattle.sled_node.specs.Limits.{pairs_limit};

use super::MAX_PAIRS;
use super::leaf::Leaf;
use super::pairs::{are_ascending, are_short, place_of_key};
use sled_base::{IVec, PageId};
use std::alloc::{AllocError, Global};
use std::marker::Model;

/// What a key of a node leads to.
#[derive(Clone, Copy, Debug, PartialEq, Eq)]
pub enum Item<'a> {
    /// The value of a leaf's key.
    Value(&'a [u8]),
    /// The page that an index's key leads to.
    Child(PageId),
}

/// Stored keys and pages, with ascending keys and within the limits of a node. Contracts see the list of the pairs.
#[derive(Debug, Drop)]
pub struct Index {
    pairs: Vec<(IVec, PageId)>,
}

impl Model for Index {
    ghost use Rattle.std.specs.Prelude.{List, ℕ, ◌<◌, ◌^◌};
    ghost use Rattle.sled_node.specs.Pairs.{HasPairs};

    ghost Value = { List (List ℕ × ℕ) };

    ghost view = { λ index. index.pairs.items };

    ghost invariant = { λ index. HasPairs (λ page. page < 2 ^ 64) index.pairs.items };
}

impl Index {
    /// Returns an index without pairs. It allocates nothing.
    pub fn default(alloc: Global) -> Index
        ensures { result ≡ [] }
    {
        Index {
            pairs: Vec::new(alloc),
        }
    }

    /// Makes an index of these pairs, or returns None if a key isn't above the one before it or is longer than
    /// [`MAX_BYTES`](super::MAX_BYTES), or if there are more than [`MAX_PAIRS`].
    ///
    /// It allocates nothing, so it never returns an error.
    pub fn from_pairs(
        _alloc: Global,
        pairs: Vec<(IVec, PageId)>,
    ) -> Result<Option<Index>, AllocError>
        ensures taken { IsOk result }
        ensures value { IfOk result
            (λ index. SomeIff index (HasPairs (λ page. page < 2 ^ 64) pairs.items) pairs.items) }
    {
        know_pages(&pairs);
        if pairs.len() > MAX_PAIRS || !are_ascending(&pairs) || !are_short(&pairs) {
            return Ok(None);
        }
        Ok(Some(Index { pairs }))
    }

    /// Returns the number of pairs.
    pub fn len(&self) -> usize
        ensures { result ≡ length self.now }
    {
        self.pairs.len()
    }

    /// Returns whether there are no pairs.
    pub fn is_empty(&self) -> bool
        ensures { IsTrue result ↔ (self.now ≡ []) }
    {
        self.pairs.is_empty()
    }

    /// Returns the stored key of the pair at place `i`, and the page that it leads to. `i` must be below [`len`](Index::len).
    ///
    /// The first pair is at place 0, and the keys ascend. A stored key lacks the first bytes of its node's `lo`.
    pub fn pair(&self, i: usize) -> (&[u8], PageId)
        requires { i < length self.now }
        ensures { slice_get self.now i ≡ Some (result.0.now, result.1) }
    {
        let pair = &self.pairs[i];
        (pair.0.as_slice(), pair.1)
    }

    // The pairs, with what every index keeps.
    pub(super) fn pairs(&self) -> &[(IVec, PageId)]
        ensures value { result.now ≡ self.now }
        ensures stored { HasPairs (λ page. page < 2 ^ 64) self.now }
    {
        &self.pairs
    }

    // An index of pairs that have what every index keeps.
    pub(super) fn of(pairs: Vec<(IVec, PageId)>) -> Index
        requires { HasPairs (λ page. page < 2 ^ 64) pairs.items }
        ensures { result ≡ pairs.items }
    {
        Index { pairs }
    }

    // Where its pairs come from.
    pub(super) fn allocator(&self) -> Global {
        *self.pairs.allocator()
    }

    // Whether the key is there, or there is room for another pair.
    pub(super) fn has_room(&self, key: &[u8]) -> bool
        ensures { IsTrue result ↔ ((length self.now < pairs_limit) ⊎ HasKey self.now key.now) }
    {
        self.pairs.len() < MAX_PAIRS || has_key(&self.pairs, key)
    }

    // Puts the pair in, unless the key is there, and answers whether it was put in.
    pub(super) fn insert(&mut self, key: &[u8], page: PageId) -> Result<bool, AllocError>
        requires limit { IsWithinLimit key.now }
        requires room { (length self.old < pairs_limit) ⊎ HasKey self.old key.now }
        ensures new { IfOk result (λ is_new. IsTrue is_new ↔ (HasKey self.old key.now → ⊥)) }
        ensures value { IfOk result
            (λ is_new. self.new ≡ inserted is_new (set_pair key.now page self.old) self.old) }
        ensures there { HasKey self.old key.now → IsOk result }
        ensures err { OnErr result (self.new ≡ self.old) }
    {
        let is_new = insert_in(&mut self.pairs, key, page)?;
        Ok(is_new)
    }

    // The pairs, given out.
    pub(super) fn into_pairs(self) -> Vec<(IVec, PageId)>
        ensures { result.items ≡ self }
    {
        let Index { pairs } = self;
        pairs
    }

    pub(super) fn leads_to(&self, page: PageId) -> bool
        ensures { IsTrue result ↔ Any (λ pair. pair.1 ≡ page) self.now }
    {
        self.pairs.iter().any(|pair| pair.1 == page)
    }

    // Takes out the first pair that leads to the page.
    pub(super) fn remove_page(&mut self, page: PageId)
        ensures { self.new ≡ without_page page self.old }
    {
        remove_from(&mut self.pairs, page);
    }
}

// Does nothing. The pages are numbers of 64 bits, and a proof learns it here.
fn know_pages(pairs: &[(IVec, PageId)])
    ensures { AllByRecursion (λ pair. pair.1 < 2 ^ 64) pairs.now }
{
    for pair in pairs {
        page_of(pair);
    }
}

// The page of a pair, a number of 64 bits.
fn page_of(pair: &(IVec, PageId)) -> PageId
    ensures value { result ≡ pair.now.1 }
    ensures bound { result < 2 ^ 64 }
{
    pair.1
}

fn remove_from(pairs: &mut Vec<(IVec, PageId)>, page: PageId)
    ensures { pairs.new.items ≡ without_page page pairs.old.items }
{
    if let Some(at) = first_to(pairs, page) {
        pairs.remove(at);
    }
}

// Puts the pair in, unless the key is there, and answers whether it was put in.
fn insert_in(pairs: &mut Vec<(IVec, PageId)>, key: &[u8], page: PageId) -> Result<bool, AllocError>
    requires { IsAscending pairs.old.items }
    ensures new { IfOk result (λ is_new. IsTrue is_new ↔ (HasKey pairs.old.items key.now → ⊥)) }
    ensures value { IfOk result (λ is_new. pairs.new.items
        ≡ inserted is_new (set_pair key.now page pairs.old.items) pairs.old.items) }
    ensures there { HasKey pairs.old.items key.now → IsOk result }
    ensures err { OnErr result (pairs.new.items ≡ pairs.old.items) }
{
    let Err(at) = place_of_key(pairs, key) else {
        return Ok(false);
    };
    let key = IVec::from_slice(*pairs.allocator(), key)?;
    pairs.insert(at, (key, page))?;
    Ok(true)
}

// Whether the key is there.
fn has_key(pairs: &[(IVec, PageId)], key: &[u8]) -> bool
    requires { IsAscending pairs.now }
    ensures { IsTrue result ↔ HasKey pairs.now key.now }
{
    match place_of_key(pairs, key) {
        Ok(_) => true,
        Err(_) => false,
    }
}

// Where the first pair stands that leads to the page.
fn first_to(pairs: &[(IVec, PageId)], page: PageId) -> Option<usize>
    ensures { result ≡ position (λ pair. pair.1 == page) pairs.now }
{
    pairs.iter().position(|pair| pair.1 == page)
}

impl Clone for Index {
    ghost use Rattle.std.specs.Prelude.{◌≡◌};

    ghost is_clone = { λ v w. w ≡ v };

    /// Copies the pairs. Keys longer than 22 bytes are shared. An error means that an allocation failed, or that a shared key has more
    /// holders than can be counted.
    fn clone(&self) -> Result<Index, AllocError> {
        Ok(Index {
            pairs: self.pairs.clone()?,
        })
    }
}

impl PartialEq for Index {
    ghost eq = { same_pairs nat_eq };

    ghost laws = { partial_equiv_from_equiv index_equiv };

    fn eq(&self, other: &Index) -> bool {
        self.pairs == other.pairs
    }
}

impl Eq for Index {
    ghost laws = { index_equiv };
}

/// Stored keys, with the values of a leaf or the pages of an index.
#[derive(Debug, Drop, PartialEq, Eq)]
pub enum Data {
    /// Keys with values.
    Leaf(Leaf),
    /// Keys with pages.
    Index(Index),
}

impl Clone for Data {
    ghost use Rattle.std.specs.Prelude.{◌≡◌};

    ghost is_clone = { λ v w. w ≡ v };

    /// Copies the pairs. Keys of an index that are longer than 22 bytes are shared, and the strings of a leaf are copied.
    ///
    /// An error means that an allocation failed, or that a shared key has more holders than can be counted.
    fn clone(&self) -> Result<Data, AllocError> {
        Ok(match self {
            Data::Leaf(leaf) => Data::Leaf(leaf.clone()?),
            Data::Index(index) => Data::Index(index.clone()?),
        })
    }
}

impl Data {
    // Maps a stored key to a value.
    pub(super) fn set(&mut self, key: &[u8], value: &[u8]) -> Result<(), AllocError>
        requires { CanSet key.now value.now self.old }
        ensures ok { OnOk result (self.new ≡ set_stored key.now value.now self.old) }
        ensures err { OnErr result (self.new ≡ self.old) }
    {
        match self {
            Data::Leaf(leaf) => leaf.set(key, value),
            Data::Index(_) => Ok(()),
        }
    }

    // Takes a stored key out of a leaf.
    pub(super) fn del(&mut self, key: &[u8])
        ensures { self.new ≡ del_stored key.now self.old }
    {
        match self {
            Data::Leaf(leaf) => leaf.del(key),
            Data::Index(_) => {}
        }
    }

    // Takes the first pair that leads to the page out of an index.
    pub(super) fn remove_page(&mut self, page: PageId)
        ensures { self.new ≡ without_stored page self.old }
    {
        match self {
            Data::Leaf(_) => {}
            Data::Index(index) => index.remove_page(page),
        }
    }
}
