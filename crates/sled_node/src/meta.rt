//! The root map of a page cache: which page is the root of each named tree.

ghost use Rattle.std.specs.Prelude.{◌≡◌, ◌≢◌, ◌↔◌, ◌<◌, [], length, None, IsTrue, IfSome, IfNone, IfOk, IsOk, OnOk, OnErr, nat_eq};
ghost use Rattle.std.specs.Cmp.{partial_equiv_from_equiv};
ghost use Rattle.sled_node.specs.Pairs.{IsWithinLimit};
ghost use Rattle.sled_node.specs.Equality.{same_pairs, index_equiv};
ghost use Rattle.sled_node.specs.Meta.{named_pages, root_of, with_root, without_root, IsRootMap, HasRoom, roots_size};
ghost use Rattle.sled_node.specs.Payloads.Roots.{written_roots};

mod names;
mod payload;
mod written;

use names::{put_page, replace_page, root_of, take_page};
use sled_base::{IVec, PageId};
use std::alloc::{AllocError, Global};
use std::collections::BTreeMap;
use std::marker::Model;
use written::serialize_without;

/// The greatest number of names in a root map.
pub const MAX_NAMES: usize = 1 << 24;

/// The root pages of named trees.
///
/// Contracts see the list of the names with their pages, in the order of names. A map holds at most [`MAX_NAMES`] names,
/// each of at most [`MAX_BYTES`](crate::node::MAX_BYTES) bytes.
#[derive(Debug, Drop)]
pub struct Meta {
    alloc: Global,
    roots: BTreeMap<Vec<u8>, PageId>,
}

impl Model for Meta {
    ghost use Rattle.std.specs.Prelude.{List, ℕ};
    ghost use Rattle.sled_node.specs.Meta.{named_pages, IsRootMap};

    ghost Value = { List (List ℕ × ℕ) };

    ghost view = { λ meta. named_pages meta.roots };

    ghost invariant = { λ meta. IsRootMap (named_pages meta.roots) };
}

impl Meta {
    /// Returns a map without names. It allocates nothing.
    pub fn default(alloc: Global) -> Meta
        ensures { result ≡ [] }
    {
        Meta {
            alloc,
            roots: BTreeMap::new(alloc),
        }
    }

    /// Returns the number of names.
    pub fn len(&self) -> usize
        ensures value { result ≡ length self.now }
        ensures map { IsRootMap self.now }
    {
        self.roots.len()
    }

    /// Returns whether there are no names.
    pub fn is_empty(&self) -> bool
        ensures { IsTrue result ↔ (self.now ≡ []) }
    {
        self.roots.is_empty()
    }

    /// Returns the root page of a name, or None if the map lacks the name. It allocates nothing.
    pub fn get_root(&self, name: &[u8]) -> Option<PageId>
        ensures { result ≡ root_of name.now self.now }
    {
        root_of(&self.roots, name)
    }

    /// Returns whether the name may be set: the map has it already, or has fewer than [`MAX_NAMES`] names.
    pub fn has_room(&self, name: &[u8]) -> bool
        ensures { IsTrue result ↔ HasRoom name.now self.now }
    {
        self.roots.len() < MAX_NAMES || self.get_root(name).is_some()
    }

    /// Sets the root page of a name, and returns the page that it had before, or None if it is new.
    ///
    /// The name must not be longer than [`MAX_BYTES`](crate::node::MAX_BYTES), and the map must have room for it
    /// ([`has_room`](Meta::has_room)). If the name is new, the map keeps a copy. An error means that an allocation failed, and leaves
    /// the map unchanged. It happens only for a new name.
    pub fn set_root(&mut self, name: IVec, root: PageId) -> Result<Option<PageId>, AllocError>
        requires name { IsWithinLimit name }
        requires room { HasRoom name self.old }
        ensures former { IfOk result (λ former. former ≡ root_of name self.old) }
        ensures ok { OnOk result (self.new ≡ with_root name root self.old) }
        ensures err { OnErr result (self.new ≡ self.old) }
        ensures there { root_of name self.old ≢ None → IsOk result }
    {
        if let Some(former) = self.replace_root(name.as_slice(), root) {
            return Ok(Some(former));
        }
        let copy = Vec::from_slice(self.alloc, name.as_slice())?;
        self.put_root(copy, root)
    }

    /// Sets the root page of a name as [`set_root`](Meta::set_root) does, but takes ownership of the name and copies nothing.
    pub fn put_root(&mut self, name: Vec<u8>, root: PageId) -> Result<Option<PageId>, AllocError>
        requires name { IsWithinLimit name.items }
        requires room { HasRoom name.items self.old }
        ensures former { IfOk result (λ former. former ≡ root_of name.items self.old) }
        ensures ok { OnOk result (self.new ≡ with_root name.items root self.old) }
        ensures err { OnErr result (self.new ≡ self.old) }
        ensures there { root_of name.items self.old ≢ None → IsOk result }
    {
        let former = put_page(&mut self.roots, name, root)?;
        Ok(former)
    }

    /// Replaces the root page of a name, and returns the page that it had before. If the map lacks the name, returns None and leaves
    /// the map unchanged. It allocates nothing.
    pub fn replace_root(&mut self, name: &[u8], root: PageId) -> Option<PageId>
        ensures former { result ≡ root_of name.now self.old }
        ensures there { IfSome result (λ _. self.new ≡ with_root name.now root self.old) }
        ensures missing { IfNone result (self.new ≡ self.old) }
    {
        replace_page(&mut self.roots, name, root)
    }

    /// Removes a name, and returns the page that it had, or None if the map lacks the name. It allocates nothing.
    pub fn del_root(&mut self, name: &[u8]) -> Option<PageId>
        ensures former { result ≡ root_of name.now self.old }
        ensures value { self.new ≡ without_root name.now self.old }
    {
        take_page(&mut self.roots, name)
    }

    /// Encodes the map as it would be without the name. An error means that an allocation failed.
    pub fn serialize_without(&self, name: &[u8]) -> Result<Vec<u8>, AllocError>
        ensures { IfOk result
            (λ bytes. bytes.items ≡ written_roots (without_root name.now self.now)) }
    {
        serialize_without(self.alloc, self.roots(), name)
    }

    /// Returns a copy of the names with their root pages, in the order of names. An error means that it could not be allocated.
    pub fn tenants(&self) -> Result<BTreeMap<Vec<u8>, PageId>, AllocError>
        ensures { IfOk result (λ tenants. named_pages tenants ≡ self.now) }
    {
        self.roots.clone()
    }

    /// Returns the size of the map in bytes: for each name its length, and 8 for the page.
    pub fn rss(&self) -> u64
        ensures { result ≡ roots_size self.now }
    {
        let mut size = 0;
        for name in self.roots.keys() {
            size += name.len() as u64 + 8;
        }
        size
    }

    // The names with their pages, with what every map keeps.
    fn roots(&self) -> &BTreeMap<Vec<u8>, PageId>
        ensures value { named_pages result.now ≡ self.now }
        ensures kept { IsRootMap self.now }
    {
        &self.roots
    }
}

impl Clone for Meta {
    ghost use Rattle.std.specs.Prelude.{◌≡◌};

    ghost is_clone = { λ v w. w ≡ v };

    /// Copies the names with their root pages. An error means that an allocation failed.
    fn clone(&self) -> Result<Meta, AllocError> {
        Ok(Meta {
            alloc: self.alloc,
            roots: self.roots.clone()?,
        })
    }
}

impl PartialEq for Meta {
    ghost eq = { same_pairs nat_eq };

    ghost laws = { partial_equiv_from_equiv index_equiv };

    fn eq(&self, other: &Meta) -> bool {
        self.roots == other.roots
    }
}

impl Eq for Meta {
    ghost laws = { index_equiv };
}
