//! Calls of a node's data that need nothing else of the node.

ghost use Rattle.std.specs.Prelude.{◌≡◌, ◌↔◌, [], IsTrue};
ghost use Rattle.std.specs.Option.{option_map};
ghost use Rattle.sled_node.specs.Parts.{is_index, LeadsTo, without_stored};
ghost use Rattle.sled_node.specs.declared.node.data.Data.TheVariants.{Leaf as Stored};
ghost use Rattle.sled_node.specs.Contents.{count_of, leaf_in, index_in};

use super::{Data, Index, Leaf};
use sled_base::PageId;
use std::alloc::Global;

impl Data {
    /// Returns a leaf without pairs. It allocates nothing.
    pub fn default(alloc: Global) -> Data
        ensures { result ≡ Stored [] }
    {
        Data::Leaf(Leaf::default(alloc))
    }

    /// Returns the number of pairs.
    pub fn len(&self) -> usize
        ensures { result ≡ count_of self.now }
    {
        match self {
            Data::Leaf(leaf) => leaf.len(),
            Data::Index(index) => index.len(),
        }
    }

    /// Returns whether these are the pairs of an index.
    pub fn is_index(&self) -> bool
        ensures { result ≡ is_index self.now }
    {
        match self {
            Data::Leaf(_) => false,
            Data::Index(_) => true,
        }
    }

    /// Borrows the leaf, or returns None if this is an index.
    pub fn leaf_ref(&self) -> Option<&Leaf>
        ensures { option_map (λ leaf. leaf.now) result ≡ leaf_in self.now }
    {
        match self {
            Data::Leaf(leaf) => Some(leaf),
            Data::Index(_) => None,
        }
    }

    /// Borrows the index, or returns None if this is a leaf.
    pub fn index_ref(&self) -> Option<&Index>
        ensures { option_map (λ index. index.now) result ≡ index_in self.now }
    {
        match self {
            Data::Leaf(_) => None,
            Data::Index(index) => Some(index),
        }
    }

    /// Returns whether this is an index with a pair that leads to the page.
    pub fn leads_to(&self, pid: PageId) -> bool
        ensures { IsTrue result ↔ LeadsTo pid self.now }
    {
        match self {
            Data::Leaf(_) => false,
            Data::Index(index) => index.leads_to(pid),
        }
    }

    /// Removes the first pair that leads to the page. This must be an index that [`leads_to`](Data::leads_to) it.
    ///
    /// Other pairs that lead to the page stay. It allocates nothing.
    pub fn parent_merge_confirm(&mut self, pid: PageId)
        requires { LeadsTo pid self.old }
        ensures { self.new ≡ without_stored pid self.old }
    {
        self.remove_page(pid);
    }

    // Where the pairs come from.
    pub(super) fn allocator(&self) -> Global {
        match self {
            Data::Leaf(leaf) => leaf.allocator(),
            Data::Index(index) => index.allocator(),
        }
    }
}
