//! What a link requires of a node, and what it does to it.

ghost use Rattle.std.specs.Prelude.{◌≡◌, ◌↔◌, IsTrue, OnOk, OnErr};
ghost use Rattle.sled_node.specs.Links.{Accepts, AcceptsHere, applied};
ghost use Rattle.sled_node.specs.declared.node.link.Link.TheVariants.{Set, ParentMergeConfirm};

use super::{Data, Link, MAX_BYTES, Node};
use std::alloc::AllocError;

impl Node {
    /// Returns whether a [`Link::Set`] of this stored key and value may be applied, as [`accepts`](Node::accepts) does of the link.
    ///
    /// It allocates nothing.
    pub fn accepts_pair(&self, key: &[u8], value: &[u8]) -> bool
        ensures { IsTrue result ↔ Accepts self.now (Set key.now value.now) }
    {
        !self.merging && self.has_place_for(key, value)
    }

    /// Maps a stored key to a value, and overwrites the present value if there is one, as [`apply`](Node::apply) does for a [`Link::Set`].
    ///
    /// [`accepts_pair`](Node::accepts_pair) must hold for the pair.
    ///
    /// An error means that an allocation failed, and leaves the node unchanged.
    pub fn set_pair(&mut self, key: &[u8], value: &[u8]) -> Result<(), AllocError>
        requires { Accepts self.old (Set key.now value.now) }
        ensures ok { OnOk result (self.new ≡ applied (Set key.now value.now) self.old) }
        ensures err { OnErr result (self.new ≡ self.old) }
    {
        self.put(key, value)
    }

    // Whether the pair may be set, the node's own mark aside.
    pub(super) fn has_place_for(&self, key: &[u8], value: &[u8]) -> bool
        ensures { IsTrue result ↔ AcceptsHere self.now (Set key.now value.now) }
    {
        match &self.contents {
            Data::Leaf(leaf) => {
                self.spans(key)
                    && self.is_short(key)
                    && value.len() <= MAX_BYTES
                    && leaf.has_room(key)
            }
            Data::Index(_) => false,
        }
    }

    // Whether the link may be applied, the node's own mark aside.
    pub(super) fn accepts_here(&self, link: &Link) -> bool
        ensures { IsTrue result ↔ AcceptsHere self.now link.now }
    {
        match link {
            Link::Set(key, value) => self.accepts_set(key, value),
            Link::Del(key) => self.accepts_del(key),
            Link::ParentMergeIntention(page) => *page != 0 && self.merging_child.is_none(),
            Link::ParentMergeConfirm => self.leads_to_merging_child(),
            Link::ChildMergeCap => true,
        }
    }

    // Maps a stored key to a value, over the present value if there is one.
    pub(super) fn put(&mut self, key: &[u8], value: &[u8]) -> Result<(), AllocError>
        requires { AcceptsHere self.old (Set key.now value.now) }
        ensures ok { OnOk result (self.new ≡ applied (Set key.now value.now) self.old) }
        ensures err { OnErr result (self.new ≡ self.old) }
    {
        self.contents.set(key, value)?;
        Ok(())
    }

    // Whether this is an index that leads to the child that is being merged.
    fn leads_to_merging_child(&self) -> bool
        ensures { IsTrue result ↔ AcceptsHere self.now ParentMergeConfirm }
    {
        match self.merging_child {
            None => false,
            Some(child) => self.contents.leads_to(child.get()),
        }
    }

    // Takes the child that is being merged out of the index, and the mark away.
    pub(super) fn confirm_merge(&mut self)
        requires { AcceptsHere self.old ParentMergeConfirm }
        ensures { self.new ≡ applied ParentMergeConfirm self.old }
    {
        if let Some(child) = self.merging_child {
            self.contents.remove_page(child.get());
            self.merging_child = None;
        }
    }
}
