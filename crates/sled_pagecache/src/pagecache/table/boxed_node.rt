//! A node in memory.

ghost use Rattle.std.specs.Prelude.{◌≡◌, ◌↔◌, length, IsTrue, IfOk, OnOk, OnErr, MatchOption, IsOk};
ghost use Rattle.sled_node.specs.Node.{IsWellFormed, empty_leaf};
ghost use Rattle.sled_node.specs.Sizes.{node_size};
ghost use Rattle.sled_node.specs.Links.{Accepts, applied};
ghost use Rattle.sled_node.specs.Payloads.Nodes.{written_node};
ghost use Rattle.sled_node.specs.declared.node.link.Link.TheVariants.{Set};

use sled_base::Serialize;
use sled_node::{Link, Node};
use std::alloc::{AllocError, Global};
use std::marker::Model;

/// The encoding of an empty leaf over all keys: no neighbour, no child and no mark, no prefix and no bounds, and a leaf's number of pairs.
pub(crate) const EMPTY_LEAF: [u8; 8] = [0, 0, 0, 0, 0, 0, 0, 0];

/// A node that is stored outside the table of pages, which holds only a pointer to it. An empty leaf over all keys takes no memory.
///
/// Contracts see the node.
#[derive(Debug, Drop)]
pub(crate) struct BoxedNode {
    // none of an empty leaf over all keys
    node: Option<Box<Node>>,
}

impl Model for BoxedNode {
    ghost use Rattle.sled_node.specs.Node.{WholeNode};
    ghost use Rattle.sled_pagecache.specs.Inside.BoxedNodes.{boxed_in};

    ghost Value = { WholeNode };

    ghost view = { λ held. boxed_in held.node };
}

impl BoxedNode {
    // The only error is out of memory, and then the node is let go. An empty leaf asks for none.
    #[inline(always)]
    pub(crate) fn new(alloc: Global, node: Node) -> Result<BoxedNode, AllocError>
        ensures held { IfOk result (λ held. held ≡ node) }
        ensures always { node ≡ empty_leaf → IsOk result }
    {
        if is_empty_leaf(&node) {
            return Ok(BoxedNode { node: None });
        }
        Ok(BoxedNode {
            node: Some(Box::new(alloc, node)?),
        })
    }

    // The node that lies apart, if one does.
    pub(crate) fn apart(&self) -> Option<&Node>
        ensures { MatchOption result (self.now ≡ empty_leaf) (λ node. node.now ≡ self.now) }
    {
        match &self.node {
            Some(node) => Some(node),
            None => None,
        }
    }

    // The node, for which an empty leaf is lent where none lies apart.
    pub(crate) fn lend<'a>(&'a self, empty: &'a EmptyLeaf) -> &'a Node
        ensures { result.now ≡ self.now }
    {
        match &self.node {
            Some(node) => node,
            None => &empty.node,
        }
    }

    // How many bytes it is written in.
    #[inline(always)]
    pub(crate) fn written_size(&self) -> u64
        ensures value { result ≡ length (written_node self.now) }
        ensures well_formed { IsWellFormed self.now }
    {
        match &self.node {
            Some(node) => {
                // Every node is well-formed.
                let _ = node.data();
                node.serialized_size()
            }
            None => EMPTY_LEAF.len() as u64,
        }
    }

    // How much it takes.
    pub(crate) fn rss(&self, alloc: Global) -> u64
        ensures { result ≡ node_size self.now }
    {
        match &self.node {
            Some(node) => node.rss(),
            None => Node::default(alloc).rss(),
        }
    }

    // Whether the link may be applied.
    pub(crate) fn accepts(&self, alloc: Global, link: &Link) -> bool
        ensures { IsTrue result ↔ Accepts self.now link.now }
    {
        match &self.node {
            Some(node) => node.accepts(link),
            None => empty_accepts(alloc, link),
        }
    }

    // Whether a link that sets the pair may be applied.
    pub(crate) fn accepts_pair(&self, alloc: Global, key: &[u8], value: &[u8]) -> bool
        ensures { IsTrue result ↔ Accepts self.now (Set key.now value.now) }
    {
        match &self.node {
            Some(node) => node.accepts_pair(key, value),
            None => Node::default(alloc).accepts_pair(key, value),
        }
    }

    // Sets a pair, as the link that sets it does. A refusal leaves the node.
    pub(crate) fn set_pair(
        &mut self,
        alloc: Global,
        key: &[u8],
        value: &[u8],
    ) -> Result<(), AllocError>
        requires { Accepts self.old (Set key.now value.now) }
        ensures applied { OnOk result (self.new ≡ applied (Set key.now value.now) self.old) }
        ensures err { OnErr result (self.new ≡ self.old) }
    {
        if let Some(node) = &mut self.node {
            return node.set_pair(key, value);
        }
        let mut node = Box::new(alloc, Node::default(alloc))?;
        node.set_pair(key, value)?;
        self.node = Some(node);
        Ok(())
    }

    // Applies a link. A refusal leaves the node.
    pub(crate) fn apply(&mut self, alloc: Global, link: &Link) -> Result<(), AllocError>
        requires { Accepts self.old link.now }
        ensures applied { OnOk result (self.new ≡ applied link.now self.old) }
        ensures err { OnErr result (self.new ≡ self.old) }
    {
        let Some(node) = &mut self.node else {
            return self.fill(alloc, link);
        };
        node.apply(link)
    }

    // Puts apart what a link makes of an empty leaf. A refusal leaves the node.
    #[inline(never)]
    fn fill(&mut self, alloc: Global, link: &Link) -> Result<(), AllocError>
        requires { Accepts empty_leaf link.now }
        ensures applied { OnOk result (self.new ≡ applied link.now empty_leaf) }
        ensures err { OnErr result (self.new ≡ self.old) }
    {
        let mut node = Box::new(alloc, Node::default(alloc))?;
        node.apply(link)?;
        self.node = Some(node);
        Ok(())
    }
}

impl Clone for BoxedNode {
    ghost use Rattle.std.specs.Prelude.{◌≡◌};

    ghost is_clone = { λ held copy. copy ≡ held };

    fn clone(&self) -> Result<BoxedNode, AllocError> {
        Ok(BoxedNode {
            node: self.node.clone()?,
        })
    }
}

/// An empty leaf over all keys. References to it are returned for each empty leaf that takes no memory.
#[derive(Drop)]
pub(crate) struct EmptyLeaf {
    node: Node,
    ghost is: { node ≡ empty_leaf },
}

impl EmptyLeaf {
    // It takes no memory either.
    pub(crate) fn new(alloc: Global) -> EmptyLeaf {
        EmptyLeaf {
            node: Node::default(alloc),
        }
    }
}

// Whether the node is an empty leaf over all keys. It isn't inlined, since a caller that moves the node would take it to pieces.
#[inline(never)]
fn is_empty_leaf(node: &Node) -> bool
    ensures { IsTrue result ↔ (node.now ≡ empty_leaf) }
{
    node.len() == 0
        && !node.is_index()
        && node.prefix_len() == 0
        && node.lo().is_empty()
        && node.hi().is_empty()
        && node.next().is_none()
        && node.merging_child().is_none()
        && !node.merging()
}

// Whether the link may be applied to an empty leaf.
#[inline(never)]
fn empty_accepts(alloc: Global, link: &Link) -> bool
    ensures { IsTrue result ↔ Accepts empty_leaf link.now }
{
    Node::default(alloc).accepts(link)
}
