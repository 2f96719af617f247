//! What the cache returns: tokens, and references to nodes and to the map of named roots.

ghost use Rattle.std.specs.Prelude.{◌≡◌};
ghost use Rattle.sled_pagecache.specs.State.{token, pid_of, stamp_of};

use sled_base::PageId;
use sled_node::{Meta, Node};

/// The token of a page: its id, and a stamp that the page had.
///
/// Each change of a page increases its stamp, so a token identifies one version of a page. It is plain data: of a token from an earlier
/// opening only the stamp counts.
#[derive(Clone, Copy, Debug, PartialEq, Eq)]
pub struct PageView {
    pid: PageId,
    stamp: u64,
}

impl PageView {
    /// Makes the token of a page at a stamp. The call that takes the token tests whether the page has that stamp.
    pub fn new(pid: PageId, ts: u64) -> PageView
        ensures { result ≡ token pid ts }
    {
        PageView { pid, stamp: ts }
    }

    /// Returns the page's id.
    pub fn pid(self) -> PageId
        ensures { result ≡ pid_of self }
    {
        self.pid
    }

    /// Returns the stamp.
    pub fn ts(self) -> u64
        ensures { result ≡ stamp_of self }
    {
        self.stamp
    }
}

/// A reference to a node of the cache, with the token of its page.
#[derive(Clone, Copy, Debug)]
pub struct NodeView<'a> {
    node: &'a Node,
    token: PageView,
}

impl<'a> NodeView<'a> {
    pub(crate) fn new(node: &'a Node, token: PageView) -> NodeView<'a>
        ensures node { result.node.now ≡ node.now }
        ensures token { result.token ≡ token }
    {
        NodeView { node, token }
    }

    /// Returns the node, borrowed for as long as the view is.
    pub fn node(&self) -> &'a Node
        ensures { result.now ≡ self.now.node.now }
    {
        self.node
    }

    /// Returns the token of its page.
    pub fn token(&self) -> PageView
        ensures { result ≡ self.now.token }
    {
        self.token
    }
}

/// A reference to the cache's map of named roots, with the token of its page.
#[derive(Clone, Copy, Debug)]
pub struct MetaView<'a> {
    meta: &'a Meta,
    token: PageView,
}

impl<'a> MetaView<'a> {
    pub(crate) fn new(meta: &'a Meta, token: PageView) -> MetaView<'a>
        ensures meta { result.meta.now ≡ meta.now }
        ensures token { result.token ≡ token }
    {
        MetaView { meta, token }
    }

    /// Returns the map, borrowed for as long as the view is.
    pub fn meta(&self) -> &'a Meta
        ensures { result.now ≡ self.now.meta.now }
    {
        self.meta
    }

    /// Returns the token of page 0, which holds the map.
    pub fn token(&self) -> PageView
        ensures { result ≡ self.now.token }
    {
        self.token
    }
}
