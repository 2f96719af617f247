//! The shape of a cache: what is known of it without the contents of its pages.

ghost use Rattle.std.specs.Prelude.{◌≡◌};
ghost use Rattle.sled_pagecache.specs.Inside.PageKinds.{kind_of_page_content};

use crate::pagecache::table::page_entry::PageContent;
use std::marker::Model;

/// The kind of a page. A page that isn't free and isn't the cache's own counts as a node, even if its messages make none.
#[derive(Clone, Copy, Debug, PartialEq, Eq)]
pub enum Kind {
    /// Nothing: the page is free.
    Free,
    /// The counter of generated ids.
    Counter,
    /// The map of named roots.
    Roots,
    /// A node.
    Node,
}

/// A page without its content.
#[derive(Clone, Copy, Debug, PartialEq, Eq)]
pub struct PageShape {
    /// Its stamp.
    pub stamp: u64,
    /// What it holds.
    pub kind: Kind,
}

/// A cache without the contents of its pages: the stamp and the kind of each page, the next generated id, and whether there was a write
/// error.
#[derive(Debug, Drop)]
pub struct Shape {
    /// The pages, by their ids.
    pub pages: Vec<PageShape>,
    /// The next generated id.
    pub next: u128,
    /// Whether there was a write error.
    pub fault: bool,
}

impl Model for Shape {
    ghost use Rattle.sled_pagecache.specs.Shapes.{Shape as Seen};

    ghost Value = { Seen };

    ghost view = { λ s. record { pages = s.pages.items; next = s.next; fault = s.fault } };
}

// The kind of what a page keeps.
pub(crate) fn kind_of(kept: &PageContent) -> Kind
    ensures { result ≡ kind_of_page_content kept.now }
{
    match kept {
        PageContent::Free => Kind::Free,
        PageContent::Counter(_) => Kind::Counter,
        PageContent::Roots(_) => Kind::Roots,
        PageContent::OnLog | PageContent::Node(_) => Kind::Node,
    }
}
