//! The entries of a book: calls with their arguments and answers.

ghost use Rattle.std.specs.Prelude.{◌≡◌};
ghost use Rattle.sled_shared.specs.Kept.{entry_of};

use crate::calls::Swap;
use sled_base::{IVec, PageId, Refusal};
use sled_node::{Link, Node};
use sled_pagecache::PageView;
use std::marker::Model;
use std::mem::size_of;

/// What an entry stores of an answer. A refusal is stored as a pointer, since most calls have none.
pub type Kept<T> = Result<T, Box<Refusal>>;

/// How a swap ended. The page is the one that the swap's token names, and a change that was returned is the one that was passed in.
#[derive(Clone, Copy, Debug, PartialEq, Eq)]
pub enum Ending {
    /// The swap was made: the page has the stamp after that of the token.
    Made,
    /// The page is absent or free.
    Gone,
    /// The page has this stamp, which isn't that of the token, and the change was returned.
    Stale(u64),
}

/// The swap of a named root.
#[derive(Debug, Drop)]
pub struct RootSwap {
    /// The name.
    pub name: IVec,
    /// The root that was expected, or `None` if the name should have none.
    pub old: Option<PageId>,
    /// The new root, or `None` to remove the name.
    pub new: Option<PageId>,
}

/// The swaps of a batch, and how those that were made ended. If one was refused, it is the first that has no ending.
#[derive(Debug, Drop)]
pub struct Batch {
    /// The swaps that were asked for, in order.
    pub swaps: Vec<Swap>,
    /// How the swaps that were made ended.
    pub endings: Vec<Ending>,
}

/// The pages of reads that are one call, and what was found of those that were read. If a read failed, it is of the first page that has nothing here.
#[derive(Debug, Drop)]
pub struct Reads {
    /// The pages' ids, in the order in which they were read.
    pub pages: Vec<PageId>,
    /// The stamp and the node of each page that was read, or `None` if the page is absent or free.
    pub found: Vec<Option<(u64, Box<Node>)>>,
}

/// A call with its arguments and its answer.
#[derive(Debug, Drop)]
pub enum Called {
    /// The node, and the page's id and token.
    Allocate(Box<Node>, Kept<(PageId, PageView)>),
    /// The page's id, and its stamp and node, or `None` if the page is absent or free.
    Get(PageId, Kept<Option<(u64, Box<Node>)>>),
    /// The token and the link, and how the swap ended.
    Link(Box<(PageView, Link)>, Kept<Ending>),
    /// The token and the node, and how the swap ended.
    Replace(Box<(PageView, Node)>, Kept<Ending>),
    /// The token, and how the swap ended.
    Free(PageView, Kept<Ending>),
    /// The id.
    GenerateId(Kept<u64>),
    /// The number of bytes written.
    Flush(Kept<usize>),
    /// The name, and the root page.
    OpenTree(Box<IVec>, Kept<PageId>),
    /// The swap, and what the root was instead if it wasn't the expected one.
    CasRoot(Box<RootSwap>, Kept<Result<(), Option<PageId>>>),
    /// The name, and the root page, or `None` if the name has no root; the caller got `CollectionNotFound` for that.
    MetaPidForName(Box<IVec>, Kept<Option<PageId>>),
    /// The swaps, and whether the batch was sealed.
    Batch(Box<Batch>, Kept<()>),
    /// The pages with what was found, and whether all were read.
    GetAll(Box<Reads>, Kept<()>),
}

/// A call that was entered. It takes at most 48 bytes, and what its pointers lead to: the node of an `allocate`, a `replace` or a `get`, a link or a
/// node with the 16 bytes of its token, a name, the swap of a root, the swaps of a batch, the pages of reads with their nodes, or a refusal.
///
/// In contracts, the value of an entry is the call and its answer.
#[derive(Debug, Drop)]
pub struct Entry {
    called: Called,
}

const _: () = prove!(size_of::<Entry>() <= 48);

impl Model for Entry {
    ghost use Rattle.sled_shared.specs.Calls.{Entry as Seen};
    ghost use Rattle.sled_shared.specs.Kept.{entry_of};

    ghost Value = { Seen };

    ghost view = { λ e. entry_of e.called };
}

impl Entry {
    pub(crate) fn new(called: Called) -> Entry
        ensures { result ≡ entry_of called }
    {
        Entry { called }
    }

    /// Returns the call and its answer.
    pub fn called(&self) -> &Called
        ensures { entry_of result.now ≡ self.now }
    {
        &self.called
    }
}
