//! The calls of the page cache, and their answers.

use crate::pagecache::handles::snapshot::Snapshot;
use crate::pagecache::handles::view::PageView;
use sled_base::{Error, IVec, PageId};
use sled_node::{Link, Meta, Node};

/// A call of the page cache, with its arguments. A swap names its page by its token.
#[derive(Debug, Drop)]
pub enum Call {
    Allocate(Node),
    Get(PageId),
    Link(PageView, Link),
    Replace(PageView, Node),
    Free(PageView),
    GetMeta,
    MetaPidForName(IVec),
    CasRoot(IVec, Option<PageId>, Option<PageId>),
    GetIdgen,
    GenerateId,
    Flush,
    SizeOnDisk,
    SpaceAmplification,
    TakeFuzzySnapshot,
    Pin,
    Seal,
    Cancel,
    AttemptGc,
}

/// The answer of a call.
#[derive(Debug, Drop)]
pub enum Answer {
    Allocated(Result<(PageId, PageView), Error>),
    Got(Result<Option<(PageView, Node)>, Error>),
    Linked(Result<Result<PageView, Option<(PageView, Link)>>, Error>),
    Replaced(Result<Result<PageView, Option<(PageView, Node)>>, Error>),
    Freed(Result<Result<PageView, Option<(PageView, ())>>, Error>),
    GotMeta(Result<(PageView, Meta), Error>),
    FoundRoot(Result<PageId, Error>),
    RootSwapped(Result<Result<(), Option<PageId>>, Error>),
    GotIdgen(Result<(PageView, u64), Error>),
    Generated(Result<u64, Error>),
    Flushed(Result<usize, Error>),
    Sized(Result<u64, Error>),
    Amplified(Result<(u64, u128), Error>),
    TookSnapshot(Result<Snapshot, Error>),
    Pinned(Result<(), Error>),
    Sealed(Result<(), Error>),
    Cancelled(Result<(), Error>),
    AttemptedGc(Result<bool, Error>),
}
