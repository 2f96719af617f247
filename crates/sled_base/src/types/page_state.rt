//! What a log knows about a page.

ghost use Rattle.std.specs.Prelude.{◌↔◌, IsTrue};
ghost use Rattle.sled_base.specs.PageStates.{IsFreed};

use super::{DiskPtr, Lsn};

/// The places of a page's messages: for each its LSN, the pointer to it, and its log size.
#[derive(Debug, Drop, PartialEq)]
pub enum PageState {
    /// The page has content: the message that wrote it, and the links after it.
    Present {
        /// The message that wrote the content.
        base: (Lsn, DiskPtr, u64),
        /// The links after it, in order.
        frags: Vec<(Lsn, DiskPtr, u64)>,
    },
    /// The page was freed by the message at this place.
    Free(Lsn, DiskPtr),
}

impl PageState {
    /// Returns whether the page is free.
    pub fn is_free(&self) -> bool
        ensures { IsTrue result ↔ IsFreed self.now }
    {
        matches!(self, PageState::Free(_, _))
    }
}
