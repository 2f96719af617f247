//! What each function takes that changes a page.

use crate::pagecache::memory::accesses::Accesses;
use crate::pagecache::write::sticky_log::StickyLog;

/// The log of a cache, with its sticky write error, and its pages by their recent use.
#[derive(Drop)]
pub(crate) struct Writer<L> {
    pub(crate) sticky_log: StickyLog<L>,
    pub(crate) accesses: Accesses,
}
