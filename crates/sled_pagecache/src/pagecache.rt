//! The page cache: a list of stamped pages over a log.
//!
//! In reading order, from what is public down:
//!
//! - `calls`: the cache, each call of which is one step of a machine; batches and their guard; opening a tree by its name, which is several
//!   calls
//! - `handles`: what the cache takes and returns
//! - `open`: the opening of a cache
//! - `write`: changes of pages, and writing them to the log
//! - `memory`: what is in memory
//! - `table`: the pages as the cache stores them

mod calls;
mod handles;
mod memory;
mod open;
mod table;
mod write;

pub use calls::PageCache;
pub use calls::guard::RecoveryGuard;
pub use calls::trees::open_tree;
pub use handles::call::{Answer, Call};
pub use handles::config::Config;
pub use handles::shape::{Kind, PageShape, Shape};
pub use handles::snapshot::Snapshot;
pub use handles::view::{MetaView, NodeView, PageView};
use sled_base::PageId;
pub use table::page_entry::{CacheInfo, Page};
pub use table::pagetable::{PageTable, split_fanout};
pub(crate) use table::pagetable::{CHUNK_BITS, CHUNK_LENGTH};

/// The id of the page of the named roots.
pub const META_PID: PageId = 0;

/// The id of the page of the counter of generated ids.
pub const COUNTER_PID: PageId = 1;

/// The page id that marks the beginning of a batch in a log.
pub const BATCH_MANIFEST_PID: PageId = u64::MAX - 666;

/// The greatest number of messages that make a page. A link to a page of that many messages is written as the whole node.
pub const PAGE_CONSOLIDATION_THRESHOLD: usize = 10;

/// Page ids are below 2 to this power.
pub const MAX_PID_BITS: u32 = 37;

// the greatest number of pages
pub(crate) const MAX_PAGES: usize = 1 << MAX_PID_BITS;
