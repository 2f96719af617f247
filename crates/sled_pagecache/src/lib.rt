//! The page cache: a list of stamped pages over a log.
//!
//! In reading order:
//!
//! - `pagecache`: the cache, its settings, its tokens and its calls
//! - `openings`: theorems about caches that are opened one after another: the pages that each shows, and the ids that they generate
//! - `rows`: what a sequence of calls of the page cache does
//! - `batches`: what a crash leaves of a batch
//! - `crashes`: crashes of a cache on a disk in memory, each followed by a reopening
//! - `laws`: properties of the definitions that the contracts of a page cache cite, and what one crash of any cache leaves
#![tactic(auto)]

pub mod batches;
pub mod crashes;
pub mod laws;
pub mod openings;
pub mod pagecache;
pub mod rows;

pub use pagecache::{
    Answer, CacheInfo, Call, Config, Kind, MetaView, NodeView, Page, PageCache, PageShape,
    PageTable, PageView, RecoveryGuard, Shape, Snapshot, open_tree, split_fanout,
};
pub use sled_base::{
    self, BatchManifest, BlobPointer, Bug, ConsumeSequence, Device, DiskPtr, Error, IVec, LogKind,
    LogOffset, Lsn, MessageKind, PageId, PageState, Refusal, SegmentId, Serialize, Why,
};
pub use sled_disk::{self, Disk, DiskLog, FileDisk, MemDisk, SystemFile};
pub use sled_log::{self, Log, LogError, MemLog, Payload};
pub use sled_node::{self, Data, Index, Item, Leaf, Link, Meta, Node};
