//! What a log holds of the pages of a cache, only by their places.

use sled_base::{Lsn, PageState, SegmentId};

/// How far a log is durable, and where it stores the pages, by their ids. The places include what is pending, so a crash may leave less
/// than a snapshot says.
#[derive(Debug, Drop, PartialEq)]
pub struct Snapshot {
    /// How far the log is durable.
    pub stable_lsn: Option<Lsn>,
    /// The segment that is being written: always None, since no log of a cache is cut into segments.
    pub active_segment: Option<SegmentId>,
    /// The pages, by their ids.
    pub pt: Vec<PageState>,
}
