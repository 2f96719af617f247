//! The settings of a page cache.

ghost use Rattle.std.specs.Prelude.{◌≡◌};
ghost use Rattle.sled_pagecache.specs.Opening.{fault_of};

use sled_base::Why;

/// The settings of a page cache, which stay the same while it is open.
#[derive(Clone, Copy, Debug, PartialEq, Eq)]
pub struct Config {
    /// How many bytes of pages may stay in memory, by the sizes of their messages in the log. At least 256.
    pub cache_capacity: u64,
    /// The length of an interval of generated ids. The counter is persisted once for each interval. At least 1.
    pub idgen_persist_interval: u64,
    /// The size of a segment of the log, in bytes. At least 1.
    pub segment_size: usize,
}

impl Config {
    /// Returns what is wrong with the settings: the first fault, in the order of the fields. A cache opens only if there is none.
    pub fn fault(self) -> Option<Why>
        ensures { result ≡ fault_of self }
    {
        if self.cache_capacity < 256 {
            return Some(Why::CapacityTooSmall);
        }
        if self.idgen_persist_interval == 0 {
            return Some(Why::IntervalZero);
        }
        if self.segment_size == 0 {
            return Some(Why::SegmentZero);
        }
        None
    }
}
