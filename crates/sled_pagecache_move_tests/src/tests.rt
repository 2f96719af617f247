mod disk_crashes;
mod disk_faults;
mod disk_moves;
mod live;
mod moved_blobs;
mod moved_pages;
mod moves;
mod moves_added;
mod moves_crashes;
mod moves_damaged;
mod moves_refused;
mod rewriting;
mod runs;
mod sizes;
mod snapshots;
mod spilling;
mod told;

use sled_base::{
    BlobPointer, Bug, Device, DiskPtr, Error, LogOffset, Lsn, MessageKind, PageId, PageState,
    Refusal, Why,
};
use sled_log::{Log, LogError, MemLog};
use sled_node::{Item, Link, Node};
use sled_pagecache::{Config, DiskLog, MemDisk, PageCache, PageView};
use sled_pagecache_testing::caches::{CONFIG, Cache, log_if, log_of, opening, started};
use sled_pagecache_testing::nodes::is_pair;
use sled_pagecache_testing::steps::Sight::{Absent, Empty};
use sled_pagecache_testing::steps::Step::{Adds, Gets, Links, Recovered};
use sled_pagecache_testing::steps::{PAIR, Step};
use std::alloc::{AllocError, Global};
