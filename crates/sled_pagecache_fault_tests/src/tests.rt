mod disk_files;
mod faults;
mod hostile;
mod listed;
mod memory;
mod no_memory;

use sled_base::{Device, DiskPtr, Error, IVec, PageId, PageState, Refusal, Serialize};
use sled_log::{Log, MemLog};
use sled_node::{Item, Link, Node};
use sled_pagecache::{Disk, DiskLog, MemDisk, PageCache, PageView, open_tree};
use sled_pagecache_testing::caches::{CONFIG, Cache, MANIFEST, log_if, log_of, started};
use sled_pagecache_testing::nodes::{is_pair, node_between, set};
use std::alloc::{AllocError, Global};
use std::test::Fail;
