mod batches;
mod calls;
mod cuts;
mod faults;
mod listed;
mod lists;
mod over_disk;
mod reads;
mod steps;

use sled_tree::{
    Config, Device, Disk, DiskLog, Error, IVec, Limits, Log, MemDisk, MemLog, PageCache, Piece,
    Tree, TreeError, Trees, Why,
};
use sled_tree_testing::{CONFIG, Random, Reached, SMALL, log_of, opened, pages_of};
use std::alloc::Global;
