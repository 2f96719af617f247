mod compare;
mod corners;
mod dropped;
mod handles;
mod lengths;
mod merged;
mod moving;
mod names;
mod ordered;
mod pages;
mod pairs;
mod pieces;
mod sizes;
mod swaps;
mod tokens;

use sled_tree::{
    Config, Error, IVec, Limits, Log, MemLog, PageCache, Piece, Tree, TreeError, Trees,
};
use sled_tree_testing::{CONFIG, Random, Reached, SMALL, log_of, opened, pages_of};
use std::alloc::{AllocError, Global};
use std::collections::BTreeMap;
