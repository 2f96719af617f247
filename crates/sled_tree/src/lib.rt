//! Ordered maps with names, in the pages of a cache.
//!
//! In reading order:
//!
//! - `trees`: the maps and their calls
//! - `maps`: the same calls, for a cache that the caller passes in
//! - `error`: the errors of these calls
//! - `walk`: from a tree's root to the leaf of a key
//! - `place`: where a key is in its leaf, or would be
//! - `room`: the leaf of a key, with room for a pair
//! - `splits`: the steps that make room
//! - `merging`: a node that has few pairs left is merged with a neighbour
//! - `swap`: setting or removing the value of a key if it has the expected value
//! - `neighbours`: the nearest pairs on either side of a bound, the pairs between two bounds, and the number of pairs
//! - `freeing`: the pages of a map that is dropped
//! - `named`: calls on the maps of a cache by their names
//! - `examples`: worked examples of the definitions
//! - `calls`: each call does what the law of `openings` asks of it
//! - `openings`: what holds of the maps of caches that are opened over one log, one after another
#![tactic(auto)]

pub mod calls;
pub mod error;
pub mod examples;
mod freeing;
mod maps;
mod merging;
pub mod named;
mod neighbours;
pub mod openings;
mod place;
mod room;
mod splits;
mod swap;
pub mod trees;
mod walk;

pub use error::TreeError;
pub use neighbours::pieces::Piece;
pub use sled_pagecache::{
    self, Config, Device, Disk, DiskLog, Error, FileDisk, IVec, Log, MemDisk, MemLog, PageCache,
    PageId, Why,
};
pub use trees::{Limits, Tree, Trees};
