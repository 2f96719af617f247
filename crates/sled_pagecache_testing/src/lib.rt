//! What the tests of `sled_pagecache` share: steps of a cache as plain data, scripts of them over several logs, and logs that fail.
//!
//! In reading order:
//!
//! - `caches`: new caches, and the logs that caches leave
//! - `nodes`: links and nodes of a page
//! - `steps`: the steps of a script, as plain data, and one function that runs them
//! - `calls`: the calls of a cache, and what they return
//! - `sights`: what a get of a page finds
//! - `measuring`: how much a cache takes of its log
//! - `saying`: what a snapshot contains
//! - `scripts`: scripts of steps over a log in memory
//! - `crashes`: reopening after a crash
//! - `memory`: steps that are run again after a failed allocation
//! - `failing`: a log of which a read or a write fails
//! - `openings`: runs of openings over one log
//! - `disks`: scripts over a log on a disk
//! - `tables`: a table of free pages
#![tactic(auto)]

pub mod caches;
pub mod calls;
pub mod crashes;
pub mod disks;
pub mod failing;
pub mod measuring;
pub mod memory;
pub mod nodes;
pub mod openings;
pub mod saying;
pub mod scripts;
pub mod sights;
pub mod steps;
pub mod tables;
