//! Tests of what `sled_tree` makes public: lists of calls on maps over logs in memory and on a disk, which are refused, fail, or are cut off by
//! a crash.
//!
//! They stand apart from the code that they try, since a crate with tests is proved twice.
#![tactic(auto)]

#[cfg(test)]
mod tests;
