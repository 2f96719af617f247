//! Tests of what `sled_keys` makes public: scripts with their replies, over memory, over files, and over streams and disks that fail.
//!
//! They stand apart from the code that they try, since a crate with tests is proved twice.
#![tactic(auto)]

#[cfg(test)]
mod tests;
