//! Tests of what `sled_disk` makes public: the disk in memory call by call, files of the system, and files of any bytes that are opened.
//!
//! They stand apart from the code that they try, since a crate with tests is proved twice.
#![tactic(auto)]

#[cfg(test)]
mod tests;
