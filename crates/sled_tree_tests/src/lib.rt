//! Tests of what `sled_tree` makes public: maps beside a plain sorted map.
//!
//! They stand apart from the code that they try, since a crate with tests is proved twice.
//! Maps whose calls are refused, fail, or are cut off by a crash are in `sled_tree_fault_tests`.
#![tactic(auto)]

#[cfg(test)]
mod tests;
