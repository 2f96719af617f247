//! Tests of what `sled_search` makes public: tables of nodes, and where each leads a key.
//!
//! They stand apart from the code that they try, since a crate with tests is proved twice.
#![tactic(auto)]

#[cfg(test)]
mod tests;
