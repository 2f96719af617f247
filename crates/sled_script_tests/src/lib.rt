//! Tests of what `sled_script` makes public, and the examples of docs/GUIDE.md.
//!
//! They stand apart from the code that they try, since a crate with tests is proved twice.
#![tactic(auto)]

#[cfg(test)]
mod tests;
