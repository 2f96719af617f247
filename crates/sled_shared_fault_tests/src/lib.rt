//! Tests of a shared cache beside one that isn't shared: over disks that fail or stop, and with very many pages and ids.
//!
//! They stand apart from the code that they try, since a crate with tests is proved twice.
#![tactic(auto)]

#[cfg(test)]
mod tests;
