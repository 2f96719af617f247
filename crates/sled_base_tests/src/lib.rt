//! Tests of what `sled_base` makes public: byte strings, lists, searches and payloads, with what each call answers.
//!
//! They stand apart from the code that they try, since a crate with tests is proved twice.
#![tactic(auto)]

#[cfg(test)]
mod tests;
