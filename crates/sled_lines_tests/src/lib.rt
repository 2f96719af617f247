//! Tests of what `sled_lines` makes public: words and what they encode, the lines of an input, and a writer that takes a byte a call.
//!
//! They stand apart from the code that they try, since a crate with tests is proved twice.
#![tactic(auto)]

#[cfg(test)]
mod tests;
