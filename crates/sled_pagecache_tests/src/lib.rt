//! Tests of what `sled_pagecache` makes public: rows of calls on caches over several logs, with what each call answers and a crash leaves.
//!
//! They stand apart from the code that they try, since a crate with tests is proved twice.
#![tactic(auto)]

#[cfg(test)]
mod tests;
