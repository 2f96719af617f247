//! Tests of what `sled_pagecache` makes of faults: of each call of a list, of memory that is refused, and of files that are damaged.
//!
//! They stand apart from the tests of the calls, so that both are proved side by side.
#![tactic(auto)]

#[cfg(test)]
mod tests;
