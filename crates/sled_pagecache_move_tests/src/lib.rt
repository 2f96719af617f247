//! Tests of pages that `sled_pagecache` moves, of caches that are rewritten, and of what is said and measured of them: in memory, and over
//! disks that crash or fail.
//!
//! They stand apart from the tests of the calls, so that both are proved side by side.
#![tactic(auto)]

#[cfg(test)]
mod tests;
