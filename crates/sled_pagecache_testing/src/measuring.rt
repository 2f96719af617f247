//! How much a cache takes of its log, and how much its pages would take.

use crate::calls::outcome_of;
use crate::steps::{Outcome, Shown};
use sled_log::Log;
use sled_pagecache::PageCache;

/// Returns the sizes of a cache: the bytes that its log takes, and those that its pages would take.
pub fn measured<L: Log>(cache: &mut PageCache<L>) -> Result<(u64, u128), Outcome> {
    match cache.space_amplification() {
        Ok(sizes) => Ok(sizes),
        Err(error) => Err(outcome_of(&error)),
    }
}

/// Returns whether these are the sizes, or None if an allocation failed.
pub fn measures<L: Log>(cache: &mut PageCache<L>, bytes: u64, pages: u128) -> Shown {
    match measured(cache) {
        Ok(sizes) => Some(sizes == (bytes, pages)),
        Err(Outcome::Unmade) => None,
        Err(_) => Some(false),
    }
}
