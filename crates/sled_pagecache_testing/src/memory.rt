//! Steps that are run a second time if an allocation failed.

use crate::caches::{CONFIG, Cache, opening};
use crate::scripts::opened_over;
use crate::steps::{Step, shows, shows_page};
use sled_base::Error;
use sled_log::MemLog;
use std::alloc::Global;

/// Opens a cache over the log, and tries a second time if an allocation failed.
pub fn opens(alloc: Global, log: MemLog) -> Option<Cache> {
    match opening(alloc, CONFIG, log) {
        Ok(cache) => Some(cache),
        Err((Error::OutOfMemory, log)) => opened_over(alloc, CONFIG, log),
        Err(_) => None,
    }
}

/// Runs a step, a second time if an allocation failed, and returns whether it shows what it should.
pub fn makes(alloc: Global, cache: &mut Cache, step: &Step) -> bool {
    match shows_page(alloc, cache, step) {
        Some(is_so) => is_so,
        None => shows(alloc, cache, step),
    }
}

/// Runs steps in this way, and returns how many show what they should before the first that doesn't.
pub fn made(alloc: Global, cache: &mut Cache, steps: &[Step]) -> usize {
    for (done, step) in steps.iter().enumerate() {
        if !makes(alloc, cache, step) {
            return done;
        }
    }
    steps.len()
}

/// Opens a new cache. No message is due in its log: the move after a replacement would be ignored if an allocation failed.
pub fn new_cache(alloc: Global) -> Option<Cache> {
    opens(alloc, MemLog::new(alloc, 512, 0))
}
