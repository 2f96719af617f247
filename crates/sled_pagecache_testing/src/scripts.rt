//! Scripts of steps over a cache whose log is in memory.

use crate::caches::{CONFIG, Cache, log_of, opening};
use crate::crashes::reopen;
use crate::steps::{Step, shows};
use sled_log::{Log, MemLog};
use sled_pagecache::Config;
use std::alloc::Global;

/// The name of a script, and its steps over a new log.
pub type Script = (&'static str, &'static [Step]);

/// Opens a cache over a log. It returns None if that fails, or if a batch is open in the log.
pub fn opened_over(alloc: Global, config: Config, log: MemLog) -> Option<Cache> {
    opening(alloc, config, log).ok()
}

/// Opens a cache over what a crash leaves of a log, if the crash keeps `n` of the pending events. It returns None if no crash may keep
/// exactly these, or if the opening fails.
pub fn left_by(alloc: Global, log: MemLog, n: usize) -> Option<Cache> {
    if !log.is_fair(n) {
        return None;
    }
    reopen(alloc, CONFIG, log, n).ok()
}

// The cache that is opened over the log again, by a step that lets go the one before.
fn renewed(alloc: Global, log: MemLog, step: &Step) -> Option<Cache> {
    match *step {
        Step::Crashes(n) => left_by(alloc, log, n),
        Step::Reads(n) if n != log.reads() => None,
        _ => opened_over(alloc, CONFIG, log),
    }
}

// The cache behind a step, if that shows what it should.
fn next(alloc: Global, mut cache: Cache, step: &Step) -> Option<Cache> {
    match *step {
        Step::Crashes(_) | Step::Reads(_) | Step::Reopens => renewed(alloc, log_of(cache)?, step),
        _ => if shows(alloc, &mut cache, step) {
            Some(cache)
        } else {
            None
        },
    }
}

/// Runs the steps of a script over a cache, and returns how many show what they should before the first that doesn't.
pub fn walks_over(alloc: Global, cache: Cache, steps: &[Step]) -> usize {
    let mut cache = cache;
    for (done, step) in steps.iter().enumerate() {
        let Some(next) = next(alloc, cache, step) else {
            return done;
        };
        cache = next;
    }
    steps.len()
}

/// Runs the steps of a script over a new log, where payloads above `blob_limit` bytes are blobs, and returns how many show what they should
/// before the first that doesn't.
pub fn walks_at(alloc: Global, config: Config, blob_limit: usize, steps: &[Step]) -> usize {
    walks_in(alloc, config, MemLog::new(alloc, blob_limit, 16), steps)
}

/// Runs the steps of a script over a log that no cache was opened over before, and returns how many show what they should before the first
/// that doesn't.
pub fn walks_in(alloc: Global, config: Config, log: MemLog, steps: &[Step]) -> usize {
    match opened_over(alloc, config, log) {
        Some(cache) => walks_over(alloc, cache, steps),
        None => 0,
    }
}

/// Runs the steps of a script over a new log with the usual settings, and returns how many show what they should before the first that
/// doesn't.
pub fn walks(alloc: Global, steps: &[Step]) -> usize {
    walks_at(alloc, CONFIG, 512, steps)
}

/// Returns the name of the first script that doesn't show all that it should, and how many of its steps do before the first that doesn't.
pub fn first_wrong_at(
    alloc: Global,
    blob_limit: usize,
    scripts: &[Script],
) -> Option<(&'static str, usize)> {
    for (name, steps) in scripts {
        let done = walks_at(alloc, CONFIG, blob_limit, steps);
        if done != steps.len() {
            return Some((*name, done));
        }
    }
    None
}

/// Does the same with a limit of 512 bytes, above which payloads are blobs.
pub fn first_wrong(alloc: Global, scripts: &[Script]) -> Option<(&'static str, usize)> {
    first_wrong_at(alloc, 512, scripts)
}
