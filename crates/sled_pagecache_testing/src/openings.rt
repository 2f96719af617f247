//! Runs of openings, one after another over one log, each with its own trouble.

use crate::caches::{CONFIG, log_if, opening};
use crate::calls::outcome_of;
use crate::failing::{FailingLog, Trouble};
use crate::steps::{Step, shown};
use sled_base::{Error, Why};
use sled_log::{Log, MemLog};
use sled_pagecache::{Config, PageCache};
use std::alloc::Global;

/// A cache over a log that fails.
pub type Faulty = PageCache<FailingLog>;

/// How an opening ends: by a crash that keeps this many of the pending events, or by passing on the log, which `Read` also requires to have
/// been read this often.
#[derive(Clone, Copy)]
pub enum Ending {
    Crash(usize),
    HandedOn,
    Read(u64),
}

/// An opening over the log that was left before: the interval of ids, the trouble of the log, what the cache shows, and how it ends.
pub type Opening<'a> = (u64, Trouble, &'a [Step], Ending);

/// The name of a run, and its openings over a new log.
pub type Run = (&'static str, &'static [Opening<'static>]);

/// Opens a cache over a log with this interval and this trouble. An error returns the log.
pub fn opened_with(
    alloc: Global,
    log: MemLog,
    interval: u64,
    trouble: &Trouble,
) -> Result<Faulty, (Error, FailingLog)> {
    let log = FailingLog::new(log, trouble);
    if log.batch_open() {
        return Err((Error::Unsupported(Why::BatchOpen), log));
    }
    let config = Config {
        idgen_persist_interval: interval,
        ..CONFIG
    };
    PageCache::start(alloc, config, log)
}

/// Returns the log that an ending leaves, or None if a crash can't keep that many of the pending events, or if the log wasn't read that
/// often.
pub fn ended(log: FailingLog, ending: &Ending) -> Option<MemLog> {
    let reads = log.reads();
    let log = log.into_log();
    match *ending {
        Ending::HandedOn => Some(log),
        Ending::Crash(n) if log.is_fair(n) => Some(log.stop(n)),
        Ending::Read(n) if n == reads => Some(log),
        _ => None,
    }
}

// Whether the script has nothing but that the cache is not opened, for this error.
fn is_unopened(error: &Error, steps: &[Step]) -> bool {
    match steps.first() {
        Some(Step::Unopened(outcome)) => steps.len() == 1 && outcome_of(error) == *outcome,
        _ => false,
    }
}

// The log of a cache, if that shows all that it should.
fn shown_by(alloc: Global, mut cache: Faulty, steps: &[Step]) -> Option<FailingLog> {
    let is_shown = shown(alloc, &mut cache, steps) == steps.len();
    log_if(cache, is_shown)
}

// The log that an opening leaves, if its cache shows all that it should.
fn left_by(alloc: Global, log: MemLog, opening: &Opening<'_>) -> Option<MemLog> {
    let (interval, trouble, steps, ending) = opening;
    match opened_with(alloc, log, *interval, trouble) {
        Ok(cache) => ended(shown_by(alloc, cache, steps)?, ending),
        Err((error, log)) => if is_unopened(&error, steps) {
            ended(log, ending)
        } else {
            None
        },
    }
}

/// Runs openings over a new log, and returns how many show what they should before the first that doesn't.
pub fn lasts(alloc: Global, openings: &[Opening<'_>]) -> usize {
    lasts_over(alloc, MemLog::new(alloc, 512, 16), openings)
}

/// Runs openings over this log, and returns how many show what they should before the first that doesn't.
pub fn lasts_over(alloc: Global, log: MemLog, openings: &[Opening<'_>]) -> usize {
    let mut log = log;
    for (done, opening) in openings.iter().enumerate() {
        let Some(left) = left_by(alloc, log, opening) else {
            return done;
        };
        log = left;
    }
    openings.len()
}

/// Returns the name of the first run with an opening that doesn't show what it should, and how many openings do before that one.
pub fn first_wrong_run(alloc: Global, runs: &[Run]) -> Option<(&'static str, usize)> {
    for (name, openings) in runs {
        let done = lasts(alloc, openings);
        if done != openings.len() {
            return Some((*name, done));
        }
    }
    None
}
