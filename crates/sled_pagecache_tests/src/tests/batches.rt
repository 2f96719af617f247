// Batches: what a crash leaves of one, what is refused inside, and how one ends.

ghost use Rattle.std.specs.Prelude.{◌≡◌, true};

use super::*;
use sled_pagecache_testing::calls::{draws, replaces_by_pair};
use sled_pagecache_testing::failing::Trouble::{Never, Write};
use sled_pagecache_testing::openings::{Faulty, opened_with};
use sled_pagecache_testing::scripts::left_by;
use sled_pagecache_testing::steps::Outcome::At;
use sled_pagecache_testing::steps::Sight::{Empty, Pair};
use sled_pagecache_testing::steps::Step::{AddsFrom, Flushes, Gets};
use sled_pagecache_testing::steps::{Outcome, shows};

// How a batch ends: by its guard, by a call of the cache where no guard is held, or by a rule of the caller's own.
#[derive(Clone, Copy, Debug, PartialEq, Eq)]
enum End {
    Sealed,
    Flushed,
    Cancelled,
    SealedByCall,
    CancelledByCall,
    SealedByRule,
    CancelledByRule,
}

// Why changes failed that keep a rule of the caller's own.
#[derive(Debug, Drop, PartialEq, Eq)]
enum Failure {
    Rule(u8),
    Cache(Error),
}

impl From<Error> for Failure {
    fn from(error: Error) -> Failure {
        Failure::Cache(error)
    }
}

// Whether pages 2, 3 and 4 are replaced, each at stamp 1.
fn replaces_three(alloc: Global, cache: &mut Faulty) -> bool
    ensures { cache.new.batch ≡ cache.old.batch }
{
    replaces_by_pair(alloc, cache, 2, 1) == At(2)
        && replaces_by_pair(alloc, cache, 3, 1) == At(2)
        && replaces_by_pair(alloc, cache, 4, 1) == At(2)
}

// What the calls inside a batch answer.
fn answered(done: bool) -> Result<(), Error> {
    if done {
        Ok(())
    } else {
        Err(Error::Io(Device::Write))
    }
}

// Whether a batch of three replacements is made with no guard, which ends so.
fn batch_by_calls(alloc: Global, cache: &mut Faulty, end: End) -> bool {
    if cache.pin().is_err() {
        return false;
    }
    let done = replaces_three(alloc, cache);
    let closed = if end == End::SealedByCall {
        cache.seal()
    } else {
        cache.cancel()
    };
    closed.is_ok() && done
}

// Makes a batch of three replacements, which the rule allows or not, and answers as it is settled.
fn settles_by_rule(alloc: Global, cache: &mut Faulty, is_allowed: bool) -> Result<u8, Failure> {
    let mut guard = cache.pin_log()?;
    let done = if replaces_three(alloc, guard.cache()) && is_allowed {
        Ok(7)
    } else {
        Err(Failure::Rule(3))
    };
    guard.settle(done)
}

// Whether a batch of three replacements is made, which ends so.
fn batch(alloc: Global, cache: &mut Faulty, end: End) -> bool {
    if end == End::SealedByCall || end == End::CancelledByCall {
        return batch_by_calls(alloc, cache, end);
    }
    if end == End::SealedByRule || end == End::CancelledByRule {
        return settles_by_rule(alloc, cache, end == End::SealedByRule).is_ok();
    }
    let Ok(mut guard) = cache.pin_log() else {
        return false;
    };
    let done = replaces_three(alloc, guard.cache());
    if end == End::Cancelled {
        return guard.cancel().is_ok() && done;
    }
    guard.settle(answered(done)).is_ok()
}

// Adds three pages, flushes them, and makes a batch over them that ends so.
fn writes(alloc: Global, cache: &mut Faulty, end: End) -> bool {
    let is_flushed = shows(alloc, cache, &AddsFrom(2, 5)) && shows(alloc, cache, &Flushes);
    if batch(alloc, cache, end) && end == End::Flushed {
        return is_flushed && shows(alloc, cache, &Flushes);
    }
    is_flushed
}

// The log of a cache with three pages, which are flushed, and a batch over them that ends so. The write behind so many of the batch's
// five events fails.
fn written(alloc: Global, end: End, events: u64) -> Option<MemLog> {
    // three writes open the cache, and four are the pages and their flush
    let trouble = if events < 5 { Write(8 + events) } else { Never };
    let mut cache = opened_with(alloc, MemLog::new(alloc, 512, 16), 10, &trouble).ok()?;
    let is_so = writes(alloc, &mut cache, end);
    Some(log_if(cache, is_so)?.into_log())
}

// Whether a page has the pair, or none where it has another.
fn is_replaced(alloc: Global, cache: &mut Cache, pid: PageId) -> Option<bool> {
    if shows(alloc, cache, &Gets(pid, Empty(0))) {
        return Some(false);
    }
    shows(alloc, cache, &Gets(pid, Pair(0, b"k", b"v"))).then_some(true)
}

// How many pages are replaced: the first ones, or none where another page is.
fn replaced_in(alloc: Global, cache: &mut Cache) -> Option<usize> {
    match (
        is_replaced(alloc, cache, 2),
        is_replaced(alloc, cache, 3),
        is_replaced(alloc, cache, 4),
    ) {
        (Some(false), Some(false), Some(false)) => Some(0),
        (Some(true), Some(false), Some(false)) => Some(1),
        (Some(true), Some(true), Some(false)) => Some(2),
        (Some(true), Some(true), Some(true)) => Some(3),
        _ => None,
    }
}

// Whether so many pages are replaced where a crash leaves so many of the pending events, or that is none where a crash may not leave them.
fn are_replaced(alloc: Global, end: End, events: u64, kept: usize, wanted: Option<usize>) -> bool {
    let Some(log) = written(alloc, end, events) else {
        return false;
    };
    match left_by(alloc, log, kept) {
        Some(mut cache) => replaced_in(alloc, &mut cache) == wanted,
        None => wanted.is_none(),
    }
}

// How many replacements are among so many events of a batch of three.
fn among(events: usize) -> usize {
    match events {
        0 | 1 => 0,
        2 => 1,
        3 => 2,
        _ => 3,
    }
}

// The same as the list of the events has it: the pin, three replacements, and the mark that closes the batch.
fn wanted(end: End, events: usize, kept: usize) -> Option<usize> {
    let may_stand = match end {
        End::Cancelled | End::CancelledByCall | End::CancelledByRule => kept <= 5,
        End::Sealed | End::SealedByCall | End::SealedByRule => kept == 0 || kept == 5,
        End::Flushed => kept == 0,
    };
    match (events, end) {
        (5, End::Flushed) => may_stand.then_some(3),
        (5, _) => may_stand.then(|| among(kept)),
        _ => (kept == 0).then_some(0),
    }
}

// Whether a crash that keeps so many of the pending events leaves what it may of a batch that ends so.
fn leaves_so(alloc: Global, end: End, events: u8, kept: usize) -> bool {
    let wanted = wanted(end, usize::from(events), kept);
    are_replaced(alloc, end, u64::from(events), kept, wanted)
}

#[test]
fn a_crash_leaves_a_batch_whole_or_not_at_all(rt: HostRuntime) {
    for end in [
        End::Sealed,
        End::Flushed,
        End::Cancelled,
        End::SealedByCall,
        End::CancelledByCall,
        End::SealedByRule,
        End::CancelledByRule,
    ] {
        for events in 0..6 {
            for kept in 0..7 {
                assert!(rt;
                    leaves_so(rt.alloc(), end, events, kept),
                    "{end:?} {events} {kept}"
                );
            }
        }
    }
}

// What settling answers: the value of the changes, the rule's own error, or the cache's.
#[derive(Clone, Copy, Debug, PartialEq, Eq)]
enum Told {
    Value,
    Rule,
    Fault,
    Other,
}

fn told_of(failure: &Failure) -> Told {
    match failure {
        Failure::Rule(3) => Told::Rule,
        Failure::Rule(_) => Told::Other,
        Failure::Cache(error) if *error == Error::Io(Device::Write) => Told::Fault,
        Failure::Cache(_) => Told::Other,
    }
}

fn told_by(answer: &Result<u8, Failure>) -> Told {
    match answer {
        Ok(7) => Told::Value,
        Ok(_) => Told::Other,
        Err(failure) => told_of(failure),
    }
}

// What it answers where the rule allows the changes or not, and the write after so many of the batch's five events fails.
const SETTLED: &[(bool, u64, Told)] = &[
    (true, 5, Told::Value),
    (false, 5, Told::Rule),
    (false, 4, Told::Rule),
    (true, 4, Told::Fault),
    (true, 0, Told::Fault),
];

// Whether it answers so, and leaves no batch open.
fn is_settled(alloc: Global, is_allowed: bool, events: u64, wanted: Told) -> bool {
    // three writes open the cache, and four are the pages and their flush
    let trouble = Write(events.saturating_add(8));
    let Ok(mut cache) = opened_with(alloc, MemLog::new(alloc, 512, 16), 10, &trouble) else {
        return false;
    };
    shows(alloc, &mut cache, &AddsFrom(2, 5))
        && shows(alloc, &mut cache, &Flushes)
        && told_by(&settles_by_rule(alloc, &mut cache, is_allowed)) == wanted
        && !cache.batch_open()
}

#[test]
fn a_batch_is_settled_with_an_error_of_the_callers_own(rt: HostRuntime) {
    for (is_allowed, events, wanted) in SETTLED {
        assert!(rt;
            is_settled(rt.alloc(), *is_allowed, *events, *wanted),
            "{is_allowed} {events}"
        );
    }
}

// Whether a batch inside another is refused.
fn refuses_a_second(cache: &mut Cache) -> bool
    requires { cache.old.batch ≡ true }
    ensures { cache.new.batch ≡ true }
{
    match cache.pin_log() {
        Ok(guard) => guard.cancel().is_err(),
        Err(error) => error == Error::Unsupported(Why::BatchOpen),
    }
}

// Whether a flush is refused, and an id that needs a new counter, which the second does.
fn refuses_to_be_durable(cache: &mut Cache) -> bool
    ensures { cache.new.batch ≡ cache.old.batch }
{
    cache.flush() == Err(Error::Unsupported(Why::BatchOpen))
        && cache.generate_id_inner() == Ok(0)
        && cache.generate_id_inner() == Err(Error::Unsupported(Why::BatchOpen))
}

// Whether a page is added, linked and freed, and a tree is opened.
fn serves(alloc: Global, cache: &mut Cache) -> Result<bool, Error>
    ensures { cache.new.batch ≡ cache.old.batch }
{
    let (pid, token) = cache.allocate(Node::default(alloc))?;
    let link = set(alloc, b"k", b"v")?;
    let Ok(token) = cache.link(pid, token, link)? else {
        return Ok(false);
    };
    let is_freed = cache.free(pid, token)?.is_ok();
    let name = IVec::from_array(alloc, *b"t")?;
    Ok(open_tree(cache, name)? == 3 && is_freed)
}

// Whether a batch serves what writes nothing durable, refuses the rest, and ends.
fn stays_pending(alloc: Global, cache: &mut Cache) -> bool {
    let Ok(mut guard) = cache.pin_log() else {
        return false;
    };
    let is_so = guard.cache().batch_open()
        && matches!(serves(alloc, guard.cache()), Ok(true))
        && refuses_to_be_durable(guard.cache())
        && refuses_a_second(guard.cache());
    guard.seal_batch().is_ok() && is_so
}

// Whether a cache does so in which each id but the first needs a new counter, and gives the next id behind the batch.
fn serves_in_a_batch(alloc: Global) -> bool {
    let config = Config {
        idgen_persist_interval: 1,
        ..CONFIG
    };
    match opened_over(alloc, config, MemLog::new(alloc, 512, 16)) {
        Some(mut cache) => {
            stays_pending(alloc, &mut cache)
                && !cache.batch_open()
                && draws(&mut cache) == Outcome::Id(1)
        }
        None => false,
    }
}

#[test]
fn nothing_is_made_durable_inside_a_batch(rt: HostRuntime) {
    assert!(rt; serves_in_a_batch(rt.alloc()));
}
