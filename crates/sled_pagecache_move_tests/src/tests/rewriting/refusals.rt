// Caches that are not rewritten: where a read or a write failed, where a page is damaged, in a batch, and where the other log fails.

use super::super::told::{Answer, Message, PAGES, Told, opened};
use super::*;
use sled_pagecache_testing::failing::Trouble::{Full, Never, Read, Room, Write};
use sled_pagecache_testing::failing::{FailingLog, Trouble};
use sled_pagecache_testing::openings::{Faulty, opened_with};
use sled_pagecache_testing::steps::Step::Flushes;

// ---- refusals of the cache

// Page 2 of a leaf and three links, and page 3 of an empty leaf.
const TWO_PAGES: &[Step] = &[Adds(2, 1), Adds(3, 1), LinksFrom(2, 1, 3), Flushes];

// A cache over the log of these pages, of which none was read since.
fn unread(alloc: Global, trouble: &Trouble) -> Option<Faulty> {
    let mut cache = started(alloc, 512)?;
    let is_made = shown(alloc, &mut cache, TWO_PAGES) == TWO_PAGES.len();
    opened_with(alloc, log_if(cache, is_made)?, 10, trouble).ok()
}

// What three rewritings answer, where the read with a number fails. The opening of the cache reads two messages, and each rewriting five.
const FAILING: &[(u64, &[Result<u64, Outcome>])] = &[
    (3, &[Err(Unread), Ok(89), Ok(89)]),
    (4, &[Err(Unread), Ok(89), Ok(89)]),
    (7, &[Err(Unread), Ok(89), Ok(89)]),
    (8, &[Ok(89), Err(Unread), Ok(89)]),
    (12, &[Ok(89), Err(Unread), Ok(89)]),
    (17, &[Ok(89), Ok(89), Err(Unread)]),
    (18, &[Ok(89), Ok(89), Ok(89)]),
];

fn are_answered(alloc: Global, number: u64, answers: &[Result<u64, Outcome>]) -> bool {
    let Some(mut cache) = unread(alloc, &Read(number)) else {
        return false;
    };
    for answer in answers {
        if bytes_of(alloc, &mut cache) != *answer {
            return false;
        }
    }
    true
}

#[test]
fn a_read_that_fails_leaves_the_next_rewriting(rt: HostRuntime) {
    for (number, answers) in FAILING {
        assert!(rt; are_answered(rt.alloc(), *number, answers), "read {number}");
    }
}

// Whether pages 2 and 3 are rewritten, or page 2 is reported by its first wrong message.
fn is_told(alloc: Global, cache: &mut Told, wanted: Answer) -> bool {
    match cache.rewrite_into(MemLog::new(alloc, 512, 16)) {
        Ok(log) => wanted == Answer::Pair && log.size() == 89,
        Err((Error::Corruption(Some(place)), _log)) => wanted == Answer::Wrong(place.lid()),
        Err((Error::ReportableBug(Bug::FreeInPull), _log)) => wanted == Answer::Free,
        Err(_) => false,
    }
}

fn is_told_twice(alloc: Global, messages: &'static [Message], wanted: Answer) -> bool {
    match opened(alloc, messages) {
        Some(mut cache) => {
            is_told(alloc, &mut cache, wanted) && is_told(alloc, &mut cache, wanted)
        }
        None => false,
    }
}

#[test]
fn a_damaged_page_is_not_rewritten(rt: HostRuntime) {
    for (messages, wanted) in PAGES {
        assert!(rt;
            is_told_twice(rt.alloc(), messages, *wanted),
            "{messages:?}"
        );
    }
}

// What a cache answers in a batch, where the write with a number fails, and what it answers once the batch is closed. Its opening makes three
// writes, and the batch one before that of its page.
const BATCHES: &[(Trouble, Result<u64, Outcome>, Result<u64, Outcome>)] = &[
    (Never, Err(Refused(Why::BatchOpen)), Ok(60)),
    (Write(5), Err(Outcome::Faulty), Err(Outcome::Faulty)),
    (Write(6), Err(Refused(Why::BatchOpen)), Err(Outcome::Faulty)),
];

// What it answers in the batch and then.
fn in_a_batch(alloc: Global, trouble: &Trouble) -> Option<[Result<u64, Outcome>; 2]> {
    let mut cache = opened_with(alloc, MemLog::new(alloc, 512, 16), 10, trouble).ok()?;
    cache.pin().ok()?;
    let _added = shown(alloc, &mut cache, &[Adds(2, 1)]);
    let first = bytes_of(alloc, &mut cache);
    if !cache.batch_open() {
        return None;
    }
    let _sealed = cache.seal();
    Some([first, bytes_of(alloc, &mut cache)])
}

#[test]
fn a_kept_fault_comes_before_an_open_batch(rt: HostRuntime) {
    for (number, (trouble, first, then)) in BATCHES.iter().enumerate() {
        assert!(rt;
            in_a_batch(rt.alloc(), trouble) == Some([*first, *then]),
            "{number}"
        );
    }
}

// ---- refusals of the other log

const UNWRITTEN: &[(Trouble, Result<u64, Outcome>)] = &[
    (Write(1), Err(Outcome::Faulty)),
    (Write(2), Err(Outcome::Faulty)),
    (Write(4), Err(Outcome::Faulty)),
    (Write(5), Err(Outcome::Faulty)),
    (Write(6), Err(Outcome::Faulty)),
    (Write(7), Ok(102)),
    (Full(1), Err(Refused(Why::LogFull))),
    (Full(4), Err(Refused(Why::LogFull))),
    (Full(5), Err(Refused(Why::LogFull))),
    (Full(6), Ok(102)),
    (Room(0), Err(Refused(Why::LogFull))),
    (Room(34), Err(Refused(Why::LogFull))),
    (Room(84), Err(Refused(Why::LogFull))),
    (Room(101), Err(Refused(Why::LogFull))),
    (Room(102), Ok(102)),
    (Read(1), Ok(102)),
];

// What a cache answers that is rewritten into a log with this trouble.
fn answered(alloc: Global, cache: &mut Cache, trouble: &Trouble) -> Result<u64, Outcome> {
    match cache.rewrite_into(FailingLog::new(MemLog::new(alloc, 512, 16), trouble)) {
        Ok(log) => Ok(log.size()),
        Err((error, _log)) => Err(outcome_of(&error)),
    }
}

// Whether a cache answers so, and is written and rewritten behind it.
fn goes_on(alloc: Global, trouble: &Trouble, answer: Result<u64, Outcome>) -> bool {
    let Some(mut cache) = started(alloc, 512) else {
        return false;
    };
    shown(alloc, &mut cache, WRITTEN) == WRITTEN.len()
        && answered(alloc, &mut cache, trouble) == answer
        && bytes_of(alloc, &mut cache) == Ok(102)
        && shown(alloc, &mut cache, &[Adds(3, 3), Flushes]) == 2
        && bytes_of(alloc, &mut cache) == Ok(85)
}

#[test]
fn a_log_that_fails_leaves_the_cache(rt: HostRuntime) {
    for (number, (trouble, answer)) in UNWRITTEN.iter().enumerate() {
        assert!(rt; goes_on(rt.alloc(), trouble, *answer), "{number}");
    }
}
