// Moves of pages whose messages make no node, and moves whose allocations are refused.

use super::told::{
    Answer, CONFIRM, LEAF, LONG_CAP, LONG_LEAF, Message, PAGES, SHORT_SET, Told, got, opened,
};
use super::*;
use sled_pagecache_testing::calls::{adds, attempts, moves, replaces_by_empty, size_of};
use sled_pagecache_testing::memory::{made, opens};
use sled_pagecache_testing::scripts::opened_over;
use sled_pagecache_testing::sights::gets;
use sled_pagecache_testing::steps::Outcome::{At, Made};
use sled_pagecache_testing::steps::Sight::{Absent, Empty, Pair};
use sled_pagecache_testing::steps::Step::{Adds, Counts, Frees, Gets, Has, Links, ReplacesByPair};
use sled_pagecache_testing::steps::{Outcome, PAIR, Step};

// ---- a log that is told its messages

// Whether the move of page 2 reports what a get of it does. A page that could be moved finds the log full.
fn refuses_so(cache: &mut Told, wanted: Answer) -> bool {
    match cache.attempt_gc() {
        Err(Error::Corruption(Some(place))) => wanted == Answer::Wrong(place.lid()),
        Err(Error::ReportableBug(Bug::FreeInPull)) => wanted == Answer::Free,
        Err(Error::Unsupported(Why::LogFull)) => wanted == Answer::Pair,
        _ => false,
    }
}

// Whether it does so twice, and a get behind it answers as it does without.
fn is_refused(alloc: Global, messages: &'static [Message], wanted: Answer) -> bool {
    match opened(alloc, messages) {
        Some(mut cache) => {
            refuses_so(&mut cache, wanted)
                && refuses_so(&mut cache, wanted)
                && got(&mut cache) == Some(wanted)
        }
        None => false,
    }
}

#[test]
fn the_move_of_a_damaged_page_is_refused(rt: HostRuntime) {
    for (messages, wanted) in PAGES {
        assert!(rt; is_refused(rt.alloc(), messages, *wanted), "{messages:?}");
    }
}

// ---- a log in memory

// Above how many bytes payloads are blobs; the messages of page 2, which lies between the system pages and an empty leaf; the place that
// a get of it reports; how many bytes the log has once the system pages were moved; and where page 2 was moved, the place that is
// reported then and how many bytes there are.
type Damaged = (usize, &'static [Message], u64, u64, Option<(u64, u64)>);

const COUNTER: Message = (MessageKind::Counter, &[0]);

const SHORT_LEAF: Message = (MessageKind::InlineNode, &[0; 7]);

const DAMAGED: &[Damaged] = &[
    (8, &[LONG_LEAF], 35, 121, Some((121, 147))),
    (6, &[SHORT_LEAF], 35, 119, Some((119, 143))),
    (0, &[COUNTER], 35, 113, Some((113, 131))),
    (512, &[LONG_LEAF], 35, 121, None),
    (512, &[SHORT_LEAF], 35, 119, None),
    (512, &[COUNTER], 35, 113, None),
    (512, &[LEAF, SHORT_SET], 60, 141, None),
    (512, &[LEAF, CONFIRM], 60, 138, None),
    (4, &[LEAF, LONG_CAP], 60, 139, None),
    (0, &[LEAF, SHORT_SET], 60, 141, None),
];

// A log of such pages, in which a message is due for each.
fn log_of_damaged(alloc: Global, blob_limit: usize, messages: &[Message]) -> Option<MemLog> {
    let mut log = MemLog::new(alloc, blob_limit, 1);
    let _roots = log.append(MessageKind::InlineMeta, 0, &[]).ok()?;
    let _counter = log.append(MessageKind::Counter, 1, &[0]).ok()?;
    for (kind, payload) in messages {
        let _said = log.append(*kind, 2, *payload).ok()?;
    }
    let _leaf = log.append(LEAF.0, 3, LEAF.1).ok()?;
    Some(log)
}

// Whether page 2 was moved so, or was refused and isn't named again, and what is behind it is.
fn ends_so(alloc: Global, cache: &mut Cache, damaged: &Damaged) -> bool {
    match damaged.4 {
        Some((place, size)) => {
            attempts(cache) == Ok(true)
                && size_of(cache) == Ok(size)
                && got(cache) == Some(Answer::Wrong(place))
        }
        None => {
            is_reported(cache, damaged.2)
                && size_of(cache) == Ok(damaged.3)
                && attempts(cache) == Ok(false)
                && got(cache) == Some(Answer::Wrong(damaged.2))
                && adds(cache, Node::default(alloc)) == Made(4, 1)
                && attempts(cache) != Ok(false)
        }
    }
}

fn is_reported(cache: &mut Cache, wanted: u64) -> bool {
    match cache.attempt_gc() {
        Err(Error::Corruption(Some(place))) => place.lid() == wanted,
        _ => false,
    }
}

// Whether all that is so. Page 3 is lent behind it.
fn is_moved_so(alloc: Global, cache: &mut Cache, damaged: &Damaged) -> bool {
    got(cache) == Some(Answer::Wrong(damaged.2))
        && moves(cache, 2)
        && size_of(cache) == Ok(damaged.3)
        && ends_so(alloc, cache, damaged)
        && matches!(cache.get(3), Ok(Some(_)))
}

// Whether page 3 is replaced, and page 2 is moved behind it, or that is passed over.
fn is_passed_over(alloc: Global, cache: &mut Cache, damaged: &Damaged) -> bool {
    let (place, size) = match damaged.4 {
        Some((place, size)) => (place.saturating_add(25), size.saturating_add(25)),
        None => (damaged.2, damaged.3.saturating_add(25)),
    };
    moves(cache, 2)
        && replaces_by_empty(alloc, cache, 3, 0) == At(1)
        && size_of(cache) == Ok(size)
        && got(cache) == Some(Answer::Wrong(place))
        && gets(cache, 3, &Empty(1)) == Some(true)
        && replaces_by_empty(alloc, cache, 2, 0) == At(1)
        && gets(cache, 2, &Empty(1)) == Some(true)
}

#[test]
fn a_replacement_passes_over_a_damaged_page(rt: HostRuntime) {
    for damaged in DAMAGED {
        let log = log_of_damaged(rt.alloc(), damaged.0, damaged.1);
        let is_so = match log.and_then(|log| opened_over(rt.alloc(), CONFIG, log)) {
            Some(mut cache) => is_passed_over(rt.alloc(), &mut cache, damaged),
            None => false,
        };
        assert!(rt; is_so, "{damaged:?}");
    }
}

// How often the log was read, if all that is so.
fn reads_of(alloc: Global, damaged: &Damaged) -> Option<u64> {
    let log = log_of_damaged(alloc, damaged.0, damaged.1)?;
    let mut cache = opened_over(alloc, CONFIG, log)?;
    let is_so = is_moved_so(alloc, &mut cache, damaged);
    Some(log_if(cache, is_so)?.reads())
}

// A read of page 2 is one of each of its messages. The opening reads twice, and page 3 is read once.
fn reads_wanted(damaged: &Damaged) -> u64 {
    match (damaged.4, damaged.1.len()) {
        (Some(_), _) => 2 + 2 + 1,
        (None, 1) => 2 + 3 + 1,
        _ => 2 + 4 * 2 + 1,
    }
}

#[test]
fn a_damaged_page_is_moved_where_it_is_one_blob(rt: HostRuntime) {
    for damaged in DAMAGED {
        assert_eq!(rt;
            reads_of(rt.alloc(), damaged),
            Some(reads_wanted(damaged)),
            "{damaged:?}"
        );
    }
}

// ---- refused allocations

const FILLED: &[Step] = &[
    Adds(2, 1),
    Adds(3, 1),
    Links(2, 1, PAIR, At(2)),
    Links(2, 2, PAIR, At(3)),
    ReplacesByPair(2, 3, At(4)),
    Frees(3, 1, At(2)),
];

// The stamp of page 2 and of the cache's own pages.
const FOUND: &[Step] = &[
    Gets(2, Pair(4, b"k", b"v")),
    Gets(3, Absent),
    Has(0, 1),
    Counts(0, 1),
];

const FOUND_AGAIN: &[Step] = &[
    Gets(2, Pair(0, b"k", b"v")),
    Gets(3, Absent),
    Has(0, 0),
    Counts(0, 0),
];

// Whether a message is due or not, or the move is refused and writes nothing.
fn tries(cache: &mut Cache) -> bool {
    let before = size_of(cache);
    match attempts(cache) {
        Ok(_) => true,
        Err(Outcome::Unmade) => size_of(cache) == before,
        Err(_) => false,
    }
}

// Whether each of seven tries ends so.
fn tries_all(cache: &mut Cache) -> bool {
    for _ in 0..7 {
        if !tries(cache) {
            return false;
        }
    }
    true
}

// How many of these steps show what they should, behind such tries in a new cache and in one that is opened again over its log.
fn steps_made(alloc: Global, blob_limit: usize) -> Option<(usize, usize)> {
    let mut cache = opens(alloc, MemLog::new(alloc, blob_limit, 1))?;
    let is_so = made(alloc, &mut cache, FILLED) == FILLED.len() && tries_all(&mut cache);
    let found = made(alloc, &mut cache, FOUND);
    let mut cache = opens(alloc, log_if(cache, is_so)?)?;
    let is_so = tries_all(&mut cache);
    let found_again = made(alloc, &mut cache, FOUND_AGAIN);
    let _log = log_if(cache, is_so)?;
    Some((found, found_again))
}

#[test]
fn a_refused_allocation_leaves_what_is_moved(rt: HostRuntime) {
    for blob_limit in [512, 4] {
        assert_eq!(rt;
            steps_made(rt.alloc(), blob_limit),
            Some((FOUND.len(), FOUND_AGAIN.len())),
            "over {blob_limit} bytes"
        );
    }
}
