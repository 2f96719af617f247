// Scripts of calls, each of which is made a second time where an allocation failed. Run with one allocation refused, whichever it
// is, they show the same and as many bytes: what was refused had changed nothing.

use super::*;
use sled_pagecache_testing::calls::{draws, names_and_stamp, replaces_by_pair};
use sled_pagecache_testing::memory::{made, makes, new_cache, opens};
use sled_pagecache_testing::steps::Change::Set;
use sled_pagecache_testing::steps::Outcome::At;
use sled_pagecache_testing::steps::Sight::{Absent, Pair, Pairs};
use sled_pagecache_testing::steps::Step::{
    Adds, Frees, Gets, Links, ReplacesByPair, Takes, Writes,
};
use sled_pagecache_testing::steps::{Change, Outcome, PAIR, Step, shows};

// A link that sets a value of more bytes than are kept in place.
const LONG: Change = Set(b"c", &[7; 34]);

// Two pages are added, and one is linked and the other replaced. The links take so many bytes of the log: nine links, the node of one
// pair that the tenth makes, and a link. A third page is an empty leaf and two links.
const FILLED: &[Step] = &[
    Takes(35),
    Adds(2, 1),
    Adds(3, 1),
    Takes(85),
    Links(2, 1, PAIR, At(2)),
    Links(2, 2, PAIR, At(3)),
    Links(2, 3, PAIR, At(4)),
    Links(2, 4, PAIR, At(5)),
    Links(2, 5, PAIR, At(6)),
    Links(2, 6, PAIR, At(7)),
    Links(2, 7, PAIR, At(8)),
    Links(2, 8, PAIR, At(9)),
    Links(2, 9, PAIR, At(10)),
    Links(2, 10, PAIR, At(11)),
    Links(2, 11, PAIR, At(12)),
    Takes(85 + 9 * 22 + 29 + 22),
    ReplacesByPair(3, 1, At(2)),
    Takes(363),
    Adds(4, 1),
    Links(4, 1, PAIR, At(2)),
    Links(4, 2, LONG, At(3)),
    Takes(465),
    Writes(430),
];

// All stand again, and one is linked and another one freed.
const FOUND: &[Step] = &[
    Gets(2, Pair(0, b"b", b"v")),
    Gets(3, Pair(0, b"k", b"v")),
    Gets(4, Pairs(0, &[(b"b", b"v"), (b"c", &[7; 34])])),
    Links(2, 0, PAIR, At(1)),
    Takes(487),
    Frees(3, 0, At(1)),
    Takes(504),
];

// How many of these steps show what they should, in a new cache and in one that is opened again over its log.
fn steps_made(alloc: Global) -> Option<(usize, usize)> {
    let mut cache = new_cache(alloc)?;
    let filled = made(alloc, &mut cache, FILLED);
    let mut cache = opens(alloc, log_of(cache)?)?;
    Some((filled, made(alloc, &mut cache, FOUND)))
}

#[test]
fn refused_allocations_change_nothing(rt: HostRuntime) {
    assert_eq!(rt; steps_made(rt.alloc()), Some((FILLED.len(), FOUND.len())));
}

// Whether page 3 is replaced in a batch, and none where an allocation failed. Inside it such an allocation is made again; sealing
// makes none.
fn batch_once(alloc: Global, cache: &mut Cache) -> Option<bool> {
    let mut guard = match cache.pin_log() {
        Ok(guard) => guard,
        Err(Error::OutOfMemory) => return None,
        Err(_) => return Some(false),
    };
    let mut answer = replaces_by_pair(alloc, guard.cache(), 3, 1);
    if answer == Outcome::Unmade {
        answer = replaces_by_pair(alloc, guard.cache(), 3, 1);
    }
    Some(guard.seal_batch().is_ok() && answer == At(2))
}

fn replaces_in_a_batch(alloc: Global, cache: &mut Cache) -> bool {
    match batch_once(alloc, cache) {
        Some(done) => done,
        None => batch_once(alloc, cache) == Some(true),
    }
}

// Whether a batch over two pages is whole, and stands when the cache is opened again.
fn keeps_a_batch(alloc: Global, mut cache: Cache) -> Option<bool> {
    let is_written = made(alloc, &mut cache, &[Adds(2, 1), Adds(3, 1), Takes(85)]) == 3
        && replaces_in_a_batch(alloc, &mut cache)
        && makes(alloc, &mut cache, &Takes(85 + 29));
    let mut cache = opens(alloc, log_of(cache)?)?;
    Some(is_written && makes(alloc, &mut cache, &Gets(3, Pair(0, b"k", b"v"))))
}

#[test]
fn a_refused_allocation_leaves_a_batch_whole(rt: HostRuntime) -> Result<(), Fail> {
    let cache = new_cache(rt.alloc()).ok_or("a new cache")?;
    assert_eq!(rt; keeps_a_batch(rt.alloc(), cache), Some(true));
    Ok(())
}

// Whether these ids are drawn, each a second time where an allocation failed. Only an id with a new counter allocates.
fn draws_ids(cache: &mut Cache, first: u64, end: u64) -> bool {
    for id in first..end {
        let mut answer = draws(cache);
        if answer == Outcome::Unmade && id != 0 && id % 10 == 0 {
            answer = draws(cache);
        }
        if answer != Outcome::Id(id) {
            return false;
        }
    }
    true
}

// Whether the ids of a cache, and of one that is opened again over its log, are drawn so.
fn keeps_ids(alloc: Global, mut cache: Cache) -> Option<bool> {
    let are_drawn = draws_ids(&mut cache, 0, 31) && makes(alloc, &mut cache, &Takes(35 + 3 * 18));
    let mut cache = opens(alloc, log_of(cache)?)?;
    Some(
        are_drawn && draws_ids(&mut cache, 50, 71) && makes(alloc, &mut cache, &Takes(89 + 3 * 18)),
    )
}

#[test]
fn a_refused_allocation_uses_no_id(rt: HostRuntime) -> Result<(), Fail> {
    let cache = new_cache(rt.alloc()).ok_or("a new cache")?;
    assert_eq!(rt; keeps_ids(rt.alloc(), cache), Some(true));
    Ok(())
}

// What opening a tree answered, and none where an allocation failed.
fn tree_once(alloc: Global, cache: &mut Cache) -> Option<PageId> {
    let name = IVec::from_array(alloc, *b"t").ok()?;
    open_tree(cache, name).ok()
}

// Whether the tree is opened: behind the pages that stand where an allocation failed.
fn opens_tree(alloc: Global, cache: &mut Cache) -> bool {
    if let Some(root) = tree_once(alloc, cache) {
        return root == 3;
    }
    let first = if shows(alloc, cache, &Gets(2, Absent)) {
        2
    } else if shows(alloc, cache, &Gets(3, Absent)) {
        3
    } else {
        4
    };
    tree_once(alloc, cache) == Some(first + 1)
}

// Whether the tree is the only one of a new cache.
fn has_tree(alloc: Global) -> bool {
    match new_cache(alloc) {
        Some(mut cache) => opens_tree(alloc, &mut cache) && has_one_name(&cache),
        None => false,
    }
}

fn has_one_name(cache: &Cache) -> bool {
    matches!(names_and_stamp(cache), Some((1, _)))
}

#[test]
fn a_refused_allocation_leaves_what_was_made_of_a_tree(rt: HostRuntime) {
    assert!(rt; has_tree(rt.alloc()));
}
