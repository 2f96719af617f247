// Lists of calls, with what each answers and what each of its changes leaves, as the texts of the calls have it. No cache is asked.

mod spilling;

use self::Call::{
    Adds, Cancels, Draws, Flushes, Frees, Gets, Links, Moves, Opens, Pins, Replaces, Seals, Swaps,
};
use self::Left::{Counter, First, Root, Second, Third};
pub(super) use self::spilling::SPILLING;
use super::*;
use sled_pagecache_testing::calls::{
    adds, attempts, draws, flushes, frees, links_so, opens, outcome_of, replaces_by_pair, size_of,
    swaps,
};
use sled_pagecache_testing::steps::Change::Set;
use sled_pagecache_testing::steps::Outcome::{At, Done, Id, Made};
use sled_pagecache_testing::steps::Sight::{Absent, Empty, Leads, Letters};
use sled_pagecache_testing::steps::{Outcome, Sight, Step, shown};

/// The name of the tree.
pub(super) const NAME: &[u8] = b"t";

/// A call.
#[derive(Clone, Copy)]
pub(super) enum Call {
    // an empty leaf on the next page
    Adds,
    // a link on page 2 that sets this letter, by a token of this stamp
    Links(u64, &'static [u8]),
    // a replacement of page 2, by a token of this stamp
    Replaces(u64),
    // page 3, by a token of this stamp
    Frees(u64),
    Gets(PageId),
    Opens,
    // the tree gets the second root in place of the first
    Swaps(PageId, PageId),
    Draws,
    Moves,
    Pins,
    Seals,
    Cancels,
    Flushes,
}

/// What a change leaves.
#[derive(Clone, Copy)]
pub(super) enum Left {
    // page 2, of so many messages
    First(Sight, usize),
    // pages 3 and 4, of one each
    Second(Sight),
    Third(Sight),
    // the root of the tree, and the stamp of the names' page
    Root(PageId, u64),
    // the counter, and the stamp of its page
    Counter(u64, u64),
}

/// A call, what it answers, and what each of its changes leaves.
pub(super) type Row = (Call, Outcome, &'static [Left]);

/// The calls of openings, one after another over one log, where an interval has ten ids. A batch that one leaves open counts for nothing in
/// the next.
pub(super) type List = &'static [&'static [Row]];

pub(super) const OPENINGS: List = &[FIRST_OPENING, SECOND_OPENING];

pub(super) const FIRST_OPENING: &[Row] = &[
    (Adds, Made(2, 1), &[First(Empty(1), 1)]),
    (Adds, Made(3, 1), &[Second(Empty(1))]),
    (Links(1, b"a"), At(2), &[First(Letters(2, b"a"), 2)]),
    (Links(2, b"b"), At(3), &[First(Letters(3, b"ab"), 3)]),
    (Links(3, b"c"), At(4), &[First(Letters(4, b"abc"), 4)]),
    (Links(4, b"d"), At(5), &[First(Letters(5, b"abcd"), 5)]),
    (Links(5, b"e"), At(6), &[First(Letters(6, b"abcde"), 6)]),
    (Links(6, b"f"), At(7), &[First(Letters(7, b"abcdef"), 7)]),
    (Links(7, b"g"), At(8), &[First(Letters(8, b"abcdefg"), 8)]),
    (Links(8, b"h"), At(9), &[First(Letters(9, b"abcdefgh"), 9)]),
    (
        Links(9, b"i"),
        At(10),
        &[First(Letters(10, b"abcdefghi"), 10)],
    ),
    // the node is written whole
    (
        Links(10, b"j"),
        At(11),
        &[First(Letters(11, b"abcdefghij"), 1)],
    ),
    (
        Links(11, b"k"),
        At(12),
        &[First(Letters(12, b"abcdefghijk"), 2)],
    ),
    (Pins, Done, &[]),
    (Replaces(12), At(13), &[First(Letters(13, b"k"), 1)]),
    (Frees(1), At(2), &[Second(Absent)]),
    (Seals, Done, &[]),
    (
        Opens,
        Id(4),
        &[Second(Empty(3)), Third(Leads(1, 3)), Root(4, 2)],
    ),
    (Swaps(4, 2), Done, &[Root(2, 3)]),
    (Draws, Id(0), &[]),
    (Draws, Id(1), &[]),
    (Draws, Id(2), &[]),
    (Draws, Id(3), &[]),
    (Draws, Id(4), &[]),
    (Draws, Id(5), &[]),
    (Draws, Id(6), &[]),
    (Draws, Id(7), &[]),
    (Draws, Id(8), &[]),
    (Draws, Id(9), &[]),
    (Draws, Id(10), &[Counter(10, 2)]),
    (Moves, Done, &[]),
    (Flushes, Done, &[]),
];

const SECOND_OPENING: &[Row] = &[
    (Gets(3), Done, &[]),
    (Links(0, b"z"), At(1), &[First(Letters(1, b"kz"), 2)]),
    (Moves, Done, &[]),
    (Draws, Id(30), &[Counter(30, 1)]),
    (Frees(0), At(1), &[Second(Absent)]),
    (Flushes, Done, &[]),
];

// ---- the calls

pub(super) fn answer<L: Log>(alloc: Global, cache: &mut PageCache<L>, call: &Call) -> Outcome {
    match *call {
        Adds => adds(cache, Node::default(alloc)),
        Links(stamp, letter) => links_so(alloc, cache, 2, stamp, &Set(letter, b"v")),
        Replaces(stamp) => replaces_by_pair(alloc, cache, 2, stamp),
        Frees(stamp) => frees(cache, 3, stamp),
        Gets(pid) => lends(cache, pid),
        Opens => opens(alloc, cache, NAME),
        Swaps(old, new) => swaps(cache, NAME, Some(old), Some(new)),
        Draws => draws(cache),
        _ => answer_of_log(cache, call),
    }
}

fn answer_of_log<L: Log>(cache: &mut PageCache<L>, call: &Call) -> Outcome {
    match *call {
        Moves => done(attempts(cache).err()),
        Pins => done(cache.pin().err().as_ref().map(outcome_of)),
        Seals if cache.batch_open() => done(cache.seal().err().as_ref().map(outcome_of)),
        Cancels if cache.batch_open() => done(cache.cancel().err().as_ref().map(outcome_of)),
        // where a write error has kept a batch from being opened, no other call takes its place
        Seals | Cancels => done(size_of(cache).err()),
        _ => done(flushes(cache).err()),
    }
}

fn done(fault: Option<Outcome>) -> Outcome {
    fault.unwrap_or(Done)
}

fn lends<L: Log>(cache: &mut PageCache<L>, pid: PageId) -> Outcome {
    match cache.get(pid) {
        Ok(Some(_)) => Done,
        Ok(None) => Outcome::Gone,
        Err(Refusal::OutOfMemory) => Outcome::Unmade,
        Err(Refusal::Io(Device::Read)) => Outcome::Unread,
        Err(Refusal::Io(Device::Write)) => Outcome::Faulty,
        Err(_) => Outcome::Other,
    }
}

// ---- what is there

/// All that is there.
#[derive(Clone, Copy)]
pub(super) struct Plain {
    first: Sight,
    second: Sight,
    third: Sight,
    root: Option<PageId>,
    names_stamp: u64,
    counter: u64,
    counter_stamp: u64,
    // the messages of page 2, and of all other pages
    links: usize,
    others: usize,
}

/// A new cache.
pub(super) const NEW: Plain = Plain {
    first: Absent,
    second: Absent,
    third: Absent,
    root: None,
    names_stamp: 1,
    counter: 0,
    counter_stamp: 1,
    links: 0,
    others: 2,
};

// What is there behind a change.
fn after(plain: Plain, left: &Left) -> Plain {
    match *left {
        First(first, links) => Plain {
            first,
            links,
            ..plain
        },
        Second(second) => Plain {
            second,
            others: plain.others.max(3),
            ..plain
        },
        Third(third) => Plain {
            third,
            others: 4,
            ..plain
        },
        Root(root, names_stamp) => Plain {
            root: Some(root),
            names_stamp,
            ..plain
        },
        Counter(counter, counter_stamp) => Plain {
            counter,
            counter_stamp,
            ..plain
        },
    }
}

/// The same behind all changes of a call.
pub(super) fn after_all(plain: Plain, changes: &[Left]) -> Plain {
    let mut plain = plain;
    for left in changes {
        plain = after(plain, left);
    }
    plain
}

fn unseen(sight: Sight) -> Sight {
    match sight {
        Empty(_) => Empty(0),
        Letters(_, letters) => Letters(0, letters),
        Leads(_, leaf) => Leads(0, leaf),
        _ => sight,
    }
}

/// The same in a cache that is opened again.
pub(super) fn reopened(plain: Plain) -> Plain {
    Plain {
        first: unseen(plain.first),
        second: unseen(plain.second),
        third: unseen(plain.third),
        names_stamp: 0,
        counter_stamp: 0,
        ..plain
    }
}

/// What is there in a cache that is opened again behind so many of all changes, and whether they end inside a batch.
pub(super) fn behind(list: List, changes: usize) -> (Plain, bool) {
    let (mut plain, mut more, mut is_inside) = (NEW, changes, false);
    for rows in list {
        let (mut before, mut is_batch) = (plain, false);
        for (call, _, lefts) in *rows {
            is_batch = matches!(call, Pins) || is_batch && !matches!(call, Seals | Cancels);
            is_inside = is_inside && is_batch;
            if !is_batch || matches!(call, Pins) {
                before = plain;
            }
            for left in *lefts {
                if more == 0 {
                    return (reopened(plain), is_inside);
                }
                more -= 1;
                plain = after(plain, left);
                is_inside = is_batch;
            }
        }
        if is_batch {
            (plain, is_inside) = (before, false);
        }
    }
    (reopened(plain), is_inside)
}

// ---- what a cache shows

/// Whether a cache shows all that is there. How many messages make it can't be told where some were moved.
pub(super) fn is_plain<L: Log>(
    alloc: Global,
    cache: &mut PageCache<L>,
    plain: &Plain,
    is_moved: bool,
) -> bool {
    let root = match plain.root {
        Some(root) => Step::Finds(NAME, root),
        None => Step::Lacks(NAME),
    };
    let names = if plain.root.is_some() { 1 } else { 0 };
    let steps = [
        Step::Gets(2, plain.first),
        Step::Gets(3, plain.second),
        Step::Gets(4, plain.third),
        Step::Gets(5, Absent),
        root,
        Step::Has(names, plain.names_stamp),
        Step::Counts(plain.counter, plain.counter_stamp),
    ];
    shown(alloc, cache, &steps) == steps.len() && (is_moved || has_messages(cache, plain))
}

// Whether so many messages make all pages.
fn has_messages<L: Log>(cache: &PageCache<L>, plain: &Plain) -> bool {
    let Ok(snapshot) = cache.take_fuzzy_snapshot() else {
        return false;
    };
    let mut count = 0usize;
    for state in &snapshot.pt {
        count = count.saturating_add(messages_of(state));
    }
    count == plain.links.saturating_add(plain.others)
}

fn messages_of(state: &PageState) -> usize {
    match state {
        PageState::Present { frags, .. } => frags.len().saturating_add(1),
        PageState::Free(..) => 1,
    }
}
