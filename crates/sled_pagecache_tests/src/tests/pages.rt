// Pages as a log says them, and the table that keeps pages by their ids.

ghost use Rattle.std.specs.Prelude.{◌≡◌, ◌≤◌, length};
ghost use Rattle.sled_pagecache.specs.Limits.{most_pages};

use super::*;
use sled_pagecache::{CacheInfo, Page, PageTable, split_fanout};
use sled_pagecache_testing::tables::{lsn_at, page, table_of};
use std::mem::size_of;

// ---- a page of some messages, and a free one

/// Where a message is: its lsn, the pointer to it, and its log size.
type Place = (Lsn, DiskPtr, u64);

/// The messages of a page, how many bytes of the log they take, and the lsn of the last.
type Chain<'a> = (&'a [Place], u64, Lsn);

const CHAINS: &[Chain<'static>] = &[
    (&[FIRST], 25, 0),
    (&[FIRST, SECOND], 47, 25),
    (
        &[FIRST, SECOND, (47, DiskPtr::Inline(47), 131_090)],
        131_137,
        47,
    ),
    (
        &[
            FIRST,
            SECOND,
            (47, DiskPtr::Inline(47), 18),
            (65, DiskPtr::Inline(65), 18),
            (99, DiskPtr::Blob(99, 7), 40),
            (139, DiskPtr::Inline(139), 18),
            (200, DiskPtr::Inline(200), 18),
            (218, DiskPtr::Inline(218), 18),
            (236, DiskPtr::Blob(236, 236), 1_000),
            (1_236, DiskPtr::Inline(1_236), 22),
        ],
        1_199,
        1_236,
    ),
];

const FIRST: Place = (0, DiskPtr::Inline(0), 25);

const SECOND: Place = (25, DiskPtr::Blob(25, 25), 22);

fn state_of(alloc: Global, places: &[Place]) -> Option<PageState> {
    let (base, rest) = places.split_first()?;
    let frags = Vec::from_slice(alloc, rest).ok()?;
    Some(PageState::Present { base: *base, frags })
}

// Whether the entries are of these places, each without a stamp.
fn are_at(infos: &[CacheInfo], places: &[Place]) -> bool {
    for (info, (lsn, pointer, log_size)) in infos.iter().zip(places) {
        let is_so = info.ts == 0
            && info.lsn == *lsn
            && info.pointer == *pointer
            && info.log_size == *log_size;
        if !is_so {
            return false;
        }
    }
    infos.len() == places.len()
}

// Whether the page has this chain, or is free with it.
fn has_chain(page: &Page, (places, bytes, last): Chain<'_>, is_free: bool) -> bool {
    are_at(page.cache_infos(), places)
        && page.log_size() == bytes
        && page.last_lsn() == last
        && page.is_free() == is_free
}

fn is_said(alloc: Global, page: &Page, state: &PageState) -> bool {
    match page.to_page_state(alloc) {
        Ok(said) => said == *state,
        Err(_) => false,
    }
}

// Whether a copy of the page is said so.
fn is_said_again(alloc: Global, page: &Page, state: &PageState) -> bool {
    match page.clone() {
        Ok(copy) => is_said(alloc, &copy, state),
        Err(_) => false,
    }
}

// Whether the page of this state has the chain, and a copy of it is said by the state again.
fn is_chained(alloc: Global, state: &PageState, chain: Chain<'_>, is_free: bool) -> bool {
    match Page::from_state(alloc, state) {
        Ok(page) => has_chain(&page, chain, is_free) && is_said_again(alloc, &page, state),
        Err(_) => false,
    }
}

fn are_chained(alloc: Global, chain: Chain<'_>) -> bool {
    match state_of(alloc, chain.0) {
        Some(state) => is_chained(alloc, &state, chain, false),
        None => false,
    }
}

#[test]
fn a_page_reports_its_chain_and_is_said_by_it(rt: HostRuntime) {
    for chain in CHAINS {
        assert!(rt;
            are_chained(rt.alloc(), *chain),
            "{} messages",
            chain.0.len()
        );
    }
    for lsn in [0, 9] {
        let place = (lsn, DiskPtr::Inline(lsn as u64), 17);
        let state = PageState::Free(lsn, place.1);
        assert!(rt; is_chained(rt.alloc(), &state, (&[place], 17, lsn), true));
    }
}

// ---- a table of free pages, each with the lsn of its id

// Puts a page in the place of another, where there is one.
fn put(table: &mut PageTable, pid: PageId, page: Page) {
    if pid < table.len() as PageId {
        *table.get_mut(pid) = page;
    }
}

// Counts of pages, and ids, at both sides of where a table grows.
const COUNTS: [u64; 8] = [0, 1, 2, 3, 16, 17, 1000, (1 << 18) + 1];

const IDS: [PageId; 14] = [
    0,
    1,
    2,
    3,
    15,
    16,
    17,
    999,
    1000,
    (1 << 18) - 1,
    1 << 18,
    (1 << 18) + 1,
    1 << 37,
    u64::MAX,
];

// The first of the ids at which a table of so many pages keeps anything but the page of that lsn, or none behind its end.
fn misplaced(table: &PageTable, count: u64) -> Option<PageId> {
    for pid in IDS {
        let wanted = if pid < count { Some(pid as Lsn) } else { None };
        if lsn_at(table, pid) != wanted {
            return Some(pid);
        }
    }
    None
}

// Whether a table of so many pages has that length, and each page at its id.
fn are_kept(alloc: Global, count: u64) -> bool
    requires { count ≤ most_pages }
{
    match table_of(alloc, count) {
        Ok(table) => table.len() as u64 == count && misplaced(&table, count).is_none(),
        Err(_) => false,
    }
}

#[test]
fn pages_are_kept_by_their_ids(rt: HostRuntime) {
    for count in COUNTS {
        assert!(rt; are_kept(rt.alloc(), count), "{count} pages");
    }
}

#[test]
fn an_id_is_split(rt: HostRuntime) {
    for (id, wanted) in [
        (0, (0, 0)),
        ((1 << 18) - 1, (0, 262143)),
        (1 << 18, (1, 0)),
        ((1 << 19) - 1, (1, 262143)),
        ((1 << 37) - 1, (524287, 262143)),
    ] {
        assert_eq!(rt; split_fanout(id), wanted, "parts of {id}");
    }
}

// Puts a page of this lsn in the place of another, and whether it is found there.
fn is_put(alloc: Global, table: &mut PageTable, pid: u32, lsn: u32) -> bool {
    match page(alloc, Lsn::from(lsn)) {
        Ok(page) => {
            put(table, PageId::from(pid), page);
            lsn_at(table, PageId::from(pid)) == Some(Lsn::from(lsn))
        }
        Err(_) => false,
    }
}

// How many of these pages of a table of so many are changed in their places, and changed back, before the first where another page isn't
// what it was.
fn changed(alloc: Global, table: &mut PageTable, count: u64, pids: &[u32]) -> usize {
    for (done, pid) in pids.iter().enumerate() {
        let is_changed = is_put(alloc, table, *pid, 7)
            && is_put(alloc, table, *pid, *pid)
            && misplaced(table, count).is_none();
        if !is_changed {
            return done;
        }
    }
    pids.len()
}

fn changed_in_place(alloc: Global) -> usize {
    match table_of(alloc, (1 << 18) + 1) {
        Ok(mut table) => changed(
            alloc,
            &mut table,
            (1 << 18) + 1,
            &[0, 1, (1 << 18) - 1, 1 << 18],
        ),
        Err(_) => 0,
    }
}

#[test]
fn a_page_is_changed_in_its_place(rt: HostRuntime) {
    assert_eq!(rt; changed_in_place(rt.alloc()), 4);
}

// Whether a page goes in as the first of the table.
fn goes_in(alloc: Global, table: &mut PageTable) -> bool
    requires { 0 ≡ length table.old.pages }
{
    match page(alloc, 5) {
        Ok(page) => table.insert(0, page).is_ok() && lsn_at(table, 0) == Some(5),
        Err(_) => false,
    }
}

fn goes_in_behind_reserve(alloc: Global) -> bool {
    let mut table = PageTable::default(alloc);
    table.reserve().is_ok() && goes_in(alloc, &mut table)
}

#[test]
fn a_page_goes_in_where_room_was_made(rt: HostRuntime) {
    assert!(rt; goes_in_behind_reserve(rt.alloc()));
}

fn has_room_for_at_most(alloc: Global, count: u64, most: usize) -> bool
    requires { count ≤ most_pages }
{
    match table_of(alloc, count) {
        Ok(table) => table.capacity() <= most,
        Err(_) => false,
    }
}

// One message lies in place of a vector, and a node apart.
#[test]
fn an_entry_is_small(rt: HostRuntime) {
    assert!(rt; size_of::<Page>() <= 96);
}

// The room of a chunk grows as the chunk fills.
#[test]
fn few_pages_take_little_room(rt: HostRuntime) {
    for (count, most) in [(1, 16), (17, 64), (1000, 2048)] {
        assert!(rt;
            has_room_for_at_most(rt.alloc(), count, most),
            "room of {count} pages"
        );
    }
}
