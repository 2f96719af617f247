use crate::corners::{batches, closings, without_room};
use crate::crews::{asked_by_four, crew_of};
use crate::entered::{add_entries, texts_of};
use crate::faults::{kept_before, kept_error};
use crate::poor::poor;
use crate::refused::goes_on;
use crate::replay::replayed;
use crate::rows::{FULL, answers_in_a_row, are, batch_rows, end_so, rows};
use crate::tokens::{strange, strange_again};
use sled_shared::Blank;
use std::marker::Brand;
use std::test::Fail;

#[test]
fn crew_needs_two_threads(rt: HostRuntime) -> Result<(), Fail> {
    let (calls, met, ids) = crew_of::<Brand, _>(rt, rt.alloc(), 4, 100, Blank::new(5), 5)?;
    assert_eq!(rt; calls, 400);
    assert!(rt; met, "workers 0 and 1 did not meet");
    assert!(rt; ids, "the book does not have the ids 0 to 399");
    Ok(())
}

#[test]
fn answers_are_in_the_books(rt: HostRuntime) -> Result<(), Fail> {
    let asked = asked_by_four::<Brand, _>(rt, rt.alloc(), Blank::new(5), 5)?;
    assert_eq!(rt; asked.total, 288);
    let mut entered = texts_of(rt.alloc(), asked.first.entries())?;
    add_entries(rt.alloc(), &mut entered, asked.last.entries())?;
    entered.sort()?;
    let mut told = asked.texts;
    told.sort()?;
    assert_eq!(rt; told, entered);
    Ok(())
}

#[test]
fn books_of_four_threads_are_made_again_by_one(rt: HostRuntime) -> Result<(), Fail> {
    let asked = asked_by_four::<Brand, _>(rt, rt.alloc(), Blank::new(5), 5)?;
    let mut entered = texts_of(rt.alloc(), asked.first.entries())?;
    add_entries(rt.alloc(), &mut entered, asked.last.entries())?;
    let again = replayed::<Brand, _>(&rt, rt.alloc(), &asked.first, &asked.last, Blank::new(2), 2)?;
    assert_eq!(rt; entered.len(), 288);
    assert_eq!(rt; entered, again);
    Ok(())
}

#[test]
fn books_are_filled_taken_and_closed(rt: HostRuntime) -> Result<(), Fail> {
    let told = rows::<Brand, _>(&rt, rt.alloc(), Blank::new(2), 2);
    assert_eq!(rt; told, Some(([0, 1, FULL, 2], 2, 2, (3, 1, 2))));
    Ok(())
}

#[test]
fn a_refused_swap_cancels_its_batch(rt: HostRuntime) -> Result<(), Fail> {
    let told = batch_rows::<Brand, _>(&rt, rt.alloc(), Blank::new(2), 2);
    assert_eq!(rt; told, Some((true, 1, 2, 3)));
    Ok(())
}

/// What the calls of a new cache answer, in their order.
const ENDS: &[&str] = &[
    ": Ok((2, PageView { pid: 2, stamp: 1 }))",
    ": Ok(Made)",
    ", 7, 7])] }) })))",
    ", 7, 7])] }) }))] Ok(())",
    "get [9, 0, 2]: [None] Err(Unsupported(ReservedId))",
    ": Ok(Made)",
    ": [Made, Stale(4), Gone] Ok(())",
    ": Ok(Made)",
    "get 2: Ok(None)",
    "id: Ok(0)",
    "flush: Ok(145)",
    ": Ok(3)",
    ": Ok(Ok(()))",
    ": Ok(Some(3))",
    ": Ok(None)",
];

#[test]
fn each_call_succeeds(rt: HostRuntime) {
    let texts = answers_in_a_row::<Brand, _>(&rt, rt.alloc(), Blank::new(2), 2);
    assert!(rt; texts.is_some_and(|texts| end_so(&texts, ENDS)));
}

/// A book of three: a page, a flush that meets the error, a batch, and a call that has no room; the book; an id in the next one, and that
/// book; the share's count, and the closing.
const KEPT: &[&str] = &[
    "Ok((2, PageView { pid: 2, stamp: 1 }))",
    "Err(Io(Write))",
    "Err((Io(Write), []))",
    "Err(Unsupported(BookFull))",
    "0 [PageShape { stamp: 1, kind: Roots }, PageShape { stamp: 1, kind: Counter }] false 3",
    "Err(Io(Write))",
    "3 [PageShape { stamp: 1, kind: Roots }, PageShape { stamp: 1, kind: Counter }, PageShape { stamp: 1, kind: Node }] true 1",
    "4",
    "4",
    "4 [PageShape { stamp: 1, kind: Roots }, PageShape { stamp: 1, kind: Counter }, PageShape { stamp: 1, kind: Node }] true 0",
];

#[test]
fn a_full_book_is_told_before_a_kept_error(rt: HostRuntime) {
    let texts = kept_error::<Brand>(rt.alloc(), Blank::new(2), 2);
    assert!(rt; texts.is_some_and(|texts| are(&texts, KEPT)));
}

/// A page and the flush that meets the error, before the cache is shared; a page and a batch behind it; their book; and the closing.
const KEPT_BEFORE: &[&str] = &[
    "Ok((2, PageView { pid: 2, stamp: 1 }))",
    "Err(Io(Write))",
    "Err(Io(Write))",
    "Err((Io(Write), []))",
    "0 [PageShape { stamp: 1, kind: Roots }, PageShape { stamp: 1, kind: Counter }, PageShape { stamp: 1, kind: Node }] true 2",
    "2",
    "2 [PageShape { stamp: 1, kind: Roots }, PageShape { stamp: 1, kind: Counter }, PageShape { stamp: 1, kind: Node }] true 0",
];

#[test]
fn a_cache_with_a_kept_error_is_shared(rt: HostRuntime) {
    let texts = kept_before::<Brand>(rt.alloc(), Blank::new(2), 2);
    assert!(rt; texts.is_some_and(|texts| are(&texts, KEPT_BEFORE)));
}

/// A batch whose second swap is refused, a page, and a get; and the ends of their entries.
const POOR: &[&str] = &[
    "Err((Corruption(Some(Inline(2))), [Replace(Ok(PageView { pid: 3, stamp: 1 }))]))",
    "Err(Unsupported(LogFull))",
    "Err(Corruption(Some(Inline(2))))",
    ": [Made] Err(Corruption(Some(Inline(2))))",
    ": Err(Unsupported(LogFull))",
    "get 2: Err(Corruption(Some(Inline(2))))",
];

#[test]
fn a_full_log_and_a_damaged_page_are_entered(rt: HostRuntime) {
    let texts = poor::<Brand>(rt.alloc(), Blank::new(2), 2);
    assert!(rt; texts.is_some_and(|texts| end_so(&texts, POOR)));
}

#[test]
fn all_shares_close_a_cache_in_any_order(rt: HostRuntime) {
    let told = closings::<Brand, _>(&rt, rt.alloc(), Blank::new(4), 4);
    assert_eq!(rt; told, Some((3, [None, None, Some(6)])));
}

#[test]
fn a_cache_without_shares_is_closed_with_none(rt: HostRuntime) {
    let told = closings::<Brand, _>(&rt, rt.alloc(), Blank::new(1), 1);
    assert_eq!(rt; told, Some((0, [Some(0), None, None])));
}

#[test]
fn a_book_of_no_entries_lets_no_call_in(rt: HostRuntime) {
    let told = without_room::<Brand, _>(&rt, rt.alloc(), Blank::new(2), 2);
    let full = ["Err(Unsupported(BookFull))"; 15];
    assert!(rt;
        told.is_some_and(|(texts, count, entries)| {
            end_so(&texts, &full) && count == 0 && entries == 0
        })
    );
}

#[test]
fn batches_may_be_empty_and_long(rt: HostRuntime) {
    let told = batches::<Brand, _>(&rt, rt.alloc(), Blank::new(2), 2);
    assert_eq!(rt; told, Some(([(true, 0), (true, 17), (false, 0)], 18)));
}

#[test]
fn no_strange_token_changes_a_page(rt: HostRuntime) {
    let told = strange::<Brand, _>(&rt, rt.alloc(), Blank::new(2), 2);
    assert!(rt; told.is_some());
    if let Some((book, texts)) = told {
        let again = strange_again::<Brand, _>(&rt, rt.alloc(), &book, Blank::new(2), 2);
        assert_eq!(rt; again, Some(texts));
    }
}

#[test]
fn refuse_each_allocation(rt: HostRuntime) {
    assert_eq!(rt; goes_on(&rt, rt.alloc()), Some(true));
}
