use sled_base::{DoublyLinkedList, PageId, Slot};
use std::alloc::{AllocError, Global};
use std::test::Fail;

// What is done with a list, and the answer. A slot is named by its place among those of the items that were pushed.
#[derive(Drop)]
enum Step {
    Head(PageId),
    Tail(PageId),
    // Pushes the items 0, 1 and so on to the tail, so many.
    Tails(PageId),
    // Pushes the item to the tail, where it gets this slot.
    TailAt(PageId, usize),
    Promote(usize),
    PopHead(Option<PageId>),
    PopTail(Option<PageId>),
    // Puts the item of the head, if there is one, at the tail.
    Turn,
    Live(usize, bool),
    Len(usize),
}

fn is_promoted(list: &mut DoublyLinkedList, slot: Option<&Slot>) -> bool {
    match slot {
        Some(slot) if list.is_live(*slot) => list.promote(*slot) == *slot,
        _ => false,
    }
}

fn is_done(
    list: &mut DoublyLinkedList,
    slots: &mut Vec<Slot>,
    step: &Step,
) -> Result<bool, AllocError> {
    match step {
        Step::Head(item) => slots.push(list.push_head(*item)?)?,
        Step::Tail(item) => slots.push(list.push_tail(*item)?)?,
        Step::Tails(count) => {
            for item in 0..*count {
                slots.push(list.push_tail(item)?)?;
            }
        }
        Step::TailAt(item, place) => {
            let slot = list.push_tail(*item)?;
            return Ok(slots.get(*place) == Some(&slot));
        }
        Step::Promote(place) => return Ok(is_promoted(list, slots.get(*place))),
        Step::PopHead(item) => return Ok(list.pop_head() == *item),
        Step::PopTail(item) => return Ok(list.pop_tail() == *item),
        Step::Turn => {
            if let Some(item) = list.pop_head() {
                let _ = list.push_tail(item)?;
            }
        }
        Step::Live(place, live) => {
            return Ok(matches!(slots.get(*place), Some(slot) if list.is_live(*slot) == *live));
        }
        Step::Len(len) => return Ok(list.len() == *len),
    }
    Ok(true)
}

fn are_done(
    alloc: Global,
    list: &mut DoublyLinkedList,
    steps: &[Step],
) -> Result<bool, AllocError> {
    let mut slots = Vec::new(alloc);
    for step in steps {
        if !is_done(list, &mut slots, step)? {
            return Ok(false);
        }
    }
    Ok(true)
}

// Whether these are the items, as the list is walked from its tail.
fn is_walked(list: &DoublyLinkedList, items: &[PageId]) -> bool {
    let mut at = list.last();
    for item in items.iter().rev() {
        match at {
            Some(slot) if list.is_live(slot) && list.item(slot) == *item => at = list.before(slot),
            _ => return false,
        }
    }
    at.is_none() && list.len() == items.len()
}

// Whether the steps leave these items, from the head to the tail.
fn leave(alloc: Global, steps: &[Step], items: &[PageId]) -> Result<bool, AllocError> {
    let mut list = DoublyLinkedList::default(alloc);
    let is_so = are_done(alloc, &mut list, steps)? && is_walked(&list, items);
    Ok(list.into_vec()?.as_slice() == items && is_so)
}

// ---- each length

// What is done with the items 0, 1 and so on, one after the other.
enum Pass {
    Head,
    Tail,
    Promote,
    PopHead,
    PopTail,
    Turn,
}

fn step_of(pass: &Pass, item: PageId, len: PageId) -> Step {
    match pass {
        Pass::Head => Step::Head(item),
        Pass::Tail => Step::Tail(item),
        Pass::Promote => Step::Promote(item as usize),
        Pass::PopHead => Step::PopHead(Some(item)),
        Pass::PopTail => Step::PopTail(Some(len.saturating_sub(item).saturating_sub(1))),
        Pass::Turn => Step::Turn,
    }
}

fn are_passed(
    alloc: Global,
    list: &mut DoublyLinkedList,
    passes: &[Pass],
    len: PageId,
) -> Result<bool, AllocError> {
    let mut slots = Vec::new(alloc);
    for pass in passes {
        for item in 0..len {
            if !is_done(list, &mut slots, &step_of(pass, item, len))? {
                return Ok(false);
            }
        }
    }
    Ok(true)
}

// Which items are left, from the head to the tail.
enum Left {
    None,
    Rising,
    Falling,
}

fn are_left(items: &[PageId], left: &Left, len: PageId) -> bool {
    for (place, item) in items.iter().enumerate() {
        let behind = items.len() - 1 - place;
        if *item as usize
            != if matches!(left, Left::Rising) {
                place
            } else {
                behind
            }
        {
            return false;
        }
    }
    items.len() as u64 == if matches!(left, Left::None) { 0 } else { len }
}

fn is_passed(alloc: Global, passes: &[Pass], len: PageId, left: &Left) -> Result<bool, AllocError> {
    let mut list = DoublyLinkedList::default(alloc);
    let is_so = are_passed(alloc, &mut list, passes, len)?;
    let count = list.len();
    let is_over = count > 0 || list.pop_head().is_none() && list.pop_tail().is_none();
    let items = list.into_vec()?;
    Ok(is_so && is_over && items.len() == count && are_left(&items, left, len))
}

fn is_passed_at_each_length(
    alloc: Global,
    passes: &[Pass],
    left: &Left,
) -> Result<bool, AllocError> {
    for len in [0, 1, 2, 3, 16, 17, 1_000, 1 << 17] {
        if !is_passed(alloc, passes, len, left)? {
            return Ok(false);
        }
    }
    Ok(true)
}

// ---- rows

enum Case {
    // Steps, and the items that they leave.
    Steps(&'static [Step], &'static [PageId]),
    Lengths(&'static [Pass], Left),
}

const STEPS: &[(&str, Case)] = &[
    ("no item", Case::Steps(&[], &[])),
    ("one item at the head", Case::Steps(&[Step::Head(1)], &[1])),
    ("one item at the tail", Case::Steps(&[Step::Tail(1)], &[1])),
    (
        "two items at the head",
        Case::Steps(&[Step::Head(1), Step::Head(2)], &[2, 1]),
    ),
    (
        "two items at the tail",
        Case::Steps(&[Step::Tail(1), Step::Tail(2)], &[1, 2]),
    ),
    (
        "items at both ends",
        Case::Steps(&[Step::Tail(2), Step::Tail(3), Step::Head(1)], &[1, 2, 3]),
    ),
    (
        "more items at both ends",
        Case::Steps(
            &[
                Step::Head(5),
                Step::Tail(6),
                Step::Head(4),
                Step::Tail(7),
                Step::Tail(8),
                Step::Head(3),
                Step::Tail(9),
                Step::Head(2),
                Step::Head(1),
            ],
            &[1, 2, 3, 4, 5, 6, 7, 8, 9],
        ),
    ),
    (
        "the only item is promoted",
        Case::Steps(&[Step::Tails(1), Step::Promote(0)], &[0]),
    ),
    (
        "the first of two items is promoted",
        Case::Steps(&[Step::Tails(2), Step::Promote(0)], &[0, 1]),
    ),
    (
        "the last of two items is promoted",
        Case::Steps(&[Step::Tails(2), Step::Promote(1)], &[1, 0]),
    ),
    (
        "the first of three items is promoted",
        Case::Steps(&[Step::Tails(3), Step::Promote(0)], &[0, 1, 2]),
    ),
    (
        "the second of three items is promoted",
        Case::Steps(&[Step::Tails(3), Step::Promote(1)], &[1, 0, 2]),
    ),
    (
        "the last of three items is promoted",
        Case::Steps(&[Step::Tails(3), Step::Promote(2)], &[2, 0, 1]),
    ),
    (
        "a promoted item is popped last",
        Case::Steps(
            &[
                Step::Tail(2),
                Step::Tail(3),
                Step::Head(1),
                Step::Promote(1),
                Step::PopTail(Some(2)),
                Step::Len(2),
                Step::PopTail(Some(1)),
                Step::Len(1),
            ],
            &[3],
        ),
    ),
    (
        "a slot is live until its item is popped",
        Case::Steps(
            &[
                Step::Tails(3),
                Step::PopTail(Some(2)),
                Step::PopHead(Some(0)),
                Step::Live(0, false),
                Step::Live(1, true),
                Step::Live(2, false),
                Step::PopTail(Some(1)),
                Step::TailAt(4, 1),
                Step::TailAt(5, 0),
                Step::TailAt(6, 2),
            ],
            &[4, 5, 6],
        ),
    ),
    (
        "a list is walked from its tail",
        Case::Steps(&[Step::Tails(3)], &[0, 1, 2]),
    ),
];

const LENGTHS: &[(&str, Case)] = &[
    (
        "every item is popped from the head",
        Case::Lengths(&[Pass::Tail, Pass::PopHead], Left::None),
    ),
    (
        "every item is popped from the tail",
        Case::Lengths(&[Pass::Tail, Pass::PopTail], Left::None),
    ),
    (
        "every item is pushed to the head",
        Case::Lengths(&[Pass::Head], Left::Falling),
    ),
    (
        "every item is turned",
        Case::Lengths(&[Pass::Tail, Pass::Turn], Left::Rising),
    ),
    (
        "every item is promoted and turned",
        Case::Lengths(&[Pass::Tail, Pass::Promote, Pass::Turn], Left::Falling),
    ),
];

fn holds(alloc: Global, case: &Case) -> Result<bool, AllocError> {
    match case {
        Case::Steps(steps, items) => leave(alloc, steps, items),
        Case::Lengths(passes, left) => is_passed_at_each_length(alloc, passes, left),
    }
}

#[test]
fn items_stand_in_the_order_of_their_ends(rt: HostRuntime) -> Result<(), Fail> {
    for rows in [STEPS, LENGTHS] {
        for (row, case) in rows {
            assert!(rt; holds(rt.alloc(), case)?, "{row}");
        }
    }
    Ok(())
}
