// Batches over two maps on a disk: what a crash before each write and sync leaves of them, a write that fails, and ids that come once.

use super::calls::is_plain;
use super::listed::{NEW, Outcome};
use super::lists::{LISTS, ROWS};
use super::over_disk::{
    Disked, Kind, Reach, Way, all_made, asks_once, calls_made, from_here, new_maps, over, stands,
};
use super::steps::{Step, random_steps};
use super::*;

const KINDS: &[Kind] = &[(64, 0, 2), (512, 3, 1), (1 << 16, 0, 3)];

// Where three openings of a list end, the first before its n-th write or sync, of so many.
fn ends_of(calls: usize, all: usize) -> [usize; 3] {
    let second = calls.saturating_mul(7).checked_rem(all).unwrap_or(0);
    [calls, second.saturating_add(2), usize::MAX]
}

// The number of the first write or sync whose crash doesn't leave what it may.
fn wrong_crash(alloc: Global, steps: &[Step], kind: &Kind) -> Option<usize> {
    let way = over(kind);
    let all = calls_made(alloc, steps, &way);
    for calls in 3..all.saturating_add(2) {
        if !stands(alloc, steps, &way, &ends_of(calls, all)) {
            return Some(calls);
        }
    }
    (all < 12).then_some(0)
}

#[test]
fn a_crash_leaves_all_of_a_batch_or_nothing(rt: HostRuntime) {
    for (number, steps) in LISTS.iter().enumerate() {
        for kind in KINDS {
            assert_eq!(rt;
                wrong_crash(rt.alloc(), steps, kind),
                None,
                "{number} {kind:?}"
            );
        }
    }
}

// The number of the first write or sync whose failing doesn't leave what it may. None fails in the first opening itself.
fn wrong_fault(alloc: Global, steps: &[Step], kind: &Kind) -> Option<usize> {
    let opened = calls_made(alloc, &[], &over(kind));
    let all = calls_made(alloc, steps, &over(kind));
    for failing in opened..all {
        let way = Way {
            unwritten: failing.saturating_sub(1) as u64,
            ..over(kind)
        };
        if !stands(alloc, steps, &way, &[usize::MAX, usize::MAX]) {
            return Some(failing);
        }
    }
    (all < 12).then_some(0)
}

#[test]
fn a_failed_write_leaves_all_of_a_batch_or_nothing(rt: HostRuntime) {
    for (number, steps) in LISTS.iter().enumerate() {
        for kind in KINDS {
            assert_eq!(rt;
                wrong_fault(rt.alloc(), steps, kind),
                None,
                "{number} {kind:?}"
            );
        }
    }
}

// How many of the crashes of a random list leave what they may, before the first that doesn't.
fn crashes_passed(alloc: Global, seed: u64, kind: &Kind) -> Option<usize> {
    let steps = random_steps(alloc, seed, 120)?;
    let way = over(kind);
    let all = calls_made(alloc, &steps, &way);
    for crash in 0..CRASHES {
        let calls = all.saturating_mul(crash) / CRASHES;
        let ends = ends_of(calls.saturating_add(3), all);
        if all == 0 || !stands(alloc, &steps, &way, &ends) {
            return Some(crash);
        }
    }
    Some(CRASHES)
}

const CRASHES: usize = 10;

const SEEDS: u64 = 8;

#[test]
fn random_batches_are_left_whole(rt: HostRuntime) {
    for seed in 0..SEEDS {
        for kind in KINDS {
            assert_eq!(rt;
                crashes_passed(rt.alloc(), seed, kind),
                Some(CRASHES),
                "{seed} {kind:?}"
            );
        }
    }
}

// Whether the steps answer as they should where an allocation may be refused, and leave the maps that they should.
fn passes(alloc: Global, steps: &[Step], trees: &mut Disked, way: &Way) -> bool {
    let mut reach = from_here(NEW, 0);
    all_made(alloc, trees, steps, &mut reach, way)
        && (is_plain(trees, &reach.plain) || is_plain(trees, &reach.plain))
}

fn passes_over(alloc: Global, steps: &[Step], kind: &Kind) -> bool {
    let way = Way {
        is_refused: true,
        ..over(kind)
    };
    let opened = match new_maps(alloc, &way) {
        Some(trees) => Some(trees),
        None => new_maps(alloc, &way),
    };
    match opened {
        Some(mut trees) => passes(alloc, steps, &mut trees, &way),
        None => false,
    }
}

#[test]
fn refuse_each_allocation(rt: HostRuntime) {
    for (number, steps) in LISTS.iter().enumerate() {
        for kind in KINDS {
            assert!(rt; passes_over(rt.alloc(), steps, kind), "{number} {kind:?}");
        }
    }
}

// ---- what each step answers

// Whether each step of a row answers as it says. Each id is its number there.
fn row_answered(alloc: Global, row: &[(Step, Outcome)]) -> Option<usize> {
    let way = over(&(512, 0, 2));
    let mut trees = new_maps(alloc, &way)?;
    let mut reach = from_here(NEW, 0);
    for (place, (step, wanted)) in row.iter().enumerate() {
        if shown(alloc, &mut trees, step, &mut reach, &way) != *wanted {
            return Some(place);
        }
    }
    Some(row.len())
}

fn shown(alloc: Global, trees: &mut Disked, step: &Step, reach: &mut Reach, way: &Way) -> Outcome {
    let outcome = asks_once(alloc, trees, step, reach, way);
    match step {
        Step::Draws if outcome == Outcome::Done => {
            Outcome::Was((reach.next_id.saturating_sub(1) % 256) as u8)
        }
        _ => outcome,
    }
}

#[test]
fn marks_and_ids_in_their_places(rt: HostRuntime) {
    for (number, row) in ROWS.iter().enumerate() {
        assert_eq!(rt; row_answered(rt.alloc(), row), Some(row.len()), "{number}");
    }
}
