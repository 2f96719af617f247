// Steps on two maps over a log in memory, and what a crash leaves of them between any two changes of pages.

use super::calls::{answer, answer_of, drops, empties, is_plain, name_of, sets_all};
use super::listed::{KEYS, LIST, NEW, Outcome, Plain};
use super::lists::LISTS;
use super::steps::{Step, behind_steps, make_step, mark, may_be_left, random_steps, wanted_of};
use super::*;

// A crash keeps at most so many of the changes that aren't flushed; lists flush before there are more.
const MOST_CHANGES: usize = 400;

const SEEDS: u64 = 6;

fn asks(alloc: Global, trees: &mut Trees<MemLog>, step: &Step) -> Outcome {
    match step {
        Step::Calls(call) => answer(alloc, trees, call),
        Step::Drops(map) => drops(trees, *map),
        Step::Draws => answer_of(&trees.generate_id()),
        Step::Flushes => answer_of(&trees.flush()),
        Step::Pins => answer_of(&trees.pin()),
        Step::Seals => answer_of(&trees.seal()),
        Step::Cancels => answer_of(&trees.cancel()),
    }
}

/// How far the steps came.
#[derive(Clone, Copy)]
struct Reach {
    plain: Plain,
    is_open: bool,
    // how many steps a crash has to leave
    durable: usize,
}

const START: Reach = Reach {
    plain: NEW,
    is_open: false,
    durable: 0,
};

// Whether a step answers as it should. A batch takes no id that needs a new counter.
fn makes(alloc: Global, trees: &mut Trees<MemLog>, step: &Step, reach: &mut Reach) -> bool {
    let outcome = asks(alloc, trees, step);
    let is_right = outcome == wanted_of(&reach.plain, reach.is_open, step)
        || reach.is_open && outcome == Outcome::BatchOpen && matches!(step, Step::Draws);
    mark(&mut reach.is_open, step);
    make_step(&mut reach.plain, step);
    is_right
}

// The log behind the first so many steps, and how far they came, if they are answered as they should be and no batch is open.
fn made(alloc: Global, steps: &[Step], count: usize) -> Option<(MemLog, Reach)> {
    let log = MemLog::new(alloc, 512, 16);
    let mut trees = opened(alloc, CONFIG, log, Limits::new(4, 4))?;
    let mut reach = START;
    for (place, step) in steps.iter().enumerate() {
        if place >= count {
            break;
        }
        if !makes(alloc, &mut trees, step, &mut reach) {
            return None;
        }
        if matches!(step, Step::Flushes) && !reach.is_open {
            reach.durable = place.saturating_add(1);
        }
    }
    Some((log_of(trees)?, reach))
}

// Whether a map with these values can be gone on with: each key is set once more, and taken out. Once a search has come to each leaf, the
// indices lead there at once.
fn goes_on(alloc: Global, trees: &mut Trees<MemLog>, map: usize, values: &[u8; KEYS]) -> bool {
    if !sets_all(alloc, trees, map, values) {
        return false;
    }
    match pages_of(alloc, trees, name_of(map)) {
        Some(reached) => reached.count == KEYS && empties(alloc, trees, map),
        None => false,
    }
}

fn all_go_on(alloc: Global, trees: &mut Trees<MemLog>, plain: &Plain) -> bool {
    for (map, values) in plain.iter().enumerate() {
        if let Some(values) = values {
            if !goes_on(alloc, trees, map, values) {
                return false;
            }
        }
    }
    true
}

// Whether these are the maps behind steps that a crash may leave, and can be gone on with.
fn is_left(
    alloc: Global,
    trees: &mut Trees<MemLog>,
    steps: &[Step],
    (durable, begun): (usize, usize),
) -> bool {
    for count in durable..begun.saturating_add(1) {
        if may_be_left(steps, begun, count) {
            let plain = behind_steps(&NEW, steps, count);
            if is_plain(trees, &plain) {
                return all_go_on(alloc, trees, &plain);
            }
        }
    }
    false
}

// Whether a crash that keeps so many changes leaves what it may, or can't keep as many; or none where steps are answered wrongly.
fn leaves(alloc: Global, steps: &[Step], begun: usize, changes: usize) -> Option<bool> {
    let (log, reach) = made(alloc, steps, begun)?;
    if !log.is_fair(changes) {
        return Some(true);
    }
    let mut trees = opened(alloc, CONFIG, log.stop(changes), Limits::new(4, 4))?;
    let between = (reach.durable, begun);
    Some(is_left(alloc, &mut trees, steps, between))
}

// How many changes aren't flushed behind the first so many steps.
fn changes_in(alloc: Global, steps: &[Step], begun: usize) -> Option<usize> {
    let (log, _) = made(alloc, steps, begun)?;
    let mut most = 0;
    for changes in 0..MOST_CHANGES {
        if log.is_fair(changes) {
            most = changes;
        }
    }
    Some(most)
}

// The number of the first change behind which a crash leaves what it may not, of a list that ends behind so many steps.
fn wrong_cut(alloc: Global, steps: &[Step], begun: usize) -> Option<usize> {
    let Some(changes) = changes_in(alloc, steps, begun) else {
        return Some(0);
    };
    for cut in 0..changes.saturating_add(1) {
        if leaves(alloc, steps, begun, cut) != Some(true) {
            return Some(cut);
        }
    }
    None
}

// Where a crash is tried: before each flush and behind the list, but not in a batch.
fn is_end(steps: &[Step], place: usize) -> bool {
    let mut is_open = false;
    for step in steps.iter().take(place) {
        mark(&mut is_open, step);
    }
    !is_open && !matches!(steps.get(place), Some(step) if !matches!(step, Step::Flushes))
}

// The number of steps and of the change behind them at which a crash leaves what it may not.
fn wrong_end(alloc: Global, steps: &[Step]) -> Option<(usize, usize)> {
    for place in 1..steps.len().saturating_add(1) {
        if is_end(steps, place) {
            if let Some(cut) = wrong_cut(alloc, steps, place) {
                return Some((place, cut));
            }
        }
    }
    None
}

// The calls of the list of openings, with a flush behind each part.
fn steps_of_list(alloc: Global) -> Option<Vec<Step>> {
    let mut steps = Vec::new(alloc);
    for opening in LIST {
        for part in *opening {
            for call in *part {
                steps.push(Step::Calls(*call)).ok()?;
            }
            steps.push(Step::Flushes).ok()?;
        }
    }
    Some(steps)
}

fn wrong_of(alloc: Global, steps: Option<Vec<Step>>) -> Option<(usize, usize)> {
    match steps {
        Some(steps) => wrong_end(alloc, &steps),
        None => Some((0, 0)),
    }
}

#[test]
fn a_crash_between_two_changes_leaves_steps(rt: HostRuntime) {
    let alloc = rt.alloc();
    for (number, steps) in LISTS.iter().enumerate() {
        assert_eq!(rt; wrong_end(alloc, steps), None, "{number}");
    }
    assert_eq!(rt; wrong_of(alloc, steps_of_list(alloc)), None, "the list");
    for seed in 0..SEEDS {
        assert_eq!(rt;
            wrong_of(alloc, random_steps(alloc, seed, 80)),
            None,
            "seed {seed}"
        );
    }
}
