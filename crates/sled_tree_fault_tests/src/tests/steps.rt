// Steps on two maps, in batches and outside of them, and what plain maps have behind them.

use super::listed::{Call, KEYS, Outcome, Plain, make, wanted};
use super::*;

/// A call on a map, or on all of them.
#[derive(Clone, Copy)]
pub(super) enum Step {
    Calls(Call),
    Drops(usize),
    Draws,
    Flushes,
    Pins,
    Seals,
    Cancels,
}

fn is_there(plain: &Plain, map: usize) -> bool {
    matches!(plain.get(map), Some(Some(_)))
}

/// Makes a step of plain maps.
pub(super) fn make_step(plain: &mut Plain, step: &Step) {
    match step {
        Step::Calls(call) => make(plain, call),
        Step::Drops(map) => {
            if let Some(place) = plain.get_mut(*map) {
                *place = None;
            }
        }
        _ => {}
    }
}

/// Opens or closes a batch, if the step does.
pub(super) fn mark(is_open: &mut bool, step: &Step) {
    match step {
        Step::Pins => *is_open = true,
        Step::Seals | Step::Cancels => *is_open = false,
        _ => {}
    }
}

/// What a step is to answer, in a batch or outside. That a map was dropped is 1, and that there was none is 0.
pub(super) fn wanted_of(plain: &Plain, is_open: bool, step: &Step) -> Outcome {
    match step {
        Step::Calls(call) => wanted(plain, call),
        Step::Drops(map) => Outcome::Was(u8::from(is_there(plain, *map))),
        Step::Draws => Outcome::Done,
        Step::Flushes | Step::Pins => {
            if is_open {
                Outcome::BatchOpen
            } else {
                Outcome::Done
            }
        }
        Step::Seals | Step::Cancels => {
            if is_open {
                Outcome::Done
            } else {
                Outcome::NoBatch
            }
        }
    }
}

/// What is there behind the first so many steps, which begin with these maps.
pub(super) fn behind_steps(first: &Plain, steps: &[Step], count: usize) -> Plain {
    let mut plain = *first;
    for (place, step) in steps.iter().enumerate() {
        if place >= count {
            return plain;
        }
        make_step(&mut plain, step);
    }
    plain
}

/// Whether a crash may leave the first so many of the steps that were begun. Of a batch it leaves all or nothing, if that wasn't cancelled.
pub(super) fn may_be_left(steps: &[Step], begun: usize, left: usize) -> bool {
    let mut is_open = false;
    for (place, step) in steps.iter().enumerate() {
        if place >= left && !is_open {
            return true;
        }
        if place >= begun {
            return !is_open;
        }
        if place >= left && matches!(step, Step::Seals | Step::Cancels) {
            return matches!(step, Step::Cancels);
        }
        mark(&mut is_open, step);
    }
    !is_open
}

// ---- random steps

// A step on maps that are there so.
fn next_step(random: &mut Random, plain: &Plain, value: u8) -> Step {
    let map = random.below(2) as usize;
    if !is_there(plain, map) {
        return Step::Calls(Call::Opens(map));
    }
    let key = random.below(KEYS as u64) as usize;
    match random.below(40) {
        0 => Step::Drops(map),
        1..=3 => Step::Draws,
        4 | 5 => Step::Flushes,
        6..=8 => Step::Pins,
        9 | 10 => Step::Seals,
        11 => Step::Cancels,
        12..=17 => Step::Calls(Call::Removes(map, key)),
        18 => Step::Calls(Call::Gets(map, key)),
        _ => Step::Calls(Call::Inserts(map, key, value)),
    }
}

/// So many steps. The first two open the maps.
pub(super) fn random_steps(alloc: Global, seed: u64, count: u8) -> Option<Vec<Step>> {
    let mut random = Random::new(seed);
    let mut plain = [Some([0; KEYS]); 2];
    let mut steps = Vec::new(alloc);
    steps.push(Step::Calls(Call::Opens(0))).ok()?;
    steps.push(Step::Calls(Call::Opens(1))).ok()?;
    for number in 0..count {
        let step = next_step(&mut random, &plain, number.saturating_add(1));
        make_step(&mut plain, &step);
        steps.push(step).ok()?;
    }
    Some(steps)
}
