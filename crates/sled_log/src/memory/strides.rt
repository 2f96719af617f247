// Notes of how many items the log has up to each of many places, so that a message is found among few.

ghost use Rattle.std.specs.Prelude.{◌≤◌};

use sled_base::LogOffset;
use std::alloc::Global;

// So many bytes of the log lie between two of the places.
const STRIDE: u64 = 128;

// How many items end at each whole stride of the log or before it.
//
// It is a hint, of which contracts say nothing: where memory for a note was refused, notes from there on are wrong.
#[derive(Drop)]
pub(super) struct Strides {
    counts: Vec<usize>,
}

// How many whole strides there are before that place.
fn strides_before(place: LogOffset) -> usize {
    (place.saturating_sub(1) / STRIDE) as usize
}

impl Strides {
    pub(super) fn new(alloc: Global) -> Strides {
        Strides {
            counts: Vec::new(alloc),
        }
    }

    // Notes that the item behind so many others ends there.
    pub(super) fn note(&mut self, end: LogOffset, count: usize) {
        let strides = strides_before(end);
        if self.counts.len() < strides {
            let _is_hint = self.counts.resize(strides, count);
        }
    }

    // Forgets what is behind that place.
    pub(super) fn cut(&mut self, end: LogOffset) {
        self.counts.truncate(strides_before(end));
    }

    // Between which of so many items the one is that begins at that place.
    pub(super) fn around(&self, place: LogOffset, count: usize) -> (usize, usize)
        ensures within { (result.0 ≤ result.1) × (result.1 ≤ count) }
    {
        let stride = (place / STRIDE) as usize;
        let end = self.counts.get(stride).copied().unwrap_or(count).min(count);
        let start = match stride {
            0 => 0,
            _ => self.counts.get(stride - 1).copied().unwrap_or(count),
        };
        (start.min(end), end)
    }
}
