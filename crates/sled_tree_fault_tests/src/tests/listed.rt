// A list of calls on two maps, and what plain maps have behind each of them.

/// How many keys there are.
pub(super) const KEYS: usize = 16;

/// A call on the first map or the second, of a key and a value by their numbers.
#[derive(Clone, Copy)]
pub(super) enum Call {
    Opens(usize),
    Inserts(usize, usize, u8),
    Removes(usize, usize),
    Gets(usize, usize),
}

/// What a call answered.
#[derive(Clone, Copy, PartialEq)]
pub(super) enum Outcome {
    Done,
    // the number of the value that is there, or was before, and 0 for none
    Was(u8),
    // an allocation, a read or a write failed
    Unmade,
    Unread,
    Faulty,
    // a batch is open, and none is
    BatchOpen,
    NoBatch,
    Other,
}

/// The calls of an opening, in parts, behind each of which all is flushed.
pub(super) type Opening = &'static [&'static [Call]];

pub(super) const LIST: &[Opening] = &[FIRST_OPENING, SECOND_OPENING, THIRD_OPENING];

/// The number of the value that each key of each map has, 0 for none. A map that wasn't opened is none.
pub(super) type Plain = [Option<[u8; KEYS]>; 2];

pub(super) const NEW: Plain = [None, None];

// A leaf with more than four pairs is split, and so is an index with more than four children: leaves and indices are split, and the root of
// the second map grows.
const FIRST_OPENING: Opening = &[
    &[
        Call::Opens(0),
        Call::Inserts(0, 5, 1),
        Call::Inserts(0, 9, 2),
        Call::Inserts(0, 2, 3),
        Call::Inserts(0, 12, 4),
        Call::Inserts(0, 0, 5),
        Call::Inserts(0, 7, 6),
        Call::Inserts(0, 7, 7),
        Call::Removes(0, 2),
        Call::Removes(0, 2),
        Call::Inserts(0, 3, 8),
    ],
    &[
        Call::Opens(1),
        Call::Inserts(0, 14, 9),
        Call::Inserts(1, 15, 10),
        Call::Inserts(1, 14, 11),
        Call::Inserts(0, 10, 12),
        Call::Inserts(1, 13, 13),
        Call::Inserts(1, 12, 14),
        Call::Inserts(1, 11, 15),
        Call::Inserts(0, 11, 16),
        Call::Inserts(0, 13, 17),
        Call::Inserts(0, 1, 18),
        Call::Inserts(0, 4, 19),
        Call::Inserts(0, 6, 20),
        Call::Inserts(0, 8, 21),
    ],
];

const SECOND_OPENING: Opening = &[
    &[
        Call::Gets(0, 9),
        Call::Gets(1, 9),
        Call::Inserts(1, 9, 22),
        Call::Removes(0, 5),
        Call::Inserts(0, 15, 23),
        Call::Inserts(0, 2, 24),
        Call::Inserts(1, 10, 25),
        Call::Removes(1, 15),
        Call::Inserts(1, 8, 26),
        Call::Inserts(1, 7, 27),
        Call::Inserts(1, 6, 28),
    ],
    &[
        Call::Inserts(1, 5, 29),
        Call::Inserts(0, 5, 30),
        Call::Removes(0, 12),
        Call::Gets(0, 12),
        Call::Inserts(1, 4, 31),
        Call::Inserts(1, 3, 32),
        Call::Inserts(1, 2, 33),
        Call::Removes(1, 0),
        Call::Inserts(1, 0, 34),
        Call::Inserts(1, 1, 35),
        Call::Inserts(0, 12, 36),
    ],
];

// Leaves go into their neighbours on the left and on the right, and so do indices; what is left is split again.
const THIRD_OPENING: Opening = &[
    &[
        Call::Removes(1, 5),
        Call::Removes(1, 14),
        Call::Removes(0, 13),
        Call::Removes(0, 14),
        Call::Removes(1, 11),
        Call::Removes(0, 9),
        Call::Removes(1, 0),
        Call::Removes(1, 8),
    ],
    &[
        Call::Removes(1, 2),
        Call::Removes(1, 1),
        Call::Removes(1, 3),
        Call::Removes(1, 13),
        Call::Removes(1, 12),
        Call::Removes(1, 9),
        Call::Inserts(1, 11, 37),
        Call::Inserts(1, 5, 38),
        Call::Inserts(1, 12, 39),
        Call::Inserts(0, 9, 40),
    ],
];

/// The number of the value that a key has, if the map was opened.
pub(super) fn value_at(plain: &Plain, map: usize, key: usize) -> Option<u8> {
    match plain.get(map) {
        Some(Some(values)) => values.get(key).copied(),
        _ => None,
    }
}

/// What a call is to answer.
pub(super) fn wanted(plain: &Plain, call: &Call) -> Outcome {
    match *call {
        Call::Opens(_) => Outcome::Done,
        Call::Inserts(map, key, _) | Call::Removes(map, key) | Call::Gets(map, key) => {
            value_at(plain, map, key).map_or(Outcome::Other, Outcome::Was)
        }
    }
}

fn set_value(plain: &mut Plain, map: usize, key: usize, value: u8) {
    if let Some(Some(values)) = plain.get_mut(map) {
        if let Some(place) = values.get_mut(key) {
            *place = value;
        }
    }
}

fn add_map(plain: &mut Plain, map: usize) {
    if let Some(place) = plain.get_mut(map) {
        if place.is_none() {
            *place = Some([0; KEYS]);
        }
    }
}

/// Makes a call of plain maps.
pub(super) fn make(plain: &mut Plain, call: &Call) {
    match *call {
        Call::Opens(map) => add_map(plain, map),
        Call::Inserts(map, key, value) => set_value(plain, map, key, value),
        Call::Removes(map, key) => set_value(plain, map, key, 0),
        Call::Gets(..) => {}
    }
}

/// What is there behind so many calls of the list.
pub(super) fn behind(calls: usize) -> Plain {
    let (mut plain, mut more) = (NEW, calls);
    for opening in LIST {
        for part in *opening {
            for call in *part {
                if more == 0 {
                    return plain;
                }
                more -= 1;
                make(&mut plain, call);
            }
        }
    }
    plain
}
