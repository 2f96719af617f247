// Byte strings in one buffer, against a plain list of the same strings.

ghost use Rattle.std.specs.Prelude.{◌↔◌, ◌^◌, ◌<◌, length, IsTrue};

use super::LETTERS;
use sled_base::serialization::bytes::split_bytes;
use sled_base::strings::Strings;
use sled_base::strings::builder::StringsBuilder;
use std::alloc::{AllocError, Global};
use std::test::Fail;

pub(super) type Bytes = &'static [u8];

// ---- one step at a time

// What is done to the strings, at a place or behind the others.
#[derive(Clone, Copy)]
pub(super) enum Step {
    Push(Bytes),
    Insert(usize, Bytes),
    InsertBoth(usize, Bytes, usize, Bytes),
    Replace(usize, Bytes),
    Remove(usize),
    RemoveBoth(usize, usize),
}

// Whether the step can be made. An error means that it was refused.
pub(super) fn is_done(strings: &mut Strings, step: &Step) -> Result<bool, AllocError> {
    match step {
        Step::Push(string) if is_short(string) => strings.push(string)?,
        Step::Insert(place, string) if is_short(string) && *place <= strings.len() => {
            strings.insert(*place, string)?
        }
        Step::InsertBoth(place, string, later, other) => {
            return are_put_in(strings, *place, string, *later, other);
        }
        Step::Replace(place, string) if is_short(string) && *place < strings.len() => {
            strings.replace(*place, string)?
        }
        Step::Remove(place) if *place < strings.len() => strings.remove(*place),
        Step::RemoveBoth(place, later) if *place < *later && *later < strings.len() => {
            strings.remove_both(*place, *later)
        }
        _ => return Ok(false),
    }
    Ok(true)
}

fn are_put_in(
    strings: &mut Strings,
    place: usize,
    string: &[u8],
    later: usize,
    other: &[u8],
) -> Result<bool, AllocError> {
    if !is_short(string) || !is_short(other) || place > later || later > strings.len() {
        return Ok(false);
    }
    strings.insert_both(place, string, later, other)?;
    Ok(true)
}

fn is_short(string: &[u8]) -> bool
    ensures { IsTrue result ↔ (length string.now < 2 ^ 32) }
{
    string.len() < 1 << 32
}

// The same of a plain list.
fn is_listed(list: &mut Vec<Bytes>, step: &Step) -> Result<bool, AllocError> {
    match step {
        Step::Push(string) => list.push(string)?,
        Step::Insert(place, string) if *place <= list.len() => list.insert(*place, string)?,
        Step::InsertBoth(place, string, later, other) => {
            return are_both_listed(list, *place, string, *later, other);
        }
        Step::Replace(place, string) if *place < list.len() => list[*place] = string,
        Step::Remove(place) if *place < list.len() => {
            list.remove(*place);
        }
        Step::RemoveBoth(place, later) if *place < *later && *later < list.len() => {
            list.remove(*later);
            list.remove(*place);
        }
        _ => return Ok(false),
    }
    Ok(true)
}

fn are_both_listed(
    list: &mut Vec<Bytes>,
    place: usize,
    string: Bytes,
    later: usize,
    other: Bytes,
) -> Result<bool, AllocError> {
    if place > later || later > list.len() {
        return Ok(false);
    }
    list.insert(later, other)?;
    list.insert(place, string)?;
    Ok(true)
}

// Whether the string at the place is this one, also as that behind the one before it.
fn has(strings: &Strings, place: usize, string: &[u8]) -> bool {
    place < strings.len()
        && strings.get(place) == string
        && (place == 0 || strings.get_next(place - 1) == string)
}

// Whether the strings are those of the list, each as it is lent and as it is written.
fn are(strings: &Strings, list: &[Bytes]) -> bool {
    let mut written = strings.written();
    for (place, string) in list.iter().enumerate() {
        match split_bytes(written) {
            Some((found, behind)) if found == *string && has(strings, place, string) => {
                written = behind;
            }
            _ => return false,
        }
    }
    written.is_empty() && strings.len() == list.len()
}

// Whether a step makes of the strings what it makes of the list. One that is refused leaves them, and is made again.
fn is_same_step(
    strings: &mut Strings,
    list: &mut Vec<Bytes>,
    step: &Step,
) -> Result<bool, AllocError> {
    let is_so = match is_done(strings, step) {
        Ok(is_so) => is_so,
        Err(_) => are(strings, list) && is_done(strings, step)?,
    };
    Ok(is_so && is_listed(list, step)? && are(strings, list))
}

fn are_same_steps(
    strings: &mut Strings,
    list: &mut Vec<Bytes>,
    steps: &[Step],
) -> Result<bool, AllocError> {
    for step in steps {
        if !is_same_step(strings, list, step)? {
            return Ok(false);
        }
    }
    Ok(true)
}

// ---- strings of each length among so many

// One more letter than the place has, up to all of them.
fn letters_at(place: usize) -> Bytes {
    &LETTERS[..place % LETTERS.len()]
}

fn are_filled(
    strings: &mut Strings,
    list: &mut Vec<Bytes>,
    count: usize,
) -> Result<bool, AllocError> {
    for place in 0..count {
        let step = Step::Push(letters_at(place));
        if !is_done(strings, &step)? || !is_listed(list, &step)? {
            return Ok(false);
        }
    }
    Ok(are(strings, list))
}

// Whether a string is put in at a place, others put in its place, one of them of the same length as the next, and it is taken out.
fn is_edited_at(
    strings: &mut Strings,
    list: &mut Vec<Bytes>,
    place: usize,
    string: Bytes,
) -> Result<bool, AllocError> {
    let steps = [
        Step::Insert(place, string),
        Step::Replace(place, b"abc"),
        Step::Replace(place, b"cab"),
        Step::Replace(place, string),
        Step::Remove(place),
    ];
    are_same_steps(strings, list, &steps)
}

// Whether the same goes for two strings, of which the second stands as far from the end as the first does from the start.
fn are_edited_at(
    strings: &mut Strings,
    list: &mut Vec<Bytes>,
    place: usize,
    string: Bytes,
) -> Result<bool, AllocError> {
    let later = strings.len().saturating_sub(place).max(place);
    let steps = [
        Step::InsertBoth(place, string, later, b"abc"),
        Step::RemoveBoth(place, later.saturating_add(1)),
    ];
    are_same_steps(strings, list, &steps)
}

// Whether that is so at the first place, in the middle and behind the last.
fn is_edited_among(alloc: Global, count: usize) -> Result<bool, AllocError> {
    let mut strings = Strings::new(alloc);
    let mut list = Vec::with_capacity(alloc, ROOM)?;
    if !are_filled(&mut strings, &mut list, count)? {
        return Ok(false);
    }
    for (string, _) in LENGTHS {
        for place in [0, count / 2, count] {
            if !is_edited_at(&mut strings, &mut list, place, string)?
                || !are_edited_at(&mut strings, &mut list, place, string)?
            {
                return Ok(false);
            }
        }
    }
    Ok(strings.clone()?.is_same(&strings))
}

// Strings, and the length before each as it is written.
const LENGTHS: &[(Bytes, Bytes)] = &[
    (&[], &[0]),
    (&[1; 21], &[21]),
    (&[2; 22], &[22]),
    (&[3; 23], &[23]),
    (&[4; 127], &[127]),
    (&[5; 128], &[128]),
    (&[6; 240], &[240]),
    (&[7; 241], &[241, 1]),
    (&[8; 2287], &[248, 255]),
    (&[9; 2288], &[249, 0, 0]),
    (&[10; 70000], &[250, 112, 17, 1]),
];

const COUNTS: &[usize] = &[0, 1, 2, 3, 16, 17, 1000];

// For the most of them, and two more.
const ROOM: usize = 1002;

#[test]
fn strings_are_put_in_replaced_and_taken_out(rt: HostRuntime) -> Result<(), Fail> {
    for count in COUNTS {
        assert!(rt; is_edited_among(rt.alloc(), *count)?, "{count}");
    }
    Ok(())
}

// Whether a string alone is written behind this.
fn is_written_behind(alloc: Global, string: Bytes, front: &[u8]) -> Result<bool, AllocError> {
    let mut strings = Strings::new(alloc);
    let is_so = is_done(&mut strings, &Step::Push(string))?;
    Ok(is_so && strings.written().strip_prefix(front) == Some(string))
}

#[test]
fn a_string_is_written_behind_its_length(rt: HostRuntime) -> Result<(), Fail> {
    for (string, front) in LENGTHS {
        assert!(rt; is_written_behind(rt.alloc(), string, front)?, "{front:?}");
    }
    Ok(())
}

// ---- strings that are put one behind the other

fn is_put(builder: &mut StringsBuilder, string: Bytes) -> Result<bool, AllocError> {
    if !is_short(string) {
        return Ok(false);
    }
    builder.push(string)?;
    Ok(true)
}

// Whether these are the strings that are put so, where there is room for so many bytes at first.
fn are_built(alloc: Global, list: &[Bytes], room: usize) -> Result<bool, AllocError> {
    let mut builder = StringsBuilder::with_room(alloc, list.len(), room)?;
    for string in list {
        if !is_put(&mut builder, string)? {
            return Ok(false);
        }
    }
    Ok(are(&builder.build(), list))
}

// No room, too little, and more than is wanted.
const ROOMS: &[usize] = &[0, 1, 300, 100000];

#[test]
fn strings_are_built(rt: HostRuntime) -> Result<(), Fail> {
    let mut list = Vec::new(rt.alloc());
    for (string, front) in LENGTHS {
        for room in ROOMS {
            assert!(rt; are_built(rt.alloc(), &list, *room)?, "{front:?} {room}");
        }
        list.push(*string)?;
    }
    Ok(())
}

// ---- strings that are read as they lie

// How many strings are read of an input, and those that are.
const READ: &[(usize, Bytes, Option<&'static [Bytes]>)] = &[
    (0, &[], Some(&[])),
    (0, &[1], Some(&[])),
    (1, &[0], Some(&[&[]])),
    (1, &[1, 97, 5], Some(&[&[97]])),
    (2, &[1, 97, 0], Some(&[&[97], &[]])),
    (3, &[1, 97, 0, 2, 98, 99], Some(&[&[97], &[], &[98, 99]])),
    (1, &[], None),
    (1, &[1], None),
    (2, &[1, 97], None),
    (1, &[241, 1], None),
];

fn is_read(
    alloc: Global,
    count: usize,
    input: &[u8],
    list: Option<&[Bytes]>,
) -> Result<bool, AllocError> {
    Ok(match (Strings::read_plain(alloc, count, input)?, list) {
        (Some(strings), Some(list)) => are(&strings, list),
        (None, None) => true,
        _ => false,
    })
}

// The longest that has a length of one byte, and the next.
fn is_read_of_each_length(
    alloc: Global,
    string: Bytes,
    is_plain: bool,
) -> Result<bool, AllocError> {
    let mut strings = Strings::new(alloc);
    let is_so = is_done(&mut strings, &Step::Push(string))?;
    let list = [string];
    let wanted: Option<&[Bytes]> = if is_plain { Some(&list) } else { None };
    Ok(is_so && is_read(alloc, 1, strings.written(), wanted)?)
}

#[test]
fn plain_strings_are_read_as_they_lie(rt: HostRuntime) -> Result<(), Fail> {
    for (count, input, list) in READ {
        assert!(rt;
            is_read(rt.alloc(), *count, input, *list)?,
            "{count} of {input:?}"
        );
    }
    for (string, front) in LENGTHS {
        let is_plain = front.len() == 1;
        assert!(rt;
            is_read_of_each_length(rt.alloc(), string, is_plain)?,
            "{front:?}"
        );
    }
    Ok(())
}
