mod dll;
mod lru;
mod plain;
mod prefix;
mod search;
mod serialization;
mod spans;
mod strings;
mod writes;

use sled_base::{BatchManifest, Bug, Device, DiskPtr, Error, IVec, Lsn, PageState, Refusal, Why};
use std::alloc::{AllocError, Global};
use std::cmp::Ordering;
use std::hash::{FoldHasher, Hash, Hasher};
use std::str;
use std::sync::Arc;
use std::test::Fail;

// ---- byte strings by their lengths, of ASCII, so that they are texts too

const LETTERS: &[u8] = b"abcdefghijklmnopqrstuvwxyz";

// Up to 22 bytes are kept in place.
const SHORT: &[(&str, &[u8])] = &[
    ("no byte", &[]),
    ("1 byte", &[7]),
    ("2 bytes", &[1, 2]),
    ("3 bytes", &[1, 2, 3]),
    ("16 bytes", b"abcdefghijklmnop"),
    ("17 bytes", b"abcdefghijklmnopq"),
    ("21 bytes", b"abcdefghijklmnopqrstu"),
    ("22 bytes", b"abcdefghijklmnopqrstuv"),
    ("22 equal bytes", &[5; 22]),
];

// More are shared.
const LONG: &[(&str, &[u8])] = &[
    ("23 bytes", b"abcdefghijklmnopqrstuvw"),
    ("23 equal bytes", &[6; 23]),
    ("24 bytes", b"abcdefghijklmnopqrstuvwx"),
    ("26 bytes", LETTERS),
    ("128 bytes", &[4; 128]),
    ("1,000 bytes", &[4; 1000]),
];

// ---- where byte strings come from

// The bytes of both, one behind the other.
fn joined(alloc: Global, front: &[u8], back: &[u8]) -> Result<Vec<u8>, AllocError> {
    let mut bytes = Vec::from_slice(alloc, front)?;
    bytes.extend_from_slice(back)?;
    Ok(bytes)
}

fn is_of(string: &IVec, bytes: &[u8]) -> bool {
    string.as_slice() == bytes
        && string.len() == bytes.len()
        && string.is_empty() == bytes.is_empty()
        && string.eq_bytes(bytes)
}

// Whether the string and its copies are of these bytes.
fn is_copied(string: &IVec, bytes: &[u8]) -> Result<bool, AllocError> {
    let copies = is_of(&string.clone()?, bytes) && is_of(&string.subslice(0, string.len())?, bytes);
    Ok(copies && is_of(string, bytes))
}

// Whether the string, its copies, and what it is as a shared list are of these bytes.
fn is_used(alloc: Global, string: IVec, bytes: &[u8]) -> Result<bool, AllocError> {
    let is_so = is_copied(&string, bytes)?;
    Ok(string.into_arc(alloc)?.as_slice() == bytes && is_so)
}

// What a byte string is made of.
enum Source {
    Box,
    Arc,
    Vec,
    Iter,
    Slice,
    Str,
}

fn made(alloc: Global, source: &Source, bytes: &[u8]) -> Result<IVec, Fail> {
    Ok(match source {
        Source::Box => IVec::from_box(alloc, Vec::from_slice(alloc, bytes)?.into_boxed_slice())?,
        Source::Arc => IVec::from_arc(alloc, Arc::new(alloc, Vec::from_slice(alloc, bytes)?)?)?,
        Source::Vec => IVec::from_vec(alloc, Vec::from_slice(alloc, bytes)?)?,
        Source::Iter => IVec::from_iter(alloc, bytes.iter().copied())?,
        Source::Slice => IVec::from_slice(alloc, bytes)?,
        Source::Str => IVec::from_str(alloc, str::from_utf8(bytes).ok().ok_or("no text")?)?,
    })
}

const SOURCES: &[Source] = &[
    Source::Box,
    Source::Arc,
    Source::Vec,
    Source::Iter,
    Source::Slice,
    Source::Str,
];

fn comes_from_each(alloc: Global, bytes: &[u8]) -> Result<bool, Fail> {
    for source in SOURCES {
        if !is_used(alloc, made(alloc, source, bytes)?, bytes)? {
            return Ok(false);
        }
    }
    Ok(true)
}

fn comes_from_array<const N: usize>(alloc: Global, bytes: [u8; N]) -> Result<bool, AllocError> {
    is_used(alloc, IVec::from_array(alloc, bytes)?, &bytes)
}

fn comes_from_array_of(alloc: Global, len: usize) -> Result<bool, AllocError> {
    match len {
        0 => comes_from_array(alloc, []),
        2 => comes_from_array(alloc, [1, 2]),
        22 => comes_from_array(alloc, [7; 22]),
        23 => comes_from_array(alloc, [7; 23]),
        24 => comes_from_array(alloc, [7; 24]),
        128 => comes_from_array(alloc, [4; 128]),
        1000 => comes_from_array(alloc, [4; 1000]),
        _ => Ok(false),
    }
}

// Whether the string of the first bytes of an array is copied, where these are all of them that it has.
fn comes_from_front(bytes: &[u8]) -> Result<bool, AllocError> {
    let mut room = [9; 22];
    if bytes.len() > room.len() {
        return Ok(false);
    }
    room[..bytes.len()].copy_from_slice(bytes);
    is_copied(&IVec::from_front(room, bytes.len()), bytes)
}

// Whether the strings of these bytes and the default one are copied.
fn is_short(alloc: Global, bytes: &[u8]) -> Result<bool, AllocError> {
    let others = is_copied(&IVec::default(), &[])? && comes_from_front(bytes)?;
    Ok(is_copied(&IVec::from_slice(alloc, bytes)?, bytes)? && others)
}

// It passes with each allocation failing.
#[test]
fn short_strings_take_no_memory(rt: HostRuntime) -> Result<(), Fail> {
    for (row, bytes) in SHORT {
        assert!(rt; is_short(rt.alloc(), bytes)?, "{row}");
    }
    Ok(())
}

// ---- copies and parts

// Whether a copy of the whole, and so many bytes of it from a place on, outlive it.
fn is_part(
    alloc: Global,
    whole: &[u8],
    offset: usize,
    len: usize,
    part: &[u8],
) -> Result<bool, AllocError> {
    if offset > whole.len() || len > whole.len() - offset {
        return Ok(false);
    }
    let string = IVec::from_slice(alloc, whole)?;
    let copy = string.clone()?;
    let cut = string.subslice(offset, len)?;
    drop(string);
    let is_so = is_of(&copy, whole);
    Ok(is_used(alloc, cut, part)? && is_so)
}

// How many hold a list that a string is made of, which then gives its bytes out: at first, and without the other holder.
fn holders_of(alloc: Global, bytes: &[u8]) -> Result<[usize; 2], AllocError> {
    let shared = Arc::new(alloc, Vec::from_slice(alloc, bytes)?)?;
    let other = shared.clone()?;
    let string = IVec::from_arc(alloc, shared)?;
    let given = string.into_arc(alloc)?;
    let both = Arc::strong_count(&given);
    drop(other);
    Ok([both, Arc::strong_count(&given)])
}

// ---- order and text

fn hash_of<T: Hash>(value: &T) -> u64 {
    let mut state = FoldHasher::default();
    value.hash(&mut state);
    state.finish()
}

// Whether strings of these bytes stand so to one another. Equal ones have one hash.
fn are_ordered(alloc: Global, a: &[u8], b: &[u8], order: Ordering) -> Result<bool, AllocError> {
    let x = IVec::from_slice(alloc, a)?;
    let y = IVec::from_slice(alloc, b)?;
    let is_same = order.is_eq();
    Ok(
        x.cmp(&y) == order
            && (x < y) == order.is_lt()
            && (x == y) == is_same
            && x.eq_bytes(b) == is_same
            && (!is_same || hash_of(&x) == hash_of(&y)),
    )
}

const RISING: &[(&str, &[u8])] = &[
    ("no byte", &[]),
    ("the least byte", &[0]),
    ("another byte", &[1]),
    ("22 of them", &[1; 22]),
    ("23 of them", &[1; 23]),
    ("a greater second byte", &[1, 2]),
    ("with a third byte", &[1, 2, 3]),
    ("with a zero behind it", &[1, 2, 3, 0]),
    ("with another byte behind it", &[1, 2, 3, 55]),
    ("a greater third byte", &[1, 2, 4]),
    ("16 greater bytes", &[2; 16]),
    ("17 greater bytes", &[2; 17]),
    ("21 greater bytes", &[4; 21]),
    ("22 greater bytes", &[4; 22]),
    ("23 greater bytes", &[4; 23]),
    ("30 greater bytes", &[4; 30]),
    ("1,000 greater bytes", &[4; 1000]),
    ("30 bytes greater still", &[5; 30]),
    ("the greatest byte", &[255]),
];

#[test]
fn the_first_byte_that_differs_decides_else_the_shorter_is_less(
    rt: HostRuntime,
) -> Result<(), Fail> {
    for (i, (row, a)) in RISING.iter().enumerate() {
        for (j, (other, b)) in RISING.iter().enumerate() {
            assert!(rt;
                are_ordered(rt.alloc(), a, b, i.cmp(&j))?,
                "{row} and {other}"
            );
        }
    }
    Ok(())
}

fn prints(alloc: Global, bytes: &[u8], text: &str) -> Result<bool, Fail> {
    let string = IVec::from_slice(alloc, bytes)?;
    Ok(format!(in alloc; "{string:?}")?.as_str() == text)
}

// ---- rows

type Bytes = &'static [u8];

enum Case {
    // An array of so many bytes.
    Array(usize),
    // A whole, where a part begins in it and how long it is, and the part.
    Part(Bytes, usize, usize, Bytes),
    // How many hold the list that is given out.
    Holders(Bytes, [usize; 2]),
    Printed(Bytes, &'static str),
    // Which other strings hold the bytes, and whether they are written in place.
    Written(Bytes, &'static [usize], bool),
}

type Rows = &'static [(&'static str, Case)];

const ARRAYS: Rows = &[
    ("an array of no byte", Case::Array(0)),
    ("an array of 2 bytes", Case::Array(2)),
    ("an array of 22 bytes", Case::Array(22)),
    ("an array of 23 bytes", Case::Array(23)),
    ("an array of 24 bytes", Case::Array(24)),
    ("an array of 128 bytes", Case::Array(128)),
    ("an array of 1,000 bytes", Case::Array(1000)),
];

// A part is so many bytes from its place on.
const PARTS: Rows = &[
    ("all of no byte", Case::Part(&[], 0, 0, &[])),
    ("no byte at the end", Case::Part(&[1, 2, 3], 3, 0, &[])),
    ("the last byte", Case::Part(&[1, 2, 3], 2, 1, &[3])),
    (
        "all but the first byte",
        Case::Part(&[1, 2, 3], 1, 2, &[2, 3]),
    ),
    ("all of 3 bytes", Case::Part(&[1, 2, 3], 0, 3, &[1, 2, 3])),
    ("all of 22 bytes", Case::Part(&[5; 22], 0, 22, &[5; 22])),
    ("all of 23 bytes", Case::Part(&[6; 23], 0, 23, &[6; 23])),
    ("all of 128 bytes", Case::Part(&[4; 128], 0, 128, &[4; 128])),
    (
        "all of 1,000 bytes",
        Case::Part(&[4; 1000], 0, 1000, &[4; 1000]),
    ),
    (
        "21 of 26 bytes",
        Case::Part(LETTERS, 5, 21, b"fghijklmnopqrstuvwxyz"),
    ),
    (
        "22 of 26 bytes",
        Case::Part(LETTERS, 3, 22, b"defghijklmnopqrstuvwxy"),
    ),
    (
        "23 of 26 bytes",
        Case::Part(LETTERS, 2, 23, b"cdefghijklmnopqrstuvwxy"),
    ),
    (
        "25 of 26 bytes",
        Case::Part(LETTERS, 1, 25, b"bcdefghijklmnopqrstuvwxyz"),
    ),
    (
        "24 of 26 bytes",
        Case::Part(LETTERS, 1, 24, b"bcdefghijklmnopqrstuvwxy"),
    ),
    ("no byte at the end of 26", Case::Part(LETTERS, 26, 0, b"")),
    (
        "999 of 1,000 bytes",
        Case::Part(&[4; 1000], 1, 999, &[4; 999]),
    ),
];

// What is shared whole is given out itself.
const HOLDERS: Rows = &[
    ("3 bytes are copied", Case::Holders(&[1, 2, 3], [1, 1])),
    ("22 bytes are copied", Case::Holders(&[5; 22], [1, 1])),
    ("23 bytes are shared", Case::Holders(&[6; 23], [2, 1])),
    ("26 bytes are shared", Case::Holders(LETTERS, [2, 1])),
    ("1,000 bytes are shared", Case::Holders(&[4; 1000], [2, 1])),
];

// Strings are printed as lists.
const PRINTED: Rows = &[
    ("no byte is printed", Case::Printed(&[], "[]")),
    ("1 byte is printed", Case::Printed(&[7], "[7]")),
    (
        "3 bytes are printed",
        Case::Printed(&[1, 2, 3], "[1, 2, 3]"),
    ),
    (
        "the greatest bytes are printed",
        Case::Printed(&[255, 255], "[255, 255]"),
    ),
    (
        "23 bytes are printed",
        Case::Printed(
            &[6; 23],
            "[6, 6, 6, 6, 6, 6, 6, 6, 6, 6, 6, 6, 6, 6, 6, 6, 6, 6, 6, 6, 6, 6, 6]",
        ),
    ),
];

fn holds(alloc: Global, case: &Case) -> Result<bool, Fail> {
    Ok(match case {
        Case::Array(len) => comes_from_array_of(alloc, *len)?,
        Case::Part(whole, offset, len, part) => is_part(alloc, whole, *offset, *len, part)?,
        Case::Holders(bytes, holders) => holders_of(alloc, bytes)? == *holders,
        Case::Printed(bytes, text) => prints(alloc, bytes, text)?,
        Case::Written(bytes, lens, in_place) => {
            writes::is_written(alloc, bytes, lens, *in_place)?
        }
    })
}

#[test]
fn strings_are_cut_shared_written_and_printed(rt: HostRuntime) -> Result<(), Fail> {
    for rows in [ARRAYS, PARTS, HOLDERS, PRINTED, writes::WRITTEN] {
        for (row, case) in rows {
            assert!(rt; holds(rt.alloc(), case)?, "{row}");
        }
    }
    Ok(())
}

// One to three hold what is shared, when it is written.
#[test]
fn strings_come_from_all_that_has_bytes(rt: HostRuntime) -> Result<(), Fail> {
    for rows in [SHORT, LONG] {
        for (row, bytes) in rows {
            let is_so = comes_from_each(rt.alloc(), bytes)?;
            assert!(rt;
                is_so && writes::is_held_by_some(rt.alloc(), bytes)?,
                "{row}"
            );
        }
    }
    Ok(())
}
