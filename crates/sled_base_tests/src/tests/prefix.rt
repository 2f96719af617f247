use sled_base::prefix::{decode, empty, fastcmp, reencode};
use std::alloc::{AllocError, Global};
use std::cmp::Ordering;
use std::test::Fail;

// Whether this is the prefix and the key without the first n bytes. With all of them it is the whole key.
fn is_rest(
    alloc: Global,
    prefix: &[u8],
    key: &[u8],
    n: usize,
    rest: &[u8],
) -> Result<bool, AllocError> {
    if n == 0 && !decode(alloc, prefix, key)?.eq_bytes(rest) {
        return Ok(false);
    }
    Ok(reencode(alloc, prefix, key, n)?.eq_bytes(rest))
}

// Whether the first byte that differs decides, or else the shorter is less.
fn is_below(l: &[u8], r: &[u8]) -> bool {
    fastcmp(l, r) == Ordering::Less
        && fastcmp(r, l) == Ordering::Greater
        && fastcmp(l, l) == Ordering::Equal
}

// ---- rows

type Bytes = &'static [u8];

enum Case {
    Empty,
    // A prefix, a key, how many bytes of both are left out, and the others.
    Rest(Bytes, Bytes, usize, Bytes),
    Below(Bytes, Bytes),
}

type Rows = &'static [(&'static str, Case)];

// These take no memory.
const SHORT_KEYS: Rows = &[
    ("the empty key", Case::Empty),
    ("both are the same", Case::Rest(b"b", b"b", 0, b"bb")),
    ("no byte at all", Case::Rest(b"", b"", 0, b"")),
    ("no key", Case::Rest(b"ab", b"", 0, b"ab")),
    ("no prefix", Case::Rest(b"", b"cd", 0, b"cd")),
    ("the whole key", Case::Rest(b"ab", b"cd", 0, b"abcd")),
    (
        "21 bytes together",
        Case::Rest(&[1; 10], &[1; 11], 0, &[1; 21]),
    ),
    (
        "22 bytes together",
        Case::Rest(&[1; 11], &[1; 11], 0, &[1; 22]),
    ),
    (
        "a prefix of 22 bytes",
        Case::Rest(&[1; 22], &[], 0, &[1; 22]),
    ),
    ("a key of 22 bytes", Case::Rest(&[], &[1; 22], 0, &[1; 22])),
    ("without the prefix", Case::Rest(b"b", b"bc", 1, b"bc")),
    (
        "without part of the prefix",
        Case::Rest(b"ab", b"cd", 1, b"bcd"),
    ),
    (
        "without a prefix of 2 bytes",
        Case::Rest(b"ab", b"cd", 2, b"cd"),
    ),
    ("without part of the key", Case::Rest(b"ab", b"cd", 3, b"d")),
    ("without any byte", Case::Rest(b"ab", b"cd", 4, b"")),
    (
        "fewer bytes than are left out",
        Case::Rest(b"ab", b"cd", 5, b""),
    ),
    (
        "all numbers of bytes",
        Case::Rest(b"", b"cd", usize::MAX, b""),
    ),
    (
        "22 bytes of 23 are left",
        Case::Rest(&[1; 11], &[1; 12], 1, &[1; 22]),
    ),
    (
        "22 bytes of 52 are left",
        Case::Rest(&[1; 30], &[1; 22], 30, &[1; 22]),
    ),
];

const LONG_KEYS: Rows = &[
    (
        "23 bytes together",
        Case::Rest(&[1; 12], &[1; 11], 0, &[1; 23]),
    ),
    (
        "24 bytes together",
        Case::Rest(&[1; 12], &[1; 12], 0, &[1; 24]),
    ),
    (
        "a prefix of 23 bytes",
        Case::Rest(&[1; 23], &[], 0, &[1; 23]),
    ),
    ("a key of 23 bytes", Case::Rest(&[], &[1; 23], 0, &[1; 23])),
    (
        "a prefix of 1,000 bytes",
        Case::Rest(&[1; 1000], &[], 0, &[1; 1000]),
    ),
    (
        "a key of 1,000 bytes",
        Case::Rest(&[], &[1; 1000], 0, &[1; 1000]),
    ),
    (
        "1,000 bytes together",
        Case::Rest(&[1; 500], &[1; 500], 0, &[1; 1000]),
    ),
    (
        "24 bytes of 25 are left",
        Case::Rest(&[1; 12], &[1; 13], 1, &[1; 24]),
    ),
    (
        "23 bytes of 24 are left",
        Case::Rest(&[1; 11], &[1; 13], 1, &[1; 23]),
    ),
    (
        "23 bytes of 53 are left",
        Case::Rest(&[1; 30], &[1; 23], 30, &[1; 23]),
    ),
    (
        "1,000 bytes of 1,023 are left",
        Case::Rest(&[1; 22], &[1; 1001], 23, &[1; 1000]),
    ),
];

const ORDER: Rows = &[
    ("no byte is below one", Case::Below(&[], &[0])),
    ("a byte is below another", Case::Below(&[0], &[1])),
    ("a byte is below the greatest", Case::Below(&[1], &[255])),
    ("a zero behind", Case::Below(&[1, 2, 3], &[1, 2, 3, 0])),
    (
        "a greater byte behind",
        Case::Below(&[1, 2, 3, 0], &[1, 2, 3, 55]),
    ),
    ("a greater first byte", Case::Below(&[1, 2, 3], &[2])),
    ("22 bytes are below 23", Case::Below(&[4; 22], &[4; 23])),
    ("1,000 bytes are below one", Case::Below(&[4; 1000], &[5])),
];

fn holds(alloc: Global, case: &Case) -> Result<bool, AllocError> {
    match case {
        Case::Empty => Ok(empty().is_empty()),
        Case::Rest(prefix, key, n, rest) => is_rest(alloc, prefix, key, *n, rest),
        Case::Below(l, r) => Ok(is_below(l, r)),
    }
}

// It passes with each allocation failing.
#[test]
fn short_keys_take_no_memory(rt: HostRuntime) -> Result<(), Fail> {
    for (row, case) in SHORT_KEYS {
        assert!(rt; holds(rt.alloc(), case)?, "{row}");
    }
    Ok(())
}

#[test]
fn long_keys_are_joined_and_cut(rt: HostRuntime) -> Result<(), Fail> {
    for rows in [LONG_KEYS, ORDER] {
        for (row, case) in rows {
            assert!(rt; holds(rt.alloc(), case)?, "{row}");
        }
    }
    Ok(())
}
