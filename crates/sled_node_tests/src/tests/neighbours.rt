use super::*;

// Over "ba" to "bz", without the first byte: "b" to "v".
const ONE_PAIR: &[u8] = &[0, 0, 0, 1, 2, 98, 97, 2, 98, 122, 0, 1, 1, 98, 1, 118];

// Over "ba" to "bz", without the first byte: "b" to "1", "d" to "2", "f" to "3".
const THREE_PAIRS: &[u8] = &[
    0, 0, 0, 1, 2, 98, 97, 2, 98, 122, 0, 3, 1, 98, 1, 100, 1, 102, 1, 49, 1, 50, 1, 51,
];

// Over "ba" to "bz", without the first byte: "b" with 30 bytes "x" behind it to "4".
const LONG_PAIR: &[u8] = b"\0\0\0\x01\x02ba\x02bz\0\x01\x1fbxxxxxxxxxxxxxxxxxxxxxxxxxxxxxx\x014";

// The whole key of a value.
fn key_of(value: u8) -> &'static [u8] {
    match value {
        b'4' => b"bbxxxxxxxxxxxxxxxxxxxxxxxxxxxxxx".as_slice(),
        b'2' => b"bd".as_slice(),
        b'3' => b"bf".as_slice(),
        _ => b"bb".as_slice(),
    }
}

// The first byte of the value, or '-' where no pair was found, or '?' where one has another whole key.
fn value_of(found: Option<(IVec, IVec)>) -> u8 {
    match found {
        Some(pair) => {
            let value = pair.1.as_slice().first().copied().unwrap_or(b'?');
            if pair.0.eq_bytes(key_of(value)) {
                value
            } else {
                b'?'
            }
        }
        None => b'-',
    }
}

// The nearest pair behind the bound, or before it. An index has none.
pub(super) fn nearest(
    alloc: Global,
    node: &Node,
    is_behind: bool,
    kind: u8,
    key: &[u8],
) -> Result<Option<(IVec, IVec)>, AllocError> {
    if node.is_index() {
        return Ok(None);
    }
    let bound = bound_of(alloc, kind, key)?;
    if is_behind {
        node.successor(&bound)
    } else {
        node.predecessor(&bound)
    }
}

// The value of such a pair, or '!' where there was no memory.
fn value_near(alloc: Global, node: &Node, is_behind: bool, kind: u8, key: &[u8]) -> u8 {
    match nearest(alloc, node, is_behind, kind, key) {
        Ok(found) => value_of(found),
        Err(_) => b'!',
    }
}

// The values of the nearest pairs at or above the key, above it, at or below it, and below it, and of the first and the last.
fn near(alloc: Global, node: &Node, key: &[u8]) -> [u8; 6] {
    [
        value_near(alloc, node, true, b'[', key),
        value_near(alloc, node, true, b'(', key),
        value_near(alloc, node, false, b'[', key),
        value_near(alloc, node, false, b'(', key),
        value_near(alloc, node, true, b'-', key),
        value_near(alloc, node, false, b'-', key),
    ]
}

fn are_near(alloc: Global, payload: &[u8], key: &[u8], values: &[u8; 6]) -> bool {
    match node_of(alloc, payload) {
        Some(node) => near(alloc, &node, key) == *values,
        None => false,
    }
}

const ROWS: &[(&[u8], &[u8], &[u8; 6])] = &[
    (THREE_PAIRS, b"", b"11--13"),
    (THREE_PAIRS, b"a", b"11--13"),
    (THREE_PAIRS, b"azz", b"11--13"),
    (THREE_PAIRS, b"b", b"11--13"),
    (THREE_PAIRS, b"ba", b"11--13"),
    (THREE_PAIRS, b"bb", b"121-13"),
    (THREE_PAIRS, b"bba", b"221113"),
    (THREE_PAIRS, b"bc", b"221113"),
    (THREE_PAIRS, b"bd", b"232113"),
    (THREE_PAIRS, b"be", b"332213"),
    (THREE_PAIRS, b"bf", b"3-3213"),
    (THREE_PAIRS, b"bz", b"--3313"),
    (THREE_PAIRS, b"c", b"--3313"),
    (THREE_PAIRS, b"d", b"--3313"),
    (LONG_PAIR, b"bb", b"44--44"),
    (LONG_PAIR, b"bbxxxxxxxxxxxxxxxxxxxxxxxxxxxxxx", b"4-4-44"),
    (LONG_PAIR, b"bc", b"--4444"),
    (ONE_PAIR, b"ab", b"vv--vv"),
    (ONE_PAIR, b"c", b"--vvvv"),
    (EMPTY, b"a", b"------"),
];

#[test]
fn the_nearest_pair_is_found(rt: HostRuntime) {
    for (payload, key, values) in ROWS {
        assert!(rt; are_near(rt.alloc(), payload, key, values), "{key:?}");
    }
}
