mod bounds;
mod buffer;
mod children;
mod contents;
mod corners;
mod leaf;
mod links;
mod listed;
mod lookups;
mod meta;
mod neighbours;
mod parts;
mod refused;
mod serialization;
mod sizes;
mod split;

use sled_base::{Error, IVec, PageId};
use sled_node::{Data, Index, Item, Leaf, Link, Meta, Node, Serialize};
use std::alloc::{AllocError, Global};
use std::num::NonZeroU64;
use std::ops::Bound;
use std::process::Abort;

// Steps that the tests of this crate share. What a call takes or gives is let go in a step, which answers only whether all was so:
// no test holds an answer that may be an error, which it would be proved for each way of dropping.

pub(crate) fn bytes(alloc: Global, from: &[u8]) -> Result<IVec, AllocError> {
    IVec::from_slice(alloc, from)
}

pub(crate) fn node_of(alloc: Global, payload: &[u8]) -> Option<Node> {
    let mut input = payload;
    Node::deserialize(alloc, &mut input).ok()
}

// Whether the bytes are a whole encoding of the value, or none where nothing is read.
pub(crate) fn reads_as<T: Serialize + PartialEq>(
    alloc: Global,
    bytes: &[u8],
    value: &T,
) -> Option<bool> {
    let mut rest = bytes;
    match T::deserialize(alloc, &mut rest) {
        Ok(read) => Some(read == *value && rest.is_empty()),
        Err(_) => None,
    }
}

pub(crate) fn is_read<T: Serialize + PartialEq>(alloc: Global, bytes: &[u8], value: &T) -> bool {
    reads_as(alloc, bytes, value) == Some(true)
}

pub(crate) fn is_cloned<T: Clone + PartialEq + Drop>(value: &T) -> bool {
    match value.clone() {
        Ok(copy) => copy == *value,
        Err(_) => false,
    }
}

// A bound at the key that includes it for '[' and excludes it for '(', and none for '-'.
pub(crate) fn bound_of(alloc: Global, kind: u8, key: &[u8]) -> Result<Bound<IVec>, AllocError> {
    let key = bytes(alloc, key)?;
    Ok(match kind {
        b'-' => Bound::Unbounded,
        b'[' => Bound::Included(key),
        _ => Bound::Excluded(key),
    })
}

// A key or a name, which is kept in place so that nothing is dropped, and how long it is.
pub(crate) type Key = ([u8; 40], usize);

pub(crate) fn append(key: &mut Key, part: &[u8]) {
    for byte in part {
        if key.1 < key.0.len() {
            key.0[key.1] = *byte;
            key.1 += 1;
        }
    }
}

pub(crate) fn whole(key: &Key) -> &[u8] {
    key.0.get(..key.1).unwrap_or(&[])
}

// ---- nodes, as payloads

// A leaf without pairs over all keys.
pub(crate) const EMPTY: &[u8] = &[0; 8];

// The same, with "b" to "v", or to "w".
const B_TO_V: &[u8] = &[0, 0, 0, 0, 0, 0, 0, 1, 1, 98, 1, 118];

const B_TO_W: &[u8] = &[0, 0, 0, 0, 0, 0, 0, 1, 1, 98, 1, 119];

// The same without pairs, being merged itself, or with the child on page 5 being merged.
const CAPPED: &[u8] = &[0, 0, 1, 0, 0, 0, 0, 0];

const MERGING_5: &[u8] = &[0, 5, 0, 0, 0, 0, 0, 0];

// The same, with a child on page 2^32 + 5.
const MERGING_FAR: &[u8] = b"\0\xfc\x05\0\0\0\x01\0\0\0\0\0\0";

// A leaf over all keys with the keys "a" to "p", "q" or "r", all to no bytes.
const PAIRS_16: &[u8] =
    b"\0\0\0\0\0\0\0\x10\x01a\x01b\x01c\x01d\x01e\x01f\x01g\x01h\x01i\x01j\x01k\x01l\x01m\x01n\x01o\x01p\0\0\0\0\0\0\0\0\0\0\0\0\0\0\0\0";

const PAIRS_17: &[u8] =
    b"\0\0\0\0\0\0\0\x11\x01a\x01b\x01c\x01d\x01e\x01f\x01g\x01h\x01i\x01j\x01k\x01l\x01m\x01n\x01o\x01p\x01q\0\0\0\0\0\0\0\0\0\0\0\0\0\0\0\0\0";

const PAIRS_18: &[u8] =
    b"\0\0\0\0\0\0\0\x12\x01a\x01b\x01c\x01d\x01e\x01f\x01g\x01h\x01i\x01j\x01k\x01l\x01m\x01n\x01o\x01p\x01q\x01r\0\0\0\0\0\0\0\0\0\0\0\0\0\0\0\0\0\0";

// A leaf over all keys with a key and a value of 30 bytes each.
const LONG_PAIR: &[u8] =
    b"\0\0\0\0\0\0\0\x01\x1exxxxxxxxxxxxxxxxxxxxxxxxxxxxxx\x1eyyyyyyyyyyyyyyyyyyyyyyyyyyyyyy";

// A leaf from "ba" up to "bz", next to page 7, whose stored keys lack the first byte: without pairs, or with one.
const PREFIXED: &[u8] = &[7, 0, 0, 1, 2, 98, 97, 2, 98, 122, 0, 0];

const PREFIXED_A: &[u8] = &[7, 0, 0, 1, 2, 98, 97, 2, 98, 122, 0, 1, 1, 97, 1, 118];

const PREFIXED_B: &[u8] = &[7, 0, 0, 1, 2, 98, 97, 2, 98, 122, 0, 1, 1, 98, 1, 118];

// The last of these with all marks.
const MARKED: &[u8] = &[7, 5, 1, 1, 2, 98, 97, 2, 98, 122, 0, 1, 1, 98, 1, 118];

// The leaf with one pair once more, of which the child on page 5 is being merged.
const PREFIXED_5: &[u8] = &[7, 5, 0, 1, 2, 98, 97, 2, 98, 122, 0, 1, 1, 98, 1, 118];

// An index of the empty key to page 5, which is being merged, or is so no more.
const INDEX_MERGING_5: &[u8] = &[0, 5, 0, 0, 0, 0, 1, 1, 0, 5];

const INDEX_OF_NONE: &[u8] = &[0, 0, 0, 0, 0, 0, 1, 0];

// An index without pairs that is being merged itself.
const CAPPED_INDEX: &[u8] = &[0, 0, 1, 0, 0, 0, 1, 0];
