ghost use Rattle.std.specs.Prelude.{◌<◌, ◌≡◌, ◌^◌, length, true};
ghost use Rattle.sled_base.specs.Payloads.Reading.{ReadsNoValue};
ghost use Rattle.sled_node.specs.Payloads.Links.{written_link, CanWriteLink};

use super::*;

// Whether the bytes are the encoding that was written, of the size that was answered, and they are read as the value.
fn is_same<T: Serialize + PartialEq>(
    alloc: Global,
    value: &T,
    written: &[u8],
    size: u64,
    bytes: &[u8],
) -> bool {
    written == bytes && size == bytes.len() as u64 && is_read(alloc, bytes, value)
}

fn is_link_written(alloc: Global, link: &Link, bytes: &[u8]) -> bool
    requires can_write { CanWriteLink link.now }
    requires fits { length (written_link link.now) < 2 ^ 64 }
{
    match link.serialize(alloc) {
        Ok(written) => is_same(alloc, link, &written, link.serialized_size(), bytes),
        Err(_) => false,
    }
}

fn is_data_written(alloc: Global, data: &Data, bytes: &[u8]) -> bool {
    match data.serialize(alloc) {
        Ok(written) => is_same(alloc, data, &written, data.serialized_size(), bytes),
        Err(_) => false,
    }
}

// Whether the node is written as these bytes, or as any, and read again from them.
pub(super) fn is_node_written(alloc: Global, node: &Node, bytes: Option<&[u8]>) -> bool {
    match node.serialize(alloc) {
        Ok(written) => {
            let bytes = bytes.unwrap_or(&written);
            is_same(alloc, node, &written, node.serialized_size(), bytes)
        }
        Err(_) => false,
    }
}

pub(super) fn is_meta_written(alloc: Global, meta: &Meta, bytes: Option<&[u8]>) -> bool {
    match meta.serialize(alloc) {
        Ok(written) => {
            let bytes = bytes.unwrap_or(&written);
            is_same(alloc, meta, &written, meta.serialized_size(), bytes)
        }
        Err(_) => false,
    }
}

// The same of a link that is let go here.
fn is_written(alloc: Global, link: Link, bytes: &[u8]) -> bool
    requires can_write { CanWriteLink link }
    requires fits { length (written_link link) < 2 ^ 64 }
{
    is_link_written(alloc, &link, bytes)
}

fn is_set_written(alloc: Global, bytes: &[u8]) -> bool {
    let Ok(key) = IVec::from_slice(alloc, &[1]) else {
        return false;
    };
    match IVec::from_slice(alloc, &[2]) {
        Ok(value) => is_written(alloc, Link::Set(key, value), bytes),
        Err(_) => false,
    }
}

fn is_del_written(alloc: Global, bytes: &[u8]) -> bool {
    match IVec::from_slice(alloc, &[1]) {
        Ok(key) => is_written(alloc, Link::Del(key), bytes),
        Err(_) => false,
    }
}

fn are_marks_written(alloc: Global) -> bool {
    is_written(alloc, Link::ParentMergeIntention(0), &[2, 0])
        && is_written(alloc, Link::ParentMergeIntention(241), &[2, 241, 1])
        && is_written(alloc, Link::ParentMergeConfirm, &[3])
        && is_written(alloc, Link::ChildMergeCap, &[4])
}

const SET: &[u8] = &[0, 1, 1, 1, 2];

const DEL: &[u8] = &[1, 1, 1];

fn are_links_written(alloc: Global) -> bool {
    is_set_written(alloc, SET) && is_del_written(alloc, DEL) && are_marks_written(alloc)
}

// What stands before a value of so many bytes in a link that sets it, whose payload has 2^17 + 1 bytes then.
const LONG_SET: (&[u8], usize) = (&[0, 1, 1, 250, 250, 255, 1], 131_066);

// These bytes, and so many bytes 2 behind them.
fn before_twos(alloc: Global, front: &[u8], len: usize) -> Result<Vec<u8>, AllocError> {
    let mut bytes = Vec::from_slice(alloc, front)?;
    for _ in 0..len {
        bytes.push(2)?;
    }
    Ok(bytes)
}

// Whether the bytes are read as a link that sets this value.
fn sets_value(alloc: Global, bytes: &[u8], value: &[u8]) -> bool {
    match (
        IVec::from_slice(alloc, &[1]),
        IVec::from_slice(alloc, value),
    ) {
        (Ok(key), Ok(value)) => is_read(alloc, bytes, &Link::Set(key, value)),
        _ => false,
    }
}

fn is_long_set_read(alloc: Global) -> bool {
    let (front, len) = LONG_SET;
    match before_twos(alloc, front, len) {
        Ok(bytes) => sets_value(alloc, &bytes, bytes.get(front.len()..).unwrap_or(&[])),
        Err(_) => false,
    }
}

#[test]
fn links(rt: HostRuntime) {
    assert!(rt; are_links_written(rt.alloc()));
    assert!(rt; is_long_set_read(rt.alloc()));
}

// Whether a leaf is read from the input, whose last byte is left, and written as the bytes.
fn is_leaf_read(alloc: Global, input: &[u8], bytes: &[u8]) -> bool {
    let mut rest = input;
    match Data::deserialize(alloc, &mut rest) {
        Ok(leaf) => rest == [7].as_slice() && is_data_written(alloc, &leaf, bytes),
        Err(_) => false,
    }
}

fn is_empty_leaf_written(alloc: Global) -> bool {
    let empty = Data::Leaf(Leaf::default(alloc));
    is_data_written(alloc, &empty, &[0, 0])
}

// An index of these two keys, to the pages 2 and 241, or none where they don't rise.
fn index_of(alloc: Global, left: &[u8], right: &[u8]) -> Result<Option<Index>, AllocError> {
    let mut pairs = Vec::new(alloc);
    pairs.push((bytes(alloc, left)?, 2))?;
    pairs.push((bytes(alloc, right)?, 241))?;
    Index::from_pairs(alloc, pairs)
}

fn is_any_written(alloc: Global, data: &Data, bytes: Option<&[u8]>) -> bool {
    match bytes {
        Some(bytes) => is_data_written(alloc, data, bytes),
        None => false,
    }
}

// Whether the two keys make up no index where the bytes are none, and else one that is written as the bytes.
fn is_index_written(alloc: Global, left: &[u8], right: &[u8], bytes: Option<&[u8]>) -> bool {
    match index_of(alloc, left, right) {
        Ok(Some(index)) => is_any_written(alloc, &Data::Index(index), bytes),
        Ok(None) => bytes.is_none(),
        Err(_) => false,
    }
}

#[test]
fn leaves_and_indexes(rt: HostRuntime) {
    let alloc = rt.alloc();
    assert!(rt; is_empty_leaf_written(alloc));
    // the count, a key's length or a value's takes more bytes than it has to
    for longer in [
        [0, 250, 1, 0, 0, 1, 97, 1, 98, 7],
        [0, 1, 250, 1, 0, 0, 97, 1, 98, 7],
        [0, 1, 1, 97, 250, 1, 0, 0, 98, 7],
    ] {
        assert!(rt; is_leaf_read(alloc, &longer, &[0, 1, 1, 97, 1, 98]));
    }
    for (left, right, bytes) in [
        (
            b"".as_slice(),
            b"a".as_slice(),
            Some([1, 2, 0, 1, 97, 2, 241, 1].as_slice()),
        ),
        (b"a", b"", None),
        (b"a", b"a", None),
    ] {
        assert!(rt; is_index_written(alloc, left, right, bytes));
    }
}

// Whether no value is read, and the input stays where it was. Then the grammar has none for it.
pub(super) fn is_corrupt<T: Serialize>(alloc: Global, bytes: &[u8]) -> bool
    ensures { result ≡ true → ReadsNoValue T.reads bytes.now }
{
    let mut rest = bytes;
    let answer = T::deserialize(alloc, &mut rest);
    matches!(&answer, Err(Error::Corruption(None))) && rest.len() == bytes.len()
}

// What is read.
enum Kind {
    Link,
    Data,
    Node,
}

fn is_refused(alloc: Global, kind: &Kind, bytes: &[u8]) -> bool {
    match kind {
        Kind::Link => is_corrupt::<Link>(alloc, bytes),
        Kind::Data => is_corrupt::<Data>(alloc, bytes),
        Kind::Node => is_corrupt::<Node>(alloc, bytes),
    }
}

// A forged length takes no memory: run with the first allocation refused too, none of these asks for any.
const FORGED: &[(Kind, &[u8])] = &[
    (
        Kind::Data,
        &[0, 255, 255, 255, 255, 255, 255, 255, 255, 255],
    ),
    (Kind::Data, &[0, 250, 0, 0, 1, 1, 97, 1, 98]),
    (Kind::Data, &[1, 250, 0, 0, 1, 1, 97, 1]),
    (Kind::Data, &[1, 251, 0, 0, 0, 1, 0, 0]),
    (Kind::Link, &[0, 250, 255, 255, 255, 1, 1]),
    (Kind::Link, &[1, 255, 0, 0, 0, 0, 0, 0, 0, 1]),
    (Kind::Node, &[0, 0, 0, 0, 252, 0, 0, 0, 0, 1, 0, 0]),
    (
        Kind::Node,
        &[0, 0, 0, 0, 0, 0, 0, 250, 0, 0, 1, 1, 97, 1, 98],
    ),
];

const NO_LINKS: &[(Kind, &[u8])] = &[
    (Kind::Link, &[]),
    (Kind::Link, &[5]),
    (Kind::Link, &[255]),
    (Kind::Link, &[0, 1, 1]),
    (Kind::Link, &[0, 1, 1, 2, 2]),
    (Kind::Link, &[1, 2, 1]),
    (Kind::Link, &[2]),
    (Kind::Link, &[2, 241]),
];

const NO_LEAVES: &[(Kind, &[u8])] = &[
    (Kind::Data, &[]),
    (Kind::Data, &[0]),
    (Kind::Data, &[2, 0]),
    (Kind::Data, &[0, 1]),
    (Kind::Data, &[0, 1, 1]),
    (Kind::Data, &[0, 1, 1, 97]),
    (Kind::Data, &[0, 1, 1, 97, 1]),
    (Kind::Data, &[0, 2, 1, 97, 1, 98, 1, 120]),
    (Kind::Data, &[0, 2, 1, 98, 1, 97, 0, 0]),
    (Kind::Data, &[0, 2, 1, 97, 1, 97, 0, 0]),
];

const NO_INDEXES: &[(Kind, &[u8])] = &[
    (Kind::Data, &[1]),
    (Kind::Data, &[1, 2, 1, 97, 0, 2, 3]),
    (Kind::Data, &[1, 1, 1, 97]),
];

const NO_NODES: &[(Kind, &[u8])] = &[
    (Kind::Node, &[]),
    (Kind::Node, &[0, 0, 0, 0, 0, 0, 0]),
    // A prefix without an upper end.
    (Kind::Node, &[0, 0, 0, 1, 1, 97, 0, 0, 0]),
    // The lower bound above the upper one.
    (Kind::Node, &[0, 0, 0, 0, 1, 98, 1, 97, 0, 0]),
    // A key below the lower bound, and one that isn't below the upper bound.
    (Kind::Node, &[0, 0, 0, 0, 1, 98, 0, 0, 1, 1, 97, 0]),
    (Kind::Node, &[0, 0, 0, 0, 0, 1, 98, 0, 1, 1, 98, 0]),
    // Equal keys, and keys that fall.
    (Kind::Node, &[0, 0, 0, 0, 0, 0, 0, 2, 1, 97, 1, 97, 0, 0]),
    (Kind::Node, &[0, 0, 0, 0, 0, 0, 0, 2, 1, 98, 1, 97, 0, 0]),
    // A leaf over all keys that lacks a value, and another tag behind seven zeros.
    (Kind::Node, &[0, 0, 0, 0, 0, 0, 0, 2, 1, 97, 1, 98, 0]),
    (Kind::Node, &[0, 0, 0, 0, 0, 0, 2, 0]),
];

#[test]
fn what_is_no_encoding_is_refused(rt: HostRuntime) {
    for rows in [FORGED, NO_LINKS, NO_LEAVES, NO_INDEXES, NO_NODES] {
        for (kind, bytes) in rows {
            assert!(rt; is_refused(rt.alloc(), kind, bytes), "{bytes:?}");
        }
    }
}
