use super::*;

// The nodes are payloads: next page, merging child, mark, prefix length, both bounds, kind, count, stored keys, items. In these
// texts '*' stands for 255 bytes "a", and '#' for 30 bytes "x".
fn expanded(alloc: Global, text: &[u8]) -> Result<Vec<u8>, AllocError> {
    let mut payload = Vec::new(alloc);
    for byte in text {
        let (count, repeated) = match byte {
            b'*' => (255, b'a'),
            b'#' => (30, b'x'),
            other => (1, *other),
        };
        for _ in 0..count {
            payload.push(repeated)?;
        }
    }
    Ok(payload)
}

fn node_in(alloc: Global, text: &[u8]) -> Option<Node> {
    match expanded(alloc, text) {
        Ok(payload) => node_of(alloc, &payload),
        Err(_) => None,
    }
}

fn is_in(alloc: Global, node: &Node, text: &[u8]) -> bool {
    match expanded(alloc, text) {
        Ok(payload) => is_read(alloc, &payload, node),
        Err(_) => false,
    }
}

// Whether the left node takes in the right one, and is then the node of the text.
fn merges(alloc: Global, left: &Node, right: &Node, text: &[u8]) -> bool {
    if !left.can_receive(right) {
        return false;
    }
    match left.receive_merge(right) {
        Ok(merged) => is_in(alloc, &merged, text),
        Err(_) => false,
    }
}

// Whether the parts are the nodes of the texts, and the two merged again that of the last.
fn are_parts(alloc: Global, left: &Node, right: &Node, texts: [&[u8]; 3]) -> bool {
    is_in(alloc, left, texts[0])
        && is_in(alloc, right, texts[1])
        && merges(alloc, left, right, texts[2])
}

// Whether the node of the text splits into the nodes of the next two, and these are merged again into that of the last.
fn splits(alloc: Global, whole: &[u8], texts: [&[u8]; 3]) -> bool {
    let Some(node) = node_in(alloc, whole) else {
        return false;
    };
    if node.len() < 3 {
        return false;
    }
    match node.split() {
        Ok((left, right)) => are_parts(alloc, &left, &right, texts),
        Err(_) => false,
    }
}

// The prefix lengths of parts and of a merged node are those of their bounds, also where that of the whole is less: then the node
// that is merged again is another one.
#[test]
fn nodes_split_and_merge(rt: HostRuntime) {
    for (row, whole, left, right, merged) in [
        (
            "a leaf without an end",
            b"\x07\x05\x01\0\x02aa\0\0\x03\x03aab\x03aac\x03aad\x01v\x01w\x01x".as_slice(),
            b"\0\x05\x01\x02\x02aa\x03aad\0\x02\x01b\x01c\x01v\x01w".as_slice(),
            b"\x07\0\0\0\x03aad\0\0\x01\x03aad\x01x".as_slice(),
            None,
        ),
        (
            "an index splits at the least right key, and pages go with their keys",
            b"\x07\x05\x01\0\0\0\x01\x03\0\x01b\x01c\x02\x03\x04",
            b"\0\x05\x01\0\0\x01c\x01\x02\0\x01b\x02\x03",
            b"\x07\0\0\0\x01c\0\x01\x01\x01c\x04",
            None,
        ),
        (
            "a leaf splits at the shortest string",
            b"\x07\x05\x01\0\0\0\0\x03\x03aaa\x03aab\x03abc\x01v\x01w\x01x",
            b"\0\x05\x01\0\0\x02ab\0\x02\x03aaa\x03aab\x01v\x01w",
            b"\x07\0\0\0\x02ab\0\0\x01\x03abc\x01x",
            None,
        ),
        (
            "parts have the prefix of the whole",
            b"\x07\x05\x01\x01\x02ba\x02bz\0\x03\x01b\x01c\x01d\x01v\x01w\x01x",
            b"\0\x05\x01\x01\x02ba\x02bd\0\x02\x01b\x01c\x01v\x01w",
            b"\x07\0\0\x01\x02bd\x02bz\0\x01\x01d\x01x",
            None,
        ),
        (
            "a prefix ends at 255 bytes",
            b"\x07\x05\x01\xff\xf1\x10*a\xf1\x10*z\0\x03\x01b\x01c\x01d\x01v\x01w\x01x",
            b"\0\x05\x01\xff\xf1\x10*a\xf1\x10*d\0\x02\x01b\x01c\x01v\x01w",
            b"\x07\0\0\xff\xf1\x10*d\xf1\x10*z\0\x01\x01d\x01x",
            None,
        ),
        (
            "no prefix is longer",
            b"\x07\x05\x01\xff\xf1\x11*aa\xf1\x11*az\0\x03\x02ab\x02ac\x02ad\x01v\x01w\x01x",
            b"\0\x05\x01\xff\xf1\x11*aa\xf1\x11*ad\0\x02\x02ab\x02ac\x01v\x01w",
            b"\x07\0\0\xff\xf1\x11*ad\xf1\x11*az\0\x01\x02ad\x01x",
            None,
        ),
        (
            "long keys lose a longer prefix, and get it back",
            b"\x07\x05\x01\0\x02aa\0\0\x03\x21aab#\x21aac#\x21aad#\x01v\x1e#\x01x",
            b"\0\x05\x01\x02\x02aa\x03aad\0\x02\x1fb#\x1fc#\x01v\x1e#",
            b"\x07\0\0\0\x03aad\0\0\x01\x21aad#\x01x",
            None,
        ),
        (
            "17 pairs",
            b"\0\0\0\0\0\0\0\x11\x01a\x01b\x01c\x01d\x01e\x01f\x01g\x01h\x01i\x01j\x01k\x01l\x01m\x01n\x01o\x01p\x01q\0\0\0\0\0\0\0\0\0\0\0\0\0\0\0\0\0",
            b"\0\0\0\0\0\x01j\0\x09\x01a\x01b\x01c\x01d\x01e\x01f\x01g\x01h\x01i\0\0\0\0\0\0\0\0\0",
            b"\0\0\0\0\x01j\0\0\x08\x01j\x01k\x01l\x01m\x01n\x01o\x01p\x01q\0\0\0\0\0\0\0\0",
            None,
        ),
        (
            "16 pairs",
            b"\0\0\0\0\0\0\0\x10\x01a\x01b\x01c\x01d\x01e\x01f\x01g\x01h\x01i\x01j\x01k\x01l\x01m\x01n\x01o\x01p\0\0\0\0\0\0\0\0\0\0\0\0\0\0\0\0",
            b"\0\0\0\0\0\x01j\0\x09\x01a\x01b\x01c\x01d\x01e\x01f\x01g\x01h\x01i\0\0\0\0\0\0\0\0\0",
            b"\0\0\0\0\x01j\0\0\x07\x01j\x01k\x01l\x01m\x01n\x01o\x01p\0\0\0\0\0\0\0",
            None,
        ),
        (
            "short keys whose prefix might be longer",
            b"\x07\x05\x01\0\x02ba\x02bz\0\x03\x02bb\x02bc\x03bdx\x01v\x01w\x01x",
            b"\0\x05\x01\x01\x02ba\x02bd\0\x02\x01b\x01c\x01v\x01w",
            b"\x07\0\0\x01\x02bd\x02bz\0\x01\x02dx\x01x",
            Some(b"\x07\x05\x01\x01\x02ba\x02bz\0\x03\x01b\x01c\x02dx\x01v\x01w\x01x".as_slice()),
        ),
        (
            "long keys whose prefix might be longer",
            b"\x07\x05\x01\0\x02ba\x02bz\0\x03\x20bb#\x20bc#\x20bd#\x01v\x01w\x01x",
            b"\0\x05\x01\x01\x02ba\x02bd\0\x02\x1fb#\x1fc#\x01v\x01w",
            b"\x07\0\0\x01\x02bd\x02bz\0\x01\x1fd#\x01x",
            Some(b"\x07\x05\x01\x01\x02ba\x02bz\0\x03\x1fb#\x1fc#\x1fd#\x01v\x01w\x01x"),
        ),
    ] {
        let texts = [left, right, merged.unwrap_or(whole)];
        assert!(rt; splits(rt.alloc(), whole, texts), "{row}");
    }
}

// Whether the node of the text splits behind so many of its pairs into the nodes of the next two.
fn splits_behind(alloc: Global, whole: &[u8], count: usize, left: &[u8], right: &[u8]) -> bool {
    let Some(node) = node_of(alloc, whole) else {
        return false;
    };
    if count == 0 || count >= node.len() {
        return false;
    }
    match node.split_behind(count) {
        Ok(parts) => is_read(alloc, left, &parts.0) && is_read(alloc, right, &parts.1),
        Err(_) => false,
    }
}

const BEHIND: &[(&str, &[u8], usize, &[u8], &[u8])] = &[
    (
        "a leaf behind its first pair",
        b"\x07\x05\x01\0\x02aa\0\0\x03\x03aab\x03aac\x03aad\x01v\x01w\x01x",
        1,
        b"\0\x05\x01\x02\x02aa\x03aac\0\x01\x01b\x01v",
        b"\x07\0\0\0\x03aac\0\0\x02\x03aac\x03aad\x01w\x01x",
    ),
    (
        "an index behind its first pair",
        b"\x07\x05\x01\0\0\0\x01\x03\0\x01b\x01c\x02\x03\x04",
        1,
        b"\0\x05\x01\0\0\x01b\x01\x01\0\x02",
        b"\x07\0\0\0\x01b\0\x01\x02\x01b\x01c\x03\x04",
    ),
    (
        "two pairs",
        b"\x07\0\0\0\0\0\0\x02\x01a\x01b\x01v\x01w",
        1,
        b"\0\0\0\0\0\x01b\0\x01\x01a\x01v",
        b"\x07\0\0\0\x01b\0\0\x01\x01b\x01w",
    ),
    (
        "all pairs but the last",
        b"\0\0\0\0\0\0\0\x05\x01a\x01b\x01c\x01d\x01e\0\0\0\0\0",
        4,
        b"\0\0\0\0\0\x01e\0\x04\x01a\x01b\x01c\x01d\0\0\0\0",
        b"\0\0\0\0\x01e\0\0\x01\x01e\0",
    ),
];

#[test]
fn nodes_split_behind_any_pair_but_the_last(rt: HostRuntime) {
    for (row, whole, count, left, right) in BEHIND {
        assert!(rt;
            splits_behind(rt.alloc(), whole, *count, left, right),
            "{row}"
        );
    }
}

// Whether the node of the text, leading on to the page, is that of the other text.
fn leads_on(alloc: Global, before: &[u8], page: u64, after: &[u8]) -> bool {
    match (node_of(alloc, before), NonZeroU64::new(page)) {
        (Some(mut node), Some(page)) => {
            node.set_next(page);
            is_read(alloc, after, &node)
        }
        _ => false,
    }
}

const NEXT: &[(&str, &[u8], u64, &[u8])] = &[
    (
        "no next",
        b"\0\x05\x01\0\0\x01m\0\0",
        9,
        b"\x09\x05\x01\0\0\x01m\0\0",
    ),
    (
        "another next",
        b"\x07\0\0\0\0\x01m\x01\0",
        9,
        b"\x09\0\0\0\0\x01m\x01\0",
    ),
];

#[test]
fn a_node_leads_on_to_its_next(rt: HostRuntime) {
    for (row, before, page, after) in NEXT {
        assert!(rt; leads_on(rt.alloc(), before, *page, after), "{row}");
    }
}

fn takes_in(alloc: Global, left: &Node, right: &[u8], is_so: bool) -> bool {
    match node_of(alloc, right) {
        Some(right) => left.can_receive(&right) == is_so,
        None => false,
    }
}

// Whether the left node may take in the right one, or may not.
fn receives(alloc: Global, left: &[u8], right: &[u8], is_so: bool) -> bool {
    match node_of(alloc, left) {
        Some(left) => takes_in(alloc, &left, right, is_so),
        None => false,
    }
}

const BELOW_M: &[u8] = b"\0\0\0\0\0\x01m\0\0";

const FROM_M: &[u8] = b"\0\0\0\0\x01m\0\0\0";

const INDEX_FROM_M: &[u8] = b"\0\0\0\0\x01m\0\x01\0";

const ALL: &[u8] = b"\0\0\0\0\0\0\0\0";

const NEIGHBOURS: &[(&str, &[u8], &[u8], bool)] = &[
    ("neighbours", BELOW_M, FROM_M, true),
    ("the wrong way round", FROM_M, BELOW_M, false),
    ("a node itself", BELOW_M, BELOW_M, false),
    ("a leaf and an index", BELOW_M, INDEX_FROM_M, false),
    // The empty end of a node is none, and not the empty key at which another begins.
    ("a node without an end", ALL, ALL, false),
];

#[test]
fn neighbours_meet_and_are_of_one_kind(rt: HostRuntime) {
    for (row, left, right, is_so) in NEIGHBOURS {
        assert!(rt; receives(rt.alloc(), left, right, *is_so), "{row}");
    }
}
