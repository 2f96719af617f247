use super::*;

// An index of "a" to page 2, "b" to page 3 and "c" to page 2.
const INDEX: &[u8] = &[1, 3, 1, 97, 1, 98, 1, 99, 2, 3, 2];

// The empty key to 30 bytes "y", and "b" to no byte.
const TWO_VALUES: &[u8] = b"\0\x02\0\x01b\x1eyyyyyyyyyyyyyyyyyyyyyyyyyyyyyy\0";

fn data_of(alloc: Global, payload: &[u8]) -> Option<Data> {
    let mut input = payload;
    Data::deserialize(alloc, &mut input).ok()
}

// How many pairs the data has as a leaf, and whether it has none.
fn leaf_len(data: &Data) -> Option<(usize, bool)> {
    let leaf = data.leaf_ref()?;
    Some((leaf.len(), leaf.is_empty()))
}

// The same as an index.
fn index_len(data: &Data) -> Option<(usize, bool)> {
    let index = data.index_ref()?;
    Some((index.len(), index.is_empty()))
}

// The pair of a leaf at a place.
fn value_at(data: &Data, i: usize) -> Option<(&[u8], &[u8])> {
    let leaf = data.leaf_ref()?;
    if i >= leaf.len() {
        return None;
    }
    Some(leaf.pair(i))
}

// The pair of an index at a place.
fn child_at(data: &Data, i: usize) -> Option<(&[u8], PageId)> {
    let index = data.index_ref()?;
    if i >= index.len() {
        return None;
    }
    Some(index.pair(i))
}

fn expect_kinds(rt: &impl Abort, leaf: &Data, index: &Data) {
    for (row, data, is_index, len) in [("a leaf", leaf, false, 2), ("an index", index, true, 3)] {
        let lens = if is_index {
            (None, Some((len, false)))
        } else {
            (Some((len, false)), None)
        };
        assert!(rt; data.is_index() == is_index && data.len() == len, "{row}");
        assert!(rt; (leaf_len(data), index_len(data)) == lens, "{row}");
    }
    for (page, is_so) in [(0, false), (1, false), (2, true), (3, true), (4, false)] {
        assert!(rt; index.leads_to(page) == is_so);
    }
}

fn expect_pairs(rt: &impl Abort, leaf: &Data, index: &Data) {
    let long = b"yyyyyyyyyyyyyyyyyyyyyyyyyyyyyy".as_slice();
    for (i, value, child) in [
        (0, Some((b"".as_slice(), long)), Some((b"a".as_slice(), 2))),
        (1, Some((b"b", b"")), Some((b"b", 3))),
        (2, None, Some((b"c", 2))),
        (3, None, None),
    ] {
        assert!(rt; value_at(leaf, i) == value && child_at(leaf, i) == None);
        assert!(rt; child_at(index, i) == child && value_at(index, i) == None);
    }
}

fn expect_both(rt: &impl Abort, leaf: Option<&Data>, index: Option<&Data>) {
    assert!(rt; leaf.is_some() && index.is_some());
    if let (Some(leaf), Some(index)) = (leaf, index) {
        expect_kinds(rt, leaf, index);
        expect_pairs(rt, leaf, index);
    }
}

#[test]
fn data_is_a_leaf_or_an_index(rt: HostRuntime) {
    let leaf = data_of(rt.alloc(), TWO_VALUES);
    let index = data_of(rt.alloc(), INDEX);
    expect_both(&rt, leaf.as_ref(), index.as_ref());
}

fn expect_empty(rt: &impl Abort, leaf: &Data, index: &Data) {
    assert!(rt; !leaf.is_index() && leaf.len() == 0 && !leaf.leads_to(0));
    assert!(rt; leaf_len(leaf) == Some((0, true)) && index_len(leaf) == None);
    assert!(rt; index_len(index) == Some((0, true)));
}

#[test]
fn data_is_empty(rt: HostRuntime) {
    let leaf = Data::default(rt.alloc());
    let index = Data::Index(Index::default(rt.alloc()));
    expect_empty(&rt, &leaf, &index);
}

// Whether so many pairs are left without the first that leads to the page, and which is then the first.
fn takes_out(alloc: Global, page: PageId, left: usize, first: (&[u8], PageId)) -> bool {
    let Some(mut data) = data_of(alloc, INDEX) else {
        return false;
    };
    if data.leads_to(page) {
        data.parent_merge_confirm(page);
    }
    data.len() == left && child_at(&data, 0) == Some(first)
}

const TAKEN_OUT: &[(PageId, usize, (&[u8], PageId))] = &[
    (2, 2, (b"b", 3)),
    (3, 2, (b"a", 2)),
    (4, 3, (b"a", 2)),
];

#[test]
fn the_first_pair_with_the_page_is_taken_out(rt: HostRuntime) {
    for (page, left, first) in TAKEN_OUT {
        assert!(rt; takes_out(rt.alloc(), *page, *left, *first), "{page}");
    }
}
