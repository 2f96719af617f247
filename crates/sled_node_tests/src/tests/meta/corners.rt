// Each call of a root map with none to 4,097 names, short and long ones, and with roots of each length. The payload of the most and
// longest has more than 2^17 bytes.

use super::*;
use sled_node::ConsumeSequence;

const COUNTS: &[u32] = &[0, 1, 2, 3, 16, 17, 1_000, 4_097];

// What stands at the end of each name: nothing, or more than is kept in place.
const TAILS: &[&[u8]] = &[b"", b"xxxxxxxxxxxxxxxxxxxxxxxxxxxxxx"];

fn name_at(tail: &[u8], i: u32) -> Key {
    let digits = i.to_be_bytes();
    let mut name = ([0; 40], 0);
    append(&mut name, &digits);
    append(&mut name, tail);
    name
}

fn root_at(i: u32) -> PageId {
    1 << (i % 64)
}

// Whether the name is new to the map, and is read back with each root that it is given.
fn is_set(alloc: Global, meta: &mut Meta, tail: &[u8], i: u32) -> bool {
    let name = name_at(tail, i);
    let name = whole(&name);
    let is_new = meta.get_root(name).is_none();
    let new = replace(alloc, meta, name, 7);
    let former = replace(alloc, meta, name, root_at(i));
    let replaced = new == Some(None) && former == Some(Some(7));
    is_new && replaced && meta.get_root(name) == Some(root_at(i))
}

// Whether the name is taken out with its root, and only once.
fn is_taken_out(meta: &mut Meta, tail: &[u8], i: u32) -> bool {
    let name = name_at(tail, i);
    let name = whole(&name);
    meta.del_root(name) == Some(root_at(i)) && meta.del_root(name).is_none()
}

// How large a map of so many names is: for each its length, and 8.
fn size_of(tail: &[u8], count: u32) -> u64 {
    let each = (tail.len() as u64).saturating_add(12);
    each.saturating_mul(count as u64)
}

// Whether these are so many names, in their order.
fn are_names(tenants: &BTreeMap<Vec<u8>, PageId>, tail: &[u8], count: u32) -> bool {
    let mut next = 0;
    for (name, root) in tenants {
        let wanted = name_at(tail, next);
        if next >= count || name.as_slice() != whole(&wanted) || *root != root_at(next) {
            return false;
        }
        next += 1;
    }
    next == count
}

// Whether the map has so many names, in their order.
fn has_names(meta: &Meta, tail: &[u8], count: u32) -> bool {
    match meta.tenants() {
        Ok(tenants) => are_names(&tenants, tail, count),
        Err(_) => false,
    }
}

fn has_size(meta: &Meta, tail: &[u8], count: u32) -> bool {
    meta.len() == count as usize
        && meta.is_empty() == (count == 0)
        && meta.rss() == size_of(tail, count)
}

// Whether the map takes so many names, has them, is copied, written and read again as itself, and is then empty without them.
fn is_filled(alloc: Global, meta: &mut Meta, tail: &[u8], count: u32) -> bool {
    let mut is_so = true;
    for i in 0..count {
        is_so = is_set(alloc, meta, tail, i) && is_so;
    }
    is_so = is_so && has_size(meta, tail, count) && has_names(meta, tail, count);
    is_so = is_so && is_meta_written(alloc, meta, None) && is_cloned(meta);
    for i in 0..count {
        is_so = is_taken_out(meta, tail, i) && is_so;
    }
    is_so && meta.is_empty()
}

fn holds(alloc: Global, tail: &[u8], count: u32) -> bool {
    let mut meta = Meta::default(alloc);
    is_filled(alloc, &mut meta, tail, count)
}

#[test]
fn maps_hold_at_each_size(rt: HostRuntime) {
    for tail in TAILS {
        for count in COUNTS {
            assert!(rt; holds(rt.alloc(), tail, *count), "{count} names");
        }
    }
}

fn len_of(map: Result<Meta, Error>) -> Option<usize> {
    match map {
        Ok(map) => Some(map.len()),
        Err(_) => None,
    }
}

// How many names the last map of an input has, or none where none is read. The loop ends, since a map takes all that is left.
fn last_names(alloc: Global, input: &[u8]) -> Option<usize> {
    let mut names = None;
    for map in ConsumeSequence::<Meta>::new(alloc, input) {
        names = len_of(map);
    }
    names
}

#[test]
fn maps_come_to_an_end(rt: HostRuntime) {
    for (row, input, names) in [
        ("no byte", [].as_slice(), None),
        ("a name", &[1, 97, 2], Some(1)),
        ("two names", &[1, 97, 2, 1, 98, 3], Some(2)),
        ("a torn name", &[1, 97, 2, 1], None),
    ] {
        assert!(rt; last_names(rt.alloc(), input) == names, "{row}");
    }
}
