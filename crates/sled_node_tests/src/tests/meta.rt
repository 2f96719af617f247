mod changes;
mod corners;

use super::serialization::{is_corrupt, is_meta_written};
use super::*;
use sled_node::node::MAX_BYTES;
use std::collections::BTreeMap;

// Sets the name, and answers its former root, or none where there is no room or no memory.
fn replace(alloc: Global, meta: &mut Meta, name: &[u8], root: PageId) -> Option<Option<PageId>> {
    if name.len() > MAX_BYTES || !meta.has_room(name) {
        return None;
    }
    match IVec::from_slice(alloc, name) {
        Ok(name) => meta.set_root(name, root).ok(),
        Err(_) => None,
    }
}

// Whether the entry is of this name, at this page.
fn is_entry(entry: Option<(&Vec<u8>, &PageId)>, name: &[u8], root: PageId) -> bool {
    match entry {
        Some((found, page)) => found.as_slice() == name && *page == root,
        None => false,
    }
}

fn are_in_order(tenants: &BTreeMap<Vec<u8>, PageId>) -> bool {
    tenants.len() == 2
        && is_entry(tenants.first_key_value(), b"a", 2)
        && is_entry(tenants.last_key_value(), b"b", 3)
}

fn tenants_are_in_order(meta: &Meta) -> bool {
    match meta.tenants() {
        Ok(tenants) => are_in_order(&tenants),
        Err(_) => false,
    }
}

fn expect_roots(rt: &impl Abort, meta: &Meta) {
    assert!(rt; meta.len() == 2);
    assert!(rt; meta.rss() == 18);
    for (name, root) in [(b"a".as_slice(), Some(2)), (b"b", Some(3)), (b"ab", None)] {
        assert!(rt; meta.get_root(name) == root, "{name:?}");
    }
}

fn is_empty_another(alloc: Global, meta: &Meta) -> bool {
    let empty = Meta::default(alloc);
    empty != *meta
}

// Sets `b` to page 3, and then `a` to page 2.
fn expect_two_names(rt: &impl Abort, alloc: Global, meta: &mut Meta) {
    for (name, root) in [(b"b".as_slice(), 3), (b"a", 2)] {
        assert!(rt; replace(alloc, meta, name, root) == Some(None));
    }
    expect_roots(rt, meta);
    assert!(rt; tenants_are_in_order(meta));
    assert!(rt; is_cloned(meta) && is_empty_another(alloc, meta));
    assert!(rt; is_meta_written(alloc, meta, Some(&[1, 97, 2, 1, 98, 3])));
}

#[test]
fn two_names_have_pages(rt: HostRuntime) {
    let mut meta = Meta::default(rt.alloc());
    expect_two_names(&rt, rt.alloc(), &mut meta);
}

fn expect_set(rt: &impl Abort, alloc: Global, meta: &mut Meta) {
    // a name that has no room in place comes last
    let long = b"xxxxxxxxxxxxxxxxxxxxxxxxxxxxxx".as_slice();
    for (name, root, former, is_taken_out) in [
        (b"a".as_slice(), 2, None, false),
        (b"a", 5, Some(2), true),
        (long, 7, None, false),
    ] {
        assert!(rt; meta.is_empty() == former.is_none());
        assert!(rt; replace(alloc, meta, name, root) == Some(former));
        assert!(rt; meta.get_root(name) == Some(root));
        if is_taken_out {
            expect_taken_out(rt, meta);
        }
    }
}

fn expect_taken_out(rt: &impl Abort, meta: &mut Meta) {
    assert!(rt; meta.del_root(b"b") == None);
    assert!(rt; meta.len() == 1);
    assert!(rt; meta.del_root(b"a") == Some(5));
    assert!(rt; meta.get_root(b"a") == None);
    assert!(rt; meta.is_empty());
}

#[test]
fn names_are_set_and_taken_out(rt: HostRuntime) {
    let mut meta = Meta::default(rt.alloc());
    expect_set(&rt, rt.alloc(), &mut meta);
}

// Whether the bytes are a whole encoding of a map with this page at `a`, and of so many names.
fn reads(alloc: Global, bytes: &[u8], root: Option<PageId>, names: usize) -> bool {
    let mut rest = bytes;
    match Meta::deserialize(alloc, &mut rest) {
        Ok(meta) => rest.is_empty() && meta.get_root(b"a") == root && meta.len() == names,
        Err(_) => false,
    }
}

#[test]
fn maps_are_read(rt: HostRuntime) {
    for (bytes, root, names) in [
        ([1, 97, 2, 1, 98, 3].as_slice(), Some(2), 2),
        (&[1, 98, 3, 1, 97, 2], Some(2), 2),
        (&[1, 97, 2, 1, 97, 5], Some(5), 1),
        (&[], None, 0),
    ] {
        assert!(rt; reads(rt.alloc(), bytes, root, names), "{bytes:?}");
    }
    // bytes that are no pair
    for bytes in [[1].as_slice(), &[1, 97], &[1, 97, 2, 1]] {
        assert!(rt; is_corrupt::<Meta>(rt.alloc(), bytes), "{bytes:?}");
    }
}
