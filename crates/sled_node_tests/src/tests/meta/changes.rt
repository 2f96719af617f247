// A change of one name at each place in maps of none to 1,000 names, and the payloads before and behind it.

use super::*;

const COUNTS: &[u32] = &[0, 1, 2, 16, 17, 1_000];

// How many bytes stand behind the number of a name: none, or so many that the length takes two bytes.
const TAILS: &[usize] = &[0, 300];

// Where the name stands that is changed: it is there, or missing below the others, between them or above them.
#[derive(Clone, Copy, Debug)]
enum Place {
    First,
    Middle,
    Last,
    Below,
    Between,
    Above,
}

const PLACES: &[Place] = &[
    Place::First,
    Place::Middle,
    Place::Last,
    Place::Below,
    Place::Between,
    Place::Above,
];

// The names are the first odd numbers.
fn number_at(place: Place, count: u32) -> u32 {
    let end = count.saturating_mul(2);
    match place {
        Place::First => 1,
        Place::Middle => count | 1,
        Place::Last => end.saturating_sub(1),
        Place::Below => 0,
        Place::Between => count & !1,
        Place::Above => end,
    }
}

// The root of a number among so many names, or none where it is missing.
fn root_among(count: u32, n: u32) -> Option<PageId> {
    if n % 2 == 1 && n < count.saturating_mul(2) {
        Some(1 << (n % 64))
    } else {
        None
    }
}

fn name_of(alloc: Global, n: u32, tail: usize) -> Result<Vec<u8>, AllocError> {
    let mut name = Vec::from_slice(alloc, &n.to_be_bytes())?;
    name.resize(tail.saturating_add(4), b'x')?;
    Ok(name)
}

fn append_pair(
    alloc: Global,
    bytes: &mut Vec<u8>,
    name: &[u8],
    root: PageId,
) -> Result<(), AllocError> {
    bytes.extend_from_slice(&(name.len() as u64).serialize(alloc)?)?;
    bytes.extend_from_slice(name)?;
    bytes.extend_from_slice(&root.serialize(alloc)?)
}

// The payload of so many names, of which this number has that root, or is missing.
fn payload(
    alloc: Global,
    (count, tail): (u32, usize),
    n: u32,
    root: Option<PageId>,
) -> Result<Vec<u8>, AllocError> {
    let mut bytes = Vec::new(alloc);
    for other in 0..=count.saturating_mul(2).saturating_add(1) {
        let its = if other == n {
            root
        } else {
            root_among(count, other)
        };
        if let Some(root) = its {
            append_pair(alloc, &mut bytes, &name_of(alloc, other, tail)?, root)?;
        }
    }
    Ok(bytes)
}

fn map_of(alloc: Global, bytes: &[u8]) -> Option<Meta> {
    let mut input = bytes;
    Meta::deserialize(alloc, &mut input).ok()
}

// Whether the map is written as these bytes without the name.
fn is_without(meta: &Meta, name: &[u8], bytes: &[u8]) -> bool {
    match meta.serialize_without(name) {
        Ok(written) => written.as_slice() == bytes,
        Err(_) => false,
    }
}

// Whether the name, which had this root, is left out, given another root where it is there, set, and taken out.
fn is_changed(
    alloc: Global,
    meta: &mut Meta,
    name: &[u8],
    root: Option<PageId>,
    (before, behind, without): (&[u8], &[u8], &[u8]),
) -> bool {
    let replaced = if root.is_some() { behind } else { before };
    is_without(meta, name, without)
        && is_meta_written(alloc, meta, Some(before))
        && meta.replace_root(name, 7) == root
        && is_meta_written(alloc, meta, Some(replaced))
        && replace(alloc, meta, name, 7) == Some(root.and(Some(7)))
        && is_meta_written(alloc, meta, Some(behind))
        && is_without(meta, name, without)
        && meta.del_root(name) == Some(7)
        && is_meta_written(alloc, meta, Some(without))
}

fn changes(alloc: Global, names: (u32, usize), place: Place) -> Result<bool, AllocError> {
    let n = number_at(place, names.0);
    let root = root_among(names.0, n);
    let before = payload(alloc, names, n, root)?;
    let behind = payload(alloc, names, n, Some(7))?;
    let without = payload(alloc, names, n, None)?;
    let name = name_of(alloc, n, names.1)?;
    let Some(mut meta) = map_of(alloc, &before) else {
        return Ok(false);
    };
    let payloads = (before.as_slice(), behind.as_slice(), without.as_slice());
    Ok(is_changed(alloc, &mut meta, &name, root, payloads))
}

#[test]
fn one_name_is_changed_at_each_place(rt: HostRuntime) {
    for tail in TAILS {
        for count in COUNTS {
            for place in PLACES {
                let is_so = changes(rt.alloc(), (*count, *tail), *place);
                assert!(rt; is_so == Ok(true), "{place:?} of {count} names");
            }
        }
    }
}
