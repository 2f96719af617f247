// Values that are set or taken out where another one stands, beside a plain sorted map.

use super::lengths::bytes_of;
use super::pairs::{Pair, Shape};
use super::*;

/// Which value is to be there before.
#[derive(Clone, Copy)]
pub(super) enum Old {
    // the one that is there, or none where there is none
    Present,
    // none
    Missing,
    // that of a number
    Of(u64),
    // one that is nearly the one that is there
    Near(Near),
}

/// In what a value differs from another one.
#[derive(Clone, Copy)]
pub(super) enum Near {
    LastByte,
    // it has one byte more, or one fewer
    Longer,
    Shorter,
}

/// A value that is compared with, and the number of the one that takes its place, if one does.
#[derive(Clone, Copy)]
pub(super) struct Swap {
    pub old: Old,
    pub new: Option<u64>,
}

fn is_same(value: Option<&IVec>, wanted: Option<&IVec>) -> bool {
    match (value, wanted) {
        (None, None) => true,
        (Some(value), Some(wanted)) => value == wanted,
        _ => false,
    }
}

// The value that is to be there before.
fn old_of<'a>(old: Old, present: Option<&'a IVec>, other: &'a IVec) -> Option<&'a IVec> {
    match old {
        Old::Present => present,
        Old::Missing => None,
        Old::Of(_) | Old::Near(_) => Some(other),
    }
}

fn near_to(alloc: Global, value: &IVec, near: Near) -> Result<IVec, AllocError> {
    let mut bytes = Vec::new(alloc);
    bytes.extend_from_slice(value.as_slice())?;
    match near {
        Near::LastByte => {
            if let Some(last) = bytes.last_mut() {
                *last ^= 1;
            }
        }
        Near::Longer => bytes.extend_from_slice(&[0])?,
        Near::Shorter => {
            let _ = bytes.pop();
        }
    }
    IVec::from_vec(alloc, bytes)
}

// The value of a number, or one near to that which is there.
fn other_of(
    alloc: Global,
    shape: Shape,
    old: Old,
    present: Option<&IVec>,
) -> Result<IVec, AllocError> {
    match (old, present) {
        (Old::Of(number), _) => bytes_of(alloc, shape.values, number),
        (Old::Near(near), Some(value)) => near_to(alloc, value, near),
        _ => Ok(IVec::default()),
    }
}

// Whether a swap answered this: it was made where the old value was right, and elsewhere the value comes back that is there.
fn is_swap(
    answer: &Result<Result<(), Option<IVec>>, TreeError>,
    present: Option<&IVec>,
    is_right: bool,
) -> bool {
    match answer {
        Ok(Ok(())) => is_right,
        Ok(Err(found)) => !is_right && is_same(found.as_ref(), present),
        Err(_) => false,
    }
}

fn value_of(alloc: Global, shape: Shape, number: Option<u64>) -> Result<Option<IVec>, AllocError> {
    match number {
        Some(number) => Ok(Some(bytes_of(alloc, shape.values, number)?)),
        None => Ok(None),
    }
}

// Whether the old value is the one that is there; or none where the swap is answered otherwise.
fn is_made(
    alloc: Global,
    trees: &mut Trees<MemLog>,
    pair: &Pair,
    shape: Shape,
    key: &IVec,
    swap: Swap,
) -> Option<bool> {
    let new = value_of(alloc, shape, swap.new).ok()?;
    let present = pair.plain.get(key);
    let other = other_of(alloc, shape, swap.old, present).ok()?;
    let old = old_of(swap.old, present, &other);
    let is_right = is_same(present, old);
    let old = old.map(|value| value.as_slice());
    let answer = trees.compare_and_swap(pair.tree, key.as_slice(), old, new);
    is_swap(&answer, present, is_right).then_some(is_right)
}

/// Whether a swap of a key's value is made where the old value is there, and elsewhere the value is answered that is there.
pub(super) fn swaps(
    alloc: Global,
    trees: &mut Trees<MemLog>,
    pair: &mut Pair,
    shape: Shape,
    number: u64,
    swap: Swap,
) -> bool {
    let Ok(key) = bytes_of(alloc, shape.keys, number) else {
        return false;
    };
    match is_made(alloc, trees, pair, shape, &key, swap) {
        Some(true) => {}
        is_answered => return is_answered.is_some(),
    }
    match value_of(alloc, shape, swap.new) {
        Ok(Some(value)) => pair.plain.insert(key, value).is_ok(),
        Ok(None) => {
            pair.plain.remove(&key);
            true
        }
        Err(_) => false,
    }
}
