// Writes into a byte string that others may hold too.

ghost use Rattle.std.specs.Prelude.{◌≡◌, ◌<◌, ◌≤◌, length, slice_set, IsOk, OnOk, OnErr};
ghost use Rattle.sled_base.specs.Limits.{inline_limit};

use super::*;

fn set_first(string: &mut IVec, alloc: Global, byte: u8) -> Result<(), AllocError>
    requires { 0 < length string.old }
    ensures written { OnOk result (string.new ≡ slice_set string.old 0 byte) }
    ensures few { length string.old ≤ inline_limit → IsOk result }
    ensures stays { OnErr result (string.new ≡ string.old) }
{
    string.write_with(alloc, |bytes| bytes[0] = byte)
}

// What others hold of the string: so many of its first bytes each.
fn others_of(alloc: Global, string: &IVec, lens: &[usize]) -> Result<Vec<IVec>, AllocError> {
    let mut others = Vec::new(alloc);
    for len in lens {
        if *len == string.len() {
            others.push(string.clone()?)?;
        } else if *len < string.len() {
            others.push(string.subslice(0, *len)?)?;
        }
    }
    Ok(others)
}

// Whether the others have so many of these bytes each.
fn are_fronts(others: &[IVec], lens: &[usize], bytes: &[u8]) -> bool {
    for (other, len) in others.iter().zip(lens) {
        if other.len() != *len || !bytes.starts_with(other.as_slice()) {
            return false;
        }
    }
    others.len() == lens.len()
}

// Whether the string, which others hold too, is lent as these bytes, and its first byte written without their seeing it.
fn writes(
    alloc: Global,
    string: &mut IVec,
    bytes: &[u8],
    lens: &[usize],
) -> Result<bool, AllocError> {
    let seen = string.write_with(alloc, |lent| Vec::from_slice(alloc, lent))??;
    if string.is_empty() || seen.as_slice() != bytes {
        return Ok(false);
    }
    let others = others_of(alloc, string, lens)?;
    set_first(string, alloc, b'A')?;
    let is_set = matches!(string.as_slice(), [b'A', back @ ..] if bytes.ends_with(back));
    Ok(is_set && string.len() == bytes.len() && are_fronts(&others, lens, bytes))
}

// Whether that is so, and the bytes are written where they lie or not: a copy has no room to spare.
pub(super) fn is_written(
    alloc: Global,
    bytes: &[u8],
    lens: &[usize],
    in_place: bool,
) -> Result<bool, AllocError> {
    let mut list = Vec::with_capacity(alloc, bytes.len() + 74)?;
    list.extend_from_slice(bytes)?;
    let room = list.capacity();
    let mut string = IVec::from_vec(alloc, list)?;
    let is_so = writes(alloc, &mut string, bytes, lens)?;
    Ok((string.into_arc(alloc)?.capacity() == room) == in_place && is_so)
}

// Others keep the bytes from before a write.
pub(super) const WRITTEN: Rows = &[
    ("1 byte", Case::Written(&[7], &[], false)),
    ("3 bytes, a copy", Case::Written(&[1, 2, 3], &[3], false)),
    (
        "3 bytes, a copy and a part",
        Case::Written(&[1, 2, 3], &[3, 2], false),
    ),
    ("22 bytes, a copy", Case::Written(&[5; 22], &[22], false)),
    ("23 bytes, one holder", Case::Written(&[6; 23], &[], true)),
    (
        "23 bytes, two holders",
        Case::Written(&[6; 23], &[23], false),
    ),
    (
        "23 bytes, three holders",
        Case::Written(&[6; 23], &[23, 23], false),
    ),
    ("26 bytes, one holder", Case::Written(LETTERS, &[], true)),
    (
        "26 bytes, a part that is kept in place",
        Case::Written(LETTERS, &[22], true),
    ),
    (
        "26 bytes, a part that is shared",
        Case::Written(LETTERS, &[23], false),
    ),
    ("128 bytes, one holder", Case::Written(&[4; 128], &[], true)),
    (
        "128 bytes, two holders",
        Case::Written(&[4; 128], &[128], false),
    ),
    (
        "128 bytes, two holders, one of a part",
        Case::Written(&[4; 128], &[100], false),
    ),
    (
        "128 bytes, three holders",
        Case::Written(&[4; 128], &[128, 100], false),
    ),
    (
        "1,000 bytes, one holder",
        Case::Written(&[4; 1000], &[], true),
    ),
    (
        "1,000 bytes, two holders",
        Case::Written(&[4; 1000], &[1000], false),
    ),
    (
        "1,000 bytes, three holders",
        Case::Written(&[4; 1000], &[1000, 23], false),
    ),
];

// A string of these bytes: a whole one, or where there are bytes in front of them a part of what is shared with these.
fn behind(alloc: Global, front: &[u8], bytes: &[u8]) -> Result<IVec, AllocError> {
    let mut list = Vec::from_slice(alloc, front)?;
    list.extend_from_slice(bytes)?;
    IVec::from_vec(alloc, list)?.subslice(front.len(), bytes.len())
}

// Whether the string, which others hold too, is given out as these bytes, and then written and given out as it was written.
fn is_held(alloc: Global, string: IVec, bytes: &[u8], lens: &[usize]) -> Result<bool, AllocError> {
    let mut string = string;
    let others = others_of(alloc, &string, lens)?;
    let given = string.clone()?.into_arc(alloc)?.as_slice() == bytes;
    drop(others);
    let written = writes(alloc, &mut string, bytes, lens)?;
    let list = string.into_arc(alloc)?;
    Ok(given && written && matches!(list.as_slice(), [b'A', back @ ..] if bytes.ends_with(back)))
}

pub(super) fn is_held_by_some(alloc: Global, bytes: &[u8]) -> Result<bool, AllocError> {
    let len = bytes.len();
    for lens in [[].as_slice(), &[len], &[len, len]] {
        for front in [b"".as_slice(), b"<"] {
            if len > 0 && !is_held(alloc, behind(alloc, front, bytes)?, bytes, lens)? {
                return Ok(false);
            }
        }
    }
    Ok(true)
}
