//! Encoding a root map, whole or without a name.

ghost use Rattle.std.specs.Prelude.{◌≡◌, ◌≤◌, ◌+◌, ◌++◌, length, take, vec_len, IfOk, OnOk};
ghost use Rattle.sled_node.specs.Meta.{named, named_pages, without_root, IsRootMap};
ghost use Rattle.sled_node.specs.Payloads.Roots.{written_root, written_roots};

use super::payload::write_root;
use sled_base::PageId;
use std::alloc::{AllocError, Global};
use std::collections::BTreeMap;
use std::collections::btree_map::Range;
use std::ops::Bound;

// How many bytes a name with its page is first given room for.
const ROOM: usize = 16;

// How many bytes are there before they are written, at a time.
const CHUNK: usize = 512;

// How many bytes a name and its page take at most, beside the name's own: nine for its length, and nine.
const AROUND: usize = 18;

// How the map is written.
pub fn serialize(alloc: Global, roots: &BTreeMap<Vec<u8>, PageId>) -> Result<Vec<u8>, AllocError>
    requires { IsRootMap (named_pages roots.now) }
    ensures { IfOk result (λ bytes. bytes.items ≡ written_roots (named_pages roots.now)) }
{
    let mut bytes = Vec::with_capacity(alloc, roots.len() * ROOM + CHUNK)?;
    let end = write_range(&mut bytes, 0, roots.range(..))?;
    bytes.truncate(end);
    Ok(bytes)
}

// How the map is written without the name: the names below it, and those above.
pub fn serialize_without(
    alloc: Global,
    roots: &BTreeMap<Vec<u8>, PageId>,
    name: &[u8],
) -> Result<Vec<u8>, AllocError>
    requires { IsRootMap (named_pages roots.now) }
    ensures { IfOk result (λ bytes. bytes.items
        ≡ written_roots (without_root name.now (named_pages roots.now))) }
{
    let name = Vec::from_slice(alloc, name)?;
    let mut bytes = Vec::with_capacity(alloc, roots.len() * ROOM + CHUNK)?;
    let below = write_range(&mut bytes, 0, roots.range(..&name))?;
    let above = roots.range((Bound::Excluded(&name), Bound::Unbounded));
    let end = write_range(&mut bytes, below, above)?;
    bytes.truncate(end);
    Ok(bytes)
}

// Writes names with their pages from a place on, and answers where they end. The bytes become as many as that takes, and more.
fn write_range(
    bytes: &mut Vec<u8>,
    start: usize,
    roots: Range<'_, Vec<u8>, PageId>,
) -> Result<usize, AllocError>
    requires { start ≤ vec_len bytes.old }
    ensures written { IfOk result (λ end. take end bytes.new.items
        ≡ take start bytes.old.items ++ written_roots (named roots.entry)) }
    ensures within { IfOk result (λ end. end ≤ vec_len bytes.new) }
{
    let mut end = start;
    for (name, root) in roots {
        end = write_next(bytes, end, name, *root)?;
    }
    Ok(end)
}

// Writes a name with its page from a place on, and answers where they end.
#[inline(always)]
fn write_next(
    bytes: &mut Vec<u8>,
    start: usize,
    name: &[u8],
    root: PageId,
) -> Result<usize, AllocError>
    requires { start ≤ vec_len bytes.old }
    ensures written { IfOk result (λ end. take end bytes.new.items
        ≡ take start bytes.old.items ++ written_root (name.now, root)) }
    ensures within { IfOk result (λ end. end ≤ vec_len bytes.new) }
{
    make_room(bytes, start, name.len() + AROUND)?;
    Ok(write_root(name, root, bytes, start))
}

// Makes room for so many bytes from a place on.
#[inline(always)]
fn make_room(bytes: &mut Vec<u8>, start: usize, room: usize) -> Result<(), AllocError>
    requires { start ≤ vec_len bytes.old }
    ensures front { OnOk result
        (take (length bytes.old.items) bytes.new.items ≡ bytes.old.items) }
    ensures room { OnOk result (start + room ≤ vec_len bytes.new) }
{
    if bytes.len() - start < room {
        return lengthen(bytes, room);
    }
    Ok(())
}

// Makes the bytes so many more at least.
fn lengthen(bytes: &mut Vec<u8>, more: usize) -> Result<(), AllocError>
    ensures front { OnOk result
        (take (length bytes.old.items) bytes.new.items ≡ bytes.old.items) }
    ensures longer { OnOk result (vec_len bytes.old + more ≤ vec_len bytes.new) }
{
    let len = bytes.len();
    bytes.resize(len.saturating_add(more.max(CHUNK)), 0)
}
