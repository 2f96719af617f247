//! Payloads of a root map.

ghost use Rattle.std.specs.Prelude.{◌≡◌, ◌+◌, ◌<◌, ◌≤◌, ◌^◌, ◌++◌, [], length, take, drop, IfOk, IfErr, OnErr};
ghost use Rattle.sled_node.specs.Meta.{named_pages, IsRootMap};
ghost use Rattle.sled_base.specs.Payloads.ByteStrings.{written_bytes};
ghost use Rattle.sled_base.specs.Payloads.Reading.{IsRefusal};
ghost use Rattle.sled_node.specs.Payloads.ShortStrings.{AsksShort};
ghost use Rattle.sled_node.specs.Payloads.Roots.{ReadsRoot, ReadsRoots, AsksRoots, written_root, written_roots};
ghost use Rattle.sled_node.specs.Payloads.RootLaws.{Roots-grammar, Roots-take};

use super::Meta;
use super::written::serialize;
use crate::serialization::Serialize;
use crate::serialization::short::read_short;
use sled_base::{Error, IVec, PageId};
use std::alloc::{AllocError, Global};
use std::collections::BTreeMap;

impl Serialize for Meta {
    ghost reads = { ReadsRoots };

    ghost asks = { AsksRoots };

    ghost written = { written_roots };

    ghost can_write = { IsRootMap };

    ghost can_follow = { λ _ rest. rest ≡ [] };

    ghost least_size = { 0 };

    ghost grammar = { Roots-grammar };

    ghost takes = { Roots-take };

    fn serialized_size(&self) -> u64
        ensures { result ≡ length (written_roots self.now) }
    {
        let mut size = 0;
        for (name, root) in self.roots() {
            size += root_size(name, *root);
        }
        size
    }

    fn serialize_into(&self, out: &mut [u8]) -> usize
        requires { length (written_roots self.now) ≤ length out.old }
        ensures size { result ≡ length (written_roots self.now) }
        ensures bytes { out.new ≡ written_roots self.now
            ++ drop (length (written_roots self.now)) out.old }
    {
        write_roots(self.roots(), out)
    }

    /// Reads the names with their pages to the end of the input. If a name occurs more than once, the last pair wins.
    ///
    /// An input is refused with `Corruption(None)` if it doesn't consist of such pairs, or has more names than a map holds, unless an
    /// allocation fails first. No other input is. `OutOfMemory` means that an allocation failed, which happens only for an input that
    /// begins with a name. An error leaves the input unchanged.
    fn deserialize(alloc: Global, input: &mut &[u8]) -> Result<Meta, Error> {
        let mut meta = Meta::default(alloc);
        let mut rest = *input;
        while !rest.is_empty() {
            let (name, root) = read_root(alloc, &mut rest)?;
            if !meta.has_room(name.as_slice()) {
                return Err(Error::Corruption(None));
            }
            let copy = Vec::from_slice(alloc, name.as_slice())?;
            meta.put_root(copy, root)?;
        }
        *input = rest;
        Ok(meta)
    }

    fn serialize(&self, alloc: Global) -> Result<Vec<u8>, AllocError>
        ensures { IfOk result (λ bytes. bytes.items ≡ written_roots self.now) }
    {
        serialize(alloc, self.roots())
    }
}

// How many bytes a name and its page are written as.
fn root_size(name: &[u8], root: PageId) -> u64
    requires fits { length (written_root (name.now, root)) < 2 ^ 64 }
    ensures { result ≡ length (written_root (name.now, root)) }
{
    let len = name.len() as u64;
    len.serialized_size() + len + root.serialized_size()
}

// Writes the names with their pages one after the other at the front.
fn write_roots(roots: &BTreeMap<Vec<u8>, PageId>, out: &mut [u8]) -> usize
    requires { length (written_roots (named_pages roots.now)) ≤ length out.old }
    ensures size { result ≡ length (written_roots (named_pages roots.now)) }
    ensures bytes { out.new ≡ written_roots (named_pages roots.now)
        ++ drop (length (written_roots (named_pages roots.now))) out.old }
{
    let mut end = 0;
    for (name, root) in roots {
        end = write_root(name, *root, out, end);
    }
    end
}

// Writes a name and its page from a place on, and answers where they end.
pub(super) fn write_root(name: &[u8], root: PageId, out: &mut [u8], start: usize) -> usize
    requires room { start + length (written_root (name.now, root)) ≤ length out.old }
    ensures size { result ≡ start + length (written_root (name.now, root)) }
    ensures bytes { out.new ≡ (take start out.old ++ written_root (name.now, root))
        ++ drop (start + length (written_root (name.now, root))) out.old }
{
    start + write_pair(name, root, &mut out[start..])
}

// Writes a name and its page at the front.
fn write_pair(name: &[u8], root: PageId, out: &mut [u8]) -> usize
    requires room { length (written_root (name.now, root)) ≤ length out.old }
    ensures size { result ≡ length (written_root (name.now, root)) }
    ensures bytes { out.new ≡ written_root (name.now, root)
        ++ drop (length (written_root (name.now, root))) out.old }
{
    let end = write_name(name, out);
    end + root.serialize_into(&mut out[end..])
}

// Writes a name at the front.
fn write_name(name: &[u8], out: &mut [u8]) -> usize
    requires room { length (written_bytes name.now) ≤ length out.old }
    ensures size { result ≡ length (written_bytes name.now) }
    ensures bytes { out.new ≡ written_bytes name.now
        ++ drop (length (written_bytes name.now)) out.old }
{
    let start = (name.len() as u64).serialize_into(out);
    let end = start + name.len();
    out[start..end].copy_from_slice(name);
    end
}

// Reads a name and its page.
fn read_root(alloc: Global, input: &mut &[u8]) -> Result<(IVec, PageId), Error>
    ensures read { IfOk result (λ pair. ReadsRoot input.old.now pair input.new.now) }
    ensures refused { IfErr result (IsRefusal AsksShort ReadsRoot input.old.now) }
    ensures stays { OnErr result (input.new ≡ input.old) }
{
    let mut rest = *input;
    let name = read_short(alloc, &mut rest)?;
    let root = u64::deserialize(alloc, &mut rest)?;
    *input = rest;
    Ok((name, root))
}
