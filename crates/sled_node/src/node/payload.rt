//! Payloads of what a node holds.

ghost use Rattle.std.specs.Prelude.{◌≡◌, ◌<◌, ◌≤◌, ◌^◌, ◌++◌, length, map, drop, IfSome, IfOk, IfErr, OnErr};
ghost use Rattle.sled_node.specs.Parts.{HasStored};
ghost use Rattle.sled_base.specs.Payloads.Reading.{IsRefusal};
ghost use Rattle.sled_base.specs.Payloads.ReadingLaws.{some_taken};
ghost use Rattle.sled_base.specs.Payloads.Numbers.{written_u64};
ghost use Rattle.sled_base.specs.Payloads.ByteStrings.{written_bytes};
ghost use Rattle.sled_node.specs.Payloads.Pairs.{AsksPairs, written_pairs};
ghost use Rattle.sled_node.specs.Payloads.Data.{ReadsLeaf, ReadsIndex, ReadsData, AsksData, written_data};
ghost use Rattle.sled_node.specs.Payloads.DataLaws.{Data-grammar};
ghost use Rattle.sled_node.specs.Payloads.Nodes.{ReadsNode, AsksNode, written_node};
ghost use Rattle.sled_node.specs.Payloads.NodeLaws.{Node-grammar};
ghost use Rattle.sled_node.specs.Node.{Value, IsWellFormed, leaf_of};

use super::{Data, Index, Leaf, MAX_PAIRS, Node};
use crate::serialization::Serialize;
use crate::serialization::pairs::{read_pairs, size_of_pairs, split_pairs, write_pairs};
use crate::serialization::strings::{behind, read_each};
use sled_base::serialization::numbers::read_u64;
use sled_base::serialization::tuples::{size_of_three, write_at, write_three, write_three_at};
use sled_base::strings::Strings;
use sled_base::{Error, IVec};
use std::alloc::{AllocError, Global};
use std::num::NonZeroU64;

impl Serialize for Data {
    ghost reads = { ReadsData };

    ghost asks = { AsksData };

    ghost written = { written_data };

    ghost can_write = { HasStored };

    ghost least_size = { 2 };

    ghost grammar = { Data-grammar };

    ghost takes = { some_taken Data-grammar };

    fn serialized_size(&self) -> u64
        ensures { result ≡ length (written_data self.now) }
    {
        match self {
            Data::Leaf(leaf) => 1 + size_of_leaf(leaf),
            Data::Index(index) => 1 + size_of_index(index),
        }
    }

    fn serialize_into(&self, out: &mut [u8]) -> usize
        requires { length (written_data self.now) ≤ length out.old }
        ensures size { result ≡ length (written_data self.now) }
        ensures bytes { out.new ≡ written_data self.now
            ++ drop (length (written_data self.now)) out.old }
    {
        match self {
            Data::Leaf(leaf) => {
                out[0] = 0;
                1 + write_leaf(leaf, &mut out[1..])
            }
            Data::Index(index) => {
                out[0] = 1;
                1 + write_index(index, &mut out[1..])
            }
        }
    }

    fn deserialize(alloc: Global, input: &mut &[u8]) -> Result<Data, Error> {
        let (tag, mut rest) = match *input {
            [tag, rest @ ..] => (*tag, rest),
            [] => return Err(Error::Corruption(None)),
        };
        let contents = match tag {
            0 => Data::Leaf(read_leaf(alloc, &mut rest)?),
            1 => Data::Index(read_index(alloc, &mut rest)?),
            _ => return Err(Error::Corruption(None)),
        };
        *input = rest;
        Ok(contents)
    }

    fn serialize(&self, alloc: Global) -> Result<Vec<u8>, AllocError>
        ensures { IfOk result (λ bytes. bytes.items ≡ written_data self.now) }
    {
        let size = self.serialized_size() as usize;
        let mut bytes = vec![in alloc; 0u8; size]?;
        self.serialize_into(&mut bytes);
        Ok(bytes)
    }
}

fn size_of_leaf(leaf: &Leaf) -> u64
    ensures value { result ≡ length (written_pairs written_bytes leaf.now) }
    ensures bound { result < 2 ^ 57 }
{
    (leaf.len() as u64).serialized_size() + leaf.strings().written().len() as u64
}

fn size_of_index(index: &Index) -> u64
    ensures value { result ≡ length (written_pairs written_u64 index.now) }
    ensures bound { result < 2 ^ 57 }
{
    size_of_pairs(index.pairs())
}

// Writes the pairs of a leaf at the front.
fn write_leaf(leaf: &Leaf, out: &mut [u8]) -> usize
    requires { length (written_pairs written_bytes leaf.now) ≤ length out.old }
    ensures size { result ≡ length (written_pairs written_bytes leaf.now) }
    ensures bytes { out.new ≡ written_pairs written_bytes leaf.now
        ++ drop (length (written_pairs written_bytes leaf.now)) out.old }
{
    write_counted(leaf.len(), leaf.strings().written(), out)
}

// Writes a count and what is behind it at the front.
fn write_counted(count: usize, behind: &[u8], out: &mut [u8]) -> usize
    requires { length (written_u64 count ++ behind.now) ≤ length out.old }
    ensures size { result ≡ length (written_u64 count ++ behind.now) }
    ensures bytes { out.new ≡ (written_u64 count ++ behind.now)
        ++ drop (length (written_u64 count ++ behind.now)) out.old }
{
    let start = (count as u64).serialize_into(out);
    let end = start + behind.len();
    out[start..end].copy_from_slice(behind);
    end
}

// Writes the pairs of an index at the front.
fn write_index(index: &Index, out: &mut [u8]) -> usize
    requires { length (written_pairs written_u64 index.now) ≤ length out.old }
    ensures size { result ≡ length (written_pairs written_u64 index.now) }
    ensures bytes { out.new ≡ written_pairs written_u64 index.now
        ++ drop (length (written_pairs written_u64 index.now)) out.old }
{
    write_pairs(index.pairs(), out)
}

// Reads the pairs of a leaf.
fn read_leaf(alloc: Global, input: &mut &[u8]) -> Result<Leaf, Error>
    ensures read { IfOk result (λ leaf. ReadsLeaf input.old.now leaf input.new.now) }
    ensures refused { IfErr result (IsRefusal AsksPairs ReadsLeaf input.old.now) }
    ensures stays { OnErr result (input.new ≡ input.old) }
{
    if let Some((leaf, rest)) = plain_leaf(alloc, *input) {
        *input = rest;
        return Ok(leaf);
    }
    let Some((count, keys, _)) = split_pairs::<IVec>(*input) else {
        return Err(Error::Corruption(None));
    };
    let mut rest = keys;
    if count == 0 {
        *input = rest;
        return Ok(Leaf::default(alloc));
    }
    let strings = read_each(alloc, 2 * count, &mut rest)?;
    match Leaf::of_strings(strings) {
        Some(leaf) => {
            *input = rest;
            Ok(leaf)
        }
        None => Err(Error::Corruption(None)),
    }
}

// A leaf with pairs, whose strings are copied as they lie there, and what stands behind it.
//
// None doesn't mean that there is none: an allocation may have failed, or a length may take more than a byte.
fn plain_leaf(alloc: Global, input: &[u8]) -> Option<(Leaf, &[u8])>
    ensures { IfSome result (λ found. ReadsLeaf input.now found.0 found.1.now) }
{
    let (count, keys) = read_u64(input)?;
    if count == 0 || count > MAX_PAIRS as u64 || count > keys.len() as u64 / 2 {
        return None;
    }
    let Ok(Some(strings)) = Strings::read_plain(alloc, 2 * count as usize, keys) else {
        return None;
    };
    let rest = behind(&strings, keys);
    Some((Leaf::of_strings(strings)?, rest))
}

// Reads the pairs of an index.
fn read_index(alloc: Global, input: &mut &[u8]) -> Result<Index, Error>
    ensures read { IfOk result (λ index. ReadsIndex input.old.now index input.new.now) }
    ensures refused { IfErr result (IsRefusal AsksPairs ReadsIndex input.old.now) }
    ensures stays { OnErr result (input.new ≡ input.old) }
{
    let mut rest = *input;
    let pairs = read_pairs::<u64>(alloc, &mut rest)?;
    match Index::from_pairs(alloc, pairs)? {
        Some(index) => {
            *input = rest;
            Ok(index)
        }
        None => Err(Error::Corruption(None)),
    }
}

// A node of these pairs over all keys, without a neighbour or a mark. It is written as seven zeros and the pairs.
fn over_all_keys(leaf: Leaf) -> Node
    ensures { result ≡ leaf_of (map (λ pair. (pair.0, Value pair.1)) leaf) }
{
    let _ = leaf.strings();
    Node {
        next: None,
        merging_child: None,
        merging: false,
        prefix_len: 0,
        lo: IVec::default(),
        hi: IVec::default(),
        contents: Data::Leaf(leaf),
    }
}

// Next, the merging child and whether the node is being merged; how many bytes stored keys lack, lo and hi; the pairs.
type Parts = (
    (Option<NonZeroU64>, Option<NonZeroU64>, bool),
    (u8, IVec, IVec),
    Data,
);

impl Serialize for Node {
    ghost reads = { ReadsNode };

    ghost asks = { AsksNode };

    ghost written = { written_node };

    ghost can_write = { IsWellFormed };

    ghost least_size = { 8 };

    ghost grammar = { Node-grammar };

    ghost takes = { some_taken Node-grammar };

    #[tactic(auto, using(crate::proofs::Payloads::Nodes::can_write_page, crate::specs::Payloads::DataLaws::short_can_write))]
    fn serialized_size(&self) -> u64
        ensures { result ≡ length (written_node self.now) }
    {
        let head = size_of_three(&self.next, &self.merging_child, &self.merging);
        let bounds = size_of_three(&self.prefix_len, &self.lo, &self.hi);
        head + bounds + self.contents.serialized_size()
    }

    #[tactic(auto, using(crate::proofs::Payloads::Nodes::can_write_page, crate::specs::Payloads::DataLaws::short_can_write))]
    fn serialize_into(&self, out: &mut [u8]) -> usize
        requires { length (written_node self.now) ≤ length out.old }
        ensures size { result ≡ length (written_node self.now) }
        ensures bytes { out.new ≡ written_node self.now
            ++ drop (length (written_node self.now)) out.old }
    {
        let start = write_three(&self.next, &self.merging_child, &self.merging, out);
        let end = write_three_at(&self.prefix_len, &self.lo, &self.hi, out, start);
        write_at(&self.contents, out, end)
    }

    fn deserialize(alloc: Global, input: &mut &[u8]) -> Result<Node, Error> {
        if let [0, 0, 0, 0, 0, 0, 0, pairs @ ..] = *input {
            let mut rest = pairs;
            let leaf = read_leaf(alloc, &mut rest)?;
            *input = rest;
            return Ok(over_all_keys(leaf));
        }
        let mut rest = *input;
        let parts = <Parts as Serialize>::deserialize(alloc, &mut rest)?;
        let ((next, merging_child, merging), (prefix_len, lo, hi), contents) = parts;
        match Node::from_parts(prefix_len, next, merging_child, merging, lo, hi, contents) {
            Some(node) => {
                *input = rest;
                Ok(node)
            }
            None => Err(Error::Corruption(None)),
        }
    }

    fn serialize(&self, alloc: Global) -> Result<Vec<u8>, AllocError>
        ensures { IfOk result (λ bytes. bytes.items ≡ written_node self.now) }
    {
        let size = self.serialized_size() as usize;
        let mut bytes = vec![in alloc; 0u8; size]?;
        self.serialize_into(&mut bytes);
        Ok(bytes)
    }
}
