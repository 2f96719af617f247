//! The encoding of links.

ghost use Rattle.std.specs.Prelude.{◌≡◌, [], IfSome, IfNone, IfOk, IfErr, OnErr};
ghost use Rattle.sled_base.specs.Payloads.Reading.{IsRefusal, ReadsPair, AsksPair};
ghost use Rattle.sled_base.specs.Payloads.ReadingLaws.{some_taken};
ghost use Rattle.sled_node.specs.Payloads.ShortStrings.{ReadsShort, AsksShort};
ghost use Rattle.sled_node.specs.Payloads.Links.{ReadsLink, AsksLink, written_link, CanWriteLink};
ghost use Rattle.sled_node.specs.Payloads.LinkLaws.{Link-grammar};
ghost use Rattle.sled_node.specs.declared.node.link.Link.TheVariants.{Set};
ghost use Rattle.sled_base.specs.Order.{Bytes};

use super::Serialize;
use super::short::{read_short, split_short};
use crate::node::Link;
use sled_base::serialization::tuples::write_both;
use sled_base::{Error, IVec};
use std::alloc::Global;

impl Serialize for Link {
    ghost reads = { ReadsLink };

    ghost asks = { AsksLink };

    ghost written = { written_link };

    ghost can_write = { CanWriteLink };

    ghost least_size = { 1 };

    ghost grammar = { Link-grammar };

    ghost takes = { some_taken Link-grammar };

    fn serialized_size(&self) -> u64 {
        match self {
            Link::Set(key, value) => 1 + key.serialized_size() + value.serialized_size(),
            Link::Del(key) => 1 + key.serialized_size(),
            Link::ParentMergeIntention(page) => 1 + page.serialized_size(),
            Link::ParentMergeConfirm => 1,
            Link::ChildMergeCap => 1,
        }
    }

    fn serialize_into(&self, out: &mut [u8]) -> usize {
        match self {
            Link::Set(key, value) => {
                out[0] = 0;
                1 + write_both(key, value, &mut out[1..])
            }
            Link::Del(key) => {
                out[0] = 1;
                1 + key.serialize_into(&mut out[1..])
            }
            Link::ParentMergeIntention(page) => {
                out[0] = 2;
                1 + page.serialize_into(&mut out[1..])
            }
            Link::ParentMergeConfirm => {
                out[0] = 3;
                1
            }
            Link::ChildMergeCap => {
                out[0] = 4;
                1
            }
        }
    }

    fn deserialize(alloc: Global, input: &mut &[u8]) -> Result<Link, Error> {
        let (tag, mut rest) = match *input {
            [tag, rest @ ..] => (*tag, rest),
            [] => return Err(Error::Corruption(None)),
        };
        let link = match tag {
            0 => {
                let (key, value) = read_two(alloc, &mut rest)?;
                Link::Set(key, value)
            }
            1 => Link::Del(read_short(alloc, &mut rest)?),
            2 => Link::ParentMergeIntention(u64::deserialize(alloc, &mut rest)?),
            3 => Link::ParentMergeConfirm,
            4 => Link::ChildMergeCap,
            _ => return Err(Error::Corruption(None)),
        };
        *input = rest;
        Ok(link)
    }
}

// Reads the key and the value of a link.
fn read_two(alloc: Global, input: &mut &[u8]) -> Result<(IVec, IVec), Error>
    ensures read { IfOk result
        (λ pair. ReadsPair ReadsShort ReadsShort input.old.now pair input.new.now) }
    ensures refused { IfErr result (IsRefusal (AsksPair AsksShort ReadsShort AsksShort)
        (ReadsPair ReadsShort ReadsShort) input.old.now) }
    ensures stays { OnErr result (input.new ≡ input.old) }
{
    let mut rest = *input;
    let key = read_short(alloc, &mut rest)?;
    let value = read_short(alloc, &mut rest)?;
    *input = rest;
    Ok((key, value))
}

/// Returns the key and the value of a payload that is a [`Link::Set`] and nothing more, where they lie in the payload, or else None.
///
/// It allocates nothing.
pub fn split_set(payload: &[u8]) -> Option<(&[u8], &[u8])>
    ensures found { IfSome result (λ pair. ReadsLink payload.now (Set pair.0.now pair.1.now) []) }
    ensures nothing { IfNone result ((key value : Bytes) → ReadsLink payload.now (Set key value) [] → ⊥) }
{
    let [0, pair @ ..] = payload else {
        return None;
    };
    let (key, behind) = split_short(pair)?;
    let (value, rest) = split_short(behind)?;
    if !rest.is_empty() {
        return None;
    }
    Some((key, value))
}
