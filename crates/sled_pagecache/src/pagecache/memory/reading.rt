//! The node of a page, from the messages that a log returns one after another.

ghost use Rattle.std.specs.Prelude.{◌≡◌, [], IfSome, IfOk, IfErr, OnOk, OnErr};
ghost use Rattle.sled_log.specs.Contents as contents;
ghost use Rattle.sled_log.specs.Reading.{IsUpdate};
ghost use Rattle.sled_node.specs.Node.{WholeNode};
ghost use Rattle.sled_node.specs.declared.node.link.Link.{Link as NodeLink};
ghost use Rattle.sled_node.specs.declared.node.link.Link.TheVariants.{Set};
ghost use Rattle.sled_pagecache.specs.Inside.PageIn.{found_message, EncodesNothing, Follows, Leads, RefusesFirst, RefusesMessage};

use crate::pagecache::table::boxed_node::BoxedNode;
use sled_base::{Bug, DiskPtr, Error, MessageKind, Refusal};
use sled_node::serialization::split_set;
use sled_node::{Link, Node, Serialize};
use std::alloc::Global;

/// A message of a page that a log returned: its kind, its payload, and where the log stores it.
#[derive(Clone, Copy)]
pub(crate) struct Found<'a> {
    pub(crate) kind: MessageKind,
    pub(crate) payload: &'a [u8],
    pub(crate) pointer: DiskPtr,
}

// The node that the first message of a page puts there, held in memory.
//
// `FreeInPull` comes where it is of kind Free. `Corruption` comes with its pointer where it is of another kind that puts no node there,
// or its payload isn't read whole or leaves bytes over. `OutOfMemory` comes for an allocation failure alone.
pub(crate) fn first_boxed(found: &Found<'_>, alloc: Global) -> Result<BoxedNode, Refusal>
    ensures made { IfOk result
        (λ node. IsUpdate (found_message found.now) (contents.Put (contents.Node node))) }
    ensures refused { IfErr result (RefusesFirst found.now) }
{
    if found.kind == MessageKind::Free {
        return Err(Refusal::ReportableBug(Bug::FreeInPull));
    }
    let node = first_node(found, alloc)?;
    BoxedNode::new(alloc, node).map_err(|_| Refusal::OutOfMemory)
}

// What the messages of a page make with one more, which is a link: nothing where those before it make nothing.
//
// `Corruption` comes with its pointer where it is of another kind, its payload isn't read whole or leaves bytes over, or the node doesn't
// accept it.
pub(crate) fn with_link(
    made: Result<BoxedNode, Refusal>,
    found: &Found<'_>,
    alloc: Global,
) -> Result<BoxedNode, Refusal>
    ensures { Follows made found.now result }
{
    let mut node = made?;
    apply_link(&mut node, found, alloc)?;
    Ok(node)
}

// The node that the first message of a page puts there.
fn first_node(found: &Found<'_>, alloc: Global) -> Result<Node, Refusal>
    ensures read { IfOk result
        (λ node. IsUpdate (found_message found.now) (contents.Put (contents.Node node))) }
    ensures refused { IfErr result (RefusesMessage found.now.pointer ((node : WholeNode)
        → ¬ IsUpdate (found_message found.now) (contents.Put (contents.Node node)))) }
{
    match found.kind {
        MessageKind::InlineNode | MessageKind::BlobNode => whole::<Node>(found, alloc),
        _ => Err(Refusal::Corruption(Some(found.pointer))),
    }
}

// Applies the link that a message is. One that sets a pair is applied from the payload, so that neither key nor value is copied first.
fn apply_link(node: &mut BoxedNode, found: &Found<'_>, alloc: Global) -> Result<(), Refusal>
    ensures applied { OnOk result (Leads node.old (found_message found.now) node.new) }
    ensures refused { IfErr result (RefusesMessage found.now.pointer ((after : WholeNode)
        → ¬ Leads node.old (found_message found.now) after)) }
    ensures err { OnErr result (node.new ≡ node.old) }
{
    if let Some((key, value)) = pair_of(found) {
        if !node.accepts_pair(alloc, key, value) {
            return Err(Refusal::Corruption(Some(found.pointer)));
        }
        node.set_pair(alloc, key, value)
            .map_err(|_| Refusal::OutOfMemory)
    } else {
        let link = link_of(found, alloc)?;
        if !node.accepts(alloc, &link) {
            return Err(Refusal::Corruption(Some(found.pointer)));
        }
        node.apply(alloc, &link).map_err(|_| Refusal::OutOfMemory)
    }
}

// The pair that a message sets, where it lies in the payload, if the message is a link that sets one.
fn pair_of<'a>(found: &Found<'a>) -> Option<(&'a [u8], &'a [u8])>
    ensures { IfSome result (λ pair.
        IsUpdate (found_message found.now) (contents.Link (Set pair.0.now pair.1.now))) }
{
    match found.kind {
        MessageKind::InlineLink | MessageKind::BlobLink => split_set(found.payload),
        _ => None,
    }
}

// The link that a message is.
fn link_of(found: &Found<'_>, alloc: Global) -> Result<Link, Refusal>
    ensures read { IfOk result (λ link. IsUpdate (found_message found.now) (contents.Link link)) }
    ensures refused { IfErr result (RefusesMessage found.now.pointer ((link : NodeLink)
        → ¬ IsUpdate (found_message found.now) (contents.Link link))) }
{
    match found.kind {
        MessageKind::InlineLink | MessageKind::BlobLink => whole::<Link>(found, alloc),
        _ => Err(Refusal::Corruption(Some(found.pointer))),
    }
}

// The value that a payload encodes from its front to its end.
pub(crate) fn whole<T: Serialize>(found: &Found<'_>, alloc: Global) -> Result<T, Refusal>
    ensures read { IfOk result (λ value. T.reads found.now.payload.now value []) }
    ensures refused { IfErr result
        (RefusesMessage found.now.pointer (EncodesNothing T.reads found.now.payload.now)) }
{
    let mut rest = found.payload;
    match T::deserialize(alloc, &mut rest) {
        Ok(value) if rest.is_empty() => Ok(value),
        Err(Error::OutOfMemory) => Err(Refusal::OutOfMemory),
        _ => Err(Refusal::Corruption(Some(found.pointer))),
    }
}
