//! Copies of the arguments of a call, and of a node that was found: one is passed on, and one is entered.

ghost use Rattle.std.specs.Prelude.{◌≡◌, Ok, Err, IfOk, IfErr, IsSome};
ghost use Rattle.sled_base.specs.Errors.{error_of};
ghost use Rattle.sled_pagecache.specs.Rows.{IsMade};
ghost use Rattle.sled_pagecache.specs.declared.pagecache.handles.call.Answer.TheVariants.{Got};
ghost use Rattle.sled_pagecache.specs.declared.pagecache.handles.call.Call.TheVariants.{Get};
ghost use Rattle.sled_shared.specs.Kept.{found_kept, node_kept};

use crate::entry::{Kept, RootSwap};
use crate::keeping::{Spare, put};
use sled_base::{Error, IVec, PageId, Refusal};
use sled_log::Log;
use sled_node::{Link, Node};
use sled_pagecache::{PageCache, PageView};
use std::alloc::{AllocError, Global};

/// What a read finds, and what an entry stores of that.
pub(crate) type FoundTwice = (Option<(PageView, Node)>, Option<(u64, Box<Node>)>);

// Reads a page, with two copies of its node. Where there is no memory for the copies, the read fails.
pub(crate) fn read<L: Log>(
    alloc: Global,
    cache: &mut PageCache<L>,
    pid: PageId,
) -> Result<FoundTwice, Refusal>
    ensures same { IfOk result (λ twice. found_kept pid twice.1 ≡ twice.0) }
    ensures made { IfOk result
        (λ twice. IsMade L.Log cache.old (Get pid) (Got (Ok twice.0)) cache.new) }
    ensures failed { IfErr result
        (λ e. IsMade L.Log cache.old (Get pid) (Got (Err (error_of e))) cache.new) }
{
    match cache.get(pid) {
        Ok(Some(view)) => match two_of(alloc, view.node()) {
            Ok((node, copy)) => {
                let token = view.token();
                Ok((Some((token, node)), Some((token.ts(), copy))))
            }
            Err(_) => Err(Refusal::OutOfMemory),
        },
        Ok(None) => Ok((None, None)),
        Err(refusal) => Err(refusal),
    }
}

// The same as the answer of a call and what its entry stores.
pub(crate) fn get_twice<L: Log>(
    alloc: Global,
    cache: &mut PageCache<L>,
    pid: PageId,
    spare: &mut Spare,
) -> (
    Result<Option<(PageView, Node)>, Error>,
    Kept<Option<(u64, Box<Node>)>>,
)
    requires { IsSome spare.old }
    ensures same { node_kept pid result.1 ≡ result.0 }
    ensures made { IsMade L.Log cache.old (Get pid) (Got result.0) cache.new }
{
    match read(alloc, cache, pid) {
        Ok((found, copy)) => (Ok(found), Ok(copy)),
        Err(refusal) => (Err(Error::from(refusal)), Err(put(refusal, spare))),
    }
}

// A copy of a node.
pub(crate) fn copy_node(alloc: Global, node: &Node) -> Result<Box<Node>, AllocError>
    ensures { IfOk result (λ copy. copy.value ≡ node.now) }
{
    let copy = node.clone()?;
    Ok(Box::new(alloc, copy)?)
}

// A copy of a node that is to be put on a page, with its token.
pub(crate) fn copy_replacement(
    alloc: Global,
    old: PageView,
    node: &Node,
) -> Result<Box<(PageView, Node)>, AllocError>
    ensures { IfOk result (λ copy. copy.value ≡ (old, node.now)) }
{
    let copy = node.clone()?;
    Ok(Box::new(alloc, (old, copy))?)
}

// A copy of a link of a page, with its token.
pub(crate) fn copy_link(
    alloc: Global,
    old: PageView,
    link: &Link,
) -> Result<Box<(PageView, Link)>, AllocError>
    ensures { IfOk result (λ copy. copy.value ≡ (old, link.now)) }
{
    let copy = link.clone()?;
    Ok(Box::new(alloc, (old, copy))?)
}

// A copy of a name.
pub(crate) fn copy_name(alloc: Global, name: &[u8]) -> Result<Box<IVec>, AllocError>
    ensures { IfOk result (λ copy. copy.value ≡ name.now) }
{
    let copy = IVec::from_slice(alloc, name)?;
    Ok(Box::new(alloc, copy)?)
}

// A copy of a name, which shares its bytes where they are many.
pub(crate) fn share_name(alloc: Global, name: &IVec) -> Result<Box<IVec>, AllocError>
    ensures { IfOk result (λ copy. copy.value ≡ name.now) }
{
    let copy = name.clone()?;
    Ok(Box::new(alloc, copy)?)
}

// A copy of the swap of a root.
pub(crate) fn copy_root_swap(
    alloc: Global,
    name: &[u8],
    old: Option<PageId>,
    new: Option<PageId>,
) -> Result<Box<RootSwap>, AllocError>
    ensures { IfOk result (λ copy. (copy.value.name ≡ name.now) × (copy.value.old ≡ old)
        × (copy.value.new ≡ new)) }
{
    let name = IVec::from_slice(alloc, name)?;
    Ok(Box::new(alloc, RootSwap { name, old, new })?)
}

// Two copies of a node.
fn two_of(alloc: Global, node: &Node) -> Result<(Node, Box<Node>), AllocError>
    ensures { IfOk result (λ two. (two.0 ≡ node.now) × (two.1.value ≡ node.now)) }
{
    let one = node.clone()?;
    let other = copy_node(alloc, node)?;
    Ok((one, other))
}
