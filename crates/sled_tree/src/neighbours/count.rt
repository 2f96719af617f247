//! The number of pairs.

ghost use Rattle.std.specs.Prelude.{◌≡◌, IfOk, length};
ghost use Rattle.sled_search.specs.Map.{Map};
ghost use Rattle.sled_search.specs.Search.{HasNodeAt, IsTreeOf};
ghost use Rattle.sled_tree.specs.Changed.{Reads};
ghost use Rattle.sled_tree.specs.OrderedLeaves.{HasPart, ShowsPart};
ghost use Rattle.sled_tree.specs.Performs.{Performs};

use super::leaves::leaf_of;
use sled_node::Node;
use sled_pagecache::{Error, IVec, Log, PageCache, PageId, sled_node};

// How many pairs a leaf has, and its end, which is empty where it has none.
#[derive(Drop)]
struct Part {
    pairs: u64,
    end: IVec,
}

/// Returns the number of pairs of the tree with this root. It reads every leaf. More pairs than a u64 holds are refused with `Corruption`.
pub fn count_all<L: Log>(cache: &mut PageCache<L>, root: PageId) -> Result<u64, Error>
    ensures { Performs L.Log (Reads result (λ pages count. (m : Map) → IsTreeOf pages root m
        → count ≡ length m)) cache.old cache.new }
{
    let mut count: u64 = 0;
    let mut part = part_of(cache, root, &[])?;
    'leaves: for _ in 0..u64::MAX {
        let Part { pairs, end } = part;
        let Some(sum) = count.checked_add(pairs) else {
            return Err(Error::Corruption(None));
        };
        if end.is_empty() {
            return Ok(sum);
        }
        count = sum;
        part = part_of(cache, root, end.as_slice())?;
    }
    Err(Error::Corruption(None))
}

// How many pairs the leaf of the key has.
fn part_of<L: Log>(cache: &mut PageCache<L>, root: PageId, key: &[u8]) -> Result<Part, Error>
    ensures { Performs L.Log (Reads result (λ pages. HasPart pages root key.now))
        cache.old cache.new }
{
    let leaf = leaf_of(cache, root, key)?;
    part_at(cache, leaf)
}

// How many pairs the leaf on this page has.
fn part_at<L: Log>(cache: &mut PageCache<L>, leaf: PageId) -> Result<Part, Error>
    ensures { Performs L.Log (Reads result (λ pages part. HasNodeAt pages leaf (ShowsPart part)))
        cache.old cache.new }
{
    match cache.get(leaf) {
        Ok(Some(view)) => part_in(view.node()),
        Ok(None) => Err(Error::Corruption(None)),
        Err(refusal) => Err(Error::from(refusal)),
    }
}

fn part_in(node: &Node) -> Result<Part, Error>
    ensures { IfOk result (λ part. ShowsPart part node.now) }
{
    if node.is_index() {
        return Err(Error::Corruption(None));
    }
    let _ = node.data(); // which says that the node is well-formed
    Ok(Part {
        pairs: node.len() as u64,
        end: node.hi().clone()?,
    })
}
