//! Finding the leaf of a key, with room for a pair.

ghost use Rattle.sled_tree.specs.Maps.{Keeps};
ghost use Rattle.sled_tree.specs.Performs.{Performs};
ghost use Rattle.sled_tree.specs.Walks.{IsMet, MakesRoom};

use crate::place::{Met, Place, seek};
use crate::splits::{grow, lead_right, split_child};
use crate::trees::Limits;
use sled_pagecache::{Error, Log, PageCache, PageId};
use std::alloc::Global;

/// Returns the place of a key in a leaf that has room for a pair.
///
/// If the search meets a page with too many pairs, it splits that page and begins again. So an index that gets one more child has room for it.
pub fn room_for<L: Log>(
    alloc: Global,
    cache: &mut PageCache<L>,
    root: PageId,
    key: &[u8],
    limits: Limits,
) -> Result<Place, Error>
    ensures { Performs L.Log (MakesRoom root key.now result) cache.old cache.new }
{
    let mut reports = true;
    'searches: for _ in 0..u64::MAX {
        match seek(cache, root, key, limits, reports)? {
            Met::Leaf(place) => return Ok(place),
            Met::Full(above, page) => make_room(alloc, cache, above, page, key)?,
            Met::Unled(above, page) => {
                lead_right(cache, above, page)?;
                reports = false; // once is enough: where nothing was led, the search goes right
            }
        }
    }
    Err(Error::Corruption(None))
}

// Splits a page, which the other one led to, or which is the root, to make room for a key.
fn make_room<L: Log>(
    alloc: Global,
    cache: &mut PageCache<L>,
    above: PageId,
    page: PageId,
    key: &[u8],
) -> Result<(), Error>
    ensures { Performs L.Log (Keeps (IsMet above page)) cache.old cache.new }
{
    if above == page {
        grow(alloc, cache, page, key)
    } else {
        split_child(cache, above, page, key)
    }
}
