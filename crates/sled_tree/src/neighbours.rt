//! The nearest pairs on either side of a bound, the pairs between two bounds, and the number of pairs.
//!
//! In reading order:
//!
//! - `leaves`: the leaf of a key, and that of the keys just before a bound
//! - `nearest`: the pair next to a bound, on one side of it
//! - `pieces`: the pairs of a leaf within two bounds
//! - `count`: the number of pairs

pub mod count;
mod leaves;
pub mod nearest;
pub mod pieces;

use sled_pagecache::IVec;
use std::ops::Bound;

/// A key and its value.
pub type Pair = (IVec, IVec);

/// A side of a bound: after it, or before it.
#[derive(Clone, Copy)]
pub enum Side {
    /// The pairs after the bound, of which the first is next to it.
    Above,
    /// The pairs before the bound, of which the last is next to it.
    Below,
}

// What a leaf has next to a bound, or where to look further.
#[derive(Drop)]
enum Near {
    // the pair that is nearest
    Pair(Pair),
    // none in the leaf, and what is next to this bound is nearest
    Further(Bound<IVec>),
    // none at all
    Nothing,
}
