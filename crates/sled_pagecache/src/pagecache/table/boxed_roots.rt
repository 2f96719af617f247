//! The map of named roots in memory.

ghost use Rattle.std.specs.Prelude.{◌≡◌, IfOk};
ghost use Rattle.std.specs.Borrow.{sem};
ghost use Rattle.sled_pagecache.specs.Inside.BoxedRoots.{LendsRoots};

use sled_node::Meta;
use std::alloc::{AllocError, Global};
use std::marker::Model;

/// A map of named roots that is stored outside the table of pages, which holds only a pointer to it.
///
/// Contracts see the map.
#[derive(Debug, Drop)]
pub(crate) struct BoxedRoots {
    roots: Box<Meta>,
}

impl Model for BoxedRoots {
    ghost use Rattle.sled_node.specs.Meta.{Roots};

    ghost Value = { Roots };

    ghost view = { λ held. held.roots.value };
}

impl BoxedRoots {
    // The only error is out of memory, and then the map is let go.
    pub(crate) fn new(alloc: Global, roots: Meta) -> Result<BoxedRoots, AllocError>
        ensures { IfOk result (λ held. held ≡ roots) }
    {
        Ok(BoxedRoots {
            roots: Box::new(alloc, roots)?,
        })
    }

    pub(crate) fn as_meta(&self) -> &Meta
        ensures { result.now ≡ self.now }
    {
        &self.roots
    }

    // The map, to be changed in its place.
    pub(crate) fn as_mut(&mut self) -> &mut Meta
        ensures* lends { sem 𝓛 (LendsRoots self.entry result) }
        ensures roots { result.now ≡ self.old }
    {
        &mut self.roots
    }
}

impl Clone for BoxedRoots {
    ghost use Rattle.std.specs.Prelude.{◌≡◌};

    ghost is_clone = { λ held copy. copy ≡ held };

    fn clone(&self) -> Result<BoxedRoots, AllocError> {
        Ok(BoxedRoots {
            roots: self.roots.clone()?,
        })
    }
}
