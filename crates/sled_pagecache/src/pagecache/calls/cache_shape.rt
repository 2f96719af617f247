//! The shape of a cache.

ghost use Rattle.std.specs.Prelude.{◌≡◌, IfOk, map};
ghost use Rattle.sled_pagecache.specs.Shapes.{Shows};
ghost use Rattle.sled_pagecache.specs.Inside.PageKinds.{shape_of_entry};

use super::PageCache;
use crate::pagecache::handles::shape::{PageShape, Shape, kind_of};
use crate::pagecache::table::pagetable::PageTable;
use sled_base::PageId;
use sled_log::Log;
use std::alloc::{AllocError, Global};

impl<L: Log> PageCache<L> {
    /// Returns the shape of the cache. Only the list takes memory. The log isn't called, so the call works after a write error too. The
    /// only error is a failed allocation.
    pub fn shape(&self) -> Result<Shape, AllocError>
        ensures { IfOk result (Shows L.Log self.now) }
    {
        let pages = shapes_of(self.writer.sticky_log.alloc, &self.pages)?;
        Ok(Shape {
            pages,
            next: self.next,
            fault: self.writer.sticky_log.fault,
        })
    }
}

fn shapes_of(alloc: Global, pages: &PageTable) -> Result<Vec<PageShape>, AllocError>
    ensures { IfOk result (λ shapes. shapes.items ≡ map shape_of_entry pages.now.pages) }
{
    let count = pages.len();
    let mut shapes = Vec::with_capacity(alloc, count)?;
    for pid in 0..count {
        let Some(page) = pages.get(pid as PageId) else {
            unreachable!()
        };
        shapes.push(PageShape {
            stamp: page.stamp,
            kind: kind_of(&page.kept),
        })?;
    }
    Ok(shapes)
}
