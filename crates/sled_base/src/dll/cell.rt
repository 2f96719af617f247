//! A cell of a doubly linked list.

ghost use Rattle.std.specs.Prelude.{◌≡◌};
ghost use Rattle.sled_base.specs.Cells.{IsUnmarked};
ghost use Rattle.sled_base.specs.declared.dll.cell.Cell.TheVariants.{Linked, Free};

use super::OptionalSlot;
use crate::PageId;
use std::marker::Model;

/// A cell with an item of the list, or a free one that names the next free cell.
#[derive(Clone, Copy)]
pub enum Cell {
    Linked(Link),
    Free(OptionalSlot),
}

/// An item with its neighbours.
#[derive(Clone, Copy)]
pub struct Link {
    pub item: PageId,
    /// The neighbour on the side of the head.
    pub before: OptionalSlot,
    /// The neighbour on the side of the tail.
    pub after: OptionalSlot,
}

/// A cell in the space of a link.
///
/// Contracts see it as the `Cell` that [`get`](PackedCell::get) returns, which takes half as much space again.
#[derive(Clone, Copy)]
pub struct PackedCell {
    // the link, or where the cell is free a mark as its `before`, and as its `after` the next free cell
    link: Link,
}

impl Model for PackedCell {
    ghost use Rattle.sled_base.specs.declared.dll.cell.Cell.{Cell};

    ghost Value = { Cell };

    ghost use Rattle.std.proofs.Common.{ap};
    ghost use Rattle.sled_base.specs.Cells.{cell_of, link_in, IsExact, link_in-cell_of};

    ghost view = { λ c. cell_of c.link };

    ghost invariant = { λ c. IsExact c.link };

    ghost inverse = { λ cell. record { link = link_in cell } };

    ghost inverse_ok = { λ c exact. ap (λ link. record { link = link }) (link_in-cell_of c.link exact) };
}

impl PackedCell {
    /// Returns a cell with an item. The link must not have the mark of a free cell as its `before`.
    pub fn linked(link: Link) -> PackedCell
        requires { IsUnmarked (Linked link) }
        ensures { result ≡ Linked link }
    {
        PackedCell { link }
    }

    /// Returns a free cell that names the next free one.
    pub fn free(next: OptionalSlot) -> PackedCell
        ensures { result ≡ Free next }
    {
        PackedCell {
            link: Link {
                item: 0,
                before: OptionalSlot::mark(),
                after: next,
            },
        }
    }

    /// Returns the cell in the form of a `Cell`.
    pub fn get(self) -> Cell
        ensures cell { result ≡ self }
        ensures unmarked { IsUnmarked result }
    {
        let link = self.link;
        if link.before.is_mark() {
            return Cell::Free(link.after);
        }
        Cell::Linked(link)
    }
}
