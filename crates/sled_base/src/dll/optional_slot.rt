//! A slot or none, in the space of one number.

ghost use Rattle.std.specs.Prelude.{◌≡◌, ◌<◌, Some, None};
ghost use Rattle.std.specs.Option.{option_or};
ghost use Rattle.sled_base.specs.OptionalSlots.{no_slot, cell_limit, is_mark};

use super::Slot;
use std::marker::Model;

// The number of no slot.
const NO_SLOT: u32 = u32::MAX;

/// The largest number of cells. No slot has this number, so it marks a free cell.
pub const CELLS: u32 = u32::MAX - 1;

/// A slot, or none.
///
/// Contracts see it as the `Option` that [`get`](OptionalSlot::get) returns, which takes twice the space.
#[derive(Clone, Copy)]
pub struct OptionalSlot(u32);

impl Model for OptionalSlot {
    ghost use Rattle.std.specs.Prelude.{Option};
    ghost use Rattle.std.proofs.Common.{ap};
    ghost use Rattle.sled_base.specs.declared.dll.Slot.{Slot};
    ghost use Rattle.sled_base.specs.OptionalSlots.{slot_of, slot_number, slot_number-slot_of};

    ghost Value = { Option Slot };

    ghost view = { λ s. slot_of s.0 };

    ghost inverse = { λ slot. record { 0 = slot_number slot } };

    ghost inverse_ok = { λ s h. ap (λ n. record { 0 = n }) (slot_number-slot_of s.0) };
}

impl OptionalSlot {
    /// Returns the value for no slot.
    pub fn none() -> OptionalSlot
        ensures { result ≡ None }
    {
        OptionalSlot(NO_SLOT)
    }

    /// Returns the value for the slot, whose number must be below `u32::MAX`.
    pub fn some(slot: Slot) -> OptionalSlot
        requires { slot.0 < no_slot }
        ensures { result ≡ Some slot }
    {
        OptionalSlot(slot.0)
    }

    /// Returns the slot, or None if there is none.
    pub fn get(self) -> Option<Slot>
        ensures { result ≡ self }
    {
        if self.0 == NO_SLOT {
            return None;
        }
        Some(Slot(self.0))
    }

    /// Returns the mark of a free cell.
    pub fn mark() -> OptionalSlot
        ensures { result ≡ Some (record { 0 = cell_limit }) }
    {
        OptionalSlot(CELLS)
    }

    /// Returns whether this is the mark of a free cell.
    pub fn is_mark(self) -> bool
        ensures { result ≡ is_mark self }
    {
        self.0 == CELLS
    }

    /// Returns the slot, or `other` if there is none.
    pub fn or(self, other: OptionalSlot) -> OptionalSlot
        ensures { result ≡ option_or self other }
    {
        if self.0 == NO_SLOT { other } else { self }
    }
}
