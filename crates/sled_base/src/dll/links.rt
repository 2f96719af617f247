//! The cells of a doubly linked list.
//!
//! They are in one vector, and a slot is an index of it. Each cell holds an item of the list and names its neighbours, or it is
//! free and names the next free cell.

ghost use Rattle.std.specs.Prelude.{◌≡◌, ◌<◌, [], ◌∷◌, ◌++◌, length, IfOk, OnErr, IfSome, IfNone, Contains, IsTrue, ◌↔◌, Option, Some, false};
ghost use Rattle.std.specs.List.{slice_get};
ghost use Rattle.sled_base.specs.Dll.{listed, slots, last_slot};
ghost use Rattle.sled_base.specs.Links.{first_slot_or, listed_in, IsLinkedList, TakesOut, IsLinkAt, ChangesLink, with_before, with_after, IsSlotIn};
ghost use Rattle.sled_base.specs.OptionalSlots.{is_mark};
ghost use Rattle.sled_base.specs.declared.dll.Slot.{Slot};
ghost use Rattle.sled_base.specs.declared.dll.cell.Cell.TheVariants.{Free};

use super::cell::{Cell, Link, PackedCell};
use super::optional_slot::CELLS;
use super::{OptionalSlot, Slot};
use crate::PageId;
use crate::growth::reserve;
use std::alloc::{AllocError, Global};

/// The cells, the head and the tail of the list, and the first free cell.
#[derive(Drop)]
pub struct Links {
    cells: Vec<PackedCell>,
    head: OptionalSlot,
    tail: OptionalSlot,
    // the first of the free cells
    free: OptionalSlot,
    len: usize,
}

impl Links {
    /// Returns a list without cells. It allocates nothing.
    pub fn new(alloc: Global) -> Links
        ensures kept { IsLinkedList [] result }
        ensures list { listed_in result ≡ [] }
    {
        Links {
            cells: Vec::new(alloc),
            head: OptionalSlot::none(),
            tail: OptionalSlot::none(),
            free: OptionalSlot::none(),
            len: 0,
        }
    }

    /// Returns the allocator of the cells.
    pub fn allocator(&self) -> Global {
        *self.cells.allocator()
    }

    /// Returns the number of items.
    pub fn len(&self) -> usize
        requires { IsLinkedList [] self.now }
        ensures { result ≡ length (listed_in self.now) }
    {
        self.len
    }

    /// Returns the slot of the first item, or None if there is none.
    pub fn first(&self) -> Option<Slot>
        requires { IsLinkedList [] self.now }
        ensures value { result ≡ first_slot_or None (listed_in self.now) }
        ensures live { IfSome result (Contains (slots (listed_in self.now))) }
        ensures empty { IfNone result (listed_in self.now ≡ []) }
    {
        self.head.get()
    }

    /// Returns the slot of the last item, or None if there is none.
    pub fn last(&self) -> Option<Slot>
        requires { IsLinkedList [] self.now }
        ensures value { result ≡ last_slot (listed_in self.now) }
        ensures live { IfSome result (Contains (slots (listed_in self.now))) }
        ensures empty { IfNone result (listed_in self.now ≡ []) }
    {
        self.tail.get()
    }

    /// Returns whether the slot has an item.
    pub fn is_linked(&self, slot: Slot) -> bool
        requires { IsLinkedList [] self.now }
        ensures { IsTrue result ↔ Contains (slots (listed_in self.now)) slot }
    {
        let place = slot.0 as usize;
        place < self.cells.len() && matches!(self.cells[place].get(), Cell::Linked(_))
    }

    /// Returns the slot in the space of one number. The slot must have an item.
    pub fn packed(&self, slot: Slot) -> OptionalSlot
        requires kept { IsLinkedList [] self.now }
        requires live { Contains (slots (listed_in self.now)) slot }
        ensures { result ≡ Some slot }
    {
        OptionalSlot::some(slot)
    }

    /// Returns the item of the slot with its neighbours. The slot must have an item.
    pub fn link(&self, slot: Slot) -> Link
        requires kept { IsLinkedList [] self.now }
        requires live { Contains (slots (listed_in self.now)) slot }
        ensures { IsLinkAt self.now slot result }
    {
        match self.cells[slot.0 as usize].get() {
            Cell::Linked(link) => link,
            Cell::Free(_) => unreachable!(),
        }
    }

    /// Takes a cell for an item: the first free one, or else a new one.
    ///
    /// The cell is then neither listed nor free. An error means that the allocation failed, or that all of 2^32 - 2 cells, which take
    /// 64 GiB, are in use. It leaves the list unchanged. A shard of a cache has at most 2^29 places, so it never reaches that limit.
    pub fn take(&mut self) -> Result<Slot, AllocError>
        requires { IsLinkedList [] self.old }
        ensures ok { IfOk result (λ slot. IsLinkedList (slot ∷ []) self.new) }
        ensures err { OnErr result (IsLinkedList [] self.new) }
        ensures list { listed_in self.new ≡ listed_in self.old }
    {
        match self.free.get() {
            Some(slot) => {
                self.free = next_free(&self.cells, slot);
                Ok(slot)
            }
            None => self.add(),
        }
    }

    // A new cell, which is neither listed nor free.
    fn add(&mut self) -> Result<Slot, AllocError>
        requires { IsLinkedList [] self.old }
        ensures ok { IfOk result (λ slot. IsLinkedList (slot ∷ []) self.new) }
        ensures err { OnErr result (IsLinkedList [] self.new) }
        ensures list { listed_in self.new ≡ listed_in self.old }
    {
        if self.cells.len() >= CELLS as usize {
            return Err(AllocError);
        }
        reserve(&mut self.cells, 1)?;
        let slot = Slot(self.cells.len() as u32);
        self.cells
            .push_reserved(PackedCell::free(OptionalSlot::none()));
        Ok(slot)
    }

    /// Puts an item into a cell that was taken, and links it before the others.
    pub fn link_head(&mut self, slot: Slot, item: PageId)
        requires { IsLinkedList (slot ∷ []) self.old }
        ensures kept { IsLinkedList [] self.new }
        ensures list { listed_in self.new ≡ listed slot item ∷ listed_in self.old }
    {
        let first = self.head;
        self.cells[slot.0 as usize] = PackedCell::linked(Link {
            item,
            before: OptionalSlot::none(),
            after: first,
        });
        let here = OptionalSlot::some(slot);
        set_before(&mut self.cells, first, here);
        self.head = here;
        self.tail = self.tail.or(here);
        self.len += 1;
    }

    /// Puts an item into a cell that was taken, and links it after the others.
    pub fn link_tail(&mut self, slot: Slot, item: PageId)
        requires { IsLinkedList (slot ∷ []) self.old }
        ensures kept { IsLinkedList [] self.new }
        ensures list { listed_in self.new ≡ listed_in self.old ++ listed slot item ∷ [] }
    {
        let last = self.tail;
        self.cells[slot.0 as usize] = PackedCell::linked(Link {
            item,
            before: last,
            after: OptionalSlot::none(),
        });
        let here = OptionalSlot::some(slot);
        set_after(&mut self.cells, last, here);
        self.tail = here;
        self.head = self.head.or(here);
        self.len += 1;
    }

    /// Removes the item of the slot and returns it. Its cell is then neither listed nor free.
    pub fn unlink(&mut self, slot: Slot) -> PageId
        requires kept { IsLinkedList [] self.old }
        requires live { Contains (slots (listed_in self.old)) slot }
        ensures kept { IsLinkedList (slot ∷ []) self.new }
        ensures list { TakesOut slot result (listed_in self.old) (listed_in self.new) }
    {
        let link = self.link(slot);
        set_after(&mut self.cells, link.before, link.after);
        set_before(&mut self.cells, link.after, link.before);
        self.head = match link.before.get() {
            Some(_) => self.head,
            None => link.after,
        };
        self.tail = match link.after.get() {
            Some(_) => self.tail,
            None => link.before,
        };
        self.len -= 1;
        link.item
    }

    /// Removes the item of the slot and returns it, and frees its cell.
    pub fn remove(&mut self, slot: Slot) -> PageId
        requires kept { IsLinkedList [] self.old }
        requires live { Contains (slots (listed_in self.old)) slot }
        ensures kept { IsLinkedList [] self.new }
        ensures list { TakesOut slot result (listed_in self.old) (listed_in self.new) }
    {
        let item = self.unlink(slot);
        self.cells[slot.0 as usize] = PackedCell::free(self.free);
        self.free = OptionalSlot::some(slot);
        item
    }
}

// The free cell after that of the slot.
fn next_free(cells: &Vec<PackedCell>, slot: Slot) -> OptionalSlot
    requires { (next : Option Slot) × (slice_get cells.now.items slot.0 ≡ Some (Free next)) }
    ensures { slice_get cells.now.items slot.0 ≡ Some (Free result) }
{
    match cells[slot.0 as usize].get() {
        Cell::Linked(_) => unreachable!(),
        Cell::Free(next) => next,
    }
}

// Gives the cell of the slot, if there is one, another neighbour on the side of the head.
fn set_before(cells: &mut Vec<PackedCell>, slot: OptionalSlot, before: OptionalSlot)
    requires there { IsSlotIn slot cells.old.items }
    requires other { is_mark before ≡ false }
    ensures { ChangesLink (with_before before) slot cells.old.items cells.new.items }
{
    if let Some(slot) = slot.get()
        && let Cell::Linked(link) = cells[slot.0 as usize].get()
    {
        cells[slot.0 as usize] = PackedCell::linked(Link { before, ..link });
    }
}

// The same on the side of the tail.
fn set_after(cells: &mut Vec<PackedCell>, slot: OptionalSlot, after: OptionalSlot)
    requires { IsSlotIn slot cells.old.items }
    ensures { ChangesLink (with_after after) slot cells.old.items cells.new.items }
{
    if let Some(slot) = slot.get()
        && let Cell::Linked(link) = cells[slot.0 as usize].get()
    {
        cells[slot.0 as usize] = PackedCell::linked(Link { after, ..link });
    }
}
