//! A doubly linked list of page ids.
//!
//! The cells of the list are in one vector and refer to each other by their indices. So an item is moved or removed by its slot
//! in constant time and without an allocation.

ghost use Rattle.std.specs.Prelude.{◌≡◌, ◌↔◌, [], ◌∷◌, ◌++◌, length, List, ℕ, IsTrue, IfOk, OnErr, IfSome, IfNone, Contains, Some};
ghost use Rattle.sled_base.specs.Dll.{Listed, listed, slots, items, last_slot, AreDistinct, IsPromoted, IsRenewed};
ghost use Rattle.sled_base.specs.declared.dll.Slot.{Slot};

mod cell;
mod links;
mod optional_slot;

use crate::PageId;
use links::Links;
pub(crate) use optional_slot::OptionalSlot;
use std::alloc::{AllocError, Global};
use std::marker::Model;

/// The place of an item in a list. It is valid as long as the item is listed.
#[derive(Clone, Copy, Debug, PartialEq, Eq)]
pub struct Slot(u32);

/// A list of page ids, which grows and shrinks at both ends.
///
/// It holds at most 2^32 - 2 items. Adding another fails as if an allocation had failed.
///
/// Contracts see its items from the head to the tail, each with its slot.
#[derive(Drop)]
pub struct DoublyLinkedList {
    links: Links,
}

impl Model for DoublyLinkedList {
    ghost use Rattle.std.specs.Prelude.{[], List};
    ghost use Rattle.sled_base.specs.Dll.{Listed};
    ghost use Rattle.sled_base.specs.Links.{listed_in, IsLinkedList};

    ghost Value = { List Listed };

    ghost view = { λ list. listed_in list.links };

    ghost invariant = { λ list. IsLinkedList [] list.links };
}

impl DoublyLinkedList {
    /// Returns an empty list. It allocates nothing.
    pub fn default(alloc: Global) -> DoublyLinkedList
        ensures { result ≡ [] }
    {
        DoublyLinkedList {
            links: Links::new(alloc),
        }
    }

    /// Returns the number of items.
    pub fn len(&self) -> usize
        ensures { result ≡ length self.now }
    {
        self.links.len()
    }

    /// Returns whether the slot is live, that is, whether an item of the list has it. No two items have the same slot.
    pub fn is_live(&self, slot: Slot) -> bool
        ensures live { IsTrue result ↔ Contains (slots self.now) slot }
        ensures distinct { AreDistinct (slots self.now) }
    {
        self.links.is_linked(slot)
    }

    /// Adds an item at the head, and returns its slot, which no other item has.
    ///
    /// It allocates only if no slot is free. An error means that the allocation failed, or that the list is full. It leaves the list
    /// unchanged.
    pub fn push_head(&mut self, item: PageId) -> Result<Slot, AllocError>
        ensures ok { IfOk result (λ slot. self.new ≡ listed slot item ∷ self.old) }
        ensures fresh { IfOk result (λ slot. ¬ Contains (slots self.old) slot) }
        ensures err { OnErr result (self.new ≡ self.old) }
    {
        let free = self.links.take()?;
        self.links.link_head(free, item);
        Ok(free)
    }

    /// Adds an item at the tail, and returns its slot, which no other item has.
    ///
    /// It allocates only if no slot is free. An error means that the allocation failed, or that the list is full. It leaves the list
    /// unchanged.
    pub fn push_tail(&mut self, item: PageId) -> Result<Slot, AllocError>
        ensures ok { IfOk result (λ slot. self.new ≡ self.old ++ listed slot item ∷ []) }
        ensures fresh { IfOk result (λ slot. ¬ Contains (slots self.old) slot) }
        ensures err { OnErr result (self.new ≡ self.old) }
    {
        let free = self.links.take()?;
        self.links.link_tail(free, item);
        Ok(free)
    }

    /// Moves the item of the slot to the head, and returns the slot, which the item keeps. The slot must be live.
    ///
    /// It allocates nothing.
    pub fn promote(&mut self, slot: Slot) -> Slot
        requires { Contains (slots self.old) slot }
        ensures slot { result ≡ slot }
        ensures promoted { IsPromoted slot self.old self.new }
    {
        if let Some(first) = self.links.first()
            && first.0 == slot.0
        {
            return slot;
        }
        let item = self.links.unlink(slot);
        self.links.link_head(slot, item);
        slot
    }

    /// Replaces the item of the slot with another, and moves the slot to the head. The slot must be live.
    ///
    /// It allocates nothing.
    pub(crate) fn renew(&mut self, slot: Slot, other: PageId)
        requires { Contains (slots self.old) slot }
        ensures { IsRenewed slot other self.old self.new }
    {
        if let Some(first) = self.links.first()
            && first.0 == slot.0
            && self.item(slot) == other
        {
            return;
        }
        self.links.unlink(slot);
        self.links.link_head(slot, other);
    }

    /// Removes the item at the tail and returns it, or returns None if the list is empty. The slot of the item is no longer live.
    ///
    /// It allocates nothing.
    pub fn pop_tail(&mut self) -> Option<PageId>
        ensures some { IfSome result (λ item. (slot : Slot)
            × (self.old ≡ self.new ++ listed slot item ∷ [])) }
        ensures none { IfNone result ((self.old ≡ []) × (self.new ≡ [])) }
    {
        let slot = self.links.last()?;
        Some(self.links.remove(slot))
    }

    /// Removes the item at the head and returns it, or returns None if the list is empty. The slot of the item is no longer live.
    ///
    /// It allocates nothing.
    pub fn pop_head(&mut self) -> Option<PageId>
        ensures some { IfSome result (λ item. (slot : Slot)
            × (self.old ≡ listed slot item ∷ self.new)) }
        ensures none { IfNone result ((self.old ≡ []) × (self.new ≡ [])) }
    {
        let slot = self.links.first()?;
        Some(self.links.remove(slot))
    }

    /// Returns the items from the head to the tail. The only error is a failed allocation, which drops the list.
    pub fn into_vec(mut self) -> Result<Vec<PageId>, AllocError>
        ensures { IfOk result (λ v. v.items ≡ items self) }
    {
        let mut items = Vec::new(self.links.allocator());
        while let Some(item) = self.pop_head() {
            items.push(item)?;
        }
        Ok(items)
    }

    /// Returns the slot of the last item, or None if the list is empty.
    pub fn last(&self) -> Option<Slot>
        ensures { result ≡ last_slot self.now }
    {
        self.links.last()
    }

    /// Returns the slot of the item before that of `slot`, on the side of the head, or None if that item is the first. `slot` must be live.
    pub fn before(&self, slot: Slot) -> Option<Slot>
        requires { Contains (slots self.now) slot }
        ensures { (front back : List Listed) (item : ℕ)
            → self.now ≡ front ++ listed slot item ∷ back → result ≡ last_slot front }
    {
        self.links.link(slot).before.get()
    }

    /// Returns the slot in the space of one number. The slot must be live.
    pub(crate) fn packed(&self, slot: Slot) -> OptionalSlot
        requires { Contains (slots self.now) slot }
        ensures { result ≡ Some slot }
    {
        self.links.packed(slot)
    }

    /// Returns the item of the slot, which must be live.
    pub fn item(&self, slot: Slot) -> PageId
        requires { Contains (slots self.now) slot }
        ensures { (front back : List Listed) (item : ℕ)
            → self.now ≡ front ++ listed slot item ∷ back → result ≡ item }
    {
        self.links.link(slot).item
    }
}
