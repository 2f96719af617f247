//! A shard of a cache's pages by their recent use.
//!
//! Its places are in a list with their sizes, and an entry for each place names its slot there. So an access takes constant time,
//! except for the places that are evicted.

ghost use Rattle.std.specs.Prelude.{◌≡◌, ◌≢◌, ◌<◌, ◌≤◌, ◌+◌, ◌^◌, ℕ, [], ◌∷◌, length, All, IfOk, OnOk, OnErr, IsOk, IfSome, IsSome, Contains, Some, vec_len};
ghost use Rattle.sled_base.specs.Dll.{slots};
ghost use Rattle.sled_base.specs.Limits.{exponent_count};
ghost use Rattle.sled_base.specs.Lru.{listing, total, others, IsUsed, IsWithin};
ghost use Rattle.sled_base.specs.Shards.{place_in, size_in, entry_at, PutsFirst, IsCut, TakesLast};
ghost use Rattle.sled_base.specs.declared.dll.Slot.{Slot};

use super::item;
use crate::dll::{DoublyLinkedList, OptionalSlot, Slot};
use crate::growth::reserve;
use std::alloc::{AllocError, Global};
use std::marker::Model;

/// Places with their sizes, the most recently used first.
#[derive(Drop)]
pub struct Shard {
    // the places with their sizes
    list: DoublyLinkedList,
    // by place: its slot in the list, and none where it isn't listed
    entries: Vec<OptionalSlot>,
    capacity: u64,
    // the sizes of all that are listed together
    total: u128,
}

impl Model for Shard {
    ghost use Rattle.sled_base.specs.Shards.{Shelf};

    ghost Value = { Shelf };

    ghost use Rattle.sled_base.specs.Shards.{listings_of, IsIndexed};

    ghost view = { λ s. record { capacity = s.capacity; listings = listings_of s.list } };

    ghost invariant = { λ s. IsIndexed s.entries.items s.list s.total };
}

impl Shard {
    /// Returns a shard that lists nothing. It allocates nothing.
    pub fn new(alloc: Global, capacity: u64) -> Shard
        ensures { result ≡ record { capacity = capacity; listings = [] } }
    {
        Shard {
            list: DoublyLinkedList::default(alloc),
            entries: Vec::new(alloc),
            capacity,
            total: 0,
        }
    }

    /// Makes the place the first one, with the size 2^exponent, and puts the places that are evicted for it into `gone`.
    ///
    /// They replace what `gone` held, and the least recently used is the first. It allocates before it changes anything, so an error
    /// leaves the listed places and the items of `gone` unchanged. It allocates nothing if the place is already listed with that size.
    pub fn accessed(
        &mut self,
        place: u64,
        exponent: u32,
        gone: &mut Vec<u64>,
    ) -> Result<(), AllocError>
        requires near { place < 2 ^ 56 }
        requires power { exponent < exponent_count }
        requires room { total self.old.listings + 2 ^ exponent < 2 ^ 128 }
        ensures used { OnOk result (IsUsed self.old.capacity place (2 ^ exponent)
            self.old.listings self.new.listings gone.new.items) }
        ensures capacity { self.new.capacity ≡ self.old.capacity }
        ensures near { OnOk result (All (λ place. place < 2 ^ 56) gone.new.items) }
        ensures err { OnErr result (self.new ≡ self.old) }
        ensures kept { OnErr result (gone.new.items ≡ gone.old.items) }
        ensures always { Contains self.old.listings (listing place (2 ^ exponent))
            → IsWithin self.old.capacity self.old.listings → IsOk result }
    {
        let item = item::packed(place, exponent);
        let sum = self.sum_with(item);
        let count = self.leaving(item, sum);
        gone.reserve_exact(count)?;
        self.put_first(item, sum)?;
        gone.clear();
        for _ in 0..count {
            gone.push_reserved(self.drop_last());
        }
        Ok(())
    }

    // What the item and the other places take together.
    fn sum_with(&self, item: u64) -> u128
        requires { total self.now.listings + size_in item < 2 ^ 128 }
        ensures { result ≡ size_in item + total (others (place_in item) self.now.listings) }
    {
        self.total - u128::from(self.size_at(item::place(item))) + u128::from(item::size(item))
    }

    // The size of the place, or 0 where it isn't listed.
    fn size_at(&self, place: u64) -> u64
        ensures { total (others place self.now.listings) + result ≡ total self.now.listings }
    {
        match slot_at(&self.entries, place) {
            Some(slot) => item::size(self.list.item(slot)),
            None => 0,
        }
    }

    // How many places leave for the item, which takes so much with the others: those of the walk from the last on, which
    // passes over the item's own place.
    fn leaving(&self, item: u64, sum: u128) -> usize
        requires { sum ≡ size_in item + total (others (place_in item) self.now.listings) }
        ensures { IsCut self.now.capacity (place_in item) (size_in item) self.now.listings result }
    {
        let place = item::place(item);
        let mut total = sum;
        let mut count = 0;
        let mut last = self.list.last();
        for _ in 0..self.list.len() {
            if total <= u128::from(self.capacity) {
                return count;
            }
            let Some(slot) = last else {
                return count;
            };
            let other = self.list.item(slot);
            if item::place(other) != place {
                total -= u128::from(item::size(other));
                count += 1;
            }
            last = self.list.before(slot);
        }
        count
    }

    // Puts the item first, which takes so much with the others. An error leaves the shard unchanged.
    fn put_first(&mut self, item: u64, sum: u128) -> Result<(), AllocError>
        requires near { place_in item < 2 ^ 56 }
        requires sum { sum ≡ size_in item + total (others (place_in item) self.old.listings) }
        ensures ok { OnOk result (self.new ≡ record {
          capacity = self.old.capacity;
          listings = listing (place_in item) (size_in item) ∷ others (place_in item) self.old.listings;
        }) }
        ensures err { OnErr result (self.new ≡ self.old) }
        ensures always { (x : ℕ) → Contains self.old.listings (listing (place_in item) x) → IsOk result }
    {
        let index = item::place(item) as usize;
        make_room(&mut self.entries, index)?;
        self.entries[index] = put_in_front(&mut self.list, self.entries[index], item)?;
        self.total = sum;
        Ok(())
    }

    // Removes the last place, and answers it.
    fn drop_last(&mut self) -> u64
        requires { self.old.listings ≢ [] }
        ensures { TakesLast result self.old self.new }
    {
        let item = self.list.pop_tail().unwrap();
        let place = item::place(item);
        self.total -= u128::from(item::size(item));
        self.entries[place as usize] = OptionalSlot::none();
        place
    }
}

// Puts the item first in the list, where its place may have an entry, and answers the entry that it has then.
fn put_in_front(
    list: &mut DoublyLinkedList,
    entry: OptionalSlot,
    item: u64,
) -> Result<OptionalSlot, AllocError>
    requires { IfSome entry (Contains (slots list.old)) }
    ensures ok { IfOk result (λ named. (slot : Slot)
        × (named ≡ Some slot) × PutsFirst slot item entry list.old list.new) }
    ensures err { OnErr result (list.new ≡ list.old) }
    ensures always { IsSome entry → IsOk result }
{
    let Some(slot) = entry.get() else {
        let slot = list.push_head(item)?;
        return Ok(list.packed(slot));
    };
    list.renew(slot, item);
    Ok(entry)
}

// The slot of the place, or None where it isn't listed.
fn slot_at(entries: &[OptionalSlot], place: u64) -> Option<Slot>
    ensures { result ≡ entry_at entries.now place }
{
    match entries.get(place as usize) {
        Some(entry) => entry.get(),
        None => None,
    }
}

// Makes so many entries that there is one for the index.
fn make_room(entries: &mut Vec<OptionalSlot>, index: usize) -> Result<(), AllocError>
    requires { index < 2 ^ 56 }
    ensures ok { OnOk result (index < vec_len entries.new) }
    ensures same { (place : ℕ)
        → entry_at entries.new.items place ≡ entry_at entries.old.items place }
    ensures always { index < vec_len entries.old → IsOk result }
    ensures few { length entries.old.items ≤ 2 ^ 56 → length entries.new.items ≤ 2 ^ 56 }
{
    if index < entries.len() {
        return Ok(());
    }
    reserve(entries, index + 1 - entries.len())?;
    entries.resize(index + 1, OptionalSlot::none())
}
