//! Pages by their recent use, and which of them are evicted when together they exceed a capacity.
//!
//! The pages are spread over 256 shards by their ids. Each shard has an equal part of the capacity, and lists its pages with the
//! most recently used first. It lists at most 2^32 - 2 pages. Adding another fails as if an allocation had failed.

ghost use Rattle.std.specs.Prelude.{◌≡◌, ◌<◌, ◌≤◌, ◌+◌, ◌*◌, ◌^◌, map, All, IfOk, IfErr, IsOk, OnOk, OnErr, Ok, Err};
ghost use Rattle.sled_base.specs.Limits.{shard_count, exponent_count};
ghost use Rattle.sled_base.specs.Lru.{rounded, IsAccessed, IsListed, IsSound, IsUnused};

mod item;
mod shard;

use crate::{Error, PageId, Why};
use shard::Shard;
use std::alloc::{AllocError, Global};
use std::marker::Model;

// How many shards there are.
pub(crate) const SHARDS: u64 = 256;

/// Pages with their sizes, in each shard the most recently used first.
#[derive(Drop)]
pub struct Lru {
    capacity: u64,
    shards: Vec<Shard>,
}

impl Model for Lru {
    ghost use Rattle.std.specs.Prelude.{map};
    ghost use Rattle.sled_base.specs.Lru.{Recency};

    ghost Value = { Recency };

    ghost use Rattle.sled_base.specs.Shards.{AreShards};

    ghost view = { λ l. record { capacity = l.capacity; shards = map (λ shard. shard.listings) l.shards.items } };

    ghost invariant = { λ l. AreShards l.capacity l.shards.items };
}

impl Lru {
    /// Returns a list of recent use that has no page yet. The capacity is that of all shards together.
    ///
    /// A capacity below 256 is refused with `CapacityTooSmall`. For any other the only error is `OutOfMemory`.
    pub fn new(alloc: Global, capacity: u64) -> Result<Lru, Error>
        ensures too_small { capacity < shard_count
            → result ≡ Err (Error.Unsupported Why.CapacityTooSmall) }
        ensures refused { shard_count ≤ capacity → IfErr result (λ e. e ≡ Error.OutOfMemory) }
        ensures empty { IfOk result (IsUnused capacity) }
        ensures sound { IfOk result IsSound }
    {
        if capacity < SHARDS {
            return Err(Error::Unsupported(Why::CapacityTooSmall));
        }
        let mut shards = Vec::with_capacity(alloc, SHARDS as usize)?;
        for _ in 0..SHARDS {
            shards.push_reserved(Shard::new(alloc, capacity / SHARDS));
        }
        Ok(Lru { capacity, shards })
    }

    /// Makes a page the most recently used of its shard, with its size rounded up to a power of two, and returns the pages that it evicts.
    ///
    /// It evicts the least recently used page of the shard as long as the shard's pages together exceed its part of the capacity. It
    /// never evicts the accessed page, however large that is. The size must be at most 2^63. An error means that an allocation
    /// failed, or that the shard is full. It leaves every shard unchanged. Accessing a page that is already listed with the same
    /// rounded size allocates nothing and never fails.
    pub fn accessed(&mut self, id: PageId, size: u64) -> Result<Vec<PageId>, AllocError>
        requires { size ≤ 2 ^ 63 }
        ensures accessed { IfOk result
            (λ gone. IsAccessed id (rounded size) self.old self.new gone.items) }
        ensures err { OnErr result (self.new ≡ self.old) }
        ensures always { IsListed id (rounded size) self.old → IsOk result }
        ensures sound { IsSound self.new }
    {
        let mut gone = Vec::new(*self.shards.allocator());
        self.access(id, size, &mut gone)?;
        Ok(gone)
    }

    /// Accesses a page as [`accessed`](Lru::accessed) does, and puts the evicted pages into a vector.
    ///
    /// They replace what the vector held, and its memory is reused. An error leaves its items and every shard unchanged.
    pub fn access(
        &mut self,
        id: PageId,
        size: u64,
        gone: &mut Vec<PageId>,
    ) -> Result<(), AllocError>
        requires { size ≤ 2 ^ 63 }
        ensures accessed { OnOk result
            (IsAccessed id (rounded size) self.old self.new gone.new.items) }
        ensures err { OnErr result (self.new ≡ self.old) }
        ensures kept { OnErr result (gone.new.items ≡ gone.old.items) }
        ensures always { IsListed id (rounded size) self.old → IsOk result }
        ensures sound { IsSound self.new }
    {
        let number = id % SHARDS;
        let shard = &mut self.shards[number as usize];
        shard.accessed(id / SHARDS, exponent(size), gone)?;
        number_pages(gone, number);
        Ok(())
    }
}

/// Returns the size as a list of recent use counts it: rounded up to a power of two. The size must be at most 2^63, and so is the result.
pub fn rounded_up(size: u64) -> u64
    requires { size ≤ 2 ^ 63 }
    ensures value { result ≡ rounded size }
    ensures bound { result ≤ 2 ^ 63 }
{
    size.next_power_of_two()
}

// The exponent of the size as a list of recent use counts it.
fn exponent(size: u64) -> u32
    requires { size ≤ 2 ^ 63 }
    ensures value { 2 ^ result ≡ rounded size }
    ensures bound { result < exponent_count }
{
    rounded_up(size).ilog2()
}

// Turns places in a shard into page ids.
fn number_pages(places: &mut [u64], shard: u64)
    requires near { All (λ place. place < 2 ^ 56) places.old }
    requires shard { shard < shard_count }
    ensures { places.new ≡ map (λ place. place * shard_count + shard) places.old }
{
    for place in places.iter_mut() {
        *place = *place * SHARDS + shard;
    }
}
