//! An item of a shard's list: a place and its size in one number.
//!
//! A size is a power of two, so its exponent is enough. The number is place * 64 + exponent.

ghost use Rattle.std.specs.Prelude.{◌≡◌, ◌<◌, ◌^◌};
ghost use Rattle.sled_base.specs.Limits.{exponent_count};
ghost use Rattle.sled_base.specs.Shards.{item_of, place_in, size_in};

// Each exponent is below it.
const EXPONENTS: u64 = 64;

/// Returns the item of a place that has 2^exponent as its size. The place must be below 2^56, and the exponent below 64.
pub fn packed(place: u64, exponent: u32) -> u64
    requires near { place < 2 ^ 56 }
    requires power { exponent < exponent_count }
    ensures { result ≡ item_of place exponent }
{
    place * EXPONENTS + u64::from(exponent)
}

/// Returns the place of an item.
pub fn place(item: u64) -> u64
    ensures { result ≡ place_in item }
{
    item / EXPONENTS
}

/// Returns the size of an item.
pub fn size(item: u64) -> u64
    ensures { result ≡ size_in item }
{
    1 << (item % EXPONENTS)
}
