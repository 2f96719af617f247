//! Searches in sorted slices of items with keys.

ghost use Rattle.std.specs.Prelude.{◌≡◌, ◌≢◌, ◌↔◌, ◌≤◌, length, map, All, IsTrue, IfSome, IfNone, IfOk, IfErr, OnErr};
ghost use Rattle.sled_base.specs.Order.{IsBelow};
ghost use Rattle.sled_base.specs.Searches.{IsSorted, IsCountAtMost, IsLastAtMost, IsLastEqual, count_below};

use crate::ivec::IVec;
use crate::prefix::fastcmp;

/// A type that is sorted and searched by a key: a key itself, or a pair of a key and what belongs to it.
pub trait Keyed {
    ghost use Rattle.std.specs.Prelude.{List, ℕ};

    ghost key_of: { Self → List ℕ };

    /// Borrows the bytes of the key.
    fn key(&self) -> &[u8]
        ensures { result.now ≡ key_of self.now };
}

impl Keyed for IVec {
    ghost key_of = { λ key. key };

    fn key(&self) -> &[u8] {
        self.as_slice()
    }
}

impl<V> Keyed for (IVec, V) {
    ghost key_of = { λ pair. pair.0 };

    fn key(&self) -> &[u8] {
        self.0.as_slice()
    }
}

/// Returns whether the keys of the items ascend, so that the items can be searched. Keys may be equal.
///
/// It compares each key with the next, and allocates nothing.
pub fn is_sorted<T: Keyed>(items: &[T]) -> bool
    ensures { IsTrue result ↔ IsSorted (map T.key_of items.now) }
{
    items.is_sorted_by(|key, next| fastcmp(key.key(), next.key()).is_le())
}

/// Returns how many items aren't above the key, by binary search. They come before those that are.
///
/// The keys of the items must ascend, as [`is_sorted`] tests, and may be equal.
pub fn count_at_most<T: Keyed>(key: &[u8], items: &[T]) -> usize
    requires { IsSorted (map T.key_of items.now) }
    ensures bound { result ≤ length items.now }
    ensures parted { IsCountAtMost key.now (map T.key_of items.now) result }
{
    items.partition_point(|item| fastcmp(item.key(), key).is_le())
}

/// Returns the greatest index whose item isn't above the key, or None if every item is above it.
///
/// The keys of the items must ascend, as [`is_sorted`] tests, and may be equal.
pub fn last_at_most<T: Keyed>(key: &[u8], items: &[T]) -> Option<usize>
    requires { IsSorted (map T.key_of items.now) }
    ensures found { IfSome result (IsLastAtMost key.now (map T.key_of items.now)) }
    ensures none { IfNone result (All (IsBelow key.now) (map T.key_of items.now)) }
{
    count_at_most(key, items).checked_sub(1)
}

/// Returns the greatest index whose item equals the key. If none does, the error is the number of items below the key.
///
/// The keys of the items must ascend, as [`is_sorted`] tests, and may be equal.
pub fn last_equal<T: Keyed>(key: &[u8], items: &[T]) -> Result<usize, usize>
    requires { IsSorted (map T.key_of items.now) }
    ensures found { IfOk result (IsLastEqual key.now (map T.key_of items.now)) }
    ensures missing { OnErr result (All (λ other. other ≢ key.now) (map T.key_of items.now)) }
    ensures below { IfErr result (λ n. n ≡ count_below key.now (map T.key_of items.now)) }
{
    let count = count_at_most(key, items);
    match count.checked_sub(1) {
        Some(last) if items[last].key() == key => Ok(last),
        _ => Err(count),
    }
}
