//! Keys without the prefix that they share, and searches in sorted slices of keys.

ghost use Rattle.std.specs.Prelude.{◌≡◌, ◌≢◌, ◌↔◌, ◌+◌, ◌≤◌, ◌++◌, [], length, take, drop, All, IsTrue, IfOk, IfErr, IfSome, IfNone, IsOk, OnErr};
ghost use Rattle.sled_base.specs.Limits.{inline_limit};
ghost use Rattle.sled_base.specs.Order.{bytes_cmp, IsBelow};
ghost use Rattle.sled_base.specs.Searches.{IsSorted, IsCountAtMost, IsLastAtMost, IsLastEqual, count_below};

use crate::ivec::{CUTOFF, IVec};
use crate::search::{last_at_most, last_equal};
use crate::strings::Strings;
use std::alloc::{AllocError, Global};
use std::cmp::Ordering;

/// Returns the empty byte string. It allocates nothing.
pub fn empty() -> IVec
    ensures { result ≡ [] }
{
    IVec::default()
}

/// Returns the whole key: the prefix, followed by the key that is stored without it.
///
/// Up to [`CUTOFF`] bytes in total need no allocation. An error means that an allocation failed.
pub fn decode(alloc: Global, prefix: &[u8], key: &[u8]) -> Result<IVec, AllocError>
    ensures ok { IfOk result (λ whole. whole ≡ prefix.now ++ key.now) }
    ensures few { length (prefix.now ++ key.now) ≤ inline_limit → IsOk result }
{
    let len = prefix.len() + key.len();
    if len <= CUTOFF {
        return decode_few(alloc, prefix, key);
    }
    let mut whole = Vec::with_capacity(alloc, len)?;
    whole.extend_from_slice(prefix)?;
    whole.extend_from_slice(key)?;
    IVec::from_vec(alloc, whole)
}

// The same for so few bytes that they need no allocation.
fn decode_few(alloc: Global, prefix: &[u8], key: &[u8]) -> Result<IVec, AllocError>
    requires { length prefix.now + length key.now ≤ inline_limit }
    ensures ok { IfOk result (λ whole. whole ≡ prefix.now ++ key.now) }
    ensures few { IsOk result }
{
    let len = prefix.len() + key.len();
    let mut whole = [0u8; CUTOFF];
    whole[..prefix.len()].copy_from_slice(prefix);
    whole[prefix.len()..len].copy_from_slice(key);
    IVec::from_slice(alloc, &whole[..len])
}

/// Returns the whole key, the prefix followed by `key`, without its first `n` bytes. It is empty if there are fewer.
///
/// So it is stored under a prefix of `n` bytes. Up to [`CUTOFF`] bytes need no allocation. An error means that an allocation failed.
pub fn reencode(alloc: Global, prefix: &[u8], key: &[u8], n: usize) -> Result<IVec, AllocError>
    ensures ok { IfOk result (λ rest. rest ≡ drop n (prefix.now ++ key.now)) }
    ensures few { length (drop n (prefix.now ++ key.now)) ≤ inline_limit → IsOk result }
{
    let front = n.min(prefix.len());
    let back = (n - front).min(key.len());
    decode(alloc, &prefix[front..], &key[back..])
}

/// Compares two byte strings: the first byte that differs decides, and otherwise the shorter one is less.
pub fn fastcmp(l: &[u8], r: &[u8]) -> Ordering
    ensures { result ≡ bytes_cmp l.now r.now }
{
    l.cmp(&r)
}

/// Returns the greatest index whose item equals the key. If none does, the error is the number of items below the key.
///
/// The items must ascend, as [`is_sorted`](crate::search::is_sorted) tests, and may be equal. It allocates nothing.
pub fn binary_search(key: &[u8], s: &[IVec]) -> Result<usize, usize>
    requires { IsSorted s.now }
    ensures found { IfOk result (IsLastEqual key.now s.now) }
    ensures missing { OnErr result (All (λ item. item ≢ key.now) s.now) }
    ensures below { IfErr result (λ n. n ≡ count_below key.now s.now) }
{
    last_equal(key, s)
}

/// Returns the greatest index whose item isn't above the key, or None if every item is above it.
///
/// The items must ascend, as [`is_sorted`](crate::search::is_sorted) tests, and may be equal. It allocates nothing.
pub fn binary_search_lub(key: &[u8], s: &[IVec]) -> Option<usize>
    requires { IsSorted s.now }
    ensures found { IfSome result (IsLastAtMost key.now s.now) }
    ensures none { IfNone result (All (IsBelow key.now) s.now) }
{
    last_at_most(key, s)
}

/// Searches the first `count` strings in one buffer as [`binary_search`] does. The buffer must hold at least `count` strings.
///
/// They must ascend, as [`spans_are_sorted`] tests, and may be equal. It allocates nothing.
pub fn search_spans(key: &[u8], strings: &Strings, count: usize) -> Result<usize, usize>
    requires within { count ≤ length strings.now }
    requires sorted { IsSorted (take count strings.now) }
    ensures found { IfOk result (IsLastEqual key.now (take count strings.now)) }
    ensures missing { OnErr result (All (λ item. item ≢ key.now) (take count strings.now)) }
    ensures below { IfErr result (λ n. n ≡ count_below key.now (take count strings.now)) }
{
    let most = count_up_to(key, strings, count);
    match most.checked_sub(1) {
        Some(last) if strings.get(last) == key => Ok(last),
        _ => Err(most),
    }
}

/// Returns whether the first `count` strings in one buffer ascend. They may be equal. The buffer must hold at least `count` strings.
///
/// It compares each string with the next, and allocates nothing.
pub fn spans_are_sorted(strings: &Strings, count: usize) -> bool
    requires { count ≤ length strings.now }
    ensures { IsTrue result ↔ IsSorted (take count strings.now) }
{
    for i in 1..count {
        if !fastcmp(strings.get(i - 1), strings.get(i)).is_le() {
            return false;
        }
    }
    true
}

// How many of the first strings aren't above the key, found by halving.
fn count_up_to(key: &[u8], strings: &Strings, count: usize) -> usize
    requires within { count ≤ length strings.now }
    requires sorted { IsSorted (take count strings.now) }
    ensures bound { result ≤ count }
    ensures parted { IsCountAtMost key.now (take count strings.now) result }
{
    let mut low = 0;
    let mut high = count;
    while low < high {
        let middle = low + (high - low) / 2;
        if fastcmp(strings.get(middle), key).is_le() {
            low = middle + 1;
        } else {
            high = middle;
        }
    }
    low
}
