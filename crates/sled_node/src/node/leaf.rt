//! Leaves: stored keys and values.

ghost use Rattle.std.specs.Prelude.{◌≡◌, ◌↔◌, ℕ, ◌-◌, ◌<◌, ◌≤◌, List, [], ◌++◌, length, take, drop, Some, IsTrue, IfOk, IfErr, OnOk, OnErr, nat_eq, slice_get};
ghost use Rattle.std.specs.Option.{SomeIff};
ghost use Rattle.std.specs.List.{AllByRecursion, HoldsAt};
ghost use Rattle.std.specs.Cmp.{partial_equiv_from_equiv};
ghost use Rattle.std.specs.Cmp.Lexicographic.{pointwise};
ghost use Rattle.sled_node.specs.Equality.{same_pairs, leaf_equiv};
ghost use Rattle.sled_node.specs.LeafStrings.{paired};
ghost use Rattle.sled_node.specs.Pairs.{IsWithinLimit, IsAscending, StandsAt, IsGap, HasPairs, set_pair, del_pair};
ghost use Rattle.sled_node.specs.Payloads.Pairs.{keys_of, items_of};
ghost use Rattle.sled_node.specs.Restoring.{restored};
ghost use Rattle.sled_node.specs.Limits.{pairs_limit};

use super::pairs::{are_ascending, are_short, is_below};
use super::{MAX_BYTES, MAX_PAIRS};
use crate::serialization::pairs::size_of_pairs;
use sled_base::IVec;
use sled_base::prefix::{fastcmp, reencode};
use sled_base::strings::Strings;
use sled_base::strings::builder::StringsBuilder;
use std::alloc::{AllocError, Global};
use std::cmp::Ordering;
use std::marker::Model;

/// Stored keys and values, with ascending keys and within the limits of a node. Contracts see the list of the pairs.
#[derive(Drop)]
pub struct Leaf {
    // all stored keys, and then all values
    strings: Strings,
}

impl Model for Leaf {
    ghost use Rattle.std.specs.Prelude.{List, ℕ};
    ghost use Rattle.sled_node.specs.LeafStrings.{paired, IsLeaf};

    ghost Value = { List (List ℕ × List ℕ) };

    ghost view = { λ leaf. paired leaf.strings };

    ghost invariant = { λ leaf. IsLeaf leaf.strings };
}

impl Leaf {
    /// Returns a leaf without pairs. It allocates nothing.
    pub fn default(alloc: Global) -> Leaf
        ensures { result ≡ [] }
    {
        Leaf {
            strings: Strings::new(alloc),
        }
    }

    /// Makes a leaf of these pairs, or returns None if a key isn't above the one before it, a key or a value is longer than
    /// [`MAX_BYTES`], or there are more than [`MAX_PAIRS`].
    /// An error means that an allocation failed.
    pub fn from_pairs(alloc: Global, pairs: Vec<(IVec, IVec)>) -> Result<Option<Leaf>, AllocError>
        ensures value { IfOk result
            (λ leaf. SomeIff leaf (HasPairs IsWithinLimit pairs.items) pairs.items) }
    {
        if pairs.len() > MAX_PAIRS
            || !are_ascending(&pairs)
            || !are_short(&pairs)
            || !have_short_values(&pairs)
        {
            return Ok(None);
        }
        Ok(Some(Leaf::of_pairs(alloc, &pairs)?))
    }

    // A leaf of pairs that have what every leaf keeps.
    fn of_pairs(alloc: Global, pairs: &[(IVec, IVec)]) -> Result<Leaf, AllocError>
        requires { HasPairs IsWithinLimit pairs.now }
        ensures { IfOk result (λ leaf. leaf ≡ pairs.now) }
    {
        let room = size_of_pairs(pairs) as usize;
        let mut strings = StringsBuilder::with_room(alloc, 2 * pairs.len(), room)?;
        push_keys(&mut strings, pairs)?;
        push_values(&mut strings, pairs)?;
        Ok(Leaf {
            strings: strings.build(),
        })
    }

    /// Returns the number of pairs.
    pub fn len(&self) -> usize
        ensures { result ≡ length self.now }
    {
        self.strings.len() / 2
    }

    /// Returns whether there are no pairs.
    pub fn is_empty(&self) -> bool
        ensures { IsTrue result ↔ (self.now ≡ []) }
    {
        self.strings.len() == 0
    }

    /// Returns the stored key and the value of the pair at place `i`, which must be below [`len`](Leaf::len).
    ///
    /// The first pair is at place 0, and the keys ascend. A stored key lacks the first bytes of its node's `lo`.
    #[inline(always)]
    pub fn pair(&self, i: usize) -> (&[u8], &[u8])
        requires { i < length self.now }
        ensures { slice_get self.now i ≡ Some (result.0.now, result.1.now) }
    {
        (
            self.strings.get(i),
            self.strings.get_next(self.len() + i - 1),
        )
    }

    // All stored keys, and then all values, with what every leaf keeps.
    pub(super) fn strings(&self) -> &Strings
        ensures value { result.now ≡ keys_of self.now ++ items_of self.now }
        ensures stored { HasPairs IsWithinLimit self.now }
    {
        &self.strings
    }

    // A leaf of all stored keys and then all values, or none where they don't have what every leaf keeps.
    pub(super) fn of_strings(strings: Strings) -> Option<Leaf>
        requires { keys_of (paired strings) ++ items_of (paired strings) ≡ strings }
        ensures { SomeIff result (HasPairs IsWithinLimit (paired strings)) (paired strings) }
    {
        if pairs_in(&strings) > MAX_PAIRS
            || !are_rising(&strings)
            || !have_short_strings(&strings)
        {
            return None;
        }
        Some(Leaf { strings })
    }

    // Where the key stands, or else where it would.
    pub(super) fn place_of_key(&self, key: &[u8]) -> Result<usize, usize>
        ensures found { IfOk result (StandsAt self.now key.now) }
        ensures same { IfOk result (HoldsAt (λ pair. pair.0 ≡ key.now) self.now) }
        ensures missing { IfErr result (IsGap self.now key.now) }
    {
        let mut low = 0;
        let mut high = self.len();
        while low < high {
            let middle = low + (high - low) / 2;
            match fastcmp(self.strings.get(middle), key) {
                Ordering::Less => low = middle + 1,
                Ordering::Equal => return Ok(middle),
                Ordering::Greater => high = middle,
            }
        }
        Err(low)
    }

    // The pairs from one place to another, with stored keys that lack so many bytes in place of those of `front`.
    pub(super) fn restored(
        &self,
        from: usize,
        to: usize,
        front: &[u8],
        skipped: usize,
    ) -> Result<Leaf, AllocError>
        requires order { from ≤ to }
        requires within { to ≤ length self.now }
        requires stored { HasPairs IsWithinLimit (restored front.now skipped (take (to - from) (drop from self.now))) }
        ensures { IfOk result (λ leaf. leaf ≡ restored front.now skipped (take (to - from) (drop from self.now))) }
    {
        let room = self.room_for(from, to, front.len().saturating_sub(skipped));
        let mut strings = StringsBuilder::with_room(self.allocator(), 2 * (to - from), room)?;
        self.push_keys(&mut strings, from, to, front, skipped)?;
        self.push_values(&mut strings, from, to)?;
        Ok(Leaf {
            strings: strings.build(),
        })
    }

    // The pairs of both, with stored keys that lack so many bytes in place of those of the prefixes.
    pub(super) fn joined(
        &self,
        front: &[u8],
        right: &Leaf,
        right_front: &[u8],
        skipped: usize,
    ) -> Result<Leaf, AllocError>
        requires { HasPairs IsWithinLimit (restored front.now skipped self.now
            ++ restored right_front.now skipped right.now) }
        ensures { IfOk result (λ leaf. leaf ≡ restored front.now skipped self.now
            ++ restored right_front.now skipped right.now) }
    {
        let count = self.strings.len() + right.strings.len();
        let room = self.strings.written().len() + right.strings.written().len();
        let mut strings = StringsBuilder::with_room(self.allocator(), count, room)?;
        self.push_keys(&mut strings, 0, self.len(), front, skipped)?;
        right.push_keys(&mut strings, 0, right.len(), right_front, skipped)?;
        self.push_values(&mut strings, 0, self.len())?;
        right.push_values(&mut strings, 0, right.len())?;
        Ok(Leaf {
            strings: strings.build(),
        })
    }

    // Room for the pairs from one place to another as they are written, where each length has a byte and each stored key so many bytes more.
    fn room_for(&self, from: usize, to: usize, more: usize) -> usize
        requires { to ≤ length self.now }
    {
        let mut room = 0_usize;
        for i in from..to {
            let (key, value) = self.pair(i);
            let pair = key.len().saturating_add(value.len());
            room = room
                .saturating_add(pair)
                .saturating_add(more)
                .saturating_add(2);
        }
        room
    }

    // Puts the stored keys of the pairs from one place to another behind other strings, as `restored` says.
    fn push_keys(
        &self,
        strings: &mut StringsBuilder,
        from: usize,
        to: usize,
        front: &[u8],
        skipped: usize,
    ) -> Result<(), AllocError>
        requires order { from ≤ to }
        requires within { to ≤ length self.now }
        requires short { AllByRecursion (λ pair. IsWithinLimit pair.0)
            (restored front.now skipped (take (to - from) (drop from self.now))) }
        ensures { OnOk result (strings.new ≡ strings.old ++ keys_of
            (restored front.now skipped (take (to - from) (drop from self.now)))) }
    {
        for i in from..to {
            let (stored, _) = self.pair(i);
            let key = reencode(self.allocator(), front, stored, skipped)?;
            strings.push(key.as_slice())?;
        }
        Ok(())
    }

    // Puts the values of the pairs from one place to another behind other strings.
    fn push_values(
        &self,
        strings: &mut StringsBuilder,
        from: usize,
        to: usize,
    ) -> Result<(), AllocError>
        requires order { from ≤ to }
        requires within { to ≤ length self.now }
        ensures { OnOk result (strings.new ≡ strings.old
            ++ items_of (take (to - from) (drop from self.now))) }
    {
        let _ = self.strings();
        for i in from..to {
            let (_, value) = self.pair(i);
            strings.push(value)?;
        }
        Ok(())
    }

    // Whether there is room for a pair with this key.
    pub(super) fn has_room(&self, key: &[u8]) -> bool
        ensures { IsTrue result ↔ (length (set_pair key.now [] self.now) ≤ pairs_limit) }
    {
        let _ = self.strings();
        self.len() < MAX_PAIRS || self.place_of_key(key).is_ok()
    }

    // What the memory of its pairs comes from.
    pub(super) fn allocator(&self) -> Global {
        self.strings.allocator()
    }

    pub(super) fn set(&mut self, key: &[u8], value: &[u8]) -> Result<(), AllocError>
        requires key { IsWithinLimit key.now }
        requires value { IsWithinLimit value.now }
        requires room { length (set_pair key.now value.now self.old) ≤ pairs_limit }
        ensures ok { OnOk result (self.new ≡ set_pair key.now value.now self.old) }
        ensures err { OnErr result (self.new ≡ self.old) }
    {
        let count = self.len();
        match self.place_of_key(key) {
            Ok(at) => self.strings.replace(count + at, value),
            Err(at) => self.strings.insert_both(at, key, count + at, value),
        }
    }

    pub(super) fn del(&mut self, key: &[u8])
        ensures { self.new ≡ del_pair key.now self.old }
    {
        if let Ok(at) = self.place_of_key(key) {
            let count = self.len();
            self.strings.remove_both(at, count + at);
        }
    }
}

impl Clone for Leaf {
    ghost use Rattle.std.specs.Prelude.{◌≡◌};

    ghost is_clone = { λ v w. w ≡ v };

    /// Copies the pairs. An error means that an allocation failed.
    fn clone(&self) -> Result<Leaf, AllocError> {
        Ok(Leaf {
            strings: self.strings.clone()?,
        })
    }
}

impl PartialEq for Leaf {
    ghost eq = { same_pairs (pointwise nat_eq) };

    ghost laws = { partial_equiv_from_equiv leaf_equiv };

    fn eq(&self, other: &Leaf) -> bool {
        self.strings.is_same(&other.strings)
    }
}

impl Eq for Leaf {
    ghost laws = { leaf_equiv };
}

// Whether each value is within the limit.
fn have_short_values(pairs: &[(IVec, IVec)]) -> bool
    ensures { IsTrue result ↔ AllByRecursion (λ pair. IsWithinLimit pair.1) pairs.now }
{
    for pair in pairs {
        if pair.1.len() > MAX_BYTES {
            return false;
        }
    }
    true
}

// Puts the keys of pairs behind other strings.
fn push_keys(strings: &mut StringsBuilder, pairs: &[(IVec, IVec)]) -> Result<(), AllocError>
    requires { AllByRecursion (λ pair. IsWithinLimit pair.0) pairs.now }
    ensures { OnOk result (strings.new ≡ strings.old ++ keys_of pairs.now) }
{
    for pair in pairs {
        strings.push(pair.0.as_slice())?;
    }
    Ok(())
}

// Puts the values of pairs behind other strings.
fn push_values(strings: &mut StringsBuilder, pairs: &[(IVec, IVec)]) -> Result<(), AllocError>
    requires { AllByRecursion (λ pair. IsWithinLimit pair.1) pairs.now }
    ensures { OnOk result (strings.new ≡ strings.old ++ items_of pairs.now) }
{
    for pair in pairs {
        strings.push(pair.1.as_slice())?;
    }
    Ok(())
}

// How many pairs these are, of which all keys come first.
fn pairs_in(strings: &Strings) -> usize
    requires { keys_of (paired strings.now) ++ items_of (paired strings.now) ≡ strings.now }
    ensures { result ≡ length (paired strings.now) }
{
    strings.len() / 2
}

// Whether each key and each value is within the limit.
fn have_short_strings(strings: &Strings) -> bool
    requires { keys_of (paired strings.now) ++ items_of (paired strings.now) ≡ strings.now }
    ensures { IsTrue result ↔ (AllByRecursion (λ pair. IsWithinLimit pair.0) (paired strings.now)
        × AllByRecursion (λ pair. IsWithinLimit pair.1) (paired strings.now)) }
{
    are_all_short(strings)
}

// Whether each key, of which these strings begin with as many as values follow, is below the next.
fn are_rising(strings: &Strings) -> bool
    requires { keys_of (paired strings.now) ++ items_of (paired strings.now) ≡ strings.now }
    ensures { IsTrue result ↔ IsAscending (paired strings.now) }
{
    let count = pairs_in(strings);
    if count == 0 {
        return true;
    }
    let mut last = strings.get(0);
    for i in 1..count {
        let key = strings.get(i);
        if !is_below(last, key) {
            return false;
        }
        last = key;
    }
    true
}

// Whether each string is within the limit. None is longer than all of them together are as they are written.
fn are_all_short(strings: &Strings) -> bool
    ensures { IsTrue result ↔ AllByRecursion IsWithinLimit strings.now }
{
    if strings.written().len() <= MAX_BYTES {
        return true;
    }
    for i in 0..strings.len() {
        if strings.get(i).len() > MAX_BYTES {
            return false;
        }
    }
    true
}
