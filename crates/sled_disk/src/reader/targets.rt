//! Places that are still to be reached.

ghost use Rattle.std.specs.BinaryHeap.{IsHeap, heap_items};
ghost use Rattle.std.specs.List.{AllByRecursion, list_all};
ghost use Rattle.std.specs.Ordering.{nat_cmp};
ghost use Rattle.std.specs.Prelude.{◌≡◌, ◌<◌, ◌==◌, ◌&&◌, ℕ, Bool, true, false, List, [], length, map, OnOk, OnErr};

use std::alloc::{AllocError, Global};
use std::cmp::Reverse;
use std::collections::BinaryHeap;
use std::marker::Model;

/// Places of a file that were named and are still to be reached, in no order.
#[derive(Drop)]
pub(crate) struct Targets {
    heap: BinaryHeap<Reverse<u64>>,
}

impl Model for Targets {
    ghost Value = { List ℕ };

    ghost view = { λ targets. map (λ target. target.0) (heap_items targets.heap) };

    ghost invariant = { λ targets. IsHeap (λ x y. nat_cmp y.0 x.0) (heap_items targets.heap) };
}

impl Targets {
    /// Returns no places.
    pub(crate) fn new(alloc: Global) -> Targets
        ensures { result ≡ [] }
    {
        Targets {
            heap: BinaryHeap::new(alloc),
        }
    }

    /// Returns whether every place was reached.
    pub(crate) fn is_empty(&self) -> bool
        ensures { result ≡ (length self.now == 0) }
    {
        self.heap.is_empty()
    }

    // Whether it is the nearest place, so that naming it again says nothing.
    fn is_nearest(&self, target: u64) -> bool
        ensures { result ≡ true → (test : ℕ → Bool)
            → list_all test self.now ≡ (test target && list_all test self.now) }
    {
        match self.heap.peek() {
            Some(Reverse(nearest)) => *nearest == target,
            None => false,
        }
    }

    /// Names a place. If consecutive marks name the nearest place, they take the room of one. AllocError: an allocation failed, and the
    /// places are unchanged.
    pub(crate) fn push(&mut self, target: u64) -> Result<(), AllocError>
        ensures named { OnOk result ((test : ℕ → Bool)
            → list_all test self.new ≡ (test target && list_all test self.old)) }
        ensures kept { OnErr result (self.new ≡ self.old) }
    {
        if !self.is_nearest(target) {
            self.heap.push(Reverse(target))?;
        }
        Ok(())
    }

    /// Removes a place that is reached now, and returns whether all others are after it.
    pub(crate) fn reach(&mut self, at: u64) -> bool
        ensures reached { (test : ℕ → Bool) → test at ≡ true
            → list_all test self.new ≡ list_all test self.old }
        ensures behind { result ≡ true → AllByRecursion (λ target. at < target) self.new }
        ensures missed { result ≡ false → (test : ℕ → Bool)
            → ((target : ℕ) → target < at → test target ≡ false) → list_all test self.new ≡ false }
    {
        while let Some(Reverse(target)) = self.heap.peek() {
            if *target != at {
                return at < *target;
            }
            let _ = self.heap.pop();
        }
        true
    }
}
