//! The accesses to pages.

ghost use Rattle.std.specs.Prelude.{◌≡◌, ◌≤◌, ◌+◌, ◌-◌, ◌^◌, min, None, Some, IsOk, OnOk, IfErr, OnErr, IsSomeAnd, MatchOption};
ghost use Rattle.sled_base.specs.Lru.{IsAccessed, IsListed, IsSound, rounded};
ghost use Rattle.sled_base.specs.declared.types.Refusal.TheVariants as refusal;
ghost use Rattle.sled_log.specs.Limits.{head_size};
ghost use Rattle.sled_pagecache.specs.Inside.PageEntry.{WasAccessed, capped_size};

use sled_base::{Lru, PageId, Refusal};
use std::alloc::{AllocError, Global};
use std::marker::Model;

// The bytes that a message takes beside its payload.
const MAX_MSG_HEADER_LEN: u64 = 17;

// No page is accessed with more.
const MAX_SIZE: u64 = 1 << 63;

/// The list of recently used pages and, once a page was accessed in the current call, the ids that the list dropped for it.
#[derive(Drop)]
pub(crate) struct Accesses {
    pub(crate) lru: Lru,
    pub(crate) dropped: Dropped,
}

/// The ids that the list dropped in the current call, if a page was accessed. The memory of the list of ids is reused.
///
/// Contracts see the ids, if a page was accessed.
#[derive(Drop)]
pub(crate) struct Dropped {
    ids: Vec<PageId>,
    is_known: bool,
}

impl Model for Dropped {
    ghost use Rattle.std.specs.Prelude.{List, ℕ, Option, None, Some, if◌then◌else◌};

    ghost Value = { Option (List ℕ) };

    ghost view = { λ dropped. if dropped.is_known then Some dropped.ids.items else None };
}

impl Dropped {
    // No page was accessed. It takes no memory.
    pub(crate) fn none(alloc: Global) -> Dropped
        ensures { result ≡ None }
    {
        Dropped {
            ids: Vec::new(alloc),
            is_known: false,
        }
    }

    // The ids, if a page was accessed.
    pub(crate) fn ids(&self) -> Option<&[PageId]>
        ensures { MatchOption result (self.now ≡ None) (λ ids. self.now ≡ Some ids.now) }
    {
        if self.is_known { Some(&self.ids) } else { None }
    }

    // Lets go of the ids.
    pub(crate) fn forget(&mut self)
        ensures { self.new ≡ None }
    {
        self.is_known = false;
    }

    // Accesses a page with that size, and keeps the ids that the list drops for it. A refusal leaves both.
    fn access(&mut self, lru: &mut Lru, pid: PageId, size: u64) -> Result<(), AllocError>
        requires { size ≤ 2 ^ 63 }
        ensures accessed { OnOk result
            (IsSomeAnd self.new (λ ids. IsAccessed pid (rounded size) lru.old lru.new ids)) }
        ensures sound { IsSound lru.new }
        ensures err { OnErr result (self.new ≡ self.old) }
        ensures left { OnErr result (lru.new ≡ lru.old) }
        ensures always { IsListed pid (rounded size) lru.old → IsOk result }
    {
        lru.access(pid, size, &mut self.ids)?;
        self.is_known = true;
        Ok(())
    }
}

impl Accesses {
    // Accesses a page whose messages take so much of the log. A refusal leaves both.
    pub(crate) fn access(&mut self, pid: PageId, size: u64) -> Result<(), Refusal>
        ensures accessed { OnOk result (WasAccessed self.old pid (capped_size size) self.new) }
        ensures err { OnErr result (self.new ≡ self.old) }
        ensures refused { IfErr result (λ why. why ≡ refusal.OutOfMemory) }
        ensures always { IsListed pid (rounded (capped_size size)) self.old.lru → IsOk result }
    {
        match self.dropped.access(&mut self.lru, pid, size.min(MAX_SIZE)) {
            Ok(()) => Ok(()),
            Err(_) => Err(Refusal::OutOfMemory),
        }
    }
}

// How much of the log the messages of a page take with one more of such a payload, where the others take so much; or `u64::MAX`
// where it is no less.
pub(crate) fn size_with(before: u64, payload: u64) -> u64
    ensures { result ≡ min (before + head_size + payload) (2 ^ 64 - 1) }
{
    before
        .saturating_add(MAX_MSG_HEADER_LEN)
        .saturating_add(payload)
}
