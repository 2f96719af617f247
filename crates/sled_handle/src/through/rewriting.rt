//! Rewriting a cache into another log, which is no larger than its pages need.

ghost use Rattle.std.specs.Prelude.{◌≡◌, ⊤};
ghost use Rattle.sled_handle.specs.Handles.{InMemory, ThroughStore};
ghost use Rattle.sled_handle.specs.Rewriting.{Compacts, Rewrites, stored};

use crate::calls::rewriting as calls;
use crate::file::{has_failed, told};
use crate::settings::Settings;
use crate::status::{ALREADY_OPEN, CLOSED, NOT_OVER_FILE, OK, WRITE, status_of};
use crate::store::Store;
use sled_disk::CallersFile;
use sled_pagecache::{Log, PageCache};
use std::alloc::Global;

/// Writes the pages of a cache to the new log of a file, of another caller or of the same, and makes them durable there. The cache stays as it is. If
/// the rewrite fails, the other store is dropped.
///
/// Returns `ALREADY_OPEN` if the other store has a cache, and `CLOSED` if there is no other store, or if it has no new log. Then both stay as they
/// are, and so they do at `WRITE` if a write or a sync of the cache's own file had failed before.
pub fn rewrite<F: CallersFile, G: CallersFile>(
    store: &mut Store<F>,
    into: &mut Option<Box<Store<G>>>,
) -> u32
    ensures { ThroughStore store.old store.new result (stored into.new ≡ stored into.old)
        (λ _ g old new status. Rewrites g old new (stored into.old) (stored into.new) status) }
{
    through!(store, cache => rewrite_into(cache, into))
}

// Writes the pages of a cache to the log of a store.
fn rewrite_into<L: Log, G: CallersFile>(
    cache: &mut PageCache<L>,
    into: &mut Option<Box<Store<G>>>,
) -> u32
    ensures { Rewrites L.Log cache.old cache.new (stored into.old) (stored into.new) result }
{
    let Some(mut store) = into.take() else {
        return CLOSED;
    };
    let status = match &mut *store {
        Store::Begun(opening) => match opening.take_new_log() {
            Some(log) => match cache.rewrite_into(log) {
                Ok(log) => {
                    opening.put_log(log);
                    OK
                }
                Err((error, _)) => return status_of(&error),
            },
            None => CLOSED,
        },
        _ => ALREADY_OPEN,
    };
    *into = Some(store);
    status
}

/// Rewrites a cache in memory into a new log, and replaces it with a cache that is opened over that log. The settings are checked first. If a step
/// fails, the cache continues as it was.
pub fn compact<F: CallersFile>(alloc: Global, store: &mut Store<F>, settings: Settings) -> u32
    ensures { InMemory store.old store.new result ⊤
        (λ old new status. Compacts settings old new status) }
{
    in_memory!(store, cache => calls::compact(alloc, cache, settings))
}
