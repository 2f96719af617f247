//! Batches, and the guard of one.

ghost use Rattle.std.specs.Prelude.{◌≡◌, true, Ok, Err, IfOk, IfErr, OnOk, OnErr, Result};
ghost use Rattle.std.specs.Borrow.{sem};
ghost use Rattle.sled_base.specs.declared.types.Error.{Error};
ghost use Rattle.sled_pagecache.specs.Batches.{OpensBatch, SealsBatch, CancelsBatch};
ghost use Rattle.sled_pagecache.specs.Batches.{cache_lent, RestsIfRefused, LendsCache};

use crate::pagecache::calls::PageCache;
use sled_base::Error;
use sled_log::Log;

/// An open batch. Once it is sealed, the changes that were made to the cache since it was opened are all or nothing after a crash.
///
/// The guard borrows the cache mutably. It must be consumed by `seal_batch`, `cancel` or `settle`: the compiler refuses a program that
/// drops it.
///
/// Inside a batch `flush`, `rewrite_into`, a second `pin_log` or `pin`, and an id that needs a new counter fail with `BatchOpen`.
/// Everything else works as outside.
#[must_use]
pub struct RecoveryGuard<'a, L: Log> {
    cache: &'a mut PageCache<L>,
}

impl<L: Log> PageCache<L> {
    /// Opens a batch, and returns its guard.
    ///
    /// It fails with `BatchOpen` if a batch is open, and with `LogFull` if the log has no room for its marks. These and `OutOfMemory` open
    /// no batch, and leave every page and message unchanged. A write error is sticky: every later call returns it until the log is
    /// reopened.
    pub fn pin_log(&mut self) -> Result<RecoveryGuard<'_, L>, Error>
        ensures* refused { sem 𝓛 (RestsIfRefused L.row L.Log self.entry result) }
        ensures same_reference { IfOk result
            (λ guard. (cache_lent guard).ghost_name ≡ self.entry.ghost_name) }
        ensures pinned { IfOk result
            (λ guard. OpensBatch L.Log self.old (Ok tt) (cache_lent guard).now) }
    {
        self.pin()?;
        Ok(RecoveryGuard { cache: self })
    }
}

impl<'a, L: Log> RecoveryGuard<'a, L> {
    /// Borrows the cache on which `pin_log` was called. Changes made through this reference belong to the batch. It can't fail.
    pub fn cache(&mut self) -> &mut PageCache<L>
        ensures* lends { sem 𝓛 (LendsCache L.row L.Log self.entry result) }
        ensures value { result.now ≡ (cache_lent self.old).now }
    {
        &mut *self.cache
    }

    /// Closes the batch and makes it atomic: a crash leaves all of it or nothing, and all of it once a flush has returned Ok.
    ///
    /// It allocates nothing, and fails only with a write error, which is sticky. The batch is closed even then. After an earlier write
    /// error it doesn't call the log.
    pub fn seal_batch(self) -> Result<(), Error>
        requires { (cache_lent self).now.batch ≡ true }
        ensures { SealsBatch L.Log (cache_lent self.entry).now result self.exit.0.now }
    {
        let RecoveryGuard { cache } = self;
        cache.seal()
    }

    /// Closes the batch without making it atomic: a crash may leave a part of it. Its changes stay in the cache: nothing is undone.
    ///
    /// It allocates nothing, and fails only with a write error, which is sticky. The batch is closed even then. After an earlier write
    /// error it doesn't call the log.
    pub fn cancel(self) -> Result<(), Error>
        requires { (cache_lent self).now.batch ≡ true }
        ensures { CancelsBatch L.Log (cache_lent self.entry).now result self.exit.0.now }
    {
        let RecoveryGuard { cache } = self;
        cache.cancel()
    }

    /// Seals the batch if its changes succeeded, cancels it otherwise, and returns their result. If sealing fails, that error is returned,
    /// converted by `From`. The result of cancelling is ignored.
    ///
    /// The changes are a function of the cache, in which `?` can be used: `let done = change(guard.cache()); guard.settle(done)`. Its error
    /// is the cache's error, or the caller's own type that is made from it, so that an error of the caller's own cancels the batch too.
    pub fn settle<T: Drop, E: From<Error>>(self, outcome: Result<T, E>) -> Result<T, E>
        requires { (cache_lent self).now.batch ≡ true }
        ensures sealed { IfOk outcome (λ x. IfOk result (λ y. (y ≡ x)
            × SealsBatch L.Log (cache_lent self.entry).now (Ok tt) self.exit.0.now)) }
        ensures stuck { OnOk outcome (IfErr result (λ answer. (e : Error) × E.from_gives e answer
            × (let failed : Result (Unit {0}) Error = Err e in SealsBatch L.Log (cache_lent
            self.entry).now failed self.exit.0.now))) }
        ensures cancelled { OnErr outcome ((result ≡ outcome) × ((r : Result (Unit {0}) Error)
            × CancelsBatch L.Log (cache_lent self.entry).now r self.exit.0.now)) }
    {
        match outcome {
            Ok(x) => match self.seal_batch() {
                Ok(()) => Ok(x),
                Err(e) => Err(E::from(e)),
            },
            Err(e) => {
                let _ = self.cancel();
                Err(e)
            }
        }
    }
}
