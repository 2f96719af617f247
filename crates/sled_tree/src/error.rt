//! The errors of calls on maps.

ghost use Rattle.std.specs.Prelude.{◌≡◌};
ghost use Rattle.sled_base.specs.declared.types.Error.TheVariants.{OutOfMemory};
ghost use Rattle.sled_tree.specs.declared.error.TreeError.TheVariants.{Cache};

use sled_pagecache::Error;
use std::alloc::{AllocError, AllocFailed};

/// The error of a call on a map. A call that returns an error changes no map.
///
/// A write error is sticky: every later call returns it, until the log is reopened. After reopening, the change that was being written may be
/// there.
#[derive(Debug, Drop, PartialEq, Eq, thiserror::Error)]
pub enum TreeError {
    /// The key has more than [`MAX_BYTES`](sled_pagecache::sled_node::node::MAX_BYTES) bytes.
    #[error("error key")]
    KeyTooLong,
    /// The value has more than [`MAX_BYTES`](sled_pagecache::sled_node::node::MAX_BYTES) bytes.
    #[error("error value")]
    ValueTooLong,
    /// No batch is open.
    #[error("error batch")]
    NoBatch,
    /// An error of the cache. `Corruption` without a pointer is returned if the token is not one of a map of this cache.
    #[error("{0}")]
    Cache(Error),
}

impl From<Error> for TreeError {
    ghost from_gives = { λ error e. e ≡ Cache error };

    fn from(error: Error) -> TreeError {
        TreeError::Cache(error)
    }
}

impl From<AllocError> for TreeError {
    ghost from_gives = { λ _ e. e ≡ Cache OutOfMemory };

    fn from(_error: AllocError) -> TreeError {
        TreeError::Cache(Error::OutOfMemory)
    }
}

impl<T: Drop> From<AllocFailed<T>> for TreeError {
    ghost from_gives = { λ _ e. e ≡ Cache OutOfMemory };

    fn from(_failed: AllocFailed<T>) -> TreeError {
        TreeError::Cache(Error::OutOfMemory)
    }
}
