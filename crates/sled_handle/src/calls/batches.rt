//! Opening and closing a batch.

ghost use Rattle.sled_pagecache.specs.Batches.{SealsBatch, CancelsBatch};
ghost use Rattle.sled_handle.specs.Steps.{Opens, Closes};

use crate::output::status_of_done;
use crate::status::NO_BATCH;
use sled_pagecache::{Log, PageCache};

pub fn pin<L: Log>(cache: &mut PageCache<L>) -> u32
    ensures { Opens L.Log cache.old cache.new result }
{
    status_of_done(cache.pin())
}

pub fn seal<L: Log>(cache: &mut PageCache<L>) -> u32
    ensures { Closes L.Log cache.old cache.new (SealsBatch L.Log) result }
{
    if !cache.batch_open() {
        return NO_BATCH;
    }
    status_of_done(cache.seal())
}

pub fn cancel<L: Log>(cache: &mut PageCache<L>) -> u32
    ensures { Closes L.Log cache.old cache.new (CancelsBatch L.Log) result }
{
    if !cache.batch_open() {
        return NO_BATCH;
    }
    status_of_done(cache.cancel())
}
