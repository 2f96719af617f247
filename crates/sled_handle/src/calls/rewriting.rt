//! Rewriting a cache in memory into a new log, on which it continues.

ghost use Rattle.sled_handle.specs.Rewriting.{Compacts};

use crate::settings::Settings;
use crate::status::{OK, status_of};
use sled_pagecache::{Error, MemLog, PageCache};
use std::alloc::Global;

// Puts a cache over a new log in the place of one.
pub fn compact(alloc: Global, cache: &mut PageCache<MemLog>, settings: Settings) -> u32
    ensures { Compacts settings cache.old cache.new result }
{
    let config = settings.config();
    if let Some(why) = config.fault() {
        return status_of(&Error::Unsupported(why));
    }
    let log = match cache.rewrite_into(settings.log(alloc)) {
        Ok(log) => log,
        Err((error, _)) => return status_of(&error),
    };
    match PageCache::start(alloc, config, log) {
        Ok(new) => {
            *cache = new;
            OK
        }
        Err((error, _)) => status_of(&error),
    }
}
