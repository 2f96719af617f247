//! Generated ids, and calls on the whole log.

ghost use Rattle.std.specs.Prelude.{◌≡◌};
ghost use Rattle.sled_handle.specs.Statuses.{capped};
ghost use Rattle.sled_handle.specs.Steps.{GivesId, MakesStable, MovesDue, TellsAmplification, TellsLive, TellsRecovered, TellsSize};

use crate::output::put_answer;
use crate::status::{OK, status_of};
use sled_pagecache::{Log, PageCache};

pub fn generate_id<L: Log>(cache: &mut PageCache<L>, id: &mut u64) -> u32
    ensures { GivesId L.Log cache.old cache.new result id.old id.new }
{
    put_answer(cache.generate_id_inner(), id)
}

pub fn flush<L: Log>(cache: &mut PageCache<L>, written: &mut usize) -> u32
    ensures { MakesStable L.Log cache.old cache.new result written.old written.new }
{
    put_answer(cache.flush(), written)
}

pub fn size<L: Log>(cache: &PageCache<L>, bytes: &mut u64) -> u32
    ensures { TellsSize L.Log cache.now cache.now result bytes.old bytes.new }
{
    put_answer(cache.size_on_disk(), bytes)
}

pub fn live<L: Log>(cache: &PageCache<L>, bytes: &mut u64) -> u32
    ensures { TellsLive L.Log cache.now cache.now result bytes.new }
{
    *bytes = cache.live_bytes();
    OK
}

pub fn amplification<L: Log>(cache: &mut PageCache<L>, log: &mut u64, pages: &mut u64) -> u32
    ensures { TellsAmplification L.Log cache.old cache.new result (log.old, pages.old)
        (log.new, pages.new) }
{
    match cache.space_amplification() {
        Ok((in_log, in_pages)) => {
            *log = in_log;
            *pages = capped(in_pages);
            OK
        }
        Err(error) => status_of(&error),
    }
}

// The number, or the greatest of 64 bits where it is above that.
fn capped(number: u128) -> u64
    ensures { result ≡ capped number }
{
    if number <= u64::MAX as u128 {
        number as u64
    } else {
        u64::MAX
    }
}

pub fn attempt_gc<L: Log>(cache: &mut PageCache<L>, moved: &mut bool) -> u32
    ensures { MovesDue L.Log cache.old cache.new result moved.old moved.new }
{
    put_answer(cache.attempt_gc(), moved)
}

pub fn was_recovered<L: Log>(cache: &PageCache<L>, recovered: &mut bool) -> u32
    ensures { TellsRecovered L.Log cache.now cache.now result recovered.new }
{
    *recovered = cache.was_recovered();
    OK
}
