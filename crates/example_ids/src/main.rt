//! IDs that survive crashes: numbers for transactions, rows or files. None is returned twice, even if the store crashed between two of them and lost
//! everything that wasn't durable.
#![tactic(auto)]

ghost use Rattle.std.specs.Prelude.{IfOk};
ghost use Rattle.sled_pagecache.specs.Openings.{AreRising};
ghost use Rattle.example_ids.specs.Drawing.{IsDrawn};

use sled_pagecache::openings::ids_are_given_once;
use sled_pagecache::{Config, Device, Error, Log, MemLog, PageCache, Why};
use std::alloc::Global;

/// One of ten ids is made durable. A reopening skips at most twice as many.
const CONFIG: Config = Config {
    cache_capacity: 1 << 20,
    idgen_persist_interval: 10,
    segment_size: 4096,
};

/// Two ids, and the log that a crash left after them.
#[derive(Drop)]
struct Drawn {
    first: u64,
    second: u64,
    left: MemLog,
}

/// Opens a cache over a log, draws two ids from it, and crashes: everything that isn't durable is lost.
fn draw(alloc: Global, log: MemLog) -> Result<Drawn, Error>
    ensures { IfOk result (IsDrawn log) }
{
    // `start` asks that no batch is open
    if log.batch_open() {
        return Err(Error::Unsupported(Why::BatchOpen));
    }
    let mut cache = match PageCache::start(alloc, CONFIG, log) {
        Ok(cache) => cache,
        Err((error, _)) => return Err(error),
    };
    let first = cache.generate_id_inner()?;
    let second = cache.generate_id_inner()?;
    let left = cache.into_log().stop(0);
    Ok(Drawn {
        first,
        second,
        left,
    })
}

/// Draws two ids, crashes, opens the log again and draws two more: each is greater than all before it, so none is returned twice.
fn draw_over_a_crash(alloc: Global) -> Result<[u64; 4], Error>
    ensures { IfOk result AreRising }
{
    // the theorem: a call of it does nothing, and the prover knows then what it promises
    ids_are_given_once::<MemLog>();
    let before = draw(alloc, MemLog::new(alloc, 512, 0))?;
    let (first, second) = (before.first, before.second);
    let after = draw(alloc, before.left)?;
    Ok([first, second, after.first, after.second])
}

fn main(rt: HostRuntime) -> Result<(), Error> {
    let [first, second, third, fourth] = draw_over_a_crash(rt.alloc())?;
    let printed = println!(rt; "{first} and {second}, a crash, {third} and {fourth}");
    printed.map_err(|_| Error::Io(Device::Write))
}
