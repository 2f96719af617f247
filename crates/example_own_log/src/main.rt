//! A log of your own: `Counted` counts what a cache appends to any other log, and promises what that log promises.
#![tactic(auto)]

mod counted;

use counted::Counted;
use sled_pagecache::{Config, Device, Error, IVec, Link, MemLog, Node, PageCache};
use std::alloc::Global;

const CONFIG: Config = Config {
    cache_capacity: 1 << 20,
    idgen_persist_interval: 10,
    segment_size: 4096,
};

type Store = PageCache<Counted<MemLog>>;

fn open(alloc: Global) -> Result<Store, Error> {
    let log = Counted::over(MemLog::new(alloc, 512, 0));
    PageCache::start(alloc, CONFIG, log).map_err(|(error, _)| error)
}

/// Allocates a page, and sets a key of it `times` times.
fn set_often(alloc: Global, store: &mut Store, times: u8) -> Result<(), Error> {
    let (_, mut token) = store.allocate(Node::default(alloc))?;
    for value in 0..times {
        let set = Link::Set(
            IVec::from_str(alloc, "key")?,
            IVec::from_array(alloc, [value])?,
        );
        // `link` asks for the id that is in its token
        if let Ok(next) = store.link(token.pid(), token, set)? {
            token = next;
        }
    }
    Ok(())
}

fn print_counts(rt: &HostRuntime, when: &str, store: &Store) -> Result<(), Error> {
    let (messages, bytes) = (store.log().messages, store.log().bytes);
    println!(rt; "{when}: {messages} messages, {bytes} bytes").map_err(|_| Error::Io(Device::Write))
}

fn main(rt: HostRuntime) -> Result<(), Error> {
    let mut store = open(rt.alloc())?;
    print_counts(&rt, "opened", &store)?;
    set_often(rt.alloc(), &mut store, 20)?;
    print_counts(&rt, "set 20 times", &store)
}
