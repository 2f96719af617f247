//! A key-value file: it is opened, or created; pairs are set in batches, flushed, and read after the file was closed and reopened.
#![tactic(auto)]

mod store;

use sled_pagecache::{Error, Item, Node};
use std::{fs, io, str};
use store::{Failure, PAIRS, Store, open, set_all, version};

const PATH: &str = "pairs.log";

/// Sets pairs in four batches. The second is flushed with the first, the third is refused, and the last is lost.
fn write(rt: &HostRuntime, store: &mut Store) -> Result<(), Failure> {
    let alloc = rt.alloc();
    let first = version(alloc, store)?;
    let second = set_all(alloc, store, first, &[("apple", "red"), ("lime", "green")])?;
    let third = set_all(
        alloc,
        store,
        second,
        &[("lime", "yellow"), ("plum", "blue")],
    )?;
    let bytes = store.flush()?;
    println!(rt; "flushed {bytes} bytes")?;
    if let Err(error) = set_all(alloc, store, first, &[("plum", "black")]) {
        println!(rt; "refused: {error}")?;
    }
    set_all(alloc, store, third, &[("fig", "purple")])?;
    Ok(())
}

fn print_pairs(rt: &HostRuntime, node: &Node) -> io::Result<()> {
    for i in 0..node.len() {
        if let (key, Item::Value(value)) = node.pair(i) {
            let (key, value) = (str::from_utf8(key), str::from_utf8(value));
            println!(rt; "{} = {}", key.unwrap_or("?"), value.unwrap_or("?"))?;
        }
    }
    Ok(())
}

fn print_all(rt: &HostRuntime, store: &mut Store) -> Result<(), Failure> {
    // what `get` answers is lent, and its error owns no memory; `Error` is made of it
    if let Some(view) = store.get(PAIRS).map_err(Error::from)? {
        print_pairs(rt, view.node())?;
    }
    Ok(())
}

fn main(rt: HostRuntime) -> Result<(), Failure> {
    // each run begins with no file, and so prints the same
    let _ = fs::remove_file(&rt, PATH);
    write(&rt, &mut open(&rt, rt.alloc(), PATH)?)?;
    // the first store is gone, and its file closed
    print_all(&rt, &mut open(&rt, rt.alloc(), PATH)?)
}
