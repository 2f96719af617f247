//! Entries of a book that are made once more, by one thread.

ghost use Rattle.std.specs.Prelude.{◌≡◌, ◌<◌};

use crate::asking::copies_of;
use crate::crews::shared;
use crate::entered::texts_of;
use sled_pagecache::{Error, MemLog};
use sled_shared::{Blank, Book, Called, Entry, Share, SharedPageCache, Tally};
use std::alloc::{AllocError, Global};
use std::sync::Wait;

/// Makes the calls of two books once more, in their order, of a new cache, and answers the texts of what was entered then.
pub fn replayed<K: Tally, R: Wait>(
    rt: &R,
    alloc: Global,
    first: &Book,
    last: &Book,
    blank: Blank,
    parts: u64,
) -> Result<Vec<String>, Error>
    requires name { (blank.name ≡ K.name) × (blank.history ≡ K.history) }
    requires parts { (blank.parts ≡ parts) × (K.parts ≡ parts) × (0 < parts) }
{
    let again = shared::<K>(alloc, usize::MAX, parts, blank)?;
    let Some(mut share) = again.share(rt) else {
        return Err(Error::OutOfMemory);
    };
    ask_again(rt, alloc, &again, &mut share, first.entries())?;
    ask_again(rt, alloc, &again, &mut share, last.entries())?;
    let book = again.take_book(rt)?;
    Ok(texts_of(alloc, book.entries())?)
}

/// Makes the calls of these entries once more, in their order.
pub fn ask_again<K: Tally, R: Wait>(
    rt: &R,
    alloc: Global,
    shared: &SharedPageCache<MemLog, K>,
    share: &mut Share<K>,
    entries: &[Entry],
) -> Result<(), AllocError> {
    for entry in entries {
        ask_one(rt, alloc, shared, share, entry.called())?;
    }
    Ok(())
}

// Makes a call once more. What it answers stands in the book.
fn ask_one<K: Tally, R: Wait>(
    rt: &R,
    alloc: Global,
    shared: &SharedPageCache<MemLog, K>,
    share: &mut Share<K>,
    called: &Called,
) -> Result<(), AllocError> {
    match called {
        Called::Allocate(node, _) => drop(shared.allocate(rt, (**node).clone()?, share)),
        Called::Get(pid, _) => drop(shared.get(rt, *pid, share)),
        Called::Link(change, _) => {
            let (old, link) = (change.0, change.1.clone()?);
            drop(shared.link(rt, old.pid(), old, link, share));
        }
        Called::Replace(change, _) => {
            let (old, node) = (change.0, change.1.clone()?);
            drop(shared.replace(rt, old.pid(), old, node, share));
        }
        Called::Free(old, _) => drop(shared.free(rt, old.pid(), *old, share)),
        Called::GenerateId(_) => drop(shared.generate_id(rt, share)),
        Called::Flush(_) => drop(shared.flush(rt, share)),
        Called::OpenTree(name, _) => drop(shared.open_tree(rt, (**name).clone()?, share)),
        Called::CasRoot(asked, _) => {
            drop(shared.cas_root_in_meta(rt, asked.name.as_slice(), asked.old, asked.new, share));
        }
        Called::MetaPidForName(name, _) => {
            drop(shared.meta_pid_for_name(rt, name.as_slice(), share));
        }
        Called::Batch(asked, _) => {
            drop(shared.batch(rt, copies_of(alloc, &asked.swaps)?, share));
        }
        Called::GetAll(asked, _) => {
            drop(shared.get_all(rt, Vec::from_slice(alloc, &asked.pages)?, share));
        }
    }
    Ok(())
}
