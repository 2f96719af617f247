//! Entries of a book as texts, which are those that `asking` writes of the same calls and answers.

use sled_pagecache::sled_base::Refusal;
use sled_shared::{Batch, Called, Ending, Entry, Kept};
use std::alloc::{AllocError, Global};
use std::fmt::Debug;

/// The texts of entries, in their order.
pub fn texts_of(alloc: Global, entries: &[Entry]) -> Result<Vec<String>, AllocError> {
    let mut texts = Vec::new(alloc);
    add_entries(alloc, &mut texts, entries)?;
    Ok(texts)
}

/// Puts the texts of entries behind others.
pub fn add_entries(
    alloc: Global,
    texts: &mut Vec<String>,
    entries: &[Entry],
) -> Result<(), AllocError> {
    for entry in entries {
        texts.push(text_of(alloc, entry.called())?)?;
    }
    Ok(())
}

fn text_of(alloc: Global, called: &Called) -> Result<String, AllocError> {
    match called {
        Called::Allocate(node, kept) => format!(in alloc; "allocate {node:?}: {kept:?}"),
        Called::Get(pid, kept) => format!(in alloc; "get {pid}: {kept:?}"),
        Called::Link(change, kept) => swap_text(alloc, &change.0, &change.1, kept),
        Called::Replace(change, kept) => swap_text(alloc, &change.0, &change.1, kept),
        Called::Free(old, kept) => swap_text(alloc, old, &(), kept),
        Called::GenerateId(kept) => format!(in alloc; "id: {kept:?}"),
        Called::Flush(kept) => format!(in alloc; "flush: {kept:?}"),
        Called::OpenTree(name, kept) => format!(in alloc; "open {name:?}: {kept:?}"),
        Called::CasRoot(asked, kept) => {
            format!(in alloc;
                "cas {:?} {:?} {:?}: {kept:?}",
                asked.name, asked.old, asked.new
            )
        }
        Called::MetaPidForName(name, kept) => format!(in alloc; "root {name:?}: {kept:?}"),
        Called::Batch(asked, kept) => batch_text(alloc, asked, kept),
        Called::GetAll(asked, kept) => {
            format!(in alloc; "get {:?}: {:?} {kept:?}", asked.pages, asked.found)
        }
    }
}

fn swap_text<T: Debug, O: Debug>(
    alloc: Global,
    old: &O,
    change: &T,
    kept: &Kept<Ending>,
) -> Result<String, AllocError> {
    format!(in alloc; "{old:?} {change:?}: {kept:?}")
}

fn batch_text(
    alloc: Global,
    asked: &Batch,
    kept: &Result<(), Box<Refusal>>,
) -> Result<String, AllocError> {
    format!(in alloc; "batch {:?}: {:?} {kept:?}", asked.swaps, asked.endings)
}
