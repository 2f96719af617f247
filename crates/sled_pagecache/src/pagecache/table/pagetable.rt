//! The pages of a cache by their ids, which have no gaps, in two levels of vectors.
//!
//! Chunk `pid >> 18` holds the page of an id at `pid & (2 ^ 18 - 1)`, and all chunks but the last are full. The table grows page by page: a
//! chunk takes more memory as it fills, so a table of few pages is small, and growth never moves the pages of more than one chunk.

ghost use Rattle.std.specs.Prelude.{◌≡◌, ◌<◌, ◌≤◌, ◌/◌, ◌%◌, ◌++◌, [], ◌∷◌, true, length, slice_get, MatchOption, IfErr, IsOk, OnOk};
ghost use Rattle.std.specs.Borrow.{sem};
ghost use Rattle.sled_pagecache.specs.Limits.{chunk_length, most_pages};
ghost use Rattle.sled_pagecache.specs.Inside.PageTable.{pages_in, AreFilled, at_last, is_unfilled};

use crate::pagecache::MAX_PID_BITS;
use crate::pagecache::table::page_entry::Page;
use sled_base::PageId;
use std::alloc::{AllocError, Global};
use std::marker::Model;

/// A chunk holds at most 2 to this power pages.
pub(crate) const CHUNK_BITS: u32 = 18;

/// The greatest number of pages in a chunk.
pub(crate) const CHUNK_LENGTH: usize = 1 << CHUNK_BITS;

const CHUNK_MASK: u64 = (CHUNK_LENGTH - 1) as u64;

/// The pages of a cache by their ids, which have no gaps.
///
/// Contracts see the list of the pages, which only grows, and whether one more can be added without allocating.
#[derive(Drop)]
pub struct PageTable {
    alloc: Global,
    // All but the last are full.
    chunks: Vec<Vec<Page>>,
}

impl Model for PageTable {
    ghost use Rattle.sled_pagecache.specs.Table.{TableView};
    ghost use Rattle.sled_pagecache.specs.Inside.PageTable.{view_of, IsPageTable};

    ghost Value = { TableView };

    ghost view = { λ t. view_of t.chunks.items };

    ghost invariant = { λ t. IsPageTable t.chunks.items };
}

impl PageTable {
    ghost use Rattle.sled_pagecache.specs.Lending.{LendsPage};

    /// Makes a table with no pages. It takes no memory.
    pub fn default(alloc: Global) -> PageTable
        ensures { result.pages ≡ [] }
    {
        PageTable {
            alloc,
            chunks: Vec::new(alloc),
        }
    }

    /// Returns how many pages there are, which is at most the greatest number that is allowed.
    pub fn len(&self) -> usize
        ensures number { result ≡ length self.now.pages }
        ensures few { result ≤ most_pages }
    {
        match self.chunks.last() {
            Some(last) => (self.chunks.len() - 1) * CHUNK_LENGTH + last.len(),
            None => 0,
        }
    }

    /// Returns for how many pages there is room without more memory.
    pub fn capacity(&self) -> usize
        ensures { length self.now.pages ≤ result }
    {
        let spare = match self.chunks.last() {
            Some(last) => last.capacity() - last.len(),
            None => 0,
        };
        self.len().saturating_add(spare)
    }

    /// Makes room for one more page, which can then be added without allocating. The only error is out of memory.
    pub fn reserve(&mut self) -> Result<(), AllocError>
        ensures same { self.new.pages ≡ self.old.pages }
        ensures room { OnOk result (self.new.room ≡ true) }
        ensures always { self.old.room ≡ true → IsOk result }
    {
        if self.has_room() {
            return Ok(());
        }
        open_last(self.alloc, &mut self.chunks)?;
        let last = self.chunks.len() - 1;
        let chunk = &mut self.chunks[last];
        chunk.reserve(1)
    }

    /// Adds a page at its id, which is the next one.
    ///
    /// It fails only if an allocation failed. Then it returns the page, and the table has the pages that it had.
    pub fn insert(&mut self, pid: PageId, page: Page) -> Result<(), (Page, AllocError)>
        requires next { pid ≡ length self.old.pages }
        requires few { pid < most_pages }
        ensures ok { OnOk result (self.new.pages ≡ self.old.pages ++ page ∷ []) }
        ensures err { IfErr result (λ e. (e.0 ≡ page) × (self.new.pages ≡ self.old.pages)) }
        ensures always { self.old.room ≡ true → IsOk result }
    {
        prove!(pid == self.len() as PageId);
        if let Err(error) = self.reserve() {
            return Err((page, error));
        }
        self.push_reserved(page);
        Ok(())
    }

    /// Returns the page at an id, if there is one. Any id can be asked for, and the call takes no memory.
    pub fn get(&self, pid: PageId) -> Option<&Page>
        ensures { MatchOption result (slice_get self.now.pages pid ≡ None)
            (λ page. slice_get self.now.pages pid ≡ Some page.now) }
    {
        let chunks = &self.chunks;
        if pid >= 1 << MAX_PID_BITS {
            return None;
        }
        let (left, right) = split_fanout(pid);
        chunks.get(left)?.get(right)
    }

    /// Returns a mutable reference to the page at an id.
    pub fn get_mut(&mut self, pid: PageId) -> &mut Page
        requires { pid < length self.old.pages }
        ensures* lends { sem 𝓛 (LendsPage self.entry pid result) }
        ensures page { slice_get self.old.pages pid ≡ Some result.now }
    {
        let chunks = &mut self.chunks;
        let (left, right) = split_fanout(pid);
        let chunk = &mut chunks[left];
        &mut chunk[right]
    }

    // Whether one more page can be put in without memory.
    fn has_room(&self) -> bool
        ensures { result ≡ self.now.room }
    {
        match self.chunks.last() {
            Some(last) => last.len() < CHUNK_LENGTH && last.len() < last.capacity(),
            None => false,
        }
    }

    // Puts a page, for which there is room, in at the next id.
    pub(crate) fn push_reserved(&mut self, page: Page)
        requires room { self.old.room ≡ true }
        requires few { length self.old.pages < most_pages }
        ensures { self.new.pages ≡ self.old.pages ++ page ∷ [] }
    {
        let last = self.chunks.len() - 1;
        let chunk = &mut self.chunks[last];
        chunk.push_reserved(page);
    }
}

/// Returns which chunk holds the page of an id, and at which place in it: `id >> 18` and `id & (2 ^ 18 - 1)`.
pub fn split_fanout(id: PageId) -> (usize, usize)
    requires { id < most_pages }
    ensures left { result.0 ≡ id / chunk_length }
    ensures right { result.1 ≡ id % chunk_length }
{
    let left = id >> CHUNK_BITS;
    let right = id & CHUNK_MASK;
    (left as usize, right as usize)
}

// Puts an empty chunk at the end where the last is full, or there is none.
fn open_last(alloc: Global, chunks: &mut Vec<Vec<Page>>) -> Result<(), AllocError>
    requires { AreFilled chunk_length chunks.old.items }
    ensures same { pages_in chunks.new.items ≡ pages_in chunks.old.items }
    ensures filled { AreFilled chunk_length chunks.new.items }
    ensures open { OnOk result (at_last (is_unfilled chunk_length) chunks.new.items ≡ true) }
{
    if !is_last_open(chunks) {
        chunks.push(Vec::new(alloc))?;
    }
    Ok(())
}

// Whether there is a last chunk, and it is not full.
fn is_last_open(chunks: &[Vec<Page>]) -> bool
    ensures { result ≡ at_last (is_unfilled chunk_length) chunks.now }
{
    match chunks.last() {
        Some(last) => last.len() < CHUNK_LENGTH,
        None => false,
    }
}
