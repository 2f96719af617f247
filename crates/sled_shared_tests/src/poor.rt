//! A shared cache over a log that has room for one message, and of which a page is damaged.

ghost use Rattle.std.specs.Prelude.{⊤, ◌≡◌, ◌<◌, [], pos, false, true, None, IfOk};
ghost use Rattle.sled_log.specs.Inside.Marks.{marks};

use crate::entered::texts_of;
use crate::faults::{CONFIG, add};
use sled_pagecache::{
    DiskPtr, Error, Link, Log, LogError, MessageKind, Node, PageCache, PageId, PageState, PageView,
};
use sled_shared::{Blank, Held, Share, Swap, Tally};
use std::alloc::{AllocError, Global};

/// The message of each page, which is kept at the place of its id: no named roots, the counter 0, what is no node, and an empty leaf.
const MESSAGES: &[(MessageKind, &[u8])] = &[
    (MessageKind::InlineMeta, &[]),
    (MessageKind::Counter, &[0]),
    (MessageKind::InlineNode, &[5]),
    (MessageKind::InlineNode, &[0; 8]),
];

/// A log of these messages, which has room for so many short ones more and keeps none of them. It tells nothing of its bytes.
#[derive(Drop)]
struct PoorLog {
    alloc: Global,
    room: u32,
    batch: bool,
    reads: u64,
}

fn poor_log(alloc: Global, room: u32) -> PoorLog
    ensures { result.batch ≡ false }
{
    PoorLog {
        alloc,
        room,
        batch: false,
        reads: 0,
    }
}

fn page_at(alloc: Global, place: u64) -> PageState {
    PageState::Present {
        base: (0, DiskPtr::Inline(place), 17),
        frags: Vec::new(alloc),
    }
}

impl Log for PoorLog {
    ghost tells = { ⊥ };

    ghost state = { λ log. record { stable = []; pending = marks log.batch; usable = true } };

    ghost moment = { λ log. 0 };

    ghost left_since = { λ log t pages. ⊤ };

    ghost counts = { λ log. record { reads = log.reads; failed_reads = 0; write_faults = 0 } };

    ghost bytes = { λ log. 0 };

    ghost stable_bytes = { λ log. pos 0 };

    ghost to_write = { λ log. 0 };

    ghost is_full = { λ _ _. ⊤ };

    ghost is_full_for_batch = { λ _. ⊥ };

    ghost due = { λ _. None };

    ghost due_is_held = { λ log pid place told. absurd told };

    ghost keeps_stable = { λ log told. absurd told };

    ghost only_now = { λ log pages told. absurd told };

    ghost since_earlier = { λ log t u pages told. absurd told };

    fn append(
        &mut self,
        _kind: MessageKind,
        _pid: PageId,
        payload: &[u8],
    ) -> Result<(i64, DiskPtr, u64), LogError> {
        if self.room == 0 || payload.len() > 100 {
            return Err(LogError::Full);
        }
        self.room -= 1;
        Ok((0, DiskPtr::Inline(9), 17 + payload.len() as u64))
    }

    fn read(
        &mut self,
        _pid: PageId,
        _lsn: i64,
        pointer: DiskPtr,
    ) -> Result<(MessageKind, Vec<u8>), LogError> {
        self.reads = self.reads.saturating_add(1);
        match MESSAGES.get(pointer.lid() as usize) {
            Some((kind, payload)) => Ok((*kind, Vec::from_slice(self.alloc, payload)?)),
            None => Err(LogError::Corruption),
        }
    }

    fn make_stable(&mut self) -> Result<usize, LogError> {
        Ok(0)
    }

    fn pin(&mut self) -> Result<(), LogError> {
        self.batch = true;
        Ok(())
    }

    fn seal(&mut self) -> Result<(), LogError> {
        self.batch = false;
        Ok(())
    }

    fn cancel(&mut self) -> Result<(), LogError> {
        self.batch = false;
        Ok(())
    }

    fn to_move(&mut self) -> Option<(PageId, u64)> {
        None
    }

    fn rewrite_blob_pointer(
        &mut self,
        _pid: PageId,
        _blob: i64,
    ) -> Result<(i64, DiskPtr, u64), LogError> {
        Err(LogError::Full)
    }

    fn recover(&mut self) -> Result<Vec<PageState>, LogError> {
        let mut pages = Vec::new(self.alloc);
        for place in 0..MESSAGES.len() as u64 {
            pages.push(page_at(self.alloc, place))?;
        }
        Ok(pages)
    }

    fn batch_open(&self) -> bool {
        self.batch
    }

    fn stable_offset(&self) -> i64 {
        0
    }

    fn size(&self) -> u64 {
        0
    }

    fn reads(&self) -> u64 {
        self.reads
    }

    fn failed_reads(&self) -> u64 {
        0
    }

    fn write_faults(&self) -> u64 {
        0
    }
}

fn poor_cache(alloc: Global) -> Result<PageCache<PoorLog>, Error>
    ensures { IfOk result (λ cache. cache.batch ≡ false) }
{
    match PageCache::start(alloc, CONFIG, poor_log(alloc, 1)) {
        Ok(cache) => Ok(cache),
        Err((error, _)) => Err(error),
    }
}

/// A batch that replaces page 3 and then meets the damage of page 2, a page for which the log has no room, and a get of the damaged page:
/// what each answers, and their entries.
pub fn poor<K: Tally>(alloc: Global, blank: Blank, parts: u64) -> Option<Vec<String>>
    requires name { (blank.name ≡ K.name) × (blank.history ≡ K.history) }
    requires parts { (blank.parts ≡ parts) × (K.parts ≡ parts) × (0 < parts) }
    requires known { ¬ K.known }
{
    let cache = poor_cache(alloc).ok()?;
    let mut held = Held::<PoorLog, K>::over(alloc, cache, 9, parts, blank).ok()?;
    let mut share = held.share()?;
    let mut texts = Vec::new(alloc);
    if !ask(alloc, &mut held, &mut share, &mut texts) {
        return None;
    }
    let book = held.take_book().ok()?;
    for text in texts_of(alloc, book.entries()).ok()? {
        texts.push(text).ok()?;
    }
    Some(texts)
}

// Makes the calls. Whether there was memory for them.
fn ask<K: Tally>(
    alloc: Global,
    held: &mut Held<PoorLog, K>,
    share: &mut Share<K>,
    texts: &mut Vec<String>,
) -> bool {
    let Ok(swaps) = two_swaps(alloc) else {
        return false;
    };
    let mut all = add(alloc, texts, &held.batch(swaps, share));
    all &= add(alloc, texts, &held.allocate(Node::default(alloc), share));
    all &= add(alloc, texts, &held.get(2, share));
    all
}

fn two_swaps(alloc: Global) -> Result<Vec<Swap>, AllocError> {
    let mut swaps = Vec::new(alloc);
    swaps.push(Swap::Replace(PageView::new(3, 0), Node::default(alloc)))?;
    swaps.push(Swap::Link(PageView::new(2, 0), Link::ChildMergeCap))?;
    Ok(swaps)
}
