//! Calls of a shared cache, each with what was asked and what it answered as a text. A swap that hands its change back is written with what
//! came back in place of what was asked, so a text stands in the book only if that is the same.

use crate::reading::get_all;
use sled_pagecache::{Error, IVec, Link, MemLog, Node, PageId, PageView};
use sled_shared::{Ending, Share, SharedPageCache, Swap, SwapAnswer, Tally};
use std::alloc::{AllocError, Global};
use std::fmt::Debug;
use std::sync::Wait;

/// Makes each call that takes a share, some rounds long, and adds a text for each. Whether there was memory for the texts.
pub fn ask<K: Tally, R: Wait>(
    rt: &R,
    alloc: Global,
    shared: &SharedPageCache<MemLog, K>,
    share: &mut Share<K>,
    worker: u8,
    texts: &mut Vec<String>,
) -> bool {
    let mut all = true;
    for round in 0..6u8 {
        let stamp = u64::from(round) + 1;
        all &= allocate(rt, alloc, shared, share, texts);
        all &= get(rt, alloc, shared, share, 2, texts);
        all &= get_all(rt, alloc, shared, share, &[3, 2, 9, 2], texts);
        all &= link(
            rt,
            alloc,
            shared,
            share,
            PageView::new(2, stamp),
            worker,
            texts,
        );
        all &= replace(rt, alloc, shared, share, PageView::new(3, stamp), texts);
        all &= free(rt, alloc, shared, share, PageView::new(4, stamp), texts);
        all &= generate_id(rt, alloc, shared, share, texts);
        all &= flush(rt, alloc, shared, share, texts);
        all &= open_tree(rt, alloc, shared, share, round, texts);
        let name = name_of(b'c', round);
        all &= cas(rt, alloc, shared, share, &name, None, Some(2), texts);
        all &= root(rt, alloc, shared, share, round, texts);
        let own = PageView::new(0, stamp);
        all &= batch(
            rt,
            alloc,
            shared,
            share,
            PageView::new(5, stamp),
            own,
            texts,
        );
    }
    all
}

fn add(texts: &mut Vec<String>, text: Result<String, AllocError>) -> bool {
    match text {
        Ok(text) => texts.push(text).is_ok(),
        Err(_) => false,
    }
}

/// Makes each call of a new cache so that it succeeds, and adds a text for each. Whether there was memory for the texts.
pub fn ask_in_a_row<K: Tally, R: Wait>(
    rt: &R,
    alloc: Global,
    shared: &SharedPageCache<MemLog, K>,
    share: &mut Share<K>,
    texts: &mut Vec<String>,
) -> bool {
    let mut all = allocate(rt, alloc, shared, share, texts);
    all &= link(rt, alloc, shared, share, PageView::new(2, 1), 7, texts);
    all &= get(rt, alloc, shared, share, 2, texts);
    all &= get_all(rt, alloc, shared, share, &[9, 2, 2], texts);
    all &= get_all(rt, alloc, shared, share, &[9, 0, 2], texts);
    all &= replace(rt, alloc, shared, share, PageView::new(2, 2), texts);
    let (page, absent) = (PageView::new(2, 3), PageView::new(9, 1));
    all &= batch(rt, alloc, shared, share, page, absent, texts);
    all &= free(rt, alloc, shared, share, PageView::new(2, 4), texts);
    all &= get(rt, alloc, shared, share, 2, texts);
    all &= generate_id(rt, alloc, shared, share, texts);
    all &= flush(rt, alloc, shared, share, texts);
    all &= open_tree(rt, alloc, shared, share, 0, texts);
    let name = name_of(b'c', 0);
    all &= cas(rt, alloc, shared, share, &name, None, Some(2), texts);
    all &= root(rt, alloc, shared, share, 0, texts);
    all &= root(rt, alloc, shared, share, 1, texts);
    all
}

fn allocate<K: Tally, R: Wait>(
    rt: &R,
    alloc: Global,
    shared: &SharedPageCache<MemLog, K>,
    share: &mut Share<K>,
    texts: &mut Vec<String>,
) -> bool {
    let answer = shared.allocate(rt, Node::default(alloc), share);
    let asked = Node::default(alloc);
    add(texts, format!(in alloc; "allocate {asked:?}: {answer:?}"))
}

pub fn get<K: Tally, R: Wait>(
    rt: &R,
    alloc: Global,
    shared: &SharedPageCache<MemLog, K>,
    share: &mut Share<K>,
    pid: PageId,
    texts: &mut Vec<String>,
) -> bool {
    let answer = shared.get(rt, pid, share);
    add(texts, got_text(alloc, pid, &answer))
}

fn got_text(
    alloc: Global,
    pid: PageId,
    answer: &Result<Option<(PageView, Node)>, Error>,
) -> Result<String, AllocError> {
    match answer {
        Ok(Some((token, node))) if token.pid() == pid => {
            format!(in alloc; "get {pid}: Ok(Some(({}, {node:?})))", token.ts())
        }
        Ok(Some(_)) => format!(in alloc; "get {pid}: another page"),
        Ok(None) => format!(in alloc; "get {pid}: Ok(None)"),
        Err(e) => format!(in alloc; "get {pid}: Err({e:?})"),
    }
}

pub fn link<K: Tally, R: Wait>(
    rt: &R,
    alloc: Global,
    shared: &SharedPageCache<MemLog, K>,
    share: &mut Share<K>,
    old: PageView,
    worker: u8,
    texts: &mut Vec<String>,
) -> bool {
    let (Ok(link), Ok(same)) = (link_of(alloc, worker), link_of(alloc, worker)) else {
        return false;
    };
    let answer = shared.link(rt, old.pid(), old, link, share);
    add(texts, swap_text(alloc, old, &same, &answer))
}

fn link_of(alloc: Global, worker: u8) -> Result<Link, AllocError> {
    let value = IVec::from_slice(alloc, &[worker; 30])?;
    Ok(Link::Set(IVec::from_slice(alloc, b"key")?, value))
}

pub fn replace<K: Tally, R: Wait>(
    rt: &R,
    alloc: Global,
    shared: &SharedPageCache<MemLog, K>,
    share: &mut Share<K>,
    old: PageView,
    texts: &mut Vec<String>,
) -> bool {
    let answer = shared.replace(rt, old.pid(), old, Node::default(alloc), share);
    add(texts, swap_text(alloc, old, &Node::default(alloc), &answer))
}

pub fn free<K: Tally, R: Wait>(
    rt: &R,
    alloc: Global,
    shared: &SharedPageCache<MemLog, K>,
    share: &mut Share<K>,
    old: PageView,
    texts: &mut Vec<String>,
) -> bool {
    let answer = shared.free(rt, old.pid(), old, share);
    add(texts, swap_text(alloc, old, &(), &answer))
}

fn swap_text<T: Debug>(
    alloc: Global,
    old: PageView,
    asked: &T,
    answer: &Result<Result<PageView, Option<(PageView, T)>>, Error>,
) -> Result<String, AllocError> {
    match answer {
        Ok(ended) => ended_text(alloc, old, asked, ended),
        Err(e) => format!(in alloc; "{old:?} {asked:?}: Err({e:?})"),
    }
}

fn ended_text<T: Debug>(
    alloc: Global,
    old: PageView,
    asked: &T,
    ended: &Result<PageView, Option<(PageView, T)>>,
) -> Result<String, AllocError> {
    let ending = ending_of(old, ended);
    match ended {
        Err(Some((_, back))) => format!(in alloc; "{old:?} {back:?}: Ok({ending:?})"),
        _ => format!(in alloc; "{old:?} {asked:?}: Ok({ending:?})"),
    }
}

// How a swap ended, or as none does if its token is of another page.
fn ending_of<T>(old: PageView, ended: &Result<PageView, Option<(PageView, T)>>) -> Ending {
    match ended {
        Ok(made) if made.pid() == old.pid() && made.ts() > old.ts() => Ending::Made,
        Err(Some((present, _))) if present.pid() == old.pid() => Ending::Stale(present.ts()),
        Err(None) => Ending::Gone,
        _ => Ending::Stale(u64::MAX),
    }
}

fn generate_id<K: Tally, R: Wait>(
    rt: &R,
    alloc: Global,
    shared: &SharedPageCache<MemLog, K>,
    share: &mut Share<K>,
    texts: &mut Vec<String>,
) -> bool {
    let answer = shared.generate_id(rt, share);
    add(texts, format!(in alloc; "id: {answer:?}"))
}

pub fn flush<K: Tally, R: Wait>(
    rt: &R,
    alloc: Global,
    shared: &SharedPageCache<MemLog, K>,
    share: &mut Share<K>,
    texts: &mut Vec<String>,
) -> bool {
    let answer = shared.flush(rt, share);
    add(texts, format!(in alloc; "flush: {answer:?}"))
}

// A name of this kind, of which each round has another.
fn name_of(kind: u8, round: u8) -> [u8; 25] {
    let mut name = [round; 25];
    name[0] = kind;
    name
}

fn open_tree<K: Tally, R: Wait>(
    rt: &R,
    alloc: Global,
    shared: &SharedPageCache<MemLog, K>,
    share: &mut Share<K>,
    round: u8,
    texts: &mut Vec<String>,
) -> bool {
    let name = name_of(b't', round);
    let Ok(copy) = IVec::from_slice(alloc, &name) else {
        return false;
    };
    let answer = shared.open_tree(rt, copy, share);
    add(texts, format!(in alloc; "open {name:?}: {answer:?}"))
}

pub fn cas<K: Tally, R: Wait>(
    rt: &R,
    alloc: Global,
    shared: &SharedPageCache<MemLog, K>,
    share: &mut Share<K>,
    name: &[u8],
    old: Option<PageId>,
    new: Option<PageId>,
    texts: &mut Vec<String>,
) -> bool {
    let answer = shared.cas_root_in_meta(rt, name, old, new, share);
    add(
        texts,
        format!(in alloc; "cas {name:?} {old:?} {new:?}: {answer:?}"),
    )
}

fn root<K: Tally, R: Wait>(
    rt: &R,
    alloc: Global,
    shared: &SharedPageCache<MemLog, K>,
    share: &mut Share<K>,
    round: u8,
    texts: &mut Vec<String>,
) -> bool {
    let kind = if round % 2 == 0 { b't' } else { b'x' };
    let name = name_of(kind, round);
    let answer = shared.meta_pid_for_name(rt, &name, share);
    add(texts, root_text(alloc, &name, &answer))
}

fn root_text(
    alloc: Global,
    name: &[u8],
    answer: &Result<PageId, Error>,
) -> Result<String, AllocError> {
    match answer {
        Ok(root) => format!(in alloc; "root {name:?}: Ok(Some({root}))"),
        Err(Error::CollectionNotFound(told)) => format!(in alloc; "root {told:?}: Ok(None)"),
        Err(e) => format!(in alloc; "root {name:?}: Err({e:?})"),
    }
}

pub fn batch<K: Tally, R: Wait>(
    rt: &R,
    alloc: Global,
    shared: &SharedPageCache<MemLog, K>,
    share: &mut Share<K>,
    old: PageView,
    last: PageView,
    texts: &mut Vec<String>,
) -> bool {
    match swaps_of(alloc, old, last) {
        Ok(swaps) => batch_of(rt, alloc, shared, share, swaps, old, texts),
        Err(_) => false,
    }
}

/// Makes these swaps in a batch. Those that end well or stale are by that token.
pub fn batch_of<K: Tally, R: Wait>(
    rt: &R,
    alloc: Global,
    shared: &SharedPageCache<MemLog, K>,
    share: &mut Share<K>,
    swaps: Vec<Swap>,
    old: PageView,
    texts: &mut Vec<String>,
) -> bool {
    let Ok(same) = copies_of(alloc, &swaps) else {
        return false;
    };
    let answer = shared.batch(rt, swaps, share);
    add(texts, batch_text(alloc, &same, old, &answer))
}

pub fn copies_of(alloc: Global, swaps: &[Swap]) -> Result<Vec<Swap>, AllocError> {
    let mut copies = Vec::new(alloc);
    for swap in swaps {
        copies.push(swap.clone()?)?;
    }
    Ok(copies)
}

/// A replacement and a link of one page, by one token, and another page to be freed.
pub fn swaps_of(alloc: Global, old: PageView, last: PageView) -> Result<Vec<Swap>, AllocError> {
    let mut swaps = Vec::new(alloc);
    swaps.push(Swap::Replace(old, Node::default(alloc)))?;
    swaps.push(Swap::Link(old, Link::ChildMergeCap))?;
    swaps.push(Swap::Free(last))?;
    Ok(swaps)
}

fn batch_text(
    alloc: Global,
    asked: &Vec<Swap>,
    old: PageView,
    answer: &Result<Vec<SwapAnswer>, (Error, Vec<SwapAnswer>)>,
) -> Result<String, AllocError> {
    match answer {
        Ok(answers) => {
            let endings = endings_of(alloc, old, answers)?;
            format!(in alloc; "batch {asked:?}: {endings:?} Ok(())")
        }
        Err((e, answers)) => {
            let endings = endings_of(alloc, old, answers)?;
            format!(in alloc; "batch {asked:?}: {endings:?} Err({e:?})")
        }
    }
}

fn endings_of(
    alloc: Global,
    old: PageView,
    answers: &[SwapAnswer],
) -> Result<Vec<Ending>, AllocError> {
    let mut endings = Vec::new(alloc);
    for answer in answers {
        endings.push(match answer {
            SwapAnswer::Link(ended) => ending_of(old, ended),
            SwapAnswer::Replace(ended) => ending_of(old, ended),
            SwapAnswer::Free(ended) => ending_of(old, ended),
        })?;
    }
    Ok(endings)
}
