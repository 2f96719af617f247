// Very many ids, pages and trees of a shared cache.

ghost use Rattle.std.specs.Prelude.{◌≡◌, ◌<◌};

use sled_pagecache::{Config, IVec, MemLog, Node, PageCache};
use sled_shared::{Blank, Share, SharedPageCache, Tally};
use std::alloc::Global;
use std::sync::Wait;

const CONFIG: Config = Config {
    cache_capacity: 1_048_576,
    idgen_persist_interval: 10,
    segment_size: 4096,
};

// A new cache in memory, that is shared.
fn shared<K: Tally>(alloc: Global, blank: Blank, parts: u64) -> Option<SharedPageCache<MemLog, K>>
    requires name { (blank.name ≡ K.name) × (blank.history ≡ K.history) }
    requires parts { (blank.parts ≡ parts) × (K.parts ≡ parts) × (0 < parts) }
    requires known { ¬ K.known }
{
    let log = MemLog::new(alloc, 512, 16);
    let cache = PageCache::start(alloc, CONFIG, log).ok()?;
    SharedPageCache::<MemLog, K>::over(alloc, cache, usize::MAX, parts, blank).ok()
}

/// How many of so many ids come in their order, from 0 on.
pub fn ids_in_order<K: Tally, R: Wait>(
    rt: &R,
    alloc: Global,
    count: u64,
    blank: Blank,
    parts: u64,
) -> Option<u64>
    requires name { (blank.name ≡ K.name) × (blank.history ≡ K.history) }
    requires parts { (blank.parts ≡ parts) × (K.parts ≡ parts) × (0 < parts) }
    requires known { ¬ K.known }
{
    let shared = shared::<K>(alloc, blank, parts)?;
    let mut share = shared.share(rt)?;
    for id in 0..count {
        if !matches!(shared.generate_id(rt, &mut share), Ok(drawn) if drawn == id) {
            return Some(id);
        }
    }
    Some(count)
}

/// How many of so many new pages, and then of so many new trees, come in their order, from page 2 on. A tree takes a page for its leaf and
/// one for its root.
pub fn pages_in_order<K: Tally, R: Wait>(
    rt: &R,
    alloc: Global,
    pages: u64,
    trees: u64,
    blank: Blank,
    parts: u64,
) -> Option<(u64, u64)>
    requires name { (blank.name ≡ K.name) × (blank.history ≡ K.history) }
    requires parts { (blank.parts ≡ parts) × (K.parts ≡ parts) × (0 < parts) }
    requires known { ¬ K.known }
{
    let shared = shared::<K>(alloc, blank, parts)?;
    let mut share = shared.share(rt)?;
    let mut next = 2u64;
    for page in 0..pages {
        if !adds(rt, alloc, &shared, &mut share, next) {
            return Some((page, 0));
        }
        next = next.saturating_add(1);
    }
    for tree in 0..trees {
        if !opens(rt, alloc, &shared, &mut share, tree, next.saturating_add(1)) {
            return Some((pages, tree));
        }
        next = next.saturating_add(2);
    }
    Some((pages, trees))
}

fn adds<K: Tally, R: Wait>(
    rt: &R,
    alloc: Global,
    shared: &SharedPageCache<MemLog, K>,
    share: &mut Share<K>,
    wanted: u64,
) -> bool {
    matches!(shared.allocate(rt, Node::default(alloc), share), Ok((pid, token)) if pid == wanted && token.pid() == wanted && token.ts() == 1)
}

// Whether the root of a new tree is that page, and is found again.
fn opens<K: Tally, R: Wait>(
    rt: &R,
    alloc: Global,
    shared: &SharedPageCache<MemLog, K>,
    share: &mut Share<K>,
    tree: u64,
    wanted: u64,
) -> bool {
    let name = tree.to_le_bytes();
    let Ok(copy) = IVec::from_slice(alloc, &name) else {
        return false;
    };
    matches!(shared.open_tree(rt, copy, share), Ok(root) if root == wanted)
        && matches!(shared.meta_pid_for_name(rt, &name, share), Ok(root) if root == wanted)
}
