// Calls that take no memory. Each is made where every allocation is refused, and once more where one block of memory is left, which has
// to be whole behind it. So none succeeds by memory that was there, and none asks for a little and goes on where that is refused.

use super::*;
use sled_base::{DoublyLinkedList, Lru, Slot};
use sled_node::Meta;
use sled_pagecache::PageTable;
use sled_pagecache_testing::calls::links_so;
use sled_pagecache_testing::disks::{new_disk, opened_on};
use sled_pagecache_testing::steps::Change::Confirm;
use sled_pagecache_testing::steps::Outcome::{At, Gone, Id, Is, Stale, Unaccepted};
use sled_pagecache_testing::steps::Sight::{Absent, Empty, Leads, Pair, Reserved};
use sled_pagecache_testing::steps::Step::{
    Adds, Counts, Finds, Frees, Gets, Gives, Has, Links, Opens, Recovered, Replaces, Swaps, Writes,
};
use sled_pagecache_testing::steps::{PAIR, Step, shown, shows_page};
use sled_pagecache_testing::tables::{lsn_at, table_of};

// ---- a process without memory

/// Blocks of memory that are taken and not used.
type Blocks = Vec<Vec<u8>>;

// More blocks than there are of a size: a process has 2^47 bytes of addresses, and a system with 4 GiB of memory or more gives it blocks
// of 2^32. Of small ones an allocator has a few left.
const MOST: usize = 1 << 16;

const MOST_SMALL: usize = 1 << 10;

// How many bytes the block has that may be left.
const LEFT: usize = 1 << 16;

// Takes at most so many blocks of so many bytes, and whether one was refused.
fn take_blocks(alloc: Global, blocks: &mut Blocks, bytes: usize, most: usize) -> bool {
    for _ in 0..most {
        let Ok(block) = Vec::with_capacity(alloc, bytes) else {
            return true;
        };
        if blocks.len() == blocks.capacity() || blocks.push(block).is_err() {
            return false;
        }
    }
    false
}

// Takes blocks of each size, until there are no more, or too many of one.
fn take_all(alloc: Global, blocks: &mut Blocks) -> bool {
    for halvings in 0..26u32 {
        if !take_blocks(alloc, blocks, (1 << 46) >> halvings, MOST) {
            return false;
        }
    }
    for halvings in 0..10u32 {
        if !take_blocks(alloc, blocks, (1 << 20) >> halvings, MOST_SMALL) {
            return false;
        }
    }
    // the allocator keeps the smallest ones apart by their sizes
    for less in 0..128usize {
        if !take_blocks(alloc, blocks, 1_025 - 8 * less, MOST_SMALL) {
            return false;
        }
    }
    true
}

// All memory that the process can have, but for a block of so many bytes.
fn taken(alloc: Global, left: usize) -> Blocks {
    let Ok(mut blocks) = Vec::with_capacity(alloc, 2 * MOST) else {
        return Vec::new(alloc);
    };
    let block = Vec::<u8>::with_capacity(alloc, left);
    if !take_all(alloc, &mut blocks) {
        return Vec::new(alloc);
    }
    drop(block);
    blocks
}

// Whether a block of so many bytes is left, and is whole; or where none is, every allocation is refused.
fn is_left(alloc: Global, left: usize) -> bool {
    Vec::<u8>::with_capacity(alloc, left.max(1)).is_ok() == (left > 0)
}

// Whether all memory can be taken. A sanitizer's allocator has more small blocks than that, and nothing is shown over it.
fn can_be_taken(alloc: Global) -> bool {
    let _blocks = taken(alloc, 0);
    is_left(alloc, 0)
}

// ---- byte strings, lists and nodes

const BYTES: &[u8; 22] = b"abcdefghijklmnopqrstuv";

const PART: &[u8] = b"bcdefghijklmnopqrstu";

// Whether the longest strings that are kept in place are made, copied and cut.
fn is_short(alloc: Global) -> Result<bool, AllocError> {
    let string = IVec::from_slice(alloc, BYTES)?;
    let text = IVec::from_str(alloc, "abcdefghijklmnopqrstuv")?;
    let copy = IVec::from_array(alloc, *BYTES)?.clone()?;
    if copy.len() != BYTES.len() {
        return Ok(false);
    }
    Ok(string == text && text == copy && copy.subslice(1, 20)?.eq_bytes(PART))
}

fn makes_strings(alloc: Global, left: usize) -> bool {
    let _blocks = taken(alloc, left);
    is_short(alloc) == Ok(true) && is_left(alloc, left)
}

// A list of the items 1 to 4, and the slot of the third.
fn list_of_four(alloc: Global) -> Result<(DoublyLinkedList, Slot), AllocError> {
    let mut list = DoublyLinkedList::default(alloc);
    let _ = list.push_tail(1)?;
    let _ = list.push_tail(2)?;
    let slot = list.push_tail(3)?;
    let _ = list.push_tail(4)?;
    Ok((list, slot))
}

// Whether the third goes to the head, and it and the last are taken out.
fn is_taken_out(list: &mut DoublyLinkedList, slot: Slot) -> bool {
    list.is_live(slot)
        && list.promote(slot) == slot
        && list.pop_head() == Some(3)
        && list.pop_tail() == Some(4)
        && list.len() == 2
}

fn takes_out(alloc: Global, left: usize) -> bool {
    let Ok((mut list, slot)) = list_of_four(alloc) else {
        return false;
    };
    let _blocks = taken(alloc, left);
    is_taken_out(&mut list, slot) && is_left(alloc, left)
}

fn accessed(lru: &mut Lru, id: PageId, size: u64) -> bool {
    size <= 1 << 63 && matches!(lru.accessed(id, size), Ok(gone) if gone.is_empty())
}

// Whether pages that are listed are accessed again, one of them with another size that is rounded up to the same.
fn accesses(alloc: Global, left: usize) -> bool {
    let Ok(mut lru) = Lru::new(alloc, 1024) else {
        return false;
    };
    let is_listed = accessed(&mut lru, 5, 1) && accessed(&mut lru, 261, 2);
    let _blocks = taken(alloc, left);
    is_listed
        && accessed(&mut lru, 5, 0)
        && accessed(&mut lru, 261, 2)
        && accessed(&mut lru, 5, 1)
        && is_left(alloc, left)
}

// Whether roots are found, replaced and taken out. A name that is taken out gives its memory back.
fn loses_roots(alloc: Global, left: usize) -> bool {
    let mut input = [1, 97, 2, 1, 98, 3].as_slice();
    let Ok(mut roots) = Meta::deserialize(alloc, &mut input) else {
        return false;
    };
    let _blocks = taken(alloc, left);
    roots.get_root(b"b") == Some(3)
        && roots.get_root(b"c") == None
        && roots.replace_root(b"b", 5) == Some(3)
        && roots.replace_root(b"c", 5) == None
        && roots.get_root(b"b") == Some(5)
        && is_left(alloc, left)
        && roots.del_root(b"a") == Some(2)
        && roots.get_root(b"a") == None
        && roots.del_root(b"a") == None
}

// Whether the node is written in place, accepts a pair, and has no other.
fn is_served(node: &Node, link: &Link) -> bool {
    let mut out = [9; 16];
    node.serialized_size() <= 16
        && node.serialize_into(&mut out) == 12
        && out == [0, 0, 0, 1, 2, 98, 97, 2, 98, 122, 0, 0, 9, 9, 9, 9]
        && node.accepts(link)
        && node.contains_key(b"bb")
        && !node.is_index()
        && node.leaf_pair_for_key(b"bb") == None
}

fn makes_nodes(alloc: Global, left: usize) -> bool {
    let _blocks = taken(alloc, left);
    let is_so = match (node_between(alloc, b"ba", b"bz"), set(alloc, b"b", b"v")) {
        (Ok(Some(node)), Ok(link)) => is_served(&node, &link),
        _ => false,
    };
    is_so && is_left(alloc, left)
}

fn finds(table: &PageTable) -> bool {
    lsn_at(table, 16) == Some(16) && lsn_at(table, 17) == None
}

fn finds_pages(alloc: Global, left: usize) -> bool {
    let Ok(table) = table_of(alloc, 17) else {
        return false;
    };
    let _blocks = taken(alloc, left);
    finds(&table) && is_left(alloc, left)
}

// ---- a disk, and caches

// Whether a disk is written, made durable and read within its limit.
fn is_used(disk: &mut MemDisk) -> bool {
    let mut bytes = [0; 3];
    disk.write_at(0, b"abcd").is_ok()
        && disk.sync().is_ok()
        && disk.read_at(1, &mut bytes).is_ok()
        && disk.len() == Ok(4)
        && bytes == *b"bcd"
}

fn uses_disk(alloc: Global, left: usize) -> bool {
    let Ok(mut disk) = MemDisk::new(alloc, 16) else {
        return false;
    };
    let _blocks = taken(alloc, left);
    is_used(&mut disk) && is_left(alloc, left)
}

const BEFORE: &[Step] = &[
    Adds(2, 1),
    Links(2, 1, PAIR, At(2)),
    Opens(b"t", Id(4)),
    Gives(0, 1),
];

// What lies in memory, what is refused by the token or the root that it tells, and ids that need no new counter.
const SERVED: &[Step] = &[
    Recovered(false),
    Gets(2, Pair(2, b"b", b"v")),
    Gets(3, Empty(1)),
    Gets(4, Leads(1, 3)),
    Gets(5, Absent),
    Gets(0, Reserved),
    Links(2, 1, PAIR, Stale(2)),
    Links(2, 2, Confirm, Unaccepted),
    Links(5, 1, PAIR, Gone),
    Replaces(2, 1, Stale(2)),
    Replaces(5, 1, Gone),
    Frees(2, 1, Stale(2)),
    Frees(5, 1, Gone),
    Swaps(b"t", Some(3), None, Is(Some(4))),
    Swaps(b"u", Some(3), Some(2), Is(None)),
    Opens(b"t", Id(4)),
    Finds(b"t", 4),
    Has(1, 2),
    Counts(0, 1),
    Gives(1, 9),
];

// Whether the cache serves all that, and then makes durable what it wrote before, which takes so many bytes.
fn is_served_by<L: Log>(
    alloc: Global,
    cache: &mut PageCache<L>,
    bytes: usize,
    left: usize,
) -> bool {
    let is_so = shown(alloc, cache, BEFORE) == BEFORE.len();
    let _blocks = taken(alloc, left);
    is_so
        && !cache.batch_open()
        && shown(alloc, cache, SERVED) == SERVED.len()
        && shown(alloc, cache, &[Writes(bytes), Writes(0)]) == 2
        && is_left(alloc, left)
}

// Whether a batch of a link is sealed or cancelled.
fn is_ended<L: Log>(alloc: Global, cache: &mut PageCache<L>, is_sealed: bool, left: usize) -> bool {
    let Ok(mut guard) = cache.pin_log() else {
        return false;
    };
    let is_linked = links_so(alloc, guard.cache(), 2, 2, &PAIR) == At(3);
    let _blocks = taken(alloc, left);
    let is_closed = if is_sealed {
        guard.seal_batch().is_ok()
    } else {
        guard.cancel().is_ok()
    };
    is_linked && is_closed && is_left(alloc, left)
}

// Whether a new cache serves, and ends a batch.
fn serves_all<L: Log>(
    alloc: Global,
    cache: &mut PageCache<L>,
    bytes: usize,
    is_sealed: bool,
    left: usize,
) -> bool {
    is_served_by(alloc, cache, bytes, left) && is_ended(alloc, cache, is_sealed, left)
}

// The messages take 119 bytes, and in a file they stand in a frame.
fn serves(alloc: Global, is_sealed: bool, left: usize) -> bool {
    match started(alloc, 512) {
        Some(mut cache) => serves_all(alloc, &mut cache, 119, is_sealed, left),
        None => false,
    }
}

fn serves_on_disk(alloc: Global, is_sealed: bool, left: usize) -> bool {
    let Some(disk) = new_disk(alloc, 4096) else {
        return false;
    };
    match opened_on(alloc, disk, 4096) {
        Ok(mut cache) => serves_all(alloc, &mut cache, 129, is_sealed, left),
        Err(_) => false,
    }
}

// ---- what takes memory

// The message that joins another one, and the node of a page.
const TAKING: &[Step] = &[Links(2, 1, PAIR, At(2)), Replaces(3, 1, At(2)), Adds(4, 1)];

// Whether these steps are refused where no memory is left, and show what they should once there is some.
fn are_refused_at_first(alloc: Global, steps: &[Step]) -> bool {
    let Some(mut cache) = started(alloc, 512) else {
        return false;
    };
    let is_so = shown(alloc, &mut cache, &[Adds(2, 1), Adds(3, 1)]) == 2;
    let blocks = taken(alloc, 0);
    for step in steps {
        if shows_page(alloc, &mut cache, step).is_some() {
            return false;
        }
    }
    drop(blocks);
    is_so && shown(alloc, &mut cache, steps) == steps.len()
}

#[test]
fn what_takes_memory_is_refused_without(rt: HostRuntime) {
    let alloc = rt.alloc();
    if !can_be_taken(alloc) {
        return;
    }
    assert!(rt; are_refused_at_first(alloc, TAKING));
}

#[test]
fn what_takes_no_memory_is_done_without(rt: HostRuntime) {
    let alloc = rt.alloc();
    if !can_be_taken(alloc) {
        return;
    }
    for left in [0, LEFT] {
        assert!(rt; makes_strings(alloc, left), "strings, {left}");
        assert!(rt; takes_out(alloc, left), "a list, {left}");
        assert!(rt; accesses(alloc, left), "accesses, {left}");
        assert!(rt; loses_roots(alloc, left), "roots, {left}");
        assert!(rt; makes_nodes(alloc, left), "nodes, {left}");
        assert!(rt; finds_pages(alloc, left), "a table, {left}");
        assert!(rt; uses_disk(alloc, left), "a disk, {left}");
        for is_sealed in [true, false] {
            assert!(rt; serves(alloc, is_sealed, left), "a cache, {left}");
            assert!(rt;
                serves_on_disk(alloc, is_sealed, left),
                "a cache on a disk, {left}"
            );
        }
    }
}
