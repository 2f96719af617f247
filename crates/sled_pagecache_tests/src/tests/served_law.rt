// A caller of the law on openings whose cache is served between its calls: over a staged disk, of which tasks are done on a file.

ghost use Rattle.std.specs.Prelude.{◌≡◌, ℕ, true, [], ◌∷◌, Ok, IfSome};
ghost use Rattle.sled_node.specs.Node.{WholeNode};
ghost use Rattle.sled_pagecache.specs.Openings.{AreMadeServed};
ghost use Rattle.sled_pagecache.specs.Served.{IsServed};
ghost use Rattle.sled_pagecache.specs.State.{Token};
ghost use Rattle.sled_pagecache.specs.declared.pagecache.handles.call.Answer.TheVariants.{Allocated, Flushed};
ghost use Rattle.sled_pagecache.specs.declared.pagecache.handles.call.Call.TheVariants.{Allocate, Flush};

use super::*;
use sled_disk::{CallersFile, StagedDisk, Task};
use sled_pagecache_testing::disks::{disk_of, new_disk, opened_on};

type Staged<F> = PageCache<DiskLog<StagedDisk<F>>>;

const ROOM: usize = 16;

// Does a task on a file, whose bytes stand in front of these.
fn does(file: &mut MemDisk, task: Task, bytes: &[u8]) -> Option<()> {
    match task {
        Task::Write { at, len } => file.write_at(at, bytes.get(..len)?).ok(),
        Task::Sync => Disk::sync(file).ok(),
    }
}

// Does a task of a cache, if one waits, and says whether one did.
fn serve<F: CallersFile>(cache: &mut Staged<F>, file: &mut MemDisk) -> Option<bool>
    ensures { IsServed ⟦<DiskLog<StagedDisk<F>> as Log>⟧ cache.old cache.new }
{
    let mut bytes = [0; ROOM];
    let Some(task) = cache.next_task(&mut bytes) else {
        return Some(false);
    };
    does(file, task, &bytes)?;
    Some(true)
}

// A page that is added and flushed, with a task done before, between and behind the calls, if one waits.
fn added<F: CallersFile>(alloc: Global, cache: &mut Staged<F>, file: &mut MemDisk) -> Option<PageId>
    ensures { IfSome result (λ pid. (node : WholeNode) × (token : Token) × (written : ℕ) × AreMadeServed ⟦<DiskLog<StagedDisk<F>> as Log>⟧ cache.old ((Allocate node, Allocated (Ok (pid, token))) ∷ (Flush, Flushed (Ok written)) ∷ []) cache.new) }
{
    let _before = serve(cache, file);
    let Ok((pid, _token)) = cache.allocate(Node::default(alloc)) else {
        return None;
    };
    let _between = serve(cache, file);
    let Ok(_written) = cache.flush() else {
        return None;
    };
    let _behind = serve(cache, file);
    Some(pid)
}

// Does all that waits in a disk.
fn work_off(disk: &mut StagedDisk, file: &mut MemDisk) -> Option<()> {
    let mut bytes = [0; ROOM];
    for _ in 0..1000u32 {
        let Some(task) = disk.next_task(&mut bytes) else {
            return Some(());
        };
        does(file, task, &bytes)?;
    }
    None
}

// The log of a file, which is opened again wherever bytes are needed.
fn opened(alloc: Global, mut disk: StagedDisk, file: &mut MemDisk) -> Option<DiskLog<StagedDisk>>
    ensures { IfSome result (λ log. log.usable ≡ true) }
{
    for _ in 0..8u32 {
        match DiskLog::open(alloc, disk, 4096, 0) {
            Ok(log) => return Some(log),
            Err((_, mut back)) => {
                work_off(&mut back, file)?;
                let (at, len) = back.needs()?;
                let from = at as usize;
                let bytes = file.bytes().get(from..from.saturating_add(len))?;
                back.hand_in(at, bytes).ok()?;
                disk = back;
            }
        }
    }
    None
}

// A cache over a new log in a file.
fn new_cache(alloc: Global, file: &mut MemDisk) -> Option<PageCache<DiskLog<StagedDisk>>> {
    let mut disk = StagedDisk::new(alloc, 0);
    DiskLog::create(&mut disk).ok()?;
    work_off(&mut disk, file)?;
    let log = opened(alloc, disk, file)?;
    if log.batch_open() {
        return None;
    }
    match PageCache::start(alloc, CONFIG, log) {
        Ok(cache) => Some(cache),
        Err(_) => None,
    }
}

// The page that is added so, and the file once nothing waits.
fn left_by_servings(alloc: Global) -> Option<(PageId, MemDisk)> {
    let mut file = MemDisk::new(alloc, 4096).ok()?;
    let mut cache = new_cache(alloc, &mut file)?;
    let pid = added(alloc, &mut cache, &mut file)?;
    for _ in 0..1000u32 {
        if !serve(&mut cache, &mut file)? {
            return Some((pid, file));
        }
    }
    None
}

// The same of a cache over the file itself.
fn left_alone(alloc: Global) -> Option<(PageId, MemDisk)> {
    let Ok(mut cache) = opened_on(alloc, new_disk(alloc, 4096)?, 4096) else {
        return None;
    };
    let (pid, _token) = cache.allocate(Node::default(alloc)).ok()?;
    cache.flush().ok()?;
    Some((pid, disk_of(cache)?))
}

// Whether both add page 2, and leave the same bytes.
fn leave_the_same(alloc: Global) -> bool {
    match (left_by_servings(alloc), left_alone(alloc)) {
        (Some((2, file)), Some((2, disk))) => file.bytes() == disk.bytes(),
        _ => false,
    }
}

#[test]
fn a_cache_that_is_served_leaves_what_it_leaves_alone(rt: HostRuntime) {
    assert!(rt; leave_the_same(rt.alloc()));
}
