//! What the program reads and writes for a cache over a file.

ghost use Rattle.std.specs.Prelude.{◌≡◌};
ghost use Rattle.sled_disk.specs.Staged.{Fails, Forgets};
ghost use Rattle.sled_handle.specs.Files.{Asks, HandsIn, HandsTask, Tells, TellsNeeds, needed_in, nothing_to_do};

use sled_handle::status::{CLOSED, OK};
use sled_handle::through::device as through;
use sled_handle::{FileTask, Handle};
use std::alloc::Global;

/// Writes the next task that the program has to do on the file, and the bytes of a write to the front of the buffer.
#[unsafe(no_mangle)]
pub extern "C" fn dilluvas_raw_next_task(
    alloc: Global,
    handle: &mut Handle,
    task: &mut FileTask,
    buffer: &mut [u8],
) -> u32
    ensures { Asks handle.old.store handle.new.store result
        ((task.new ≡ task.old) × (buffer.new ≡ buffer.old))
        ((task.new ≡ nothing_to_do) × (buffer.new ≡ buffer.old))
        (λ old new. HandsTask task.new buffer.new old new) }
{
    behind!(alloc, handle, store => through::next_task(store, task, buffer))
}

/// Writes the place and the number of the bytes of the file that are needed, or 0 if none are.
#[unsafe(no_mangle)]
pub extern "C" fn dilluvas_raw_needs(
    alloc: Global,
    handle: &mut Handle,
    at: &mut u64,
    len: &mut usize,
) -> u32
    ensures { Asks handle.old.store handle.new.store result
        ((at.new ≡ at.old) × (len.new ≡ len.old)) ((at.new ≡ 0) × (len.new ≡ 0))
        (λ old new. (new ≡ old) × TellsNeeds (needed_in old) at.new len.new) }
{
    behind!(alloc, handle, store => through::needs(store, at, len))
}

/// Hands in bytes of the file, from a place on.
#[unsafe(no_mangle)]
pub extern "C" fn dilluvas_raw_hand_in(
    alloc: Global,
    handle: &mut Handle,
    at: u64,
    bytes: &[u8],
) -> u32
    ensures { HandsIn at bytes.now handle.old.store handle.new.store result }
{
    behind!(alloc, handle, store => through::hand_in(store, at, bytes))
}

/// Drops what was needed and what was handed in. The program calls it if the bytes that are needed couldn't be read.
#[unsafe(no_mangle)]
pub extern "C" fn dilluvas_raw_forget(alloc: Global, handle: &mut Handle) -> u32
    ensures { Tells Forgets handle.old.store handle.new.store result }
{
    let Some(mut store) = handle.take(alloc) else {
        return CLOSED;
    };
    store.forget();
    handle.put(alloc, store);
    OK
}

/// Records that a write or a sync failed: every later call over the file returns `WRITE`.
#[unsafe(no_mangle)]
pub extern "C" fn dilluvas_raw_failed(alloc: Global, handle: &mut Handle) -> u32
    ensures { Tells Fails handle.old.store handle.new.store result }
{
    let Some(mut store) = handle.take(alloc) else {
        return CLOSED;
    };
    store.fail();
    handle.put(alloc, store);
    OK
}
