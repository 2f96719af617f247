//! What the program reads and writes for a cache over a file.

ghost use Rattle.std.specs.Prelude.{◌≡◌};
ghost use Rattle.sled_handle.specs.Files.{AreIn, AsksStore, HandsInStore, HandsTask, TellsNeeds, disk_in, needed_in, nothing_to_do, told_task};

use crate::status::{MEMORY, OK, WRITE};
use crate::store::Store;
use sled_disk::{CallersFile, Task};

/// The next task that the program has to do on the file.
#[repr(C)]
#[derive(Clone, Copy)]
pub struct FileTask {
    /// 0 for nothing, 1 for a write, and 2 for a sync.
    pub kind: u32,
    /// The place of the first byte of a write.
    pub at: u64,
    /// How many bytes a write has. They are at the front of the buffer.
    pub len: usize,
}

/// Writes the next task that the program has to do on the file, and the bytes of a write to the front of the buffer. If there is none, as always in
/// memory, the task has kind 0.
///
/// Returns `WRITE`, and writes nothing, if a write or a sync failed.
pub fn next_task<F: CallersFile>(
    store: &mut Store<F>,
    task: &mut FileTask,
    buffer: &mut [u8],
) -> u32
    ensures { AsksStore store.old store.new result
        ((task.new ≡ task.old) × (buffer.new ≡ buffer.old))
        ((task.new ≡ nothing_to_do) × (buffer.new ≡ buffer.old))
        (λ old new. HandsTask task.new buffer.new old new) }
{
    if store.has_failed() {
        return WRITE;
    }
    *task = task_of(store.next_task(buffer));
    OK
}

// A task as the program reads it.
fn task_of(task: Option<Task>) -> FileTask
    ensures { result ≡ told_task task }
{
    match task {
        None => FileTask {
            kind: 0,
            at: 0,
            len: 0,
        },
        Some(Task::Write { at, len }) => FileTask { kind: 1, at, len },
        Some(Task::Sync) => FileTask {
            kind: 2,
            at: 0,
            len: 0,
        },
    }
}

/// Writes the place and the number of the bytes of the file that are needed, or 0 if none are, as always in memory.
///
/// Returns `WRITE`, and writes nothing, if a write or a sync failed.
pub fn needs<F: CallersFile>(store: &mut Store<F>, at: &mut u64, len: &mut usize) -> u32
    ensures { AsksStore store.old store.new result
        ((at.new ≡ at.old) × (len.new ≡ len.old)) ((at.new ≡ 0) × (len.new ≡ 0))
        (λ old new. (new ≡ old) × TellsNeeds (needed_in old) at.new len.new) }
{
    if store.has_failed() {
        return WRITE;
    }
    (*at, *len) = store.needs().unwrap_or((0, 0));
    OK
}

/// Hands in bytes of the file, from a place on. In memory this does nothing.
///
/// Returns `MEMORY` if there is no memory for them, and `WRITE` if a write or a sync failed.
pub fn hand_in<F: CallersFile>(store: &mut Store<F>, at: u64, bytes: &[u8]) -> u32
    requires word { F.tells → AreIn at bytes.now (disk_in store.old) }
    ensures { HandsInStore at bytes.now store.old store.new result }
{
    if store.has_failed() {
        return WRITE;
    }
    match store.hand_in(at, bytes) {
        Ok(()) => OK,
        Err(_) => MEMORY,
    }
}
