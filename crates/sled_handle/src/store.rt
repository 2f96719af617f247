//! The store to which a handle points.

ghost use Rattle.std.specs.Prelude.{◌≡◌, None, IsOk};
ghost use Rattle.sled_disk.specs.Staged.{Fails, Forgets, HandsOut, TakesIn};
ghost use Rattle.sled_log.specs.declared.memory.MemLog.{MemLog};
ghost use Rattle.sled_pagecache.specs.Cache.{Cache};
ghost use Rattle.sled_handle.specs.declared.store.Store.TheVariants.{Memory};

use crate::opening::{FileLog, Opening};
use sled_disk::{CallersFile, Task, UnseenFile};
use sled_pagecache::{Log, MemLog, PageCache};
use std::alloc::AllocError;

/// An open cache, over one of the logs that a program may choose, or a file over which a cache is being opened.
#[derive(Drop)]
pub enum Store<F: CallersFile = UnseenFile, L: Log = FileLog<F>> {
    /// A cache over a log in memory.
    Memory(PageCache<MemLog>),
    /// A cache over a log in a file, which the program reads and writes.
    File(PageCache<L>),
    /// A file over which a cache is being opened: there is no cache yet.
    Begun(Opening<F, L>),
}

/// The disk of the store's file: what it needs, and what it is given. A store in memory has none: it has no task and needs nothing, and these calls
/// change nothing.
impl<F: CallersFile> Store<F> {
    ghost use Rattle.sled_handle.specs.Files.{AreIn, StoreIsBut, disk_in, has_failed, needed_in};

    /// Returns whether a write or a sync of the file failed.
    pub fn has_failed(&self) -> bool
        ensures { result ≡ has_failed (disk_in self.now) }
    {
        match self {
            Store::Memory(_) => false,
            Store::File(cache) => cache.log().disk().has_failed(),
            Store::Begun(opening) => opening.has_failed(),
        }
    }

    /// Returns the place and the number of the bytes of the file that are needed, if any are.
    pub fn needs(&self) -> Option<(u64, usize)>
        ensures { result ≡ needed_in self.now }
    {
        match self {
            Store::Memory(_) => None,
            Store::File(cache) => cache.log().disk().needs(),
            Store::Begun(opening) => opening.needs(),
        }
    }

    /// Returns the next task that the program has to do on the file, if there is one, and writes the bytes of a write to the front of the buffer.
    pub fn next_task(&mut self, into: &mut [u8]) -> Option<Task>
        ensures next { StoreIsBut (HandsOut result into.new) self.old self.new }
        ensures memory { (cache : Cache MemLog) → self.old ≡ Memory cache
            → (result ≡ None) × (into.new ≡ into.old) }
    {
        match self {
            Store::Memory(_) => None,
            Store::File(cache) => cache.next_task(into),
            Store::Begun(opening) => opening.next_task(into),
        }
    }

    /// Hands in bytes of the file, from a place on. `AllocError`: there is no memory for them, and nothing changed.
    pub fn hand_in(&mut self, at: u64, bytes: &[u8]) -> Result<(), AllocError>
        requires word { F.tells → AreIn at bytes.now (disk_in self.old) }
        ensures taken { StoreIsBut (TakesIn at bytes.now) self.old self.new }
        ensures memory { (cache : Cache MemLog) → self.old ≡ Memory cache → IsOk result }
    {
        match self {
            Store::Memory(_) => Ok(()),
            Store::File(cache) => cache.hand_in(at, bytes),
            Store::Begun(opening) => opening.hand_in(at, bytes),
        }
    }

    /// Drops the bytes that were handed in, and what the disk needed.
    pub fn forget(&mut self)
        ensures { StoreIsBut Forgets self.old self.new }
    {
        match self {
            Store::Memory(_) => {}
            Store::File(cache) => cache.forget(),
            Store::Begun(opening) => opening.forget(),
        }
    }

    /// Records that a write or a sync of the file failed.
    pub fn fail(&mut self)
        ensures { StoreIsBut Fails self.old self.new }
    {
        match self {
            Store::Memory(_) => {}
            Store::File(cache) => cache.fail(),
            Store::Begun(opening) => opening.fail(),
        }
    }
}
