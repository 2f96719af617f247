//! The handle that a program keeps: a pointer to a store, while it is open.

ghost use Rattle.std.specs.Prelude.{◌≡◌, Option, None, Some};
ghost use Rattle.std.specs.Coded.{coded_option};
ghost use Rattle.std.specs.Option.{option_map};
ghost use Rattle.sled_handle.specs.Unseen.{store_row};

use crate::loose::Loose;
use crate::opening::FileLog;
use crate::store::Store;
use sled_disk::{Disk, StagedDisk, UnseenFile};
use sled_log::Log;
use std::alloc::Global;
use std::marker::{Model, Send};
use std::{mem, ptr};

mod file;
mod memory;
mod rewriting;

pub use rewriting::rewrite_behind;

/// A pointer to a store, or a closed handle. The program keeps it in its own memory, where a closed one is all zeros.
///
/// Dropping an open handle leaks its store. Contracts see the store.
#[repr(C)]
#[derive(Drop)]
pub struct Handle {
    at: *mut u8,
    is_open: bool,
    pub ghost store: { Option (store_row ⟦<StagedDisk<UnseenFile> as Disk>⟧ ⟦<FileLog<UnseenFile> as Log>⟧).Denot } by { coded_option (store_row ⟦<StagedDisk<UnseenFile> as Disk>⟧ ⟦<FileLog<UnseenFile> as Log>⟧).coded },
}

impl Model for Handle {
    ghost use Rattle.std.specs.Prelude.{Option};
    ghost use Rattle.sled_handle.specs.Handles.{handle_owns};
    ghost use Rattle.sled_handle.specs.Unseen.{store_row};

    ghost also_owns = { λ h. handle_owns (store_row ⟦<StagedDisk<UnseenFile> as Disk>⟧ ⟦<FileLog<UnseenFile> as Log>⟧) h.at h.is_open h.store };
}

// It owns its store alone, which may go to another thread.
unsafe impl Send for Handle {}

impl Handle {
    // One without a store.
    fn closed() -> Handle
        ensures { result.store ≡ None }
    {
        Handle {
            at: ptr::null_mut(),
            is_open: false,
        }
    }

    // One with the store of a box.
    fn of(loose: Loose<Store, Global>) -> Handle
        ensures { result.store ≡ Some loose.value }
    {
        let Loose { at, alloc: _ } = loose;
        Handle {
            at: at as *mut u8,
            is_open: true,
        }
    }

    // The box of its store, if it has one.
    fn into_loose(self, alloc: Global) -> Option<Loose<Store, Global>>
        ensures { option_map (λ loose. loose.value) result ≡ self.store }
    {
        let Handle { at, is_open } = self;
        if is_open {
            Some(Loose {
                at: at as *mut Store,
                alloc,
            })
        } else {
            None
        }
    }

    /// Returns the store of the handle, if it has one, and leaves the handle closed.
    pub fn take(&mut self, alloc: Global) -> Option<Box<Store>>
        ensures taken { option_map (λ boxed. boxed.value) result ≡ self.old.store }
        ensures closed { self.new.store ≡ None }
    {
        match mem::replace(self, Handle::closed()).into_loose(alloc) {
            Some(loose) => Some(loose.into_box()),
            None => None,
        }
    }

    /// Puts a store into the handle. A store that was there is dropped.
    pub fn put(&mut self, alloc: Global, store: Box<Store>)
        ensures { self.new.store ≡ Some store.value }
    {
        if let Some(old) = mem::replace(self, Handle::of(Loose::of(store))).into_loose(alloc) {
            drop(old.into_box());
        }
    }
}
