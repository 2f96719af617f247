//! Opening a cache of a handle over a file, which the contracts don't see (`UnseenFile`).

ghost use Rattle.sled_handle.specs.FileOpenings.{OpenFile, OpenLog};

use super::Handle;
use crate::settings::FileSettings;
use crate::through::opening::{begin, go_on, read_on};
use sled_disk::UnseenFile;
use std::alloc::Global;

impl Handle {
    /// Opens a cache over a file of `len` bytes in a closed handle. The settings are checked first: if one is invalid, its status is returned, and
    /// the handle stays closed.
    ///
    /// Returns `NEEDS` if bytes of the file are needed first: the repeated call continues the opening, and ignores the settings and the length.
    /// Returns `ALREADY_OPEN` if the handle has a cache, which stays. After any other failure the handle is closed.
    pub fn open_file(&mut self, alloc: Global, settings: FileSettings, len: u64) -> u32
        ensures { OpenFile settings self.old.store self.new.store result }
    {
        let begun = match self.take(alloc) {
            Some(store) => Ok(store),
            None => begin(alloc, settings, UnseenFile, len),
        };
        let mut store = match begun {
            Ok(store) => store,
            Err(status) => return status,
        };
        match go_on(alloc, &mut store) {
            Ok(status) => {
                self.put(alloc, store);
                status
            }
            Err(status) => status,
        }
    }

    /// Makes a new log in an empty file, in a closed handle, and opens no cache over it. The settings are checked first: if one is invalid, its
    /// status is returned, and the handle stays closed.
    ///
    /// Returns `NEEDS` if bytes of the file are needed first: the repeated call continues, until the log is read. An opening that was begun by
    /// `open_file` is continued in the same way. Returns `ALREADY_OPEN` if the handle has a cache, which stays. After any other failure the handle is
    /// closed.
    pub fn new_log(&mut self, alloc: Global, settings: FileSettings) -> u32
        ensures { OpenLog settings self.old.store self.new.store result }
    {
        let begun = match self.take(alloc) {
            Some(store) => Ok(store),
            None => begin(alloc, settings, UnseenFile, 0),
        };
        let mut store = match begun {
            Ok(store) => store,
            Err(status) => return status,
        };
        match read_on(alloc, &mut store) {
            Ok(status) => {
                self.put(alloc, store);
                status
            }
            Err(status) => status,
        }
    }
}
