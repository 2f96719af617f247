//! Opening and closing a batch of a cache. The guard of a batch calls these too.

ghost use Rattle.std.specs.Prelude.{◌≡◌, true};
ghost use Rattle.sled_pagecache.specs.Batches.{OpensBatch, ClosesBatch, SealsBatch, CancelsBatch};
ghost use Rattle.sled_pagecache.specs.Inside.StickyLog.{answer_of, call_of};
ghost use Rattle.sled_pagecache.specs.Memory.{IsBounded};

use super::PageCache;
use crate::pagecache::write::sticky_log::Closing;
use sled_base::{Device, Error, Why};
use sled_log::Log;

impl<L: Log> PageCache<L> {
    /// Returns whether a batch is open. This is the test for the preconditions of `seal`, `cancel` and `into_log`. It doesn't call the log.
    pub fn batch_open(&self) -> bool
        ensures { result ≡ self.now.batch }
    {
        self.writer.sticky_log.batch
    }

    /// Opens a batch, for callers that can't hold a guard across the changes. The batch stays open until `seal` or `cancel`. The compiler
    /// doesn't check that it is closed, as it does for [`pin_log`](PageCache::pin_log).
    ///
    /// It fails with `BatchOpen` if a batch is open, and with `LogFull` if the log has no room for its marks. These and `OutOfMemory` open
    /// no batch, and leave every page and message unchanged. A write error is sticky: every later call returns it until the log is
    /// reopened.
    pub fn pin(&mut self) -> Result<(), Error>
        ensures opens { OpensBatch L.Log self.old result self.new }
        ensures bounded { IsBounded L.Log self.new }
    {
        if self.writer.sticky_log.fault {
            return Err(Error::Io(Device::Write));
        }
        if self.writer.sticky_log.batch {
            return Err(Error::Unsupported(Why::BatchOpen));
        }
        self.writer.sticky_log.pin()?;
        self.writer.sticky_log.batch = true;
        Ok(())
    }

    /// Closes the open batch and makes it atomic: a crash leaves all of it or nothing, and all of it once a flush has returned Ok.
    ///
    /// It allocates nothing, and fails only with a write error, which is sticky. The batch is closed even then. After an earlier write
    /// error it doesn't call the log.
    pub fn seal(&mut self) -> Result<(), Error>
        requires { self.old.batch ≡ true }
        ensures closes { SealsBatch L.Log self.old result self.new }
        ensures bounded { IsBounded L.Log self.new }
    {
        self.close(Closing::Seal)
    }

    /// Closes the open batch without making it atomic: a crash may leave a part of it. Its changes stay in the cache: nothing is undone.
    ///
    /// It allocates nothing, and fails only with a write error, which is sticky. The batch is closed even then. After an earlier write
    /// error it doesn't call the log.
    pub fn cancel(&mut self) -> Result<(), Error>
        requires { self.old.batch ≡ true }
        ensures closes { CancelsBatch L.Log self.old result self.new }
        ensures bounded { IsBounded L.Log self.new }
    {
        self.close(Closing::Cancel)
    }

    // Closes the open batch so. With a write error kept, the log isn't called.
    fn close(&mut self, closing: Closing) -> Result<(), Error>
        requires { self.old.batch ≡ true }
        ensures closes { ClosesBatch L.Log (call_of closing) (answer_of closing) self.old result
            self.new }
        ensures bounded { IsBounded L.Log self.new }
    {
        self.writer.sticky_log.batch = false;
        if self.writer.sticky_log.fault {
            return Err(Error::Io(Device::Write));
        }
        Ok(self.writer.sticky_log.close(closing)?)
    }
}
