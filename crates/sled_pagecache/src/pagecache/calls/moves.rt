//! The moves of a cache: each writes a page again, as it is.

ghost use Rattle.sled_pagecache.specs.Moves.{AttemptsMove};

use super::PageCache;
use crate::pagecache::memory::evict::end_move;
use crate::pagecache::write::page_move::{lies_in, move_page};
use sled_base::{Device, Error};
use sled_log::Log;

impl<L: Log> PageCache<L> {
    /// Moves the page that is due, if the log names one, and returns whether the log named one. No page, stamp or id changes.
    ///
    /// A log names the messages of pages one after another, one whenever a set number of messages was appended. If one of the page's
    /// messages is in the segment of the named message, the page is written again in one message, even if it is free or the cache's own;
    /// otherwise nothing is done. A page that isn't in memory is read, by one read for each of its messages, and is in memory then. A page
    /// whose only message is stored as a blob isn't read: another message that names the blob is written, and the page stays in memory or
    /// out of it.
    ///
    /// It fails with `Corruption` if the messages of a page that is read make no node, with the pointer of the first wrong one, and with
    /// `LogFull` if the log has no room. These, `Io` and `OutOfMemory` leave every page unchanged; the log doesn't name the message again.
    /// A write error is sticky: every later call returns it until the log is reopened.
    pub fn attempt_gc(&mut self) -> Result<bool, Error>
        ensures { AttemptsMove L.Log self.old result self.new }
    {
        if self.writer.sticky_log.fault {
            return Err(Error::Io(Device::Write));
        }
        let Some((pid, place)) = self.writer.sticky_log.to_move() else {
            return Ok(false);
        };
        let Some(page) = self.pages.get(pid) else {
            return Ok(true);
        };
        if !lies_in(self.config, place, page.cache_infos()) {
            return Ok(true);
        }
        let page = self.pages.get_mut(pid);
        let moved = move_page(&mut self.writer, pid, page);
        end_move(&mut self.pages, &mut self.writer.accesses, pid, moved)
    }
}
