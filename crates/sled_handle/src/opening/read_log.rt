// A log that was read, and one of which a part was.

ghost use Rattle.sled_disk.specs.ReaderState.{GoesOn};
ghost use Rattle.sled_disk.specs.Staged.{seen_of};
ghost use Rattle.sled_pagecache.specs.Opening.{MayBeOpened};

use sled_disk::{CallersFile, Reader, StagedDisk};
use sled_log::Log;

/// A disk of which a part was read, or all of it, and the reader that continues with the rest.
#[derive(Drop)]
pub struct PartRead<F: CallersFile> {
    pub reader: Reader,
    pub disk: StagedDisk<F>,
    ghost goes_on: { F.tells → GoesOn (seen_of disk) reader },
}

/// A log over which a cache can be opened.
#[derive(Drop)]
pub struct ReadLog<L: Log> {
    pub log: L,
    ghost may: { MayBeOpened L.Log log },
}
