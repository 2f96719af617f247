//! Theorems about caches that are opened over one log, one after another.

ghost use Rattle.sled_pagecache.specs.Openings.{EveryIdIsNew};
ghost use Rattle.sled_pagecache.specs.Prefixes.{EveryOpeningShowsAPrefix};

use sled_disk::{CallersFile, Disk, DiskLog, FileDisk, MemDisk, StagedDisk, SystemFile};
use sled_log::Log;

/// Proves that every opening shows the pages after a prefix of the changes that were begun before it. The prefix holds everything that was
/// flushed, and splits no batch.
///
/// This holds from an empty log, over every sequence of openings, calls, crashes at any moment, and logs that are passed on or rewritten.
/// The cache of each opening is what is opened of those pages, and from there its answers are those of the machine.
///
/// Each crash keeps such a prefix of what was added since the crash before it, and later changes are added to that prefix. A flush that
/// returned Ok has flushed everything before it, and so has the generation of an id that wrote a counter.
///
/// A cache is opened over what the previous opening left. This is what a crash left, even inside a call, inside `start` or inside
/// `rewrite_into`, and after a write error; or the log that `into_log` returned, if no write failed; or another log that `rewrite_into`
/// returned, which holds the pages of that moment, all of them flushed; or the log that `start` returned with an error other than a write
/// error.
///
/// Between two calls, and before a log is opened, the caller may read and write for the log, which stays in its state (`IsServed`). An
/// opening fails only because of an allocation, the device, the settings, or a log that has no room for a missing system page. The theorem
/// assumes nothing else, and holds for any log that tells its bytes.
pub fn every_opening_shows_a_prefix<L: Log>()
    ensures { L.tells → EveryOpeningShowsAPrefix L.Log }
{}

/// Proves the same for a log on a disk in memory, which tells its bytes: whatever is torn, and wherever the disk stops.
pub fn every_opening_of_a_disk_shows_a_prefix()
    ensures { EveryOpeningShowsAPrefix ⟦<DiskLog<MemDisk> as Log>⟧ }
{
    every_opening_shows_a_prefix::<DiskLog<MemDisk>>();
}

/// Proves the same for a log on a file of the system, if the system keeps its word. `SystemFile` defines what that is.
pub fn every_opening_of_a_file_shows_a_prefix<F: SystemFile>()
    ensures { F.tells → EveryOpeningShowsAPrefix ⟦<DiskLog<FileDisk<F>> as Log>⟧ }
{
    every_opening_shows_a_prefix::<DiskLog<FileDisk<F>>>();
}

/// Proves the same for a log whose caller reads and writes its file (`StagedDisk`), if the caller keeps its word about the file.
/// `CallersFile` defines what that is. The caller may do the waiting tasks between any two calls, or later, or never.
pub fn every_opening_of_a_callers_file_shows_a_prefix<F: CallersFile>()
    ensures { F.tells → EveryOpeningShowsAPrefix ⟦<DiskLog<StagedDisk<F>> as Log>⟧ }
{
    every_opening_shows_a_prefix::<DiskLog<StagedDisk<F>>>();
}

/// Proves that no generated id is repeated, whatever crashes and rewritten logs come between: each generated id is greater than every id
/// that was returned before it.
///
/// This holds from an empty log, over every sequence of openings as above in which no opened cache has a shorter interval of ids than one
/// before it.
pub fn ids_are_given_once<L: Log>()
    ensures { L.tells → EveryIdIsNew L.Log }
{}

/// Proves the same for a log on a file of the system, if the system keeps its word.
pub fn ids_over_a_file_are_given_once<F: SystemFile>()
    ensures { F.tells → EveryIdIsNew ⟦<DiskLog<FileDisk<F>> as Log>⟧ }
{
    ids_are_given_once::<DiskLog<FileDisk<F>>>();
}

/// Proves the same for a log whose caller reads and writes its file, if the caller keeps its word.
pub fn ids_over_a_callers_file_are_given_once<F: CallersFile>()
    ensures { F.tells → EveryIdIsNew ⟦<DiskLog<StagedDisk<F>> as Log>⟧ }
{
    ids_are_given_once::<DiskLog<StagedDisk<F>>>();
}
