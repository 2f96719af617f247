//! What holds of the maps of caches that are opened over one log, one after another.

ghost use Rattle.std.specs.Prelude.{◌≡◌, ◌⊎◌, ◌≤◌, ◌+◌, true, List, [], ◌∷◌, ◌++◌, length};
ghost use Rattle.std.specs.List.{AllByRecursion};
ghost use Rattle.sled_disk.specs.declared.disk.file.FileDisk.{FileDisk};
ghost use Rattle.sled_disk.specs.declared.disk.memory.MemDisk.{MemDisk};
ghost use Rattle.sled_disk.specs.declared.disk.staged.StagedDisk.{StagedDisk};
ghost use Rattle.sled_disk.specs.declared.log.DiskLog.{DiskLog};
ghost use Rattle.sled_log.specs.Contents.{Content, Update};
ghost use Rattle.sled_log.specs.Events.{Event, Pin, Seal};
ghost use Rattle.sled_pagecache.specs.Openings.{IsEmpty};
ghost use Rattle.sled_search.specs.Calls.{Call as Done, changes_of};
ghost use Rattle.sled_tree.specs.Calls.{MapCall, Needs, Does};
ghost use Rattle.sled_tree.specs.Named.{Named};
ghost use Rattle.sled_tree.specs.Openings.{Deed, Opening, IsRun};
ghost use Rattle.sled_tree.specs.Prefixes.{History, Survives, IsNoMark, flushes, history_from, history_after, named_by_now, nothing_named, ShowMaps};

use sled_disk::{CallersFile, Disk, DiskLog, FileDisk, MemDisk, StagedDisk, SystemFile};
use sled_log::Log;
use sled_pagecache::laws::a_served_cache_stays_as_it_is;
use sled_pagecache::openings::every_opening_shows_a_prefix;
use sled_pagecache::rows::calls_in_a_row_are_steps;

/// However maps are opened, used and crashed, each opening has the maps that a prefix of the earlier calls made. The run begins with an empty log for
/// which `tells` holds. It covers every list of openings with their calls, crashes at any moment, and logs that are passed to the next opening or
/// rewritten.
///
/// The prefix is one of all calls that began before. It holds every call that was flushed, and it splits no batch. Then each call of the opening
/// changes these maps as it says, one after another.
///
/// A call on a map makes several calls of the cache. A crash inside one of these, or between two of them, leaves the maps as they were before the
/// call, or as the call makes them. So does a write that fails; after that nothing is changed until the log is reopened. A call that makes a flush
/// flushes all calls before it. The log that an opening leaves is reopened as `every_opening_shows_a_prefix` says.
///
/// A run consists of what the contracts of the calls promise (`each_call_keeps_its_word`). If a call lacks what it needs, for example if its root has
/// no map, nothing is promised of that call and of all that follows.
pub fn every_opening_shows_maps<L: Log>()
    ensures { L.tells → (log : L) (openings : List (Opening L MapCall)) → IsEmpty L.Log log
        → IsRun L.Log Needs Does log openings
        → ShowMaps L.Log Needs Does (history_from [] nothing_named) openings }
{
    every_opening_shows_a_prefix::<L>();
    calls_in_a_row_are_steps::<L>();
    a_served_cache_stays_as_it_is::<L>();
}

/// The same over a log on a disk in memory, for which `tells` holds: whichever writes are torn, and wherever the disk stops.
pub fn every_opening_of_a_disk_shows_maps()
    ensures { (log : DiskLog MemDisk ⟦<MemDisk as Disk>⟧)
        (openings : List (Opening (DiskLog MemDisk ⟦<MemDisk as Disk>⟧) MapCall))
        → IsEmpty ⟦<DiskLog<MemDisk> as Log>⟧ log
        → IsRun ⟦<DiskLog<MemDisk> as Log>⟧ Needs Does log openings
        → ShowMaps ⟦<DiskLog<MemDisk> as Log>⟧ Needs Does
        (history_from [] nothing_named) openings }
{
    every_opening_shows_maps::<DiskLog<MemDisk>>();
}

/// The same over a log on a file of the system, if the system does what `SystemFile` assumes of it.
pub fn every_opening_of_a_file_shows_maps<F: SystemFile>()
    ensures { F.tells
        → (log : DiskLog (FileDisk F F.SystemFile) ⟦<FileDisk<F> as Disk>⟧)
        (openings : List
        (Opening (DiskLog (FileDisk F F.SystemFile) ⟦<FileDisk<F> as Disk>⟧) MapCall))
        → IsEmpty ⟦<DiskLog<FileDisk<F>> as Log>⟧ log
        → IsRun ⟦<DiskLog<FileDisk<F>> as Log>⟧ Needs Does log openings
        → ShowMaps ⟦<DiskLog<FileDisk<F>> as Log>⟧ Needs Does
        (history_from [] nothing_named) openings }
{
    every_opening_shows_maps::<DiskLog<FileDisk<F>>>();
}

/// The same over a log whose file the caller reads and writes (`StagedDisk`), if the caller does what `CallersFile` assumes of it.
pub fn every_opening_of_a_callers_file_shows_maps<F: CallersFile>()
    ensures { F.tells
        → (log : DiskLog (StagedDisk F F.CallersFile) ⟦<StagedDisk<F> as Disk>⟧)
        (openings : List
        (Opening (DiskLog (StagedDisk F F.CallersFile) ⟦<StagedDisk<F> as Disk>⟧) MapCall))
        → IsEmpty ⟦<DiskLog<StagedDisk<F>> as Log>⟧ log
        → IsRun ⟦<DiskLog<StagedDisk<F>> as Log>⟧ Needs Does log openings
        → ShowMaps ⟦<DiskLog<StagedDisk<F>> as Log>⟧ Needs Does
        (history_from [] nothing_named) openings }
{
    every_opening_shows_maps::<DiskLog<StagedDisk<F>>>();
}

/// If the last call made a flush and left the maps as they were, a crash leaves exactly these maps.
pub fn flushed_maps_survive()
    ensures { (h : History) (deed : Deed MapCall) (changes : List (Event Update))
        (pages : List Content) (w : Named) → flushes deed.calls ≡ true
        → Survives (history_after deed changes (named_by_now h) h) pages w → w ≡ named_by_now h }
{}

/// The calls between one that opens a batch and one that seals it survive a crash all or nothing. The maps are those after the call that opens
/// the batch or an earlier one, or those after the call that seals it or a later one.
pub fn a_batch_of_calls_survives_whole_or_not_at_all()
    ensures { (h : History) (before batch behind : List (Done Named)) (opened sealed : Named)
        → h.done
        ≡ before ++ (Pin ∷ [], opened) ∷ (batch ++ (Seal ∷ [], sealed) ∷ behind)
        → AllByRecursion IsNoMark (changes_of batch)
        → (pages : List Content) (w : Named) (survives : Survives h pages w)
        → (survives.prefix.count ≤ length before + 1)
        ⊎ (length before + length batch + 2 ≤ survives.prefix.count) }
{}
