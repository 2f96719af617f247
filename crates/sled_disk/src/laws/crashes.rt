//! The chain of contracts, at the disk in memory: a log on a disk, a crash, and the log opened on what it left.

ghost use Rattle.std.specs.Prelude.{◌≡◌, ℕ, ◌-◌, ◌≤◌, List, [], min, IfOk, IfErr, IsTrue, true};
ghost use Rattle.sled_log.specs.Events.{is_open};
ghost use Rattle.sled_log.specs.LogState.{IsLeft, now, unplaced_state};
ghost use Rattle.sled_log.specs.Runs.{can_make_all, events_of_all};
ghost use Rattle.sled_log.specs.Messages.{Messages, effect_of};
ghost use Rattle.sled_log.specs.Calls.{HasGrown};
ghost use Rattle.sled_disk.specs.DiskMemory.{clock_of, counts_of};
ghost use Rattle.sled_log.specs.declared.log.LogError.TheVariants.{Full, ReadFault, WriteFault, Corruption};

use crate::disk::{FileDisk, MemDisk, SystemFile};
use crate::log::DiskLog;
use sled_log::runs::make_calls;
use sled_log::{Log, LogCall, LogError};
use std::alloc::Global;

/// Proves that a log on a disk in memory tells its bytes.
pub fn a_log_on_a_disk_in_memory_tells()
    ensures { ⟦<DiskLog<MemDisk> as Log>⟧.tells }
{}

/// Proves that a log on a file of the system tells its bytes, if the system keeps its word about the file.
pub fn a_log_on_a_file_tells<F: SystemFile>()
    ensures { F.tells → ⟦<DiskLog<FileDisk<F>> as Log>⟧.tells }
{}

/// Proves that such files exist: a log on a file in memory tells its bytes.
pub fn a_log_on_a_file_in_memory_tells()
    ensures { ⟦<DiskLog<FileDisk<MemDisk>> as Log>⟧.tells }
{}

/// Proves what is known about the crash states of a log between two calls. A crash may leave exactly what is durable. It leaves no more
/// than that and a prefix of what is pending, which splits no batch, except a cancelled one. The crash states since a moment are among
/// those since any earlier one.
pub fn a_log_at_rest<L: Log>(_log: &L)
    ensures keeps { L.tells → (L.state _log.now).usable ≡ true
        → L.left_since _log.now (L.moment _log.now) (unplaced_state (L.state _log.now)).stable }
    ensures only { (pages : List Messages)
        → L.tells
        → (L.state _log.now).usable ≡ true
        → L.left_since _log.now (L.moment _log.now) pages
        → IsLeft effect_of (unplaced_state (L.state _log.now)) [] pages }
    ensures earlier { (t u : ℕ) (pages : List Messages) → L.tells → t ≤ u
        → L.left_since _log.now u pages → L.left_since _log.now t pages }
{}

/// Proves the same of a log on a disk in memory, without the premise that it tells its bytes.
pub fn a_disk_log_at_rest(log: &DiskLog<MemDisk>)
    ensures keeps { (⟦<DiskLog<MemDisk> as Log>⟧.state log.now).usable ≡ true
        → ⟦<DiskLog<MemDisk> as Log>⟧.left_since log.now (⟦<DiskLog<MemDisk> as Log>⟧.moment
        log.now) (unplaced_state (⟦<DiskLog<MemDisk> as Log>⟧.state log.now)).stable }
    ensures only { (pages : List Messages)
        → (⟦<DiskLog<MemDisk> as Log>⟧.state log.now).usable ≡ true
        → ⟦<DiskLog<MemDisk> as Log>⟧.left_since log.now
        (⟦<DiskLog<MemDisk> as Log>⟧.moment log.now) pages
        → IsLeft effect_of (unplaced_state (⟦<DiskLog<MemDisk> as Log>⟧.state log.now)) [] pages }
{
    a_log_at_rest(log);
}

/// Crashes the disk of a log before its `n`-th write or sync, as `MemDisk::stop` does, and opens the log on what is left. The new log holds
/// one of the crash states of the old one since that moment, all of it durable.
///
/// Corruption is returned only if the crash left bytes that describe nothing, which then counts as any pages at all. An error returns the
/// disk.
pub fn reopen_after_a_crash(
    alloc: Global,
    log: DiskLog<MemDisk>,
    n: usize,
    fill: Option<u8>,
    segment_size: u64,
    clean_every: u64,
) -> Result<DiskLog<MemDisk>, (LogError, MemDisk)>
    ensures usable { IfOk result (λ new. (⟦<DiskLog<MemDisk> as Log>⟧.state new).usable ≡ true) }
    ensures pending { IfOk result (λ new. (⟦<DiskLog<MemDisk> as Log>⟧.state new).pending ≡ []) }
    ensures left { IfOk result (λ new. ⟦<DiskLog<MemDisk> as Log>⟧.left_since log (min (n - 1)
        (clock_of log.disk)) (unplaced_state (⟦<DiskLog<MemDisk> as Log>⟧.state new)).stable) }
    ensures sound { IfErr result (λ e. e.0 ≡ Corruption → (pages : List Messages)
        → ⟦<DiskLog<MemDisk> as Log>⟧.left_since log (min (n - 1) (clock_of log.disk)) pages) }
    ensures not_full { IfErr result (λ e. e.0 ≡ Full → ⊥) }
    ensures read_fault { IfErr result (λ e. e.0 ≡ ReadFault
        → HasGrown 0 (counts_of e.1).failed_reads) }
    ensures write_fault { IfErr result (λ e. e.0 ≡ WriteFault
        → HasGrown 0 (counts_of e.1).write_faults) }
{
    let left = log.into_disk().stop(n, fill);
    DiskLog::open(alloc, left, segment_size, clean_every)
}

/// Makes calls of a flushed log on a disk, whatever they return, crashes the disk at any moment since the flush, and opens the log on what
/// is left. Ranges that were not synced are as `MemDisk::stop` leaves them.
///
/// The new log holds everything that was flushed, and a prefix of what the calls add, which splits no batch, except a cancelled one. It
/// never fails with Corruption. An error returns the disk.
pub fn what_was_flushed_is_there(
    alloc: Global,
    mut log: DiskLog<MemDisk>,
    calls: &[LogCall],
    n: usize,
    fill: Option<u8>,
    segment_size: u64,
    clean_every: u64,
) -> Result<DiskLog<MemDisk>, (LogError, MemDisk)>
    requires usable { (⟦<DiskLog<MemDisk> as Log>⟧.state log).usable ≡ true }
    requires flushed { (⟦<DiskLog<MemDisk> as Log>⟧.state log).pending ≡ [] }
    requires can { IsTrue
        (can_make_all (now effect_of (unplaced_state (⟦<DiskLog<MemDisk> as Log>⟧.state log)))
        (is_open (⟦<DiskLog<MemDisk> as Log>⟧.state log).pending) calls.now) }
    requires since { clock_of log.disk ≤ n - 1 }
    ensures prefix { IfOk result
        (λ new. IsLeft effect_of (unplaced_state (⟦<DiskLog<MemDisk> as Log>⟧.state log))
        (events_of_all calls.now) (unplaced_state (⟦<DiskLog<MemDisk> as Log>⟧.state new)).stable) }
    ensures sound { IfErr result (λ e. e.0 ≡ Corruption → ⊥) }
    ensures not_full { IfErr result (λ e. e.0 ≡ Full → ⊥) }
    ensures read_fault { IfErr result (λ e. e.0 ≡ ReadFault
        → HasGrown 0 (counts_of e.1).failed_reads) }
    ensures write_fault { IfErr result (λ e. e.0 ≡ WriteFault
        → HasGrown 0 (counts_of e.1).write_faults) }
{
    let _whatever_they_answer = make_calls(&mut log, calls);
    reopen_after_a_crash(alloc, log, n, fill, segment_size, clean_every)
}
