//! The script over the log of a disk.

ghost use Rattle.std.specs.Prelude.{◌≡◌, false, IfOk, OnOk};
ghost use Rattle.sled_script.specs.OverDisk.{IsOpenedOver, RunsOver, ServesOver, with_log};
ghost use Rattle.sled_script.specs.Settings.{settings};

use super::{CLEAN_EVERY, CONFIG, Fault};
use crate::run::{RunError, run};
use sled_disk::{Disk, DiskLog};
use sled_pagecache::{Error, Log, LogError, PageCache};
use std::alloc::Global;
use std::io::{BufReader, Read, Write};

/// Runs the script over the log of a disk. An empty disk gets an empty log.
///
/// Over a file of the system the disk is a `FileDisk<F>`, whose bytes are known to contracts if the file `F` keeps its promises.
pub fn serve_on<D: Disk, R: Read, W: Write>(
    alloc: Global,
    disk: D,
    reader: &mut R,
    writer: &mut W,
) -> Result<(), Fault>
    ensures { D.tells → ServesOver ⟦<DiskLog<D> as Log>⟧ settings (D.seen disk)
        (R.remaining reader.old) (W.contents writer.old) (W.contents writer.new) result }
{
    match open_on(alloc, disk) {
        Ok(mut cache) => serve(alloc, &mut cache, reader, writer),
        Err(error) => Err(Fault::Opening(error)),
    }
}

// Gives a disk that has no bytes a log of no messages.
fn make_log<D: Disk>(disk: &mut D) -> Result<(), LogError>
    ensures { D.tells → OnOk result (D.seen disk.new ≡ with_log (D.seen disk.old)) }
{
    if disk.len()? > 0 {
        return Ok(());
    }
    DiskLog::create(disk)
}

// Opens a cache over the log that a disk holds.
fn open_on<D: Disk>(alloc: Global, mut disk: D) -> Result<PageCache<DiskLog<D>>, Error>
    ensures closed { IfOk result (λ cache. cache.batch ≡ false) }
    ensures opened { D.tells
        → IfOk result (IsOpenedOver ⟦<DiskLog<D> as Log>⟧ settings (D.seen disk)) }
{
    make_log(&mut disk)?;
    let log = match DiskLog::open(alloc, disk, CONFIG.segment_size as u64, CLEAN_EVERY) {
        Ok(log) => log,
        Err((error, _)) => return Err(error.into()),
    };
    match PageCache::start(alloc, CONFIG, log) {
        Ok(cache) => Ok(cache),
        Err((error, _)) => Err(error),
    }
}

/// Runs the script over a cache.
pub fn serve<L: Log, R: Read, W: Write>(
    alloc: Global,
    cache: &mut PageCache<L>,
    reader: &mut R,
    writer: &mut W,
) -> Result<(), Fault>
    requires { cache.old.batch ≡ false }
    ensures { RunsOver L.Log cache.old (R.remaining reader.old) (W.contents writer.old)
        (W.contents writer.new) result }
{
    let Ok(mut input) = BufReader::new(alloc, reader) else {
        return Err(Fault::Run(RunError::Memory));
    };
    match run(alloc, cache, &mut input, writer) {
        Ok(()) => Ok(()),
        Err(error) => Err(Fault::Run(error)),
    }
}
