//! The script over maps in memory or in a file.

ghost use Rattle.std.specs.Prelude.{◌≡◌, true, false};
ghost use Rattle.sled_log.specs.Events.{is_open};

use super::Fault;
use crate::script::{RunError, run};
use sled_tree::sled_pagecache::LogError;
use sled_tree::{Config, Disk, DiskLog, Error, FileDisk, Log, MemLog, PageCache, Trees};
use std::alloc::{AllocGlobal, Global};
use std::fs::{File, Files};
use std::io::{BufReader, Read, Write};

/// The settings of every cache that the program opens. The capacity, which is sled's own, is only a bound: memory is allocated as pages are used.
/// What isn't flushed yet is written to the file, and synced, a mebibyte at a time.
const CONFIG: Config = Config {
    cache_capacity: 1_073_741_824,
    idgen_persist_interval: 10,
    segment_size: 1_048_576,
};

/// Payloads of more than this many bytes are kept as blobs in memory.
const BLOB_LIMIT: usize = 512;

/// One page is due to be moved for each of this many messages.
const CLEAN_EVERY: u64 = 16;

/// Runs the script over maps in memory.
pub fn serve_memory<R: Read, W: Write>(
    alloc: Global,
    reader: &mut R,
    writer: &mut W,
) -> Result<(), Fault> {
    serve_log(
        alloc,
        MemLog::new(alloc, BLOB_LIMIT, CLEAN_EVERY),
        reader,
        writer,
    )
}

/// Runs the script over the maps in a file, which is created if it doesn't exist.
pub fn serve_file<H: Files<File = File> + AllocGlobal, R: Read, W: Write>(
    rt: &H,
    path: &str,
    reader: &mut R,
    writer: &mut W,
) -> Result<(), Fault> {
    match FileDisk::open(rt, path) {
        Ok(disk) => serve_disk(rt.alloc(), disk, reader, writer),
        Err(error) => Err(Fault::Opening(error.into())),
    }
}

/// Runs the script over the maps in the log of a disk. An empty disk gets an empty log.
pub fn serve_disk<D: Disk, R: Read, W: Write>(
    alloc: Global,
    mut disk: D,
    reader: &mut R,
    writer: &mut W,
) -> Result<(), Fault> {
    if let Err(error) = make_log(&mut disk) {
        return Err(Fault::Opening(error.into()));
    }
    match DiskLog::open(alloc, disk, CONFIG.segment_size as u64, CLEAN_EVERY) {
        Ok(log) => serve_log(alloc, log, reader, writer),
        Err((error, _)) => Err(Fault::Opening(error.into())),
    }
}

// Gives a disk that has no bytes a log of no messages.
fn make_log<D: Disk>(disk: &mut D) -> Result<(), LogError> {
    if disk.len()? > 0 {
        return Ok(());
    }
    DiskLog::create(disk)
}

fn serve_log<L: Log, R: Read, W: Write>(
    alloc: Global,
    log: L,
    reader: &mut R,
    writer: &mut W,
) -> Result<(), Fault>
    requires usable { (L.state log).usable ≡ true }
    requires closed { is_open (L.state log).pending ≡ false }
{
    match PageCache::start(alloc, CONFIG, log) {
        Ok(cache) => serve(alloc, Trees::new(alloc, cache), reader, writer),
        Err((error, _)) => Err(Fault::Opening(error)),
    }
}

fn serve<L: Log, R: Read, W: Write>(
    alloc: Global,
    mut trees: Trees<L>,
    reader: &mut R,
    writer: &mut W,
) -> Result<(), Fault> {
    let Ok(mut input) = BufReader::new(alloc, reader) else {
        return Err(Fault::Run(RunError::Memory));
    };
    run(alloc, &mut trees, &mut input, writer).map_err(Fault::Run)
}
