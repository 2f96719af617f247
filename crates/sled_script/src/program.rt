//! The program: its arguments, its streams and its status.

ghost use Rattle.std.specs.Prelude.{◌≡◌, ◌↔◌, ℕ, ◌*◌, ◌+◌, ◌≤◌, [], true, map, Some, IfOk, IfSome, IfNone, IsErrOf};
ghost use Rattle.std.specs.Option.{option_map};
ghost use Rattle.std.specs.Result.{result_ok, result_map_both};
ghost use Rattle.std.specs.String.{string_bytes};
ghost use Rattle.std.specs.Io.KnownBytes.{Appends};
ghost use Rattle.sled_log.specs.MemLog.State.{state_of, settings_of};
ghost use Rattle.sled_lines.specs.Output.{Writes};
ghost use Rattle.sled_script.specs.Job.{AskFor, AskForCrew, AskForJob, AskForNone, EncodeCrew, IsNew, crew_text};
ghost use Rattle.sled_script.specs.Settings.{settings, log_settings, status_of, ended, failed, wrong_words};

mod crew;
mod over_disk;

use crate::run::RunError;
use crew::draw_ids;
use over_disk::{serve, serve_on};
use sled_disk::FileDisk;
pub use sled_lines::NoWords;
use sled_lines::output::write_rest;
use sled_lines::words::number_of;
use sled_lines::{Piece, Unwritten};
use sled_pagecache::{Config, Error, MemLog, PageCache};
use sled_shared::Blank;
use std::alloc::{AllocGlobal, Global};
use std::fs::{File, Files};
use std::io::{Read, Write};
use std::marker::Brand;
use std::sync::Wait;
use std::thread::Threads;

/// The status if the script ended with its input.
const DONE: u8 = 0;

/// The status if an opening, a stream or an allocation failed.
const FAILED: u8 = 1;

/// The status if the arguments are no command.
const WRONG_WORDS: u8 = 2;

const USAGE: &str = "usage: sledpc mem | file PATH | crew N M\n";

/// The settings of every cache that the program opens.
const CONFIG: Config = Config {
    cache_capacity: 1_048_576,
    idgen_persist_interval: 10,
    segment_size: 4096,
};

/// Payloads of more than this many bytes are kept as blobs in memory.
const BLOB_LIMIT: usize = 512;

/// One page is due to be moved for each of this many messages.
const CLEAN_EVERY: u64 = 16;

/// The greatest number of threads in a crew.
const MOST_WORKERS: u64 = 64;

/// The greatest number of calls that each thread of a crew makes.
const MOST_CALLS: u64 = 10_000;

/// What the arguments ask for.
enum Job<'a> {
    /// `mem`: the script over a new log in memory.
    Memory,
    /// `file PATH`: the script over the log in this file.
    OnFile(&'a str),
    /// `crew N M`: N threads, each of which generates M ids.
    Crew(u64, u64),
}

/// Why a job failed.
#[derive(Debug, Drop, thiserror::Error)]
enum Fault {
    #[error(transparent)]
    Opening(Error),
    #[error(transparent)]
    Run(RunError),
}

/// Runs the program and returns its status: 0 if the script ended with its input, 1 if an opening, a stream or an allocation failed, and 2 if the
/// arguments are wrong.
///
/// `words` are the arguments after the program's own path. A failure is reported to `faults` in one line. If there are no arguments, or wrong ones,
/// nothing is opened, and no stream except `faults` is touched.
pub fn drive<
    H: Files<File = File> + Threads + Wait + Copy + Send + 'static,
    R: Read,
    W: Write,
    F: Write,
>(
    rt: H,
    alloc: Global,
    words: Result<&[String], NoWords>,
    reader: &mut R,
    writer: &mut W,
    faults: &mut F,
) -> u8
    ensures wrong { (result ≡ wrong_words) ↔ AskForNone
        (result_map_both (λ given. map string_bytes given.now) (λ why. why) words.entry) }
    ensures crew { (workers calls : ℕ)
        → AskForCrew workers calls (option_map (λ given. map string_bytes given.now)
        (result_ok words.entry))
        → result ≡ ended
        → Appends (W.contents writer.old) (W.contents writer.new) (crew_text (workers * calls)) }
    ensures memory { IsErrOf words.entry NoWords.Memory → result ≡ failed }
{
    match words {
        Ok(words) => drive_by(rt, alloc, Some(words), reader, writer, faults),
        Err(NoWords::NoText) => drive_by(rt, alloc, None, reader, writer, faults),
        Err(NoWords::Memory) => report(Err(Fault::Run(RunError::Memory)), faults),
    }
}

// The same where nothing failed for the words, of which there are none where they are no text.
fn drive_by<
    H: Files<File = File> + Threads + Wait + Copy + Send + 'static,
    R: Read,
    W: Write,
    F: Write,
>(
    rt: H,
    alloc: Global,
    words: Option<&[String]>,
    reader: &mut R,
    writer: &mut W,
    faults: &mut F,
) -> u8
    ensures wrong { (result ≡ wrong_words)
        ↔ ¬ AskForJob (option_map (λ given. map string_bytes given.now) words.entry) }
    ensures crew { (workers calls : ℕ)
        → AskForCrew workers calls (option_map (λ given. map string_bytes given.now) words.entry)
        → result ≡ ended
        → Appends (W.contents writer.old) (W.contents writer.new) (crew_text (workers * calls)) }
{
    let Some(job) = asked(words) else {
        let _ = faults.write_all(USAGE.as_bytes());
        return WRONG_WORDS;
    };
    let outcome = match job {
        Job::Memory => serve_memory(alloc, reader, writer),
        Job::OnFile(path) => serve_file(&(rt, alloc), path, reader, writer),
        Job::Crew(workers, calls) => serve_crew(rt, alloc, workers, calls, writer),
    };
    report(outcome, faults)
}

// Says what failed, if something did, and answers the status.
fn report<F: Write>(outcome: Result<(), Fault>, faults: &mut F) -> u8
    ensures { result ≡ status_of outcome }
{
    match outcome {
        Ok(()) => DONE,
        Err(fault) => {
            let _ = writeln!(faults, "sledpc: {fault}");
            FAILED
        }
    }
}

// What the words ask for, if they are text.
fn asked(words: Option<&[String]>) -> Option<Job<'_>>
    ensures some { IfSome result
        (λ job. AskFor job (option_map (λ given. map string_bytes given.now) words.entry)) }
    ensures none { IfNone result
        (¬ AskForJob (option_map (λ given. map string_bytes given.now) words.entry)) }
{
    match words {
        Some(words) => job_of(words),
        None => None,
    }
}

fn job_of(words: &[String]) -> Option<Job<'_>>
    ensures some { IfSome result (λ job. AskFor job (Some (map string_bytes words.now))) }
    ensures none { IfNone result (¬ AskForJob (Some (map string_bytes words.now))) }
{
    match words {
        [word] if word.as_str() == "mem" => Some(Job::Memory),
        [word, path] if word.as_str() == "file" => Some(Job::OnFile(path.as_str())),
        [word, workers, calls] if word.as_str() == "crew" => {
            let (workers, calls) = crew_of(workers.as_bytes(), calls.as_bytes())?;
            Some(Job::Crew(workers, calls))
        }
        _ => None,
    }
}

// How many threads and calls the words of a crew encode.
fn crew_of(workers: &[u8], calls: &[u8]) -> Option<(u64, u64)>
    ensures some { IfSome result (λ crew. EncodeCrew workers.now calls.now crew.0 crew.1) }
    ensures none { IfNone result ((w c : ℕ) → ¬ EncodeCrew workers.now calls.now w c) }
{
    let workers = number_of(workers)?;
    let calls = number_of(calls)?;
    if 0 < workers && workers <= MOST_WORKERS && calls <= MOST_CALLS {
        Some((workers, calls))
    } else {
        None
    }
}

// Opens a cache over a new log in memory.
fn open_memory(alloc: Global) -> Result<PageCache<MemLog>, Error>
    ensures { IfOk result (IsNew settings) }
{
    match PageCache::start(alloc, CONFIG, new_log(alloc)) {
        Ok(cache) => Ok(cache),
        Err((error, _)) => Err(error),
    }
}

// A new log in memory.
fn new_log(alloc: Global) -> MemLog
    ensures state { state_of result ≡ record { stable = []; pending = []; usable = true } }
    ensures settings { settings_of result ≡ log_settings }
{
    MemLog::new(alloc, BLOB_LIMIT, CLEAN_EVERY)
}

// Runs the script over a new log in memory.
fn serve_memory<R: Read, W: Write>(
    alloc: Global,
    reader: &mut R,
    writer: &mut W,
) -> Result<(), Fault> {
    match open_memory(alloc) {
        Ok(mut cache) => serve(alloc, &mut cache, reader, writer),
        Err(error) => Err(Fault::Opening(error)),
    }
}

// Runs the script over the log in the file of a path.
fn serve_file<H: Files<File = File> + AllocGlobal, R: Read, W: Write>(
    rt: &H,
    path: &str,
    reader: &mut R,
    writer: &mut W,
) -> Result<(), Fault> {
    match FileDisk::open(rt, path) {
        Ok(disk) => serve_on(rt.alloc(), disk, reader, writer),
        Err(error) => Err(Fault::Opening(error.into())),
    }
}

// Draws ids in threads, and tells how many calls that were.
fn serve_crew<W: Write, T: Threads + Wait + Copy + Send + 'static>(
    rt: T,
    alloc: Global,
    workers: u64,
    calls: u64,
    writer: &mut W,
) -> Result<(), Fault>
    requires workers { workers ≤ 64 }
    requires calls { calls ≤ 10000 }
    ensures { Writes (W.contents writer.old) (W.contents writer.new) result
        (crew_text (workers * calls)) }
{
    match draw_ids::<Brand, T>(rt, alloc, workers, calls, Blank::new(workers + 1)) {
        Ok(made) => write_calls(writer, made).map_err(|_| Fault::Run(RunError::Write)),
        Err(error) => Err(Fault::Opening(error)),
    }
}

// Writes how many calls were made.
fn write_calls<W: Write>(writer: &mut W, made: u64) -> Result<(), Unwritten>
    ensures { Writes (W.contents writer.old) (W.contents writer.new) result (crew_text made) }
{
    let mut piece = Piece::new();
    piece.put_number(made);
    piece.put_text(b" calls\n");
    write_rest(writer, &piece)
}
