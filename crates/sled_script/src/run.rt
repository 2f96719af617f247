//! Reading lines, and writing the replies to them.

ghost use Rattle.std.specs.Prelude.{◌≡◌, false};
ghost use Rattle.sled_script.specs.Runs.{Serves, run_error_of};
ghost use Rattle.sled_script.specs.Served.{ServesAll, ServesUntil};

use crate::batch::serve_batch;
use crate::command::Mark;
use crate::line::serve_line;
use sled_lines::output::{flush_unless, gather_text, write_rest};
use sled_lines::{Ahead, Line, Piece, ReadError, Unwritten, read_line};
use sled_pagecache::{Log, PageCache};
use std::alloc::{AllocError, Global};
use std::io::{BufRead, Write};
use thiserror::Error;

/// Why a run ended before its input did.
#[derive(Clone, Copy, Debug, Error)]
pub enum RunError {
    /// The input could not be read.
    #[error("error read")]
    Read,
    /// A reply could not be written.
    #[error("error write")]
    Write,
    /// An allocation failed for a line or for its arguments.
    #[error("error memory")]
    Memory,
}

impl From<ReadError> for RunError {
    ghost from_gives = { λ e r. r ≡ run_error_of e };

    fn from(error: ReadError) -> RunError {
        match error {
            ReadError::Read => RunError::Read,
            ReadError::Memory => RunError::Memory,
        }
    }
}

impl From<AllocError> for RunError {
    ghost use Rattle.sled_script.specs.declared.run.RunError.TheVariants.{Memory};

    ghost from_gives = { λ _ r. r ≡ Memory };

    fn from(_error: AllocError) -> RunError {
        RunError::Memory
    }
}

impl From<Unwritten> for RunError {
    ghost use Rattle.sled_script.specs.declared.run.RunError.TheVariants.{Write};

    ghost from_gives = { λ _ r. r ≡ Write };

    fn from(_error: Unwritten) -> RunError {
        RunError::Write
    }
}

/// Where serving lines ended.
#[derive(Clone, Copy)]
pub enum Stop {
    /// The end of the input.
    End,
    /// Before a line that opens or closes a batch, which was read and not answered.
    At { mark: Mark, is_followed: bool },
}

/// A line that is no command, or that is longer than 65,536 bytes, is answered by `error line` and changes nothing. So is one that closes a batch
/// when none is open. A batch that is open at the end of the input, or at an error, is cancelled without a reply. The calls are steps in a row: what
/// they write is appended to the log in order, and a crash at any point leaves what the log held and a prefix of the rest that splits no batch. Apart
/// from the pages and the log, at most one line is held in memory.
///
/// A line that is no command, or is longer than 65,536 bytes, is answered by `error line` and changes nothing, and so is one that
/// closes a batch where none is open. A batch that is open at the end, an error too, is cancelled, without a reply. The calls are
/// steps in a row: what they write is added to the log in order, and a crash at any moment leaves what the log held and a
/// prefix of that which splits no batch. Apart from the pages and the log, at most one line is held in memory.
///
/// The writer is flushed after each line that isn't followed by another whole line in the reader's buffer. So it is flushed before every read that
/// may block, and once for lines that were read together.
///
/// After an error a prefix of the lines was answered. After [`RunError::Read`] and [`RunError::Memory`] the replies to them were written, and after
/// [`RunError::Write`] a prefix of these replies.
pub fn run<L: Log, R: BufRead, W: Write>(
    alloc: Global,
    cache: &mut PageCache<L>,
    reader: &mut R,
    writer: &mut W,
) -> Result<(), RunError>
    requires { cache.old.batch ≡ false }
    ensures { Serves L.Log cache.old (R.remaining reader.old) (W.contents writer.old)
        (W.contents writer.new) result cache.new }
{
    let mut piece = Piece::new();
    match serve_lines(alloc, cache, reader, writer, &mut piece) {
        Ok(()) => {
            write_rest(writer, &piece)?;
            Ok(())
        }
        Err(RunError::Read) => {
            write_rest(writer, &piece)?;
            Err(RunError::Read)
        }
        Err(RunError::Memory) => {
            write_rest(writer, &piece)?;
            Err(RunError::Memory)
        }
        Err(RunError::Write) => Err(RunError::Write),
    }
}

// Serves all lines: those outside batches, and batches. The last replies may be left in the piece.
fn serve_lines<L: Log, R: BufRead, W: Write>(
    alloc: Global,
    cache: &mut PageCache<L>,
    reader: &mut R,
    writer: &mut W,
    piece: &mut Piece,
) -> Result<(), RunError>
    requires { cache.old.batch ≡ false }
    ensures { ServesAll L.Log cache.old (R.remaining reader.old) (W.contents writer.old)
        (W.contents writer.new) piece.old piece.new result cache.new }
{
    for _ in 0..u64::MAX {
        let is_followed = match serve_until(alloc, cache, reader, writer, piece)? {
            Stop::End => return Ok(()),
            Stop::At { is_followed, .. } => is_followed,
        };
        if !serve_batch(alloc, cache, is_followed, reader, writer, piece)? {
            return Ok(());
        }
    }
    Err(RunError::Read)
}

/// Serves lines, up to one that opens a batch when none is open, or closes the open one. The last replies may still be in the piece.
pub fn serve_until<L: Log, R: BufRead, W: Write>(
    alloc: Global,
    cache: &mut PageCache<L>,
    reader: &mut R,
    writer: &mut W,
    piece: &mut Piece,
) -> Result<Stop, RunError>
    ensures serves { ServesUntil L.Log cache.old (R.remaining reader.old) (R.remaining reader.new)
        (W.contents writer.old) (W.contents writer.new) piece.old piece.new result cache.new }
    ensures batch { cache.new.batch ≡ cache.old.batch }
{
    let mut line = Vec::new(alloc);
    let mut ahead = Ahead::unknown();
    for _ in 0..u64::MAX {
        let is_followed = match read_line(reader, &mut ahead, &mut line)? {
            Line::End => return Ok(Stop::End),
            Line::Whole { is_followed } => {
                if let Some(mark) = serve_line(alloc, cache, &line, writer, piece)? {
                    return Ok(Stop::At { mark, is_followed });
                }
                is_followed
            }
            Line::TooLong => {
                gather_text(writer, piece, b"error line\n")?;
                false
            }
        };
        flush_unless(is_followed, writer, piece)?;
    }
    Err(RunError::Read)
}
