//! Batches: the lines between the one that opens a batch and the one that closes it.

ghost use Rattle.std.specs.Prelude.{◌≡◌, ◌++◌, ◌∷◌, [], true, false, IsErr, Option, codes};
ghost use Rattle.sled_base.specs.Order.{Bytes};
ghost use Rattle.sled_pagecache.specs.Batches.{OpensBatch};
ghost use Rattle.sled_pagecache.specs.Cache.{Cache};
ghost use Rattle.sled_pagecache.specs.Batches.{cache_lent};
ghost use Rattle.sled_pagecache.specs.Rows.{IsMade};
ghost use Rattle.sled_lines.specs.Output.{Gathers};
ghost use Rattle.sled_script.specs.Replies.{reply_of_mark};
ghost use Rattle.sled_script.specs.Runs.{call_of_mark};
ghost use Rattle.sled_script.specs.Served.{IsNext, IsPinned, ServesBatch, ServesUntil, Turns};

use crate::command::Mark;
use crate::reply::gather_mark;
use crate::run::{RunError, Stop, serve_until};
use sled_lines::output::flush_unless;
use sled_lines::{Piece, Unwritten};
use sled_pagecache::{Error, Log, PageCache, RecoveryGuard};
use std::alloc::Global;
use std::io::{BufRead, Write};

/// Opens a batch for the line that was read, and serves the lines up to the one that closes it. Returns `true` if a line closed the batch, or if
/// the batch could not be opened, and `false` if the input ended. At the end of the input and at an error the batch is cancelled. The last replies
/// may still be in the piece.
pub fn serve_batch<L: Log, R: BufRead, W: Write>(
    alloc: Global,
    cache: &mut PageCache<L>,
    is_followed: bool,
    reader: &mut R,
    writer: &mut W,
    piece: &mut Piece,
) -> Result<bool, RunError>
    requires { cache.old.batch ≡ false }
    ensures { (input : Option Bytes) → IsNext input (R.remaining reader.old) (codes "pin")
        → ServesBatch L.Log cache.old input (R.remaining reader.new) (W.contents writer.old)
        (W.contents writer.new) piece.old piece.new result cache.new }
{
    let mut guard = match cache.pin_log() {
        Ok(guard) => guard,
        Err(error) => {
            reply_mark(&Err(error), is_followed, writer, piece)?;
            return Ok(true);
        }
    };
    match serve_inside(alloc, guard.cache(), is_followed, reader, writer, piece) {
        Ok(Stop::At { mark, is_followed }) => {
            let closed = close(guard, mark);
            reply_mark(&closed, is_followed, writer, piece)?;
            Ok(true)
        }
        Ok(Stop::End) => {
            let _ = guard.cancel();
            Ok(false)
        }
        Err(error) => {
            let _ = guard.cancel();
            Err(error)
        }
    }
}

// Answers the line that opened a batch, and serves those inside it.
fn serve_inside<L: Log, R: BufRead, W: Write>(
    alloc: Global,
    cache: &mut PageCache<L>,
    is_followed: bool,
    reader: &mut R,
    writer: &mut W,
    piece: &mut Piece,
) -> Result<Stop, RunError>
    ensures serves { (start : Cache L) (input : Option Bytes)
        → IsPinned L.Log start cache.old
        → IsNext input (R.remaining reader.old) (codes "pin")
        → ServesUntil L.Log start input (R.remaining reader.new) (W.contents writer.old)
        (W.contents writer.new) piece.old piece.new result cache.new }
    ensures batch { cache.new.batch ≡ cache.old.batch }
{
    reply_mark(&Ok(()), is_followed, writer, piece)?;
    serve_until(alloc, cache, reader, writer, piece)
}

// Closes the batch by a mark that does.
fn close<L: Log>(guard: RecoveryGuard<'_, L>, mark: Mark) -> Result<(), Error>
    requires open { (cache_lent guard).now.batch ≡ true }
    requires closing { Turns (cache_lent guard).now.batch mark }
    ensures made { IsMade L.Log (cache_lent guard.entry).now (call_of_mark mark result).0
        (call_of_mark mark result).1 guard.exit.0.now }
    ensures batch { guard.exit.0.now.batch ≡ false }
{
    match mark {
        Mark::Seal => guard.seal_batch(),
        Mark::Pin | Mark::Cancel => guard.cancel(),
    }
}

/// Tries to open a second batch, which fails, and returns the error.
pub fn pin_again<L: Log>(cache: &mut PageCache<L>) -> Result<(), Error>
    requires { cache.old.batch ≡ true }
    ensures opens { OpensBatch L.Log cache.old result cache.new }
    ensures refused { IsErr result }
{
    match cache.pin_log() {
        Ok(guard) => guard.cancel(),
        Err(error) => Err(error),
    }
}

// Puts the reply to the opening or the closing of a batch as a line behind what was gathered, and flushes it unless another line
// can be read without a wait.
fn reply_mark<W: Write>(
    answer: &Result<(), Error>,
    is_followed: bool,
    writer: &mut W,
    piece: &mut Piece,
) -> Result<(), Unwritten>
    ensures { Gathers (W.contents writer.old) (W.contents writer.new) piece.old piece.new result
        (reply_of_mark answer.now ++ 10 ∷ []) }
{
    gather_mark(writer, piece, answer)?;
    flush_unless(is_followed, writer, piece)
}
