//! Writing results for the program.

ghost use Rattle.sled_handle.specs.Statuses.{Tells, TellsBytes, TellsDone, TellsSwapped};

use crate::status::{GONE, OK, SHORT, STALE, status_of};
use sled_pagecache::{Error, PageView};

/// Writes the length of the bytes to `needed`, and the bytes to the front of the buffer if they fit. Otherwise returns `SHORT`, and the buffer is
/// unchanged.
pub fn put_bytes(bytes: &[u8], buffer: &mut [u8], needed: &mut usize) -> u32
    ensures { TellsBytes bytes.now result needed.new buffer.old buffer.new }
{
    let size = bytes.len();
    *needed = size;
    if buffer.len() < size {
        return SHORT;
    }
    buffer[..size].copy_from_slice(bytes);
    OK
}

/// Writes the value of a result, or returns the status of its error and leaves `to` unchanged.
pub fn put_answer<T: Drop>(answer: Result<T, Error>, to: &mut T) -> u32
    ensures { Tells answer result to.old to.new }
{
    match answer {
        Ok(value) => {
            *to = value;
            OK
        }
        Err(error) => status_of(&error),
    }
}

/// Writes the stamp that the page has after a swap: its new one, or the present one if the swap was `STALE`. Returns `GONE` if there is no such page,
/// or the status of the error; then `stamp` is unchanged.
pub fn put_swapped<T: Drop>(
    swapped: Result<Result<PageView, Option<(PageView, T)>>, Error>,
    stamp: &mut u64,
) -> u32
    ensures { TellsSwapped swapped result stamp.old stamp.new }
{
    match swapped {
        Ok(Ok(token)) => {
            *stamp = token.ts();
            OK
        }
        Ok(Err(Some((token, _)))) => {
            *stamp = token.ts();
            STALE
        }
        Ok(Err(None)) => GONE,
        Err(error) => status_of(&error),
    }
}

/// Returns the status of a result without a value.
pub fn status_of_done(answer: Result<(), Error>) -> u32
    ensures { TellsDone answer result }
{
    match answer {
        Ok(()) => OK,
        Err(error) => status_of(&error),
    }
}
