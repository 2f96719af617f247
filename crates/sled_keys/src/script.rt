//! The script: it reads lines, makes the calls of maps that they ask for, and writes the replies to them.

mod line;
mod ordered;
mod values;
mod whole;

use self::line::serve_line;
use crate::replies::Replies;
use crate::words::Rooms;
use sled_lines::{Ahead, Line, ReadError, Unwritten, read_line};
use sled_tree::{Log, Trees};
use std::alloc::{AllocError, Global};
use std::io::{BufRead, Write};
use thiserror::Error;

/// Why a run ended before its input did.
#[derive(Clone, Copy, Debug, Error)]
pub enum RunError {
    /// The input could not be read.
    #[error("error read")]
    Read,
    /// A reply could not be written.
    #[error("error write")]
    Write,
    /// An allocation failed for a line or for its words.
    #[error("error memory")]
    Memory,
}

impl From<ReadError> for RunError {
    fn from(error: ReadError) -> RunError {
        match error {
            ReadError::Read => RunError::Read,
            ReadError::Memory => RunError::Memory,
        }
    }
}

impl From<AllocError> for RunError {
    fn from(_error: AllocError) -> RunError {
        RunError::Memory
    }
}

impl From<Unwritten> for RunError {
    fn from(_error: Unwritten) -> RunError {
        RunError::Write
    }
}

/// Makes the calls that the lines of the input ask for, and writes one reply line for each line.
///
/// A line that asks for nothing, or that is longer than 65,536 bytes, is answered by `error line` and changes nothing. A batch that is open at the
/// end of the input, or at an error, is cancelled without a reply. The writer is flushed after each line that isn't followed by another whole line in
/// the reader's buffer. So it is flushed before every read that may block, and once for lines that were read together.
///
/// After an error a prefix of the lines was answered. After [`RunError::Read`] and [`RunError::Memory`] the replies to them were written, and after
/// [`RunError::Write`] a prefix of these replies.
pub fn run<L: Log, R: BufRead, W: Write>(
    alloc: Global,
    trees: &mut Trees<L>,
    reader: &mut R,
    writer: &mut W,
) -> Result<(), RunError> {
    let mut replies = Replies::new(writer);
    let ended = serve_lines(alloc, trees, reader, &mut replies);
    if trees.batch_open() {
        let _ = trees.cancel();
    }
    if let Err(RunError::Write) = ended {
        return ended;
    }
    replies.finish()?;
    ended
}

// Serves all lines. The last replies may be left with those that were gathered.
fn serve_lines<L: Log, R: BufRead, W: Write>(
    alloc: Global,
    trees: &mut Trees<L>,
    reader: &mut R,
    replies: &mut Replies<'_, W>,
) -> Result<(), RunError> {
    let mut line = Vec::new(alloc);
    let mut rooms = Rooms::new(alloc);
    let mut ahead = Ahead::unknown();
    for _ in 0..u64::MAX {
        let is_followed = match read_line(reader, &mut ahead, &mut line)? {
            Line::End => return Ok(()),
            Line::Whole { is_followed } => {
                serve_line(alloc, trees, &mut rooms, &line, replies)?;
                is_followed
            }
            Line::TooLong => {
                replies.text(b"error line\n")?;
                false
            }
        };
        replies.flush_unless(is_followed)?;
    }
    Err(RunError::Read)
}
