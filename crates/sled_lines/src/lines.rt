//! Reading an input line by line.

ghost use Rattle.std.specs.Prelude.{◌≡◌, ◌⊎◌, ◌+◌, ◌≤◌, length, Bool, Ok, Err, IfOk, IfErr};
ghost use Rattle.std.specs.Io.BufRead.{DropsThrough};
ghost use Rattle.sled_lines.specs.Lines.{ReadsLine, IsUnreadLine};
ghost use Rattle.sled_lines.specs.Parts.{TakesPart, FitsLine};
ghost use Rattle.sled_lines.specs.Settings.{longest_line};

use crate::cuts::cut_at;
use std::io::{BufRead, Error, ErrorKind};

/// The greatest length in bytes of a line that is read, without its newline.
pub const MAX_LINE: usize = 65_536;

/// What was at the front of the input.
#[derive(Clone, Copy, PartialEq, Eq)]
pub enum Line {
    /// Nothing: the input is at its end.
    End,
    /// A line, which was kept. If `is_followed`, the reader has another whole line buffered, and the next read doesn't block.
    Whole { is_followed: bool },
    /// A line of more than [`MAX_LINE`] bytes, which was skipped.
    TooLong,
}

/// Why a line was not read.
#[derive(Clone, Copy, PartialEq, Eq)]
pub enum ReadError {
    Read,
    Memory,
}

/// How many bytes the reader has buffered up to the end of its last whole line, as far as that is known, and otherwise 0.
///
/// It saves searching for the end of each line twice. It is a hint: contracts say nothing about it.
#[derive(Clone, Copy)]
pub struct Ahead(usize);

impl Ahead {
    /// Returns a value for a reader of which nothing is known.
    pub fn unknown() -> Ahead {
        Ahead(0)
    }

    // Passes over so many bytes, behind which these are buffered, and answers whether a whole line is among them.
    fn pass(&mut self, count: usize, behind: &[u8]) -> bool {
        if self.0 > count {
            self.0 -= count;
            return true;
        }
        self.0 = last_end(behind);
        self.0 > 0 || behind.contains(&b'\n')
    }

    // Forgets what is buffered, as bytes are passed over that nobody looked at.
    fn forget(&mut self) {
        self.0 = 0;
    }
}

/// How many of the last bytes are searched for the end of a line.
const WINDOW: usize = 256;

/// Returns how many bytes there are up to the last end of a line, or 0 if the last [`WINDOW`] bytes have none.
fn last_end(bytes: &[u8]) -> usize {
    let start = bytes.len().saturating_sub(WINDOW);
    match bytes[start..].iter().rposition(|byte| *byte == b'\n') {
        Some(place) => start.saturating_add(place).saturating_add(1),
        None => 0,
    }
}

/// What ended a part of a line.
#[derive(Clone, Copy)]
enum Ended {
    /// The newline, which was consumed too. If `is_followed`, the reader has another whole line buffered.
    Line { is_followed: bool },
    /// The end of the input: the part is empty.
    Input,
    /// Nothing: the line continues, as far as is known.
    Part,
}

/// Reads the next line into `kept`, without its newline. Of a line that is too long, at most `MAX_LINE + 1` bytes are kept. `ahead` is what is known
/// of the lines that the reader has buffered, and is updated.
///
/// [`ReadError::Memory`]: an allocation failed, and the reader still has the bytes that follow those in `kept`. [`ReadError::Read`]: the input could
/// not be read past the bytes in `kept`, or past a part of a line that is too long.
pub fn read_line<R: BufRead>(
    reader: &mut R,
    ahead: &mut Ahead,
    kept: &mut Vec<u8>,
) -> Result<Line, ReadError>
    ensures reads { ReadsLine (R.remaining reader.old) (R.remaining reader.new) result
        kept.new.items }
    ensures whole { (is_followed : Bool) → result ≡ Ok (Line.Whole is_followed)
        → length kept.new.items ≤ longest_line }
    ensures unread { IfErr result
        (λ e. IsUnreadLine e (R.remaining reader.old) (R.remaining reader.new) kept.new.items) }
    ensures few { length kept.new.items ≤ longest_line + 1 }
{
    kept.clear();
    for _ in 0..u64::MAX {
        match take_part(reader, ahead, kept)? {
            Ended::Line { is_followed } => return Ok(Line::Whole { is_followed }),
            Ended::Input if kept.is_empty() => return Ok(Line::End),
            Ended::Input => return Ok(Line::Whole { is_followed: false }),
            Ended::Part => {
                if kept.len() > MAX_LINE {
                    return skip_line(reader);
                }
            }
        }
    }
    Err(ReadError::Read)
}

/// Consumes what the reader has buffered of a line, and appends it to `kept`, up to the first byte that makes the line too long.
fn take_part<R: BufRead>(
    reader: &mut R,
    ahead: &mut Ahead,
    kept: &mut Vec<u8>,
) -> Result<Ended, ReadError>
    requires { length kept.old.items ≤ longest_line }
    ensures takes { TakesPart (R.remaining reader.old) (R.remaining reader.new) kept.old.items
        kept.new.items result }
    ensures fits { FitsLine kept.new.items result }
{
    let buffered = match reader.fill_buf() {
        Ok(buffered) => buffered,
        Err(error) => return unless_interrupted(&error),
    };
    if buffered.is_empty() {
        return Ok(Ended::Input);
    }
    let room = MAX_LINE + 1 - kept.len();
    let (part, behind) = cut_at(&buffered[..buffered.len().min(room)], b'\n');
    if kept.extend_from_slice(part).is_err() {
        return Err(ReadError::Memory);
    }
    let count = part.len();
    match behind {
        Some(_) => {
            let is_followed = ahead.pass(count + 1, &buffered[count + 1..]);
            reader.consume(count + 1);
            Ok(Ended::Line { is_followed })
        }
        None => {
            ahead.forget();
            reader.consume(count);
            Ok(Ended::Part)
        }
    }
}

/// Returns the outcome of a failed read: nothing more was consumed, if it was interrupted, and otherwise an error.
fn unless_interrupted(error: &Error) -> Result<Ended, ReadError>
    ensures { result ≡ Ok Ended.Part ⊎ (result ≡ Err ReadError.Read) }
{
    if error.kind() == ErrorKind::Interrupted {
        return Ok(Ended::Part);
    }
    Err(ReadError::Read)
}

/// Skips the rest of a line that is too long.
fn skip_line<R: BufRead>(reader: &mut R) -> Result<Line, ReadError>
    ensures ok { IfOk result (λ line. (line ≡ Line.TooLong)
        × DropsThrough (R.remaining reader.old) (R.remaining reader.new) 10) }
    ensures err { IfErr result (λ e. e ≡ ReadError.Read) }
{
    match reader.skip_until(b'\n') {
        Ok(_) => Ok(Line::TooLong),
        Err(_) => Err(ReadError::Read),
    }
}
