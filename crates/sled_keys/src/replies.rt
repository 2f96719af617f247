//! Writing replies piece by piece.

ghost use Rattle.std.specs.Prelude.{◌≤◌, length};
ghost use Rattle.sled_lines.specs.Settings.{piece_room};

use crate::spelling::gather_word;
use sled_lines::output::{Unwritten, flush_unless, gather_number, gather_text, write_rest};
use sled_lines::piece::Piece;
use sled_lines::replies::{gather_error, gather_labelled};
use sled_tree::{Error, TreeError, Why};
use std::io::Write;

/// The replies to lines: those that are gathered, and the writer that gets them when the piece is full or is flushed.
#[derive(Drop)]
pub struct Replies<'a, W: Write> {
    writer: &'a mut W,
    piece: Piece,
}

impl<'a, W: Write> Replies<'a, W> {
    /// Returns a value with no gathered reply.
    pub fn new(writer: &'a mut W) -> Replies<'a, W> {
        Replies {
            writer,
            piece: Piece::new(),
        }
    }

    /// Appends a short text.
    pub fn text(&mut self, text: &[u8]) -> Result<(), Unwritten>
        requires { length text.now ≤ piece_room }
    {
        gather_text(self.writer, &mut self.piece, text)
    }

    /// Appends a number in decimal digits.
    pub fn number(&mut self, number: u64) -> Result<(), Unwritten> {
        gather_number(self.writer, &mut self.piece, number)
    }

    /// Appends a line with a short label and a number.
    pub fn labelled(&mut self, label: &[u8], number: u64) -> Result<(), Unwritten>
        requires { length label.now ≤ 40 }
    {
        gather_labelled(self.writer, &mut self.piece, label, number)
    }

    /// Appends a line with a short label and the word that encodes these bytes.
    pub fn value(&mut self, label: &[u8], bytes: &[u8]) -> Result<(), Unwritten>
        requires { length label.now ≤ 40 }
    {
        self.text(label)?;
        self.word(bytes)?;
        self.text(b"\n")
    }

    /// Appends the word that encodes these bytes.
    pub fn word(&mut self, bytes: &[u8]) -> Result<(), Unwritten> {
        gather_word(self.writer, &mut self.piece, bytes)
    }

    /// Appends the line of an error.
    pub fn error(&mut self, error: &TreeError) -> Result<(), Unwritten> {
        match error {
            TreeError::KeyTooLong => self.text(b"error key\n"),
            TreeError::ValueTooLong => self.text(b"error value\n"),
            TreeError::NoBatch => self.text(b"error batch\n"),
            TreeError::Cache(Error::Unsupported(why)) => self.unsupported(*why),
            TreeError::Cache(error) => gather_error(self.writer, &mut self.piece, error),
        }
    }

    fn unsupported(&mut self, why: Why) -> Result<(), Unwritten> {
        match why {
            Why::BatchOpen => self.text(b"error batch\n"),
            Why::NameTooLong => self.text(b"error name\n"),
            Why::TooManyNames => self.text(b"error names\n"),
            Why::LogFull => self.text(b"error full\n"),
            _ => self.labelled(b"error unsupported ", u64::from(why.number())),
        }
    }

    /// Writes and flushes the gathered replies, unless another line can be read without blocking.
    pub fn flush_unless(&mut self, is_followed: bool) -> Result<(), Unwritten> {
        flush_unless(is_followed, self.writer, &mut self.piece)
    }

    /// Writes and flushes the rest of the gathered replies, if there is any.
    pub fn finish(&mut self) -> Result<(), Unwritten> {
        write_rest(self.writer, &self.piece)
    }
}
