//! Writing a text piece by piece.

ghost use Rattle.std.specs.Prelude.{◌≡◌, ◌≢◌, ◌+◌, ◌≤◌, [], length, OnOk, OnErr};
ghost use Rattle.std.specs.Fmt.{decimal};
ghost use Rattle.std.specs.Io.KnownBytes.{Keeps};
ghost use Rattle.sled_lines.specs.Output.{Writes, Gathers};
ghost use Rattle.sled_lines.specs.Settings.{piece_room};
ghost use Rattle.sled_lines.specs.Words.{hex, bytes_word};

use crate::piece::{Piece, ROOM};
use std::io::{ErrorKind, Write};

/// The writer did not accept, or did not flush, all of a text.
#[derive(Clone, Copy, Debug)]
pub struct Unwritten;

/// Writes all of the bytes. If it fails, it has written a prefix of them.
pub fn write_text<W: Write>(writer: &mut W, text: &[u8]) -> Result<(), Unwritten>
    ensures { Writes (W.contents writer.old) (W.contents writer.new) result text.now }
{
    let mut left = text;
    for _ in 0..u64::MAX {
        if left.is_empty() {
            return Ok(());
        }
        match writer.write(left) {
            Ok(0) => return Err(Unwritten),
            Ok(count) => left = &left[count..],
            Err(error) => {
                if error.kind() != ErrorKind::Interrupted {
                    return Err(Unwritten);
                }
            }
        }
    }
    Err(Unwritten)
}

/// Writes the gathered text, and clears the piece. If it fails, it has written a prefix of the text.
pub fn write_out<W: Write>(writer: &mut W, piece: &mut Piece) -> Result<(), Unwritten>
    ensures gathers { Gathers (W.contents writer.old) (W.contents writer.new) piece.old piece.new
        result [] }
    ensures empty { OnOk result (piece.new ≡ []) }
{
    write_text(writer, piece.as_slice())?;
    piece.clear();
    Ok(())
}

/// Writes and flushes the rest of the gathered text, if there is any.
pub fn write_rest<W: Write>(writer: &mut W, piece: &Piece) -> Result<(), Unwritten>
    ensures writes { Writes (W.contents writer.old) (W.contents writer.new) result piece.now }
    ensures some { OnErr result (piece.now ≢ []) }
{
    if piece.is_empty() {
        return Ok(());
    }
    write_text(writer, piece.as_slice())?;
    flush(writer)
}

/// Flushes the writer.
pub fn flush<W: Write>(writer: &mut W) -> Result<(), Unwritten>
    ensures { Keeps (W.contents writer.old) (W.contents writer.new) }
{
    match writer.flush() {
        Ok(()) => Ok(()),
        Err(_) => Err(Unwritten),
    }
}

/// Writes and flushes the gathered replies, unless another line can be read without blocking.
pub fn flush_unless<W: Write>(
    is_followed: bool,
    writer: &mut W,
    piece: &mut Piece,
) -> Result<(), Unwritten>
    ensures { Gathers (W.contents writer.old) (W.contents writer.new) piece.old piece.new result
        [] }
{
    if is_followed {
        return Ok(());
    }
    write_out(writer, piece)?;
    flush(writer)
}

/// Makes room for `count` bytes: if the piece lacks it, the gathered text is written.
pub fn make_room<W: Write>(writer: &mut W, piece: &mut Piece, count: usize) -> Result<(), Unwritten>
    requires { count ≤ piece_room }
    ensures gathers { Gathers (W.contents writer.old) (W.contents writer.new) piece.old piece.new
        result [] }
    ensures room { OnOk result (length piece.new + count ≤ piece_room) }
{
    if piece.has_room(count) {
        return Ok(());
    }
    write_out(writer, piece)
}

/// Appends a short text to the gathered text.
pub fn gather_text<W: Write>(
    writer: &mut W,
    piece: &mut Piece,
    text: &[u8],
) -> Result<(), Unwritten>
    requires { length text.now ≤ piece_room }
    ensures { Gathers (W.contents writer.old) (W.contents writer.new) piece.old piece.new result
        text.now }
{
    make_room(writer, piece, text.len())?;
    piece.put_text(text);
    Ok(())
}

/// Appends a number in decimal digits to the gathered text.
pub fn gather_number<W: Write>(
    writer: &mut W,
    piece: &mut Piece,
    number: u64,
) -> Result<(), Unwritten>
    ensures { Gathers (W.contents writer.old) (W.contents writer.new) piece.old piece.new result
        (decimal number) }
{
    make_room(writer, piece, 20)?;
    piece.put_number(number);
    Ok(())
}

/// Appends the word of a byte string to the gathered text: hexadecimal, or `-` if it is empty.
pub fn gather_bytes_word<W: Write>(
    writer: &mut W,
    piece: &mut Piece,
    bytes: &[u8],
) -> Result<(), Unwritten>
    ensures { Gathers (W.contents writer.old) (W.contents writer.new) piece.old piece.new result
        (bytes_word bytes.now) }
{
    if bytes.is_empty() {
        return gather_text(writer, piece, b"-");
    }
    gather_hex(writer, piece, bytes)
}

/// Appends a byte string in hexadecimal to the gathered text, in parts for which a piece has room.
fn gather_hex<W: Write>(writer: &mut W, piece: &mut Piece, bytes: &[u8]) -> Result<(), Unwritten>
    ensures { Gathers (W.contents writer.old) (W.contents writer.new) piece.old piece.new result
        (hex bytes.now) }
{
    let mut left = bytes;
    while !left.is_empty() {
        let (part, rest) = left.split_at(left.len().min(ROOM / 2));
        make_room(writer, piece, 2 * part.len())?;
        piece.put_hex(part);
        left = rest;
    }
    Ok(())
}
