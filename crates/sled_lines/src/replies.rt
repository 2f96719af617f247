//! Replies that are a number or an error.

ghost use Rattle.std.specs.Prelude.{◌≡◌, ◌+◌, ◌≤◌, [], ◌∷◌, ◌++◌, length};
ghost use Rattle.std.specs.Fmt.{decimal};
ghost use Rattle.sled_lines.specs.Errors.{error_text};
ghost use Rattle.sled_lines.specs.Output.{Gathers};
ghost use Rattle.sled_lines.specs.Settings.{piece_room};

use crate::output::{Unwritten, gather_text, make_room};
use crate::piece::Piece;
use sled_base::{Device, Error};
use std::io::Write;

/// Appends a label and a number to a piece, which must have room for both.
pub fn put_labelled(piece: &mut Piece, label: &[u8], number: u64)
    requires { length piece.old + length label.now + 20 ≤ piece_room }
    ensures { piece.new ≡ piece.old ++ (label.now ++ decimal number) }
{
    piece.put_text(label);
    piece.put_number(number);
}

/// Appends a line with a label of at most 40 bytes and a number to the gathered text.
pub fn gather_labelled<W: Write>(
    writer: &mut W,
    piece: &mut Piece,
    label: &[u8],
    number: u64,
) -> Result<(), Unwritten>
    requires { length label.now ≤ 40 }
    ensures { Gathers (W.contents writer.old) (W.contents writer.new) piece.old piece.new result
        (label.now ++ decimal number ++ 10 ∷ []) }
{
    make_room(writer, piece, 61)?;
    put_labelled(piece, label, number);
    piece.push(b'\n');
    Ok(())
}

/// Appends a line with the reply to a call that failed with `error` to the gathered text.
pub fn gather_error<W: Write>(
    writer: &mut W,
    piece: &mut Piece,
    error: &Error,
) -> Result<(), Unwritten>
    ensures { Gathers (W.contents writer.old) (W.contents writer.new) piece.old piece.new result
        (error_text error.now ++ 10 ∷ []) }
{
    match error {
        Error::CollectionNotFound(_) => gather_text(writer, piece, b"error collection\n"),
        Error::Unsupported(why) => {
            gather_labelled(
                writer,
                piece,
                b"error unsupported ",
                u64::from(why.number()),
            )
        }
        Error::ReportableBug(bug) => {
            gather_labelled(writer, piece, b"error bug ", u64::from(bug.number()))
        }
        Error::Io(Device::Read) => gather_text(writer, piece, b"error read\n"),
        Error::Io(Device::Write) => gather_text(writer, piece, b"error write\n"),
        Error::Corruption(_) => gather_text(writer, piece, b"error corruption\n"),
        Error::OutOfMemory => gather_text(writer, piece, b"error memory\n"),
    }
}
