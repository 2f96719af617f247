//! Encoding byte strings as words, which are appended to gathered texts.

ghost use Rattle.std.specs.Prelude.{◌≡◌, ◌≤◌, ◌+◌, ◌*◌, ◌++◌, [], flat_map, length};
ghost use Rattle.sled_lines.specs.Output.{Gathers};
ghost use Rattle.sled_lines.specs.Settings.{piece_room};
ghost use Rattle.sled_keys.specs.Words.{spelled, spelled_byte};

use crate::words::{are_plain, is_plain};
use sled_lines::output::{Unwritten, gather_text, make_room};
use sled_lines::piece::{Piece, ROOM};
use std::io::Write;

/// Appends the word that encodes these bytes to the gathered text.
pub fn gather_word<W: Write>(
    writer: &mut W,
    piece: &mut Piece,
    bytes: &[u8],
) -> Result<(), Unwritten>
    ensures { Gathers (W.contents writer.old) (W.contents writer.new) piece.old piece.new result
        (spelled bytes.now) }
{
    match bytes {
        [] => gather_text(writer, piece, b"-"),
        [b'-'] => gather_text(writer, piece, b"\\2d"),
        _ => gather_in_row(writer, piece, bytes),
    }
}

// Puts the bytes as they are spelled in a row, as many at once as a piece has room for.
fn gather_in_row<W: Write>(writer: &mut W, piece: &mut Piece, bytes: &[u8]) -> Result<(), Unwritten>
    ensures { Gathers (W.contents writer.old) (W.contents writer.new) piece.old piece.new result
        (flat_map spelled_byte bytes.now) }
{
    let mut left = bytes;
    while !left.is_empty() {
        let (part, rest) = left.split_at(left.len().min(ROOM / 3));
        make_room(writer, piece, 3 * part.len())?;
        put_in_row(piece, part);
        left = rest;
    }
    Ok(())
}

// Puts the bytes as they are spelled in a row into a piece, which has room for three bytes of each.
fn put_in_row(piece: &mut Piece, bytes: &[u8])
    requires { length piece.old + 3 * length bytes.now ≤ piece_room }
    ensures { piece.new ≡ piece.old ++ flat_map spelled_byte bytes.now }
{
    if are_plain(bytes) {
        piece.put_text(bytes);
        return;
    }
    for byte in bytes {
        put_byte(piece, *byte);
    }
}

fn put_byte(piece: &mut Piece, byte: u8)
    requires { length piece.old + 3 ≤ piece_room }
    ensures { piece.new ≡ piece.old ++ spelled_byte byte }
{
    if is_plain(byte) {
        piece.push(byte);
    } else if byte == b'\\' {
        piece.put_text(b"\\\\");
    } else {
        piece.push(b'\\');
        piece.put_hex(&[byte]);
    }
}
