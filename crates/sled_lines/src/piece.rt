//! A text that is gathered, and written by one call.

ghost use Rattle.std.specs.Prelude.{◌≡◌, ◌↔◌, ◌+◌, ◌<◌, ◌≤◌, ◌∷◌, ◌++◌, [], length, IsTrue};
ghost use Rattle.std.specs.Fmt.{decimal};
ghost use Rattle.sled_lines.specs.Settings.{piece_room};
ghost use Rattle.sled_lines.specs.Words as words;
ghost use Rattle.sled_lines.specs.Words.{hex, bytes_word};

use std::marker::Model;

/// How many bytes a piece has room for.
pub const ROOM: usize = 8192;

/// A gathered text of at most [`ROOM`] bytes.
///
/// Contracts see the list of its bytes.
#[derive(Drop)]
pub struct Piece {
    bytes: [u8; ROOM],
    len: usize,
}

impl Model for Piece {
    ghost use Rattle.std.specs.Prelude.{List, ℕ, ◌≤◌, take};
    ghost use Rattle.sled_lines.specs.Settings.{piece_room};

    ghost Value = { List ℕ };

    ghost view = { λ piece. take piece.len piece.bytes };

    ghost invariant = { λ piece. piece.len ≤ piece_room };
}

impl Piece {
    /// Returns a piece without text.
    pub fn new() -> Piece
        ensures { result ≡ [] }
    {
        Piece {
            bytes: [0; ROOM],
            len: 0,
        }
    }

    /// Returns whether there is no text.
    pub fn is_empty(&self) -> bool
        ensures { IsTrue result ↔ (self.now ≡ []) }
    {
        self.len == 0
    }

    /// Returns whether there is room for `count` more bytes.
    pub fn has_room(&self, count: usize) -> bool
        requires { count ≤ piece_room }
        ensures { IsTrue result → length self.now + count ≤ piece_room }
    {
        self.len <= ROOM - count
    }

    /// Clears the text.
    pub fn clear(&mut self)
        ensures { self.new ≡ [] }
    {
        self.len = 0;
    }

    /// Returns the text.
    pub fn as_slice(&self) -> &[u8]
        ensures { result.now ≡ self.now }
    {
        &self.bytes[..self.len]
    }

    /// Appends a byte. There must be room for it.
    pub fn push(&mut self, byte: u8)
        requires { length self.old < piece_room }
        ensures { self.new ≡ self.old ++ byte ∷ [] }
    {
        self.bytes[self.len] = byte;
        self.len += 1;
    }

    /// Appends a text. There must be room for it.
    pub fn put_text(&mut self, text: &[u8])
        requires { length self.old + length text.now ≤ piece_room }
        ensures { self.new ≡ self.old ++ text.now }
    {
        let end = self.len + text.len();
        self.bytes[self.len..end].copy_from_slice(text);
        self.len = end;
    }

    /// Appends a byte string in hexadecimal. There must be room for it.
    pub fn put_hex(&mut self, bytes: &[u8])
        requires { length self.old + length (hex bytes.now) ≤ piece_room }
        ensures { self.new ≡ self.old ++ hex bytes.now }
    {
        for byte in bytes {
            self.push(hex_digit(*byte / 16));
            self.push(hex_digit(*byte % 16));
        }
    }

    /// Appends the word of a byte string that is given in two parts. There must be room for it.
    pub fn put_bytes_word(&mut self, front: &[u8], rest: &[u8])
        requires { length self.old + length (bytes_word (front.now ++ rest.now)) ≤ piece_room }
        ensures { self.new ≡ self.old ++ bytes_word (front.now ++ rest.now) }
    {
        if front.is_empty() && rest.is_empty() {
            self.push(b'-');
            return;
        }
        self.put_hex(front);
        self.put_hex(rest);
    }

    /// Appends a number in decimal digits, at most two in each call. There must be room for them.
    pub fn put_number(&mut self, number: u64)
        requires { length self.old + length (decimal number) ≤ piece_room }
        ensures { self.new ≡ self.old ++ decimal number }
    {
        if number >= 100 {
            self.put_number(number / 100);
        }
        if number >= 10 {
            self.push(b'0' + (number / 10 % 10) as u8);
        }
        self.push(b'0' + (number % 10) as u8);
    }

    /// Appends a number that may be too large for a `u64`, as `put_number` does.
    pub fn put_wide_number(&mut self, number: u128)
        requires { length self.old + length (decimal number) ≤ piece_room }
        ensures { self.new ≡ self.old ++ decimal number }
    {
        if number <= u64::MAX as u128 {
            self.put_number(number as u64);
            return;
        }
        self.put_wide_number(number / 10);
        self.push(b'0' + (number % 10) as u8);
    }
}

/// The hexadecimal digits of the numbers below 16.
const HEX_DIGITS: &[u8; 16] = b"0123456789abcdef";

/// Returns the hexadecimal digit of a number below 16.
fn hex_digit(value: u8) -> u8
    requires { value < 16 }
    ensures { result ≡ words.hex_digit value }
{
    HEX_DIGITS[usize::from(value)]
}
