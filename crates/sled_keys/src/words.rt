//! The byte strings that the words of a line encode.

ghost use Rattle.std.specs.Prelude.{◌≡◌, ◌≢◌, ◌++◌, ◌<◌, ◌∷◌, ℕ, [], true, false, Some, flat_map, IfOk, IfSome, IfNone};
ghost use Rattle.std.specs.Option.{option_map};
ghost use Rattle.sled_base.specs.Order.{Bytes};
ghost use Rattle.sled_lines.specs.Words.{AreBytes, hex_digit};
ghost use Rattle.sled_keys.specs.Words.{spelled_byte, spelled};
ghost use Rattle.sled_keys.specs.Words as words;

use sled_lines::words::two_words;
use std::alloc::{AllocError, Global};

/// Buffers for decoded words that differ from their bytes. They are reused for each line.
#[derive(Drop)]
pub struct Rooms {
    pub name: Vec<u8>,
    pub key: Vec<u8>,
    pub old: Vec<u8>,
    pub new: Vec<u8>,
}

impl Rooms {
    /// Returns empty buffers. Nothing is allocated.
    pub fn new(alloc: Global) -> Rooms {
        Rooms {
            name: Vec::new(alloc),
            key: Vec::new(alloc),
            old: Vec::new(alloc),
            new: Vec::new(alloc),
        }
    }
}

/// Returns whether the byte is printable, and neither a space nor a backslash: such a byte is encoded as itself.
#[inline(always)]
pub fn is_plain(byte: u8) -> bool
    ensures { result ≡ words.is_plain byte }
{
    b' ' < byte && byte < 127 && byte != b'\\'
}

/// Returns whether each of the bytes is encoded as itself. It checks all of them, so that several can be checked at once.
pub fn are_plain(bytes: &[u8]) -> bool
    ensures { result ≡ true → flat_map spelled_byte bytes.now ≡ bytes.now }
{
    let mut all = true;
    for byte in bytes {
        all &= is_plain(*byte);
    }
    all
}

/// Returns the name and the key that the two words encode, or `None` if they aren't two words, or if one of them encodes no bytes.
pub fn named_key<'a>(
    words: &'a [u8],
    rooms: &'a mut Rooms,
) -> Result<Option<(&'a [u8], &'a [u8])>, AllocError> {
    let Some((name, key)) = two_words(Some(words)) else {
        return Ok(None);
    };
    let Some(name) = bytes_of(name, &mut rooms.name)? else {
        return Ok(None);
    };
    let Some(key) = bytes_of(key, &mut rooms.key)? else {
        return Ok(None);
    };
    Ok(Some((name, key)))
}

/// Returns the bytes that the word encodes, or `None` if it encodes none. If they differ from the word itself, they are put into `room`.
pub fn bytes_of<'a>(word: &'a [u8], room: &'a mut Vec<u8>) -> Result<Option<&'a [u8]>, AllocError>
    ensures some { IfOk result (λ found. IfSome found (λ bytes. word.now ≡ spelled bytes.now)) }
    ensures none { IfOk result
        (λ found. IfNone found ((bytes : Bytes) → AreBytes bytes → word.now ≢ spelled bytes)) }
    ensures read { IfOk result (λ found. (bytes : Bytes) → AreBytes bytes
        → word.now ≡ spelled bytes → option_map (λ read. read.now) found ≡ Some bytes) }
{
    spelled_by(word, room)
}

// The same, without the promise that follows.
fn spelled_by<'a>(word: &'a [u8], room: &'a mut Vec<u8>) -> Result<Option<&'a [u8]>, AllocError>
    ensures some { IfOk result (λ found. IfSome found (λ bytes. word.now ≡ spelled bytes.now)) }
    ensures none { IfOk result
        (λ found. IfNone found ((bytes : Bytes) → AreBytes bytes → word.now ≢ spelled bytes)) }
{
    match word {
        [] => Ok(None),
        [b'-'] => Ok(Some(b"")),
        [b'\\', b'2', b'd'] => Ok(Some(b"-")),
        _ => bytes_in_row(word, room),
    }
}

// The same of a word that isn't empty, and has its bytes in a row.
fn bytes_in_row<'a>(word: &'a [u8], room: &'a mut Vec<u8>) -> Result<Option<&'a [u8]>, AllocError>
    ensures some { IfOk result
        (λ found. IfSome found (λ bytes. word.now ≡ flat_map spelled_byte bytes.now)) }
    ensures none { IfOk result (λ found. IfNone found
        ((bytes : Bytes) → AreBytes bytes → word.now ≢ flat_map spelled_byte bytes)) }
{
    if are_plain(word) {
        return Ok(Some(word));
    }
    if !decode(word, room)? {
        return Ok(None);
    }
    Ok(Some(room.as_slice()))
}

// Puts the bytes that are spelled in a row into the room, and answers whether the word is such a row.
fn decode(word: &[u8], room: &mut Vec<u8>) -> Result<bool, AllocError>
    ensures some { IfOk result
        (λ found. found ≡ true → word.now ≡ flat_map spelled_byte room.new.items) }
    ensures none { IfOk result (λ found. found ≡ false
        → (bytes : Bytes) → AreBytes bytes → word.now ≢ flat_map spelled_byte bytes) }
{
    room.clear();
    let mut left = word;
    while !left.is_empty() {
        let Some((byte, rest)) = first_byte(left) else {
            return Ok(false);
        };
        room.push(byte)?;
        left = rest;
    }
    Ok(true)
}

// The byte that is spelled at the front of the text, and what stands behind it.
fn first_byte(text: &[u8]) -> Option<(u8, &[u8])>
    ensures some { IfSome result (λ found. text.now ≡ spelled_byte found.0 ++ found.1.now) }
    ensures none { IfNone result ((byte : ℕ) (rest : Bytes) → byte < 256
        → text.now ≢ spelled_byte byte ++ rest) }
{
    match text {
        [b'\\', b'\\', rest @ ..] => Some((b'\\', rest)),
        [b'\\', high, low, rest @ ..] => Some((odd_byte(*high, *low)?, rest)),
        [byte, rest @ ..] if is_plain(*byte) => Some((*byte, rest)),
        _ => None,
    }
}

// The byte that is spelled by a backslash and these two digits.
fn odd_byte(high: u8, low: u8) -> Option<u8>
    ensures some { IfSome result (λ byte. spelled_byte byte ≡ 92 ∷ high ∷ low ∷ []) }
    ensures none { IfNone result
        ((byte : ℕ) → byte < 256 → spelled_byte byte ≢ 92 ∷ high ∷ low ∷ []) }
{
    let byte = hex_value(high)? * 16 + hex_value(low)?;
    if is_plain(byte) || byte == b'\\' {
        return None;
    }
    Some(byte)
}

// The value of a lower-case hexadecimal digit.
fn hex_value(digit: u8) -> Option<u8>
    ensures some { IfSome result (λ value. (value < 16) × (digit ≡ hex_digit value)) }
    ensures none { IfNone result ((value : ℕ) → value < 16 → digit ≢ hex_digit value) }
{
    match digit {
        b'0'..=b'9' => Some(digit - b'0'),
        b'a'..=b'f' => Some(digit - b'a' + 10),
        _ => None,
    }
}
