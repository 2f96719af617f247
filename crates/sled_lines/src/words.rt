//! The words of a line, and what they encode.

ghost use Rattle.std.specs.Prelude.{◌≡◌, ◌≢◌, ◌↔◌, ℕ, ◌+◌, ◌*◌, ◌/◌, ◌%◌, ◌<◌, ◌≤◌, ◌^◌, false, length, IsTrue, IfOk, IfSome, IfNone};
ghost use Rattle.std.specs.Option.{option_map};
ghost use Rattle.std.specs.Char.{digit_value};
ghost use Rattle.std.specs.Fmt.{decimal};
ghost use Rattle.sled_base.specs.Order.{Bytes};
ghost use Rattle.sled_lines.specs.Cut.{HasPlainFront};
ghost use Rattle.sled_lines.specs.Words.{AreBytes, AreTwo, BeginsLine, bytes_word, hex, hex_digit};

use crate::cuts::cut_at;
use sled_base::IVec;
use std::alloc::{AllocError, Global};

/// A byte string of at most this many bytes is stored inline, and needs no allocation.
const SHORT: usize = 22;

/// Returns the first word of a line, and what follows the space after it, if there is a space.
pub fn first_word(line: &[u8]) -> (&[u8], Option<&[u8]>)
    ensures { BeginsLine line.now result.0.now (option_map (λ rest. rest.now) result.1) }
{
    cut_at(line, b' ')
}

/// Returns the first word, and everything after the space that follows it, or `None` if there is no space.
pub fn two_words(arguments: Option<&[u8]>) -> Option<(&[u8], &[u8])>
    ensures some { IfSome result
        (λ words. AreTwo (option_map (λ rest. rest.now) arguments.entry) words.0.now words.1.now) }
    ensures none { IfNone result ((first rest : Bytes)
        → ¬ AreTwo (option_map (λ rest. rest.now) arguments.entry) first rest) }
{
    let (first, rest) = first_word(arguments?);
    Some((first, rest?))
}

/// Returns the number that the word encodes, in decimal digits without a leading zero, at most `u64::MAX`, or `None` if it encodes none.
pub fn number_of(word: &[u8]) -> Option<u64>
    ensures some { IfSome result (λ n. word.now ≡ decimal n) }
    ensures none { IfNone result ((n : ℕ) → n < 2 ^ 64 → word.now ≢ decimal n) }
{
    if word.is_empty() || !has_plain_front(word) {
        return None;
    }
    let mut number = 0;
    for digit in word {
        number = with_digit(number, *digit)?;
    }
    Some(number)
}

/// Returns the number with one more digit at its end, or `None` if the byte is no digit, or if the result is above `u64::MAX`.
fn with_digit(number: u64, digit: u8) -> Option<u64>
    ensures some { IfSome result (λ n. (digit_value digit < 10)
        × (n ≡ number * 10 + digit_value digit)) }
    ensures none { IfNone result (digit_value digit < 10
        → 2 ^ 64 ≤ number * 10 + digit_value digit) }
{
    match digit {
        b'0'..=b'9' => number.checked_mul(10)?.checked_add(u64::from(digit - b'0')),
        _ => None,
    }
}

/// Returns whether the word has no leading plus sign, and no leading zero before other characters.
fn has_plain_front(word: &[u8]) -> bool
    ensures { IsTrue result ↔ HasPlainFront word.now }
{
    match word {
        [b'+', ..] | [b'0', _, ..] => false,
        _ => true,
    }
}

/// Returns the value of a lower-case hexadecimal digit, or `None` if it is none.
fn hex_value(digit: u8) -> Option<u8>
    ensures some { IfSome result (λ value. (value < 16) × (digit ≡ hex_digit value)) }
    ensures none { IfNone result ((value : ℕ) → value < 16 → digit ≢ hex_digit value) }
{
    match digit {
        b'0'..=b'9' => Some(digit - b'0'),
        b'a'..=b'f' => Some(digit - b'a' + 10),
        _ => None,
    }
}

/// Returns the byte that two lower-case hexadecimal digits encode, or `None` if one of them is no such digit.
fn hex_byte(high: u8, low: u8) -> Option<u8>
    ensures some { IfSome result (λ byte. (high ≡ hex_digit (byte / 16))
        × (low ≡ hex_digit (byte % 16))) }
    ensures none { IfNone result ((byte : ℕ) → byte < 256 → high ≡ hex_digit (byte / 16)
        → low ≢ hex_digit (byte % 16)) }
{
    Some(hex_value(high)? * 16 + hex_value(low)?)
}

/// Decodes a word of two lower-case hexadecimal digits for each byte of `bytes`. Returns whether all of its bytes are such digits.
fn decode(word: &[u8], bytes: &mut [u8]) -> bool
    requires { length word.now ≡ 2 * length bytes.old }
    ensures length { length bytes.new ≡ length bytes.old }
    ensures some { IsTrue result → word.now ≡ hex bytes.new }
    ensures bytes { IsTrue result → AreBytes bytes.new }
    ensures none { result ≡ false → (encoded : Bytes) → AreBytes encoded → word.now ≢ hex encoded }
{
    for index in 0..bytes.len() {
        match hex_byte(word[2 * index], word[2 * index + 1]) {
            Some(byte) => bytes[index] = byte,
            None => return false,
        }
    }
    true
}

/// Returns the bytes that the word encodes in lower-case hexadecimal, or as `-` if there are none. Returns `None` if it encodes none.
///
/// `AllocError`: an allocation failed. Byte strings of at most 22 bytes need none.
///
/// It is inlined, as are other functions that read a line: each returns a large value, which would otherwise be cleared first and then copied.
#[inline(always)]
pub fn bytes_of(alloc: Global, word: &[u8]) -> Result<Option<IVec>, AllocError>
    ensures some { IfOk result (λ found. IfSome found (λ bytes. word.now ≡ bytes_word bytes)) }
    ensures bytes { IfOk result (λ found. IfSome found AreBytes) }
    ensures none { IfOk result
        (λ found. IfNone found ((bytes : Bytes) → AreBytes bytes → word.now ≢ bytes_word bytes)) }
{
    if word == b"-".as_slice() {
        return Ok(Some(IVec::default()));
    }
    if word.is_empty() || word.len() % 2 != 0 {
        return Ok(None);
    }
    let count = word.len() / 2;
    if count <= SHORT {
        let mut room = [0; SHORT];
        if !decode(word, &mut room[..count]) {
            return Ok(None);
        }
        return Ok(Some(IVec::from_front(room, count)));
    }
    let mut bytes = vec![in alloc; 0; count]?;
    if !decode(word, &mut bytes) {
        return Ok(None);
    }
    Ok(Some(IVec::from_vec(alloc, bytes)?))
}
