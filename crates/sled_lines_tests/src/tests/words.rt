// What words encode, and which encode nothing.

use sled_lines::words::{bytes_of, first_word, number_of};
use std::alloc::Global;

// Whether the word encodes these bytes, or none.
fn encodes_bytes(alloc: Global, word: &str, want: Option<&[u8]>) -> bool {
    match bytes_of(alloc, word.as_bytes()) {
        Ok(Some(bytes)) => want == Some(bytes.as_slice()),
        Ok(None) => want.is_none(),
        Err(_) => false,
    }
}

#[test]
fn reads_words_and_numbers(rt: HostRuntime) {
    for (line, word, rest) in [
        ("set 61=62 63=-", "set", Some("61=62 63=-")),
        ("flush", "flush", None),
        (" x", "", Some("x")),
    ] {
        let want = (word.as_bytes(), rest.map(|rest| rest.as_bytes()));
        assert!(rt; first_word(line.as_bytes()) == want, "at {line}");
    }
    for (word, number) in [
        ("0", Some(0)),
        ("1", Some(1)),
        ("10", Some(10)),
        ("9999999999999999999", Some(9_999_999_999_999_999_999)),
        ("10000000000000000000", Some(10_000_000_000_000_000_000)),
        ("18446744073709551615", Some(18_446_744_073_709_551_615)),
        ("", None),
        ("00", None),
        ("01", None),
        ("+1", None),
        ("-1", None),
        ("18446744073709551616", None),
        ("99999999999999999999", None),
        ("100000000000000000000", None),
        ("1 ", None),
        ("1a", None),
    ] {
        assert!(rt; number_of(word.as_bytes()) == number, "at {word}");
    }
}

#[test]
fn reads_byte_strings(rt: HostRuntime) {
    for (word, want) in [
        ("-", Some(b"".as_slice())),
        ("61", Some(&[0x61])),
        ("00ff", Some(&[0, 0xff])),
        ("", None),
        ("6", None),
        ("6G", None),
        ("6A", None),
        ("61-", None),
        ("--", None),
        ("6161616161616161616161616161616161616161616G", None),
        ("G1616161616161616161616161616161616161616161", None),
        ("616161616161616161616161616161616161616161616G", None),
        ("G161616161616161616161616161616161616161616161", None),
        ("6161616161616161616161616161616161616161616161616", None),
    ] {
        assert!(rt; encodes_bytes(rt.alloc(), word, want), "at {word}");
    }
}
