// Texts that are written by a writer that takes a byte a call.

use sled_lines::Piece;
use sled_lines::output::{gather_bytes_word, gather_number, gather_text, write_out, write_text};
use std::alloc::Global;
use std::io;
use std::io::{ErrorKind, Write};

/// Takes one byte a call, is interrupted once, and fails when it holds as many bytes as it has room for.
#[derive(Drop)]
struct Slow {
    got: Vec<u8>,
    room: usize,
    is_interrupted: bool,
}

impl Write for Slow {
    fn write(&mut self, buf: &[u8]) -> io::Result<usize> {
        if !self.is_interrupted {
            self.is_interrupted = true;
            return Err(io::Error::from(ErrorKind::Interrupted));
        }
        if self.got.len() >= self.room {
            return Err(io::Error::from(ErrorKind::BrokenPipe));
        }
        match buf.first() {
            Some(byte) => {
                self.got.push(*byte)?;
                Ok(1)
            }
            None => Ok(0),
        }
    }

    fn flush(&mut self) -> io::Result<()> {
        Ok(())
    }
}

fn slow_writer(alloc: Global, room: usize) -> Slow {
    Slow {
        got: Vec::new(alloc),
        room,
        is_interrupted: false,
    }
}

// Whether a writer with so much room takes as much of the text, a byte a write, without an error where it takes all.
fn takes_of(alloc: Global, text: &[u8], room: usize) -> bool {
    let mut writer = slow_writer(alloc, room);
    let wrote = write_text(&mut writer, text).is_ok();
    wrote == (room >= text.len()) && writer.got.as_slice() == &text[..room.min(text.len())]
}

fn puts_numbers(writer: &mut Slow, piece: &mut Piece, numbers: &[u64]) -> bool {
    for number in numbers {
        if gather_number(writer, piece, *number).is_err()
            || gather_text(writer, piece, b" ").is_err()
        {
            return false;
        }
    }
    true
}

fn puts_strings(writer: &mut Slow, piece: &mut Piece, strings: &[&[u8]]) -> bool {
    for bytes in strings {
        if gather_bytes_word(writer, piece, bytes).is_err()
            || gather_text(writer, piece, b" ").is_err()
        {
            return false;
        }
    }
    true
}

// Whether the numbers and byte strings, with a space behind each, are written as this text.
fn are_written(alloc: Global, numbers: &[u64], strings: &[&[u8]], want: &str) -> bool {
    let mut writer = slow_writer(alloc, 199);
    let mut piece = Piece::new();
    puts_numbers(&mut writer, &mut piece, numbers)
        && puts_strings(&mut writer, &mut piece, strings)
        && write_out(&mut writer, &mut piece).is_ok()
        && writer.got.as_slice() == want.as_bytes()
}

#[test]
fn writes_a_prefix_before_an_error(rt: HostRuntime) {
    for (text, room) in [
        (b"abcde".as_slice(), 3),
        (b"abcde", 5),
        (&[b'x'; 257], 256),
        (&[b'x'; 257], 257),
    ] {
        assert!(rt; takes_of(rt.alloc(), text, room), "of {room}");
    }
}

#[test]
fn writes_numbers_and_byte_strings(rt: HostRuntime) {
    let numbers = [
        0,
        9,
        10,
        99,
        1_000_000_000_000_000_000,
        9_999_999_999_999_999_999,
        10_000_000_000_000_000_000,
        u64::MAX,
    ];
    let text =
        "0 9 10 99 1000000000000000000 9999999999999999999 10000000000000000000 18446744073709551615 - 0061ff ";
    assert!(rt; are_written(rt.alloc(), &numbers, &[b"", &[0, 0x61, 0xff]], text));
}
