// Readers that give a piece at a time, and writers that refuse: when replies are flushed, and how many are written.

use super::program::ends_so;
use std::alloc::AllocGlobal;
use std::fs::{File, Files};
use std::io;
use std::io::{ErrorKind, Read, Write};
use std::sync::Wait;
use std::thread::Threads;

/// A stream that gives a piece at each read, as a pipe does, and fails behind the last where it is broken.
#[derive(Drop)]
struct Pieces<'a> {
    left: &'a [&'a str],
    is_broken: bool,
}

impl Read for Pieces<'_> {
    fn read(&mut self, buf: &mut [u8]) -> io::Result<usize> {
        let [piece, rest @ ..] = self.left else {
            if self.is_broken {
                return Err(io::Error::from(ErrorKind::BrokenPipe));
            }
            return Ok(0);
        };
        let bytes = piece.as_bytes();
        if buf.len() < bytes.len() {
            return Err(io::Error::from(ErrorKind::BrokenPipe));
        }
        buf[..bytes.len()].copy_from_slice(bytes);
        self.left = rest;
        Ok(bytes.len())
    }
}

/// A stream that keeps what is written, with a bar wherever it is flushed, and refuses more than it has room for.
#[derive(Drop)]
struct Barred {
    got: Vec<u8>,
    room: usize,
}

impl Write for Barred {
    fn write(&mut self, buf: &[u8]) -> io::Result<usize> {
        if self.got.len() >= self.room {
            return Err(io::Error::from(ErrorKind::BrokenPipe));
        }
        let count = buf.len().min(self.room - self.got.len());
        self.got.extend_from_slice(&buf[..count])?;
        Ok(count)
    }

    fn flush(&mut self) -> io::Result<()> {
        if self.got.len() >= self.room {
            return Err(io::Error::from(ErrorKind::BrokenPipe));
        }
        self.got.push(b'|')?;
        Ok(())
    }
}

// Whether a script is replied to so, and flushed where bars stand, by a writer with so much room. Where it has too little it
// takes just what it has room for, and that is reported.
fn is_taken<T: Files<File = File> + AllocGlobal + Threads + Wait + Copy + Send + 'static, R: Read>(
    rt: T,
    input: &mut R,
    room: usize,
    want: &[u8],
) -> bool {
    let fault = if room < want.len() {
        "sledpc: error write\n"
    } else {
        ""
    };
    is_replied(rt, input, room, want, fault)
}

// The same, where this fault is reported.
fn is_replied<
    T: Files<File = File> + AllocGlobal + Threads + Wait + Copy + Send + 'static,
    R: Read,
>(rt: T, input: &mut R, room: usize, want: &[u8], fault: &str) -> bool {
    let mut output = Barred {
        got: Vec::new(rt.alloc()),
        room,
    };
    ends_so(rt, &["mem"], input, &mut output, fault)
        && output.got.as_slice() == &want[..room.min(want.len())]
}

// Whether a script that is given in these pieces is replied to so, and flushed where bars stand, by a writer with so much room.
fn flushes_so<T: Files<File = File> + AllocGlobal + Threads + Wait + Copy + Send + 'static>(
    rt: T,
    pieces: &[&str],
    room: usize,
    want: &str,
) -> bool {
    let mut input = Pieces {
        left: pieces,
        is_broken: false,
    };
    is_taken(rt, &mut input, room, want.as_bytes())
}

// Whether a script that is given in these pieces, and can't be read behind them, is replied to so, and flushed where bars
// stand.
fn flushes_so_before_failing<
    T: Files<File = File> + AllocGlobal + Threads + Wait + Copy + Send + 'static,
>(rt: T, pieces: &[&str], want: &str) -> bool {
    let mut input = Pieces {
        left: pieces,
        is_broken: true,
    };
    is_replied(rt, &mut input, 999, want.as_bytes(), "sledpc: error read\n")
}

// Puts more bytes behind a text, and answers whether there was memory for them.
fn put(text: &mut Vec<u8>, more: &[u8]) -> bool {
    text.extend_from_slice(more).is_ok()
}

// The same of so many times these bytes.
fn put_times(text: &mut Vec<u8>, more: &[u8], times: usize) -> bool {
    for _ in 0..times {
        if !put(text, more) {
            return false;
        }
    }
    true
}

// Whether a line with so many digits of a value, and those around it, are replied to so, and flushed where bars stand.
fn flushes_around<T: Files<File = File> + AllocGlobal + Threads + Wait + Copy + Send + 'static>(
    rt: T,
    digits: usize,
    want: &str,
) -> bool {
    let mut script = Vec::new(rt.alloc());
    put(&mut script, b"get 9\nset 9 10 61 ")
        && put_times(&mut script, b"0", digits)
        && put(&mut script, b"\nget 9\n")
        && is_taken(rt, &mut script.as_slice(), 999, want.as_bytes())
}

// Puts a pair for each number below 1,000 behind the text, in hexadecimal digits.
fn put_pairs(text: &mut Vec<u8>) -> bool {
    for number in 0..1_000u16 {
        let digits = [
            digit(number / 256),
            digit(number / 16 % 16),
            digit(number % 16),
        ];
        if !put(text, b" 0") || !put(text, &digits) || !put(text, b"=76") {
            return false;
        }
    }
    true
}

fn digit(value: u16) -> u8 {
    b"0123456789abcdef"[(value % 16) as usize]
}

// Puts these texts behind the text, with the pairs between each and the next.
fn put_between(text: &mut Vec<u8>, parts: &[&str]) -> bool {
    for (index, part) in parts.iter().enumerate() {
        if index > 0 && !put_pairs(text) {
            return false;
        }
        if !put(text, part.as_bytes()) {
            return false;
        }
    }
    true
}

// Whether a leaf of 1,000 pairs is replied to twice and then flushed, by a writer with so much room.
fn takes_large<T: Files<File = File> + AllocGlobal + Threads + Wait + Copy + Send + 'static>(
    rt: T,
    room: usize,
) -> bool {
    let mut script = Vec::new(rt.alloc());
    let mut want = Vec::new(rt.alloc());
    put_between(&mut script, &["alloc", "\nget 2\nget 2\n"])
        && put_between(&mut want, &["page 2 1\nleaf 1", "\nleaf 1", "\n|"])
        && is_taken(rt, &mut script.as_slice(), room, &want)
}

/// Pieces of a script, and what it is replied to.
type Flushed = &'static [(&'static [&'static str], &'static str)];

const BEFORE_WAITING: Flushed = &[
    (&["alloc\nget 2\n"], "page 2 1\nleaf 1\n|"),
    (
        &["alloc\n", "get 2\n", "get 3\n"],
        "page 2 1\n|leaf 1\n|none\n|",
    ),
    (
        &["alloc\nge", "t 2\nget", " 3\n"],
        "page 2 1\n|leaf 1\n|none\n|",
    ),
    (&["alloc\nget 2\nget", " 3"], "page 2 1\nleaf 1\n|none\n|"),
    (&["a", "l", "l", "o", "c", "\n"], "page 2 1\n|"),
    (&["x"], "error line\n|"),
    (
        &[
            "alloc 61=",
            "62",
            "62",
            "62",
            "62",
            "62",
            "62",
            "62",
            "62",
            "62",
            "62",
            "62",
            "62",
            "62",
            "62",
            "62",
            "62",
            "62",
            "62",
            "62",
            "62",
            "62",
            "62",
            "62",
            "62",
            "62",
            "62",
            "62",
            "62",
            "62",
            "62",
            "62",
            "62",
            "62",
            "62",
            "62",
            "62",
            "62",
            "62",
            "62",
            "62",
            "62",
            "62",
            "62",
            "62",
            "62",
            "62",
            "62",
            "62",
            "62",
            "62",
            "62",
            "62",
            "62",
            "62",
            "62",
            "62",
            "62",
            "62",
            "62",
            "62",
            "62",
            "62",
            "\n",
        ],
        "page 2 1\n|",
    ),
    (&["\n\n", "\n"], "error line\nerror line\n|error line\n|"),
    (&["pin\nseal\n"], "ok\nok\n|"),
    (
        &["pin\n", "alloc\n", "pin\n", "seal\n", "seal"],
        "ok\n|page 2 1\n|error unsupported 8\n|ok\n|error line\n|",
    ),
    (
        &["pin\nget 2\n", "cancel\nget 2"],
        "ok\nnone\n|ok\n|none\n|",
    ),
    (&[], ""),
];

// A line within what is buffered at once, one beyond it, one of 65,536 bytes, and one that is too long.
const LONG: &[(usize, &str)] = &[
    (8_000, "none\ngone\nnone\n|"),
    (9_000, "none\n|gone\nnone\n|"),
    (65_524, "none\n|gone\nnone\n|"),
    (65_526, "none\n|error line\n|none\n|"),
];

#[test]
fn replies_go_out_before_a_read_that_may_wait(rt: HostRuntime) {
    for (pieces, want) in BEFORE_WAITING {
        assert!(rt; flushes_so(rt, pieces, 999, want), "at {want}");
    }
    for (digits, want) in LONG {
        assert!(rt; flushes_around(rt, *digits, want), "with {digits} digits");
    }
}

const BEFORE_FAILING: Flushed = &[
    (&[], ""),
    (&["get"], ""),
    (&["alloc\n"], "page 2 1\n|"),
    (&["alloc\nget 2\nget"], "page 2 1\nleaf 1\n|"),
    (&["pin\nalloc\nse"], "ok\npage 2 1\n|"),
    (&["pin\n"], "ok\n|"),
];

#[test]
fn replies_go_out_before_a_reader_that_fails(rt: HostRuntime) {
    for (pieces, want) in BEFORE_FAILING {
        assert!(rt; flushes_so_before_failing(rt, pieces, want), "at {want}");
    }
}

// What may be refused at each place below so much room.
const REFUSED: &[(&[&str], &str, usize)] = &[
    (
        &["alloc\n", "get 2\n\nget", " 3"],
        "page 2 1\n|leaf 1\nerror line\n|none\n|",
        40,
    ),
    (
        &["pin\n", "alloc\npin\nsea", "l\n", "pin\ncancel\npin"],
        "ok\n|page 2 1\nerror unsupported 8\n|ok\n|ok\nok\n|ok\n|",
        50,
    ),
];

const ROOMS: &[usize] = &[0, 4_095, 4_096, 4_097, 8_191, 8_192, 8_193, 16_023, 16_024];

#[test]
fn a_writer_may_refuse_at_each_place(rt: HostRuntime) {
    for (pieces, want, end) in REFUSED {
        for room in 0..*end {
            assert!(rt;
                flushes_so(rt, pieces, room, want),
                "with room for {room} bytes"
            );
        }
    }
    for room in ROOMS {
        assert!(rt; takes_large(rt, *room), "with room for {room} bytes");
    }
}
