// How the lines of an input are found.

use sled_lines::{Ahead, Line, read_line};
use std::alloc::Global;

/// A line that no other follows.
const LAST: Line = Line::Whole { is_followed: false };

/// A line that another follows.
const FOLLOWED: Line = Line::Whole { is_followed: true };

/// A line, and how it is found.
type Found = (&'static str, Line);

/// What reads an input.
#[derive(Drop)]
struct Reading<'a> {
    input: &'a [u8],
    ahead: Ahead,
    kept: Vec<u8>,
}

impl<'a> Reading<'a> {
    fn of(alloc: Global, input: &'a [u8]) -> Reading<'a> {
        Reading {
            input,
            ahead: Ahead::unknown(),
            kept: Vec::new(alloc),
        }
    }

    // Whether the next line of the input is found to be this.
    fn finds(&mut self, want: Line) -> bool {
        read_line(&mut self.input, &mut self.ahead, &mut self.kept) == Ok(want)
    }

    // Whether the next lines are found to be these, and kept so.
    fn finds_all(&mut self, lines: &[Found]) -> bool {
        for (line, want) in lines {
            if !self.finds(*want) || self.kept.as_slice() != line.as_bytes() {
                return false;
            }
        }
        true
    }
}

// Whether a text has these lines, and no more.
fn has_lines(alloc: Global, text: &str, lines: &[Found]) -> bool {
    let mut reading = Reading::of(alloc, text.as_bytes());
    reading.finds_all(lines) && reading.finds_all(&[("", Line::End)])
}

// Puts more bytes behind a text, and answers whether there was memory for them.
fn put(text: &mut Vec<u8>, more: &[u8]) -> bool {
    text.extend_from_slice(more).is_ok()
}

// The same of so many times these bytes.
fn put_times(text: &mut Vec<u8>, more: &[u8], times: usize) -> bool {
    for _ in 0..times {
        if !put(text, more) {
            return false;
        }
    }
    true
}

// Puts lines that end behind a text, and then one of so many bytes.
fn put_before(text: &mut Vec<u8>, before: &[Found], count: usize) -> bool {
    for (line, _) in before {
        if !put(text, line.as_bytes()) || !put(text, b"\n") {
            return false;
        }
    }
    put_times(text, b"x", count)
}

// Puts lines behind one that has not ended.
fn put_behind(text: &mut Vec<u8>, behind: &[Found]) -> bool {
    for (line, _) in behind {
        if !put(text, b"\n") || !put(text, line.as_bytes()) {
            return false;
        }
    }
    true
}

// Whether a line of so many bytes is found to be this, and the lines before and behind it to be these. At most so many bytes are kept, and
// of a whole line all.
fn is_found(
    reading: &mut Reading<'_>,
    before: &[Found],
    count: usize,
    want: Line,
    behind: &[Found],
) -> bool {
    reading.finds_all(before)
        && reading.finds(want)
        && (reading.kept.len() == count || (want == Line::TooLong && reading.kept.len() < count))
        && reading.finds_all(behind)
        && reading.finds_all(&[("", Line::End)])
}

// The same of a text of these lines. Where none is behind the long one, it has no newline.
fn finds_long(alloc: Global, before: &[Found], count: usize, want: Line, behind: &[Found]) -> bool {
    let mut text = Vec::new(alloc);
    put_before(&mut text, before, count)
        && put_behind(&mut text, behind)
        && is_found(&mut Reading::of(alloc, &text), before, count, want, behind)
}

#[test]
fn reads_lines(rt: HostRuntime) {
    for (text, lines) in [
        (
            "a\n\nb\r\nc",
            &[("a", FOLLOWED), ("", FOLLOWED), ("b\r", LAST), ("c", LAST)] as &[Found],
        ),
        ("a\n", &[("a", LAST)]),
    ] {
        assert!(rt; has_lines(rt.alloc(), text, lines), "in {text}");
    }
}

#[test]
fn reads_long_lines(rt: HostRuntime) {
    let one: &[Found] = &[("a", FOLLOWED)];
    let two: &[Found] = &[("a", FOLLOWED), ("b", LAST)];
    for (before, count, want, behind) in [
        (one, 255, LAST, &[("b", LAST)] as &[Found]),
        (one, 65_536, FOLLOWED, &[("b", LAST), ("c", LAST)]),
        (
            one,
            65_537,
            Line::TooLong,
            &[("b", FOLLOWED), ("c", LAST), ("d", LAST)],
        ),
        (two, 255, LAST, &[]),
        (two, 256, LAST, &[]),
        (two, 257, LAST, &[]),
        (two, 65_536, LAST, &[]),
        (two, 65_537, Line::TooLong, &[]),
    ] {
        assert!(rt;
            finds_long(rt.alloc(), before, count, want, behind),
            "of {count} bytes"
        );
    }
}
