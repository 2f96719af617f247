// Words of the system that are wrong, streams and disks that fail, and what is replied to an error.

use super::*;
use sled_keys::replies::Replies;
use sled_tree::sled_pagecache::Bug;
use sled_tree::{Device, Error, IVec, MemDisk, TreeError, Why};

const USAGE: &str = "usage: dilluvas FILE | :memory:\n";

const WRONG: &[&[&str]] = &[
    &[],
    &[":memory:", ""],
    &[":memory:", "get", "m", "k"],
    &["file", "a"],
    &["a", "b", "c"],
];

// Whether the program with no words ends so, and touches no stream.
fn ends_with_none<H: Files<File = File> + AllocGlobal>(
    rt: &H,
    why: NoWords,
    status: u8,
    fault: &str,
) -> bool {
    let mut faults = Vec::new(rt.alloc());
    let ended = drive(rt, Err(why), &mut Broken, &mut Broken, &mut faults);
    ended == status && faults.as_slice() == fault.as_bytes()
}

#[test]
fn wrong_words_are_reported_and_touch_no_stream(rt: HostRuntime) {
    for words in WRONG {
        assert!(rt; ends_so(&rt, words, &mut Broken, &mut Broken, 2, USAGE));
    }
    assert!(rt; ends_with_none(&rt, NoWords::NoText, 2, USAGE));
    assert!(rt; ends_with_none(&rt, NoWords::Memory, 1, "dilluvas: error memory\n"));
}

/// Gives a text, and then fails.
#[derive(Drop)]
struct Cut<'a> {
    left: &'a [u8],
}

impl Read for Cut<'_> {
    fn read(&mut self, buf: &mut [u8]) -> io::Result<usize> {
        if self.left.is_empty() {
            return Err(io::Error::from(ErrorKind::BrokenPipe));
        }
        self.left.read(buf)
    }
}

/// Takes so many bytes, and then fails.
#[derive(Drop)]
struct Full {
    got: Vec<u8>,
    room: usize,
}

impl Write for Full {
    fn write(&mut self, buf: &[u8]) -> io::Result<usize> {
        let count = buf.len().min(self.room.saturating_sub(self.got.len()));
        if count == 0 {
            return Err(io::Error::from(ErrorKind::BrokenPipe));
        }
        self.got.extend_from_slice(&buf[..count])?;
        Ok(count)
    }

    fn flush(&mut self) -> io::Result<()> {
        Ok(())
    }
}

const MEMORY: &[&str] = &[":memory:"];

// Whether a run whose input fails behind this text writes these replies, and reports that.
fn is_unread<H: Files<File = File> + AllocGlobal>(rt: &H, text: &str, want: &str) -> bool {
    let mut input = Cut {
        left: text.as_bytes(),
    };
    let mut output = Vec::new(rt.alloc());
    let fault = "dilluvas: error read\n";
    ends_so(rt, MEMORY, &mut input, &mut output, 1, fault) && output.as_slice() == want.as_bytes()
}

// Whether a run whose output has room for so many bytes writes these, and reports that.
fn is_unwritten<H: Files<File = File> + AllocGlobal>(
    rt: &H,
    mut text: &[u8],
    room: usize,
    want: &str,
) -> bool {
    let mut output = Full {
        got: Vec::new(rt.alloc()),
        room,
    };
    let fault = "dilluvas: error write\n";
    let is_ended = ends_so(rt, MEMORY, &mut text, &mut output, 1, fault);
    is_ended && output.got.as_slice() == want.as_bytes()
}

#[test]
fn streams_that_fail_end_the_script(rt: HostRuntime) {
    assert!(rt; is_unread(&rt, "", ""));
    assert!(rt; is_unread(&rt, "set m k v\nget m", "new\n"));
    assert!(rt; is_unread(&rt, "pin\nset m k v\n", "ok\nnew\n"));
    assert!(rt; is_unwritten(&rt, b"set m k v\nget m k\n", 0, ""));
    assert!(rt; is_unwritten(&rt, b"set m k v\nget m k\n", 7, "new\nval"));
}

/// What comes of a script over a disk one of whose writes and syncs fails.
#[derive(Clone, Copy, PartialEq, Eq)]
enum Ended {
    // the opening makes the first ones
    Unopened,
    Kept,
    Whole,
    Otherwise,
}

const WRITES: &[u8] =
    b"set m k v\nget m k\nflush\nget m k\nget m\nset m k w\nlen m\nfirst m\nabove m k\nscan m - 9\nmaps\nid\npin\nseal\ndrop m\ncas m k =v none\ndel m k\nflush\n";

// Behind the flush that failed.
const KEPT: &[u8] =
    b"new\nvalue v\nerror write\nerror write\nerror line\nerror write\nerror write\nerror write\nerror write\nerror write\nerror write\nerror write\nerror write\nerror batch\nerror write\nerror write\nerror write\nerror write\n";

// What comes of it where the n-th fails.
fn ended_at(alloc: Global, n: u64) -> Ended {
    let Ok(mut disk) = MemDisk::new(alloc, 100_000) else {
        return Ended::Otherwise;
    };
    disk.fail_write(n);
    let mut script = WRITES;
    let mut output = Vec::new(alloc);
    let is_opened = serve_disk(alloc, disk, &mut script, &mut output).is_ok();
    match (is_opened, output.as_slice()) {
        (false, []) => Ended::Unopened,
        (true, replies) if replies == KEPT => Ended::Kept,
        (true, replies) if replies.starts_with(b"new\nvalue v\nflushed ") => Ended::Whole,
        _ => Ended::Otherwise,
    }
}

/// Which one fails, of the first of these to the last. The opening makes seven of them, and each flush four.
const FAULTS: &[(u64, u64, Ended)] = &[
    (1, 7, Ended::Unopened),
    (8, 11, Ended::Kept),
    (12, 17, Ended::Whole),
];

// Whether it ends so wherever one of these fails.
fn end_so(alloc: Global, first: u64, last: u64, want: Ended) -> bool {
    for n in first..=last {
        if ended_at(alloc, n) != want {
            return false;
        }
    }
    true
}

#[test]
fn a_write_that_fails_is_kept(rt: HostRuntime) {
    for (first, last, want) in FAULTS {
        assert!(rt;
            end_so(rt.alloc(), *first, *last, *want),
            "from {first} to {last}"
        );
    }
}

// Whether the reply to an error is this line.
fn tells(alloc: Global, error: TreeError, want: &str) -> bool {
    let mut output = Vec::new(alloc);
    let mut replies = Replies::new(&mut output);
    let is_told = replies.error(&error).is_ok() && replies.finish().is_ok();
    is_told && output.as_slice() == want.as_bytes()
}

const WHYS: &[(Why, &str)] = &[
    (Why::PagesUsedUp, "error unsupported 5\n"),
    (Why::IdsUsedUp, "error unsupported 6\n"),
    (Why::StampUsedUp, "error unsupported 7\n"),
    (Why::BatchOpen, "error batch\n"),
    (Why::TooManyNames, "error names\n"),
    (Why::NameTooLong, "error name\n"),
    (Why::LogFull, "error full\n"),
];

#[test]
fn each_error_has_its_reply(rt: HostRuntime) {
    for (why, want) in WHYS {
        assert!(rt; tells(rt.alloc(), TreeError::Cache(Error::Unsupported(*why)), want));
    }
    let alloc = rt.alloc();
    assert!(rt; tells(alloc, TreeError::KeyTooLong, "error key\n"));
    assert!(rt; tells(alloc, TreeError::ValueTooLong, "error value\n"));
    assert!(rt; tells(alloc, TreeError::NoBatch, "error batch\n"));
    assert!(rt;
        tells(
            alloc,
            TreeError::Cache(Error::OutOfMemory),
            "error memory\n"
        )
    );
    assert!(rt;
        tells(
            alloc,
            TreeError::Cache(Error::Corruption(None)),
            "error corruption\n"
        )
    );
    assert!(rt;
        tells(
            alloc,
            TreeError::Cache(Error::Io(Device::Read)),
            "error read\n"
        )
    );
    assert!(rt;
        tells(
            alloc,
            TreeError::Cache(Error::Io(Device::Write)),
            "error write\n"
        )
    );
    assert!(rt;
        tells(
            alloc,
            TreeError::Cache(Error::ReportableBug(Bug::LinkRefused)),
            "error bug 3\n"
        )
    );
    let name = IVec::default();
    assert!(rt;
        tells(
            alloc,
            TreeError::Cache(Error::CollectionNotFound(name)),
            "error collection\n"
        )
    );
}
