// The program where no script can show it: with no words, with a path that no file can have, and over streams that fail.
// `tools/scripts.sh` has what the built program replies to scripts and to words.

use sled_script::{NoWords, drive};
use std::alloc::{AllocError, AllocGlobal, Global};
use std::fs::{File, Files};
use std::io;
use std::io::{ErrorKind, Read, Write};
use std::sync::Wait;
use std::thread::Threads;

const TOLD_USAGE: &str = "usage: sledpc mem | file PATH | crew N M\n";

/// A stream that fails at each use.
#[derive(Drop)]
struct Broken;

impl Read for Broken {
    fn read(&mut self, _buf: &mut [u8]) -> io::Result<usize> {
        Err(io::Error::from(ErrorKind::BrokenPipe))
    }
}

impl Write for Broken {
    fn write(&mut self, _buf: &[u8]) -> io::Result<usize> {
        Err(io::Error::from(ErrorKind::BrokenPipe))
    }

    fn flush(&mut self) -> io::Result<()> {
        Err(io::Error::from(ErrorKind::BrokenPipe))
    }
}

fn texts(alloc: Global, from: &[&str]) -> Result<Vec<String>, AllocError> {
    let mut words = Vec::new(alloc);
    for word in from {
        words.push(String::from_str(alloc, word)?)?;
    }
    Ok(words)
}

// Whether the program ends with this status and this fault.
fn ends_with<
    T: Files<File = File> + AllocGlobal + Threads + Wait + Copy + Send + 'static,
    R: Read,
    W: Write,
>(
    rt: T,
    words: Result<&[String], NoWords>,
    input: &mut R,
    output: &mut W,
    status: u8,
    fault: &str,
) -> bool {
    let mut faults = Vec::new(rt.alloc());
    let ended = drive(rt, rt.alloc(), words, input, output, &mut faults);
    ended == status && faults.as_slice() == fault.as_bytes()
}

// Whether the program with these words ends a script with status 0 and no fault; or, where there is one to be reported, with status
// 1 and that fault.
pub fn ends_so<
    T: Files<File = File> + AllocGlobal + Threads + Wait + Copy + Send + 'static,
    R: Read,
    W: Write,
>(rt: T, words: &[&str], input: &mut R, output: &mut W, fault: &str) -> bool {
    let status = if fault.is_empty() { 0 } else { 1 };
    match texts(rt.alloc(), words) {
        Ok(words) => ends_with(rt, Ok(words.as_slice()), input, output, status, fault),
        Err(_) => false,
    }
}

// Whether the program that has no words ends with this status and fault, and no stream is touched.
fn are_refused<T: Files<File = File> + AllocGlobal + Threads + Wait + Copy + Send + 'static>(
    rt: T,
    why: NoWords,
    status: u8,
    fault: &str,
) -> bool {
    ends_with(rt, Err(why), &mut Broken, &mut Broken, status, fault)
}

// Whether the status is the same where what is wrong can't be reported.
fn ends_unreported<T: Files<File = File> + AllocGlobal + Threads + Wait + Copy + Send + 'static>(
    rt: T,
    why: NoWords,
    status: u8,
) -> bool {
    drive(
        rt,
        rt.alloc(),
        Err(why),
        &mut Broken,
        &mut Broken,
        &mut Broken,
    ) == status
}

#[test]
fn no_words_are_reported_and_touch_no_stream(rt: HostRuntime) {
    for (why, status, fault) in [
        (NoWords::NoText, 2, TOLD_USAGE),
        (NoWords::Memory, 1, "sledpc: error memory\n"),
    ] {
        assert!(rt; are_refused(rt, why, status, fault), "at {fault}");
        assert!(rt; ends_unreported(rt, why, status), "at {fault}");
    }
}

#[test]
fn streams_that_fail_are_reported(rt: HostRuntime) {
    for (words, fault) in [
        // a path that no file can have
        (&["file", "log\0"] as &[&str], "sledpc: error read\n"),
        (&["crew", "2", "3"], "sledpc: error write\n"),
        (&["mem"], "sledpc: error read\n"),
    ] {
        assert!(rt;
            ends_so(rt, words, &mut Broken, &mut Broken, fault),
            "at {words:?}"
        );
    }
}
