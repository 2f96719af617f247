//! The program over scripts, files and streams.

mod files;
mod lines;
mod scripts;
mod sizes;
mod streams;

use sled_keys::program::{NoWords, drive, serve_disk, serve_memory};
use std::alloc::{AllocError, AllocGlobal, Global};
use std::fs::{File, Files};
use std::io;
use std::io::{ErrorKind, Read, Write};

// Steps of the tests. What a step makes is let go there, and not in a test, which would be proved for each way in which it may be kept.

/// A stream that fails at each use.
#[derive(Drop)]
struct Broken;

impl Read for Broken {
    fn read(&mut self, _buf: &mut [u8]) -> io::Result<usize> {
        Err(io::Error::from(ErrorKind::BrokenPipe))
    }
}

impl Write for Broken {
    fn write(&mut self, _buf: &[u8]) -> io::Result<usize> {
        Err(io::Error::from(ErrorKind::BrokenPipe))
    }

    fn flush(&mut self) -> io::Result<()> {
        Err(io::Error::from(ErrorKind::BrokenPipe))
    }
}

/// A script, and what it is to be replied to.
#[derive(Drop)]
struct Script {
    asked: Vec<u8>,
    wanted: Vec<u8>,
}

fn new_script(alloc: Global) -> Script {
    Script {
        asked: Vec::new(alloc),
        wanted: Vec::new(alloc),
    }
}

// Whether a script over maps in memory is replied to so, and ends without a fault.
fn replies(alloc: Global, mut script: &[u8], want: &[u8]) -> bool {
    let mut output = Vec::new(alloc);
    let is_done = serve_memory(alloc, &mut script, &mut output).is_ok();
    is_done && output.as_slice() == want
}

fn is_replied(alloc: Global, script: &Script) -> bool {
    replies(alloc, &script.asked, &script.wanted)
}

fn texts(alloc: Global, from: &[&str]) -> Result<Vec<String>, AllocError> {
    let mut words = Vec::new(alloc);
    for word in from {
        words.push(String::from_str(alloc, word)?)?;
    }
    Ok(words)
}

// Whether the program with these words ends a script with this status, and reports this.
fn ends_so<H: Files<File = File> + AllocGlobal, R: Read, W: Write>(
    rt: &H,
    words: &[&str],
    input: &mut R,
    output: &mut W,
    status: u8,
    fault: &str,
) -> bool {
    let Ok(words) = texts(rt.alloc(), words) else {
        return false;
    };
    let mut faults = Vec::new(rt.alloc());
    let ended = drive(rt, Ok(words.as_slice()), input, output, &mut faults);
    ended == status && faults.as_slice() == fault.as_bytes()
}
