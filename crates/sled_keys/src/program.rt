//! The program: its arguments, its streams and its status.

mod opened;

use crate::script::RunError;
use opened::serve_file;
pub use opened::{serve_disk, serve_memory};
pub use sled_lines::NoWords;
use sled_tree::Error;
use std::alloc::AllocGlobal;
use std::fs::{File, Files};
use std::io::{Read, Write};

/// The status if the script ended with its input.
const DONE: u8 = 0;

/// The status if an opening, a stream or an allocation failed.
const FAILED: u8 = 1;

/// The status if the arguments are no command.
const WRONG_WORDS: u8 = 2;

const USAGE: &str = "usage: dilluvas FILE | :memory:\n";

/// Why a job failed.
#[derive(Debug, Drop, thiserror::Error)]
pub enum Fault {
    #[error(transparent)]
    Opening(Error),
    #[error(transparent)]
    Run(RunError),
}

/// Runs the program and returns its status: 0 if the script ended with its input, 1 if an opening, a stream or an allocation failed, and 2 if the
/// arguments are wrong.
///
/// `words` are the arguments after the program's own path. A failure is reported to `faults` in one line. If there are no arguments, or wrong ones,
/// nothing is opened, and no stream except `faults` is touched.
pub fn drive<H: Files<File = File> + AllocGlobal, R: Read, W: Write, F: Write>(
    rt: &H,
    words: Result<&[String], NoWords>,
    reader: &mut R,
    writer: &mut W,
    faults: &mut F,
) -> u8 {
    let outcome = match words {
        Ok([path]) if path.as_str() == ":memory:" => serve_memory(rt.alloc(), reader, writer),
        Ok([path]) => serve_file(rt, path.as_str(), reader, writer),
        Err(NoWords::Memory) => Err(Fault::Run(RunError::Memory)),
        Ok(_) | Err(NoWords::NoText) => {
            let _ = faults.write_all(USAGE.as_bytes());
            return WRONG_WORDS;
        }
    };
    report(outcome, faults)
}

// Says what failed, if something did, and answers the status.
fn report<F: Write>(outcome: Result<(), Fault>, faults: &mut F) -> u8 {
    match outcome {
        Ok(()) => DONE,
        Err(fault) => {
            let _ = writeln!(faults, "dilluvas: {fault}");
            FAILED
        }
    }
}
