//! The arguments of a program.

use std::alloc::AllocGlobal;
use std::env;
use std::env::Env;
use std::io::ErrorKind;

/// Why there are no arguments.
#[derive(Clone, Copy, Debug, PartialEq, Eq)]
pub enum NoWords {
    /// The arguments that the system gave are no text.
    NoText,
    /// An allocation failed for them.
    Memory,
}

/// Returns the arguments after the program's own path.
pub fn words_of<H: Env + AllocGlobal>(rt: &H) -> Result<Vec<String>, NoWords> {
    let words = match env::args(rt) {
        Ok(words) => words,
        Err(error) if error.kind() == ErrorKind::OutOfMemory => return Err(NoWords::Memory),
        Err(_) => return Err(NoWords::NoText),
    };
    words
        .skip(1)
        .collect(rt.alloc())
        .map_err(|_| NoWords::Memory)
}
