//! A script over a page cache: it reads lines, and writes a reply line for each.
//!
//! In reading order:
//!
//! - `program`: the program `sledpc`, except for what it takes from the system: its arguments, its streams and its status
//! - `run`: the lines of an input, and the replies to them
//! - `line`, `command`, `pairs`: serving one line, and parsing its words
//! - `batch`: the lines between the one that opens a batch and the one that closes it
//! - `reply`: the line that replies to an answer
#![tactic(auto)]

mod batch;
pub mod command;
mod line;
pub mod pairs;
pub mod program;
pub mod reply;
pub mod run;

pub use program::{NoWords, drive};
pub use run::RunError;
