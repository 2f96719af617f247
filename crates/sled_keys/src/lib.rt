//! A script of keys and values over ordered maps: it reads lines, and writes a reply line for each.
//!
//! In reading order:
//!
//! - `program`: the program that runs the script: its arguments, its streams and its status
//! - `script`: lines that ask for calls of maps, and the replies to them
//! - `words`, `spelling`: the byte strings that the words of a line encode, and encoding byte strings as words
//! - `replies`: replies that are written piece by piece
//!
//! Each function is proved to be safe and to end. The clauses of `gather_word` and `bytes_of` say that a byte string is written as its word, and is
//! read from that word and no other. Which call a line asks for, and what the reply to it is, is shown by tests.
#![tactic(auto)]

pub mod program;
pub mod replies;
pub mod script;
pub mod spelling;
pub mod words;

pub use program::{NoWords, drive};
