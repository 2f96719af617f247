//! Lines of text: the lines of an input, the words in them, and the replies to them; and the arguments of a program.
//!
//! In reading order:
//!
//! - `lines`: the lines of an input, one at a time
//! - `words`: the words of a line, and the numbers and the byte strings that they encode
//! - `piece`, `output`: a text that is gathered in a buffer of a fixed size, and written when the buffer is full
//! - `replies`: replies that are a number or an error
//! - `cuts`: texts that are split in two
//! - `arguments`: the arguments of a program
#![tactic(auto)]

pub mod arguments;
pub mod cuts;
pub mod lines;
pub mod output;
pub mod piece;
pub mod replies;
pub mod words;

pub use arguments::{NoWords, words_of};
pub use lines::{Ahead, Line, MAX_LINE, ReadError, read_line};
pub use output::Unwritten;
pub use piece::Piece;
