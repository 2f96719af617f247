//! One page cache for many threads, with a book of their calls that replays as the history of one thread.
//!
//! In reading order:
//!
//! - `calls`, `entry`, `book`: the swaps of a batch, what is entered for a call, and the book of a round
//! - `history`: a history of entries that exists only in the proofs
//! - `share`: the shares of the threads, which count the entered calls
//! - `held`: the cache with its book, and its calls
//! - `handle`: the held cache under one lock
//! - `crew`: threads that draw ids
//! - `law`: laws of the books of one opening
//! - `keeping`, `copies`, `batch`, `reads`: what an entry stores of an answer, copies of arguments and nodes, and making a batch or several reads
#![tactic(auto)]

mod batch;
pub mod book;
pub mod calls;
mod copies;
pub mod crew;
pub mod entry;
pub mod handle;
pub mod held;
mod history;
mod keeping;
pub mod law;
mod reads;
pub mod share;

pub use book::Book;
pub use calls::{Swap, SwapAnswer};
pub use crew::{Gate, run_crew};
pub use entry::{Batch, Called, Ending, Entry, Kept, Reads, RootSwap};
pub use handle::SharedPageCache;
pub use held::Held;
pub use share::{Blank, Share, Tally};
