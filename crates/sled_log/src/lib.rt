//! The log of the page cache: a sequence of page messages. A crash at any moment keeps a prefix of them that splits no batch,
//! except a cancelled one.
//!
//! In reading order:
//!
//! - `log`: the contract of a log
//! - `payload`: where `read_to` put a payload
//! - `runs`: sequences of log calls
//! - `memory`: a log in memory
//! - `laws`: theorems about the definitions that the contract of a log cites
#![tactic(auto)]

pub mod laws;
mod log;
mod memory;
mod payload;
pub mod runs;

pub use log::{Log, LogError};
pub use memory::MemLog;
pub use payload::Payload;
pub use runs::LogCall;
pub use sled_base::PageState;

#[cfg(test)]
mod tests;
