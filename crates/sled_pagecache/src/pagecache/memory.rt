//! What is in memory.
//!
//! - `accesses`: the accesses to pages, and what the list of recent use drops for them
//! - `evict`: what leaves memory after a call
//! - `pull`, `chain`, `reading`: reading a page that isn't in memory, its chain, and the node of its messages
//! - `page_sizes`: how much the pages would take; nothing that is read for it is kept

pub(crate) mod accesses;
pub(crate) mod chain;
pub(crate) mod evict;
pub(crate) mod page_sizes;
pub(crate) mod pull;
pub(crate) mod reading;
