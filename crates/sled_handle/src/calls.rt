//! What each call does with a cache, or with the maps in it, over any log: it takes plain arguments and returns a status.
//!
//! - `pages`: allocating, reading, changing and freeing a page
//! - `batches`: opening and closing a batch
//! - `log`: generated ids, and calls on the whole log
//! - `sizes`: how much each page takes
//! - `rewriting`: rewriting a cache in memory into a new log

pub mod batches;
pub mod log;
pub mod maps;
pub mod pages;
pub mod rewriting;
pub mod roots;
pub mod sizes;
