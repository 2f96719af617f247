//! The pages as the cache stores them.
//!
//! - `page_entry`: a page, and what it holds
//! - `infos`: where the log stores the messages of a page
//! - `boxed_node`: a node in memory
//! - `boxed_roots`: the map of named roots in memory
//! - `pagetable`: the table of pages by their ids
//! - `free_ids`: the ids of the free pages

pub(crate) mod boxed_node;
pub(crate) mod boxed_roots;
pub(crate) mod free_ids;
pub(crate) mod infos;
pub(crate) mod page_entry;
pub(crate) mod pagetable;
