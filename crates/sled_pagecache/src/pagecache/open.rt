//! The opening of a cache.
//!
//! - `start`: the steps of an opening
//! - `recovered_pages`: the pages that a log recovers
//! - `own_pages`: the cache's own pages

pub(crate) mod own_pages;
pub(crate) mod recovered_pages;
pub(crate) mod start;
