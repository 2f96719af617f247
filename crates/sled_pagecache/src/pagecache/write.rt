//! Changes of pages, and writing them to the log.
//!
//! - `token_check`: tests the token of a swap
//! - `page_swap`, `new_page`: swapping a page, and adding one
//! - `page_link`: applying a link, which joins the messages of its page, or whose node replaces them
//! - `root_page`, `counter_page`: the swap of a named root, and the counter of generated ids
//! - `page_move`: writing a page again as it is
//! - `page_copies`: writing all pages to another log
//! - `message`: writing the messages of a page to the log
//! - `sticky_log`: the log of a cache, with its sticky write error
//! - `writer`: that log and the accesses of pages, which each function takes that changes a page

pub(crate) mod counter_page;
pub(crate) mod message;
pub(crate) mod new_page;
pub(crate) mod page_copies;
pub(crate) mod page_link;
pub(crate) mod page_move;
pub(crate) mod page_swap;
pub(crate) mod root_page;
pub(crate) mod sticky_log;
pub(crate) mod token_check;
pub(crate) mod writer;
