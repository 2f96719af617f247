//! What is kept of the records of a file, and what an opening makes of them: chains of heads, pages, and the end of a batch that was
//! left open.

pub(crate) mod abandoning;
pub(crate) mod chains;
pub(crate) mod head;
pub(crate) mod pages;
