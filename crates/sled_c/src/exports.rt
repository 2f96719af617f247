//! The functions that C calls. Each moves the store out of the handle, makes the call, and moves the store back. The contracts don't see the caller's
//! file here (`UnseenFile`): what a call does over a file that keeps its promises is stated by the function of `through` that is called.
//!
//! - `opening`: opening a cache in memory, closing a handle, and the texts of statuses
//! - `file`: opening a cache over a file
//! - `rewriting`: rewriting a cache into another log
//! - `device`, `pages`, `roots`, `maps`, `batches`, `log`, `sizes`: as in `through`

// Makes a call on the store behind a handle. A closed one has none.
macro_rules! behind {
    ($alloc:ident, $handle:ident, $store:ident => $call:expr) => {{
        let Some(mut boxed) = $handle.take($alloc) else {
            return CLOSED;
        };
        let $store = &mut *boxed;
        let status = $call;
        $handle.put($alloc, boxed);
        status
    }};
}

mod batches;
mod device;
mod file;
mod log;
mod maps;
mod opening;
mod pages;
mod rewriting;
mod roots;
mod sizes;
