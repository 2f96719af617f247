//! What each call does with the store of a handle, over any file of a caller.
//!
//! Each returns a status, and `status` says what each of these leaves: `CLOSED` if a file is being opened, so that there is no cache yet; `WRITE` if
//! a write or a sync of the file failed; `NEEDS` if bytes of the file are needed first; and `NOT_OVER_FILE` if the call isn't available over a file.
//!
//! - `opening`: opening a cache over a file, or its log alone
//! - `pages`, `roots`, `batches`, `log`, `sizes`, `maps`: as in `calls`
//! - `device`: what the disk of a file needs, and what it is given
//! - `rewriting`: rewriting a cache into another log

// Makes a call on the cache of a store, over whichever log that is. One of which a file is being opened has no cache yet.
macro_rules! through {
    ($store:ident, $cache:ident => $call:expr) => {{
        let $cache = match $store {
            Store::Memory($cache) => return $call,
            Store::File($cache) => $cache,
            Store::Begun(_) => return CLOSED,
        };
        if has_failed($cache) {
            return WRITE;
        }
        let status = $call;
        told($cache, status)
    }};
}

// The same of a call that isn't made over a file.
macro_rules! in_memory {
    ($store:ident, $cache:ident => $call:expr) => {
        match $store {
            Store::Memory($cache) => $call,
            Store::File($cache) if has_failed($cache) => WRITE,
            Store::File(_) => NOT_OVER_FILE,
            Store::Begun(_) => CLOSED,
        }
    };
}

pub mod batches;
pub mod device;
pub mod log;
pub mod maps;
pub mod opening;
pub mod pages;
pub mod rewriting;
pub mod roots;
pub mod sizes;
