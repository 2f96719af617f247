//! What the cache takes and returns.
//!
//! - `call`: the calls and their answers
//! - `view`: tokens, and references to nodes and to the map of named roots
//! - `config`: the settings
//! - `shape`: what a page looks like, for debugging
//! - `snapshot`: how far the log is durable, and where it stores the pages

pub(crate) mod call;
pub(crate) mod config;
pub(crate) mod shape;
pub(crate) mod snapshot;
pub(crate) mod view;
