//! The calls on the maps of a cache. The calls of `Trees` and the calls by name are made of these.
//!
//! - `values`: reading and changing the value of a key
//! - `ordered`: pairs in key order
//! - `names`: maps by their names

pub mod names;
pub mod ordered;
pub mod values;
