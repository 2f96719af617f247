//! Searching the pages of a tree for a key: where a search goes, and what it finds.
//!
//! In reading order:
//!
//! - `turns`: where a node leads a search for a key
//! - `bounds`: where a node leads a search for the keys just before a bound
//! - `leaf`: the value that a leaf has for a key
//! - `laws`: laws of the definitions, for one tree
//! - `maps`: the laws for several trees in the same pages
//! - `ordered`: laws of ordered look-ups: which leaf has the pair next to a bound
//! - `calls`: what a prefix of the changes of several calls leaves
//! - `examples`: small trees, worked out
#![tactic(auto)]

pub mod bounds;
pub mod calls;
pub mod examples;
pub mod laws;
pub mod leaf;
pub mod maps;
pub mod ordered;
pub mod turns;

pub use bounds::{is_key_at, route_before};
pub use leaf::value_in;
pub use turns::{Turn, route};
