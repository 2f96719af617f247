//! What a page holds: nodes of a tree, and the links that change them.
//!
//! In reading order:
//!
//! - `node`: nodes: a range of keys, and the pairs whose keys are in it; links
//! - `meta`: the root map: which page is the root of each named tree
//! - `serialization`: payloads of links and nodes, in addition to those of the plain values of `sled_base`
//! - `laws`: laws of the definitions that contracts cite
#![tactic(auto)]

pub mod laws;
pub mod meta;
pub mod node;
pub mod serialization;

pub use meta::Meta;
pub use node::{Data, Index, Item, Leaf, Link, Node};
pub use serialization::{ConsumeSequence, Serialize};
