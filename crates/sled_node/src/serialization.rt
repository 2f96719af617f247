//! Payloads of links and nodes, in addition to those of the plain values of `sled_base`.

mod links;
pub(crate) mod pairs;
pub(crate) mod short;
pub(crate) mod strings;

pub use links::split_set;
pub use sled_base::serialization::{ConsumeSequence, Serialize};
