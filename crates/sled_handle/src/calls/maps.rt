//! Ordered maps by names.
//!
//! - `values`: the values of keys
//! - `ordered`: the pairs in the order of their keys
//! - `names`: whole maps, by their names

mod names;
mod ordered;
mod values;

pub use names::{drop_map, next_name};
pub use ordered::{Bounds, FoundPiece, count, next, range};
pub use values::{cas, del, get, set};
