//! What the tests of `sled_tree` share: `sled_tree_tests` and `sled_tree_fault_tests`, which are proved side by side over it.
//!
//! In reading order:
//!
//! - `random`: numbers that look random
//! - `opening`: the settings of a cache, the maps that are opened over a log in memory, and the log of maps
//! - `reached`: the pages that a map takes
#![tactic(auto)]

pub mod opening;
pub mod random;
pub mod reached;

pub use opening::{CONFIG, SMALL, log_of, opened};
pub use random::Random;
pub use reached::{Reached, pages_of};
