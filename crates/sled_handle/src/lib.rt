//! Page caches for programs that aren't written in Rattle: the handle that such a program keeps, and what each of its calls does.
//!
//! The calls are total: each checks its arguments and returns a number of `status`. None aborts. The library for C, over this crate, exports them.
//!
//! In reading order:
//!
//! - `status`: the numbers that calls return, and their texts
//! - `settings`: the settings with which a program opens a cache
//! - `store`: the store to which a handle points
//! - `opening`: opening a cache over a file whose bytes the program reads and hands in
//! - `handle`, `loose`: what a program keeps of a store, and a box as a raw pointer
//! - `calls`: what each call does with a cache, over any log
//! - `file`: the status that a call over a file returns
//! - `through`: what each call does with the store of a handle, over any file of a caller
//! - `output`: writing results for the program
//! - `pairs`: the pairs of a node as bytes
//! - `laws`: that the pairs written of a leaf can be read back
#![tactic(auto)]

mod calls;
mod file;
pub mod handle;
pub mod laws;
mod loose;
pub mod opening;
pub mod output;
mod pairs;
pub mod settings;
pub mod status;
pub mod store;
pub mod through;

pub use calls::maps::{Bounds, FoundPiece};
pub use calls::pages::Found;
pub use handle::Handle;
pub use settings::{FileSettings, Settings};
pub use store::Store;
pub use through::device::FileTask;
