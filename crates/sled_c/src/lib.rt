//! The page cache for programs in C, and in every language that calls C: the calls of `sled_handle`, exported under C names.
//!
//! Each call is total: it checks its arguments and returns a number of `status`. None aborts. The caller must ensure what the types of the parameters
//! say, and no more; `bindings/c/dilluvas.h` states that in words.
#![tactic(auto)]

mod exports;
