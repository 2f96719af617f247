//! Tests of the public calls of `sled_shared`.
//!
//! - `asking`: calls of a shared cache, each with what it answered as a text
//! - `entered`: entries of a book as such texts
//! - `crews`: caches that crews and other threads share
//! - `corners`: shares that run out, a book without room, and batches of no swaps and of many
//! - `faults`: a device that fails, and a share that is missing
//! - `poor`: a log without room, and a damaged page
//! - `reading`: reads of several pages as one call
//! - `replay`: entries that are made once more
//! - `refused`: one list of calls, with each request for memory refused in turn
//! - `rows`: books that are filled, taken and closed, and a batch that is cancelled
//! - `tokens`: tokens that no call gave, and ids of every size
//! - `readme`: an example of docs/GUIDE.md
//!
//! They are compiled with the tests alone, so that each is proved once.
#![tactic(auto)]

#[cfg(test)]
mod asking;
#[cfg(test)]
mod corners;
#[cfg(test)]
mod crews;
#[cfg(test)]
mod entered;
#[cfg(test)]
mod faults;
#[cfg(test)]
mod poor;
#[cfg(test)]
mod reading;
#[cfg(test)]
mod readme;
#[cfg(test)]
mod refused;
#[cfg(test)]
mod replay;
#[cfg(test)]
mod rows;
#[cfg(test)]
mod tests;
#[cfg(test)]
mod tokens;
