//! The book of a round: the calls that were made, in order, with their answers.

ghost use Rattle.std.specs.Prelude.{◌≡◌};

use crate::entry::Entry;
use sled_pagecache::Shape;
use std::marker::Model;

/// The calls of one round, and the cache's shape at its beginning.
///
/// In contracts, the value of a book is the number of calls in the books before it, the shape, and the entries.
#[derive(Debug, Drop)]
pub struct Book {
    earlier: u64,
    opening: Shape,
    entries: Vec<Entry>,
}

impl Model for Book {
    ghost use Rattle.sled_shared.specs.Book.{Book as Round, book};

    ghost Value = { Round };

    ghost view = { λ b. book b.earlier b.opening b.entries.items };
}

impl Book {
    ghost use Rattle.sled_shared.specs.Book.{book};

    pub(crate) fn new(earlier: u64, opening: Shape, entries: Vec<Entry>) -> Book
        ensures { result ≡ book earlier opening entries.items }
    {
        Book {
            earlier,
            opening,
            entries,
        }
    }

    /// Returns the number of calls in the books before this one.
    pub fn earlier(&self) -> u64
        ensures { result ≡ self.now.earlier }
    {
        self.earlier
    }

    /// Returns the cache's shape at the beginning of the round.
    pub fn opening(&self) -> &Shape
        ensures { result.now ≡ self.now.opening }
    {
        &self.opening
    }

    /// Returns the calls of the round, in order.
    pub fn entries(&self) -> &[Entry]
        ensures { result.now ≡ self.now.entries }
    {
        self.entries.as_slice()
    }
}
