//! Laws of the books of one opening.

ghost use Rattle.std.specs.Prelude.{ℕ, ◌<◌, [], ◌∷◌, List, AllPairs, flat_map};
ghost use Rattle.sled_pagecache.specs.Cache.{Cache};
ghost use Rattle.sled_shared.specs.Book.{Book, AreRounds, ids_of};
ghost use Rattle.sled_shared.specs.Held.{EndsBefore, IsBookOf, ReplaysIn};

use crate::share::Tally;
use sled_log::Log;

/// The book of a cache replays, if the state of the cache was known when the book was opened and `tells` holds for its log. The replay ends in a
/// state that the cache has.
pub fn a_book_replays<L: Log, K: Tally>()
    ensures { (b : Book) (cache : Cache L) → IsBookOf L.Log K.known b cache → K.known → L.tells
        → ReplaysIn L.Log b cache }
{}

/// No id is returned twice: in the books of one opening each id is below all later ones, whichever threads drew them.
pub fn ids_never_repeat()
    ensures { (interval : ℕ) (books : List Book) → AreRounds interval books
        → AllPairs (λ a b. a < b) (flat_map ids_of books) }
{}

/// The books that are taken from a held cache one after another, and the last one, are the books of one opening.
pub fn books_are_rounds<L: Log>()
    ensures last { (b : Book) (cache : Cache L) → ReplaysIn L.Log b cache
        → AreRounds cache.config.idgen_persist_interval (b ∷ []) }
    ensures then { (b next : Book) (books : List Book) (cache : Cache L)
        → EndsBefore L.Log b cache next
        → AreRounds cache.config.idgen_persist_interval (next ∷ books)
        → AreRounds cache.config.idgen_persist_interval (b ∷ next ∷ books) }
{}
