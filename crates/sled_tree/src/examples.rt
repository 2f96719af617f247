//! Worked examples of the definitions: pairs next to a bound, and pairs within two bounds.

ghost use Rattle.std.specs.Prelude.{◌≡◌, [], ◌∷◌, Some, None};
ghost use Rattle.std.specs.declared.ops.Bound.TheVariants.{Included, Excluded, Unbounded};
ghost use Rattle.sled_search.specs.Examples.{one, three_pairs};
ghost use Rattle.sled_tree.specs.Ordered.{behind, before, within, first_of, last_of, from_on};

/// The pairs on either side of a bound, and those within two bounds, of pairs at 1, 3 and 5. An included key is on both sides of its bound.
pub fn pairs_on_a_side_of_a_bound()
    ensures first { first_of three_pairs ≡ Some (one 1, one 10) }
    ensures last { last_of three_pairs ≡ Some (one 5, one 50) }
    ensures from { behind (Included (one 3)) three_pairs ≡ (one 3, one 30) ∷ (one 5, one 50) ∷ [] }
    ensures above { behind (Excluded (one 3)) three_pairs ≡ (one 5, one 50) ∷ [] }
    ensures up_to { before (Included (one 3)) three_pairs ≡ (one 1, one 10) ∷ (one 3, one 30) ∷ [] }
    ensures below { before (Excluded (one 3)) three_pairs ≡ (one 1, one 10) ∷ [] }
    ensures none { first_of (behind (Excluded (one 5)) three_pairs) ≡ None }
    ensures between { within (Included (one 2)) (Excluded (one 5)) three_pairs
        ≡ (one 3, one 30) ∷ [] }
    ensures all { within Unbounded Unbounded three_pairs ≡ three_pairs }
    ensures crossed { within (Excluded (one 5)) (Included (one 1)) three_pairs ≡ [] }
{}

/// The pairs from a key on and before a bound, of pairs at 1, 3 and 5. Without a key there are none.
pub fn pairs_from_a_key_on()
    ensures key { from_on (Some (one 3)) Unbounded three_pairs
        ≡ (one 3, one 30) ∷ (one 5, one 50) ∷ [] }
    ensures between { from_on (Some (one 2)) (Excluded (one 5)) three_pairs
        ≡ (one 3, one 30) ∷ [] }
    ensures end { from_on (Some (one 6)) Unbounded three_pairs ≡ [] }
    ensures none { from_on None Unbounded three_pairs ≡ [] }
{}
