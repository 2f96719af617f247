//! Laws of ordered look-ups: which leaf has the pair next to a bound.

ghost use Rattle.std.specs.Prelude.{◌≡◌, ◌≢◌, ◌<◌, ◌≤◌, ℕ, suc, List, [], Option, Some, None, length, slice_get};
ghost use Rattle.std.specs.declared.ops.Bound.{Bound};
ghost use Rattle.std.specs.declared.ops.Bound.TheVariants.{Included, Excluded};
ghost use Rattle.sled_base.specs.Order.{Bytes};
ghost use Rattle.sled_log.specs.Contents.{Content, Node};
ghost use Rattle.sled_node.specs.Neighbours.{IsBehind, IsBefore, IsLeast, IsGreatest, HasNone};
ghost use Rattle.sled_node.specs.Node.{WholeNode, IsWellFormed};
ghost use Rattle.sled_search.specs.Map.{Map};
ghost use Rattle.sled_search.specs.Ordered.{IsNextAbove, IsNextBelow, start_of, IsLeafBefore, LeadsBefore, IsAstrayBefore, GoesBefore, GoesUp, GoesDown};
ghost use Rattle.sled_search.specs.Search.{HasNodeAt, ComesToLeafOf, IsTreeOf};

/// The first pair after a bound is in the leaf that the search for the bound's key comes to. If that leaf has no pair after the bound, the result
/// is the first pair from the leaf's end on; and if the leaf has no end either, there is no such pair.
pub fn the_first_pair_behind_a_bound()
    ensures here { (pages : List Content) (root : ℕ) (m : Map) → IsTreeOf pages root m
        → (bound : Bound Bytes) (leaf : ℕ)
        → ComesToLeafOf pages (start_of bound) (start_of bound) leaf root → (n : WholeNode)
        → slice_get pages leaf ≡ Some (Node n) → IsWellFormed n → (pair : Bytes × Bytes)
        → IsLeast (IsBehind bound) n pair → IsNextAbove m bound (Some pair) }
    ensures further { (pages : List Content) (root : ℕ) (m : Map) → IsTreeOf pages root m
        → (bound : Bound Bytes) (leaf : ℕ)
        → ComesToLeafOf pages (start_of bound) (start_of bound) leaf root → (n : WholeNode)
        → slice_get pages leaf ≡ Some (Node n) → HasNone (IsBehind bound) n → n.hi ≢ []
        → (answer : Option (Bytes × Bytes)) → IsNextAbove m (Included n.hi) answer
        → IsNextAbove m bound answer }
    ensures end { (pages : List Content) (root : ℕ) (m : Map) → IsTreeOf pages root m
        → (bound : Bound Bytes) (leaf : ℕ)
        → ComesToLeafOf pages (start_of bound) (start_of bound) leaf root → (n : WholeNode)
        → slice_get pages leaf ≡ Some (Node n) → HasNone (IsBehind bound) n → n.hi ≡ []
        → IsNextAbove m bound None }
{}

/// A walk from leaf to leaf visits at most as many leaves as there are pages. Upwards, each leaf is that of the end of the leaf before it.
/// Downwards, each is that of the keys just before the beginning of the leaf before it.
pub fn leaves_in_a_row_are_few()
    ensures up { (pages : List Content) (root leaves : ℕ) (from to : Bound Bytes)
        → GoesUp pages root from leaves to → leaves ≤ length pages }
    ensures up_then { (pages : List Content) (root leaves leaf : ℕ) (from to : Bound Bytes)
        → GoesUp pages root from leaves to
        → ComesToLeafOf pages (start_of to) (start_of to) leaf root → (n : WholeNode)
        → slice_get pages leaf ≡ Some (Node n) → n.hi ≢ []
        → GoesUp pages root from (suc leaves) (Included n.hi) }
    ensures down { (pages : List Content) (root leaves : ℕ) (from to : Bound Bytes)
        → GoesDown pages root from leaves to → leaves ≤ length pages }
    ensures down_then { (pages : List Content) (root leaves turns leaf : ℕ) (from to : Bound Bytes)
        → GoesDown pages root from leaves to → GoesBefore pages to turns root leaf
        → (n : WholeNode) → slice_get pages leaf ≡ Some (Node n) → IsLeafBefore to n → n.lo ≢ []
        → GoesDown pages root from (suc leaves) (Excluded n.lo) }
{}

/// A search for the keys just before a bound takes fewer turns than there are pages, if a key can be before the bound. Each node that it visits
/// is a leaf with these keys or leads the search further.
pub fn a_search_before_a_bound_ends()
    ensures then { (pages : List Content) (bound : Bound Bytes) (turns from at to : ℕ)
        → GoesBefore pages bound turns from at
        → HasNodeAt pages at (λ n. LeadsBefore n bound to)
        → GoesBefore pages bound (suc turns) from to }
    ensures turns { (pages : List Content) (root : ℕ) (m : Map) → IsTreeOf pages root m
        → (bound : Bound Bytes) → IsBefore bound [] → (turns at : ℕ)
        → GoesBefore pages bound turns root at → turns < length pages }
    ensures astray { (pages : List Content) (root : ℕ) (m : Map) → IsTreeOf pages root m
        → (bound : Bound Bytes) → IsBefore bound [] → (turns at : ℕ)
        → GoesBefore pages bound turns root at → HasNodeAt pages at (IsAstrayBefore bound) → ⊥ }
{}

/// The last pair before a bound is in the leaf that the search for the keys just before the bound comes to. If that leaf has no pair before the
/// bound, the result is the last pair below the leaf's beginning; and if the leaf begins with the empty key, there is no such pair.
pub fn the_last_pair_before_a_bound()
    ensures here { (pages : List Content) (root : ℕ) (m : Map) → IsTreeOf pages root m
        → (bound : Bound Bytes) → IsBefore bound [] → (turns leaf : ℕ)
        → GoesBefore pages bound turns root leaf → (n : WholeNode)
        → slice_get pages leaf ≡ Some (Node n) → IsLeafBefore bound n
        → IsWellFormed n → (pair : Bytes × Bytes) → IsGreatest (IsBefore bound) n pair
        → IsNextBelow m bound (Some pair) }
    ensures further { (pages : List Content) (root : ℕ) (m : Map) → IsTreeOf pages root m
        → (bound : Bound Bytes) → IsBefore bound [] → (turns leaf : ℕ)
        → GoesBefore pages bound turns root leaf → (n : WholeNode)
        → slice_get pages leaf ≡ Some (Node n) → IsLeafBefore bound n
        → HasNone (IsBefore bound) n → (answer : Option (Bytes × Bytes))
        → IsNextBelow m (Excluded n.lo) answer → IsNextBelow m bound answer }
    ensures end { (m : Map) → IsNextBelow m (Excluded []) None }
{}
