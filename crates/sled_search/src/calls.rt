//! What a prefix of the changes of several calls leaves of the maps.

ghost use Rattle.std.specs.Prelude.{◌≤◌, ℕ, List, [], ◌∷◌, ◌++◌, length};
ghost use Rattle.sled_log.specs.Contents.{Content, Update, contents_from, contents_after};
ghost use Rattle.sled_log.specs.Events.{Event};
ghost use Rattle.sled_search.specs.Calls.{Becomes, Call, AreCalls, changes_of, left_by, ArePrefixOf};
ghost use Rattle.sled_search.specs.Maps.{Maps, AreTrees};

/// After a prefix of the changes of some calls, the pages are the maps that a prefix of the calls makes. That prefix has every call whose
/// changes are all there, and no call that begins later. So this is what a crash leaves.
pub fn a_part_of_the_changes_is_a_part_of_the_calls()
    ensures { (pages : List Content) (maps : Maps) (calls : List (Call Maps)) → AreCalls AreTrees pages maps calls
        → (n : ℕ) → n ≤ length (changes_of calls) → ArePrefixOf AreTrees pages maps calls n }
{}

/// Changes in a row make one call, if at most one of them makes other maps. Calls followed by calls are calls in a row.
pub fn changes_make_a_call()
    ensures none { (pages : List Content) (maps : Maps) → AreTrees pages maps
        → Becomes AreTrees pages maps [] maps }
    ensures one { (pages : List Content) (old new : Maps) (event : Event Update)
        → AreTrees pages old → AreTrees (contents_from pages event) new
        → Becomes AreTrees pages old (event ∷ []) new }
    ensures kept_first { (pages : List Content) (old new : Maps) (us vs : List (Event Update))
        → Becomes AreTrees pages old us old → Becomes AreTrees (contents_after pages us) old vs new
        → Becomes AreTrees pages old (us ++ vs) new }
    ensures kept_last { (pages : List Content) (old new : Maps) (us vs : List (Event Update))
        → Becomes AreTrees pages old us new → Becomes AreTrees (contents_after pages us) new vs new
        → Becomes AreTrees pages old (us ++ vs) new }
    ensures row { (pages : List Content) (maps : Maps) (xs ys : List (Call Maps))
        → AreCalls AreTrees pages maps xs
        → AreCalls AreTrees (contents_after pages (changes_of xs)) (left_by maps xs) ys
        → AreCalls AreTrees pages maps (xs ++ ys) }
{}
