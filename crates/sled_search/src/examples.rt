//! Worked examples of the definitions: small trees, page by page, and pages that are no tree.

ghost use Rattle.std.specs.Prelude.{◌≡◌, [], ◌∷◌, ◌++◌, take, Some, None};
ghost use Rattle.std.specs.declared.ops.Bound.TheVariants.{Included, Excluded, Unbounded};
ghost use Rattle.sled_log.specs.Contents.{Free, contents_after};
ghost use Rattle.sled_search.specs.Calls.{Becomes, AreCalls, changes_of, left_by};
ghost use Rattle.sled_search.specs.Changes.{Passes};
ghost use Rattle.sled_search.specs.Examples.{one, root, new_tree, one_leaf, half_way, two_leaves, three_pairs, sets, split, four_calls, merge, with_merged, led_twice, led_by_another, two_trees, one_leaf_of_two, part_lost, led_astray, not_cut, pair_lost};
ghost use Rattle.sled_search.specs.Map.{Map, at_key, leading};
ghost use Rattle.sled_search.specs.Maps.{no_maps, with_map, AreTrees, IsOff};
ghost use Rattle.sled_search.specs.Ordered.{IsNextAbove, IsNextBelow, IsLeafBefore, GoesBefore};
ghost use Rattle.sled_search.specs.Orderly.{IsOrderly};
ghost use Rattle.sled_search.specs.Search.{HasNodeAt, Finds, HasAt, ComesToValue, IsTreeOf};

/// With pairs at 1, 3 and 5, key 3 has a value and key 4 has none. The pair at 3 leads both of these keys, and no pair leads key 0.
pub fn pairs_at_a_key()
    ensures there { at_key three_pairs (one 3) ≡ Some (one 30) }
    ensures missing { at_key three_pairs (one 4) ≡ None }
    ensures leads_itself { leading three_pairs (one 3) ≡ Some (one 30) }
    ensures leads_the_next { leading three_pairs (one 4) ≡ Some (one 30) }
    ensures leads_below { leading three_pairs (one 0) ≡ None }
{}

/// Three keys are set in a new tree, and then its leaf is split: the pages after that, and the map that the tree is after each change.
pub fn a_tree_that_grows()
    ensures filled { contents_after new_tree sets ≡ one_leaf }
    ensures split { contents_after one_leaf split ≡ two_leaves }
    ensures maps { Passes new_tree root [] (sets ++ split) (
        ((one 5, one 50) ∷ [])
        ∷ ((one 1, one 10) ∷ (one 5, one 50) ∷ [])
        ∷ three_pairs ∷ three_pairs ∷ three_pairs ∷ three_pairs ∷ []) }
{}

/// The same changes as four calls: three calls set a key each, with one change, and one call splits the leaf, with three changes. After two of
/// these three changes the pages are still the maps from before that call.
pub fn calls_of_several_changes()
    ensures calls { AreCalls AreTrees new_tree (with_map root [] no_maps) four_calls }
    ensures changes { changes_of four_calls ≡ sets ++ split }
    ensures cut { AreTrees (contents_after new_tree (take 5 (changes_of four_calls))) (left_by (with_map root [] no_maps) (take 3 four_calls)) }
{}

/// The two leaves are merged in three events, and the map is the same after each of them. First the index loses its pair to the right leaf.
/// Then the left leaf receives the pairs of the right leaf, and no search reaches the right leaf any more. Last, the right leaf's page is freed.
pub fn two_leaves_that_are_merged()
    ensures call { Becomes AreTrees two_leaves (with_map root three_pairs no_maps) merge (with_map root three_pairs no_maps) }
    ensures taken_out { contents_after two_leaves (take 1 merge) ≡ half_way }
    ensures taken_in { contents_after two_leaves (take 2 merge) ≡ with_merged }
    ensures off { IsOff with_merged (with_map root three_pairs no_maps) 4 }
    ensures freed { contents_after two_leaves merge ≡ one_leaf ++ Free ∷ [] }
{}

/// An index over two leaves: a search goes down to a leaf in one turn, and finds what that leaf has at the key.
pub fn an_index_over_two_leaves()
    ensures left { Finds two_leaves (one 3) (λ pid n. (pid ≡ 2) × HasAt (one 3) (Some (one 30)) n) 1 root }
    ensures right { Finds two_leaves (one 5) (λ pid n. (pid ≡ 4) × HasAt (one 5) (Some (one 50)) n) 1 root }
    ensures missing { ComesToValue two_leaves (one 4) None root }
    ensures tree { IsTreeOf two_leaves root three_pairs }
{}

/// A leaf is split, and the index doesn't lead to its right part yet: a search for a key of the right part turns right at the left part.
pub fn a_split_before_its_child_is_added()
    ensures left { Finds half_way (one 3) (λ pid n. (pid ≡ 2) × HasAt (one 3) (Some (one 30)) n) 1 root }
    ensures right { Finds half_way (one 5) (λ pid n. (pid ≡ 4) × HasAt (one 5) (Some (one 50)) n) 2 root }
    ensures tree { IsTreeOf half_way root three_pairs }
{}

/// The pairs next to a bound, of pairs at 1, 3 and 5. The keys just before 5 are in the left leaf, which ends at 5.
pub fn pairs_next_to_a_bound()
    ensures behind { IsNextAbove three_pairs (Excluded (one 3)) (Some (one 5, one 50)) }
    ensures from { IsNextAbove three_pairs (Included (one 3)) (Some (one 3, one 30)) }
    ensures no_more { IsNextAbove three_pairs (Excluded (one 5)) None }
    ensures before { IsNextBelow three_pairs (Excluded (one 5)) (Some (one 3, one 30)) }
    ensures last { IsNextBelow three_pairs Unbounded (Some (one 5, one 50)) }
    ensures search { GoesBefore two_leaves (Excluded (one 5)) 1 root 2 }
    ensures leaf { HasNodeAt two_leaves 2 (IsLeafBefore (Excluded (one 5))) }
{}

/// Two roots, each over a leaf of its own, are two maps. Two roots over the same leaf are a tree each, but they are not two maps: setting a key
/// in one would set it in the other.
pub fn two_roots()
    ensures two { AreTrees two_trees (with_map 5 [] (with_map 3 [] no_maps)) }
    ensures each { IsTreeOf one_leaf_of_two 3 [] × IsTreeOf one_leaf_of_two 4 [] }
    ensures not_two { AreTrees one_leaf_of_two (with_map 4 [] (with_map 3 [] no_maps)) → ⊥ }
{}

/// Trees whose pages are not in order: another pair or another index leads to the right leaf too. If that leaf were merged into the left one
/// and its page freed, searches would still go there. The pages of a new tree are in order, and so are those of two leaves under one index.
pub fn trees_in_no_order()
    ensures led_twice { IsTreeOf led_twice root three_pairs }
    ensures twice_not { IsOrderly led_twice root → ⊥ }
    ensures led_by_another { IsTreeOf led_by_another root three_pairs }
    ensures another_not { IsOrderly led_by_another root → ⊥ }
    ensures new { IsOrderly new_tree root }
    ensures in_order { IsOrderly two_leaves root }
{}

/// Pages that are no tree at all: the left part of a split leads nowhere, an index leads keys to a node that doesn't have them in its range,
/// or two leaves have the same keys in their ranges.
pub fn pages_that_are_no_tree()
    ensures part_lost { (m : Map) → IsTreeOf part_lost root m → ⊥ }
    ensures led_astray { (m : Map) → IsTreeOf led_astray root m → ⊥ }
    ensures not_cut { (m : Map) → IsTreeOf not_cut root m → ⊥ }
{}

/// A tree that lost a pair is not the map that still has the pair.
pub fn a_tree_that_is_another_map()
    ensures { IsTreeOf pair_lost root three_pairs → ⊥ }
{}
