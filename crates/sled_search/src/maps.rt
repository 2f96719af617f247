//! How each change of a page changes the maps of several trees in the same pages.

ghost use Rattle.std.specs.Prelude.{◌≡◌, ◌≢◌, ℕ, List, [], ◌∷◌, Some, None, true, slice_get, slice_set};
ghost use Rattle.sled_base.specs.Order.{Bytes};
ghost use Rattle.sled_log.specs.Contents.{Content, Node, Update, Put, contents_from};
ghost use Rattle.sled_log.specs.Events.{Change};
ghost use Rattle.sled_node.specs.Children.{index_of, with_child};
ghost use Rattle.sled_node.specs.Links.{applied, without_child};
ghost use Rattle.sled_node.specs.Node.{WholeNode, whole, empty_leaf, Child, IsWellFormed};
ghost use Rattle.sled_node.specs.Pairs.{IsAscending, set_pair, del_pair};
ghost use Rattle.sled_node.specs.Splitting.{SplitsBehind, CanReceive, merged};
ghost use Rattle.sled_node.specs.declared.node.link.Link.TheVariants.{Set, Del, ParentMergeIntention, ParentMergeConfirm};
ghost use Rattle.sled_search.specs.Map.{Map, leading};
ghost use Rattle.sled_search.specs.Maps.{Maps, HasTree, no_maps, with_map, without_map, Reaches, AreTrees, IsOff, ChangesOne};
ghost use Rattle.sled_search.specs.Merging.{AreUnder, AreBeside};
ghost use Rattle.sled_search.specs.Orderly.{IsOrderly};
ghost use Rattle.sled_search.specs.Search.{ComesToLeafOf, IsTreeOf};

/// A page that no search ever reaches may change in any way: the maps stay as they are, and no search reaches a page that none reached before.
/// A page without a node is such a page. A change of a page changes only that page.
pub fn a_page_off_all_trees_may_change()
    ensures trees { (pages changed : List Content) (maps : Maps) (p : ℕ) → AreTrees pages maps
        → IsOff pages maps p → ChangesOne pages p changed → AreTrees changed maps }
    ensures off { (pages changed : List Content) (maps : Maps) (p : ℕ) → IsOff pages maps p
        → ChangesOne pages p changed → (page : ℕ) → IsOff pages maps page → IsOff changed maps page }
    ensures no_node { (pages : List Content) (maps : Maps) (p : ℕ) → AreTrees pages maps
        → ((n : WholeNode) → slice_get pages p ≡ Some (Node n) → ⊥) → IsOff pages maps p }
    ensures one { (pages : List Content) (id : ℕ) (update : Update)
        → ChangesOne pages id (contents_from pages (Change id update)) }
{}

/// Writing a page again with the content that it has leaves all pages as they are. Moving a page in the log does this.
pub fn a_page_that_is_written_again_stays()
    ensures { (pages : List Content) (id : ℕ) (content : Content)
        → slice_get pages id ≡ Some content → contents_from pages (Change id (Put content)) ≡ pages }
{}

/// Any pages count as no maps at all, and a tree whose pages are in order as one map. An index over all keys whose only child is an empty leaf
/// is one more map, if no search reaches either of the two pages.
pub fn a_new_tree_is_one_map_more()
    ensures none { (pages : List Content) → AreTrees pages no_maps }
    ensures alone { (pages : List Content) (root : ℕ) (m : Map) → IsTreeOf pages root m
        → IsOrderly pages root → AreTrees pages (with_map root m no_maps) }
    ensures one { (pages : List Content) (maps : Maps) (root leaf : ℕ) → AreTrees pages maps
        → IsOff pages maps root → IsOff pages maps leaf
        → slice_get pages root ≡ Some (Node (index_of (([], Child leaf) ∷ [])))
        → slice_get pages leaf ≡ Some (Node empty_leaf) → AreTrees pages (with_map root [] maps) }
{}

/// Dropping one of the trees leaves the others as the maps that they were. No search of these reaches a page that was reached from the dropped
/// root, so each such page may be freed.
pub fn a_tree_that_is_dropped_leaves_the_others()
    ensures trees { (pages : List Content) (maps : Maps) (root : ℕ) → AreTrees pages maps
        → AreTrees pages (without_map root maps) }
    ensures off { (pages : List Content) (maps : Maps) (root page : ℕ) → AreTrees pages maps
        → HasTree maps root → Reaches pages root page → IsOff pages (without_map root maps) page }
{}

/// Setting a key in the leaf that its search from a root comes to sets it in that root's map. Deleting it there deletes it from that map. All
/// other maps stay as they are.
pub fn a_leaf_that_is_changed_changes_one_map()
    ensures set { (pages : List Content) (maps : Maps) (root : ℕ) (m : Map) → AreTrees pages maps
        → maps root ≡ Some m → (p : ℕ) (n : WholeNode) → slice_get pages p ≡ Some (Node n)
        → (stored value : Bytes)
        → ComesToLeafOf pages (whole n stored) (whole n stored) p root
        → AreTrees (slice_set pages p (Node (applied (Set stored value) n)))
        (with_map root (set_pair (whole n stored) value m) maps) }
    ensures del { (pages : List Content) (maps : Maps) (root : ℕ) (m : Map) → AreTrees pages maps
        → maps root ≡ Some m → (p : ℕ) (n : WholeNode) → slice_get pages p ≡ Some (Node n)
        → (stored : Bytes) → ComesToLeafOf pages (whole n stored) (whole n stored) p root
        → AreTrees (slice_set pages p (Node (applied (Del stored) n)))
        (with_map root (del_pair (whole n stored) m) maps) }
{}

/// Splitting a node that a search from a root reaches leaves all maps as they are, whether its left part or an index over both parts replaces it.
/// No search may reach the new pages of the parts before that.
pub fn a_node_that_is_split_leaves_the_maps()
    ensures in_place { (pages : List Content) (maps : Maps) (root : ℕ) → AreTrees pages maps
        → HasTree maps root → (p many : ℕ) (n l r : WholeNode) → Reaches pages root p
        → slice_get pages p ≡ Some (Node n) → SplitsBehind n many l r → IsWellFormed n
        → IsWellFormed l → IsWellFormed r → (right : ℕ) → IsOff pages maps right
        → slice_get pages right ≡ Some (Node r)
        → AreTrees (slice_set pages p (Node (record l { next = Some right }))) maps }
    ensures hoisted { (pages : List Content) (maps : Maps) (root : ℕ) → AreTrees pages maps
        → HasTree maps root → (p many : ℕ) (n l r : WholeNode) → Reaches pages root p
        → slice_get pages p ≡ Some (Node n) → SplitsBehind n many l r → IsWellFormed n
        → IsWellFormed l → IsWellFormed r → (left right : ℕ) → IsOff pages maps left
        → slice_get pages left ≡ Some (Node (record l { next = Some right }))
        → IsOff pages maps right → slice_get pages right ≡ Some (Node r) → AreTrees
        (slice_set pages p (Node (index_of (([], Child left) ∷ (r.lo, Child right) ∷ [])))) maps }
{}

/// Adding a child to an index that a search from a root reaches leaves all maps as they are, on the conditions of the law of one tree.
pub fn a_child_that_is_added_leaves_the_maps()
    ensures { (pages : List Content) (maps : Maps) (root : ℕ) → AreTrees pages maps
        → HasTree maps root → (q : ℕ) (n : WholeNode) (at : Bytes) (page : ℕ)
        → Reaches pages root q → slice_get pages q ≡ Some (Node n) → n.is_index ≡ true
        → IsAscending n.pairs → (c : ℕ) → leading n.pairs at ≡ Some (Child c)
        → (child : WholeNode) → slice_get pages c ≡ Some (Node child) → child.hi ≡ at → at ≢ []
        → child.next ≡ Some page
        → AreTrees (slice_set pages q (Node (with_child at page n))) maps }
{}

/// Removing a child from an index leaves all maps as they are, if the pair before leads to the child's left neighbour, and that neighbour leads on
/// to the child. Searches then reach the child through its left neighbour. So the two nodes meet the conditions of the law below.
///
/// The two links of a merge have this effect on an index of which no child is being merged.
pub fn a_child_that_is_taken_out_leaves_the_maps()
    ensures trees { (pages : List Content) (maps : Maps) (root : ℕ) → AreTrees pages maps
        → HasTree maps root → (above : ℕ) (n : WholeNode) (left : ℕ) (l : WholeNode) (right : ℕ)
        (r : WholeNode) → IsWellFormed n → AreUnder pages root above n left l right r → AreTrees
        (slice_set pages above (Node (record n { pairs = without_child right n.pairs }))) maps }
    ensures beside { (pages : List Content) (maps : Maps) (root : ℕ) → AreTrees pages maps
        → HasTree maps root → (above : ℕ) (n : WholeNode) (left : ℕ) (l : WholeNode) (right : ℕ)
        (r : WholeNode) → IsWellFormed n → AreUnder pages root above n left l right r → AreBeside
        (slice_set pages above (Node (record n { pairs = without_child right n.pairs }))) root left l
        right r }
    ensures links { (n : WholeNode) (page : ℕ) → n.child ≡ None
        → applied ParentMergeConfirm (applied (ParentMergeIntention page) n)
        ≡ record n { pairs = without_child page n.pairs } }
{}

/// Merging the right neighbour into a node leaves all maps as they are, if the node leads a search for the neighbour's beginning on to the
/// neighbour. After that no search reaches the neighbour, so its page may be freed: the pages are in order, so no search came there another way.
///
/// If an index leads to the neighbour too, that pair is removed first, by the law above.
pub fn a_node_that_takes_in_its_neighbour_leaves_the_maps()
    ensures trees { (pages : List Content) (maps : Maps) (root : ℕ) → AreTrees pages maps
        → HasTree maps root → (left : ℕ) (l : WholeNode) (right : ℕ) (r : WholeNode)
        → AreBeside pages root left l right r → CanReceive l r → IsWellFormed l → IsWellFormed r
        → AreTrees (slice_set pages left (Node (merged l r))) maps }
    ensures off { (pages : List Content) (maps : Maps) (root : ℕ) → AreTrees pages maps
        → HasTree maps root → (left : ℕ) (l : WholeNode) (right : ℕ) (r : WholeNode)
        → AreBeside pages root left l right r → CanReceive l r → IsWellFormed l → IsWellFormed r
        → IsOff (slice_set pages left (Node (merged l r))) maps right }
{}
