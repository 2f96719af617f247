//! Laws of the definitions that the contracts of a tree cite: which map a tree is, and how each change of a page changes that map.

ghost use Rattle.std.specs.Prelude.{◌≡◌, ◌≢◌, ◌<◌, ◌≤◌, ℕ, suc, List, [], ◌∷◌, ◌++◌, length, take, Option, Some, true, slice_get, slice_set, ⊤};
ghost use Rattle.std.specs.Option.{option_map};
ghost use Rattle.sled_base.specs.Order.{Bytes};
ghost use Rattle.sled_log.specs.Contents.{Content, Node, Update, contents_after};
ghost use Rattle.sled_log.specs.Events.{Event};
ghost use Rattle.sled_log.specs.LogState.{CrashKeeps};
ghost use Rattle.sled_node.specs.Children.{index_of, with_child};
ghost use Rattle.sled_node.specs.Links.{applied};
ghost use Rattle.sled_node.specs.Node.{WholeNode, whole, empty_leaf, Child, Value, IsInRange, IsWellFormed};
ghost use Rattle.sled_node.specs.Pairs.{IsAscending, set_pair, del_pair};
ghost use Rattle.sled_node.specs.Splitting.{SplitsBehind};
ghost use Rattle.sled_node.specs.declared.node.link.Link.TheVariants.{Set, Del};
ghost use Rattle.sled_search.specs.Changes.{Passes};
ghost use Rattle.sled_search.specs.Map.{Map, at_key, leading};
ghost use Rattle.sled_search.specs.Maps.{ChangesOne};
ghost use Rattle.sled_search.specs.Routes.{IsAstray};
ghost use Rattle.sled_search.specs.Search.{HasNodeAt, LeadsTo, IsLeafOf, Answers, Goes, ComesToValue, ComesToLeafOf, IsTreeOf};

/// A search for a key has at most one result. In a tree, the result is what the map has at the key.
pub fn a_search_is_answered_by_the_map()
    ensures one { (pages : List Content) (key : Bytes) (a b : Option Bytes) (root : ℕ)
        → ComesToValue pages key a root → ComesToValue pages key b root → a ≡ b }
    ensures map { (pages : List Content) (key : Bytes) (value : Option Bytes) (root : ℕ)
        (m : Map) → IsTreeOf pages root m → ComesToValue pages key value root → value ≡ at_key m key }
{}

/// A tree is at most one map.
pub fn a_tree_is_one_map()
    ensures { (pages : List Content) (root : ℕ) (m other : Map) → IsTreeOf pages root m
        → IsTreeOf pages root other → m ≡ other }
{}

/// Turns in a row make a search. A search that ends at a leaf of its key has come to that leaf, and finds what the leaf has at the key. If one
/// page is changed, a search goes the same way as before until it reaches that page.
pub fn turns_make_a_search()
    ensures then { (pages : List Content) (key : Bytes) (turns from at to : ℕ)
        → Goes pages key turns from at
        → HasNodeAt pages at (λ n. LeadsTo n key to) → Goes pages key (suc turns) from to }
    ensures leaf { (pages : List Content) (key : Bytes) (turns from leaf : ℕ)
        → Goes pages key turns from leaf → HasNodeAt pages leaf (IsLeafOf key)
        → ComesToLeafOf pages key key leaf from }
    ensures value { (pages : List Content) (key : Bytes) (value : Option Bytes)
        (turns from leaf : ℕ) → Goes pages key turns from leaf
        → HasNodeAt pages leaf (Answers key value) → ComesToValue pages key value from }
    ensures up_to { (pages changed : List Content) (p : ℕ) → ChangesOne pages p changed
        → (key : Bytes) (turns from at : ℕ) → Goes pages key turns from at
        → ((i : ℕ) → i < turns → Goes pages key i from p → ⊥) → Goes changed key turns from at }
{}

/// A search in a tree takes fewer turns than there are pages, and visits no page twice. Each page that it visits has a node, which is a leaf of
/// the key or leads the search further.
pub fn a_search_in_a_tree_ends()
    ensures once { (pages : List Content) (root : ℕ) (m : Map) → IsTreeOf pages root m
        → (key : Bytes) (i j at : ℕ) → Goes pages key i root at → Goes pages key j root at → i ≡ j }
    ensures turns { (pages : List Content) (root : ℕ) (m : Map) → IsTreeOf pages root m
        → (key : Bytes) (turns at : ℕ) → Goes pages key turns root at → turns < length pages }
    ensures astray { (pages : List Content) (root : ℕ) (m : Map) → IsTreeOf pages root m
        → (key : Bytes) (turns at : ℕ) → Goes pages key turns root at
        → HasNodeAt pages at (IsAstray key) → ⊥ }
    ensures node { (pages : List Content) (root : ℕ) (m : Map) → IsTreeOf pages root m
        → (key : Bytes) (turns at : ℕ) → Goes pages key turns root at
        → HasNodeAt pages at (λ _. ⊤) }
{}

/// An index over all keys whose only child is an empty leaf is the empty map. `open_tree` makes such a tree.
pub fn a_new_tree_is_empty()
    ensures { (pages : List Content) (root leaf : ℕ)
        → slice_get pages root ≡ Some (Node (index_of (([], Child leaf) ∷ [])))
        → slice_get pages leaf ≡ Some (Node empty_leaf) → IsTreeOf pages root [] }
{}

/// Setting a key in the leaf that its search comes to sets it in the map. Deleting it in that leaf deletes it from the map.
pub fn a_leaf_that_is_changed_changes_the_map()
    ensures set { (pages : List Content) (root : ℕ) (m : Map) → IsTreeOf pages root m
        → (p : ℕ) (n : WholeNode) → slice_get pages p ≡ Some (Node n) → (stored value : Bytes)
        → ComesToLeafOf pages (whole n stored) (whole n stored) p root
        → IsTreeOf (slice_set pages p (Node (applied (Set stored value) n))) root
        (set_pair (whole n stored) value m) }
    ensures del { (pages : List Content) (root : ℕ) (m : Map) → IsTreeOf pages root m
        → (p : ℕ) (n : WholeNode) → slice_get pages p ≡ Some (Node n) → (stored : Bytes)
        → ComesToLeafOf pages (whole n stored) (whole n stored) p root
        → IsTreeOf (slice_set pages p (Node (applied (Del stored) n))) root
        (del_pair (whole n stored) m) }
{}

/// Putting a node on a page that has none leaves the map as it is.
pub fn a_page_that_is_added_leaves_the_map()
    ensures { (pages : List Content) (root : ℕ) (m : Map) → IsTreeOf pages root m
        → (changed : List Content) (p : ℕ)
        → ((n : WholeNode) → slice_get pages p ≡ Some (Node n) → ⊥)
        → ((pid : ℕ) → pid ≢ p → (n : WholeNode) → slice_get pages pid ≡ Some (Node n)
        → slice_get changed pid ≡ Some (Node n)) → IsTreeOf changed root m }
{}

/// Splitting a node after any number of its pairs leaves the map as it is. Either its left part replaces it, and leads a search on to the right
/// part; or an index over both parts replaces it.
pub fn a_node_that_is_split_leaves_the_map()
    ensures in_place { (pages : List Content) (root : ℕ) (m : Map) → IsTreeOf pages root m
        → (p many : ℕ) (n l r : WholeNode) → slice_get pages p ≡ Some (Node n) → SplitsBehind n many l r
        → IsWellFormed n → IsWellFormed l → IsWellFormed r → (right : ℕ)
        → slice_get pages right ≡ Some (Node r) → right ≢ p
        → IsTreeOf (slice_set pages p (Node (record l { next = Some right }))) root m }
    ensures hoisted { (pages : List Content) (root : ℕ) (m : Map) → IsTreeOf pages root m
        → (p many : ℕ) (n l r : WholeNode) → slice_get pages p ≡ Some (Node n) → SplitsBehind n many l r
        → IsWellFormed n → IsWellFormed l → IsWellFormed r → (left right : ℕ)
        → slice_get pages left ≡ Some (Node (record l { next = Some right })) → left ≢ p
        → slice_get pages right ≡ Some (Node r) → right ≢ p → IsTreeOf (slice_set pages p
        (Node (index_of (([], Child left) ∷ (r.lo, Child right) ∷ [])))) root m }
{}

/// Adding a child to an index, from a key on, leaves the map as it is. The condition is that the node to which the index led that key so far ends
/// at the key, and that its next node is the new child.
pub fn a_child_that_is_added_leaves_the_map()
    ensures { (pages : List Content) (root : ℕ) (m : Map) → IsTreeOf pages root m
        → (q : ℕ) (n : WholeNode) (at : Bytes) (page : ℕ) → slice_get pages q ≡ Some (Node n)
        → n.is_index ≡ true → IsAscending n.pairs → (c : ℕ)
        → leading n.pairs at ≡ Some (Child c) → (child : WholeNode)
        → slice_get pages c ≡ Some (Node child) → child.hi ≡ at → at ≢ []
        → child.next ≡ Some page
        → IsTreeOf (slice_set pages q (Node (with_child at page n))) root m }
{}

/// A leaf that a search comes to has what the map has at each key of its range. So between a bound and the leaf's end, the map has exactly the
/// keys that the leaf has.
pub fn a_leaf_has_what_the_map_has()
    ensures { (pages : List Content) (root : ℕ) (m : Map) → IsTreeOf pages root m
        → (key : Bytes) (leaf : ℕ) (n : WholeNode) → slice_get pages leaf ≡ Some (Node n)
        → ComesToLeafOf pages key key leaf root → (other : Bytes) → IsInRange n other
        → at_key n.pairs other ≡ option_map Value (at_key m other) }
{}

/// If a tree is a map after each of some changes, then in the pages after a prefix of the changes it is the map of that prefix. A crash keeps a
/// prefix of the changes, so it leaves the map of that prefix.
pub fn a_crash_leaves_one_of_the_maps()
    ensures prefix { (pages : List Content) (root : ℕ) (m : Map) (events : List (Event Update))
        (maps : List Map) → Passes pages root m events maps → (n : ℕ) → n ≤ length events
        → (then : Map) × (slice_get (m ∷ maps) n ≡ Some then)
        × IsTreeOf (contents_after pages (take n events)) root then }
    ensures crash { (pages : List Content) (root : ℕ) (m : Map)
        (made begun : List (Event Update)) (maps : List Map)
        → Passes pages root m (made ++ begun) maps → (left : List Content)
        → (crash : CrashKeeps contents_after pages made begun (λ kept. left ≡ kept))
        → (then : Map) × (slice_get (m ∷ maps) crash.cut ≡ Some then) × IsTreeOf left root then }
{}
