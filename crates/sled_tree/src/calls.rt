//! The calls on maps as data: each does what the law over openings asks of it.

ghost use Rattle.std.specs.Prelude.{◌≡◌, ◌↔◌, ℕ, Bool, true, IsTrue, List, [], ◌∷◌, length, Option, Some, Result, Ok};
ghost use Rattle.std.specs.Option.{is_some};
ghost use Rattle.std.specs.declared.ops.Bound.{Bound};
ghost use Rattle.sled_base.specs.Order.{Bytes};
ghost use Rattle.sled_pagecache.specs.Cache.{Cache};
ghost use Rattle.sled_pagecache.specs.declared.pagecache.handles.call.Answer.{Answer};
ghost use Rattle.sled_pagecache.specs.declared.pagecache.handles.call.Call.{Call};
ghost use Rattle.sled_pagecache.specs.declared.pagecache.handles.config.Config.{Config};
ghost use Rattle.sled_search.specs.Map.{Map, at_key};
ghost use Rattle.sled_search.specs.Maps.{HasTree};
ghost use Rattle.sled_search.specs.Search.{IsTreeOf};
ghost use Rattle.sled_tree.specs.Calls.{MapCall, Opened, Got, Contained, GotFirst, GotLast, GotAbove, GotBelow, GotRange, Counted, FoundEmpty, Inserted, Removed, Swapped, Generated, Flushed, Pinned, Sealed, Cancelled, Needs, Does, EndsBeside, EndsInNeed, deed, IsWordOf};
ghost use Rattle.sled_tree.specs.Changed.{LeavesPages, Reads};
ghost use Rattle.sled_tree.specs.Maps.{ChangesMap, KeepsMaps, SetsKey, SwapsKey, TakesKey, root_of};
ghost use Rattle.sled_tree.specs.Names.{OpensMap};
ghost use Rattle.sled_tree.specs.Openings.{Ending, Opening, Lasted};
ghost use Rattle.sled_tree.specs.Ordered.{behind, before, first_of, last_of, IsPieceOf};
ghost use Rattle.sled_tree.specs.declared.neighbours.pieces.Piece.{Piece};
ghost use Rattle.sled_tree.specs.Prefixes.{History, flushes, named_by_now, ShowMaps};
ghost use Rattle.sled_tree.specs.declared.error.TreeError.{TreeError};
ghost use Rattle.sled_tree.specs.declared.trees.Tree.{Tree};

use sled_log::Log;

/// Each call keeps its word. If a call did what its contract says, it is the deed of its name, with the call's arguments and result, and it was
/// done by the same calls of the cache that the contract is about.
///
/// So the runs of openings in `every_opening_shows_maps` consist of what the contracts of `Trees` promise.
pub fn each_call_keeps_its_word<L: Log>()
    ensures open { (name : Bytes) (result : Result Tree TreeError)
        → IsWordOf L.Log (OpensMap root_of name result) (Opened name result) }
    ensures get { (root : ℕ) (key : Bytes) (result : Result (Option Bytes) TreeError)
        → IsWordOf L.Log (Reads result (λ pages value. (m : Map) → IsTreeOf pages root m
        → value ≡ at_key m key)) (Got root key result) }
    ensures contains_key { (root : ℕ) (key : Bytes) (result : Result Bool TreeError)
        → IsWordOf L.Log (Reads result (λ pages there. (m : Map) → IsTreeOf pages root m
        → there ≡ is_some (at_key m key))) (Contained root key result) }
    ensures first { (root : ℕ) (result : Result (Option (Bytes × Bytes)) TreeError)
        → IsWordOf L.Log (Reads result (λ pages pair. (m : Map) → IsTreeOf pages root m
        → pair ≡ first_of m)) (GotFirst root result) }
    ensures last { (root : ℕ) (result : Result (Option (Bytes × Bytes)) TreeError)
        → IsWordOf L.Log (Reads result (λ pages pair. (m : Map) → IsTreeOf pages root m
        → pair ≡ last_of m)) (GotLast root result) }
    ensures next_above { (root : ℕ) (bound : Bound Bytes)
        (result : Result (Option (Bytes × Bytes)) TreeError)
        → IsWordOf L.Log (Reads result (λ pages pair. (m : Map) → IsTreeOf pages root m
        → pair ≡ first_of (behind bound m))) (GotAbove root bound result) }
    ensures next_below { (root : ℕ) (bound : Bound Bytes)
        (result : Result (Option (Bytes × Bytes)) TreeError)
        → IsWordOf L.Log (Reads result (λ pages pair. (m : Map) → IsTreeOf pages root m
        → pair ≡ last_of (before bound m))) (GotBelow root bound result) }
    ensures range { (root : ℕ) (from to : Bound Bytes)
        (result : Result Piece TreeError)
        → IsWordOf L.Log (Reads result (λ pages piece. (m : Map) → IsTreeOf pages root m
        → IsPieceOf from to m piece)) (GotRange root from to result) }
    ensures len { (root : ℕ) (result : Result ℕ TreeError)
        → IsWordOf L.Log (Reads result (λ pages count. (m : Map) → IsTreeOf pages root m
        → count ≡ length m)) (Counted root result) }
    ensures is_empty { (root : ℕ) (result : Result Bool TreeError)
        → IsWordOf L.Log (Reads result (λ pages none. (m : Map) → IsTreeOf pages root m
        → IsTrue none ↔ (m ≡ []))) (FoundEmpty root result) }
    ensures insert { (root : ℕ) (key value : Bytes) (result : Result (Option Bytes) TreeError)
        → IsWordOf L.Log (ChangesMap root (SetsKey root key value result))
        (Inserted root key value result) }
    ensures remove { (root : ℕ) (key : Bytes) (result : Result (Option Bytes) TreeError)
        → IsWordOf L.Log (ChangesMap root (TakesKey root key result)) (Removed root key result) }
    ensures compare_and_swap { (root : ℕ) (key : Bytes) (before after : Option Bytes)
        (result : Result (Result (Unit {0}) (Option Bytes)) TreeError)
        → IsWordOf L.Log (ChangesMap root (SwapsKey root key before after result))
        (Swapped root key before after result) }
    ensures generate_id { (result : Result ℕ TreeError)
        → IsWordOf L.Log KeepsMaps (Generated result) }
    ensures flush { (result : Result ℕ TreeError)
        → IsWordOf L.Log KeepsMaps (Flushed result) }
    ensures pin { (result : Result (Unit {0}) TreeError)
        → IsWordOf L.Log KeepsMaps (Pinned result) }
    ensures seal { (result : Result (Unit {0}) TreeError)
        → IsWordOf L.Log LeavesPages (Sealed result) }
    ensures cancel { (result : Result (Unit {0}) TreeError)
        → IsWordOf L.Log LeavesPages (Cancelled result) }
{}

/// A value that was set and then flushed in one opening is read back in the next one. The first opening may end in any way after the flush. If it
/// ends by a crash inside another call, that call must not change this key of this map, and must be for a root that has a map.
pub fn what_was_set_and_flushed_is_read_back<L: Log>()
    ensures { (h : History) (root : ℕ) (key value : Bytes) (before answer : Option Bytes)
        (written : ℕ) (set_calls flush_calls get_calls : List (Call × Answer))
        (config_then config : Config) (first_then last_then first last : Cache L)
        (left_then left : L) (ending_then ending : Ending MapCall)
        (openings : List (Opening L MapCall))
        → HasTree (named_by_now h).maps root → flushes flush_calls ≡ true
        → EndsBeside (named_by_now h) root key ending_then
        → ShowMaps L.Log Needs Does h
        (Lasted config_then first_then (deed (Inserted root key value (Ok before)) set_calls
        ∷ deed (Flushed (Ok written)) flush_calls ∷ []) last_then ending_then left_then
        ∷ Lasted config first (deed (Got root key (Ok answer)) get_calls ∷ []) last ending left
        ∷ openings)
        → answer ≡ Some value }
{}

/// A map that was opened by its name and then flushed is the one that the next opening returns for the name. The first opening may end in any way
/// after the flush. If it ends by a crash inside another call, that call must be for a root that has a map, or need none.
pub fn what_was_opened_and_flushed_is_opened_again<L: Log>()
    ensures { (h : History) (name : Bytes) (tree_then tree : Tree) (written : ℕ)
        (calls_then flush_calls calls : List (Call × Answer)) (config_then config : Config)
        (first_then last_then first last : Cache L) (left_then left : L)
        (ending_then ending : Ending MapCall) (openings : List (Opening L MapCall))
        → flushes flush_calls ≡ true → EndsInNeed (named_by_now h) ending_then
        → ShowMaps L.Log Needs Does h
        (Lasted config_then first_then (deed (Opened name (Ok tree_then)) calls_then
        ∷ deed (Flushed (Ok written)) flush_calls ∷ []) last_then ending_then left_then
        ∷ Lasted config first (deed (Opened name (Ok tree)) calls ∷ []) last ending left
        ∷ openings)
        → root_of tree ≡ root_of tree_then }
{}
