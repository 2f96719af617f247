//! Planning a merge: whether two neighbours can be one node, and what replaces them. Nothing is written here.

ghost use Rattle.std.specs.Prelude.{◌≡◌, ◌<◌, true, length, IfOk, IfSome, IsTrue, slice_get, Some};
ghost use Rattle.sled_base.specs.Order.{Bytes};
ghost use Rattle.sled_log.specs.Contents.{Node as PageNode};
ghost use Rattle.sled_node.specs.Links.{without_child as pairs_without};
ghost use Rattle.sled_node.specs.Node.{Child, IsWellFormed};
ghost use Rattle.sled_node.specs.Splitting.{CanReceive};
ghost use Rattle.sled_pagecache.specs.State.{pid_of};
ghost use Rattle.sled_search.specs.Search.{HasNodeAt};
ghost use Rattle.sled_tree.specs.Changed.{Reads};
ghost use Rattle.sled_tree.specs.Merging.{AreJoined, IsJoined, IsParted, IsPlanned, LeadsToBoth};
ghost use Rattle.sled_tree.specs.Performs.{Performs};
ghost use Rattle.sled_tree.specs.Walks.{Leads};

use crate::splits::Changed;
use crate::trees::Limits;
use crate::walk::is_on_way;
use sled_node::{Item, Link, Node};
use sled_pagecache::{Error, IVec, Log, PageCache, PageId, PageView, sled_node};
use sled_search::is_key_at;

/// Two adjacent children of an index.
#[derive(Clone, Copy)]
pub struct Neighbours {
    pub left: PageId,
    pub right: PageId,
}

/// What a merge does: the new nodes for the page above and for the left neighbour's page, and the right neighbour's page, which is freed.
#[derive(Drop)]
pub struct Plan {
    pub above: Changed,
    pub left: Changed,
    pub right: PageView,
}

/// Returns the children at place `at - 1` and at place `at`, if there are both.
pub fn neighbours_at(index: &Node, at: usize) -> Option<Neighbours> {
    if at == 0 || at >= index.len() {
        return None;
    }
    let left = child_at(index, at - 1)?;
    let right = child_at(index, at)?;
    Some(Neighbours { left, right })
}

// The child at a place, of an index.
fn child_at(index: &Node, at: usize) -> Option<PageId>
    requires { at < length index.now.pairs }
    ensures { IfSome result (λ page. (key : Bytes)
        × (slice_get index.now.pairs at ≡ Some (key, Child page))) }
{
    match index.pair(at) {
        (_, Item::Child(page)) => Some(page),
        (_, Item::Value(_)) => None,
    }
}

/// Returns the plan of a merge, or `None` if the neighbours can't be merged.
///
/// They can if the index above leads to both and searches reach it, the left one leads on to the right one, and both have few enough pairs.
pub fn plan_for<L: Log>(
    cache: &mut PageCache<L>,
    root: PageId,
    above: PageId,
    neighbours: Neighbours,
    limits: Limits,
) -> Result<Option<Plan>, Error>
    ensures above { IfOk result (λ made. IfSome made (λ plan. pid_of plan.above.token ≡ above)) }
    ensures left { IfOk result
        (λ made. IfSome made (λ plan. pid_of plan.left.token ≡ neighbours.left)) }
    ensures right { IfOk result
        (λ made. IfSome made (λ plan. pid_of plan.right ≡ neighbours.right)) }
    ensures plan { Performs L.Log (Reads result (λ pages made. IfSome made
        (IsPlanned pages root above neighbours))) cache.old cache.new }
{
    let Some(joined) = joined_for(cache, neighbours, limits)? else {
        return Ok(None);
    };
    let Some(parted) = parted_at(cache, above, neighbours, &joined.begin)? else {
        return Ok(None);
    };
    if !are_on_way(cache, root, &parted.low, &joined.begin, above)? {
        return Ok(None);
    }
    Ok(Some(Plan {
        above: parted.index,
        left: joined.left,
        right: joined.right,
    }))
}

// Whether the searches for both keys from the root come to the page.
fn are_on_way<L: Log>(
    cache: &mut PageCache<L>,
    root: PageId,
    first: &IVec,
    second: &IVec,
    page: PageId,
) -> Result<bool, Error>
    ensures { Performs L.Log (Reads result (λ pages are. are ≡ true
        → Leads pages first.now root page × Leads pages second.now root page)) cache.old cache.new }
{
    if !is_on_way(cache, root, first.as_slice(), page)? {
        return Ok(false);
    }
    is_on_way(cache, root, second.as_slice(), page)
}

// Two neighbours as one node, which goes to the page of the left one, where the right one began, and its page.
#[derive(Drop)]
struct Joined {
    left: Changed,
    begin: IVec,
    right: PageView,
}

// Both neighbours as one node, if the left one leads on to the right one, and they have few enough pairs.
fn joined_for<L: Log>(
    cache: &mut PageCache<L>,
    neighbours: Neighbours,
    limits: Limits,
) -> Result<Option<Joined>, Error>
    ensures left { IfOk result
        (λ made. IfSome made (λ joined. pid_of joined.left.token ≡ neighbours.left)) }
    ensures right { IfOk result
        (λ made. IfSome made (λ joined. pid_of joined.right ≡ neighbours.right)) }
    ensures joined { Performs L.Log (Reads result (λ pages made. IfSome made
        (AreJoined pages neighbours))) cache.old cache.new }
{
    let first = copy_at(cache, neighbours.left)?;
    joined_at(cache, neighbours.right, first, limits)
}

// A copy of the node of a page.
fn copy_at<L: Log>(cache: &mut PageCache<L>, pid: PageId) -> Result<Changed, Error>
    ensures token { IfOk result (λ copy. pid_of copy.token ≡ pid) }
    ensures well { IfOk result (λ copy. IsWellFormed copy.node) }
    ensures copy { Performs L.Log (Reads result
        (λ pages copy. slice_get pages pid ≡ Some (PageNode copy.node))) cache.old cache.new }
{
    match cache.get(pid) {
        Ok(Some(view)) => copied(view.node(), view.token(), pid),
        Ok(None) => Err(Error::Corruption(None)),
        Err(refusal) => Err(Error::from(refusal)),
    }
}

fn copied(node: &Node, token: PageView, pid: PageId) -> Result<Changed, Error>
    ensures token { IfOk result (λ copy. pid_of copy.token ≡ pid) }
    ensures well { IfOk result (λ copy. IsWellFormed copy.node) }
    ensures copy { IfOk result (λ copy. copy.node ≡ node.now) }
{
    if token.pid() != pid {
        return Err(Error::Corruption(None));
    }
    let node = node.clone()?;
    let _ = node.data(); // which says that it is well-formed
    Ok(Changed { token, node })
}

// The copy of the left one with the pairs of the node on the page to its right.
fn joined_at<L: Log>(
    cache: &mut PageCache<L>,
    right: PageId,
    left: Changed,
    limits: Limits,
) -> Result<Option<Joined>, Error>
    requires { IsWellFormed left.node }
    ensures left { IfOk result
        (λ made. IfSome made (λ joined. pid_of joined.left.token ≡ pid_of left.token)) }
    ensures right { IfOk result (λ made. IfSome made (λ joined. pid_of joined.right ≡ right)) }
    ensures joined { Performs L.Log (Reads result (λ pages made. IfSome made
        (λ joined. HasNodeAt pages right (IsJoined left.node right joined)))) cache.old cache.new }
{
    match cache.get(right) {
        Ok(Some(view)) => join(left, view.node(), view.token(), right, limits),
        Ok(None) => Err(Error::Corruption(None)),
        Err(refusal) => Err(Error::from(refusal)),
    }
}

fn join(
    left: Changed,
    right: &Node,
    token: PageView,
    pid: PageId,
    limits: Limits,
) -> Result<Option<Joined>, Error>
    requires { IsWellFormed left.node }
    ensures left { IfOk result
        (λ made. IfSome made (λ joined. pid_of joined.left.token ≡ pid_of left.token)) }
    ensures right { IfOk result (λ made. IfSome made (λ joined. pid_of joined.right ≡ pid)) }
    ensures joined { IfOk result
        (λ made. IfSome made (λ joined. IsJoined left.node pid joined right.now)) }
{
    let Changed { token: place, node } = left;
    if token.pid() != pid || !leads_to(&node, pid) || !fits(&node, right, limits) {
        return Ok(None);
    }
    let _ = right.data(); // which says that it is well-formed
    let begin = right.lo().clone()?;
    let node = node.receive_merge(right)?;
    Ok(Some(Joined {
        left: Changed { token: place, node },
        begin,
        right: token,
    }))
}

// Whether the left one can take in the right one, and they have few enough pairs.
fn fits(left: &Node, right: &Node, limits: Limits) -> bool
    ensures { IsTrue result → CanReceive left.now right.now }
{
    left.can_receive(right) && !limits.are_passed(left.is_index(), left.len() + right.len())
}

// Whether the node leads on to this page.
fn leads_to(node: &Node, pid: PageId) -> bool
    ensures { IsTrue result → node.now.next ≡ Some pid }
{
    match node.next() {
        Some(page) => page.get() == pid,
        None => false,
    }
}

// An index that leads to one of two neighbours alone, and where it begins.
#[derive(Drop)]
struct Parted {
    index: Changed,
    low: IVec,
}

// The index on the page without the right one of two neighbours, if it leads to both, one behind the other, and to the right one from the
// key on at which that begins.
fn parted_at<L: Log>(
    cache: &mut PageCache<L>,
    above: PageId,
    neighbours: Neighbours,
    begin: &IVec,
) -> Result<Option<Parted>, Error>
    ensures token { IfOk result
        (λ made. IfSome made (λ parted. pid_of parted.index.token ≡ above)) }
    ensures parted { Performs L.Log (Reads result (λ pages made. IfSome made
        (λ parted. HasNodeAt pages above (IsParted neighbours begin.now parted)))) cache.old
        cache.new }
{
    match cache.get(above) {
        Ok(Some(view)) => part(view.node(), view.token(), above, neighbours, begin),
        Ok(None) => Err(Error::Corruption(None)),
        Err(refusal) => Err(Error::from(refusal)),
    }
}

fn part(
    index: &Node,
    token: PageView,
    pid: PageId,
    neighbours: Neighbours,
    begin: &IVec,
) -> Result<Option<Parted>, Error>
    ensures token { IfOk result (λ made. IfSome made (λ parted. pid_of parted.index.token ≡ pid)) }
    ensures parted { IfOk result
        (λ made. IfSome made (λ parted. IsParted neighbours begin.now parted index.now)) }
{
    if token.pid() != pid || !leads_to_both(index, neighbours, begin.as_slice()) {
        return Ok(None);
    }
    let _ = index.data(); // which says that it is well-formed
    let Some(node) = without_child(index, neighbours.right)? else {
        return Ok(None);
    };
    let low = index.lo().clone()?;
    let index = Changed { token, node };
    Ok(Some(Parted { index, low }))
}

// Whether the index leads to both neighbours, one behind the other, and to the right one from this key on.
fn leads_to_both(index: &Node, neighbours: Neighbours, begin: &[u8]) -> bool
    ensures { IsTrue result → LeadsToBoth index.now neighbours begin.now }
{
    if !index.has_child_for(begin) {
        return false;
    }
    let (at, child) = index.index_next_node(begin);
    if at == 0 || child != neighbours.right || !is_key_at(index, at, begin) {
        return false;
    }
    has_child_at(index, at - 1, neighbours.left)
}

// Whether the pair at a place leads to this page.
fn has_child_at(index: &Node, at: usize, page: PageId) -> bool
    requires { at < length index.now.pairs }
    ensures { IsTrue result → (key : Bytes)
        × (slice_get index.now.pairs at ≡ Some (key, Child page)) }
{
    match child_at(index, at) {
        Some(child) => child == page,
        None => false,
    }
}

// The index without the first pair that leads to the child, if no child of it is marked.
fn without_child(index: &Node, child: PageId) -> Result<Option<Node>, Error>
    ensures { IfOk result (λ made. IfSome made
        (λ node. node ≡ record index.now { pairs = pairs_without child index.now.pairs })) }
{
    let intention = Link::ParentMergeIntention(child);
    let mut node = index.clone()?;
    if !node.accepts(&intention) {
        return Ok(None);
    }
    node.apply(&intention)?;
    if !node.accepts(&Link::ParentMergeConfirm) {
        return Ok(None);
    }
    node.apply(&Link::ParentMergeConfirm)?;
    Ok(Some(node))
}
