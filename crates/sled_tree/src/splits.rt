//! Splitting a leaf or an index that has too many pairs, to make room.
//!
//! First the right part is put on a new page, to which nothing leads yet. Then the left part, which leads on to the new page, replaces the whole
//! node: from then on each key is led to the part that has it. Last, the node above leads directly to the new page, which no result depends on.
//! So a crash or an error between two of these steps leaves the same map.

ghost use Rattle.std.specs.Prelude.{◌≡◌, ◌≢◌, ◌<◌, ◌≤◌, [], ◌∷◌, length, Some, IfOk, IfSome};
ghost use Rattle.sled_node.specs.Children.{index_of};
ghost use Rattle.sled_node.specs.Node.{Child};
ghost use Rattle.sled_pagecache.specs.State.{pid_of};
ghost use Rattle.sled_search.specs.Search.{HasNodeAt};
ghost use Rattle.sled_tree.specs.Changed.{Reads};
ghost use Rattle.sled_tree.specs.Maps.{Keeps};
ghost use Rattle.sled_tree.specs.Performs.{Performs};
ghost use Rattle.sled_tree.specs.Splits.{AreParts, IsCut, IsLed, EndsSo, Puts};
ghost use Rattle.sled_tree.specs.Walks.{IsMet, IsReached};

use sled_node::Node;
use sled_node::node::MAX_BYTES;
use sled_pagecache::{Error, IVec, Log, PageCache, PageId, PageView, sled_node};
use std::alloc::Global;
use std::num::NonZeroU64;

// The parts of a node, and the token of its page.
#[derive(Drop)]
struct Parts {
    token: PageView,
    left: Node,
    right: Node,
}

/// Splits a child in two, to make room for a key, and makes the node above lead to both parts.
pub fn split_child<L: Log>(
    cache: &mut PageCache<L>,
    above: PageId,
    child: PageId,
    key: &[u8],
) -> Result<(), Error>
    ensures { Performs L.Log (Keeps (IsMet above child)) cache.old cache.new }
{
    let Parts { token, left, right } = parts_at(cache, child, key)?;
    let at = right.lo().clone()?;
    let (sibling, _) = cache.allocate(right)?;
    put_left(cache, child, token, left, sibling)?;
    lead(cache, above, child, &at, sibling)
}

/// Splits the root, to make room for a key. The root stays on its page: its parts go to new pages, and it becomes an index over these.
pub fn grow<L: Log>(
    alloc: Global,
    cache: &mut PageCache<L>,
    root: PageId,
    key: &[u8],
) -> Result<(), Error>
    ensures { Performs L.Log (Keeps (IsReached root)) cache.old cache.new }
{
    let Parts { token, left, right } = parts_at(cache, root, key)?;
    let at = right.lo().clone()?;
    let (second, _) = cache.allocate(right)?;
    let left = with_next(left, second)?;
    let (first, _) = cache.allocate(left)?;
    let index = index_over(alloc, first, at, second)?;
    put(cache, root, token, index)
}

/// Makes the node above lead directly to the page to the right of a child, if it leads keys of that page to the child so far.
pub fn lead_right<L: Log>(
    cache: &mut PageCache<L>,
    above: PageId,
    child: PageId,
) -> Result<(), Error>
    ensures { Performs L.Log (Keeps (IsMet above child)) cache.old cache.new }
{
    match end_at(cache, child)? {
        Some((at, page)) => lead(cache, above, child, &at, page),
        None => Ok(()),
    }
}

// Where a node ends, if it does, and the page to the right.
fn end_at<L: Log>(cache: &mut PageCache<L>, pid: PageId) -> Result<Option<(IVec, PageId)>, Error>
    ensures some { IfOk result (λ end. IfSome end (λ end. end.0 ≢ [])) }
    ensures end { Performs L.Log (Reads result (λ pages end. IfSome end
        (λ end. HasNodeAt pages pid (EndsSo end.0 end.1)))) cache.old cache.new }
{
    match cache.get(pid) {
        Ok(Some(view)) => end_of(view.node()),
        Ok(None) => Err(Error::Corruption(None)),
        Err(refusal) => Err(Error::from(refusal)),
    }
}

fn end_of(node: &Node) -> Result<Option<(IVec, PageId)>, Error>
    ensures some { IfOk result (λ end. IfSome end (λ end. end.0 ≢ [])) }
    ensures end { IfOk result (λ end. IfSome end (λ end. EndsSo end.0 end.1 node.now)) }
{
    if node.hi().is_empty() {
        return Ok(None);
    }
    match node.next() {
        Some(page) => Ok(Some((node.hi().clone()?, page.get()))),
        None => Ok(None),
    }
}

fn parts_at<L: Log>(cache: &mut PageCache<L>, pid: PageId, key: &[u8]) -> Result<Parts, Error>
    ensures token { IfOk result (λ parts. pid_of parts.token ≡ pid) }
    ensures parts { Performs L.Log (Reads result
        (λ pages parts. HasNodeAt pages pid (λ n. AreParts n parts.left parts.right))) cache.old
        cache.new }
{
    match cache.get(pid) {
        Ok(Some(view)) => parts_of(view.node(), view.token(), pid, key),
        Ok(None) => Err(Error::Corruption(None)),
        Err(refusal) => Err(Error::from(refusal)),
    }
}

fn parts_of(node: &Node, token: PageView, pid: PageId, key: &[u8]) -> Result<Parts, Error>
    ensures token { IfOk result (λ parts. pid_of parts.token ≡ pid) }
    ensures parts { IfOk result (λ parts. AreParts node.now parts.left parts.right) }
{
    if node.len() < 3 || token.pid() != pid {
        return Err(Error::Corruption(None));
    }
    let _ = node.data(); // which says that it is well-formed
    let count = left_count(node, key);
    let (left, right) = node.clone()?.split_behind(count)?;
    let _ = left.data();
    let _ = right.data();
    Ok(Parts { token, left, right })
}

// How many pairs stay on the left: half of them and one more. But where the key comes behind all that the tree has at this height, all but the
// last one stay: keys that rise put no pair on the left any more, which so stays full.
fn left_count(node: &Node, key: &[u8]) -> usize
    requires { 3 ≤ length node.now.pairs }
    ensures some { 1 ≤ result }
    ensures others { result < length node.now.pairs }
{
    if is_behind_all(node, key) {
        node.len() - 1
    } else {
        node.len() / 2 + 1
    }
}

// Whether the node has no end, and the key comes behind its last one, which is stored whole then.
fn is_behind_all(node: &Node, key: &[u8]) -> bool
    requires { 1 ≤ length node.now.pairs }
{
    let (last, _) = node.pair(node.len() - 1);
    node.hi().is_empty() && last < key
}

// Puts the left part in place of the whole, leading on to the right one.
fn put_left<L: Log>(
    cache: &mut PageCache<L>,
    child: PageId,
    token: PageView,
    left: Node,
    sibling: PageId,
) -> Result<(), Error>
    requires { pid_of token ≡ child }
    ensures { Performs L.Log (Puts child (record left { next = Some sibling }) result) cache.old
        cache.new }
{
    let left = with_next(left, sibling)?;
    put(cache, child, token, left)
}

fn index_over(alloc: Global, first: PageId, at: IVec, second: PageId) -> Result<Node, Error>
    ensures { IfOk result
        (λ index. index ≡ index_of (([], Child first) ∷ (at, Child second) ∷ [])) }
{
    if at.is_empty() || at.len() > MAX_BYTES {
        return Err(Error::Corruption(None));
    }
    Ok(Node::new_hoisted_root(alloc, first, at, second)?)
}

// Leads from the key on to the page at once, where the index leads that key to the node that ends there. No answer depends on it.
fn lead<L: Log>(
    cache: &mut PageCache<L>,
    above: PageId,
    child: PageId,
    at: &IVec,
    page: PageId,
) -> Result<(), Error>
    ensures { Performs L.Log (Keeps (IsCut above child at.now page)) cache.old cache.new }
{
    match led_at(cache, above, child, at, page)? {
        Some(index) => put(cache, above, index.token, index.node),
        None => Ok(()),
    }
}

/// The new node for the page of a token.
#[derive(Drop)]
pub struct Changed {
    pub token: PageView,
    pub node: Node,
}

fn led_at<L: Log>(
    cache: &mut PageCache<L>,
    above: PageId,
    child: PageId,
    at: &IVec,
    page: PageId,
) -> Result<Option<Changed>, Error>
    ensures token { IfOk result (λ made. IfSome made (λ changed. pid_of changed.token ≡ above)) }
    ensures led { Performs L.Log (Reads result (λ pages made. IfSome made
        (λ changed. HasNodeAt pages above (λ n. IsLed n child at.now page changed.node)))) cache.old
        cache.new }
{
    match cache.get(above) {
        Ok(Some(view)) => led(view.node(), view.token(), above, child, at, page),
        Ok(None) => Err(Error::Corruption(None)),
        Err(refusal) => Err(Error::from(refusal)),
    }
}

fn led(
    node: &Node,
    token: PageView,
    above: PageId,
    child: PageId,
    at: &IVec,
    page: PageId,
) -> Result<Option<Changed>, Error>
    ensures token { IfOk result (λ made. IfSome made (λ changed. pid_of changed.token ≡ above)) }
    ensures led { IfOk result
        (λ made. IfSome made (λ changed. IsLed node.now child at.now page changed.node)) }
{
    let at = at.as_slice();
    if token.pid() != above || !node.accepts_child(at) {
        return Ok(None);
    }
    if !node.has_child_for(at) {
        return Ok(None);
    }
    let (_, leads_to) = node.index_next_node(at);
    if leads_to != child {
        return Ok(None);
    }
    let _ = node.data(); // which says that the keys rise
    let mut index = node.clone()?;
    if !index.parent_split(at, page)? {
        return Ok(None);
    }
    Ok(Some(Changed { token, node: index }))
}

// The node, leading on to the page.
fn with_next(node: Node, page: PageId) -> Result<Node, Error>
    ensures { IfOk result (λ made. made ≡ record node { next = Some page }) }
{
    let Some(next) = NonZeroU64::new(page) else {
        return Err(Error::Corruption(None));
    };
    let mut node = node;
    node.set_next(next);
    Ok(node)
}

/// Replaces what a page holds with a node.
pub fn put<L: Log>(
    cache: &mut PageCache<L>,
    pid: PageId,
    token: PageView,
    node: Node,
) -> Result<(), Error>
    requires { pid_of token ≡ pid }
    ensures { Performs L.Log (Puts pid node result) cache.old cache.new }
{
    let swapped = cache.replace(pid, token, node)?;
    if swapped.is_err() {
        return Err(Error::Corruption(None));
    }
    Ok(())
}
