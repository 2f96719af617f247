//! Where a key is in its leaf, or would be, and changing its value there.

ghost use Rattle.std.specs.Prelude.{◌≡◌, false, IfOk};
ghost use Rattle.sled_node.specs.Node.{IsInRange};
ghost use Rattle.sled_node.specs.declared.node.link.Link.TheVariants.{Set, Del};
ghost use Rattle.sled_tree.specs.Changed.{Reads};
ghost use Rattle.sled_tree.specs.Performs.{Performs};
ghost use Rattle.sled_tree.specs.Walks.{HasPlace, Says, Tells, Meets, IsPlaceOf, LinksPlace};

use crate::trees::Limits;
use crate::walk::MOST_TURNS;
use sled_node::{Link, Node};
use sled_pagecache::{Error, IVec, Log, PageCache, PageId, PageView, sled_node};
use sled_search::{Turn, route};

/// Where a key is, or would be: the token of its leaf, the key as the leaf stores it, and its value, if it has one.
#[derive(Drop)]
pub struct Place {
    pub token: PageView,
    pub stored: IVec,
    pub value: Option<IVec>,
}

/// What a search for a key's leaf with room for a pair meets first.
#[derive(Drop)]
pub enum Met {
    /// The leaf, with room for a pair.
    Leaf(Place),
    /// A page with too many pairs, in the second place. In the first is the page that led there, or the same page if it is the root.
    Full(PageId, PageId),
    /// A page that leads the key to the right, in the second place. In the first is the page that led there, or the same page if it is the root.
    Unled(PageId, PageId),
}

// What a page says of a key to a search for room.
#[derive(Drop)]
enum Look {
    Here(Place),
    Full,
    Down(PageId),
    Right(PageId),
}

/// Returns what a search for a key from the root meets first. Pages within the limits have room. A page that leads the key to the right is
/// reported only if `reports` is true; otherwise the search follows it.
pub fn seek<L: Log>(
    cache: &mut PageCache<L>,
    root: PageId,
    key: &[u8],
    limits: Limits,
    reports: bool,
) -> Result<Met, Error>
    ensures { Performs L.Log (Reads result (λ pages met. Meets pages root key.now met))
        cache.old cache.new }
{
    let mut above = root;
    let mut at = root;
    'turns: for _ in 0..MOST_TURNS {
        match look_at(cache, at, key, limits)? {
            Look::Here(place) => return Ok(Met::Leaf(place)),
            Look::Full => return Ok(Met::Full(above, at)),
            Look::Down(page) => {
                above = at;
                at = page;
            }
            Look::Right(page) => {
                if reports {
                    return Ok(Met::Unled(above, at));
                }
                at = page;
            }
        }
    }
    Err(Error::Corruption(None))
}

/// Returns the place of a key, whether its leaf has room or not.
pub fn place_for<L: Log>(cache: &mut PageCache<L>, root: PageId, key: &[u8]) -> Result<Place, Error>
    ensures { Performs L.Log (Reads result (λ pages place. IsPlaceOf pages root key.now place))
        cache.old cache.new }
{
    match seek(cache, root, key, Limits::none(), false)? {
        Met::Leaf(place) => Ok(place),
        _ => Err(Error::Corruption(None)),
    }
}

// What the page says of the key.
fn look_at<L: Log>(
    cache: &mut PageCache<L>,
    pid: PageId,
    key: &[u8],
    limits: Limits,
) -> Result<Look, Error>
    ensures { Performs L.Log (Reads result (λ pages look. Tells pages key.now pid look))
        cache.old cache.new }
{
    match cache.get(pid) {
        Ok(Some(view)) => looked(view.node(), view.token(), key, limits),
        Ok(None) => Err(Error::Corruption(None)),
        Err(refusal) => Err(Error::from(refusal)),
    }
}

fn looked(node: &Node, token: PageView, key: &[u8], limits: Limits) -> Result<Look, Error>
    ensures { IfOk result (λ look. Says token key.now node.now look) }
{
    let turn = route(node, key);
    if let Turn::Right(page) = turn {
        return Ok(Look::Right(page));
    }
    if is_full(node, limits) {
        return Ok(Look::Full);
    }
    match turn {
        Turn::Here => Ok(Look::Here(place_in(node, token, key)?)),
        Turn::Down(page) => Ok(Look::Down(page)),
        _ => Err(Error::Corruption(None)),
    }
}

// Whether a node has more pairs than it may.
fn is_full(node: &Node, limits: Limits) -> bool {
    limits.are_passed(node.is_index(), node.len())
}

// Where the key stands in its leaf.
fn place_in(node: &Node, token: PageView, key: &[u8]) -> Result<Place, Error>
    requires leaf { node.now.is_index ≡ false }
    requires range { IsInRange node.now key.now }
    ensures token { IfOk result (λ place. place.token ≡ token) }
    ensures place { IfOk result (λ place. HasPlace key.now place.stored place.value node.now) }
{
    let _ = node.data(); // which says that the keys rise
    let (stored, value) = node.node_kv_pair(key)?;
    Ok(Place {
        token,
        stored,
        value,
    })
}

/// Sets the value of the key at this place, and returns the value before.
pub fn set<L: Log>(
    cache: &mut PageCache<L>,
    place: Place,
    value: IVec,
) -> Result<Option<IVec>, Error>
    ensures before { IfOk result (λ before. before ≡ place.value) }
    ensures links { Performs L.Log (LinksPlace place (Set place.stored value) result)
        cache.old cache.new }
{
    let before = place.value;
    let link = Link::Set(place.stored, value);
    match cache.link(place.token.pid(), place.token, link)? {
        Ok(_) => Ok(before),
        Err(_) => Err(Error::Corruption(None)),
    }
}

/// Deletes the key at this place, and returns the value that it had.
pub fn delete<L: Log>(cache: &mut PageCache<L>, place: Place) -> Result<Option<IVec>, Error>
    ensures before { IfOk result (λ before. before ≡ place.value) }
    ensures links { Performs L.Log (LinksPlace place (Del place.stored) result)
        cache.old cache.new }
{
    let before = place.value;
    let link = Link::Del(place.stored);
    match cache.link(place.token.pid(), place.token, link)? {
        Ok(_) => Ok(before),
        Err(_) => Err(Error::Corruption(None)),
    }
}
