//! Opening a tree by its name.

ghost use Rattle.std.specs.Prelude.{◌≡◌, ⊤, false, IfErr};
ghost use Rattle.sled_pagecache.specs.Answers.{HasNoName};
ghost use Rattle.sled_pagecache.specs.Memory.{IsBounded};
ghost use Rattle.sled_pagecache.specs.Memory.{ReadsNothing};
ghost use Rattle.sled_pagecache.specs.Trees.{IsTreeOpened, KeepsFault, MakesTree, PutsIndex, NamesRoot};
ghost use Rattle.sled_pagecache.specs.Inside.TreeOpenings.{Looks, GoesOn};

use crate::pagecache::calls::PageCache;
use crate::pagecache::write::root_page::judge_name;
use sled_base::{Bug, Error, IVec, PageId};
use sled_log::Log;
use sled_node::Node;

/// Returns the root page of the tree with this name. If the name has no root, it makes one: an index over all keys, which leads to an empty
/// leaf.
///
/// It reads nothing. For a name that has a root it takes no memory, and the log isn't called. For any other name it fails with
/// `NameTooLong` above [`MAX_BYTES`](sled_node::node::MAX_BYTES) and with `TooManyNames` if there are
/// [`MAX_NAMES`](sled_node::meta::MAX_NAMES) others, before anything is made. Then it allocates the leaf, then the index, and then it sets
/// the name, as [`allocate`](PageCache::allocate) and [`cas_root_in_meta`](PageCache::cas_root_in_meta) do. The first of these that fails
/// ends the call, and what was made before it stays: no page, the leaf, or the leaf and the index. A write error is sticky.
pub fn open_tree<L: Log>(cache: &mut PageCache<L>, name: IVec) -> Result<PageId, Error>
    ensures opened { IsTreeOpened L.Log cache.old name result cache.new }
    ensures keeps { KeepsFault cache.old cache.new result }
    ensures unread { ReadsNothing L.Log cache.old cache.new }
    ensures bounded { IsBounded L.Log cache.new }
    ensures unnamed { IfErr result HasNoName }
{
    cache.know_listed();
    if let Some(root) = find_tree(cache, name.as_slice())? {
        return Ok(root);
    }
    make_tree(cache, name.as_slice())
}

// The root of a name, or none where it may be given one.
fn find_tree<L: Log>(cache: &PageCache<L>, name: &[u8]) -> Result<Option<PageId>, Error>
    ensures looks { Looks L.Log cache.now name.now result }
    ensures unnamed { IfErr result HasNoName }
{
    let view = cache.get_meta()?;
    if let Some(root) = view.meta().get_root(name) {
        return Ok(Some(root));
    }
    judge_name(view.meta(), name)?;
    Ok(None)
}

// Makes a tree of a name that has none.
fn make_tree<L: Log>(cache: &mut PageCache<L>, name: &[u8]) -> Result<PageId, Error>
    requires { cache.old.fault ≡ false }
    ensures goes { GoesOn L.Log cache.old (MakesTree ⊤ name.now result) result cache.new }
    ensures unnamed { IfErr result HasNoName }
{
    let node = Node::default(cache.alloc());
    let (leaf, _) = cache.allocate(node)?;
    put_index(cache, name, leaf)
}

// Puts an index over the leaf, and names it.
fn put_index<L: Log>(cache: &mut PageCache<L>, name: &[u8], leaf: PageId) -> Result<PageId, Error>
    requires clear { cache.old.fault ≡ false }
    requires bounded { IsBounded L.Log cache.old }
    ensures goes { GoesOn L.Log cache.old (PutsIndex ⊤ name.now result leaf) result cache.new }
    ensures unnamed { IfErr result HasNoName }
{
    let index = Node::new_root(cache.alloc(), leaf)?;
    let (root, _) = cache.allocate(index)?;
    name_root(cache, name, root)
}

// Gives the name its root.
fn name_root<L: Log>(cache: &mut PageCache<L>, name: &[u8], root: PageId) -> Result<PageId, Error>
    requires { cache.old.fault ≡ false }
    ensures goes { GoesOn L.Log cache.old (NamesRoot ⊤ name.now result root) result cache.new }
    ensures unnamed { IfErr result HasNoName }
{
    match cache.cas_root_in_meta(name, None, Some(root))? {
        Ok(()) => Ok(root),
        Err(_) => Err(Error::ReportableBug(Bug::MissingMeta)),
    }
}
