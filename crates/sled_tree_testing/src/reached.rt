//! The pages that a map takes: those to which its root leads.

use sled_node::{Item, Node};
use sled_tree::{Log, PageCache, PageId, Trees};
use std::alloc::Global;

/// How many pages a map has, and how many pairs and children these have.
#[derive(Clone, Copy, Debug, PartialEq, Eq)]
pub struct Reached {
    /// How many leaves there are.
    pub leaves: usize,
    /// How many indices there are.
    pub indices: usize,
    /// How many pages are above each other on the way to the first key.
    pub levels: usize,
    /// How many pairs the leaves have.
    pub count: usize,
    /// The most pairs that a leaf has.
    pub pairs: usize,
    /// The most children that an index has.
    pub children: usize,
}

const NOTHING: Reached = Reached {
    leaves: 0,
    indices: 0,
    levels: 0,
    count: 0,
    pairs: 0,
    children: 0,
};

// More pages than a map of these tests has.
const MOST_PAGES: usize = 10_000;

const MOST_LEVELS: usize = 20;

/// The pages of the map of a name, if each one is there.
pub fn pages_of<L: Log>(alloc: Global, trees: &mut Trees<L>, name: &[u8]) -> Option<Reached> {
    let root = trees.cache().meta_pid_for_name(name).ok()?;
    let mut reached = Reached {
        levels: levels_from(trees.cache_mut(), root),
        ..NOTHING
    };
    let mut pages = Vec::new(alloc);
    pages.push(root).ok()?;
    for _ in 0..MOST_PAGES {
        let Some(page) = pages.pop() else {
            return Some(reached);
        };
        if !visits(trees, page, &mut reached, &mut pages) {
            return None;
        }
    }
    None
}

// Whether there is a node on the page. It is counted, and the pages below it are put behind the others.
fn visits<L: Log>(
    trees: &mut Trees<L>,
    page: PageId,
    reached: &mut Reached,
    pages: &mut Vec<PageId>,
) -> bool {
    match trees.cache_mut().get(page) {
        Ok(Some(view)) => counts(view.node(), reached, pages),
        _ => false,
    }
}

fn counts(node: &Node, reached: &mut Reached, pages: &mut Vec<PageId>) -> bool {
    let count = node.len();
    if node.is_index() {
        reached.indices = reached.indices.saturating_add(1);
        reached.children = reached.children.max(count);
        return adds_children(node, pages);
    }
    reached.leaves = reached.leaves.saturating_add(1);
    reached.count = reached.count.saturating_add(count);
    reached.pairs = reached.pairs.max(count);
    true
}

fn adds_children(node: &Node, pages: &mut Vec<PageId>) -> bool {
    for place in 0..node.len() {
        match node.pair(place) {
            (_, Item::Child(page)) => {
                if pages.push(page).is_err() {
                    return false;
                }
            }
            _ => return false,
        }
    }
    true
}

// How many pages are above each other from this one on, on the way to the first key; or 0 where these are too many.
fn levels_from<L: Log>(cache: &mut PageCache<L>, root: PageId) -> usize {
    let mut page = root;
    for above in 0..MOST_LEVELS {
        let Some(child) = first_child(cache, page) else {
            return above.saturating_add(1);
        };
        page = child;
    }
    0
}

fn first_child<L: Log>(cache: &mut PageCache<L>, page: PageId) -> Option<PageId> {
    match cache.get(page) {
        Ok(Some(view)) if view.node().len() > 0 => match view.node().pair(0).1 {
            Item::Child(child) => Some(child),
            _ => None,
        },
        _ => None,
    }
}
