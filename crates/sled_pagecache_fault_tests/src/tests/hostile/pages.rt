// What the records of a page make, by docs/FORMAT.md alone, and whether a cache shows it.

ghost use Rattle.std.specs.Prelude.{◌<◌, length, IfSome};

use super::payloads::{Front, Pair, bytes_of, is_within, node_in, number, string};
use super::records::Record;
use super::*;

/// What a page is.
#[derive(Drop)]
pub(super) enum Page {
    Absent,
    // its first wrong record stands there
    Wrong(u64),
    Node(Front, Vec<Pair>),
}

// Where the pair with a key stands.
fn place_of(pairs: &[Pair], file: &[u8], key: &[u8]) -> Option<usize>
    ensures { IfSome result (λ at. at < length pairs.now) }
{
    pairs
        .iter()
        .position(|pair| bytes_of(file, pair.key) == key)
}

// Puts a pair in the place of that with its key, or behind all.
fn set(front: &Front, pairs: &mut Vec<Pair>, file: &[u8], pair: Pair) -> Option<()> {
    let key = bytes_of(file, pair.key);
    if front.is_index || !is_within(front, file, key) {
        return None;
    }
    match place_of(pairs, file, key) {
        Some(at) => *pairs.get_mut(at)? = pair,
        None => pairs.push(pair).ok()?,
    }
    Some(())
}

fn take_out(front: &Front, pairs: &mut Vec<Pair>, file: &[u8], key: &[u8]) -> Option<()> {
    if front.is_index {
        return None;
    }
    if let Some(at) = place_of(pairs, file, key) {
        pairs.remove(at);
    }
    Some(())
}

// Takes out the first pair that leads to the child that is to be merged.
fn confirm(front: &mut Front, pairs: &mut Vec<Pair>) -> Option<()> {
    let child = front.child;
    if !front.is_index || child == 0 {
        return None;
    }
    let at = pairs.iter().position(|pair| pair.page == child)?;
    pairs.remove(at);
    front.child = 0;
    Some(())
}

// Applies a link that fills the rest of the file.
fn apply(front: &mut Front, pairs: &mut Vec<Pair>, file: &[u8], at: usize) -> Option<()> {
    let kind = *file.get(at)?;
    let at = at.saturating_add(1);
    let end = file.len();
    match kind {
        0 => {
            let (key, at) = string(file, at)?;
            let (value, at) = string(file, at)?;
            let pair = Pair {
                key,
                value,
                page: 0,
            };
            (at == end).then_some(())?;
            set(front, pairs, file, pair)
        }
        1 => {
            let (key, at) = string(file, at)?;
            (at == end).then_some(())?;
            take_out(front, pairs, file, bytes_of(file, key))
        }
        2 => {
            let (child, at) = number(file, at)?;
            (at == end && child != 0 && front.child == 0).then_some(())?;
            front.child = child;
            Some(())
        }
        3 if at == end => confirm(front, pairs),
        4 if at == end => {
            front.is_capped = true;
            Some(())
        }
        _ => None,
    }
}

// Whether the node takes the link of a record.
fn takes(front: &mut Front, pairs: &mut Vec<Pair>, file: &[u8], link: &Record) -> bool {
    match file.get(..link.to) {
        Some(file) => !front.is_capped && apply(front, pairs, file, link.from).is_some(),
        None => false,
    }
}

// What these records make of a page.
pub(super) fn page_of(alloc: Global, file: &[u8], messages: &[Record]) -> Page {
    let [base, links @ ..] = messages else {
        return Page::Absent;
    };
    if base.kind == 4 {
        return Page::Absent;
    }
    if !matches!(base.kind, 8 | 9) {
        return Page::Wrong(base.place as u64);
    }
    let Some((mut front, mut pairs)) = node_in(alloc, file, base) else {
        return Page::Wrong(base.place as u64);
    };
    for link in links {
        if !takes(&mut front, &mut pairs, file, link) {
            return Page::Wrong(link.place as u64);
        }
    }
    Page::Node(front, pairs)
}

// Whether one of the pairs has this key and this item.
fn is_among(pairs: &[Pair], file: &[u8], key: &[u8], item: Item<'_>) -> bool {
    pairs.iter().any(|pair| {
        bytes_of(file, pair.key) == key
            && match item {
                Item::Value(value) => bytes_of(file, pair.value) == value,
                Item::Child(page) => pair.page == page,
            }
    })
}

// Whether a node is that.
fn is_node(node: &Node, file: &[u8], front: &Front, pairs: &[Pair]) -> bool {
    for i in 0..node.len() {
        let (key, item) = node.pair(i);
        if !is_among(pairs, file, key, item) {
            return false;
        }
    }
    node.len() == pairs.len()
        && node.is_index() == front.is_index
        && node.merging() == front.is_capped
        && node.prefix_len() == front.prefix
        && node.lo().as_slice() == bytes_of(file, front.low)
        && node.hi().as_slice() == bytes_of(file, front.high)
}

// Whether the cache shows the page so, at stamp 0.
pub(super) fn is_shown<L: Log>(
    cache: &mut PageCache<L>,
    pid: PageId,
    file: &[u8],
    page: &Page,
) -> bool {
    match (cache.get(pid), page) {
        (Ok(None), Page::Absent) => true,
        (Ok(Some(view)), Page::Node(front, pairs)) => {
            view.token() == PageView::new(pid, 0) && is_node(view.node(), file, front, pairs)
        }
        (Err(Refusal::Corruption(Some(DiskPtr::Inline(found)))), Page::Wrong(place)) => {
            found == *place
        }
        _ => false,
    }
}
