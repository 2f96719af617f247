// What a payload encodes, by docs/FORMAT.md alone. A reading answers the value and the place behind it.

use super::records::{Record, behind};
use super::*;

/// Bytes of a file, from one place to another.
#[derive(Clone, Copy)]
pub(super) struct Span {
    pub from: usize,
    pub to: usize,
}

/// A stored key, and its value or, in an index, its page.
#[derive(Clone, Copy)]
pub(super) struct Pair {
    pub key: Span,
    pub value: Span,
    pub page: u64,
}

/// A node, but for its pairs.
#[derive(Clone, Copy)]
pub(super) struct Front {
    pub child: u64,
    pub is_capped: bool,
    pub prefix: u8,
    pub low: Span,
    pub high: Span,
    pub is_index: bool,
    pub count: u64,
}

// The bytes of a span, or none where it isn't in the file.
pub(super) fn bytes_of(file: &[u8], span: Span) -> &[u8] {
    match file.get(span.from..span.to) {
        Some(bytes) => bytes,
        None => &[],
    }
}

fn byte(file: &[u8], at: usize) -> Option<(u8, usize)> {
    Some((*file.get(at)?, behind(at, 1)))
}

// The number that so many bytes are, the lowest first.
fn wide(file: &[u8], at: usize, len: u8) -> Option<(u64, usize)> {
    let end = behind(at, u64::from(len));
    let mut number: u64 = 0;
    for byte in file.get(at..end)?.iter().rev() {
        number = number << 8 | u64::from(*byte);
    }
    Some((number, end))
}

pub(super) fn number(file: &[u8], at: usize) -> Option<(u64, usize)> {
    let (first, next) = byte(file, at)?;
    match first {
        0..=240 => Some((u64::from(first), next)),
        241..=248 => {
            let (low, end) = byte(file, next)?;
            Some((240 + 256 * u64::from(first - 241) + u64::from(low), end))
        }
        249 => {
            let (high, next) = byte(file, next)?;
            let (low, end) = byte(file, next)?;
            Some((2288 + 256 * u64::from(high) + u64::from(low), end))
        }
        250..=255 => wide(file, next, first - 247),
    }
}

pub(super) fn string(file: &[u8], at: usize) -> Option<(Span, usize)> {
    let (len, from) = number(file, at)?;
    let to = behind(from, len);
    (to <= file.len()).then_some((Span { from, to }, to))
}

// Whether names and pages fill what is left of the file.
pub(super) fn are_roots(file: &[u8], from: usize) -> bool {
    let mut at = from;
    for _ in file {
        if at == file.len() {
            return true;
        }
        let Some((_, next)) = string(file, at) else {
            return false;
        };
        let Some((_, next)) = number(file, next) else {
            return false;
        };
        at = next;
    }
    false
}

// Whether one number fills what is left of the file.
pub(super) fn is_number(file: &[u8], from: usize) -> bool {
    match number(file, from) {
        Some((_, end)) => end == file.len(),
        None => false,
    }
}

fn front_in(file: &[u8], at: usize) -> Option<(Front, usize)> {
    let (_, at) = number(file, at)?;
    let (child, at) = number(file, at)?;
    let (merging, at) = byte(file, at)?;
    let (prefix, at) = byte(file, at)?;
    let (low, at) = string(file, at)?;
    let (high, at) = string(file, at)?;
    let (kind, at) = byte(file, at)?;
    let (count, at) = number(file, at)?;
    let front = Front {
        child,
        is_capped: merging != 0,
        prefix,
        low,
        high,
        is_index: kind == 1,
        count,
    };
    (kind <= 1).then_some((front, at))
}

// Adds a pair for each key. They end in front of the values.
fn add_keys(pairs: &mut Vec<Pair>, file: &[u8], from: usize, count: u64) -> Option<usize> {
    let mut at = from;
    for _ in 0..count {
        let (key, next) = string(file, at)?;
        let value = Span { from: 0, to: 0 };
        pairs
            .push(Pair {
                key,
                value,
                page: 0,
            })
            .ok()?;
        at = next;
    }
    Some(at)
}

fn put_item(pair: &mut Pair, file: &[u8], at: usize, is_index: bool) -> Option<usize> {
    if is_index {
        let (page, next) = number(file, at)?;
        pair.page = page;
        return Some(next);
    }
    let (value, next) = string(file, at)?;
    pair.value = value;
    Some(next)
}

// Puts the value or the page of each pair. They end where the file ends.
fn put_items(pairs: &mut [Pair], file: &[u8], from: usize, is_index: bool) -> Option<()> {
    let mut at = from;
    for pair in pairs {
        at = put_item(pair, file, at, is_index)?;
    }
    (at == file.len()).then_some(())
}

// Whether the bounds share the prefix, and the lower one is below the upper one, if there is one.
fn are_bounds(front: &Front, low: &[u8], high: &[u8]) -> bool {
    let prefix = usize::from(front.prefix);
    if high.is_empty() {
        return prefix == 0;
    }
    low < high && low.get(..prefix).is_some() && low.get(..prefix) == high.get(..prefix)
}

// What is left of a bound behind the prefix.
fn rest<'a>(front: &Front, bound: &'a [u8]) -> &'a [u8] {
    match bound.get(usize::from(front.prefix)..) {
        Some(rest) => rest,
        None => &[],
    }
}

// Whether a stored key is within the bounds.
pub(super) fn is_within(front: &Front, file: &[u8], key: &[u8]) -> bool {
    let high = bytes_of(file, front.high);
    rest(front, bytes_of(file, front.low)) <= key && (high.is_empty() || key < rest(front, high))
}

// Whether the stored keys ascend within the bounds.
fn are_keys(front: &Front, file: &[u8], pairs: &[Pair]) -> bool {
    let mut last: Option<Span> = None;
    for pair in pairs {
        let key = bytes_of(file, pair.key);
        if !is_within(front, file, key) || last.is_some_and(|last| bytes_of(file, last) >= key) {
            return false;
        }
        last = Some(pair.key);
    }
    true
}

// The node that the record of a page encodes, if it does.
pub(super) fn node_in(alloc: Global, file: &[u8], record: &Record) -> Option<(Front, Vec<Pair>)> {
    let file = file.get(..record.to)?;
    let mut pairs = Vec::new(alloc);
    let (front, at) = front_in(file, record.from)?;
    let at = add_keys(&mut pairs, file, at, front.count)?;
    put_items(&mut pairs, file, at, front.is_index)?;
    let is_node = are_bounds(
        &front,
        bytes_of(file, front.low),
        bytes_of(file, front.high),
    ) && are_keys(&front, file, &pairs);
    is_node.then_some((front, pairs))
}
