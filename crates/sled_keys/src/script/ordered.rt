//! Lines about the pairs of a map in key order.

use super::RunError;
use super::line::refuse;
use crate::replies::Replies;
use crate::words::{Rooms, bytes_of, named_key};
use sled_lines::words::{number_of, two_words};
use sled_tree::named::{above, below, first, last, range};
use sled_tree::{IVec, Log, Piece, TreeError, Trees};
use std::alloc::Global;
use std::io::Write;
use std::ops::Bound;

/// The greatest number of pairs that a scan may ask for.
const MOST_PAIRS: u64 = 1_000;

/// The side of a bound on which a pair is looked for.
#[derive(Clone, Copy)]
pub enum Side {
    Above,
    Below,
}

/// Serves `first NAME`, which looks for the pair with the least key, and `last NAME`, which looks for the one with the greatest key.
pub fn serve_end<L: Log, W: Write>(
    trees: &mut Trees<L>,
    rooms: &mut Rooms,
    word: &[u8],
    side: Side,
    replies: &mut Replies<'_, W>,
) -> Result<(), RunError> {
    let Some(name) = bytes_of(word, &mut rooms.name)? else {
        return refuse(replies);
    };
    match side {
        Side::Above => reply_pair(&first(trees.cache_mut(), name), replies),
        Side::Below => reply_pair(&last(trees.cache_mut(), name), replies),
    }
}

/// Serves `above NAME KEY` and `below NAME KEY`.
pub fn serve_next<L: Log, W: Write>(
    alloc: Global,
    trees: &mut Trees<L>,
    rooms: &mut Rooms,
    words: &[u8],
    side: Side,
    replies: &mut Replies<'_, W>,
) -> Result<(), RunError> {
    let Some((name, key)) = named_key(words, rooms)? else {
        return refuse(replies);
    };
    let key = IVec::from_slice(alloc, key)?;
    match side {
        Side::Above => reply_pair(&above(trees.cache_mut(), name, key), replies),
        Side::Below => reply_pair(&below(trees.cache_mut(), name, key), replies),
    }
}

/// Serves `scan NAME FROM COUNT`.
pub fn serve_scan<L: Log, W: Write>(
    alloc: Global,
    trees: &mut Trees<L>,
    rooms: &mut Rooms,
    words: &[u8],
    replies: &mut Replies<'_, W>,
) -> Result<(), RunError> {
    let Some((name, rest)) = two_words(Some(words)) else {
        return refuse(replies);
    };
    let Some((from, count)) = two_words(Some(rest)) else {
        return refuse(replies);
    };
    let Some(name) = bytes_of(name, &mut rooms.name)? else {
        return refuse(replies);
    };
    let Some(from) = bytes_of(from, &mut rooms.key)? else {
        return refuse(replies);
    };
    let Some(count) = count_of(count) else {
        return refuse(replies);
    };
    let from = IVec::from_slice(alloc, from)?;
    reply_pairs(&scan(alloc, trees, name, from, count), replies)
}

// The first pairs from a key on, in their order: so many, or all that there are.
fn scan<L: Log>(
    alloc: Global,
    trees: &mut Trees<L>,
    name: &[u8],
    from: IVec,
    most: usize,
) -> Result<Vec<(IVec, IVec)>, TreeError> {
    let mut pairs = Vec::new(alloc);
    let mut rest = Some(from);
    for _ in 0..most {
        let Some(start) = rest else {
            break;
        };
        rest = take_piece(alloc, trees, name, start, &mut pairs)?;
        if pairs.len() >= most {
            break;
        }
    }
    pairs.truncate(most);
    Ok(pairs)
}

// Puts the pairs that one leaf has from a key on behind the others, and answers where more begin.
fn take_piece<L: Log>(
    alloc: Global,
    trees: &mut Trees<L>,
    name: &[u8],
    from: IVec,
    pairs: &mut Vec<(IVec, IVec)>,
) -> Result<Option<IVec>, TreeError> {
    let piece = range(
        alloc,
        trees.cache_mut(),
        name,
        &Bound::Included(from),
        &Bound::Unbounded,
    )?;
    let Piece {
        pairs: mut more,
        rest,
    } = piece;
    pairs.append(&mut more)?;
    Ok(rest)
}

// How many pairs the word asks for, if it may.
fn count_of(word: &[u8]) -> Option<usize> {
    match number_of(word)? {
        count @ 1..=MOST_PAIRS => Some(count as usize),
        _ => None,
    }
}

fn reply_pair<W: Write>(
    answer: &Result<Option<(IVec, IVec)>, TreeError>,
    replies: &mut Replies<'_, W>,
) -> Result<(), RunError> {
    match answer {
        Ok(Some(pair)) => {
            replies.text(b"pair")?;
            put_pair(pair, replies)?;
            replies.text(b"\n")?;
        }
        Ok(None) => replies.text(b"none\n")?,
        Err(error) => replies.error(error)?,
    }
    Ok(())
}

fn reply_pairs<W: Write>(
    answer: &Result<Vec<(IVec, IVec)>, TreeError>,
    replies: &mut Replies<'_, W>,
) -> Result<(), RunError> {
    match answer {
        Ok(pairs) => put_pairs(pairs, replies),
        Err(error) => Ok(replies.error(error)?),
    }
}

fn put_pairs<W: Write>(
    pairs: &[(IVec, IVec)],
    replies: &mut Replies<'_, W>,
) -> Result<(), RunError> {
    replies.text(b"pairs ")?;
    replies.number(pairs.len() as u64)?;
    for pair in pairs {
        put_pair(pair, replies)?;
    }
    replies.text(b"\n")?;
    Ok(())
}

fn put_pair<W: Write>(pair: &(IVec, IVec), replies: &mut Replies<'_, W>) -> Result<(), RunError> {
    replies.text(b" ")?;
    replies.word(pair.0.as_slice())?;
    replies.text(b" ")?;
    replies.word(pair.1.as_slice())?;
    Ok(())
}
