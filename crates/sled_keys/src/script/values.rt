//! Lines about the value of a key.

ghost use Rattle.std.specs.Prelude.{◌≤◌, length};

use super::RunError;
use super::line::refuse;
use crate::replies::Replies;
use crate::words::{Rooms, bytes_of, named_key};
use sled_lines::words::two_words;
use sled_tree::named::{get, remove, set, swap};
use sled_tree::{IVec, Limits, Log, TreeError, Trees};
use std::alloc::{AllocError, Global};
use std::io::Write;

/// Serves `get NAME KEY`.
pub fn serve_get<L: Log, W: Write>(
    alloc: Global,
    trees: &mut Trees<L>,
    rooms: &mut Rooms,
    words: &[u8],
    replies: &mut Replies<'_, W>,
) -> Result<(), RunError> {
    let Some((name, key)) = named_key(words, rooms)? else {
        return refuse(replies);
    };
    reply_value(
        &get(alloc, trees.cache_mut(), name, key),
        b"value ",
        b"none\n",
        replies,
    )
}

/// Serves `del NAME KEY`.
pub fn serve_del<L: Log, W: Write>(
    trees: &mut Trees<L>,
    rooms: &mut Rooms,
    words: &[u8],
    replies: &mut Replies<'_, W>,
) -> Result<(), RunError> {
    let Some((name, key)) = named_key(words, rooms)? else {
        return refuse(replies);
    };
    reply_value(
        &remove(trees.cache_mut(), Limits::usual(), name, key),
        b"was ",
        b"none\n",
        replies,
    )
}

/// Serves `set NAME KEY VALUE`.
pub fn serve_set<L: Log, W: Write>(
    alloc: Global,
    trees: &mut Trees<L>,
    rooms: &mut Rooms,
    words: &[u8],
    replies: &mut Replies<'_, W>,
) -> Result<(), RunError> {
    let Some((name, key, value)) = three_words(words) else {
        return refuse(replies);
    };
    let Some(name) = bytes_of(name, &mut rooms.name)? else {
        return refuse(replies);
    };
    let Some(key) = bytes_of(key, &mut rooms.key)? else {
        return refuse(replies);
    };
    let Some(value) = bytes_of(value, &mut rooms.new)? else {
        return refuse(replies);
    };
    let value = IVec::from_slice(alloc, value)?;
    reply_value(
        &set(alloc, trees.cache_mut(), Limits::usual(), name, key, value),
        b"was ",
        b"new\n",
        replies,
    )
}

/// Serves `cas NAME KEY OLD NEW`.
pub fn serve_swap<L: Log, W: Write>(
    alloc: Global,
    trees: &mut Trees<L>,
    rooms: &mut Rooms,
    words: &[u8],
    replies: &mut Replies<'_, W>,
) -> Result<(), RunError> {
    let Some((name, key, values)) = three_words(words) else {
        return refuse(replies);
    };
    let Some((old, new)) = two_words(Some(values)) else {
        return refuse(replies);
    };
    let Some(name) = bytes_of(name, &mut rooms.name)? else {
        return refuse(replies);
    };
    let Some(key) = bytes_of(key, &mut rooms.key)? else {
        return refuse(replies);
    };
    let Some(old) = value_of(old, &mut rooms.old)? else {
        return refuse(replies);
    };
    let Some(new) = value_of(new, &mut rooms.new)? else {
        return refuse(replies);
    };
    let new = owned(alloc, new)?;
    reply_swap(
        &swap(
            alloc,
            trees.cache_mut(),
            Limits::usual(),
            name,
            key,
            old,
            new,
        ),
        replies,
    )
}

// The first two words, and all that stands behind the space after them.
fn three_words(words: &[u8]) -> Option<(&[u8], &[u8], &[u8])> {
    let (first, rest) = two_words(Some(words))?;
    let (second, rest) = two_words(Some(rest))?;
    Some((first, second, rest))
}

// The value that a word of a swap names, or that it names none.
fn value_of<'a>(
    word: &'a [u8],
    room: &'a mut Vec<u8>,
) -> Result<Option<Option<&'a [u8]>>, AllocError> {
    match word {
        b"none" => Ok(Some(None)),
        [b'=', word @ ..] => match bytes_of(word, room)? {
            Some(bytes) => Ok(Some(Some(bytes))),
            None => Ok(None),
        },
        _ => Ok(None),
    }
}

fn owned(alloc: Global, bytes: Option<&[u8]>) -> Result<Option<IVec>, AllocError> {
    match bytes {
        Some(bytes) => Ok(Some(IVec::from_slice(alloc, bytes)?)),
        None => Ok(None),
    }
}

// The value behind a label, or the line for none.
fn reply_value<W: Write>(
    answer: &Result<Option<IVec>, TreeError>,
    label: &[u8],
    none: &[u8],
    replies: &mut Replies<'_, W>,
) -> Result<(), RunError>
    requires label { length label.now ≤ 40 }
    requires none { length none.now ≤ 40 }
{
    match answer {
        Ok(Some(value)) => replies.value(label, value.as_slice())?,
        Ok(None) => replies.text(none)?,
        Err(error) => replies.error(error)?,
    }
    Ok(())
}

fn reply_swap<W: Write>(
    answer: &Result<Result<(), Option<IVec>>, TreeError>,
    replies: &mut Replies<'_, W>,
) -> Result<(), RunError> {
    match answer {
        Ok(Ok(())) => replies.text(b"swapped\n")?,
        Ok(Err(Some(value))) => replies.value(b"has ", value.as_slice())?,
        Ok(Err(None)) => replies.text(b"has none\n")?,
        Err(error) => replies.error(error)?,
    }
    Ok(())
}
