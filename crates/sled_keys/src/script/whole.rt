//! Lines about a whole map, or about all maps.

ghost use Rattle.std.specs.Prelude.{◌≤◌, length};

use super::RunError;
use super::line::refuse;
use crate::replies::Replies;
use crate::words::{Rooms, bytes_of};
use sled_tree::named::count;
use sled_tree::{IVec, Log, TreeError, Trees};
use std::io::Write;

/// Serves `len NAME`.
pub fn serve_len<L: Log, W: Write>(
    trees: &mut Trees<L>,
    rooms: &mut Rooms,
    word: &[u8],
    replies: &mut Replies<'_, W>,
) -> Result<(), RunError> {
    let Some(name) = bytes_of(word, &mut rooms.name)? else {
        return refuse(replies);
    };
    reply_number(&count(trees.cache_mut(), name), b"len ", replies)
}

/// Serves `drop NAME`.
pub fn serve_drop<L: Log, W: Write>(
    trees: &mut Trees<L>,
    rooms: &mut Rooms,
    word: &[u8],
    replies: &mut Replies<'_, W>,
) -> Result<(), RunError> {
    let Some(name) = bytes_of(word, &mut rooms.name)? else {
        return refuse(replies);
    };
    match trees.drop_tree(name) {
        Ok(true) => replies.text(b"dropped\n")?,
        Ok(false) => replies.text(b"none\n")?,
        Err(error) => replies.error(&error)?,
    }
    Ok(())
}

/// Serves `flush`.
pub fn serve_flush<L: Log, W: Write>(
    trees: &mut Trees<L>,
    replies: &mut Replies<'_, W>,
) -> Result<(), RunError> {
    match trees.flush() {
        Ok(bytes) => replies.labelled(b"flushed ", bytes as u64)?,
        Err(error) => replies.error(&error)?,
    }
    Ok(())
}

/// Appends the reply to a call that answers nothing: `ok`, or the error.
pub fn reply_done<W: Write>(
    answer: &Result<(), TreeError>,
    replies: &mut Replies<'_, W>,
) -> Result<(), RunError> {
    match answer {
        Ok(()) => replies.text(b"ok\n")?,
        Err(error) => replies.error(error)?,
    }
    Ok(())
}

/// Appends the reply to a call that answers a number: the label and the number, or the error.
pub fn reply_number<W: Write>(
    answer: &Result<u64, TreeError>,
    label: &[u8],
    replies: &mut Replies<'_, W>,
) -> Result<(), RunError>
    requires { length label.now ≤ 40 }
{
    match answer {
        Ok(number) => replies.labelled(label, *number)?,
        Err(error) => replies.error(error)?,
    }
    Ok(())
}

/// Appends the reply to `maps`: all names, or the error.
pub fn reply_names<W: Write>(
    answer: &Result<Vec<IVec>, TreeError>,
    replies: &mut Replies<'_, W>,
) -> Result<(), RunError> {
    match answer {
        Ok(names) => put_names(names, replies),
        Err(error) => Ok(replies.error(error)?),
    }
}

fn put_names<W: Write>(names: &[IVec], replies: &mut Replies<'_, W>) -> Result<(), RunError> {
    replies.text(b"maps ")?;
    replies.number(names.len() as u64)?;
    for name in names {
        replies.text(b" ")?;
        replies.word(name.as_slice())?;
    }
    replies.text(b"\n")?;
    Ok(())
}
