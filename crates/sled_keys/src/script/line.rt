//! Serving one line of the script.

use super::RunError;
use super::ordered::{Side, serve_end, serve_next, serve_scan};
use super::values::{serve_del, serve_get, serve_set, serve_swap};
use super::whole::{reply_done, reply_names, reply_number, serve_drop, serve_flush, serve_len};
use crate::replies::Replies;
use crate::words::Rooms;
use sled_lines::words::first_word;
use sled_tree::{Log, Trees};
use std::alloc::Global;
use std::io::Write;

/// Serves one line, and appends its reply to the gathered ones.
pub fn serve_line<L: Log, W: Write>(
    alloc: Global,
    trees: &mut Trees<L>,
    rooms: &mut Rooms,
    line: &[u8],
    replies: &mut Replies<'_, W>,
) -> Result<(), RunError> {
    match first_word(line) {
        (command, None) => serve_word(trees, command, replies),
        (command, Some(words)) => serve_words(alloc, trees, rooms, command, words, replies),
    }
}

// Serves a line of one word.
fn serve_word<L: Log, W: Write>(
    trees: &mut Trees<L>,
    command: &[u8],
    replies: &mut Replies<'_, W>,
) -> Result<(), RunError> {
    match command {
        b"flush" => serve_flush(trees, replies),
        b"id" => reply_number(&trees.generate_id(), b"id ", replies),
        b"pin" => reply_done(&trees.pin(), replies),
        b"seal" => reply_done(&trees.seal(), replies),
        b"cancel" => reply_done(&trees.cancel(), replies),
        b"maps" => reply_names(&trees.names(), replies),
        _ => refuse(replies),
    }
}

// Serves a line of a command and words behind it.
fn serve_words<L: Log, W: Write>(
    alloc: Global,
    trees: &mut Trees<L>,
    rooms: &mut Rooms,
    command: &[u8],
    words: &[u8],
    replies: &mut Replies<'_, W>,
) -> Result<(), RunError> {
    match command {
        b"get" => serve_get(alloc, trees, rooms, words, replies),
        b"set" => serve_set(alloc, trees, rooms, words, replies),
        b"del" => serve_del(trees, rooms, words, replies),
        b"cas" => serve_swap(alloc, trees, rooms, words, replies),
        b"scan" => serve_scan(alloc, trees, rooms, words, replies),
        b"first" => serve_end(trees, rooms, words, Side::Above, replies),
        b"last" => serve_end(trees, rooms, words, Side::Below, replies),
        b"above" => serve_next(alloc, trees, rooms, words, Side::Above, replies),
        b"below" => serve_next(alloc, trees, rooms, words, Side::Below, replies),
        b"len" => serve_len(trees, rooms, words, replies),
        b"drop" => serve_drop(trees, rooms, words, replies),
        _ => refuse(replies),
    }
}

/// Appends the reply `error line`, to a line that is no command.
pub fn refuse<W: Write>(replies: &mut Replies<'_, W>) -> Result<(), RunError> {
    Ok(replies.text(b"error line\n")?)
}
