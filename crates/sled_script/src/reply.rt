//! The line that replies to an answer.

ghost use Rattle.std.specs.Prelude.{◌≡◌, ◌+◌, ◌≤◌, [], ◌∷◌, ◌++◌, IsTrue, length, codes, flat_map, take, if◌then◌else◌};
ghost use Rattle.std.specs.Fmt.{decimal};
ghost use Rattle.sled_node.specs.Node.{Value};
ghost use Rattle.sled_node.specs.Parts.{item_of};
ghost use Rattle.sled_lines.specs.Output.{Gathers};
ghost use Rattle.sled_lines.specs.Settings.{piece_room};
ghost use Rattle.sled_lines.specs.Words.{bytes_word};
ghost use Rattle.sled_script.specs.Replies.{entry_text, item_word, node_text, reply_of, reply_of_mark, reply_of_swap, reply_of_tree};
ghost use Rattle.sled_script.specs.Settings.{entry_room};
ghost use Rattle.sled_script.specs.LentAnswers.{answer_of};

use sled_lines::output::{gather_bytes_word, gather_number, gather_text, make_room};
use sled_lines::replies::{gather_error, gather_labelled, put_labelled};
use sled_lines::{Piece, Unwritten};
use sled_pagecache::{Error, Item, Node, NodeView, PageId, PageView, Refusal};
use std::io::Write;

/// The answer of a call of the cache, borrowed. It excludes links, whose answers have a reply function of their own.
#[derive(Clone, Copy)]
pub enum LentAnswer<'a> {
    Allocated(&'a Result<(PageId, PageView), Error>),
    Got(Result<Option<NodeView<'a>>, Refusal>),
    Replaced(&'a Result<Result<PageView, Option<(PageView, Node)>>, Error>),
    Freed(&'a Result<Result<PageView, Option<(PageView, ())>>, Error>),
    FoundRoot(&'a Result<PageId, Error>),
    RootSwapped(&'a Result<Result<(), Option<PageId>>, Error>),
    Generated(&'a Result<u64, Error>),
    Flushed(&'a Result<usize, Error>),
    Sized(&'a Result<u64, Error>),
    Amplified(&'a Result<(u64, u128), Error>),
    AttemptedGc(&'a Result<bool, Error>),
}

/// Appends the reply to an answer as a line to the gathered text.
pub fn gather_line<W: Write>(
    writer: &mut W,
    piece: &mut Piece,
    lent: LentAnswer<'_>,
) -> Result<(), Unwritten>
    ensures { Gathers (W.contents writer.old) (W.contents writer.new) piece.old piece.new result
        (reply_of (answer_of lent.entry) ++ 10 ∷ []) }
{
    match lent {
        LentAnswer::Allocated(Ok((pid, token))) => gather_page(writer, piece, *pid, token.ts()),
        LentAnswer::Got(Ok(Some(view))) => gather_node(
            writer,
            piece,
            view.token().ts(),
            view.node(),
        ),
        LentAnswer::Got(Ok(None)) => gather_text(writer, piece, b"none\n"),
        LentAnswer::Replaced(answer) => gather_swap(writer, piece, answer),
        LentAnswer::Freed(answer) => gather_swap(writer, piece, answer),
        LentAnswer::FoundRoot(Ok(root)) => gather_labelled(writer, piece, b"page ", *root),
        LentAnswer::FoundRoot(Err(Error::CollectionNotFound(_))) => gather_text(
            writer, piece, b"none\n",
        ),
        LentAnswer::RootSwapped(Ok(Ok(()))) => gather_text(writer, piece, b"ok\n"),
        LentAnswer::RootSwapped(Ok(Err(None))) => gather_text(writer, piece, b"is -\n"),
        LentAnswer::RootSwapped(Ok(Err(Some(root)))) => gather_labelled(
            writer, piece, b"is ", *root,
        ),
        LentAnswer::Generated(Ok(id)) => gather_labelled(writer, piece, b"id ", *id),
        LentAnswer::Flushed(Ok(written)) => gather_labelled(
            writer,
            piece,
            b"flushed ",
            *written as u64,
        ),
        LentAnswer::Sized(Ok(bytes)) => gather_labelled(writer, piece, b"size ", *bytes),
        LentAnswer::Amplified(Ok((bytes, pages))) => gather_sizes(writer, piece, *bytes, *pages),
        LentAnswer::AttemptedGc(Ok(true)) => gather_text(writer, piece, b"moved\n"),
        LentAnswer::AttemptedGc(Ok(false)) => gather_text(writer, piece, b"idle\n"),
        LentAnswer::Allocated(Err(error))
        | LentAnswer::FoundRoot(Err(error))
        | LentAnswer::RootSwapped(Err(error))
        | LentAnswer::Generated(Err(error))
        | LentAnswer::Flushed(Err(error))
        | LentAnswer::Sized(Err(error))
        | LentAnswer::Amplified(Err(error))
        | LentAnswer::AttemptedGc(Err(error)) => gather_error(writer, piece, error),
        LentAnswer::Got(Err(refusal)) => gather_error(writer, piece, &Error::from(refusal)),
    }
}

/// Appends the reply to a swap as a line to the gathered text: the page's new stamp, or its present one.
#[inline(always)]
pub fn gather_swap<W: Write, R>(
    writer: &mut W,
    piece: &mut Piece,
    answer: &Result<Result<PageView, Option<(PageView, R)>>, Error>,
) -> Result<(), Unwritten>
    ensures { Gathers (W.contents writer.old) (W.contents writer.new) piece.old piece.new result
        (reply_of_swap answer.now ++ 10 ∷ []) }
{
    match answer {
        Ok(Ok(token)) => gather_labelled(writer, piece, b"ok ", token.ts()),
        Ok(Err(Some((present, _)))) => gather_labelled(writer, piece, b"stale ", present.ts()),
        Ok(Err(None)) => gather_text(writer, piece, b"gone\n"),
        Err(error) => gather_error(writer, piece, error),
    }
}

/// Appends the reply to the opening of a tree as a line to the gathered text.
pub fn gather_tree<W: Write>(
    writer: &mut W,
    piece: &mut Piece,
    root: &Result<PageId, Error>,
) -> Result<(), Unwritten>
    ensures { Gathers (W.contents writer.old) (W.contents writer.new) piece.old piece.new result
        (reply_of_tree root.now ++ 10 ∷ []) }
{
    match root {
        Ok(root) => gather_labelled(writer, piece, b"page ", *root),
        Err(error) => gather_error(writer, piece, error),
    }
}

/// Appends the reply to the opening or the closing of a batch as a line to the gathered text.
pub fn gather_mark<W: Write>(
    writer: &mut W,
    piece: &mut Piece,
    answer: &Result<(), Error>,
) -> Result<(), Unwritten>
    ensures { Gathers (W.contents writer.old) (W.contents writer.new) piece.old piece.new result
        (reply_of_mark answer.now ++ 10 ∷ []) }
{
    match answer {
        Ok(()) => gather_text(writer, piece, b"ok\n"),
        Err(error) => gather_error(writer, piece, error),
    }
}

fn gather_page<W: Write>(
    writer: &mut W,
    piece: &mut Piece,
    pid: PageId,
    stamp: u64,
) -> Result<(), Unwritten>
    ensures { Gathers (W.contents writer.old) (W.contents writer.new) piece.old piece.new result
        (codes "page " ++ decimal pid ++ codes " " ++ decimal stamp ++ 10 ∷ []) }
{
    make_room(writer, piece, 47)?;
    put_labelled(piece, b"page ", pid);
    piece.push(b' ');
    piece.put_number(stamp);
    piece.push(b'\n');
    Ok(())
}

fn gather_sizes<W: Write>(
    writer: &mut W,
    piece: &mut Piece,
    bytes: u64,
    pages: u128,
) -> Result<(), Unwritten>
    ensures { Gathers (W.contents writer.old) (W.contents writer.new) piece.old piece.new result
        (codes "amp " ++ decimal bytes ++ codes " " ++ decimal pages ++ 10 ∷ []) }
{
    make_room(writer, piece, 65)?;
    put_labelled(piece, b"amp ", bytes);
    piece.push(b' ');
    piece.put_wide_number(pages);
    piece.push(b'\n');
    Ok(())
}

fn gather_node<W: Write>(
    writer: &mut W,
    piece: &mut Piece,
    stamp: u64,
    node: &Node,
) -> Result<(), Unwritten>
    ensures { Gathers (W.contents writer.old) (W.contents writer.new) piece.old piece.new result
        (node_text stamp node.now ++ 10 ∷ []) }
{
    make_room(writer, piece, 30)?;
    put_head(piece, node.is_index(), stamp);
    gather_entries(writer, piece, node)?;
    gather_text(writer, piece, b"\n")
}

// Puts what a reply calls a node, and the node's stamp, into a piece, which has room for them. Each label is put by its own call, which
// knows how long it is.
fn put_head(piece: &mut Piece, is_index: bool, stamp: u64)
    requires { length piece.old + 26 ≤ piece_room }
    ensures { piece.new ≡ piece.old
        ++ ((if is_index then codes "index " else codes "leaf ") ++ decimal stamp) }
{
    if is_index {
        put_labelled(piece, b"index ", stamp);
    } else {
        put_labelled(piece, b"leaf ", stamp);
    }
}

fn gather_entries<W: Write>(writer: &mut W, piece: &mut Piece, node: &Node) -> Result<(), Unwritten>
    ensures { Gathers (W.contents writer.old) (W.contents writer.new) piece.old piece.new result
        (flat_map entry_text node.now.pairs) }
{
    let front = front_of(node);
    for i in 0..node.len() {
        let (rest, item) = node.pair(i);
        gather_entry(writer, piece, front, rest, item)?;
    }
    Ok(())
}

// The bytes that the stored keys lack.
fn front_of(node: &Node) -> &[u8]
    ensures { result.now ≡ take node.now.prefix_len node.now.lo }
{
    &node.lo().as_slice()[..node.prefix_len() as usize]
}

// An entry is short where its key and its value have at most so many bytes. Its text has two digits for each.
const SHORT: usize = 78;

// The text of a short entry has at most so many bytes.
const ENTRY_ROOM: usize = 160;

// Puts a space, the whole key, of which the front and the rest are given, an equals sign, and the item behind what was gathered.
fn gather_entry<W: Write>(
    writer: &mut W,
    piece: &mut Piece,
    front: &[u8],
    rest: &[u8],
    item: Item<'_>,
) -> Result<(), Unwritten>
    ensures { Gathers (W.contents writer.old) (W.contents writer.new) piece.old piece.new result
        (entry_text (front.now ++ rest.now, item_of item.entry)) }
{
    match item {
        Item::Value(value) if is_short(front, rest, value) => {
            make_room(writer, piece, ENTRY_ROOM)?;
            put_entry(piece, front, rest, value);
            Ok(())
        }
        _ => gather_entry_in_parts(writer, piece, front, rest, item),
    }
}

// Whether an entry is short.
fn is_short(front: &[u8], rest: &[u8], value: &[u8]) -> bool
    ensures { IsTrue result
        → length (entry_text (front.now ++ rest.now, Value value.now)) ≤ entry_room }
{
    front
        .len()
        .saturating_add(rest.len())
        .saturating_add(value.len())
        <= SHORT
}

// Puts an entry into a piece, which has room for it.
fn put_entry(piece: &mut Piece, front: &[u8], rest: &[u8], value: &[u8])
    requires { length piece.old + length (entry_text (front.now ++ rest.now, Value value.now))
        ≤ piece_room }
    ensures { piece.new ≡ piece.old ++ entry_text (front.now ++ rest.now, Value value.now) }
{
    piece.push(b' ');
    piece.put_bytes_word(front, rest);
    piece.push(b'=');
    piece.put_bytes_word(value, &[]);
}

fn gather_entry_in_parts<W: Write>(
    writer: &mut W,
    piece: &mut Piece,
    front: &[u8],
    rest: &[u8],
    item: Item<'_>,
) -> Result<(), Unwritten>
    ensures { Gathers (W.contents writer.old) (W.contents writer.new) piece.old piece.new result
        (entry_text (front.now ++ rest.now, item_of item.entry)) }
{
    gather_text(writer, piece, b" ")?;
    gather_key(writer, piece, front, rest)?;
    gather_text(writer, piece, b"=")?;
    gather_item(writer, piece, item)
}

// Puts a whole key, of which the front and the rest are given, behind what was gathered.
fn gather_key<W: Write>(
    writer: &mut W,
    piece: &mut Piece,
    front: &[u8],
    rest: &[u8],
) -> Result<(), Unwritten>
    ensures { Gathers (W.contents writer.old) (W.contents writer.new) piece.old piece.new result
        (bytes_word (front.now ++ rest.now)) }
{
    if front.is_empty() {
        return gather_bytes_word(writer, piece, rest);
    }
    if rest.is_empty() {
        return gather_bytes_word(writer, piece, front);
    }
    gather_bytes_word(writer, piece, front)?;
    gather_bytes_word(writer, piece, rest)
}

fn gather_item<W: Write>(writer: &mut W, piece: &mut Piece, item: Item<'_>) -> Result<(), Unwritten>
    ensures { Gathers (W.contents writer.old) (W.contents writer.new) piece.old piece.new result
        (item_word (item_of item.entry)) }
{
    match item {
        Item::Value(value) => gather_bytes_word(writer, piece, value),
        Item::Child(page) => gather_number(writer, piece, page),
    }
}
