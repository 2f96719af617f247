//! Serving one line of the script.

ghost use Rattle.std.specs.Prelude.{◌≡◌, ◌++◌, ◌∷◌, [], ◌≤◌, None, Some, codes, length};
ghost use Rattle.sled_node.specs.Node.{empty_leaf};
ghost use Rattle.sled_lines.specs.Output.{Gathers};
ghost use Rattle.sled_lines.specs.Settings.{longest_line};
ghost use Rattle.sled_lines.specs.Words.{HasNoSpace};
ghost use Rattle.sled_script.specs.Commands.{mark_word};
ghost use Rattle.sled_script.specs.Served.{RepliesTo, RepliesLine, RepliesBehind, answered};
ghost use Rattle.sled_pagecache.specs.declared.pagecache.handles.call.Call.TheVariants as calls;

use crate::batch::pin_again;
use crate::command::{
    Mark, cas_behind, del_behind, free_behind, leaf_in, replace_behind, set_behind,
};
use crate::reply::{LentAnswer, gather_line, gather_mark, gather_swap, gather_tree};
use crate::run::RunError;
use sled_lines::output::gather_text;
use sled_lines::words::{bytes_of, first_word, number_of};
use sled_lines::{Piece, Unwritten};
use sled_pagecache::{Link, Log, Node, PageCache, PageView, open_tree};
use std::alloc::Global;
use std::io::Write;

/// Serves one line, and appends its reply as a line to the gathered ones. A line that opens a batch when none is open, or closes the open one, is not
/// served: its mark is returned.
///
/// Errors: a reply could not be written, or an allocation failed for the line's arguments. After the latter nothing changed.
pub fn serve_line<L: Log, W: Write>(
    alloc: Global,
    cache: &mut PageCache<L>,
    line: &[u8],
    writer: &mut W,
    piece: &mut Piece,
) -> Result<Option<Mark>, RunError>
    requires { length line.now ≤ longest_line }
    ensures replies { RepliesLine L.Log cache.old line.now (W.contents writer.old)
        (W.contents writer.new) piece.old piece.new result cache.new }
    ensures batch { cache.new.batch ≡ cache.old.batch }
{
    match first_word(line) {
        (name, None) => serve_word(alloc, cache, name, writer, piece),
        (name, Some(words)) => serve_words(alloc, cache, name, words, writer, piece),
    }
}

// Serves a line of one word. Each call is made in a function of its own: a function clears at its start what all of its branches need.
fn serve_word<L: Log, W: Write>(
    alloc: Global,
    cache: &mut PageCache<L>,
    word: &[u8],
    writer: &mut W,
    piece: &mut Piece,
) -> Result<Option<Mark>, RunError>
    requires { HasNoSpace word.now }
    ensures replies { RepliesLine L.Log cache.old word.now (W.contents writer.old)
        (W.contents writer.new) piece.old piece.new result cache.new }
    ensures batch { cache.new.batch ≡ cache.old.batch }
{
    match word {
        b"id" => answered(serve_id(cache, writer, piece)),
        b"pin" => serve_mark(cache, Mark::Pin, writer, piece),
        b"seal" => serve_mark(cache, Mark::Seal, writer, piece),
        b"alloc" => answered(serve_alloc_empty(alloc, cache, writer, piece)),
        b"flush" => answered(serve_flush(cache, writer, piece)),
        b"gc" => answered(serve_gc(cache, writer, piece)),
        b"amp" => answered(serve_amp(cache, writer, piece)),
        b"size" => answered(serve_size(cache, writer, piece)),
        b"cancel" => serve_mark(cache, Mark::Cancel, writer, piece),
        _ => answered(refuse(writer, piece)),
    }
}

// Serves a line of a name and words behind it.
fn serve_words<L: Log, W: Write>(
    alloc: Global,
    cache: &mut PageCache<L>,
    name: &[u8],
    words: &[u8],
    writer: &mut W,
    piece: &mut Piece,
) -> Result<Option<Mark>, RunError>
    ensures replies { RepliesBehind L.Log cache.old name.now (Some words.now)
        (W.contents writer.old) (W.contents writer.new) piece.old piece.new result cache.new }
    ensures batch { cache.new.batch ≡ cache.old.batch }
{
    match name {
        b"get" => serve_get(cache, words, writer, piece),
        b"set" => serve_set(alloc, cache, words, writer, piece),
        b"del" => serve_del(alloc, cache, words, writer, piece),
        b"alloc" => serve_alloc(alloc, cache, words, writer, piece),
        b"free" => serve_free(cache, words, writer, piece),
        b"cas" => serve_cas(alloc, cache, words, writer, piece),
        b"root" => serve_root(alloc, cache, words, writer, piece),
        b"open" => serve_open(alloc, cache, words, writer, piece),
        b"replace" => serve_replace(alloc, cache, words, writer, piece),
        _ => answered(refuse(writer, piece)),
    }
}

// What a line comes to whose reply was put, or not written.
fn answered(reply: Result<(), Unwritten>) -> Result<Option<Mark>, RunError>
    ensures { result ≡ answered reply }
{
    match reply {
        Ok(()) => Ok(None),
        Err(_) => Err(RunError::Write),
    }
}

// Replies to a line that asks for nothing that it may ask for.
fn refuse<W: Write>(writer: &mut W, piece: &mut Piece) -> Result<(), Unwritten>
    ensures { Gathers (W.contents writer.old) (W.contents writer.new) piece.old piece.new result
        (codes "error line" ++ 10 ∷ []) }
{
    gather_text(writer, piece, b"error line\n")
}

// Serves the line of a mark.
fn serve_mark<L: Log, W: Write>(
    cache: &mut PageCache<L>,
    mark: Mark,
    writer: &mut W,
    piece: &mut Piece,
) -> Result<Option<Mark>, RunError>
    ensures replies { RepliesLine L.Log cache.old (mark_word mark) (W.contents writer.old)
        (W.contents writer.new) piece.old piece.new result cache.new }
    ensures batch { cache.new.batch ≡ cache.old.batch }
{
    match (mark, cache.batch_open()) {
        (Mark::Pin, false) | (Mark::Seal | Mark::Cancel, true) => Ok(Some(mark)),
        (Mark::Pin, true) => {
            let refused = pin_again(cache);
            answered(gather_mark(writer, piece, &refused))
        }
        (Mark::Seal | Mark::Cancel, false) => answered(refuse(writer, piece)),
    }
}

// `get ID`
fn serve_get<L: Log, W: Write>(
    cache: &mut PageCache<L>,
    word: &[u8],
    writer: &mut W,
    piece: &mut Piece,
) -> Result<Option<Mark>, RunError>
    ensures replies { RepliesBehind L.Log cache.old (codes "get") (Some word.now)
        (W.contents writer.old) (W.contents writer.new) piece.old piece.new result cache.new }
    ensures batch { cache.new.batch ≡ cache.old.batch }
{
    match number_of(word) {
        Some(pid) => answered(gather_line(writer, piece, LentAnswer::Got(cache.get(pid)))),
        None => answered(refuse(writer, piece)),
    }
}

// `set ID STAMP KEY VALUE`
fn serve_set<L: Log, W: Write>(
    alloc: Global,
    cache: &mut PageCache<L>,
    words: &[u8],
    writer: &mut W,
    piece: &mut Piece,
) -> Result<Option<Mark>, RunError>
    ensures replies { RepliesBehind L.Log cache.old (codes "set") (Some words.now)
        (W.contents writer.old) (W.contents writer.new) piece.old piece.new result cache.new }
    ensures batch { cache.new.batch ≡ cache.old.batch }
{
    match set_behind(alloc, words)? {
        Some((old, link)) => answered(serve_link(cache, old, link, writer, piece)),
        None => answered(refuse(writer, piece)),
    }
}

// `del ID STAMP KEY`
fn serve_del<L: Log, W: Write>(
    alloc: Global,
    cache: &mut PageCache<L>,
    words: &[u8],
    writer: &mut W,
    piece: &mut Piece,
) -> Result<Option<Mark>, RunError>
    ensures replies { RepliesBehind L.Log cache.old (codes "del") (Some words.now)
        (W.contents writer.old) (W.contents writer.new) piece.old piece.new result cache.new }
    ensures batch { cache.new.batch ≡ cache.old.batch }
{
    match del_behind(alloc, words)? {
        Some((old, link)) => answered(serve_link(cache, old, link, writer, piece)),
        None => answered(refuse(writer, piece)),
    }
}

// `alloc`
fn serve_alloc_empty<L: Log, W: Write>(
    alloc: Global,
    cache: &mut PageCache<L>,
    writer: &mut W,
    piece: &mut Piece,
) -> Result<(), Unwritten>
    ensures { RepliesTo L.Log cache.old (calls.Allocate empty_leaf) (W.contents writer.old)
        (W.contents writer.new) piece.old piece.new result cache.new }
{
    let answer = cache.allocate(Node::default(alloc));
    gather_line(writer, piece, LentAnswer::Allocated(&answer))
}

// `alloc PAIRS`
fn serve_alloc<L: Log, W: Write>(
    alloc: Global,
    cache: &mut PageCache<L>,
    words: &[u8],
    writer: &mut W,
    piece: &mut Piece,
) -> Result<Option<Mark>, RunError>
    ensures replies { RepliesBehind L.Log cache.old (codes "alloc") (Some words.now)
        (W.contents writer.old) (W.contents writer.new) piece.old piece.new result cache.new }
    ensures batch { cache.new.batch ≡ cache.old.batch }
{
    match leaf_in(alloc, words)? {
        Some(node) => {
            let answer = cache.allocate(node);
            answered(gather_line(writer, piece, LentAnswer::Allocated(&answer)))
        }
        None => answered(refuse(writer, piece)),
    }
}

// `replace ID STAMP PAIRS`
fn serve_replace<L: Log, W: Write>(
    alloc: Global,
    cache: &mut PageCache<L>,
    words: &[u8],
    writer: &mut W,
    piece: &mut Piece,
) -> Result<Option<Mark>, RunError>
    ensures replies { RepliesBehind L.Log cache.old (codes "replace") (Some words.now)
        (W.contents writer.old) (W.contents writer.new) piece.old piece.new result cache.new }
    ensures batch { cache.new.batch ≡ cache.old.batch }
{
    match replace_behind(alloc, words)? {
        Some((old, node)) => {
            let answer = cache.replace(old.pid(), old, node);
            answered(gather_line(writer, piece, LentAnswer::Replaced(&answer)))
        }
        None => answered(refuse(writer, piece)),
    }
}

// `free ID STAMP`
fn serve_free<L: Log, W: Write>(
    cache: &mut PageCache<L>,
    words: &[u8],
    writer: &mut W,
    piece: &mut Piece,
) -> Result<Option<Mark>, RunError>
    ensures replies { RepliesBehind L.Log cache.old (codes "free") (Some words.now)
        (W.contents writer.old) (W.contents writer.new) piece.old piece.new result cache.new }
    ensures batch { cache.new.batch ≡ cache.old.batch }
{
    match free_behind(words) {
        Some(old) => {
            let answer = cache.free(old.pid(), old);
            answered(gather_line(writer, piece, LentAnswer::Freed(&answer)))
        }
        None => answered(refuse(writer, piece)),
    }
}

// `root NAME`
fn serve_root<L: Log, W: Write>(
    alloc: Global,
    cache: &mut PageCache<L>,
    word: &[u8],
    writer: &mut W,
    piece: &mut Piece,
) -> Result<Option<Mark>, RunError>
    ensures replies { RepliesBehind L.Log cache.old (codes "root") (Some word.now)
        (W.contents writer.old) (W.contents writer.new) piece.old piece.new result cache.new }
    ensures batch { cache.new.batch ≡ cache.old.batch }
{
    match bytes_of(alloc, word)? {
        Some(name) => {
            let answer = cache.meta_pid_for_name(name.as_slice());
            answered(gather_line(writer, piece, LentAnswer::FoundRoot(&answer)))
        }
        None => answered(refuse(writer, piece)),
    }
}

// `cas NAME OLD NEW`
fn serve_cas<L: Log, W: Write>(
    alloc: Global,
    cache: &mut PageCache<L>,
    words: &[u8],
    writer: &mut W,
    piece: &mut Piece,
) -> Result<Option<Mark>, RunError>
    ensures replies { RepliesBehind L.Log cache.old (codes "cas") (Some words.now)
        (W.contents writer.old) (W.contents writer.new) piece.old piece.new result cache.new }
    ensures batch { cache.new.batch ≡ cache.old.batch }
{
    match cas_behind(alloc, words)? {
        Some((name, old, new)) => {
            let answer = cache.cas_root_in_meta(name.as_slice(), old, new);
            answered(gather_line(writer, piece, LentAnswer::RootSwapped(&answer)))
        }
        None => answered(refuse(writer, piece)),
    }
}

// `open NAME`: several calls
fn serve_open<L: Log, W: Write>(
    alloc: Global,
    cache: &mut PageCache<L>,
    word: &[u8],
    writer: &mut W,
    piece: &mut Piece,
) -> Result<Option<Mark>, RunError>
    ensures replies { RepliesBehind L.Log cache.old (codes "open") (Some word.now)
        (W.contents writer.old) (W.contents writer.new) piece.old piece.new result cache.new }
    ensures batch { cache.new.batch ≡ cache.old.batch }
{
    match bytes_of(alloc, word)? {
        Some(name) => {
            let root = open_tree(cache, name);
            answered(gather_tree(writer, piece, &root))
        }
        None => answered(refuse(writer, piece)),
    }
}

// Makes the call of a link, and puts the reply to its answer as a line behind those that were gathered.
fn serve_link<L: Log, W: Write>(
    cache: &mut PageCache<L>,
    old: PageView,
    link: Link,
    writer: &mut W,
    piece: &mut Piece,
) -> Result<(), Unwritten>
    ensures { RepliesTo L.Log cache.old (calls.Link old link) (W.contents writer.old)
        (W.contents writer.new) piece.old piece.new result cache.new }
{
    let answer = cache.link(old.pid(), old, link);
    gather_swap(writer, piece, &answer)
}

fn serve_id<L: Log, W: Write>(
    cache: &mut PageCache<L>,
    writer: &mut W,
    piece: &mut Piece,
) -> Result<(), Unwritten>
    ensures { RepliesTo L.Log cache.old calls.GenerateId (W.contents writer.old)
        (W.contents writer.new) piece.old piece.new result cache.new }
{
    let answer = cache.generate_id_inner();
    gather_line(writer, piece, LentAnswer::Generated(&answer))
}

fn serve_flush<L: Log, W: Write>(
    cache: &mut PageCache<L>,
    writer: &mut W,
    piece: &mut Piece,
) -> Result<(), Unwritten>
    ensures { RepliesTo L.Log cache.old calls.Flush (W.contents writer.old) (W.contents writer.new)
        piece.old piece.new result cache.new }
{
    let answer = cache.flush();
    gather_line(writer, piece, LentAnswer::Flushed(&answer))
}

fn serve_size<L: Log, W: Write>(
    cache: &mut PageCache<L>,
    writer: &mut W,
    piece: &mut Piece,
) -> Result<(), Unwritten>
    ensures { RepliesTo L.Log cache.old calls.SizeOnDisk (W.contents writer.old)
        (W.contents writer.new) piece.old piece.new result cache.new }
{
    let answer = cache.size_on_disk();
    gather_line(writer, piece, LentAnswer::Sized(&answer))
}

fn serve_amp<L: Log, W: Write>(
    cache: &mut PageCache<L>,
    writer: &mut W,
    piece: &mut Piece,
) -> Result<(), Unwritten>
    ensures { RepliesTo L.Log cache.old calls.SpaceAmplification (W.contents writer.old)
        (W.contents writer.new) piece.old piece.new result cache.new }
{
    let answer = cache.space_amplification();
    gather_line(writer, piece, LentAnswer::Amplified(&answer))
}

fn serve_gc<L: Log, W: Write>(
    cache: &mut PageCache<L>,
    writer: &mut W,
    piece: &mut Piece,
) -> Result<(), Unwritten>
    ensures { RepliesTo L.Log cache.old calls.AttemptGc (W.contents writer.old)
        (W.contents writer.new) piece.old piece.new result cache.new }
{
    let answer = cache.attempt_gc();
    gather_line(writer, piece, LentAnswer::AttemptedGc(&answer))
}
