//! Parsing the words after a command's name.

ghost use Rattle.std.specs.Prelude.{codes, Some, IfOk, IfSome, IfNone};
ghost use Rattle.std.specs.Option.{option_map};
ghost use Rattle.sled_node.specs.Node.{WholeNode};
ghost use Rattle.sled_script.specs.Asked.{AsksBehind, EncodeLeaf};
ghost use Rattle.sled_pagecache.specs.declared.pagecache.handles.call.Call.{Call};
ghost use Rattle.sled_pagecache.specs.declared.pagecache.handles.call.Call.TheVariants as calls;

mod arguments;

use self::arguments::{token_of, two_roots};
use crate::pairs::pairs_of;
use sled_lines::words::{bytes_of, two_words};
use sled_pagecache::{IVec, Link, Node, PageId, PageView};
use std::alloc::{AllocError, Global};

/// The mark that opens or closes a batch.
#[derive(Clone, Copy, PartialEq, Eq)]
pub enum Mark {
    Pin,
    Seal,
    Cancel,
}

/// Parses `PAIRS`, or nothing if there are none. Returns the leaf of these pairs, or `None` if the words are wrong or a leaf can't hold the pairs.
pub fn leaf_behind(alloc: Global, pairs: Option<&[u8]>) -> Result<Option<Node>, AllocError>
    ensures some { IfOk result
        (λ found. IfSome found (EncodeLeaf (option_map (λ rest. rest.now) pairs.entry))) }
    ensures none { IfOk result (λ found. IfNone found ((node : WholeNode)
        → ¬ EncodeLeaf (option_map (λ rest. rest.now) pairs.entry) node)) }
{
    match pairs {
        None => Ok(Some(Node::default(alloc))),
        Some(words) => leaf_in(alloc, words),
    }
}

/// Parses `PAIRS`. Returns the leaf of these pairs, or `None` if the words are wrong or a leaf can't hold the pairs.
pub fn leaf_in(alloc: Global, words: &[u8]) -> Result<Option<Node>, AllocError>
    ensures some { IfOk result (λ found. IfSome found (EncodeLeaf (Some words.now))) }
    ensures none { IfOk result
        (λ found. IfNone found ((node : WholeNode) → ¬ EncodeLeaf (Some words.now) node)) }
{
    let Some(pairs) = pairs_of(alloc, Some(words))? else {
        return Ok(None);
    };
    Node::leaf_of(alloc, pairs)
}

/// Parses `ID STAMP KEY VALUE`, which follow `set`. Returns the token and the link, or `None` if the words are wrong.
#[inline(always)]
pub fn set_behind(alloc: Global, words: &[u8]) -> Result<Option<(PageView, Link)>, AllocError>
    ensures some { IfOk result (λ found. IfSome found (λ made. AsksBehind (codes "set")
        (Some words.now) (calls.Link made.0 made.1))) }
    ensures none { IfOk result
        (λ found. IfNone found ((call : Call) → ¬ AsksBehind (codes "set") (Some words.now) call)) }
{
    let Some((old, rest)) = token_of(words) else {
        return Ok(None);
    };
    let Some((key, value)) = two_words(rest) else {
        return Ok(None);
    };
    let Some(key) = bytes_of(alloc, key)? else {
        return Ok(None);
    };
    let Some(value) = bytes_of(alloc, value)? else {
        return Ok(None);
    };
    Ok(Some((old, Link::Set(key, value))))
}

/// Parses `ID STAMP KEY`, which follow `del`. Returns the token and the link, or `None` if the words are wrong.
#[inline(always)]
pub fn del_behind(alloc: Global, words: &[u8]) -> Result<Option<(PageView, Link)>, AllocError>
    ensures some { IfOk result (λ found. IfSome found (λ made. AsksBehind (codes "del")
        (Some words.now) (calls.Link made.0 made.1))) }
    ensures none { IfOk result
        (λ found. IfNone found ((call : Call) → ¬ AsksBehind (codes "del") (Some words.now) call)) }
{
    let Some((old, rest)) = token_of(words) else {
        return Ok(None);
    };
    let Some(word) = rest else {
        return Ok(None);
    };
    let Some(key) = bytes_of(alloc, word)? else {
        return Ok(None);
    };
    Ok(Some((old, Link::Del(key))))
}

/// Parses `ID STAMP PAIRS`, which follow `replace`. Returns the token and the leaf of these pairs, or `None` if the words are wrong or a leaf can't
/// hold the pairs.
pub fn replace_behind(alloc: Global, words: &[u8]) -> Result<Option<(PageView, Node)>, AllocError>
    ensures some { IfOk result (λ found. IfSome found (λ made. AsksBehind (codes "replace")
        (Some words.now) (calls.Replace made.0 made.1))) }
    ensures none { IfOk result (λ found. IfNone found
        ((call : Call) → ¬ AsksBehind (codes "replace") (Some words.now) call)) }
{
    let Some((old, rest)) = token_of(words) else {
        return Ok(None);
    };
    let Some(node) = leaf_behind(alloc, rest)? else {
        return Ok(None);
    };
    Ok(Some((old, node)))
}

/// Parses `ID STAMP`, which follow `free`. Returns the token, or `None` if the words are wrong.
pub fn free_behind(words: &[u8]) -> Option<PageView>
    ensures some { IfSome result
        (λ old. AsksBehind (codes "free") (Some words.now) (calls.Free old)) }
    ensures none { IfNone result
        ((call : Call) → ¬ AsksBehind (codes "free") (Some words.now) call) }
{
    let (old, rest) = token_of(words)?;
    match rest {
        None => Some(old),
        Some(_) => None,
    }
}

/// Parses `NAME OLD NEW`, which follow `cas`. Returns the name and the two root pages, or `None` if the words are wrong.
pub fn cas_behind(
    alloc: Global,
    words: &[u8],
) -> Result<Option<(IVec, Option<PageId>, Option<PageId>)>, AllocError>
    ensures some { IfOk result (λ found. IfSome found (λ made. AsksBehind (codes "cas")
        (Some words.now) (calls.CasRoot made.0 made.1 made.2))) }
    ensures none { IfOk result
        (λ found. IfNone found ((call : Call) → ¬ AsksBehind (codes "cas") (Some words.now) call)) }
{
    let Some((name, roots)) = two_words(Some(words)) else {
        return Ok(None);
    };
    let Some((old, new)) = two_roots(roots) else {
        return Ok(None);
    };
    let Some(name) = bytes_of(alloc, name)? else {
        return Ok(None);
    };
    Ok(Some((name, old, new)))
}
