// What a caller knows of a cache over any log, of which nothing else is known.

ghost use Rattle.std.specs.Prelude.{◌≡◌, None, IfOk, IfErr, IfSome};
ghost use Rattle.sled_pagecache.specs.State.{pid_of};

use super::*;

// Puts a node on a page, links it, and replaces it, each by the token that the call before answered.
pub(super) fn put_link_replace<L: Log>(
    cache: &mut PageCache<L>,
    node: Node,
    link: Link,
    other: Node,
) -> Result<bool, Error> {
    let (pid, token) = cache.allocate(node)?;
    match link_answered(cache, pid, token, link)? {
        Some(token) => is_replaced(cache, pid, token, other),
        None => Ok(false),
    }
}

// Links a page, and the token that was answered, if any.
fn link_answered<L: Log>(
    cache: &mut PageCache<L>,
    pid: PageId,
    token: PageView,
    link: Link,
) -> Result<Option<PageView>, Error>
    requires { pid_of token ≡ pid }
    ensures { IfOk result (λ answered. IfSome answered (λ present. pid_of present ≡ pid)) }
{
    match cache.link(pid, token, link)? {
        Ok(token) | Err(Some((token, _))) => Ok(Some(token)),
        Err(None) => Ok(None),
    }
}

fn is_replaced<L: Log>(
    cache: &mut PageCache<L>,
    pid: PageId,
    token: PageView,
    other: Node,
) -> Result<bool, Error>
    requires { pid_of token ≡ pid }
{
    let swapped = cache.replace(pid, token, other)?;
    Ok(swapped.is_ok())
}

// Puts a node on a page, and links it by the token that was answered, which is never stale.
pub(super) fn put_and_link<L: Log>(
    cache: &mut PageCache<L>,
    node: Node,
    link: Link,
) -> Result<Result<PageView, Option<(PageView, Link)>>, Error>
    ensures never_stale { IfOk result (λ answer. IfErr answer (λ back. back ≡ None)) }
{
    let (pid, token) = cache.allocate(node)?;
    cache.link(pid, token, link)
}

// Asks for a page, and whether there is one.
pub(super) fn has_page<L: Log>(cache: &mut PageCache<L>, pid: PageId) -> Result<bool, Refusal> {
    Ok(cache.get(pid)?.is_some())
}
