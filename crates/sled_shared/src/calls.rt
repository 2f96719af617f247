//! The swaps of a batch, and the answer of each.

ghost use Rattle.std.specs.Prelude.{◌≡◌};

use sled_node::{Link, Node};
use sled_pagecache::PageView;
use std::alloc::AllocError;

/// A swap of a batch, with its arguments. The token names the page.
#[derive(Debug, Drop)]
pub enum Swap {
    /// Applies a link to the page's node, as `link` does.
    Link(PageView, Link),
    /// Replaces the page's node, as `replace` does.
    Replace(PageView, Node),
    /// Frees the page, as `free` does.
    Free(PageView),
}

impl Clone for Swap {
    ghost use Rattle.std.specs.Prelude.{◌≡◌};

    ghost is_clone = { λ v w. w ≡ v };

    /// Returns the same swap; byte strings above 22 bytes are shared. An error means that an allocation failed.
    fn clone(&self) -> Result<Swap, AllocError> {
        Ok(match self {
            Swap::Link(old, link) => Swap::Link(*old, link.clone()?),
            Swap::Replace(old, node) => Swap::Replace(*old, node.clone()?),
            Swap::Free(old) => Swap::Free(*old),
        })
    }
}

/// The answer of a swap of a batch that was not refused: what the call of the same name returns.
#[derive(Debug, Drop)]
pub enum SwapAnswer {
    /// The next token; or, as an error, the current token with the link, or `None` if there is no such page.
    Link(Result<PageView, Option<(PageView, Link)>>),
    /// The same with the node.
    Replace(Result<PageView, Option<(PageView, Node)>>),
    /// The same with nothing.
    Free(Result<PageView, Option<(PageView, ())>>),
}
