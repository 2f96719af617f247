//! Arguments that several commands have.

ghost use Rattle.std.specs.Prelude.{◌≡◌, ◌≢◌, ℕ, Option, Some, IfSome, IfNone};
ghost use Rattle.std.specs.Option.{option_map};
ghost use Rattle.sled_base.specs.Order.{Bytes};
ghost use Rattle.sled_pagecache.specs.State.{Token};
ghost use Rattle.sled_script.specs.Asked.{BeginsWithToken, EncodeRoots};
ghost use Rattle.sled_script.specs.Commands.{IsRootNumber, root_word};

use sled_lines::words::{first_word, number_of, two_words};
use sled_pagecache::{PageId, PageView};

/// Returns the token that the first two words encode, and what follows the space after them, if there is a space. Returns `None` if they encode no
/// token.
#[inline(always)]
pub fn token_of(words: &[u8]) -> Option<(PageView, Option<&[u8]>)>
    ensures some { IfSome result (λ read. BeginsWithToken (Some words.now) read.0
        (option_map (λ rest. rest.now) read.1)) }
    ensures none { IfNone result ((old : Token) (rest : Option Bytes)
        → ¬ BeginsWithToken (Some words.now) old rest) }
{
    let (page, rest) = first_word(words);
    let (stamp, rest) = first_word(rest?);
    let old = PageView::new(number_of(page)?, number_of(stamp)?);
    Some((old, rest))
}

/// Returns two root pages, each of which may be none, which is a dash. Returns `None` if the words encode no root pages.
pub fn two_roots(words: &[u8]) -> Option<(Option<PageId>, Option<PageId>)>
    ensures some { IfSome result (λ roots. EncodeRoots words.now roots.0 roots.1) }
    ensures none { IfNone result ((old new : Option ℕ) → ¬ EncodeRoots words.now old new) }
{
    let (old, new) = two_words(Some(words))?;
    Some((root_in(old)?, root_in(new)?))
}

// The root page that the word encodes, which is none at a dash.
fn root_in(word: &[u8]) -> Option<Option<PageId>>
    ensures some { IfSome result (λ root. IsRootNumber root × (word.now ≡ root_word root)) }
    ensures none { IfNone result ((root : Option ℕ) → IsRootNumber root
        → word.now ≢ root_word root) }
{
    if word == b"-".as_slice() {
        return Some(None);
    }
    let root = number_of(word)?;
    Some(Some(root))
}
