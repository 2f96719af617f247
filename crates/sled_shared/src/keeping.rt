//! What an entry stores of an answer. The room for a refusal is allocated before the call, and is used if there is one.

ghost use Rattle.std.specs.Prelude.{◌≡◌, List, ℕ, Ok, IfOk, IfErr, IsSome};
ghost use Rattle.sled_base.specs.Errors.{error_of};
ghost use Rattle.sled_base.specs.Order.{Bytes};
ghost use Rattle.sled_pagecache.specs.Answers.{HasNoName, NamesOnly};
ghost use Rattle.sled_pagecache.specs.State.{Token, IsAnswered};
ghost use Rattle.sled_shared.specs.Kept.{answer_kept, ended, root_kept, swap_kept};

use crate::entry::{Ending, Kept};
use sled_base::{Error, PageId, Refusal};
use sled_pagecache::PageView;

/// The room for a refusal, or `None` if it was used.
pub(crate) type Spare = Option<Box<Refusal>>;

// The answer of a call, which owns nothing.
pub(crate) fn keep<T: Copy>(answer: &Result<T, Error>, spare: &mut Spare) -> Kept<T>
    requires spare { IsSome spare.old }
    requires unnamed { IfErr answer.now HasNoName }
    ensures { answer_kept result ≡ answer.now }
{
    match answer {
        Ok(value) => Ok(*value),
        Err(e) => Err(put(refusal_of(e), spare)),
    }
}

// How a swap ended.
pub(crate) fn keep_ending<T>(
    answer: &Result<Result<PageView, Option<(PageView, T)>>, Error>,
    spare: &mut Spare,
) -> Kept<Ending>
    requires spare { IsSome spare.old }
    requires unnamed { IfErr answer.now HasNoName }
    ensures { (stamps : List ℕ) (old : Token) (change : T) → IfOk answer.now
        (IsAnswered stamps old change) → swap_kept old change result ≡ answer.now }
{
    match answer {
        Ok(ended) => Ok(ending_of(ended)),
        Err(e) => Err(put(refusal_of(e), spare)),
    }
}

// How a swap ended that wasn't refused.
pub(crate) fn ending_of<T>(answer: &Result<PageView, Option<(PageView, T)>>) -> Ending
    ensures { (stamps : List ℕ) (old : Token) (change : T) → IsAnswered stamps old change answer.now
        → ended old change result ≡ answer.now }
{
    match answer {
        Ok(_) => Ending::Made,
        Err(None) => Ending::Gone,
        Err(Some((present, _))) => Ending::Stale(present.ts()),
    }
}

// The root of a name, or that it has none.
pub(crate) fn keep_root(answer: &Result<PageId, Error>, spare: &mut Spare) -> Kept<Option<PageId>>
    requires { IsSome spare.old }
    ensures { (name : Bytes) → IfErr answer.now (NamesOnly name)
        → root_kept name result ≡ answer.now }
{
    match answer {
        Ok(root) => Ok(Some(*root)),
        Err(Error::CollectionNotFound(_)) => Ok(None),
        Err(e) => Err(put(refusal_of(e), spare)),
    }
}

// Puts a refusal into its room.
pub(crate) fn put(refusal: Refusal, spare: &mut Spare) -> Box<Refusal>
    requires { IsSome spare.old }
    ensures { result.value ≡ refusal }
{
    match spare.take() {
        Some(mut room) => {
            *room = refusal;
            room
        }
        None => unreachable!(),
    }
}

// The refusal that an error is which owns no name.
pub(crate) fn refusal_of(e: &Error) -> Refusal
    requires { HasNoName e.now }
    ensures { error_of result ≡ e.now }
{
    match e {
        Error::CollectionNotFound(_) => unreachable!(),
        Error::Unsupported(why) => Refusal::Unsupported(*why),
        Error::ReportableBug(bug) => Refusal::ReportableBug(*bug),
        Error::Io(device) => Refusal::Io(*device),
        Error::Corruption(pointer) => Refusal::Corruption(*pointer),
        Error::OutOfMemory => Refusal::OutOfMemory,
    }
}
