//! Batches of a held cache: swaps of which a crash leaves all or nothing.

ghost use Rattle.std.specs.Prelude.{◌≡◌, ◌≤◌, [], false, length, vec_len, vec_capacity, IfOk, IfErr, IsSome};
ghost use Rattle.sled_base.specs.Errors.{error_of};
ghost use Rattle.sled_pagecache.specs.Rows.{AreMade, IsMade};
ghost use Rattle.sled_pagecache.specs.Trees.{MadeCalls};
ghost use Rattle.sled_shared.specs.Calls.{AreSwaps, IsBatch, answer_of, answered, batched, call_of, refusal_of, with_answers};
ghost use Rattle.sled_shared.specs.Kept.{batch_kept, swap_ended, swaps_ended};

use crate::calls::{Swap, SwapAnswer};
use crate::entry::{Batch, Ending, Kept};
use crate::keeping::{Spare, ending_of, put, refusal_of};
use sled_base::{Error, Refusal};
use sled_log::Log;
use sled_pagecache::PageCache;
use std::alloc::{AllocError, Global};
use std::collections::VecDeque;

// A batch that is to be made: copies of its swaps, which the cache is given, the room for their answers, and what is entered.
#[derive(Drop)]
pub(crate) struct Prepared {
    copies: VecDeque<Swap>,
    answers: Vec<SwapAnswer>,
    asked: Box<Batch>,
    ghost same: { copies.items ≡ asked.value.swaps.items },
    ghost none: { (answers.items ≡ []) × (asked.value.endings.items ≡ []) × (vec_len answers ≡ 0) × (vec_len asked.value.endings ≡ 0) },
    ghost room: { (length copies.items ≤ vec_capacity answers) × (length copies.items ≤ vec_capacity asked.value.endings) },
}

// Takes what a batch of these swaps needs before the cache is asked.
pub(crate) fn prepare(alloc: Global, swaps: Vec<Swap>) -> Result<Prepared, AllocError>
    ensures { IfOk result (λ prepared. prepared.asked.value.swaps.items ≡ swaps.items) }
{
    let answers = Vec::with_capacity(alloc, swaps.len())?;
    let endings = Vec::with_capacity(alloc, swaps.len())?;
    let copies = copies_of(alloc, &swaps)?;
    let asked = Box::new(alloc, Batch { swaps, endings })?;
    Ok(Prepared {
        copies,
        answers,
        asked,
    })
}

fn copies_of(alloc: Global, swaps: &[Swap]) -> Result<VecDeque<Swap>, AllocError>
    ensures { IfOk result (λ copies. copies.items ≡ swaps.now) }
{
    let mut copies = VecDeque::with_capacity(alloc, swaps.len())?;
    for swap in swaps {
        copies.push_back(swap.clone()?)?;
    }
    Ok(copies)
}

// Opens the batch, makes the swaps, and seals it. Where one is refused it is cancelled, and what that answers is passed over.
pub(crate) fn make_batch<L: Log>(
    cache: &mut PageCache<L>,
    prepared: Prepared,
    spare: &mut Spare,
) -> (
    Result<Vec<SwapAnswer>, (Error, Vec<SwapAnswer>)>,
    Box<Batch>,
    Kept<()>,
)
    requires spare { IsSome spare.old }
    requires closed { cache.old.batch ≡ false }
    ensures asked { result.1.value.swaps.items ≡ prepared.asked.value.swaps.items }
    ensures same { batch_kept prepared.asked.value.swaps.items result.1.value.endings.items result.2
        ≡ batched result.0 }
    ensures made { (calls : MadeCalls) × IsBatch prepared.asked.value.swaps.items (batched result.0)
        calls × AreMade L.Log cache.old calls cache.new }
    ensures batch { cache.new.batch ≡ false }
{
    let Prepared {
        copies,
        answers,
        asked,
    } = prepared;
    let mut answers = answers;
    let mut asked = asked;
    match swap_in_batch(cache, copies, &mut answers, &mut asked.endings) {
        Ok(()) => (Ok(answers), asked, Ok(())),
        Err(refusal) => (
            Err((Error::from(refusal), answers)),
            asked,
            Err(put(refusal, spare)),
        ),
    }
}

// The same, whose answers and endings go into these lists.
fn swap_in_batch<L: Log>(
    cache: &mut PageCache<L>,
    copies: VecDeque<Swap>,
    answers: &mut Vec<SwapAnswer>,
    endings: &mut Vec<Ending>,
) -> Result<(), Refusal>
    requires none { (answers.old.items ≡ []) × (endings.old.items ≡ []) × (vec_len answers.old ≡ 0)
        × (vec_len endings.old ≡ 0) }
    requires room { (length copies.items ≤ vec_capacity answers.old)
        × (length copies.items ≤ vec_capacity endings.old) }
    requires closed { cache.old.batch ≡ false }
    ensures same { swaps_ended copies.items endings.new.items ≡ answers.new.items }
    ensures made { (calls : MadeCalls) × IsBatch copies.items (with_answers (answered result)
        answers.new.items) calls × AreMade L.Log cache.old calls cache.new }
    ensures batch { cache.new.batch ≡ false }
{
    let mut guard = match cache.pin_log() {
        Ok(guard) => guard,
        Err(e) => return Err(refusal_of(&e)),
    };
    match swap_all(guard.cache(), copies, answers, endings) {
        Ok(()) => match guard.seal_batch() {
            Ok(()) => Ok(()),
            Err(e) => Err(refusal_of(&e)),
        },
        Err(refusal) => {
            let _ = guard.cancel();
            Err(refusal)
        }
    }
}

// Makes the swaps in order, up to the first that is refused.
fn swap_all<L: Log>(
    cache: &mut PageCache<L>,
    copies: VecDeque<Swap>,
    answers: &mut Vec<SwapAnswer>,
    endings: &mut Vec<Ending>,
) -> Result<(), Refusal>
    requires none { (answers.old.items ≡ []) × (endings.old.items ≡ []) × (vec_len answers.old ≡ 0)
        × (vec_len endings.old ≡ 0) }
    requires room { (length copies.items ≤ vec_capacity answers.old)
        × (length copies.items ≤ vec_capacity endings.old) }
    ensures same { swaps_ended copies.items endings.new.items ≡ answers.new.items }
    ensures made { (calls : MadeCalls) × AreSwaps copies.items (answered result) answers.new.items
        calls × AreMade L.Log cache.old calls cache.new }
    ensures batch { cache.new.batch ≡ cache.old.batch }
{
    let mut left = copies;
    while let Some(one) = left.pop_front() {
        match swap(cache, one) {
            Ok((answer, ending)) => {
                answers.push_reserved(answer);
                endings.push_reserved(ending);
            }
            Err(refusal) => return Err(refusal),
        }
    }
    Ok(())
}

// Makes a swap: what it answered, and how it ended.
fn swap<L: Log>(cache: &mut PageCache<L>, one: Swap) -> Result<(SwapAnswer, Ending), Refusal>
    ensures same { IfOk result (λ made. swap_ended one made.1 ≡ made.0) }
    ensures made { IfOk result
        (λ made. IsMade L.Log cache.old (call_of one) (answer_of made.0) cache.new) }
    ensures refused { IfErr result
        (λ e. IsMade L.Log cache.old (call_of one) (refusal_of one (error_of e)) cache.new) }
    ensures batch { cache.new.batch ≡ cache.old.batch }
{
    match one {
        Swap::Link(old, link) => match cache.link(old.pid(), old, link) {
            Ok(answer) => {
                let ending = ending_of(&answer);
                Ok((SwapAnswer::Link(answer), ending))
            }
            Err(e) => Err(refusal_of(&e)),
        },
        Swap::Replace(old, node) => match cache.replace(old.pid(), old, node) {
            Ok(answer) => {
                let ending = ending_of(&answer);
                Ok((SwapAnswer::Replace(answer), ending))
            }
            Err(e) => Err(refusal_of(&e)),
        },
        Swap::Free(old) => match cache.free(old.pid(), old) {
            Ok(answer) => {
                let ending = ending_of(&answer);
                Ok((SwapAnswer::Free(answer), ending))
            }
            Err(e) => Err(refusal_of(&e)),
        },
    }
}
