//! Reads of several pages of a held cache, which are one call.

ghost use Rattle.std.specs.Prelude.{◌≡◌, ◌≤◌, [], length, vec_len, vec_capacity, IfOk, IsSome};
ghost use Rattle.sled_pagecache.specs.Rows.{AreMade};
ghost use Rattle.sled_pagecache.specs.Trees.{MadeCalls};
ghost use Rattle.sled_shared.specs.Calls.{AreReads, IsReading, answered, got_all};
ghost use Rattle.sled_shared.specs.Kept.{all_found, reads_kept};

use crate::copies::read;
use crate::entry::{Kept, Reads};
use crate::keeping::{Spare, put};
use sled_base::{Error, PageId, Refusal};
use sled_log::Log;
use sled_node::Node;
use sled_pagecache::{PageCache, PageView};
use std::alloc::{AllocError, Global};

// Reads that are to be made: the room for their answer, and what is entered.
#[derive(Drop)]
pub(crate) struct Planned {
    answers: Vec<Option<(PageView, Node)>>,
    asked: Box<Reads>,
    ghost none: { (answers.items ≡ []) × (asked.value.found.items ≡ []) × (vec_len answers ≡ 0) × (vec_len asked.value.found ≡ 0) },
    ghost room: { (length asked.value.pages.items ≤ vec_capacity answers) × (length asked.value.pages.items ≤ vec_capacity asked.value.found) },
}

// Takes what reads of these pages need before the cache is asked, but for the copies of the nodes.
pub(crate) fn plan(alloc: Global, pages: Vec<PageId>) -> Result<Planned, AllocError>
    ensures { IfOk result (λ planned. planned.asked.value.pages.items ≡ pages.items) }
{
    let answers = Vec::with_capacity(alloc, pages.len())?;
    let found = Vec::with_capacity(alloc, pages.len())?;
    let asked = Box::new(alloc, Reads { pages, found })?;
    Ok(Planned { answers, asked })
}

// Reads the pages in order, up to the first whose read fails.
pub(crate) fn read_all<L: Log>(
    alloc: Global,
    cache: &mut PageCache<L>,
    planned: Planned,
    spare: &mut Spare,
) -> (
    Result<Vec<Option<(PageView, Node)>>, (Error, Vec<Option<(PageView, Node)>>)>,
    Box<Reads>,
    Kept<()>,
)
    requires { IsSome spare.old }
    ensures asked { result.1.value.pages.items ≡ planned.asked.value.pages.items }
    ensures same { reads_kept planned.asked.value.pages.items result.1.value.found.items result.2
        ≡ got_all result.0 }
    ensures made { (calls : MadeCalls) × IsReading planned.asked.value.pages.items (got_all result.0)
        calls × AreMade L.Log cache.old calls cache.new }
    ensures batch { cache.new.batch ≡ cache.old.batch }
{
    let Planned { answers, asked } = planned;
    let mut answers = answers;
    let mut asked = asked;
    let Reads { pages, found } = &mut *asked;
    match read_each(alloc, cache, pages, &mut answers, found) {
        Ok(()) => (Ok(answers), asked, Ok(())),
        Err(refusal) => (
            Err((Error::from(refusal), answers)),
            asked,
            Err(put(refusal, spare)),
        ),
    }
}

// The same, whose answers go into both lists.
fn read_each<L: Log>(
    alloc: Global,
    cache: &mut PageCache<L>,
    pages: &[PageId],
    answers: &mut Vec<Option<(PageView, Node)>>,
    found: &mut Vec<Option<(u64, Box<Node>)>>,
) -> Result<(), Refusal>
    requires none { (answers.old.items ≡ []) × (found.old.items ≡ []) × (vec_len answers.old ≡ 0)
        × (vec_len found.old ≡ 0) }
    requires room { (length pages.now ≤ vec_capacity answers.old)
        × (length pages.now ≤ vec_capacity found.old) }
    ensures same { all_found pages.now found.new.items ≡ answers.new.items }
    ensures made { (calls : MadeCalls) × AreReads pages.now (answered result) answers.new.items
        calls × AreMade L.Log cache.old calls cache.new }
    ensures batch { cache.new.batch ≡ cache.old.batch }
{
    for pid in pages {
        match read(alloc, cache, *pid) {
            Ok((one, copy)) => {
                answers.push_reserved(one);
                found.push_reserved(copy);
            }
            Err(refusal) => return Err(refusal),
        }
    }
    Ok(())
}
