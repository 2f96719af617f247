//! Reading a page's chain.

ghost use Rattle.std.specs.Prelude.{◌≡◌, ℕ, ◌<◌, false, length, map, IfOk, IfErr};
ghost use Rattle.sled_log.specs.Chains.{is_empty};
ghost use Rattle.sled_log.specs.Contents as content;
ghost use Rattle.sled_log.specs.Messages.{effect_of_entry, messages_of};
ghost use Rattle.sled_log.specs.Pages.{said_of};
ghost use Rattle.sled_log.specs.Reading.{Makes};
ghost use Rattle.sled_pagecache.specs.Cache.{chain_at};
ghost use Rattle.sled_pagecache.specs.Infos.{place_of};
ghost use Rattle.sled_pagecache.specs.Inside.PageIn.{RefusesPull};
ghost use Rattle.sled_pagecache.specs.Inside.Measurements.{ReadsLog};
ghost use Rattle.sled_pagecache.specs.Inside.StickyLog.{IsReady};

use crate::pagecache::memory::reading::{Found, first_boxed, with_link};
use crate::pagecache::table::boxed_node::BoxedNode;
use crate::pagecache::table::page_entry::CacheInfo;
use crate::pagecache::write::sticky_log::StickyLog;
use sled_base::{PageId, Refusal};
use sled_log::Log;

// A payload of up to so many bytes takes no memory while it is read.
pub(crate) const SPACE: usize = 256;

// Reads the node of a page from the log, by one read for each of its messages, in the order of its chain. All are read, so a read that
// fails is answered where a message before it doesn't belong there, too.
pub(crate) fn read_node<L: Log>(
    sticky_log: &mut StickyLog<L>,
    pid: PageId,
    infos: &[CacheInfo],
) -> Result<BoxedNode, Refusal>
    requires ready { IsReady L.Log sticky_log.old }
    requires some { 0 < length infos.now }
    requires known { L.tells
        → map said_of (chain_at (L.state sticky_log.old.log) pid) ≡ map place_of infos.now }
    requires full { L.tells
        → is_empty effect_of_entry (chain_at (L.state sticky_log.old.log) pid) ≡ false }
    ensures read { ReadsLog L.Log sticky_log.old sticky_log.new (length infos.now) result }
    ensures room { (n : ℕ) → L.is_full sticky_log.new.log n → L.is_full sticky_log.old.log n }
    ensures made { L.tells → IfOk result (λ node. Makes
        (messages_of (chain_at (L.state sticky_log.old.log) pid)) (content.Node node)) }
    ensures refused { L.tells
        → IfErr result (RefusesPull (chain_at (L.state sticky_log.old.log) pid)) }
{
    let mut space = [0; SPACE];
    let first = infos[0];
    let (kind, payload) = sticky_log.read_to(pid, first.lsn, first.pointer, &mut space)?;
    let found = Found {
        kind,
        payload: payload.bytes(&space),
        pointer: first.pointer,
    };
    let mut made = first_boxed(&found, sticky_log.alloc);
    for info in &infos[1..] {
        let (kind, payload) = sticky_log.read_to(pid, info.lsn, info.pointer, &mut space)?;
        let found = Found {
            kind,
            payload: payload.bytes(&space),
            pointer: info.pointer,
        };
        made = with_link(made, &found, sticky_log.alloc);
    }
    made
}
