//! Where the log stores the messages of a page.

ghost use Rattle.std.specs.Prelude.{◌≡◌, ◌<◌, ◌≤◌, ◌++◌, [], ◌∷◌, true, length, max, vec_len, vec_capacity, IfOk, OnOk};
ghost use Rattle.sled_pagecache.specs.Limits.{most_messages};

use crate::pagecache::PAGE_CONSOLIDATION_THRESHOLD;
use crate::pagecache::table::page_entry::CacheInfo;
use std::alloc::{AllocError, Global};
use std::marker::Model;

// Room is made for so many messages where a page gets a second one.
const FIRST_ROOM: usize = 4;

/// Where a log stores the messages of a page, in the order of its chain. A single one is stored in place.
///
/// Contracts see the list of them, and whether one more can be added without allocating.
#[derive(Debug, Drop)]
pub(crate) struct Infos {
    places: Places,
}

#[derive(Debug, Drop)]
enum Places {
    One(CacheInfo),
    Several(Vec<CacheInfo>),
}

impl Model for Infos {
    ghost use Rattle.sled_pagecache.specs.Infos.{InfosView};
    ghost use Rattle.sled_pagecache.specs.Inside.JoinedInfos.{view_of};

    ghost Value = { InfosView };

    ghost view = { λ infos. view_of infos.places };
}

impl Infos {
    // The place of one message.
    pub(crate) fn one(info: CacheInfo) -> Infos
        ensures { result.items ≡ info ∷ [] }
    {
        Infos {
            places: Places::One(info),
        }
    }

    // The places of some messages.
    pub(crate) fn several(infos: Vec<CacheInfo>) -> Infos
        ensures { result.items ≡ infos.items }
    {
        Infos {
            places: Places::Several(infos),
        }
    }

    // How many messages there are.
    pub(crate) fn len(&self) -> usize
        ensures { result ≡ length self.now.items }
    {
        self.as_slice().len()
    }

    // The places of all messages.
    pub(crate) fn as_slice(&self) -> &[CacheInfo]
        ensures { result.now ≡ self.now.items }
    {
        match &self.places {
            Places::One(only) => std::slice::from_ref(only),
            Places::Several(all) => all,
        }
    }

    // Makes room for one more message. A refusal leaves the others.
    pub(crate) fn reserve(&mut self, alloc: Global) -> Result<(), AllocError>
        requires { length self.old.items < most_messages }
        ensures items { self.new.items ≡ self.old.items }
        ensures room { OnOk result (self.new.room ≡ true) }
    {
        match &mut self.places {
            Places::One(only) => {
                self.places = Places::Several(with_room(alloc, *only)?);
                Ok(())
            }
            Places::Several(all) => make_room(all),
        }
    }

    // Puts a message in, for which there is room, behind the others.
    pub(crate) fn push_reserved(&mut self, info: CacheInfo)
        requires { self.old.room ≡ true }
        ensures { self.new.items ≡ self.old.items ++ info ∷ [] }
    {
        match &mut self.places {
            Places::One(_) => unreachable!(),
            Places::Several(all) => all.push_reserved(info),
        }
    }

    // Keeps this message in place of the others.
    pub(crate) fn keep_one(&mut self, info: CacheInfo)
        ensures { self.new.items ≡ info ∷ [] }
    {
        self.places = Places::One(info);
    }
}

impl Clone for Infos {
    ghost is_clone = { λ infos copy. copy.items ≡ infos.items };

    fn clone(&self) -> Result<Infos, AllocError> {
        Ok(match &self.places {
            Places::One(only) => Infos::one(*only),
            Places::Several(all) => Infos::several(all.clone()?),
        })
    }
}

// The place of a message, with room for more.
fn with_room(alloc: Global, info: CacheInfo) -> Result<Vec<CacheInfo>, AllocError>
    ensures items { IfOk result (λ infos. infos.items ≡ info ∷ []) }
    ensures room { IfOk result (λ infos. vec_len infos < vec_capacity infos) }
{
    let mut infos = Vec::with_capacity(alloc, FIRST_ROOM)?;
    infos.push_reserved(info);
    Ok(infos)
}

// Makes room for one more message where there is none: for as many as a page may have.
fn make_room(infos: &mut Vec<CacheInfo>) -> Result<(), AllocError>
    requires { vec_len infos.old < most_messages }
    ensures infos { infos.new.items ≡ infos.old.items }
    ensures room { OnOk result (vec_len infos.new < vec_capacity infos.new) }
    ensures len { vec_len infos.new ≡ vec_len infos.old }
    ensures most { OnOk result
        (vec_capacity infos.new ≤ max (vec_capacity infos.old) most_messages) }
{
    let len = infos.len();
    if len < infos.capacity() {
        return Ok(());
    }
    infos.reserve_exact(PAGE_CONSOLIDATION_THRESHOLD - len)
}
