//! A crew: one thread for each share, which draws ids.

ghost use Rattle.std.specs.Prelude.{◌≡◌, ◌+◌, ◌≤◌, ◌++◌, [], true, map, vec_len, vec_capacity, IfErr, IfNone, IfOk, IfSome, if◌then◌else◌};
ghost use Rattle.sled_shared.specs.Held.{count_of};

use crate::handle::SharedPageCache;
use crate::share::{Share, Tally};
use sled_base::Error;
use sled_log::Log;
use std::alloc::{AllocError, Global};
use std::sync::{Arc, Wait};
use std::thread;
use std::thread::{Promise, PromisedHandle, Threads};

/// What a crew calls before and after each call that it makes.
pub trait Gate: Drop {
    /// Is called when a worker is about to make a call.
    fn before(&self, worker: usize, call: u64);

    /// Is called when a worker has made a call.
    fn after(&self, worker: usize, call: u64);
}

// What a worker ends with.
#[derive(Drop)]
struct Report<K: Tally> {
    share: Share<K>,
    refusal: Option<Error>,
}

// What a worker promises: its share counts so many calls more, unless one was refused.
#[derive(Clone, Copy)]
struct Raised {
    from: u64,
    by: u64,
}

impl<K: Tally> Promise<Report<K>> for Raised {
    ghost kept_by = { λ p r. IfNone r.refusal (count_of r.share ≡ p.from + p.by) };
}

// Makes the calls of one worker. It ends at the first refusal.
fn work<L: Log, K: Tally, G: Gate, R: Wait>(
    rt: &R,
    shared: &SharedPageCache<L, K>,
    gate: &G,
    worker: usize,
    calls: u64,
    share: Share<K>,
) -> Report<K>
    ensures { IfNone result.refusal (count_of result.share ≡ count_of share + calls) }
{
    let mut share = share;
    for call in 0..calls {
        gate.before(worker, call);
        let answer = shared.generate_id(rt, &mut share);
        gate.after(worker, call);
        if let Err(e) = answer {
            return Report {
                share,
                refusal: Some(e),
            };
        }
    }
    Report {
        share,
        refusal: None,
    }
}

// Starts a worker, if a thread is to be had.
fn start<
    L: Log + Send + 'static,
    K: Tally + Send + Sync + 'static,
    G: Gate + Send + Sync + 'static,
    R: Threads + Wait + Copy + Send + 'static,
>(
    rt: R,
    shared: &Arc<SharedPageCache<L, K>>,
    gate: &Arc<G>,
    worker: usize,
    calls: u64,
    share: Share<K>,
) -> Option<PromisedHandle<Report<K>, Raised>>
    ensures { IfSome result (λ started. (started.promise.from ≡ count_of share)
        × (started.promise.by ≡ calls)) }
{
    let shared = Arc::try_clone(shared).ok()?;
    let gate = Arc::try_clone(gate).ok()?;
    let promise = Raised {
        from: share.count(),
        by: calls,
    };
    let job = move || -> Report<K>
        ensures { IfNone result.refusal (count_of result.share ≡ count_of share + calls) }
    { work(&rt, &*shared, &*gate, worker, calls, share) };
    thread::spawn_with(&rt, promise, job).ok()
}

// The room of a crew: the workers that run, the shares of those that weren't started, and the shares that came back.
#[derive(Drop)]
struct Room<K: Tally> {
    running: Vec<PromisedHandle<Report<K>, Raised>>,
    left: Vec<Share<K>>,
    back: Vec<Share<K>>,
}

fn make_room<K: Tally>(alloc: Global, workers: usize) -> Result<Room<K>, AllocError>
    ensures none { IfOk result (λ room. (room.running.items ≡ []) × (vec_len room.running ≡ 0)
        × (vec_len room.left ≡ 0) × (room.back.items ≡ []) × (vec_len room.back ≡ 0)) }
    ensures room { IfOk result (λ room. (workers ≤ vec_capacity room.running)
        × (workers ≤ vec_capacity room.left) × (workers ≤ vec_capacity room.back)) }
{
    let running = Vec::with_capacity(alloc, workers)?;
    let left = Vec::with_capacity(alloc, workers)?;
    let back = Vec::with_capacity(alloc, workers)?;
    Ok(Room {
        running,
        left,
        back,
    })
}

// Starts a worker for each share. Where a thread can't be started its share is lost, and those behind it are left.
fn start_all<
    L: Log + Send + 'static,
    K: Tally + Send + Sync + 'static,
    G: Gate + Send + Sync + 'static,
    R: Threads + Wait + Copy + Send + 'static,
>(
    rt: R,
    shared: &Arc<SharedPageCache<L, K>>,
    gate: &Arc<G>,
    calls: u64,
    shares: Vec<Share<K>>,
    running: &mut Vec<PromisedHandle<Report<K>, Raised>>,
    left: &mut Vec<Share<K>>,
) -> bool
    requires none { (running.old.items ≡ []) × (vec_len running.old ≡ 0) × (vec_len left.old ≡ 0) }
    requires room { (vec_len shares ≤ vec_capacity running.old)
        × (vec_len shares ≤ vec_capacity left.old) }
    ensures promised { result ≡ true → map (λ started. started.promise.from + started.promise.by)
        running.new.items ≡ map (λ share. count_of share + calls) shares.items }
    ensures len { vec_len running.new + vec_len left.new + (if result then 0 else 1)
        ≡ vec_len shares }
{
    let mut all = true;
    for share in shares {
        if !all {
            left.push_reserved(share);
            continue;
        }
        match start(rt, shared, gate, running.len(), calls, share) {
            Some(started) => running.push_reserved(started),
            None => all = false,
        }
    }
    all
}

// Waits for the workers, and puts their shares behind the others. It answers the first refusal among them.
fn join_all<K: Tally, R: Threads>(
    rt: &R,
    running: Vec<PromisedHandle<Report<K>, Raised>>,
    back: &mut Vec<Share<K>>,
) -> Option<Error>
    requires { vec_len back.old + vec_len running ≤ vec_capacity back.old }
    ensures raised { IfNone result (map (λ share. count_of share) back.new.items ≡ map (λ share. count_of share) back.old.items ++ map
        (λ started. started.promise.from + started.promise.by) running.items) }
    ensures len { vec_len back.new ≡ vec_len back.old + vec_len running }
    ensures capacity { vec_capacity back.new ≡ vec_capacity back.old }
{
    let mut first = None;
    for started in running {
        let Report { share, refusal } = started.join(rt);
        back.push_reserved(share);
        if first.is_none() {
            first = refusal;
        }
    }
    first
}

/// Starts a worker for each share, which draws `calls` ids, and waits for all of them. It returns the shares in their order.
///
/// A worker ends at its first error. If workers had errors, the error of the first such worker is returned, with the shares. If a thread can't be
/// started, its share is lost, and no later worker is started; the error is `OutOfMemory`, unless a worker had one. If there is no memory for
/// the crew, `OutOfMemory` is returned with all shares, and no worker is started.
pub fn run_crew<
    L: Log + Send + 'static,
    K: Tally + Send + Sync + 'static,
    G: Gate + Send + Sync + 'static,
    R: Threads + Wait + Copy + Send + 'static,
>(
    rt: R,
    alloc: Global,
    shared: Arc<SharedPageCache<L, K>>,
    shares: Vec<Share<K>>,
    calls: u64,
    gate: Arc<G>,
) -> Result<Vec<Share<K>>, (Error, Vec<Share<K>>)>
    ensures raised { IfOk result (λ back. map (λ share. count_of share) back.items ≡ map (λ share. count_of share + calls) shares.items) }
    ensures lost { IfErr result (λ e. vec_len shares ≤ vec_len e.1 + 1) }
{
    let Ok(room) = make_room(alloc, shares.len()) else {
        return Err((Error::OutOfMemory, shares));
    };
    let Room {
        mut running,
        mut left,
        mut back,
    } = room;
    let all = start_all(rt, &shared, &gate, calls, shares, &mut running, &mut left);
    let refusal = join_all(&rt, running, &mut back);
    if all && refusal.is_none() {
        return Ok(back);
    }
    for share in left {
        back.push_reserved(share);
    }
    Err((refusal.unwrap_or(Error::OutOfMemory), back))
}
