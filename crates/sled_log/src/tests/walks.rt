// All calls of a log in a row, and what they answer.

ghost use Rattle.std.specs.Prelude.{◌≡◌, ◌≢◌, [], Bool, List, true, false, length, nat_lt, slice_index_or, OnOk};
ghost use Rattle.sled_log.specs.Events.{is_open};
ghost use Rattle.std.specs.List.{Any};
ghost use Rattle.sled_log.specs.Messages.{Chain, effect_of_entry};
ghost use Rattle.sled_log.specs.Pages.{IsAt};
ghost use Rattle.sled_log.specs.LogState.{now};
ghost use Rattle.sled_log.specs.Inside.Walks.{Stands};
ghost use Rattle.sled_log.specs.declared.log.LogError.TheVariants.{WriteFault};

use super::*;
use sled_base::PageId;

// What a call answered: where a message stands and its log size, how many bytes were written, the kind and the length of
// what was read, or how many pages there are, with the links of page 1 if it has a content.
#[derive(Clone, Copy, PartialEq, Eq)]
pub(super) enum Answer {
    Placed(Lsn, DiskPtr, u64),
    Wrote(usize),
    Done,
    Read(MessageKind, usize),
    Pages(usize, Option<usize>),
    Failed(LogError),
}

// What a log says of itself.
#[derive(Clone, Copy, PartialEq, Eq)]
pub(super) struct Status {
    pub(super) reads: u64,
    pub(super) failed_reads: u64,
    pub(super) write_faults: u64,
    pub(super) batch_open: bool,
    pub(super) size: u64,
    pub(super) stable_offset: Lsn,
}

pub(super) fn status_of<L: Log>(log: &L) -> Status {
    Status {
        reads: log.reads(),
        failed_reads: log.failed_reads(),
        write_faults: log.write_faults(),
        batch_open: log.batch_open(),
        size: log.size(),
        stable_offset: log.stable_offset(),
    }
}

// How many pages there are, with the links of page 1 if it has a content.
pub(super) fn shape_of(pages: &[PageState]) -> Answer {
    let links = match pages.get(1) {
        Some(PageState::Present { frags, .. }) => Some(frags.len()),
        _ => None,
    };
    Answer::Pages(pages.len(), links)
}

// What a call answered that failed, unless nothing more can be asked of the log then.
fn fault(e: LogError) -> Result<Answer, LogError>
    ensures { OnOk result (e ≢ WriteFault) }
{
    match e {
        LogError::WriteFault => Err(e),
        LogError::Memory | LogError::Full | LogError::ReadFault | LogError::Corruption => {
            Ok(Answer::Failed(e))
        }
    }
}

// Reads a message.
fn look<L: Log>(log: &mut L, pid: PageId, lsn: Lsn, pointer: DiskPtr) -> Result<Answer, LogError>
    requires usable { (L.state log.old).usable ≡ true }
    requires known { L.tells
        → Any (IsAt lsn pointer) (slice_index_or (now effect_of_entry (L.state log.old)) pid []) }
    ensures stands { OnOk result ((batch : Bool) (chains : List Chain) → Stands L.tells L.state
        log.old batch chains → Stands L.tells L.state log.new batch chains) }
{
    match log.read(pid, lsn, pointer) {
        Ok((kind, payload)) => Ok(Answer::Read(kind, payload.len())),
        Err(e) => fault(e),
    }
}

// Recovers the pages.
fn reopen<L: Log>(log: &mut L) -> Result<Answer, LogError>
    requires usable { (L.state log.old).usable ≡ true }
    ensures stands { OnOk result ((batch : Bool) (chains : List Chain) → Stands L.tells L.state
        log.old batch chains → Stands L.tells L.state log.new batch chains) }
{
    match log.recover() {
        Ok(pages) => Ok(shape_of(&pages)),
        Err(e) => fault(e),
    }
}

// Makes each call of an empty log, up to the first that is refused. A batch of a node and a link on it is sealed, and one that
// frees the page again is cancelled.
pub(super) fn walk<L: Log>(log: &mut L, seen: &mut Vec<Answer>) -> Result<(), LogError>
    requires empty { Stands L.tells L.state log.old false [] }
{
    seal_batch(log, seen)?;
    cancel_batch(log, seen)
}

fn seal_batch<L: Log>(log: &mut L, seen: &mut Vec<Answer>) -> Result<(), LogError>
    requires empty { Stands L.tells L.state log.old false [] }
    ensures { OnOk result (((L.state log.new).usable ≡ true)
        × (is_open (L.state log.new).pending ≡ false)
        × (L.tells → nat_lt 1 (length (now effect_of_entry (L.state log.new))) ≡ true)) }
{
    let counter = log.append(MessageKind::Counter, 0, &COUNTER)?;
    seen.push(Answer::Placed(counter.0, counter.1, counter.2))?;
    let first = log.make_stable()?;
    seen.push(Answer::Wrote(first))?;
    log.pin()?;
    seen.push(Answer::Done)?;
    let (lsn, pointer, log_size) = log.append(MessageKind::InlineNode, 1, &LEAF)?;
    seen.push(Answer::Placed(lsn, pointer, log_size))?;
    let link = log.append(MessageKind::InlineLink, 1, &LINK)?;
    seen.push(Answer::Placed(link.0, link.1, link.2))?;
    let read = look(log, 1, lsn, pointer)?;
    seen.push(read)?;
    log.seal()?;
    seen.push(Answer::Done)?;
    let sealed = reopen(log)?;
    seen.push(sealed)?;
    Ok(())
}

fn cancel_batch<L: Log>(log: &mut L, seen: &mut Vec<Answer>) -> Result<(), LogError>
    requires usable { (L.state log.old).usable ≡ true }
    requires closed { is_open (L.state log.old).pending ≡ false }
    requires pages { L.tells → nat_lt 1 (length (now effect_of_entry (L.state log.old))) ≡ true }
{
    log.pin()?;
    seen.push(Answer::Done)?;
    let freed = log.append(MessageKind::Free, 1, &ROOTS)?;
    seen.push(Answer::Placed(freed.0, freed.1, freed.2))?;
    log.cancel()?;
    seen.push(Answer::Done)?;
    let last = log.make_stable()?;
    seen.push(Answer::Wrote(last))?;
    let cancelled = reopen(log)?;
    seen.push(cancelled)?;
    Ok(())
}
