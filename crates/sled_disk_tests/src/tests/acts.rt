// Calls of a log over a disk that tells nothing, as data.

ghost use Rattle.std.specs.Prelude.{◌≡◌, true, false, IsTrue, IfSome};
ghost use Rattle.sled_log.specs.Calls.{is_write_fault};

use super::*;
use sled_base::{MessageKind, PageId};

#[derive(Clone, Copy)]
pub(super) enum Act {
    // a message of a page, with a payload of so many bytes
    Append(MessageKind, PageId, usize),
    Flush,
    Pin,
    Seal,
    Cancel,
}

use Act::{Append, Cancel, Flush, Pin, Seal};

#[derive(Clone, Copy, Debug, PartialEq, Eq)]
pub(super) enum Answer {
    Made,
    // memory was refused
    Unmade,
    // the log is full
    Full,
}

use Answer::{Full, Made, Unmade};

pub(super) const PAYLOAD: [u8; 60] = [7; 60];

// What a call answered, if it isn't another fault.
fn answer_of<T: Drop>(answer: Result<T, LogError>) -> Option<Answer>
    ensures { IfSome result (λ _. is_write_fault answer ≡ false) }
{
    match answer {
        Ok(_) => Some(Made),
        Err(LogError::Memory) => Some(Unmade),
        Err(LogError::Full) => Some(Full),
        Err(_) => None,
    }
}

// Calls a log, and says what that answers; and none where the log says that a batch is open, or that none is, and the call wants another.
pub(super) fn answers<D: Disk>(log: &mut DiskLog<D>, act: Act) -> Option<Answer>
    requires silent { D.tells → ⊥ }
    requires usable { log.old.usable ≡ true }
    ensures { IfSome result (λ _. log.new.usable ≡ true) }
{
    match act {
        Append(kind, pid, len) => answer_of(log.append(kind, pid, PAYLOAD.get(..len)?)),
        Flush if !log.batch_open() => answer_of(log.make_stable()),
        Pin if !log.batch_open() => answer_of(log.pin()),
        Seal if log.batch_open() => answer_of(log.seal()),
        Cancel if log.batch_open() => answer_of(log.cancel()),
        _ => None,
    }
}

// Calls a log, and says whether that succeeds. An append and a pin may be refused memory, and are called again then; all else takes none.
pub(super) fn acts<D: Disk>(log: &mut DiskLog<D>, act: Act) -> bool
    requires silent { D.tells → ⊥ }
    requires usable { log.old.usable ≡ true }
    ensures { IsTrue result → log.new.usable ≡ true }
{
    match answers(log, act) {
        Some(Made) => true,
        Some(Unmade) if matches!(act, Append(..) | Pin) => answers(log, act) == Some(Made),
        _ => false,
    }
}

// Calls a log so, one call after the other.
pub(super) fn acts_all<D: Disk>(log: &mut DiskLog<D>, calls: &[Act]) -> bool
    requires silent { D.tells → ⊥ }
    requires usable { log.old.usable ≡ true }
    ensures { IsTrue result → log.new.usable ≡ true }
{
    for act in calls {
        if !acts(log, *act) {
            return false;
        }
    }
    true
}
