// Whether a log on a disk holds no page, durable or pending.

ghost use Rattle.std.specs.Prelude.{◌≡◌, true, IfSome};

use super::room::KeepingDisk;
use super::*;
use sled_base::MessageKind;

type Kept = DiskLog<KeepingDisk>;

const LEAF: [u8; 8] = [0; 8];

enum Step {
    // a leaf on page 0
    Append,
    // a batch with nothing in it
    Batch,
    // the same, which is cancelled
    Cancelled,
    Flush,
    Reopen,
}

use Step::*;

// Steps from a new log on, and whether it holds no page then.
const ROWS: &[(&[Step], bool)] = &[
    (&[], true),
    (&[Reopen], true),
    (&[Batch], true),
    (&[Batch, Flush], true),
    (&[Batch, Flush, Reopen], true),
    (&[Cancelled, Flush, Reopen], true),
    (&[Append], false),
    (&[Append, Append], false),
    (&[Append, Flush], false),
    (&[Append, Flush, Reopen], false),
    (&[Append, Reopen], true),
    (&[Batch, Append], false),
];

// The log of a disk.
fn opened(alloc: Global, disk: KeepingDisk) -> Option<Kept>
    ensures { IfSome result (λ log. log.usable ≡ true) }
{
    match DiskLog::open(alloc, disk, 4096, 0) {
        Ok(log) => Some(log),
        Err(_) => None,
    }
}

// A log, after a step more. There is none where that was refused.
fn taken(alloc: Global, mut log: Kept, step: &Step) -> Option<Kept>
    requires usable { log.usable ≡ true }
    ensures { IfSome result (λ log. log.usable ≡ true) }
{
    if log.batch_open() {
        return None;
    }
    match step {
        Append => {
            log.append(MessageKind::InlineNode, 0, &LEAF).ok()?;
        }
        Batch => {
            log.pin().ok()?;
            log.seal().ok()?;
        }
        Cancelled => {
            log.pin().ok()?;
            log.cancel().ok()?;
        }
        Flush => {
            log.make_stable().ok()?;
        }
        Reopen => return opened(alloc, log.into_disk()),
    }
    Some(log)
}

// Whether a log holds no page behind these steps, each over the log that the one before it left.
fn is_empty_behind(alloc: Global, steps: &[Step]) -> Option<bool> {
    let mut disk = KeepingDisk::new(alloc).ok()?;
    DiskLog::create(&mut disk).ok()?;
    let mut log = opened(alloc, disk)?;
    for step in steps {
        log = taken(alloc, log, step)?;
    }
    Some(log.is_empty())
}

#[test]
fn a_log_holds_no_page(rt: HostRuntime) {
    for (steps, empty) in ROWS {
        assert_eq!(rt; is_empty_behind(rt.alloc(), steps), Some(*empty));
    }
}
