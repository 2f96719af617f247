// What each log of the tests answers to all calls in a row.

ghost use Rattle.std.specs.Prelude.{[], false};
ghost use Rattle.sled_log.specs.Inside.Walks.{Stands};

use super::faulty::{Faults, FaultyLog};
use super::walks::{Answer, Status, shape_of, status_of, walk};
use super::*;

const NODE: Answer = Answer::Read(MessageKind::InlineNode, 8);

const SEALED: Answer = Answer::Pages(2, Some(1));

const CANCELLED: Answer = Answer::Pages(2, None);

// What a log answers that no device refuses anything, but for what it writes, reads and recovers.
fn answers(wrote: [usize; 2], read: Answer, recovered: [Answer; 2]) -> [Answer; 13] {
    [
        Answer::Placed(0, DiskPtr::Inline(0), 18),
        Answer::Wrote(wrote[0]),
        Answer::Done,
        Answer::Placed(18, DiskPtr::Inline(18), 25),
        Answer::Placed(43, DiskPtr::Inline(43), 22),
        read,
        Answer::Done,
        recovered[0],
        Answer::Done,
        Answer::Placed(65, DiskPtr::Inline(65), 17),
        Answer::Done,
        Answer::Wrote(wrote[1]),
        recovered[1],
    ]
}

// What it says of itself then, with so many reads that failed.
fn end(failed_reads: u64) -> Status {
    Status {
        reads: 1,
        failed_reads,
        write_faults: 0,
        batch_open: false,
        size: 82,
        stable_offset: 82,
    }
}

// Whether an empty log answers so, ends with that error, and says this of itself then.
fn is_so<L: Log>(
    alloc: Global,
    log: &mut L,
    expected: &[Answer],
    error: Option<LogError>,
    status: Status,
) -> bool
    requires empty { Stands L.tells L.state log.old false [] }
{
    let mut seen = Vec::new(alloc);
    let came = walk(log, &mut seen).err();
    seen.as_slice() == expected && came == error && status_of(log) == status
}

fn memory_is_so(alloc: Global) -> bool {
    let mut log = MemLog::new(alloc, 512, 16);
    let expected = answers([18, 64], NODE, [SEALED, CANCELLED]);
    is_so(alloc, &mut log, &expected, None, end(0))
}

fn buffered_is_so(alloc: Global) -> bool {
    let mut log = BufferedLog::new(alloc);
    let expected = answers([18, 64], NODE, [SEALED, CANCELLED]);
    is_so(alloc, &mut log, &expected, None, end(0))
}

fn eager_is_so(alloc: Global) -> bool {
    let mut log = EagerLog::new(alloc);
    let expected = answers([0, 0], NODE, [SEALED, CANCELLED]);
    is_so(alloc, &mut log, &expected, None, end(0))
}

// A device that gives what nobody wrote is found out by recover alone.
fn blind_is_so(alloc: Global) -> bool {
    let mut log = BlindLog::new(alloc, Forgetful { alloc });
    let read = Answer::Read(MessageKind::Counter, 0);
    let corrupt = Answer::Failed(LogError::Corruption);
    let expected = answers([18, 64], read, [corrupt, corrupt]);
    is_so(alloc, &mut log, &expected, None, end(0))
}

#[test]
fn each_log_answers_each_call(rt: HostRuntime) -> Result<(), Fail> {
    let alloc = rt.alloc();
    assert!(rt; memory_is_so(alloc));
    assert!(rt; buffered_is_so(alloc));
    assert!(rt; eager_is_so(alloc));
    assert!(rt; blind_is_so(alloc));
    Ok(())
}

// A call that fails to write, by its number, and whether its work is done: how many calls came before, what the log says of
// itself then, and which pages are there.
#[derive(Clone, Copy)]
struct Row {
    write: u64,
    works: bool,
    came: usize,
    batch_open: bool,
    size: u64,
    stable_offset: Lsn,
    pages: Answer,
}

fn fails(
    write: u64,
    works: bool,
    came: usize,
    batch_open: bool,
    sizes: (u64, Lsn),
    pages: (usize, Option<usize>),
) -> Row {
    Row {
        write,
        works,
        came,
        batch_open,
        size: sizes.0,
        stable_offset: sizes.1,
        pages: Answer::Pages(pages.0, pages.1),
    }
}

// The pages that a log holds.
fn pages_in(mut log: MemLog) -> Option<Answer> {
    match log.recover() {
        Ok(pages) => Some(shape_of(&pages)),
        Err(_) => None,
    }
}

fn fault_is_so(alloc: Global, row: &Row) -> bool {
    let faults = Faults {
        read: 0,
        write: row.write,
        works: row.works,
    };
    let mut log = FaultyLog::new(alloc, faults);
    let expected = answers([18, 64], NODE, [SEALED, CANCELLED]);
    let Some(expected) = expected.get(..row.came) else {
        return false;
    };
    let status = Status {
        reads: u64::from(row.came > 5),
        failed_reads: 0,
        write_faults: 1,
        batch_open: row.batch_open,
        size: row.size,
        stable_offset: row.stable_offset,
    };
    let so = is_so(
        alloc,
        &mut log,
        expected,
        Some(LogError::WriteFault),
        status,
    );
    so && pages_in(log.into_log()) == Some(row.pages)
}

#[test]
fn each_call_may_fail_to_write(rt: HostRuntime) -> Result<(), Fail> {
    let alloc = rt.alloc();
    let rows = [
        fails(1, false, 0, false, (0, 0), (0, None)),
        fails(1, true, 0, false, (18, 0), (1, None)),
        fails(2, false, 1, false, (18, 0), (1, None)),
        fails(2, true, 1, false, (18, 18), (1, None)),
        fails(3, false, 2, false, (18, 18), (1, None)),
        fails(3, true, 2, true, (18, 18), (1, None)),
        fails(4, false, 3, true, (18, 18), (1, None)),
        fails(4, true, 3, true, (43, 18), (2, Some(0))),
        fails(5, false, 4, true, (43, 18), (2, Some(0))),
        fails(5, true, 4, true, (65, 18), (2, Some(1))),
        fails(6, false, 6, true, (65, 18), (2, Some(1))),
        fails(6, true, 6, false, (65, 18), (2, Some(1))),
        fails(7, false, 8, false, (65, 18), (2, Some(1))),
        fails(7, true, 8, true, (65, 18), (2, Some(1))),
        fails(8, false, 9, true, (65, 18), (2, Some(1))),
        fails(8, true, 9, true, (82, 18), (2, None)),
        fails(9, false, 10, true, (82, 18), (2, None)),
        fails(9, true, 10, false, (82, 18), (2, None)),
        fails(10, false, 11, false, (82, 18), (2, None)),
        fails(10, true, 11, false, (82, 82), (2, None)),
    ];
    for row in &rows {
        assert!(rt; fault_is_so(alloc, row), "call {}", row.write);
    }
    Ok(())
}

// A read that fails adds nothing, and the calls after it are answered.
fn failed_read_is_so(alloc: Global) -> bool {
    let faults = Faults {
        read: 1,
        write: 0,
        works: false,
    };
    let mut log = FaultyLog::new(alloc, faults);
    let read = Answer::Failed(LogError::ReadFault);
    let expected = answers([18, 64], read, [SEALED, CANCELLED]);
    is_so(alloc, &mut log, &expected, None, end(1))
}

#[test]
fn a_read_may_fail(rt: HostRuntime) -> Result<(), Fail> {
    assert!(rt; failed_read_is_so(rt.alloc()));
    Ok(())
}
