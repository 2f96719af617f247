// Calls of the log in memory, and what it answers.

use super::walks::Answer;
use super::*;
use sled_base::PageId;

// A call of the log in memory.
#[derive(Clone, Copy)]
enum Call {
    Append(MessageKind, PageId, &'static [u8]),
    MakeStable,
    Pin,
    Seal,
    Cancel,
}

// A call, what it answers, and the log behind it: its size, how far it is durable, whether a batch is open, and how many of
// the pending events, from none on, a crash may keep.
#[derive(Clone, Copy)]
struct Step(Call, Answer, (u64, Lsn, bool), &'static [bool]);

// Where the content of a page was put, and its links, or none where the page is free.
type Page = Option<((Lsn, DiskPtr, u64), usize)>;

// What is shown, the greatest payload that is no blob, calls of an empty log, and the pages that they make.
type Script = (&'static str, usize, &'static [Step], &'static [Page]);

const ROOTS_AT_0: Step = Step(
    Call::Append(MessageKind::InlineMeta, 0, &ROOTS),
    Answer::Placed(0, DiskPtr::Inline(0), 17),
    (17, 0, false),
    &[true, true, false],
);

const COUNTER_AT_17: Step = Step(
    Call::Append(MessageKind::Counter, 1, &COUNTER),
    Answer::Placed(17, DiskPtr::Inline(17), 18),
    (35, 0, false),
    &[true, true, true, false],
);

const LEAF_AT_0: Step = Step(
    Call::Append(MessageKind::InlineNode, 0, &LEAF),
    Answer::Placed(0, DiskPtr::Inline(0), 25),
    (25, 0, false),
    &[true, true, false],
);

const LINK_AT_25: Step = Step(
    Call::Append(MessageKind::InlineLink, 0, &LINK),
    Answer::Placed(25, DiskPtr::Inline(25), 22),
    (47, 0, false),
    &[true, true, true, false],
);

const BATCH: Step = Step(Call::Pin, Answer::Done, (0, 0, true), &[true, false, false]);

const LEAF_IN_BATCH: Step = Step(
    Call::Append(MessageKind::InlineNode, 0, &LEAF),
    Answer::Placed(0, DiskPtr::Inline(0), 25),
    (25, 0, true),
    &[true, false, false],
);

const SEAL: Step = Step(
    Call::Seal,
    Answer::Done,
    (25, 0, false),
    &[true, false, false, true],
);

const CANCEL: Step = Step(
    Call::Cancel,
    Answer::Done,
    (25, 0, false),
    &[true, true, true, true],
);

const LEAF_ALONE: &[Page] = &[Some(((0, DiskPtr::Inline(0), 25), 0))];

const SCRIPTS: &[Script] = &[
    (
        "a message stands where the others end",
        4,
        &[
            ROOTS_AT_0,
            COUNTER_AT_17,
            Step(
                Call::Append(MessageKind::InlineNode, 2, &LEAF),
                Answer::Placed(35, DiskPtr::Blob(35, 35), 25),
                (60, 0, false),
                &[true, true, true, true, false],
            ),
        ],
        &[
            Some(((0, DiskPtr::Inline(0), 17), 0)),
            Some(((17, DiskPtr::Inline(17), 18), 0)),
            Some(((35, DiskPtr::Blob(35, 35), 25), 0)),
        ],
    ),
    (
        "what is pending becomes stable",
        512,
        &[
            ROOTS_AT_0,
            COUNTER_AT_17,
            Step(
                Call::MakeStable,
                Answer::Wrote(35),
                (35, 35, false),
                &[true, false],
            ),
            Step(
                Call::Append(MessageKind::InlineNode, 2, &LEAF),
                Answer::Placed(35, DiskPtr::Inline(35), 25),
                (60, 35, false),
                &[true, true, false],
            ),
            Step(
                Call::MakeStable,
                Answer::Wrote(25),
                (60, 60, false),
                &[true, false],
            ),
        ],
        &[
            Some(((0, DiskPtr::Inline(0), 17), 0)),
            Some(((17, DiskPtr::Inline(17), 18), 0)),
            Some(((35, DiskPtr::Inline(35), 25), 0)),
        ],
    ),
    (
        "a crash keeps a prefix",
        512,
        &[LEAF_AT_0, LINK_AT_25],
        &[Some(((0, DiskPtr::Inline(0), 25), 1))],
    ),
    (
        "a crash splits no batch",
        512,
        &[BATCH, LEAF_IN_BATCH, SEAL],
        LEAF_ALONE,
    ),
    (
        "a crash may keep part of a cancelled batch",
        512,
        &[BATCH, LEAF_IN_BATCH, CANCEL],
        LEAF_ALONE,
    ),
    (
        "pages are recovered by their chains",
        512,
        &[
            LEAF_AT_0,
            LINK_AT_25,
            Step(
                Call::Append(MessageKind::InlineNode, 1, &LEAF),
                Answer::Placed(47, DiskPtr::Inline(47), 25),
                (72, 0, false),
                &[true, true, true, true, false],
            ),
            Step(
                Call::Append(MessageKind::Free, 1, &ROOTS),
                Answer::Placed(72, DiskPtr::Inline(72), 17),
                (89, 0, false),
                &[true, true, true, true, true, false],
            ),
        ],
        &[Some(((0, DiskPtr::Inline(0), 25), 1)), None],
    ),
];

// Makes a call, and gives what it answers, or none where it can't be made.
fn answer(log: &mut MemLog, call: Call) -> Result<Option<Answer>, LogError> {
    Ok(match call {
        Call::Append(kind, pid, payload) => {
            let (lsn, pointer, log_size) = log.append(kind, pid, payload)?;
            Some(Answer::Placed(lsn, pointer, log_size))
        }
        Call::MakeStable if !log.batch_open() => Some(Answer::Wrote(log.make_stable()?)),
        Call::Pin if !log.batch_open() => {
            log.pin()?;
            Some(Answer::Done)
        }
        Call::Seal if log.batch_open() => {
            log.seal()?;
            Some(Answer::Done)
        }
        Call::Cancel if log.batch_open() => {
            log.cancel()?;
            Some(Answer::Done)
        }
        _ => None,
    })
}

// Whether a crash may keep just these numbers of the pending events.
fn are_fair(log: &MemLog, cuts: &[bool]) -> bool {
    for (n, is_fair) in cuts.iter().enumerate() {
        if log.is_fair(n) != *is_fair {
            return false;
        }
    }
    true
}

fn takes_step(log: &mut MemLog, step: &Step) -> Result<bool, LogError> {
    let Step(call, wanted, told, cuts) = step;
    if answer(log, *call)? != Some(*wanted) {
        return Ok(false);
    }
    Ok((log.size(), log.stable_offset(), log.batch_open()) == *told && are_fair(log, cuts))
}

fn takes_steps(log: &mut MemLog, steps: &[Step]) -> Result<bool, LogError> {
    for step in steps {
        if !takes_step(log, step)? {
            return Ok(false);
        }
    }
    Ok(true)
}

fn is_page(page: &PageState, want: &Page) -> bool {
    match (page, want) {
        (PageState::Present { base, frags }, Some((place, links))) => {
            base == place && frags.len() == *links
        }
        (PageState::Free(_, _), None) => true,
        _ => false,
    }
}

fn are_pages(pages: &[PageState], want: &[Page]) -> bool {
    if pages.len() != want.len() {
        return false;
    }
    for i in 0..want.len() {
        if !is_page(&pages[i], &want[i]) {
            return false;
        }
    }
    true
}

fn takes_script(alloc: Global, script: &Script) -> Result<bool, LogError> {
    let (_, blob_limit, steps, pages) = script;
    let mut log = MemLog::new(alloc, *blob_limit, 16);
    if !takes_steps(&mut log, steps)? {
        return Ok(false);
    }
    Ok(are_pages(&log.recover()?, pages))
}

#[test]
fn the_log_in_memory_answers_each_call(rt: HostRuntime) -> Result<(), Fail> {
    for script in SCRIPTS {
        assert!(rt; takes_script(rt.alloc(), script)?, "{}", script.0);
    }
    Ok(())
}
