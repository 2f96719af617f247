// Caches over a log whose device tells nothing of its bytes: it gives the pages and the messages that it was told to give.

ghost use Rattle.std.specs.Prelude.{⊤, ◌≡◌, [], pos, false, true, Some};
ghost use Rattle.sled_log.specs.Inside.Marks.{marks};

use super::*;
use sled_pagecache_testing::failing::one_more;

// A message of a page: its kind and its payload.
pub(super) type Message = (MessageKind, &'static [u8]);

// A page as the log says it: free, or of these messages.
#[derive(Clone, Copy, Debug)]
enum Said {
    Freed,
    Of(&'static [Message]),
}

// A log of two system pages, and of page 2 with an empty leaf behind it or of no other. Nothing can be appended to it, and the
// first message of page 2 is always due to be moved.
#[derive(Drop)]
pub(super) struct ToldLog {
    alloc: Global,
    roots: Said,
    counter: Said,
    page: Option<Said>,
    batch: bool,
    reads: u64,
}

impl ToldLog {
    fn new(alloc: Global, roots: Said, counter: Said, page: Option<Said>) -> ToldLog
        ensures { result.batch ≡ false }
    {
        ToldLog {
            alloc,
            roots,
            counter,
            page,
            batch: false,
            reads: 0,
        }
    }

    // The page at an id, if there is one.
    fn said(&self, pid: u64) -> Option<Said> {
        match pid {
            0 => Some(self.roots),
            1 => Some(self.counter),
            2 => self.page,
            3 => self.page.map(|_| Said::Of(&[LEAF])),
            _ => None,
        }
    }

    // The message that is kept there, if there is one.
    fn message_at(&self, at: u64) -> Option<Message> {
        match self.said(at / 100)? {
            Said::Freed => None,
            Said::Of(messages) => messages.get((at % 100) as usize).copied(),
        }
    }
}

// How the log keeps a message of a page, by its number from 0 on: at 100 times the id, and the number. It tells no lsn.
fn entry_of(pid: u64, number: u64) -> (Lsn, DiskPtr, u64) {
    let at = pid.saturating_mul(100).saturating_add(number);
    (0, DiskPtr::Inline(at), 17)
}

// The page as the log says it.
fn state_of(alloc: Global, pid: u64, said: Said) -> Result<PageState, AllocError> {
    let (lsn, pointer, _) = entry_of(pid, 0);
    let messages = match said {
        Said::Freed => return Ok(PageState::Free(lsn, pointer)),
        Said::Of(messages) => messages,
    };
    let mut frags = Vec::new(alloc);
    for number in 1..messages.len() as u64 {
        frags.push(entry_of(pid, number))?;
    }
    Ok(PageState::Present {
        base: entry_of(pid, 0),
        frags,
    })
}

impl Log for ToldLog {
    ghost tells = { ⊥ };

    ghost state = { λ log. record { stable = []; pending = marks log.batch; usable = true } };

    ghost moment = { λ log. 0 };

    ghost left_since = { λ log t pages. ⊤ };

    ghost counts = { λ log. record { reads = log.reads; failed_reads = 0; write_faults = 0 } };

    ghost bytes = { λ log. 0 };

    ghost stable_bytes = { λ log. pos 0 };

    ghost to_write = { λ log. 0 };

    ghost is_full = { λ _ _. ⊤ };

    ghost is_full_for_batch = { λ _. ⊥ };

    ghost due = { λ _. Some (2, 200) };

    ghost due_is_held = { λ log pid place told. absurd told };

    ghost keeps_stable = { λ log told. absurd told };

    ghost only_now = { λ log pages told. absurd told };

    ghost since_earlier = { λ log t u pages told. absurd told };

    fn append(
        &mut self,
        _kind: MessageKind,
        _pid: PageId,
        _payload: &[u8],
    ) -> Result<(Lsn, DiskPtr, u64), LogError> {
        Err(LogError::Full)
    }

    fn read(
        &mut self,
        _pid: PageId,
        _lsn: Lsn,
        pointer: DiskPtr,
    ) -> Result<(MessageKind, Vec<u8>), LogError> {
        self.reads = one_more(self.reads);
        let Some((kind, payload)) = self.message_at(pointer.lid()) else {
            return Err(LogError::Corruption);
        };
        Ok((kind, Vec::from_slice(self.alloc, payload)?))
    }

    fn make_stable(&mut self) -> Result<usize, LogError> {
        Ok(0)
    }

    fn pin(&mut self) -> Result<(), LogError> {
        self.batch = true;
        Ok(())
    }

    fn seal(&mut self) -> Result<(), LogError> {
        self.batch = false;
        Ok(())
    }

    fn cancel(&mut self) -> Result<(), LogError> {
        self.batch = false;
        Ok(())
    }

    fn to_move(&mut self) -> Option<(PageId, LogOffset)> {
        Some((2, 200))
    }

    fn rewrite_blob_pointer(
        &mut self,
        _pid: PageId,
        _blob: BlobPointer,
    ) -> Result<(Lsn, DiskPtr, u64), LogError> {
        Err(LogError::Full)
    }

    fn recover(&mut self) -> Result<Vec<PageState>, LogError> {
        let mut pages = Vec::new(self.alloc);
        for pid in 0..4 {
            if let Some(said) = self.said(pid) {
                pages.push(state_of(self.alloc, pid, said)?)?;
            }
        }
        Ok(pages)
    }

    fn batch_open(&self) -> bool {
        self.batch
    }

    fn stable_offset(&self) -> Lsn {
        0
    }

    fn size(&self) -> u64 {
        0
    }

    fn reads(&self) -> u64 {
        self.reads
    }

    fn failed_reads(&self) -> u64 {
        0
    }

    fn write_faults(&self) -> u64 {
        0
    }
}

// ---- messages

const ROOTS: Said = Said::Of(&[(MessageKind::InlineMeta, &[])]);

const COUNTER: Said = Said::Of(&[(MessageKind::Counter, &[0])]);

// A leaf without pairs, and links: one sets "b" to "v", one is cut off and one goes on, one is accepted only where a merge was
// intended, and one has a byte too many.
pub(super) const LEAF: Message = (MessageKind::InlineNode, &[0; 8]);

const SET: Message = (MessageKind::InlineLink, &[0, 1, 98, 1, 118]);

pub(super) const SHORT_SET: Message = (MessageKind::InlineLink, &[0, 1, 98, 1]);

const LONG_SET: Message = (MessageKind::InlineLink, &[0, 1, 98, 1, 118, 0]);

pub(super) const CONFIRM: Message = (MessageKind::InlineLink, &[3]);

pub(super) const LONG_CAP: Message = (MessageKind::InlineLink, &[4, 0]);

pub(super) const LONG_LEAF: Message = (MessageKind::InlineNode, &[0; 9]);

const SHORT_LEAF: Message = (MessageKind::BlobNode, &[0; 7]);

const BLOB_SET: Message = (MessageKind::BlobLink, &[0, 1, 98, 1, 118]);

const LONG_BLOB_SET: Message = (MessageKind::BlobLink, &[0, 1, 98, 1, 118, 0]);

// The payload of that link, as a message that is none.
const NO_LINK: Message = (MessageKind::Counter, &[0, 1, 98, 1, 118]);

// It begins a merge of its node into another one, which then takes no link.
const CAP: Message = (MessageKind::InlineLink, &[4]);

// A leaf without pairs from "c" on, and an index without pairs.
const LEAF_FROM_C: Message = (MessageKind::InlineNode, &[0, 0, 0, 0, 1, 99, 0, 0, 0]);

const INDEX: Message = (MessageKind::InlineNode, &[0, 0, 0, 0, 0, 0, 1, 0]);

// ---- a page of such messages, between the system pages and an empty leaf

// What a get of page 2 answers: a leaf of the pair, the message that doesn't belong there, or that a free page was read.
#[derive(Clone, Copy, Debug, PartialEq, Eq)]
pub(super) enum Answer {
    Pair,
    Wrong(u64),
    Free,
}

pub(super) const PAGES: &[(&[Message], Answer)] = &[
    (&[LEAF, SET], Answer::Pair),
    (&[LEAF, BLOB_SET], Answer::Pair),
    (&[LONG_LEAF], Answer::Wrong(200)),
    (&[SHORT_LEAF], Answer::Wrong(200)),
    (&[SET], Answer::Wrong(200)),
    (&[(MessageKind::Counter, &[0])], Answer::Wrong(200)),
    (&[(MessageKind::Free, &[])], Answer::Free),
    (&[LEAF, SHORT_SET], Answer::Wrong(201)),
    (&[LEAF, LONG_CAP], Answer::Wrong(201)),
    (&[LEAF, LEAF], Answer::Wrong(201)),
    (&[LEAF, CONFIRM], Answer::Wrong(201)),
    (&[LONG_LEAF, SET, SET, SET], Answer::Wrong(200)),
    (&[SHORT_LEAF, SET, SET, SET], Answer::Wrong(200)),
    (&[LEAF, CONFIRM, SET, SET], Answer::Wrong(201)),
    (&[LEAF, SET, LONG_SET, CONFIRM], Answer::Wrong(202)),
    (&[LEAF, SET, SET, CONFIRM], Answer::Wrong(203)),
    (&[LEAF, SET, BLOB_SET, SET], Answer::Pair),
    (&[LEAF, LONG_BLOB_SET], Answer::Wrong(201)),
    (&[LEAF, NO_LINK], Answer::Wrong(201)),
    (&[LEAF, CAP, SET], Answer::Wrong(202)),
    (&[LEAF_FROM_C, SET], Answer::Wrong(201)),
    (&[INDEX, SET], Answer::Wrong(201)),
    (&[LEAF, LONG_SET, SET], Answer::Wrong(201)),
];

pub(super) type Told = PageCache<ToldLog>;

fn opened_over(
    alloc: Global,
    roots: Said,
    counter: Said,
    page: Option<Said>,
) -> Result<Told, Error> {
    let log = ToldLog::new(alloc, roots, counter, page);
    PageCache::start(alloc, CONFIG, log).map_err(|refused| refused.0)
}

// A cache over a log with page 2 of these messages.
pub(super) fn opened(alloc: Global, messages: &'static [Message]) -> Option<Told> {
    opened_over(alloc, ROOTS, COUNTER, Some(Said::Of(messages))).ok()
}

pub(super) fn got<L: Log>(cache: &mut PageCache<L>) -> Option<Answer> {
    match cache.get(2) {
        Ok(Some(view)) => is_pair(view.node(), b"b", b"v").then_some(Answer::Pair),
        Err(Refusal::Corruption(Some(place))) => Some(Answer::Wrong(place.lid())),
        Err(Refusal::ReportableBug(Bug::FreeInPull)) => Some(Answer::Free),
        _ => None,
    }
}

// Whether a link of page 2 reports the same, where a get doesn't lend it.
fn links_so(cache: &mut Told, wanted: Answer) -> bool {
    match cache.link(2, PageView::new(2, 0), Link::ChildMergeCap) {
        Err(Error::Corruption(Some(place))) => wanted == Answer::Wrong(place.lid()),
        Err(Error::ReportableBug(Bug::FreeInPull)) => wanted == Answer::Free,
        Err(Error::Unsupported(Why::LogFull)) => wanted == Answer::Pair,
        _ => false,
    }
}

// Whether page 2 is answered so twice, and page 3 is lent.
fn answers_so(cache: &mut Told, wanted: Answer) -> bool {
    for _ in 0..2 {
        if got(cache) != Some(wanted) || !links_so(cache, wanted) {
            return false;
        }
    }
    matches!(cache.get(3), Ok(Some(_)))
}

fn is_answered(alloc: Global, messages: &'static [Message], wanted: Answer) -> bool {
    match opened(alloc, messages) {
        Some(mut cache) => answers_so(&mut cache, wanted),
        None => false,
    }
}

#[test]
fn a_page_is_what_its_messages_make_or_reported_by_the_first_wrong_one(rt: HostRuntime) {
    for (messages, wanted) in PAGES {
        assert!(rt; is_answered(rt.alloc(), messages, *wanted), "{messages:?}");
    }
}

// How often the log was read once page 2 was asked for so often.
fn reads_after(alloc: Global, gets: u32) -> Option<u64> {
    let mut cache = opened(alloc, &[LEAF, SET])?;
    for _ in 0..gets {
        if got(&mut cache) != Some(Answer::Pair) {
            return None;
        }
    }
    log_of(cache).map(|log| log.reads())
}

#[test]
fn a_page_is_read_from_its_log_once(rt: HostRuntime) {
    for (gets, reads) in [(0, 2), (1, 4), (2, 4)] {
        assert_eq!(rt; reads_after(rt.alloc(), gets), Some(reads), "{gets} gets");
    }
}

// ---- pages that no cache leaves so

const LINKED_ROOTS: Said = Said::Of(&[(MessageKind::InlineMeta, &[]), SET]);

const LINKED_COUNTER: Said = Said::Of(&[(MessageKind::Counter, &[0]), SET]);

const TEN: Said = Said::Of(&[LEAF, SET, SET, SET, SET, SET, SET, SET, SET, SET]);

const ELEVEN: Said = Said::Of(&[LEAF, SET, SET, SET, SET, SET, SET, SET, SET, SET, SET]);

// The system pages and page 2, and where the first message is of the first that no cache leaves so, if there is one.
const SAID: &[(Said, Said, Option<Said>, Option<u64>)] = &[
    (ROOTS, COUNTER, None, None),
    (Said::Freed, Said::Freed, None, Some(0)),
    (Said::Freed, COUNTER, None, Some(0)),
    (ROOTS, Said::Freed, None, Some(100)),
    (LINKED_ROOTS, COUNTER, None, Some(0)),
    (ROOTS, LINKED_COUNTER, None, Some(100)),
    (ROOTS, COUNTER, Some(Said::Freed), None),
    (ROOTS, COUNTER, Some(Said::Of(&[LEAF, SET])), None),
    (ROOTS, COUNTER, Some(TEN), None),
    (ROOTS, COUNTER, Some(ELEVEN), Some(200)),
];

// Whether the opening of a cache over these pages finds a misfit there, or none and opens one.
fn is_misfit(
    alloc: Global,
    roots: Said,
    counter: Said,
    page: Option<Said>,
    wanted: Option<u64>,
) -> bool {
    match opened_over(alloc, roots, counter, page) {
        Ok(_) => wanted.is_none(),
        Err(Error::Corruption(Some(place))) => wanted == Some(place.lid()),
        Err(_) => false,
    }
}

#[test]
fn a_page_that_no_cache_leaves_so_is_reported_at_opening(rt: HostRuntime) {
    for (roots, counter, page, wanted) in SAID {
        assert!(rt;
            is_misfit(rt.alloc(), *roots, *counter, *page, *wanted),
            "{roots:?} {counter:?} {page:?}"
        );
    }
}
