// Which records a file has, and whether they are a log, by docs/FORMAT.md alone.

use super::*;

/// A record: its kind and its page, where it begins, where its payload stands, and where its frame ends.
#[derive(Clone, Copy)]
pub(super) struct Record {
    pub kind: u8,
    pub page: u64,
    pub place: usize,
    pub from: usize,
    pub to: usize,
    pub frame: usize,
}

// The place so many bytes behind one.
pub(super) fn behind(place: usize, bytes: u64) -> usize {
    place.saturating_add(bytes as usize)
}

// The number of 8 bytes at a place.
pub(super) fn number_at(file: &[u8], place: usize) -> Option<u64> {
    let [a, b, c, d, e, f, g, h, ..] = file.get(place..)? else {
        return None;
    };
    Some(u64::from_le_bytes([*a, *b, *c, *d, *e, *f, *g, *h]))
}

// Where the frame behind an open gate ends, if it stands within the file and isn't empty.
fn frame_end(file: &[u8], gate: usize) -> Option<usize> {
    let len = number_at(file, behind(gate, 1))?;
    let end = behind(behind(gate, 9), len);
    (len > 0 && end <= file.len()).then_some(end)
}

// The record at a place, if it stands within its frame.
fn record_at(file: &[u8], place: usize, frame: usize) -> Option<Record> {
    let kind = *file.get(place)?;
    let page = number_at(file, behind(place, 1))?;
    let len = number_at(file, behind(place, 9))?;
    let from = behind(place, 17);
    let to = behind(from, len);
    let record = Record {
        kind,
        page,
        place,
        from,
        to,
        frame,
    };
    (to <= frame).then_some(record)
}

// Adds the records of a frame. They fill it.
fn add_frame(records: &mut Vec<Record>, file: &[u8], body: usize, frame: usize) -> Option<()> {
    let mut at = body;
    for _ in body..frame {
        if at == frame {
            break;
        }
        let record = record_at(file, at, frame)?;
        records.push(record).ok()?;
        at = record.to;
    }
    Some(())
}

// The records of a file up to its closed gate, if it has one.
pub(super) fn records_in(alloc: Global, file: &[u8]) -> Option<Vec<Record>> {
    let mut records = Vec::new(alloc);
    let mut gate = 8;
    if file.get(..8) != Some(b"SLPCLOG1".as_slice()) {
        return None;
    }
    for _ in file {
        if *file.get(gate)? == 0 {
            return Some(records);
        }
        let frame = frame_end(file, gate)?;
        add_frame(&mut records, file, behind(gate, 9), frame)?;
        gate = frame;
    }
    None
}

fn puts(record: &Record) -> bool {
    matches!(record.kind, 5..=9)
}

// How many pages the records make.
pub(super) fn pages_in(records: &[Record]) -> u64 {
    let mut pages: u64 = 0;
    for record in records {
        if puts(record) && record.page == pages {
            pages = pages.saturating_add(1);
        }
    }
    pages
}

// Whether the last record that puts a content on the page or frees it puts one.
fn has_content(records: &[Record], page: u64) -> bool {
    let mut has = false;
    for record in records {
        if record.page == page && matches!(record.kind, 4..=9) {
            has = puts(record);
        }
    }
    has
}

// Whether a record of the mark's frame, and none in front of it, stands at the place that the mark names.
fn names_record(records: &[Record], file: &[u8], mark: &Record) -> bool {
    for record in records {
        if record.frame == mark.frame
            && mark.place <= record.place
            && number_at(file, mark.from) == Some(record.place as u64)
        {
            return true;
        }
    }
    false
}

// Whether a record may stand outside a batch, behind those that count before it.
fn fits(records: &[Record], file: &[u8], before: &[Record], record: &Record) -> bool {
    match record.kind {
        1 => true,
        3 => is_mark(record, 8) && names_record(records, file, record),
        4 => record.page < pages_in(before),
        5..=9 => record.page <= pages_in(before),
        10 | 11 => has_content(before, record.page),
        _ => false,
    }
}

// Whether a record has the page of those that mark batches, and a payload of so many bytes.
fn is_mark(record: &Record, len: u64) -> bool {
    record.page == MANIFEST && record.to == behind(record.from, len)
}

/// What the records say up to one of them: those that count, the place of the one that began a batch, and the changes of that.
#[derive(Drop)]
struct Reading {
    counted: Vec<Record>,
    begun: Option<usize>,
    waiting: Vec<Record>,
}

// Takes a record outside a batch, if it may stand there.
fn take_outside(
    reading: &mut Reading,
    records: &[Record],
    file: &[u8],
    record: &Record,
) -> Option<()> {
    if record.kind == 12 {
        reading.begun = Some(record.place);
        return is_mark(record, 0).then_some(());
    }
    fits(records, file, &reading.counted, record).then_some(())?;
    reading.counted.push(*record).ok()
}

// The same inside a batch that begins at this place. A change waits for the record that closes the batch, and is judged where it counts.
fn take_inside(reading: &mut Reading, file: &[u8], begun: usize, record: &Record) -> Option<()> {
    if matches!(record.kind, 4..=11) {
        return reading.waiting.push(*record).ok();
    }
    let closes = matches!(record.kind, 1 | 13 | 14) && is_mark(record, 8);
    (closes && number_at(file, record.from) == Some(begun as u64)).then_some(())?;
    if record.kind != 14 {
        for change in &reading.waiting {
            fits(&[], file, &reading.counted, change).then_some(())?;
            reading.counted.push(*change).ok()?;
        }
    }
    reading.waiting.clear();
    reading.begun = None;
    Some(())
}

// The records of a file that count, if each may stand where it stands.
pub(super) fn counted(alloc: Global, records: &[Record], file: &[u8]) -> Option<Vec<Record>> {
    let mut reading = Reading {
        counted: Vec::new(alloc),
        begun: None,
        waiting: Vec::new(alloc),
    };
    for record in records {
        match reading.begun {
            None => take_outside(&mut reading, records, file, record)?,
            Some(begun) => take_inside(&mut reading, file, begun, record)?,
        }
    }
    Some(reading.counted)
}

// The records that make a page: the last that puts a content or frees it, and the links behind that.
pub(super) fn messages_of(alloc: Global, records: &[Record], page: u64) -> Option<Vec<Record>> {
    let mut messages = Vec::new(alloc);
    for record in records {
        if record.page != page {
            continue;
        }
        if matches!(record.kind, 4..=9) {
            messages.clear();
        }
        if matches!(record.kind, 4..=11) {
            messages.push(*record).ok()?;
        }
    }
    Some(messages)
}
