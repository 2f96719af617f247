// Long files, and frames that are larger than what is read at a time.

use super::*;

// Puts a number at the end, the lowest byte first.
pub(super) fn put(file: &mut Vec<u8>, number: u64) -> bool {
    file.extend_from_slice(&number.to_le_bytes()).is_ok()
}

// Puts a record's kind, page id and payload length at the end.
pub(super) fn put_head(file: &mut Vec<u8>, kind: u8, page: u64, len: u64) -> bool {
    file.push(kind).is_ok() && put(file, page) && put(file, len)
}

// Puts the record of a batch at the end, which names that place.
fn put_batch(file: &mut Vec<u8>, target: u64) -> bool {
    put_head(file, 3, u64::MAX - 666, 8) && put(file, target)
}

// Puts an open gate and the length of a body at the end.
pub(super) fn put_body(file: &mut Vec<u8>, len: u64) -> bool {
    file.push(1).is_ok() && put(file, len)
}

// Begins a file with a frame of so many bytes of records.
pub(super) fn front(alloc: Global, len: u64) -> Option<Vec<u8>> {
    let mut file = b"SLPCLOG1".to_vec(alloc).ok()?;
    if put_body(&mut file, len) {
        Some(file)
    } else {
        None
    }
}

// How many pages a file holds, with a closed gate at its end.
fn pages_in(alloc: Global, mut file: Vec<u8>) -> Option<usize> {
    file.push(0).ok()?;
    let disk = disk_of(alloc, &file).ok()?;
    let mut log = DiskLog::open(alloc, disk, 4096, 16).ok()?;
    Some(log.recover().ok()?.len())
}

// One frame of so many marks of batches, which all name the last of them, or the place behind it.
pub(super) fn marks(alloc: Global, count: u32, is_good: bool) -> Option<Vec<u8>> {
    let len = 25 * u64::from(count);
    let mut file = front(alloc, len)?;
    let behind = 17 + len;
    let target = if is_good {
        behind.saturating_sub(25)
    } else {
        behind
    };
    for _ in 0..count {
        if !put_batch(&mut file, target) {
            return None;
        }
    }
    Some(file)
}

// Judging a mark by what stands behind it would take some 10^11 steps here.
#[test]
fn a_file_of_marks_is_read_in_one_go(rt: HostRuntime) {
    let alloc = rt.alloc();
    for count in [1, 2, 3, 17, 400_000] {
        let good = marks(alloc, count, true).and_then(|file| pages_in(alloc, file));
        assert_eq!(rt; good, Some(0), "{count}");
        let bad = marks(alloc, count, false).and_then(|file| pages_in(alloc, file));
        assert_eq!(rt; bad, None, "{count}");
    }
}

// One frame of a batch's mark and so many pages, each with a payload of so many bytes. The mark names the last of them.
pub(super) fn pages(alloc: Global, count: u16, len: u32) -> Option<Vec<u8>> {
    let len = u64::from(len);
    let before_last = u64::from(count.saturating_sub(1)) * (17 + len);
    let mut file = front(alloc, 25 + before_last + 17 + len)?;
    if !put_batch(&mut file, 42 + before_last) {
        return None;
    }
    let payload = vec![in alloc; 7; len as usize].ok()?;
    for page in 0..u64::from(count) {
        if !put_head(&mut file, 8, page, len) || file.extend_from_slice(&payload).is_err() {
            return None;
        }
    }
    Some(file)
}

// Payloads around the 65,536 bytes that are read at a time, and many small ones.
const FRAMES: &[(u16, u32)] = &[
    (1, 0),
    (3, 1),
    (16, 100),
    (17, 65_000),
    (2, 65_476),
    (2, 65_477),
    (3, 65_535),
    (3, 65_536),
    (3, 65_537),
    (2, 400_000),
    (20_000, 3),
];

#[test]
fn frames_of_any_size_are_read(rt: HostRuntime) {
    let alloc = rt.alloc();
    for (count, len) in FRAMES {
        let found = pages(alloc, *count, *len).and_then(|file| pages_in(alloc, file));
        assert_eq!(rt; found, Some(usize::from(*count)), "{count} {len}");
    }
}
