// The file that a cache writes on a disk, byte for byte, and what is opened of other bytes.

use super::hostile::disk_with;
use super::*;
use sled_pagecache_testing::calls::flushes;
use sled_pagecache_testing::disks::Part::{Again, Marks, Plain, Sealed};
use sled_pagecache_testing::disks::{Disked, Part, behind, new_disk, opened_on, written};
use sled_pagecache_testing::steps::Change::Set;
use sled_pagecache_testing::steps::Outcome::At;
use sled_pagecache_testing::steps::Sight::{Empty, Pairs};
use sled_pagecache_testing::steps::Step::{Adds, AddsFrom, Gets, Links, Recovered, Takes, Writes};
use sled_pagecache_testing::steps::{PAIR, Step, shown};

// The file behind a first start, a leaf with a pair, and a batch of one link, each flushed. The bytes of each field on a line.
#[rattlefmt::skip]
const FILE: [u8; 182] = [
    // the opening bytes
    0x53, 0x4c, 0x50, 0x43, 0x4c, 0x4f, 0x47, 0x31,
    // an open gate, and a frame of 35 bytes: no named roots, at 17, and the counter 0, at 34
    1,
    35, 0, 0, 0, 0, 0, 0, 0,
    6, 0, 0, 0, 0, 0, 0, 0, 0, 0, 0, 0, 0, 0, 0, 0, 0,
    5, 1, 0, 0, 0, 0, 0, 0, 0, 1, 0, 0, 0, 0, 0, 0, 0, 0,
    // an open gate, at 52, and a frame of 47 bytes: an empty leaf on page 2, and a link that sets a pair
    1,
    47, 0, 0, 0, 0, 0, 0, 0,
    8, 2, 0, 0, 0, 0, 0, 0, 0, 8, 0, 0, 0, 0, 0, 0, 0, 0, 0, 0, 0, 0, 0, 0, 0,
    10, 2, 0, 0, 0, 0, 0, 0, 0, 5, 0, 0, 0, 0, 0, 0, 0, 0, 1, 0x62, 1, 0x76,
    // an open gate, at 108, and a frame of 64 bytes: a batch begins at 117, its link, and it ends
    1,
    64, 0, 0, 0, 0, 0, 0, 0,
    12, 0x65, 0xfd, 0xff, 0xff, 0xff, 0xff, 0xff, 0xff, 0, 0, 0, 0, 0, 0, 0, 0,
    10, 2, 0, 0, 0, 0, 0, 0, 0, 5, 0, 0, 0, 0, 0, 0, 0, 0, 1, 0x63, 1, 0x77,
    13, 0x65, 0xfd, 0xff, 0xff, 0xff, 0xff, 0xff, 0xff, 8, 0, 0, 0, 0, 0, 0, 0, 117, 0, 0, 0, 0, 0, 0, 0,
    // the closed gate
    0,
];

// The same as it was written before a batch could go over several frames: the mark of a batch, at 117, names its last record, at 142.
#[rattlefmt::skip]
pub(super) const OLD_FILE: [u8; 165] = [
    0x53, 0x4c, 0x50, 0x43, 0x4c, 0x4f, 0x47, 0x31,
    1,
    35, 0, 0, 0, 0, 0, 0, 0,
    6, 0, 0, 0, 0, 0, 0, 0, 0, 0, 0, 0, 0, 0, 0, 0, 0,
    5, 1, 0, 0, 0, 0, 0, 0, 0, 1, 0, 0, 0, 0, 0, 0, 0, 0,
    1,
    47, 0, 0, 0, 0, 0, 0, 0,
    8, 2, 0, 0, 0, 0, 0, 0, 0, 8, 0, 0, 0, 0, 0, 0, 0, 0, 0, 0, 0, 0, 0, 0, 0,
    10, 2, 0, 0, 0, 0, 0, 0, 0, 5, 0, 0, 0, 0, 0, 0, 0, 0, 1, 0x62, 1, 0x76,
    // an open gate, at 108, and a frame of 47 bytes: the mark, and the link
    1,
    47, 0, 0, 0, 0, 0, 0, 0,
    3, 0x65, 0xfd, 0xff, 0xff, 0xff, 0xff, 0xff, 0xff, 8, 0, 0, 0, 0, 0, 0, 0, 142, 0, 0, 0, 0, 0, 0, 0,
    10, 2, 0, 0, 0, 0, 0, 0, 0, 5, 0, 0, 0, 0, 0, 0, 0, 0, 1, 0x63, 1, 0x77,
    // the closed gate
    0,
];

// Whether the bytes are the file up to a gate, which is closed in them.
fn is_file(bytes: &[u8], gate: usize) -> bool {
    gate < FILE.len()
        && bytes.len() == gate + 1
        && bytes[..gate] == FILE[..gate]
        && bytes[gate] == 0
}

// Whether the file of a disk is that up to a gate.
fn holds_file(disk: Option<MemDisk>, gate: usize) -> bool {
    disk.is_some_and(|disk| is_file(disk.bytes(), gate))
}

const LEAF: Part = Plain(&[Adds(2, 1), Links(2, 1, PAIR, At(2)), Writes(57), Takes(109)]);

const BATCH: Part = Sealed(&[Links(2, 2, Set(b"c", b"w"), At(3))]);

const FILES: &[(&[Part], usize)] = &[
    (&[Plain(&[Takes(53), Writes(0)])], 52),
    (&[LEAF], 108),
    (
        &[LEAF, BATCH, Plain(&[Takes(109), Writes(74), Takes(182)])],
        181,
    ),
    (&[LEAF, Again, Plain(&[Writes(0), Takes(109)])], 108),
];

#[test]
fn a_cache_writes_its_file_byte_for_byte(rt: HostRuntime) {
    assert!(rt; holds_file(new_disk(rt.alloc(), 4096), 8), "created");
    for (parts, gate) in FILES {
        assert!(rt;
            holds_file(written(rt.alloc(), 4096, 4096, parts), *gate),
            "{gate}"
        );
    }
}

// What is there in the older file, and what is added to it.
const OLD: &[Step] = &[
    Recovered(true),
    Gets(2, Pairs(0, &[(b"b", b"v"), (b"c", b"w")])),
    Adds(3, 1),
    Writes(35),
    Takes(199),
];

const OLDER: &[Step] = &[
    Recovered(true),
    Gets(2, Pairs(0, &[(b"b", b"v"), (b"c", b"w")])),
    Gets(3, Empty(0)),
    Takes(199),
];

// The disk of the older file, and what is shown of it by one cache after another.
fn opens_so(alloc: Global, scripts: &[&[Step]]) -> Option<()> {
    let mut disk = disk_with(alloc, &OLD_FILE)?;
    for steps in scripts {
        let mut cache = opened_on(alloc, disk, 4096).ok()?;
        let is_shown = shown(alloc, &mut cache, steps) == steps.len();
        disk = log_if(cache, is_shown)?.into_disk();
    }
    Some(())
}

#[test]
fn a_file_of_the_older_kind_is_opened_and_added_to(rt: HostRuntime) {
    assert!(rt; opens_so(rt.alloc(), &[OLD, OLDER]).is_some());
}

// ---- lengths of files

const ADDED: Part = Plain(&[Adds(2, 1)]);

const LINKED: Part = Plain(&[Links(2, 1, PAIR, At(2))]);

// A script with segments of so many bytes. In the last one the second leaf of a batch fills one, and then the append behind the batch.
const LENGTHS: &[(u64, &[Part])] = &[
    (
        4096,
        &[ADDED, Plain(&[Takes(53), Writes(35), Takes(87), Writes(0)])],
    ),
    (64, &[ADDED, Plain(&[Takes(53), Writes(35), Takes(87)])]),
    (
        64,
        &[ADDED, LINKED, Plain(&[Takes(53), Writes(57), Takes(109)])],
    ),
    (
        64,
        &[
            ADDED,
            LINKED,
            Plain(&[Takes(53), Links(2, 2, PAIR, At(3)), Takes(131), Writes(0)]),
        ],
    ),
    (
        0,
        &[
            ADDED,
            Plain(&[Takes(96), Writes(0)]),
            LINKED,
            Plain(&[Takes(127), Writes(0)]),
        ],
    ),
    (
        64,
        &[
            Sealed(&[Adds(2, 1), Adds(3, 1), Adds(4, 1)]),
            Plain(&[Takes(129), Adds(5, 1), Takes(213), Writes(0)]),
        ],
    ),
];

#[test]
fn a_full_segment_is_written(rt: HostRuntime) {
    for (segment_size, parts) in LENGTHS {
        assert!(rt;
            written(rt.alloc(), 4096, *segment_size, parts).is_some(),
            "{segment_size}"
        );
    }
}

// ---- large frames

const FIRST: Part = Plain(&[
    Gets(2, Empty(0)),
    Gets(1_500, Empty(0)),
    Gets(3_001, Empty(0)),
]);

// Three thousand records in one frame, and as many batches of none.
const LARGE: &[&[Part]] = &[
    &[
        Plain(&[AddsFrom(2, 3_002), Writes(75_010), Takes(75_062)]),
        Again,
        FIRST,
    ],
    &[
        Marks(3_000),
        Plain(&[Adds(2, 1), Writes(126_035), Takes(126_087)]),
        Again,
        Plain(&[Gets(2, Empty(0))]),
    ],
];

#[test]
fn a_frame_of_many_records_is_read_back(rt: HostRuntime) {
    for parts in LARGE {
        assert!(rt; written(rt.alloc(), 262_144, 1_048_576, parts).is_some());
    }
}

// Bytes that differ along their length.
fn long_value(alloc: Global, len: u32) -> Result<Vec<u8>, AllocError> {
    let mut value = Vec::new(alloc);
    for i in 0..len {
        value.push((i % 251) as u8)?;
    }
    Ok(value)
}

fn links_long(alloc: Global, cache: &mut Disked, len: u32) -> Option<()> {
    let value = long_value(alloc, len).ok()?;
    let link = Link::Set(
        IVec::from_slice(alloc, b"k").ok()?,
        IVec::from_slice(alloc, &value).ok()?,
    );
    cache.link(2, PageView::new(2, 1), link).ok()?.ok()?;
    Some(())
}

fn holds_long(alloc: Global, cache: &mut Disked, len: u32) -> Option<bool> {
    let value = long_value(alloc, len).ok()?;
    let view = cache.get(2).ok()??;
    Some(is_pair(view.node(), b"k", &value))
}

// The disk of a cache with a value of so many bytes, if a flush writes so many.
fn with_long(alloc: Global, len: u32, flushed: usize) -> Option<MemDisk> {
    let disk = new_disk(alloc, 262_144)?;
    let mut cache = behind(alloc, disk, 1_048_576, &[ADDED])?;
    links_long(alloc, &mut cache, len)?;
    let is_so = flushes(&mut cache) == Ok(flushed);
    log_if(cache, is_so).map(DiskLog::into_disk)
}

// Whether the value is read back.
fn reads_long(alloc: Global, len: u32, flushed: usize) -> Option<bool> {
    let disk = with_long(alloc, len, flushed)?;
    let mut cache = opened_on(alloc, disk, 1_048_576).ok()?;
    holds_long(alloc, &mut cache, len)
}

#[test]
fn a_long_value_is_read_back(rt: HostRuntime) {
    for (len, flushed) in [(65_536, 65_594), (70_000, 70_059), (200_000, 200_059)] {
        assert_eq!(rt; reads_long(rt.alloc(), len, flushed), Some(true), "{len}");
    }
}

// ---- other bytes

// What the file of a first start is with one byte changed.
#[derive(Clone, Copy, Debug, PartialEq, Eq)]
enum Found {
    // no log is opened
    NoLog,
    // a log is opened, and no cache: the page whose first message is at this place isn't one that a cache leaves so
    NoCache(u64),
    // a cache is opened, that found the system pages or made them
    Recovered(bool),
}

const CHANGED: &[(u64, u8, Found)] = &[
    (0, 0, Found::NoLog),
    (8, 7, Found::Recovered(true)),
    (8, 0, Found::Recovered(false)),
    (9, 0, Found::NoLog),
    (9, 255, Found::NoLog),
    (17, 4, Found::NoLog),
    (17, 8, Found::NoCache(17)),
    (52, 1, Found::NoLog),
];

fn changed(alloc: Global, place: u64, byte: u8) -> Option<MemDisk> {
    let mut disk = written(alloc, 4096, 4096, &[])?;
    disk.write_at(place, &[byte]).ok()?;
    disk.sync().ok()?;
    Some(disk)
}

fn what_is_found(alloc: Global, disk: MemDisk) -> Option<Found> {
    match opened_on(alloc, disk, 4096) {
        Ok(cache) => Some(Found::Recovered(cache.was_recovered())),
        Err((Error::Corruption(None), _)) => Some(Found::NoLog),
        Err((Error::Corruption(Some(DiskPtr::Inline(place))), _)) => Some(Found::NoCache(place)),
        Err(_) => None,
    }
}

#[test]
fn other_bytes_are_reported_or_mean_what_they_say(rt: HostRuntime) {
    for (place, byte, wanted) in CHANGED {
        let disk = changed(rt.alloc(), *place, *byte);
        let found = disk.and_then(|disk| what_is_found(rt.alloc(), disk));
        assert_eq!(rt; found, Some(*wanted), "{place} {byte}");
    }
}
