use sled_base::lru::rounded_up;
use sled_base::{Error, Lru, PageId, Why};
use std::alloc::{AllocError, Global};

// A page is of the shard that its id leaves when it is divided by this.
const SHARDS: u64 = 256;

fn is_too_small(alloc: Global, capacity: u64) -> bool {
    matches!(
        Lru::new(alloc, capacity),
        Err(Error::Unsupported(Why::CapacityTooSmall))
    )
}

// Whether these pages leave at an access.
fn is_accessed(lru: &mut Lru, id: PageId, size: u64, gone: &[PageId]) -> Result<bool, AllocError> {
    Ok(size <= 1 << 63 && lru.accessed(id, size)?.as_slice() == gone)
}

// The size of each access, and the pages that leave.
type Accesses = &'static [(PageId, u64, &'static [PageId])];

fn are_accessed(alloc: Global, capacity: u64, accesses: Accesses) -> Result<bool, Error> {
    let mut lru = Lru::new(alloc, capacity)?;
    for (id, size, gone) in accesses {
        if !is_accessed(&mut lru, *id, *size, gone)? {
            return Ok(false);
        }
    }
    Ok(true)
}

// ---- each number of pages

// A page of the first shard that isn't among the others, and comes behind 2^17 places.
const LAST: PageId = 256 * 131_073;

// Whether so many pages stay as they come, when they come again, and when they are larger.
fn all_stay(lru: &mut Lru, count: u64, stride: u64) -> Result<bool, AllocError> {
    for size in [1, 1, 4] {
        for i in 0..count {
            if !is_accessed(lru, i.saturating_mul(stride), size, &[])? {
                return Ok(false);
            }
        }
    }
    Ok(true)
}

// Whether the pages are those of the first shard, in the order of their ids.
fn are_first(pages: &[PageId], count: u64, stride: u64) -> bool {
    let mut rest = pages;
    for i in 0..count {
        let id = i.saturating_mul(stride);
        if id % SHARDS == 0 {
            match rest {
                [page, behind @ ..] if *page == id => rest = behind,
                _ => return false,
            }
        }
    }
    rest.is_empty()
}

// Whether so many pages stay, and those of its shard leave, the first first, for a page that takes all of it.
fn stay(alloc: Global, count: u64, stride: u64) -> Result<bool, Error> {
    let mut lru = Lru::new(alloc, 1 << 28)?;
    let is_so = all_stay(&mut lru, count, stride)?;
    Ok(are_first(&lru.accessed(LAST, 1 << 20)?, count, stride) && is_so)
}

// ---- rows

enum Case {
    // A capacity, and whether it is too small.
    Capacity(u64, bool),
    // A size, and what it is rounded up to.
    Size(u64, u64),
    // A capacity, and the accesses one after another.
    Accesses(u64, Accesses),
    // A number of pages, and how far apart their ids are: all of them in one shard, or in one shard after another.
    Pages(u64, u64),
}

type Rows = &'static [(&'static str, Case)];

const CAPACITIES: Rows = &[
    ("no capacity", Case::Capacity(0, true)),
    ("a capacity of 255", Case::Capacity(255, true)),
    ("a capacity of 256", Case::Capacity(256, false)),
    ("the greatest capacity", Case::Capacity(u64::MAX, false)),
];

const SIZES: Rows = &[
    ("no size", Case::Size(0, 1)),
    ("a size of 1", Case::Size(1, 1)),
    ("a size of 2", Case::Size(2, 2)),
    ("a size of 3", Case::Size(3, 4)),
    ("a size of 4", Case::Size(4, 4)),
    ("a size of 5", Case::Size(5, 8)),
    (
        "the least size above 2^62",
        Case::Size((1 << 62) + 1, 1 << 63),
    ),
    ("the greatest size", Case::Size(1 << 63, 1 << 63)),
];

const HUGE: u64 = 1 << 63;

// In each row but the last a shard has a capacity of 4. All pages are of the first shard, but for page 1.
const ACCESSES: Rows = &[
    (
        "the least recently used leave first",
        Case::Accesses(
            1024,
            &[
                (0, 2, &[]),
                (256, 2, &[]),
                (512, 2, &[0]),
                (768, 8, &[256, 512]),
                (0, 1, &[768]),
            ],
        ),
    ),
    (
        "a page of another shard",
        Case::Accesses(1024, &[(0, 4, &[]), (1, 4, &[]), (256, 1, &[0])]),
    ),
    (
        "a page alone that is larger than the capacity",
        Case::Accesses(1024, &[(0, 8, &[]), (0, 16, &[]), (256, 16, &[0])]),
    ),
    (
        "a listed page with the same size",
        Case::Accesses(
            1024,
            &[(0, 2, &[]), (256, 2, &[]), (0, 2, &[]), (512, 2, &[256])],
        ),
    ),
    (
        "a listed page with a smaller size",
        Case::Accesses(
            1024,
            &[(0, 2, &[]), (256, 2, &[]), (0, 1, &[]), (512, 1, &[])],
        ),
    ),
    (
        "a listed page with a larger size",
        Case::Accesses(1024, &[(0, 2, &[]), (256, 2, &[]), (0, 4, &[256])]),
    ),
    (
        "the first page with a larger size",
        Case::Accesses(1024, &[(0, 2, &[]), (256, 2, &[]), (256, 8, &[0])]),
    ),
    (
        "sizes that are rounded up",
        Case::Accesses(
            1024,
            &[
                (0, 0, &[]),
                (256, 1, &[]),
                (512, 2, &[]),
                (768, 0, &[0]),
                (1024, 3, &[256, 512, 768]),
            ],
        ),
    ),
    (
        "the least capacity, which leaves a page alone in its shard",
        Case::Accesses(256, &[(0, 1, &[]), (256, 1, &[0])]),
    ),
    (
        "the greatest capacity that leaves a page alone",
        Case::Accesses(511, &[(0, 1, &[]), (256, 1, &[0])]),
    ),
    (
        "the least capacity of two pages",
        Case::Accesses(512, &[(0, 1, &[]), (256, 1, &[]), (512, 1, &[0])]),
    ),
    (
        "a capacity that isn't a multiple",
        Case::Accesses(67_823, &[(0, 256, &[]), (256, 8, &[]), (512, 1, &[0])]),
    ),
    (
        "a capacity of 2^24",
        Case::Accesses(1 << 24, &[(0, 1 << 16, &[]), (256, 1, &[0])]),
    ),
    (
        "a capacity of 2^40",
        Case::Accesses(1 << 40, &[(0, 1 << 32, &[]), (256, 1, &[0])]),
    ),
    (
        "pages by the lengths of their ids",
        Case::Accesses(
            1024,
            &[
                (240, 1, &[]),
                (241, 1, &[]),
                (2_287, 1, &[]),
                (2_288, 1, &[]),
                (67_823, 1, &[]),
                (67_824, 1, &[]),
                ((1 << 24) - 1, 1, &[]),
                (1 << 24, 1, &[]),
                (2_288, 4, &[240, 67_824]),
                (0, 4, &[1 << 24]),
            ],
        ),
    ),
    (
        "the largest sizes and capacity",
        Case::Accesses(
            u64::MAX,
            &[(0, HUGE, &[]), (256, HUGE, &[0]), (0, HUGE, &[256])],
        ),
    ),
];

const PAGES: Rows = &[
    ("no page of one shard", Case::Pages(0, 256)),
    ("1 page of one shard", Case::Pages(1, 256)),
    ("2 pages of one shard", Case::Pages(2, 256)),
    ("3 pages of one shard", Case::Pages(3, 256)),
    ("16 pages of one shard", Case::Pages(16, 256)),
    ("17 pages of one shard", Case::Pages(17, 256)),
    ("1,000 pages of one shard", Case::Pages(1_000, 256)),
    ("131,072 pages of one shard", Case::Pages(1 << 17, 256)),
    ("no page", Case::Pages(0, 1)),
    ("1 page", Case::Pages(1, 1)),
    ("2 pages of two shards", Case::Pages(2, 1)),
    ("3 pages of three shards", Case::Pages(3, 1)),
    ("16 pages of 16 shards", Case::Pages(16, 1)),
    ("17 pages of 17 shards", Case::Pages(17, 1)),
    ("1,000 pages of all shards", Case::Pages(1_000, 1)),
    ("131,072 pages of all shards", Case::Pages(1 << 17, 1)),
];

fn holds(alloc: Global, case: &Case) -> Result<bool, Error> {
    match case {
        Case::Capacity(capacity, too_small) => Ok(is_too_small(alloc, *capacity) == *too_small),
        Case::Size(size, rounded) => Ok(*size <= 1 << 63 && rounded_up(*size) == *rounded),
        Case::Accesses(capacity, accesses) => are_accessed(alloc, *capacity, accesses),
        Case::Pages(count, stride) => stay(alloc, *count, *stride),
    }
}

#[test]
fn the_most_recently_used_stay(rt: HostRuntime) -> Result<(), Error> {
    for rows in [CAPACITIES, SIZES, ACCESSES, PAGES] {
        for (row, case) in rows {
            assert!(rt; holds(rt.alloc(), case)?, "{row}");
        }
    }
    Ok(())
}
