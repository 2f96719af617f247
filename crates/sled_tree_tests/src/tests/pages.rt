// The pages that a cache uses.

use super::*;
use sled_pagecache::{Kind, PageShape};

/// How many pages the cache uses, its own two among them.
pub(super) fn used<L: Log>(trees: &Trees<L>) -> usize {
    match trees.cache().shape() {
        Ok(shape) => count_used(&shape.pages),
        Err(_) => 0,
    }
}

fn count_used(pages: &[PageShape]) -> usize {
    let mut count = 0_usize;
    for page in pages {
        if page.kind != Kind::Free {
            count = count.saturating_add(1);
        }
    }
    count
}
