//! How much each page takes by its content, and how many pages there are.

ghost use Rattle.sled_handle.specs.PageSizes.{MeasuresCounter, MeasuresNode, MeasuresRoots, TellsPageCount, TellsPageSize};

use crate::status::{MEMORY, OK, status_of, status_of_refusal};
use sled_pagecache::pagecache::{COUNTER_PID, META_PID};
use sled_pagecache::{Log, PageCache};

// How much a counter takes.
const COUNTER_BYTES: u64 = 8;

pub fn page_size<L: Log>(cache: &mut PageCache<L>, page: u64, bytes: &mut u64) -> u32
    ensures { TellsPageSize L.Log cache.old cache.new page result bytes.old bytes.new }
{
    if page == META_PID {
        return size_of_roots(cache, bytes);
    }
    if page == COUNTER_PID {
        return size_of_counter(cache, bytes);
    }
    size_of_node(cache, page, bytes)
}

// How much the map of named roots takes.
fn size_of_roots<L: Log>(cache: &PageCache<L>, bytes: &mut u64) -> u32
    ensures { MeasuresRoots L.Log cache.now cache.now result bytes.old bytes.new }
{
    match cache.get_meta() {
        Ok(view) => {
            *bytes = view.meta().rss();
            OK
        }
        Err(refusal) => status_of_refusal(refusal),
    }
}

// How much the counter of generated ids takes.
fn size_of_counter<L: Log>(cache: &PageCache<L>, bytes: &mut u64) -> u32
    ensures { MeasuresCounter L.Log cache.now cache.now result bytes.old bytes.new }
{
    match cache.get_idgen() {
        Ok(_) => {
            *bytes = COUNTER_BYTES;
            OK
        }
        Err(error) => status_of(&error),
    }
}

// How much the node of a page takes, and nothing where the page has none.
fn size_of_node<L: Log>(cache: &mut PageCache<L>, page: u64, bytes: &mut u64) -> u32
    ensures { MeasuresNode L.Log cache.old cache.new page result bytes.old bytes.new }
{
    match cache.get(page) {
        Ok(Some(view)) => {
            *bytes = view.node().rss();
            OK
        }
        Ok(None) => {
            *bytes = 0;
            OK
        }
        Err(refusal) => status_of_refusal(refusal),
    }
}

pub fn page_count<L: Log>(cache: &PageCache<L>, pages: &mut u64) -> u32
    ensures { TellsPageCount L.Log cache.now cache.now result pages.old pages.new }
{
    let Ok(shape) = cache.shape() else {
        return MEMORY;
    };
    *pages = shape.pages.len() as u64;
    OK
}
