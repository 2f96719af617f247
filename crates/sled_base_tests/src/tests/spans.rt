// Searches among the first strings of a buffer, against those in a list.

use super::strings::{Bytes, Step, is_done};
use sled_base::IVec;
use sled_base::prefix::{binary_search, search_spans, spans_are_sorted};
use sled_base::search::is_sorted;
use sled_base::strings::Strings;
use std::alloc::{AllocError, Global};
use std::test::Fail;

// Keys, and how many of them ascend.
const KEYS: &[(&[Bytes], usize)] = &[
    (&[], 0),
    (&[&[]], 1),
    (&[&[4], &[5], &[5], &[6], &[9]], 5),
    (&[&[], &[], &[0], &[1], &[1, 0], &[2; 241]], 6),
    (&[&[1; 22], &[1; 23], &[1; 23], &[2], &[1]], 4),
    (&[&[3], &[2]], 1),
];

const WANTED: &[Bytes] = &[
    &[],
    &[0],
    &[1],
    &[1; 22],
    &[1; 23],
    &[2],
    &[3],
    &[4],
    &[5],
    &[7],
    &[9],
    &[10],
    &[2; 241],
];

// Whether the keys are found in one buffer as in a list.
fn are_found(strings: &Strings, list: &[IVec], count: usize) -> bool {
    if count > strings.len() || !spans_are_sorted(strings, count) || !is_sorted(list) {
        return false;
    }
    for key in WANTED {
        if search_spans(key, strings, count) != binary_search(key, list) {
            return false;
        }
    }
    true
}

fn is_searched(alloc: Global, keys: &[Bytes], sorted: usize) -> Result<bool, AllocError> {
    let mut strings = Strings::new(alloc);
    let mut list = Vec::new(alloc);
    for (place, key) in keys.iter().enumerate() {
        let is_so = is_done(&mut strings, &Step::Push(key))?;
        list.push(IVec::from_slice(alloc, key)?)?;
        if !is_so || spans_are_sorted(&strings, strings.len()) != (place < sorted) {
            return Ok(false);
        }
    }
    list.truncate(sorted);
    Ok(are_found(&strings, &list, sorted))
}

#[test]
fn strings_are_searched_as_a_list(rt: HostRuntime) -> Result<(), Fail> {
    for (keys, sorted) in KEYS {
        assert!(rt; is_searched(rt.alloc(), keys, *sorted)?, "{keys:?}");
    }
    Ok(())
}
