// What words encode as pairs, and which encode none.

use sled_base::IVec;
use sled_script::pairs::{pair_of, pairs_of};
use std::alloc::Global;

/// A key and a value.
type Sides = (&'static str, &'static str);

fn is_pair(pair: &(IVec, IVec), want: Sides) -> bool {
    pair.0.as_slice() == want.0.as_bytes() && pair.1.as_slice() == want.1.as_bytes()
}

fn are_pairs(pairs: &[(IVec, IVec)], want: &[Sides]) -> bool {
    if pairs.len() != want.len() {
        return false;
    }
    for i in 0..want.len() {
        if !is_pair(&pairs[i], want[i]) {
            return false;
        }
    }
    true
}

// Whether the word encodes this pair, or none.
fn encodes_pair(alloc: Global, word: &str, want: Option<Sides>) -> bool {
    match (pair_of(alloc, word.as_bytes()), want) {
        (Ok(Some(pair)), Some(want)) => is_pair(&pair, want),
        (Ok(None), None) => true,
        _ => false,
    }
}

// Whether the words behind a name encode these pairs, or none.
fn encode_pairs(alloc: Global, words: Option<&str>, want: Option<&[Sides]>) -> bool {
    match (pairs_of(alloc, words.map(|words| words.as_bytes())), want) {
        (Ok(Some(pairs)), Some(want)) => are_pairs(&pairs, want),
        (Ok(None), None) => true,
        _ => false,
    }
}

#[test]
fn reads_pairs(rt: HostRuntime) {
    for (word, want) in [
        ("61=62", Some(("a", "b"))),
        ("-=-", Some(("", ""))),
        ("61=", None),
        ("=61", None),
        ("61", None),
        ("61=62=63", None),
    ] {
        assert!(rt; encodes_pair(rt.alloc(), word, want), "at {word}");
    }
}

#[test]
fn reads_pairs_behind_a_name(rt: HostRuntime) {
    let one: &[Sides] = &[("a", "b")];
    let two: &[Sides] = &[("a", "b"), ("b", "c")];
    for (words, want) in [
        (Some("61=62"), Some(one)),
        (Some("61=62 62=63"), Some(two)),
        (Some(""), None),
        (Some("61=62 "), None),
        (Some(" 61=62"), None),
        (Some("61=62  62=63"), None),
        (None, Some(&[])),
    ] {
        assert!(rt; encode_pairs(rt.alloc(), words, want), "at {words:?}");
    }
}
