//! The pairs that the words of a line encode.

ghost use Rattle.std.specs.Prelude.{◌≡◌, ◌≢◌, List, IfOk, IfSome, IfNone};
ghost use Rattle.std.specs.Option.{option_map};
ghost use Rattle.sled_base.specs.Order.{Bytes};
ghost use Rattle.sled_script.specs.Pairs.{ArePairs, EncodePairs, IsPairOfBytes, pair_word};

use sled_base::IVec;
use sled_lines::cuts::cut_at;
use sled_lines::words::{bytes_of, first_word};
use std::alloc::{AllocError, Global};

/// Returns the key and the value that the word encodes, with `=` between them, or `None` if it encodes none.
pub fn pair_of(alloc: Global, word: &[u8]) -> Result<Option<(IVec, IVec)>, AllocError>
    ensures some { IfOk result (λ found. IfSome found (λ pair. word.now ≡ pair_word pair)) }
    ensures bytes { IfOk result (λ found. IfSome found IsPairOfBytes) }
    ensures none { IfOk result (λ found. IfNone found ((pair : Bytes × Bytes) → IsPairOfBytes pair
        → word.now ≢ pair_word pair)) }
{
    let (key, rest) = cut_at(word, b'=');
    let Some(value) = rest else {
        return Ok(None);
    };
    let Some(key) = bytes_of(alloc, key)? else {
        return Ok(None);
    };
    let Some(value) = bytes_of(alloc, value)? else {
        return Ok(None);
    };
    Ok(Some((key, value)))
}

/// Returns the pairs that the words after a command's name encode, or `None` if a word encodes no pair.
pub fn pairs_of(
    alloc: Global,
    words: Option<&[u8]>,
) -> Result<Option<Vec<(IVec, IVec)>>, AllocError>
    ensures some { IfOk result (λ found. IfSome found
        (λ pairs. EncodePairs (option_map (λ rest. rest.now) words.entry) pairs.items)) }
    ensures bytes { IfOk result (λ found. IfSome found (λ pairs. ArePairs pairs.items)) }
    ensures none { IfOk result (λ found. IfNone found ((pairs : List (Bytes × Bytes))
        → ArePairs pairs → ¬ EncodePairs (option_map (λ rest. rest.now) words.entry) pairs)) }
{
    let mut pairs = Vec::new(alloc);
    let mut left = words;
    while let Some(line) = left {
        let (word, rest) = first_word(line);
        let Some(pair) = pair_of(alloc, word)? else {
            return Ok(None);
        };
        pairs.push(pair)?;
        left = rest;
    }
    Ok(Some(pairs))
}
