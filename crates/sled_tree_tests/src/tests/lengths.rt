// Keys and values that are made of numbers.

use super::*;

/// How long keys and values are.
#[derive(Clone, Copy)]
pub(super) enum Length {
    // all of so many bytes, the last of which tell the number
    Of(usize),
    // of fewer bytes than this, by the number: some begin others, some are equal, and one is empty
    Below(u64),
}

fn length_of(length: Length, number: u64) -> usize {
    match length {
        Length::Of(bytes) => bytes,
        Length::Below(0) => 0,
        Length::Below(end) => (number % end) as usize,
    }
}

/// The bytes of a number, of this length.
pub(super) fn bytes_of(alloc: Global, length: Length, number: u64) -> Result<IVec, AllocError> {
    let digits = number.to_be_bytes();
    let bytes = length_of(length, number);
    if bytes < 8 {
        return IVec::from_slice(alloc, &digits[8 - bytes..]);
    }
    let mut long = Vec::from_elem(alloc, 7, bytes - 8)?;
    long.extend_from_slice(&digits)?;
    IVec::from_vec(alloc, long)
}
