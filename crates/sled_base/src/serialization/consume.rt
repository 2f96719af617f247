//! Reading values to the end of an input.

ghost use Rattle.std.specs.Prelude.{◌≡◌, false};

use super::Serialize;
use crate::types::Error;
use std::alloc::Global;
use std::marker::{Model, PhantomData};

/// An iterator over the values of an input in order, to its end or to the first error, which is the last item.
///
/// Each value consumes at least a byte of the input, so the iteration ends. The exception is `()` and tuples that consist only of
/// `()`: they consume no byte, so over an input that isn't empty the iteration never ends.
#[derive(Drop)]
pub struct ConsumeSequence<'a, T> {
    alloc: Global,
    rest: &'a [u8],
    refused: bool,
    of: PhantomData<T>,
}

impl<'a, T> Model for ConsumeSequence<'a, T> {
    ghost use Rattle.sled_base.specs.Payloads.Consuming.{Consuming};

    ghost Value = { Consuming };

    ghost view = { λ s. record { rest = s.rest.now; refused = s.refused } };
}

impl<'a, T: Serialize> ConsumeSequence<'a, T> {
    /// Returns an iterator over the values of the input.
    pub fn new(alloc: Global, input: &'a [u8]) -> ConsumeSequence<'a, T>
        ensures { result ≡ record { rest = input.now; refused = false } }
    {
        ConsumeSequence {
            alloc,
            rest: input,
            refused: false,
            of: PhantomData,
        }
    }
}

impl<'a, T: Serialize> Iterator for ConsumeSequence<'a, T> {
    type Item = Result<T, Error>;

    ghost use Rattle.sled_base.specs.Payloads.Consuming.{Consumes, values_left};

    ghost next_gives = { Consumes T.asks T.reads };

    ghost remaining = { values_left T.takes_a_byte };

    fn next(&mut self) -> Option<Result<T, Error>> {
        if self.refused || self.rest.is_empty() {
            return None;
        }
        let result = T::deserialize(self.alloc, &mut self.rest);
        self.refused = result.is_err();
        Some(result)
    }
}
