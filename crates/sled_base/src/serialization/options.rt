//! The encoding of numbers that may be missing.

ghost use Rattle.std.specs.Prelude.{◌≡◌, ◌<◌};
ghost use Rattle.sled_base.specs.Payloads.Options.{number_of, ReadsOption, written_option, CanWriteOption, signed_of, ReadsSigned, written_signed, CanWriteSigned, page_number, ReadsPageNumber, written_page, CanWritePage};
ghost use Rattle.sled_base.specs.Payloads.Reading.{AsksNever};
ghost use Rattle.sled_base.specs.Payloads.OptionLaws.{Option-grammar, Signed-grammar, Page-grammar};
ghost use Rattle.sled_base.specs.Payloads.ReadingLaws.{some_taken};

use super::Serialize;
use crate::types::Error;
use std::alloc::Global;
use std::num::NonZeroU64;

impl Serialize for Option<u64> {
    ghost reads = { ReadsOption };

    ghost asks = { AsksNever };

    ghost written = { written_option };

    ghost can_write = { CanWriteOption };

    ghost least_size = { 1 };

    ghost grammar = { Option-grammar };

    ghost takes = { some_taken Option-grammar };

    fn serialized_size(&self) -> u64 {
        number_of(self).serialized_size()
    }

    fn serialize_into(&self, out: &mut [u8]) -> usize {
        number_of(self).serialize_into(out)
    }

    fn deserialize(alloc: Global, input: &mut &[u8]) -> Result<Option<u64>, Error> {
        match u64::deserialize(alloc, input)? {
            0 => Ok(None),
            number => Ok(Some(number - 1)),
        }
    }
}

// The number that an optional number is encoded as.
fn number_of(value: &Option<u64>) -> u64
    requires { CanWriteOption value.now }
    ensures { result ≡ number_of value.now }
{
    match value {
        None => 0,
        Some(number) => *number + 1,
    }
}

impl Serialize for Option<i64> {
    ghost reads = { ReadsSigned };

    ghost asks = { AsksNever };

    ghost written = { written_signed };

    ghost can_write = { CanWriteSigned };

    ghost least_size = { 8 };

    ghost grammar = { Signed-grammar };

    ghost takes = { some_taken Signed-grammar };

    fn serialized_size(&self) -> u64 {
        8
    }

    fn serialize_into(&self, out: &mut [u8]) -> usize {
        signed_of(self).serialize_into(out)
    }

    fn deserialize(alloc: Global, input: &mut &[u8]) -> Result<Option<i64>, Error> {
        Ok(missing_at_0(i64::deserialize(alloc, input)?))
    }
}

// The number that an optional signed number is encoded as.
fn signed_of(value: &Option<i64>) -> i64
    requires { CanWriteSigned value.now }
    ensures { result ≡ signed_of value.now }
{
    match value {
        None => 0,
        Some(number) if *number < 0 => *number,
        Some(number) => *number + 1,
    }
}

// The optional signed number that is encoded as this number.
fn missing_at_0(number: i64) -> Option<i64>
    ensures { signed_of result ≡ number }
{
    if number == 0 {
        None
    } else if number < 0 {
        Some(number)
    } else {
        Some(number - 1)
    }
}

impl Serialize for Option<NonZeroU64> {
    ghost reads = { ReadsPageNumber };

    ghost asks = { AsksNever };

    ghost written = { written_page };

    ghost can_write = { CanWritePage };

    ghost least_size = { 1 };

    ghost grammar = { Page-grammar };

    ghost takes = { some_taken Page-grammar };

    fn serialized_size(&self) -> u64 {
        page_number(self).serialized_size()
    }

    fn serialize_into(&self, out: &mut [u8]) -> usize {
        page_number(self).serialize_into(out)
    }

    fn deserialize(alloc: Global, input: &mut &[u8]) -> Result<Option<NonZeroU64>, Error> {
        Ok(NonZeroU64::new(u64::deserialize(alloc, input)?))
    }
}

// The number that an optional page is encoded as.
fn page_number(page: &Option<NonZeroU64>) -> u64
    ensures { result ≡ page_number page.now }
{
    match page {
        None => 0,
        Some(page) => page.get(),
    }
}
