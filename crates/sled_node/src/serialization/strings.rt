//! The encoding of the strings of a leaf, one after the other.

ghost use Rattle.std.specs.Prelude.{◌≡◌, ⊤, length, IfOk, IfErr, OnErr};
ghost use Rattle.sled_base.specs.Payloads.Reading.{IsRefusal};
ghost use Rattle.sled_base.specs.Payloads.ByteStrings.{ReadsBytes};
ghost use Rattle.sled_base.specs.Strings.{BeginsWith};
ghost use Rattle.sled_node.specs.Payloads.Sequences.{ReadsAll, ReadsCount};
ghost use Rattle.sled_node.specs.Payloads.ShortStrings.{ReadsShort};

use super::short::split_short;
use sled_base::Error;
use sled_base::strings::Strings;
use sled_base::strings::builder::StringsBuilder;
use std::alloc::Global;

// What stands behind strings that the input begins with.
pub fn behind<'a>(strings: &Strings, input: &'a [u8]) -> &'a [u8]
    requires { BeginsWith (length strings.now) strings.now input.now }
    ensures { ReadsAll ReadsBytes input.now strings.now result.now }
{
    &input[strings.written().len()..]
}

// Reads so many strings one by one. What they take as they are written is no more than they take here.
pub fn read_each(alloc: Global, count: usize, input: &mut &[u8]) -> Result<Strings, Error>
    ensures read { IfOk result
        (λ strings. ReadsCount count ReadsBytes input.old.now strings input.new.now) }
    ensures refused { IfErr result (IsRefusal (λ _. ⊤) (ReadsCount count ReadsShort) input.old.now) }
    ensures stays { OnErr result (input.new ≡ input.old) }
{
    let mut rest = *input;
    let mut strings = StringsBuilder::with_room(alloc, count, rest.len())?;
    for _ in 0..count {
        let Some((string, behind)) = split_short(rest) else {
            return Err(Error::Corruption(None));
        };
        strings.push(string)?;
        rest = behind;
    }
    *input = rest;
    Ok(strings.build())
}
