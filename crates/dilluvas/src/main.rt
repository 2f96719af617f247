//! Ordered maps with a script: the program `dilluvas FILE`, or `dilluvas :memory:`. Everything except reading its arguments is in `sled_keys`, which
//! says what of it is proved, and what is shown by tests. Its arguments are read by `sled_lines`.
#![tactic(auto)]

use sled_keys::drive;
use sled_lines::words_of;
use std::process::ExitCode;

fn main(rt: HostRuntime) -> ExitCode {
    let words = words_of(&rt);
    let words = match &words {
        Ok(words) => Ok(words.as_slice()),
        Err(none) => Err(*none),
    };
    let (input, output, faults) = (&mut rt.reader(), &mut rt.stdout(), &mut rt.stderr());
    ExitCode::from(drive(&rt, words, input, output, faults))
}
