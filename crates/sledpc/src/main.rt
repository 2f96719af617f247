//! The program `sledpc`: what it takes from the system. Everything else is in [`sled_script`], except for reading its arguments, which is
//! in [`sled_lines`].
#![tactic(auto)]

use sled_lines::words_of;
use sled_script::drive;
use std::process::ExitCode;

fn main(rt: HostRuntime) -> ExitCode {
    let words = words_of(&rt);
    let words = match &words {
        Ok(words) => Ok(words.as_slice()),
        Err(none) => Err(*none),
    };
    let status = drive(
        rt,
        rt.alloc(),
        words,
        &mut rt.reader(),
        &mut rt.stdout(),
        &mut rt.stderr(),
    );
    ExitCode::from(status)
}
