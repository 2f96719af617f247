// Replies to errors and to ids.

use sled_base::{Bug, Device, Error, Why};
use sled_lines::Piece;
use sled_lines::output::write_out;
use sled_script::reply::{LentAnswer, gather_line};
use std::alloc::Global;

// Whether an answer is replied to by this line.
fn replies_with(alloc: Global, lent: LentAnswer<'_>, want: &str) -> bool {
    let mut writer = Vec::new(alloc);
    let mut piece = Piece::new();
    gather_line(&mut writer, &mut piece, lent).is_ok()
        && write_out(&mut writer, &mut piece).is_ok()
        && writer.as_slice() == want.as_bytes()
}

// Whether a call that is refused so is replied to by this line.
fn replies_to_error(alloc: Global, error: Error, want: &str) -> bool {
    replies_with(alloc, LentAnswer::Flushed(&Err(error)), want)
}

// Whether a generated id, or why none is given, is replied to by this line.
fn replies_to_id(alloc: Global, given: Result<u64, Error>, want: &str) -> bool {
    replies_with(alloc, LentAnswer::Generated(&given), want)
}

#[test]
fn replies_to_errors(rt: HostRuntime) {
    for (error, want) in [
        (Error::Unsupported(Why::BatchOpen), "error unsupported 8\n"),
        (Error::ReportableBug(Bug::LinkRefused), "error bug 3\n"),
        (Error::Io(Device::Read), "error read\n"),
        (Error::Io(Device::Write), "error write\n"),
        (Error::Corruption(None), "error corruption\n"),
        (Error::OutOfMemory, "error memory\n"),
    ] {
        assert!(rt; replies_to_error(rt.alloc(), error, want), "at {want}");
    }
}

#[test]
fn replies_to_ids(rt: HostRuntime) {
    for (given, want) in [
        (Ok(0), "id 0\n"),
        (Ok(u64::MAX), "id 18446744073709551615\n"),
        (
            Err(Error::Unsupported(Why::IdsUsedUp)),
            "error unsupported 6\n",
        ),
        (
            Err(Error::Unsupported(Why::LogFull)),
            "error unsupported 11\n",
        ),
        (Err(Error::Io(Device::Write)), "error write\n"),
        (Err(Error::OutOfMemory), "error memory\n"),
    ] {
        assert!(rt; replies_to_id(rt.alloc(), given, want), "at {want}");
    }
}
