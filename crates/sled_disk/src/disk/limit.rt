//! How large a file the process may write.

use std::fs::{File, Files};
use std::os::unix::fs::FileExt;

// Where the system says it, in the line with this name: the name, blanks, and the number of bytes or a word.
const LIMITS: &str = "/proc/self/limits";

const NAME: &[u8] = b"Max file size";

/// Returns how many bytes a file may have that the process writes, or `u64::MAX` if the system does not report a limit. A write that passes
/// the limit ends the process.
pub(super) fn size_limit<R: Files<File = File>>(files: &R) -> u64 {
    let mut text = [0; 1024];
    let Ok(file) = File::open(files, LIMITS) else {
        return u64::MAX;
    };
    match file.read_at(&mut text, 0) {
        Ok(len) => limit_in(&text[..len]).unwrap_or(u64::MAX),
        Err(_) => u64::MAX,
    }
}

// The number behind the name, or none where there is no such line, or a word in its place.
fn limit_in(text: &[u8]) -> Option<u64> {
    let line = text
        .split(|&byte| byte == b'\n')
        .find(|line| line.starts_with(NAME))?;
    let number = line[NAME.len()..].trim_ascii_start();
    if !number.first()?.is_ascii_digit() {
        return None;
    }
    let mut limit: u64 = 0;
    for &byte in number {
        if !byte.is_ascii_digit() {
            break;
        }
        limit = limit.checked_mul(10)?.checked_add(u64::from(byte - b'0'))?;
    }
    Some(limit)
}
