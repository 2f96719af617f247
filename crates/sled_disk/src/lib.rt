//! The log of the page cache on a disk: in memory, in a file of the system, or in a file that the caller reads and writes.
//!
//! Its modules, each of which uses only those before it:
//!
//! - `disk`: the trait `Disk`, and disks in memory, on a file of the system and on a caller's file
//! - `format`: the bytes of records and frames
//! - `recovery`: what is kept of each record, and the pages that the records of a file make
//! - `reader`: reads a file from record to record
//! - `log`: the log and its calls
//! - `laws`: what holds of every file, and after a crash
#![tactic(auto)]

mod disk;
mod format;
pub mod laws;
mod log;
mod reader;
mod recovery;

pub use disk::{
    CallersFile, Disk, FileDisk, MemDisk, StagedDisk, SystemFile, Task, UnseenFile, do_task,
};
pub use laws::crashes::{
    a_disk_log_at_rest, a_log_at_rest, a_log_on_a_disk_in_memory_tells,
    a_log_on_a_file_in_memory_tells, a_log_on_a_file_tells, reopen_after_a_crash,
    what_was_flushed_is_there,
};
pub use log::DiskLog;
pub use reader::Reader;
