//! Opening a cache over a file.

ghost use Rattle.sled_handle.specs.FileOpenings.{OpenFile, OpenLog};

use sled_handle::{FileSettings, Handle};
use std::alloc::Global;

/// Opens a cache over a file of `len` bytes in a closed handle, once the settings are found to be valid. If bytes of the file are needed, the
/// repeated call continues the opening.
#[unsafe(no_mangle)]
pub extern "C" fn dilluvas_raw_open_file(
    alloc: Global,
    handle: &mut Handle,
    settings: &FileSettings,
    len: u64,
) -> u32
    ensures { OpenFile settings.now handle.old.store handle.new.store result }
{
    handle.open_file(alloc, *settings, len)
}

/// Makes a new log in an empty file, in a closed handle, once the settings are found to be valid, and opens no cache over it. If bytes of the file
/// are needed, the repeated call continues, until the log is read. It continues an opening that was begun in the same way.
#[unsafe(no_mangle)]
pub extern "C" fn dilluvas_raw_new_log(
    alloc: Global,
    handle: &mut Handle,
    settings: &FileSettings,
) -> u32
    ensures { OpenLog settings.now handle.old.store handle.new.store result }
{
    handle.new_log(alloc, *settings)
}
