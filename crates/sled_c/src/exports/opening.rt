//! Opening a cache in memory, closing a handle, and the texts of statuses.

ghost use Rattle.sled_base.specs.Order.{Bytes};
ghost use Rattle.sled_handle.specs.Handles.{CloseHandle};
ghost use Rattle.sled_handle.specs.Openings.{OpenHandle};
ghost use Rattle.sled_handle.specs.Statuses.{TellsBytes};

use sled_handle::output::put_bytes;
use sled_handle::status::text_of;
use sled_handle::{Handle, Settings};
use std::alloc::Global;

/// Opens a cache over a new log in memory in a closed handle.
#[unsafe(no_mangle)]
pub extern "C" fn dilluvas_raw_open_memory(
    alloc: Global,
    handle: &mut Handle,
    settings: &Settings,
) -> u32
    ensures { OpenHandle settings.now handle.old.store handle.new.store result }
{
    handle.open_memory(alloc, *settings)
}

/// Closes a handle, and drops its cache, or the file that is being opened. Nothing is flushed, so an open batch is lost.
#[unsafe(no_mangle)]
pub extern "C" fn dilluvas_raw_close(alloc: Global, handle: &mut Handle) -> u32
    ensures { CloseHandle handle.old.store handle.new.store result }
{
    handle.close(alloc)
}

/// Writes the text of a status, without a terminating zero, and its length.
#[unsafe(no_mangle)]
pub extern "C" fn dilluvas_raw_text(status: u32, buffer: &mut [u8], needed: &mut usize) -> u32
    ensures { (text : Bytes) × TellsBytes text result needed.new buffer.old buffer.new }
{
    put_bytes(text_of(status).as_bytes(), buffer, needed)
}
