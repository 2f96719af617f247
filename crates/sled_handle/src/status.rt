//! The numbers that calls return.
//!
//! From [`RESERVED_ID`] on they are those of the errors of `sled_base`: 100 plus the number of a `Why`, and 200 plus that of a `Bug`.

ghost use Rattle.std.specs.Prelude.{◌≡◌};
ghost use Rattle.sled_base.specs.Errors.{error_of};
ghost use Rattle.sled_handle.specs.Numbers.{number_of_error, number_of_tree_error};

use sled_pagecache::{Device, Error, Refusal};
use sled_tree::TreeError;

/// The call succeeded.
pub const OK: u32 = 0;

/// The page has another stamp, or the name another root, which replaces the one that was given; or the key has another value, or none. Nothing
/// changed.
pub const STALE: u32 = 1;

/// There is no such page: it was never allocated, or is free. Nothing changed.
pub const GONE: u32 = 2;

/// The name has no root; the page or the map has no such key; there is no pair on that side of a bound; or there is no further name. Nothing changed.
pub const NONE: u32 = 3;

/// The buffer is too short, and nothing was written to it; the number of bytes needed was written.
pub const SHORT: u32 = 4;

/// The handle has no open cache; or the handle that a rewrite writes to has no new log. Nothing was done.
pub const CLOSED: u32 = 5;

/// The handle has an open cache, which stays.
pub const ALREADY_OPEN: u32 = 6;

/// The bytes encode no pairs that a leaf can hold: they are cut off, not ascending, too long or too many. Or the number names no kind of bound, or no
/// side. Nothing changed.
pub const ARGUMENTS: u32 = 7;

/// No batch is open. Nothing changed.
pub const NO_BATCH: u32 = 8;

/// The page is an index, whose pairs have no values. Nothing changed.
pub const INDEX: u32 = 9;

/// The call isn't available over a file, which the program reads and writes: it would move pages, or measure all of them. Nothing changed.
pub const NOT_OVER_FILE: u32 = 10;

/// The key has more than 2^31 - 1 bytes. Nothing changed.
pub const KEY_TOO_LONG: u32 = 11;

/// The value has more than 2^31 - 1 bytes. Nothing changed.
pub const VALUE_TOO_LONG: u32 = 12;

/// An allocation failed. Nothing changed, except that pages made by `dilluvas_open_tree`, and an empty map made by `dilluvas_map_set` or
/// `dilluvas_map_cas`, remain. The call may be repeated.
pub const MEMORY: u32 = 16;

/// A read failed. Nothing changed, except that an empty map made by `dilluvas_map_set` or `dilluvas_map_cas` remains. The call may be repeated.
pub const READ: u32 = 17;

/// A write failed, in this call or in an earlier one. Every later call returns this, until the store is reopened.
pub const WRITE: u32 = 18;

/// No cache wrote the messages of the page, or the bytes of the file. Nothing changed.
pub const CORRUPTION: u32 = 19;

/// Bytes of the file are needed. Nothing changed, with the same exception as for `READ`: the program hands them in and repeats the call.
pub const NEEDS: u32 = 20;

/// The path names no file with bytes to read and write, but a folder for example. The library doesn't return this: the code that reads and writes a
/// file for it does.
pub const NO_FILE: u32 = 32;

/// The file may not be read and written, or can't be made. Not returned by the library, as above.
pub const NO_ACCESS: u32 = 33;

/// Another process has the file open. Not returned by the library, as above.
pub const HELD: u32 = 34;

/// The disk has no room for the change, which was not begun. Not returned by the library, as above.
pub const DISK_FULL: u32 = 35;

/// The page is the cache's own.
pub const RESERVED_ID: u32 = 101;

/// The capacity of the cache is below 256.
pub const CAPACITY_TOO_SMALL: u32 = 102;

/// The interval at which ids are persisted is 0.
pub const INTERVAL_ZERO: u32 = 103;

/// The size of a segment is 0.
pub const SEGMENT_ZERO: u32 = 104;

/// No page is free, and all 2^37 page numbers are used.
pub const PAGES_USED_UP: u32 = 105;

/// No id is left below 2^64.
pub const IDS_USED_UP: u32 = 106;

/// The stamp of the page is the greatest one.
pub const STAMP_USED_UP: u32 = 107;

/// A batch is open. Until it is closed, a flush, a second pin, a rewrite, and an id that needs a new counter are refused.
pub const BATCH_OPEN: u32 = 108;

/// There are 2^24 other names.
pub const TOO_MANY_NAMES: u32 = 109;

/// The name has more than 2^31 - 1 bytes.
pub const NAME_TOO_LONG: u32 = 110;

/// The log has no room for the message.
pub const LOG_FULL: u32 = 111;

/// The book of calls has no room. No call of this library returns this.
pub const BOOK_FULL: u32 = 112;

/// The page of the named roots is missing. No cache returns this.
pub const MISSING_META: u32 = 201;

/// The page of the counter is missing. No cache returns this.
pub const MISSING_COUNTER: u32 = 202;

/// The node doesn't accept the link: it is an index, the key is out of its range, or the leaf is full.
pub const LINK_REFUSED: u32 = 203;

/// A free page was read from the log. No cache returns this.
pub const FREE_IN_PULL: u32 = 204;

// Behind these the number of a reason follows, or of a bug.
const UNSUPPORTED: u32 = 100;

const BUG: u32 = 200;

/// Returns the status of an error.
pub fn status_of(error: &Error) -> u32
    ensures { result ≡ number_of_error error.now }
{
    match error {
        Error::CollectionNotFound(_) => NONE,
        Error::Unsupported(why) => UNSUPPORTED + u32::from(why.number()),
        Error::ReportableBug(bug) => BUG + u32::from(bug.number()),
        Error::Io(Device::Read) => READ,
        Error::Io(Device::Write) => WRITE,
        Error::Corruption(_) => CORRUPTION,
        Error::OutOfMemory => MEMORY,
    }
}

/// Returns the status of a refusal.
pub fn status_of_refusal(refusal: Refusal) -> u32
    ensures { result ≡ number_of_error (error_of refusal) }
{
    status_of(&Error::from(refusal))
}

/// Returns the status of an error of a map.
pub fn status_of_tree(error: &TreeError) -> u32
    ensures { result ≡ number_of_tree_error error.now }
{
    match error {
        TreeError::KeyTooLong => KEY_TOO_LONG,
        TreeError::ValueTooLong => VALUE_TOO_LONG,
        TreeError::NoBatch => NO_BATCH,
        TreeError::Cache(error) => status_of(error),
    }
}

/// Returns an English text for a status. Every number has one.
pub fn text_of(status: u32) -> &'static str {
    match status {
        OK => "done",
        STALE =>
            "the page has another stamp, the name another root, or the key another value than expected: read it again",
        GONE => "there is no such page: it was never allocated, or it was freed",
        NONE => "there is no such key, root, name or pair",
        SHORT => "the buffer is too short: repeat the call with one of the length that it wrote",
        CLOSED => "the handle has no open cache",
        ALREADY_OPEN => "the handle already has an open cache: close it first",
        ARGUMENTS =>
            "invalid argument: bytes that encode no ascending pairs for a leaf, a null pointer, or an unknown bound or side",
        NO_BATCH => "no batch is open",
        INDEX => "the page is an index, whose pairs have no values",
        NOT_OVER_FILE => "the call is not available over a file",
        KEY_TOO_LONG => "the key is longer than 2^31 - 1 bytes",
        VALUE_TOO_LONG => "the value is longer than 2^31 - 1 bytes",
        MEMORY => "an allocation failed",
        READ => "a read failed",
        WRITE => "a write or a sync failed, in this call or an earlier one",
        CORRUPTION => "the file or a page is damaged, or was not written by Dilluvas",
        NEEDS => "bytes of the file are needed: hand them in, and repeat the call",
        NO_FILE => "the path names a directory, or something else that is not a regular file",
        NO_ACCESS => "the file cannot be opened or created",
        HELD => "the file is open in another process, or already open in this one",
        DISK_FULL => "the disk has no room for the change, and nothing was changed",
        RESERVED_ID => "the page is reserved for the cache",
        CAPACITY_TOO_SMALL => "the capacity of the cache is below 256",
        INTERVAL_ZERO => "the interval of ids is 0, and must be at least 1",
        SEGMENT_ZERO => "the size of a segment is 0, and must be at least 1",
        PAGES_USED_UP => "all 2^37 pages are in use",
        IDS_USED_UP => "all ids below 2^64 are used up",
        STAMP_USED_UP => "the stamp of the page is 2^64 - 1, so the page cannot change any more",
        BATCH_OPEN => "a batch is open: seal or cancel it first",
        TOO_MANY_NAMES => "there are already 2^24 other names",
        NAME_TOO_LONG => "the name is longer than 2^31 - 1 bytes",
        LOG_FULL => "the log is full: it has no room for the change",
        BOOK_FULL => "the book of calls has no room",
        MISSING_META => "the page of the named roots is missing",
        MISSING_COUNTER => "the page of the counter is missing",
        LINK_REFUSED =>
            "the page does not accept the change: it is an index, the key is out of its range, or the leaf is full",
        FREE_IN_PULL => "a free page was read from the log",
        _ => "unknown status: no call returns it",
    }
}
