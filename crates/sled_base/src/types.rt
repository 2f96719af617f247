//! The plain types that every layer uses, and the error of the page cache.

ghost use Rattle.std.specs.Prelude.{◌≡◌, ◌↔◌, IsTrue};
ghost use Rattle.sled_base.specs.Errors.{error_of, number_of_why, number_of_bug};
ghost use Rattle.sled_base.specs.Pointers.{IsBlob, offset_of, IsBlobAt};
ghost use Rattle.sled_base.specs.declared.types.Error.TheVariants.{OutOfMemory};

mod page_state;

use crate::ivec::IVec;
pub use page_state::PageState;
use std::alloc::{AllocError, AllocFailed};
use thiserror::Error;

/// The number of a page.
pub type PageId = u64;

/// A place in a log, in bytes from its start.
pub type LogOffset = u64;

/// The number of a segment of a log.
pub type SegmentId = usize;

/// The place of a message in a log, as a log sequence number: in bytes, like a [`LogOffset`].
pub type Lsn = i64;

/// The place of the message that first held a blob, as an [`Lsn`].
pub type BlobPointer = i64;

/// The content of the mark of a batch in a log: the place of the batch's last record.
#[derive(Clone, Copy, Debug, Default, PartialEq, Eq, PartialOrd, Ord)]
pub struct BatchManifest(pub Lsn);

/// The place of a message in a log, and whether its payload is a blob.
#[derive(Clone, Copy, Debug, PartialEq, Eq)]
pub enum DiskPtr {
    /// The message at this place holds its payload.
    Inline(LogOffset),
    /// The payload of the message at this place is a blob, with the pointer to it.
    Blob(LogOffset, BlobPointer),
}

impl DiskPtr {
    /// Returns the place of the message.
    pub fn lid(self) -> LogOffset
        ensures { result ≡ offset_of self }
    {
        match self {
            DiskPtr::Inline(lid) | DiskPtr::Blob(lid, _) => lid,
        }
    }

    /// Returns whether the payload is a blob.
    pub fn is_blob(self) -> bool
        ensures { IsTrue result ↔ IsBlob self }
    {
        matches!(self, DiskPtr::Blob(_, _))
    }

    /// Returns the place of the message and the pointer to its blob. [`is_blob`](DiskPtr::is_blob) must hold.
    pub fn blob(self) -> (LogOffset, BlobPointer)
        requires { IsBlob self }
        ensures { IsBlobAt self result.0 result.1 }
    {
        match self {
            DiskPtr::Blob(lid, pointer) => (lid, pointer),
            DiskPtr::Inline(_) => unreachable!(),
        }
    }
}

/// The reason why a call isn't supported as it was made. The `Display` text of the error shows its number.
#[derive(Clone, Copy, Debug, PartialEq, Eq)]
pub enum Why {
    /// The page is reserved for the cache itself.
    ReservedId = 1,
    /// The capacity of the cache is below 256.
    CapacityTooSmall = 2,
    /// The interval in which generated ids are persisted is 0.
    IntervalZero = 3,
    /// The size of a segment is 0.
    SegmentZero = 4,
    /// No page is free, and there are 2^37 of them.
    PagesUsedUp = 5,
    /// The next generated id would be above `u64::MAX`.
    IdsUsedUp = 6,
    /// The stamp of the page is `u64::MAX`.
    StampUsedUp = 7,
    /// A batch is open.
    BatchOpen = 8,
    /// There are 2^24 named roots already.
    TooManyNames = 9,
    /// The name has more than 2^31 - 1 bytes.
    NameTooLong = 10,
    /// The log has no room for the message.
    LogFull = 11,
    /// The book of the calls has no room for this one.
    BookFull = 12,
}

impl Why {
    /// Returns its number.
    pub fn number(self) -> u8
        ensures { result ≡ number_of_why self }
    {
        self as u8
    }
}

/// A misuse of a node, or a page of the wrong kind, which should never happen.
#[derive(Clone, Copy, Debug, PartialEq, Eq)]
pub enum Bug {
    /// The page of the named roots is missing.
    MissingMeta = 1,
    /// The page of the counter is missing. No call returns this.
    MissingCounter = 2,
    /// The node doesn't accept the link, for example because its key is outside the node's range.
    LinkRefused = 3,
    /// A free page was read from the log.
    FreeInPull = 4,
}

impl Bug {
    /// Returns its number.
    pub fn number(self) -> u8
        ensures { result ≡ number_of_bug self }
    {
        self as u8
    }
}

/// The kind of device operation that failed.
#[derive(Clone, Copy, Debug, PartialEq, Eq)]
pub enum Device {
    /// A read.
    Read,
    /// A write or a sync.
    Write,
}

/// The error of a call of the page cache.
///
/// The contract of each call says what an error leaves. `Display` prints what a reply line of `sledpc` shows.
#[derive(Debug, Drop, PartialEq, Eq, Error)]
pub enum Error {
    /// No root has this name.
    #[error("error collection")]
    CollectionNotFound(IVec),
    /// The call isn't supported as it was made.
    #[error("error unsupported {}", .0.number())]
    Unsupported(Why),
    /// A node was misused, or a page is of the wrong kind.
    #[error("error bug {}", .0.number())]
    ReportableBug(Bug),
    /// The device failed in this call, or a write failed in an earlier one.
    #[error("error {}", match .0 {Device::Read => "read", Device::Write => "write"})]
    Io(Device),
    /// The log holds data that no cache wrote. The place, if there is one, is that of a message of the damaged page.
    #[error("error corruption")]
    Corruption(Option<DiskPtr>),
    /// An allocation failed.
    #[error("error memory")]
    OutOfMemory,
}

/// An [`Error`] that owns no memory. The calls that return references into the cache return it, and `?` converts it to an [`Error`].
#[derive(Clone, Copy, Debug, PartialEq, Eq, Error)]
pub enum Refusal {
    /// The call isn't supported as it was made.
    #[error("error unsupported {}", .0.number())]
    Unsupported(Why),
    /// A node was misused, or a page is of the wrong kind.
    #[error("error bug {}", .0.number())]
    ReportableBug(Bug),
    /// The device failed in this call, or a write failed in an earlier one.
    #[error("error {}", match .0 {Device::Read => "read", Device::Write => "write"})]
    Io(Device),
    /// The log holds data that no cache wrote. The place, if there is one, is that of a message of the damaged page.
    #[error("error corruption")]
    Corruption(Option<DiskPtr>),
    /// An allocation failed.
    #[error("error memory")]
    OutOfMemory,
}

impl From<Refusal> for Error {
    ghost from_gives = { λ refusal e. e ≡ error_of refusal };

    fn from(refusal: Refusal) -> Error {
        match refusal {
            Refusal::Unsupported(why) => Error::Unsupported(why),
            Refusal::ReportableBug(bug) => Error::ReportableBug(bug),
            Refusal::Io(device) => Error::Io(device),
            Refusal::Corruption(pointer) => Error::Corruption(pointer),
            Refusal::OutOfMemory => Error::OutOfMemory,
        }
    }
}

impl From<AllocError> for Error {
    ghost from_gives = { λ _ e. e ≡ OutOfMemory };

    fn from(_e: AllocError) -> Error {
        Error::OutOfMemory
    }
}

impl<T: Drop> From<AllocFailed<T>> for Error {
    ghost from_gives = { λ _ e. e ≡ OutOfMemory };

    fn from(_e: AllocFailed<T>) -> Error {
        Error::OutOfMemory
    }
}
