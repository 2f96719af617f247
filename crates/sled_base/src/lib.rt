//! The base of the page cache: byte strings, the plain types that every layer uses, and how plain values are encoded.
//!
//! In reading order:
//!
//! - `types`: the plain types that every layer uses, and the error of the page cache
//! - `kinds`: the kinds of the messages in a log
//! - `kept`, `ivec`: byte strings, inline if they are short, and shared if they are long
//! - `search`, `prefix`: searches in sorted keys, and keys without the prefix that they share
//! - `serialization`: payloads: how values are encoded as bytes, and decoded
//! - `moves`, `strings`: moving bytes up or down in a buffer, and byte strings in one buffer
//! - `growth`: how a vector grows so that it leaves little memory unused
//! - `dll`: a doubly linked list of page ids
//! - `lru`: pages by their recent use, and which of them are evicted when together they exceed a capacity
//! - `laws`: laws of the definitions that contracts cite
#![tactic(auto)]

pub mod dll;
pub mod growth;
pub mod ivec;
mod kept;
pub mod kinds;
pub mod laws;
pub mod lru;
mod moves;
pub mod prefix;
pub mod search;
pub mod serialization;
pub mod strings;
pub mod types;

pub use dll::{DoublyLinkedList, Slot};
pub use ivec::IVec;
pub use kinds::{LogKind, MessageKind};
pub use lru::Lru;
pub use serialization::{ConsumeSequence, Serialize};
pub use types::{
    BatchManifest, BlobPointer, Bug, Device, DiskPtr, Error, LogOffset, Lsn, PageId, PageState,
    Refusal, SegmentId, Why,
};
