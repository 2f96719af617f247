//! What a log keeps of a record in memory.

use sled_base::MessageKind;

/// What a log keeps of the record of a page: its kind, its place in the file, and its payload's length.
#[derive(Clone, Copy, Debug, PartialEq, Eq)]
pub(crate) struct Head {
    pub kind: MessageKind,
    pub place: u64,
    pub len: u64,
}
