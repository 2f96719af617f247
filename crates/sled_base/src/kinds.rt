//! The kinds of the messages in a log.

ghost use Rattle.std.specs.Prelude.{◌≡◌};
ghost use Rattle.sled_base.specs.Kinds.{kind_of, byte_of, log_kind_of};

/// The kind of a message, which is one byte in a log.
///
/// A log may store the payload of an inline kind as a blob. The message then has the blob kind of the same name.
#[derive(Clone, Copy, Debug, PartialEq, Eq)]
pub enum MessageKind {
    /// A message that no cache writes. All bytes above 11 are read as this kind too.
    Corrupted = 0,
    /// A message of a batch that was cancelled.
    Canceled = 1,
    /// The end of what a log has.
    Cap = 2,
    /// The mark of a batch.
    BatchManifest = 3,
    /// The page is free.
    Free = 4,
    /// The counter of generated ids.
    Counter = 5,
    /// The named roots.
    InlineMeta = 6,
    /// The named roots, as a blob.
    BlobMeta = 7,
    /// A whole node.
    InlineNode = 8,
    /// A whole node, as a blob.
    BlobNode = 9,
    /// A link on the node of a page.
    InlineLink = 10,
    /// A link on the node of a page, as a blob.
    BlobLink = 11,
}

impl From<u8> for MessageKind {
    ghost from_gives = { λ byte kind. kind ≡ kind_of byte };

    fn from(byte: u8) -> MessageKind {
        match byte {
            1 => MessageKind::Canceled,
            2 => MessageKind::Cap,
            3 => MessageKind::BatchManifest,
            4 => MessageKind::Free,
            5 => MessageKind::Counter,
            6 => MessageKind::InlineMeta,
            7 => MessageKind::BlobMeta,
            8 => MessageKind::InlineNode,
            9 => MessageKind::BlobNode,
            10 => MessageKind::InlineLink,
            11 => MessageKind::BlobLink,
            _ => MessageKind::Corrupted,
        }
    }
}

impl From<MessageKind> for u8 {
    ghost from_gives = { λ kind byte. byte ≡ byte_of kind };

    fn from(kind: MessageKind) -> u8 {
        kind as u8
    }
}

/// What a message does to its page.
#[derive(Clone, Copy, Debug, PartialEq, Eq)]
pub enum LogKind {
    /// A message that no cache writes.
    Corrupted,
    /// Nothing.
    Skip,
    /// The page becomes free.
    Free,
    /// The content of the page is replaced by that of the message.
    Replace,
    /// A link is applied to the node of the page.
    Link,
}

impl From<MessageKind> for LogKind {
    ghost from_gives = { λ kind log_kind. log_kind ≡ log_kind_of kind };

    fn from(kind: MessageKind) -> LogKind {
        match kind {
            MessageKind::Corrupted => LogKind::Corrupted,
            MessageKind::Canceled | MessageKind::Cap | MessageKind::BatchManifest => LogKind::Skip,
            MessageKind::Free => LogKind::Free,
            MessageKind::Counter
            | MessageKind::InlineMeta
            | MessageKind::BlobMeta
            | MessageKind::InlineNode
            | MessageKind::BlobNode => LogKind::Replace,
            MessageKind::InlineLink | MessageKind::BlobLink => LogKind::Link,
        }
    }
}
