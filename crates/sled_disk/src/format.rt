//! What the bytes of a log's file mean: the parts of a record, a frame, and the frame that is written next.

pub(crate) mod frame;
pub(crate) mod next_frame;
pub(crate) mod record;
