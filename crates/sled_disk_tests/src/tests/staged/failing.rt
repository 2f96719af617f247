// A caller whose write or sync failed.

use super::Script;
use super::Step::{
    Counted, Done, Fails, HandsIn, HasFailed, Len, MakesRoom, Needs, ReadFails, Reads, Syncs,
    ToSync, ToWrite, Writes,
};

// The caller fails before anything waits, with a write, a part of one, a sync, or nothing left.
pub(super) const FAILURES: &[Script] = &[
    (
        "before anything waits",
        4,
        &[
            HasFailed(false),
            Fails,
            HasFailed(true),
            Writes(0, b"a", false),
            Writes(0, b"", false),
            Syncs(false),
            Done,
            Len(4),
            Counted(1, 0, 3),
        ],
    ),
    (
        "while a write waits",
        0,
        &[
            Writes(0, b"abc", true),
            Syncs(true),
            Fails,
            Done,
            Writes(3, b"d", false),
            Syncs(false),
            Done,
            HasFailed(true),
        ],
    ),
    (
        "while a part of a write waits",
        0,
        &[
            Writes(0, b"abc", true),
            ToWrite(2, 0, b"ab"),
            Fails,
            Done,
            Syncs(false),
            Done,
        ],
    ),
    (
        "while a sync waits",
        0,
        &[
            Writes(0, b"abc", true),
            Syncs(true),
            ToWrite(64, 0, b"abc"),
            Fails,
            Done,
            Syncs(false),
        ],
    ),
    (
        "when nothing is left, and twice",
        0,
        &[
            Writes(0, b"abc", true),
            Syncs(true),
            ToWrite(64, 0, b"abc"),
            ToSync(64),
            Done,
            Fails,
            Fails,
            HasFailed(true),
            Writes(0, b"a", false),
            Done,
        ],
    ),
    (
        "and bytes are handed in and read as before, but for those of a write that was lost",
        8,
        &[
            HandsIn(0, b"ab"),
            Writes(4, b"efgh", true),
            Fails,
            Reads(0, b"ab"),
            ReadFails(4, 2),
            Needs(4, 2),
            HandsIn(4, b"??"),
            ReadFails(4, 2),
            HandsIn(2, b"cd"),
            Reads(0, b"abcd"),
            MakesRoom(8, true),
            HasFailed(true),
        ],
    ),
];
