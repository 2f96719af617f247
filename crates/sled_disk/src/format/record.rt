//! A file's bytes as numbers and records.

ghost use Rattle.std.specs.Prelude.{◌≡◌, ℕ, ◌≤◌, ◌&&◌, ◌||◌, ◌==◌, true, List, length, take, drop, get_or};
ghost use Rattle.sled_disk.specs.Format.{number, mark_id, is_mark, is_begin, is_closing};
ghost use Rattle.sled_disk.specs.Reading.{raw_record};

// the bytes of `SLPCLOG1`
pub(crate) const OPENING: [u8; 8] = [0x53, 0x4c, 0x50, 0x43, 0x4c, 0x4f, 0x47, 0x31];

// the greatest place of a gate
pub(crate) const MAX_PLACE: u64 = i64::MAX as u64;

// the page id of a record that marks a batch
pub(crate) const MARK_ID: u64 = u64::MAX - 666;

// Kinds of records that a file alone has, beside that of a cancelled batch: a batch begins, it ends, and it was abandoned.
pub(crate) const CANCELLED: u8 = 1;

pub(crate) const BEGIN: u8 = 12;

pub(crate) const END: u8 = 13;

pub(crate) const ABANDONED: u8 = 14;

// A record as it stands in a file.
#[derive(Clone, Copy)]
pub(crate) struct RawHead {
    pub kind: u8,
    pub page: u64,
}

// The number that the first 8 bytes are.
#[tactic(auto, unfolding(crate::specs::Format::number))]
pub(crate) fn number_at(bytes: &[u8]) -> u64
    requires { 8 ≤ length bytes.now }
    ensures { result ≡ number (take 8 bytes.now) }
{
    u64::from_le_bytes([
        bytes[0], bytes[1], bytes[2], bytes[3], bytes[4], bytes[5], bytes[6], bytes[7],
    ])
}

// The head of the record that the first bytes are, and its payload's length.
pub(crate) fn head_in(bytes: &[u8]) -> (RawHead, u64)
    requires { 17 ≤ length bytes.now }
    ensures kind { result.0.kind ≡ get_or bytes.now 0 0 }
    ensures page { result.0.page ≡ number (take 8 (drop 1 bytes.now)) }
    ensures len { result.1 ≡ number (take 8 (drop 9 bytes.now)) }
{
    let raw = RawHead {
        kind: bytes[0],
        page: number_at(&bytes[1..]),
    };
    (raw, number_at(&bytes[9..]))
}

// Whether a record with a payload of that length has the page id and the length of a batch's mark.
pub(crate) fn is_mark(raw: RawHead, len: u64) -> bool
    ensures is { (payload : List ℕ) → length payload ≡ len
        → result ≡ is_mark (raw_record raw payload) }
    ensures len { result ≡ true → len ≡ 8 }
{
    raw.kind == 3 && raw.page == MARK_ID && len == 8
}

// Whether a record with a payload of that length has the page id and the length of one that begins a batch.
pub(crate) fn is_begin(raw: RawHead, len: u64) -> bool
    ensures is { (payload : List ℕ) → length payload ≡ len
        → result ≡ is_begin (raw_record raw payload) }
    ensures len { result ≡ true → len ≡ 0 }
{
    raw.page == MARK_ID && len == 0
}

// And that of one that closes a batch.
pub(crate) fn is_end(raw: RawHead, len: u64) -> bool
    ensures is { result ≡ (raw.page == mark_id && len == 8) }
    ensures len { result ≡ true → len ≡ 8 }
{
    raw.page == MARK_ID && len == 8
}

// Whether a record begins a batch, by its kind.
pub(crate) fn begins(raw: RawHead) -> bool
    ensures { result ≡ (raw.kind == 12) }
{
    raw.kind == BEGIN
}

// Whether a record of a begun batch closes it, by its kind.
pub(crate) fn closes(raw: RawHead) -> bool
    ensures { result ≡ is_closing raw.kind }
{
    raw.kind == END || raw.kind == CANCELLED || raw.kind == ABANDONED
}
