//! The contract of a log: a sequence of page messages. A crash at any moment keeps a prefix of them that splits no batch, except
//! a cancelled one.

ghost use Rattle.std.specs.Prelude.{◌≡◌, ℕ, ℤ, ◌+◌, ◌≤◌, ◌<◌, List, [], true, false, length, slice_index_or, Option, Some, Ok, IfOk, IfErr, OnOk, IsErrOf};
ghost use Rattle.std.specs.List.{All, AllByRecursion, Any, AllZip};
ghost use Rattle.sled_log.specs.Events.{is_open};
ghost use Rattle.sled_log.specs.Calls.{Counts, can_append, Appends, Pins, Seals, Cancels, AddsNothing, ReadsOnce};
ghost use Rattle.sled_log.specs.Chains.{is_chain};
ghost use Rattle.sled_log.specs.Limits.{head_size, size_limit};
ghost use Rattle.sled_log.specs.Messages.{Entry, Messages, message, message_size, effect_of, effect_of_entry};
ghost use Rattle.sled_log.specs.Moves.{HasBlob, NamesBlob, message_at};
ghost use Rattle.sled_log.specs.Pages.{IsPageState, IsSized, IsAt, IsRead, IsReadAs};
ghost use Rattle.sled_log.specs.Payloads.{payload_in};
ghost use Rattle.sled_log.specs.LogState.{LogState, now, IsLeft, unplaced_state};
ghost use Rattle.sled_log.specs.Calls.{refusal_of};
ghost use Rattle.sled_base.specs.Errors.{error_of};
ghost use Rattle.sled_log.specs.declared.log.LogError.TheVariants.{Memory, Full, ReadFault, WriteFault};

use crate::{PageState, Payload};
use sled_base::{
    BlobPointer, Device, DiskPtr, Error, LogOffset, Lsn, MessageKind, PageId, Refusal, Why,
};
use std::alloc::{AllocError, AllocFailed};

/// Why a call of a log failed.
#[derive(Clone, Copy, Debug, PartialEq, Eq)]
pub enum LogError {
    /// An allocation failed.
    Memory,
    /// The log has no room for the message, or for the marks of a batch.
    Full,
    /// A read of the device failed in this call.
    ReadFault,
    /// A write or a sync of the device failed in this call, or was not made, for example because an earlier one had failed.
    WriteFault,
    /// The log holds data that no cache wrote, or does not hold the place or the page that the call names.
    Corruption,
}

impl From<AllocError> for LogError {
    ghost from_gives = { λ _ e. e ≡ Memory };

    fn from(_e: AllocError) -> LogError {
        LogError::Memory
    }
}

impl<T: Drop> From<AllocFailed<T>> for LogError {
    ghost from_gives = { λ _ e. e ≡ Memory };

    fn from(_e: AllocFailed<T>) -> LogError {
        LogError::Memory
    }
}

/// Converts the error of a log into the refusal that a cache returns for it: `OutOfMemory`, `Unsupported(Why::LogFull)`,
/// `Io(Device::Read)`, `Io(Device::Write)`, or `Corruption(None)`.
impl From<LogError> for Refusal {
    ghost from_gives = { λ error refusal. refusal ≡ refusal_of error };

    fn from(error: LogError) -> Refusal {
        match error {
            LogError::Memory => Refusal::OutOfMemory,
            LogError::Full => Refusal::Unsupported(Why::LogFull),
            LogError::ReadFault => Refusal::Io(Device::Read),
            LogError::WriteFault => Refusal::Io(Device::Write),
            LogError::Corruption => Refusal::Corruption(None),
        }
    }
}

impl From<LogError> for Error {
    ghost from_gives = { λ failure error. error ≡ error_of (refusal_of failure) };

    fn from(error: LogError) -> Error {
        Error::from(Refusal::from(error))
    }
}

/// A log of page messages. A message is pending until it is durable; the names of the calls say *stable* for durable.
///
/// A call that fails with an error other than WriteFault adds nothing. After a WriteFault, what that call began to add may be in
/// the log or not, and only the calls that take `&self` may still be made, since all others require a usable log. Any call may
/// make durable a prefix of what is pending and of what the call adds; that prefix splits no batch, except a cancelled one.
///
/// A crash at any moment, even inside a call, leaves a *crash state*: what is durable, and a prefix of what is pending and of
/// what the running call has begun to add. That prefix splits no batch, except a cancelled one.
///
/// The device *tells its bytes* if a read returns what was written there, and a crash keeps what was synced. What the contract
/// says about contents, crash states and Corruption holds if the device tells its bytes. A log over a file whose reads may return
/// any bytes is also a log; the rest of the contract holds for it.
pub trait Log: Drop {
    /// The premise that the device tells its bytes.
    ghost tells: { Type 0 };

    /// The durable chains, the pending events, and whether the log may be called.
    ghost state: { Self → LogState Entry };

    /// The current moment, a number that never decreases.
    ghost moment: { Self → ℕ };

    /// The crash states since a moment: the pages that a crash at that moment or later, during a call or between two calls, might
    /// have left.
    ghost left_since: { Self → ℕ → List Messages → Type 0 };

    /// How often the log was read, and how often the device failed to read and to write.
    ghost counts: { Self → Counts };

    /// The size of the log in bytes, the offset up to which it is durable, and how many bytes `make_stable` would write.
    ghost bytes: { Self → ℕ };

    ghost stable_bytes: { Self → ℤ };

    ghost to_write: { Self → ℕ };

    /// Whether the log has no room for a message whose payload has that many bytes, and whether it has none for the marks of a
    /// batch.
    ghost is_full: { Self → ℕ → Type 0 };

    ghost is_full_for_batch: { Self → Type 0 };

    /// The page and the place of the message that is due to be moved, if there is one.
    ghost due: { Self → Option (ℕ × ℕ) };

    /// Appends a message of page `pid`, and returns its place: its LSN, the pointer to it, and its log size, which is 17 bytes
    /// more than the payload.
    ///
    /// `kind` is `Counter`, `InlineMeta` or `InlineNode`, which put a content on the page, or `Free`, or `InlineLink`. A content
    /// may be put on a page that exists or on the next new one. A page may be freed if it exists, and a link may be added if it
    /// has a content. The log sizes of one chain add up to at most `i64::MAX`.
    ///
    /// Full: the log has no room for the message. An error other than WriteFault leaves the log's contents unchanged.
    fn append(
        &mut self,
        kind: MessageKind,
        pid: PageId,
        payload: &[u8],
    ) -> Result<(Lsn, DiskPtr, u64), LogError>
        requires usable { (state self.old).usable ≡ true }
        requires can { tells
            → can_append effect_of_entry (now effect_of_entry (state self.old)) pid kind ≡ true }
        ensures called { Appends tells state moment left_since counts self.old self.new
            pid (message kind payload.now) result }
        ensures size { IfOk result (λ said. (said.2 ≡ head_size + length payload.now)
            × (said.2 < size_limit)) }
        ensures full { IsErrOf result Full → is_full self.old (length payload.now) }
        ensures sized { tells
            → OnOk result (AllByRecursion IsSized (now effect_of_entry (state self.new))) };

    /// Reads the message of page `pid` at a place of the page's current chain, and returns its kind, or the kind of its blob, and
    /// its payload. It adds nothing, uses no room of the log, and never fails with Full.
    fn read(
        &mut self,
        pid: PageId,
        lsn: Lsn,
        pointer: DiskPtr,
    ) -> Result<(MessageKind, Vec<u8>), LogError>
        requires usable { (state self.old).usable ≡ true }
        requires known { tells → Any (IsAt lsn pointer)
            (slice_index_or (now effect_of_entry (state self.old)) pid []) }
        ensures called { ReadsOnce tells state moment left_since counts self.old self.new result }
        ensures found { tells
            → IfOk result (λ found. All (λ entry. IsAt lsn pointer entry → IsRead entry found)
            (slice_index_or (now effect_of_entry (state self.old)) pid [])) }
        ensures room { (n : ℕ) → is_full self.new n → is_full self.old n }
        ensures not_full { IsErrOf result Full → ⊥ };

    /// Reads a message as `read` does, and may put the payload at the front of `space` if it fits there, which allocates nothing.
    ///
    /// `Payload::bytes` returns the payload in either case. The rest of `space` may hold any bytes afterwards. The default
    /// implementation calls `read`.
    fn read_to(
        &mut self,
        pid: PageId,
        lsn: Lsn,
        pointer: DiskPtr,
        space: &mut [u8],
    ) -> Result<(MessageKind, Payload), LogError>
        requires usable { (state self.old).usable ≡ true }
        requires known { tells → Any (IsAt lsn pointer)
            (slice_index_or (now effect_of_entry (state self.old)) pid []) }
        ensures called { ReadsOnce tells state moment left_since counts self.old self.new result }
        ensures found { tells → IfOk result (λ found. All (λ entry. IsAt lsn pointer entry
            → IsReadAs entry found.0 (payload_in space.new found.1))
            (slice_index_or (now effect_of_entry (state self.old)) pid [])) }
        ensures room { (n : ℕ) → is_full self.new n → is_full self.old n }
        ensures not_full { IsErrOf result Full → ⊥ }
    {
        match self.read(pid, lsn, pointer) {
            Ok((kind, payload)) => Ok((kind, Payload::Long(payload))),
            Err(error) => Err(error),
        }
    }

    /// Makes everything pending durable, and returns how many bytes it wrote. No batch may be open. It allocates nothing, and
    /// fails only with WriteFault.
    fn make_stable(&mut self) -> Result<usize, LogError>
        requires usable { (state self.old).usable ≡ true }
        requires closed { is_open (state self.old).pending ≡ false }
        ensures called { AddsNothing tells state moment left_since counts self.old self.new result }
        ensures stable { OnOk result ((state self.new).pending ≡ []) }
        ensures number { IfOk result (λ n. n ≡ to_write self.old) }
        ensures only { IfErr result (λ e. e ≡ WriteFault) };

    /// Opens a batch, and reserves room for its closing mark. Full: the log has no room for the marks. No other batch may be
    /// open.
    fn pin(&mut self) -> Result<(), LogError>
        requires usable { (state self.old).usable ≡ true }
        requires closed { is_open (state self.old).pending ≡ false }
        ensures called { Pins tells state moment left_since counts self.old self.new result }
        ensures full { IsErrOf result Full → is_full_for_batch self.old };

    /// Seals the open batch: a crash then keeps all of it or nothing. It allocates nothing, and fails only with WriteFault.
    fn seal(&mut self) -> Result<(), LogError>
        requires usable { (state self.old).usable ≡ true }
        requires opened { is_open (state self.old).pending ≡ true }
        ensures called { Seals tells state moment left_since counts self.old self.new result }
        ensures only { IfErr result (λ e. e ≡ WriteFault) };

    /// Cancels the open batch: a crash may then keep part of it. Nothing is rolled back. It allocates nothing, and fails only
    /// with WriteFault.
    fn cancel(&mut self) -> Result<(), LogError>
        requires usable { (state self.old).usable ≡ true }
        requires opened { is_open (state self.old).pending ≡ true }
        ensures called { Cancels tells state moment left_since counts self.old self.new result }
        ensures only { IfErr result (λ e. e ≡ WriteFault) };

    /// Returns the page and the place of the message that is due to be moved, if there is one. After that a different message is
    /// due, or none; the contract leaves this to the implementation. It changes nothing else, and allocates nothing.
    fn to_move(&mut self) -> Option<(PageId, LogOffset)>
        requires usable { (state self.old).usable ≡ true }
        ensures named { result ≡ due self.old }
        ensures called { AddsNothing tells state moment left_since counts self.old self.new
            (Ok result) }
        ensures state { state self.new ≡ state self.old }
        ensures counts { counts self.new ≡ counts self.old }
        ensures size { bytes self.new ≡ bytes self.old }
        ensures stable_size { stable_bytes self.new ≡ stable_bytes self.old }
        ensures number { to_write self.new ≡ to_write self.old }
        ensures room { (n : ℕ) → is_full self.new n → is_full self.old n }
        ensures batch_room { is_full_for_batch self.new → is_full_for_batch self.old };

    /// Appends the message of page `pid` again, and returns its new place, as `append` does. The message must be the page's whole
    /// chain, and stored as the blob `blob`. The new message has the same payload and names the same blob.
    ///
    /// Full: the log has no room for the message. An error other than WriteFault leaves the log's contents unchanged.
    fn rewrite_blob_pointer(
        &mut self,
        pid: PageId,
        blob: BlobPointer,
    ) -> Result<(Lsn, DiskPtr, u64), LogError>
        requires usable { (state self.old).usable ≡ true }
        requires holds { tells → HasBlob (now effect_of_entry (state self.old)) pid blob }
        ensures called { Appends tells state moment left_since counts self.old self.new
            pid (message_at (now effect_of_entry (state self.old)) pid) result }
        ensures size { tells → IfOk result (λ said. said.2
            ≡ message_size (message_at (now effect_of_entry (state self.old)) pid)) }
        ensures fits { IfOk result (λ said. said.2 < size_limit) }
        ensures blob { tells → IfOk result (λ said. NamesBlob blob said.1) }
        ensures full { tells → IsErrOf result Full → is_full self.old
            (length (message_at (now effect_of_entry (state self.old)) pid).payload) }
        ensures sized { tells
            → OnOk result (AllByRecursion IsSized (now effect_of_entry (state self.new))) };

    /// Returns all pages, by id, each with the places of its chain. It adds nothing, uses no room of the log, and never fails
    /// with Full.
    fn recover(&mut self) -> Result<Vec<PageState>, LogError>
        requires usable { (state self.old).usable ≡ true }
        ensures called { AddsNothing tells state moment left_since counts self.old self.new result }
        ensures pages { tells → IfOk result
            (λ pages. AllZip IsPageState (now effect_of_entry (state self.old)) pages.items) }
        ensures sized { tells
            → OnOk result (AllByRecursion IsSized (now effect_of_entry (state self.old))) }
        ensures chains { tells
            → OnOk result (AllByRecursion (λ chain. is_chain effect_of_entry chain ≡ true)
            (now effect_of_entry (state self.old))) }
        ensures room { (n : ℕ) → is_full self.new n → is_full self.old n }
        ensures not_full { IsErrOf result Full → ⊥ };

    /// Returns whether a batch is open.
    fn batch_open(&self) -> bool
        ensures { result ≡ is_open (state self.now).pending };

    /// Returns the offset up to which the log is durable.
    fn stable_offset(&self) -> Lsn
        ensures { result ≡ stable_bytes self.now };

    /// Returns the size of the log in bytes. Each log says what it counts.
    fn size(&self) -> u64
        ensures { result ≡ bytes self.now };

    /// Returns how often the log was read. This count and the next two stop at `u64::MAX`.
    fn reads(&self) -> u64
        ensures { result ≡ (counts self.now).reads };

    /// Returns how often the device failed to read.
    fn failed_reads(&self) -> u64
        ensures { result ≡ (counts self.now).failed_reads };

    /// Returns how often the device failed to write, or to make durable what was written.
    fn write_faults(&self) -> u64
        ensures { result ≡ (counts self.now).write_faults };

    /// The log holds the page of a message that is due.
    ghost due_is_held: { (log : Self) (pid place : ℕ) → tells → (state log).usable ≡ true
        → due log ≡ Some (pid, place) → pid < length (now effect_of_entry (state log)) };

    /// A crash at the current moment may leave exactly what is durable.
    ghost keeps_stable: { (log : Self) → tells → (state log).usable ≡ true
        → left_since log (moment log) (unplaced_state (state log)).stable };

    /// A crash at the current moment leaves what is durable, and a prefix of what is pending that splits no batch, except a
    /// cancelled one.
    ghost only_now: { (log : Self) (pages : List Messages) → tells → (state log).usable ≡ true
        → left_since log (moment log) pages
        → IsLeft effect_of (unplaced_state (state log)) [] pages };

    /// The crash states since a moment are among those since any earlier moment.
    ghost since_earlier: { (log : Self) (t u : ℕ) (pages : List Messages) → tells → t ≤ u
        → left_since log u pages → left_since log t pages };
}
