//! Opening a cache over a file whose bytes the program reads and hands in.

ghost use Rattle.std.specs.Prelude.{◌≡◌, ℕ, List, [], None, length, true, IfOk, IfErr, IfSome, IfNone, OnOk};
ghost use Rattle.sled_log.specs.LogState.{now};
ghost use Rattle.sled_log.specs.Messages.{effect_of_entry};
ghost use Rattle.sled_log.specs.declared.log.LogError.TheVariants.{ReadFault};
ghost use Rattle.sled_disk.specs.CallersFile.{held_after};
ghost use Rattle.sled_disk.specs.Staged.{seen_of};
ghost use Rattle.sled_pagecache.specs.Opening.{MayBeOpened, fault_of};
ghost use Rattle.sled_handle.specs.FileOpenings.{HasRead, IsFailure, IsLogOver, IsNotNew, IsOpened, IsOpenedOver, IsOpeningOver, IsRead, IsUnused, TellsFault, with_log};

use crate::status::{READ, status_of};
use read_log::{PartRead, ReadLog};
use sled_disk::laws::a_log_is_of_its_bytes;
use sled_disk::{CallersFile, DiskLog, Reader, StagedDisk};
use sled_log::LogError;
use sled_pagecache::{Config, Disk, Error, Log, PageCache};
use std::alloc::Global;

mod read_log;
mod served;

/// A log in a file that the program reads and writes.
pub type FileLog<F> = DiskLog<StagedDisk<F>>;

/// A cache over such a log.
pub type FileCache<F> = PageCache<FileLog<F>>;

// So many bytes has the file of a log that holds nothing.
const NEW_SIZE: u64 = 9;

/// A cache that is being opened over a file. Its log is read, what was read is made durable, and then the cache's own pages are read.
///
/// If bytes of the file are needed, the call is repeated with them, and continues. While the log is read, one piece at a time is needed, and it is
/// dropped before the next one.
#[derive(Drop)]
pub struct Opening<F: CallersFile, L: Log = FileLog<F>> {
    config: Config,
    // none while a call goes on, and behind one that failed
    step: Option<Step<F, L>>,
    needs: Option<(u64, usize)>,
}

// How far an opening has come.
#[derive(Drop)]
enum Step<F: CallersFile, L: Log = FileLog<F>> {
    // nothing was read
    Unread(StagedDisk<F>),
    // a part of the log was
    Reading(PartRead<F>),
    // all of it was, and isn't known to be durable
    Unsynced(PartRead<F>),
    // all of it was, and is durable
    Read(ReadLog<L>),
}

impl<F: CallersFile> Opening<F> {
    /// Begins to open a file of `len` bytes. An empty file gets an empty log.
    ///
    /// The error is a status: that of an invalid setting, which is checked first, or of a failure to write the empty log.
    pub fn new(alloc: Global, config: Config, file: F, len: u64) -> Result<Opening<F>, u32>
        requires len { F.tells → len ≡ length (held_after (F.first file) (F.done file)) }
        ensures config { IfOk result (λ opening. opening.config ≡ config) }
        ensures faultless { IfOk result (λ opening. fault_of config ≡ None) }
        ensures settings { IfErr result (TellsFault config) }
        ensures fails { IfErr result IsFailure }
        ensures over { F.tells
            → IfOk result (IsOpeningOver (with_log (held_after (F.first file) (F.done file)))) }
    {
        if let Some(why) = config.fault() {
            return Err(status_of(&Error::Unsupported(why)));
        }
        let mut disk = StagedDisk::over(alloc, file, len);
        if len == 0
            && let Err(error) = DiskLog::create(&mut disk)
        {
            return Err(status_of_log(error));
        }
        Ok(Opening {
            config,
            step: Some(Step::Unread(disk)),
            needs: None,
        })
    }

    /// Returns the place and the number of the bytes that are needed to continue, if any are.
    pub fn needs(&self) -> Option<(u64, usize)>
        ensures { result ≡ self.now.needs }
    {
        self.needs
    }

    /// Continues the opening. Returns the cache, or `None` if bytes of the file are needed first. The error is the status of a failure, which ends
    /// the opening.
    pub fn go_on(&mut self, alloc: Global) -> Result<Option<FileCache<F>>, u32>
        ensures opened { IfOk result (λ found. IfSome found (IsOpened self.old.config)) }
        ensures over { F.tells → (bytes : List ℕ) → IsOpeningOver bytes self.old
            → IfOk result (λ found. IfSome found (IsOpenedOver ⟦<FileLog<F> as Log>⟧ self.old.config bytes)) }
        ensures waits { F.tells → (bytes : List ℕ) → IsOpeningOver bytes self.old
            → IfOk result (λ found. IfNone found (IsOpeningOver bytes self.new)) }
        ensures fails { IfErr result IsFailure }
        ensures config { self.new.config ≡ self.old.config }
    {
        match self.read_on(alloc)? {
            Some(read) => self.start(alloc, read),
            None => Ok(None),
        }
    }

    /// Continues the opening until the log is read, and no further. Returns whether it is read: if not, bytes of the file are needed first. The error
    /// is the status of a failure, which ends the opening.
    pub fn read_log(&mut self, alloc: Global) -> Result<bool, u32>
        ensures read { IfOk result (λ is_read. is_read ≡ true → HasRead self.new) }
        ensures over { F.tells → (bytes : List ℕ) → IsOpeningOver bytes self.old
            → OnOk result (IsOpeningOver bytes self.new) }
        ensures fails { IfErr result IsFailure }
        ensures config { self.new.config ≡ self.old.config }
    {
        let Some(read) = self.read_on(alloc)? else {
            return Ok(false);
        };
        self.put_log(read.log);
        Ok(true)
    }

    /// Removes the log from the opening and returns it, if it was read and holds nothing. Otherwise returns `None`, and nothing changes.
    pub fn take_new_log(&mut self) -> Option<FileLog<F>>
        ensures some { IfSome result (λ log. IsRead self.old log) }
        ensures new { IfSome result (IsUnused ⟦<FileLog<F> as Log>⟧) }
        ensures empty { F.tells
            → IfSome result (λ log. now effect_of_entry (⟦<FileLog<F> as Log>⟧.state log) ≡ []) }
        ensures may { IfSome result (MayBeOpened ⟦<FileLog<F> as Log>⟧) }
        ensures none { IfNone result (IsNotNew self.old) }
        ensures kept { IfNone result (self.new ≡ self.old) }
        ensures config { self.new.config ≡ self.old.config }
    {
        let is_new = match &self.step {
            Some(Step::Read(read)) => read.log.size() == NEW_SIZE && read.log.is_empty(),
            _ => false,
        };
        if !is_new {
            return None;
        }
        match self.step.take() {
            Some(Step::Read(read)) => Some(read.log),
            _ => unreachable!(),
        }
    }

    /// Puts a log over which a cache can be opened into the opening, as if it had been read.
    pub fn put_log(&mut self, log: FileLog<F>)
        requires { MayBeOpened ⟦<FileLog<F> as Log>⟧ log }
        ensures read { IsRead self.new log }
        ensures config { self.new.config ≡ self.old.config }
        ensures over { F.tells → (⟦<FileLog<F> as Log>⟧.state log).pending ≡ []
            → IsOpeningOver (seen_of log.disk) self.new }
    {
        a_log_is_of_its_bytes(&log);
        self.step = Some(Step::Read(ReadLog { log }));
        self.needs = None;
    }

    // Goes on until the log is read: that, or none where bytes are needed, or a status that tells why it won't be.
    fn read_on(&mut self, alloc: Global) -> Result<Option<ReadLog<FileLog<F>>>, u32>
        ensures over { F.tells → (bytes : List ℕ) → IsOpeningOver bytes self.old
            → IfOk result (λ found. IfSome found (λ read. IsLogOver ⟦<FileLog<F> as Log>⟧ self.old.config bytes read.log)) }
        ensures waits { F.tells → (bytes : List ℕ) → IsOpeningOver bytes self.old
            → IfOk result (λ found. IfNone found (IsOpeningOver bytes self.new)) }
        ensures fails { IfErr result IsFailure }
        ensures config { self.new.config ≡ self.old.config }
    {
        if self.has_failed() {
            return Err(status_of_log(LogError::WriteFault));
        }
        match self.step.take() {
            Some(Step::Unread(disk)) => self.begin(alloc, disk),
            Some(Step::Reading(part)) => self.read(alloc, part),
            Some(Step::Unsynced(part)) => self.make_durable(alloc, part),
            Some(Step::Read(read)) => Ok(Some(read)),
            None => Err(status_of_log(LogError::WriteFault)),
        }
    }

    // Begins to read the log.
    fn begin(
        &mut self,
        alloc: Global,
        mut disk: StagedDisk<F>,
    ) -> Result<Option<ReadLog<FileLog<F>>>, u32>
        ensures over { F.tells → IfOk result (λ found. IfSome found
            (λ read. IsLogOver ⟦<FileLog<F> as Log>⟧ self.old.config (seen_of disk) read.log)) }
        ensures waits { F.tells
            → IfOk result (λ found. IfNone found (IsOpeningOver (seen_of disk) self.new)) }
        ensures fails { IfErr result IsFailure }
        ensures config { self.new.config ≡ self.old.config }
    {
        match Reader::begin(alloc, &mut disk) {
            Ok(reader) => self.read(alloc, PartRead { reader, disk }),
            Err(error) => {
                self.wait(error, disk.needs())?;
                self.step = Some(Step::Unread(disk));
                Ok(None)
            }
        }
    }

    // Reads the log on. The piece that was handed in has been taken by the reader, and is let go.
    fn read(&mut self, alloc: Global, part: PartRead<F>) -> Result<Option<ReadLog<FileLog<F>>>, u32>
        ensures over { F.tells → IfOk result (λ found. IfSome found
            (λ read. IsLogOver ⟦<FileLog<F> as Log>⟧ self.old.config (seen_of part.disk) read.log)) }
        ensures waits { F.tells
            → IfOk result (λ found. IfNone found (IsOpeningOver (seen_of part.disk) self.new)) }
        ensures fails { IfErr result IsFailure }
        ensures config { self.new.config ≡ self.old.config }
    {
        let PartRead {
            mut reader,
            mut disk,
        } = part;
        match reader.read(&mut disk) {
            Ok(_) => self.make_durable(alloc, PartRead { reader, disk }),
            Err(error) => {
                self.wait(error, disk.needs())?;
                disk.forget();
                self.step = Some(Step::Reading(PartRead { reader, disk }));
                Ok(None)
            }
        }
    }

    // Makes durable what was read, and makes the log of it.
    fn make_durable(
        &mut self,
        alloc: Global,
        part: PartRead<F>,
    ) -> Result<Option<ReadLog<FileLog<F>>>, u32>
        ensures over { F.tells → IfOk result (λ found. IfSome found
            (λ read. IsLogOver ⟦<FileLog<F> as Log>⟧ self.old.config (seen_of part.disk) read.log)) }
        ensures waits { F.tells
            → IfOk result (λ found. IfNone found (IsOpeningOver (seen_of part.disk) self.new)) }
        ensures fails { IfErr result IsFailure }
        ensures config { self.new.config ≡ self.old.config }
    {
        let PartRead { reader, mut disk } = part;
        if let Err(error) = reader.make_durable(&mut disk) {
            self.wait(error, disk.needs())?;
            self.step = Some(Step::Unsynced(PartRead { reader, disk }));
            return Ok(None);
        }
        let segment_size = self.config.segment_size as u64;
        match DiskLog::open_with(alloc, reader, disk, segment_size, 0) {
            Ok(log) => Ok(Some(ReadLog { log })),
            Err((error, reader, disk)) => {
                self.wait(error, disk.needs())?;
                self.step = Some(Step::Unsynced(PartRead { reader, disk }));
                Ok(None)
            }
        }
    }

    // Starts the cache over its log.
    fn start(
        &mut self,
        alloc: Global,
        read: ReadLog<FileLog<F>>,
    ) -> Result<Option<FileCache<F>>, u32>
        ensures opened { IfOk result (λ found. IfSome found (IsOpened self.old.config)) }
        ensures over { F.tells → (bytes : List ℕ) → IsLogOver ⟦<FileLog<F> as Log>⟧ self.old.config bytes read.log
            → IfOk result (λ found. IfSome found (IsOpenedOver ⟦<FileLog<F> as Log>⟧ self.old.config bytes)) }
        ensures waits { F.tells → (bytes : List ℕ) → IsLogOver ⟦<FileLog<F> as Log>⟧ self.old.config bytes read.log
            → IfOk result (λ found. IfNone found (IsOpeningOver bytes self.new)) }
        ensures fails { IfErr result IsFailure }
        ensures config { self.new.config ≡ self.old.config }
    {
        match PageCache::start(alloc, self.config, read.log) {
            Ok(mut cache) => {
                cache.forget();
                Ok(Some(cache))
            }
            Err((error, log)) => {
                let status = status_of(&error);
                let needs = log.disk().needs();
                if status != READ || needs.is_none() {
                    return Err(status);
                }
                self.step = Some(Step::Read(ReadLog { log }));
                self.needs = needs;
                Ok(None)
            }
        }
    }

    // Waits for bytes, where some are needed and a read failed.
    fn wait(&mut self, error: LogError, needs: Option<(u64, usize)>) -> Result<(), u32>
        ensures read { OnOk result (error ≡ ReadFault) }
        ensures fails { IfErr result IsFailure }
        ensures config { self.new.config ≡ self.old.config }
    {
        if error != LogError::ReadFault || needs.is_none() {
            return Err(status_of_log(error));
        }
        self.needs = needs;
        Ok(())
    }
}

// The status of a log's failure.
fn status_of_log(error: LogError) -> u32
    ensures { IsFailure result }
{
    status_of(&Error::from(error))
}
