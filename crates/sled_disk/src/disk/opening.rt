//! Opening a file of the operating system.

ghost use Rattle.std.specs.Prelude.{◌≡◌, ◌⊎◌, false, true, IfOk, IfErr};
ghost use Rattle.std.specs.Fs.{asks_append, asks_create, asks_read, asks_truncate, asks_write};
ghost use Rattle.sled_log.specs.declared.log.LogError.TheVariants.{Memory, ReadFault};

use super::Disk;
use super::file::FileDisk;
use super::limit::size_limit;
use sled_log::LogError;
use std::alloc::Alloc;
use std::fs::{File, Files, OpenOptions};
use std::io::ErrorKind;
use std::os::unix::fs::{FileExt, MetadataExt};
use std::path::Path;
use std::{fs, io};

// So often is a file opened again whose place another took before it was locked.
const MOST_TRIES: u32 = 100;

impl FileDisk<File> {
    /// Opens the file at a path, creates it if there is none, and locks it: only one process can have it open at a time.
    ///
    /// Once it is locked, the path still leads to that file, and the file's directory (for a link, that of its target) has been synced, so
    /// its name is durable. The sync is skipped if this process may not read the directory, or if the system cannot sync directories. The
    /// file is neither truncated nor written. The disk makes no write that ends after the size to which the process may write files
    /// (RLIMIT_FSIZE), if `/proc` reports it: a system ends a process that tries.
    ///
    /// ReadFault: the file cannot be opened for reading and writing; it is not a regular file (a directory, a device, a link that leads to
    /// nothing); it reports no bytes but has some or cannot be synced, as files of `/proc`; it is open elsewhere; another file took its
    /// place at each of 100 tries; or its directory could not be synced. Memory: an allocation failed, which can only happen if the path is
    /// a link.
    pub fn open<R: Files<File = File> + Alloc>(
        rt: &R,
        path: &str,
    ) -> Result<FileDisk<File>, LogError>
        ensures counts { IfOk result (λ disk. ⟦<Self as Disk>⟧.counts disk
            ≡ record { reads = 0; failed_reads = 0; write_faults = 0 }) }
        ensures only { IfErr result (λ e. (e ≡ ReadFault) ⊎ (e ≡ Memory)) }
    {
        match open_locked(rt, path) {
            Ok(file) => Ok(FileDisk::within(file, size_limit(rt))),
            Err(error) if error.kind() == ErrorKind::OutOfMemory => Err(LogError::Memory),
            Err(_) => Err(LogError::ReadFault),
        }
    }
}

// The file of a path, locked, whose name is durable.
fn open_locked<R: Files<File = File> + Alloc>(rt: &R, path: &str) -> io::Result<File> {
    for _ in 0..MOST_TRIES {
        let file = lock(rt, path)?;
        if leads_to(rt, path, &file)? {
            refuse_unwritten(&file)?;
            sync_name(rt, path)?;
            return Ok(file);
        }
    }
    Err(io::Error::from(ErrorKind::ResourceBusy))
}

// Opens the file of a path, and locks it.
fn lock<R: Files<File = File>>(files: &R, path: &str) -> io::Result<File> {
    // what is no file isn't opened: that may wait, or do something to it
    if is_no_file(files, path) {
        return Err(io::Error::from(ErrorKind::InvalidInput));
    }
    let file = options().open(files, path)?;
    if !file.metadata()?.is_file() {
        return Err(io::Error::from(ErrorKind::InvalidInput));
    }
    file.try_lock()?;
    Ok(file)
}

// To read and write, and to make it where it is absent; nothing is cut, and nothing is written behind what others write.
fn options() -> OpenOptions
    ensures reads { asks_read result ≡ true }
    ensures writes { asks_write result ≡ true }
    ensures makes { asks_create result ≡ true }
    ensures cuts_nothing { asks_truncate result ≡ false }
    ensures adds_nothing { asks_append result ≡ false }
{
    let mut options = OpenOptions::new();
    options.read(true).write(true).create(true);
    options
}

// Whether a path leads to a folder or a device, or is a link that leads to nothing.
fn is_no_file<R: Files<File = File>>(files: &R, path: &str) -> bool {
    match files.metadata(path) {
        Ok(found) => !found.is_file(),
        Err(_) => is_link(files, path),
    }
}

fn is_link<R: Files<File = File>>(files: &R, path: &str) -> bool {
    files
        .symlink_metadata(path)
        .is_ok_and(|found| found.is_symlink())
}

// Whether a path leads to this file. Another may have taken its place before it was locked.
fn leads_to<R: Files<File = File>>(files: &R, path: &str, file: &File) -> io::Result<bool> {
    let found = file.metadata()?;
    match files.metadata(path) {
        Ok(present) => Ok((present.dev(), present.ino()) == (found.dev(), found.ino())),
        Err(error) if error.kind() == ErrorKind::NotFound => Ok(false),
        Err(error) => Err(error),
    }
}

// A file of the system's own, as in `/proc`, says that it has no bytes, and would be written over. It has some, or can't be synced.
fn refuse_unwritten(file: &File) -> io::Result<()> {
    if file.metadata()?.len() > 0 {
        return Ok(());
    }
    file.sync_all()?;
    match file.read_at(&mut [0], 0)? {
        0 => Ok(()),
        _ => Err(io::Error::from(ErrorKind::InvalidInput)),
    }
}

// Makes the name of a file durable: whoever gave it may have ended before it was.
fn sync_name<R: Files<File = File> + Alloc>(rt: &R, path: &str) -> io::Result<()> {
    if is_link(rt, path) {
        let target = fs::canonicalize(rt, path)?;
        return sync_folder(rt, target.as_path());
    }
    sync_folder(rt, Path::new(path))
}

// Makes durable which files the folder of a path has.
fn sync_folder<R: Files<File = File>>(files: &R, path: Path<'_>) -> io::Result<()> {
    let folder = match path.parent() {
        Some(folder) => folder.as_str(),
        None => "",
    };
    let folder = if folder.is_empty() { "." } else { folder };
    let folder = match File::open(files, folder) {
        Ok(folder) => folder,
        // one that this process may not read is synced by nobody
        Err(error) if error.kind() == ErrorKind::PermissionDenied => return Ok(()),
        Err(error) => return Err(error),
    };
    match folder.sync_all() {
        // there are systems that sync no folder
        Err(error) if error.kind() == ErrorKind::InvalidInput => Ok(()),
        synced => synced,
    }
}
