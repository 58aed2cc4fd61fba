//! What a store needs from the system: a file that only this process has open and only its owner may read.
//!
//! No code here deletes a file: another process may already use it as its store.
ghost use Rattle.std.specs.Prelude.{◌≤◌};

use crate::DISK_ROOM;
use std::fs::{self, File, Files, OpenOptions, TryLockError};
use std::io::{self, ErrorKind, Write};
use std::os::fd::AsRawFd;
use std::os::unix::fs::{MetadataExt, OpenOptionsExt};

/// The number of blocks of 4,096 bytes of a disk.
const BLOCKS: usize = DISK_ROOM / 4096;

/// Opens and makes the files of stores.
pub trait StoreFiles: Files {
    /// Opens the file of a store for this process alone. It returns `None` if there is no file at that path, or an
    /// empty one.
    ///
    /// The file stays locked until it is dropped or the process ends, however it ends.
    ///
    /// # Errors
    /// - `WouldBlock` if another process has it open.
    /// - `InvalidInput` if it isn't a regular file or the path is empty.
    /// - `NotFound` if the path names another file when it is locked.
    /// - Those of the system calls.
    fn open_store(&self, path: &str) -> io::Result<Option<Self::File>>;

    /// Makes the file of a new store for its owner alone, or uses an empty one. It locks the file, and allocates the
    /// whole disk in it.
    ///
    /// If two processes make one store at once, the one that locks the file first has it.
    ///
    /// # Errors
    /// `AlreadyExists` if the file isn't empty, those of `open_store`, and those of the system calls. Then no file
    /// was made, or it was left empty.
    fn make_store(&self, path: &str) -> io::Result<Self::File>;

    /// Checks that a path still names an open file.
    ///
    /// # Errors
    /// `NotFound` if it names another file or none, and those of the system calls.
    fn check_named(&self, path: &str, file: &Self::File) -> io::Result<()>;

    /// Syncs the folder of a path, so that the name of a new file is on the disk.
    ///
    /// # Errors
    /// Those of the system calls.
    fn sync_folder(&self, path: &str) -> io::Result<()>;
}

impl StoreFiles for HostRuntime {
    fn open_store(&self, path: &str) -> io::Result<Option<File>> {
        if is_free(self, path)? {
            return Ok(None);
        }
        let file = opened(self, path)?;
        warn_of_readers(self, path, &file)?;
        if file.metadata()?.len() == 0 {
            return Ok(None);
        }
        // What an earlier process wrote and did not sync.
        file.sync_all()?;
        Ok(Some(file))
    }

    fn make_store(&self, path: &str) -> io::Result<File> {
        let mut file = match made(self, path) {
            Ok(file) => taken(self, path, file)?,
            Err(error) if error.kind() == ErrorKind::AlreadyExists => opened(self, path)?,
            Err(error) => return Err(error),
        };
        // Another process may have made the store before this one had the lock.
        if file.metadata()?.len() != 0 {
            return Err(io::Error::from(ErrorKind::AlreadyExists));
        }
        match fill(&mut file) {
            Ok(()) => Ok(file),
            Err(error) => {
                // A half-made file isn't a store. Whoever finds it empty may make it.
                let _ = file.set_len(0);
                Err(error)
            }
        }
    }

    fn check_named(&self, path: &str, file: &File) -> io::Result<()> {
        let (found, named) = (file.metadata()?, fs::metadata(self, path)?);
        if !found.is_file() || found.dev() != named.dev() || found.ino() != named.ino() {
            return Err(io::Error::from(ErrorKind::NotFound));
        }
        Ok(())
    }

    fn sync_folder(&self, path: &str) -> io::Result<()> {
        File::open(self, folder_of(path))?.sync_all()
    }
}

/// Returns whether the path is free: nothing has that name yet.
///
/// # Errors
/// `InvalidInput` if it doesn't name a regular file, and if no file can be made there.
fn is_free(rt: &HostRuntime, path: &str) -> io::Result<bool> {
    match fs::metadata(rt, path) {
        Ok(found) if found.is_file() => Ok(false),
        Ok(_) => Err(io::Error::from(ErrorKind::InvalidInput)),
        Err(error) if error.kind() == ErrorKind::NotFound => {
            check_name(rt, path)?;
            Ok(true)
        }
        Err(error) => Err(error),
    }
}

/// Refuses an empty path, a link that leads nowhere (it has the name already), and a folder that isn't one.
fn check_name(rt: &HostRuntime, path: &str) -> io::Result<()> {
    let is_taken = path.is_empty() || fs::symlink_metadata(rt, path).is_ok();
    if is_taken || !fs::metadata(rt, folder_of(path))?.is_dir() {
        return Err(io::Error::from(ErrorKind::InvalidInput));
    }
    Ok(())
}

/// Returns the folder of a path.
fn folder_of(path: &str) -> &str {
    match path.rfind('/') {
        Some(0) => "/",
        Some(at) => &path[..at],
        None => ".",
    }
}

/// Makes an empty file for its owner alone.
fn made(rt: &HostRuntime, path: &str) -> io::Result<File> {
    let mut options = OpenOptions::new();
    options.read(true);
    options.write(true);
    options.create_new(true);
    options.mode(0o600);
    options.open(rt, path)
}

/// Opens and locks the file at a path.
fn opened(rt: &HostRuntime, path: &str) -> io::Result<File> {
    let mut options = OpenOptions::new();
    options.read(true);
    options.write(true);
    taken(rt, path, options.open(rt, path)?)
}

/// Locks an open file, and checks that the path still names it, because its maker may have deleted it before.
fn taken(rt: &HostRuntime, path: &str, file: File) -> io::Result<File> {
    let file = locked(file)?;
    rt.check_named(path, &file)?;
    Ok(file)
}

/// Locks an open file, under a descriptor above those of the standard streams.
///
/// If a standard stream is closed, output to it could otherwise go into the file.
fn locked(file: File) -> io::Result<File> {
    let file = if file.as_raw_fd() <= 2 {
        file.try_clone()?
    } else {
        file
    };
    match file.try_lock() {
        Ok(()) => Ok(file),
        Err(TryLockError::WouldBlock) => Err(io::Error::from(ErrorKind::WouldBlock)),
        Err(TryLockError::Error(error)) => Err(error),
    }
}

/// Fills the whole space of an empty file with zeros, so that no later write fails on a full disk.
fn fill(file: &mut File) -> io::Result<()> {
    let zeros = [0; 4096];
    for _ in 0..BLOCKS {
        file.write_all(&zeros)?;
    }
    Ok(())
}

/// Warns on standard error if others may read or write the store, which holds keys.
fn warn_of_readers(rt: &HostRuntime, path: &str, file: &File) -> io::Result<()> {
    if file.metadata()?.mode() & 0o077 != 0 {
        // If standard error is closed, only the warning is lost.
        let _ = eprintln!(rt;
            "tc: others may read or write {}, which holds keys: chmod 600 is meant for it",
            path.escape_debug()
        );
    }
    Ok(())
}
