//! A disk over a file.
ghost use Rattle.std.specs.Prelude.{◌≡◌, ◌≤◌, IfOk, None};
ghost use Rattle.std.proofs.Common.{rules};
ghost use Rattle.zb_base.specs.Outside.{risen};
ghost use Rattle.zb_disk.specs.File.{file_fault, file_tells, file_view, first_of};

use crate::{Disk, FileCall, FileFault, StoreFiles};
use std::fs::OpenFile;
use std::io::{self, ErrorKind, Read, Seek, SeekFrom, Write};
use zb_base::{Failed, NoMemory};

/// A disk whose bytes are those of a file. It describes nothing of its content.
///
/// The file is opened at first use, for this process alone. A missing or empty file reads as empty, and the first
/// write makes it. After a failed sync every call fails, because the disk's content is unknown until the file is
/// opened again. A sync fails if the path no longer names the file.
#[derive(Drop)]
pub struct FileDisk<'a, T: StoreFiles + AllocGlobal + Drop> {
    rt: &'a T,
    path: String,
    file: Option<T::File>,
    // No file has that name, or an empty one.
    is_missing: bool,
    // The file was made, and its name may not be on the disk yet.
    is_new: bool,
    // A sync failed.
    is_lost: bool,
    /// The number of writes and syncs that were called.
    pub calls: u64,
    /// The number of calls that failed.
    pub faults: u64,
    /// The first failure, if any call failed.
    pub first_fault: Option<FileFault>,
}

impl<'a, T: StoreFiles + AllocGlobal + Drop> FileDisk<'a, T> {
    /// Makes a disk over the file at this path. It opens nothing.
    ///
    /// # Errors
    /// `NoMemory`, for the path.
    pub fn new(rt: &'a T, path: &str) -> Result<FileDisk<'a, T>, NoMemory>
        ensures calls { IfOk result (λ d. d.calls ≡ 0) }
        ensures faults { IfOk result (λ d. d.faults ≡ 0) }
        ensures first_fault { IfOk result (λ d. d.first_fault ≡ None) }
    {
        Ok(FileDisk {
            rt,
            path: String::from_str(rt.alloc(), path)?,
            file: None,
            is_missing: false,
            is_new: false,
            is_lost: false,
            calls: 0,
            faults: 0,
            first_fault: None,
        })
    }

    // Takes out the file, which is opened at first use; `None` if it is missing or empty. Each call puts it back.
    fn take_file(&mut self) -> io::Result<Option<T::File>>
        ensures calls { self.new.calls ≡ self.old.calls }
        ensures faults { self.new.faults ≡ self.old.faults }
    {
        if self.is_lost {
            return Err(io::Error::from(ErrorKind::Other));
        }
        if self.is_missing {
            return Ok(None);
        }
        if let Some(file) = self.file.take() {
            return Ok(Some(file));
        }
        let found = self.rt.open_store(self.path.as_str())?;
        self.is_missing = found.is_none();
        Ok(found)
    }

    // Takes out the file for a write, which makes it if it is missing or empty.
    fn take_or_make(&mut self) -> io::Result<T::File>
        ensures calls { self.new.calls ≡ self.old.calls }
        ensures faults { self.new.faults ≡ self.old.faults }
    {
        if let Some(file) = self.take_file()? {
            return Ok(file);
        }
        let file = self.rt.make_store(self.path.as_str())?;
        self.is_missing = false;
        self.is_new = true;
        Ok(file)
    }

    // Syncs the file, and the folder of a new one, if the path still names it. After a failure the disk is lost.
    fn sync_file(&mut self, file: T::File) -> io::Result<()>
        ensures calls { self.new.calls ≡ self.old.calls }
        ensures faults { self.new.faults ≡ self.old.faults }
    {
        self.is_lost = true;
        self.rt.check_named(self.path.as_str(), &file)?;
        file.sync_all()?;
        if self.is_new {
            self.rt.sync_folder(self.path.as_str())?;
        }
        self.is_new = false;
        self.is_lost = false;
        self.file = Some(file);
        Ok(())
    }

    // Counts a call that failed, and keeps why the first one did.
    fn fail(&mut self, call: FileCall, error: &io::Error) -> Failed
        ensures calls { self.new.calls ≡ self.old.calls }
        ensures faults { self.new.faults ≡ risen self.old.faults 1 }
        ensures later { self.old.faults ≤ self.new.faults }
        ensures kept { self.new.first_fault ≡ first_of self.old.first_fault (file_fault call error.now) }
    {
        self.faults = self.faults.saturating_add(1);
        if self.first_fault.is_none() {
            self.first_fault = Some(FileFault::new(call, error));
        }
        Failed
    }
}

// Fills the buffer from a place on, with 00 past the end.
fn read_file<F: Read + Seek>(file: &mut F, at: u64, buf: &mut [u8]) -> io::Result<()> {
    file.seek(SeekFrom::Start(at))?;
    let mut filled = 0;
    for _ in 0..u64::MAX {
        if filled == buf.len() {
            return Ok(());
        }
        match file.read(&mut buf[filled..]) {
            Ok(0) => {
                buf[filled..].fill(0);
                return Ok(());
            }
            Ok(count) => filled += count,
            Err(error) if error.kind() == ErrorKind::Interrupted => {}
            Err(error) => return Err(error),
        }
    }
    Ok(())
}

fn write_file<F: Write + Seek>(file: &mut F, at: u64, bytes: &[u8]) -> io::Result<()> {
    file.seek(SeekFrom::Start(at))?;
    file.write_all(bytes)
}

impl<'a, T: StoreFiles + AllocGlobal + Drop> Disk for FileDisk<'a, T> {
    ghost tells = { file_tells };

    ghost state = { λ d. file_view d.calls d.faults };

    ghost reads_image = { λ d told. Prim.search rules };

    ghost counts_now = { λ d t c before now. now };

    ghost only_now = { λ d c left. left };

    fn size(&mut self) -> Result<u64, Failed> {
        match self.take_file() {
            Ok(None) => Ok(0),
            Ok(Some(mut file)) => {
                let size = file.seek(SeekFrom::End(0));
                self.file = Some(file);
                match size {
                    Ok(size) => Ok(size),
                    Err(error) => Err(self.fail(FileCall::Size, &error)),
                }
            }
            Err(error) => Err(self.fail(FileCall::Open, &error)),
        }
    }

    fn read(&mut self, at: u64, buf: &mut [u8]) -> Result<(), Failed> {
        match self.take_file() {
            Ok(None) => {
                buf.fill(0);
                Ok(())
            }
            Ok(Some(mut file)) => {
                let done = read_file(&mut file, at, buf);
                self.file = Some(file);
                match done {
                    Ok(()) => Ok(()),
                    Err(error) => Err(self.fail(FileCall::Read, &error)),
                }
            }
            Err(error) => Err(self.fail(FileCall::Open, &error)),
        }
    }

    fn write(&mut self, at: u64, bytes: &[u8]) -> Result<(), Failed> {
        self.calls = self.calls.saturating_add(1);
        let mut file = match self.take_or_make() {
            Ok(file) => file,
            Err(error) => return Err(self.fail(FileCall::Open, &error)),
        };
        let done = write_file(&mut file, at, bytes);
        self.file = Some(file);
        match done {
            Ok(()) => Ok(()),
            Err(error) => Err(self.fail(FileCall::Write, &error)),
        }
    }

    fn sync(&mut self) -> Result<(), Failed> {
        self.calls = self.calls.saturating_add(1);
        let synced = match self.take_file() {
            Ok(None) => Ok(()),
            Ok(Some(file)) => self.sync_file(file),
            Err(error) => Err(error),
        };
        match synced {
            Ok(()) => Ok(()),
            Err(error) => Err(self.fail(FileCall::Sync, &error)),
        }
    }
}
