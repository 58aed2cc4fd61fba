//! What the system refused to do with a store's file, for the people who read standard error.
ghost use Rattle.std.specs.Prelude.{◌≡◌};
ghost use Rattle.zb_disk.specs.File.{file_fault};

use std::io;
use std::io::ErrorKind;

/// A system call on a store's file.
#[derive(Clone, Copy, Debug, PartialEq, Eq)]
pub enum FileCall {
    /// Opening, locking or making the file.
    Open,
    /// Asking for its size.
    Size,
    /// Reading bytes of it.
    Read,
    /// Writing bytes of it.
    Write,
    /// Syncing it; also if its path no longer named it.
    Sync,
}

/// A system call on a store's file that failed, and why.
#[derive(Clone, Copy, Debug, PartialEq, Eq)]
pub struct FileFault {
    /// The call.
    pub call: FileCall,
    /// The number that the system gave for the error; `None` if the file itself was refused.
    pub errno: Option<i32>,
    /// Whether another process has the file open.
    pub is_taken: bool,
}

impl FileFault {
    /// Returns what is kept about an error of a call.
    pub fn new(call: FileCall, error: &io::Error) -> FileFault
        ensures { result ≡ file_fault call error.now }
    {
        FileFault {
            call,
            errno: error.raw_os_error(),
            is_taken: matches!(call, FileCall::Open)
                && matches!(error.kind(), ErrorKind::WouldBlock),
        }
    }
}
