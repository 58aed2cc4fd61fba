//! How the process ends: as its run did, or because another process has the store.
ghost use Rattle.std.specs.Prelude.{◌≡◌};
ghost use Rattle.zb_command.specs.Exits.{exit_after, exit_number, exit_text, store_exit};

use crate::status::{Status, word};
use arrayvec::ArrayString;
use zb_disk::FileFault;

/// How the process ends. Its number is the status of the process.
#[derive(Clone, Copy, Debug, PartialEq, Eq)]
pub enum ExitStatus {
    /// The process ends as its run did.
    Run(Status),
    /// Another process has the store open.
    Busy,
}

/// Returns how a process ends whose run ended so, where this failed first on the store's file.
///
/// The store is busy if its file couldn't be opened because another process has it open. Any other failed call on it
/// is a fault of the store.
pub(crate) fn exit_after(status: Status, first: Option<FileFault>) -> ExitStatus
    ensures { result ≡ exit_after status first }
{
    match status {
        Status::DiskFault => store_exit(first),
        Status::Ok
        | Status::Usage
        | Status::ReadFault
        | Status::WriteFault
        | Status::Refused { .. }
        | Status::NoMemory
        | Status::NoStore
        | Status::TooLong { .. }
        | Status::Broken { .. }
        | Status::BadStore { .. }
        | Status::Worn => ExitStatus::Run(status),
    }
}

/// Returns how a process ends whose store failed, first by this fault of its file.
fn store_exit(first: Option<FileFault>) -> ExitStatus
    ensures { result ≡ store_exit first }
{
    match first {
        Some(fault) => {
            if fault.is_taken {
                ExitStatus::Busy
            } else {
                ExitStatus::Run(Status::DiskFault)
            }
        }
        None => ExitStatus::Run(Status::DiskFault),
    }
}

impl ExitStatus {
    ghost use Rattle.std.specs.Prelude.{◌≡◌};
    ghost use Rattle.zb_command.specs.Exits.{exit_number, exit_text};

    /// Returns the status of the process.
    pub fn number(&self) -> u8
        ensures { result ≡ exit_number self.now }
    {
        match self {
            ExitStatus::Run(status) => status.number(),
            ExitStatus::Busy => 13,
        }
    }

    /// Returns how the process ended, for standard output, without a line feed. Nothing is said of `Ok` and
    /// `WriteFault`.
    pub fn text(&self) -> ArrayString<64>
        ensures { result.bytes ≡ exit_text self.now }
    {
        match self {
            ExitStatus::Run(status) => status.text(),
            ExitStatus::Busy => word("busy"),
        }
    }
}
