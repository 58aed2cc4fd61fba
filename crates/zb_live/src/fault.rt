//! Why a session ended before its input did.
ghost use Rattle.std.specs.Prelude.{◌≡◌};
ghost use Rattle.zb_live.specs.Faults.{fault_of};
ghost use Rattle.zb_live.specs.declared.fault.LiveFault.TheVariants.{NoMemory as lacks};

use std::alloc::{AllocError, AllocFailed};
use std::error::Error;
use std::fmt;
use zb_centre_store::AdminFault;

/// Why a session ended before its input did.
#[derive(Clone, Copy, Debug, PartialEq, Eq)]
pub enum LiveFault {
    /// The input failed.
    Read,
    /// A line has more than 1,048,576 bytes.
    TooLong,
    /// The output failed.
    Write,
    /// The disk failed.
    Disk,
    /// The disk isn't empty, and neither slot is open.
    NoStore,
    /// What is on the disk isn't a record of a centre.
    BadStore {
        /// The place of the first fault, 1 for a record of another role.
        at: u32,
    },
    /// The whole record had to be written, and there is no further generation.
    Worn,
    /// There was no memory left.
    NoMemory,
}

impl fmt::Display for LiveFault {
    ghost use Rattle.std.specs.Prelude.{Some};
    ghost use Rattle.zb_live.specs.Faults.{fault_text};

    ghost output = { λ fault. Some (fault_text fault) };

    fn fmt<W: fmt::Write>(&self, f: &mut fmt::Formatter<W>) -> fmt::Result {
        match self {
            LiveFault::Read => f.write_str("read fault"),
            LiveFault::TooLong => f.write_str("too long 1048576"),
            LiveFault::Write => f.write_str("write fault"),
            LiveFault::Disk => f.write_str("store fault"),
            LiveFault::NoStore => f.write_str("no store"),
            LiveFault::BadStore { at } => write!(f, "bad store {at}"),
            LiveFault::Worn => f.write_str("worn"),
            LiveFault::NoMemory => f.write_str("no memory"),
        }
    }
}

impl Error for LiveFault {}

impl From<AllocError> for LiveFault {
    ghost from_gives = { λ _ f. f ≡ lacks };

    fn from(_error: AllocError) -> LiveFault {
        LiveFault::NoMemory
    }
}

impl<T: Drop> From<AllocFailed<T>> for LiveFault {
    ghost from_gives = { λ _ f. f ≡ lacks };

    fn from(_error: AllocFailed<T>) -> LiveFault {
        LiveFault::NoMemory
    }
}

impl From<AdminFault> for LiveFault {
    ghost from_gives = { λ fault f. f ≡ fault_of fault };

    fn from(fault: AdminFault) -> LiveFault {
        match fault {
            AdminFault::Disk => LiveFault::Disk,
            AdminFault::NoStore => LiveFault::NoStore,
            AdminFault::BadStore { at } => LiveFault::BadStore { at },
            AdminFault::Worn => LiveFault::Worn,
            AdminFault::Write => LiveFault::Write,
            AdminFault::NoMemory => LiveFault::NoMemory,
        }
    }
}
