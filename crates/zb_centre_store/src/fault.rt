//! Why a script wasn't served to its end.
ghost use Rattle.std.specs.Prelude.{◌≡◌};
ghost use Rattle.zb_centre_store.specs.Standing.{fault_of};
ghost use Rattle.zb_centre_store.specs.declared.fault.AdminFault.TheVariants.{NoMemory as lacks};

use std::alloc::{AllocError, AllocFailed};
use std::error::Error;
use std::fmt;
use zb_base::{NoMemory, OrMemory};
use zb_host::RecordFault;

/// Why a script wasn't served to its end.
#[derive(Clone, Copy, Debug, PartialEq, Eq)]
pub enum AdminFault {
    /// The disk failed.
    Disk,
    /// The disk isn't empty, and no slot of it stands open.
    NoStore,
    /// What stands is no record of a centre.
    BadStore {
        /// The place of the first fault, 1 for a record of another role.
        at: u32,
    },
    /// The whole record had to be written, and there is no further generation.
    Worn,
    /// The output failed.
    Write,
    /// There was no memory left.
    NoMemory,
}

impl fmt::Display for AdminFault {
    ghost use Rattle.std.specs.Prelude.{Some};
    ghost use Rattle.zb_centre_store.specs.Faults.{fault_text};

    ghost output = { λ fault. Some (fault_text fault) };

    fn fmt<W: fmt::Write>(&self, f: &mut fmt::Formatter<W>) -> fmt::Result {
        match self {
            AdminFault::Disk => f.write_str("store fault"),
            AdminFault::NoStore => f.write_str("no store"),
            AdminFault::BadStore { at } => write!(f, "bad store {at}"),
            AdminFault::Worn => f.write_str("worn"),
            AdminFault::Write => f.write_str("write fault"),
            AdminFault::NoMemory => f.write_str("no memory"),
        }
    }
}

impl Error for AdminFault {}

impl From<AllocError> for AdminFault {
    ghost from_gives = { λ _ f. f ≡ lacks };

    fn from(_error: AllocError) -> AdminFault {
        AdminFault::NoMemory
    }
}

impl From<NoMemory> for AdminFault {
    ghost from_gives = { λ _ f. f ≡ lacks };

    fn from(_error: NoMemory) -> AdminFault {
        AdminFault::NoMemory
    }
}

impl<T: Drop> From<AllocFailed<T>> for AdminFault {
    ghost from_gives = { λ _ f. f ≡ lacks };

    fn from(_error: AllocFailed<T>) -> AdminFault {
        AdminFault::NoMemory
    }
}

impl From<OrMemory<RecordFault>> for AdminFault {
    ghost from_gives = { λ fault f. f ≡ fault_of fault };

    fn from(fault: OrMemory<RecordFault>) -> AdminFault {
        match fault {
            OrMemory::Fault(RecordFault::Disk) => AdminFault::Disk,
            OrMemory::Fault(RecordFault::NoRecord) => AdminFault::NoStore,
            OrMemory::Fault(RecordFault::BadRecord { at }) => AdminFault::BadStore { at },
            OrMemory::Fault(RecordFault::Worn) => AdminFault::Worn,
            OrMemory::NoMemory => AdminFault::NoMemory,
        }
    }
}
