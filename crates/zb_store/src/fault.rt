//! Why a call of the store failed.
ghost use Rattle.std.specs.Prelude.{◌≡◌};
ghost use Rattle.zb_store.specs.declared.fault.StoreFault.TheVariants.{NoMemory as lacks};

use std::alloc::AllocError;
use std::error::Error;
use std::fmt;

/// Why a call of the store failed. After a failed `put` or `append` the store is opened again.
#[derive(Clone, Copy, Debug, PartialEq, Eq)]
pub enum StoreFault {
    /// The disk failed.
    Disk,
    /// No slot of the disk stands open.
    NoRecord,
    /// The record has more bytes than `RECORD_ROOM`, or the payload more than `PAYLOAD_ROOM`.
    TooLarge {
        /// How many it has.
        len: u32,
    },
    /// There was no memory left.
    NoMemory,
    /// The generation can't rise any more.
    Worn,
}

impl fmt::Display for StoreFault {
    ghost use Rattle.std.specs.Prelude.{Some};
    ghost use Rattle.zb_store.specs.Texts.{fault_text};

    ghost output = { λ fault. Some (fault_text fault) };

    fn fmt<W: fmt::Write>(&self, f: &mut fmt::Formatter<W>) -> fmt::Result {
        match self {
            StoreFault::Disk => f.write_str("the disk failed"),
            StoreFault::NoRecord => f.write_str("no record stands on the disk"),
            StoreFault::TooLarge { len } => write!(f, "{len} bytes are too many"),
            StoreFault::NoMemory => f.write_str("no memory"),
            StoreFault::Worn => f.write_str("the last generation is used up"),
        }
    }
}

impl Error for StoreFault {}

impl From<AllocError> for StoreFault {
    ghost from_gives = { λ _ e. e ≡ lacks };

    fn from(_error: AllocError) -> StoreFault {
        StoreFault::NoMemory
    }
}
