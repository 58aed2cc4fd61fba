//! Why a call wrote nothing, and the number for it.
ghost use Rattle.std.specs.Prelude.{◌≡◌};
ghost use Rattle.tc_c_centre.specs.Buffers.{number_of};
ghost use Rattle.tc_c_centre.specs.declared.fault.CallFault.TheVariants.{NoMemory as lacks};

use zb_base::NoMemory;

/// Why a call wrote nothing.
#[derive(Clone, Copy)]
pub enum CallFault {
    /// A buffer isn't as it is asked for.
    Usage,
    /// The answer has more bytes than its room.
    Short {
        /// How many it has.
        needed: usize,
    },
    /// The text is no script.
    Refused {
        /// Its first bad line, from 1.
        line: u32,
        /// The number of the first cause.
        cause: u32,
    },
    /// There was no memory left.
    NoMemory,
    /// The store isn't empty, and neither slot is open.
    NoStore,
    /// The script or a line is too long.
    TooLong,
    /// What is in the store isn't a record of a centre.
    BadStore {
        /// The place of the first fault.
        at: u32,
    },
    /// The whole record had to be written, and there is no further generation.
    Worn,
}

impl From<NoMemory> for CallFault {
    ghost from_gives = { λ _ f. f ≡ lacks };

    fn from(_error: NoMemory) -> CallFault {
        CallFault::NoMemory
    }
}

impl CallFault {
    /// Returns the number that the call returns.
    pub(crate) fn number(&self) -> u32
        ensures { result ≡ number_of self.now }
    {
        match self {
            CallFault::Usage => 2,
            CallFault::Short { .. } => 4,
            CallFault::Refused { .. } => 5,
            CallFault::NoMemory => 6,
            CallFault::NoStore => 8,
            CallFault::TooLong => 9,
            CallFault::BadStore { .. } => 11,
            CallFault::Worn => 12,
        }
    }
}
