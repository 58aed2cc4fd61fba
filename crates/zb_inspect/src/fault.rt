//! What can prevent that a report is written to its end.
ghost use Rattle.std.specs.Prelude.{◌≡◌};
ghost use Rattle.zb_inspect.specs.declared.fault.InspectFault.TheVariants.{Write as unwritten, NoMemory as lacks};

use std::alloc::AllocError;
use std::error::Error;
use std::fmt;
use zb_base::{Failed, NoMemory};

/// Why a report wasn't written to its end.
#[derive(Clone, Copy, Debug, PartialEq, Eq)]
pub enum InspectFault {
    /// The sink failed, and its count of faults rose.
    Write,
    /// Memory ran out.
    NoMemory,
}

impl fmt::Display for InspectFault {
    ghost use Rattle.std.specs.Prelude.{Some};
    ghost use Rattle.zb_inspect.specs.Texts.{fault_text};

    ghost output = { λ fault. Some (fault_text fault) };

    fn fmt<W: fmt::Write>(&self, f: &mut fmt::Formatter<W>) -> fmt::Result {
        match self {
            InspectFault::Write => f.write_str("the report can't be written"),
            InspectFault::NoMemory => f.write_str("no memory"),
        }
    }
}

impl Error for InspectFault {}

impl From<Failed> for InspectFault {
    ghost from_gives = { λ _ e. e ≡ unwritten };

    fn from(_error: Failed) -> InspectFault {
        InspectFault::Write
    }
}

impl From<AllocError> for InspectFault {
    ghost from_gives = { λ _ e. e ≡ lacks };

    fn from(_error: AllocError) -> InspectFault {
        InspectFault::NoMemory
    }
}

impl From<NoMemory> for InspectFault {
    ghost from_gives = { λ _ e. e ≡ lacks };

    fn from(_error: NoMemory) -> InspectFault {
        InspectFault::NoMemory
    }
}
