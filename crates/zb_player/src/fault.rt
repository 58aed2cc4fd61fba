//! Why a schedule isn't played to its end.
ghost use Rattle.std.specs.Prelude.{◌≡◌};
ghost use Rattle.zb_player.specs.declared.fault.PlayFault.TheVariants.{Write as unwritten, NoMemory as lacks};

use std::alloc::{AllocError, AllocFailed};
use std::error::Error;
use std::fmt;
use zb_base::{Failed, NoMemory};

/// The faults of `play`.
#[derive(Clone, Copy, Debug, PartialEq, Eq)]
pub enum PlayFault {
    /// The sink failed: its count of faults rose.
    Write,
    /// There was no memory left.
    NoMemory,
}

impl fmt::Display for PlayFault {
    ghost use Rattle.std.specs.Prelude.{Some};
    ghost use Rattle.zb_player.specs.FaultTexts.{fault_text};

    ghost output = { λ it. Some (fault_text it) };

    fn fmt<W: fmt::Write>(&self, f: &mut fmt::Formatter<W>) -> fmt::Result {
        f.write_str(match self {
            PlayFault::Write => "the transcript can't be written",
            PlayFault::NoMemory => "no memory",
        })
    }
}

impl Error for PlayFault {}

impl From<Failed> for PlayFault {
    ghost from_gives = { λ _ e. e ≡ unwritten };

    fn from(_error: Failed) -> PlayFault {
        PlayFault::Write
    }
}

impl From<AllocError> for PlayFault {
    ghost from_gives = { λ _ e. e ≡ lacks };

    fn from(_error: AllocError) -> PlayFault {
        PlayFault::NoMemory
    }
}

impl<T: Drop> From<AllocFailed<T>> for PlayFault {
    ghost from_gives = { λ _ e. e ≡ lacks };

    fn from(_error: AllocFailed<T>) -> PlayFault {
        PlayFault::NoMemory
    }
}

impl From<NoMemory> for PlayFault {
    ghost from_gives = { λ _ e. e ≡ lacks };

    fn from(_error: NoMemory) -> PlayFault {
        PlayFault::NoMemory
    }
}
