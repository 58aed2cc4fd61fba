//! What can prevent that a campaign is written to its end.
ghost use Rattle.std.specs.Prelude.{◌≡◌};
ghost use Rattle.zb_campaign.specs.Faults.{made_fault};
ghost use Rattle.zb_campaign.specs.declared.fault.CampaignFault.TheVariants.{Write as unwritten, NoMemory as lacks};

use std::alloc::{AllocError, AllocFailed};
use std::error::Error;
use std::fmt;
use zb_base::{Failed, NoMemory};
use zb_gen::GenFault;
use zb_sched::SchedCause;

/// Why a campaign wasn't written to its end.
#[derive(Clone, Copy, Debug, PartialEq, Eq)]
pub enum CampaignFault {
    /// The sink failed, and its count of faults rose.
    Write,
    /// The schedule of a run clashes: two of its keys are equal, or one is the well-known key.
    ///
    /// It is the first such run. Nothing was written.
    Clash {
        /// The first line of that schedule that clashes, from 1.
        line: u32,
        /// What is wrong with that line.
        cause: SchedCause,
    },
    /// Memory ran out.
    NoMemory,
}

impl fmt::Display for CampaignFault {
    ghost use Rattle.std.specs.Prelude.{Some};
    ghost use Rattle.zb_campaign.specs.Faults.{fault_text};

    ghost output = { λ fault. Some (fault_text fault) };

    fn fmt<W: fmt::Write>(&self, f: &mut fmt::Formatter<W>) -> fmt::Result {
        f.write_str(match self {
            CampaignFault::Write => "the lines can't be written",
            CampaignFault::Clash { .. } => "a made schedule clashes",
            CampaignFault::NoMemory => "no memory",
        })
    }
}

impl Error for CampaignFault {}

impl From<Failed> for CampaignFault {
    ghost from_gives = { λ _ e. e ≡ unwritten };

    fn from(_error: Failed) -> CampaignFault {
        CampaignFault::Write
    }
}

impl From<AllocError> for CampaignFault {
    ghost from_gives = { λ _ e. e ≡ lacks };

    fn from(_error: AllocError) -> CampaignFault {
        CampaignFault::NoMemory
    }
}

impl<T: Drop> From<AllocFailed<T>> for CampaignFault {
    ghost from_gives = { λ _ e. e ≡ lacks };

    fn from(_error: AllocFailed<T>) -> CampaignFault {
        CampaignFault::NoMemory
    }
}

impl From<NoMemory> for CampaignFault {
    ghost from_gives = { λ _ e. e ≡ lacks };

    fn from(_error: NoMemory) -> CampaignFault {
        CampaignFault::NoMemory
    }
}

impl From<GenFault> for CampaignFault {
    ghost from_gives = { λ fault e. e ≡ made_fault fault };

    fn from(fault: GenFault) -> CampaignFault {
        match fault {
            GenFault::Clash { line, cause } => CampaignFault::Clash { line, cause },
            GenFault::NoMemory => CampaignFault::NoMemory,
        }
    }
}
