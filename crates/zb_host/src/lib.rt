//! A node's host: nothing that an event does goes out before its changes are stored.
#![tactic(auto)]

mod commit;
mod fault;
mod host;
mod law;
mod outcome;
mod plan;

pub use crate::fault::{HostFault, RecordFault};
pub use crate::host::Host;
pub use crate::law::{each_boot_goes_on, fallen_events, stopped_events};
pub use crate::outcome::Outcome;
pub use crate::plan::{Core, Plan};
