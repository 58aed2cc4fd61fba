//! The core of the trust centre: what it does at each event, for a host that stores before it sends.
#![tactic(auto)]

mod centre;
mod event;
mod planning;

pub use centre::{Centre, CentrePolicy};
pub use event::CentreEvent;
