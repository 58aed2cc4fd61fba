//! A store of one record and of the changes since it, on any disk.
//!
//! At every moment of a call the disk represents what was stored before the call or what is stored after it.
#![tactic(auto)]

mod commit;
mod fault;
mod laws;
mod power;
mod reading;
mod sizes;
mod spelling;
mod store;

pub use fault::StoreFault;
pub use laws::{armed_runs, stopped_commits, stopped_open, stopped_runs};
pub use power::{failure_commits, stop_commits};
pub use store::Store;
