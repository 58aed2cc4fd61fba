//! The trust centre over its store: how a store is judged, made anew and goes on from a backup, how the centre handles
//! an event, and the lines of what its tables hold. What an event changes is stored before anything of it is returned.
#![tactic(auto)]

mod backup;
mod counters;
mod fault;
mod law;
mod rows;
mod store;

pub use backup::put_backup;
pub use counters::skip;
pub use fault::AdminFault;
pub use law::no_counter_comes_again;
pub use rows::put_tables;
pub use store::{centre_tables, handle, init, judge, restore};
pub use zb_centre::{Centre, CentreEvent};
