//! The rollover of the network key: what its steps change, which device is told next, and whether all were told.
//!
//! A new key is drawn and sent to each device, and then all switch to it. Its state is in the tables of the centre.
#![tactic(auto)]

mod members;
mod rolling;

pub use members::{may_switch, next_member};
pub use rolling::{add_start, again, finish, start};
