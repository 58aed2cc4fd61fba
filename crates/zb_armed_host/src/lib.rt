//! One call of a node's host over its disk in memory, on which a stop or a failure may be armed.
//!
//! A call arms its disk anew and takes what is left of that back, so between two calls nothing is armed on the disk.
#![tactic(auto)]

mod arms;
mod boot;
mod event;
mod fall;
mod law;
mod power;
mod shown;

pub use crate::arms::Arms;
pub use crate::boot::boot_armed;
pub use crate::event::run;
pub use crate::fall::{Cut, Fall, Fallen};
pub use crate::law::{nothing_armed_stays, one_gate_stands_open, stops_and_failures};
pub use crate::power::reset;
pub use crate::shown::dump;
